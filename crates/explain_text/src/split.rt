//! The lines of a text.

ghost use Rattle.std.specs.Prelude.{◌≡◌, ◌≤◌, ◌==◌, ◌++◌, ◌∷◌, [], length, false, take, drop, None, MatchOption, IfOk};
ghost use Rattle.std.specs.List.{list_any, slice_index_or};
ghost use Rattle.basics.specs.Words.{contents};
ghost use Rattle.graph_words.specs.Cuts.{IsCut};
ghost use Rattle.graph_words.specs.Words.{pieces};
ghost use Rattle.explain_text.specs.Front.{behind};
ghost use Rattle.explain_text.specs.Shown.{place_of};

use graph_words::cuts::cut;
use index_spaces::NoMemory;
use index_spaces::room::push;
use memchr::memchr;
use std::alloc::Global;

/// In so many bytes a space is sought one by one.
const FEW_BYTES: usize = 64;

/// The pieces of bytes between their newlines: one more than there are of these.
pub fn split_lines(alloc: Global, bytes: &[u8]) -> Result<Vec<&[u8]>, NoMemory>
    ensures { IfOk result (λ v. contents v.items ≡ pieces 10 bytes.now) }
{
    let mut parts = Vec::new(alloc);
    let mut rest = bytes;
    while let Some((part, after)) = cut_line(rest) {
        push(&mut parts, part)?;
        rest = after;
    }
    push(&mut parts, rest)?;
    Ok(parts)
}

/// The first lines of bytes, and the bytes behind the last of them where lines follow.
#[derive(Drop)]
pub struct FrontLines<'a> {
    pub lines: Vec<&'a [u8]>,
    pub rest: Option<&'a [u8]>,
}

/// The first pieces of bytes between their newlines: so many, or all where there are no more.
pub fn split_front<'a>(
    alloc: Global,
    bytes: &'a [u8],
    count: usize,
) -> Result<FrontLines<'a>, NoMemory>
    ensures { IfOk result (λ v. contents v.lines.items ++ behind v.rest ≡ pieces 10 bytes.now) }
{
    let mut parts = Vec::new(alloc);
    let mut rest = bytes;
    while parts.len() < count {
        match cut_line(rest) {
            Some((part, after)) => {
                push(&mut parts, part)?;
                rest = after;
            }
            None => return all_lines(parts, rest),
        }
    }
    Ok(FrontLines {
        lines: parts,
        rest: Some(rest),
    })
}

/// Lines and the last one, behind which none follows.
fn all_lines<'a>(mut parts: Vec<&'a [u8]>, last: &'a [u8]) -> Result<FrontLines<'a>, NoMemory>
    ensures { IfOk result (λ v. (contents v.lines.items ≡ contents parts.entry.items ++ last.now ∷ []) × (v.rest ≡ None)) }
{
    push(&mut parts, last)?;
    Ok(FrontLines {
        lines: parts,
        rest: None,
    })
}

/// The first line and the bytes behind its newline. `None` exactly where there is no newline.
pub fn cut_line(bytes: &[u8]) -> Option<(&[u8], &[u8])>
    ensures { MatchOption result (list_any (λ b. b == 10) bytes.now ≡ false) (λ x. IsCut 10 bytes.now x.0.now x.1.now) }
{
    match memchr(b'\n', bytes) {
        Some(end) => Some((&bytes[..end], &bytes[end + 1..])),
        None => None,
    }
}

/// The first word of a line and the bytes behind its space. `None` exactly where there is no space. In a long
/// line it is sought many bytes at a time.
pub fn cut_word(line: &[u8]) -> Option<(&[u8], &[u8])>
    ensures { MatchOption result (list_any (λ b. b == 32) line.now ≡ false) (λ x. IsCut 32 line.now x.0.now x.1.now) }
{
    if line.len() <= FEW_BYTES {
        return cut(line, b' ');
    }
    match memchr(b' ', line) {
        Some(end) => Some((&line[..end], &line[end + 1..])),
        None => None,
    }
}

/// The place in bytes of a word of a line; 0 where it is none of its words.
pub(crate) fn place_of(word: &[u8], line: &[u8]) -> usize
    ensures place { result ≡ place_of word.now 0 (pieces 32 line.now) }
    ensures within { result ≤ length line.now }
{
    let mut at = 0;
    let mut rest = line;
    while let Some((part, after)) = cut(rest, b' ') {
        if part == word {
            return at;
        }
        at = line.len() - after.len();
        rest = after;
    }
    if rest == word { at } else { 0 }
}

/// A part by its place from 0, none where there is none.
pub(crate) fn piece<'a>(parts: &[&'a [u8]], place: usize) -> &'a [u8]
    ensures { result.now ≡ slice_index_or (contents parts.now) place [] }
{
    match parts.get(place) {
        Some(part) => part,
        None => b"",
    }
}

/// The first `n` parts, or all where there are fewer.
pub fn front<'a, 'b>(parts: &'b [&'a [u8]], n: usize) -> &'b [&'a [u8]]
    ensures { contents result.now ≡ take n (contents parts.now) }
{
    if n < parts.len() { &parts[..n] } else { parts }
}

/// The parts behind the first `n`, none where there are no more.
pub fn back<'a, 'b>(parts: &'b [&'a [u8]], n: usize) -> &'b [&'a [u8]]
    ensures { contents result.now ≡ drop n (contents parts.now) }
{
    if n < parts.len() { &parts[n..] } else { &[] }
}
