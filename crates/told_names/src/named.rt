//! The names that lines of a text give.

ghost use Rattle.std.specs.Prelude.{◌≡◌, ◌+◌, ◌<◌, ◌^◌, ◌==◌, length, false, MatchOption, IfOk};
ghost use Rattle.std.specs.List.{list_any};
ghost use Rattle.basics.specs.Words.{contents};
ghost use Rattle.graph_words.specs.Words.{pieces};
ghost use Rattle.told_names.specs.Named.{declares, given_by, given_name, given_names, first_place};

use explain_text::split::{cut_line, cut_word};
use index_spaces::NoMemory;
use index_spaces::room::push;
use memchr::memmem;
use std::alloc::Global;

/// The names that lines give, one for each line, in one pass over them.
pub fn given_names<'a>(alloc: Global, lines: &[&'a [u8]]) -> Result<Vec<&'a [u8]>, NoMemory>
    ensures { IfOk result (λ v. contents v.items ≡ given_names (contents lines.now)) }
{
    let mut names = Vec::new(alloc);
    let mut rest = lines;
    while let [line, others @ ..] = rest {
        push(&mut names, given_name(line))?;
        rest = others;
    }
    Ok(names)
}

/// The first place at which a name stands among some, where the first of them has this number.
pub(crate) fn first_place(word: &[u8], number: usize, names: &[&[u8]]) -> Option<usize>
    requires { number + length names.now < 2 ^ 64 }
    ensures { result ≡ first_place word.now number (contents names.now) }
{
    let mut rest = names;
    let mut at = number;
    while let [name, others @ ..] = rest {
        if *name == word {
            return Some(at);
        }
        at += 1;
        rest = others;
    }
    None
}

/// The place of the first line of bytes that gives a name, among their lines. These are looked at one by one
/// only where the bytes have the name at all.
pub fn place_in(word: &[u8], bytes: &[u8]) -> Option<usize>
    ensures { result ≡ first_place word.now 0 (given_names (pieces 10 bytes.now)) }
{
    match memmem::find(bytes, word) {
        Some(_) => place_among(word, bytes),
        None => None,
    }
}

/// The same, line by line.
fn place_among(word: &[u8], bytes: &[u8]) -> Option<usize>
    ensures { result ≡ first_place word.now 0 (given_names (pieces 10 bytes.now)) }
{
    let mut at = 0;
    let mut rest = bytes;
    while let Some((line, after)) = cut_line(rest) {
        if given_name(line) == word {
            return Some(at);
        }
        at += 1;
        rest = after;
    }
    if given_name(rest) == word {
        Some(at)
    } else {
        None
    }
}

/// The name that a line gives, none where it gives none.
pub(crate) fn given_name(line: &[u8]) -> &[u8]
    ensures { result.now ≡ given_name (pieces 32 line.now) }
{
    let Some((first, rest)) = cut_word(line) else {
        return b"";
    };
    match cut_word(rest) {
        Some((second, _)) => given_by(first, second),
        None => given_by(first, rest),
    }
}

/// The name that a line gives by its first two words.
fn given_by<'a>(first: &'a [u8], second: &'a [u8]) -> &'a [u8]
    ensures { result.now ≡ given_by first.now second.now }
{
    if second == b"=".as_slice() {
        return first;
    }
    if declares(first) { second } else { b"" }
}

/// Whether a declaration begins with this word.
fn declares(word: &[u8]) -> bool
    ensures { result ≡ declares word.now }
{
    word == b"space".as_slice()
        || word == b"inst".as_slice()
        || word == b"data".as_slice()
        || word == b"lock".as_slice()
        || word == b"barrier".as_slice()
}
