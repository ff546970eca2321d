//! Parts of bytes, which may be long.

ghost use Rattle.std.specs.Prelude.{◌≡◌, ◌==◌, false, MatchOption, IfOk};
ghost use Rattle.std.specs.List.{list_any};
ghost use Rattle.basics.specs.Words.{contents};
ghost use Rattle.graph_words.specs.Cuts.{IsCut};
ghost use Rattle.graph_words.specs.Words.{pieces};

use graph_words::cuts::cut;
use index_spaces::NoMemory;
use index_spaces::room::push;
use memchr::memchr;
use std::alloc::Global;

/// In so many bytes a separator is sought one by one.
const FEW_BYTES: usize = 64;

/// The pieces of bytes between the separators. In long bytes these are sought many bytes at a time.
pub fn split_long(alloc: Global, bytes: &[u8], separator: u8) -> Result<Vec<&[u8]>, NoMemory>
    ensures { IfOk result (λ v. contents v.items ≡ pieces separator bytes.now) }
{
    let mut parts = Vec::new(alloc);
    let mut rest = bytes;
    while let Some((part, after)) = cut_long(rest, separator) {
        push(&mut parts, part)?;
        rest = after;
    }
    push(&mut parts, rest)?;
    Ok(parts)
}

/// The bytes above the first separator and those behind it. `None` exactly where there is none.
fn cut_long(bytes: &[u8], separator: u8) -> Option<(&[u8], &[u8])>
    ensures { MatchOption result (list_any (λ b. b == separator) bytes.now ≡ false) (λ x. IsCut separator bytes.now x.0.now x.1.now) }
{
    if bytes.len() <= FEW_BYTES {
        return cut(bytes, separator);
    }
    match memchr(separator, bytes) {
        Some(end) => Some((&bytes[..end], &bytes[end + 1..])),
        None => None,
    }
}
