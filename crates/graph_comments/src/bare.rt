//! A text without its comments.

ghost use Rattle.std.specs.Prelude.{◌≡◌, ◌<◌, ◌++◌, length, OnOk, IfOk, MatchOption, option_map};
ghost use Rattle.graph_comments.specs.Comments.{lines, joined, kept, bare_text, IsBare};
ghost use Rattle.graph_comments.specs.Cuts.{IsFirstComment, IsPassed, line_part};

use crate::lines::{first_line, is_closing, is_comment};
use index_spaces::NoMemory;
use index_spaces::room::with_room;
use std::alloc::Global;

fn put(bare: &mut Vec<u8>, bytes: &[u8]) -> Result<(), NoMemory>
    ensures { OnOk result (bare.new.items ≡ bare.old.items ++ bytes.now) }
{
    match bare.extend_from_slice(bytes) {
        Ok(()) => Ok(()),
        Err(_) => Err(NoMemory),
    }
}

/// Puts the first line of bytes with its newline at the end, where it stays.
fn put_line(bare: &mut Vec<u8>, line: &[u8], bytes: &[u8]) -> Result<(), NoMemory>
    requires { length line.now < length bytes.now }
    ensures { OnOk result (bare.new.items ≡ bare.old.items ++ line_part line.now bytes.now) }
{
    if is_comment(line) {
        return Ok(());
    }
    put(bare, &bytes[..line.len() + 1])
}

/// Puts the lines that stay at the end.
fn put_kept(bare: &mut Vec<u8>, bytes: &[u8]) -> Result<(), NoMemory>
    ensures { OnOk result (bare.new.items ≡ bare.old.items ++ joined (kept (lines bytes.now))) }
{
    let mut rest = bytes;
    while let Some((line, behind)) = first_line(rest) {
        if is_closing(line) {
            return put(bare, rest);
        }
        put_line(bare, line, rest)?;
        rest = behind;
    }
    put(bare, rest)
}

/// The place of the first comment. `None` exactly where there is none.
fn first_comment(bytes: &[u8]) -> Option<usize>
    ensures { MatchOption result (bare_text bytes.now ≡ bytes.now) (IsFirstComment bytes.now) }
{
    match first_line(bytes) {
        Some((_, behind)) => comment_behind(bytes, behind),
        None => None,
    }
}

/// The place of the first comment, where none stands above these lines.
fn comment_behind(bytes: &[u8], behind: &[u8]) -> Option<usize>
    requires { IsPassed bytes.now behind.now }
    ensures { MatchOption result (bare_text bytes.now ≡ bytes.now) (IsFirstComment bytes.now) }
{
    let mut rest = behind;
    while let Some((line, after)) = first_line(rest) {
        if is_closing(line) {
            return None;
        }
        if is_comment(line) {
            return Some(bytes.len() - rest.len());
        }
        rest = after;
    }
    None
}

/// The text without its comments: the lines from the second to the closing one that are empty or
/// begin with `#`, each with its newline. `None` exactly where it has none.
pub fn bare_text(alloc: Global, bytes: &[u8]) -> Result<Option<Vec<u8>>, NoMemory>
    ensures { IfOk result (λ r. IsBare bytes.now (option_map (λ v. v.items) r)) }
{
    let Some(first) = first_comment(bytes) else {
        return Ok(None);
    };
    let mut bare = with_room(alloc, bytes.len())?;
    put(&mut bare, &bytes[..first])?;
    put_kept(&mut bare, &bytes[first..])?;
    Ok(Some(bare))
}
