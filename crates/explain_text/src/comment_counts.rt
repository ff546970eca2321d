//! How many comments stand above the lines of a text that stay.

ghost use Rattle.std.specs.Prelude.{◌≡◌, IfOk};
ghost use Rattle.basics.specs.Words.{contents};
ghost use Rattle.graph_comments.specs.Comments.{all_stay};
ghost use Rattle.explain_text.specs.Comments.{count_at, counts_from, all_counted};

use graph_comments::{is_closing, is_comment};
use index_spaces::NoMemory;
use index_spaces::room::push;
use std::alloc::Global;

/// How many comments stand above each line that stays, up to the one from which on all do, and how many
/// stand above that one.
#[derive(Drop)]
pub struct Counts {
    pub above: Vec<u64>,
    pub all: u64,
}

impl Counts {
    /// The count of the line of a place among those that stay.
    pub(crate) fn at(&self, place: u64) -> u64
        ensures { result ≡ count_at self.now place }
    {
        match self.above.get(place as usize) {
            Some(count) => *count,
            None => self.all,
        }
    }
}

/// The counts of some lines, in one pass over them.
pub(crate) fn count_comments(alloc: Global, lines: &[&[u8]]) -> Result<Counts, NoMemory>
    ensures above { IfOk result (λ v. v.above.items ≡ counts_from 0 (contents lines.now)) }
    ensures all { IfOk result (λ v. v.all ≡ all_counted 0 (contents lines.now)) }
{
    let _ = lines.len();
    let mut above = Vec::new(alloc);
    let mut rest = lines;
    let mut comments = 0;
    while let [line, behind @ ..] = rest {
        if all_stay(line, behind) {
            break;
        }
        if is_comment(line) {
            comments += 1;
        } else {
            push(&mut above, comments)?;
        }
        rest = behind;
    }
    Ok(Counts {
        above,
        all: comments,
    })
}

/// Whether a line and all behind it stay: it is the last, or the closing one.
fn all_stay(line: &[u8], behind: &[&[u8]]) -> bool
    ensures { result ≡ all_stay line.now (contents behind.now) }
{
    match behind {
        [] => true,
        [_, ..] => is_closing(line),
    }
}
