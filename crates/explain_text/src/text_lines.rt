//! A text that is explained, by its lines.

use crate::comment_counts::{Counts, count_comments};
use crate::split::{back, split_lines};
use graph_words::comments::has_comments;
use index_spaces::NoMemory;
use std::alloc::Global;
use std::marker::Model;

/// The lines of a text, and whether long paths and lists are told whole. The comments are counted once.
#[derive(Drop)]
pub struct Lines<'a> {
    bytes: &'a [u8],
    lines: Vec<&'a [u8]>,
    counts: Counts,
    all: bool,
}

impl<'a> Model for Lines<'a> {
    ghost use Rattle.basics.specs.Words.{contents};
    ghost use Rattle.explain_text.specs.TextLines.{TextLines};
    ghost use Rattle.explain_text.specs.Comments.{AreCounts};

    ghost Value = { TextLines };

    ghost view = { λ a. record { bytes = a.bytes.now; lines = contents a.lines.items; all = a.all } };

    ghost invariant = { λ a. AreCounts a.counts (contents a.lines.items) };
}

impl<'a> Lines<'a> {
    ghost use Rattle.std.specs.Prelude.{◌≡◌, ◌<◌, ◌≤◌, ◌^◌, ◌&&◌, drop, length, not, nat_lt, IfOk};
    ghost use Rattle.basics.specs.Words.{contents};
    ghost use Rattle.graph_comments.specs.Comments.{comments_above};
    ghost use Rattle.graph_words.specs.Words.{pieces};
    ghost use Rattle.explain_text.specs.Lines.{whole_number, is_cut};

    /// The lines of these bytes.
    pub fn of(alloc: Global, bytes: &'a [u8], all: bool) -> Result<Lines<'a>, NoMemory>
        ensures { IfOk result (λ v. v ≡ record { bytes = bytes.now; lines = pieces 10 bytes.now; all = all }) }
    {
        let lines = split_lines(alloc, bytes)?;
        Lines::of_front(alloc, bytes, lines, all)
    }

    /// Some lines of these bytes, as if these were all.
    pub fn of_front(
        alloc: Global,
        bytes: &'a [u8],
        lines: Vec<&'a [u8]>,
        all: bool,
    ) -> Result<Lines<'a>, NoMemory>
        ensures { IfOk result (λ v. v ≡ record { bytes = bytes.now; lines = contents lines.entry.items; all = all }) }
    {
        let counts = counts_behind(alloc, lines.as_slice())?;
        Ok(Lines {
            bytes,
            lines,
            counts,
            all,
        })
    }

    /// The lines.
    pub fn pieces(&self) -> &[&'a [u8]]
        ensures { contents result.now ≡ self.now.lines }
    {
        self.lines.as_slice()
    }

    /// The number among all lines of a line that has this number without comments, both counted from 1.
    pub fn whole_number(&self, number: u64) -> u64
        requires { number < 2 ^ 63 }
        ensures { result ≡ whole_number self.now number }
    {
        if !has_comments(self.bytes) || number <= 1 {
            return number;
        }
        number + self.comments_above(number - 2)
    }

    /// How many comments stand above the line of a place among those behind the first that stay.
    fn comments_above(&self, place: u64) -> u64
        ensures above { result ≡ comments_above place (drop 1 self.now.lines) }
        ensures few { result ≤ length self.now.lines }
        ensures fits { length self.now.lines < 2 ^ 63 }
    {
        let _ = self.lines.len();
        self.counts.at(place)
    }

    /// Whether long paths and lists are told whole.
    pub fn all(&self) -> bool
        ensures { result ≡ self.now.all }
    {
        self.all
    }

    /// Whether a path or a list of more than so many is cut.
    pub fn is_cut(&self, most: usize, count: usize) -> bool
        ensures { result ≡ is_cut self.now most count }
    {
        !self.all && count > most
    }
}

ghost use Rattle.std.specs.Prelude.{IfOk};
ghost use Rattle.basics.specs.Words.{contents};
ghost use Rattle.explain_text.specs.Comments.{AreCounts};

/// The comments among the lines behind the first.
fn counts_behind(alloc: Global, lines: &[&[u8]]) -> Result<Counts, NoMemory>
    ensures { IfOk result (λ v. AreCounts v (contents lines.now)) }
{
    count_comments(alloc, back(lines, 1))
}
