//! What all parts put in and took, and what is left.
ghost use Rattle.std.specs.Prelude.{◌≡◌, ◌<◌};
ghost use Rattle.home_queues.specs.Tallies.{IsTally};

use crate::counts::Counts;

/// What one part counted.
#[derive(Drop)]
pub(crate) struct PartCounts {
    pub(crate) pushed: Counts,
    pub(crate) taken: Counts,
}

/// How often each number below a bound was put in, was taken and is left, over all eight parts.
#[derive(Drop)]
pub struct Tally {
    pub(crate) lines: u32,
    pub(crate) parts: Vec<PartCounts>,
    pub(crate) left: Counts,
    ghost fits: { IsTally lines parts.items left },
}

impl Tally {
    ghost use Rattle.home_queues.specs.TallySums.{lines_in, pushed_in, taken_in, left_in};

    /// How often the number, which is below the bound, was put in.
    pub fn pushed(&self, line: u32) -> u64
        requires { line < lines_in self.now }
        ensures { result ≡ pushed_in self.now line }
    {
        let mut sum = 0;
        for part in self.parts.iter() {
            sum += part.pushed.of(line);
        }
        sum
    }

    /// How often the number, which is below the bound, was taken.
    pub fn taken(&self, line: u32) -> u64
        requires { line < lines_in self.now }
        ensures { result ≡ taken_in self.now line }
    {
        let mut sum = 0;
        for part in self.parts.iter() {
            sum += part.taken.of(line);
        }
        sum
    }

    /// How often the number, which is below the bound, is left.
    pub fn left(&self, line: u32) -> u64
        requires { line < lines_in self.now }
        ensures { result ≡ left_in self.now line }
    {
        self.left.of(line)
    }
}
