//! How often each number was counted.
ghost use Rattle.std.specs.Prelude.{◌≡◌, ◌-◌, ◌^◌, ◌<◌, ◌≤◌, length, slice_index, IfOk};
ghost use Rattle.home_queues.specs.Counts.{counted, no_counts};

use std::alloc::{AllocError, Global};
use std::marker::Model;

/// How often each number below a bound was counted, and how many numbers in all.
#[derive(Drop)]
pub(crate) struct Counts {
    each: Vec<u64>,
    all: u64,
}

impl Model for Counts {
    ghost use Rattle.home_queues.specs.Counts.{CountsValue};

    ghost Value = { CountsValue };

    ghost use Rattle.std.specs.Prelude.{◌≤◌, All};

    ghost view = { λ c. record { each = c.each.items; all = c.all } };

    ghost invariant = { λ c. All (λ n. n ≤ c.all) c.each.items };
}

impl Counts {
    /// Nothing was counted yet.
    pub(crate) fn new(alloc: Global, lines: u32) -> Result<Counts, AllocError>
        ensures { IfOk result (λ c. c ≡ no_counts lines) }
    {
        let each = vec![in alloc; 0u64; lines as usize]?;
        Ok(Counts { each, all: 0 })
    }

    /// Counts one number.
    pub(crate) fn one_more(&mut self, line: u32)
        requires below { line < length self.old.each }
        requires fits { self.old.all < 2 ^ 64 - 1 }
        ensures { self.new ≡ counted self.old line }
    {
        self.all += 1;
        self.each[line as usize] += 1;
    }

    /// How often the number was counted.
    pub(crate) fn of(&self, line: u32) -> u64
        requires { line < length self.now.each }
        ensures value { result ≡ slice_index self.now.each line }
        ensures bound { result ≤ self.now.all }
    {
        self.each[line as usize]
    }

    /// How many numbers were counted.
    pub(crate) fn all(&self) -> u64
        ensures { result ≡ self.now.all }
    {
        self.all
    }
}
