//! The hints of all eight parts.
ghost use Rattle.std.specs.Prelude.{◌≡◌, ◌<◌, ◌≤◌, All, IfOk, length};
ghost use Rattle.home_queues.specs.HomeLists.{parts_of, used_of};
ghost use Rattle.home_queues.specs.Spreading.{IsRoom};

use crate::home_hints::HomeHints;
use crate::opening::{new_owners, new_parts, new_rows};
use std::alloc::{AllocError, Global};

/// The hints of all parts: those of the workers, and the others, which are never lent.
#[derive(Drop)]
pub struct HomeList {
    parts: Vec<HomeHints>,
    others: Vec<HomeHints>,
}

impl HomeList {
    ghost use Rattle.std.specs.Borrow.{sem};
    ghost use Rattle.home_queues.specs.Hints.{IsNew, IsListOf};
    ghost use Rattle.home_queues.specs.Lending.{LendsUsed};

    /// Eight parts for the numbers below `lines`, which have put nothing in and taken nothing, the first of
    /// them for so many workers.
    pub(crate) fn new(alloc: Global, lines: u32, workers: u32) -> Result<HomeList, AllocError>
        requires lines { 0 < lines }
        requires workers { workers ≤ 8 }
        ensures workers { IfOk result (λ list. length (used_of list) ≡ workers) }
        ensures list { IfOk result (λ list. IsListOf lines (parts_of list)) }
        ensures new { IfOk result (λ list. All (IsNew lines) (parts_of list)) }
    {
        let mut owners = new_owners(alloc, lines)?;
        let rows = new_rows(alloc, &mut owners, lines)?;
        let mut parts = new_parts(alloc, lines, owners, rows)?;
        let others = parts.split_off(workers as usize)?;
        Ok(HomeList { parts, others })
    }

    /// The hints of each worker.
    pub fn parts(&mut self) -> &mut [HomeHints]
        ensures* writes_back { sem 𝓛 (LendsUsed self.entry result) }
        ensures used { result.now ≡ used_of self.old }
    {
        self.parts.as_mut_slice()
    }

    /// All parts, in a vector that has room for them.
    pub(crate) fn together(self, room: Vec<HomeHints>) -> Vec<HomeHints>
        requires room { IsRoom room }
        requires eight { length (parts_of self) ≤ 8 }
        ensures { result.items ≡ parts_of self }
    {
        let HomeList { parts, others } = self;
        let mut parts = parts;
        let mut others = others;
        let mut all = room;
        if all.append(&mut parts).is_err() || all.append(&mut others).is_err() {
            unreachable!()
        }
        all
    }
}
