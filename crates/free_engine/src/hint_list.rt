//! The hints of all workers at one queue.
ghost use Rattle.std.specs.Prelude.{◌≡◌, ◌≤◌};

use crate::hint_queue::{HintPass, HintQueue};
use crate::queue_hints::{QueueHints, cut_hints};
use index_spaces::NoMemory;
use std::alloc::Global;

/// The hints of all workers at one queue, one `QueueHints` for each.
#[derive(Drop)]
pub struct HintList<'q> {
    parts: Vec<QueueHints<'q>>,
}

impl HintQueue {
    ghost use Rattle.std.specs.Prelude.{IfOk, All, length};
    ghost use Rattle.free_engine.specs.HintQueues.{lines_of, IsHintPassOf};
    ghost use Rattle.free_engine.specs.HintLists.{parts_of};
    ghost use Rattle.free_engine.specs.Hints.{new_hints};

    /// Hints for so many workers, 8 at most, which have put nothing in and taken nothing. `NoMemory` comes
    /// where memory ran out, and the pass is dropped then.
    pub fn hints(
        &self,
        alloc: Global,
        pass: HintPass,
        workers: u32,
    ) -> Result<HintList<'_>, NoMemory>
        requires pass { IsHintPassOf self.now pass }
        requires workers { workers ≤ 8 }
        ensures count { IfOk result (λ list. length (parts_of list) ≡ workers) }
        ensures new { IfOk result (λ list. All (λ h. h ≡ new_hints (lines_of self.now)) (parts_of list)) }
    {
        let HintPass { mut pass } = pass;
        let Ok(mut parts) = Vec::with_capacity(alloc, workers as usize) else {
            return Err(NoMemory);
        };
        for _part in 0..workers {
            if parts.push(cut_hints(self, &mut pass)).is_err() {
                return Err(NoMemory);
            }
        }
        Ok(HintList { parts })
    }
}

impl<'q> HintList<'q> {
    ghost use Rattle.free_engine.specs.HintLists.{parts_of};

    /// The hints of each worker.
    pub fn parts(&mut self) -> &mut [QueueHints<'q>]
        ensures parts { result.now ≡ parts_of self.old }
    {
        self.parts.as_mut_slice()
    }
}
