//! What workers tell each other outside the lock.

use crate::later_lines::LaterLines;
use crate::sleepers::Sleepers;
use idle_workers::Waiting;
use index_spaces::NoMemory;
use std::alloc::Global;

/// What workers share beside the lock. Nothing rests on it but speed.
#[derive(Drop)]
pub(crate) struct Notes {
    pub(crate) waiting: Waiting,
    pub(crate) later: LaterLines,
    pub(crate) sleepers: Sleepers,
}

impl Notes {
    /// Before any worker begins. `NoMemory` comes where memory ran out.
    pub(crate) fn new(alloc: Global, lines: u32) -> Result<Notes, NoMemory> {
        let later = LaterLines::new(alloc, lines)?;
        Ok(Notes {
            waiting: Waiting::new(),
            later,
            sleepers: Sleepers::none(),
        })
    }
}
