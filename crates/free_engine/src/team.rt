//! What workers that share a run know of each other.

use crate::line_counts::LineCounts;
use idle_workers::Waiting;

/// Which workers wait, and which lines were issued and claimed. Nothing rests on it but speed.
#[derive(Drop)]
pub(crate) struct Team {
    pub(crate) idle: Waiting,
    pub(crate) counts: LineCounts,
}

impl Team {
    /// Before any worker begins.
    pub(crate) fn new() -> Team {
        Team {
            idle: Waiting::new(),
            counts: LineCounts::none(),
        }
    }
}
