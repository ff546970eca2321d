//! What an attempt answers.

use crate::work::Work;
use run_parts::{Stage, Thing};

/// What an attempt to take a line answers. The first of these that holds is answered, in the order
/// Over, Never, NotYet, Taken for a line that is cancelled, Busy, Taken.
#[derive(Drop)]
pub enum Attempt {
    /// The line is taken, and this is its work.
    Taken(Work),
    /// The line is at this stage, which is not Issued.
    Over(Stage),
    /// The line never comes.
    Never,
    /// This line is the least source that has not ended.
    NotYet(u32),
    /// The reservation that it acquires has a holder, and the two are not both shared, or this one,
    /// the first of its columns, is out.
    Busy(Thing),
}
