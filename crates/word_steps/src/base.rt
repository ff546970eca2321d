//! What the table of a run stands on.

use checked_graph::Checked;
use shared_events::Events;

/// The graph of a run, and the events of its lines. It never changes, and the rule of the table of
/// the run speaks of both.
#[derive(Drop)]
pub struct Base<'g> {
    pub checked: &'g Checked,
    pub events: Events,
}
