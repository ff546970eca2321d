//! What a run leaves that has stopped.

use crate::room::RunRoom;
use crate::states::StateList;
use checked_graph::Checked;
use event_table::EventTable;
use graph_terms::lists::ValueList;
use line_effects::homes::Homes;

/// A run that has stopped with no work out: its graph, the states of its lines, the table of their
/// events, its columns and the values of its phases, and room for the lists of a core.
#[derive(Drop)]
pub struct RunParts<'g> {
    pub checked: &'g Checked,
    pub states: StateList,
    pub table: EventTable,
    pub homes: Homes,
    pub phases: ValueList,
    pub room: RunRoom,
}
