//! What holds of flows, and of graphs whose edges all lead forward, for callers to cite. No function here does anything.

ghost use Rattle.flow_order.specs.Laws.{EdgesLeadForward, PathsLeadForward, ForwardHasNoCycle, EndsInFileOrder, MeansByOrder, AcceptedByOrder, MeansBySources, FlowInEachFormat, SourcesTie};

use index_spaces::laws::points_are_listed;

/// Each edge leads forward in the file.
pub fn edges_lead_forward()
    ensures { EdgesLeadForward }
{}

/// A path leads forward in the file.
pub fn paths_lead_forward()
    ensures { PathsLeadForward }
{}

/// There is no cycle.
pub fn forward_has_no_cycle()
    ensures { ForwardHasNoCycle }
{}

/// The evaluation ends the lines in the order of the file.
pub fn ends_in_file_order()
    ensures { EndsInFileOrder }
{}

/// A graph with the lines of a flow in their order, whose paths between them are the chains of the
/// flow, ends them and leaves the cells as the flow means.
pub fn means_by_order()
    ensures { MeansByOrder }
{}

/// And it is accepted, where its sections stand.
pub fn accepted_by_order()
    ensures { AcceptedByOrder }
{
    points_are_listed();
}

/// From the sources of its lines and its sections, a graph that keeps the lines of a flow means it.
pub fn means_by_sources()
    ensures { MeansBySources }
{
    points_are_listed();
}

/// A flow means the same in each format.
pub fn flow_in_each_format()
    ensures { FlowInEachFormat }
{}

/// A line depends on each of its sources, and each line that it depends on is one of them or has a
/// chain to one.
pub fn sources_tie()
    ensures { SourcesTie }
{}
