//! What holds of each host that performs an accepted graph, for callers to cite. No function here does
//! anything.

ghost use Rattle.host_bodies.specs.Laws.{HostAgrees, HostLeavesEvaluation, HostGoesOn};

use graph_meaning::laws::{
    order_is_irrelevant_for_all_effects, order_lists_ended_for_all_effects, ready_where_unreached,
    waits_where_reached_for_all_effects,
};

/// Whatever the memory holds at first, and in whatever order lines are taken, change memory and are
/// put back: a line that is out finds what makes it do as in the evaluation, no other line disturbs
/// it, and memory agrees with the evaluation wherever no line that is out may change it.
pub fn host_agrees()
    ensures { HostAgrees }
{
    order_is_irrelevant_for_all_effects();
    waits_where_reached_for_all_effects();
}

/// Where all lines have ended that end in the evaluation, and none is out, the memory is that of the
/// evaluation.
pub fn host_leaves_evaluation()
    ensures { HostLeavesEvaluation }
{
    host_agrees();
    order_lists_ended_for_all_effects();
}

/// Where no line is out, one may be taken, or all lines have ended that end in the evaluation.
pub fn host_goes_on()
    ensures { HostGoesOn }
{
    ready_where_unreached();
    waits_where_reached_for_all_effects();
}
