//! What a line costs, what it says of reservations, and the queues of what it uses.

ghost use Rattle.std.specs.Prelude.{◌≡◌, ℕ, ◌+◌, ◌*◌, ◌<◌, ◌≤◌, true, false, length, Some, MatchOption};
ghost use Rattle.realm_timeline.specs.Plan.{cost};
ghost use Rattle.realm_timeline.specs.State.{queue_of, exclusive_queue, shared_queue, bars, access_queue, changing_queue, reading_queue, count_of_queues};
ghost use Rattle.graph_terms.specs.Graph.{locks, columns, verb_at};
ghost use Rattle.graph_terms.specs.Access.{is_read};
ghost use Rattle.graph_terms.specs.declared.verb.Verb.TheVariants.{Acquire as AcquireOf};
ghost use Rattle.graph_terms.specs.Reservations.{Releases};

use crate::queue::MAX_QUEUES;
use graph_meaning::line_laws::{all_accesses_are_few, all_accesses_fit};
use graph_model::graph::Graph;
use graph_terms::limits::{MAX_CALL_ACCESSES, MAX_COLUMNS_OF_THREE, MAX_LOCKS_OF_THREE};
use graph_terms::verb::{Access, Mode, Verb};

/// How long a line takes in virtual time: 1, and 1 more for each point of each access, those to data
/// counted too.
pub(crate) fn cost_of(graph: &Graph, line: u32) -> u64
    requires { line < length graph.now.lines }
    ensures cost { result ≡ cost graph.now line }
    ensures few { result ≤ 68719476736 }
{
    all_accesses_fit();
    all_accesses_are_few();
    let _ = graph.lines();
    let mut cost: u64 = 1;
    for k in 0..MAX_CALL_ACCESSES {
        let Some(access) = graph.any_access(line, k) else {
            return cost;
        };
        cost += graph.space(access.space).size();
    }
    cost
}

/// The number of the queue of a line: queue 0 is for all lines but acquires, and each reservation has
/// one for its acquires that are not shared and one for those that are.
pub(crate) fn queue_of(graph: &Graph, line: u32) -> u32
    requires { line < length graph.now.lines }
    ensures queue { result ≡ queue_of graph.now line }
    ensures known { result < 2 * length (locks graph.now) + 1 }
{
    let _ = graph.locks();
    match &graph.line(line).verb {
        Verb::Acquire { lock, shared } => {
            if *shared {
                shared_queue(*lock)
            } else {
                exclusive_queue(*lock)
            }
        }
        _ => 0,
    }
}

/// The number of the queue of the acquires of a reservation that are not shared.
pub(crate) fn exclusive_queue(lock: u32) -> u32
    requires { lock < MAX_LOCKS_OF_THREE + MAX_COLUMNS_OF_THREE }
    ensures { result ≡ exclusive_queue lock }
{
    2 * lock + 1
}

/// The number of the queue of those that are shared.
pub(crate) fn shared_queue(lock: u32) -> u32
    requires { lock < MAX_LOCKS_OF_THREE + MAX_COLUMNS_OF_THREE }
    ensures { result ≡ shared_queue lock }
{
    2 * lock + 2
}

/// The number of the queue of a column for the lines that change it.
pub(crate) fn changing_queue(graph: &Graph, column: u32) -> u32
    requires { column < length (columns graph.now) }
    ensures queue { result ≡ changing_queue graph.now column }
    ensures known { result < count_of_queues graph.now true }
{
    let _ = graph.columns();
    exclusive_queue(graph.locks() + column)
}

/// The number of the queue of a column for the lines that only read it.
pub(crate) fn reading_queue(graph: &Graph, column: u32) -> u32
    requires { column < length (columns graph.now) }
    ensures queue { result ≡ reading_queue graph.now column }
    ensures known { result < count_of_queues graph.now true }
{
    let _ = graph.columns();
    shared_queue(graph.locks() + column)
}

/// Whether an access only reads.
pub(crate) fn is_read(access: Access) -> bool
    ensures { result ≡ is_read access.mode }
{
    matches!(access.mode, Mode::Read)
}

/// The number of the queue in which a line waits for an access.
pub(crate) fn access_queue(graph: &Graph, access: Access) -> u32
    requires { access.column < length (columns graph.now) }
    ensures queue { result ≡ access_queue graph.now access }
    ensures known { result < count_of_queues graph.now true }
{
    if is_read(access) {
        reading_queue(graph, access.column)
    } else {
        changing_queue(graph, access.column)
    }
}

/// How many queues there are.
pub(crate) fn count_of_queues(graph: &Graph, by_columns: bool) -> u32
    ensures count { result ≡ count_of_queues graph.now by_columns }
    ensures few { result ≤ MAX_QUEUES }
{
    let columns = if by_columns { graph.columns() } else { 0 };
    2 * (graph.locks() + columns) + 1
}

/// The reservation that a line acquires, and whether shared.
pub(crate) fn acquired(graph: &Graph, line: u32) -> Option<(u32, bool)>
    requires { line < length graph.now.lines }
    ensures { MatchOption result ((q : ℕ) → bars graph.now line q ≡ false)
        (λ x. (verb_at graph.now line ≡ Some (AcquireOf x.0 x.1)) × (x.0 < length (locks graph.now))) }
{
    match &graph.line(line).verb {
        Verb::Acquire { lock, shared } => Some((*lock, *shared)),
        _ => None,
    }
}

/// The acquire that a line releases, and none of any line but a release.
pub(crate) fn released(graph: &Graph, line: u32) -> Option<u32>
    requires { line < length graph.now.lines }
    ensures { MatchOption result ((q : ℕ) → Releases graph.now line q → ⊥) (λ q. Releases graph.now line q × (q < length graph.now.lines)) }
{
    match &graph.line(line).verb {
        Verb::Release { acquire } => Some(*acquire),
        _ => None,
    }
}
