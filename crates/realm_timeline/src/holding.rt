//! Which lines hold a reservation or a column, and so keep lines of which queues from starting.

ghost use Rattle.std.specs.Prelude.{◌≡◌, ℕ, ◌<◌, true, length, Contains, OnOk, MatchOption};
ghost use Rattle.graph_terms.specs.Graph.{columns};
ghost use Rattle.graph_terms.specs.Access.{accesses};
ghost use Rattle.graph_terms.specs.declared.verb.Access.{Access as AccessValue};
ghost use Rattle.realm_timeline.specs.Queue.{has_line, queue_at, IsUnheld};
ghost use Rattle.realm_timeline.specs.State.{bars, uses_bar, held_by, joins, access_bars, access_queue, count_of_queues};
ghost use Rattle.realm_timeline.specs.Steps.{Adds, Removes};

use crate::cost::{
    access_queue, acquired, changing_queue, exclusive_queue, is_read, queue_of, reading_queue,
    shared_queue,
};
use crate::queue::{Queue, add_holder_at, is_held_at, remove_holder_at};
use graph_meaning::line_laws::{accesses_are_few, accesses_fit};
use graph_model::graph::Graph;
use graph_terms::limits::MOST_ACCESSES;
use graph_terms::verb::Access;
use index_spaces::NoMemory;

/// Lets a line that starts hold its reservation, if it is an acquire, and its columns, where columns
/// keep lines apart. `NoMemory`: nothing is said of the queues.
pub(crate) fn add_holder(
    queues: &mut Vec<Queue>,
    graph: &Graph,
    by_columns: bool,
    line: u32,
) -> Result<(), NoMemory>
    requires line { line < length graph.now.lines }
    requires queues { length queues.old.items ≡ count_of_queues graph.now by_columns }
    ensures count { OnOk result (length queues.new.items ≡ length queues.old.items) }
    ensures holder { OnOk result (Adds (held_by graph.now by_columns line) queues.old.items queues.new.items line) }
{
    add_section(queues, graph, by_columns, line)?;
    add_uses(queues, graph, by_columns, line)
}

/// Lets a line hold its reservation, if it is an acquire: against all acquires of it, or, where it is
/// shared, against those that are not.
fn add_section(
    queues: &mut Vec<Queue>,
    graph: &Graph,
    by_columns: bool,
    line: u32,
) -> Result<(), NoMemory>
    requires line { line < length graph.now.lines }
    requires queues { length queues.old.items ≡ count_of_queues graph.now by_columns }
    ensures count { OnOk result (length queues.new.items ≡ length queues.old.items) }
    ensures holder { OnOk result (Adds (bars graph.now line) queues.old.items queues.new.items line) }
{
    let _ = graph.locks();
    let Some((lock, shared)) = acquired(graph, line) else {
        return Ok(());
    };
    add_holder_at(queues, exclusive_queue(lock), line)?;
    if !shared {
        add_holder_at(queues, shared_queue(lock), line)?;
    }
    Ok(())
}

/// Lets a line hold the columns that it uses, where columns keep lines apart.
fn add_uses(
    queues: &mut Vec<Queue>,
    graph: &Graph,
    by_columns: bool,
    line: u32,
) -> Result<(), NoMemory>
    requires line { line < length graph.now.lines }
    requires queues { length queues.old.items ≡ count_of_queues graph.now by_columns }
    ensures count { OnOk result (length queues.new.items ≡ length queues.old.items) }
    ensures holder { OnOk result (Adds (uses_bar graph.now by_columns line) queues.old.items queues.new.items line) }
{
    accesses_are_few();
    accesses_fit();
    let _ = graph.lines();
    if !by_columns {
        return Ok(());
    }
    for k in 0..MOST_ACCESSES {
        let Some(access) = graph.access(line, k) else {
            return Ok(());
        };
        add_use(queues, graph, access, line)?;
    }
    Ok(())
}

/// Lets a line hold the column of an access: against all lines that use it, or, where it only reads,
/// against those that change it.
fn add_use(
    queues: &mut Vec<Queue>,
    graph: &Graph,
    access: Access,
    line: u32,
) -> Result<(), NoMemory>
    requires column { access.column < length (columns graph.now) }
    requires queues { length queues.old.items ≡ count_of_queues graph.now true }
    ensures count { OnOk result (length queues.new.items ≡ length queues.old.items) }
    ensures holder { OnOk result (Adds (λ q. access_bars graph.now q access) queues.old.items queues.new.items line) }
{
    add_holder_at(queues, changing_queue(graph, access.column), line)?;
    if !is_read(access) {
        add_holder_at(queues, reading_queue(graph, access.column), line)?;
    }
    Ok(())
}

/// Lets an acquire hold its reservation no longer.
pub(crate) fn remove_section(queues: &mut Vec<Queue>, graph: &Graph, by_columns: bool, acquire: u32)
    requires acquire { acquire < length graph.now.lines }
    requires queues { length queues.old.items ≡ count_of_queues graph.now by_columns }
    ensures count { length queues.new.items ≡ length queues.old.items }
    ensures holder { Removes (bars graph.now acquire) queues.old.items queues.new.items acquire }
{
    let _ = graph.locks();
    let Some((lock, shared)) = acquired(graph, acquire) else {
        return;
    };
    remove_holder_at(queues, exclusive_queue(lock), acquire);
    if !shared {
        remove_holder_at(queues, shared_queue(lock), acquire);
    }
}

/// Lets a line hold the columns that it uses no longer.
pub(crate) fn remove_uses(queues: &mut Vec<Queue>, graph: &Graph, by_columns: bool, line: u32)
    requires line { line < length graph.now.lines }
    requires queues { length queues.old.items ≡ count_of_queues graph.now by_columns }
    ensures count { length queues.new.items ≡ length queues.old.items }
    ensures holder { Removes (uses_bar graph.now by_columns line) queues.old.items queues.new.items line }
{
    accesses_are_few();
    accesses_fit();
    let _ = graph.lines();
    if !by_columns {
        return;
    }
    for k in 0..MOST_ACCESSES {
        let Some(access) = graph.access(line, k) else {
            return;
        };
        remove_use(queues, graph, access, line);
    }
}

/// Lets a line hold the column of an access no longer.
fn remove_use(queues: &mut Vec<Queue>, graph: &Graph, access: Access, line: u32)
    requires column { access.column < length (columns graph.now) }
    requires queues { length queues.old.items ≡ count_of_queues graph.now true }
    ensures count { length queues.new.items ≡ length queues.old.items }
    ensures holder { Removes (λ q. access_bars graph.now q access) queues.old.items queues.new.items line }
{
    remove_holder_at(queues, changing_queue(graph, access.column), line);
    if !is_read(access) {
        remove_holder_at(queues, reading_queue(graph, access.column), line);
    }
}

/// A queue in which a line has to wait since it is held: that of its reservation, or of a column that
/// it uses. None where the line may start.
pub(crate) fn held_queue(
    queues: &[Queue],
    graph: &Graph,
    by_columns: bool,
    line: u32,
) -> Option<u32>
    requires line { line < length graph.now.lines }
    requires queues { length queues.now ≡ count_of_queues graph.now by_columns }
    ensures { MatchOption result ((q : ℕ) → joins graph.now by_columns line q ≡ true → IsUnheld (queue_at queues.now q))
        (λ q. (q < length queues.now) × (joins graph.now by_columns line q ≡ true) × ((k : ℕ) × (has_line (queue_at queues.now q).holders k ≡ true))) }
{
    let own = queue_of(graph, line);
    if is_held_at(queues, own) {
        return Some(own);
    }
    if by_columns {
        held_column(queues, graph, line)
    } else {
        None
    }
}

/// A queue of a column in which a line has to wait since it is held.
fn held_column(queues: &[Queue], graph: &Graph, line: u32) -> Option<u32>
    requires line { line < length graph.now.lines }
    requires queues { length queues.now ≡ count_of_queues graph.now true }
    ensures { MatchOption result ((a : AccessValue) → Contains (accesses graph.now line) a → IsUnheld (queue_at queues.now (access_queue graph.now a)))
        (λ q. (a : AccessValue) × Contains (accesses graph.now line) a × (q ≡ access_queue graph.now a) × (q < length queues.now)
        × ((k : ℕ) × (has_line (queue_at queues.now q).holders k ≡ true))) }
{
    accesses_are_few();
    accesses_fit();
    let _ = graph.lines();
    for k in 0..MOST_ACCESSES {
        let access = graph.access(line, k)?;
        let queue = access_queue(graph, access);
        if is_held_at(queues, queue) {
            return Some(queue);
        }
    }
    None
}
