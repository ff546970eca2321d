//! Who holds the reservations.

ghost use Rattle.std.specs.Prelude.{◌≡◌, ◌<◌, ◌+◌, ◌^◌, ◌≤◌, ℕ, length, map, true, false, Some, MatchOption, slice_index_or, replicate};
ghost use Rattle.std.specs.Vec.{vec_capacity};
ghost use Rattle.graph_terms.specs.Graph.{locks};
ghost use Rattle.graph_terms.specs.Reservations.{Acquires};
ghost use Rattle.run_state.specs.Run.{is_listed, list_at};
ghost use Rattle.run_state.specs.WholeLine.{lock_of, holders_with, holders_without};
ghost use Rattle.run_lists.specs.Stages.{shown_stage};
ghost use Rattle.run_lists.specs.Holders.{frees_in, holders_by, joined, parted, keeps_out, AreHeld, HasLock, IsKeptOut};
ghost use Rattle.run_parts.specs.declared.locks.LockState.TheVariants as lock_state;

use crate::lists::filled_within;
use crate::sources::end_of;
use graph_model::graph::Graph;
use graph_terms::outcome::End;
use graph_terms::verb::Verb;
use run_parts::{LockState, Progress};

/// Who holds the reservations. The lists of their holders are never kept: the counts answer whether
/// a reservation is open, in a time that does not grow with the holders.
#[derive(Drop)]
pub struct Holders {
    /// By line: whether it is an acquire that holds its reservation.
    pub holding: Vec<bool>,
    /// By reservation: how it is held.
    pub held: Vec<LockState>,
}

impl Holders {
    /// Reservations that nobody holds.
    pub fn none(graph: &Graph, holding: Vec<bool>, held: Vec<LockState>) -> Holders
        requires lines { length graph.now.lines ≤ vec_capacity holding }
        requires locks { length (locks graph.now) ≤ vec_capacity held }
        ensures holding { result.holding.items ≡ replicate (length graph.now.lines) false }
        ensures held { result.held.items ≡ replicate (length (locks graph.now)) (lock_state.Shared 0) }
    {
        Holders {
            holding: filled_within(holding, false, graph.lines() as usize),
            held: filled_within(held, LockState::Shared(0), graph.locks() as usize),
        }
    }
}

/// Whether an acquire has to wait for a reservation that is held so.
fn keeps_out(state: LockState, shared: bool) -> bool
    ensures { result ≡ keeps_out state shared }
{
    match state {
        LockState::Alone => true,
        LockState::Shared(holders) => !shared && holders > 0,
    }
}

/// How a reservation is held once one acquire more holds it.
fn joined(state: LockState, shared: bool) -> LockState
    requires { (n : ℕ) → state ≡ lock_state.Shared n → shared ≡ true → n + 1 < 2 ^ 32 }
    ensures { result ≡ joined state shared }
{
    match state {
        LockState::Shared(holders) if shared => LockState::Shared(holders + 1),
        _ => LockState::Alone,
    }
}

/// How a reservation is held once one of its holders has let it go.
fn parted(state: LockState) -> LockState
    requires { (n : ℕ) → state ≡ lock_state.Shared n → 0 < n }
    ensures { result ≡ parted state }
{
    match state {
        LockState::Shared(holders) => LockState::Shared(holders - 1),
        LockState::Alone => LockState::Shared(0),
    }
}

/// The reservation that a line acquires, where its holders keep the line out.
pub fn busy_lock(graph: &Graph, line: u32, holders: &Holders) -> Option<u32>
    requires known { line < length graph.now.lines }
    requires held { AreHeld graph.now holders.now.holding.items holders.now.held.items }
    ensures { MatchOption result (HasLock graph.now (holders_by graph.now holders.now.holding.items) line)
        (λ l. Acquires graph.now line l × IsKeptOut graph.now (holders_by graph.now holders.now.holding.items) l line) }
{
    match &graph.line(line).verb {
        Verb::Acquire { lock, shared } if keeps_out(holders.held[*lock as usize], *shared) => {
            Some(*lock)
        }
        _ => None,
    }
}

/// Lets a line hold the reservation that it acquires, if it acquires one.
pub fn hold(graph: &Graph, line: u32, holders: &mut Holders)
    requires known { line < length graph.now.lines }
    requires held { AreHeld graph.now holders.old.holding.items holders.old.held.items }
    requires open { HasLock graph.now (holders_by graph.now holders.old.holding.items) line }
    requires anew { (l : ℕ) → is_listed (list_at (holders_by graph.now holders.old.holding.items) l) line ≡ false }
    ensures held { AreHeld graph.now holders.new.holding.items holders.new.held.items }
    ensures shown { holders_by graph.now holders.new.holding.items ≡ holders_with (holders_by graph.now holders.old.holding.items)
        line (lock_of graph.now line) }
{
    let _ = graph.lines();
    if let Verb::Acquire { lock, shared } = &graph.line(line).verb {
        let at = *lock as usize;
        let state = joined(holders.held[at], *shared);
        holders.held[at] = state;
        holders.holding[line as usize] = true;
    }
}

/// Frees the reservation of a release whose acquire is done: other acquires may hold it still.
pub fn free(graph: &Graph, line: u32, stages: &[Progress], holders: &mut Holders)
    requires known { line < length graph.now.lines }
    requires each { length stages.now ≡ length graph.now.lines }
    requires held { AreHeld graph.now holders.old.holding.items holders.old.held.items }
    requires holder { (l q : ℕ) → frees_in graph.now (map shown_stage stages.now) line ≡ Some (l, q)
        → is_listed (list_at (holders_by graph.now holders.old.holding.items) l) q ≡ true }
    ensures held { AreHeld graph.now holders.new.holding.items holders.new.held.items }
    ensures shown { holders_by graph.now holders.new.holding.items ≡ holders_without (holders_by graph.now holders.old.holding.items)
        (frees_in graph.now (map shown_stage stages.now) line) }
{
    let Verb::Release { acquire } = &graph.line(line).verb else {
        return;
    };
    let End::Done = end_of(stages[*acquire as usize]) else {
        return;
    };
    if let Verb::Acquire { lock, .. } = &graph.line(*acquire).verb {
        let at = *lock as usize;
        let state = parted(holders.held[at]);
        holders.held[at] = state;
        holders.holding[*acquire as usize] = false;
    }
}
