//! Running a graph by the engine that is asked for.

ghost use Rattle.std.specs.Prelude.{◌≡◌, ℕ, ◌<◌, ◌≤◌, length, Some, slice_get, IfOk};
ghost use Rattle.graph_meaning.specs.Evaluation.{outcome};
ghost use Rattle.graph_meaning.specs.Trace.{IsLawful};
ghost use Rattle.column_pieces.specs.Pieces.{ArePieces, graph_of_pieces};

use column_pieces::laws::{outcome_of_pieces, traces_of_pieces};
use command_line::request::{Engine, HintKind, MAX_SLOTS, MAX_WORKERS, Request};
use free_engine::{HintQueue, run_free};
use graph_terms::outcome::Outcome;
use home_queues::HomeQueues;
use index_spaces::NoMemory;
use joined_columns::joining::join;
use joined_columns::laws::outcomes_are_over;
use lock_engine::{Turn, run_turn};
use piece_graphs::{CutGraph, checked_pieces, cut_columns};
use race_check::checked::Checked;
use realm_io::Gate;
use run_core::Core;
use run_words::Words;
use std::alloc::Global;
use std::sync::Wait;
use std::thread::Threads;

/// The slots of a run where none are given.
const DEFAULT_SLOTS: u32 = 256;

/// The fewest workers for whom columns are cut: one alone gains nothing by it.
const CUT_WORKERS: u32 = 2;

/// Runs a graph by the engine and by as many workers as the request says, in pieces where its columns have
/// them. It needs no more slots than there may be.
pub(crate) fn run_graph<R: Threads + Wait + Sync, G: Gate>(
    rt: &R,
    alloc: Global,
    request: &Request,
    checked: &Checked,
    gate: &G,
) -> Result<Outcome, NoMemory>
    requires workers { request.now.workers ≤ MAX_WORKERS }
    requires need { checked.now.need ≤ MAX_SLOTS }
    ensures outcome { IfOk result (λ o. o ≡ outcome checked.now.graph o.trace) }
    ensures lawful { IfOk result (λ o. IsLawful checked.now.graph o.trace) }
    ensures lines { IfOk result (λ o. (k i : ℕ) → slice_get o.trace k ≡ Some i → i < length checked.now.graph.lines) }
{
    if request.workers < CUT_WORKERS {
        return run_whole(rt, alloc, request, checked, gate);
    }
    match cut_columns(alloc, checked.graph())? {
        Some(cut) => run_in_pieces(rt, alloc, request, checked, cut, gate),
        None => run_whole(rt, alloc, request, checked, gate),
    }
}

/// Runs the graph of the pieces of a graph, which needs no check, and puts together what it gives.
fn run_in_pieces<R: Threads + Wait + Sync, G: Gate>(
    rt: &R,
    alloc: Global,
    request: &Request,
    checked: &Checked,
    cut: CutGraph,
    gate: &G,
) -> Result<Outcome, NoMemory>
    requires workers { request.now.workers ≤ MAX_WORKERS }
    requires need { checked.now.need ≤ MAX_SLOTS }
    requires pieces { ArePieces checked.now.graph cut.pieces.unions.items cut.pieces.pieces.items }
    requires graph { cut.graph ≡ graph_of_pieces checked.now.graph cut.pieces.unions.items cut.pieces.pieces.items }
    ensures outcome { IfOk result (λ o. o ≡ outcome checked.now.graph o.trace) }
    ensures lawful { IfOk result (λ o. IsLawful checked.now.graph o.trace) }
    ensures lines { IfOk result (λ o. (k i : ℕ) → slice_get o.trace k ≡ Some i → i < length checked.now.graph.lines) }
{
    outcome_of_pieces();
    outcomes_are_over();
    traces_of_pieces();
    let CutGraph { graph, pieces } = cut;
    let in_pieces = checked_pieces(checked, graph, &pieces);
    let outcome = run_whole(rt, alloc, request, &in_pieces, gate)?;
    join(alloc, checked.graph(), &pieces, outcome)
}

/// Runs a graph by the engine and by as many workers as the request says, each column as one.
fn run_whole<R: Threads + Wait + Sync, G: Gate>(
    rt: &R,
    alloc: Global,
    request: &Request,
    checked: &Checked,
    gate: &G,
) -> Result<Outcome, NoMemory>
    requires workers { request.now.workers ≤ MAX_WORKERS }
    requires need { checked.now.need ≤ MAX_SLOTS }
    ensures outcome { IfOk result (λ o. o ≡ outcome checked.now.graph o.trace) }
    ensures lawful { IfOk result (λ o. IsLawful checked.now.graph o.trace) }
    ensures lines { IfOk result (λ o. (k i : ℕ) → slice_get o.trace k ≡ Some i → i < length checked.now.graph.lines) }
{
    let lines = checked.graph().lines();
    let slots = slots_for(request.slots, checked.need());
    match request.engine {
        Engine::Lock => run_by_turns(rt, alloc, checked, slots, request.workers, gate),
        Engine::Words if request.workers == 0 || lines == 0 => { run_alone(alloc, checked, slots) }
        Engine::Words => match request.hints {
            HintKind::Queue => run_in_words(rt, alloc, checked, slots, request.workers, gate),
            HintKind::Homes => run_with_homes(rt, alloc, checked, slots, request.workers, gate),
        },
    }
}

/// How many slots a run has: those that are given, or 256, but not fewer than its need.
fn slots_for(given: Option<u32>, need: u32) -> u32
    requires { need ≤ MAX_SLOTS }
    ensures enough { need ≤ result }
    ensures most { result ≤ MAX_SLOTS }
{
    let slots = match given {
        Some(slots) => slots,
        None => DEFAULT_SLOTS,
    };
    slots.max(need).min(MAX_SLOTS)
}

/// Runs a graph by workers that take turns at one core.
fn run_by_turns<R: Threads + Wait + Sync, G: Gate>(
    rt: &R,
    alloc: Global,
    checked: &Checked,
    slots: u32,
    workers: u32,
    gate: &G,
) -> Result<Outcome, NoMemory>
    requires slots { (checked.now.need ≤ slots) × (slots ≤ MAX_SLOTS) }
    requires workers { workers ≤ MAX_WORKERS }
    ensures outcome { IfOk result (λ o. o ≡ outcome checked.now.graph o.trace) }
    ensures lawful { IfOk result (λ o. IsLawful checked.now.graph o.trace) }
    ensures lines { IfOk result (λ o. (k i : ℕ) → slice_get o.trace k ≡ Some i → i < length checked.now.graph.lines) }
{
    let _ = checked.graph().lines();
    let turn = Turn::prepare(alloc, checked, slots)?;
    Ok(run_turn(rt, turn, workers, gate))
}

/// Runs a graph by the caller alone, on a core that nobody else uses.
fn run_alone(alloc: Global, checked: &Checked, slots: u32) -> Result<Outcome, NoMemory>
    requires slots { (checked.now.need ≤ slots) × (slots ≤ MAX_SLOTS) }
    ensures outcome { IfOk result (λ o. o ≡ outcome checked.now.graph o.trace) }
    ensures lawful { IfOk result (λ o. IsLawful checked.now.graph o.trace) }
    ensures lines { IfOk result (λ o. (k i : ℕ) → slice_get o.trace k ≡ Some i → i < length checked.now.graph.lines) }
{
    let mut core = Core::prepare(alloc, checked, slots)?;
    core.finish();
    Ok(core.outcome())
}

/// Runs a graph by workers that share its words, and tell each other of lines by a queue.
fn run_in_words<R: Threads + Wait + Sync, G: Gate>(
    rt: &R,
    alloc: Global,
    checked: &Checked,
    slots: u32,
    workers: u32,
    gate: &G,
) -> Result<Outcome, NoMemory>
    requires slots { (checked.now.need ≤ slots) × (slots ≤ MAX_SLOTS) }
    requires some { 0 < length checked.now.graph.lines }
    requires workers { workers ≤ MAX_WORKERS }
    ensures outcome { IfOk result (λ o. o ≡ outcome checked.now.graph o.trace) }
    ensures lawful { IfOk result (λ o. IsLawful checked.now.graph o.trace) }
    ensures lines { IfOk result (λ o. (k i : ℕ) → slice_get o.trace k ≡ Some i → i < length checked.now.graph.lines) }
{
    let (queue, pass) = HintQueue::new(alloc, checked.graph().lines())?;
    let mut hints = queue.hints(alloc, pass, workers)?;
    let (words, seat) = Words::prepare(alloc, checked, slots)?;
    Ok(run_free(rt, words, seat, gate, hints.parts()))
}

/// Runs a graph by workers that share its words, and keep their hints in deques of their own, from which the
/// others steal. What is left in them at the end is of no use, so nothing is counted then.
fn run_with_homes<R: Threads + Wait + Sync, G: Gate>(
    rt: &R,
    alloc: Global,
    checked: &Checked,
    slots: u32,
    workers: u32,
    gate: &G,
) -> Result<Outcome, NoMemory>
    requires slots { (checked.now.need ≤ slots) × (slots ≤ MAX_SLOTS) }
    requires some { 0 < length checked.now.graph.lines }
    requires workers { (1 ≤ workers) × (workers ≤ MAX_WORKERS) }
    ensures outcome { IfOk result (λ o. o ≡ outcome checked.now.graph o.trace) }
    ensures lawful { IfOk result (λ o. IsLawful checked.now.graph o.trace) }
    ensures lines { IfOk result (λ o. (k i : ℕ) → slice_get o.trace k ≡ Some i → i < length checked.now.graph.lines) }
{
    let Ok((_homes, mut list)) = HomeQueues::new(alloc, checked.graph().lines(), workers) else {
        return Err(NoMemory);
    };
    let (words, seat) = Words::prepare(alloc, checked, slots)?;
    Ok(run_free(rt, words, seat, gate, list.parts()))
}
