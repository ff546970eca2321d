//! The need of a graph: how many slots serve any run of it, and at which line so many may be open.

ghost use Rattle.std.specs.Prelude.{◌≡◌, ℕ, ◌+◌, ◌<◌, ◌≤◌, false, length, slice_index, IsTrue, IfOk, MatchOption};
ghost use Rattle.graph_terms.specs.Graph.{never_comes};
ghost use Rattle.graph_meaning.specs.Need.{IsNeed};
ghost use Rattle.slot_need.specs.NeedLine.{IsNeedLine};
ghost use Rattle.slot_need.specs.Sweep.{IsTally, IsTallyOf, IsTallyFor, IsFirstOpen, most_open, open_after};

use crate::high_numbers::high_numbers;
use cycle_search::order::all_edges_ascend;
use graph_meaning::laws::{edges_between_lines, needs_are_one};
use graph_model::graph::Graph;
use graph_terms::limits::MAX_LINES_OF_THREE;
use index_spaces::NoMemory;
use index_spaces::room::filled;
use std::alloc::Global;

/// The need of a graph.
pub fn need_of(alloc: Global, graph: &Graph) -> Result<u32, NoMemory>
    ensures { IfOk result (IsNeed graph.now) }
{
    if all_wait_above(graph) {
        return Ok(1);
    }
    let lines = graph.lines();
    let tally = tally_of(alloc, graph)?;
    Ok(1 + most_open(tally.as_slice(), lines))
}

/// Whether there is no reservation, and each line comes and waits for lines above it alone.
fn all_wait_above(graph: &Graph) -> bool
    ensures { IsTrue result → IsNeed graph.now 1 }
{
    let _ = graph.lines();
    if graph.locks() > 0 {
        return false;
    }
    if !all_edges_ascend(graph) {
        return false;
    }
    all_come(graph)
}

/// Whether each line comes.
fn all_come(graph: &Graph) -> bool
    ensures { IsTrue result → (i : ℕ) → i < length graph.now.lines → never_comes graph.now i ≡ false }
{
    for line in 0..graph.lines() {
        if graph.never_comes(line) {
            return false;
        }
    }
    true
}

/// The topmost line at which the need of a graph is reached. `None` exactly where it has no lines.
pub fn need_line_of(alloc: Global, graph: &Graph, need: u32) -> Result<Option<u32>, NoMemory>
    requires { IsNeed graph.now need }
    ensures { IfOk result (λ o. MatchOption o (length graph.now.lines ≡ 0) (IsNeedLine graph.now need)) }
{
    needs_are_one();
    let lines = graph.lines();
    let tally = tally_of(alloc, graph)?;
    Ok(first_open(tally.as_slice(), lines, need))
}

/// The tally of the high numbers of a graph.
fn tally_of(alloc: Global, graph: &Graph) -> Result<Vec<u32>, NoMemory>
    ensures size { IfOk result (λ t. length t.items ≡ length graph.now.lines + 2) }
    ensures tally { IfOk result (λ t. IsTallyOf graph.now t.items) }
{
    edges_between_lines();
    let _ = graph.lines();
    let highs = high_numbers(alloc, graph)?;
    let tally = tally(alloc, highs.as_slice())?;
    Ok(tally)
}

/// How many of the numbers are 0, 1 and so on, up to one more than how many there are.
fn tally(alloc: Global, highs: &[u32]) -> Result<Vec<u32>, NoMemory>
    requires short { length highs.now ≤ MAX_LINES_OF_THREE }
    requires small { (i : ℕ) → i < length highs.now → slice_index highs.now i ≤ length highs.now + 1 }
    ensures size { IfOk result (λ t. length t.items ≡ length highs.now + 2) }
    ensures tallied { IfOk result (λ t. IsTally t.items highs.now (length highs.now + 1) (length highs.now)) }
{
    let mut tally = filled(alloc, 0, highs.len() + 2)?;
    for high in highs {
        tally[*high as usize] += 1;
    }
    Ok(tally)
}

/// The most lines that are open at once, by the tally of their high numbers.
fn most_open(tally: &[u32], lines: u32) -> u32
    requires short { lines ≤ MAX_LINES_OF_THREE }
    requires size { length tally.now ≡ lines + 2 }
    requires tallied { IsTallyFor lines tally.now }
    ensures most { result ≡ most_open tally.now lines }
    ensures few { result ≤ lines }
{
    let mut count = 0;
    let mut most = 0;
    for line in 0..lines {
        if count > most {
            most = count;
        }
        count = count + 1 - tally[line as usize + 1];
    }
    most
}

/// The first line at which, with itself, so many are open.
fn first_open(tally: &[u32], lines: u32, need: u32) -> Option<u32>
    requires short { lines ≤ MAX_LINES_OF_THREE }
    requires size { length tally.now ≡ lines + 2 }
    requires tallied { IsTallyFor lines tally.now }
    ensures { MatchOption result ((j : ℕ) → j < lines → need ≡ 1 + open_after tally.now j → ⊥) (IsFirstOpen tally.now lines need) }
{
    let mut count: u32 = 0;
    for line in 0..lines {
        if count + 1 == need {
            return Some(line);
        }
        count = count + 1 - tally[line as usize + 1];
    }
    None
}
