//! The sections in which a line lies.

ghost use Rattle.std.specs.Prelude.{◌≡◌, ℕ, ◌<◌, ◌↔◌, length, Contains, IfOk, IfSome, IsSome, IsTrue, Some, None};
ghost use Rattle.graph_terms.specs.Reservations.{acquire_at, lock_at, Releases};
ghost use Rattle.graph_meaning.specs.Rules.{NoCycleAt, Section};
ghost use Rattle.explanations.specs.Search.{IsFound};

use crate::search::{Way, search_from};
use graph_model::graph::Graph;
use graph_terms::verb::Verb;
use index_spaces::NoMemory;
use index_spaces::room::push;
use std::alloc::Global;

/// The acquires in whose sections a line lies, in the order of their releases. It takes two searches
/// over all edges.
pub fn sections_of(alloc: Global, graph: &Graph, line: u32) -> Result<Vec<u32>, NoMemory>
    requires line { line < length graph.now.lines }
    requires acyclic { NoCycleAt graph.now line }
    ensures sound { IfOk result (λ v. (q : ℕ) → Contains v.items q → (l : ℕ) × Section graph.now l q line) }
    ensures complete { IfOk result (λ v. (l q : ℕ) → Section graph.now l q line → Contains v.items q) }
{
    let before = search_from(alloc, graph, Way::Back, &[], &[line])?.counts;
    let after = search_from(alloc, graph, Way::Onward, &[], &[line])?.counts;
    let mut acquires = Vec::new(alloc);
    for release in 0..graph.lines() {
        if let Some(acquire) = section_at(
            graph,
            before.as_slice(),
            after.as_slice(),
            line,
            release,
        ) {
            push(&mut acquires, acquire)?;
        }
    }
    Ok(acquires)
}

/// The acquire of a release, where it was found before a line, and the release after it.
fn section_at(graph: &Graph, before: &[u32], after: &[u32], line: u32, release: u32) -> Option<u32>
    requires { release < length graph.now.lines }
    ensures some { IfSome result (λ q. (acquire_at graph.now release ≡ Some q) × IsSome (lock_at graph.now q) × IsFound before.now line q × IsFound after.now line release) }
    ensures none { result ≡ None → (q : ℕ) → acquire_at graph.now release ≡ Some q → IsSome (lock_at graph.now q)
        → IsFound before.now line q → IsFound after.now line release → ⊥ }
{
    match freed(graph, release) {
        Some(acquire)
            if lock_of(graph, acquire).is_some()
                && is_found(before, line, acquire)
                && is_found(after, line, release) => Some(acquire),
        _ => None,
    }
}

/// Whether a search from a line found another.
fn is_found(counts: &[u32], line: u32, other: u32) -> bool
    ensures { IsTrue result ↔ IsFound counts.now line other }
{
    match counts.get(other as usize) {
        Some(count) => other != line && *count > 0,
        None => false,
    }
}

/// The reservation that a line acquires. `None` also where there is no such line.
pub fn lock_of(graph: &Graph, line: u32) -> Option<u32>
    ensures { result ≡ lock_at graph.now line }
{
    if line >= graph.lines() {
        return None;
    }
    match graph.line(line).verb {
        Verb::Acquire { lock, .. } => Some(lock),
        _ => None,
    }
}

/// The acquire that a line releases.
pub fn freed(graph: &Graph, line: u32) -> Option<u32>
    requires { line < length graph.now.lines }
    ensures { result ≡ acquire_at graph.now line }
{
    match graph.line(line).verb {
        Verb::Release { acquire } => Some(acquire),
        _ => None,
    }
}

/// The line that releases what a line acquires: the topmost, of which there is at most one. `None`
/// exactly where no line does.
pub fn release_of(graph: &Graph, acquire: u32) -> Option<u32>
    ensures release { IfSome result (λ r. (r < length graph.now.lines) × Releases graph.now r acquire) }
    ensures none { result ≡ None → (r : ℕ) → Releases graph.now r acquire → ⊥ }
{
    for line in 0..graph.lines() {
        if freed(graph, line) == Some(acquire) {
            return Some(line);
        }
    }
    None
}
