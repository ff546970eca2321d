//! The columns of a line, moved out of their homes and back.

ghost use Rattle.std.specs.Prelude.{◌≡◌, ℕ, ◌<◌, ◌+◌, length, slice_get, slice_index_or, slice_set, Some, None, IsSome, IfSome};
ghost use Rattle.index_spaces.specs.Held.{held_at, lending_at, HoldsOtherwise};
ghost use Rattle.graph_terms.specs.Graph.{columns};
ghost use Rattle.line_effects.specs.Moved.{moves, AreMoved, AreBack};

use crate::homes::Homes;
use graph_meaning::line_laws::{accesses_fit, columns_differ};
use graph_model::graph::Graph;
use graph_terms::limits::MOST_ACCESSES;
use index_spaces::held::Held;

/// The column of this number among those that a line moves.
pub fn moved_column(graph: &Graph, line: u32, k: u32) -> Option<u32>
    requires { line < length graph.now.lines }
    ensures column { result ≡ slice_get (moves graph.now line) k }
    ensures known { IfSome result (λ c. c < length (columns graph.now)) }
{
    accesses_fit();
    let _ = graph.lines();
    match graph.access(line, k) {
        Some(access) => Some(access.column),
        None => None,
    }
}

/// Moves out the columns of a line.
pub fn take_columns(graph: &Graph, line: u32, homes: &mut Homes) -> Held
    requires known { line < length graph.now.lines }
    requires each { length homes.old ≡ length (columns graph.now) }
    requires home { (k c : ℕ) → slice_get (moves graph.now line) k ≡ Some c → IsSome (slice_index_or homes.old c None) }
    ensures { AreMoved graph.now line homes.old homes.new result }
{
    columns_differ();
    let _ = graph.lines();
    let mut held = Held::none();
    for k in 0..MOST_ACCESSES {
        if let Some(c) = moved_column(graph, line, k) {
            take_column(homes, &mut held, c);
        }
    }
    held
}

/// Moves out a column that is at home.
fn take_column(homes: &mut Homes, held: &mut Held, c: u32)
    requires known { c < length homes.old }
    requires home { IsSome (slice_index_or homes.old c None) }
    requires new { held_at held.old c ≡ None }
    requires few { length held.old < 4 }
    ensures homes { homes.new ≡ slice_set homes.old c None }
    ensures held { HoldsOtherwise held.old held.new c (slice_index_or homes.old c None) }
    ensures own { lending_at held.new c ≡ None }
    ensures number { length held.new ≡ length held.old + 1 }
{
    let column = homes.take(c).unwrap();
    held.add(c, column);
}

/// Puts the columns of a line back at home.
pub fn give_columns(graph: &Graph, line: u32, mut held: Held, homes: &mut Homes)
    requires known { line < length graph.now.lines }
    requires each { length homes.old ≡ length (columns graph.now) }
    requires out { (k c : ℕ) → slice_get (moves graph.now line) k ≡ Some c → slice_index_or homes.old c None ≡ None }
    requires has { (k c : ℕ) → slice_get (moves graph.now line) k ≡ Some c → IsSome (held_at held c) }
    requires own { (k c : ℕ) → slice_get (moves graph.now line) k ≡ Some c → lending_at held c ≡ None }
    ensures { AreBack graph.now line held homes.old homes.new }
{
    columns_differ();
    let _ = graph.lines();
    for k in 0..MOST_ACCESSES {
        if let Some(c) = moved_column(graph, line, k) {
            let column = held.take(c);
            homes.give(c, column);
        }
    }
}
