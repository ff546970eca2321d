//! Which of up to 64 lines have a path to a line, or from it.

ghost use Rattle.std.specs.Prelude.{◌≡◌, ℕ, ◌+◌, ◌<◌, ◌≤◌, List, Option, Some, None, length, IfOk};
ghost use Rattle.std.specs.List.{slice_index_or};
ghost use Rattle.section_sweeps.specs.Blocks.{AreKnown, IsLineOf, IsMarked};
ghost use Rattle.section_sweeps.specs.Group.{AreOwn};
ghost use Rattle.section_sweeps.specs.Passing.{AreFromBefore, AreFromBehind, ArePassedDown, ArePassedUp, IsSized};
ghost use Rattle.section_sweeps.specs.Table.{IsTable};

use crate::lookups::Table;
use crate::passing::Passing;
use crate::sweep::{sweep_back, sweep_up};
use graph_model::graph::Graph;
use index_spaces::NoMemory;
use std::alloc::Global;

/// Gives line `b` of a list, where it has one there, bit `b`, and passes the bits on along edges:
/// each line before place `high` has the bits of the lines that have a path to it.
pub fn passed_forward(
    alloc: Global,
    graph: &Graph,
    table: &Table,
    of: &[Option<u32>],
    high: u32,
) -> Result<Passing, NoMemory>
    requires table { IsTable graph.now table.now }
    requires few { length of.now ≤ 64 }
    requires known { AreKnown graph.now of.now }
    requires high { high ≤ length graph.now.lines }
    ensures size { IfOk result (IsSized (length graph.now.lines)) }
    ensures own { IfOk result (λ p. AreOwn (IsLineOf of.now) p.own.items (length of.now)) }
    ensures is { IfOk result (λ p. AreFromBefore graph.now p.own.items p.passed.items) }
    ensures all { IfOk result (λ p. ArePassedUp graph.now table.now.places.items p.own.items p.passed.items high) }
{
    let mut marked = Marked::of(alloc, graph, table, of)?;
    sweep_up(&mut marked.bits, graph, table, marked.low, high);
    Ok(marked.bits)
}

/// The same against the edges: each line from place `low` on has the bits of the lines that it has
/// a path to.
pub fn passed_back(
    alloc: Global,
    graph: &Graph,
    table: &Table,
    of: &[Option<u32>],
    low: u32,
) -> Result<Passing, NoMemory>
    requires table { IsTable graph.now table.now }
    requires few { length of.now ≤ 64 }
    requires known { AreKnown graph.now of.now }
    ensures size { IfOk result (IsSized (length graph.now.lines)) }
    ensures own { IfOk result (λ p. AreOwn (IsLineOf of.now) p.own.items (length of.now)) }
    ensures is { IfOk result (λ p. AreFromBehind graph.now p.own.items p.passed.items) }
    ensures all { IfOk result (λ p. ArePassedDown graph.now table.now.places.items p.own.items p.passed.items low) }
{
    let mut marked = Marked::of(alloc, graph, table, of)?;
    sweep_back(&mut marked.bits, graph, table, low, marked.high);
    Ok(marked.bits)
}

/// Bits of lines at places from `low` up to `high`.
#[derive(Drop)]
struct Marked {
    bits: Passing,
    low: u32,
    high: u32,
}

impl Marked {
    /// The lines of a list have their bits.
    fn of(
        alloc: Global,
        graph: &Graph,
        table: &Table,
        of: &[Option<u32>],
    ) -> Result<Marked, NoMemory>
        requires table { IsTable graph.now table.now }
        requires few { length of.now ≤ 64 }
        requires known { AreKnown graph.now of.now }
        ensures { IfOk result (λ s. IsMarked graph.now table.now.places.items of.now s (length of.now)) }
    {
        let lines = graph.lines();
        let mut marked = Marked {
            bits: Passing::new(alloc, lines as usize)?,
            low: lines,
            high: 0,
        };
        for bit in 0..of.len() {
            if let Some(line) = of[bit] {
                marked.mark(graph, table, line, bit as u32);
            }
        }
        Ok(marked)
    }

    /// Gives a line its bit.
    fn mark(&mut self, graph: &Graph, table: &Table, line: u32, bit: u32)
        requires table { IsTable graph.now table.now }
        requires line { line < length graph.now.lines }
        requires bit { bit < 64 }
        requires size { IsSized (length graph.now.lines) self.old.bits }
        requires within { self.old.high ≤ length graph.now.lines }
        ensures marked { (of : List (Option ℕ)) → slice_index_or of bit None ≡ Some line → IsMarked graph.now table.now.places.items of self.old bit
            → IsMarked graph.now table.now.places.items of self.new (bit + 1) }
    {
        let _ = graph.lines();
        let place = table.places[line as usize];
        self.bits.give(line, bit);
        self.low = self.low.min(place);
        self.high = self.high.max(place + 1);
    }
}
