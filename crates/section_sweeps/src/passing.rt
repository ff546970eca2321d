//! Bits that lines pass on along edges.

ghost use Rattle.std.specs.Prelude.{◌≡◌, ℕ, ◌*◌, ◌%◌, ◌^◌, ◌<◌, ◌≤◌, length, slice_index, slice_set, IfOk};
ghost use Rattle.std.specs.Int.RustNames.{bit_or};
ghost use Rattle.section_sweeps.specs.Passing.{AreWithin, HaveNone, IsSized, IsFromSources, IsFromTargets, bits_at};
ghost use Rattle.section_sweeps.specs.Table.{IsTable};

use crate::lookups::Table;
use graph_meaning::laws::edges_between_lines;
use graph_model::graph::Graph;
use index_spaces::NoMemory;
use index_spaces::room::filled;
use std::alloc::Global;

/// For each line its own bits, and those that it was passed along edges.
#[derive(Drop)]
pub struct Passing {
    pub own: Vec<u64>,
    pub passed: Vec<u64>,
}

impl Passing {
    /// No bits of so many lines.
    pub(crate) fn new(alloc: Global, lines: usize) -> Result<Passing, NoMemory>
        ensures size { IfOk result (IsSized lines) }
        ensures own { IfOk result (λ p. HaveNone p.own.items) }
        ensures passed { IfOk result (λ p. HaveNone p.passed.items) }
    {
        Ok(Passing {
            own: filled(alloc, 0, lines)?,
            passed: filled(alloc, 0, lines)?,
        })
    }

    /// The bits of a line.
    pub fn bits(&self, line: u32) -> u64
        requires own { line < length self.now.own.items }
        requires passed { line < length self.now.passed.items }
        ensures { result ≡ bits_at self.now.own.items self.now.passed.items line }
    {
        self.own[line as usize] | self.passed[line as usize]
    }

    /// The bits that a line was passed.
    pub fn passed(&self, line: u32) -> u64
        requires { line < length self.now.passed.items }
        ensures { result ≡ slice_index self.now.passed.items line }
    {
        self.passed[line as usize]
    }

    /// Gives a line a bit of its own.
    pub(crate) fn give(&mut self, line: u32, bit: u32)
        requires line { line < length self.old.own.items }
        requires bit { bit < 64 }
        ensures own { self.new.own.items ≡ slice_set self.old.own.items line (bit_or (slice_index self.old.own.items line) (1 * 2 ^ bit % 2 ^ 64)) }
        ensures passed { self.new.passed ≡ self.old.passed }
    {
        self.own[line as usize] |= 1 << bit;
    }

    /// Passes a line the bits of its sources.
    pub(crate) fn pass_from_sources(&mut self, graph: &Graph, line: u32)
        requires size { IsSized (length graph.now.lines) self.old }
        requires line { line < length graph.now.lines }
        ensures own { self.new.own ≡ self.old.own }
        ensures passed { (word : ℕ) × (self.new.passed.items ≡ slice_set self.old.passed.items line word) × IsFromSources graph.now self.old.own.items self.old.passed.items line word }
    {
        edges_between_lines();
        let _ = graph.lines();
        let mut word = 0;
        let edges = graph.edges_into(line);
        for edge in edges {
            word |= self.bits(edge.from);
        }
        self.passed[line as usize] = word;
    }

    /// Passes a line the bits of the lines that its edges lead to.
    pub(crate) fn pass_from_targets(&mut self, graph: &Graph, line: u32)
        requires size { IsSized (length graph.now.lines) self.old }
        requires line { line < length graph.now.lines }
        ensures own { self.new.own ≡ self.old.own }
        ensures passed { (word : ℕ) × (self.new.passed.items ≡ slice_set self.old.passed.items line word) × IsFromTargets graph.now self.old.own.items self.old.passed.items line word }
    {
        edges_between_lines();
        let _ = graph.lines();
        let mut word = 0;
        let edges = graph.edges_from(line);
        for edge in edges {
            word |= self.bits(edge.to);
        }
        self.passed[line as usize] = word;
    }

    /// Takes all bits of the lines at places from `low` up to `high`, where alone there are some.
    pub(crate) fn clear(&mut self, graph: &Graph, table: &Table, low: u32, high: u32)
        requires table { IsTable graph.now table.now }
        requires size { IsSized (length graph.now.lines) self.old }
        requires high { high ≤ length graph.now.lines }
        requires own { AreWithin table.now.places.items self.old.own.items low high }
        requires passed { AreWithin table.now.places.items self.old.passed.items low high }
        ensures size { IsSized (length graph.now.lines) self.new }
        ensures own { HaveNone self.new.own.items }
        ensures passed { HaveNone self.new.passed.items }
    {
        for place in low..high {
            let line = table.lines[place as usize];
            self.own[line as usize] = 0;
            self.passed[line as usize] = 0;
        }
    }
}
