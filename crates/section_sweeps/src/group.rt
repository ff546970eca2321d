//! The acquires of a group, up to 64, and the sweeps for them.

ghost use Rattle.std.specs.Prelude.{◌≡◌, ℕ, ◌<◌, ◌≤◌, true, List, length, slice_index, IsTrue, OnOk, IfOk, IfSome};
ghost use Rattle.graph_terms.specs.Reservations.{Acquires};
ghost use Rattle.sweep_base.specs.Bits.{bit_in};
ghost use Rattle.section_sweeps.specs.Group.{AreGathered, AreKnownFrom, AreOpened, AreOwn, IsAcquire, IsCleared, IsNoDeadPhase, IsPassed, IsPlacedAt, IsReleaseOf, IsReleased, IsSwept};
ghost use Rattle.section_sweeps.specs.Passing.{AreFromBefore, HasBit, IsSized};
ghost use Rattle.section_sweeps.specs.Sections.{AreHeldSoFar, IsGrown, IsSectionKept};
ghost use Rattle.section_sweeps.specs.Table.{IsTable};

use crate::kept_acquires::keep_all;
use crate::lookups::Table;
use crate::passing::Passing;
use crate::rules::{descends, is_dead_phase};
use crate::sweep::{sweep_down, sweep_up};
use graph_model::graph::Graph;
use index_spaces::NoMemory;
use index_spaces::room::push;
use std::alloc::Global;
use sweep_base::bits::has_bit;
use sweep_base::line_sections::Held;
use sweep_base::reservations::acquired;

/// The acquires of a group: bit `b` is that of acquire `b`. Which of them have paths to a line,
/// to which of them and to the releases of which of them it has paths.
#[derive(Drop)]
pub(crate) struct Group {
    pub(crate) acquires: Vec<u32>,
    pub(crate) behind: Passing,
    pub(crate) to_acquires: Passing,
    pub(crate) to_releases: Passing,
}

/// A range of places, from `low` up to `high`.
#[derive(Clone, Copy)]
pub(crate) struct Range {
    pub(crate) low: u32,
    pub(crate) high: u32,
}

impl Group {
    /// No acquires of a graph.
    pub(crate) fn new(alloc: Global, graph: &Graph) -> Result<Group, NoMemory>
        ensures { IfOk result (IsCleared (length graph.now.lines)) }
    {
        let lines = graph.lines() as usize;
        Ok(Group {
            acquires: Vec::new(alloc),
            behind: Passing::new(alloc, lines)?,
            to_acquires: Passing::new(alloc, lines)?,
            to_releases: Passing::new(alloc, lines)?,
        })
    }

    /// Whether the rules hold at the acquires of the group, which stand from a place on; keeps
    /// those in whose sections lines lie.
    pub(crate) fn passes(
        &mut self,
        graph: &Graph,
        table: &Table,
        held: &mut Held,
        start: u32,
    ) -> Result<bool, NoMemory>
        requires table { IsTable graph.now table.now }
        requires start { start < length graph.now.lines }
        requires cleared { IsCleared (length graph.now.lines) self.old }
        requires few { length self.old.acquires.items ≤ 64 }
        requires known { AreKnownFrom graph.now table.now.places.items self.old.acquires.items start }
        requires held { AreHeldSoFar graph.now held.old }
        ensures held { OnOk result (AreHeldSoFar graph.now held.new) }
        ensures grown { OnOk result (IsGrown held.old held.new) }
        ensures acquires { self.new.acquires ≡ self.old.acquires }
        ensures cleared { IfOk result (λ b. IsTrue b → IsCleared (length graph.now.lines) self.new) }
        ensures kept { IfOk result (λ passes. IsTrue passes → (b : ℕ) → b < length self.old.acquires.items → IsSectionKept graph.now held.new (slice_index self.old.acquires.items b)) }
    {
        let Some(range) = self.sweep(graph, table, start) else {
            return Ok(false);
        };
        if !self.keeps_rules(graph, table, held, range)? {
            return Ok(false);
        }
        self.clear(graph, table, range);
        Ok(true)
    }

    /// Takes the next acquires from a place on, and gives the place behind them.
    pub(crate) fn gather(
        &mut self,
        graph: &Graph,
        table: &Table,
        start: u32,
    ) -> Result<u32, NoMemory>
        requires table { IsTable graph.now table.now }
        requires start { start < length graph.now.lines }
        requires cleared { IsCleared (length graph.now.lines) self.old }
        ensures further { IfOk result (λ end. (start < end) × (end ≤ length graph.now.lines)) }
        ensures cleared { OnOk result (IsCleared (length graph.now.lines) self.new) }
        ensures gathered { IfOk result (AreGathered graph.now table.now.places.items self.new.acquires.items start) }
    {
        let lines = graph.lines();
        self.acquires.clear();
        let mut place = start;
        while place < lines && self.acquires.len() < 64 {
            let line = table.lines[place as usize];
            if let Some(_lock) = acquired(graph, line) {
                push(&mut self.acquires, line)?;
            }
            place += 1;
        }
        Ok(place)
    }

    /// Sweeps for the group from a place on, or further from the front, up to the place behind
    /// its last release. `None` where an acquire has no path to a release.
    fn sweep(&mut self, graph: &Graph, table: &Table, start: u32) -> Option<Range>
        requires table { IsTable graph.now table.now }
        requires start { start < length graph.now.lines }
        requires cleared { IsCleared (length graph.now.lines) self.old }
        requires few { length self.old.acquires.items ≤ 64 }
        requires known { AreKnownFrom graph.now table.now.places.items self.old.acquires.items start }
        ensures acquires { self.new.acquires ≡ self.old.acquires }
        ensures swept { IfSome result (λ r. IsSwept graph.now table.now.places.items self.new r.low r.high) }
    {
        let _ = graph.lines();
        let high = self.open(graph, table, start)?;
        sweep_up(&mut self.behind, graph, table, start, high);
        if !self.are_released(graph, table, high) {
            return None;
        }
        let low = sweep_down(
            &mut self.to_acquires,
            &mut self.to_releases,
            graph,
            table,
            start,
            high,
        );
        Some(Range { low, high })
    }

    /// Gives the acquires and their releases their bits, and gives the place behind the last
    /// release. `None` where an acquire has none.
    fn open(&mut self, graph: &Graph, table: &Table, start: u32) -> Option<u32>
        requires table { IsTable graph.now table.now }
        requires start { start < length graph.now.lines }
        requires cleared { IsCleared (length graph.now.lines) self.old }
        requires few { length self.old.acquires.items ≤ 64 }
        requires known { AreKnownFrom graph.now table.now.places.items self.old.acquires.items start }
        ensures acquires { self.new.acquires ≡ self.old.acquires }
        ensures opened { IfSome result (AreOpened graph.now table.now.places.items self.new (length self.new.acquires.items)) }
        ensures high { IfSome result (λ high. (start ≤ high) × (high ≤ length graph.now.lines)) }
    {
        let _ = graph.lines();
        let mut high = start;
        for bit in 0..self.acquires.len() {
            let acquire = self.acquires[bit];
            let release = table.releases[acquire as usize]?;
            self.behind.give(acquire, bit as u32);
            self.to_acquires.give(acquire, bit as u32);
            self.to_releases.give(release, bit as u32);
            high = high.max(table.places[release as usize] + 1);
        }
        Some(high)
    }

    /// Whether each acquire has a path to its release.
    fn are_released(&self, graph: &Graph, table: &Table, high: u32) -> bool
        requires table { IsTable graph.now table.now }
        requires size { IsSized (length graph.now.lines) self.now.behind }
        requires few { length self.now.acquires.items ≤ 64 }
        requires known { (b : ℕ) → b < length self.now.acquires.items → slice_index self.now.acquires.items b < length graph.now.lines }
        requires own { AreOwn (IsAcquire self.now.acquires.items) self.now.behind.own.items (length self.now.acquires.items) }
        requires passed { AreFromBefore graph.now self.now.behind.own.items self.now.behind.passed.items }
        requires releases_own { AreOwn (IsReleaseOf graph.now self.now.acquires.items) self.now.to_releases.own.items (length self.now.acquires.items) }
        requires ends { (i b : ℕ) → HasBit self.now.to_releases.own.items i b → slice_index table.now.places.items i < high }
        ensures { IsTrue result → (b : ℕ) → b < length self.now.acquires.items → IsReleased graph.now table.now.places.items self.now.acquires.items high b }
    {
        let _ = graph.lines();
        for bit in 0..self.acquires.len() {
            let Some(release) = table.releases[self.acquires[bit] as usize] else {
                return false;
            };
            if !has_bit(self.behind.passed(release), bit as u32) {
                return false;
            }
        }
        true
    }

    /// Whether the lines of a range keep the rules; keeps the acquires in whose sections they lie.
    fn keeps_rules(
        &self,
        graph: &Graph,
        table: &Table,
        held: &mut Held,
        range: Range,
    ) -> Result<bool, NoMemory>
        requires table { IsTable graph.now table.now }
        requires swept { IsSwept graph.now table.now.places.items self.now range.low range.high }
        requires held { AreHeldSoFar graph.now held.old }
        ensures held { OnOk result (AreHeldSoFar graph.now held.new) }
        ensures grown { OnOk result (IsGrown held.old held.new) }
        ensures passed { IfOk result (λ b. IsTrue b → (i : ℕ) → i < length graph.now.lines → range.low ≤ slice_index table.now.places.items i → slice_index table.now.places.items i < range.high → IsPassed graph.now self.now held.new i) }
    {
        for place in range.low..range.high {
            if !self.keeps_rules_at(graph, held, table.lines[place as usize])? {
                return Ok(false);
            }
        }
        Ok(true)
    }

    /// Whether a line keeps the rules; keeps the acquires in whose sections it lies.
    fn keeps_rules_at(&self, graph: &Graph, held: &mut Held, line: u32) -> Result<bool, NoMemory>
        requires line { line < length graph.now.lines }
        requires swept { (places : List ℕ) × (low : ℕ) × (high : ℕ) × IsSwept graph.now places self.now low high }
        requires held { AreHeldSoFar graph.now held.old }
        ensures held { OnOk result (AreHeldSoFar graph.now held.new) }
        ensures grown { OnOk result (IsGrown held.old held.new) }
        ensures passed { IfOk result (λ b. IsTrue b → IsPassed graph.now self.now held.new line) }
    {
        if self.outside(graph, line) != 0 {
            return Ok(false);
        }
        let inside = self.behind.passed(line) & self.to_releases.passed(line);
        if inside == 0 {
            return Ok(true);
        }
        if !descends(graph, self.acquires.as_slice(), line, inside) {
            return Ok(false);
        }
        keep_all(held, graph, self.acquires.as_slice(), line, inside)?;
        Ok(true)
    }

    /// The acquires to whose releases a line has a path, though it neither is nor has a path to
    /// the acquire, nor has a path from it and may come.
    fn outside(&self, graph: &Graph, line: u32) -> u64
        requires line { line < length graph.now.lines }
        requires behind_size { IsSized (length graph.now.lines) self.now.behind }
        requires acquires_size { IsSized (length graph.now.lines) self.now.to_acquires }
        requires releases_size { IsSized (length graph.now.lines) self.now.to_releases }
        ensures { result ≡ 0 → (b : ℕ) → b < 64 → HasBit self.now.to_releases.passed.items line b → IsPlacedAt graph.now self.now line b }
    {
        let allowed = self.to_acquires.bits(line) | self.entered(graph, line);
        self.to_releases.passed(line) & !allowed
    }

    /// The acquires behind which a line may come.
    fn entered(&self, graph: &Graph, line: u32) -> u64
        requires line { line < length graph.now.lines }
        requires size { IsSized (length graph.now.lines) self.now.behind }
        ensures { (b : ℕ) → bit_in result b ≡ true → HasBit self.now.behind.passed.items line b × IsNoDeadPhase graph.now line }
    {
        if is_dead_phase(graph, line) {
            return 0;
        }
        self.behind.passed(line)
    }

    /// Takes all bits of a range.
    fn clear(&mut self, graph: &Graph, table: &Table, range: Range)
        requires table { IsTable graph.now table.now }
        requires swept { IsSwept graph.now table.now.places.items self.old range.low range.high }
        ensures acquires { self.new.acquires ≡ self.old.acquires }
        ensures cleared { IsCleared (length graph.now.lines) self.new }
    {
        self.behind.clear(graph, table, range.low, range.high);
        self.to_acquires.clear(graph, table, range.low, range.high);
        self.to_releases.clear(graph, table, range.low, range.high);
    }
}
