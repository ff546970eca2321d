//! The lines of a block and those with which they race.

ghost use Rattle.std.specs.Prelude.{◌≡◌, ◌≢◌, ℕ, ◌+◌, ◌<◌, ◌≤◌, ◌↔◌, true, false, length, IsTrue, IfOk, MatchOption};
ghost use Rattle.graph_meaning.specs.Path.{HasPath};
ghost use Rattle.graph_meaning.specs.Rules.{RaceAt};
ghost use Rattle.sweep_base.specs.BlockRules.{IsLowest, NoneLow};
ghost use Rattle.sweep_base.specs.Held.{IsHeld};
ghost use Rattle.sweep_base.specs.Noted.{is_noted};
ghost use Rattle.conflict_classes.specs.Settled.{IsSettled};
ghost use Rattle.section_sweeps.specs.Table.{IsTable};
ghost use Rattle.race_pairs.specs.Races.{AreAccesses, IsRivals, IsSuspects};
ghost use Rattle.race_pairs.specs.Summaries.{AreAlone};

use crate::block_conflicts::Asked;
use crate::common_sections::are_apart;
use crate::conflicts::lines_clash;
use graph_meaning::laws::edges_between_lines;
use graph_model::graph::Graph;
use graph_terms::verb::Access;
use index_spaces::NoMemory;
use section_sweeps::blocks::{passed_back, passed_forward};
use section_sweeps::line_lists::lines_from;
use section_sweeps::lookups::Table;
use section_sweeps::passing::Passing;
use std::alloc::Global;
use sweep_base::bits::has_bit;
use sweep_base::line_sections::Held;

/// What is looked up of 64 lines from a first one on: to which lines they have paths, from which
/// there are paths to them, and which of them may conflict with whom.
#[derive(Drop)]
pub(crate) struct Rivals {
    pub(crate) first: u32,
    pub(crate) behind: Passing,
    pub(crate) before: Passing,
    pub(crate) asked: Asked,
}

impl Rivals {
    pub(crate) fn new(
        alloc: Global,
        graph: &Graph,
        table: &Table,
        first: u32,
    ) -> Result<Rivals, NoMemory>
        requires table { IsTable graph.now table.now }
        requires first { first < length graph.now.lines }
        ensures first { IfOk result (λ r. r.first ≡ first) }
        ensures rivals { IfOk result (IsRivals graph.now) }
    {
        edges_between_lines();
        let lines = graph.lines();
        let end = lines.min(first + 64);
        let of = lines_from(alloc, first, end)?;
        let of = of.as_slice();
        let behind = passed_forward(alloc, graph, table, of, lines)?;
        let before = passed_back(alloc, graph, table, of, 0)?;
        let asked = Asked::new(alloc, graph, first, end)?;
        Ok(Rivals {
            first,
            behind,
            before,
            asked,
        })
    }

    /// How many of so many lines, from the first on, race with no noted line of the block.
    pub(crate) fn free_before(
        &self,
        graph: &Graph,
        accesses: &[Vec<Access>],
        held: &Held,
        racing: &[bool],
        free: u32,
    ) -> u32
        requires free { free ≤ length graph.now.lines }
        requires size { length racing.now ≡ length graph.now.lines }
        requires held { IsHeld graph.now held.now }
        requires alone { AreAlone graph.now }
        requires accesses { AreAccesses graph.now accesses.now }
        requires rivals { IsRivals graph.now self.now }
        ensures few { result ≤ free }
        ensures settled { (k b : ℕ) → k < result → b < 64 → is_noted racing.now (self.now.first + b) ≡ true → IsSettled graph.now (self.now.first + b) k }
    {
        for line in 0..free {
            if self.has_rival(graph, accesses, held, racing, line) {
                return line;
            }
        }
        free
    }

    /// How many lines of the block, from the first on, race with no noted line.
    pub(crate) fn free_of_noted(
        &self,
        graph: &Graph,
        accesses: &[Vec<Access>],
        held: &Held,
        racing: &[bool],
    ) -> u32
        requires size { length racing.now ≡ length graph.now.lines }
        requires held { IsHeld graph.now held.now }
        requires alone { AreAlone graph.now }
        requires accesses { AreAccesses graph.now accesses.now }
        requires rivals { IsRivals graph.now self.now }
        ensures few { result ≤ 64 }
        ensures settled { (b r : ℕ) → b < result → r < length graph.now.lines → is_noted racing.now r ≡ true → IsSettled graph.now (self.now.first + b) r }
    {
        let mut free = 64;
        for line in 0..graph.lines() {
            free = self.free_of(graph, accesses, held, racing, line, free);
        }
        free
    }

    /// How many of so many lines of the block, from the first on, do not race with a line, if it is
    /// noted.
    fn free_of(
        &self,
        graph: &Graph,
        accesses: &[Vec<Access>],
        held: &Held,
        racing: &[bool],
        line: u32,
        most: u32,
    ) -> u32
        requires line { line < length graph.now.lines }
        requires most { most ≤ 64 }
        requires size { length racing.now ≡ length graph.now.lines }
        requires held { IsHeld graph.now held.now }
        requires alone { AreAlone graph.now }
        requires accesses { AreAccesses graph.now accesses.now }
        requires rivals { IsRivals graph.now self.now }
        ensures few { result ≤ most }
        ensures settled { is_noted racing.now line ≡ true → (b : ℕ) → b < result → IsSettled graph.now (self.now.first + b) line }
    {
        if !racing[line as usize] {
            return most;
        }
        let suspects = self.suspects(graph, line);
        if suspects == 0 {
            return most;
        }
        for bit in 0..most {
            if self.is_rival(graph, accesses, held, suspects, line, bit) {
                return bit;
            }
        }
        most
    }

    /// Whether a noted line of the block races with this one.
    fn has_rival(
        &self,
        graph: &Graph,
        accesses: &[Vec<Access>],
        held: &Held,
        racing: &[bool],
        line: u32,
    ) -> bool
        requires line { line < length graph.now.lines }
        requires size { length racing.now ≡ length graph.now.lines }
        requires held { IsHeld graph.now held.now }
        requires alone { AreAlone graph.now }
        requires accesses { AreAccesses graph.now accesses.now }
        requires rivals { IsRivals graph.now self.now }
        ensures { result ≡ false → (b : ℕ) → b < 64 → is_noted racing.now (self.now.first + b) ≡ true → IsSettled graph.now (self.now.first + b) line }
    {
        let suspects = self.suspects(graph, line);
        if suspects == 0 {
            return false;
        }
        for bit in 0..64 {
            if self.is_noted_rival(graph, accesses, held, racing, suspects, line, bit) {
                return true;
            }
        }
        false
    }

    /// Whether a line of the block is noted and races with another line, where it is a suspect.
    fn is_noted_rival(
        &self,
        graph: &Graph,
        accesses: &[Vec<Access>],
        held: &Held,
        racing: &[bool],
        suspects: u64,
        line: u32,
        bit: u32,
    ) -> bool
        requires line { line < length graph.now.lines }
        requires bit { bit < 64 }
        requires size { length racing.now ≡ length graph.now.lines }
        requires held { IsHeld graph.now held.now }
        requires alone { AreAlone graph.now }
        requires accesses { AreAccesses graph.now accesses.now }
        requires suspects { IsSuspects graph.now self.now.first line suspects }
        requires first { self.now.first < length graph.now.lines }
        ensures { result ≡ false → is_noted racing.now (self.now.first + bit) ≡ true → IsSettled graph.now (self.now.first + bit) line }
    {
        let lines = graph.lines();
        let one = self.first + bit;
        if one >= lines {
            return false;
        }
        if !racing[one as usize] {
            return false;
        }
        self.is_rival(graph, accesses, held, suspects, line, bit)
    }

    /// The least line of the block below a limit that races with this line, which stands after it.
    pub(crate) fn first_of(
        &self,
        graph: &Graph,
        accesses: &[Vec<Access>],
        held: &Held,
        line: u32,
        limit: u32,
    ) -> Option<u32>
        requires line { line < length graph.now.lines }
        requires limit { limit ≤ 64 }
        requires held { IsHeld graph.now held.now }
        requires alone { AreAlone graph.now }
        requires accesses { AreAccesses graph.now accesses.now }
        requires rivals { IsRivals graph.now self.now }
        ensures { MatchOption result (NoneLow (RaceAt graph.now) self.now.first limit line) (IsLowest (RaceAt graph.now) self.now.first limit line) }
    {
        if limit == 0 {
            return None;
        }
        let suspects = self.suspects(graph, line);
        if suspects == 0 {
            return None;
        }
        for bit in 0..limit {
            if self.is_race(graph, accesses, held, suspects, line, bit) {
                return Some(bit);
            }
        }
        None
    }

    /// Whether the first line of the block races with a line after it.
    pub(crate) fn races_with_first(
        &self,
        graph: &Graph,
        accesses: &[Vec<Access>],
        held: &Held,
        line: u32,
    ) -> bool
        requires line { line < length graph.now.lines }
        requires held { IsHeld graph.now held.now }
        requires alone { AreAlone graph.now }
        requires accesses { AreAccesses graph.now accesses.now }
        requires rivals { IsRivals graph.now self.now }
        ensures race { result ≡ true → RaceAt graph.now self.now.first line → ⊥ }
        ensures free { result ≡ false → RaceAt graph.now self.now.first line }
    {
        let suspects = self.suspects(graph, line);
        self.is_race(graph, accesses, held, suspects, line, 0)
    }

    /// The lines of the block that may conflict with a line, and have no path from it nor to it.
    pub(crate) fn suspects(&self, graph: &Graph, line: u32) -> u64
        requires line { line < length graph.now.lines }
        requires rivals { IsRivals graph.now self.now }
        ensures { IsSuspects graph.now self.now.first line result }
    {
        edges_between_lines();
        let _ = graph.lines();
        let settled = self.behind.passed(line) | self.before.passed(line);
        self.asked.of(graph, line) & !settled
    }

    /// Whether a line of the block races with a line after it, where it is a suspect.
    fn is_race(
        &self,
        graph: &Graph,
        accesses: &[Vec<Access>],
        held: &Held,
        suspects: u64,
        line: u32,
        bit: u32,
    ) -> bool
        requires line { line < length graph.now.lines }
        requires bit { bit < 64 }
        requires held { IsHeld graph.now held.now }
        requires alone { AreAlone graph.now }
        requires accesses { AreAccesses graph.now accesses.now }
        requires suspects { IsSuspects graph.now self.now.first line suspects }
        requires first { self.now.first < length graph.now.lines }
        ensures race { result ≡ true → RaceAt graph.now (self.now.first + bit) line → ⊥ }
        ensures free { result ≡ false → RaceAt graph.now (self.now.first + bit) line }
    {
        let _ = graph.lines();
        if self.first + bit >= line {
            return false;
        }
        self.is_rival(graph, accesses, held, suspects, line, bit)
    }

    /// Whether a line of the block races with another line, where it is a suspect.
    pub(crate) fn is_rival(
        &self,
        graph: &Graph,
        accesses: &[Vec<Access>],
        held: &Held,
        suspects: u64,
        line: u32,
        bit: u32,
    ) -> bool
        requires line { line < length graph.now.lines }
        requires bit { bit < 64 }
        requires held { IsHeld graph.now held.now }
        requires alone { AreAlone graph.now }
        requires accesses { AreAccesses graph.now accesses.now }
        requires suspects { IsSuspects graph.now self.now.first line suspects }
        requires first { self.now.first < length graph.now.lines }
        ensures race { result ≡ true → IsSettled graph.now (self.now.first + bit) line → ⊥ }
        ensures free { result ≡ false → IsSettled graph.now (self.now.first + bit) line }
    {
        let lines = graph.lines();
        if !has_bit(suspects, bit) {
            return false;
        }
        let one = self.first + bit;
        if one >= lines {
            return false;
        }
        if one == line {
            return false;
        }
        !is_free(graph, accesses, held, one, line)
    }
}

/// Whether two lines without a path either way do not conflict, or are exempt.
fn is_free(graph: &Graph, accesses: &[Vec<Access>], held: &Held, one: u32, other: u32) -> bool
    requires one { one < length graph.now.lines }
    requires other { other < length graph.now.lines }
    requires apart { one ≢ other }
    requires held { IsHeld graph.now held.now }
    requires alone { AreAlone graph.now }
    requires accesses { AreAccesses graph.now accesses.now }
    requires forward { HasPath graph.now one other → ⊥ }
    requires backward { HasPath graph.now other one → ⊥ }
    ensures { IsTrue result ↔ IsSettled graph.now one other }
{
    if !lines_clash(graph, accesses, one, other, true) {
        return true;
    }
    if lines_clash(graph, accesses, one, other, false) {
        return false;
    }
    are_apart(graph, held, one, other)
}
