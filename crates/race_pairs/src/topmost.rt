//! Of the lines that race, the pair whose later line stands first.

ghost use Rattle.std.specs.Prelude.{◌≡◌, ℕ, ◌+◌, ◌<◌, ◌≤◌, true, false, length, IfOk, MatchOption};
ghost use Rattle.graph_meaning.specs.Rules.{Everywhere, EverywhereTwice, FailsFirstTwice, RaceAt};
ghost use Rattle.sweep_base.specs.BlockRules.{FailsFirstIn, HoldsIn, IsLowest, NoneLow};
ghost use Rattle.race_pairs.specs.Races.{AreAccesses, IsRivals, IsSuspects};
ghost use Rattle.race_pairs.specs.Summaries.{AreAlone};
ghost use Rattle.race_pairs.specs.Topmost.{NoneRaceBelow, races_with};
ghost use Rattle.sweep_base.specs.Held.{IsHeld};
ghost use Rattle.sweep_base.specs.Placed.{IsOrder};
ghost use Rattle.section_sweeps.specs.Table.{IsTable};

use crate::chained::chained_lines;
use crate::conflicts::accesses_of_lines;
use crate::ordered::ordered_lines;
use crate::rivals::Rivals;
use graph_meaning::laws::edges_between_lines;
use graph_model::graph::Graph;
use graph_terms::verb::Access;
use index_spaces::NoMemory;
use race_sweeps::later_line;
use section_sweeps::lookups::Table;
use std::alloc::Global;
use sweep_base::line_sections::Held;

/// How many scans are tried at most.
const MOST_SCANS: u32 = 40;

/// How many lines are gone through without a scan.
const FEW_LINES: u32 = 256;

/// The least line that races with one above it, and the least such line, which is given first. No line
/// above `first` races, and `second` is the least line with which that one does, if it races.
pub fn topmost_race_from(
    alloc: Global,
    graph: &Graph,
    order: &[u32],
    held: &Held,
    first: u32,
    second: u32,
) -> Result<Option<(u32, u32)>, NoMemory>
    requires order { IsOrder graph.now order.now }
    requires count { length order.now ≡ length graph.now.lines }
    requires held { IsHeld graph.now held.now }
    requires alone { AreAlone graph.now }
    requires above { (k : ℕ) → k < first → Everywhere (RaceAt graph.now k) }
    ensures { IfOk result (λ o. MatchOption o (EverywhereTwice (RaceAt graph.now))
        (λ p. (p.0 < length graph.now.lines) × (p.1 < length graph.now.lines) × FailsFirstTwice (races_with graph.now) p.1 p.0)) }
{
    let start = free_lines(alloc, graph, order, held, first, second)?;
    let table = Table::new(alloc, graph, order)?;
    let accesses = accesses_of_lines(alloc, graph)?;
    topmost_in(
        alloc,
        graph,
        &table,
        accesses.as_slice(),
        held,
        first,
        start,
    )
}

/// How many lines, from the first on, race with none above them, as far as their edges and scans show. Each
/// scan bounds the topmost race from above, by a race that it finds, or from below. None is tried
/// behind one that finds too much overlap.
fn free_lines(
    alloc: Global,
    graph: &Graph,
    order: &[u32],
    held: &Held,
    first: u32,
    second: u32,
) -> Result<u32, NoMemory>
    requires order { IsOrder graph.now order.now }
    requires held { IsHeld graph.now held.now }
    requires above { (k : ℕ) → k < first → Everywhere (RaceAt graph.now k) }
    ensures begins { IfOk result (λ n. first ≤ n) }
    ensures free { IfOk result (NoneRaceBelow graph.now) }
{
    let mut low = free_by_edges(alloc, graph, first)?;
    let mut high = second.min(graph.lines());
    for step in 0..MOST_SCANS {
        if high.saturating_sub(low) < FEW_LINES {
            return Ok(low);
        }
        let limit = scan_limit(low, high, step);
        let bounds = narrowed(alloc, graph, order, held, low, high, limit)?;
        low = bounds.0;
        high = bounds.1;
    }
    Ok(low)
}

/// How many lines, from the first on, race with none above them, as far as their edges show: those of a chain of
/// lines, or of chains by columns, whichever reach further.
fn free_by_edges(alloc: Global, graph: &Graph, first: u32) -> Result<u32, NoMemory>
    requires above { (k : ℕ) → k < first → Everywhere (RaceAt graph.now k) }
    ensures begins { IfOk result (λ n. first ≤ n) }
    ensures free { IfOk result (NoneRaceBelow graph.now) }
{
    let chained = chained_lines(graph, first);
    let ordered = ordered_lines(alloc, graph, first)?;
    if ordered > chained {
        Ok(ordered)
    } else {
        Ok(chained)
    }
}

/// How far the next scan goes: to the upper bound, and from the fourth on in turn to the middle.
/// Why: the bound is mostly right after one scan, but lines may be triggered from below.
fn scan_limit(low: u32, high: u32, step: u32) -> u32
    requires { low ≤ high }
{
    if step < 3 || step % 2 == 0 {
        return high;
    }
    low + (high - low) / 2
}

/// The bounds after one more scan.
fn narrowed(
    alloc: Global,
    graph: &Graph,
    order: &[u32],
    held: &Held,
    low: u32,
    high: u32,
    limit: u32,
) -> Result<(u32, u32), NoMemory>
    requires order { IsOrder graph.now order.now }
    requires held { IsHeld graph.now held.now }
    requires free { NoneRaceBelow graph.now low }
    ensures begins { IfOk result (λ p. low ≤ p.0) }
    ensures free { IfOk result (λ p. NoneRaceBelow graph.now p.0) }
{
    let Some(later) = later_line(alloc, graph, order, held, limit)? else {
        return Ok((low, low));
    };
    if later < limit {
        return Ok((low, later));
    }
    if limit < low {
        return Ok((low, high));
    }
    Ok((limit, high))
}

/// The least line that races with one above it, where none before `begin` does; 64 lines at a time.
fn topmost_in(
    alloc: Global,
    graph: &Graph,
    table: &Table,
    accesses: &[Vec<Access>],
    held: &Held,
    first: u32,
    begin: u32,
) -> Result<Option<(u32, u32)>, NoMemory>
    requires table { IsTable graph.now table.now }
    requires accesses { AreAccesses graph.now accesses.now }
    requires held { IsHeld graph.now held.now }
    requires alone { AreAlone graph.now }
    requires above { (k : ℕ) → k < first → Everywhere (RaceAt graph.now k) }
    requires begins { first ≤ begin }
    requires free { NoneRaceBelow graph.now begin }
    ensures { IfOk result (λ o. MatchOption o (EverywhereTwice (RaceAt graph.now))
        (λ p. (p.0 < length graph.now.lines) × (p.1 < length graph.now.lines) × FailsFirstTwice (races_with graph.now) p.1 p.0)) }
{
    edges_between_lines();
    let lines = graph.lines();
    let mut start = begin;
    while start < lines {
        let found = topmost_of_block(alloc, graph, table, accesses, held, first, start)?;
        if let Some(pair) = found {
            return Ok(Some(pair));
        }
        start += 64;
    }
    Ok(None)
}

/// The least line of a block that races with one above it.
fn topmost_of_block(
    alloc: Global,
    graph: &Graph,
    table: &Table,
    accesses: &[Vec<Access>],
    held: &Held,
    first: u32,
    start: u32,
) -> Result<Option<(u32, u32)>, NoMemory>
    requires table { IsTable graph.now table.now }
    requires accesses { AreAccesses graph.now accesses.now }
    requires held { IsHeld graph.now held.now }
    requires alone { AreAlone graph.now }
    requires above { (k : ℕ) → k < first → Everywhere (RaceAt graph.now k) }
    requires begins { first ≤ start }
    requires start { start < length graph.now.lines }
    ensures { IfOk result (λ o. MatchOption o (HoldsIn (races_with graph.now) start (length graph.now.lines))
        (λ p. (p.0 < length graph.now.lines) × (p.1 < length graph.now.lines) × FailsFirstIn (races_with graph.now) start (length graph.now.lines) p.1 p.0)) }
{
    edges_between_lines();
    let lines = graph.lines();
    let end = lines.min(start + 64);
    let rivals = Rivals::new(alloc, graph, table, start)?;
    let mut limit = 64;
    let mut found = 0;
    for line in first..end {
        if let Some(bit) = rivals.first_behind(graph, accesses, held, line, limit) {
            limit = bit;
            found = line;
        }
    }
    if limit < 64 {
        return Ok(Some((found, start + limit)));
    }
    Ok(None)
}

impl Rivals {
    /// The least line of the block below a limit that races with this line, which stands above it.
    fn first_behind(
        &self,
        graph: &Graph,
        accesses: &[Vec<Access>],
        held: &Held,
        line: u32,
        limit: u32,
    ) -> Option<u32>
        requires line { line < length graph.now.lines }
        requires limit { limit ≤ 64 }
        requires held { IsHeld graph.now held.now }
        requires alone { AreAlone graph.now }
        requires accesses { AreAccesses graph.now accesses.now }
        requires rivals { IsRivals graph.now self.now }
        ensures { MatchOption result (NoneLow (races_with graph.now) self.now.first limit line) (IsLowest (races_with graph.now) self.now.first limit line) }
    {
        let suspects = self.suspects(graph, line);
        if suspects == 0 {
            return None;
        }
        for bit in 0..limit {
            if self.is_behind(graph, accesses, held, suspects, line, bit) {
                return Some(bit);
            }
        }
        None
    }

    /// Whether a line of the block races with a line above it, where it is a suspect.
    fn is_behind(
        &self,
        graph: &Graph,
        accesses: &[Vec<Access>],
        held: &Held,
        suspects: u64,
        line: u32,
        bit: u32,
    ) -> bool
        requires line { line < length graph.now.lines }
        requires bit { bit < 64 }
        requires held { IsHeld graph.now held.now }
        requires alone { AreAlone graph.now }
        requires accesses { AreAccesses graph.now accesses.now }
        requires suspects { IsSuspects graph.now self.now.first line suspects }
        requires first { self.now.first < length graph.now.lines }
        ensures race { result ≡ true → races_with graph.now (self.now.first + bit) line → ⊥ }
        ensures free { result ≡ false → races_with graph.now (self.now.first + bit) line }
    {
        let _ = graph.lines();
        if line >= self.first + bit {
            return false;
        }
        self.is_rival(graph, accesses, held, suspects, line, bit)
    }
}
