//! The least line that races, and the least with which it does.

ghost use Rattle.std.specs.Prelude.{◌≡◌, ℕ, ◌+◌, ◌<◌, ◌≤◌, true, false, length, IfOk, MatchOption};
ghost use Rattle.graph_meaning.specs.Rules.{Everywhere, EverywhereTwice, FailsFirstTwice, RaceAt};
ghost use Rattle.sweep_base.specs.BlockRules.{FailsFirstIn, HoldsIn};
ghost use Rattle.sweep_base.specs.Held.{IsHeld};
ghost use Rattle.sweep_base.specs.Noted.{is_noted};
ghost use Rattle.sweep_base.specs.Placed.{IsOrder};
ghost use Rattle.conflict_classes.specs.Settled.{IsSettled};
ghost use Rattle.race_sweeps.specs.Enough.{AreEnough};
ghost use Rattle.section_sweeps.specs.Table.{IsTable};
ghost use Rattle.race_pairs.specs.Races.{AreAccesses};
ghost use Rattle.race_pairs.specs.Summaries.{AreAlone};

use crate::conflicts::accesses_of_lines;
use crate::rivals::Rivals;
use graph_meaning::laws::edges_between_lines;
use graph_model::graph::Graph;
use graph_terms::verb::Access;
use index_spaces::NoMemory;
use section_sweeps::lookups::Table;
use std::alloc::Global;
use sweep_base::line_sections::Held;
use sweep_base::notes::is_any_noted;

/// The least line and the least line after it that race, where the lines that race are noted: the
/// least of them all races with a noted one.
pub(crate) fn first_race_of(
    alloc: Global,
    graph: &Graph,
    order: &[u32],
    held: &Held,
    racing: &[bool],
) -> Result<Option<(u32, u32)>, NoMemory>
    requires order { IsOrder graph.now order.now }
    requires count { length order.now ≡ length graph.now.lines }
    requires held { IsHeld graph.now held.now }
    requires alone { AreAlone graph.now }
    requires size { length racing.now ≡ length graph.now.lines }
    requires enough { AreEnough graph.now racing.now }
    ensures { IfOk result (λ o. MatchOption o (EverywhereTwice (RaceAt graph.now))
        (λ p. (p.0 < length graph.now.lines) × (p.1 < length graph.now.lines) × FailsFirstTwice (RaceAt graph.now) p.0 p.1)) }
{
    let lines = graph.lines();
    let unnoted = unnoted_lines(racing, lines);
    if unnoted >= lines {
        return Ok(None);
    }
    let table = Table::new(alloc, graph, order)?;
    let accesses = accesses_of_lines(alloc, graph)?;
    let accesses = accesses.as_slice();
    let free = free_lines(alloc, graph, &table, accesses, held, racing, unnoted)?;
    if free >= lines {
        return Ok(None);
    }
    let rival = first_rival(alloc, graph, &table, accesses, held, free)?;
    if let Some(other) = rival {
        return Ok(Some((free, other)));
    }
    first_race_in(alloc, graph, &table, accesses, held, free + 1)
}

/// How many lines stand before the first that is noted.
fn unnoted_lines(racing: &[bool], lines: u32) -> u32
    requires { lines ≤ length racing.now }
    ensures few { result ≤ lines }
    ensures unnoted { (i : ℕ) → i < result → is_noted racing.now i ≡ false }
{
    for line in 0..lines {
        if racing[line as usize] {
            return line;
        }
    }
    lines
}

/// How many blocks of 64 lines have a noted one.
fn noted_blocks(graph: &Graph, racing: &[bool]) -> u32
    requires { length racing.now ≡ length graph.now.lines }
{
    let lines = graph.lines();
    let mut blocks = 0;
    let mut first = 0;
    while first < lines {
        if is_any_noted(racing, first, lines.min(first + 64)) {
            blocks += 1;
        }
        first += 64;
    }
    blocks
}

/// How many lines, from the first on, race with none, by the lines that are noted: in the blocks
/// of these, where they are few beside the blocks above the first of them, else in all blocks.
fn free_lines(
    alloc: Global,
    graph: &Graph,
    table: &Table,
    accesses: &[Vec<Access>],
    held: &Held,
    racing: &[bool],
    most: u32,
) -> Result<u32, NoMemory>
    requires table { IsTable graph.now table.now }
    requires accesses { AreAccesses graph.now accesses.now }
    requires held { IsHeld graph.now held.now }
    requires alone { AreAlone graph.now }
    requires size { length racing.now ≡ length graph.now.lines }
    requires enough { AreEnough graph.now racing.now }
    requires most { most ≤ length graph.now.lines }
    ensures { IfOk result (λ n. (k : ℕ) → k < n → Everywhere (RaceAt graph.now k)) }
{
    if noted_blocks(graph, racing) < most / 64 {
        free_by_noted_blocks(alloc, graph, table, accesses, held, racing, most)
    } else {
        free_by_blocks(alloc, graph, table, accesses, held, racing)
    }
}

/// How many of so many lines, from the first on, race with none, block by block of those that are
/// noted.
fn free_by_noted_blocks(
    alloc: Global,
    graph: &Graph,
    table: &Table,
    accesses: &[Vec<Access>],
    held: &Held,
    racing: &[bool],
    most: u32,
) -> Result<u32, NoMemory>
    requires table { IsTable graph.now table.now }
    requires accesses { AreAccesses graph.now accesses.now }
    requires held { IsHeld graph.now held.now }
    requires alone { AreAlone graph.now }
    requires size { length racing.now ≡ length graph.now.lines }
    requires enough { AreEnough graph.now racing.now }
    requires most { most ≤ length graph.now.lines }
    ensures { IfOk result (λ n. (k : ℕ) → k < n → Everywhere (RaceAt graph.now k)) }
{
    let lines = graph.lines();
    let mut free = most;
    let mut first = 0;
    while first < lines {
        free = free_of_block(alloc, graph, table, accesses, held, racing, first, free)?;
        first += 64;
    }
    Ok(free)
}

/// How many lines, from the first on, race with none, block by block up to one that does.
fn free_by_blocks(
    alloc: Global,
    graph: &Graph,
    table: &Table,
    accesses: &[Vec<Access>],
    held: &Held,
    racing: &[bool],
) -> Result<u32, NoMemory>
    requires table { IsTable graph.now table.now }
    requires accesses { AreAccesses graph.now accesses.now }
    requires held { IsHeld graph.now held.now }
    requires alone { AreAlone graph.now }
    requires size { length racing.now ≡ length graph.now.lines }
    requires enough { AreEnough graph.now racing.now }
    ensures { IfOk result (λ n. (k : ℕ) → k < n → Everywhere (RaceAt graph.now k)) }
{
    let lines = graph.lines();
    let mut first = 0;
    while first < lines {
        let rivals = Rivals::new(alloc, graph, table, first)?;
        let free = rivals.free_of_noted(graph, accesses, held, racing);
        if free < 64 {
            return Ok(first + free);
        }
        first += 64;
    }
    Ok(lines)
}

/// The least line with which a line races, from that one on.
fn first_rival(
    alloc: Global,
    graph: &Graph,
    table: &Table,
    accesses: &[Vec<Access>],
    held: &Held,
    line: u32,
) -> Result<Option<u32>, NoMemory>
    requires table { IsTable graph.now table.now }
    requires accesses { AreAccesses graph.now accesses.now }
    requires held { IsHeld graph.now held.now }
    requires alone { AreAlone graph.now }
    requires line { line < length graph.now.lines }
    ensures { IfOk result (λ o. MatchOption o (Everywhere (RaceAt graph.now line))
        (λ j. (j < length graph.now.lines) × (RaceAt graph.now line j → ⊥) × ((m : ℕ) → m < j → RaceAt graph.now line m))) }
{
    edges_between_lines();
    let lines = graph.lines();
    let rivals = Rivals::new(alloc, graph, table, line)?;
    for other in line..lines {
        if rivals.races_with_first(graph, accesses, held, other) {
            return Ok(Some(other));
        }
    }
    Ok(None)
}

/// How many of so many lines race with no noted line of a block.
fn free_of_block(
    alloc: Global,
    graph: &Graph,
    table: &Table,
    accesses: &[Vec<Access>],
    held: &Held,
    racing: &[bool],
    first: u32,
    free: u32,
) -> Result<u32, NoMemory>
    requires table { IsTable graph.now table.now }
    requires held { IsHeld graph.now held.now }
    requires alone { AreAlone graph.now }
    requires accesses { AreAccesses graph.now accesses.now }
    requires size { length racing.now ≡ length graph.now.lines }
    requires first { first < length graph.now.lines }
    requires free { free ≤ length graph.now.lines }
    ensures few { IfOk result (λ n. n ≤ free) }
    ensures settled { IfOk result (λ n. (k r : ℕ) → k < n → first ≤ r → r < first + 64 → is_noted racing.now r ≡ true → IsSettled graph.now r k) }
{
    let lines = graph.lines();
    if free == 0 {
        return Ok(free);
    }
    let end = lines.min(first + 64);
    if !is_any_noted(racing, first, end) {
        return Ok(free);
    }
    let rivals = Rivals::new(alloc, graph, table, first)?;
    Ok(rivals.free_before(graph, accesses, held, racing, free))
}

/// The least line and the least line after it that race, where no lines are noted.
pub(crate) fn first_race_of_all(
    alloc: Global,
    graph: &Graph,
    order: &[u32],
    held: &Held,
) -> Result<Option<(u32, u32)>, NoMemory>
    requires order { IsOrder graph.now order.now }
    requires count { length order.now ≡ length graph.now.lines }
    requires held { IsHeld graph.now held.now }
    requires alone { AreAlone graph.now }
    ensures { IfOk result (λ o. MatchOption o (EverywhereTwice (RaceAt graph.now))
        (λ p. (p.0 < length graph.now.lines) × (p.1 < length graph.now.lines) × FailsFirstTwice (RaceAt graph.now) p.0 p.1)) }
{
    let table = Table::new(alloc, graph, order)?;
    let accesses = accesses_of_lines(alloc, graph)?;
    first_race_in(alloc, graph, &table, accesses.as_slice(), held, 0)
}

/// The least line and the least line after it that race, where no line above the first one does;
/// 64 lines at a time.
fn first_race_in(
    alloc: Global,
    graph: &Graph,
    table: &Table,
    accesses: &[Vec<Access>],
    held: &Held,
    start: u32,
) -> Result<Option<(u32, u32)>, NoMemory>
    requires table { IsTable graph.now table.now }
    requires accesses { AreAccesses graph.now accesses.now }
    requires held { IsHeld graph.now held.now }
    requires alone { AreAlone graph.now }
    requires start { (k : ℕ) → k < start → Everywhere (RaceAt graph.now k) }
    ensures { IfOk result (λ o. MatchOption o (EverywhereTwice (RaceAt graph.now))
        (λ p. (p.0 < length graph.now.lines) × (p.1 < length graph.now.lines) × FailsFirstTwice (RaceAt graph.now) p.0 p.1)) }
{
    edges_between_lines();
    let lines = graph.lines();
    let mut first = start;
    while first < lines {
        let found = first_of_block(alloc, graph, table, accesses, held, first)?;
        if let Some(pair) = found {
            return Ok(Some(pair));
        }
        first += 64;
    }
    Ok(None)
}

/// The least race of a line of a block with one after it.
fn first_of_block(
    alloc: Global,
    graph: &Graph,
    table: &Table,
    accesses: &[Vec<Access>],
    held: &Held,
    first: u32,
) -> Result<Option<(u32, u32)>, NoMemory>
    requires table { IsTable graph.now table.now }
    requires held { IsHeld graph.now held.now }
    requires alone { AreAlone graph.now }
    requires accesses { AreAccesses graph.now accesses.now }
    requires first { first < length graph.now.lines }
    ensures { IfOk result (λ o. MatchOption o (HoldsIn (RaceAt graph.now) first (length graph.now.lines))
        (λ p. (p.0 < length graph.now.lines) × (p.1 < length graph.now.lines) × FailsFirstIn (RaceAt graph.now) first (length graph.now.lines) p.0 p.1)) }
{
    edges_between_lines();
    let lines = graph.lines();
    let rivals = Rivals::new(alloc, graph, table, first)?;
    let mut limit = 64;
    let mut found = 0;
    for line in first..lines {
        if let Some(bit) = rivals.first_of(graph, accesses, held, line, limit) {
            limit = bit;
            found = line;
        }
    }
    if limit < 64 {
        return Ok(Some((first + limit, found)));
    }
    Ok(None)
}
