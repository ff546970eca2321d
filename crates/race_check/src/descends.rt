//! The rule that reservations are taken in the order of their declarations.

ghost use Rattle.std.specs.Prelude.{◌≡◌, ◌+◌, ◌<◌, ◌≤◌, true, false, length, IfOk, MatchOption};
ghost use Rattle.graph_terms.specs.Reservations.{Acquires};
ghost use Rattle.graph_meaning.specs.Rules.{DescendsAt, EverywhereTwice, FailsFirstTwice};
ghost use Rattle.sweep_base.specs.BlockRules.{FailsFirstIn, HoldsIn, IsLowest, NoneLow};
ghost use Rattle.race_check.specs.Inside.{AreBetween};
ghost use Rattle.section_sweeps.specs.Found.{AreDoubted};
ghost use Rattle.section_sweeps.specs.Table.{IsTable};

use crate::inside::Inside;
use graph_meaning::laws::edges_between_lines;
use graph_model::graph::Graph;
use index_spaces::NoMemory;
use section_sweeps::lookups::Table;
use std::alloc::Global;
use sweep_base::bits::has_bit;
use sweep_base::notes::is_any_noted;
use sweep_base::reservations::acquired;

/// The least acquire and the least acquire in its section whose reservation is not declared later;
/// 64 lines at a time.
pub(crate) fn first_climbing(
    alloc: Global,
    graph: &Graph,
    table: &Table,
    doubted: &[bool],
) -> Result<Option<(u32, u32)>, NoMemory>
    requires table { IsTable graph.now table.now }
    requires size { length doubted.now ≡ length graph.now.lines }
    requires doubted { AreDoubted graph.now doubted.now }
    ensures { IfOk result (λ o. MatchOption o (EverywhereTwice (DescendsAt graph.now))
        (λ p. (p.0 < length graph.now.lines) × (p.1 < length graph.now.lines) × FailsFirstTwice (DescendsAt graph.now) p.0 p.1)) }
{
    edges_between_lines();
    let lines = graph.lines();
    let mut first = 0;
    while first < lines {
        let found = first_climbing_in(alloc, graph, table, doubted, first)?;
        if let Some(pair) = found {
            return Ok(Some(pair));
        }
        first += 64;
    }
    Ok(None)
}

/// The least in the sections of a block of acquires.
fn first_climbing_in(
    alloc: Global,
    graph: &Graph,
    table: &Table,
    doubted: &[bool],
    first: u32,
) -> Result<Option<(u32, u32)>, NoMemory>
    requires size { length doubted.now ≡ length graph.now.lines }
    requires doubted { AreDoubted graph.now doubted.now }
    requires table { IsTable graph.now table.now }
    requires first { first < length graph.now.lines }
    ensures { IfOk result (λ o. MatchOption o (HoldsIn (DescendsAt graph.now) first (length graph.now.lines))
        (λ p. (p.0 < length graph.now.lines) × (p.1 < length graph.now.lines) × FailsFirstIn (DescendsAt graph.now) first (length graph.now.lines) p.0 p.1)) }
{
    edges_between_lines();
    let lines = graph.lines();
    let end = lines.min(first + 64);
    if !is_any_noted(doubted, first, end) {
        return Ok(None);
    }
    let inside = Inside::new(alloc, graph, table, first)?;
    let mut limit = 64;
    let mut found = 0;
    for line in 0..lines {
        if let Some(bit) = climbed_by(graph, first, inside.of(graph, line), line, limit) {
            limit = bit;
            found = line;
        }
    }
    if limit < 64 {
        return Ok(Some((first + limit, found)));
    }
    Ok(None)
}

/// The least acquire of a block, among these and below a limit, whose reservation is not declared
/// before that of a line.
fn climbed_by(graph: &Graph, first: u32, inside: u64, line: u32, limit: u32) -> Option<u32>
    requires line { line < length graph.now.lines }
    requires limit { limit ≤ 64 }
    requires inside { AreBetween graph.now first line inside }
    ensures { MatchOption result (NoneLow (DescendsAt graph.now) first limit line) (IsLowest (DescendsAt graph.now) first limit line) }
{
    edges_between_lines();
    let _ = graph.lines();
    if inside == 0 {
        return None;
    }
    let Some(lock) = acquired(graph, line) else {
        return None;
    };
    for bit in 0..limit {
        if is_climbed(graph, first, inside, line, lock, bit) {
            return Some(bit);
        }
    }
    None
}

/// Whether an acquire of a block, where it is among these, is of this reservation of a line or of
/// one declared after it.
fn is_climbed(graph: &Graph, first: u32, inside: u64, line: u32, lock: u32, bit: u32) -> bool
    requires bit { bit < 64 }
    requires inside { AreBetween graph.now first line inside }
    requires lock { Acquires graph.now line lock }
    ensures climbs { result ≡ true → DescendsAt graph.now (first + bit) line → ⊥ }
    ensures descends { result ≡ false → DescendsAt graph.now (first + bit) line }
{
    edges_between_lines();
    let _ = graph.lines();
    if !has_bit(inside, bit) {
        return false;
    }
    let Some(other) = acquired(graph, first + bit) else {
        return false;
    };
    if other < lock {
        return false;
    }
    true
}
