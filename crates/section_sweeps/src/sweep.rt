//! Sweeps along the edges between two places.

ghost use Rattle.std.specs.Prelude.{◌≡◌, ℕ, ◌<◌, ◌≤◌, length, Contains, slice_index};
ghost use Rattle.graph_terms.specs.declared.verb.Edge.{Edge};
ghost use Rattle.graph_terms.specs.Edges.{edges};
ghost use Rattle.sweep_base.specs.Bits.{bit_in};
ghost use Rattle.section_sweeps.specs.Passing.{HasBit, HasEither, HaveNone, AreWithin, IsSized, AreFromBefore, AreFromBehind, ArePassedUp, ArePassedDown, AreSourcesFrom};
ghost use Rattle.section_sweeps.specs.Table.{IsTable};

use crate::lookups::Table;
use crate::passing::Passing;
use graph_model::graph::Graph;

/// Passes bits forward, from a place up to another.
pub(crate) fn sweep_up(behind: &mut Passing, graph: &Graph, table: &Table, low: u32, high: u32)
    requires table { IsTable graph.now table.now }
    requires size { IsSized (length graph.now.lines) behind.old }
    requires high { high ≤ length graph.now.lines }
    requires begins { (i b : ℕ) → HasBit behind.old.own.items i b → low ≤ slice_index table.now.places.items i }
    requires none { HaveNone behind.old.passed.items }
    ensures own { behind.new.own ≡ behind.old.own }
    ensures size { IsSized (length graph.now.lines) behind.new }
    ensures is { AreFromBefore graph.now behind.new.own.items behind.new.passed.items }
    ensures all { ArePassedUp graph.now table.now.places.items behind.new.own.items behind.new.passed.items high }
    ensures within { AreWithin table.now.places.items behind.new.passed.items low high }
{
    for place in low..high {
        behind.pass_from_sources(graph, table.lines[place as usize]);
    }
}

/// Passes bits back, from a place down to another.
pub(crate) fn sweep_back(before: &mut Passing, graph: &Graph, table: &Table, low: u32, high: u32)
    requires table { IsTable graph.now table.now }
    requires size { IsSized (length graph.now.lines) before.old }
    requires high { high ≤ length graph.now.lines }
    requires ends { (i b : ℕ) → HasBit before.old.own.items i b → slice_index table.now.places.items i < high }
    requires none { HaveNone before.old.passed.items }
    ensures own { before.new.own ≡ before.old.own }
    ensures size { IsSized (length graph.now.lines) before.new }
    ensures is { AreFromBehind graph.now before.new.own.items before.new.passed.items }
    ensures all { ArePassedDown graph.now table.now.places.items before.new.own.items before.new.passed.items low }
{
    let mut place = high;
    while place > low {
        place -= 1;
        before.pass_from_targets(graph, table.lines[place as usize]);
    }
}

/// Passes the bits of acquires and those of releases back, from a place down to another, and
/// further while a source stands there of a line that has a path to a release and none to its
/// acquire. Gives the place that it came to.
pub(crate) fn sweep_down(
    to_acquires: &mut Passing,
    to_releases: &mut Passing,
    graph: &Graph,
    table: &Table,
    low: u32,
    high: u32,
) -> u32
    requires table { IsTable graph.now table.now }
    requires acquires_size { IsSized (length graph.now.lines) to_acquires.old }
    requires releases_size { IsSized (length graph.now.lines) to_releases.old }
    requires begins { low ≤ high }
    requires high { high ≤ length graph.now.lines }
    requires ends { (i b : ℕ) → HasBit to_releases.old.own.items i b → slice_index table.now.places.items i < high }
    requires acquires_none { HaveNone to_acquires.old.passed.items }
    requires releases_none { HaveNone to_releases.old.passed.items }
    ensures acquires_own { to_acquires.new.own ≡ to_acquires.old.own }
    ensures releases_own { to_releases.new.own ≡ to_releases.old.own }
    ensures acquires_size { IsSized (length graph.now.lines) to_acquires.new }
    ensures releases_size { IsSized (length graph.now.lines) to_releases.new }
    ensures low { result ≤ low }
    ensures acquires_is { AreFromBehind graph.now to_acquires.new.own.items to_acquires.new.passed.items }
    ensures releases_is { AreFromBehind graph.now to_releases.new.own.items to_releases.new.passed.items }
    ensures releases_all { ArePassedDown graph.now table.now.places.items to_releases.new.own.items to_releases.new.passed.items result }
    ensures sources { AreSourcesFrom graph.now table.now.places.items to_acquires.new to_releases.new result result }
    ensures acquires_within { AreWithin table.now.places.items to_acquires.new.passed.items result high }
    ensures releases_within { AreWithin table.now.places.items to_releases.new.passed.items result high }
{
    let mut stop = low;
    let mut place = high;
    while place > stop {
        place -= 1;
        let line = table.lines[place as usize];
        to_acquires.pass_from_targets(graph, line);
        to_releases.pass_from_targets(graph, line);
        if to_releases.bits(line) & !to_acquires.bits(line) != 0 {
            stop = first_source(graph, table, line, stop);
        }
    }
    stop
}

/// The first place of the sources of a line, or this one, if it comes before.
fn first_source(graph: &Graph, table: &Table, line: u32, limit: u32) -> u32
    requires table { IsTable graph.now table.now }
    requires line { line < length graph.now.lines }
    ensures limit { result ≤ limit }
    ensures sources { (e : Edge) → Contains (edges graph.now) e → e.to ≡ line → result ≤ slice_index table.now.places.items e.from }
{
    let mut first = limit;
    let edges = graph.edges_into(line);
    for edge in edges {
        first = first.min(table.places[edge.from as usize]);
    }
    first
}
