//! The rule that what comes before a release lies before its acquire or in its section.

ghost use Rattle.std.specs.Prelude.{◌≡◌, ℕ, ◌<◌, ◌≤◌, ◌&&◌, true, false, length, IfOk, MatchOption};
ghost use Rattle.graph_terms.specs.Graph.{line_passes, is_phase, never_comes};
ghost use Rattle.graph_meaning.specs.Rules.{EverywhereTwice, FailsFirstTwice, SectionAt};
ghost use Rattle.sweep_base.specs.BlockRules.{FailsFirstIn, HoldsIn};
ghost use Rattle.race_check.specs.Inside.{AreOutside, AreSides, MayCome};
ghost use Rattle.sweep_base.specs.Bits.{bit_in};
ghost use Rattle.sweep_base.specs.Noted.{is_noted};
ghost use Rattle.graph_terms.specs.Reservations.{Releases};
ghost use Rattle.section_sweeps.specs.Passing.{HasBit};
ghost use Rattle.section_sweeps.specs.Found.{AreDoubted};
ghost use Rattle.section_sweeps.specs.Table.{IsTable};

use graph_meaning::laws::edges_between_lines;
use graph_model::graph::Graph;
use graph_terms::verb::Verb;
use index_spaces::NoMemory;
use section_sweeps::blocks::{passed_back, passed_forward};
use section_sweeps::line_lists::{acquires_from, releasing_from};
use section_sweeps::lookups::Table;
use section_sweeps::passing::Passing;
use std::alloc::Global;
use sweep_base::bits::lowest;
use sweep_base::reservations::released;

/// The least release and the least line that has a path to it and is neither its acquire, nor
/// before the acquire, nor behind it and no phase that never comes; 64 lines at a time.
pub(crate) fn first_outside(
    alloc: Global,
    graph: &Graph,
    table: &Table,
    doubted: &[bool],
) -> Result<Option<(u32, u32)>, NoMemory>
    requires table { IsTable graph.now table.now }
    requires size { length doubted.now ≡ length graph.now.lines }
    requires doubted { AreDoubted graph.now doubted.now }
    ensures { IfOk result (λ o. MatchOption o (EverywhereTwice (SectionAt graph.now))
        (λ p. (p.0 < length graph.now.lines) × (p.1 < length graph.now.lines) × FailsFirstTwice (SectionAt graph.now) p.0 p.1)) }
{
    edges_between_lines();
    let lines = graph.lines();
    let mut first = 0;
    while first < lines {
        let found = first_outside_of(alloc, graph, table, doubted, first)?;
        if let Some(pair) = found {
            return Ok(Some(pair));
        }
        first += 64;
    }
    Ok(None)
}

/// The least of a block of releases.
fn first_outside_of(
    alloc: Global,
    graph: &Graph,
    table: &Table,
    doubted: &[bool],
    first: u32,
) -> Result<Option<(u32, u32)>, NoMemory>
    requires size { length doubted.now ≡ length graph.now.lines }
    requires doubted { AreDoubted graph.now doubted.now }
    requires table { IsTable graph.now table.now }
    requires first { first < length graph.now.lines }
    ensures { IfOk result (λ o. MatchOption o (HoldsIn (SectionAt graph.now) first (length graph.now.lines))
        (λ p. (p.0 < length graph.now.lines) × (p.1 < length graph.now.lines) × FailsFirstIn (SectionAt graph.now) first (length graph.now.lines) p.0 p.1)) }
{
    edges_between_lines();
    let lines = graph.lines();
    let end = lines.min(first + 64);
    if !releases_any(graph, doubted, first, end) {
        return Ok(None);
    }
    let sides = Sides::new(alloc, graph, table, first)?;
    let mut limit = 64;
    let mut found = 0;
    for line in 0..lines {
        if let Some(bit) = lowest(sides.outside(graph, line), limit) {
            limit = bit;
            found = line;
        }
    }
    if limit < 64 {
        return Ok(Some((first + limit, found)));
    }
    Ok(None)
}

/// Whether a line of these releases an acquire that is doubted.
fn releases_any(graph: &Graph, doubted: &[bool], first: u32, end: u32) -> bool
    requires size { length doubted.now ≡ length graph.now.lines }
    requires end { end ≤ length graph.now.lines }
    ensures { result ≡ false → (r q : ℕ) → first ≤ r → r < end → Releases graph.now r q → is_noted doubted.now q ≡ false }
{
    for line in first..end {
        if releases_doubted(graph, doubted, line) {
            return true;
        }
    }
    false
}

/// Whether a line releases an acquire that is doubted.
fn releases_doubted(graph: &Graph, doubted: &[bool], line: u32) -> bool
    requires size { length doubted.now ≡ length graph.now.lines }
    requires line { line < length graph.now.lines }
    ensures { result ≡ false → (q : ℕ) → Releases graph.now line q → is_noted doubted.now q ≡ false }
{
    match released(graph, line) {
        Some(acquire) => doubted[acquire as usize],
        None => false,
    }
}

/// Of 64 lines from a first one on: which lines have a path to them, and to and from the acquires
/// that they release.
#[derive(Drop)]
struct Sides {
    to_releases: Passing,
    to_acquires: Passing,
    behind: Passing,
}

impl Sides {
    fn new(alloc: Global, graph: &Graph, table: &Table, first: u32) -> Result<Sides, NoMemory>
        requires table { IsTable graph.now table.now }
        requires first { first < length graph.now.lines }
        ensures { IfOk result (AreSides graph.now first) }
    {
        edges_between_lines();
        let lines = graph.lines();
        let end = lines.min(first + 64);
        let acquires = acquires_from(alloc, graph, first, end)?;
        let releases = releasing_from(alloc, graph, first, end)?;
        let acquires = acquires.as_slice();
        let releases = releases.as_slice();
        let to_releases = passed_back(alloc, graph, table, releases, 0)?;
        let to_acquires = passed_back(alloc, graph, table, acquires, 0)?;
        let behind = passed_forward(alloc, graph, table, acquires, lines)?;
        Ok(Sides {
            to_releases,
            to_acquires,
            behind,
        })
    }

    /// The releases of the block to which a line has a path, though it neither is nor has a path to
    /// the acquire, nor has a path from it and may come.
    fn outside(&self, graph: &Graph, line: u32) -> u64
        requires line { line < length graph.now.lines }
        requires sides { (first : ℕ) × AreSides graph.now first self.now }
        ensures { (first : ℕ) → AreSides graph.now first self.now → AreOutside graph.now first line result }
    {
        edges_between_lines();
        let _ = graph.lines();
        let allowed = self.to_acquires.bits(line) | self.entered(graph, line);
        self.to_releases.passed(line) & !allowed
    }

    /// The releases of the block behind whose acquires a line may come.
    fn entered(&self, graph: &Graph, line: u32) -> u64
        requires line { line < length graph.now.lines }
        requires size { length self.now.behind.passed.items ≡ length graph.now.lines }
        ensures is { (b : ℕ) → bit_in result b ≡ true → HasBit self.now.behind.passed.items line b × MayCome graph.now line }
        ensures all { (b : ℕ) → HasBit self.now.behind.passed.items line b → MayCome graph.now line → bit_in result b ≡ true }
    {
        if is_never_phase(graph, line) {
            return 0;
        }
        self.behind.passed(line)
    }
}

/// Whether a line is a phase that never comes.
fn is_never_phase(graph: &Graph, line: u32) -> bool
    requires { line < length graph.now.lines }
    ensures { result ≡ (line_passes is_phase graph.now line && never_comes graph.now line) }
{
    is_phase(graph, line) && graph.never_comes(line)
}

/// Whether a line is a phase.
fn is_phase(graph: &Graph, line: u32) -> bool
    requires { line < length graph.now.lines }
    ensures { result ≡ line_passes is_phase graph.now line }
{
    match &graph.line(line).verb {
        Verb::Phase { .. } => true,
        _ => false,
    }
}
