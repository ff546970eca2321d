//! What explains each refusal of the checker.

ghost use Rattle.std.specs.Prelude.{◌≡◌, ℕ, ◌<◌, not, length, find, IfOk, MatchOption};
ghost use Rattle.graph_terms.specs.Graph.{is_merge_ignore, line_passes};
ghost use Rattle.graph_meaning.specs.Rules.{IsCycle, IsUnreleased, IsOutsideSection, IsNotDescending, IsReleaseFault, IsRace, modes_commute};
ghost use Rattle.explain_graph.specs.Explanation.{IsCycleReason, IsUnreleasedReason, IsSectionReason, IsDescendsReason, IsReleaseReason, IsConflictReason, IsOtherRace};
ghost use Rattle.race_check.specs.Topmost.{IsTopmostRace};

use explanations::paths::{shortest_cycle, shortest_path};
use explanations::races::{RaceReason, SharedPoint, explain_race, least_shared};
use explanations::sections::{freed, lock_of, release_of, sections_of};
use graph_meaning::laws::edges_between_lines;
use graph_model::graph::Graph;
use graph_terms::verb::{Edge, Mode, Verb};
use index_spaces::NoMemory;
use race_check::topmost_race;
use std::alloc::Global;
use tried_advice::advise;
use tried_advice::form::Form;

/// A line, and a shortest cycle through it.
#[derive(Drop)]
pub struct CycleReason {
    pub line: u32,
    pub cycle: Vec<Edge>,
}

/// An acquire of a reservation, and the line that releases it but does not wait for it. `None` where
/// no line releases it.
#[derive(Clone, Copy, Debug, PartialEq, Eq)]
pub struct UnreleasedReason {
    pub acquire: u32,
    pub lock: u32,
    pub release: Option<u32>,
}

/// A release of an acquire, and a line that it waits for, with a shortest path from there. The line
/// does not come before the acquire. Where it comes after it, with a shortest path, it is a phase
/// that never comes.
#[derive(Drop)]
pub struct SectionReason {
    pub release: u32,
    pub line: u32,
    pub acquire: u32,
    pub path: Vec<Edge>,
    pub entered: Option<Vec<Edge>>,
}

/// An acquire in the section of another, of a reservation that is not declared below the other's,
/// with shortest paths from the outer acquire to it and from it to the outer one's release.
#[derive(Drop)]
pub struct DescendsReason {
    pub outer: u32,
    pub inner: u32,
    pub outer_lock: u32,
    pub inner_lock: u32,
    pub release: u32,
    pub entered: Vec<Edge>,
    pub left: Vec<Edge>,
}

/// A release of an acquire, and the first event behind its `on` that is no merge that ignores
/// faults. `None` where there is no event behind it.
#[derive(Clone, Copy, Debug, PartialEq, Eq)]
pub struct ReleaseReason {
    pub release: u32,
    pub acquire: u32,
    pub on: Option<u32>,
}

/// The acquires in whose sections two lines lie.
#[derive(Drop)]
pub struct Sections {
    pub first: Vec<u32>,
    pub second: Vec<u32>,
}

/// Two lines that race, and where they meet.
#[derive(Clone, Copy, Debug, PartialEq, Eq)]
pub struct OtherRace {
    pub first: u32,
    pub second: u32,
    pub shared: SharedPoint,
}

/// Two lines that race, and why they do, with the sections in which they lie, which do not set them
/// apart, whether both reduce in one way into the point that they share, and what orders them and breaks
/// no rule. `None` where nothing does that was tried. Besides the race whose later line stands first, where
/// that is another.
#[derive(Drop)]
pub struct ConflictReason {
    pub first: u32,
    pub second: u32,
    pub race: RaceReason,
    pub commutes: bool,
    pub sections: Sections,
    pub advice: Option<Form>,
    pub topmost: Option<OtherRace>,
}

/// Explains a cycle.
pub(crate) fn explain_cycle(
    alloc: Global,
    graph: &Graph,
    line: u32,
) -> Result<CycleReason, NoMemory>
    requires line { line < length graph.now.lines }
    requires refused { IsCycle graph.now line }
    ensures { IfOk result (IsCycleReason graph.now line) }
{
    match shortest_cycle(alloc, graph, line)? {
        Some(cycle) => Ok(CycleReason { line, cycle }),
        None => unreachable!(),
    }
}

/// Explains an acquire that is not released.
pub(crate) fn explain_unreleased(graph: &Graph, acquire: u32) -> UnreleasedReason
    requires { IsUnreleased graph.now acquire }
    ensures { IsUnreleasedReason graph.now acquire result }
{
    match lock_of(graph, acquire) {
        Some(lock) => UnreleasedReason {
            acquire,
            lock,
            release: release_of(graph, acquire),
        },
        None => unreachable!(),
    }
}

/// Explains a line that its release must not wait for.
pub(crate) fn explain_section(
    alloc: Global,
    graph: &Graph,
    release: u32,
    line: u32,
) -> Result<SectionReason, NoMemory>
    requires release { release < length graph.now.lines }
    requires line { line < length graph.now.lines }
    requires refused { IsOutsideSection graph.now release line }
    ensures { IfOk result (IsSectionReason graph.now release line) }
{
    let _ = graph.lines();
    let Some(acquire) = freed(graph, release) else {
        unreachable!();
    };
    let Some(path) = shortest_path(alloc, graph, line, release)? else {
        unreachable!();
    };
    let entered = shortest_path(alloc, graph, acquire, line)?;
    Ok(SectionReason {
        release,
        line,
        acquire,
        path,
        entered,
    })
}

/// Explains an acquire in the section of another.
pub(crate) fn explain_descends(
    alloc: Global,
    graph: &Graph,
    outer: u32,
    inner: u32,
) -> Result<DescendsReason, NoMemory>
    requires outer { outer < length graph.now.lines }
    requires inner { inner < length graph.now.lines }
    requires refused { IsNotDescending graph.now outer inner }
    ensures { IfOk result (IsDescendsReason graph.now outer inner) }
{
    let _ = graph.lines();
    let Some(outer_lock) = lock_of(graph, outer) else {
        unreachable!();
    };
    let Some(inner_lock) = lock_of(graph, inner) else {
        unreachable!();
    };
    let Some(release) = release_of(graph, outer) else {
        unreachable!();
    };
    let Some(entered) = shortest_path(alloc, graph, outer, inner)? else {
        unreachable!();
    };
    let Some(left) = shortest_path(alloc, graph, inner, release)? else {
        unreachable!();
    };
    Ok(DescendsReason {
        outer,
        inner,
        outer_lock,
        inner_lock,
        release,
        entered,
        left,
    })
}

/// Explains a release that a fault could keep from its end.
pub(crate) fn explain_release(graph: &Graph, release: u32) -> ReleaseReason
    requires line { release < length graph.now.lines }
    requires refused { IsReleaseFault graph.now release }
    ensures { IsReleaseReason graph.now release result }
{
    match freed(graph, release) {
        Some(acquire) => ReleaseReason {
            release,
            acquire,
            on: first_faulting(graph, graph.line(release).on.as_slice()),
        },
        None => unreachable!(),
    }
}

/// The first of these events that is no merge that ignores faults.
fn first_faulting(graph: &Graph, events: &[u32]) -> Option<u32>
    ensures { result ≡ find (λ m. not (line_passes is_merge_ignore graph.now m)) events.now }
{
    events
        .iter()
        .copied()
        .find(|event| !ignores_faults(graph, *event))
}

/// Whether this is a line, and a merge that ignores faults.
fn ignores_faults(graph: &Graph, line: u32) -> bool
    ensures { result ≡ line_passes is_merge_ignore graph.now line }
{
    line < graph.lines() && matches!(graph.line(line).verb, Verb::MergeIgnore { .. })
}

/// Explains a race. It takes a few checks of the graph, with a line or two of it changed.
pub(crate) fn explain_conflict(
    alloc: Global,
    graph: &Graph,
    first: u32,
    second: u32,
) -> Result<ConflictReason, NoMemory>
    requires first { first < length graph.now.lines }
    requires second { second < length graph.now.lines }
    requires refused { IsRace graph.now first second }
    ensures { IfOk result (IsConflictReason graph.now first second) }
{
    let race = explain_race(alloc, graph, first, second)?;
    let commutes = modes_commute(race.shared.one.mode, race.shared.other.mode);
    let sections = Sections {
        first: sections_of(alloc, graph, first)?,
        second: sections_of(alloc, graph, second)?,
    };
    let advice = advise(
        alloc,
        graph,
        first,
        second,
        sections.first.as_slice(),
        sections.second.as_slice(),
    )?;
    let topmost = explain_topmost(alloc, graph, first, second)?;
    Ok(ConflictReason {
        first,
        second,
        race,
        commutes,
        sections,
        advice,
        topmost,
    })
}

/// The race whose later line stands first, where that is not the one that is told.
fn explain_topmost(
    alloc: Global,
    graph: &Graph,
    first: u32,
    second: u32,
) -> Result<Option<OtherRace>, NoMemory>
    requires refused { IsRace graph.now first second }
    ensures { IfOk result (λ o. MatchOption o (IsTopmostRace graph.now first second) (IsOtherRace graph.now first second)) }
{
    let pair = topmost_race(alloc, graph, first, second)?;
    if pair.0 == first && pair.1 == second {
        return Ok(None);
    }
    let met = least_shared(alloc, graph, pair.0, pair.1)?;
    match met {
        Some(shared) => Ok(Some(OtherRace {
            first: pair.0,
            second: pair.1,
            shared,
        })),
        None => unreachable!(),
    }
}

/// Whether two uses may come in either order.
fn modes_commute(one: Mode, other: Mode) -> bool
    ensures { result ≡ modes_commute one other }
{
    matches!(
        (one, other),
        (Mode::Sum, Mode::Sum) | (Mode::Least, Mode::Least) | (Mode::Most, Mode::Most)
    )
}
