//! Why two lines race: a column that both use, and a point of it.

ghost use Rattle.std.specs.Prelude.{◌≡◌, ℕ, ◌<◌, ◌≤◌, length, Contains, None, IsTrue, IfOk, IfSome};
ghost use Rattle.index_spaces.specs.Space.{has_point};
ghost use Rattle.graph_terms.specs.Graph.{named_spaces};
ghost use Rattle.graph_terms.specs.Access.{all_accesses, modes_clash, Conflict};
ghost use Rattle.graph_meaning.specs.Path.{HasPath};
ghost use Rattle.graph_meaning.specs.Rules.{IsRace};
ghost use Rattle.explanations.specs.Meetings.{IsNearestCommon};
ghost use Rattle.explanations.specs.Shared.{AreUses, IsLeastShared, IsLeastAmong, lesser_of, is_before};

use crate::meetings::{Meeting, nearest_common};
use graph_meaning::line_laws::{all_accesses_are_few, all_accesses_fit};
use graph_model::graph::Graph;
use graph_terms::limits::MAX_CALL_ACCESSES;
use graph_terms::verb::{Access, Mode};
use index_spaces::NoMemory;
use index_spaces::laws::{point_of_rank, points_ascend, rank_of_point};
use index_spaces::space::Space;
use std::alloc::Global;

/// A point at which two lines use one column, and how each uses it.
#[derive(Clone, Copy, Debug, PartialEq, Eq)]
pub struct SharedPoint {
    pub point: u32,
    pub one: Access,
    pub other: Access,
}

/// Why two lines race: where they meet, and the nearest line that both come after, where there is
/// one.
#[derive(Drop)]
pub struct RaceReason {
    pub shared: SharedPoint,
    pub meeting: Option<Meeting>,
}

/// Why two lines race, as the checker says that they do: the least column that both use at a shared
/// point, not both only to read, the least such point of it, and the nearest line with paths to
/// both. No path leads from one to the other.
pub fn explain_race(
    alloc: Global,
    graph: &Graph,
    first: u32,
    second: u32,
) -> Result<RaceReason, NoMemory>
    requires first { first < length graph.now.lines }
    requires second { second < length graph.now.lines }
    requires race { IsRace graph.now first second }
    ensures shared { IfOk result (λ r. IsLeastShared graph.now (AreUses graph.now first second) r.shared) }
    ensures forward { HasPath graph.now first second → ⊥ }
    ensures backward { HasPath graph.now second first → ⊥ }
    ensures meeting { IfOk result (λ r. IfSome r.meeting (IsNearestCommon graph.now first second)) }
    ensures none { IfOk result (λ r. r.meeting ≡ None → (k : ℕ) → HasPath graph.now k first → HasPath graph.now k second → ⊥) }
{
    let shared = race_point(alloc, graph, first, second)?;
    let meeting = nearest_common(alloc, graph, first, second)?;
    Ok(RaceReason { shared, meeting })
}

/// Where two lines that race meet.
fn race_point(
    alloc: Global,
    graph: &Graph,
    first: u32,
    second: u32,
) -> Result<SharedPoint, NoMemory>
    requires first { first < length graph.now.lines }
    requires second { second < length graph.now.lines }
    requires race { IsRace graph.now first second }
    ensures { IfOk result (IsLeastShared graph.now (AreUses graph.now first second)) }
{
    match least_shared(alloc, graph, first, second)? {
        Some(shared) => Ok(shared),
        None => unreachable!(),
    }
}

/// The least column that two lines use at a shared point, not both only to read, and the least such
/// point of it. `None` exactly where there is none: two lines do not conflict then.
pub fn least_shared(
    alloc: Global,
    graph: &Graph,
    first: u32,
    second: u32,
) -> Result<Option<SharedPoint>, NoMemory>
    requires first { first < length graph.now.lines }
    requires second { second < length graph.now.lines }
    ensures least { IfOk result (IsLeastAmong graph.now (AreUses graph.now first second)) }
    ensures none { IfOk result (λ o. o ≡ None → Conflict graph.now first second → ⊥) }
{
    all_accesses_are_few();
    all_accesses_fit();
    let _ = graph.lines();
    let mut best = None;
    for k in 0..MAX_CALL_ACCESSES {
        let Some(one) = graph.any_access(first, k) else {
            return Ok(best);
        };
        let found = shared_with(alloc, graph, one, second)?;
        best = lesser(best, found);
    }
    Ok(best)
}

/// The least point at which a line uses the column of an access, where not both only read.
fn shared_with(
    alloc: Global,
    graph: &Graph,
    one: Access,
    line: u32,
) -> Result<Option<SharedPoint>, NoMemory>
    requires space { one.space < length (named_spaces graph.now) }
    requires line { line < length graph.now.lines }
    ensures { IfOk result (IsLeastAmong graph.now (λ a b. (a ≡ one) × Contains (all_accesses graph.now line) b)) }
{
    all_accesses_are_few();
    all_accesses_fit();
    let _ = graph.lines();
    let mut best = None;
    for k in 0..MAX_CALL_ACCESSES {
        let Some(other) = graph.any_access(line, k) else {
            return Ok(best);
        };
        let found = shared_by(alloc, graph, one, other)?;
        best = lesser(best, found);
    }
    Ok(best)
}

/// The least point that two accesses of one column share, where not both only read.
fn shared_by(
    alloc: Global,
    graph: &Graph,
    one: Access,
    other: Access,
) -> Result<Option<SharedPoint>, NoMemory>
    requires one { one.space < length (named_spaces graph.now) }
    requires other { other.space < length (named_spaces graph.now) }
    ensures { IfOk result (IsLeastAmong graph.now (λ a b. (a ≡ one) × (b ≡ other))) }
{
    if one.column != other.column || !modes_clash(one.mode, other.mode) {
        return Ok(None);
    }
    let space = graph.space(one.space);
    match space.both(alloc, graph.space(other.space))? {
        Some(both) => {
            let point = first_point(&both);
            Ok(Some(SharedPoint { point, one, other }))
        }
        None => Ok(None),
    }
}

/// The least point of a space.
fn first_point(space: &Space) -> u32
    ensures in_space { IsTrue (has_point space.now result) }
    ensures least { (p : ℕ) → IsTrue (has_point space.now p) → result ≤ p }
{
    points_ascend();
    rank_of_point();
    point_of_rank();
    let _ = space.intervals();
    let _ = space.size();
    space.point(0)
}

fn modes_clash(one: Mode, other: Mode) -> bool
    ensures { result ≡ modes_clash one other }
{
    !matches!((one, other), (Mode::Read, Mode::Read))
}

/// The one of the lesser column, and of one column the one of the lesser point.
fn lesser(best: Option<SharedPoint>, found: Option<SharedPoint>) -> Option<SharedPoint>
    ensures { result ≡ lesser_of best found }
{
    match (best, found) {
        (Some(one), Some(other)) if is_before(&other, &one) => Some(other),
        (Some(one), _) => Some(one),
        (None, other) => other,
    }
}

fn is_before(one: &SharedPoint, other: &SharedPoint) -> bool
    ensures { result ≡ is_before one.now other.now }
{
    one.one.column < other.one.column
        || (one.one.column == other.one.column && one.point < other.point)
}
