//! The faults of a trace at a place.

ghost use Rattle.std.specs.Prelude.{◌≡◌, ℕ, ◌<◌, length, min, OnOk, IfErr, MatchOption};
ghost use Rattle.std.specs.Option.{option_map_or};
ghost use Rattle.realm_audit.specs.Lawful.{ends_of, IsSoundAt, IsSoundBefore, IsRefusal, IsLeast};
ghost use Rattle.realm_audit.specs.Reading.{AreLines};
ghost use Rattle.realm_audit.specs.Prefix.{IsPrefix, IsLate};

use crate::ends::waits;
use crate::prefix::Prefix;
use crate::refusal::AuditRefusal;
use graph_meaning::laws::edges_between_lines;
use graph_model::graph::Graph;
use graph_terms::lists::{EndList, LineList};

/// Judges the line at a place, by what is kept of the items before it: the first of the faults
/// there, if it has one.
pub(crate) fn judge_place(
    graph: &Graph,
    ends: &EndList,
    trace: &LineList,
    prefix: &Prefix,
    place: u32,
) -> Result<(), AuditRefusal>
    requires ends { ends.now ≡ ends_of graph.now }
    requires lines { AreLines graph.now trace.now }
    requires place { place < length trace.now }
    requires prefix { IsPrefix graph.now trace.now place prefix.now }
    requires sound { IsSoundBefore graph.now trace.now place }
    ensures sound { OnOk result (IsSoundAt graph.now trace.now place) }
    ensures refused { IfErr result (IsRefusal graph.now trace.now) }
{
    let line = trace.at(place);
    if prefix.has(line) {
        return Err(AuditRefusal::Repeat(place));
    }
    if waits(ends, line) {
        return Err(AuditRefusal::Waits(place));
    }
    if let Some(source) = late_source(graph, ends, prefix, line) {
        return Err(AuditRefusal::Source(place, source));
    }
    if let Some(acquire) = prefix.sections.rival(graph, ends, line) {
        return Err(AuditRefusal::Overlap(place, acquire));
    }
    Ok(())
}

/// The least source of a line that ends and does not stand in the prefix.
fn late_source(graph: &Graph, ends: &EndList, prefix: &Prefix, line: u32) -> Option<u32>
    requires ends { ends.now ≡ ends_of graph.now }
    requires line { line < length graph.now.lines }
    requires size { length prefix.now.stands.items ≡ length graph.now.lines }
    ensures { MatchOption result ((j : ℕ) → IsLate graph.now prefix.now.stands.items line j → ⊥) (IsLeast (IsLate graph.now prefix.now.stands.items line)) }
{
    edges_between_lines();
    let _ = graph.lines();
    let mut least: Option<u32> = None;
    let edges = graph.edges_into(line);
    for edge in edges {
        if prefix.lacks(ends, edge.from) {
            least = Some(lesser(least, edge.from));
        }
    }
    least
}

/// The lesser of a number and one that may be there.
fn lesser(one: Option<u32>, other: u32) -> u32
    ensures { result ≡ option_map_or (λ n. min n other) one other }
{
    match one {
        Some(n) => n.min(other),
        None => other,
    }
}
