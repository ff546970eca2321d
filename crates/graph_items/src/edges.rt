//! The edges that a line gives.

ghost use Rattle.std.specs.Prelude.{◌≡◌, ◌≤◌, ◌+◌, ◌++◌, length, map, None, OnOk};
ghost use Rattle.graph_terms.specs.Graph.{is_phase_of};
ghost use Rattle.graph_terms.specs.Edges.{edge, last_place, edges_from_some, verb_edges, line_edges};

use graph_terms::limits::MAX_LINES_OF_THREE;
use graph_terms::verb::{Edge, EdgeKind, Line, Verb};
use index_spaces::NoMemory;
use index_spaces::room::{push, push_within, reserve};

/// Makes the list that of the edges that a line gives after these lines, in order.
pub fn list_edges(given: &mut Vec<Edge>, lines: &[Line], line: &Line) -> Result<(), NoMemory>
    requires { length lines.now ≤ MAX_LINES_OF_THREE }
    ensures { OnOk result (given.new.items ≡ line_edges lines.now line.now) }
{
    let place = lines.len() as u32;
    given.clear();
    push_sources(given, line.on.as_slice(), place, EdgeKind::Passes)?;
    push_verb_edges(given, lines, place, &line.verb)
}

/// How many edges a line gives after these lines.
pub fn count_edges(lines: &[Line], line: &Line) -> usize
    requires { length lines.now ≤ MAX_LINES_OF_THREE }
    ensures number { result ≡ length (line_edges lines.now line.now) }
    ensures few { result ≤ 8589934592 }
{
    line.on.len() as usize + count_verb_edges(lines, &line.verb)
}

fn count_verb_edges(lines: &[Line], verb: &Verb) -> usize
    requires { length lines.now ≤ MAX_LINES_OF_THREE }
    ensures number { result ≡ length (verb_edges lines.now (length lines.now) verb.now) }
    ensures few { result ≤ 4294967296 }
{
    match verb {
        Verb::Merge { events } => events.len() as usize,
        Verb::MergeIgnore { events } => events.len() as usize,
        Verb::Trigger { .. } => 1,
        Verb::Cancel { .. } => 1,
        Verb::Arrive { .. } => 1,
        Verb::Phase { barrier } => {
            if last_phase(lines, *barrier).is_some() {
                1
            } else {
                0
            }
        }
        _ => 0,
    }
}

fn push_from(
    given: &mut Vec<Edge>,
    source: Option<u32>,
    to: u32,
    kind: EdgeKind,
) -> Result<(), NoMemory>
    ensures { OnOk result (given.new.items ≡ given.old.items ++ edges_from_some kind source to) }
{
    match source {
        Some(from) => push(given, Edge { from, to, kind }),
        None => Ok(()),
    }
}

fn push_verb_edges(
    given: &mut Vec<Edge>,
    lines: &[Line],
    place: u32,
    verb: &Verb,
) -> Result<(), NoMemory>
    requires { length lines.now ≤ MAX_LINES_OF_THREE }
    ensures { OnOk result (given.new.items ≡ given.old.items ++ verb_edges lines.now place verb.now) }
{
    match verb {
        Verb::Merge { events } => {
            push_sources(given, events.items.as_slice(), place, EdgeKind::Passes)
        }
        Verb::MergeIgnore { events } => {
            push_sources(given, events.items.as_slice(), place, EdgeKind::Ignores)
        }
        Verb::Trigger { user } => { push_from(given, Some(place), *user, EdgeKind::Passes) }
        Verb::Cancel { user } => push_from(given, Some(place), *user, EdgeKind::Faults),
        Verb::Arrive { phase, .. } => { push_from(given, Some(place), *phase, EdgeKind::Passes) }
        Verb::Phase { barrier } => {
            push_from(given, last_phase(lines, *barrier), place, EdgeKind::Ignores)
        }
        _ => Ok(()),
    }
}

/// Puts an edge from each of these lines.
fn push_sources(
    given: &mut Vec<Edge>,
    sources: &[u32],
    to: u32,
    kind: EdgeKind,
) -> Result<(), NoMemory>
    ensures { OnOk result (given.new.items ≡ given.old.items ++ map (λ e. edge e to kind) sources.now) }
{
    reserve(given, sources.len())?;
    for from in sources {
        push_within(
            given,
            Edge {
                from: *from,
                to,
                kind,
            },
        );
    }
    Ok(())
}

/// The last phase of a barrier among these lines.
fn last_phase(lines: &[Line], barrier: u32) -> Option<u32>
    requires { length lines.now ≤ MAX_LINES_OF_THREE }
    ensures { result ≡ last_place (is_phase_of barrier) 0 lines.now None }
{
    let mut place = lines.len();
    while place > 0 {
        place -= 1;
        if is_phase_of(&lines[place].verb, barrier) {
            return Some(place as u32);
        }
    }
    None
}

fn is_phase_of(verb: &Verb, wanted: u32) -> bool
    ensures { result ≡ is_phase_of wanted verb.now }
{
    match verb {
        Verb::Phase { barrier } => *barrier == wanted,
        _ => false,
    }
}
