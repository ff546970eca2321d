//! The quantities that an operation line is part of.

ghost use Rattle.basics.specs.Words.{contents};
ghost use Rattle.std.specs.Prelude.{◌≡◌, ℕ, ◌≤◌, ◌+◌, Bool, List, Some, None, codes, drop, length, option_map, is_some};
ghost use Rattle.graph_terms.specs.Limits.{limits};
ghost use Rattle.graph_terms.specs.Graph.{is_phase_of};
ghost use Rattle.graph_terms.specs.Edges.{edges, last_place, verb_edges};
ghost use Rattle.graph_words.specs.Draft.{merge_draft, call_draft};
ghost use Rattle.graph_reader.specs.Kinds.{HasPlaces, kind_draft, kind_verb};
ghost use Rattle.graph_reader.specs.Merges.{merge_verb};
ghost use Rattle.refused_words.specs.Limits.{quantity_value, quantity, limit_in, size_limit};

use crate::limits::{Quantity, first_above, one_if, spaces, with_bound};
use crate::places::{CallSize, call_size};
use graph_meaning::laws::edges_between_lines;
use graph_model::graph::Graph;
use graph_terms::limits::{Limits, MAX_CALL_ACCESSES, MAX_EDGES_OF_THREE};
use graph_terms::table::{Kind, Place};
use graph_terms::verb::Verb;
use graph_words::words::{on_events, word};
use word_meanings::seen::see;

/// Of a merge, by the words behind its sign.
pub(crate) fn of_merge(graph: &Graph, words: &[&[u8]]) -> Option<Quantity>
    ensures { (name : List ℕ) (ignores : Bool) → option_map quantity_value result ≡ limit_in graph.now (merge_draft graph.now name (merge_verb ignores) (drop 1 (contents words.now))) }
{
    if words.len() < 2 {
        return None;
    }
    let count = words.len() as u64 - 1;
    let merged = events(graph, b"events of a merge", count);
    first_above(&[
        operations(graph),
        merged,
        edges(graph, count),
        spaces(graph, 0),
    ])
}

/// Of a call, by the words behind the sign.
pub(crate) fn of_call(graph: &Graph, words: &[&[u8]]) -> Option<Quantity>
    requires { 1 ≤ length words.now }
    ensures { (name : List ℕ) → option_map quantity_value result ≡ limit_in graph.now (call_draft graph.now name (drop 1 (contents words.now))) }
{
    match call_size(graph.format(), words) {
        Some(size) => of_size(graph, size),
        None => None,
    }
}

/// Of a call of this size.
fn of_size(graph: &Graph, size: CallSize) -> Option<Quantity>
    requires { size.events ≤ 9223372036854775807 }
    ensures { option_map quantity_value result ≡ size_limit graph.now size }
{
    let count = size.events as u64;
    let most = u64::from(MAX_CALL_ACCESSES);
    let accesses = with_bound(b"accesses of a call", size.accesses as u64, most);
    let behind = events(graph, b"events behind on", count);
    first_above(&[
        operations(graph),
        accesses,
        behind,
        edges(graph, count),
        spaces(graph, 0),
    ])
}

/// Of a line of a kind, by the words behind the fixed ones.
pub(crate) fn of_kind(graph: &Graph, kind: Kind, rest: &[&[u8]]) -> Option<Quantity>
    requires { HasPlaces kind (contents rest.now) }
    ensures { (name : List ℕ) → option_map quantity_value result ≡ limit_in graph.now (Some (kind_draft graph.now kind name (contents rest.now))) }
{
    let count = on_events(graph.format(), kind, rest).len() as u64;
    let given = edges_of_kind(graph, kind, rest) + count;
    let behind = events(graph, b"events behind on", count);
    first_above(&[
        operations(graph),
        behind,
        edges(graph, given),
        spaces(graph, 0),
    ])
}

/// So many events that a line names.
fn events(graph: &Graph, name: &'static [u8], count: u64) -> Quantity
    ensures { quantity_value result ≡ quantity name.now count (limits graph.now.format).events }
{
    with_bound(name, count, u64::from(Limits::of(graph.format()).events))
}

/// The operations of a graph with one more.
fn operations(graph: &Graph) -> Quantity
    ensures { quantity_value result ≡ quantity (codes "operations") (length graph.now.lines + 1) (limits graph.now.format).lines }
{
    let most = Limits::of(graph.format()).lines;
    with_bound(b"operations", u64::from(graph.lines()) + 1, most)
}

/// The edges of a graph with so many more.
fn edges(graph: &Graph, more: u64) -> Quantity
    requires { more ≤ 9223372036854775808 }
    ensures { quantity_value result ≡ quantity (codes "edges") (length (edges graph.now) + more) (limits graph.now.format).edges }
{
    let most = Limits::of(graph.format()).edges;
    with_bound(b"edges", edge_count(graph) + more, most)
}

/// How many edges a graph has.
fn edge_count(graph: &Graph) -> u64
    ensures count { result ≡ length (edges graph.now) }
    ensures few { result ≤ MAX_EDGES_OF_THREE }
{
    edges_between_lines();
    let mut count: u64 = 0;
    for line in 0..graph.lines() {
        count += graph.edges_into(line).len() as u64;
    }
    count
}

/// How many edges a line of a kind gives by what it does.
fn edges_of_kind(graph: &Graph, kind: Kind, rest: &[&[u8]]) -> u64
    requires { HasPlaces kind (contents rest.now) }
    ensures count { result ≡ length (verb_edges graph.now.lines (length graph.now.lines) (kind_verb graph.now kind (contents rest.now))) }
    ensures few { result ≤ 1 }
{
    match kind {
        Kind::Trigger | Kind::Cancel | Kind::Arrive | Kind::ArriveTimes => 1,
        Kind::Phase => {
            let barrier = see(graph, Place::Barrier, word(rest, 0)).number;
            one_if(has_phase(graph, barrier))
        }
        _ => 0,
    }
}

/// Whether a graph has a phase of this barrier.
fn has_phase(graph: &Graph, barrier: u32) -> bool
    ensures { result ≡ is_some (last_place (is_phase_of barrier) 0 graph.now.lines None) }
{
    let mut i = graph.lines();
    while i > 0 {
        i -= 1;
        if is_phase_of(&graph.line(i).verb, barrier) {
            return true;
        }
    }
    false
}

fn is_phase_of(verb: &Verb, wanted: u32) -> bool
    ensures { result ≡ is_phase_of wanted verb.now }
{
    match verb {
        Verb::Phase { barrier } => *barrier == wanted,
        _ => false,
    }
}
