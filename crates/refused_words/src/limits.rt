//! Which quantity of a graph a line of words brings above its greatest value.

ghost use Rattle.basics.specs.Words.{contents};
ghost use Rattle.std.specs.Prelude.{◌≡◌, ℕ, ◌+◌, ◌≤◌, List, Some, nat_lt, true, cond, drop, length, find, option_map, IfOk};
ghost use Rattle.graph_words.specs.Draft.{line_draft, form_of, is_of_form};
ghost use Rattle.graph_reader.specs.Kinds.{kind_draft};
ghost use Rattle.graph_terms.specs.Format.{has_since};
ghost use Rattle.graph_terms.specs.Graph.{named_spaces};
ghost use Rattle.refused_words.specs.Limits.{quantity_value, quantity, spaces_quantity, limit_in, limit_of};
ghost use Rattle.refused_words.specs.declared.limits.Quantity.{Quantity};

use crate::declared::of_declaration;
use crate::operations::{of_call, of_kind, of_merge};
use crate::places::is_operation;
use graph_model::graph::Graph;
use graph_terms::format::Format;
use graph_terms::limits::MAX_SPACES;
use graph_terms::table::Kind;
use graph_words::words::{behind, kind_of, word};
use index_spaces::NoMemory;
use std::alloc::Global;

/// A quantity of a graph, with its greatest value.
#[derive(Clone, Copy, Debug)]
pub struct Quantity {
    pub name: &'static [u8],
    pub value: u64,
    pub bound: u64,
}

/// The first quantity that is above its bound once what these words spell stands at the end of a
/// graph. `None` exactly where none is, or the words spell nothing; of the length of the text nothing
/// is said. In format 3 the spaces come last: they are limited only in a text that is longer than the
/// formats before it allow, so they are the cause where a limit refuses the line and no other quantity
/// is above its bound.
pub fn passed_limit(
    alloc: Global,
    graph: &Graph,
    words: &[&[u8]],
) -> Result<Option<Quantity>, NoMemory>
    ensures { IfOk result (λ o. option_map quantity_value o ≡ limit_of graph.now (contents words.now)) }
{
    if is_operation(words) {
        return Ok(of_line(graph, behind(words, 2)));
    }
    if graph.lines() > 0 {
        return Ok(None);
    }
    of_declaration(alloc, graph, words)
}

/// A quantity with this name, this value and this bound.
pub(crate) fn with_bound(name: &'static [u8], value: u64, bound: u64) -> Quantity
    ensures { quantity_value result ≡ quantity name.now value bound }
{
    Quantity { name, value, bound }
}

/// The spaces of a graph with so many more.
pub(crate) fn spaces(graph: &Graph, more: u64) -> Quantity
    requires { more ≤ 1 }
    ensures { quantity_value result ≡ spaces_quantity graph.now.format (length (named_spaces graph.now) + more) }
{
    let count = u64::from(graph.spaces()) + more;
    with_bound(b"spaces", limited_spaces(graph.format(), count), MAX_SPACES)
}

/// So many spaces, of which none counts before format 3.
fn limited_spaces(format: Format, count: u64) -> u64
    ensures { result ≡ cond (has_since Format.Three format) count 0 }
{
    if format.has_since(Format::Three) {
        count
    } else {
        0
    }
}

/// One where something holds, and else none.
pub(crate) fn one_if(holds: bool) -> u64
    ensures one { result ≡ cond holds 1 0 }
    ensures few { result ≤ 1 }
{
    if holds { 1 } else { 0 }
}

/// The first of these quantities that is above its bound.
pub(crate) fn first_above(quantities: &[Quantity]) -> Option<Quantity>
    ensures { result ≡ find (λ (q : Quantity). nat_lt q.bound q.value) quantities.now }
{
    quantities
        .iter()
        .copied()
        .find(|quantity| quantity.value > quantity.bound)
}

/// Of an operation line, by the words behind its sign.
fn of_line(graph: &Graph, words: &[&[u8]]) -> Option<Quantity>
    ensures { (name : List ℕ) → option_map quantity_value result ≡ limit_in graph.now (line_draft graph.now name (contents words.now)) }
{
    let verb = word(words, 0);
    if verb == b"merge".as_slice() {
        return of_merge(graph, words);
    }
    if verb == b"mergei".as_slice() {
        return of_merge(graph, words);
    }
    if verb == b"call".as_slice() {
        return of_call(graph, words);
    }
    match kind_of(graph.format(), words) {
        Some(kind) => of_form(graph, kind, words),
        None => None,
    }
}

/// Of a line of a kind, by the words behind its sign.
fn of_form(graph: &Graph, kind: Kind, words: &[&[u8]]) -> Option<Quantity>
    requires { is_of_form graph.now.format (contents words.now) (form_of kind) ≡ true }
    ensures { (name : List ℕ) → option_map quantity_value result ≡ limit_in graph.now (Some (kind_draft graph.now kind name (drop (length (form_of kind).words) (contents words.now)))) }
{
    of_kind(graph, kind, behind(words, kind.words().len()))
}
