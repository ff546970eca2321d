//! Whether a line uses a column over points that this column has not.

ghost use Rattle.basics.specs.Words.{contents};
ghost use Rattle.std.specs.Prelude.{◌≡◌, ◌<◌, ◌≤◌, ℕ, List, [], slice_index_or, Some, not, true, false, drop, length};
ghost use Rattle.std.specs.List.{list_any, list_all};
ghost use Rattle.std.specs.Option.{option_map_or};
ghost use Rattle.index_spaces.specs.Space.{has_point, points};
ghost use Rattle.graph_terms.specs.Access.{verb_accesses};
ghost use Rattle.graph_terms.specs.Graph.{space_at, column_space, data_space};
ghost use Rattle.graph_terms.specs.Fits.{data_outside};
ghost use Rattle.graph_terms.specs.Table.{is_row};
ghost use Rattle.graph_words.specs.Draft.{draft, line_draft, form_of, is_of_form, column_number_of};
ghost use Rattle.graph_words.specs.Words.{pieces};
ghost use Rattle.graph_reader.specs.Kinds.{HasPlaces, kind_draft, kind_verb};
ghost use Rattle.refused_words.specs.Meets.{access_at};
ghost use Rattle.refused_words.specs.Refused.{draft_accesses, leaves_column};
ghost use Rattle.refused_words.specs.Uses.{use_at};

use crate::meets::access_at;
use crate::places::{LineWords, is_call, is_merge, is_operation};
use graph_model::graph::Graph;
use graph_terms::table::{Kind, Place};
use graph_words::words::{behind, kind_of, word};
use index_spaces::laws::points_are_listed;
use word_meanings::seen::{see, see_column};

/// Whether the line uses the column that the word of number `k` names over a space that has points
/// which this column has not.
pub(crate) fn leaves_named(graph: &Graph, line: &LineWords, k: usize) -> bool
    ensures { result ≡ list_any (leaves_column graph.now (column_number_of graph.now (pieces 46 (slice_index_or line.now.words k [])))) (draft_accesses (draft graph.now line.now.words)) }
{
    let words = line.words();
    let column = see_column(graph, false, word(words, k)).number;
    leaves_column(graph, words, column)
}

/// Whether the line of these words uses the column of this number over a space that has points which
/// the column has not.
fn leaves_column(graph: &Graph, words: &[&[u8]], column: u32) -> bool
    ensures { result ≡ list_any (leaves_column graph.now column) (draft_accesses (draft graph.now (contents words.now))) }
{
    if !is_operation(words) {
        return false;
    }
    in_line(graph, behind(words, 2), column)
}

/// The same by the words behind the sign.
fn in_line(graph: &Graph, words: &[&[u8]], column: u32) -> bool
    ensures { (name : List ℕ) → result ≡ list_any (leaves_column graph.now column) (draft_accesses (line_draft graph.now name (contents words.now))) }
{
    if is_merge(words) {
        return false;
    }
    if is_call(words) {
        return false;
    }
    match kind_of(graph.format(), words) {
        Some(kind) => in_form(graph, kind, words, column),
        None => false,
    }
}

/// The same of a line of a kind.
fn in_form(graph: &Graph, kind: Kind, words: &[&[u8]], column: u32) -> bool
    requires { is_of_form graph.now.format (contents words.now) (form_of kind) ≡ true }
    ensures { (name : List ℕ) → result ≡ list_any (leaves_column graph.now column) (draft_accesses (Some (kind_draft graph.now kind name (drop (length (form_of kind).words) (contents words.now))))) }
{
    in_places(graph, kind, behind(words, kind.words().len()), column)
}

/// The same by the words behind the fixed ones.
fn in_places(graph: &Graph, kind: Kind, rest: &[&[u8]], column: u32) -> bool
    requires { HasPlaces kind (contents rest.now) }
    ensures { result ≡ list_any (leaves_column graph.now column) (verb_accesses (kind_verb graph.now kind (contents rest.now))) }
{
    let places = kind.row().places;
    for k in 0..places.len() {
        if is_use(graph, places, rest, k, column) {
            return true;
        }
    }
    false
}

/// Whether the word of number `k` names this column, which is used there so.
fn is_use(graph: &Graph, places: &[Place], rest: &[&[u8]], k: usize, column: u32) -> bool
    requires { k < length places.now }
    ensures { result ≡ option_map_or (leaves_column graph.now column) (use_at graph.now places.now (contents rest.now) k) false }
{
    match places[k] {
        Place::Column(mode, over) => {
            let named = see(graph, Place::Column(mode, over), word(rest, k)).number;
            let space = see(graph, Place::Space, word(rest, over)).number;
            named == column && is_outside(graph, space, column)
        }
        _ => false,
    }
}

/// Whether a space has points that a column has not.
fn is_outside(graph: &Graph, space: u32, column: u32) -> bool
    ensures { result ≡ not (list_all (has_point (column_space graph.now column)) (points (space_at graph.now space))) }
{
    points_are_listed();
    if space >= graph.spaces() {
        return false;
    }
    if column >= graph.columns() {
        return graph.space(space).size() > 0;
    }
    !graph.space(space).is_within(graph.column_space(column))
}

/// Whether the access of which the word of number `k` is the column is over a space that has points
/// which this column has not.
pub(crate) fn leaves_data(graph: &Graph, line: &LineWords, k: usize) -> bool
    requires { line.now.format ≡ graph.now.format }
    ensures { result ≡ option_map_or (data_outside graph.now) (access_at graph.now line.now.words k) false }
{
    match access_at(graph, line, k) {
        Some(access) => is_outside_data(graph, access.space, access.column),
        None => false,
    }
}

/// Whether a space has points that a column of data has not.
fn is_outside_data(graph: &Graph, space: u32, column: u32) -> bool
    ensures { result ≡ not (list_all (has_point (data_space graph.now column)) (points (space_at graph.now space))) }
{
    points_are_listed();
    if space >= graph.spaces() {
        return false;
    }
    if column >= graph.data_columns() {
        return graph.space(space).size() > 0;
    }
    !graph.space(space).is_within(graph.data_space(column))
}
