//! Two accesses of a call that meet and may not.

ghost use Rattle.basics.specs.Words.{contents};
ghost use Rattle.std.specs.Prelude.{◌≡◌, ◌<◌, length, option_map};
ghost use Rattle.std.specs.List.{list_any};
ghost use Rattle.index_spaces.specs.Space.{has_point, points};
ghost use Rattle.graph_terms.specs.Graph.{space_at};
ghost use Rattle.graph_terms.specs.Fits.{accesses_clash};
ghost use Rattle.refused_words.specs.Places.{place_value};
ghost use Rattle.refused_words.specs.Meets.{is_data_column, word_access, access_at, both_clash, met_word};

use crate::places::{LineWords, WordPlace};
use graph_items::calls::may_meet;
use graph_model::graph::Graph;
use graph_terms::table::Place;
use graph_terms::verb::Access;
use graph_words::calls::mode_of;
use graph_words::words::word;
use index_spaces::laws::points_are_listed;
use word_meanings::seen::{see, see_column};

/// The first word before the word of number `k` of which the access meets that of this word and may
/// not. `None` exactly where none does, or this word is no column of a call.
pub fn met_word(graph: &Graph, words: &[&[u8]], k: usize) -> Option<usize>
    ensures { result ≡ met_word graph.now (contents words.now) k }
{
    met_by(graph, &LineWords::of(graph.format(), words), k)
}

/// The same by the words of the line.
pub(crate) fn met_by(graph: &Graph, line: &LineWords, k: usize) -> Option<usize>
    requires { line.now.format ≡ graph.now.format }
    ensures { result ≡ met_word graph.now line.now.words k }
{
    let access = access_at(graph, line, k);
    if access.is_none() {
        return None;
    }
    for j in 0..k {
        if both_clash(graph, access_at(graph, line, j), access) {
            return Some(j);
        }
    }
    None
}

/// The access of which the word of number `k` is the column. `None` exactly where it is that of none.
pub(crate) fn access_at(graph: &Graph, line: &LineWords, k: usize) -> Option<Access>
    requires { line.now.format ≡ graph.now.format }
    ensures { result ≡ access_at graph.now line.now.words k }
{
    if is_data_column(line.place(k)) {
        word_access(graph, line, k)
    } else {
        None
    }
}

fn is_data_column(place: Option<WordPlace>) -> bool
    ensures { result ≡ is_data_column (option_map place_value place) }
{
    matches!(place, Some(WordPlace::DataColumn))
}

/// The access of these words: how a column is used, the column, which has number `k`, and the space.
fn word_access(graph: &Graph, line: &LineWords, k: usize) -> Option<Access>
    requires { k < length line.now.words }
    ensures { result ≡ word_access graph.now line.now.words k }
{
    let words = line.words();
    let mode = mode_of(word(words, k.saturating_sub(1)))?;
    let column = see_column(graph, true, word(words, k)).number;
    let space = see(graph, Place::Space, word(words, k + 1)).number;
    Some(Access {
        column,
        space,
        mode,
    })
}

fn both_clash(graph: &Graph, one: Option<Access>, other: Option<Access>) -> bool
    ensures { result ≡ both_clash graph.now one other }
{
    match (one, other) {
        (Some(one), Some(other)) => accesses_clash(graph, one, other),
        _ => false,
    }
}

/// Whether two accesses are of one column, and meet, and may not.
fn accesses_clash(graph: &Graph, one: Access, other: Access) -> bool
    ensures { result ≡ accesses_clash graph.now one other }
{
    one.column == other.column
        && !may_meet(one.mode, other.mode)
        && spaces_meet(graph, one.space, other.space)
}

/// Whether two spaces have a point in common. One that is not declared has none.
fn spaces_meet(graph: &Graph, one: u32, other: u32) -> bool
    ensures { result ≡ list_any (has_point (space_at graph.now one)) (points (space_at graph.now other)) }
{
    points_are_listed();
    let spaces = graph.spaces();
    if one >= spaces {
        return false;
    }
    if other >= spaces {
        return false;
    }
    graph.space(one).meets(graph.space(other))
}
