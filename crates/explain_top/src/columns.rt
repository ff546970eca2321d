//! What is told of the columns that a refused line names.

ghost use Rattle.std.specs.Prelude.{◌≡◌, ◌+◌, ◌++◌, ◌<◌, length, slice_get, Some, option_map, OnOk};
ghost use Rattle.basics.specs.Words.{contents};
ghost use Rattle.graph_terms.specs.Graph.{columns, data_columns};
ghost use Rattle.graph_terms.specs.Names.{is_column_named};
ghost use Rattle.graph_model.specs.Columns.{all_columns};
ghost use Rattle.explain_top.specs.Columns.{column_number, kind_words, kind_text, kind_of, access_text, told_access, meeting_text, columns_text};

use crate::fields::put_fields_of;
use explain_text::Text;
use explain_text::split::back;
use graph_model::graph::Graph;
use graph_terms::why::Why;
use graph_words::cuts::around_dot;
use graph_words::words::word;
use index_spaces::NoMemory;
use refused_words::met_word;
use std::alloc::Global;

/// Puts, of the column that a refused word names, the fields that its instance or its data has, where
/// none of them is named; of which kind it is, where its place takes one of the other kind; and which
/// access of the call the one of it meets.
pub(crate) fn put_columns(
    alloc: Global,
    text: &mut Text,
    graph: &Graph,
    words: &[&[u8]],
    why: Why,
    mark: Option<usize>,
) -> Result<(), NoMemory>
    ensures { OnOk result (text.new ≡ text.old ++ columns_text graph.now (contents words.now) why mark) }
{
    match (why, mark) {
        (Why::Unknown, Some(k)) => put_fields_of(alloc, text, graph, word(words, k)),
        (Why::Kind, Some(k)) => put_kind_of(text, graph, word(words, k)),
        (Why::Meets, Some(k)) => put_meeting(text, words, k, met_word(graph, words, k)),
        _ => Ok(()),
    }
}

/// Puts of which kind the column is that a word names, where it names one.
fn put_kind_of(text: &mut Text, graph: &Graph, word: &[u8]) -> Result<(), NoMemory>
    ensures { OnOk result (text.new ≡ text.old ++ kind_of graph.now word.now) }
{
    let Some((owner, field)) = around_dot(word) else {
        return Ok(());
    };
    put_kind(
        text,
        graph.columns(),
        word,
        find_column(graph, owner, field),
    )
}

/// Puts of which kind the column of this number is, where so many are of instances.
fn put_kind(
    text: &mut Text,
    of_instances: u32,
    word: &[u8],
    column: Option<u32>,
) -> Result<(), NoMemory>
    ensures { OnOk result (text.new ≡ text.old ++ kind_text of_instances word.now column) }
{
    let Some(column) = column else {
        return Ok(());
    };
    text.put(word)?;
    text.put(kind_words(of_instances <= column))
}

/// What is told of a column of data, or of one of an instance.
fn kind_words(of_data: bool) -> &'static [u8]
    ensures { result.now ≡ kind_words of_data }
{
    if of_data {
        b" is a column of data, which calls alone use\n"
    } else {
        b" is a column of an instance, and calls use columns of data alone\n"
    }
}

/// The number among all columns of the one of these names.
fn find_column(graph: &Graph, owner: &[u8], field: &[u8]) -> Option<u32>
    ensures { result ≡ column_number graph.now owner.now field.now }
{
    for column in 0..graph.all_columns() {
        if is_named(graph, column, owner, field) {
            return Some(column);
        }
    }
    None
}

/// Whether the column of this number has these names.
fn is_named(graph: &Graph, column: u32, owner: &[u8], field: &[u8]) -> bool
    requires { column < length (columns graph.now) + length (data_columns graph.now) }
    ensures { option_map (is_column_named owner.now field.now) (slice_get (all_columns graph.now) column) ≡ Some result }
{
    let (of, own) = graph.any_column_name(column);
    of.bytes() == owner && own.bytes() == field
}

/// Puts how the accesses of two words have to be that meet, where there is the first of them.
fn put_meeting(
    text: &mut Text,
    words: &[&[u8]],
    k: usize,
    met: Option<usize>,
) -> Result<(), NoMemory>
    ensures { OnOk result (text.new ≡ text.old ++ meeting_text (contents words.now) k met) }
{
    let Some(j) = met else {
        return Ok(());
    };
    put_told_access(text, words, j)?;
    text.put(b" and ")?;
    put_told_access(text, words, k)?;
    text.put(b" share a point: one of the two has to only read, and neither may reduce\n")
}

/// Puts the access whose column is the word of number `k`.
fn put_told_access(text: &mut Text, words: &[&[u8]], k: usize) -> Result<(), NoMemory>
    ensures { OnOk result (text.new ≡ text.old ++ told_access (contents words.now) k) }
{
    put_access(text, back(words, k.saturating_sub(1)))
}

/// Puts the words of the access with which words begin.
fn put_access(text: &mut Text, words: &[&[u8]]) -> Result<(), NoMemory>
    ensures { OnOk result (text.new ≡ text.old ++ access_text (contents words.now)) }
{
    text.put(word(words, 0))?;
    text.put(b" ")?;
    text.put(word(words, 1))?;
    text.put(b" ")?;
    text.put(word(words, 2))
}
