//! The fields of an instance, or of data, of which a line names a column that it has not.

ghost use Rattle.std.specs.Prelude.{◌≡◌, ◌+◌, ◌++◌, ◌<◌, [], length, flat_map, slice_get, IfOk, OnOk};
ghost use Rattle.std.specs.Option.{option_map_or};
ghost use Rattle.std.specs.List.{slice_index_or};
ghost use Rattle.basics.specs.Words.{contents};
ghost use Rattle.graph_terms.specs.Graph.{columns, data_columns};
ghost use Rattle.graph_model.specs.Columns.{all_columns};
ghost use Rattle.explain_top.specs.Fields.{field_in, field_of, said_fields, owner_fields, fields_of};

use explain_text::Text;
use graph_model::graph::Graph;
use graph_words::words::{split, word};
use index_spaces::NoMemory;
use std::alloc::Global;

/// Puts the fields of the instance, or of the data, of which a word names a column.
pub(crate) fn put_fields_of(
    alloc: Global,
    text: &mut Text,
    graph: &Graph,
    word: &[u8],
) -> Result<(), NoMemory>
    ensures { OnOk result (text.new ≡ text.old ++ fields_of graph.now word.now) }
{
    let parts = split(alloc, word, b'.')?;
    put_owner_fields(alloc, text, graph, front(parts.as_slice()))
}

/// The first of some parts.
fn front<'a>(parts: &[&'a [u8]]) -> &'a [u8]
    ensures { result.now ≡ slice_index_or (contents parts.now) 0 [] }
{
    word(parts, 0)
}

/// Puts the fields of an instance, or of data.
fn put_owner_fields(
    alloc: Global,
    text: &mut Text,
    graph: &Graph,
    owner: &[u8],
) -> Result<(), NoMemory>
    ensures { OnOk result (text.new ≡ text.old ++ owner_fields graph.now owner.now) }
{
    let told = fields(alloc, graph, owner)?;
    put_said(text, owner, told.bytes())
}

/// Puts these fields of an owner, where there are some.
fn put_said(text: &mut Text, owner: &[u8], fields: &[u8]) -> Result<(), NoMemory>
    ensures { OnOk result (text.new ≡ text.old ++ said_fields owner.now fields.now) }
{
    if fields.is_empty() {
        return Ok(());
    }
    text.put(b"the fields of ")?;
    text.put(owner)?;
    text.put(b" are")?;
    text.put(fields)?;
    text.put(b"\n")
}

/// The fields of an owner, each with a space before it.
fn fields(alloc: Global, graph: &Graph, owner: &[u8]) -> Result<Text, NoMemory>
    ensures { IfOk result (λ t. t ≡ flat_map (field_of owner.now) (all_columns graph.now)) }
{
    let mut text = Text::new(alloc);
    for column in 0..graph.all_columns() {
        put_field_at(&mut text, graph, column, owner)?;
    }
    Ok(text)
}

/// Puts the field of a column by its number among all, where that is one of the owner.
fn put_field_at(text: &mut Text, graph: &Graph, column: u32, owner: &[u8]) -> Result<(), NoMemory>
    requires { column < length (columns graph.now) + length (data_columns graph.now) }
    ensures { OnOk result (text.new ≡ text.old ++ option_map_or (field_of owner.now) (slice_get (all_columns graph.now) column) []) }
{
    let (of, field) = graph.any_column_name(column);
    put_field(text, of.bytes(), field.bytes(), owner)
}

/// Puts the field of a column of one owner, where that is this one.
fn put_field(text: &mut Text, of: &[u8], field: &[u8], owner: &[u8]) -> Result<(), NoMemory>
    ensures { OnOk result (text.new ≡ text.old ++ field_in owner.now of.now field.now) }
{
    if of == owner {
        text.put(b" ")?;
        return text.put(field);
    }
    Ok(())
}
