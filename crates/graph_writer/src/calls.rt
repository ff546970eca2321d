//! Writing calls.

ghost use Rattle.std.specs.Prelude.{◌≡◌, ◌∷◌, flat_map, decimal};
ghost use Rattle.graph_terms.specs.Spelling.{data_name, mode_word, access_words, call_words};
ghost use Rattle.realm_io.specs.Written.{Writes};
ghost use Rattle.graph_writer.specs.WrittenWords.{word_text, spaced};

use crate::word_kinds::{Word, put_behind, put_spaced, space_word};
use graph_model::graph::Graph;
use graph_terms::call::Call;
use graph_terms::verb::{Access, Mode};
use realm_io::{Sink, WriteFault};

/// The word of how a call uses a column.
fn mode_word(mode: Mode) -> Word
    ensures { word_text result ≡ mode_word mode }
{
    match mode {
        Mode::Read => Word::Fixed(b"read"),
        Mode::Write => Word::Fixed(b"write"),
        Mode::Sum => Word::Fixed(b"sum"),
        Mode::Least => Word::Fixed(b"min"),
        Mode::Most => Word::Fixed(b"max"),
    }
}

/// The name of a column of data, or no byte where there is none of this number.
fn data_word(graph: &Graph, c: u32) -> Word
    ensures { word_text result ≡ data_name graph.now c }
{
    if c < graph.data_columns() {
        let (owner, field) = graph.data_column_name(c);
        Word::Column(owner, field)
    } else {
        Word::Fixed(b"")
    }
}

/// Writes values, each behind a space.
fn put_values<K: Sink>(sink: &mut K, values: &[u64]) -> Result<(), WriteFault>
    ensures { Writes (K.state sink.old) (K.state sink.new) result (flat_map (λ n. 32 ∷ decimal n) values.now) }
{
    for value in values {
        put_behind(sink, b" ", &Word::Number(*value))?;
    }
    Ok(())
}

/// Writes the words of an access, each behind a space.
fn put_access<K: Sink>(sink: &mut K, graph: &Graph, access: &Access) -> Result<(), WriteFault>
    ensures { Writes (K.state sink.old) (K.state sink.new) result (spaced (access_words graph.now access.now)) }
{
    put_spaced(
        sink,
        &[
            mode_word(access.mode),
            data_word(graph, access.column),
            space_word(graph, access.space),
        ],
    )
}

/// Writes the words of accesses, each behind a space.
fn put_accesses<K: Sink>(sink: &mut K, graph: &Graph, accesses: &[Access]) -> Result<(), WriteFault>
    ensures { Writes (K.state sink.old) (K.state sink.new) result (flat_map (λ a. spaced (access_words graph.now a)) accesses.now) }
{
    for access in accesses {
        put_access(sink, graph, access)?;
    }
    Ok(())
}

/// Writes the words of a call, each behind a space.
pub(crate) fn put_call<K: Sink>(sink: &mut K, graph: &Graph, call: &Call) -> Result<(), WriteFault>
    ensures { Writes (K.state sink.old) (K.state sink.new) result (spaced (call_words graph.now call.now)) }
{
    put_spaced(sink, &[Word::Fixed(b"call"), Word::Name(*call.word())])?;
    put_values(sink, call.values().items.as_slice())?;
    put_accesses(sink, graph, call.accesses().items.as_slice())
}
