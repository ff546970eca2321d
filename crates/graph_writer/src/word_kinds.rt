//! Words of a text that is written.

ghost use Rattle.std.specs.Prelude.{◌≡◌, ◌++◌, ◌∷◌, flat_map, []};
ghost use Rattle.graph_terms.specs.Spelling.{interval_word, space_name, column_name, lock_name, barrier_name, line_name, op_word, place_word};
ghost use Rattle.graph_terms.specs.Table.{part_in};
ghost use Rattle.realm_io.specs.Written.{Writes};
ghost use Rattle.graph_writer.specs.WrittenWords.{word_text};

use graph_model::graph::Graph;
use graph_terms::name::Name;
use graph_terms::table::{Parts, Place};
use index_spaces::Op;
use realm_io::{Sink, WriteFault, put_bytes, put_decimal};

/// A word of a line.
#[derive(Clone, Copy)]
pub(crate) enum Word {
    Fixed(&'static [u8]),
    Name(Name),
    Column(Name, Name),
    Number(u64),
    Interval(u32, u32),
}

/// Writes the name of a column: its instance, a dot and its field. It takes no memory.
pub fn put_column_name<K: Sink>(sink: &mut K, inst: &Name, field: &Name) -> Result<(), WriteFault>
    ensures { Writes (K.state sink.old) (K.state sink.new) result (inst.now ++ 46 ∷ field.now) }
{
    put_bytes(sink, inst.bytes())?;
    put_bytes(sink, b".")?;
    put_bytes(sink, field.bytes())
}

/// Writes an interval: its least and its greatest point, with two dots between. It takes no memory.
pub fn put_interval<K: Sink>(sink: &mut K, low: u32, high: u32) -> Result<(), WriteFault>
    ensures { Writes (K.state sink.old) (K.state sink.new) result (interval_word (low, high)) }
{
    put_decimal(sink, u64::from(low))?;
    put_bytes(sink, b"..")?;
    put_decimal(sink, u64::from(high))
}

/// Writes a word.
fn put_word<K: Sink>(sink: &mut K, word: &Word) -> Result<(), WriteFault>
    ensures { Writes (K.state sink.old) (K.state sink.new) result (word_text word.now) }
{
    match word {
        Word::Fixed(bytes) => put_bytes(sink, bytes),
        Word::Name(name) => put_bytes(sink, name.bytes()),
        Word::Column(inst, field) => put_column_name(sink, inst, field),
        Word::Number(n) => put_decimal(sink, *n),
        Word::Interval(low, high) => put_interval(sink, *low, *high),
    }
}

/// Writes a word behind a separator.
pub(crate) fn put_behind<K: Sink>(
    sink: &mut K,
    separator: &[u8],
    word: &Word,
) -> Result<(), WriteFault>
    ensures { Writes (K.state sink.old) (K.state sink.new) result (separator.now ++ word_text word.now) }
{
    put_bytes(sink, separator)?;
    put_word(sink, word)
}

/// Writes words, each behind a space.
pub(crate) fn put_spaced<K: Sink>(sink: &mut K, words: &[Word]) -> Result<(), WriteFault>
    ensures { Writes (K.state sink.old) (K.state sink.new) result (flat_map (λ w. 32 ∷ word_text w) words.now) }
{
    for word in words {
        put_behind(sink, b" ", word)?;
    }
    Ok(())
}

/// The name of a space, or no byte where there is none of this number.
pub(crate) fn space_word(graph: &Graph, s: u32) -> Word
    ensures { word_text result ≡ space_name graph.now s }
{
    if s < graph.spaces() {
        Word::Name(graph.space_name(s))
    } else {
        Word::Fixed(b"")
    }
}

/// The name of a column, or no byte where there is none of this number.
pub(crate) fn column_word(graph: &Graph, c: u32) -> Word
    ensures { word_text result ≡ column_name graph.now c }
{
    if c < graph.columns() {
        let (inst, field) = graph.column_name(c);
        Word::Column(inst, field)
    } else {
        Word::Fixed(b"")
    }
}

/// The name of a reservation, or no byte where there is none of this number.
pub(crate) fn lock_word(graph: &Graph, l: u32) -> Word
    ensures { word_text result ≡ lock_name graph.now l }
{
    if l < graph.locks() {
        Word::Name(graph.lock_name(l))
    } else {
        Word::Fixed(b"")
    }
}

/// The name of a barrier, or no byte where there is none of this number.
pub(crate) fn barrier_word(graph: &Graph, b: u32) -> Word
    ensures { word_text result ≡ barrier_name graph.now b }
{
    if b < graph.barriers() {
        Word::Name(graph.barrier(b).name)
    } else {
        Word::Fixed(b"")
    }
}

/// The name of a line, or no byte where there is none of this number.
pub(crate) fn line_word(graph: &Graph, i: u32) -> Word
    ensures { word_text result ≡ line_name graph.now i }
{
    if i < graph.lines() {
        Word::Name(graph.line(i).name)
    } else {
        Word::Fixed(b"")
    }
}

/// The word of what stands in the place of a number.
pub(crate) fn part_word(graph: &Graph, place: Place, parts: &Parts, i: usize) -> Word
    ensures { word_text result ≡ place_word graph.now place (part_in place i parts.now) }
{
    match place {
        Place::User | Place::Phase | Place::Acquire => line_word(graph, parts.number(i)),
        Place::Lock => lock_word(graph, parts.number(i)),
        Place::Barrier => barrier_word(graph, parts.number(i)),
        Place::Space => space_word(graph, parts.number(i)),
        Place::Value => Word::Number(parts.value(i)),
        Place::Times => Word::Fixed(b"times"),
        Place::Shared => Word::Fixed(b"shared"),
        Place::Weight => Word::Number(u64::from(parts.number(i))),
        Place::Column(..) => column_word(graph, parts.number(i)),
    }
}

/// The word of a reduction.
pub(crate) fn op_word(op: Op) -> Word
    ensures { word_text result ≡ op_word op }
{
    match op {
        Op::Sum => Word::Fixed(b"sum"),
        Op::Min => Word::Fixed(b"min"),
        Op::Max => Word::Fixed(b"max"),
    }
}
