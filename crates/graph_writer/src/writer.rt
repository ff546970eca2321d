//! Writing the text of a graph.

ghost use Rattle.basics.specs.Words.{contents};
ghost use Rattle.std.specs.Prelude.{◌≡◌, ◌≤◌, [], ◌∷◌, ◌++◌, flat_map, map, length, codes, decimal, OnOk, OnErr};
ghost use Rattle.realm_io.specs.Counts.{Rose};
ghost use Rattle.realm_io.specs.Told.{with_more, TookPrefix};
ghost use Rattle.graph_terms.specs.Spelling.{header, spelled, space_name, interval_word, verb_words, on_words, line_words, decl_words, line_name};
ghost use Rattle.graph_words.specs.Text.{text, row_words};
ghost use Rattle.realm_io.specs.Written.{Writes};
ghost use Rattle.graph_writer.specs.WrittenWords.{word_text, spaced, part_text, comma_before, comma_from};

use crate::calls::put_call;
use crate::word_kinds::{Word, line_word, op_word, part_word, put_behind, put_spaced, space_word};
use graph_model::graph::Graph;
use graph_terms::decl::Decl;
use graph_terms::format::Format;
use graph_terms::lists::{EventList, NameList};
use graph_terms::name::Name;
use graph_terms::table::{Parts, Place};
use graph_terms::verb::{Line, Verb};
use graph_words::words::word;
use index_spaces::space::Space;
use realm_io::{Sink, WriteFault, put_bytes};

/// Writes fixed words, each behind a space.
fn put_fixed<K: Sink>(sink: &mut K, words: &'static [&'static [u8]]) -> Result<(), WriteFault>
    ensures { Writes (K.state sink.old) (K.state sink.new) result (spaced (contents words.now)) }
{
    for i in 0..words.len() {
        put_behind(sink, b" ", &Word::Fixed(word(words, i)))?;
    }
    Ok(())
}

/// Writes what stands in places, each word behind a space.
fn put_places<K: Sink>(
    sink: &mut K,
    graph: &Graph,
    places: &[Place],
    parts: &Parts,
) -> Result<(), WriteFault>
    ensures { Writes (K.state sink.old) (K.state sink.new) result (part_text graph.now 0 places.now parts.now) }
{
    for i in 0..places.len() {
        put_behind(sink, b" ", &part_word(graph, places[i], parts, i))?;
    }
    Ok(())
}

/// Writes the words of a verb by its row, each behind a space. A merge or a call has none.
fn put_placed<K: Sink>(sink: &mut K, graph: &Graph, verb: &Verb) -> Result<(), WriteFault>
    ensures { Writes (K.state sink.old) (K.state sink.new) result (spaced (row_words graph.now verb.now)) }
{
    let Some(kind) = verb.kind() else {
        return Ok(());
    };
    put_fixed(sink, kind.words())?;
    put_places(sink, graph, kind.places(), &verb.parts())
}

/// Writes the names of lines, each behind a space.
fn put_events<K: Sink>(sink: &mut K, graph: &Graph, events: &[u32]) -> Result<(), WriteFault>
    ensures { Writes (K.state sink.old) (K.state sink.new) result (flat_map (λ n. 32 ∷ line_name graph.now n) events.now) }
{
    for event in events {
        put_behind(sink, b" ", &line_word(graph, *event))?;
    }
    Ok(())
}

/// Writes a word and the names of lines, each behind a space.
fn put_before_events<K: Sink>(
    sink: &mut K,
    graph: &Graph,
    first: &'static [u8],
    events: &[u32],
) -> Result<(), WriteFault>
    ensures { Writes (K.state sink.old) (K.state sink.new) result (spaced (first.now ∷ map (line_name graph.now) events.now)) }
{
    put_behind(sink, b" ", &Word::Fixed(first))?;
    put_events(sink, graph, events)
}

/// Writes the words of a verb, each behind a space.
fn put_verb<K: Sink>(sink: &mut K, graph: &Graph, verb: &Verb) -> Result<(), WriteFault>
    ensures { Writes (K.state sink.old) (K.state sink.new) result (spaced (verb_words graph.now verb.now)) }
{
    match verb {
        Verb::Merge { events } => {
            put_before_events(sink, graph, b"merge", events.items.as_slice())
        }
        Verb::MergeIgnore { events } => {
            put_before_events(sink, graph, b"mergei", events.items.as_slice())
        }
        Verb::Call { call } => put_call(sink, graph, call),
        _ => put_placed(sink, graph, verb),
    }
}

/// Writes the words of a precondition, each behind a space, or nothing.
fn put_on<K: Sink>(sink: &mut K, graph: &Graph, on: &EventList) -> Result<(), WriteFault>
    ensures { Writes (K.state sink.old) (K.state sink.new) result (spaced (on_words graph.now on.now)) }
{
    if on.len() == 0 {
        return put_bytes(sink, b"");
    }
    put_before_events(sink, graph, b"on", on.as_slice())
}

/// Writes an operation line.
fn put_line<K: Sink>(sink: &mut K, graph: &Graph, line: &Line) -> Result<(), WriteFault>
    ensures { Writes (K.state sink.old) (K.state sink.new) result (spelled (line_words graph.now line.now)) }
{
    put_bytes(sink, line.name.bytes())?;
    put_bytes(sink, b" =")?;
    put_verb(sink, graph, &line.verb)?;
    put_on(sink, graph, &line.on)?;
    put_bytes(sink, b"\n")
}

/// What stands before the item of this number in a list with commas.
fn comma(i: usize) -> &'static [u8]
    ensures { result.now ≡ comma_before i }
{
    if i == 0 { b"" } else { b"," }
}

/// Writes intervals with a comma between each two.
fn put_intervals<K: Sink>(sink: &mut K, intervals: &[(u32, u32)]) -> Result<(), WriteFault>
    ensures { Writes (K.state sink.old) (K.state sink.new) result (comma_from interval_word 0 intervals.now) }
{
    for i in 0..intervals.len() {
        let interval = Word::Interval(intervals[i].0, intervals[i].1);
        put_behind(sink, comma(i), &interval)?;
    }
    Ok(())
}

/// Writes names with a comma between each two.
fn put_fields<K: Sink>(sink: &mut K, fields: &NameList) -> Result<(), WriteFault>
    ensures { Writes (K.state sink.old) (K.state sink.new) result (comma_from (λ w. w) 0 fields.now) }
{
    for i in 0..fields.len() {
        let field = Word::Name(fields.at(i));
        put_behind(sink, comma(i as usize), &field)?;
    }
    Ok(())
}

/// Writes a word, words behind a space each, and what comes last.
fn put_plain<K: Sink>(
    sink: &mut K,
    first: &'static [u8],
    words: &[Word],
    last: &'static [u8],
) -> Result<(), WriteFault>
    ensures { Writes (K.state sink.old) (K.state sink.new) result (first.now ++ (flat_map (λ w. 32 ∷ word_text w) words.now ++ last.now)) }
{
    put_bytes(sink, first)?;
    put_spaced(sink, words)?;
    put_bytes(sink, last)
}

/// Writes the line of a space.
fn put_space<K: Sink>(sink: &mut K, name: &Name, space: &Space) -> Result<(), WriteFault>
    ensures { Writes (K.state sink.old) (K.state sink.new) result
        (codes "space " ++ (name.now ++ (32 ∷ (comma_from interval_word 0 space.now ++ 10 ∷ [])))) }
{
    put_plain(sink, b"space", &[Word::Name(*name)], b" ")?;
    put_intervals(sink, space.intervals())?;
    put_bytes(sink, b"\n")
}

/// Writes the line of an instance or of data, by its first word.
fn put_columns<K: Sink>(
    sink: &mut K,
    graph: &Graph,
    first: &'static [u8],
    name: &Name,
    space: u32,
    fields: &NameList,
) -> Result<(), WriteFault>
    ensures { Writes (K.state sink.old) (K.state sink.new) result
        (first.now ++ (32 ∷ (name.now ++ (32 ∷ (space_name graph.now space ++ (32 ∷ (comma_from (λ w. w) 0 fields.now ++ 10 ∷ []))))))) }
{
    put_plain(
        sink,
        first,
        &[Word::Name(*name), space_word(graph, space)],
        b" ",
    )?;
    put_fields(sink, fields)?;
    put_bytes(sink, b"\n")
}

/// Writes the line of a declaration.
fn put_decl<K: Sink>(sink: &mut K, graph: &Graph, decl: &Decl) -> Result<(), WriteFault>
    ensures { Writes (K.state sink.old) (K.state sink.new) result (spelled (decl_words graph.now decl.now)) }
{
    match decl {
        Decl::Space { name, space } => put_space(sink, name, space),
        Decl::Inst {
            name,
            space,
            fields,
        } => put_columns(sink, graph, b"inst", name, *space, fields),
        Decl::Data {
            name,
            space,
            fields,
        } => put_columns(sink, graph, b"data", name, *space, fields),
        Decl::Lock { name } => put_plain(sink, b"lock", &[Word::Name(*name)], b"\n"),
        Decl::Barrier {
            name,
            count,
            op,
            first,
        } => put_plain(
            sink,
            b"barrier",
            &[
                Word::Name(*name),
                Word::Number(u64::from(*count)),
                op_word(*op),
                Word::Number(*first),
            ],
            b"\n",
        ),
    }
}

/// Writes the lines of the declarations.
fn put_decls<K: Sink>(sink: &mut K, graph: &Graph) -> Result<(), WriteFault>
    ensures { Writes (K.state sink.old) (K.state sink.new) result (flat_map (λ d. spelled (decl_words graph.now d)) graph.now.decls) }
{
    for d in 0..graph.decls() {
        put_decl(sink, graph, graph.decl(d))?;
    }
    Ok(())
}

/// Writes the operation lines.
fn put_lines<K: Sink>(sink: &mut K, graph: &Graph) -> Result<(), WriteFault>
    ensures { Writes (K.state sink.old) (K.state sink.new) result (flat_map (λ l. spelled (line_words graph.now l)) graph.now.lines) }
{
    for i in 0..graph.lines() {
        put_line(sink, graph, graph.line(i))?;
    }
    Ok(())
}

/// The first line of a text.
fn header(format: Format) -> &'static [u8]
    ensures { result.now ≡ header format }
{
    match format {
        Format::One => b"realm 1\n",
        Format::Two => b"realm 2\n",
        Format::Three => b"realm 3\n",
    }
}

/// Writes the parts of the text.
fn put_parts<K: Sink>(sink: &mut K, graph: &Graph) -> Result<(), WriteFault>
    ensures { Writes (K.state sink.old) (K.state sink.new) result (text graph.now) }
{
    let _ = graph.decls();
    put_bytes(sink, header(graph.format()))?;
    put_decls(sink, graph)?;
    put_lines(sink, graph)?;
    put_bytes(sink, b"end\n")
}

/// Writes the one text of a graph. After a fault the sink has taken a prefix of it. It takes no
/// memory.
pub fn put_graph<K: Sink>(sink: &mut K, graph: &Graph) -> Result<(), WriteFault>
    ensures ok { OnOk result ((K.state sink.new).taken ≡ with_more (K.state sink.old).taken (text graph.now)) }
    ensures fault { OnErr result (Rose (K.state sink.old).faults (K.state sink.new).faults) }
    ensures took { OnErr result (TookPrefix (K.state sink.old).taken (K.state sink.new).taken (text graph.now)) }
    ensures flushed { (K.state sink.new).flushed ≡ (K.state sink.old).flushed }
    ensures count { (K.state sink.old).faults ≤ (K.state sink.new).faults }
{
    put_parts(sink, graph)
}
