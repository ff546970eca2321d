//! The text of a graph, in memory.

ghost use Rattle.std.specs.Prelude.{◌≡◌, IfOk};
ghost use Rattle.graph_words.specs.Text.{text};

use graph_model::graph::Graph;
use graph_terms::format::Format;
use graph_terms::limits::{MAX_TEXT, MAX_TEXT_OF_THREE};
use graph_writer::put_graph;
use index_spaces::NoMemory;
use index_spaces::room::with_room;
use realm_io::TextSink;
use std::alloc::Global;

// The most bytes of a graph's text in formats 1 and 2, with its closing line.
const ROOM: usize = MAX_TEXT as usize + 4;

// The same in format 3.
const ROOM_OF_THREE: usize = MAX_TEXT_OF_THREE as usize + 4;

/// The most bytes of a graph's text in a format, with its closing line.
fn room(format: Format) -> usize {
    match format {
        Format::One | Format::Two => ROOM,
        Format::Three => ROOM_OF_THREE,
    }
}

/// The text of a graph.
pub(crate) fn graph_text(alloc: Global, graph: &Graph) -> Result<Vec<u8>, NoMemory>
    ensures { IfOk result (λ v. v.items ≡ text graph.now) }
{
    let mut sink = TextSink::with_bytes(with_room(alloc, room(graph.format()))?);
    if put_graph(&mut sink, graph).is_err() {
        return Err(NoMemory);
    }
    Ok(sink.into_bytes())
}
