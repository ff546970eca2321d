//! What is answered by the text of a graph: `upgrade` reads one, and writes it in a later format.

ghost use Rattle.std.specs.Prelude.{◌≡◌, ◌≤◌, length};
ghost use Rattle.graph_words.specs.Limits.{text_limit};
ghost use Rattle.graph_words.specs.Text.{text};
ghost use Rattle.graph_answers.specs.Delivered.{Delivers, IsAnswered};
ghost use Rattle.graph_answers.specs.UpgradeAnswer.{upgrade_of, UpgradeAnswers};

use crate::refusing::refuse;
use crate::status::Status;
use graph_model::graph::Graph;
use graph_reader::read_graph;
use graph_writer::put_graph;
use program_io::flush;
use realm_io::Sink;
use std::alloc::Global;

/// Reads the graph whose text the bytes are, and writes its text in format 3 where that is asked for; else in format 2,
/// or in format 3 where it has that.
pub fn answer_upgrade<K: Sink>(alloc: Global, bytes: &[u8], to_three: bool, sink: &mut K) -> Status
    requires short { length bytes.now ≤ text_limit bytes.now }
    ensures answered { IsAnswered (UpgradeAnswers to_three bytes.now) (K.state sink.old) (K.state sink.new) result }
    ensures no_memory { result ≡ Status.NoMemory → sink.new ≡ sink.old }
{
    match read_graph(alloc, bytes) {
        Ok(graph) => {
            let later = upgraded(graph, to_three);
            put_graph_text(sink, &later)
        }
        Err(refusal) => refuse(sink, refusal),
    }
}

/// The graph in format 3 where that is asked for; else in format 2, or in format 3 where it has that.
pub fn upgraded(graph: Graph, to_three: bool) -> Graph
    ensures { result ≡ upgrade_of to_three graph }
{
    if to_three {
        graph.write_in_three()
    } else {
        graph.upgrade()
    }
}

/// Writes the text of a graph, and flushes it.
pub fn put_graph_text<K: Sink>(sink: &mut K, graph: &Graph) -> Status
    ensures { Delivers (K.state sink.old) (K.state sink.new) Status.Done result (text graph.now) }
{
    match put_graph(sink, graph) {
        Ok(()) => flush(sink, Status::Done),
        Err(_) => Status::WriteFault,
    }
}
