//! The lines that say why a text or a graph is refused, or that a graph is accepted.

ghost use Rattle.std.specs.Prelude.{◌≡◌, ◌≢◌, ◌<◌, ℕ, List, Some, length};
ghost use Rattle.race_check.specs.Refusal.{NamesLines};
ghost use Rattle.race_check.specs.declared.checked.CheckRefusal.{CheckRefusal};
ghost use Rattle.graph_answers.specs.Texts.{unread_text, accepted_text, slots_text, broken_by_one, broken_by_two, unfit_text};
ghost use Rattle.realm_io.specs.Written.{Writes};

use graph_model::graph::Graph;
use graph_terms::why::Why;
use itoa::Buffer;
use race_check::checked::CheckRefusal;
use realm_io::{Sink, WriteFault};
use run_report::put_words;

/// Writes that the line of this number, counted from 1, is refused for this reason.
pub(crate) fn put_unread<K: Sink>(sink: &mut K, number: u32, why: Why) -> Result<(), WriteFault>
    ensures { Writes (K.state sink.old) (K.state sink.new) result (unread_text number why) }
{
    let mut buffer = Buffer::new();
    let digits = buffer.format(number).as_bytes();
    put_words(sink, &[b"refused", b"line", digits, why.word().as_bytes()])
}

/// Writes that a graph is accepted, with its need.
pub(crate) fn put_accepted<K: Sink>(sink: &mut K, need: u32) -> Result<(), WriteFault>
    ensures { Writes (K.state sink.old) (K.state sink.new) result (accepted_text need) }
{
    let mut buffer = Buffer::new();
    put_words(
        sink,
        &[b"accepted", b"need", buffer.format(need).as_bytes()],
    )
}

/// Writes how many slots a run needs.
pub(crate) fn put_slots<K: Sink>(sink: &mut K, need: u32) -> Result<(), WriteFault>
    ensures { Writes (K.state sink.old) (K.state sink.new) result (slots_text need) }
{
    let mut buffer = Buffer::new();
    put_words(sink, &[b"needs", buffer.format(need).as_bytes(), b"slots"])
}

/// Writes that one line breaks a rule.
fn put_one<K: Sink>(sink: &mut K, graph: &Graph, rule: &[u8], i: u32) -> Result<(), WriteFault>
    requires { i < length graph.now.lines }
    ensures { Writes (K.state sink.old) (K.state sink.new) result (broken_by_one graph.now rule.now i) }
{
    put_words(sink, &[b"refused", rule, graph.line(i).name.bytes()])
}

/// Writes that two lines break a rule.
fn put_two<K: Sink>(
    sink: &mut K,
    graph: &Graph,
    rule: &[u8],
    i: u32,
    j: u32,
) -> Result<(), WriteFault>
    requires { (i < length graph.now.lines) × (j < length graph.now.lines) }
    ensures { Writes (K.state sink.old) (K.state sink.new) result (broken_by_two graph.now rule.now i j) }
{
    put_words(
        sink,
        &[
            b"refused",
            rule,
            graph.line(i).name.bytes(),
            graph.line(j).name.bytes(),
        ],
    )
}

/// Writes which rule a graph breaks, and at which lines.
pub(crate) fn put_broken<K: Sink>(
    sink: &mut K,
    graph: &Graph,
    why: CheckRefusal,
) -> Result<(), WriteFault>
    requires a_rule { why ≢ CheckRefusal.NoMemory }
    requires lines { NamesLines graph.now why }
    ensures { (out : List ℕ) → unfit_text graph.now why ≡ Some out → Writes (K.state sink.old) (K.state sink.new) result out }
{
    match why {
        CheckRefusal::Cycle(i) => put_one(sink, graph, b"cycle", i),
        CheckRefusal::Unreleased(i) => put_one(sink, graph, b"unreleased", i),
        CheckRefusal::Section(i, j) => put_two(sink, graph, b"section", i, j),
        CheckRefusal::Descends(i, j) => put_two(sink, graph, b"descends", i, j),
        CheckRefusal::ReleaseFault(i) => put_one(sink, graph, b"release", i),
        CheckRefusal::Race(i, j) => put_two(sink, graph, b"race", i, j),
        CheckRefusal::NoMemory => Ok(()),
    }
}
