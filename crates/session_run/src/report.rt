//! The report of a session whose graphs have all run.

ghost use Rattle.std.specs.Prelude.{◌≡◌, ◌<◌, ◌∷◌, [], length, codes, Some, slice_get, map, flat_map, Contains};
ghost use Rattle.graph_terms.specs.Spelling.{spelled};
ghost use Rattle.graph_terms.specs.declared.outcome.End.{End as TheEnd};
ghost use Rattle.graph_meaning.specs.Evaluation.{answer_of};
ghost use Rattle.realm_io.specs.Written.{Writes};
ghost use Rattle.realm_session.specs.Recorded.{answer_for};
ghost use Rattle.session_run.specs.declared.running.RanGraph.{RanGraph as TheGraph};
ghost use Rattle.session_run.specs.Ended.{IsEnded};
ghost use Rattle.session_run.specs.Running.{linked_of, IsOutcome};
ghost use Rattle.run_report.specs.Report.{answer_word};
ghost use Rattle.session_run.specs.Report.{graph_report, event_text, event_texts, session_report};

use crate::{Ended, RanGraph};
use realm_io::{Sink, WriteFault, put_bytes};
use realm_session::Answer;
use run_report::{put_evaluation, put_words};

/// Writes the report of a session: for each graph its name and its report, then a line for the event of
/// each of its lines, with what it answers. After a fault the sink has taken a prefix of it.
pub fn put_session<K: Sink>(sink: &mut K, ended: &Ended) -> Result<(), WriteFault>
    requires ended { IsEnded ended.now }
    ensures { Writes (K.state sink.old) (K.state sink.new) result (session_report (map linked_of ended.now.graphs.items)) }
{
    put_graphs(sink, ended.graphs.as_slice())?;
    put_events(sink, ended)?;
    put_bytes(sink, b"done\n")
}

/// Writes the name and the report of each graph.
fn put_graphs<K: Sink>(sink: &mut K, graphs: &[RanGraph]) -> Result<(), WriteFault>
    requires outcomes { (x : TheGraph) → Contains graphs.now x → IsOutcome x.checked.graph x.outcome }
    ensures { Writes (K.state sink.old) (K.state sink.new) result (flat_map (λ (x : TheGraph). graph_report (linked_of x)) graphs.now) }
{
    for ran in graphs {
        put_graph(sink, ran)?;
    }
    Ok(())
}

/// Writes the name and the report of a graph.
fn put_graph<K: Sink>(sink: &mut K, ran: &RanGraph) -> Result<(), WriteFault>
    requires outcome { IsOutcome ran.now.checked.graph ran.now.outcome }
    ensures { Writes (K.state sink.old) (K.state sink.new) result (graph_report (linked_of ran.now)) }
{
    put_words(sink, &[b"graph", ran.name.bytes()])?;
    put_evaluation(sink, ran.checked.graph(), &ran.outcome)
}

/// Writes what the events of all graphs answer.
fn put_events<K: Sink>(sink: &mut K, ended: &Ended) -> Result<(), WriteFault>
    requires ended { IsEnded ended.now }
    ensures { Writes (K.state sink.old) (K.state sink.new) result
        (flat_map (λ (x : TheGraph). event_texts (linked_of x)) ended.now.graphs.items) }
{
    for (place, ran) in ended.graphs.iter().enumerate() {
        put_graph_events(sink, ended, place as u32, ran)?;
    }
    Ok(())
}

/// Writes what the events of the graph at this place answer.
fn put_graph_events<K: Sink>(
    sink: &mut K,
    ended: &Ended,
    place: u32,
    ran: &RanGraph,
) -> Result<(), WriteFault>
    requires ended { IsEnded ended.now }
    requires at { slice_get ended.now.graphs.items place ≡ Some ran.now }
    ensures { Writes (K.state sink.old) (K.state sink.new) result (event_texts (linked_of ran.now)) }
{
    for line in 0..ran.checked.graph().lines() {
        put_event(sink, ended, place, ran, line)?;
    }
    Ok(())
}

/// Writes what the event of a line answers, of the graph at this place.
fn put_event<K: Sink>(
    sink: &mut K,
    ended: &Ended,
    place: u32,
    ran: &RanGraph,
    line: u32,
) -> Result<(), WriteFault>
    requires ended { IsEnded ended.now }
    requires at { slice_get ended.now.graphs.items place ≡ Some ran.now }
    requires line { line < length ran.now.checked.graph.lines }
    ensures { Writes (K.state sink.old) (K.state sink.new) result (event_text (linked_of ran.now) line) }
{
    let graph = ran.checked.graph();
    put_event_line(
        sink,
        ran.name.bytes(),
        graph.line(line).name.bytes(),
        event_word(ended.event(place, line)),
    )
}

/// Writes the line of an event, by the names of its graph and its line and the word of its answer.
fn put_event_line<'a, K: Sink>(
    sink: &mut K,
    graph: &'a [u8],
    line: &'a [u8],
    answer: &'a [u8],
) -> Result<(), WriteFault>
    ensures { Writes (K.state sink.old) (K.state sink.new) result (spelled (codes "event" ∷ graph.now ∷ line.now ∷ answer.now ∷ [])) }
{
    put_words(sink, &[b"event", graph, line, answer])
}

/// The word for what an event answers.
fn event_word(answer: Answer) -> &'static [u8]
    ensures { (end : TheEnd) → answer ≡ answer_for end → result.now ≡ answer_word (answer_of end) }
{
    match answer {
        Answer::Triggered => b"triggered",
        Answer::Poisoned => b"poisoned",
        Answer::Pending => b"pending",
    }
}
