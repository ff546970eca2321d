//! The texts that are handed out. None comes where memory ran out.

ghost use Rattle.std.specs.Prelude.{◌≡◌, ◌≤◌, IfSome};
ghost use Rattle.graph_meaning.specs.Evaluation.{outcome};
ghost use Rattle.graph_words.specs.Text.{text};
ghost use Rattle.graph_answers.specs.Answer.{IsTimelineText};
ghost use Rattle.run_report.specs.Report.{FitsGraph, evaluation_report, report};

use graph_model::graph::Graph;
use graph_terms::outcome::Outcome;
use graph_writer::put_graph;
use race_check::checked::Checked;
use realm_io::TextSink;
use realm_timeline::text::put_timeline;
use realm_timeline::timeline::plan;
use run_report::put_report;
use std::alloc::Global;

/// The text of a graph.
pub fn graph_text(alloc: Global, graph: &Graph) -> Option<Vec<u8>>
    ensures { IfSome result (λ found. found.items ≡ text graph.now) }
{
    let mut sink = TextSink::new(alloc);
    match put_graph(&mut sink, graph) {
        Ok(()) => Some(sink.into_bytes()),
        Err(_) => None,
    }
}

/// The text of the report of the evaluation.
pub fn report_text(alloc: Global, graph: &Graph, found: &Outcome) -> Option<Vec<u8>>
    requires { found.now ≡ outcome graph.now found.now.trace }
    ensures { IfSome result (λ report. report.items ≡ evaluation_report graph.now) }
{
    outcome_text(alloc, graph, found)
}

/// The text of the report of an outcome.
pub fn outcome_text(alloc: Global, graph: &Graph, found: &Outcome) -> Option<Vec<u8>>
    requires { FitsGraph graph.now found.now }
    ensures { IfSome result (λ text. text.items ≡ report graph.now found.now) }
{
    let mut sink = TextSink::new(alloc);
    match put_report(&mut sink, graph, found) {
        Ok(()) => Some(sink.into_bytes()),
        Err(_) => None,
    }
}

/// The text of a plan.
pub fn plan_text(alloc: Global, checked: &Checked, processors: u32) -> Option<Vec<u8>>
    requires { (1 ≤ processors) × (processors ≤ 8) }
    ensures { IfSome result (λ found. IsTimelineText processors checked.now.graph found.items) }
{
    let Ok(timeline) = plan(alloc, checked, processors) else {
        return None;
    };
    let mut sink = TextSink::new(alloc);
    match put_timeline(&mut sink, checked.graph(), &timeline) {
        Ok(()) => Some(sink.into_bytes()),
        Err(_) => None,
    }
}
