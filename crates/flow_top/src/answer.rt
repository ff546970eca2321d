//! From the text of a flow to that of its graph.

ghost use Rattle.std.specs.Prelude.{◌≡◌, ◌+◌, ◌<◌, ◌^◌, IfOk, IfErr, length, nat_lt};
ghost use Rattle.graph_terms.specs.Limits.{limits};
ghost use Rattle.graph_terms.specs.Graph.{written_in};
ghost use Rattle.graph_terms.specs.Fits.{IsGraph};
ghost use Rattle.graph_words.specs.Text.{GraphText};
ghost use Rattle.flow_order.specs.Flow.{IsFlow};
ghost use Rattle.flow_top.specs.Answer.{IsFlowAnswer, IsAnswerFault, AnswersFlow, IsTooLong, IsFaultOfFlow};

use crate::FlowFault;
use crate::reading::read_flow;
use crate::writing::graph_text;
use graph_model::graph::Graph;
use graph_terms::format::Format;
use graph_terms::limits::Limits;
use graph_terms::why::Why;
use std::alloc::Global;
use task_flow::{FlowRefusal, make_graph};

/// The text of the graph, in a format, of the flow whose text the bytes are; `commute` says whether
/// sums into one cell may go in either order. `Line` comes where the bytes are no flow's text; with `Limit` also
/// where the graph passes a limit, at the line of the flow with which it does, and where only its
/// closing line makes the graph's text too long, at the closing line of the flow.
pub fn answer_flow(
    alloc: Global,
    bytes: &[u8],
    commute: bool,
    format: Format,
) -> Result<Vec<u8>, FlowFault>
    ensures answer { IfOk result (λ v. IsFlowAnswer bytes.now commute format v.items) }
    ensures refusal { IfErr result (λ e. IsAnswerFault bytes.now commute format e) }
{
    match read_flow(alloc, bytes) {
        Ok(flow) => {
            let later = in_format(flow, format);
            let _ = later.lines();
            answer_read(alloc, &later, commute)
        }
        Err(fault) => Err(fault),
    }
}

/// A flow of format 1 in a format.
fn in_format(flow: Graph, format: Format) -> Graph
    requires { flow.format ≡ Format.One }
    ensures { result ≡ written_in format flow }
{
    match format {
        Format::One => flow,
        Format::Two => flow.upgrade(),
        Format::Three => flow.write_in_three(),
    }
}

/// The text of the graph of a flow, in the flow's format. `Line` comes where the graph passes a limit, as in `answer_flow`.
pub fn answer_read(alloc: Global, flow: &Graph, commute: bool) -> Result<Vec<u8>, FlowFault>
    requires flow { IsFlow flow.now }
    requires few { length flow.now.decls + length flow.now.lines + 2 < 2 ^ 32 }
    ensures answer { IfOk result (λ v. AnswersFlow flow.now commute v.items) }
    ensures refusal { IfErr result (λ e. IsFaultOfFlow flow.now commute e) }
{
    match make_graph(alloc, flow, commute) {
        Ok(graph) => text_within(alloc, &graph, number_in_text(flow.decls(), flow.lines())),
        Err(FlowRefusal::Limit { line }) => Err(at_limit(number_in_text(flow.decls(), line))),
        Err(FlowRefusal::NoMemory) => Err(FlowFault::NoMemory),
    }
}

/// The text of a graph. Where it is too long the line of this number is refused, with which it ends.
fn text_within(alloc: Global, graph: &Graph, end: u32) -> Result<Vec<u8>, FlowFault>
    requires { IsGraph graph.now }
    ensures text { IfOk result (λ v. GraphText v.items graph.now) }
    ensures refusal { IfErr result (IsTooLong graph.now end) }
{
    let text = graph_text(alloc, graph)?;
    if is_too_long(graph.format(), text.as_slice()) {
        return Err(at_limit(end));
    }
    Ok(text)
}

/// A limit is passed with the line of this number.
fn at_limit(number: u32) -> FlowFault
    ensures { result ≡ FlowFault.Line number Why.Limit }
{
    FlowFault::Line {
        number,
        why: Why::Limit,
    }
}

/// The number in the text, from 1, of the line of this number below so many declarations, from 0.
fn number_in_text(decls: u32, line: u32) -> u32
    requires { decls + line + 2 < 2 ^ 32 }
    ensures { result ≡ decls + line + 2 }
{
    decls + line + 2
}

/// Whether the text of a graph of a format may not be so long.
fn is_too_long(format: Format, text: &[u8]) -> bool
    ensures { result ≡ nat_lt (limits format).text (length text.now) }
{
    text.len() as u64 > Limits::of(format).text
}
