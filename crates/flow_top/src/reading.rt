//! Reading a flow from its text.

ghost use Rattle.std.specs.Prelude.{◌≡◌, ◌<◌, ◌++◌, ℕ, length, None, Some, slice_get, IfOk, IfErr, MatchOption, ◌==◌, ◌&&◌};
ghost use Rattle.graph_terms.specs.Graph.{GraphValue};
ghost use Rattle.graph_terms.specs.Spelling.{header};
ghost use Rattle.graph_terms.specs.declared.format.Format.TheVariants.{One};
ghost use Rattle.flow_order.specs.Flow.{uses_columns};
ghost use Rattle.flow_top.specs.FlowText.{flow_header, HasNoFlowHeader, FlowText, AreFlowLines, IsFirstOther, IsFirstUnlikeFlow, IsReadFault, is_flow_line, judged_lines, IsTextReading, IsGraphReading, IsFlowReading};
ghost use Rattle.graph_reader.specs.Reading.{IsUnreadBy};

use crate::FlowFault;
use crate::unlike_flow::is_line_unlike_flow;
use graph_model::graph::Graph;
use graph_reader::{Reading, Unread, read_text};
use graph_terms::verb::{Line, Verb};
use graph_terms::why::Why;
use graph_words::words::{split, word};
use index_spaces::NoMemory;
use std::alloc::Global;

/// What bytes are read as.
#[derive(Drop)]
pub enum FlowReading {
    /// They are the text of this flow.
    Flow(Graph),
    /// They begin with another line than the text of a flow.
    Header,
    /// This line, counted from 1, has the form of one that graphs have and flows have not.
    Other { number: u32 },
    /// The text of a graph with the same items is refused.
    Refused(Unread),
}

/// What bytes are read as. The lines of a graph's text that are refused are numbered as those of the bytes.
pub fn flow_reading(alloc: Global, bytes: &[u8]) -> Result<FlowReading, NoMemory>
    ensures { IfOk result (IsFlowReading bytes.now) }
{
    let Some(rest) = behind_header(bytes) else {
        return Ok(FlowReading::Header);
    };
    let text = as_graph_text(alloc, rest)?;
    text_reading(alloc, text.as_slice())
}

/// What the text of a graph is read as.
fn text_reading(alloc: Global, text: &[u8]) -> Result<FlowReading, NoMemory>
    ensures { IfOk result (IsTextReading text.now) }
{
    match read_text(alloc, text)? {
        Reading::Graph(graph) => Ok(graph_reading(graph)),
        Reading::Refused(unread) => refused_reading(alloc, text, unread),
    }
}

/// What the text of this graph is read as.
fn graph_reading(graph: Graph) -> FlowReading
    ensures { IsGraphReading graph result }
{
    match first_other(&graph) {
        None => FlowReading::Flow(graph),
        Some(line) => FlowReading::Other {
            number: graph.decls() + line + 2,
        },
    }
}

/// What a text is read as that is refused so as that of a graph.
fn refused_reading(alloc: Global, text: &[u8], unread: Unread) -> Result<FlowReading, NoMemory>
    requires { IsUnreadBy text.now unread.number unread.why unread.above }
    ensures { IfOk result (IsTextReading text.now) }
{
    match first_unlike_flow(alloc, text, judged_lines(unread.number, unread.why))? {
        Some(line) => Ok(FlowReading::Other { number: line + 1 }),
        None => Ok(FlowReading::Refused(unread)),
    }
}

/// The flow whose text the bytes are. Where they are no flow's text: the first line that a flow has
/// not, with `Syntax`, or that would be refused in the text of a graph with these items.
pub fn read_flow(alloc: Global, bytes: &[u8]) -> Result<Graph, FlowFault>
    ensures text { IfOk result (λ f. FlowText bytes.now f) }
    ensures refusal { IfErr result (λ e. IsReadFault bytes.now e) }
{
    match flow_reading(alloc, bytes) {
        Ok(FlowReading::Flow(flow)) => Ok(flow),
        Ok(FlowReading::Header) => Err(refused(1, Why::Header)),
        Ok(FlowReading::Other { number }) => Err(refused(number, Why::Syntax)),
        Ok(FlowReading::Refused(Unread { number, why, .. })) => Err(refused(number, why)),
        Err(NoMemory) => Err(FlowFault::NoMemory),
    }
}

/// A line is refused.
fn refused(number: u32, why: Why) -> FlowFault
    ensures { result ≡ FlowFault.Line number why }
{
    FlowFault::Line { number, why }
}

/// The bytes behind the first line of a flow's text. `None` exactly where they begin with another.
fn behind_header(bytes: &[u8]) -> Option<&[u8]>
    ensures { MatchOption result (HasNoFlowHeader bytes.now) (λ rest. bytes.now ≡ flow_header ++ rest.now) }
{
    bytes.strip_prefix(b"realm-flow 1\n".as_slice())
}

/// The same items as a graph's text has them.
fn as_graph_text(alloc: Global, rest: &[u8]) -> Result<Vec<u8>, NoMemory>
    ensures { IfOk result (λ text. text.items ≡ header One ++ rest.now) }
{
    let mut text = Vec::new(alloc);
    if text.extend_from_slice(b"realm 1\n").is_err() {
        return Err(NoMemory);
    }
    if text.extend_from_slice(rest).is_err() {
        return Err(NoMemory);
    }
    Ok(text)
}

/// How many lines are judged by their words: bytes behind the last newline or the closing line are
/// refused for standing there, whatever their words.
fn judged_lines(number: u32, why: Why) -> u32
    ensures { result ≡ judged_lines number why }
{
    match why {
        Why::Missing | Why::Rest => number.saturating_sub(1),
        _ => number,
    }
}

/// The first of so many lines whose words have a form that no flow has, from 0.
fn first_unlike_flow(alloc: Global, text: &[u8], number: u32) -> Result<Option<u32>, NoMemory>
    ensures { IfOk result (IsFirstUnlikeFlow text.now number) }
{
    let lines = split(alloc, text, b'\n')?;
    for line in 0..number {
        if is_line_unlike_flow(alloc, word(lines.as_slice(), line as usize))? {
            return Ok(Some(line));
        }
    }
    Ok(None)
}

/// The first line that a flow has not.
fn first_other(graph: &Graph) -> Option<u32>
    ensures { MatchOption result (AreFlowLines graph.now) (IsFirstOther graph.now) }
{
    for line in 0..graph.lines() {
        if !is_flow_line(graph.line(line)) {
            return Some(line);
        }
    }
    None
}

/// Whether a line uses columns and waits for nothing.
fn is_flow_line(line: &Line) -> bool
    ensures { result ≡ is_flow_line line.now }
{
    uses_columns(&line.verb) && line.on.len() == 0
}

fn uses_columns(verb: &Verb) -> bool
    ensures { result ≡ uses_columns verb.now }
{
    matches!(
        verb,
        Verb::Fill { .. } | Verb::Copy { .. } | Verb::Reduce { .. } | Verb::Task { .. }
    )
}
