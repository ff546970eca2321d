//! The answer to the bytes of an input, which is the text of a flow where it begins so.

ghost use Rattle.std.specs.Prelude.{◌≡◌, ◌++◌, IfOk, OnOk};
ghost use Rattle.basics.specs.Words.{contents};
ghost use Rattle.graph_words.specs.Words.{pieces};
ghost use Rattle.flow_top.specs.FlowText.{FlowText, IsFlowReading, has_event_verb};
ghost use Rattle.explain_top.specs.Flows.{flow_text, over_text, other_rule, other_told, other_text, flow_rule, IsFlowWhole, IsFlowAnswerIn, IsInputAnswer};

use crate::answer::{Answer, Verdict, as_told, explain_in, most_bytes, unread_text};
use explain_text::{Text, line_at, put_mark, put_unread, split_lines};
use flow_top::{FlowFault, FlowReading, answer_read, flow_reading, has_event_verb, other_word};
use graph_model::graph::Graph;
use graph_reader::Unread;
use graph_terms::why::Why;
use graph_words::words::split;
use index_spaces::NoMemory;
use std::alloc::Global;

/// Of an input that begins as a flow what `realm-flow` says of it and why, of any other as `explain_in`.
/// Of a flow that it writes the graph of, in format 1 and with sums in order, its numbers of lines.
pub fn explain_input(alloc: Global, bytes: &[u8], ends: bool, all: bool) -> Result<Answer, NoMemory>
    ensures { IfOk result (λ a. IsInputAnswer ends all bytes.now a.verdict a.text) }
{
    match flow_reading(alloc, bytes)? {
        FlowReading::Header => explain_in(alloc, bytes, ends, all),
        FlowReading::Flow(flow) => {
            let accepted = answer_flow(alloc, bytes, &flow, all)?;
            tell(alloc, bytes, &accepted, all)
        }
        FlowReading::Other { number } => {
            let other = answer_other(alloc, bytes, number)?;
            tell(alloc, bytes, &other, all)
        }
        FlowReading::Refused(unread) => {
            let refused = answer_refused(alloc, bytes, &unread, all)?;
            tell(alloc, bytes, &refused, all)
        }
    }
}

/// The answer to a flow as it is told.
fn tell(alloc: Global, bytes: &[u8], whole: &Answer, all: bool) -> Result<Answer, NoMemory>
    requires { IsFlowWhole all bytes.now whole.now.verdict whole.now.text }
    ensures { IfOk result (λ a. IsFlowAnswerIn all bytes.now a.verdict a.text) }
{
    let _bytes = bytes;
    as_told(alloc, whole, most_bytes(all))
}

/// The answer to the text of a flow.
fn answer_flow(alloc: Global, bytes: &[u8], flow: &Graph, all: bool) -> Result<Answer, NoMemory>
    requires { FlowText bytes.now flow.now }
    ensures { IfOk result (λ a. IsFlowWhole all bytes.now a.verdict a.text) }
{
    let _all = all;
    match answer_read(alloc, flow, false) {
        Ok(_text) => answer_accepted(alloc, flow),
        Err(FlowFault::Line { number, .. }) => answer_over(alloc, bytes, number),
        Err(FlowFault::NoMemory) => Err(NoMemory),
    }
}

/// The answer to a flow that has a graph.
fn answer_accepted(alloc: Global, flow: &Graph) -> Result<Answer, NoMemory>
    ensures verdict { IfOk result (λ a. a.verdict ≡ Verdict.Accepted) }
    ensures text { IfOk result (λ a. a.text ≡ flow_text flow.now) }
{
    let mut text = Text::new(alloc);
    put_flow(&mut text, flow)?;
    Ok(Answer {
        verdict: Verdict::Accepted,
        text,
    })
}

/// Puts that a flow has a graph, and how many lines the flow has.
fn put_flow(text: &mut Text, flow: &Graph) -> Result<(), NoMemory>
    ensures { OnOk result (text.new ≡ text.old ++ flow_text flow.now) }
{
    text.put(b"accepted flow\ndeclarations: ")?;
    text.put_number(u64::from(flow.decls()))?;
    text.put(b", operations: ")?;
    text.put_number(u64::from(flow.lines()))?;
    text.put(
        b"\nrealm-flow writes its graph; to see what that needs: realm-flow FLOW | realm-explain\n",
    )
}

/// The answer to a flow of which the graph passes a limit with this line.
fn answer_over(alloc: Global, bytes: &[u8], number: u32) -> Result<Answer, NoMemory>
    ensures verdict { IfOk result (λ a. a.verdict ≡ Verdict.Unread) }
    ensures text { IfOk result (λ a. a.text ≡ over_text (pieces 10 bytes.now) number) }
{
    let lines = split_lines(alloc, bytes)?;
    let mut text = Text::new(alloc);
    put_over(&mut text, lines.as_slice(), number)?;
    Ok(Answer {
        verdict: Verdict::Unread,
        text,
    })
}

/// Puts a line with which the graph of a flow passes a limit.
fn put_over(text: &mut Text, lines: &[&[u8]], number: u32) -> Result<(), NoMemory>
    ensures { OnOk result (text.new ≡ text.old ++ over_text (contents lines.now) number) }
{
    put_unread(text, lines, number, Why::Limit)?;
    text.put(
        b"up to this line the graph of the flow passes a limit of format 1: realm-flow --format 3 writes it with the limits of format 3\n",
    )
}

/// The answer to a text with a line that flows have not.
fn answer_other(alloc: Global, bytes: &[u8], number: u32) -> Result<Answer, NoMemory>
    ensures verdict { IfOk result (λ a. a.verdict ≡ Verdict.Unread) }
    ensures text { IfOk result (λ a. a.text ≡ other_text (pieces 10 bytes.now) number) }
{
    let lines = split_lines(alloc, bytes)?;
    let mut text = Text::new(alloc);
    put_other_line(alloc, &mut text, lines.as_slice(), number)?;
    Ok(Answer {
        verdict: Verdict::Unread,
        text,
    })
}

/// Puts a line that flows have not.
fn put_other_line(
    alloc: Global,
    text: &mut Text,
    lines: &[&[u8]],
    number: u32,
) -> Result<(), NoMemory>
    ensures { OnOk result (text.new ≡ text.old ++ other_text (contents lines.now) number) }
{
    put_unread(text, lines, number, Why::Syntax)?;
    let line = line_at(lines, number);
    put_other(alloc, text, number, line)
}

/// Puts the word for which flows have no such line, and the rule.
fn put_other(alloc: Global, text: &mut Text, number: u32, line: &[u8]) -> Result<(), NoMemory>
    ensures { OnOk result (text.new ≡ text.old ++ other_told number line.now (pieces 32 line.now)) }
{
    let words = split(alloc, line, b' ')?;
    put_marked(text, number, line, words.as_slice())
}

/// The same by the words of the line.
fn put_marked(text: &mut Text, number: u32, line: &[u8], words: &[&[u8]]) -> Result<(), NoMemory>
    ensures { OnOk result (text.new ≡ text.old ++ other_told number line.now (contents words.now)) }
{
    let place = other_word(words);
    let event = has_event_verb(words);
    put_mark(text, number, line, words, Some(place))?;
    text.put(other_rule(event))
}

/// The rule on events in flows, or on `on`.
fn other_rule(event: bool) -> &'static [u8]
    ensures { result.now ≡ other_rule event }
{
    if event {
        b"a flow has no events: its verbs are fill, copy, reduce and task, and realm-flow finds what waits for what\n"
    } else {
        b"a flow has no on: leave it out, realm-flow finds what waits for what\n"
    }
}

/// The answer to a text that is refused as that of a graph with the same items is.
fn answer_refused(
    alloc: Global,
    bytes: &[u8],
    unread: &Unread,
    all: bool,
) -> Result<Answer, NoMemory>
    requires { IsFlowReading bytes.now (FlowReading.Refused unread.now) }
    ensures { IfOk result (λ a. IsFlowWhole all bytes.now a.verdict a.text) }
{
    let mut text = unread_text(alloc, bytes, unread, all)?;
    text.put(flow_rule(unread.why))?;
    Ok(Answer {
        verdict: Verdict::Unread,
        text,
    })
}

/// What a flow has of the forms of a graph's lines, for the reason that speaks of these.
fn flow_rule(why: Why) -> &'static [u8]
    ensures { result.now ≡ flow_rule why }
{
    match why {
        Why::Syntax => b"in a flow the verbs are fill, copy, reduce and task, and no line has on\n",
        _ => b"",
    }
}
