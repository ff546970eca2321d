//! Reading a trace from its text.

ghost use Rattle.std.specs.Prelude.{◌≡◌, ℕ, List, ◌<◌, ◌^◌, ◌++◌, false, length, IfOk, IfErr, MatchOption};
ghost use Rattle.graph_terms.specs.Spelling.{line_name};
ghost use Rattle.realm_audit.specs.Text.{at_text, trace_text};
ghost use Rattle.realm_audit.specs.declared.reading.TraceRefusal.{TraceRefusal};
ghost use Rattle.realm_audit.specs.Reading.{AreLines, has_newline, IsFirstLine, BeginsNoItem, IsRefusal, TextTells};

use graph_model::graph::Graph;
use graph_terms::format::Format;
use graph_terms::found::Found;
use graph_terms::lists::LineList;
use graph_terms::name::Name;
use index_spaces::NoMemory;
use std::alloc::Global;

/// Why bytes are not read as a trace.
#[derive(Clone, Copy, Debug, PartialEq, Eq)]
pub enum TraceRefusal {
    /// This line, counted from 1, is the first with which no text of a trace begins.
    Line(u32),
    /// Memory was refused; nothing is said of the bytes.
    NoMemory,
}

impl From<NoMemory> for TraceRefusal {
    ghost from_gives = { λ _ e. e ≡ TraceRefusal.NoMemory };

    fn from(_: NoMemory) -> TraceRefusal {
        TraceRefusal::NoMemory
    }
}

/// The first line of bytes without its newline, and what follows it. `None` exactly where no byte is a newline.
pub(crate) fn first_line(bytes: &[u8]) -> Option<(&[u8], &[u8])>
    ensures { MatchOption result (has_newline bytes.now ≡ false) (λ x. IsFirstLine bytes.now x.0.now x.1.now) }
{
    for (i, b) in bytes.iter().enumerate() {
        if *b == b'\n' {
            return Some((&bytes[..i], &bytes[i + 1..]));
        }
    }
    None
}

/// The number of the line that the first item of bytes says to have ended, and what follows the item. `None` exactly
/// where no item of a line of the graph begins the bytes.
fn next_item<'a>(graph: &Graph, bytes: &'a [u8]) -> Option<(u32, &'a [u8])>
    ensures { MatchOption result (BeginsNoItem graph.now bytes.now)
        (λ x. (x.0 < length graph.now.lines) × (bytes.now ≡ at_text (line_name graph.now x.0) ++ x.1.now)) }
{
    let _ = graph.lines();
    let (name, after) = first_line(bytes.strip_prefix(b"at ".as_slice())?)?;
    // a name of each format is one of the last
    match graph.find(&Name::in_format(Format::Three, name)?)? {
        Found::Line(i) => Some((i, after)),
        _ => None,
    }
}

/// The one trace of the graph whose text the bytes are: any lines of it, in any order. `Line` exactly where they are the
/// text of none: the least number of lines with which no text of a trace begins. A line that is missing, that has no
/// newline or that follows `done` begins none. `NoMemory` where memory ran out.
pub fn read_trace(alloc: Global, graph: &Graph, bytes: &[u8]) -> Result<LineList, TraceRefusal>
    requires { length bytes.now < 2 ^ 32 }
    ensures text { IfOk result (λ trace. trace_text graph.now trace ≡ bytes.now) }
    ensures lines { IfOk result (λ trace. AreLines graph.now trace) }
    ensures refusal { IfErr result (λ e. IsRefusal graph.now bytes.now e) }
{
    let _ = graph.lines();
    let Some(mut rest) = bytes.strip_prefix(b"realm-trace 1\n".as_slice()) else {
        return Err(TraceRefusal::Line(1));
    };
    let mut trace = LineList::new(alloc);
    while let Some((line, after)) = next_item(graph, rest) {
        trace.push(line)?;
        rest = after;
    }
    let number = trace.len() + 2;
    let Some(after) = rest.strip_prefix(b"done\n".as_slice()) else {
        return Err(TraceRefusal::Line(number));
    };
    if !after.is_empty() {
        return Err(TraceRefusal::Line(number + 1));
    }
    Ok(trace)
}

/// A text is that of one trace: it tells two traces of a graph apart. The function only states it.
pub fn text_tells_traces_apart()
    ensures { TextTells }
{}
