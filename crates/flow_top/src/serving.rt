//! The top call: from a source with the text of a flow to a sink with that of its graph.

ghost use Rattle.std.specs.Prelude.{◌≡◌, ℕ, ◌≤◌, ◌⊎◌, length, IfOk, IfSome};
ghost use Rattle.std.specs.Io.KnownBytes.{IsAtEnd};
ghost use Rattle.realm_io.specs.Counts.{Rose};
ghost use Rattle.graph_terms.specs.declared.limits.TheConstants.{MAX_TEXT as most_bytes};
ghost use Rattle.flow_top.specs.Served.{refused_text, IsServed};
ghost use Rattle.std.specs.String.{string_bytes};

use crate::FlowFault;
use crate::answer::answer_flow;
use crate::status::FlowStatus;
use graph_terms::format::Format;
use graph_terms::limits::MAX_TEXT;
use graph_terms::why::Why;
use index_spaces::NoMemory;
use program_io::{put_text, put_too_long};
use realm_io::{ReadEnd, Sink, Source, read_all};
use std::alloc::Global;

/// Reads the text of a flow and writes that of its graph in a format, in which sums commute or not.
/// Where there is none it writes the one line that says why. Nothing of a graph is written before the whole graph is made.
pub fn serve_flow<S: Source, K: Sink>(
    alloc: Global,
    source: &mut S,
    sink: &mut K,
    commute: bool,
    format: Format,
) -> FlowStatus
    // What was left of the source is the text of a flow, and that of its graph, which means it, was
    // written and flushed; or the line with the first reason that refuses it; or a fault of writing
    // broke that off.
    ensures served { IfSome (S.left source.old) (λ bytes. IsServed bytes commute format (K.state sink.old) (K.state sink.new) result) }

    // Done: all of the input was read.
    ensures at_end { result ≡ FlowStatus.Done → IsAtEnd (S.left source.new) }

    // ReadFault: a fault of reading was counted, and nothing was written.
    ensures read_fault { result ≡ FlowStatus.ReadFault → Rose (S.faults source.old) (S.faults source.new) × (sink.new ≡ sink.old) }

    // NoMemory: before anything was written.
    ensures no_memory { result ≡ FlowStatus.NoMemory → sink.new ≡ sink.old }
{
    match read_all(alloc, source, MAX_TEXT as u32) {
        Ok(bytes) => serve_bytes(alloc, bytes.as_slice(), sink, commute, format),
        Err(ReadEnd::TooLong) => put_too_long(sink, FlowStatus::TooLong),
        Err(ReadEnd::ReadFault) => FlowStatus::ReadFault,
        Err(ReadEnd::NoMemory) => FlowStatus::NoMemory,
    }
}

/// Answers the bytes of a flow.
fn serve_bytes<K: Sink>(
    alloc: Global,
    bytes: &[u8],
    sink: &mut K,
    commute: bool,
    format: Format,
) -> FlowStatus
    requires { length bytes.now ≤ most_bytes }
    ensures served { IsServed bytes.now commute format (K.state sink.old) (K.state sink.new) result }
    ensures read_fault { result ≡ FlowStatus.ReadFault → ⊥ }
    ensures no_memory { result ≡ FlowStatus.NoMemory → sink.new ≡ sink.old }
{
    match answer_flow(alloc, bytes, commute, format) {
        Ok(text) => put_text(sink, text.as_slice(), FlowStatus::Done),
        Err(FlowFault::Line { number, why }) => match refused_text(alloc, number, why) {
            Ok(text) => put_text(sink, text.as_bytes(), FlowStatus::Unread { number, why }),
            Err(NoMemory) => FlowStatus::NoMemory,
        },
        Err(FlowFault::NoMemory) => FlowStatus::NoMemory,
    }
}

/// The line for a refusal.
fn refused_text(alloc: Global, number: u32, why: Why) -> Result<String, NoMemory>
    ensures { IfOk result (λ text. string_bytes text ≡ refused_text number why) }
{
    let word = why.word();
    match format!(in alloc; "refused line {number} {word}\n") {
        Ok(text) => Ok(text),
        Err(_) => Err(NoMemory),
    }
}
