//! What the program does with its streams.

ghost use Rattle.std.specs.Prelude.{◌≡◌, ◌⊎◌, ℕ, ◌<◌, ◌≤◌, List, length, Some};
ghost use Rattle.graph_terms.specs.Graph.{GraphValue};
ghost use Rattle.graph_meaning.specs.Rules.{Accepted};
ghost use Rattle.graph_words.specs.Text.{GraphText};
ghost use Rattle.graph_words.specs.Limits.{text_limit};
ghost use Rattle.realm_io.specs.Counts.{Rose};
ghost use Rattle.explain_top.specs.Flows.{IsInputAnswer, FitsFormatOne};
ghost use Rattle.flow_top.specs.FlowText.{FlowText};
ghost use Rattle.program_io.specs.Delivered.{Delivered, BrokenOff, too_long_text};
ghost use Rattle.explain_top.specs.Program.{exit_number, status_of, Answers, IsAnswered};
ghost use Rattle.explain_top.specs.declared.answer.Verdict.{Verdict};

use crate::answer::Verdict;
use crate::flows::explain_input;
use graph_reader::laws::bytes_have_one_reading;
use graph_terms::limits::{MAX_TEXT, MAX_TEXT_OF_THREE};
use graph_words::limits::LONG_START;
use program_io::{ProgramStatus, put_text, put_too_long};
use realm_io::{ReadEnd, Sink, Source, read_by_start};
use std::alloc::Global;

/// How the program ends.
#[derive(Clone, Copy, Debug, PartialEq, Eq)]
pub enum Status {
    /// The graph is accepted, or the flow has one.
    Accepted,
    /// The words are not those of the program.
    Usage,
    /// The input is the text of no graph, nor that of a flow that has one.
    Unread,
    /// The graph breaks a rule.
    Unfit,
    /// A read failed.
    ReadFault,
    /// A write or a flush failed.
    WriteFault,
    /// Memory ran out, before anything was written.
    NoMemory,
    /// The input has more bytes than a text that begins so may have.
    TooLong,
}

impl Status {
    /// The exit status of the program.
    pub fn number(&self) -> u8
        ensures { result ≡ exit_number self.now }
    {
        match self {
            Status::Accepted => 0,
            Status::Usage => 2,
            Status::Unread => 3,
            Status::Unfit => 4,
            Status::ReadFault => 5,
            Status::WriteFault => 6,
            Status::NoMemory => 7,
            Status::TooLong => 9,
        }
    }
}

impl ProgramStatus for Status {
    ghost use Rattle.explain_top.specs.declared.program.Status.TheVariants.{WriteFault};

    ghost write_fault = { WriteFault };

    fn write_fault() -> Status {
        Status::WriteFault
    }
}

/// Reads all of the input, and writes what the checker says of it and why.
pub fn run<S: Source, K: Sink>(
    alloc: Global,
    source: &mut S,
    sink: &mut K,
    ends: bool,
    all: bool,
) -> Status
    // Accepted, Unfit and Unread: exactly this is so of the input, and the text that says why was written and flushed.
    ensures answered { (bytes : List ℕ) (verdict : Verdict) → S.left source.old ≡ Some bytes → result ≡ status_of verdict
        → (out : List ℕ) × IsInputAnswer ends all bytes verdict out × Delivered (K.state sink.old) (K.state sink.new) out }

    // TooLong: more bytes were left than a text that begins so may have, and the line that says so was written and flushed.
    ensures too_long { result ≡ Status.TooLong → (bytes : List ℕ) → S.left source.old ≡ Some bytes
        → (text_limit bytes < length bytes) × Delivered (K.state sink.old) (K.state sink.new) too_long_text }

    // ReadFault, WriteFault: such a fault was counted in this call. NoMemory and ReadFault: nothing was written.
    ensures read_fault { result ≡ Status.ReadFault → Rose (S.faults source.old) (S.faults source.new) × (sink.new ≡ sink.old) }
    ensures write_fault { result ≡ Status.WriteFault → Rose (K.state sink.old).faults (K.state sink.new).faults }
    ensures no_memory { result ≡ Status.NoMemory → sink.new ≡ sink.old }
    ensures usage { result ≡ Status.Usage → ⊥ }

    // WriteFault: a prefix was taken of the text that is written without it.
    ensures cut_off { result ≡ Status.WriteFault → (bytes : List ℕ) → S.left source.old ≡ Some bytes → (status : Status) × (out : List ℕ)
        × Answers ends all bytes status out × BrokenOff (K.state sink.old) (K.state sink.new) out }

    // The text of a graph that is accepted is answered so, where with its comments it is not too long, unless a fault was counted or memory ran out.
    ensures complete { (bytes : List ℕ) (g : GraphValue) → S.left source.old ≡ Some bytes → length bytes ≤ text_limit bytes → GraphText bytes g → Accepted g
        → ¬ (Rose (S.faults source.old) (S.faults source.new)) → ¬ (Rose (K.state sink.old).faults (K.state sink.new).faults)
        → (result ≡ Status.Accepted) ⊎ (result ≡ Status.NoMemory) }

    // So is the text of a flow whose graph passes no limit of format 1.
    ensures complete_flow { (bytes : List ℕ) (f : GraphValue) → S.left source.old ≡ Some bytes → length bytes ≤ text_limit bytes → FlowText bytes f → FitsFormatOne f
        → ¬ (Rose (S.faults source.old) (S.faults source.new)) → ¬ (Rose (K.state sink.old).faults (K.state sink.new).faults)
        → (result ≡ Status.Accepted) ⊎ (result ≡ Status.NoMemory) }
{
    bytes_have_one_reading();
    match read_by_start(
        alloc,
        source,
        LONG_START,
        MAX_TEXT_OF_THREE as u32,
        MAX_TEXT as u32,
    ) {
        Ok(bytes) => answer(alloc, bytes.as_slice(), sink, ends, all),
        Err(ReadEnd::TooLong) => put_too_long(sink, Status::TooLong),
        Err(ReadEnd::ReadFault) => Status::ReadFault,
        Err(ReadEnd::NoMemory) => Status::NoMemory,
    }
}

/// Writes what the checker says of the bytes and why.
fn answer<K: Sink>(alloc: Global, bytes: &[u8], sink: &mut K, ends: bool, all: bool) -> Status
    ensures answered { IsAnswered ends all bytes.now (K.state sink.old) (K.state sink.new) result }
    ensures no_memory { result ≡ Status.NoMemory → sink.new ≡ sink.old }
{
    match explain_input(alloc, bytes, ends, all) {
        Ok(answer) => put_text(sink, answer.text.bytes(), status_of(answer.verdict)),
        Err(_) => Status::NoMemory,
    }
}

/// The status of a verdict.
fn status_of(verdict: Verdict) -> Status
    ensures { result ≡ status_of verdict }
{
    match verdict {
        Verdict::Accepted => Status::Accepted,
        Verdict::Unfit => Status::Unfit,
        Verdict::Unread => Status::Unread,
    }
}
