//! The top call: from the words of the command line, and the bytes of a graph, to the bytes of the answer.
#![tactic(auto)]

mod actions;
mod answering;
mod input;
mod laws;
mod making;
mod reading;
mod running;
mod session_refusal;
mod sessions;
mod slots;

ghost use Rattle.std.specs.Prelude.{◌≡◌, ℕ, ◌≤◌, ◌⊎◌, List, None, true, false, IfSome};
ghost use Rattle.std.specs.Io.KnownBytes.{IsAtEnd};
ghost use Rattle.realm_io.specs.Counts.{Rose};
ghost use Rattle.graph_terms.specs.Graph.{GraphValue};
ghost use Rattle.graph_words.specs.Text.{GraphText};
ghost use Rattle.graph_gen.specs.MadeGraph.{made_graph};
ghost use Rattle.command_line.specs.Request.{request_of_words, Asks};
ghost use Rattle.command_line.specs.declared.request.Request.{Request};
ghost use Rattle.realm_top.specs.Answer.{reads, checks, audits, upgrades, runs_session, may_end, IsInput, Answers, AsksStatus};
ghost use Rattle.graph_answers.specs.Answer.{most_slots, made_says, EndsByPaths, IsDone};
ghost use Rattle.graph_answers.specs.AuditAnswer.{IsAudited};
ghost use Rattle.graph_answers.specs.UpgradeAnswer.{IsUpgraded};
ghost use Rattle.realm_top.specs.SessionAnswer.{IsSessionDone};
ghost use Rattle.program_io.specs.Delivered.{Delivered, BrokenOff};
ghost use Rattle.graph_answers.specs.Status.{words_status, is_refusal};
ghost use Rattle.graph_answers.specs.declared.status.Status.{Status};

use crate::answering::answer_request;
use crate::laws::{answers_are_one, paths_tell_ends};
use command_line::{WordsFault, read_words};
pub use graph_answers::status;
use graph_answers::status::Status;
use realm_io::{Gate, Sink, Source};
use std::alloc::Global;
use std::sync::Wait;
use std::thread::Threads;

/// Does what the words ask for. `run`, `check`, `eval` and `timeline` read a graph and check it; `audit`
/// reads a graph with a trace behind it; `upgrade` reads a graph and does not check it; `session` reads
/// graphs with links to earlier ones, and checks and runs one after the other; `make` reads nothing and
/// makes a graph of the seed and the size.
///
/// `words` are the program's name, the word of the action, and options. A graph is run by as many
/// workers as they say. A worker passes the gate before it performs a line, and may wait there and for
/// other workers, so nothing says that a run returns.
pub fn realm<R: Threads + Wait + Sync, S: Source, K: Sink, G: Gate>(
    rt: &R,
    alloc: Global,
    words: &[String],
    source: &mut S,
    sink: &mut K,
    gate: &G,
) -> Status
    // Done, of an action that reads a graph alone and checks it, for every input, number of workers, gate and schedule: the input is
    // the one text of an accepted graph, and the text of the action was written and flushed: for `run` and `eval` the
    // report of the graph's one-thread evaluation, followed where it is asked for by a trace, for `run` a lawful one and
    // for `eval` the evaluation's order; for `check` its need; for `timeline` a plan with its certificate.
    ensures done { result ≡ Status.Done → (request : Request) × Asks words.now request
        × (checks request.action ≡ true
        → IfSome (S.left source.old) (λ bytes. IsDone request bytes (K.state sink.old) (K.state sink.new))) }

    // Of that graph: a line waits exactly where one that never comes reaches it, and a line is cancelled exactly
    // where an unbroken path from a fault reaches it.
    ensures paths { result ≡ Status.Done → (request : Request) × Asks words.now request
        × (checks request.action ≡ true
        → IfSome (S.left source.old) (λ bytes. (g : GraphValue) → GraphText bytes g → EndsByPaths g)) }

    // Done, of `audit`: the input, cut after its first line that is exactly `end`, is the one text of an accepted graph
    // and that of a lawful trace of it, and `lawful` was written and flushed.
    ensures lawful { result ≡ Status.Done → (request : Request) × Asks words.now request × (audits request.action ≡ true
        → IfSome (S.left source.old) (λ bytes. IsAudited bytes (K.state sink.old) (K.state sink.new))) }

    // Done, of `upgrade`: the input is the one text of a graph, and its text was written and flushed: in format 3 with
    // `--to 3`, else in format 2, or in format 3 where the graph has that.
    ensures upgraded { result ≡ Status.Done → (request : Request) × Asks words.now request × (upgrades request.action ≡ true
        → IfSome (S.left source.old) (λ bytes. IsUpgraded request.to_three bytes (K.state sink.old) (K.state sink.new))) }

    // Done, of `session`: the input is the one text of a session, each of its graphs with its links as lines is accepted, the
    // events of the lines that wait have slots enough, and the report of the session was written and flushed.
    ensures session { result ≡ Status.Done → (request : Request) × Asks words.now request × (runs_session request.action ≡ true
        → IfSome (S.left source.old) (λ bytes. IsSessionDone (most_slots request.slots) bytes (K.state sink.old) (K.state sink.new))) }

    // And all of the input was read.
    ensures at_end { result ≡ Status.Done → (request : Request) × Asks words.now request × (reads request.action ≡ true
        → IsAtEnd (S.left source.new)) }

    // Done, of `make`: of the generated graph of the seed and the size the line that sums up its evaluation was
    // written and flushed, or its text where that is asked for. The source stays as it was, whatever the answer.
    ensures made { result ≡ Status.Done → (request : Request) × Asks words.now request × (reads request.action ≡ false
        → Delivered (K.state sink.old) (K.state sink.new) (made_says request.text (made_graph request.seed request.size))) }
    ensures source { (request : Request) → Asks words.now request → reads request.action ≡ false → source.new ≡ source.old }

    // Usage: exactly where the words are no command line of the program, want of memory aside; nothing is read or written.
    ensures usage { result ≡ Status.Usage → request_of_words words.now ≡ None }
    ensures refused_words { request_of_words words.now ≡ None → (result ≡ Status.Usage) ⊎ (result ≡ Status.NoMemory) }
    ensures untouched { result ≡ Status.Usage → (source.new ≡ source.old) × (sink.new ≡ sink.old) }

    // Unread, Unfit, Slots, TooLong and Unlawful: the input, or the graph that was made, asks for that status, and the
    // text that says why was written and flushed: the first refused line with its first reason, the first rule that
    // fails with the least lines, for `session` of the first graph that cannot run and with its name, the need, that more
    // was left than the action takes of a text which begins so, or the first fault of the trace.
    ensures refused { is_refusal result ≡ true → (request : Request) × Asks words.now request
        × ((bytes : List ℕ) → IsInput request.action (S.left source.old) bytes
        → (out : List ℕ) × Answers request bytes result out × Delivered (K.state sink.old) (K.state sink.new) out) }

    // By the words alone: Unread, ReadFault and TooLong only where the action reads, Unfit where it checks a graph that it
    // read, Slots where graphs are run, Unlawful where a trace is read; and Usage never where they ask for something.
    ensures of_action { (request : Request) → Asks words.now request → may_end request result ≡ true }

    // ReadFault: a fault of reading was counted in this call, and nothing was written.
    ensures read_fault { result ≡ Status.ReadFault → Rose (S.faults source.old) (S.faults source.new) × (sink.new ≡ sink.old) }

    // WriteFault: a fault of writing was counted in this call, and a prefix was taken of the text that is written without it.
    ensures write_fault { result ≡ Status.WriteFault → Rose (K.state sink.old).faults (K.state sink.new).faults }
    ensures cut_off { result ≡ Status.WriteFault → (request : Request) × Asks words.now request
        × ((bytes : List ℕ) → IsInput request.action (S.left source.old) bytes → (status : Status) × (out : List ℕ)
        × Answers request bytes status out × BrokenOff (K.state sink.old) (K.state sink.new) out) }

    // NoMemory: before anything was written.
    ensures no_memory { result ≡ Status.NoMemory → sink.new ≡ sink.old }

    // What the words ask for is done, unless a fault was counted or memory ran out.
    ensures complete { (request : Request) (bytes : List ℕ) (status : Status) → Asks words.now request
        → IsInput request.action (S.left source.old) bytes → AsksStatus request bytes status
        → ¬ (Rose (S.faults source.old) (S.faults source.new)) → ¬ (Rose (K.state sink.old).faults (K.state sink.new).faults)
        → (result ≡ status) ⊎ (result ≡ Status.NoMemory) }

    // No count falls.
    ensures counts { (S.faults source.old ≤ S.faults source.new) × ((K.state sink.old).faults ≤ (K.state sink.new).faults) }
{
    answers_are_one();
    paths_tell_ends();
    match read_words(alloc, words) {
        Ok(request) => answer_request(rt, alloc, request, source, sink, gate),
        Err(fault) => words_status(fault),
    }
}

/// The status for words that ask for nothing.
fn words_status(fault: WordsFault) -> Status
    ensures { result ≡ words_status fault }
{
    match fault {
        WordsFault::Usage => Status::Usage,
        WordsFault::NoMemory => Status::NoMemory,
    }
}
