//! What is answered where a text or a graph is refused, or a run has too few slots.

ghost use Rattle.std.specs.Prelude.{◌≡◌, ℕ, List};
ghost use Rattle.graph_terms.specs.declared.why.Why.{Why};
ghost use Rattle.graph_reader.specs.FirstFault.{FirstFault};
ghost use Rattle.graph_reader.specs.declared.ReadRefusal.TheVariants.{Line};
ghost use Rattle.race_check.specs.Refusal.{IsRefusal, NamesLines};
ghost use Rattle.graph_answers.specs.Texts.{unread_text, slots_text};
ghost use Rattle.graph_answers.specs.Delivered.{Delivers, IsAnswered};
ghost use Rattle.graph_answers.specs.Refused.{Refuses, Rejects};

use crate::refusal::{put_broken, put_slots, put_unread};
use crate::status::Status;
use graph_reader::ReadRefusal;
use graph_terms::why::Why;
use program_io::flush;
use race_check::checked::{CheckRefusal, Unfit};
use realm_io::Sink;

/// Answers bytes that are the text of no graph.
pub fn refuse<K: Sink>(sink: &mut K, refusal: ReadRefusal) -> Status
    ensures refused { (bytes : List ℕ)
        → ((number : ℕ) (why : Why) → refusal ≡ Line number why → FirstFault bytes number why)
        → IsAnswered (Refuses bytes) (K.state sink.old) (K.state sink.new) result }
    ensures no_memory { result ≡ Status.NoMemory → sink.new ≡ sink.old }
{
    match refusal {
        ReadRefusal::Line { number, why } => put_refusal(sink, number, why),
        ReadRefusal::NoMemory => Status::NoMemory,
    }
}

/// Writes which line is refused and why, and flushes it.
pub fn put_refusal<K: Sink>(sink: &mut K, number: u32, why: Why) -> Status
    ensures { Delivers (K.state sink.old) (K.state sink.new) Status.Unread result (unread_text number why) }
{
    match put_unread(sink, number, why) {
        Ok(()) => flush(sink, Status::Unread),
        Err(_) => Status::WriteFault,
    }
}

/// Answers a graph that is not accepted.
pub fn reject<K: Sink>(sink: &mut K, unfit: &Unfit) -> Status
    requires { IsRefusal unfit.now.graph unfit.now.why × NamesLines unfit.now.graph unfit.now.why }
    ensures rejected { IsAnswered (Rejects unfit.now.graph) (K.state sink.old) (K.state sink.new) result }
    ensures no_memory { result ≡ Status.NoMemory → sink.new ≡ sink.old }
{
    if unfit.why == CheckRefusal::NoMemory {
        return Status::NoMemory;
    }
    match put_broken(sink, &unfit.graph, unfit.why) {
        Ok(()) => flush(sink, Status::Unfit),
        Err(_) => Status::WriteFault,
    }
}

/// Writes how many slots a run needs that has fewer, and flushes it.
pub fn put_short<K: Sink>(sink: &mut K, need: u32) -> Status
    ensures { Delivers (K.state sink.old) (K.state sink.new) Status.Slots result (slots_text need) }
{
    match put_slots(sink, need) {
        Ok(()) => flush(sink, Status::Slots),
        Err(_) => Status::WriteFault,
    }
}
