//! What is done for a request, with its input where it has one.

ghost use Rattle.std.specs.Prelude.{◌≡◌, ◌≤◌, ◌⊎◌, true, false, IfSome};
ghost use Rattle.std.specs.Io.KnownBytes.{IsAtEnd};
ghost use Rattle.realm_io.specs.Counts.{Rose};
ghost use Rattle.realm_top.specs.Answer.{reads, may_end, AnsweredBy};

use crate::actions::reads;
use crate::input::answer;
use crate::making::answer_made;
use crate::reading::read_input;
use command_line::request::{MAX_SIZE, MAX_SLOTS, MAX_WORKERS, Request};
use graph_answers::status::Status;
use program_io::put_too_long;
use realm_io::{Gate, ReadEnd, Sink, Source};
use std::alloc::Global;
use std::sync::Wait;
use std::thread::Threads;

/// Does what a request asks for.
pub(crate) fn answer_request<R: Threads + Wait + Sync, S: Source, K: Sink, G: Gate>(
    rt: &R,
    alloc: Global,
    request: Request,
    source: &mut S,
    sink: &mut K,
    gate: &G,
) -> Status
    requires size { (1 ≤ request.size) × (request.size ≤ MAX_SIZE) }
    requires workers { request.workers ≤ MAX_WORKERS }
    requires slots { IfSome request.slots (λ n. (1 ≤ n) × (n ≤ MAX_SLOTS)) }
    ensures answered { (result ≡ Status.ReadFault) ⊎ AnsweredBy request (S.left source.old) (K.state sink.old) (K.state sink.new) result }
    ensures at_end { result ≡ Status.Done → reads request.action ≡ true → IsAtEnd (S.left source.new) }
    ensures source { reads request.action ≡ false → source.new ≡ source.old }
    ensures of_action { may_end request result ≡ true }
    ensures read_fault { result ≡ Status.ReadFault → Rose (S.faults source.old) (S.faults source.new) × (sink.new ≡ sink.old) }
    ensures write_fault { result ≡ Status.WriteFault → Rose (K.state sink.old).faults (K.state sink.new).faults }
    ensures no_memory { result ≡ Status.NoMemory → sink.new ≡ sink.old }
    ensures counts { (S.faults source.old ≤ S.faults source.new) × ((K.state sink.old).faults ≤ (K.state sink.new).faults) }
{
    if reads(request.action) {
        answer_read(rt, alloc, request, source, sink, gate)
    } else {
        answer_made(rt, alloc, request, sink, gate)
    }
}

/// Reads the input of a request to its end, and does what is asked for with it.
fn answer_read<R: Threads + Wait + Sync, S: Source, K: Sink, G: Gate>(
    rt: &R,
    alloc: Global,
    request: Request,
    source: &mut S,
    sink: &mut K,
    gate: &G,
) -> Status
    requires reads { reads request.action ≡ true }
    requires workers { request.workers ≤ MAX_WORKERS }
    requires slots { IfSome request.slots (λ n. (1 ≤ n) × (n ≤ MAX_SLOTS)) }
    ensures answered { (result ≡ Status.ReadFault) ⊎ AnsweredBy request (S.left source.old) (K.state sink.old) (K.state sink.new) result }
    ensures at_end { result ≡ Status.Done → IsAtEnd (S.left source.new) }
    ensures of_action { may_end request result ≡ true }
    ensures read_fault { result ≡ Status.ReadFault → Rose (S.faults source.old) (S.faults source.new) × (sink.new ≡ sink.old) }
    ensures write_fault { result ≡ Status.WriteFault → Rose (K.state sink.old).faults (K.state sink.new).faults }
    ensures no_memory { result ≡ Status.NoMemory → sink.new ≡ sink.old }
    ensures counts { (S.faults source.old ≤ S.faults source.new) × ((K.state sink.old).faults ≤ (K.state sink.new).faults) }
{
    match read_input(alloc, source, request.action) {
        Ok(bytes) => answer(rt, alloc, request, bytes.as_slice(), sink, gate),
        Err(ReadEnd::TooLong) => put_too_long(sink, Status::TooLong),
        Err(ReadEnd::ReadFault) => Status::ReadFault,
        Err(ReadEnd::NoMemory) => Status::NoMemory,
    }
}
