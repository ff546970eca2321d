//! What tests do with a session: they record graphs, and ask for all lines of one.

ghost use Rattle.std.specs.Prelude.{ℕ, ◌≡◌, ◌<◌, ◌≤◌, ◌+◌, length, Contains, IfOk};
ghost use Rattle.event_table.specs.EventMap.{IsCreated};
ghost use Rattle.event_table.specs.declared.handle.Handle.{Handle as TheHandle};
ghost use Rattle.realm_session.specs.Recorded.{IsRecorded, graph_at};
ghost use Rattle.realm_session.specs.Sessions.{recorded_by, IsRecorderOf, IsSeatOf, Tells};
ghost use Rattle.realm_session.specs.declared.line.Line.{Line as TheLine};

use graph_terms::lists::EndList;
use graph_terms::outcome::End;
use realm_session::{Answer, Handle, Left, RecordRefusal, Recorder, Seat, Session};
use std::alloc::{AllocError, Global};

/// A list of ends.
pub(crate) fn ends_of(alloc: Global, ends: &[End]) -> Result<EndList, AllocError>
    requires { length ends.now < 1000 }
    ensures { IfOk result (λ l. l ≡ ends.now) }
{
    let items = Vec::from_slice(alloc, ends)?;
    Ok(EndList { items })
}

/// Whether each line of a graph answers so.
pub(crate) fn answer_so(
    session: &Session,
    recorder: &Recorder,
    seat: &mut Seat,
    graph: u32,
    wanted: &[Answer],
) -> bool
    requires at { IsSeatOf session.now seat.old }
    requires tells { (x : TheLine) → IsRecorded (recorded_by recorder.now) x → Tells seat.old x }
    requires lines { length wanted.now ≤ length (graph_at (recorded_by recorder.now) graph) }
    requires few { length wanted.now < 1000 }
    ensures at { IsSeatOf session.now seat.new }
    ensures tells { (x : TheLine) → IsRecorded (recorded_by recorder.now) x → Tells seat.new x }
{
    for (line, answer) in wanted.iter().enumerate() {
        let handle = recorder.handle_of(graph, line as u32);
        if session.ask(seat, handle) != *answer {
            return false;
        }
    }
    true
}

/// Whether each line of a graph answers so, by a seat that is given back.
pub(crate) fn graph_answers(
    session: &Session,
    recorder: &mut Recorder,
    graph: u32,
    wanted: &[Answer],
) -> bool
    requires recorder { IsRecorderOf session.now recorder.old }
    requires lines { length wanted.now ≤ length (graph_at (recorded_by recorder.old) graph) }
    requires few { length wanted.now < 1000 }
    ensures recorder { IsRecorderOf session.now recorder.new }
    ensures same { recorded_by recorder.new ≡ recorded_by recorder.old }
{
    let mut seat = session.asker(recorder);
    let agrees = answer_so(session, recorder, &mut seat, graph, wanted);
    session.give_back(recorder, seat);
    agrees
}

/// The handles of the first lines of a graph, so many.
pub(crate) fn handles_of(
    alloc: Global,
    recorder: &Recorder,
    graph: u32,
    lines: u32,
) -> Result<Vec<Handle>, AllocError>
    requires lines { lines ≤ length (graph_at (recorded_by recorder.now) graph) }
    ensures { IfOk result (λ v. (h : TheHandle) → Contains v.items h → (x : TheLine) × IsRecorded (recorded_by recorder.now) x × (x.handle ≡ h)) }
{
    let mut handles = Vec::new(alloc);
    for line in 0..lines {
        handles.push(recorder.handle_of(graph, line))?;
    }
    Ok(handles)
}

/// Whether there are as many handles as answers, and each answers so, of what a session left.
pub(crate) fn left_answers(left: &Left, handles: &[Handle], wanted: &[Answer]) -> bool
    requires { (h : TheHandle) → Contains handles.now h → IsCreated left.now h }
{
    if handles.len() != wanted.len() {
        return false;
    }
    for (place, handle) in handles.iter().enumerate() {
        if left.look(*handle) != wanted[place] {
            return false;
        }
    }
    true
}

/// Records a graph: its number.
pub(crate) fn record_graph(
    session: &Session,
    alloc: Global,
    recorder: &mut Recorder,
    ends: &EndList,
) -> Result<u32, RecordRefusal>
    requires recorder { IsRecorderOf session.now recorder.old }
    requires graphs { length (recorded_by recorder.old).graphs < 4294967295 }
    ensures recorder { IsRecorderOf session.now recorder.new }
    ensures lines { IfOk result (λ g. length ends.now ≤ length (graph_at (recorded_by recorder.new) g)) }
    ensures kept { (g : ℕ) → length (graph_at (recorded_by recorder.old) g) ≤ length (graph_at (recorded_by recorder.new) g) }
    ensures graphs { length (recorded_by recorder.new).graphs ≤ length (recorded_by recorder.old).graphs + 1 }
{
    session.enter(alloc, recorder, ends)
}

/// Records so many graphs whose lines end so: whether none was refused.
pub(crate) fn enter_times(
    session: &Session,
    alloc: Global,
    recorder: &mut Recorder,
    ends: &EndList,
    times: u32,
) -> bool
    requires recorder { IsRecorderOf session.now recorder.old }
    requires graphs { length (recorded_by recorder.old).graphs + times < 4294967295 }
    ensures recorder { IsRecorderOf session.now recorder.new }
    ensures kept { (g : ℕ) → length (graph_at (recorded_by recorder.old) g) ≤ length (graph_at (recorded_by recorder.new) g) }
    ensures graphs { length (recorded_by recorder.new).graphs ≤ length (recorded_by recorder.old).graphs + times }
{
    for _turn in 0..times {
        if record_graph(session, alloc, recorder, ends).is_err() {
            return false;
        }
    }
    true
}
