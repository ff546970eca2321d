//! Two graphs, of which the second is recorded after the first was asked for.

ghost use Rattle.std.specs.Prelude.{◌≡◌, ◌≤◌, length};
ghost use Rattle.realm_session.specs.Recorded.{graph_at};
ghost use Rattle.realm_session.specs.Sessions.{recorded_by, IsRecorderOf};

use crate::asking::{ends_of, graph_answers, record_graph};
use graph_terms::outcome::End;
use realm_session::{Answer, Recorder, Session};
use std::test::Fail;

pub(crate) const ONE: [End; 3] = [End::Done, End::Faulted, End::Waiting];

pub(crate) const TWO: [End; 4] = [End::Cancelled, End::Waiting, End::Cancelled, End::Done];

pub(crate) const ONE_ANSWERS: [Answer; 3] = [Answer::Triggered, Answer::Poisoned, Answer::Pending];

pub(crate) const TWO_ANSWERS: [Answer; 4] = [
    Answer::Poisoned,
    Answer::Pending,
    Answer::Poisoned,
    Answer::Triggered,
];

/// Whether each line of both graphs answers by its end.
fn both_answer(session: &Session, recorder: &mut Recorder, first: u32, second: u32) -> bool
    requires recorder { IsRecorderOf session.now recorder.old }
    requires first { 3 ≤ length (graph_at (recorded_by recorder.old) first) }
    requires second { 4 ≤ length (graph_at (recorded_by recorder.old) second) }
    ensures recorder { IsRecorderOf session.now recorder.new }
    ensures same { recorded_by recorder.new ≡ recorded_by recorder.old }
{
    let first_answers = graph_answers(session, recorder, first, &ONE_ANSWERS);
    let second_answers = graph_answers(session, recorder, second, &TWO_ANSWERS);
    first_answers && second_answers
}

/// What is answered after the close for the line of the first graph that faulted, and for that of the second that
/// was done.
fn after_close(session: Session, recorder: Recorder, first: u32, second: u32) -> [Answer; 2]
    requires recorder { IsRecorderOf session recorder }
    requires first { 3 ≤ length (graph_at (recorded_by recorder) first) }
    requires second { 4 ≤ length (graph_at (recorded_by recorder) second) }
{
    let faulted = recorder.handle_of(first, 1);
    let done = recorder.handle_of(second, 3);
    let left = session.close(recorder);
    [left.look(faulted), left.look(done)]
}

#[test]
fn each_line_answers_by_its_end(rt: HostRuntime) -> Result<(), Fail> {
    let alloc = rt.alloc();
    let one = ends_of(alloc, &ONE)?;
    let two = ends_of(alloc, &TWO)?;
    let Ok((session, mut recorder)) = Session::new(alloc, 3) else {
        return Err("no memory".into());
    };
    let Ok(first) = record_graph(&session, alloc, &mut recorder, &one) else {
        return Err("one is refused".into());
    };
    assert!(rt; graph_answers(&session, &mut recorder, first, &ONE_ANSWERS));
    let Ok(second) = record_graph(&session, alloc, &mut recorder, &two) else {
        return Err("two is refused".into());
    };
    assert_eq!(rt; (first, second), (0, 1));
    assert!(rt; both_answer(&session, &mut recorder, first, second));
    let answers = after_close(session, recorder, first, second);
    assert_eq!(rt; answers, [Answer::Poisoned, Answer::Triggered]);
    Ok(())
}
