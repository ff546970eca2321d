//! What is refused, and that nothing else is.

ghost use Rattle.std.specs.Prelude.{ℕ, ◌≡◌, ◌<◌, ◌≤◌, ◌+◌, length, IfSome};
ghost use Rattle.realm_session.specs.Recorded.{graph_at};
ghost use Rattle.realm_session.specs.Sessions.{recorded_by, IsRecorderOf};

use crate::asking::{ends_of, enter_times, graph_answers, handles_of, left_answers, record_graph};
use graph_terms::lists::EndList;
use graph_terms::outcome::End;
use realm_session::{Answer, RecordRefusal, Recorder, Session};
use std::alloc::{AllocError, Global};
use std::test::Fail;

/// Lines that are done among lines that are not, so that no answer of one line alone is right for all of them.
const EIGHT: [End; 8] = [
    End::Done,
    End::Faulted,
    End::Cancelled,
    End::Done,
    End::Done,
    End::Done,
    End::Cancelled,
    End::Faulted,
];

const EIGHT_ANSWERS: [Answer; 8] = [
    Answer::Triggered,
    Answer::Poisoned,
    Answer::Poisoned,
    Answer::Triggered,
    Answer::Triggered,
    Answer::Triggered,
    Answer::Poisoned,
    Answer::Poisoned,
];

/// Done exactly where the line of the eight at the same place is not.
const MIDDLE: [End; 8] = [
    End::Faulted,
    End::Done,
    End::Done,
    End::Cancelled,
    End::Faulted,
    End::Cancelled,
    End::Done,
    End::Done,
];

const MIDDLE_ANSWERS: [Answer; 8] = [
    Answer::Poisoned,
    Answer::Triggered,
    Answer::Triggered,
    Answer::Poisoned,
    Answer::Poisoned,
    Answer::Poisoned,
    Answer::Triggered,
    Answer::Triggered,
];

const LAST: [End; 7] = [
    End::Done,
    End::Done,
    End::Faulted,
    End::Faulted,
    End::Cancelled,
    End::Done,
    End::Done,
];

const LAST_ANSWERS: [Answer; 7] = [
    Answer::Triggered,
    Answer::Triggered,
    Answer::Poisoned,
    Answer::Poisoned,
    Answer::Poisoned,
    Answer::Triggered,
    Answer::Triggered,
];

/// Records a graph whose lines end so, and behind it so many others: the number of the first, where none was refused.
fn record_before(
    session: &Session,
    alloc: Global,
    recorder: &mut Recorder,
    ends: &EndList,
    others: &EndList,
    times: u32,
) -> Option<u32>
    requires recorder { IsRecorderOf session.now recorder.old }
    requires graphs { length (recorded_by recorder.old).graphs + times < 4294967294 }
    ensures recorder { IsRecorderOf session.now recorder.new }
    ensures lines { IfSome result (λ g. length ends.now ≤ length (graph_at (recorded_by recorder.new) g)) }
    ensures kept { (g : ℕ) → length (graph_at (recorded_by recorder.old) g) ≤ length (graph_at (recorded_by recorder.new) g) }
    ensures graphs { length (recorded_by recorder.new).graphs ≤ length (recorded_by recorder.old).graphs + 1 + times }
{
    let graph = record_graph(session, alloc, recorder, ends);
    let entered = enter_times(session, alloc, recorder, others, times);
    match graph {
        Ok(number) if entered => Some(number),
        _ => None,
    }
}

/// Whether each line of three graphs answers by its end.
fn three_answer(
    session: &Session,
    recorder: &mut Recorder,
    first: u32,
    middle: u32,
    last: u32,
) -> bool
    requires recorder { IsRecorderOf session.now recorder.old }
    requires first { 8 ≤ length (graph_at (recorded_by recorder.old) first) }
    requires middle { 8 ≤ length (graph_at (recorded_by recorder.old) middle) }
    requires last { 7 ≤ length (graph_at (recorded_by recorder.old) last) }
    ensures recorder { IsRecorderOf session.now recorder.new }
    ensures same { recorded_by recorder.new ≡ recorded_by recorder.old }
{
    let first_answers = graph_answers(session, recorder, first, &EIGHT_ANSWERS);
    let middle_answers = graph_answers(session, recorder, middle, &MIDDLE_ANSWERS);
    let last_answers = graph_answers(session, recorder, last, &LAST_ANSWERS);
    first_answers && middle_answers && last_answers
}

/// The same, of what the session leaves.
fn three_answer_left(
    alloc: Global,
    session: Session,
    recorder: Recorder,
    first: u32,
    middle: u32,
    last: u32,
) -> Result<bool, AllocError>
    requires recorder { IsRecorderOf session recorder }
    requires first { 8 ≤ length (graph_at (recorded_by recorder) first) }
    requires middle { 8 ≤ length (graph_at (recorded_by recorder) middle) }
    requires last { 7 ≤ length (graph_at (recorded_by recorder) last) }
{
    let of_first = handles_of(alloc, &recorder, first, 8)?;
    let of_middle = handles_of(alloc, &recorder, middle, 8)?;
    let of_last = handles_of(alloc, &recorder, last, 7)?;
    let left = session.close(recorder);
    let first_answers = left_answers(&left, of_first.as_slice(), &EIGHT_ANSWERS);
    let middle_answers = left_answers(&left, of_middle.as_slice(), &MIDDLE_ANSWERS);
    let last_answers = left_answers(&left, of_last.as_slice(), &LAST_ANSWERS);
    Ok(first_answers && middle_answers && last_answers)
}

/// 1,023 graphs of eight lines and one of seven are 8,191 lines. Each line answers by its end, however many came after
/// it in its slot.
#[test]
fn a_thousand_graphs_in_two_slots(rt: HostRuntime) -> Result<(), Fail> {
    let alloc = rt.alloc();
    let eight = ends_of(alloc, &EIGHT)?;
    let others = ends_of(alloc, &MIDDLE)?;
    let seven = ends_of(alloc, &LAST)?;
    let one = ends_of(alloc, &[End::Done])?;
    let none = ends_of(alloc, &[])?;
    let Ok((session, mut recorder)) = Session::new(alloc, 2) else {
        return Err("no memory".into());
    };
    let Some(first) = record_before(&session, alloc, &mut recorder, &eight, &eight, 511) else {
        return Err("the first is refused".into());
    };
    let Some(middle) = record_before(&session, alloc, &mut recorder, &others, &eight, 510) else {
        return Err("the middle one is refused".into());
    };
    let after_them = record_graph(&session, alloc, &mut recorder, &eight);
    assert_eq!(rt; after_them, Err(RecordRefusal::Full));
    let Ok(last) = record_graph(&session, alloc, &mut recorder, &seven) else {
        return Err("the last is refused".into());
    };
    assert_eq!(rt; (first, middle, last), (0, 512, 1023));
    let one_more = record_graph(&session, alloc, &mut recorder, &one);
    assert_eq!(rt; one_more, Err(RecordRefusal::Full));
    let without_lines = record_graph(&session, alloc, &mut recorder, &none);
    assert_eq!(rt; without_lines, Ok(1024));
    assert!(rt; three_answer(&session, &mut recorder, first, middle, last));
    let left = three_answer_left(alloc, session, recorder, first, middle, last)?;
    assert!(rt; left);
    Ok(())
}

/// One slot more is needed than there are lines that wait.
#[test]
fn each_waiting_line_needs_a_slot(rt: HostRuntime) -> Result<(), Fail> {
    let alloc = rt.alloc();
    let waiting = ends_of(alloc, &[End::Waiting])?;
    let ended = ends_of(alloc, &[End::Done, End::Faulted])?;
    let Ok((session, mut recorder)) = Session::new(alloc, 2) else {
        return Err("no memory".into());
    };
    assert_eq!(rt;
        record_graph(&session, alloc, &mut recorder, &waiting),
        Ok(0)
    );
    assert_eq!(rt; record_graph(&session, alloc, &mut recorder, &ended), Ok(1));
    assert_eq!(rt;
        record_graph(&session, alloc, &mut recorder, &waiting),
        Err(RecordRefusal::Slots(3))
    );
    assert_eq!(rt; record_graph(&session, alloc, &mut recorder, &ended), Ok(2));
    Ok(())
}
