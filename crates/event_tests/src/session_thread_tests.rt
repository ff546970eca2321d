//! Two threads ask for all events of a graph, by seats of their own, while the next graph is recorded.

ghost use Rattle.std.specs.Prelude.{◌≡◌, ◌<◌, ◌≤◌, length};
ghost use Rattle.std.specs.List.{AllWithin};
ghost use Rattle.std.specs.Thread.{IsSync};
ghost use Rattle.realm_session.specs.Recorded.{graph_at};
ghost use Rattle.realm_session.specs.Sessions.{recorded_by, IsRecorderOf, IsSeatOf, CanAsk};

use crate::asking::{ends_of, enter_times, record_graph};
use crate::session_tests::{ONE, ONE_ANSWERS, TWO};
use graph_terms::lists::EndList;
use realm_session::{Handle, Recorder, Seat, Session};
use std::alloc::Global;
use std::test::Fail;
use std::thread::{Threads, join};

/// Who asks for three handles, and whether each answered as it should.
#[derive(Drop)]
struct Asker {
    seat: Seat,
    handles: [Handle; 3],
    agrees: bool,
}

/// Who asks for the three lines of a graph.
fn asker_of(session: &Session, recorder: &mut Recorder, graph: u32) -> Asker
    requires recorder { IsRecorderOf session.now recorder.old }
    requires lines { 3 ≤ length (graph_at (recorded_by recorder.old) graph) }
    ensures recorder { IsRecorderOf session.now recorder.new }
    ensures same { recorded_by recorder.new ≡ recorded_by recorder.old }
    ensures at { IsSeatOf session.now result.seat }
    ensures can_ask { AllWithin (CanAsk result.seat) result.handles 0 3 }
{
    let handles = [
        recorder.handle_of(graph, 0),
        recorder.handle_of(graph, 1),
        recorder.handle_of(graph, 2),
    ];
    let seat = session.asker(recorder);
    Asker {
        seat,
        handles,
        agrees: true,
    }
}

/// Asks for all of them, over and over.
fn ask_all(session: &Session, mut asker: Asker) -> Asker
    requires at { IsSeatOf session.now asker.seat }
    requires can_ask { AllWithin (CanAsk asker.seat) asker.handles 0 3 }
    ensures at { IsSeatOf session.now result.seat }
{
    for turn in 0..3000 {
        let place = turn % 3;
        let handle = asker.handles[place];
        let answer = session.ask(&mut asker.seat, handle);
        asker.agrees = asker.agrees && answer == ONE_ANSWERS[place];
    }
    asker
}

/// Records a graph so many times.
fn record(
    session: &Session,
    alloc: Global,
    mut recorder: Recorder,
    ends: &EndList,
) -> (Recorder, bool)
    requires recorder { IsRecorderOf session.now recorder }
    requires graphs { length (recorded_by recorder).graphs < 1000 }
    ensures recorder { IsRecorderOf session.now result.0 }
{
    let entered = enter_times(session, alloc, &mut recorder, ends, 200);
    (recorder, entered)
}

/// Two askers, each in a thread of its own.
fn ask_both<R: Threads + Sync>(rt: &R, session: &Session, one: Asker, other: Asker) -> [bool; 2]
    requires one { IsSeatOf session.now one.seat × AllWithin (CanAsk one.seat) one.handles 0 3 }
    requires other { IsSeatOf session.now other.seat × AllWithin (CanAsk other.seat) other.handles 0 3 }
{
    let (one, other) = join(
        rt,
        || -> Asker
            requires { IsSeatOf session.now one.seat × AllWithin (CanAsk one.seat) one.handles 0 3 }
            ensures { IsSeatOf session.entry.now result.seat }
        { ask_all(session, one) },
        || -> Asker
            requires { IsSeatOf session.now other.seat × AllWithin (CanAsk other.seat) other.handles 0 3 }
            ensures { IsSeatOf session.entry.now result.seat }
        { ask_all(session, other) },
    );
    [one.agrees, other.agrees]
}

/// Records a graph over and over while two threads ask: whether none was refused, and whether each answer was right.
fn record_beside<R: Threads + Sync>(
    rt: &R,
    alloc: Global,
    session: &Session,
    recorder: Recorder,
    ends: &EndList,
    one: Asker,
    other: Asker,
) -> (bool, [bool; 2])
    requires recorder { IsRecorderOf session.now recorder }
    requires graphs { length (recorded_by recorder).graphs < 1000 }
    requires one { IsSeatOf session.now one.seat × AllWithin (CanAsk one.seat) one.handles 0 3 }
    requires other { IsSeatOf session.now other.seat × AllWithin (CanAsk other.seat) other.handles 0 3 }
{
    let (recorded, agree) = join(
        rt,
        || -> (Recorder, bool)
            requires { IsRecorderOf session.now recorder × (length (recorded_by recorder).graphs < 1000) }
            ensures { IsRecorderOf session.entry.now result.0 }
        { record(session, alloc, recorder, ends) },
        || -> [bool; 2]
            requires { IsSync R.row × (IsSeatOf session.now one.seat × AllWithin (CanAsk one.seat) one.handles 0 3)
                × (IsSeatOf session.now other.seat × AllWithin (CanAsk other.seat) other.handles 0 3) }
        { ask_both(rt, session, one, other) },
    );
    (recorded.1, agree)
}

#[test]
fn two_threads_ask_while_a_graph_is_recorded(rt: HostRuntime) -> Result<(), Fail> {
    let alloc = rt.alloc();
    let one = ends_of(alloc, &ONE)?;
    let two = ends_of(alloc, &TWO)?;
    let Ok((session, mut recorder)) = Session::new(alloc, 300) else {
        return Err("no memory".into());
    };
    let Ok(graph) = record_graph(&session, alloc, &mut recorder, &one) else {
        return Err("one is refused".into());
    };
    let first = asker_of(&session, &mut recorder, graph);
    let second = asker_of(&session, &mut recorder, graph);
    let (recorded, agree) = record_beside(&rt, alloc, &session, recorder, &two, first, second);
    assert!(rt; recorded);
    assert_eq!(rt; agree, [true, true]);
    Ok(())
}
