//! Each call that takes memory, by itself. With ample memory each gives its answer. Where one request is refused, as
//! by `tests/refused-memory`, the call says so, and the same call made again gives its answer; the test ends with the
//! name of the call then, which that script reads.

use crate::asking::{ends_of, graph_answers, record_graph};
use crate::session_tests::{ONE, ONE_ANSWERS};
use event_table::EventTable;
use home_queues::HomeQueues;
use realm_session::{NoMemory, RecordRefusal, Session};
use shared_events::Events;
use std::alloc::Global;
use std::test::Fail;
use test_texts::memory::after;

fn makes_tables(alloc: Global) -> Result<(), Fail> {
    let made = EventTable::new(alloc, 1, 1, 2);
    match made {
        Ok(mut table) => after("EventTable::new", false, table.create().is_some())?,
        Err(_) => {
            let again = EventTable::new(alloc, 1, 1, 2).is_ok();
            after("EventTable::new", true, again)?;
        }
    }
    match Events::new(alloc, 1, 1, 2) {
        Ok((events, _maker, _seat, mut set)) => {
            after("Events::new", false, set.take(&events).is_some())
        }
        Err(_) => {
            let again = Events::new(alloc, 1, 1, 2).is_ok();
            after("Events::new", true, again)
        }
    }
}

fn enters(alloc: Global) -> Result<(), Fail> {
    let ends = ends_of(alloc, &ONE)?;
    let Ok((session, mut recorder)) = Session::new(alloc, 2) else {
        return Err("no memory".into());
    };
    match record_graph(&session, alloc, &mut recorder, &ends) {
        Ok(graph) => {
            let answers = graph_answers(&session, &mut recorder, graph, &ONE_ANSWERS);
            after("Session::enter", false, graph == 0 && answers)
        }
        Err(refusal) => {
            let again = record_graph(&session, alloc, &mut recorder, &ends) == Ok(0);
            after(
                "Session::enter",
                true,
                refusal == RecordRefusal::NoMemory && again,
            )
        }
    }
}

fn makes_queues(alloc: Global) -> Result<(), Fail> {
    match HomeQueues::new(alloc, 10, 3) {
        Ok((_queues, mut list)) => after("HomeQueues::new", false, list.parts().len() == 3),
        Err(_) => after(
            "HomeQueues::new",
            true,
            HomeQueues::new(alloc, 10, 3).is_ok(),
        ),
    }
}

#[test]
fn each_call(rt: HostRuntime) -> Result<(), Fail> {
    let alloc = rt.alloc();
    makes_tables(alloc)?;
    match Session::new(alloc, 2) {
        Ok(_) => after("Session::new", false, true)?,
        Err(NoMemory) => after("Session::new", true, Session::new(alloc, 2).is_ok())?,
    }
    enters(alloc)?;
    makes_queues(alloc)
}
