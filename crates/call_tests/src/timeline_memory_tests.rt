//! The call that takes memory. With ample memory it gives its answer. Where one request is refused, as by
//! `tests/refused-memory`, it says so, and the same call made again gives its answer; the test ends with the name of
//! the call then, which that script reads.

use graph_reader::read_graph;
use index_spaces::NoMemory;
use race_check::check;
use realm_timeline::timeline::plan;
use std::test::Fail;
use test_texts::graphs::LOCKED_SUMS;
use test_texts::memory::after;

#[test]
fn each_call(rt: HostRuntime) -> Result<(), Fail> {
    let alloc = rt.alloc();
    let Ok(checked) = check(alloc, read_graph(alloc, LOCKED_SUMS.as_bytes())?) else {
        return Err("before the call".into());
    };
    match plan(alloc, &checked, 2) {
        Ok(timeline) => after("plan", false, timeline.length() == 19),
        Err(NoMemory) => after("plan", true, plan(alloc, &checked, 2).is_ok()),
    }
}
