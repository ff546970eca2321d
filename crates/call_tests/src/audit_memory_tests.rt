//! The calls that take memory. With ample memory each gives its answer. Where one request is refused, as by
//! `tests/refused-memory`, it says so, and the same call made again gives its answer; the test ends with the name of
//! the call then, which that script reads.

ghost use Rattle.realm_audit.specs.Reading.{AreLines};

use graph_reader::read_graph;
use graph_terms::lists::LineList;
use plain_eval::evaluation::eval;
use race_check::check;
use race_check::checked::Checked;
use realm_audit::{AuditRefusal, TraceRefusal, audit, read_trace};
use std::alloc::Global;
use std::test::Fail;
use test_texts::graphs::WAITER_ABOVE_TRIGGER;
use test_texts::memory::after;

/// A trace of that graph.
const TRACE: &[u8] = b"realm-trace 1\nat g\nat t\nat u\nat f\ndone\n";

/// Evaluates the graph, and audits its trace.
fn audits(alloc: Global, checked: &Checked, trace: &LineList) -> Result<(), Fail>
    requires { AreLines checked.now.graph trace.now }
{
    let outcome = eval(alloc, checked)?;
    match audit(alloc, checked.graph(), &outcome.ends, trace) {
        Ok(()) => after("audit", false, true),
        Err(AuditRefusal::NoMemory) => {
            let again = audit(alloc, checked.graph(), &outcome.ends, trace);
            after("audit", true, again.is_ok())
        }
        Err(_) => after("audit", false, false),
    }
}

#[test]
fn each_call(rt: HostRuntime) -> Result<(), Fail> {
    let alloc = rt.alloc();
    let Ok(checked) = check(alloc, read_graph(alloc, WAITER_ABOVE_TRIGGER.as_bytes())?) else {
        return Err("refused".into());
    };
    match read_trace(alloc, checked.graph(), TRACE) {
        Ok(trace) => audits(alloc, &checked, &trace),
        Err(TraceRefusal::NoMemory) => {
            let again = read_trace(alloc, checked.graph(), TRACE);
            after("read_trace", true, again.is_ok())
        }
        Err(TraceRefusal::Line(_)) => after("read_trace", false, false),
    }
}
