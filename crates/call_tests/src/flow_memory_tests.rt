//! The calls that take memory. With ample memory each gives its answer. Where one request is refused, as by
//! `tests/refused-memory`, it says so, and the same call made again gives its answer; the test ends with the name of
//! the call then, which that script reads.

ghost use Rattle.flow_order.specs.Flow.{IsFlow};

use flow_top::{FlowFault, answer_flow, read_flow};
use graph_model::graph::Graph;
use graph_terms::format::Format;
use std::alloc::Global;
use std::test::Fail;
use task_flow::{FlowRefusal, make_graph};
use test_texts::memory::after;

/// A flow whose graph has a merge.
const FLOW: &[u8] =
    b"realm-flow 1\nspace s 0..3\ninst a s x,y\nf = fill a.x s 1\ng = fill a.y s 2\n\
    h = reduce sum a.x a.y s\nend\n";

/// A flow with two sums in one column, which stand in sections where sums commute.
const SUMS: &[u8] =
    b"realm-flow 1\nspace s 0..3\ninst a s x,y\nf = reduce sum a.x a.y s\ng = reduce sum a.x a.y s\nend\n";

/// Makes the graph of a flow, which has so many lines.
fn makes(alloc: Global, flow: &Graph, commute: bool, lines: u32) -> Result<(), Fail>
    requires { IsFlow flow.now }
{
    match make_graph(alloc, flow, commute) {
        Ok(graph) => after("make_graph", false, graph.lines() == lines),
        Err(FlowRefusal::NoMemory) => {
            after("make_graph", true, make_graph(alloc, flow, commute).is_ok())
        }
        Err(FlowRefusal::Limit { .. }) => after("make_graph", false, false),
    }
}

#[test]
fn each_call(rt: HostRuntime) -> Result<(), Fail> {
    let alloc = rt.alloc();
    match read_flow(alloc, FLOW) {
        Ok(flow) => makes(alloc, &flow, false, 4),
        Err(FlowFault::NoMemory) => after("read_flow", true, read_flow(alloc, FLOW).is_ok()),
        Err(FlowFault::Line { .. }) => after("read_flow", false, false),
    }
}

#[test]
fn sections(rt: HostRuntime) -> Result<(), Fail> {
    let alloc = rt.alloc();
    match read_flow(alloc, SUMS) {
        Ok(flow) => makes(alloc, &flow, true, 8),
        Err(FlowFault::NoMemory) => after("read_flow", true, read_flow(alloc, SUMS).is_ok()),
        Err(FlowFault::Line { .. }) => after("read_flow", false, false),
    }
}

#[test]
fn an_answer(rt: HostRuntime) -> Result<(), Fail> {
    let alloc = rt.alloc();
    match answer_flow(alloc, FLOW, false, Format::One) {
        Ok(text) => after("answer_flow", false, text.len() == 128),
        Err(FlowFault::NoMemory) => {
            after(
                "answer_flow",
                true,
                answer_flow(alloc, FLOW, false, Format::One).is_ok(),
            )
        }
        Err(FlowFault::Line { .. }) => after("answer_flow", false, false),
    }
}
