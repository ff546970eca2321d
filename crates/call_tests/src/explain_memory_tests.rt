//! The calls that take memory. With ample memory each gives its answer. Where one request is refused, as by
//! `tests/refused-memory`, it says so, and the same call made again gives its answer; the test ends with the name of
//! the call then, which that script reads.

ghost use Rattle.std.specs.Prelude.{◌≡◌, length};

use explain_top::{Verdict, explain_bytes};
use explanations::paths::shortest_path;
use explanations::races::least_shared;
use explanations::reaches::{path_to, waiting_lines};
use graph_model::graph::Graph;
use graph_reader::read_graph;
use index_spaces::NoMemory;
use std::alloc::Global;
use std::test::Fail;
use test_texts::graphs::{FAULTY_PATHS, LOCKED_SUMS};
use test_texts::memory::after;

#[test]
fn each_call(rt: HostRuntime) -> Result<(), Fail> {
    let alloc = rt.alloc();
    let graph = read_graph(alloc, LOCKED_SUMS.as_bytes())?;
    if graph.lines() != 10 {
        return Err("before the calls".into());
    }
    path(alloc, &graph)?;
    shared(alloc, &graph)?;
    waiting(alloc, &graph)?;
    for (bytes, verdict) in [
        (FAULTY_PATHS, Verdict::Accepted),
        (CYCLE, Verdict::Unfit),
        (SECOND_NAME, Verdict::Unread),
    ] {
        explained(alloc, bytes, verdict)?;
    }
    Ok(())
}

/// A cycle of three lines.
const CYCLE: &str = "realm 1\nu = user\nx = merge u\nt = trigger u on x\nend\n";

/// A name that is given twice, below a comment.
const SECOND_NAME: &str = "realm 3\n# twice\nu = user\nu = user\nend\n";

/// What becomes of a text, and why, with the ends of lines.
fn explained(alloc: Global, bytes: &str, verdict: Verdict) -> Result<(), Fail> {
    match explain_bytes(alloc, bytes.as_bytes(), true) {
        Ok(answer) => after("explain_bytes", false, answer.verdict == verdict),
        Err(NoMemory) => after(
            "explain_bytes",
            true,
            explain_bytes(alloc, bytes.as_bytes(), true).is_ok(),
        ),
    }
}

/// From the first fill to the release of its section.
fn path(alloc: Global, graph: &Graph) -> Result<(), Fail>
    requires { length graph.now.lines ≡ 10 }
{
    match shortest_path(alloc, graph, 0, 5) {
        Ok(path) => after("shortest_path", false, path.is_some()),
        Err(NoMemory) => after(
            "shortest_path",
            true,
            shortest_path(alloc, graph, 0, 5).is_ok(),
        ),
    }
}

/// The two sums into one column.
fn shared(alloc: Global, graph: &Graph) -> Result<(), Fail>
    requires { length graph.now.lines ≡ 10 }
{
    match least_shared(alloc, graph, 3, 7) {
        Ok(point) => after("least_shared", false, point.is_some()),
        Err(NoMemory) => after(
            "least_shared",
            true,
            least_shared(alloc, graph, 3, 7).is_ok(),
        ),
    }
}

/// Why lines wait, and the way to one of them.
fn waiting(alloc: Global, graph: &Graph) -> Result<(), Fail>
    requires { length graph.now.lines ≡ 10 }
{
    let reaches = match waiting_lines(alloc, graph) {
        Ok(reaches) => reaches,
        Err(NoMemory) => {
            return after("waiting_lines", true, waiting_lines(alloc, graph).is_ok());
        }
    };
    match path_to(alloc, reaches.as_slice(), 0) {
        Ok(path) => after("path_to", false, path.is_empty()),
        Err(NoMemory) => after(
            "path_to",
            true,
            path_to(alloc, reaches.as_slice(), 0).is_ok(),
        ),
    }
}
