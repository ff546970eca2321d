//! Why lines wait or are cancelled: the line with which that begins, and how many edges lead from there.

use crate::path_tests::follows;
use explanations::reaches::{Reach, cancelled_lines, path_to, waiting_lines};
use graph_model::graph::Graph;
use graph_reader::read_graph;
use plain_eval::evaluation::eval;
use race_check::check;
use std::alloc::Global;
use std::test::Fail;

/// A graph, and for each line with which line what reaches it begins, by how many edges.
#[derive(Clone, Copy)]
struct Row<'a> {
    graph: &'a str,
    waiting: &'a [Option<(u32, u32)>],
    cancelled: &'a [Option<(u32, u32)>],
}

impl Row<'_> {
    /// Fails where a line is reached otherwise.
    fn run(&self, alloc: Global) -> Result<(), Fail> {
        let graph = read_graph(alloc, self.graph.as_bytes())?;
        let waiting = waiting_lines(alloc, &graph)?;
        let Ok(checked) = check(alloc, graph) else {
            return Err(self.fail("refused"));
        };
        let outcome = eval(alloc, &checked)?;
        let cancelled = cancelled_lines(alloc, checked.graph(), &outcome.ends)?;
        if !are_reached(waiting.as_slice(), self.waiting) {
            return Err(self.fail("waiting"));
        }
        if !are_reached(cancelled.as_slice(), self.cancelled) {
            return Err(self.fail("cancelled"));
        }
        Ok(())
    }

    fn fail(&self, what: &str) -> Fail {
        Fail::new(format_args!("{what}: {}", self.graph))
    }
}

/// Whether each line is reached so, and a line is its own start exactly where no edge leads to it.
fn are_reached(reaches: &[Option<Reach>], wanted: &[Option<(u32, u32)>]) -> bool {
    if reaches.len() != wanted.len() {
        return false;
    }
    for (reach, want) in reaches.iter().zip(wanted) {
        let is_so = match (reach, want) {
            (Some(reach), Some((start, steps))) => {
                reach.start == *start
                    && reach.steps == *steps
                    && reach.by.is_none() == (*steps == 0)
            }
            (None, None) => true,
            _ => false,
        };
        if !is_so {
            return false;
        }
    }
    true
}

/// Two lines that never come, a line that both reach, and two lines that wait for neither.
const TWO_NEVER: &str = "realm 1\n\
    a = user\n\
    b = merge a\n\
    c = user\n\
    d = trigger c on b\n\
    e = merge c\n\
    f = user\n\
    g = merge f e\n\
    h = user\n\
    t = trigger h\n\
    end\n";

/// A cancelled event, a line that waits for it, a merge that ignores that, and what waits for the merge.
const CANCELLED_EVENT: &str = "realm 1\n\
    u = user\n\
    c = cancel u\n\
    m = merge u\n\
    i = mergei m\n\
    x = merge i\n\
    end\n";

/// A cancel that is cancelled itself, by another.
const CANCELLED_CANCEL: &str = "realm 1\n\
    u = user\n\
    v = user\n\
    c = cancel u\n\
    d = cancel v on u\n\
    w = merge v\n\
    end\n";

const ROWS: [Row<'static>; 3] = [
    Row {
        graph: TWO_NEVER,
        waiting: &[
            Some((0, 0)),
            Some((0, 1)),
            Some((0, 3)),
            Some((0, 2)),
            Some((0, 4)),
            Some((5, 0)),
            Some((5, 1)),
            None,
            None,
        ],
        cancelled: &[None; 9],
    },
    Row {
        graph: CANCELLED_EVENT,
        waiting: &[None; 5],
        cancelled: &[Some((1, 1)), Some((1, 0)), Some((1, 2)), None, None],
    },
    Row {
        graph: CANCELLED_CANCEL,
        waiting: &[None; 5],
        cancelled: &[
            Some((2, 1)),
            Some((2, 3)),
            Some((2, 0)),
            Some((2, 2)),
            Some((2, 4)),
        ],
    },
];

#[test]
fn reached_lines(rt: HostRuntime) -> Result<(), Fail> {
    let alloc = rt.alloc();
    for row in &ROWS {
        row.run(alloc)?;
    }
    Ok(())
}

/// The edges of the way to a line, from the line that never comes.
#[test]
fn way_to_a_line(rt: HostRuntime) -> Result<(), Fail> {
    let alloc = rt.alloc();
    let graph = read_graph(alloc, TWO_NEVER.as_bytes())?;
    if leads(alloc, &graph, 4, &[0, 1, 3, 2, 4])? && leads(alloc, &graph, 7, &[])? {
        return Ok(());
    }
    Err("another way".into())
}

/// Whether the way to a line leads along these lines.
fn leads(alloc: Global, graph: &Graph, line: u32, lines: &[u32]) -> Result<bool, Fail> {
    let reaches = waiting_lines(alloc, graph)?;
    let path = path_to(alloc, reaches.as_slice(), line)?;
    Ok(if lines.is_empty() {
        path.is_empty()
    } else {
        follows(path.as_slice(), lines)
    })
}
