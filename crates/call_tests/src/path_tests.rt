//! Shortest paths and cycles, by the numbers of the lines on them.

use explanations::paths::{shortest_cycle, shortest_path};
use graph_model::graph::Graph;
use graph_reader::read_graph;
use graph_terms::verb::Edge;
use std::alloc::Global;
use std::test::Fail;
use test_texts::graphs::WAITER_ABOVE_TRIGGER;

/// A graph, two lines of it, and the lines of a shortest path from the first to the second: none where no path
/// leads there.
#[derive(Clone, Copy)]
struct Row<'a> {
    graph: &'a str,
    from: u32,
    to: u32,
    lines: &'a [u32],
}

impl Row<'_> {
    /// Fails where the path is another one.
    fn run(&self, alloc: Global) -> Result<(), Fail> {
        let graph = read_graph(alloc, self.graph.as_bytes())?;
        if self.from >= graph.lines() || self.to >= graph.lines() {
            return Err("no such line".into());
        }
        let path = shortest_path(alloc, &graph, self.from, self.to)?;
        if self.is_path(&path) && self.is_cycle(alloc, &graph)? {
            return Ok(());
        }
        Err(Fail::new(format_args!("{} to {}: {}", self.from, self.to, self.graph)))
    }

    /// Whether these are the edges along the lines of the row.
    fn is_path(&self, path: &Option<Vec<Edge>>) -> bool {
        match path {
            None => self.lines.is_empty(),
            Some(edges) => follows(edges.as_slice(), self.lines),
        }
    }

    /// Whether a path from a line to itself is what a cycle is.
    fn is_cycle(&self, alloc: Global, graph: &Graph) -> Result<bool, Fail> {
        if self.from != self.to || self.from >= graph.lines() {
            return Ok(true);
        }
        let cycle = shortest_cycle(alloc, graph, self.from)?;
        Ok(self.is_path(&cycle))
    }
}

/// Whether edges lead along these lines.
pub(crate) fn follows(edges: &[Edge], lines: &[u32]) -> bool {
    if edges.len() >= lines.len() || edges.len() + 1 != lines.len() {
        return false;
    }
    for (k, edge) in edges.iter().enumerate() {
        if edge.from != lines[k] || edge.to != lines[k + 1] {
            return false;
        }
    }
    true
}

/// Three ways from the first line to the last, of which one has two edges; the other two have three.
const THREE_WAYS: &str = "realm 1\n\
    a = user\n\
    b = merge a\n\
    c = merge b\n\
    d = merge a\n\
    e = merge c d\n\
    f = merge a\n\
    g = merge f e\n\
    t = trigger a\n\
    end\n";

/// A cycle of three lines.
const CYCLE: &str = "realm 1\n\
    u = user\n\
    x = merge u\n\
    t = trigger u on x\n\
    end\n";

/// Two cycles through the first line, one of three lines and one of four.
const TWO_CYCLES: &str = "realm 1\n\
    u = user\n\
    x = merge u\n\
    y = merge x\n\
    z = merge y u\n\
    t = trigger u on z\n\
    end\n";

const ROWS: [Row<'static>; 7] = [
    Row {
        graph: WAITER_ABOVE_TRIGGER,
        from: 2,
        to: 1,
        lines: &[2, 3, 0, 1],
    },
    Row {
        graph: WAITER_ABOVE_TRIGGER,
        from: 1,
        to: 2,
        lines: &[],
    },
    Row {
        graph: WAITER_ABOVE_TRIGGER,
        from: 1,
        to: 1,
        lines: &[],
    },
    Row {
        graph: THREE_WAYS,
        from: 0,
        to: 6,
        lines: &[0, 5, 6],
    },
    Row {
        graph: THREE_WAYS,
        from: 7,
        to: 4,
        lines: &[7, 0, 3, 4],
    },
    Row {
        graph: CYCLE,
        from: 0,
        to: 0,
        lines: &[0, 1, 2, 0],
    },
    Row {
        graph: TWO_CYCLES,
        from: 0,
        to: 0,
        lines: &[0, 3, 4, 0],
    },
];

#[test]
fn paths(rt: HostRuntime) -> Result<(), Fail> {
    let alloc = rt.alloc();
    for row in &ROWS {
        row.run(alloc)?;
    }
    Ok(())
}
