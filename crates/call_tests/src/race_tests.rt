//! Where two lines that conflict meet.

use explanations::races::{SharedPoint, least_shared};
use graph_reader::read_graph;
use graph_terms::verb::{Access, Mode};
use std::alloc::Global;
use std::test::Fail;

/// A graph, two lines of it, and where they meet.
#[derive(Clone, Copy)]
struct Row<'a> {
    graph: &'a str,
    first: u32,
    second: u32,
    shared: Option<SharedPoint>,
}

impl Row<'_> {
    /// Fails where they meet elsewhere.
    fn run(&self, alloc: Global) -> Result<(), Fail> {
        let graph = read_graph(alloc, self.graph.as_bytes())?;
        if self.first >= graph.lines() || self.second >= graph.lines() {
            return Err("no such line".into());
        }
        if least_shared(alloc, &graph, self.first, self.second)? == self.shared {
            return Ok(());
        }
        Err(Fail::new(format_args!("{} and {}: {}", self.first, self.second, self.graph)))
    }
}

/// Two copies, the first from column 0 to column 1, the second from column 1 to column 0, over spaces that share the
/// points 4 and 5 alone; and a fill beside them.
const CROSSED: &str = "realm 1\n\
    space a 0..1,4..5\n\
    space b 3..7\n\
    space w 0..9\n\
    space z 8..9\n\
    inst i w x,y\n\
    f = copy i.x i.y a\n\
    g = copy i.y i.x b\n\
    h = fill i.x z 1\n\
    r = copy i.x i.y b on g\n\
    end\n";

const ROWS: [Row<'static>; 3] = [
    Row {
        graph: CROSSED,
        first: 0,
        second: 1,
        shared: Some(SharedPoint {
            point: 4,
            one: Access {
                column: 0,
                space: 0,
                mode: Mode::Read,
            },
            other: Access {
                column: 0,
                space: 1,
                mode: Mode::Write,
            },
        }),
    },
    Row {
        graph: CROSSED,
        first: 1,
        second: 2,
        shared: None,
    },
    Row {
        graph: CROSSED,
        first: 0,
        second: 3,
        shared: Some(SharedPoint {
            point: 4,
            one: Access {
                column: 1,
                space: 0,
                mode: Mode::Write,
            },
            other: Access {
                column: 1,
                space: 1,
                mode: Mode::Write,
            },
        }),
    },
];

#[test]
fn shared_points(rt: HostRuntime) -> Result<(), Fail> {
    let alloc = rt.alloc();
    for row in &ROWS {
        row.run(alloc)?;
    }
    Ok(())
}
