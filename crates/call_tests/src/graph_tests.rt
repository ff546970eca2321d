//! What a graph says of its items, and refusals that no text meets.

use graph_model::graph::Graph;
use graph_reader::read_graph;
use graph_terms::decl::Decl;
use graph_terms::found::Found;
use graph_terms::lists::{EventList, LineList, NameList};
use graph_terms::name::Name;
use graph_terms::verb::{Access, Edge, EdgeKind, Line, Mode, Verb};
use graph_terms::why::Why;
use std::alloc::Global;
use std::test::Fail;

/// The graph of two spaces, an instance, a reservation, a barrier and seven lines.
fn seven_lines(alloc: Global) -> Result<Graph, Fail> {
    let text =
        b"realm 1\nspace s 0..3\nspace w 2..7\ninst a s x,y\nlock l\nbarrier b 1 sum 10\nu = user\np = phase b\nv = arrive p 5 on u\nc = cancel u\nd = copy a.x a.y s on p\nq = acquire l on d\nr = release q on q\nend\n";
    Ok(read_graph(alloc, text.as_slice())?)
}

/// What a name stands for.
fn found(graph: &Graph, text: &[u8]) -> Option<Found> {
    graph.find(&Name::new(text)?)
}

/// The column of a field of an instance.
fn found_column(graph: &Graph, inst: &[u8], field: &[u8]) -> Option<u32> {
    graph.find_column(&Name::new(inst)?, &Name::new(field)?)
}

/// Why a line of this verb that waits for these events does not fit.
fn line_fault(graph: &Graph, verb: Verb, on: EventList) -> Option<Why> {
    let name = Name::new(b"m")?;
    graph.line_fault(&Line { name, verb, on })
}

/// The first line as the one event behind `on`.
fn first_line(alloc: Global) -> Result<EventList, Fail> {
    let mut on = EventList::new(alloc);
    on.push(0)?;
    Ok(on)
}

/// The first two lines as events behind `on`.
fn two_lines(alloc: Global) -> Result<EventList, Fail> {
    let mut on = EventList::new(alloc);
    on.push(0)?;
    on.push(1)?;
    Ok(on)
}

/// Why an instance without fields does not fit.
fn bare_fault(alloc: Global, graph: &Graph) -> Option<Why> {
    let name = Name::new(b"m")?;
    let fields = NameList::new(alloc);
    graph.decl_fault(&Decl::Inst {
        name,
        space: 0,
        fields,
    })
}

#[test]
fn answers(rt: HostRuntime) -> Result<(), Fail> {
    let graph = seven_lines(rt.alloc())?;
    assert_eq!(rt; graph.decls(), 5);
    assert_eq!(rt; graph.lines(), 7);
    let into = Edge {
        from: 3,
        to: 0,
        kind: EdgeKind::Faults,
    };
    assert_eq!(rt; graph.edges_into(0), [into].as_slice());
    let out = Edge {
        from: 0,
        to: 2,
        kind: EdgeKind::Passes,
    };
    assert_eq!(rt; graph.edges_from(0), [out].as_slice());
    assert_eq!(rt; graph.edges_into(2), [out].as_slice());
    let target = Access {
        column: 1,
        space: 0,
        mode: Mode::Write,
    };
    assert_eq!(rt; graph.access(4, 1), Some(target));
    assert_eq!(rt; graph.access(4, 2), None);
    assert!(rt; graph.is_ended(0));
    assert!(rt; graph.is_released(5));
    assert!(rt; !graph.never_comes(1));
    Ok(())
}

#[test]
fn finds_names(rt: HostRuntime) -> Result<(), Fail> {
    let graph = seven_lines(rt.alloc())?;
    assert_eq!(rt; found(&graph, b"d"), Some(Found::Line(4)));
    assert_eq!(rt; found(&graph, b"a"), Some(Found::Inst(2)));
    assert_eq!(rt; found(&graph, b"x"), None);
    assert_eq!(rt; found_column(&graph, b"a", b"y"), Some(1));
    Ok(())
}

#[test]
fn refuses_items(rt: HostRuntime) -> Result<(), Fail> {
    let alloc = rt.alloc();
    let graph = seven_lines(alloc)?;
    let phase = Verb::Phase { barrier: 0 };
    let first = first_line(alloc)?;
    assert_eq!(rt; line_fault(&graph, phase, first), Some(Why::Kind));
    let acquire = Verb::Acquire {
        lock: 0,
        shared: false,
    };
    let two = two_lines(alloc)?;
    assert_eq!(rt; line_fault(&graph, acquire, two), Some(Why::Kind));
    let events = LineList::new(alloc);
    let merge = Verb::Merge { events };
    assert_eq!(rt;
        line_fault(&graph, merge, EventList::new(alloc)),
        Some(Why::Number)
    );
    assert_eq!(rt; bare_fault(alloc, &graph), Some(Why::Number));
    Ok(())
}
