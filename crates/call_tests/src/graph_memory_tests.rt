//! Each call that takes memory, by itself. With ample memory each gives its answer. Where one request is refused, as
//! by `tests/refused-memory`, the call says so, what it was handed is as it should be, and the same call made again
//! gives its answer; the test ends with the name of the call then, which that script reads.

ghost use Rattle.std.specs.Prelude.{◌≡◌, []};

use graph_gen::make::make;
use graph_model::graph::Graph;
use graph_reader::{ReadRefusal, read_graph};
use graph_terms::decl::Decl;
use graph_terms::lists::{EventList, LineList, NameList};
use graph_terms::name::Name;
use graph_terms::verb::{Line, Verb};
use graph_writer::put_graph;
use index_spaces::NoMemory;
use index_spaces::column::Column;
use index_spaces::space::{Space, SpaceFault};
use line_effects::homes::Homes;
use plain_eval::evaluation::eval;
use race_check::check;
use race_check::checked::CheckRefusal;
use realm_io::{MemorySource, ReadEnd, SureSink, read_all};
use std::alloc::Global;
use std::test::Fail;
use test_texts::graphs::{FAULTY_PATHS, WAITER_ABOVE_TRIGGER};
use test_texts::memory::after;

/// The text of a graph, or as much of it as there is room for.
fn text_of<'a>(sink: &'a mut SureSink, graph: &Graph) -> &'a [u8] {
    let _ = put_graph(sink, graph);
    sink.kept()
}

fn reads_all(alloc: Global) -> Result<(), Fail> {
    let text = FAULTY_PATHS.as_bytes();
    let mut source = MemorySource::new(Vec::from_slice(alloc, text)?, 7, Vec::new(alloc));
    match read_all(alloc, &mut source, 1000) {
        Ok(bytes) => after("read_all", false, bytes.as_slice() == text),
        Err(end) => {
            // what was read is lost, and the rest is still to come
            let is_rest = match read_all(alloc, &mut source, 1000) {
                Ok(rest) => text.ends_with(rest.as_slice()),
                Err(_) => false,
            };
            after("read_all", true, end == ReadEnd::NoMemory && is_rest)
        }
    }
}

fn reads_graph(alloc: Global) -> Result<(), Fail> {
    let text = FAULTY_PATHS.as_bytes();
    match read_graph(alloc, text) {
        Ok(graph) => after("read_graph", false, graph.lines() == 6),
        Err(refusal) => {
            let again = read_graph(alloc, text).is_ok();
            after(
                "read_graph",
                true,
                refusal == ReadRefusal::NoMemory && again,
            )
        }
    }
}

fn checks(alloc: Global) -> Result<(), Fail> {
    let text = FAULTY_PATHS.as_bytes();
    let mut sink = SureSink::new(vec![in alloc; 0u8; text.len()]?);
    match check(alloc, read_graph(alloc, text)?) {
        Ok(checked) => after("check", false, checked.need() == 1),
        Err(unfit) => {
            // the graph comes back
            let is_same = text_of(&mut sink, &unfit.graph) == text;
            let again = check(alloc, unfit.graph).is_ok();
            let is_right = unfit.why == CheckRefusal::NoMemory && is_same && again;
            after("check", true, is_right)
        }
    }
}

fn evaluates(alloc: Global) -> Result<(), Fail> {
    let Ok(checked) = check(alloc, read_graph(alloc, WAITER_ABOVE_TRIGGER.as_bytes())?) else {
        return Err("before the call".into());
    };
    match eval(alloc, &checked) {
        Ok(outcome) => {
            let is_right = outcome.trace.items.as_slice() == [2, 3, 0, 1].as_slice();
            after("eval", false, is_right)
        }
        Err(NoMemory) => after("eval", true, eval(alloc, &checked).is_ok()),
    }
}

/// Adds a reservation to a graph, which it is meant to fit: whether memory was there.
fn add_lock(graph: &mut Graph, name: &[u8]) -> Result<bool, Fail>
    requires { graph.old.lines ≡ [] }
    ensures { graph.new.lines ≡ [] }
{
    let name = Name::in_format(graph.format(), name).ok_or("no name")?;
    let decl = Decl::Lock { name };
    decl.is_well_formed();
    if graph.decl_fault(&decl).is_some() {
        return Err("it does not fit".into());
    }
    Ok(graph.add_decl(decl).is_ok())
}

fn adds_decl(alloc: Global) -> Result<(), Fail> {
    let mut graph = Graph::new(alloc);
    let name = Name::new(b"l").ok_or("no name")?;
    if add_lock(&mut graph, b"l")? {
        return after("add_decl", false, graph.locks() == 1);
    }
    let is_empty = graph.decls() == 0 && graph.locks() == 0 && graph.find(&name).is_none();
    let again = add_lock(&mut graph, b"l")?;
    after("add_decl", true, is_empty && again)
}

/// Adds a user event to a graph, which it is meant to fit: whether memory was there.
fn add_user(alloc: Global, graph: &mut Graph, name: &[u8]) -> Result<bool, Fail> {
    let name = Name::in_format(graph.format(), name).ok_or("no name")?;
    let line = Line {
        name,
        verb: Verb::User,
        on: EventList::new(alloc),
    };
    line.is_well_formed();
    if graph.line_fault(&line).is_some() {
        return Err("it does not fit".into());
    }
    Ok(graph.add_line(line).is_ok())
}

fn adds_line(alloc: Global) -> Result<(), Fail> {
    let mut graph = Graph::new(alloc);
    let name = Name::new(b"u").ok_or("no name")?;
    if add_user(alloc, &mut graph, b"u")? {
        return after("add_line", false, graph.lines() == 1);
    }
    let is_empty = graph.lines() == 0 && graph.find(&name).is_none();
    let again = add_user(alloc, &mut graph, b"u")?;
    after("add_line", true, is_empty && again)
}

fn pushes_line(alloc: Global) -> Result<(), Fail> {
    let mut lines = LineList::new(alloc);
    if lines.push(7).is_ok() {
        return after(
            "LineList::push",
            false,
            lines.items.as_slice() == [7].as_slice(),
        );
    }
    let is_empty = lines.len() == 0;
    let again = lines.push(7).is_ok();
    after("LineList::push", true, is_empty && again)
}

fn pushes_name(alloc: Global) -> Result<(), Fail> {
    let mut names = NameList::new(alloc);
    let name = Name::new(b"x").ok_or("no name")?;
    if names.push(name).is_ok() {
        return after("NameList::push", false, names.len() == 1);
    }
    let is_empty = names.len() == 0;
    let again = names.push(name).is_ok();
    after("NameList::push", true, is_empty && again)
}

fn makes_spaces(alloc: Global) -> Result<Space, Fail> {
    let pairs = [(0, 3), (8, 11)];
    match Space::new(alloc, &pairs) {
        Ok(space) => {
            after("Space::new", false, space.intervals() == pairs.as_slice())?;
            Ok(space)
        }
        Err(fault) => {
            let again = Space::new(alloc, &pairs).is_ok();
            after("Space::new", true, fault == SpaceFault::NoMemory && again)?;
            Err("Space::new: something is wrong".into())
        }
    }
}

fn meets_spaces(alloc: Global) -> Result<(), Fail> {
    let space = makes_spaces(alloc)?;
    let across = Space::new(alloc, &[(2, 9)])?;
    match space.both(alloc, &across) {
        Ok(both) => {
            let is_right = both.is_some_and(|it| it.intervals() == [(2, 3), (8, 9)].as_slice());
            after("both", false, is_right)
        }
        Err(NoMemory) => after("both", true, space.both(alloc, &across).is_ok()),
    }
}

fn zeroes_column(alloc: Global) -> Result<(), Fail> {
    let space = Space::new(alloc, &[(0, 3), (8, 11)])?;
    match Column::zeroed(alloc, &space) {
        Ok(column) => after("Column::zeroed", false, column.view().get(11) == Some(0)),
        Err(NoMemory) => {
            let again = Column::zeroed(alloc, &space).is_ok();
            after("Column::zeroed", true, again)
        }
    }
}

fn zeroes_homes(alloc: Global) -> Result<(), Fail> {
    let graph = read_graph(alloc, FAULTY_PATHS.as_bytes())?;
    match Homes::zeroed(alloc, &graph) {
        Ok(_homes) => after("Homes::zeroed", false, true),
        Err(NoMemory) => {
            let again = Homes::zeroed(alloc, &graph).is_ok();
            after("Homes::zeroed", true, again)
        }
    }
}

fn makes_graph(alloc: Global) -> Result<(), Fail> {
    match make(alloc, 1, 1) {
        Ok(graph) => after("make", false, graph.lines() == 1),
        Err(NoMemory) => after("make", true, make(alloc, 1, 1).is_ok()),
    }
}

#[test]
fn each_call(rt: HostRuntime) -> Result<(), Fail> {
    let alloc = rt.alloc();
    reads_all(alloc)?;
    reads_graph(alloc)?;
    checks(alloc)?;
    evaluates(alloc)?;
    adds_decl(alloc)?;
    adds_line(alloc)?;
    pushes_line(alloc)?;
    pushes_name(alloc)?;
    meets_spaces(alloc)?;
    zeroes_column(alloc)?;
    zeroes_homes(alloc)?;
    makes_graph(alloc)
}
