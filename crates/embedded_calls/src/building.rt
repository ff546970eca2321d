//! Building the graph item by item.

ghost use Rattle.std.specs.Prelude.{◌≡◌, [], ◌∷◌, None, IsTrue, IfOk, IfErr};
ghost use Rattle.graph_terms.specs.Name.{is_name_in};
ghost use Rattle.graph_terms.specs.Fits.{decl_fault, is_decl_named, line_fault, with_decl, with_line};
ghost use Rattle.embedded_calls.specs.CallGraph.{point_decl, accounts_decl, halve_line, move_line, double_line, with_calls, call_graph};

use crate::failure::Failure;
use graph_model::graph::Graph;
use graph_terms::call::{Call, CallParts};
use graph_terms::decl::Decl;
use graph_terms::format::Format;
use graph_terms::lists::{AccessList, EventList, NameList, NumberList};
use graph_terms::name::Name;
use graph_terms::verb::{Access, Line, Mode, Verb};
use index_spaces::NoMemory;
use index_spaces::space::Space;
use std::alloc::Global;

/// The graph with a declaration more.
fn declare(mut graph: Graph, decl: Decl) -> Result<Graph, Failure>
    requires first { graph.lines ≡ [] }
    requires named { IsTrue (is_decl_named graph.format decl) }
    requires fits { decl_fault graph decl ≡ None }
    ensures added { IfOk result (λ g. g ≡ with_decl graph decl) }
    ensures refused { IfErr result (λ e. e ≡ Failure.NoMemory) }
{
    decl.is_well_formed();
    graph.add_decl(decl)?;
    Ok(graph)
}

/// The graph with a line more.
fn offer(mut graph: Graph, line: Line) -> Result<Graph, Failure>
    requires named { IsTrue (is_name_in graph.format line.name) }
    requires fits { line_fault graph line ≡ None }
    ensures added { IfOk result (λ g. g ≡ with_line graph line) }
    ensures refused { IfErr result (λ e. e ≡ Failure.NoMemory) }
{
    line.is_well_formed();
    match graph.offer_line(line)? {
        None => Ok(graph),
        Some(_) => Err(Failure::Refused),
    }
}

/// The graph without lines.
fn declared(alloc: Global) -> Result<Graph, Failure>
    ensures declared { IfOk result (λ g. g ≡ with_calls []) }
    ensures refused { IfErr result (λ e. e ≡ Failure.NoMemory) }
{
    let point = point(alloc)?;
    let graph = declare(Graph::of_format(alloc, Format::Three), point)?;
    declare(graph, accounts(alloc)?)
}

/// The space of the columns.
fn point(alloc: Global) -> Result<Decl, NoMemory>
    ensures { IfOk result (λ d. d ≡ point_decl) }
{
    match Space::new(alloc, &[(0, 0)]) {
        Ok(space) => Ok(Decl::Space {
            name: Name::new(b"s").unwrap(),
            space,
        }),
        Err(_) => Err(NoMemory),
    }
}

/// The two columns of data.
fn accounts(alloc: Global) -> Result<Decl, NoMemory>
    ensures { IfOk result (λ d. d ≡ accounts_decl) }
{
    let mut fields = NameList::new(alloc);
    fields.push(Name::new(b"x").unwrap())?;
    fields.push(Name::new(b"y").unwrap())?;
    Ok(Decl::Data {
        name: Name::new(b"a").unwrap(),
        space: 0,
        fields,
    })
}

/// The graph of the three calls.
pub(crate) fn call_graph(alloc: Global) -> Result<Graph, Failure>
    ensures graph { IfOk result (λ g. g ≡ call_graph) }
    ensures refused { IfErr result (λ e. e ≡ Failure.NoMemory) }
{
    let halve = halve(alloc)?;
    let carry = carry(alloc)?;
    let double = double(alloc)?;
    let graph = declared(alloc)?;
    let graph = offer(graph, halve)?;
    let graph = offer(graph, carry)?;
    offer(graph, double)
}

/// The first account is halved.
fn halve(alloc: Global) -> Result<Line, NoMemory>
    ensures { IfOk result (λ l. l ≡ halve_line) }
{
    let mut accesses = AccessList::new(alloc);
    accesses.push(write(0))?;
    let parts = CallParts {
        word: Name::new(b"halve").unwrap(),
        values: NumberList::new(alloc),
        accesses,
    };
    Ok(Line {
        name: Name::new(b"h").unwrap(),
        verb: Verb::Call {
            call: Call::new(alloc, parts)?,
        },
        on: EventList::new(alloc),
    })
}

/// 15 is moved to the other account.
fn carry(alloc: Global) -> Result<Line, NoMemory>
    ensures { IfOk result (λ l. l ≡ move_line) }
{
    let mut values = NumberList::new(alloc);
    values.push(15)?;
    let mut accesses = AccessList::new(alloc);
    accesses.push(write(0))?;
    accesses.push(write(1))?;
    let parts = CallParts {
        word: Name::new(b"move").unwrap(),
        values,
        accesses,
    };
    Ok(Line {
        name: Name::new(b"m").unwrap(),
        verb: Verb::Call {
            call: Call::new(alloc, parts)?,
        },
        on: one_event(alloc, 0)?,
    })
}

/// The other account is doubled.
fn double(alloc: Global) -> Result<Line, NoMemory>
    ensures { IfOk result (λ l. l ≡ double_line) }
{
    let mut accesses = AccessList::new(alloc);
    accesses.push(write(1))?;
    let parts = CallParts {
        word: Name::new(b"double").unwrap(),
        values: NumberList::new(alloc),
        accesses,
    };
    Ok(Line {
        name: Name::new(b"d").unwrap(),
        verb: Verb::Call {
            call: Call::new(alloc, parts)?,
        },
        on: one_event(alloc, 1)?,
    })
}

/// A column of data is written.
fn write(column: u32) -> Access
    ensures { result ≡ record { column = column; space = 0; mode = Mode.Write } }
{
    Access {
        column,
        space: 0,
        mode: Mode::Write,
    }
}

/// The list of one event.
fn one_event(alloc: Global, event: u32) -> Result<EventList, NoMemory>
    ensures { IfOk result (λ on. on ≡ event ∷ []) }
{
    let mut on = EventList::new(alloc);
    on.push(event)?;
    Ok(on)
}
