//! Building a graph item by item.

ghost use Rattle.std.specs.Prelude.{◌≡◌, [], ◌∷◌, IsTrue, IfOk, IfErr, OnOk};
ghost use Rattle.graph_terms.specs.declared.format.Format.TheVariants.{One};
ghost use Rattle.graph_terms.specs.Name.{is_name, is_name_in};
ghost use Rattle.graph_terms.specs.Fits.{decl_fault, is_decl_named, line_fault, with_decl, with_line};
ghost use Rattle.embedded_run.specs.Failures.{IsItemFailure};
ghost use Rattle.embedded_run.specs.SumGraph.{points_decl, columns_decl, sum_decls, one_fill, other_fill, both_fills, lined, sum_graph};

use crate::failure::Failure;
use graph_model::graph::Graph;
use graph_terms::decl::Decl;
use graph_terms::lists::{EventList, LineList, NameList};
use graph_terms::name::Name;
use graph_terms::verb::{Line, Verb};
use index_spaces::space::Space;
use index_spaces::{NoMemory, Op};
use std::alloc::Global;

/// The graph with a declaration more, where it fits.
fn declare(mut graph: Graph, decl: Decl) -> Result<Graph, Failure>
    requires first { graph.lines ≡ [] }
    requires named { IsTrue (is_decl_named graph.format decl) }
    ensures added { IfOk result (λ g. g ≡ with_decl graph decl) }
    ensures refused { IfErr result (λ e. IsItemFailure (decl_fault graph decl) e) }
{
    decl.is_well_formed();
    if let Some(why) = graph.decl_fault(&decl) {
        return Err(Failure::Item(why));
    }
    graph.add_decl(decl)?;
    Ok(graph)
}

/// The graph with a line more, where it fits.
fn offer(mut graph: Graph, line: Line) -> Result<Graph, Failure>
    requires named { IsTrue (is_name_in graph.format line.name) }
    ensures added { IfOk result (λ g. g ≡ with_line graph line) }
    ensures refused { IfErr result (λ e. IsItemFailure (line_fault graph line) e) }
{
    line.is_well_formed();
    match graph.offer_line(line)? {
        None => Ok(graph),
        Some(why) => Err(Failure::Item(why)),
    }
}

/// The graph without lines.
fn declared(alloc: Global) -> Result<Graph, Failure>
    ensures declared { IfOk result (λ g. g ≡ lined []) }
    ensures refused { IfErr result (λ e. e ≡ Failure.NoMemory) }
{
    let points = points(alloc)?;
    let graph = declare(Graph::new(alloc), points)?;
    declare(graph, columns(alloc)?)
}

/// The space of the columns.
fn points(alloc: Global) -> Result<Decl, NoMemory>
    ensures { IfOk result (λ d. d ≡ points_decl) }
{
    match Space::new(alloc, &[(0, 3)]) {
        Ok(space) => Ok(Decl::Space {
            name: Name::new(b"s").unwrap(),
            space,
        }),
        Err(_) => Err(NoMemory),
    }
}

/// The instance with the two columns.
fn columns(alloc: Global) -> Result<Decl, NoMemory>
    ensures { IfOk result (λ d. d ≡ columns_decl) }
{
    let mut fields = NameList::new(alloc);
    fields.push(Name::new(b"x").unwrap())?;
    fields.push(Name::new(b"y").unwrap())?;
    Ok(Decl::Inst {
        name: Name::new(b"a").unwrap(),
        space: 0,
        fields,
    })
}

/// The graph in which both columns are filled.
fn filled(alloc: Global) -> Result<Graph, Failure>
    ensures graph { IfOk result (λ g. g ≡ lined (one_fill ∷ other_fill ∷ [])) }
    ensures refused { IfErr result (λ e. e ≡ Failure.NoMemory) }
{
    let graph = declared(alloc)?;
    let graph = offer(graph, line(b"f", fill(0, 20), EventList::new(alloc)))?;
    offer(graph, line(b"g", fill(1, 4), EventList::new(alloc)))
}

/// The same with a merge of the fills.
fn merged(alloc: Global) -> Result<Graph, Failure>
    ensures graph { IfOk result (λ g. g ≡ lined (one_fill ∷ other_fill ∷ both_fills ∷ [])) }
    ensures refused { IfErr result (λ e. e ≡ Failure.NoMemory) }
{
    let merge = both(alloc)?;
    let graph = filled(alloc)?;
    offer(graph, line(b"m", merge, EventList::new(alloc)))
}

/// The graph in which two columns are filled, and then one is added to the other.
pub(crate) fn sum_graph(alloc: Global) -> Result<Graph, Failure>
    ensures graph { IfOk result (λ g. g ≡ sum_graph) }
    ensures refused { IfErr result (λ e. e ≡ Failure.NoMemory) }
{
    let graph = merged(alloc)?;
    let on = one_event(alloc, 2)?;
    offer(graph, line(b"r", sum(), on))
}

/// A line of this name.
fn line(name: &[u8], verb: Verb, on: EventList) -> Line
    requires { IsTrue (is_name name.now) }
    ensures { result ≡ record { name = name.now; verb = verb; on = on } }
{
    Line {
        name: Name::new(name).unwrap(),
        verb,
        on,
    }
}

/// The list of one event.
fn one_event(alloc: Global, event: u32) -> Result<EventList, NoMemory>
    ensures { IfOk result (λ on. on ≡ event ∷ []) }
{
    let mut on = EventList::new(alloc);
    on.push(event)?;
    Ok(on)
}

/// Each cell of a column becomes this value.
fn fill(column: u32, value: u64) -> Verb
    ensures { result ≡ Verb.Fill column 0 value }
{
    Verb::Fill {
        target: column,
        space: 0,
        value,
    }
}

/// A merge of the two fills.
fn both(alloc: Global) -> Result<Verb, NoMemory>
    ensures { IfOk result (λ v. v ≡ Verb.Merge (0 ∷ 1 ∷ [])) }
{
    let mut events = LineList::new(alloc);
    events.push(0)?;
    events.push(1)?;
    Ok(Verb::Merge { events })
}

/// Column 0 is added to column 1.
fn sum() -> Verb
    ensures { result ≡ Verb.Reduce Op.Sum 0 1 0 }
{
    Verb::Reduce {
        op: Op::Sum,
        source: 0,
        target: 1,
        space: 0,
    }
}
