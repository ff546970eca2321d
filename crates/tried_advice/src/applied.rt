//! The graph in which a form is followed.

ghost use Rattle.std.specs.Prelude.{◌≡◌, [], None, IfOk, IfSome};
ghost use Rattle.graph_terms.specs.Fits.{IsGraph};
ghost use Rattle.graph_meaning.specs.Laws.{waiting_for};
ghost use Rattle.tried_advice.specs.Forms.{on_at, with_event, is_free, are_free, tried_format, applied};

use crate::form::Form;
use graph_copies::{copy_of_line, declared};
use graph_model::graph::Graph;
use graph_terms::verb::Line;
use index_spaces::NoMemory;
use std::alloc::Global;

/// The graph in which a form is followed. `None` exactly where a line of it does not fit there.
pub(crate) fn applied(alloc: Global, graph: &Graph, form: Form) -> Result<Option<Graph>, NoMemory>
    ensures some { IfOk result (λ o. IfSome o (λ g. g ≡ applied graph.now form)) }
    ensures none { IfOk result (λ o. o ≡ None → IsGraph (applied graph.now form) → ⊥) }
{
    let mut copy = declared_for(alloc, graph, form)?;
    for n in 0..graph.lines() {
        let line = changed(alloc, graph.line(n), form.event_for(n))?;
        line.is_well_formed();
        if copy.offer_line(line)?.is_some() {
            return Ok(None);
        }
    }
    Ok(Some(copy))
}

/// The declarations of a graph, in the format in which a form is tried.
fn declared_for(alloc: Global, graph: &Graph, form: Form) -> Result<Graph, NoMemory>
    ensures { IfOk result (λ g. g ≡ record { format = tried_format graph.now form; decls = graph.now.decls; lines = [] }) }
{
    let copy = declared(alloc, graph)?;
    if are_free(graph, form) {
        return Ok(copy);
    }
    Ok(copy.write_in_three())
}

/// A copy of a line that waits for an event besides, where there is one.
fn changed(alloc: Global, line: &Line, event: Option<u32>) -> Result<Line, NoMemory>
    ensures { IfOk result (λ l. l ≡ waiting_for (with_event line.now.on event) line.now) }
{
    let mut copy = copy_of_line(alloc, line)?;
    if let Some(event) = event {
        // A list has fewer than 2^32 events.
        if copy.on.len() == u32::MAX {
            return Err(NoMemory);
        }
        copy.on.push(event)?;
    }
    Ok(copy)
}

/// Whether each line that a form lets wait for an event more waits for none behind `on`.
fn are_free(graph: &Graph, form: Form) -> bool
    ensures { result ≡ are_free graph.now form }
{
    match form {
        Form::OnLine { line, .. } => is_free(graph, line),
        Form::Between { line, after, .. } => is_free(graph, line) && is_free(graph, after),
    }
}

/// Whether a line waits for no event behind `on`.
fn is_free(graph: &Graph, i: u32) -> bool
    ensures { result ≡ is_free graph.now i }
{
    on_at(graph, i).len() == 0
}

/// The events behind the `on` of a line.
pub(crate) fn on_at(graph: &Graph, i: u32) -> &[u32]
    ensures { result.now ≡ on_at graph.now i }
{
    if i >= graph.lines() {
        return &[];
    }
    graph.line(i).on.as_slice()
}
