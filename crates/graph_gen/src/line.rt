//! Lines with their names.

ghost use Rattle.std.specs.Prelude.{◌≡◌, ◌++◌, [], ◌∷◌, OnOk, IfOk};
ghost use Rattle.graph_gen.specs.MadeGraph.{made_name, made_line, on_lines};

use graph_terms::lists::EventList;
use graph_terms::name::Name;
use graph_terms::verb::{Line, Verb};
use index_spaces::NoMemory;
use index_spaces::room::push;
use std::alloc::Global;

/// Puts the line of this number at the end.
pub(crate) fn put_line(
    alloc: Global,
    lines: &mut Vec<Line>,
    number: u32,
    verb: Verb,
    on: Option<u32>,
) -> Result<(), NoMemory>
    ensures { OnOk result (lines.new.items ≡ lines.old.items ++ made_line number verb on ∷ []) }
{
    let name = made_name(alloc, number)?;
    let on = on_lines(alloc, on)?;
    push(lines, Line { name, verb, on })
}

/// The event behind `on`, where there is one.
fn on_lines(alloc: Global, on: Option<u32>) -> Result<EventList, NoMemory>
    ensures { IfOk result (λ list. list ≡ on_lines on) }
{
    let mut events = EventList::new(alloc);
    if let Some(event) = on {
        events.push(event)?;
    }
    Ok(events)
}

/// The name of the line of this number.
fn made_name(alloc: Global, number: u32) -> Result<Name, NoMemory>
    ensures { IfOk result (λ name. name ≡ made_name number) }
{
    match format!(in alloc; "o{number}") {
        Ok(text) => Ok(Name::new(text.as_bytes()).unwrap()),
        Err(_) => Err(NoMemory),
    }
}
