//! Which forms are tried.

ghost use Rattle.std.specs.Prelude.{◌≡◌, ◌==◌, [], ◌∷◌, ◌++◌, Some, IfOk, OnOk};
ghost use Rattle.std.specs.List.{list_any};
ghost use Rattle.tried_advice.specs.Forms.{lone_acquire, outer_forms, section_forms, tried_forms};

use crate::applied::on_at;
use crate::form::Form;
use graph_model::graph::Graph;
use index_spaces::NoMemory;
use index_spaces::room::push;
use std::alloc::Global;

/// What is tried for two lines, by the acquires in whose sections each of them lies.
pub(crate) fn tried_forms(
    alloc: Global,
    graph: &Graph,
    first: u32,
    second: u32,
    first_sections: &[u32],
    second_sections: &[u32],
) -> Result<Vec<Form>, NoMemory>
    ensures { IfOk result (λ forms. forms.items ≡ tried_forms graph.now first second first_sections.now second_sections.now) }
{
    let mut forms = Vec::new(alloc);
    push(
        &mut forms,
        Form::OnLine {
            line: second,
            event: first,
        },
    )?;
    if let Some(acquire) = lone_acquire(first_sections, second_sections) {
        put_section_forms(&mut forms, graph, first, second, acquire)?;
    }
    Ok(forms)
}

/// Puts what is tried where the second line lies in the section of an acquire, and the first does not.
fn put_section_forms(
    forms: &mut Vec<Form>,
    graph: &Graph,
    first: u32,
    second: u32,
    acquire: u32,
) -> Result<(), NoMemory>
    ensures { OnOk result (forms.new.items ≡ forms.old.items ++ section_forms graph.now first second (Some acquire)) }
{
    if acquire <= first {
        return push(
            forms,
            Form::Between {
                before: acquire,
                line: first,
                after: second,
            },
        );
    }
    push(
        forms,
        Form::OnLine {
            line: acquire,
            event: first,
        },
    )?;
    match on_at(graph, acquire).first() {
        Some(event) => push(forms, outer_form(first, acquire, *event)),
        None => Ok(()),
    }
}

/// What is tried where the acquire waits for an event.
fn outer_form(first: u32, acquire: u32, event: u32) -> Form
    ensures { outer_forms first acquire (Some event) ≡ result ∷ [] }
{
    if first < event {
        return Form::OnLine {
            line: event,
            event: first,
        };
    }
    Form::Between {
        before: event,
        line: first,
        after: acquire,
    }
}

/// The last of some acquires that is none of the others.
fn lone_acquire(others: &[u32], acquires: &[u32]) -> Option<u32>
    ensures { result ≡ lone_acquire others.now acquires.now }
{
    acquires
        .iter()
        .rev()
        .copied()
        .find(|acquire| !is_among(*acquire, others))
}

fn is_among(acquire: u32, others: &[u32]) -> bool
    ensures { result ≡ list_any (λ q. q == acquire) others.now }
{
    others.iter().any(|other| *other == acquire)
}
