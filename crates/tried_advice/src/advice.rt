//! Advice for two lines that race.

ghost use Rattle.std.specs.Prelude.{◌≡◌, ◌<◌, length, None, Contains, IfOk, IfSome};
ghost use Rattle.graph_meaning.specs.Rules.{IsRace};
ghost use Rattle.tried_advice.specs.Forms.{tried_forms};
ghost use Rattle.tried_advice.specs.Orders.{Orders, NoneOrders};

use crate::form::Form;
use crate::orders::orders;
use crate::tried::tried_forms;
use graph_model::graph::Graph;
use index_spaces::NoMemory;
use std::alloc::Global;

/// A form of those that are tried by which two lines that race come to be ordered and no rule
/// breaks; the sections are given by their acquires, in the order of their releases. `None` exactly where
/// no form of these does it. It takes a check of the graph for each form.
pub fn advise(
    alloc: Global,
    graph: &Graph,
    first: u32,
    second: u32,
    first_sections: &[u32],
    second_sections: &[u32],
) -> Result<Option<Form>, NoMemory>
    requires first { first < length graph.now.lines }
    requires second { second < length graph.now.lines }
    requires race { IsRace graph.now first second }
    ensures found { IfOk result (λ o. IfSome o (λ form. Contains (tried_forms graph.now first second first_sections.now second_sections.now) form × Orders graph.now first second form)) }
    ensures none { IfOk result (λ o. o ≡ None → NoneOrders graph.now first second (tried_forms graph.now first second first_sections.now second_sections.now)) }
{
    let forms = tried_forms(alloc, graph, first, second, first_sections, second_sections)?;
    for form in forms.as_slice() {
        if orders(alloc, graph, first, second, *form)? {
            return Ok(Some(*form));
        }
    }
    Ok(None)
}
