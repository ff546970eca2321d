//! The lines by place, and the place of each line, in an order of them.

ghost use Rattle.std.specs.Prelude.{◌≡◌, IfOk};
ghost use Rattle.sweep_base.specs.Placed.{IsPlaced, ArePlaces};

use graph_model::graph::Graph;
use index_spaces::NoMemory;
use index_spaces::room::{filled, push, with_room};
use std::alloc::Global;

/// The lines of an order.
pub fn copied(alloc: Global, order: &[u32]) -> Result<Vec<u32>, NoMemory>
    ensures { IfOk result (λ v. v.items ≡ order.now) }
{
    let mut lines = with_room(alloc, order.len())?;
    for line in order {
        push(&mut lines, *line)?;
    }
    Ok(lines)
}

/// The place of each line in an order of all lines.
pub fn places(alloc: Global, graph: &Graph, order: &[u32]) -> Result<Vec<u32>, NoMemory>
    requires { IsPlaced graph.now order.now }
    ensures { IfOk result (λ v. ArePlaces order.now v.items) }
{
    let lines = graph.lines();
    let mut places = filled(alloc, 0, lines as usize)?;
    for place in 0..lines {
        places[order[place as usize] as usize] = place;
    }
    Ok(places)
}
