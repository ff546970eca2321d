//! What is looked up of a graph: its lines by place, and the classes of their accesses.

ghost use Rattle.std.specs.Prelude.{◌≡◌, length, IfOk, IfSome};
ghost use Rattle.sweep_base.specs.Held.{IsHeld};
ghost use Rattle.sweep_base.specs.Placed.{IsPlaced};
ghost use Rattle.conflict_classes.specs.Table.{IsTable};

use crate::class_conflicts::near_classes;
use crate::classes::classes_of_lines;
use crate::guards::guards_of;
use graph_model::graph::Graph;
use graph_terms::verb::Access;
use index_spaces::NoMemory;
use std::alloc::Global;
use sweep_base::line_sections::Held;
use sweep_base::places::{copied, places};

/// The line at each place and the place of each line; the access of each class, the class and the
/// place of each access of a line below the limit by its number, the number of the first access of the line at each place, and
/// beside each class those that it conflicts with; the reservation that guards each class, and the
/// place from which on members of such classes may lie in the section of an access.
#[derive(Drop)]
pub struct Table {
    pub limit: u32,
    pub lines: Vec<u32>,
    pub places: Vec<u32>,
    pub keys: Vec<Access>,
    pub classes: Vec<u32>,
    pub sites: Vec<u32>,
    pub begins: Vec<u32>,
    pub near: Vec<Vec<u32>>,
    pub guards: Vec<Option<u32>>,
    pub starts: Vec<u32>,
}

impl Table {
    /// The table of a graph, with the accesses of the lines below a limit, or `None` where too many
    /// of their spaces overlap.
    pub fn new(
        alloc: Global,
        graph: &Graph,
        order: &[u32],
        held: &Held,
        limit: u32,
    ) -> Result<Option<Table>, NoMemory>
        requires placed { IsPlaced graph.now order.now }
        requires held { IsHeld graph.now held.now }
        ensures limit { IfOk result (λ o. IfSome o (λ t. t.limit ≡ limit)) }
        ensures table { IfOk result (λ o. IfSome o (IsTable graph.now)) }
    {
        let _ = graph.lines();
        let lines = copied(alloc, order)?;
        let places = places(alloc, graph, order)?;
        let classes = classes_of_lines(alloc, graph, order, limit)?;
        let guards = guards_of(alloc, graph, order, &classes, held)?;
        let Some(near) = near_classes(alloc, graph, classes.keys.as_slice())? else {
            return Ok(None);
        };
        Ok(Some(Table {
            limit: classes.limit,
            lines,
            places,
            keys: classes.keys,
            classes: classes.of,
            sites: classes.sites,
            begins: classes.begins,
            near,
            guards: guards.locks,
            starts: guards.starts,
        }))
    }
}
