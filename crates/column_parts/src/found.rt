//! The parts of each column.

ghost use Rattle.std.specs.Prelude.{◌≡◌, ◌<◌, length, IfOk};
ghost use Rattle.graph_terms.specs.Graph.{columns, column_space, space_at};
ghost use Rattle.column_parts.specs.Parts.{spaces_of, AreFound, AreNeeded};
ghost use Rattle.column_parts.specs.Accessed.{AreAccessed};
ghost use Rattle.column_parts.specs.Column.{AreParts};

use crate::accessed::{distinct, noted_spaces};
use crate::column::column_parts;
use crate::parts::Part;
use crate::wholes::column_spaces;
use graph_meaning::line_laws::accesses_fit;
use graph_model::graph::Graph;
use index_spaces::NoMemory;
use index_spaces::room::{push, with_room};
use std::alloc::Global;

/// The parts of each column of a graph: the connected components of the spaces over which it is
/// accessed. Where these are more than `MAX_COLUMN_PIECES`, or one has more intervals than a declared
/// space may have, the whole column is one part.
pub fn find_parts(alloc: Global, graph: &Graph) -> Result<Vec<Vec<Part>>, NoMemory>
    ensures found { IfOk result (λ v. AreFound graph.now (spaces_of graph.now v.items) (length graph.now.lines)) }
    ensures needed { IfOk result (λ v. AreNeeded graph.now v.items) }
{
    let _ = graph.lines();
    let wholes = column_spaces(alloc, graph)?;
    let noted = noted_spaces(alloc, graph)?;
    let mut lists = with_room(alloc, noted.len())?;
    for column in 0..graph.columns() {
        let own = &noted[column as usize];
        push(
            &mut lists,
            parts_of(alloc, graph, column, own, wholes[column as usize])?,
        )?;
    }
    Ok(lists)
}

/// The parts of a column, which is accessed over the spaces of these numbers.
fn parts_of(
    alloc: Global,
    graph: &Graph,
    column: u32,
    noted: &[u32],
    whole: u32,
) -> Result<Vec<Part>, NoMemory>
    requires column { column < length (columns graph.now) }
    requires noted { AreAccessed graph.now column noted.now }
    requires whole { space_at graph.now whole ≡ column_space graph.now column }
    ensures { IfOk result (λ v. AreParts graph.now column v.items) }
{
    accesses_fit();
    let _ = graph.lines();
    let numbers = distinct(alloc, noted, graph.spaces())?;
    column_parts(alloc, graph, column, &numbers, whole)
}
