//! The spaces of columns.

ghost use Rattle.std.specs.Prelude.{◌≡◌, ◌++◌, map, IfOk, OnOk};
ghost use Rattle.graph_terms.specs.declared.decl.ColumnInfo.{ColumnInfo};
ghost use Rattle.graph_terms.specs.Graph.{columns, columns_of};

use graph_model::graph::Graph;
use graph_terms::decl::Decl;
use index_spaces::NoMemory;
use index_spaces::room::push;
use std::alloc::Global;

/// The number of the space of each column.
pub(crate) fn column_spaces(alloc: Global, graph: &Graph) -> Result<Vec<u32>, NoMemory>
    ensures { IfOk result (λ v. v.items ≡ map (λ (x : ColumnInfo). x.space) (columns graph.now)) }
{
    let mut spaces = Vec::new(alloc);
    for d in 0..graph.decls() {
        add_column_spaces(&mut spaces, graph.decl(d))?;
    }
    Ok(spaces)
}

/// Puts the space of each column of a declaration at the end.
fn add_column_spaces(spaces: &mut Vec<u32>, decl: &Decl) -> Result<(), NoMemory>
    ensures { OnOk result (spaces.new.items ≡ spaces.old.items ++ map (λ (x : ColumnInfo). x.space) (columns_of decl.now)) }
{
    match decl {
        Decl::Inst { space, fields, .. } => {
            for k in 0..fields.len() {
                push(spaces, *space)?;
            }
            Ok(())
        }
        _ => Ok(()),
    }
}
