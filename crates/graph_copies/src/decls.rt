//! Copies of declarations.

ghost use Rattle.std.specs.Prelude.{◌≡◌, [], IfOk};

use crate::lists::copy_of_items;
use graph_model::graph::Graph;
use graph_terms::decl::Decl;
use graph_terms::format::Format;
use graph_terms::limits::Limits;
use index_spaces::NoMemory;
use index_spaces::space::Space;
use std::alloc::Global;

/// The declarations of a graph, without its lines.
pub fn declared(alloc: Global, graph: &Graph) -> Result<Graph, NoMemory>
    ensures { IfOk result (λ g. g ≡ record { format = graph.now.format; decls = graph.now.decls; lines = [] }) }
{
    let mut copy = Graph::of_format(alloc, graph.format());
    for d in 0..graph.decls() {
        let decl = copy_of_decl(alloc, graph.decl(d))?;
        copy.add_decl(decl)?;
    }
    Ok(copy)
}

/// A copy of a declaration.
pub fn copy_of_decl(alloc: Global, decl: &Decl) -> Result<Decl, NoMemory>
    ensures { IfOk result (λ d. d ≡ decl.now) }
{
    match decl {
        Decl::Space { name, space } => Ok(Decl::Space {
            name: *name,
            space: copy_of_space(alloc, space)?,
        }),
        Decl::Inst {
            name,
            space,
            fields,
        } => Ok(Decl::Inst {
            name: *name,
            space: *space,
            fields: copy_of_items(alloc, fields)?,
        }),
        Decl::Data {
            name,
            space,
            fields,
        } => Ok(Decl::Data {
            name: *name,
            space: *space,
            fields: copy_of_items(alloc, fields)?,
        }),
        Decl::Lock { name } => Ok(Decl::Lock { name: *name }),
        Decl::Barrier {
            name,
            count,
            op,
            first,
        } => Ok(Decl::Barrier {
            name: *name,
            count: *count,
            op: *op,
            first: *first,
        }),
    }
}

/// A copy of a space.
fn copy_of_space(alloc: Global, space: &Space) -> Result<Space, NoMemory>
    ensures { IfOk result (λ s. s ≡ space.now) }
{
    let intervals = space.intervals();
    // A space numbers its intervals by 32 bits.
    if intervals.len() > 4_294_967_295 {
        return Err(NoMemory);
    }
    match Space::within(alloc, Limits::of(Format::Three).space, intervals) {
        Ok(copy) => Ok(copy),
        Err(_) => Err(NoMemory),
    }
}
