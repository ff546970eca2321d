//! The declarations of a generated graph.

ghost use Rattle.std.specs.Prelude.{◌≡◌, ◌++◌, [], ◌∷◌, OnOk, IfOk, IsTrue, codes};
ghost use Rattle.graph_terms.specs.declared.format.Format.TheVariants.{One};
ghost use Rattle.graph_terms.specs.Name.{is_name};
ghost use Rattle.graph_gen.specs.MadeGraph.{made_decls};

use graph_model::graph::Graph;
use graph_terms::decl::Decl;
use graph_terms::lists::NameList;
use graph_terms::name::Name;
use index_spaces::NoMemory;
use index_spaces::room::push;
use index_spaces::space::Space;
use std::alloc::Global;

/// The number of columns beside the column of the sums.
const COLUMNS: u8 = 8;

/// The graph without lines.
pub(crate) fn declared(alloc: Global) -> Result<Graph, NoMemory>
    ensures { IfOk result (λ g. g ≡ record { format = One; decls = made_decls; lines = [] }) }
{
    let mut graph = Graph::new(alloc);
    for decl in made_decls(alloc)? {
        graph.add_decl(decl)?;
    }
    Ok(graph)
}

/// The declarations, in order.
fn made_decls(alloc: Global) -> Result<Vec<Decl>, NoMemory>
    ensures { IfOk result (λ v. v.items ≡ made_decls) }
{
    let mut decls = Vec::new(alloc);
    push(&mut decls, points(alloc)?)?;
    for column in 0..COLUMNS {
        let decl = instance(alloc, &[b'a', b'0' + column])?;
        push(&mut decls, decl)?;
    }
    push(&mut decls, instance(alloc, b"z")?)?;
    push(&mut decls, reservation())?;
    Ok(decls)
}

/// The space of the columns.
fn points(alloc: Global) -> Result<Decl, NoMemory>
    ensures { IfOk result (λ d. d ≡ Decl.Space (codes "s") ((0, 63) ∷ [])) }
{
    match Space::new(alloc, &[(0, 63)]) {
        Ok(space) => Ok(Decl::Space {
            name: Name::new(b"s").unwrap(),
            space,
        }),
        Err(_) => Err(NoMemory),
    }
}

/// An instance of one column.
fn instance(alloc: Global, name: &[u8]) -> Result<Decl, NoMemory>
    requires { IsTrue (is_name name.now) }
    ensures { IfOk result (λ d. d ≡ Decl.Inst name.now 0 (codes "v" ∷ [])) }
{
    let mut fields = NameList::new(alloc);
    fields.push(Name::new(b"v").unwrap())?;
    Ok(Decl::Inst {
        name: Name::new(name).unwrap(),
        space: 0,
        fields,
    })
}

fn reservation() -> Decl
    ensures { result ≡ Decl.Lock (codes "l") }
{
    Decl::Lock {
        name: Name::new(b"l").unwrap(),
    }
}
