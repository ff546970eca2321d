//! Declarations.

ghost use Rattle.std.specs.Prelude.{◌≡◌, IsTrue};
ghost use Rattle.std.specs.List.{AllByRecursion};
ghost use Rattle.graph_terms.specs.Name.{is_name_in};
ghost use Rattle.graph_terms.specs.declared.format.Format.TheVariants.{Three};
ghost use Rattle.graph_terms.specs.Graph.{decl_name};

use crate::lists::NameList;
use crate::name::Name;
use index_spaces::Op;
use index_spaces::space::Space;

/// A declaration.
#[derive(Drop)]
pub enum Decl {
    Space {
        name: Name,
        space: Space,
    },
    Inst {
        name: Name,
        space: u32,
        fields: NameList,
    },
    /// Columns of which the host keeps the memory. Calls alone use them.
    Data {
        name: Name,
        space: u32,
        fields: NameList,
    },
    Lock {
        name: Name,
    },
    Barrier {
        name: Name,
        count: u32,
        op: Op,
        first: u64,
    },
}

impl Decl {
    ghost use Rattle.graph_terms.specs.Fits.{IsDecl};

    /// What its type says of it, for callers to cite.
    pub fn is_well_formed(&self)
        ensures { IsDecl self.now }
    {
        let _ = self.name().bytes();
        match self {
            Decl::Space { space, .. } => {
                let _ = space.intervals();
            }
            Decl::Inst { space, fields, .. } => {
                let _space = *space;
                are_names(fields.items.as_slice());
            }
            Decl::Data { space, fields, .. } => {
                let _space = *space;
                are_names(fields.items.as_slice());
            }
            Decl::Lock { .. } => {}
            Decl::Barrier { count, first, .. } => {
                let _numbers = (*count, *first);
            }
        }
    }

    /// The name that it gives.
    pub fn name(&self) -> &Name
        ensures { result.now ≡ decl_name self.now }
    {
        match self {
            Decl::Space { name, .. } => name,
            Decl::Inst { name, .. } => name,
            Decl::Data { name, .. } => name,
            Decl::Lock { name } => name,
            Decl::Barrier { name, .. } => name,
        }
    }
}

/// Each of these names is one.
fn are_names(names: &[Name])
    ensures { AllByRecursion (λ f. IsTrue (is_name_in Three f)) names.now }
{
    let mut rest = names;
    while let [first, others @ ..] = rest {
        let _ = first.bytes();
        rest = others;
    }
}

/// A column: a field of an instance or of data, over a declared space.
#[derive(Drop)]
pub struct ColumnInfo {
    pub inst: Name,
    pub field: Name,
    pub space: u32,
}

/// A barrier: the arrivals that complete a phase, and how their values are reduced.
#[derive(Drop)]
pub struct BarrierInfo {
    pub name: Name,
    pub count: u32,
    pub op: Op,
    pub first: u64,
}
