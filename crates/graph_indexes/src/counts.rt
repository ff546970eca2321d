//! The quantities of a graph that have greatest values.

ghost use Rattle.std.specs.Prelude.{◌≡◌, ◌≤◌, ◌+◌, [], ◌∷◌, length, filter, filter_map};
ghost use Rattle.graph_terms.specs.Graph.{space_of, columns_of, data_columns_of, lock_of, barrier_of};
ghost use Rattle.graph_terms.specs.Fits.{is_inst};
ghost use Rattle.graph_indexes.specs.Counts.{is_above, has_many_spaces};

use graph_terms::decl::Decl;
use graph_terms::format::Format;
use graph_terms::limits::{Limits, MAX_SPACES, MAX_TEXT};

/// The quantities of a graph that have greatest values.
#[derive(Clone, Copy)]
pub struct Counts {
    /// Bytes of the text, up to its closing line.
    pub text: u64,
    /// Spaces.
    pub spaces: u64,
    /// Instances.
    pub insts: u64,
    /// Columns of all instances and all data.
    pub columns: u64,
    /// Cells of all columns of instances.
    pub cells: u64,
    /// Reservations.
    pub locks: u64,
    /// Barriers.
    pub barriers: u64,
    /// Operation lines.
    pub lines: u64,
    /// Edges.
    pub edges: u64,
}

impl Counts {
    /// Whether one of them is above its greatest value in a format.
    pub fn is_above(&self, format: Format) -> bool
        ensures { result ≡ is_above format self.now }
    {
        let limits = Limits::of(format);
        self.text > limits.text
            || self.has_many_spaces()
            || self.insts > limits.insts
            || self.columns > limits.columns
            || self.cells > limits.cells
            || self.locks > limits.locks
            || self.barriers > limits.barriers
            || self.lines > limits.lines
            || self.edges > limits.edges
    }

    /// Whether a long text declares more spaces than it may.
    fn has_many_spaces(&self) -> bool
        ensures { result ≡ has_many_spaces self.now }
    {
        self.spaces > MAX_SPACES && self.text > MAX_TEXT
    }
}

/// How many spaces a declaration is.
pub fn spaces_of(decl: &Decl) -> u64
    ensures number { result ≡ length (filter_map space_of (decl.now ∷ [])) }
    ensures few { result ≤ 1 }
{
    match decl {
        Decl::Space { .. } => 1,
        _ => 0,
    }
}

/// How many instances a declaration is.
pub fn insts_of(decl: &Decl) -> u64
    ensures number { result ≡ length (filter is_inst (decl.now ∷ [])) }
    ensures few { result ≤ 1 }
{
    match decl {
        Decl::Inst { .. } => 1,
        _ => 0,
    }
}

/// How many columns a declaration brings, of an instance or of data.
pub fn columns_of(decl: &Decl) -> u64
    ensures number { result ≡ length (columns_of decl.now) + length (data_columns_of decl.now) }
    ensures few { result ≤ u32.MAX }
{
    match decl {
        Decl::Inst { fields, .. } => u64::from(fields.len()),
        Decl::Data { fields, .. } => u64::from(fields.len()),
        _ => 0,
    }
}

/// How many reservations a declaration is.
pub fn locks_of(decl: &Decl) -> u64
    ensures number { result ≡ length (filter_map lock_of (decl.now ∷ [])) }
    ensures few { result ≤ 1 }
{
    match decl {
        Decl::Lock { .. } => 1,
        _ => 0,
    }
}

/// How many barriers a declaration is.
pub fn barriers_of(decl: &Decl) -> u64
    ensures number { result ≡ length (filter_map barrier_of (decl.now ∷ [])) }
    ensures few { result ≤ 1 }
{
    match decl {
        Decl::Barrier { .. } => 1,
        _ => 0,
    }
}
