//! What the checker answers.

ghost use Rattle.std.specs.Prelude.{◌≡◌};
ghost use Rattle.race_check.specs.declared.checked.CheckRefusal.{CheckRefusal};

pub use checked_graph::Checked;
use graph_model::graph::Graph;
use index_spaces::NoMemory;

/// A graph that was not accepted, and why.
#[derive(Drop)]
pub struct Unfit {
    pub graph: Graph,
    pub why: CheckRefusal,
}

/// The first rule that fails, with the least lines at which it fails, numbered from 0 in the order
/// in which they were added.
#[derive(Clone, Copy, Debug, PartialEq, Eq)]
pub enum CheckRefusal {
    /// This line has a path to itself.
    Cycle(u32),
    /// This acquire has no release with a path from it.
    Unreleased(u32),
    /// To this release the line of the second number has a path, but it lies neither in the section nor before it.
    Section(u32, u32),
    /// In the section of this acquire another one acquires a reservation that is not declared later.
    Descends(u32, u32),
    /// This release does not stand on a merge that ignores faults.
    ReleaseFault(u32),
    /// These two lines conflict, and no path orders them.
    Race(u32, u32),
    /// Memory was refused; nothing is said of the graph.
    NoMemory,
}

impl From<NoMemory> for CheckRefusal {
    ghost from_gives = { λ _ e. e ≡ CheckRefusal.NoMemory };

    fn from(_: NoMemory) -> CheckRefusal {
        CheckRefusal::NoMemory
    }
}
