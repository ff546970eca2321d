//! Operation lines.

ghost use Rattle.graph_terms.specs.Fits.{AreValues};

use crate::call::Call;
use crate::lists::{EventList, LineList};
use crate::name::Name;
pub use crate::table::Kernel;
use index_spaces::Op;

/// A line: its name, what it does, and the lines that it waits for.
#[derive(Drop)]
pub struct Line {
    pub name: Name,
    pub verb: Verb,
    pub on: EventList,
}

impl Line {
    ghost use Rattle.graph_terms.specs.Fits.{IsLine};

    /// What its type says of it, for callers to cite.
    pub fn is_well_formed(&self)
        ensures { IsLine self.now }
    {
        let _ = self.name.bytes();
        let _ = self.verb.parts();
        if let Verb::Call { call } = &self.verb {
            let _ = call.word().bytes();
            are_values(call.values().items.as_slice());
        }
    }
}

/// Each of these values is one.
#[tactic(auto, using(crate::proofs::VerbFacts::one_more_value))]
fn are_values(values: &[u64])
    ensures { AreValues values.now }
{
    let mut rest = values;
    while let [first, others @ ..] = rest {
        let _value = *first;
        rest = others;
    }
}

/// What a line does.
#[derive(Drop)]
pub enum Verb {
    User,
    Trigger {
        user: u32,
    },
    Cancel {
        user: u32,
    },
    Merge {
        events: LineList,
    },
    MergeIgnore {
        events: LineList,
    },
    Phase {
        barrier: u32,
    },
    /// An arrival that counts for as many as its weight says.
    Arrive {
        phase: u32,
        value: u64,
        weight: u32,
    },
    /// An acquire that is shared holds its reservation beside others that are; any other holds it
    /// alone.
    Acquire {
        lock: u32,
        shared: bool,
    },
    Release {
        acquire: u32,
    },
    Fill {
        target: u32,
        space: u32,
        value: u64,
    },
    Copy {
        source: u32,
        target: u32,
        space: u32,
    },
    Reduce {
        op: Op,
        source: u32,
        target: u32,
        space: u32,
    },
    Task {
        kernel: Kernel,
    },
    /// A body of the host's own, over its own memory.
    Call {
        call: Call,
    },
}

/// Whether a fault passes along an edge.
#[derive(Clone, Copy, Debug, PartialEq, Eq, Default)]
pub enum EdgeKind {
    #[default]
    Passes,
    Ignores,
    Faults,
}

/// An edge from the line that comes first to the line that waits.
#[derive(Clone, Copy, Debug, PartialEq, Eq, Default)]
pub struct Edge {
    pub from: u32,
    pub to: u32,
    pub kind: EdgeKind,
}

/// How a column is used: read, written, or reduced into by sums, by least or by greatest values.
#[derive(Clone, Copy, Debug, PartialEq, Eq)]
pub enum Mode {
    Read,
    Write,
    Sum,
    Least,
    Most,
}

/// A use of a column over a space.
#[derive(Clone, Copy, Debug, PartialEq, Eq)]
pub struct Access {
    pub column: u32,
    pub space: u32,
    pub mode: Mode,
}
