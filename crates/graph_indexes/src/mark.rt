//! What later lines have done to a line.

ghost use Rattle.std.specs.Prelude.{ℕ, ◌<◌, ◌^◌, ◌+◌, length};
ghost use Rattle.graph_indexes.specs.Rows.{mark_at, NamesBelow, Marks};
ghost use Rattle.graph_terms.specs.Graph.{arrival_weight};

use graph_terms::verb::Verb;

/// What later lines have done to a line.
#[derive(Clone, Copy)]
pub struct Mark {
    /// What the arrivals that name it count for, each by its weight.
    pub arrivals: u64,
    /// Whether a trigger or a cancel names it.
    pub ended: bool,
    /// Whether a release names it.
    pub released: bool,
}

/// The mark of a line that no later line names.
pub(crate) const FRESH: Mark = Mark {
    arrivals: 0,
    ended: false,
    released: false,
};

/// Marks what a line does to the line that it names.
pub(crate) fn mark_named(marks: &mut [Mark], verb: &Verb)
    requires below { NamesBelow (length marks.old) verb.now }
    requires few { (i : ℕ) → (mark_at marks.old i).arrivals + arrival_weight i verb.now < 2 ^ 64 }
    ensures { Marks marks.old marks.new verb.now }
{
    match verb {
        Verb::Trigger { user } => marks[*user as usize].ended = true,
        Verb::Cancel { user } => marks[*user as usize].ended = true,
        Verb::Arrive { phase, weight, .. } => marks[*phase as usize].arrivals += u64::from(*weight),
        Verb::Release { acquire } => marks[*acquire as usize].released = true,
        _ => {}
    }
}
