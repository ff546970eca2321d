//! What holds of every graph of pieces, for callers to cite. No function here does anything.

ghost use Rattle.joined_columns.specs.Over.{OutcomesAreOver};

/// The columns that a graph of pieces gives are over the spaces of the pieces.
pub fn outcomes_are_over()
    ensures { OutcomesAreOver }
{}
