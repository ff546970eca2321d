//! What holds of all sessions, for callers to cite. No function here does anything.

ghost use Rattle.std.specs.Prelude.{ℕ, ◌≤◌, List};
ghost use Rattle.event_table.specs.declared.limits.TheConstants.{MAX_SLOTS};
ghost use Rattle.session_text.specs.declared.entry.Entry.{Entry};
ghost use Rattle.session_text.specs.Fits.{AreEntries};
ghost use Rattle.session_run.specs.Laws.{OneEnd};
ghost use Rattle.session_run.specs.Linked.{LinkedGraph, linked};
ghost use Rattle.session_run.specs.Running.{slots_needed};

/// Graphs with so many slots all run, or have one first refusal, and not both.
pub fn sessions_have_one_end()
    ensures { (slots : ℕ) (gs : List LinkedGraph) → OneEnd slots gs }
{}

/// The graphs of a session's text never need more than 8,192 slots.
pub fn most_slots_are_enough()
    ensures { (entries : List Entry) → AreEntries entries → slots_needed (linked entries) ≤ MAX_SLOTS }
{}
