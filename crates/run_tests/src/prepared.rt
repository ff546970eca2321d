//! Runs in words, made ready with as many slots as their graphs need, and closed.

ghost use Rattle.std.specs.Prelude.{IfOk};
ghost use Rattle.run_words.specs.Words.{HasAll, IsAt};

use closed_run::core_of;
use graph_terms::outcome::Outcome;
use race_check::checked::Checked;
use run_words::{WordSeat, Words};
use std::alloc::Global;
use std::test::Fail;

/// The words of a graph, with as many slots as it needs, and their first seat.
pub(crate) fn prepared<'g>(
    alloc: Global,
    checked: &'g Checked,
) -> Result<(Words<'g>, WordSeat), Fail>
    ensures at { IfOk result (λ r. IsAt r.0 r.1) }
    ensures all { IfOk result (λ r. HasAll r.1) }
{
    let slots = checked.need();
    if slots > 8192 {
        return Err("slots".into());
    }
    Ok(Words::prepare(alloc, checked, slots)?)
}

/// The outcome, once no other seat is left.
pub(crate) fn closed(words: Words, seat: WordSeat) -> Outcome
    requires at { IsAt words seat }
    requires all { HasAll seat }
{
    let mut core = core_of(words, seat);
    core.finish();
    core.outcome()
}
