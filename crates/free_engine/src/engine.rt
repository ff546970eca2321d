//! A run by workers that share its words.

ghost use Rattle.std.specs.Prelude.{◌≡◌, ◌≤◌, ◌<◌, ℕ, Some, length, slice_get};
ghost use Rattle.graph_meaning.specs.Evaluation.{outcome as evaluated};
ghost use Rattle.graph_meaning.specs.Trace.{IsLawful, SectionsApart};
ghost use Rattle.run_words.specs.Words.{graph_of, IsAt, HasAll};

use crate::team::Team;
use crate::workers::run_workers;
use closed_run::core_of;
use graph_terms::outcome::Outcome;
use realm_io::{Gate, Hints};
use run_words::{WordSeat, Words};
use std::sync::Wait;
use std::thread::Threads;

/// Runs a graph in words by one worker for each of these hints, of which there are at most eight, and
/// answers the outcome of its evaluation, with the ended lines in the order in which they ended. The
/// seat is one that every other was joined into. A worker passes the gate before it performs a line.
/// What the workers leave is done at the end, without the gate. In the trace, between an acquire that
/// is done and its release no other acquire of that reservation that is done stands. Nothing rests on
/// what the hints give.
pub fn run_free<'g, R: Threads + Wait + Sync, G: Gate, H: Hints>(
    rt: &R,
    words: Words<'g>,
    seat: WordSeat,
    gate: &G,
    hints: &mut [H],
) -> Outcome
    requires at { IsAt words seat }
    requires all { HasAll seat }
    requires workers { length hints.old ≤ 8 }
    ensures outcome { result ≡ evaluated (graph_of words.entry) result.trace }
    ensures lawful { IsLawful (graph_of words.entry) result.trace }
    ensures sections { SectionsApart (graph_of words.entry) result.trace }
    ensures lines { (k i : ℕ) → slice_get result.trace k ≡ Some i → i < length (graph_of words.entry).lines }
{
    let team = Team::new();
    let seat = run_workers(rt, &words, gate, &team, seat, hints);
    let mut core = core_of(words, seat);
    core.finish();
    core.outcome()
}
