//! Plans in virtual time.

ghost use Rattle.std.specs.Prelude.{◌≡◌, ◌≢◌, ℕ, ◌<◌, ◌≤◌, ◌⊎◌, List, length, true, false, IfSome};
ghost use Rattle.graph_terms.specs.Graph.{GraphValue};
ghost use Rattle.graph_meaning.specs.Rules.{Accepted};
ghost use Rattle.graph_words.specs.Limits.{text_limit};
ghost use Rattle.graph_words.specs.Text.{GraphText};
ghost use Rattle.graph_answers.specs.Answer.{IsTimelineText};
ghost use Rattle.c_answers.specs.Buffers.{Holds, IsCut};
ghost use Rattle.c_answers.specs.Refusals.{status_of, IsCheckRefusal};
ghost use Rattle.c_answers.specs.declared.reading.Refusal.{Refusal as TheRefusal};

use c_answers::buffer::hand_out;
use c_answers::reading::read_checked;
use c_answers::texts::plan_text;
use c_numbers::status::{NO_MEMORY, TOO_LONG, USAGE};
use graph_words::limits::text_limit;
use std::alloc::Global;

/// Reads a graph from its text, plans it on so many processors, and puts the text of the plan with its certificate into
/// `out` with its length beside it: 0; 2 exactly where the processors are not 1 to 8; 6 exactly where `out` is too short
/// for it, and it is cut; else 3, 4, 7 or 9, and nothing is put.
#[unsafe(no_mangle)]
pub extern "C" fn realm_plan(
    alloc: Global,
    text: &[u8],
    processors: u32,
    out: &mut [u8],
    written: &mut u64,
) -> u32
    ensures done { result ≡ 0 → (g : GraphValue) × GraphText text.now g × Accepted g
        × (plan : List ℕ) × IsTimelineText processors g plan × Holds plan out.old out.new written.new }
    ensures cut { result ≡ 6 → (g : GraphValue) × GraphText text.now g × Accepted g
        × (plan : List ℕ) × IsTimelineText processors g plan × IsCut plan out.old out.new written.new }
    ensures usage { result ≡ 2 → (1 ≤ processors) × (processors ≤ 8) → ⊥ }
    ensures few { result ≢ 2 → (1 ≤ processors) × (processors ≤ 8) }
    ensures too_long { result ≡ 9 → text_limit text.now < length text.now }
    ensures short { result ≢ 9 → result ≢ 2 → length text.now ≤ text_limit text.now }
    ensures refused { result ≢ 0 → result ≢ 2 → result ≢ 6 → result ≢ 9 → (r : TheRefusal) × IsCheckRefusal text.now r × (result ≡ status_of r) }
    ensures untouched { result ≢ 0 → result ≢ 6 → (out.new ≡ out.old) × (written.new ≡ 0) }
    ensures complete { (g : GraphValue) → length text.now ≤ text_limit text.now → GraphText text.now g → Accepted g
        → (result ≡ 0) ⊎ ((result ≡ 2) ⊎ ((result ≡ 6) ⊎ (result ≡ 7))) }
{
    *written = 0;
    if !are_processors(processors) {
        return USAGE;
    }
    if text.len() as u64 > text_limit(text) {
        return TOO_LONG;
    }
    let checked = match read_checked(alloc, text) {
        Ok(checked) => checked,
        Err(refusal) => return refusal.status(),
    };
    match plan_text(alloc, &checked, processors) {
        Some(plan) => hand_out(plan.as_slice(), out, written),
        None => NO_MEMORY,
    }
}

/// Whether a plan may have so many processors.
fn are_processors(processors: u32) -> bool
    ensures yes { result ≡ true → (1 ≤ processors) × (processors ≤ 8) }
    ensures no { result ≡ false → (1 ≤ processors) × (processors ≤ 8) → ⊥ }
{
    1 <= processors && processors <= 8
}
