//! The check of a graph.

ghost use Rattle.std.specs.Prelude.{◌≡◌, ◌≢◌, ℕ, ◌<◌, ◌≤◌, ◌⊎◌, length};
ghost use Rattle.graph_terms.specs.Graph.{GraphValue};
ghost use Rattle.graph_meaning.specs.Need.{IsNeed};
ghost use Rattle.graph_meaning.specs.Rules.{Accepted};
ghost use Rattle.graph_words.specs.Limits.{text_limit};
ghost use Rattle.graph_words.specs.Text.{GraphText};
ghost use Rattle.c_answers.specs.Numbers.{needing, nothing, verdict_of};
ghost use Rattle.c_answers.specs.Refusals.{status_of, IsCheckRefusal};
ghost use Rattle.c_answers.specs.declared.reading.Refusal.{Refusal as TheRefusal};

use c_answers::need::need_of;
use c_answers::reading::read_checked;
use c_answers::verdict::Verdict;
use c_numbers::status::{DONE, TOO_LONG};
use graph_terms::limits::MAX_LINES_OF_THREE;
use graph_words::limits::text_limit;
use std::alloc::Global;

/// Reads a graph from its text and checks it: 0 where it is accepted, with its need; else 3, 4, 7 or 9, with why.
#[unsafe(no_mangle)]
pub extern "C" fn realm_check(alloc: Global, text: &[u8], out: &mut Verdict) -> u32
    ensures accepted { result ≡ 0 → (g : GraphValue) × (need : ℕ) × GraphText text.now g × Accepted g × IsNeed g need
        × (need ≤ MAX_LINES_OF_THREE) × (out.new ≡ needing need) }
    ensures too_long { result ≡ 9 → text_limit text.now < length text.now }
    ensures short { result ≢ 9 → length text.now ≤ text_limit text.now }
    ensures untold { result ≡ 9 → out.new ≡ nothing }
    ensures refused { result ≢ 0 → result ≢ 9 → (r : TheRefusal) × IsCheckRefusal text.now r × (result ≡ status_of r) × (out.new ≡ verdict_of r) }
    ensures complete { (g : GraphValue) → length text.now ≤ text_limit text.now → GraphText text.now g → Accepted g → (result ≡ 0) ⊎ (result ≡ 7) }
{
    if text.len() as u64 > text_limit(text) {
        *out = Verdict::nothing();
        return TOO_LONG;
    }
    match read_checked(alloc, text) {
        Ok(checked) => {
            *out = Verdict::needing(need_of(&checked));
            DONE
        }
        Err(refusal) => {
            *out = Verdict::of(refusal);
            refusal.status()
        }
    }
}
