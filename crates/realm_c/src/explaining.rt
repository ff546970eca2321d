//! Why a text is refused, or what its graph needs.

ghost use Rattle.std.specs.Prelude.{◌≡◌, ◌≢◌, ℕ, ◌<◌, ◌≤◌, ◌⊎◌, List, length, false};
ghost use Rattle.c_answers.specs.Buffers.{Holds, IsCut};
ghost use Rattle.graph_words.specs.Limits.{text_limit};
ghost use Rattle.explain_top.specs.Answer.{IsAnswer};
ghost use Rattle.explain_top.specs.declared.answer.Verdict.{Verdict as TheVerdict};

use c_answers::buffer::hand_out;
use c_numbers::status::{NO_MEMORY, TOO_LONG};
use explain_top::explain_bytes;
use graph_words::limits::text_limit;
use std::alloc::Global;

/// Puts what `realm-explain` writes of a text into `out` with its length beside it, whether or not the text is that of an
/// accepted graph: 0; 6 exactly where `out` is too short for it, and it is cut; else 7 or 9, and nothing is put.
#[unsafe(no_mangle)]
pub extern "C" fn realm_explain(
    alloc: Global,
    text: &[u8],
    out: &mut [u8],
    written: &mut u64,
) -> u32
    ensures answers { (result ≡ 0) ⊎ ((result ≡ 6) ⊎ ((result ≡ 7) ⊎ (result ≡ 9))) }
    ensures done { result ≡ 0 → (v : TheVerdict) × (said : List ℕ) × IsAnswer false text.now v said × Holds said out.old out.new written.new }
    ensures cut { result ≡ 6 → (v : TheVerdict) × (said : List ℕ) × IsAnswer false text.now v said × IsCut said out.old out.new written.new }
    ensures too_long { result ≡ 9 → text_limit text.now < length text.now }
    ensures short { result ≢ 9 → length text.now ≤ text_limit text.now }
    ensures untouched { result ≢ 0 → result ≢ 6 → (out.new ≡ out.old) × (written.new ≡ 0) }
{
    *written = 0;
    if text.len() as u64 > text_limit(text) {
        return TOO_LONG;
    }
    match explain_bytes(alloc, text, false) {
        Ok(answer) => hand_out(answer.text.bytes(), out, written),
        Err(_) => NO_MEMORY,
    }
}
