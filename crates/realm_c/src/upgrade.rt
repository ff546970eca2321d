//! The text of a graph in a later format.

ghost use Rattle.std.specs.Prelude.{◌≡◌, ◌≢◌, ◌<◌, ◌≤◌, ◌⊎◌, length, IfSome};
ghost use Rattle.graph_terms.specs.Graph.{GraphValue, written_in, upgraded};
ghost use Rattle.graph_terms.specs.declared.format.Format.TheVariants.{Three};
ghost use Rattle.graph_words.specs.Limits.{text_limit};
ghost use Rattle.graph_words.specs.Text.{GraphText, text as text_of};
ghost use Rattle.graph_answers.specs.UpgradeAnswer.{upgrade_of};
ghost use Rattle.c_answers.specs.Buffers.{Holds, IsCut};
ghost use Rattle.c_answers.specs.Refusals.{status_of, IsReadRefusal};
ghost use Rattle.c_answers.specs.declared.reading.Refusal.{Refusal as TheRefusal};

use c_answers::buffer::hand_out;
use c_answers::reading::read;
use c_answers::texts::graph_text;
use c_numbers::status::{NO_MEMORY, TOO_LONG, USAGE};
use graph_answers::upgrading::upgraded;
use graph_words::limits::text_limit;
use std::alloc::Global;

/// Reads a graph from its text, and puts its text in format 2, or in format 3 where it has that, into `out` with its
/// length beside it, whether or not the graph is accepted: 0; 6 exactly where `out` is too short for it, and it is cut;
/// else 3, 7 or 9, and nothing is put.
#[unsafe(no_mangle)]
pub extern "C" fn realm_upgrade(
    alloc: Global,
    text: &[u8],
    out: &mut [u8],
    written: &mut u64,
) -> u32
    ensures done { result ≡ 0 → (g : GraphValue) × GraphText text.now g × Holds (text_of (upgraded g)) out.old out.new written.new }
    ensures cut { result ≡ 6 → (g : GraphValue) × GraphText text.now g × IsCut (text_of (upgraded g)) out.old out.new written.new }
    ensures too_long { result ≡ 9 → text_limit text.now < length text.now }
    ensures short { result ≢ 9 → length text.now ≤ text_limit text.now }
    ensures refused { result ≢ 0 → result ≢ 6 → result ≢ 9 → (r : TheRefusal) × IsReadRefusal text.now r × (result ≡ status_of r) }
    ensures untouched { result ≢ 0 → result ≢ 6 → (out.new ≡ out.old) × (written.new ≡ 0) }
    ensures complete { (g : GraphValue) → length text.now ≤ text_limit text.now → GraphText text.now g → (result ≡ 0) ⊎ ((result ≡ 6) ⊎ (result ≡ 7)) }
{
    hand_out_later(alloc, text, false, out, written)
}

/// The same in the format of this number, which is 3: 2 exactly where it is another, else as `realm_upgrade`.
#[unsafe(no_mangle)]
pub extern "C" fn realm_upgrade_to(
    alloc: Global,
    text: &[u8],
    format: u32,
    out: &mut [u8],
    written: &mut u64,
) -> u32
    ensures done { result ≡ 0 → (g : GraphValue) × GraphText text.now g × Holds (text_of (written_in Three g)) out.old out.new written.new }
    ensures cut { result ≡ 6 → (g : GraphValue) × GraphText text.now g × IsCut (text_of (written_in Three g)) out.old out.new written.new }
    ensures usage { result ≡ 2 → format ≢ 3 }
    ensures format { result ≢ 2 → format ≡ 3 }
    ensures too_long { result ≡ 9 → text_limit text.now < length text.now }
    ensures short { result ≢ 9 → result ≢ 2 → length text.now ≤ text_limit text.now }
    ensures refused { result ≢ 0 → result ≢ 2 → result ≢ 6 → result ≢ 9 → (r : TheRefusal) × IsReadRefusal text.now r × (result ≡ status_of r) }
    ensures untouched { result ≢ 0 → result ≢ 6 → (out.new ≡ out.old) × (written.new ≡ 0) }
    ensures complete { (g : GraphValue) → length text.now ≤ text_limit text.now → GraphText text.now g → (result ≡ 0) ⊎ ((result ≡ 2) ⊎ ((result ≡ 6) ⊎ (result ≡ 7))) }
{
    if format != 3 {
        *written = 0;
        return USAGE;
    }
    hand_out_later(alloc, text, true, out, written)
}

/// Puts the text of a graph in format 3 where that is asked for; else in format 2, or in format 3 where it has that.
fn hand_out_later(
    alloc: Global,
    text: &[u8],
    to_three: bool,
    out: &mut [u8],
    written: &mut u64,
) -> u32
    ensures done { result ≡ 0 → (g : GraphValue) × GraphText text.now g × Holds (text_of (upgrade_of to_three g)) out.old out.new written.new }
    ensures cut { result ≡ 6 → (g : GraphValue) × GraphText text.now g × IsCut (text_of (upgrade_of to_three g)) out.old out.new written.new }
    ensures too_long { result ≡ 9 → text_limit text.now < length text.now }
    ensures short { result ≢ 9 → length text.now ≤ text_limit text.now }
    ensures no_usage { result ≢ 2 }
    ensures refused { result ≢ 0 → result ≢ 6 → result ≢ 9 → (r : TheRefusal) × IsReadRefusal text.now r × (result ≡ status_of r) }
    ensures untouched { result ≢ 0 → result ≢ 6 → (out.new ≡ out.old) × (written.new ≡ 0) }
    ensures complete { (g : GraphValue) → length text.now ≤ text_limit text.now → GraphText text.now g → (result ≡ 0) ⊎ ((result ≡ 6) ⊎ (result ≡ 7)) }
{
    *written = 0;
    if text.len() as u64 > text_limit(text) {
        return TOO_LONG;
    }
    let graph = match read(alloc, text) {
        Ok(graph) => upgraded(graph, to_three),
        Err(refusal) => return refusal.status(),
    };
    match graph_text(alloc, &graph) {
        Some(later) => hand_out(later.as_slice(), out, written),
        None => NO_MEMORY,
    }
}
