//! Graphs that are generated.

ghost use Rattle.std.specs.Prelude.{◌≡◌, ◌≢◌, ◌≤◌, ◌⊎◌, true, false};
ghost use Rattle.graph_gen.specs.MadeGraph.{made_graph};
ghost use Rattle.graph_words.specs.Text.{text};
ghost use Rattle.c_answers.specs.Buffers.{Holds, IsCut};

use c_answers::buffer::hand_out;
use c_answers::texts::graph_text;
use c_numbers::status::{NO_MEMORY, USAGE};
use graph_gen::make::make;
use graph_terms::limits::MAX_LINES;
use std::alloc::Global;

/// Puts the text of the generated graph of a seed and a size into `out` with its length beside it: 0; 2 exactly where the
/// size is not 1 to 8,192; 6 exactly where `out` is too short for the text, and it is cut; 7.
#[unsafe(no_mangle)]
pub extern "C" fn realm_make(
    alloc: Global,
    seed: u64,
    size: u32,
    out: &mut [u8],
    written: &mut u64,
) -> u32
    ensures answers { (result ≡ 0) ⊎ ((result ≡ 2) ⊎ ((result ≡ 6) ⊎ (result ≡ 7))) }
    ensures done { result ≡ 0 → Holds (text (made_graph seed size)) out.old out.new written.new }
    ensures cut { result ≡ 6 → IsCut (text (made_graph seed size)) out.old out.new written.new }
    ensures usage { result ≡ 2 → (1 ≤ size) × (size ≤ MAX_LINES) → ⊥ }
    ensures size { result ≢ 2 → (1 ≤ size) × (size ≤ MAX_LINES) }
    ensures untouched { result ≢ 0 → result ≢ 6 → (out.new ≡ out.old) × (written.new ≡ 0) }
{
    *written = 0;
    if !is_size(size) {
        return USAGE;
    }
    let Ok(graph) = make(alloc, seed, size) else {
        return NO_MEMORY;
    };
    match graph_text(alloc, &graph) {
        Some(made) => hand_out(made.as_slice(), out, written),
        None => NO_MEMORY,
    }
}

/// Whether a generated graph may have this size.
fn is_size(size: u32) -> bool
    ensures yes { result ≡ true → (1 ≤ size) × (size ≤ MAX_LINES) }
    ensures no { result ≡ false → (1 ≤ size) × (size ≤ MAX_LINES) → ⊥ }
{
    1 <= size && size as u64 <= MAX_LINES
}
