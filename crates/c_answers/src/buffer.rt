//! Handing a text out in a caller's buffer.

ghost use Rattle.std.specs.Prelude.{◌≡◌, ◌≤◌, ◌⊎◌, length};
ghost use Rattle.c_answers.specs.Buffers.{Holds, IsCut};

use c_numbers::status::{DONE, NO_ROOM};

/// Puts a text into a buffer, and its length beside it: 0, or 6 exactly where the buffer is too short for it.
pub fn hand_out(text: &[u8], out: &mut [u8], written: &mut u64) -> u32
    ensures answers { (result ≡ 0) ⊎ (result ≡ 6) }
    ensures done { result ≡ 0 → Holds text.now out.old out.new written.new }
    ensures cut { result ≡ 6 → IsCut text.now out.old out.new written.new }
    ensures fits { length text.now ≤ length out.old → result ≡ 0 }
{
    *written = text.len() as u64;
    let room = out.len();
    if text.len() > room {
        out.copy_from_slice(&text[..room]);
        return NO_ROOM;
    }
    out[..text.len()].copy_from_slice(text);
    DONE
}
