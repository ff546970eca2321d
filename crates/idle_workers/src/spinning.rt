//! A short wait that does not give the thread up.

use std::hint::spin_loop;

/// How often one spin lets the processor pause. On the processors of today that is about a
/// microsecond, less than falling asleep and being woken takes.
const PAUSES: u32 = 32;

/// Passes about a microsecond without giving the thread up. What a worker waits for often comes within
/// that time.
pub fn spin() {
    for _pause in 0..PAUSES {
        spin_loop();
    }
}
