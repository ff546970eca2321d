//! Writing a text that goes with a status.

ghost use Rattle.std.specs.Prelude.{[]};
ghost use Rattle.program_io.specs.Delivered.{Delivers, too_long_text};

use crate::status::ProgramStatus;
use realm_io::{Sink, put};

/// Writes a text and flushes it. The answer is the status that goes with the text, or that of a fault.
pub fn put_text<K: Sink, S: ProgramStatus>(sink: &mut K, text: &[u8], status: S) -> S
    ensures { Delivers S.write_fault (K.state sink.old) (K.state sink.new) status result text.now }
{
    match put(sink, text) {
        Ok(()) => flush(sink, status),
        Err(_) => S::write_fault(),
    }
}

/// Flushes a text that was written. The answer is the status that goes with the text, or that of a fault.
pub fn flush<K: Sink, S: ProgramStatus>(sink: &mut K, status: S) -> S
    ensures { Delivers S.write_fault (K.state sink.old) (K.state sink.new) status result [] }
{
    match sink.flush() {
        Ok(()) => status,
        Err(_) => S::write_fault(),
    }
}

/// Writes that the input is too long, and flushes it.
pub fn put_too_long<K: Sink, S: ProgramStatus>(sink: &mut K, status: S) -> S
    ensures { Delivers S.write_fault (K.state sink.old) (K.state sink.new) status result too_long_text }
{
    put_text(sink, b"input too long\n", status)
}
