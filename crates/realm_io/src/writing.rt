//! Writing whole texts to a sink.
ghost use Rattle.std.specs.Prelude.{◌≡◌, ◌≤◌, length, decimal, OnOk, OnErr};
ghost use Rattle.realm_io.specs.Counts.{Rose, MadeAtMost};
ghost use Rattle.realm_io.specs.Told.{with_more, TookPrefix, TookPrefixInSteps};
ghost use Rattle.realm_io.specs.Written.{Writes};

use crate::sinks::Sink;
use itoa::Buffer;

/// A write failed.
#[derive(Clone, Copy, Debug, PartialEq, Eq)]
pub struct WriteFault;

/// Writes all of `bytes`. After a fault the sink has taken a prefix of them.
pub fn put<K: Sink>(sink: &mut K, bytes: &[u8]) -> Result<(), WriteFault>
    ensures ok { OnOk result ((K.state sink.new).taken ≡ with_more (K.state sink.old).taken bytes.now) }
    ensures fault { OnErr result (Rose (K.state sink.old).faults (K.state sink.new).faults) }
    ensures took { OnErr result (TookPrefix (K.state sink.old).taken (K.state sink.new).taken bytes.now) }
    ensures flushed { (K.state sink.new).flushed ≡ (K.state sink.old).flushed }
    ensures count { (K.state sink.old).faults ≤ (K.state sink.new).faults }

    // No empty piece is written, so each write that did not fail took at least one byte.
    ensures not_empty { (K.state sink.new).empty_writes ≡ (K.state sink.old).empty_writes }
    ensures steps { OnOk result (MadeAtMost (K.state sink.old).calls (K.state sink.new).calls (length bytes.now)) }
    ensures fault_steps { OnErr result (TookPrefixInSteps (K.state sink.old).taken (K.state sink.new).taken
        (K.state sink.old).calls (K.state sink.new).calls bytes.now) }
{
    let mut at = 0;
    while at < bytes.len() {
        match sink.write(&bytes[at..]) {
            Ok(n) => at += n,
            Err(_) => return Err(WriteFault),
        }
    }
    Ok(())
}

/// Writes the decimal text of `n`. After a fault the sink has taken a prefix of it.
pub fn put_number<K: Sink>(sink: &mut K, n: u64) -> Result<(), WriteFault>
    ensures ok { OnOk result ((K.state sink.new).taken ≡ with_more (K.state sink.old).taken (decimal n)) }
    ensures fault { OnErr result (Rose (K.state sink.old).faults (K.state sink.new).faults) }
    ensures took { OnErr result (TookPrefix (K.state sink.old).taken (K.state sink.new).taken (decimal n)) }
    ensures flushed { (K.state sink.new).flushed ≡ (K.state sink.old).flushed }
    ensures count { (K.state sink.old).faults ≤ (K.state sink.new).faults }

    // No empty piece is written, so each write that did not fail took at least one byte.
    ensures not_empty { (K.state sink.new).empty_writes ≡ (K.state sink.old).empty_writes }
    ensures steps { OnOk result (MadeAtMost (K.state sink.old).calls (K.state sink.new).calls (length (decimal n))) }
    ensures fault_steps { OnErr result (TookPrefixInSteps (K.state sink.old).taken (K.state sink.new).taken
        (K.state sink.old).calls (K.state sink.new).calls (decimal n)) }
{
    let mut buffer = Buffer::new();
    put(sink, buffer.format(n).as_bytes())
}

/// As `put`, for callers that write a text part by part: one clause says what each answer leaves.
pub fn put_bytes<K: Sink>(sink: &mut K, bytes: &[u8]) -> Result<(), WriteFault>
    ensures { Writes (K.state sink.old) (K.state sink.new) result bytes.now }
{
    put(sink, bytes)
}

/// As `put_number`, for callers that write a text part by part.
pub fn put_decimal<K: Sink>(sink: &mut K, n: u64) -> Result<(), WriteFault>
    ensures { Writes (K.state sink.old) (K.state sink.new) result (decimal n) }
{
    put_number(sink, n)
}
