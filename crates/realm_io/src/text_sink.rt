//! A sink that keeps all bytes.

ghost use Rattle.std.specs.Prelude.{◌≡◌, ◌<◌, ◌≤◌, ◌++◌, [], Some, None, length, take, IfOk, OnOk, OnErr};
ghost use Rattle.std.specs.Option.{option_map};
ghost use Rattle.realm_io.specs.Counts.{Rose, next_count};
ghost use Rattle.realm_io.specs.Told.{with_more};

use crate::sinks::Sink;
use crate::sources::Failed;
use std::alloc::Global;
use std::marker::Model;

/// A sink that keeps all bytes in memory. A write fails where memory ran out.
#[derive(Drop)]
pub struct TextSink {
    bytes: Vec<u8>,
    flushed: usize,
    faults: u64,
}

impl Model for TextSink {
    ghost use Rattle.realm_io.specs.TextSinks.{TextSinkValue};

    ghost Value = { TextSinkValue };

    ghost view = { λ a. record { taken = a.bytes.items; flushed = a.flushed; faults = a.faults } };
}

impl TextSink {
    /// An empty sink.
    pub fn new(alloc: Global) -> TextSink
        ensures { result ≡ record { taken = []; flushed = 0; faults = 0 } }
    {
        TextSink::with_bytes(Vec::new(alloc))
    }

    /// A sink that took these bytes.
    pub fn with_bytes(bytes: Vec<u8>) -> TextSink
        ensures { result ≡ record { taken = bytes.items; flushed = 0; faults = 0 } }
    {
        TextSink {
            bytes,
            flushed: 0,
            faults: 0,
        }
    }

    /// All bytes that it took.
    pub fn into_bytes(self) -> Vec<u8>
        ensures { result.items ≡ self.taken }
    {
        self.bytes
    }
}

impl Sink for TextSink {
    ghost use Rattle.realm_io.specs.TextSinks.{told_of};

    ghost state = { λ s. told_of s };

    fn write(&mut self, piece: &[u8]) -> Result<usize, Failed>
        ensures ok { OnOk result (self.new.taken ≡ self.old.taken ++ piece.now) }
        ensures err { OnErr result (self.new.taken ≡ self.old.taken) }

        // As for every sink.
        ensures bound { IfOk result (λ n. n ≤ length piece.now) }
        ensures some { 0 < length piece.now → IfOk result (λ n. 1 ≤ n) }
        ensures took { IfOk result (λ n. Some self.new.taken ≡ with_more (Some self.old.taken) (take n piece.now)) }
        ensures failed { OnErr result (Rose self.old.faults self.new.faults) }
        ensures kept { OnErr result (Some self.new.taken ≡ Some self.old.taken) }
        ensures flushed { Some self.new.flushed ≡ Some self.old.flushed }
        ensures count { self.old.faults ≤ self.new.faults }
    {
        if self.bytes.extend_from_slice(piece).is_err() {
            self.faults = self.faults.saturating_add(1);
            return Err(Failed);
        }
        Ok(piece.len())
    }

    fn flush(&mut self) -> Result<(), Failed>
        ensures all { OnOk result (self.new.flushed ≡ length self.new.taken) }

        // As for every sink.
        ensures kept { Some self.new.taken ≡ Some self.old.taken }
        ensures ok { OnOk result (Some self.new.flushed ≡ option_map length (Some self.new.taken)) }
        ensures err { OnErr result (Some self.new.flushed ≡ Some self.old.flushed) }
        ensures failed { OnErr result (Rose self.old.faults self.new.faults) }
        ensures count { self.old.faults ≤ self.new.faults }
    {
        self.flushed = self.bytes.len();
        Ok(())
    }
}
