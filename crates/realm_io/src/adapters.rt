//! Std's readers and writers as sources and sinks. They tell nothing of their bytes.
ghost use Rattle.std.specs.Prelude.{◌≡◌, ◌<◌, ◌≤◌, length, IfOk, OnOk, OnErr};
ghost use Rattle.realm_io.specs.Counts.{Rose, next_count};

use crate::sinks::Sink;
use crate::sources::{Failed, Source};
use std::io::{Read, Write};
use std::marker::Model;

/// A reader, seen as the count of its faults: the reads that gave an `Err`. No read is tried again.
#[derive(Drop)]
pub struct StdSource<R> {
    inner: R,
    faults: u64,
}

impl<R> Model for StdSource<R> {
    ghost use Rattle.std.specs.Prelude.{ℕ};

    ghost Value = { ℕ };

    ghost view = { λ a. a.faults };
}

impl<R: Read> StdSource<R> {
    /// A source over `inner`, with no fault so far.
    pub fn new(inner: R) -> Self
        ensures { result ≡ 0 }
    {
        StdSource { inner, faults: 0 }
    }
}

impl<R: Read> Source for StdSource<R> {
    ghost faults = { λ s. s };

    fn read(&mut self, into: &mut [u8]) -> Result<usize, Failed>
        ensures ok { OnOk result (self.new ≡ self.old) }
        ensures err { OnErr result (self.new ≡ next_count self.old) }

        // As for every source.
        ensures bound { IfOk result (λ n. n ≤ length into.new) }
        ensures failed { OnErr result (Rose self.old self.new) }
        ensures count { self.old ≤ self.new }
    {
        match self.inner.read(into) {
            Ok(n) => Ok(n),
            Err(_) => {
                self.faults = self.faults.saturating_add(1);
                Err(Failed)
            }
        }
    }
}

/// A writer, seen as the count of its faults: the writes and flushes that gave an `Err`, and the writes
/// that took nothing of a piece that is not empty. No call is tried again.
#[derive(Drop)]
pub struct StdSink<W> {
    inner: W,
    faults: u64,
}

impl<W> Model for StdSink<W> {
    ghost use Rattle.std.specs.Prelude.{ℕ};

    ghost Value = { ℕ };

    ghost view = { λ a. a.faults };
}

impl<W: Write> StdSink<W> {
    /// A sink over `inner`, with no fault so far.
    pub fn new(inner: W) -> Self
        ensures { result ≡ 0 }
    {
        StdSink { inner, faults: 0 }
    }
}

impl<W: Write> Sink for StdSink<W> {
    ghost use Rattle.realm_io.specs.SinkState.{untold};

    ghost state = { λ s. untold s };

    fn write(&mut self, piece: &[u8]) -> Result<usize, Failed>
        ensures ok { OnOk result (self.new ≡ self.old) }
        ensures err { OnErr result (self.new ≡ next_count self.old) }

        // As for every sink.
        ensures bound { IfOk result (λ n. n ≤ length piece.now) }
        ensures some { 0 < length piece.now → IfOk result (λ n. 1 ≤ n) }
        ensures failed { OnErr result (Rose self.old self.new) }
        ensures count { self.old ≤ self.new }
    {
        match self.inner.write(piece) {
            Ok(n) if n > 0 || piece.is_empty() => Ok(n),
            _ => {
                self.faults = self.faults.saturating_add(1);
                Err(Failed)
            }
        }
    }

    fn flush(&mut self) -> Result<(), Failed>
        ensures ok { OnOk result (self.new ≡ self.old) }
        ensures err { OnErr result (self.new ≡ next_count self.old) }

        // As for every sink.
        ensures failed { OnErr result (Rose self.old self.new) }
        ensures count { self.old ≤ self.new }
    {
        match self.inner.flush() {
            Ok(()) => Ok(()),
            Err(_) => {
                self.faults = self.faults.saturating_add(1);
                Err(Failed)
            }
        }
    }
}
