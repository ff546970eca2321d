//! A source and a sink over memory that never fail.
ghost use Rattle.std.specs.Prelude.{◌≡◌, ◌+◌, ◌-◌, ◌^◌, ◌<◌, ◌≤◌, ◌++◌, [], Some, Ok, length, take, drop, min, vec_len, IfOk, IsOk};
ghost use Rattle.std.specs.Io.KnownBytes.{Consumes, IsAtEnd};

use crate::fixed_buffer::FixedBuffer;
use crate::sinks::Sink;
use crate::sources::{Failed, Source};
use std::marker::Model;

/// A source over memory, seen as the bytes still to come. No read fails, and none takes memory.
#[derive(Drop)]
pub struct SureSource {
    bytes: Vec<u8>,
    at: usize,
}

impl Model for SureSource {
    ghost use Rattle.std.specs.Prelude.{◌≤◌, ℕ, List, length, drop};

    ghost Value = { List ℕ };

    ghost view = { λ a. drop a.at a.bytes.items };

    ghost invariant = { λ a. a.at ≤ length a.bytes.items };
}

impl SureSource {
    /// A source of these bytes.
    pub fn new(bytes: Vec<u8>) -> Self
        ensures { result ≡ bytes.items }
    {
        SureSource { bytes, at: 0 }
    }

    /// Fills the front of `into` with the next bytes, and answers how many there were.
    pub(crate) fn give(&mut self, into: &mut [u8]) -> usize
        ensures count { result ≡ min (length into.new) (length self.old) }
        ensures bytes { take result into.new ≡ take result self.old }
        ensures left { self.new ≡ drop result self.old }
    {
        let n = into.len().min(self.bytes.len() - self.at);
        let end = self.at + n;
        into[..n].copy_from_slice(&self.bytes[self.at..end]);
        self.at = end;
        n
    }
}

impl Source for SureSource {
    ghost left = { λ s. Some s };

    ghost faults = { λ _. 0 };

    fn read(&mut self, into: &mut [u8]) -> Result<usize, Failed>
        ensures exact { result ≡ Ok (min (length into.new) (length self.old)) }
        ensures given { IfOk result (λ n. take n into.new ≡ take n self.old) }
        ensures after { IfOk result (λ n. self.new ≡ drop n self.old) }

        // As for every source.
        ensures bound { IfOk result (λ n. n ≤ length into.new) }
        ensures bytes { IfOk result (λ n. Consumes (Some self.old) (Some self.new) (take n into.new)) }
        ensures end { IfOk result (λ n. n ≡ 0 → 0 < length into.new → IsAtEnd (Some self.new)) }
    {
        Ok(self.give(into))
    }
}

/// A sink that takes all bytes and keeps the first of them, seen as how many it took and what it kept.
/// No call fails, and none takes memory.
#[derive(Drop)]
pub struct SureSink {
    room: FixedBuffer,
    taken: u64,
}

impl Model for SureSink {
    ghost use Rattle.realm_io.specs.Memory.{SureSinkValue};

    ghost Value = { SureSinkValue };

    ghost view = { λ a. record { taken = a.taken; kept = a.room.taken; free = a.room.free } };
}

impl SureSink {
    /// A sink that keeps its bytes in `room`, as many as `room` is long.
    pub fn new(room: Vec<u8>) -> Self
        ensures { result ≡ record { taken = 0; kept = []; free = vec_len room } }
    {
        SureSink {
            room: FixedBuffer::new(room),
            taken: 0,
        }
    }

    /// How many bytes it took. The count stays at the last value of its type.
    pub fn taken(&self) -> u64
        ensures { result ≡ self.now.taken }
    {
        self.taken
    }

    /// The first bytes that it took.
    pub fn kept(&self) -> &[u8]
        ensures { result.now ≡ self.now.kept }
    {
        self.room.taken()
    }
}

impl Sink for SureSink {
    ghost use Rattle.realm_io.specs.SinkState.{untold};

    ghost state = { λ _. untold 0 };

    fn write(&mut self, piece: &[u8]) -> Result<usize, Failed>
        ensures exact { result ≡ Ok (length piece.now) }
        ensures taken { self.new.taken ≡ min (self.old.taken + length piece.now) (2 ^ 64 - 1) }
        ensures kept { self.new.kept ≡ self.old.kept ++ take self.old.free piece.now }
        ensures free { self.new.free ≡ self.old.free - length piece.now }
    {
        let n = piece.len().min(self.room.free());
        self.room.add(&piece[..n]);
        self.taken = self.taken.saturating_add(piece.len() as u64);
        Ok(piece.len())
    }

    fn flush(&mut self) -> Result<(), Failed>
        ensures exact { IsOk result }
        ensures unchanged { self.new ≡ self.old }
    {
        Ok(())
    }
}
