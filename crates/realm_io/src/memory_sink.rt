//! A sink over memory that fails at stated calls.
ghost use Rattle.std.specs.Prelude.{◌≡◌, ◌==◌, ◌+◌, ◌-◌, ◌<◌, ◌≤◌, ◌⊎◌, ◌↔◌, ◌++◌, [], Some, length, take, min, vec_len, IfOk, OnOk, OnErr, IsErr, IsTrue, Contains};
ghost use Rattle.std.specs.Option.{option_map};
ghost use Rattle.realm_io.specs.Counts.{Rose, next_count, count_if};
ghost use Rattle.realm_io.specs.Told.{with_more};

use crate::counts::count_if;
use crate::fixed_buffer::FixedBuffer;
use crate::listed::is_listed;
use crate::sinks::Sink;
use crate::sources::Failed;
use std::marker::Model;

/// A sink over memory, whose faults come at stated calls and where its room is full. No call takes memory.
#[derive(Drop)]
pub struct MemorySink {
    room: FixedBuffer,
    flushed: usize,
    piece: usize,
    fails: Vec<u32>,
    calls: u64,
    empty_writes: u64,
    faults: u64,
}

impl Model for MemorySink {
    ghost use Rattle.std.specs.Prelude.{◌≤◌, length};
    ghost use Rattle.realm_io.specs.Memory.{MemorySinkValue};

    ghost Value = { MemorySinkValue };

    ghost view = { λ a. record {
      taken = a.room.taken;
      free = a.room.free;
      flushed = a.flushed;
      piece = a.piece;
      fails = a.fails.items;
      calls = a.calls;
      empty_writes = a.empty_writes;
      faults = a.faults;
    } };

    ghost invariant = { λ a. (1 ≤ a.piece) × (a.flushed ≤ length a.room.taken) };
}

impl MemorySink {
    /// A sink that keeps its bytes in `room`, as many as `room` is long, and takes at most `piece` of them a
    /// write. The writes and flushes whose numbers, from 0, stand in `fails` fail.
    pub fn new(room: Vec<u8>, piece: usize, fails: Vec<u32>) -> Self
        requires { 1 ≤ piece }
        ensures { result ≡ record {
          taken = [];
          free = vec_len room;
          flushed = 0;
          piece = piece;
          fails = fails.items;
          calls = 0;
          empty_writes = 0;
          faults = 0;
        } }
    {
        MemorySink {
            room: FixedBuffer::new(room),
            flushed: 0,
            piece,
            fails,
            calls: 0,
            empty_writes: 0,
            faults: 0,
        }
    }

    /// All bytes that it took.
    pub fn taken(&self) -> &[u8]
        ensures { result.now ≡ self.now.taken }
    {
        self.room.taken()
    }

    /// How many of them were flushed.
    pub fn flushed(&self) -> usize
        ensures value { result ≡ self.now.flushed }
        ensures within { result ≤ length self.now.taken }
    {
        self.flushed
    }

    // Whether the next write fails, of this piece: its number is listed, or there is a byte to take and no room for it.
    fn fails_at(&self, piece: &[u8]) -> bool
        ensures { IsTrue result ↔ (Contains self.now.fails self.now.calls
            ⊎ ((0 < length piece.now) × (self.now.free ≡ 0))) }
    {
        is_listed(&self.fails, self.calls) || (self.room.free() == 0 && !piece.is_empty())
    }
}

impl Sink for MemorySink {
    ghost use Rattle.realm_io.specs.Memory.{told_of};

    ghost state = { λ s. told_of s };

    fn write(&mut self, piece: &[u8]) -> Result<usize, Failed>
        // It fails exactly where its number is listed, or there is a byte to take and no room for it.
        ensures fails { IsErr result ↔ (Contains self.old.fails self.old.calls
            ⊎ ((0 < length piece.now) × (self.old.free ≡ 0))) }
        ensures err { OnErr result (self.new ≡ record self.old {
          calls = next_count self.old.calls;
          empty_writes = count_if (length piece.now == 0) self.old.empty_writes;
          faults = next_count self.old.faults;
        }) }

        ensures exact { IfOk result (λ n. n ≡ min self.old.piece (min (length piece.now) self.old.free)) }
        ensures ok { IfOk result (λ n. self.new ≡ record self.old {
          taken = self.old.taken ++ take n piece.now;
          free = self.old.free - n;
          calls = next_count self.old.calls;
          empty_writes = count_if (length piece.now == 0) self.old.empty_writes;
        }) }

        // As for every sink.
        ensures bound { IfOk result (λ n. n ≤ length piece.now) }
        ensures some { 0 < length piece.now → IfOk result (λ n. 1 ≤ n) }
        ensures took { IfOk result (λ n.
            Some self.new.taken ≡ with_more (Some self.old.taken) (take n piece.now)) }
        ensures failed { OnErr result (Rose self.old.faults self.new.faults) }
        ensures kept { OnErr result (Some self.new.taken ≡ Some self.old.taken) }
        ensures flushed { Some self.new.flushed ≡ Some self.old.flushed }
        ensures count { self.old.faults ≤ self.new.faults }
        ensures counted { Some self.new.calls ≡ option_map next_count (Some self.old.calls) }
        ensures empty { length piece.now ≡ 0
            → Some self.new.empty_writes ≡ option_map next_count (Some self.old.empty_writes) }
        ensures not_empty { 0 < length piece.now → Some self.new.empty_writes ≡ Some self.old.empty_writes }
    {
        let fails = self.fails_at(piece);
        self.calls = self.calls.saturating_add(1);
        self.empty_writes = count_if(piece.is_empty(), self.empty_writes);
        if fails {
            self.faults = self.faults.saturating_add(1);
            return Err(Failed);
        }
        let n = self.piece.min(piece.len()).min(self.room.free());
        self.room.add(&piece[..n]);
        Ok(n)
    }

    fn flush(&mut self) -> Result<(), Failed>
        // It fails exactly where its number is listed.
        ensures listed { IsErr result ↔ Contains self.old.fails self.old.calls }
        ensures err { OnErr result (self.new ≡ record self.old {
          calls = next_count self.old.calls;
          faults = next_count self.old.faults;
        }) }
        ensures ok { OnOk result (self.new ≡ record self.old {
          flushed = length self.old.taken;
          calls = next_count self.old.calls;
        }) }

        // As for every sink.
        ensures kept { Some self.new.taken ≡ Some self.old.taken }
        ensures ok_flushed { OnOk result (Some self.new.flushed ≡ option_map length (Some self.new.taken)) }
        ensures err_flushed { OnErr result (Some self.new.flushed ≡ Some self.old.flushed) }
        ensures failed { OnErr result (Rose self.old.faults self.new.faults) }
        ensures count { self.old.faults ≤ self.new.faults }
        ensures counted { Some self.new.calls ≡ option_map next_count (Some self.old.calls) }
        ensures not_empty { Some self.new.empty_writes ≡ Some self.old.empty_writes }
    {
        let number = self.calls;
        self.calls = number.saturating_add(1);
        if is_listed(&self.fails, number) {
            self.faults = self.faults.saturating_add(1);
            return Err(Failed);
        }
        self.flushed = self.room.taken().len();
        Ok(())
    }
}
