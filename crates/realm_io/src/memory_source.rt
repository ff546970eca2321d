//! A source over memory that fails at stated reads.
ghost use Rattle.std.specs.Prelude.{◌≡◌, ◌==◌, ◌+◌, ◌^◌, ◌<◌, ◌≤◌, ◌↔◌, [], Some, length, take, drop, min, IfOk, OnErr, IsErr, Contains};
ghost use Rattle.std.specs.Option.{option_map};
ghost use Rattle.std.specs.Io.KnownBytes.{Consumes, IsAtEnd};
ghost use Rattle.realm_io.specs.Counts.{Rose, next_count, count_if};

use crate::counts::count_if;
use crate::listed::is_listed;
use crate::sources::{Failed, Source};
use crate::sure::SureSource;
use std::marker::Model;

/// A source over memory, whose faults come at stated reads.
#[derive(Drop)]
pub struct MemorySource {
    source: SureSource,
    piece: usize,
    fails: Vec<u32>,
    reads: u64,
    empty_reads: u64,
    faults: u64,
}

impl Model for MemorySource {
    ghost use Rattle.std.specs.Prelude.{◌^◌, ◌≤◌};
    ghost use Rattle.realm_io.specs.Memory.{MemorySourceValue};

    ghost Value = { MemorySourceValue };

    ghost view = { λ a. record {
      left = a.source;
      piece = a.piece;
      fails = a.fails.items;
      reads = a.reads;
      empty_reads = a.empty_reads;
      faults = a.faults;
    } };

    // A fault comes at a number below 2^32, and at each number once.
    ghost invariant = { λ a. (1 ≤ a.piece) × (a.faults ≤ a.reads) × (a.faults ≤ 2 ^ 32) };
}

impl MemorySource {
    /// A source of these bytes that gives at most `piece` of them a read. The reads whose numbers, from 0,
    /// stand in `fails` fail and take nothing.
    pub fn new(bytes: Vec<u8>, piece: usize, fails: Vec<u32>) -> Self
        requires { 1 ≤ piece }
        ensures { result ≡ record {
          left = bytes.items;
          piece = piece;
          fails = fails.items;
          reads = 0;
          empty_reads = 0;
          faults = 0;
        } }
    {
        MemorySource {
            source: SureSource::new(bytes),
            piece,
            fails,
            reads: 0,
            empty_reads: 0,
            faults: 0,
        }
    }
}

impl Source for MemorySource {
    ghost left = { λ s. Some s.left };

    ghost reads = { λ s. Some s.reads };

    ghost empty_reads = { λ s. Some s.empty_reads };

    ghost faults = { λ s. s.faults };

    fn read(&mut self, into: &mut [u8]) -> Result<usize, Failed>
        // It fails exactly where its number is listed, and takes nothing then.
        ensures listed { IsErr result ↔ Contains self.old.fails self.old.reads }
        ensures err { OnErr result (self.new ≡ record self.old {
          reads = next_count self.old.reads;
          faults = self.old.faults + 1;
        }) }

        ensures exact { IfOk result (λ n.
            n ≡ min self.old.piece (min (length into.new) (length self.old.left))) }
        ensures given { IfOk result (λ n. take n into.new ≡ take n self.old.left) }
        ensures ok { IfOk result (λ n. self.new ≡ record self.old {
          left = drop n self.old.left;
          reads = next_count self.old.reads;
          empty_reads = count_if (n == 0) self.old.empty_reads;
        }) }

        // The count never reaches the last value of its type.
        ensures bounded { self.new.faults ≤ 2 ^ 32 }

        // As for every source.
        ensures bound { IfOk result (λ n. n ≤ length into.new) }
        ensures bytes { IfOk result (λ n.
            Consumes (Some self.old.left) (Some self.new.left) (take n into.new)) }
        ensures end { IfOk result (λ n. n ≡ 0 → 0 < length into.new → IsAtEnd (Some self.new.left)) }
        ensures failed { OnErr result (Rose self.old.faults self.new.faults) }
        ensures count { self.old.faults ≤ self.new.faults }
        ensures counted { Some self.new.reads ≡ option_map next_count (Some self.old.reads) }
        ensures empty { IfOk result (λ n. n ≡ 0
            → Some self.new.empty_reads ≡ option_map next_count (Some self.old.empty_reads)) }
        ensures not_empty { IfOk result (λ n. 0 < n → Some self.new.empty_reads ≡ Some self.old.empty_reads) }
        ensures failed_not_empty { OnErr result (Some self.new.empty_reads ≡ Some self.old.empty_reads) }
    {
        let number = self.reads;
        self.reads = number.saturating_add(1);
        if is_listed(&self.fails, number) {
            self.faults += 1;
            return Err(Failed);
        }
        let most = self.piece.min(into.len());
        let n = self.source.give(&mut into[..most]);
        self.empty_reads = count_if(n == 0, self.empty_reads);
        Ok(n)
    }
}
