//! Reading all of a source.
ghost use Rattle.std.specs.Prelude.{◌≡◌, ℕ, ◌+◌, ◌<◌, ◌≤◌, List, Some, length, vec_len, IfOk, OnOk, OnErr, IsErr, IsErrOf};
ghost use Rattle.std.specs.Option.{option_map};
ghost use Rattle.std.specs.Io.KnownBytes.{Consumes, IsAtEnd};
ghost use Rattle.realm_io.specs.Counts.{Rose, MadeAtMost, next_count};
ghost use Rattle.realm_io.specs.Limit.{limit_by, LostTooMany, LostWithin};
ghost use Rattle.realm_io.specs.Told.{LostAtMost, Lost};

use crate::sources::Source;
use std::alloc::Global;

/// Why a source was not read to its end.
#[derive(Clone, Copy, Debug, PartialEq, Eq)]
pub enum ReadEnd {
    /// A read failed.
    ReadFault,
    /// More bytes were left than the limit.
    TooLong,
    /// Memory ran out.
    NoMemory,
}

/// How many bytes one read may give.
pub const PIECE: u32 = 4096;

/// Reads to the end of input, at most `limit` bytes. After an `Err` the source has lost what was read:
/// `limit + 1` bytes where that was too long.
pub fn read_all<S: Source>(alloc: Global, source: &mut S, limit: u32) -> Result<Vec<u8>, ReadEnd>
    ensures all { IfOk result (λ v. Consumes (S.left source.old) (S.left source.new) v.items) }
    ensures end { OnOk result (IsAtEnd (S.left source.new)) }
    ensures within { IfOk result (λ v. vec_len v ≤ limit) }

    ensures read_fault { IsErrOf result ReadEnd.ReadFault
        → Rose (S.faults source.old) (S.faults source.new) }
    ensures too_long { IsErrOf result ReadEnd.TooLong
        → Lost (S.left source.old) (S.left source.new) (limit + 1) }
    ensures no_memory { IsErrOf result ReadEnd.NoMemory
        → LostAtMost (S.left source.old) (S.left source.new) limit }
    ensures short { (xs : List ℕ) → S.left source.old ≡ Some xs → limit < length xs → IsErr result }
    ensures count { S.faults source.old ≤ S.faults source.new }

    // Each read that did not end it and did not fail gave at least one byte: no other read was empty.
    ensures ended { OnOk result (S.empty_reads source.new ≡ option_map next_count (S.empty_reads source.old)) }
    ensures not_empty { OnErr result (S.empty_reads source.new ≡ S.empty_reads source.old) }
    ensures steps { IfOk result (λ v.
        MadeAtMost (S.reads source.old) (S.reads source.new) (vec_len v + 1)) }
    ensures most_steps { MadeAtMost (S.reads source.old) (S.reads source.new) (limit + 1) }
{
    read_by_start(alloc, source, b"", limit, limit)
}

/// Reads to the end of input: at most `most` bytes where they begin with `start`, else at most `limit`.
/// After an `Err` the source has lost what was read: one byte more than that where it was too long.
pub fn read_by_start<S: Source>(
    alloc: Global,
    source: &mut S,
    start: &[u8],
    most: u32,
    limit: u32,
) -> Result<Vec<u8>, ReadEnd>
    requires more { limit ≤ most }

    // Whether a text begins so is known before a read may give more of it than `limit`.
    requires known { limit < most → length start.now + PIECE ≤ limit }

    ensures all { IfOk result (λ v. Consumes (S.left source.old) (S.left source.new) v.items) }
    ensures end { OnOk result (IsAtEnd (S.left source.new)) }
    ensures within { IfOk result (λ v. vec_len v ≤ limit_by start.now most limit v.items) }

    ensures read_fault { IsErrOf result ReadEnd.ReadFault
        → Rose (S.faults source.old) (S.faults source.new) }
    ensures too_long { IsErrOf result ReadEnd.TooLong
        → LostTooMany (limit_by start.now most limit) (S.left source.old) (S.left source.new) }
    ensures no_memory { IsErrOf result ReadEnd.NoMemory
        → LostWithin (limit_by start.now most limit) (S.left source.old) (S.left source.new) }
    ensures was_long { (xs : List ℕ) → S.left source.old ≡ Some xs → IsErrOf result ReadEnd.TooLong
        → limit_by start.now most limit xs < length xs }
    ensures short { (xs : List ℕ) → S.left source.old ≡ Some xs
        → limit_by start.now most limit xs < length xs → IsErr result }
    ensures count { S.faults source.old ≤ S.faults source.new }

    // Each read that did not end it and did not fail gave at least one byte: no other read was empty.
    ensures ended { OnOk result (S.empty_reads source.new ≡ option_map next_count (S.empty_reads source.old)) }
    ensures not_empty { OnErr result (S.empty_reads source.new ≡ S.empty_reads source.old) }
    ensures steps { IfOk result (λ v.
        MadeAtMost (S.reads source.old) (S.reads source.new) (vec_len v + 1)) }
    ensures most_steps { MadeAtMost (S.reads source.old) (S.reads source.new) (most + 1) }
{
    let mut all = Vec::new(alloc);
    let mut buffer = [0; PIECE as usize];
    loop {
        let free = limit_by(&all, start, most, limit) as usize - all.len();
        let room = (free + 1).min(buffer.len());
        let Ok(n) = source.read(&mut buffer[..room]) else {
            return Err(ReadEnd::ReadFault);
        };
        if n == 0 {
            return Ok(all);
        }
        if n > free {
            return Err(ReadEnd::TooLong);
        }
        if all.extend_from_slice(&buffer[..n]).is_err() {
            return Err(ReadEnd::NoMemory);
        }
    }
}

/// The most bytes that a text may have which begins with those.
fn limit_by(bytes: &[u8], start: &[u8], most: u32, limit: u32) -> u32
    ensures { result ≡ limit_by start.now most limit bytes.now }
{
    if bytes.starts_with(start) {
        most
    } else {
        limit
    }
}
