//! Rows of bits that are kept.

ghost use Rattle.std.specs.Prelude.{◌≡◌, ℕ, ◌+◌, ◌-◌, ◌<◌, ◌≤◌, ◌/◌, true, length, slice_index, IfOk};
ghost use Rattle.flow_order.specs.Bits.{word_bit, AreFull};

use crate::bits::Bits;
use index_spaces::NoMemory;
use std::alloc::Global;
use std::marker::Model;

/// A row of bits that is kept, of so many words. Those at its front that have all bits, and those at
/// its end that have none, take no memory: most lines are reached by all lines up to some line.
#[derive(Drop)]
pub struct Row {
    full: usize,
    words: Vec<u64>,
    size: usize,
}

impl Model for Row {
    ghost use Rattle.std.specs.Prelude.{◌≡◌, ℕ, List, ◌+◌, ◌-◌, ◌≤◌, ◌++◌, length, replicate};

    ghost Value = { List ℕ };

    ghost view = { λ a. replicate a.full 18446744073709551615 ++ (a.words.items ++ replicate (a.size - (a.full + length a.words.items)) 0) };

    ghost invariant = { λ a. a.full + length a.words.items ≤ a.size };
}

impl Row {
    /// A copy of a row of bits.
    pub(crate) fn of(alloc: Global, bits: &Bits) -> Result<Row, NoMemory>
        ensures size { IfOk result (λ r. length r ≡ length bits.now) }
        ensures bits { IfOk result (λ r. (i : ℕ) → word_bit r i ≡ word_bit bits.now i) }
    {
        let all = bits.words();
        let used = used_words(all);
        let full = full_words(all, used, bits.full());
        let Ok(words) = Vec::from_slice(alloc, &all[full..used]) else {
            return Err(NoMemory);
        };
        Ok(Row {
            full,
            words,
            size: all.len(),
        })
    }

    /// How many words it has.
    pub(crate) fn size(&self) -> usize
        ensures { result ≡ length self.now }
    {
        self.size
    }

    /// How many words at its front have all bits, and the words behind them. No other one has a bit.
    pub(crate) fn parts(&self) -> (usize, &[u64])
        ensures within { result.0 + length result.1.now ≤ length self.now }
        ensures full { (j : ℕ) → j / 64 < result.0 → word_bit self.now j ≡ true }
        ensures words { (w : ℕ) → result.0 ≤ w → slice_index self.now w ≡ slice_index result.1.now (w - result.0) }
    {
        (self.full, self.words.as_slice())
    }
}

/// How many words there are up to the last that has a bit.
fn used_words(words: &[u64]) -> usize
    ensures within { result ≤ length words.now }
    ensures none { (w : ℕ) → result ≤ w → slice_index words.now w ≡ 0 }
{
    let mut used = words.len();
    while used > 0 {
        if words[used - 1] != 0 {
            break;
        }
        used -= 1;
    }
    used
}

/// How many of the first words have all bits, where so many are known to.
fn full_words(words: &[u64], used: usize, known: usize) -> usize
    requires used { used ≤ length words.now }
    requires known { AreFull words.now known }
    ensures within { result ≤ used }
    ensures all { (w : ℕ) → w < result → slice_index words.now w ≡ 18446744073709551615 }
{
    let mut full = known.min(used);
    while full < used {
        if words[full] != u64::MAX {
            break;
        }
        full += 1;
    }
    full
}
