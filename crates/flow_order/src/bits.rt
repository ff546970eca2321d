//! Rows of bits.

ghost use Rattle.std.specs.Prelude.{◌≡◌, ℕ, [], ◌+◌, ◌-◌, ◌<◌, ◌≤◌, ◌*◌, ◌/◌, ◌%◌, ◌==◌, ◌||◌, ◌&&◌, nat_lt, nat_le, not, true, false, length, slice_index, IfOk, IfSome, MatchOption};
ghost use Rattle.std.specs.Int.{bit_at};
ghost use Rattle.flow_order.specs.Bits.{word_bit, is_shown, AreFull, IsOnly, IsShownWord};

use crate::row::Row;
use index_spaces::NoMemory;
use index_spaces::room::with_room;
use std::alloc::Global;
use std::marker::Model;

/// A row of bits, 64 to a word: bit `j % 64` of word `j / 64` is that of number `j`. No bit is set
/// of a number below the low one, and at the front so many words are known to have all bits.
#[derive(Drop)]
pub struct Bits {
    words: Vec<u64>,
    low: u32,
    full: usize,
}

impl Model for Bits {
    ghost use Rattle.std.specs.Prelude.{ℕ, List};
    ghost use Rattle.flow_order.specs.Bits.{AreNoneBelow, AreFull};

    ghost Value = { List ℕ };

    ghost view = { λ a. a.words.items };

    ghost invariant = { λ a. record {
      none : AreNoneBelow a.words.items a.low;
      all : AreFull a.words.items a.full;
    } };
}

impl Bits {
    /// So many words without a bit.
    pub fn zeros(alloc: Global, count: usize) -> Result<Bits, NoMemory>
        ensures size { IfOk result (λ b. length b ≡ count) }
        ensures bits { IfOk result (λ b. (j : ℕ) → word_bit b j ≡ false) }
    {
        let mut words = with_room(alloc, count)?;
        if words.resize(count, 0).is_err() {
            return Err(NoMemory);
        }
        Ok(Bits {
            words,
            low: u32::MAX,
            full: 0,
        })
    }

    /// No words.
    fn none(alloc: Global) -> Bits
        ensures { result ≡ [] }
    {
        Bits {
            words: Vec::new(alloc),
            low: u32::MAX,
            full: 0,
        }
    }

    /// The word of this number, or 0.
    fn word_at(&self, w: usize) -> u64
        ensures { result ≡ slice_index self.now w }
    {
        match self.words.get(w) {
            Some(word) => *word,
            None => 0,
        }
    }

    /// Whether there is a bit of a number, and it is set.
    pub(crate) fn has(&self, j: u32) -> bool
        ensures { result ≡ word_bit self.now j }
    {
        self.word_at(j as usize / 64) >> (j % 64) & 1 == 1
    }

    /// Whether the bit of a number is set.
    pub fn test(&self, j: u32) -> bool
        requires { j / 64 < length self.now }
        ensures { result ≡ word_bit self.now j }
    {
        self.words[j as usize / 64] >> (j % 64) & 1 == 1
    }

    /// The word of a number, with the bits that are set here, are not hidden and are of no greater
    /// number.
    fn shown_word(&self, hidden: &Bits, last: u32) -> u64
        requires last { last / 64 < length self.now }
        ensures { IsShownWord self.now hidden.now last result }
    {
        let word = last as usize / 64;
        shown_bits(self.words[word], hidden.word_at(word), last % 64)
    }

    /// The greatest number below a bound whose bit is set here and not hidden.
    pub fn last_below(&self, hidden: &Bits, bound: u32) -> Option<u32>
        requires bound { bound ≤ 64 * length self.now }
        ensures { MatchOption result ((j : ℕ) → j < bound → is_shown self.now hidden.now j ≡ false) (λ k. (k < bound) × (is_shown self.now hidden.now k ≡ true) × ((j : ℕ) → k < j → j < bound → is_shown self.now hidden.now j ≡ false)) }
    {
        let mut left = bound;
        while left > self.low {
            let last = left - 1;
            left = last - last % 64;
            let word = self.shown_word(hidden, last);
            if word != 0 {
                return Some(left + word.ilog2());
            }
        }
        None
    }

    /// The number below a bound whose bit is set, where it is known that there is just one; `None` may
    /// also be the answer where there is one.
    pub(crate) fn only_below(&self, alloc: Global, bound: u32) -> Option<u32>
        requires { bound ≤ 64 * length self.now }
        ensures { IfSome result (IsOnly self.now bound) }
    {
        let line = self.last_below(&Bits::none(alloc), bound)?;
        if self.has_none_below(line) {
            Some(line)
        } else {
            None
        }
    }

    /// Sets the bit of a number.
    pub fn set(&mut self, j: u32)
        requires { j / 64 < length self.old }
        ensures size { length self.new ≡ length self.old }
        ensures bits { (k : ℕ) → word_bit self.new k ≡ (word_bit self.old k || (j == k)) }
    {
        let low = self.low.min(j);
        let full = self.full.min(j as usize / 64);
        self.words[j as usize / 64] |= 1 << (j % 64);
        self.low = low;
        self.full = full;
    }

    /// Sets the bits of a row that is kept, of no more words.
    pub(crate) fn join(&mut self, row: &Row)
        requires { length row.now ≤ length self.old }
        ensures size { length self.new ≡ length self.old }
        ensures bits { (j : ℕ) → word_bit self.new j ≡ (word_bit self.old j || word_bit row.now j) }
    {
        let (full, words) = row.parts();
        self.fill(full);
        self.join_words(full, words);
    }

    /// Sets the bits of words that stand from a place on.
    fn join_words(&mut self, place: usize, words: &[u64])
        requires { place + length words.now ≤ length self.old }
        ensures size { length self.new ≡ length self.old }
        ensures bits { (j : ℕ) → word_bit self.new j ≡ (word_bit self.old j || (nat_le place (j / 64) && (bit_at (slice_index words.now (j / 64 - place)) (j % 64) == 1))) }
    {
        // Those before have all bits.
        let first = self.full.saturating_sub(place);
        for i in first..words.len() {
            self.words[place + i] |= words[i];
        }
        self.low = 0;
    }

    /// Sets all bits of so many words at the front.
    fn fill(&mut self, full: usize)
        requires { full ≤ length self.old }
        ensures size { length self.new ≡ length self.old }
        ensures bits { (j : ℕ) → word_bit self.new j ≡ (word_bit self.old j || nat_lt (j / 64) full) }
    {
        for w in self.full..full {
            self.words[w] = u64::MAX;
        }
        let more = self.full.max(full);
        self.low = 0;
        self.full = more;
    }

    /// How many words at its front are known to have all bits.
    pub(crate) fn full(&self) -> usize
        ensures { AreFull self.now result }
    {
        self.full
    }

    /// Its words.
    pub(crate) fn words(&self) -> &[u64]
        ensures { result.now ≡ self.now }
    {
        self.words.as_slice()
    }

    /// Whether it is known that no number below this one has its bit set.
    pub(crate) fn has_none_below(&self, bound: u32) -> bool
        ensures { result ≡ true → (j : ℕ) → j < bound → word_bit self.now j ≡ false }
    {
        bound <= self.low
    }
}

/// The bits of a word that are not those of another, up to a place.
fn shown_bits(word: u64, hidden: u64, place: u32) -> u64
    requires { place < 64 }
    ensures { (i : ℕ) → i < 64 → (bit_at result i == 1) ≡ (nat_le i place && ((bit_at word i == 1) && not (bit_at hidden i == 1))) }
{
    word & !hidden & (u64::MAX >> (63 - place))
}
