//! The bits of words.

ghost use Rattle.std.specs.Prelude.{◌≡◌, ℕ, ◌<◌, ◌≤◌, true, false, MatchOption};
ghost use Rattle.sweep_base.specs.Bits.{bit_in};

/// Whether a word has this bit.
pub fn has_bit(word: u64, bit: u32) -> bool
    requires { bit < 64 }
    ensures { result ≡ bit_in word bit }
{
    (word >> bit) & 1 == 1
}

/// The lowest bit of a word, where it has one below a limit.
pub fn lowest(word: u64, limit: u32) -> Option<u32>
    requires { limit ≤ 64 }
    ensures { MatchOption result ((b : ℕ) → b < limit → bit_in word b ≡ false)
        (λ b. (b < limit) × (bit_in word b ≡ true) × ((k : ℕ) → k < b → bit_in word k ≡ false)) }
{
    if word == 0 {
        return None;
    }
    for bit in 0..limit {
        if has_bit(word, bit) {
            return Some(bit);
        }
    }
    None
}
