//! Numbers that words spell.

ghost use Rattle.std.specs.Prelude.{◌≡◌, ℕ, ◌≤◌, IfSome};
ghost use Rattle.command_line.specs.Number.{number_of, number_between};

use basics::number_up_to;

/// The number below 2^64 that a word spells.
pub(crate) fn number(word: &str) -> Option<u64>
    ensures { result ≡ number_of word.now }
{
    number_up_to(word.as_bytes(), u64::MAX)
}

/// The number from `least` to `most` that a word spells.
pub(crate) fn number_between(word: &str, least: u32, most: u32) -> Option<u32>
    ensures value { result ≡ number_between least most word.now }
    ensures within { IfSome result (λ n. (least ≤ n) × (n ≤ most)) }
{
    let number = number(word)?;
    if number < u64::from(least) || number > u64::from(most) {
        return None;
    }
    Some(number as u32)
}
