//! Numbers that words spell.

ghost use Rattle.std.specs.Prelude.{◌≡◌};
ghost use Rattle.basics.specs.Numbers.{number_up_to};
ghost use Rattle.graph_words.specs.Words.{value_of, count_of, weight_of};

use basics::number_up_to;
use graph_terms::format::Format;
use graph_terms::limits::Limits;
use index_spaces::limits::LAST_POINT;

/// The value that a word spells.
pub fn value(word: &[u8]) -> Option<u64>
    ensures { result ≡ value_of word.now }
{
    number_up_to(word, u64::MAX)
}

/// The number of arrivals that a word spells, from 1 to 8,192, and to 65,536 in format 3.
pub fn count(format: Format, word: &[u8]) -> Option<u32>
    ensures { result ≡ count_of format word.now }
{
    match number_up_to(word, u64::from(Limits::of(format).count)) {
        Some(0) => None,
        Some(n) => Some(n as u32),
        None => None,
    }
}

/// The number of arrivals that one counts for, as a word spells it where it is more than one, from 2 to 8,192, and to
/// 65,536 in format 3.
pub fn weight(format: Format, word: &[u8]) -> Option<u32>
    ensures { result ≡ weight_of format word.now }
{
    match number_up_to(word, u64::from(Limits::of(format).count)) {
        Some(n) if n > 1 => Some(n as u32),
        _ => None,
    }
}

/// The point that a word spells.
pub(crate) fn point(word: &[u8]) -> Option<u32>
    ensures { result ≡ number_up_to LAST_POINT word.now }
{
    let n = number_up_to(word, 4294967295)?;
    Some(n as u32)
}
