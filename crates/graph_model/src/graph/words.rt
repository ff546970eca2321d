//! How long the words of a graph's text are, each with the byte behind it.

ghost use Rattle.std.specs.Prelude.{◌≡◌, ◌+◌, ◌<◌, ◌≤◌, length, map, decimal};
ghost use Rattle.graph_terms.specs.Spelling.{comma_word, interval_word};

use graph_terms::lists::NameList;
use graph_terms::name::Name;
use index_spaces::space::Space;

/// A word of this text.
pub(crate) fn word_size(text: &[u8]) -> u64
    requires { length text.now ≤ 8 }
    ensures { result ≡ length text.now + 1 }
{
    text.len() as u64 + 1
}

/// A name.
pub(crate) fn name_size(name: &Name) -> u64
    ensures size { result ≡ length name.now + 1 }
    ensures few { result ≤ 64 }
{
    name.bytes().len() as u64 + 1
}

/// A number. Most have four digits or fewer, which take no division.
pub(crate) fn number_size(value: u64) -> u64
    ensures size { result ≡ length (decimal value) + 1 }
    ensures few { result ≤ 21 }
{
    let mut rest = value;
    let mut size = 2;
    while rest >= 10_000 {
        rest = rest / 10 / 10 / 10 / 10;
        size += 4;
    }
    size + more_digits(rest)
}

/// How many digits a number of at most four has behind its first.
#[tactic(auto, using(crate::proofs::Digits::one_digit, crate::proofs::Digits::two_digits, crate::proofs::Digits::three_digits, crate::proofs::Digits::four_digits))]
fn more_digits(value: u64) -> u64
    requires { value < 10000 }
    ensures digits { result + 1 ≡ length (decimal value) }
    ensures few { result ≤ 3 }
{
    if value < 10 {
        0
    } else if value < 100 {
        1
    } else if value < 1_000 {
        2
    } else {
        3
    }
}

/// Names with a comma between each two.
pub(crate) fn fields_size(fields: &NameList) -> u64
    ensures size { result ≡ length (comma_word fields.now) + 1 }
    ensures few { result ≤ 274877906944 }
{
    let names = fields.items.as_slice();
    let mut size = 0;
    for name in names {
        size += name_size(name);
    }
    size.max(1)
}

/// The intervals of a space with a comma between each two.
pub(crate) fn intervals_size(space: &Space) -> u64
    ensures size { result ≡ length (comma_word (map interval_word space.now)) + 1 }
    ensures few { result ≤ 188978561024 }
{
    let mut size = 0;
    for interval in space.intervals() {
        size += number_size(u64::from(interval.0)) + number_size(u64::from(interval.1)) + 1;
    }
    size.max(1)
}
