//! Numbers that words spell.

ghost use Rattle.std.specs.Prelude.{◌≡◌, ℕ, ◌<◌, ◌≤◌, true, MatchOption, IfSome};
ghost use Rattle.std.specs.Str.{all_ascii_digits};
ghost use Rattle.std.specs.Str.Parse.{digits_value};
ghost use Rattle.basics.specs.Numbers.{is_misspelled, number_up_to};

/// Whether each byte is a digit.
fn all_digits(word: &[u8]) -> bool
    ensures { result ≡ all_ascii_digits word.now }
{
    for b in word {
        if !b.is_ascii_digit() {
            return false;
        }
    }
    true
}

/// No byte, or a zero before other digits.
fn misspelled(word: &[u8]) -> bool
    ensures { result ≡ is_misspelled word.now }
{
    word.is_empty() || (word.len() > 1 && word[0] == b'0')
}

/// The number that digits write, where it is at most `most`.
fn digits_up_to(word: &[u8], most: u64) -> Option<u64>
    requires { all_ascii_digits word.now ≡ true }
    ensures { MatchOption result (most < digits_value 10 word.now) (λ n. (n ≡ digits_value 10 word.now) × (n ≤ most)) }
{
    let mut value: u64 = 0;
    for b in word {
        let digit = u64::from(*b - b'0');
        if value > most / 10 {
            return None;
        }
        if digit > most - value * 10 {
            return None;
        }
        value = value * 10 + digit;
    }
    Some(value)
}

/// The number that a word spells in decimal digits, where it is at most `most`. None: the word is
/// empty, has another byte than a digit, has a zero before other digits, or spells a number above.
pub fn number_up_to(word: &[u8], most: u64) -> Option<u64>
    ensures number { result ≡ number_up_to most word.now }
    ensures within { IfSome result (λ n. n ≤ most) }
{
    if all_digits(word) && !misspelled(word) {
        digits_up_to(word, most)
    } else {
        None
    }
}
