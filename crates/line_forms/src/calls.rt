//! How far a line goes with the form of a call.

ghost use Rattle.std.specs.Prelude.{◌≡◌, ◌≤◌, length};
ghost use Rattle.basics.specs.Words.{contents};
ghost use Rattle.line_forms.specs.Calls.{begins_access, expected_next, follow_call, expected_behind};

use graph_terms::limits::MAX_CALL_VALUES;
use graph_words::calls::{begins_with_digit, mode_of};

/// What may stand behind some words of a call.
#[derive(Clone, Copy)]
pub enum Expected {
    /// A value, behind so many, or what may stand behind the values.
    Value(u32),
    /// The word that begins an access, or `on`.
    Access,
    /// The column of an access.
    Column,
    /// The space of an access.
    Space,
    /// An event.
    Event,
}

/// What may stand behind a word that begins an access, or behind `on`. `None` for another word.
fn begins_access(word: &[u8]) -> Option<Expected>
    ensures { result ≡ begins_access word.now }
{
    if mode_of(word).is_some() {
        return Some(Expected::Column);
    }
    if word == b"on".as_slice() {
        return Some(Expected::Event);
    }
    None
}

/// What may stand behind a word that stands behind others. `None` where it may not stand there.
fn expected_next(before: Expected, word: &[u8]) -> Option<Expected>
    ensures { result ≡ expected_next before word.now }
{
    match before {
        Expected::Value(count) => {
            if !begins_with_digit(word) {
                return begins_access(word);
            }
            if count < MAX_CALL_VALUES {
                return Some(Expected::Value(count + 1));
            }
            None
        }
        Expected::Access => begins_access(word),
        Expected::Column => Some(Expected::Space),
        Expected::Space => Some(Expected::Access),
        Expected::Event => Some(Expected::Event),
    }
}

/// How many words stand as they may behind the word of a call.
pub(crate) fn follow_call(words: &[&[u8]]) -> usize
    ensures count { result ≡ follow_call (Expected.Value 0) (contents words.now) }
    ensures few { result ≤ length words.now }
{
    let mut before = Expected::Value(0);
    let mut rest = words;
    let mut count: usize = 0;
    while let [first, others @ ..] = rest {
        let Some(next) = expected_next(before, first) else {
            return count;
        };
        before = next;
        rest = others;
        count += 1;
    }
    count
}

/// What may stand behind these words behind the word of a call. `None` where they may not stand there.
pub fn expected_behind(words: &[&[u8]]) -> Option<Expected>
    ensures { result ≡ expected_behind (Expected.Value 0) (contents words.now) }
{
    let mut before = Expected::Value(0);
    let mut rest = words;
    while let [first, others @ ..] = rest {
        let Some(next) = expected_next(before, first) else {
            return None;
        };
        before = next;
        rest = others;
    }
    Some(before)
}
