//! The words of a call.

ghost use Rattle.basics.specs.Words.{contents};
ghost use Rattle.std.specs.Prelude.{◌≡◌};
ghost use Rattle.graph_words.specs.Calls.{begins_with_digit, value_words, behind_values, mode_of, behind_accesses, events_behind, call_words, in_parts};
ghost use Rattle.graph_words.specs.Cuts.{Gives};

use graph_terms::limits::MAX_CALL_VALUES;
use graph_terms::verb::Mode;

/// The words of a call behind the fixed one, in their parts.
#[derive(Clone, Copy)]
pub struct CallWords<'a, 'b> {
    /// The word by which the host knows the body.
    pub word: &'a [u8],
    /// The values that the body is given.
    pub values: &'b [&'a [u8]],
    /// The accesses, each of three words, and behind them what follows.
    pub accesses: &'b [&'a [u8]],
    /// The events behind `on`.
    pub events: &'b [&'a [u8]],
}

/// How a call uses a column, by the word that says it.
pub fn mode_of(word: &[u8]) -> Option<Mode>
    ensures { result ≡ mode_of word.now }
{
    if word == b"read".as_slice() {
        Some(Mode::Read)
    } else if word == b"write".as_slice() {
        Some(Mode::Write)
    } else if word == b"sum".as_slice() {
        Some(Mode::Sum)
    } else if word == b"min".as_slice() {
        Some(Mode::Least)
    } else if word == b"max".as_slice() {
        Some(Mode::Most)
    } else {
        None
    }
}

/// Whether a word begins with a digit.
pub fn begins_with_digit(word: &[u8]) -> bool
    ensures { result ≡ begins_with_digit word.now }
{
    match word {
        [] => false,
        [first, ..] => 48 <= *first && *first <= 57,
    }
}

/// The words behind the values that these begin with.
fn behind_values<'a, 'b>(words: &'b [&'a [u8]]) -> &'b [&'a [u8]]
    ensures { contents result.now ≡ behind_values (contents words.now) }
{
    let mut rest = words;
    while let [first, others @ ..] = rest {
        if !begins_with_digit(first) {
            return rest;
        }
        rest = others;
    }
    rest
}

/// The values that words begin with, and the words behind these.
fn cut_values<'a, 'b>(words: &'b [&'a [u8]]) -> (&'b [&'a [u8]], &'b [&'a [u8]])
    ensures values { contents result.0.now ≡ value_words (contents words.now) }
    ensures rest { contents result.1.now ≡ behind_values (contents words.now) }
{
    let rest = behind_values(words);
    (&words[..words.len() - rest.len()], rest)
}

/// The words behind the accesses that these begin with.
fn behind_accesses<'a, 'b>(words: &'b [&'a [u8]]) -> &'b [&'a [u8]]
    ensures { contents result.now ≡ behind_accesses (contents words.now) }
{
    let mut rest = words;
    while let [mode, _, _, others @ ..] = rest {
        if mode_of(mode).is_none() {
            return rest;
        }
        rest = others;
    }
    rest
}

/// The events that words name behind `on`, none where there is no word.
fn events_behind<'a, 'b>(words: &'b [&'a [u8]]) -> Option<&'b [&'a [u8]]>
    ensures { Gives (λ es. contents es.now) result (events_behind (contents words.now)) }
{
    match words {
        [] => Some(words),
        [_] => None,
        [on, events @ ..] => {
            if *on == b"on".as_slice() {
                Some(events)
            } else {
                None
            }
        }
    }
}

/// The words of a call behind the fixed one in their parts. `None` exactly where they are those of no
/// call.
pub fn call_words<'a, 'b>(words: &'b [&'a [u8]]) -> Option<CallWords<'a, 'b>>
    ensures { Gives in_parts result (call_words (contents words.now)) }
{
    let [word, others @ ..] = words else {
        return None;
    };
    let (values, accesses) = cut_values(others);
    if values.len() > MAX_CALL_VALUES as usize {
        return None;
    }
    let events = events_behind(behind_accesses(accesses))?;
    Some(CallWords {
        word,
        values,
        accesses,
        events,
    })
}
