//! Words in the form of a line that graphs have and flows have not.

ghost use Rattle.basics.specs.Words.{contents};
ghost use Rattle.std.specs.Prelude.{◌≡◌, ◌-◌, IfOk};
ghost use Rattle.graph_reader.specs.Reading.{is_operation};
ghost use Rattle.graph_words.specs.Words.{pieces};
ghost use Rattle.flow_top.specs.FlowText.{is_event_kind, waits, is_merge, is_event_verb, has_event_verb, is_verb_unlike_flow, is_unlike_flow, other_word};

use graph_terms::format::Format;
use graph_terms::table::Kind;
use graph_words::words::{behind, has_on, kind_of, split, word};
use index_spaces::NoMemory;
use std::alloc::Global;

/// Whether the words of a line have the form of one that no flow has: an event verb, or `on`.
pub(crate) fn is_line_unlike_flow(alloc: Global, line: &[u8]) -> Result<bool, NoMemory>
    ensures { IfOk result (λ b. b ≡ is_unlike_flow (pieces 32 line.now)) }
{
    let words = split(alloc, line, b' ')?;
    Ok(is_unlike_flow(words.as_slice()))
}

#[tactic(auto, unfolding(crate::specs::FlowText::is_unlike_flow))]
fn is_unlike_flow(words: &[&[u8]]) -> bool
    ensures { result ≡ is_unlike_flow (contents words.now) }
{
    if is_operation(words) {
        is_verb_unlike_flow(behind(words, 2))
    } else {
        false
    }
}

/// Whether the words are those of an operation line.
fn is_operation(words: &[&[u8]]) -> bool
    ensures { result ≡ is_operation (contents words.now) }
{
    words.len() >= 2 && word(words, 1) == b"=".as_slice()
}

/// Whether the words behind the sign have the form of a line that no flow has.
fn is_verb_unlike_flow(words: &[&[u8]]) -> bool
    ensures { result ≡ is_verb_unlike_flow (contents words.now) }
{
    if is_merge(words) {
        return true;
    }
    match kind_of(Format::One, words) {
        Some(kind) => is_event_kind(kind) || waits(kind, words),
        None => false,
    }
}

/// The number, from 0, of the word by which a line of these words has the form of one that no flow has: of its verb, or of `on`.
pub fn other_word(words: &[&[u8]]) -> usize
    ensures { result ≡ other_word (contents words.now) }
{
    if has_event_verb(words) {
        return 2;
    }
    words.len().saturating_sub(2)
}

/// Whether the words are those of an operation line with a verb that no flow has.
pub fn has_event_verb(words: &[&[u8]]) -> bool
    ensures { result ≡ has_event_verb (contents words.now) }
{
    if is_operation(words) {
        is_event_verb(behind(words, 2))
    } else {
        false
    }
}

/// Whether the words behind the sign have a verb that no flow has.
fn is_event_verb(words: &[&[u8]]) -> bool
    ensures { result ≡ is_event_verb (contents words.now) }
{
    if is_merge(words) {
        return true;
    }
    match kind_of(Format::One, words) {
        Some(kind) => is_event_kind(kind),
        None => false,
    }
}

fn is_merge(words: &[&[u8]]) -> bool
    ensures { result ≡ is_merge (contents words.now) }
{
    word(words, 0) == b"merge".as_slice() || word(words, 0) == b"mergei".as_slice()
}

/// Whether words of a kind have `on` behind them.
fn waits(kind: Kind, words: &[&[u8]]) -> bool
    ensures { result ≡ waits kind (contents words.now) }
{
    let fixed = kind.words().len();
    words.len() >= fixed && has_on(Format::One, kind, behind(words, fixed))
}

fn is_event_kind(kind: Kind) -> bool
    ensures { result ≡ is_event_kind kind }
{
    matches!(
        kind,
        Kind::User
            | Kind::Trigger
            | Kind::Cancel
            | Kind::Phase
            | Kind::Arrive
            | Kind::ArriveTimes
            | Kind::Acquire
            | Kind::AcquireShared
            | Kind::Release
    )
}
