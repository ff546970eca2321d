//! Which lines behind the first ones are told of.

ghost use Rattle.std.specs.Prelude.{◌≡◌, true, Contains, IfSome};
ghost use Rattle.graph_words.specs.Words.{pieces};
ghost use Rattle.explain_text.specs.Front.{behind};
ghost use Rattle.told_names.specs.declared.naming.NamedWord.{NamedWord};
ghost use Rattle.explain_top.specs.Missing.{AreSettled, AreSettledBy, IsEndSettled, IsSettled, IsTold};

use explain_text::Lines;
use explain_text::bounds::MAX_NAMES;
use explain_text::lines::is_above_last;
use graph_model::graph::Graph;
use told_names::{NamedWord, place_in};

/// How many lines behind the first ones are told of: none where each name that no line of these gives
/// is given by none of the rest, and the line that has ended an event is one of the first. More than there
/// are stand for all.
pub(crate) fn missing_lines(
    graph: &Graph,
    lines: &Lines,
    rest: Option<&[u8]>,
    named: &[NamedWord],
    space: &Option<NamedWord>,
    ended: Option<u32>,
) -> usize
    ensures { IsTold rest.entry result → AreSettled graph.now lines.now (behind rest.entry) named.now space.now ended }
{
    match rest {
        None => 0,
        Some(bytes) => missing_in(graph, lines, bytes, named, space, ended),
    }
}

/// The same of the lines of these bytes.
fn missing_in(
    graph: &Graph,
    lines: &Lines,
    bytes: &[u8],
    named: &[NamedWord],
    space: &Option<NamedWord>,
    ended: Option<u32>,
) -> usize
    ensures { result ≡ 0 → AreSettledBy graph.now lines.now (pieces 10 bytes.now) named.now space.now ended }
{
    if named.len() > MAX_NAMES {
        return usize::MAX;
    }
    if !is_end_settled(graph, lines, ended) {
        return usize::MAX;
    }
    most(missing_names(bytes, named), missing_space(bytes, space))
}

/// Whether the line that has ended an event is told by these lines as by more.
fn is_end_settled(graph: &Graph, lines: &Lines, ended: Option<u32>) -> bool
    ensures { result ≡ true → IsEndSettled graph.now lines.now ended }
{
    match ended {
        Some(line) => is_above_last(graph, lines, line),
        None => true,
    }
}

/// The greater of two numbers.
fn most(one: usize, other: usize) -> usize
    ensures one { result ≡ 0 → one ≡ 0 }
    ensures other { result ≡ 0 → other ≡ 0 }
{
    if one > other { one } else { other }
}

/// How many lines of these bytes some names ask for.
fn missing_names(bytes: &[u8], named: &[NamedWord]) -> usize
    ensures { result ≡ 0 → (x : NamedWord) → Contains named.now x → IsSettled (pieces 10 bytes.now) x }
{
    let mut missing = 0;
    for word in named {
        missing = most(missing, missing_name(bytes, word));
    }
    missing
}

/// How many the space of a column asks for.
fn missing_space(bytes: &[u8], space: &Option<NamedWord>) -> usize
    ensures { result ≡ 0 → IfSome space.now (IsSettled (pieces 10 bytes.now)) }
{
    match space {
        Some(word) => missing_name(bytes, word),
        None => 0,
    }
}

/// How many a name asks for: up to the line that gives it, where none of the first does.
fn missing_name(bytes: &[u8], word: &NamedWord) -> usize
    ensures { result ≡ 0 → IsSettled (pieces 10 bytes.now) word.now }
{
    if word.above.is_some() || word.below.is_some() {
        return 0;
    }
    match place_in(word.word, bytes) {
        Some(place) => place.saturating_add(1),
        None => 0,
    }
}
