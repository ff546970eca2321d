//! What was last looked up: most lines name what those above them name, or what stands behind that.

ghost use Rattle.std.specs.Prelude.{◌≡◌, ◌<◌, ℕ, List, Some, false, length, position, IsTrue, IfSome};
ghost use Rattle.std.specs.Str.{bytes_eq};
ghost use Rattle.graph_terms.specs.declared.verb.Line.{Line};
ghost use Rattle.graph_terms.specs.Graph.{GraphValue, named_spaces};
ghost use Rattle.graph_words.specs.Words.{pieces};
ghost use Rattle.word_meanings.specs.Lookups.{column_place};
ghost use Rattle.word_meanings.specs.Recent.{IsNamedColumn, IsRecent};

use crate::lookup::{column, line, space};
use graph_model::graph::Graph;

/// A word, and the column of an instance that it names.
#[derive(Clone, Copy)]
pub struct NamedColumn<'a> {
    pub word: &'a [u8],
    pub column: Option<u32>,
}

/// The words that were last looked up in the places of columns: most columns stand in many lines, one after the other.
/// And the numbers of the space and of the line that were last found; nothing is claimed of these.
#[derive(Clone, Copy)]
pub struct Recent<'a> {
    pub last: NamedColumn<'a>,
    pub before: NamedColumn<'a>,
    pub space: u32,
    pub line: u32,
}

/// No word: the empty one names no column of any graph.
fn no_column() -> NamedColumn<'static>
    ensures { (g : GraphValue) → IsNamedColumn g result }
{
    NamedColumn {
        word: b"",
        column: None,
    }
}

/// Nothing was looked up.
pub fn no_recent() -> Recent<'static>
    ensures { (g : GraphValue) → IsRecent g result }
{
    Recent {
        last: no_column(),
        before: no_column(),
        space: 0,
        line: 0,
    }
}

/// Forgets the words of columns.
pub fn forget_columns<'a>(recent: &mut Recent<'a>)
    ensures { (g : GraphValue) → IsRecent g recent.new }
{
    recent.last = no_column();
    recent.before = no_column();
}

/// Whether two words are one. Their bytes are compared from the last one on, since many columns begin alike.
fn is_again(word: &[u8], other: &[u8]) -> bool
    ensures { result ≡ bytes_eq word.now other.now }
{
    if word.len() != other.len() {
        return false;
    }
    for i in 0..word.len() {
        let place = word.len() - 1 - i;
        if word[place] != other[place] {
            return false;
        }
    }
    true
}

/// Whether the space of a number has this word as its name.
fn is_space_named(graph: &Graph, space: u32, word: &[u8]) -> bool
    ensures { IsTrue result → position (λ (x : List ℕ × List (ℕ × ℕ)). bytes_eq x.0 word.now) (named_spaces graph.now) ≡ Some space }
{
    let _ = graph.decls();
    if space >= graph.spaces() {
        return false;
    }
    is_again(graph.space_name(space).bytes(), word)
}

/// The number of the space that a word stands for, which is looked up where the word names neither the last one nor the
/// one behind it.
pub(crate) fn recent_space(graph: &Graph, last: &mut u32, word: &[u8]) -> Option<u32>
    ensures { result ≡ position (λ (x : List ℕ × List (ℕ × ℕ)). bytes_eq x.0 word.now) (named_spaces graph.now) }
{
    if is_space_named(graph, *last, word) {
        return Some(*last);
    }
    let next = last.saturating_add(1);
    if is_space_named(graph, next, word) {
        *last = next;
        return Some(next);
    }
    let found = space(graph, word);
    if let Some(space) = found {
        *last = space;
    }
    found
}

/// Whether the line of a number has this word as its name.
fn is_line_named(graph: &Graph, line: u32, word: &[u8]) -> bool
    ensures { IsTrue result → position (λ (x : Line). bytes_eq x.name word.now) graph.now.lines ≡ Some line }
{
    let _ = graph.decls();
    if line >= graph.lines() {
        return false;
    }
    is_again(graph.line(line).name.bytes(), word)
}

/// The number of the line that a word stands for, which is looked up where the word names neither the last one nor the
/// one behind it.
pub fn recent_line(graph: &Graph, last: &mut u32, word: &[u8]) -> Option<u32>
    ensures line { result ≡ position (λ (x : Line). bytes_eq x.name word.now) graph.now.lines }
    ensures below { IfSome result (λ i. i < length graph.now.lines) }
{
    if is_line_named(graph, *last, word) {
        return Some(*last);
    }
    let next = last.saturating_add(1);
    if is_line_named(graph, next, word) {
        *last = next;
        return Some(next);
    }
    let found = line(graph, word);
    if let Some(line) = found {
        *last = line;
    }
    found
}

/// The number of the column of an instance that a word stands for, which is looked up where the word is none of the last ones.
pub(crate) fn recent_column<'a>(
    graph: &Graph,
    recent: &mut Recent<'a>,
    word: &'a [u8],
) -> Option<u32>
    requires { IsRecent graph.now recent.old }
    ensures column { result ≡ column_place graph.now false (pieces 46 word.now) }
    ensures recent { IsRecent graph.now recent.new }
{
    if is_again(word, recent.last.word) {
        return recent.last.column;
    }
    if is_again(word, recent.before.word) {
        return recent.before.column;
    }
    let found = column(graph, false, word);
    recent.before = recent.last;
    recent.last = NamedColumn {
        word,
        column: found,
    };
    found
}
