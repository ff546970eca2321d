//! Words of a line.

ghost use Rattle.basics.specs.Words.{contents};
ghost use Rattle.std.specs.Prelude.{◌≡◌, OnOk};
ghost use Rattle.std.specs.List.{list_any};
ghost use Rattle.graph_words.specs.Words.{pieces};
ghost use Rattle.word_meanings.specs.Words.{is_empty};
ghost use Rattle.session_text.specs.FirstFault.{word_at, is_graph_line, is_link_line};

use crate::cuts::cut;
use index_spaces::NoMemory;
use index_spaces::room::push;

/// Puts the words of a line into a list, in place of what it held.
pub(crate) fn split_into<'a>(words: &mut Vec<&'a [u8]>, line: &'a [u8]) -> Result<(), NoMemory>
    ensures { OnOk result (contents words.new.items ≡ pieces 32 line.now) }
{
    words.clear();
    let mut rest = line;
    while let Some((word, after)) = cut(rest, b' ') {
        push(words, word)?;
        rest = after;
    }
    push(words, rest)
}

/// The word at a place, or no byte where there is none.
pub(crate) fn word<'a>(words: &[&'a [u8]], i: usize) -> &'a [u8]
    ensures { result.now ≡ word_at (contents words.now) i }
{
    match words.get(i) {
        Some(word) => word,
        None => b"",
    }
}

pub(crate) fn any_empty(words: &[&[u8]]) -> bool
    ensures { result ≡ list_any is_empty (contents words.now) }
{
    words.iter().any(|word| word.is_empty())
}

/// Whether the words are the line before a graph's text.
pub(crate) fn is_graph_line(words: &[&[u8]]) -> bool
    ensures { result ≡ is_graph_line (contents words.now) }
{
    words.len() == 2 && word(words, 0) == b"graph".as_slice()
}

/// Whether the words are the line of a link.
pub(crate) fn is_link_line(words: &[&[u8]]) -> bool
    ensures { result ≡ is_link_line (contents words.now) }
{
    words.len() == 5 && word(words, 0) == b"link".as_slice()
}
