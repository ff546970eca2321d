//! A line that is refused, as text.

ghost use Rattle.std.specs.Prelude.{◌≡◌, ◌++◌, ◌-◌, [], flat_map, OnOk};
ghost use Rattle.std.specs.List.{slice_index_or};
ghost use Rattle.basics.specs.Words.{contents};
ghost use Rattle.explain_text.specs.Unread.{unread_text, blank_word, below_word, word_text, mark_text, refused_text, ended_text, passed_text, limit_text};

use crate::bounds::MAX_SHOWN;
use crate::lines::{put_by_number, put_line};
use crate::split::{front, piece};
use crate::text::Text;
use crate::text_lines::Lines;
use graph_model::graph::Graph;
use graph_terms::why::Why;
use graph_words::words::word;
use index_spaces::NoMemory;
use refused_words::Quantity;

/// Puts the line that `realm check` writes of a line that is refused, and then the line itself.
pub fn put_unread(text: &mut Text, lines: &[&[u8]], number: u32, why: Why) -> Result<(), NoMemory>
    ensures { OnOk result (text.new ≡ text.old ++ unread_text (contents lines.now) number why) }
{
    text.put(b"refused line ")?;
    text.put_number(u64::from(number))?;
    text.put(b" ")?;
    text.put(why.word().as_bytes())?;
    text.put(b"\nline ")?;
    text.put_number(u64::from(number))?;
    text.put(b": ")?;
    text.put_shown(line_at(lines, number))?;
    text.put(b"\n")
}

/// Puts which word of a line that was put with its number is refused, or that the text ends there.
pub fn put_refused(
    text: &mut Text,
    why: Why,
    number: u32,
    line: &[u8],
    words: &[&[u8]],
    mark: Option<usize>,
) -> Result<(), NoMemory>
    ensures { OnOk result (text.new ≡ text.old ++ refused_text why number line.now (contents words.now) mark) }
{
    match why {
        Why::Missing => {
            text.put(b"the text ends here: a line `end`, with its newline, is missing\n")
        }
        _ => put_mark(text, number, line, words, mark),
    }
}

/// Puts which word of a line that was put with its number is refused, by the number of the word from 0;
/// or that the whole line is.
pub fn put_mark(
    text: &mut Text,
    number: u32,
    line: &[u8],
    words: &[&[u8]],
    mark: Option<usize>,
) -> Result<(), NoMemory>
    ensures { OnOk result (text.new ≡ text.old ++ mark_text number line.now (contents words.now) mark) }
{
    let Some(k) = mark else {
        return text.put(b"the whole line is refused\n");
    };
    if line.len() <= MAX_SHOWN {
        put_below(text, number, words, k)
    } else {
        put_word(text, words, k)
    }
}

/// Puts `^` below each byte of a word, as it is written, of a line that was put with its number.
fn put_below(text: &mut Text, number: u32, words: &[&[u8]], k: usize) -> Result<(), NoMemory>
    ensures { OnOk result (text.new ≡ text.old ++ below_word number (contents words.now) k) }
{
    text.put(b"     ")?;
    text.put_number_blank(u64::from(number))?;
    text.put(b"  ")?;
    put_blanks(text, front(words, k))?;
    text.put_below(word(words, k), b'^')?;
    text.put(b"\n")
}

/// Puts the number of a word in its line, from 1, and the word.
fn put_word(text: &mut Text, words: &[&[u8]], k: usize) -> Result<(), NoMemory>
    ensures { OnOk result (text.new ≡ text.old ++ word_text (contents words.now) k) }
{
    let before = front(words, k).len() as u64;
    text.put(b"word ")?;
    text.put_number(before + 1)?;
    text.put(b" of it is refused: ")?;
    text.put_shown(word(words, k))?;
    text.put(b"\n")
}

/// Puts spaces as wide as words with a space behind each.
fn put_blanks(text: &mut Text, words: &[&[u8]]) -> Result<(), NoMemory>
    ensures { OnOk result (text.new ≡ text.old ++ flat_map blank_word (contents words.now)) }
{
    for word in words {
        text.put_below(word, b' ')?;
        text.put(b" ")?;
    }
    Ok(())
}

/// Puts the line that has ended or released already what a word names, where there is one.
pub fn put_ended(
    text: &mut Text,
    graph: &Graph,
    lines: &Lines,
    ended: Option<u32>,
) -> Result<(), NoMemory>
    ensures { OnOk result (text.new ≡ text.old ++ ended_text graph.now lines.now ended) }
{
    let Some(line) = ended else {
        return Ok(());
    };
    put_by_number(text, graph, lines, line)?;
    text.put(b" has ended or released it already")?;
    put_line(text, graph, lines, line)
}

/// Puts the quantity that a line brings above its bound, where there is one.
pub fn put_limit(text: &mut Text, passed: Option<Quantity>) -> Result<(), NoMemory>
    ensures { OnOk result (text.new ≡ text.old ++ limit_text passed) }
{
    match passed {
        Some(quantity) => put_passed(text, quantity),
        None => Ok(()),
    }
}

/// Puts a quantity with its value and its bound.
fn put_passed(text: &mut Text, quantity: Quantity) -> Result<(), NoMemory>
    ensures { OnOk result (text.new ≡ text.old ++ passed_text quantity) }
{
    text.put(quantity.name)?;
    text.put(b": ")?;
    text.put_number(quantity.value)?;
    text.put(b", and at most ")?;
    text.put_number(quantity.bound)?;
    text.put(b"\n")
}

/// A line by its number, counted from 1.
pub fn line_at<'a>(lines: &[&'a [u8]], number: u32) -> &'a [u8]
    ensures { result.now ≡ slice_index_or (contents lines.now) (number - 1) [] }
{
    piece(lines, number.saturating_sub(1) as usize)
}
