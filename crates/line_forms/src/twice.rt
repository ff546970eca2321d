//! A column that stands in a line twice.

ghost use Rattle.std.specs.Prelude.{◌≡◌, ◌++◌, ◌&&◌, option_map, bytes_eq, OnOk};
ghost use Rattle.std.specs.List.{list_any};
ghost use Rattle.basics.specs.Words.{contents};
ghost use Rattle.line_forms.specs.Columns.{has_dot, stands_again, repeated_column, is_call, is_task, same_columns, column_text, column_twice_text, repeated_text};

use crate::putting::put_all;
use graph_words::words::word;
use index_spaces::NoMemory;

/// Puts that a column stands in a line twice, where one does and may not: in a call it may.
pub(crate) fn put_repeated(out: &mut Vec<u8>, words: &[&[u8]]) -> Result<(), NoMemory>
    ensures { OnOk result (out.new.items ≡ out.old.items ++ repeated_text (contents words.now)) }
{
    if is_call(words) {
        Ok(())
    } else {
        put_twice(out, words)
    }
}

/// Whether the words are those of a call.
fn is_call(words: &[&[u8]]) -> bool
    ensures { result ≡ is_call (contents words.now) }
{
    word(words, 2) == b"call".as_slice()
}

/// Whether the words are those of a line with a kernel.
pub(crate) fn is_task(words: &[&[u8]]) -> bool
    ensures { result ≡ is_task (contents words.now) }
{
    word(words, 2) == b"task".as_slice()
}

/// The letters of the columns X, Y and Z of a kernel, in their order, of the two that are the same.
fn same_columns<'a>(words: &[&'a [u8]]) -> &'a [u8]
    ensures { result.now ≡ same_columns (contents words.now) }
{
    let first = word(words, 4);
    if first == word(words, 5) {
        return b"X and Y";
    }
    if first == word(words, 6) {
        b"X and Z"
    } else {
        b"Y and Z"
    }
}

/// Puts that a column stands in a line twice, where one does.
fn put_twice(out: &mut Vec<u8>, words: &[&[u8]]) -> Result<(), NoMemory>
    ensures { OnOk result (out.new.items ≡ out.old.items ++ column_twice_text (contents words.now)) }
{
    match repeated_column(words) {
        Some(column) => put_column(out, words, column),
        None => Ok(()),
    }
}

/// Puts that a column stands in a line twice, by whether the line has a kernel.
fn put_column<'a>(out: &mut Vec<u8>, words: &[&'a [u8]], column: &'a [u8]) -> Result<(), NoMemory>
    ensures { OnOk result (out.new.items ≡ out.old.items ++ column_text (contents words.now) column.now) }
{
    if is_task(words) {
        return put_all(
            out,
            &[
                b"kernels do not work in place: ",
                same_columns(words),
                b" must differ, and both are ",
                column,
                b"\n",
            ],
        );
    }
    put_all(
        out,
        &[
            b"no line works in place: ",
            column,
            b" stands in it twice, and the columns of a line must differ\n",
        ],
    )
}

/// The first word with a dot in it that stands behind it again.
fn repeated_column<'a>(words: &[&'a [u8]]) -> Option<&'a [u8]>
    ensures { option_map (λ w. w.now) result ≡ repeated_column (contents words.now) }
{
    let mut rest = words;
    while let [word, others @ ..] = rest {
        if stands_again(word, others) {
            return Some(word);
        }
        rest = others;
    }
    None
}

/// Whether a word has a dot in it, and stands among others.
fn stands_again(word: &[u8], others: &[&[u8]]) -> bool
    ensures { result ≡ stands_again word.now (contents others.now) }
{
    has_dot(word) && is_among(word, others)
}

fn has_dot(word: &[u8]) -> bool
    ensures { result ≡ has_dot word.now }
{
    word.iter().any(|byte| *byte == b'.')
}

/// Whether a word stands among others.
pub(crate) fn is_among(word: &[u8], others: &[&[u8]]) -> bool
    ensures { result ≡ list_any (bytes_eq word.now) (contents others.now) }
{
    others.iter().any(|other| word == *other)
}
