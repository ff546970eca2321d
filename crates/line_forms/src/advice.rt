//! What is told of a line that is refused for its form.

ghost use Rattle.std.specs.Prelude.{◌≡◌, ◌≤◌, not, ◌&&◌, ◌++◌, length, IfOk, OnOk};
ghost use Rattle.basics.specs.Words.{contents};
ghost use Rattle.line_forms.specs.Forms.{form_words, takes_on, takes_several};
ghost use Rattle.line_forms.specs.Advice.{word_front, word_end, leave_text, several_text, told_at, told_text, told_texts, is_operation, begins_declaration, is_declared, vocabulary_of, key_place, where_text, is_verb, is_kernel, moved_text, has_sign, joined_text, left_at, unknown_text, forms_text, words_text, syntax_text, header_text, reason_text, advice};

use crate::blanks::{Blank, blank_in, blank_text, ends_with_return, has_byte};
use crate::files::{first_text, rest_text};
use crate::follow::{followed, has_word, is_told};
use crate::form::{FORMS, Form};
use crate::hint::{are_events, put_merge_hint};
use crate::left::left_text;
use crate::nearest::{nearest, put_nearest};
use crate::putting::{put, put_all};
use crate::twice::{is_among, is_task, put_repeated};
use crate::vocabulary::{Vocabulary, vocabulary_text, vocabulary_words};
use graph_terms::format::Format;
use graph_terms::why::Why;
use graph_words::words::word;
use index_spaces::NoMemory;
use itoa::Buffer;
use std::alloc::Global;

/// Bytes of a word that is told: of a longer one the front is, and `..`.
const MAX_WORD: usize = 200;

/// What is told of a line of these words that is refused for this reason, in a text of this format, below an
/// operation or not: that it ends with a carriage return; for `header` and `syntax` what no line has in it; for
/// `header` and `rest` what begins so; for `syntax` the forms of its verb or kernel, each with the word
/// at which the line leaves it, or the words next to one that is none; for `twice` a column that stands
/// in it twice.
pub fn line_advice(
    alloc: Global,
    format: Format,
    below: bool,
    why: Why,
    line: &[u8],
    words: &[&[u8]],
) -> Result<Vec<u8>, NoMemory>
    ensures { IfOk result (λ v. v.items ≡ advice format below why line.now (contents words.now)) }
{
    let mut out = Vec::new(alloc);
    if ends_with_return(line) {
        put(&mut out, blank_text(Blank::Return))?;
        return Ok(out);
    }
    put_reason(alloc, &mut out, format, below, why, line, words)?;
    Ok(out)
}

/// Puts what the reason tells of the line.
fn put_reason(
    alloc: Global,
    out: &mut Vec<u8>,
    format: Format,
    below: bool,
    why: Why,
    line: &[u8],
    words: &[&[u8]],
) -> Result<(), NoMemory>
    ensures { OnOk result (out.new.items ≡ out.old.items ++ reason_text format below why line.now (contents words.now)) }
{
    match why {
        Why::Header => put_header(out, line, words),
        Why::Twice => put_repeated(out, words),
        Why::Syntax => put_syntax(alloc, out, format, below, line, words),
        Why::Rest => put(out, rest_text(line)),
        _ => Ok(()),
    }
}

/// Puts what no line has in it, or what begins with such a line.
fn put_header(out: &mut Vec<u8>, line: &[u8], words: &[&[u8]]) -> Result<(), NoMemory>
    ensures { OnOk result (out.new.items ≡ out.old.items ++ header_text line.now (contents words.now)) }
{
    match blank_in(line, words) {
        Some(blank) => put(out, blank_text(blank)),
        None => put(out, first_text(line)),
    }
}

/// Puts what no line has in it, or the forms.
fn put_syntax(
    alloc: Global,
    out: &mut Vec<u8>,
    format: Format,
    below: bool,
    line: &[u8],
    words: &[&[u8]],
) -> Result<(), NoMemory>
    ensures { OnOk result (out.new.items ≡ out.old.items ++ syntax_text format below line.now (contents words.now)) }
{
    match blank_in(line, words) {
        Some(blank) => put(out, blank_text(blank)),
        None => put_words(alloc, out, format, below, words),
    }
}

/// Puts the forms of a line of words, or the words next to one that is none.
fn put_words(
    alloc: Global,
    out: &mut Vec<u8>,
    format: Format,
    below: bool,
    words: &[&[u8]],
) -> Result<(), NoMemory>
    ensures { OnOk result (out.new.items ≡ out.old.items ++ words_text format below (contents words.now)) }
{
    if is_misplaced(format, below, words) {
        return put(out, b"declarations stand above all operations\n");
    }
    let forms = told_texts(alloc, format, words, &FORMS)?;
    put_forms(alloc, out, format, forms.as_slice(), words)
}

/// Whether words begin as a declaration does, below an operation.
fn is_misplaced(format: Format, below: bool, words: &[&[u8]]) -> bool
    ensures { result ≡ (below && is_declared format (contents words.now)) }
{
    below && is_declared(format, words)
}

/// Puts what is told of forms, or the words next to one that is none.
fn put_forms(
    alloc: Global,
    out: &mut Vec<u8>,
    format: Format,
    forms: &[u8],
    words: &[&[u8]],
) -> Result<(), NoMemory>
    ensures { OnOk result (out.new.items ≡ out.old.items ++ forms_text format (contents words.now) forms.now) }
{
    if forms.is_empty() {
        return put_unknown(alloc, out, format, words);
    }
    put(out, forms)
}

/// What is told of forms.
fn told_texts(
    alloc: Global,
    format: Format,
    words: &[&[u8]],
    forms: &[Form],
) -> Result<Vec<u8>, NoMemory>
    ensures { IfOk result (λ v. v.items ≡ told_texts format (contents words.now) forms.now) }
{
    let mut out = Vec::new(alloc);
    for form in forms {
        put_told(alloc, &mut out, format, *form, words)?;
    }
    Ok(out)
}

/// Puts a form where it is that of the line's verb or kernel.
fn put_told(
    alloc: Global,
    out: &mut Vec<u8>,
    format: Format,
    form: Form,
    words: &[&[u8]],
) -> Result<(), NoMemory>
    ensures { OnOk result (out.new.items ≡ out.old.items ++ told_text format (contents words.now) form) }
{
    let (n, all) = followed(alloc, form, words)?;
    if !is_told(format, form, n) {
        return Ok(());
    }
    put_told_at(out, format, form, words, n, all)
}

/// Puts a form of so many words, of which a line has the first `n`.
fn put_told_at(
    out: &mut Vec<u8>,
    format: Format,
    form: Form,
    words: &[&[u8]],
    n: usize,
    all: usize,
) -> Result<(), NoMemory>
    requires all { all ≡ form_words form }
    requires within { n ≤ length words.now }
    ensures { OnOk result (out.new.items ≡ out.old.items ++ told_at format form (contents words.now) n) }
{
    put_all(
        out,
        &[
            b"the form is: ",
            form.shown_front(format),
            form.shown_end(format),
        ],
    )?;
    put_leave(out, words, n)?;
    put_left(out, format, form, words, n)?;
    put_several(out, format, form, words, n, all)
}

/// Puts what is told of the word at which a line leaves the form, where there is one.
fn put_left(
    out: &mut Vec<u8>,
    format: Format,
    form: Form,
    words: &[&[u8]],
    n: usize,
) -> Result<(), NoMemory>
    ensures { OnOk result (out.new.items ≡ out.old.items ++ left_at format form (contents words.now) n) }
{
    if has_word(words, n) {
        return put(out, left_text(format, form, n, word(words, n)));
    }
    Ok(())
}

/// Puts the lines to write where a second event stands behind a whole form, of which the format takes one.
fn put_several(
    out: &mut Vec<u8>,
    format: Format,
    form: Form,
    words: &[&[u8]],
    n: usize,
    all: usize,
) -> Result<(), NoMemory>
    requires { all ≡ form_words form }
    ensures { OnOk result (out.new.items ≡ out.old.items ++ several_text format form (contents words.now) n) }
{
    if takes_one(format, form) && (n == all && (has_word(words, n) && are_events(words, n))) {
        return put_merge_hint(out, form, words, n);
    }
    Ok(())
}

/// Whether the form takes one event behind `on`.
fn takes_one(format: Format, form: Form) -> bool
    ensures { result ≡ (takes_on form && not (takes_several format form)) }
{
    form.takes_on() && !form.takes_several(format)
}

/// Puts the word at which a line leaves a form, by its number from 0.
fn put_leave(out: &mut Vec<u8>, words: &[&[u8]], n: usize) -> Result<(), NoMemory>
    requires { n ≤ length words.now }
    ensures { OnOk result (out.new.items ≡ out.old.items ++ leave_text (contents words.now) n) }
{
    let _ = words.len();
    let mut buffer = Buffer::new();
    let number = buffer.format(n as u64 + 1).as_bytes();
    if has_word(words, n) {
        return put_all(
            out,
            &[
                b"the line leaves it at word ",
                number,
                b": ",
                word_front(word(words, n)),
                word_end(word(words, n)),
                b"\n",
            ],
        );
    }
    put_all(out, &[b"the line ends before word ", number, b" of it\n"])
}

/// A word as it is told: of a long one the front.
fn word_front(word: &[u8]) -> &[u8]
    ensures { result.now ≡ word_front word.now }
{
    if word.len() <= MAX_WORD {
        return word;
    }
    &word[..MAX_WORD - 2]
}

/// The end of a word as it is told.
fn word_end(word: &[u8]) -> &[u8]
    ensures { result.now ≡ word_end word.now }
{
    if word.len() <= MAX_WORD { b"" } else { b".." }
}

/// Whether the second word is the sign of an operation.
fn is_operation(words: &[&[u8]]) -> bool
    ensures { result ≡ is_operation (contents words.now) }
{
    word(words, 1) == b"=".as_slice()
}

/// Whether words begin as a declaration does.
fn is_declared(format: Format, words: &[&[u8]]) -> bool
    ensures { result ≡ is_declared format (contents words.now) }
{
    !is_operation(words) && begins_declaration(format, word(words, 0))
}

fn begins_declaration(format: Format, word: &[u8]) -> bool
    ensures { result ≡ begins_declaration format word.now }
{
    word == b"space".as_slice()
        || word == b"inst".as_slice()
        || word == b"lock".as_slice()
        || word == b"barrier".as_slice()
        || (word == b"data".as_slice() && format.has_since(Format::Three))
}

/// The number, from 0, of the word that would tell what the line is.
fn key_place(words: &[&[u8]]) -> usize
    ensures { result ≡ key_place (contents words.now) }
{
    if !is_operation(words) {
        return 0;
    }
    if is_task(words) { 3 } else { 2 }
}

/// The words that may stand there.
fn vocabulary_of(words: &[&[u8]]) -> Vocabulary
    ensures { result ≡ vocabulary_of (contents words.now) }
{
    if !is_operation(words) {
        return Vocabulary::Starts;
    }
    if is_task(words) {
        Vocabulary::Kernels
    } else {
        Vocabulary::Verbs
    }
}

/// Puts that no line has this word where it would tell what the line is, and the nearest that may stand there.
fn put_unknown(
    alloc: Global,
    out: &mut Vec<u8>,
    format: Format,
    words: &[&[u8]],
) -> Result<(), NoMemory>
    ensures { OnOk result (out.new.items ≡ out.old.items ++ unknown_text format (contents words.now)) }
{
    let vocabulary = vocabulary_of(words);
    let key = word(words, key_place(words));
    let near = nearest(alloc, key, vocabulary_words(format, vocabulary))?;
    put(out, vocabulary_text(format, vocabulary))?;
    put_nearest(out, near.as_slice())?;
    put_moved(out, format, vocabulary, key)?;
    put_joined(out, words)
}

/// Puts what has to stand before a word that tells what a line is, where it stands in another place.
fn put_moved(
    out: &mut Vec<u8>,
    format: Format,
    vocabulary: Vocabulary,
    key: &[u8],
) -> Result<(), NoMemory>
    ensures { OnOk result (out.new.items ≡ out.old.items ++ moved_text format vocabulary key.now) }
{
    match vocabulary {
        Vocabulary::Starts => {
            put_where(out, is_verb(format, key), b"NAME = stands before ", key)?;
            put_where(
                out,
                is_kernel(format, key),
                b"NAME = task stands before ",
                key,
            )
        }
        Vocabulary::Verbs => put_where(out, is_kernel(format, key), b"task stands before ", key),
        Vocabulary::Kernels => put_where(out, is_verb(format, key), b"no task stands before ", key),
    }
}

/// Puts a text and a word, where something holds.
fn put_where(out: &mut Vec<u8>, holds: bool, text: &[u8], word: &[u8]) -> Result<(), NoMemory>
    ensures { OnOk result (out.new.items ≡ out.old.items ++ where_text holds text.now word.now) }
{
    if holds {
        return put_all(out, &[text, word, b"\n"]);
    }
    Ok(())
}

fn is_verb(format: Format, word: &[u8]) -> bool
    ensures { result ≡ is_verb format word.now }
{
    is_among(word, vocabulary_words(format, Vocabulary::Verbs))
}

fn is_kernel(format: Format, word: &[u8]) -> bool
    ensures { result ≡ is_kernel format word.now }
{
    is_among(word, vocabulary_words(format, Vocabulary::Kernels))
}

/// Puts that the sign of an operation is a word, where it is joined to one.
fn put_joined(out: &mut Vec<u8>, words: &[&[u8]]) -> Result<(), NoMemory>
    ensures { OnOk result (out.new.items ≡ out.old.items ++ joined_text (contents words.now)) }
{
    if is_operation(words) {
        return Ok(());
    }
    if has_sign(word(words, 0)) || has_sign(word(words, 1)) {
        return put(out, b"= is a word: one space stands on each side of it\n");
    }
    Ok(())
}

fn has_sign(word: &[u8]) -> bool
    ensures { result ≡ has_sign word.now }
{
    has_byte(word, b'=')
}
