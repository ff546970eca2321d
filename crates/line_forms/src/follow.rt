//! How far a line goes with a form.

ghost use Rattle.std.specs.Prelude.{◌≡◌, ◌≤◌, nat_lt, length, IfOk};
ghost use Rattle.basics.specs.Words.{contents};
ghost use Rattle.line_forms.specs.Forms.{is_capital, bare, is_op, fits, follow, follow_on, followed, form_words, is_told};

use crate::calls::follow_call;
use crate::form::Form;
use graph_terms::format::Format;
use graph_words::words::{behind, split, word};
use index_spaces::NoMemory;
use std::alloc::Global;

/// How many words of a line stand as in the form, and how many words that has.
pub fn followed(alloc: Global, form: Form, words: &[&[u8]]) -> Result<(usize, usize), NoMemory>
    ensures { IfOk result (λ x. (x.0 ≡ followed form (contents words.now)) × (x.1 ≡ form_words form)) }
{
    let items = split(alloc, form.text(), b' ')?;
    let front = follow(items.as_slice(), words);
    Ok((follow_on(form, words, front), items.len()))
}

/// How many words of a line stand as in the form, with those behind the word of a call, where the
/// first `n` do.
fn follow_on(form: Form, words: &[&[u8]], n: usize) -> usize
    requires { n ≤ length words.now }
    ensures { result ≡ follow_on form (contents words.now) n }
{
    match form {
        Form::Call if n >= 4 => 4 + follow_call(behind(words, 4)),
        _ => n,
    }
}

/// How many words of a line stand as the words of a form do.
fn follow(items: &[&[u8]], words: &[&[u8]]) -> usize
    ensures { result ≡ follow (contents items.now) (contents words.now) }
{
    for i in 0..items.len() {
        if !has_word(words, i) {
            return i;
        }
        let fit = fits(word(items, i), word(words, i));
        if !fit {
            return i;
        }
    }
    items.len()
}

/// Whether there is a word of this number, from 0.
pub(crate) fn has_word(words: &[&[u8]], n: usize) -> bool
    ensures { result ≡ nat_lt n (length (contents words.now)) }
{
    n < words.len()
}

/// Whether a word of a line may stand where this word of a form does.
fn fits(item: &[u8], word: &[u8]) -> bool
    ensures { result ≡ fits item.now word.now }
{
    if item == b"OP".as_slice() {
        return is_op(word);
    }
    is_capital(item) || bare(item) == word
}

fn is_op(word: &[u8]) -> bool
    ensures { result ≡ is_op word.now }
{
    word == b"sum".as_slice() || word == b"min".as_slice() || word == b"max".as_slice()
}

fn is_capital(item: &[u8]) -> bool
    ensures { result ≡ is_capital item.now }
{
    match item {
        [first, ..] => *first >= 65 && *first <= 90,
        [] => false,
    }
}

/// The word of a form without a bracket in front.
fn bare(item: &[u8]) -> &[u8]
    ensures { result.now ≡ bare item.now }
{
    match item {
        [first, rest @ ..] => { if *first == b'[' { rest } else { item } }
        [] => item,
    }
}

/// Whether the form is told of a line that goes so far with it.
pub fn is_told(format: Format, form: Form, n: usize) -> bool
    ensures { result ≡ is_told format form n }
{
    format.has_since(form.since()) && form.key_words() <= n
}
