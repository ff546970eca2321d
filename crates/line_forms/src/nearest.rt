//! The words next to one that is none.

ghost use Rattle.std.specs.Prelude.{◌≡◌, ◌==◌, ◌++◌, [], ◌∷◌, IfOk, OnOk};
ghost use Rattle.basics.specs.Words.{contents};
ghost use Rattle.line_forms.specs.Words.{distance, words_at, near, nearest, nearest_text};

use crate::hint::put_before;
use crate::putting::put;
use index_spaces::NoMemory;
use index_spaces::room::push;
use std::alloc::Global;
use strsim::generic_levenshtein;

/// The most letters of a name.
const MOST_LETTERS: usize = 31;

/// How many of them are told.
const MOST_WORDS: usize = 3;

/// The words that are at most 2 letters away from one, at most 3 of them, the nearest first.
pub(crate) fn nearest<'a>(
    alloc: Global,
    word: &[u8],
    words: &[&'a [u8]],
) -> Result<Vec<&'a [u8]>, NoMemory>
    ensures { IfOk result (λ v. contents v.items ≡ nearest word.now (contents words.now)) }
{
    if word.len() > MOST_LETTERS {
        return Ok(Vec::new(alloc));
    }
    near(alloc, word, words)
}

/// Those of a word that may be a name.
fn near<'a>(alloc: Global, word: &[u8], words: &[&'a [u8]]) -> Result<Vec<&'a [u8]>, NoMemory>
    ensures { IfOk result (λ v. contents v.items ≡ near word.now (contents words.now)) }
{
    let mut found = Vec::new(alloc);
    put_words_at(alloc, &mut found, 1, word, words)?;
    put_words_at(alloc, &mut found, 2, word, words)?;
    found.truncate(MOST_WORDS);
    Ok(found)
}

/// Puts the words at this distance at the end.
fn put_words_at<'a>(
    alloc: Global,
    found: &mut Vec<&'a [u8]>,
    away: usize,
    word: &[u8],
    words: &[&'a [u8]],
) -> Result<(), NoMemory>
    ensures { OnOk result (contents found.new.items ≡ contents found.old.items ++ words_at away word.now (contents words.now)) }
{
    for other in words {
        put_word_at(alloc, found, away, word, other)?;
    }
    Ok(())
}

/// Puts a word at the end where it is at this distance.
fn put_word_at<'a>(
    alloc: Global,
    found: &mut Vec<&'a [u8]>,
    away: usize,
    word: &[u8],
    other: &'a [u8],
) -> Result<(), NoMemory>
    ensures { OnOk result (contents found.new.items ≡ contents found.old.items ++ words_at away word.now (other.now ∷ [])) }
{
    let at = is_at(alloc, away, word, other)?;
    if at {
        return push(found, other);
    }
    Ok(())
}

/// Whether a word is at this distance.
fn is_at(alloc: Global, away: usize, word: &[u8], other: &[u8]) -> Result<bool, NoMemory>
    ensures { IfOk result (λ b. b ≡ (distance other.now word.now == away)) }
{
    Ok(distance(alloc, other, word)? == away)
}

/// The distance between two words.
fn distance(alloc: Global, one: &[u8], other: &[u8]) -> Result<usize, NoMemory>
    ensures { IfOk result (λ d. d ≡ distance one.now other.now) }
{
    match generic_levenshtein(alloc, one, other) {
        Ok(count) => Ok(count),
        Err(_) => Err(NoMemory),
    }
}

/// Puts what is told of the nearest words.
pub(crate) fn put_nearest(out: &mut Vec<u8>, words: &[&[u8]]) -> Result<(), NoMemory>
    ensures { OnOk result (out.new.items ≡ out.old.items ++ nearest_text (contents words.now)) }
{
    if words.is_empty() {
        return Ok(());
    }
    put(out, b"near it:")?;
    put_before(out, words)?;
    put(out, b"\n")
}
