//! Intervals that words spell.

ghost use Rattle.basics.specs.Words.{contents};
ghost use Rattle.std.specs.Prelude.{◌≡◌, map, [], ◌∷◌, Some, IfOk, IfSome};
ghost use Rattle.graph_words.specs.Words.{pieces, interval_of, all_intervals, intervals_of};
ghost use Rattle.graph_words.specs.Cuts.{dotted, Gives};

use crate::cuts::{around_dot, cut};
use crate::numbers::point;
use crate::words::split;
use index_spaces::NoMemory;
use std::alloc::Global;

/// The two parts of a word with two dots between them, and no other.
fn around_dots(word: &[u8]) -> Option<(&[u8], &[u8])>
    ensures { Gives (λ x. (x.0.now, x.1.now)) result (dotted (pieces 46 word.now)) }
{
    let Some((low, rest)) = cut(word, b'.') else {
        return None;
    };
    let Some((between, high)) = around_dot(rest) else {
        return None;
    };
    if between.is_empty() {
        Some((low, high))
    } else {
        None
    }
}

/// The interval that a word spells.
#[tactic(auto, using(crate::proofs::IntervalWords::interval_is))]
fn interval(word: &[u8]) -> Option<(u32, u32)>
    ensures { result ≡ interval_of (pieces 46 word.now) }
{
    let Some((low, high)) = around_dots(word) else {
        return None;
    };
    let low = point(low)?;
    let high = point(high)?;
    Some((low, high))
}

/// The intervals that words spell, one each.
fn each_interval(alloc: Global, words: &[&[u8]]) -> Result<Option<Vec<(u32, u32)>>, NoMemory>
    ensures { IfOk result (λ o. Gives (λ v. v.items) o (all_intervals (contents words.now))) }
{
    let mut pairs = Vec::new(alloc);
    for word in words {
        let Some(pair) = interval(word) else {
            return Ok(None);
        };
        let Ok(()) = pairs.push(pair) else {
            return Err(NoMemory);
        };
    }
    Ok(Some(pairs))
}

/// The interval of a word that spells one alone, as most do. `None` says nothing.
pub fn one_interval(word: &[u8]) -> Option<(u32, u32)>
    ensures { IfSome result (λ pair. intervals_of word.now ≡ Some (pair ∷ [])) }
{
    match cut(word, b',') {
        Some(_) => None,
        None => interval(word),
    }
}

/// The intervals that a word spells, with a comma between each two.
pub fn intervals(alloc: Global, word: &[u8]) -> Result<Option<Vec<(u32, u32)>>, NoMemory>
    ensures { IfOk result (λ o. Gives (λ v. v.items) o (intervals_of word.now)) }
{
    let words = split(alloc, word, b',')?;
    each_interval(alloc, &words)
}
