//! Words that stand for fields or for intervals, which only some reasons speak of.

ghost use Rattle.std.specs.Prelude.{◌≡◌, false, true, IfOk, MatchOption};
ghost use Rattle.graph_terms.specs.Graph.{GraphValue};
ghost use Rattle.graph_words.specs.Draft.{Fields, Intervals};
ghost use Rattle.graph_words.specs.Words.{pieces, is_fields, ascend_from};
ghost use Rattle.refused_words.specs.Refused.{refuses};

use graph_terms::format::Format;
use graph_terms::name::Name;
use graph_terms::why::Why;
use graph_words::intervals::intervals;
use graph_words::names::{has_repeat, names_of};
use graph_words::words::split;
use index_spaces::NoMemory;
use std::alloc::Global;

/// The fields of a format that a word spells. `None` exactly where it spells none.
fn fields_of(alloc: Global, format: Format, word: &[u8]) -> Result<Option<Vec<Name>>, NoMemory>
    ensures { IfOk result (λ o. MatchOption o (is_fields format word.now ≡ false) (λ v. (v.items ≡ pieces 44 word.now) × (is_fields format word.now ≡ true))) }
{
    let words = split(alloc, word, b',')?;
    names_of(alloc, format, words.as_slice())
}

/// Whether a reason refuses a word as the fields of an instance, in a graph of this format.
pub(crate) fn refuses_fields(
    alloc: Global,
    format: Format,
    why: Why,
    word: &[u8],
) -> Result<bool, NoMemory>
    ensures { IfOk result (λ b. (g : GraphValue) → g.format ≡ format → b ≡ refuses g why Fields word.now) }
{
    if !matches!(why, Why::Name | Why::Twice) {
        return Ok(false);
    }
    let Some(names) = fields_of(alloc, format, word)? else {
        return Ok(matches!(why, Why::Name));
    };
    if matches!(why, Why::Name) {
        return Ok(false);
    }
    has_repeat(alloc, names.as_slice())
}

/// Whether a reason refuses a word as the intervals of a space.
pub(crate) fn refuses_intervals(alloc: Global, why: Why, word: &[u8]) -> Result<bool, NoMemory>
    ensures { IfOk result (λ b. (g : GraphValue) → b ≡ refuses g why Intervals word.now) }
{
    if !matches!(why, Why::Number | Why::Space) {
        return Ok(false);
    }
    let Some(pairs) = intervals(alloc, word)? else {
        return Ok(matches!(why, Why::Number));
    };
    Ok(matches!(why, Why::Space) && !ascend(pairs.as_slice()))
}

/// Whether intervals ascend, none reversed and none touching.
fn ascend(pairs: &[(u32, u32)]) -> bool
    ensures { result ≡ ascend_from 0 pairs.now }
{
    let mut least: u64 = 0;
    let mut rest = pairs;
    while let [(low, high), others @ ..] = rest {
        if u64::from(*low) < least || high < low {
            return false;
        }
        least = u64::from(*high) + 2;
        rest = others;
    }
    true
}
