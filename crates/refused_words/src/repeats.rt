//! The first word that stands in a line twice.

ghost use Rattle.std.specs.Prelude.{◌≡◌, ◌+◌, true, false, option_map, IfOk};
ghost use Rattle.refused_words.specs.Places.{place_value, place_at};
ghost use Rattle.refused_words.specs.Refused.{is_event, is_column, StandsBefore, IsFirstRepeat};
ghost use Rattle.refused_words.specs.Repeats.{AreSeen};

use crate::places::{LineWords, WordPlace};
use crate::seen_words::SeenWords;
use graph_terms::table::Place;
use graph_terms::why::Why;
use graph_words::words::word;
use index_spaces::NoMemory;
use std::alloc::Global;

/// The events and the columns of a line that were seen.
#[derive(Drop)]
struct Lists<'a> {
    events: SeenWords<'a>,
    columns: SeenWords<'a>,
}

/// The first word that stands before it in the line as an event, or as a column, too, where that is
/// the reason.
pub(crate) fn first_repeat(
    alloc: Global,
    line: &LineWords,
    why: Why,
) -> Result<Option<usize>, NoMemory>
    ensures { IfOk result (IsFirstRepeat line.now.format why line.now.words) }
{
    match why {
        Why::Twice => first_twice(alloc, line),
        _ => Ok(None),
    }
}

fn first_twice(alloc: Global, line: &LineWords) -> Result<Option<usize>, NoMemory>
    ensures { IfOk result (IsFirstRepeat line.now.format Why.Twice line.now.words) }
{
    let mut seen = Lists {
        events: SeenWords::new(alloc),
        columns: SeenWords::new(alloc),
    };
    for k in 0..line.words().len() {
        if stands_before(&mut seen, line, k)? {
            return Ok(Some(k));
        }
    }
    Ok(None)
}

/// Whether the word of number `k` is among those of its kind that were seen; else it is put there.
fn stands_before<'a>(
    seen: &mut Lists<'a>,
    line: &LineWords<'a, '_>,
    k: usize,
) -> Result<bool, NoMemory>
    requires { AreSeen line.now.format line.now.words k seen.old.events seen.old.columns }
    ensures there { IfOk result (λ b. b ≡ true → StandsBefore line.now.format line.now.words k) }
    ensures none { IfOk result (λ b. b ≡ false → StandsBefore line.now.format line.now.words k → ⊥) }
    ensures seen { IfOk result (λ b. AreSeen line.now.format line.now.words (k + 1) seen.new.events seen.new.columns) }
{
    let place = line.place(k);
    if is_event(place) {
        return seen.events.add(word(line.words(), k));
    }
    if is_column(place) {
        return seen.columns.add(word(line.words(), k));
    }
    Ok(false)
}

fn is_event(place: Option<WordPlace>) -> bool
    ensures { result ≡ is_event (option_map place_value place) }
{
    matches!(place, Some(WordPlace::Event))
}

fn is_column(place: Option<WordPlace>) -> bool
    ensures { result ≡ is_column (option_map place_value place) }
{
    matches!(place, Some(WordPlace::Of(Place::Column(..))))
}
