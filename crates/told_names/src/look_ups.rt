//! Names looked up among those that lines give.

ghost use Rattle.std.specs.Prelude.{◌≡◌, ℕ, List, length, map, take, Contains, IfOk};
ghost use Rattle.basics.specs.Words.{contents};
ghost use Rattle.told_names.specs.Named.{IsNamedWord, IsInside};
ghost use Rattle.told_names.specs.Places.{ArePlaces};
ghost use Rattle.told_names.specs.declared.naming.NamedWord.{NamedWord};

use crate::first_places::GivenPlaces;
use crate::name_list::NameList;
use crate::named::first_place;
use crate::naming::NamedWord;
use explain_text::bounds::MAX_NAMES;
use explain_text::split::{back, front};
use index_spaces::NoMemory;
use index_spaces::room::push;
use std::alloc::Global;

/// Looks a word up among the names that lines give.
pub(crate) fn look_up<'a>(names: &[&[u8]], number: u32, word: &'a [u8]) -> NamedWord<'a>
    ensures word { result.word.now ≡ word.now }
    ensures named { IsNamedWord (contents names.now) number result }
    ensures inside { IsInside (length names.now) result }
{
    let place = number as usize;
    NamedWord {
        word,
        above: first_place(word, 0, front(names, place.saturating_sub(1))),
        below: first_place(word, place, back(names, place)),
    }
}

/// Looks up the first names of a list: many of them in one pass over the names that lines give.
pub(crate) fn look_up_all<'a>(
    alloc: Global,
    names: &[&[u8]],
    number: u32,
    list: &NameList<'a>,
    most: usize,
) -> Result<Vec<NamedWord<'a>>, NoMemory>
    ensures words { IfOk result (λ v. map (λ (x : NamedWord). x.word.now) v.items ≡ take most list.now) }
    ensures named { IfOk result (λ v. (x : NamedWord) → Contains v.items x → IsNamedWord (contents names.now) number x) }
    ensures inside { IfOk result (λ v. (x : NamedWord) → Contains v.items x → IsInside (length names.now) x) }
{
    if list.len().min(most) <= MAX_NAMES {
        look_up_few(alloc, names, number, list, most)
    } else {
        look_up_many(alloc, names, number, list, most)
    }
}

/// Looks up the first names of a list, each by itself.
fn look_up_few<'a>(
    alloc: Global,
    names: &[&[u8]],
    number: u32,
    list: &NameList<'a>,
    most: usize,
) -> Result<Vec<NamedWord<'a>>, NoMemory>
    ensures words { IfOk result (λ v. map (λ (x : NamedWord). x.word.now) v.items ≡ take most list.now) }
    ensures named { IfOk result (λ v. (x : NamedWord) → Contains v.items x → IsNamedWord (contents names.now) number x) }
    ensures inside { IfOk result (λ v. (x : NamedWord) → Contains v.items x → IsInside (length names.now) x) }
{
    let mut found = Vec::new(alloc);
    for i in 0..list.len().min(most) {
        push(&mut found, look_up(names, number, list.at(i)))?;
    }
    Ok(found)
}

/// Looks them up by the first places of all names.
fn look_up_many<'a>(
    alloc: Global,
    names: &[&[u8]],
    number: u32,
    list: &NameList<'a>,
    most: usize,
) -> Result<Vec<NamedWord<'a>>, NoMemory>
    ensures words { IfOk result (λ v. map (λ (x : NamedWord). x.word.now) v.items ≡ take most list.now) }
    ensures named { IfOk result (λ v. (x : NamedWord) → Contains v.items x → IsNamedWord (contents names.now) number x) }
    ensures inside { IfOk result (λ v. (x : NamedWord) → Contains v.items x → IsInside (length names.now) x) }
{
    let places = GivenPlaces::of(alloc, names, number)?;
    let mut found = Vec::new(alloc);
    for i in 0..list.len().min(most) {
        push(&mut found, named_at(&places, list.at(i)))?;
    }
    Ok(found)
}

/// A word with the lines that give it, by the first places of all names.
fn named_at<'a>(places: &GivenPlaces, word: &'a [u8]) -> NamedWord<'a>
    ensures word { result.word.now ≡ word.now }
    ensures named { (names : List (List ℕ)) (number : ℕ) → ArePlaces names number places.now → IsNamedWord names number result }
{
    NamedWord {
        word,
        above: places.above(word),
        below: places.below(word),
    }
}
