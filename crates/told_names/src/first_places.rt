//! The first places of many names, in one pass over them.

ghost use Rattle.std.specs.Prelude.{◌≡◌, ◌+◌, ◌<◌, ◌^◌, length, IfOk, OnOk};
ghost use Rattle.basics.specs.Words.{contents};
ghost use Rattle.indexmap.specs.IndexMap.{get};
ghost use Rattle.told_names.specs.Named.{is_same_name};
ghost use Rattle.told_names.specs.Places.{AreFirst, ArePlaces, IsNoted};

use explain_text::split::{back, front};
use index_spaces::NoMemory;
use indexmap::IndexMap;
use std::alloc::Global;

/// The first place of each name that a line above another gives, and of each that one below it does.
#[derive(Drop)]
pub(crate) struct GivenPlaces<'a> {
    above: IndexMap<&'a [u8], usize>,
    below: IndexMap<&'a [u8], usize>,
}

impl<'a> GivenPlaces<'a> {
    /// The places of names that lines give, above and below the line of a number.
    pub(crate) fn of(
        alloc: Global,
        names: &[&'a [u8]],
        number: u32,
    ) -> Result<GivenPlaces<'a>, NoMemory>
        ensures { IfOk result (ArePlaces (contents names.now) number) }
    {
        let place = number as usize;
        let above = first_places(alloc, 0, front(names, place.saturating_sub(1)))?;
        let below = first_places(alloc, place, back(names, place))?;
        Ok(GivenPlaces { above, below })
    }

    /// The topmost line above that gives this name.
    pub(crate) fn above(&self, name: &[u8]) -> Option<usize>
        ensures { result ≡ get is_same_name self.now.above name.entry }
    {
        self.above.get(name).copied()
    }

    /// The topmost line below that gives this name.
    pub(crate) fn below(&self, name: &[u8]) -> Option<usize>
        ensures { result ≡ get is_same_name self.now.below name.entry }
    {
        self.below.get(name).copied()
    }
}

/// The first place of each name among some, where the first of them has this number. They are gone through
/// from the last on: a name that stands higher takes the place of the one below.
fn first_places<'a>(
    alloc: Global,
    number: usize,
    names: &[&'a [u8]],
) -> Result<IndexMap<&'a [u8], usize>, NoMemory>
    requires { number + length names.now < 2 ^ 64 }
    ensures { IfOk result (λ m. AreFirst m number (contents names.now)) }
{
    let mut places = IndexMap::new(alloc);
    let mut at = names.len();
    while at > 0 {
        at -= 1;
        note(&mut places, names[at], number + at)?;
    }
    Ok(places)
}

/// Notes the place of a name.
fn note<'a>(
    places: &mut IndexMap<&'a [u8], usize>,
    name: &'a [u8],
    place: usize,
) -> Result<(), NoMemory>
    ensures { OnOk result (IsNoted places.old places.new name.now place) }
{
    match places.insert(name, place) {
        Ok(_) => Ok(()),
        Err(_) => Err(NoMemory),
    }
}
