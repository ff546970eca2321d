//! What words stand for that no reason refuses. Most words of a text are such, so a reader tries this first.

ghost use Rattle.basics.specs.Words.{contents};
ghost use Rattle.std.specs.Prelude.{◌≡◌, ◌≤◌, map, length, true, IfOk, MatchOption};
ghost use Rattle.graph_terms.specs.Table.{parts_from};
ghost use Rattle.graph_words.specs.Draft.{as_place, Column, SpaceName, Value, Weight, number_in, line_number, words_in, events_placed};
ghost use Rattle.word_meanings.specs.Telling.{AllTell, NamesThing, IsKnown, no_faults, any_refused};
ghost use Rattle.word_meanings.specs.Recent.{IsRecent};

use crate::lookup::{Lookup, look_up};
use crate::recent::{Recent, recent_column, recent_line, recent_space};
use crate::seen::{is_alike, is_twice, number};
use graph_model::graph::Graph;
use graph_terms::lists::EventList;
use graph_terms::table::{MOST_PLACES, Parts, Place};
use graph_words::numbers::{value, weight};
use graph_words::words::word;
use index_spaces::NoMemory;
use std::alloc::Global;

/// What a word stands for in its place.
#[derive(Clone, Copy)]
pub(crate) struct Known {
    /// The number of what it names, or 0.
    pub number: u32,
    /// The value that it spells, or 0.
    pub value: u64,
}

fn named(number: u32) -> Known
    ensures { result ≡ record { number = number; value = 0 } }
{
    Known { number, value: 0 }
}

/// The one thing that a word names. `None` exactly where a reason refuses the word.
fn known_name(graph: &Graph, place: Place, word: &[u8]) -> Option<Known>
    requires { NamesThing place }
    ensures { IsKnown graph.now (as_place place) word.now result }
{
    let Lookup { misnamed, found } = look_up(graph, word);
    if misnamed {
        return None;
    }
    if is_twice(graph, place, found) {
        return None;
    }
    if !is_alike(graph, place, found) {
        return None;
    }
    match number(place, found) {
        Some(number) => Some(named(number)),
        None => None,
    }
}

/// The column of an instance that a word names. `None` exactly where a reason refuses the word.
fn known_column<'a>(graph: &Graph, recent: &mut Recent<'a>, word: &'a [u8]) -> Option<Known>
    requires { IsRecent graph.now recent.old }
    ensures known { IsKnown graph.now Column word.now result }
    ensures recent { IsRecent graph.now recent.new }
{
    let _ = graph.decls();
    match recent_column(graph, recent, word) {
        Some(column) => Some(named(column)),
        None => None,
    }
}

/// The space that a word names. `None` exactly where a reason refuses the word.
fn known_space(graph: &Graph, last: &mut u32, word: &[u8]) -> Option<Known>
    ensures { IsKnown graph.now SpaceName word.now result }
{
    let _ = graph.decls();
    match recent_space(graph, last, word) {
        Some(space) => Some(named(space)),
        None => None,
    }
}

/// The value that a word spells. `None` exactly where it spells none.
fn known_value(graph: &Graph, word: &[u8]) -> Option<Known>
    ensures { IsKnown graph.now Value word.now result }
{
    let _ = graph.decls();
    match value(word) {
        Some(value) => Some(Known { number: 0, value }),
        None => None,
    }
}

/// How many arrivals one counts for. `None` exactly where the word spells no such number.
fn known_weight(graph: &Graph, word: &[u8]) -> Option<Known>
    ensures { IsKnown graph.now Weight word.now result }
{
    match weight(graph.format(), word) {
        Some(weight) => Some(named(weight)),
        None => None,
    }
}

/// What a word stands for in its place. `None` exactly where a reason refuses the word.
fn known_word<'a>(
    graph: &Graph,
    recent: &mut Recent<'a>,
    place: Place,
    word: &'a [u8],
) -> Option<Known>
    requires { IsRecent graph.now recent.old }
    ensures known { IsKnown graph.now (as_place place) word.now result }
    ensures recent { IsRecent graph.now recent.new }
{
    match place {
        Place::User | Place::Phase | Place::Acquire | Place::Lock | Place::Barrier => {
            known_name(graph, place, word)
        }
        Place::Space => known_space(graph, &mut recent.space, word),
        Place::Column(..) => known_column(graph, recent, word),
        Place::Value => known_value(graph, word),
        Place::Times => Some(named(0)),
        Place::Shared => Some(named(0)),
        Place::Weight => known_weight(graph, word),
    }
}

/// What words stand for in their places. `None` exactly where a reason refuses one of them.
pub fn known_parts<'a>(
    graph: &Graph,
    recent: &mut Recent<'a>,
    places: &[Place],
    words: &[&'a [u8]],
) -> Option<Parts>
    requires recent { IsRecent graph.now recent.old }
    requires few { length places.now ≤ MOST_PLACES }
    requires there { length places.now ≤ length words.now }
    ensures known { MatchOption result (any_refused graph.now (words_in places.now (contents words.now)) ≡ true)
        (λ parts. (parts_from 0 places.now parts ≡ map (number_in graph.now) (words_in places.now (contents words.now)))
        × AllTell graph.now (words_in places.now (contents words.now)) no_faults) }
    ensures recent { IsRecent graph.now recent.new }
{
    let mut parts = Parts {
        numbers: [0; MOST_PLACES],
        values: [0; MOST_PLACES],
    };
    for i in 0..places.len() {
        let Some(known) = known_word(graph, recent, places[i], word(words, i)) else {
            return None;
        };
        parts.numbers[i] = known.number;
        parts.values[i] = known.value;
    }
    Some(parts)
}

/// The lines that the words of events name, by the number of the line that was last found. `None` exactly where a reason
/// refuses one of them.
pub fn known_events(
    alloc: Global,
    graph: &Graph,
    last: &mut u32,
    words: &[&[u8]],
) -> Result<Option<EventList>, NoMemory>
    ensures { IfOk result (λ found. MatchOption found (any_refused graph.now (events_placed (contents words.now)) ≡ true)
        (λ lines. (lines ≡ map (line_number graph.now) (contents words.now)) × AllTell graph.now (events_placed (contents words.now)) no_faults)) }
{
    // More words than a list of events holds.
    if words.len() > 4294967295 {
        return Err(NoMemory);
    }
    let _ = graph.decls();
    let mut lines = EventList::new(alloc);
    for word in words {
        let Some(number) = recent_line(graph, last, word) else {
            return Ok(None);
        };
        lines.push(number)?;
    }
    Ok(Some(lines))
}
