//! The word of a line that a reason refuses.

ghost use Rattle.basics.specs.Words.{contents};
ghost use Rattle.std.specs.Prelude.{◌≡◌, ◌==◌, false, IfOk};
ghost use Rattle.std.specs.Option.{option_map_or};
ghost use Rattle.graph_words.specs.Draft.{as_place, NewName, EventName, DataColumn};
ghost use Rattle.refused_words.specs.Places.{place_value};
ghost use Rattle.refused_words.specs.Refused.{refuses, clashes, refuses_at, names_fault, IsRefusedWord};

use crate::meets::met_by;
use crate::outside::{leaves_data, leaves_named};
use crate::places::{LineWords, WordPlace};
use crate::repeats::first_repeat;
use crate::spelled::{refuses_fields, refuses_intervals};
use graph_model::graph::Graph;
use graph_terms::table::Place;
use graph_terms::why::Why;
use graph_words::numbers::count;
use graph_words::words::word;
use index_spaces::NoMemory;
use std::alloc::Global;
use word_meanings::faults::Faults;
use word_meanings::seen::{see, see_column, see_event};

/// The first word of a line that this reason refuses behind a graph, by its number from 0. `None`
/// exactly where it refuses none of them by itself.
pub fn refused_word(
    alloc: Global,
    graph: &Graph,
    words: &[&[u8]],
    why: Why,
) -> Result<Option<usize>, NoMemory>
    ensures { IfOk result (IsRefusedWord graph.now why (contents words.now)) }
{
    let line = LineWords::of(graph.format(), words);
    let repeat = first_repeat(alloc, &line, why)?;
    for k in 0..words.len() {
        if is_number(repeat, k) {
            return Ok(Some(k));
        }
        if is_refused(alloc, graph, &line, why, k)? {
            return Ok(Some(k));
        }
    }
    Ok(None)
}

fn is_number(number: Option<usize>, k: usize) -> bool
    ensures { result ≡ option_map_or (λ n. n == k) number false }
{
    match number {
        Some(n) => n == k,
        None => false,
    }
}

/// Whether a reason refuses the word of number `k`, wherever it stands besides.
fn is_refused(
    alloc: Global,
    graph: &Graph,
    line: &LineWords,
    why: Why,
    k: usize,
) -> Result<bool, NoMemory>
    requires { line.now.format ≡ graph.now.format }
    ensures { IfOk result (λ b. b ≡ refuses_at graph.now why line.now.words k) }
{
    let Some(place) = line.place(k) else {
        return Ok(false);
    };
    let words = line.words();
    let word = word(words, k);
    if clashes(graph, line, why, place, k) {
        return Ok(true);
    }
    refuses(alloc, graph, why, place, word)
}

/// Whether the use of the column that the word of number `k` names clashes with the space of that
/// column, or with another use before it in a call, where that is the reason.
fn clashes(graph: &Graph, line: &LineWords, why: Why, place: WordPlace, k: usize) -> bool
    requires { line.now.format ≡ graph.now.format }
    ensures { result ≡ clashes graph.now line.now.words why (place_value place) k }
{
    match (why, place) {
        (Why::Outside, WordPlace::Of(Place::Column(..))) => leaves_named(graph, line, k),
        (Why::Outside, WordPlace::DataColumn) => leaves_data(graph, line, k),
        (Why::Meets, WordPlace::DataColumn) => met_by(graph, line, k).is_some(),
        _ => false,
    }
}

/// Whether a reason refuses a word in its place.
fn refuses(
    alloc: Global,
    graph: &Graph,
    why: Why,
    place: WordPlace,
    word: &[u8],
) -> Result<bool, NoMemory>
    ensures { IfOk result (λ b. b ≡ refuses graph.now why (place_value place) word.now) }
{
    match place {
        WordPlace::NewName => Ok(refuses_new(graph, why, word)),
        WordPlace::CallName => Ok(
            matches!(why, Why::Name) && see_event(graph, word).faults.misnamed,
        ),
        WordPlace::Fields => refuses_fields(alloc, graph.format(), why, word),
        WordPlace::Count => Ok(matches!(why, Why::Number) && count(graph.format(), word).is_none()),
        WordPlace::Intervals => refuses_intervals(alloc, why, word),
        WordPlace::Event => Ok(refuses_event(graph, why, word)),
        WordPlace::DataColumn => Ok(refuses_data(graph, why, word)),
        WordPlace::Of(place) => Ok(refuses_of(graph, why, place, word)),
    }
}

/// Whether a reason refuses the name that a line gives.
fn refuses_new(graph: &Graph, why: Why, word: &[u8]) -> bool
    ensures { result ≡ refuses graph.now why NewName word.now }
{
    let faults = see_event(graph, word).faults;
    match why {
        Why::Name => faults.misnamed,
        Why::Twice => !faults.unknown && !faults.misnamed,
        _ => false,
    }
}

/// Whether a reason refuses the name of an event.
fn refuses_event(graph: &Graph, why: Why, word: &[u8]) -> bool
    ensures { result ≡ refuses graph.now why EventName word.now }
{
    refuses_known(why, see_event(graph, word).faults)
}

/// Whether a reason refuses the name of a column of data.
fn refuses_data(graph: &Graph, why: Why, word: &[u8]) -> bool
    ensures { result ≡ refuses graph.now why DataColumn word.now }
{
    refuses_known(why, see_column(graph, true, word).faults)
}

/// Whether a reason is among these, but for numbers and what stands there twice.
fn refuses_known(why: Why, faults: Faults) -> bool
    ensures { result ≡ names_fault why faults }
{
    match why {
        Why::Name => faults.misnamed,
        Why::Unknown => faults.unknown,
        Why::Kind => faults.unlike,
        _ => false,
    }
}

/// Whether a reason refuses a word that the table of kinds asks for.
fn refuses_of(graph: &Graph, why: Why, place: Place, word: &[u8]) -> bool
    ensures { result ≡ refuses graph.now why (as_place place) word.now }
{
    let faults = see(graph, place, word).faults;
    match why {
        Why::Name => faults.misnamed,
        Why::Twice => faults.twice && !faults.misnamed,
        Why::Unknown => faults.unknown,
        Why::Kind => faults.unlike,
        Why::Number => faults.misnumbered,
        Why::Arrivals => matches!(place, Place::Phase),
        _ => false,
    }
}
