//! Operation lines but for merges and calls.

ghost use Rattle.basics.specs.Words.{contents};
ghost use Rattle.std.specs.Prelude.{◌≡◌, ◌<◌, ◌≤◌, ◌&&◌, ◌||◌, false, drop, map, length, List, ℕ, [], ◌+◌, slice_index_or, IfOk, OnOk, true};
ghost use Rattle.std.specs.List.{list_any};
ghost use Rattle.std.specs.Str.{bytes_eq};
ghost use Rattle.graph_terms.specs.Fits.{repeats};
ghost use Rattle.graph_terms.specs.Table.{is_column, parts_of};
ghost use Rattle.graph_words.specs.Draft.{form_of, has_room, number_in, on_events, words_in};
ghost use Rattle.graph_reader.specs.Kinds.{kind_placed, form_placed, column_words, kind_draft, kind_on, form_repeats, later_reason, HasPlaces, IsFormFault};
ghost use Rattle.word_meanings.specs.Telling.{AllTell};
ghost use Rattle.word_meanings.specs.Recent.{IsRecent};
ghost use Rattle.graph_reader.specs.Reading.{IsLineRead, IsDone, IsTakable};

use crate::item::{ItemError, offer};
use graph_model::graph::Graph;
use graph_terms::lists::EventList;
use graph_terms::name::Name;
use graph_terms::table::{Kind, Parts, Place};
use graph_terms::verb::{Line, Verb};
use graph_terms::why::Why;
use graph_words::words::{behind, on_events, room_events, word};
use index_spaces::NoMemory;
use std::alloc::Global;
use word_meanings::checks::name_in;
use word_meanings::events::{events_repeat, see_events};
use word_meanings::faults::Faults;
use word_meanings::known::{known_events, known_parts};
use word_meanings::lookup::stands_for;
use word_meanings::parts::read_parts;
use word_meanings::recent::{Recent, forget_columns};

fn is_column(place: Place) -> bool
    ensures { result ≡ is_column place }
{
    matches!(place, Place::Column(..))
}

/// Whether a place is that of a column, and has this word.
fn has_at(place: Place, other: &[u8], word: &[u8]) -> bool
    ensures { result ≡ (is_column place && bytes_eq word.now other.now) }
{
    is_column(place) && word == other
}

/// Whether a word stands in the place of a column.
fn has_column(word: &[u8], places: &[Place], words: &[&[u8]]) -> bool
    ensures { result ≡ list_any (bytes_eq word.now) (column_words (words_in places.now (contents words.now))) }
{
    places
        .iter()
        .zip(words)
        .any(|(place, other)| has_at(*place, other, word))
}

/// Whether the column in the place of this number stands behind it again.
fn stands_again(places: &[Place], words: &[&[u8]], i: usize) -> bool
    requires below { i < length places.now }
    requires there { length places.now ≤ length words.now }
    ensures { result ≡ (is_column (slice_index_or places.now i Place.User)
        && list_any (bytes_eq (slice_index_or (contents words.now) i [])) (column_words (words_in (drop (i + 1) places.now) (drop (i + 1) (contents words.now))))) }
{
    let later = &places[i + 1..];
    is_column(places[i]) && has_column(word(words, i), later, behind(words, i + 1))
}

/// Whether one column stands there twice.
fn columns_repeat(places: &[Place], words: &[&[u8]]) -> bool
    requires { length places.now ≤ length words.now }
    ensures { result ≡ repeats bytes_eq (column_words (words_in places.now (contents words.now))) }
{
    for i in 0..places.len() {
        if stands_again(places, words, i) {
            return true;
        }
    }
    false
}

/// What is to be said of the words of a line of a kind.
#[derive(Drop)]
struct SeenForm {
    /// What they stand for in their places.
    parts: Parts,
    /// The lines behind `on`.
    on: EventList,
    /// What refuses them.
    faults: Faults,
}

/// What is to be said of the words of a line of a kind, behind the fixed ones.
fn see_form(alloc: Global, graph: &Graph, kind: Kind, words: &[&[u8]]) -> Result<SeenForm, NoMemory>
    requires { HasPlaces kind (contents words.now) }
    ensures parts { IfOk result (λ seen. parts_of kind seen.parts ≡ map (number_in graph.now) (kind_placed kind (contents words.now))) }
    ensures on { IfOk result (λ seen. seen.on ≡ kind_on graph.now kind (contents words.now)) }
    ensures faults { IfOk result (λ seen. AllTell graph.now (form_placed graph.now.format kind (contents words.now)) seen.faults) }
{
    let (parts, faults) = read_parts(graph, kind.places(), words);
    let (on, more) = see_events(alloc, graph, on_events(graph.format(), kind, words))?;
    let faults = faults.with(more);
    Ok(SeenForm { parts, on, faults })
}

/// Whether a word names what may be named no more, or one event or one column stands there twice. `several` is `false` only where no event does.
fn is_twice(
    alloc: Global,
    graph: &Graph,
    kind: Kind,
    words: &[&[u8]],
    faults: Faults,
    several: bool,
) -> Result<bool, NoMemory>
    requires there { HasPlaces kind (contents words.now) }
    requires several { several ≡ false → repeats bytes_eq (on_events graph.now.format (form_of kind) (contents words.now)) ≡ false }
    requires faults { AllTell graph.now (form_placed graph.now.format kind (contents words.now)) faults }
    requires named { faults.misnamed ≡ false }
    ensures { IfOk result (λ b. b ≡ (faults.twice || form_repeats graph.now.format kind (contents words.now))) }
{
    if faults.twice || columns_repeat(kind.places(), words) {
        return Ok(true);
    }
    if !several {
        return Ok(false);
    }
    events_repeat(alloc, graph, on_events(graph.format(), kind, words))
}

/// The first reason that refuses a word of a line but for its spelling and what stands there twice.
pub(crate) fn later_fault(faults: Faults) -> Option<Why>
    ensures { result ≡ later_reason faults }
{
    if faults.unknown {
        return Some(Why::Unknown);
    }
    if faults.unlike {
        return Some(Why::Kind);
    }
    if faults.misnumbered {
        return Some(Why::Number);
    }
    None
}

/// The first reason that refuses a word of a line. Where none does, the name may be in use: the graph says so itself.
/// `several` is `false` only where no event stands there twice.
fn form_fault(
    alloc: Global,
    graph: &Graph,
    kind: Kind,
    name: &Name,
    words: &[&[u8]],
    faults: Faults,
    several: bool,
) -> Result<Option<Why>, NoMemory>
    requires there { HasPlaces kind (contents words.now) }
    requires several { several ≡ false → repeats bytes_eq (on_events graph.now.format (form_of kind) (contents words.now)) ≡ false }
    requires faults { AllTell graph.now (form_placed graph.now.format kind (contents words.now)) faults }
    ensures { IfOk result (λ why. IsFormFault graph.now kind name.now (contents words.now) why) }
{
    if faults.misnamed {
        return Ok(Some(Why::Name));
    }
    if is_twice(alloc, graph, kind, words, faults, several)? {
        return Ok(Some(Why::Twice));
    }
    let Some(later) = later_fault(faults) else {
        return Ok(None);
    };
    if stands_for(graph, name).is_some() {
        return Ok(Some(Why::Twice));
    }
    Ok(Some(later))
}

/// The operation line of a kind with this name and these words, of which the graph itself may still say a reason.
fn read_form(
    alloc: Global,
    graph: &Graph,
    kind: Kind,
    name: &[u8],
    words: &[&[u8]],
) -> Result<Line, ItemError>
    requires { HasPlaces kind (contents words.now) }
    ensures { IsLineRead graph.now (kind_draft graph.now kind name.now (contents words.now)) result }
{
    let Some(name) = name_in(graph, name) else {
        return Err(ItemError::Refused(Why::Name));
    };
    let Ok(SeenForm { parts, on, faults }) = see_form(alloc, graph, kind, words) else {
        return Err(ItemError::NoMemory);
    };
    match form_fault(alloc, graph, kind, &name, words, faults, on.len() > 1) {
        Ok(None) => {}
        Ok(Some(why)) => return Err(ItemError::Refused(why)),
        Err(_) => return Err(ItemError::NoMemory),
    }
    Ok(Line {
        name,
        verb: Verb::of(kind, &parts),
        on,
    })
}

/// Puts the line of a kind with this name and these words at the end, where it fits; else the graph stays as it was. Out of
/// line, since a reason refuses the words of few lines.
#[inline(never)]
fn take_refused(
    alloc: Global,
    graph: &mut Graph,
    kind: Kind,
    name: &[u8],
    words: &[&[u8]],
) -> Result<(), ItemError>
    requires there { HasPlaces kind (contents words.now) }
    requires takable { IsTakable graph.old (kind_draft graph.old kind name.now (contents words.now)) }
    ensures { IsDone graph.old (kind_draft graph.old kind name.now (contents words.now)) graph.new result }
{
    let line = read_form(alloc, graph, kind, name, words)?;
    offer(graph, line)
}

/// The same of any line of a kind. What refuses its words is looked for only where a reason refuses one of them.
pub(crate) fn take_form<'a>(
    alloc: Global,
    graph: &mut Graph,
    recent: &mut Recent<'a>,
    kind: Kind,
    name: &[u8],
    words: &[&'a [u8]],
) -> Result<(), ItemError>
    requires recent { IsRecent graph.old recent.old }
    requires there { HasPlaces kind (contents words.now) }
    requires room { has_room graph.old.format (form_of kind) (contents words.now) ≡ true }
    requires takable { IsTakable graph.old (kind_draft graph.old kind name.now (contents words.now)) }
    ensures done { IsDone graph.old (kind_draft graph.old kind name.now (contents words.now)) graph.new result }
    ensures recent { OnOk result (IsRecent graph.new recent.new) }
{
    let Some(new) = name_in(graph, name) else {
        return Err(ItemError::Refused(Why::Name));
    };
    let Some(parts) = known_parts(graph, recent, kind.places(), words) else {
        forget_columns(recent);
        return take_refused(alloc, graph, kind, name, words);
    };
    let events = room_events(graph.format(), kind, words);
    match known_events(alloc, graph, &mut recent.line, events) {
        Ok(Some(on)) => offer(
            graph,
            Line {
                name: new,
                verb: Verb::of(kind, &parts),
                on,
            },
        ),
        Ok(None) => {
            forget_columns(recent);
            take_refused(alloc, graph, kind, name, words)
        }
        Err(_) => Err(ItemError::NoMemory),
    }
}
