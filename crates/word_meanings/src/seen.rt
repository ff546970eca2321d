//! What is to be said of a word in its place, by one look-up.

ghost use Rattle.std.specs.Prelude.{◌≡◌, None, false, ◌<◌, ◌||◌, ◌&&◌, ℕ, List, not, length, is_some, IfSome};
ghost use Rattle.graph_terms.specs.Graph.{GraphValue};
ghost use Rattle.graph_words.specs.Draft.{as_place, EventName, Value, Times, Weight, Shared};
ghost use Rattle.graph_words.specs.Words.{pieces};
ghost use Rattle.word_meanings.specs.Lookups.{found_line, found_number, found_twice, found_alike, is_found_owner, column_place};
ghost use Rattle.word_meanings.specs.Telling.{Tells, NamesThing, place_of_column, lacks_found, no_column_seen, known_column};

use crate::checks::{is_acquire, is_phase, is_user};
use crate::faults::Faults;
use crate::lookup::{
    Lookup, as_barrier, as_line, as_lock, as_space, column, column_names, find_column, is_data,
    is_inst, look_up, stands_for,
};
use graph_model::graph::Graph;
use graph_terms::found::Found;
use graph_terms::table::Place;
use graph_words::cuts::before_dot;
use graph_words::numbers::{value, weight};

/// What is to be said of a word in its place.
#[derive(Clone, Copy)]
pub struct Seen {
    /// What refuses it.
    pub faults: Faults,
    /// The number of what it names, or 0.
    pub number: u32,
    /// The value that it spells, or 0.
    pub value: u64,
}

pub(crate) fn number(place: Place, found: Option<Found>) -> Option<u32>
    ensures { result ≡ found_number place found }
{
    match place {
        Place::User | Place::Phase | Place::Acquire => as_line(found),
        Place::Lock => as_lock(found),
        Place::Barrier => as_barrier(found),
        Place::Space => as_space(found),
        Place::Column(..) | Place::Value | Place::Times | Place::Weight | Place::Shared => None,
    }
}

pub(crate) fn is_twice(graph: &Graph, place: Place, found: Option<Found>) -> bool
    requires { IfSome (found_line found) (λ i. i < length graph.now.lines) }
    ensures { result ≡ found_twice graph.now place found }
{
    let Some(i) = as_line(found) else {
        return false;
    };
    match place {
        Place::User => graph.is_ended(i),
        Place::Acquire => graph.is_released(i),
        _ => false,
    }
}

pub(crate) fn is_alike(graph: &Graph, place: Place, found: Option<Found>) -> bool
    requires { IfSome (found_line found) (λ i. i < length graph.now.lines) }
    ensures { result ≡ found_alike graph.now place found }
{
    let Some(i) = as_line(found) else {
        return number(place, found).is_some();
    };
    match place {
        Place::User => is_user(&graph.line(i).verb),
        Place::Phase => is_phase(&graph.line(i).verb),
        Place::Acquire => is_acquire(&graph.line(i).verb),
        _ => number(place, found).is_some(),
    }
}

/// What is to be said of the name of one thing.
fn see_name(graph: &Graph, place: Place, word: &[u8]) -> Seen
    requires { NamesThing place }
    ensures { Tells graph.now (as_place place) word.now result }
{
    let Lookup { misnamed, found } = look_up(graph, word);
    Seen {
        faults: Faults {
            misnamed,
            twice: is_twice(graph, place, found),
            unknown: found.is_none(),
            unlike: !is_alike(graph, place, found),
            misnumbered: false,
        },
        number: number(place, found).unwrap_or(0),
        value: 0,
    }
}

/// What is to be said of the name of an event.
pub fn see_event(graph: &Graph, word: &[u8]) -> Seen
    ensures { Tells graph.now EventName word.now result }
{
    let Lookup { misnamed, found } = look_up(graph, word);
    let line = as_line(found);
    Seen {
        faults: Faults {
            misnamed,
            twice: false,
            unknown: found.is_none(),
            unlike: line.is_none(),
            misnumbered: false,
        },
        number: line.unwrap_or(0),
        value: 0,
    }
}

/// Whether what was found has columns: data where the host keeps their memory, else an instance.
fn is_owner(hosted: bool, found: Option<Found>) -> bool
    ensures { result ≡ is_found_owner hosted found }
{
    if hosted {
        is_data(found)
    } else {
        is_inst(found)
    }
}

/// What is to be said of a column that there is.
fn known_column(column: u32) -> Seen
    ensures { result ≡ known_column column }
{
    Seen {
        faults: misnumbered(false),
        number: column,
        value: 0,
    }
}

/// Whether an instance or data without this field was found, where there is no such column of the one
/// kind, and `other` tells whether there is one of the other.
fn lacks_field(hosted: bool, found: Option<Found>, other: bool) -> bool
    ensures { result ≡ lacks_found hosted found other }
{
    (is_inst(found) && (!hosted || !other)) || (is_data(found) && (hosted || !other))
}

/// What is to be said of a column that there is not, by what was found under the name before the dot.
fn no_column_seen(hosted: bool, misnamed: bool, found: Option<Found>, other: bool) -> Seen
    ensures { result ≡ no_column_seen hosted misnamed found other }
{
    Seen {
        faults: Faults {
            misnamed,
            unknown: found.is_none() || lacks_field(hosted, found, other),
            unlike: !is_owner(hosted, found),
            ..Faults::default()
        },
        number: 0,
        value: 0,
    }
}

/// What is to be said of the name of no column.
fn see_no_column(graph: &Graph, hosted: bool, word: &[u8]) -> Seen
    requires { column_place graph.now hosted (pieces 46 word.now) ≡ None }
    ensures { Tells graph.now (place_of_column hosted) word.now result }
{
    let _ = graph.decls();
    match column_names(graph, word) {
        Some((owner, field)) => {
            let found = stands_for(graph, &owner);
            let other = find_column(graph, !hosted, &owner, &field).is_some();
            no_column_seen(hosted, false, found, other)
        }
        None => no_column_seen(hosted, true, look_up(graph, before_dot(word)).found, false),
    }
}

/// What is to be said of the name of a column, of an instance or of data. Where there is one, its
/// owner is not looked up again.
pub fn see_column(graph: &Graph, hosted: bool, word: &[u8]) -> Seen
    ensures { Tells graph.now (place_of_column hosted) word.now result }
{
    let _ = graph.decls();
    match column(graph, hosted, word) {
        Some(column) => known_column(column),
        None => see_no_column(graph, hosted, word),
    }
}

/// Whether a word that names nothing is not the number that its place asks for.
fn misnumbered(misnumbered: bool) -> Faults
    ensures { result ≡ record { misnamed = false; twice = false; unknown = false; unlike = false; misnumbered = misnumbered } }
{
    Faults {
        misnumbered,
        ..Faults::default()
    }
}

/// What is to be said of a value.
fn see_value(word: &[u8]) -> Seen
    ensures { (g : GraphValue) → Tells g Value word.now result }
{
    let value = value(word);
    Seen {
        faults: misnumbered(value.is_none()),
        number: 0,
        value: value.unwrap_or(0),
    }
}

/// What is to be said of a word that a line has to have there to be of its form.
fn see_fixed() -> Seen
    ensures times { (g : GraphValue) (w : List ℕ) → Tells g Times w result }
    ensures shared { (g : GraphValue) (w : List ℕ) → Tells g Shared w result }
{
    Seen {
        faults: misnumbered(false),
        number: 0,
        value: 0,
    }
}

/// What is to be said of how many arrivals one counts for.
fn see_weight(graph: &Graph, word: &[u8]) -> Seen
    ensures { Tells graph.now Weight word.now result }
{
    let weight = weight(graph.format(), word);
    Seen {
        faults: misnumbered(weight.is_none()),
        number: weight.unwrap_or(0),
        value: 0,
    }
}

/// What is to be said of a word in its place.
pub fn see(graph: &Graph, place: Place, word: &[u8]) -> Seen
    ensures { Tells graph.now (as_place place) word.now result }
{
    match place {
        Place::User | Place::Phase | Place::Acquire | Place::Lock | Place::Barrier | Place::Space =>
            see_name(graph, place, word),
        Place::Column(..) => see_column(graph, false, word),
        Place::Value => see_value(word),
        Place::Times => see_fixed(),
        Place::Shared => see_fixed(),
        Place::Weight => see_weight(graph, word),
    }
}
