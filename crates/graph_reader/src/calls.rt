//! Lines of calls.

ghost use Rattle.basics.specs.Words.{contents};
ghost use Rattle.std.specs.Prelude.{◌≡◌, ◌≤◌, length, map, true, false, drop, ◌||◌, IfOk, MatchResult, unwrap_or, ◌∷◌, []};
ghost use Rattle.std.specs.List.{list_all};
ghost use Rattle.std.specs.Str.{bytes_eq};
ghost use Rattle.graph_terms.specs.Name.{is_name_in};
ghost use Rattle.graph_terms.specs.Fits.{repeats, is_used};
ghost use Rattle.graph_words.specs.Words.{value_of};
ghost use Rattle.graph_words.specs.Calls.{access_words, in_parts};
ghost use Rattle.graph_words.specs.Draft.{line_number, access_spelled, values_placed, accesses_placed, call_with, call_draft};
ghost use Rattle.word_meanings.specs.Telling.{AllTell};
ghost use Rattle.graph_reader.specs.Calls.{word_placed, call_placed, IsSeenFault};
ghost use Rattle.graph_reader.specs.Reading.{IsLineOf, IsLineRead};

use crate::forms::later_fault;
use crate::item::ItemError;
use graph_model::graph::Graph;
use graph_terms::call::{Call, CallParts};
use graph_terms::format::Format;
use graph_terms::lists::{AccessList, EventList, NumberList};
use graph_terms::name::Name;
use graph_terms::table::Place;
use graph_terms::verb::{Access, Line, Mode, Verb};
use graph_terms::why::Why;
use graph_words::calls::{CallWords, call_words, mode_of};
use graph_words::words::behind;
use index_spaces::NoMemory;
use std::alloc::Global;
use word_meanings::checks::{is_name, name_in};
use word_meanings::events::{events_repeat, see_events};
use word_meanings::faults::Faults;
use word_meanings::lookup::stands_for;
use word_meanings::seen::{see, see_column};

/// What is to be said of the words of a call.
#[derive(Drop)]
struct SeenCall {
    /// The values that they spell.
    values: NumberList,
    /// The accesses that they stand for.
    accesses: AccessList,
    /// The lines behind `on`.
    on: EventList,
    /// What refuses them.
    faults: Faults,
}

/// What refuses a word that is to be spelled as a name.
fn see_spelling(graph: &Graph, word: &[u8]) -> Faults
    ensures { AllTell graph.now (word_placed word.now) result }
{
    Faults {
        misnamed: !is_name(graph, word),
        ..Faults::default()
    }
}

/// The values that words spell, 0 for a word that spells none, and what refuses the words.
fn see_values(
    alloc: Global,
    graph: &Graph,
    words: &[&[u8]],
) -> Result<(NumberList, Faults), NoMemory>
    ensures values { IfOk result (λ seen. seen.0 ≡ map (λ w. unwrap_or (value_of w) 0) (contents words.now)) }
    ensures faults { IfOk result (λ seen. AllTell graph.now (values_placed (contents words.now)) seen.1) }
{
    // More words than a list of values holds.
    if words.len() > 4294967295 {
        return Err(NoMemory);
    }
    let mut values = NumberList::new(alloc);
    let mut faults = Faults::default();
    for word in words {
        let seen = see(graph, Place::Value, word);
        values.push(seen.value)?;
        faults = faults.with(seen.faults);
    }
    Ok((values, faults))
}

/// The access that words stand for, 0 for a word that stands for nothing, and what refuses the words.
fn see_access(graph: &Graph, mode: Mode, column: &[u8], space: &[u8]) -> (Access, Faults)
    ensures access { result.0 ≡ access_spelled graph.now (record { mode = mode; column = column.now; space = space.now }) }
    ensures faults { AllTell graph.now (accesses_placed (record { mode = mode; column = column.now; space = space.now } ∷ [])) result.1 }
{
    let column = see_column(graph, true, column);
    let space = see(graph, Place::Space, space);
    (
        Access {
            column: column.number,
            space: space.number,
            mode,
        },
        column.faults.with(space.faults),
    )
}

/// The accesses that words begin with, and what refuses the words.
fn see_accesses(
    alloc: Global,
    graph: &Graph,
    words: &[&[u8]],
) -> Result<(AccessList, Faults), NoMemory>
    ensures accesses { IfOk result (λ seen. seen.0 ≡ map (access_spelled graph.now) (access_words (contents words.now))) }
    ensures faults { IfOk result (λ seen. AllTell graph.now (accesses_placed (access_words (contents words.now))) seen.1) }
{
    // More words than a list of accesses may need.
    if words.len() > 4294967295 {
        return Err(NoMemory);
    }
    let mut accesses = AccessList::new(alloc);
    let mut faults = Faults::default();
    let mut rest = words;
    while let [mode, column, space, others @ ..] = rest {
        let Some(mode) = mode_of(mode) else {
            return Ok((accesses, faults));
        };
        let (access, more) = see_access(graph, mode, column, space);
        accesses.push(access)?;
        faults = faults.with(more);
        rest = others;
    }
    Ok((accesses, faults))
}

/// What is to be said of the words of a call.
fn see_call(alloc: Global, graph: &Graph, words: &CallWords) -> Result<SeenCall, NoMemory>
    ensures values { IfOk result (λ seen. seen.values ≡ map (λ w. unwrap_or (value_of w) 0) (contents words.now.values.now)) }
    ensures accesses { IfOk result (λ seen. seen.accesses ≡ map (access_spelled graph.now) (access_words (contents words.now.accesses.now))) }
    ensures on { IfOk result (λ seen. seen.on ≡ map (line_number graph.now) (contents words.now.events.now)) }
    ensures faults { IfOk result (λ seen. AllTell graph.now (call_placed (in_parts words.now)) seen.faults) }
{
    let spelling = see_spelling(graph, words.word);
    let (values, of_values) = see_values(alloc, graph, words.values)?;
    let (accesses, of_accesses) = see_accesses(alloc, graph, words.accesses)?;
    let (on, of_events) = see_events(alloc, graph, words.events)?;
    let behind = of_values.with(of_accesses.with(of_events));
    Ok(SeenCall {
        values,
        accesses,
        on,
        faults: spelling.with(behind),
    })
}

/// Whether a word names what may be named no more, or one event stands there twice.
fn is_twice(
    alloc: Global,
    graph: &Graph,
    events: &[&[u8]],
    faults: Faults,
) -> Result<bool, NoMemory>
    requires { list_all (is_name_in graph.now.format) (contents events.now) ≡ true }
    ensures { IfOk result (λ b. b ≡ (faults.twice || repeats bytes_eq (contents events.now))) }
{
    if faults.twice {
        return Ok(true);
    }
    events_repeat(alloc, graph, events)
}

/// The first reason that refuses a word of a call. Where none does, the name may be in use: the graph
/// says so itself.
fn call_fault(
    alloc: Global,
    graph: &Graph,
    name: &Name,
    events: &[&[u8]],
    faults: Faults,
) -> Result<Option<Why>, NoMemory>
    requires { faults.misnamed ≡ false → list_all (is_name_in graph.now.format) (contents events.now) ≡ true }
    ensures { IfOk result (λ why. IsSeenFault (is_used graph.now name.now) faults (repeats bytes_eq (contents events.now)) why) }
{
    if faults.misnamed {
        return Ok(Some(Why::Name));
    }
    if is_twice(alloc, graph, events, faults)? {
        return Ok(Some(Why::Twice));
    }
    let Some(later) = later_fault(faults) else {
        return Ok(None);
    };
    if stands_for(graph, name).is_some() {
        return Ok(Some(Why::Twice));
    }
    Ok(Some(later))
}

/// The line of a call of these parts.
fn line_of_call(
    alloc: Global,
    name: Name,
    parts: CallParts,
    on: EventList,
) -> Result<Line, ItemError>
    ensures { MatchResult result (λ line. line ≡ record { name = name; verb = Verb.Call parts; on = on }) (λ e. e ≡ ItemError.NoMemory) }
{
    match Call::new(alloc, parts) {
        Ok(call) => Ok(Line {
            name,
            verb: Verb::Call { call },
            on,
        }),
        Err(_) => Err(ItemError::NoMemory),
    }
}

/// The line of a call with this name and these words, of which the graph itself may still say a
/// reason.
fn read_call(
    alloc: Global,
    graph: &Graph,
    name: &[u8],
    words: &CallWords,
) -> Result<Line, ItemError>
    ensures { IsLineRead graph.now (call_with graph.now name.now (in_parts words.now)) result }
{
    let Some(name) = name_in(graph, name) else {
        return Err(ItemError::Refused(Why::Name));
    };
    let Some(word) = name_in(graph, words.word) else {
        return Err(ItemError::Refused(Why::Name));
    };
    let Ok(
        SeenCall {
            values,
            accesses,
            on,
            faults,
        },
    ) = see_call(alloc, graph, words)
    else {
        return Err(ItemError::NoMemory);
    };
    match call_fault(alloc, graph, &name, words.events, faults) {
        Ok(None) => line_of_call(
            alloc,
            name,
            CallParts {
                word,
                values,
                accesses,
            },
            on,
        ),
        Ok(Some(why)) => Err(ItemError::Refused(why)),
        Err(_) => Err(ItemError::NoMemory),
    }
}

/// The call that words spell, of which the first says so.
#[inline(never)]
pub(crate) fn call_line(
    alloc: Global,
    graph: &Graph,
    name: &[u8],
    words: &[&[u8]],
) -> Result<Line, ItemError>
    requires { 1 ≤ length words.now }
    ensures { IsLineOf graph.now (call_draft graph.now name.now (drop 1 (contents words.now))) result }
{
    if !graph.format().has_since(Format::Three) {
        return Err(ItemError::Refused(Why::Syntax));
    }
    match call_words(behind(words, 1)) {
        Some(words) => read_call(alloc, graph, name, &words),
        None => Err(ItemError::Refused(Why::Syntax)),
    }
}
