//! Events behind `on`.

ghost use Rattle.basics.specs.Words.{contents};
ghost use Rattle.std.specs.Prelude.{◌≡◌, map, true, IfOk};
ghost use Rattle.std.specs.List.{list_any, list_all};
ghost use Rattle.std.specs.Str.{bytes_eq};
ghost use Rattle.graph_terms.specs.Name.{is_name_in};
ghost use Rattle.graph_terms.specs.Fits.{repeats};
ghost use Rattle.graph_words.specs.Draft.{line_number, events_placed};
ghost use Rattle.word_meanings.specs.Telling.{AllTell};

use crate::checks::names_repeat;
use crate::faults::Faults;
use crate::seen::see_event;
use graph_model::graph::Graph;
use graph_terms::limits::MAX_EVENTS;
use graph_terms::lists::EventList;
use graph_words::words::{behind, word};
use index_spaces::NoMemory;
use std::alloc::Global;

/// The lines that the words of events name, 0 for a word that names none, and what refuses the words.
pub fn see_events(
    alloc: Global,
    graph: &Graph,
    words: &[&[u8]],
) -> Result<(EventList, Faults), NoMemory>
    ensures lines { IfOk result (λ seen. seen.0 ≡ map (line_number graph.now) (contents words.now)) }
    ensures faults { IfOk result (λ seen. AllTell graph.now (events_placed (contents words.now)) seen.1) }
{
    // More words than a list of events holds.
    if words.len() > 4294967295 {
        return Err(NoMemory);
    }
    let mut lines = EventList::new(alloc);
    let mut faults = Faults::default();
    for word in words {
        let seen = see_event(graph, word);
        lines.push(seen.number)?;
        faults = faults.with(seen.faults);
    }
    Ok((lines, faults))
}

/// Whether a word stands among others.
fn is_among(word: &[u8], words: &[&[u8]]) -> bool
    ensures { result ≡ list_any (bytes_eq word.now) (contents words.now) }
{
    words.iter().any(|other| word == *other)
}

/// Whether a word stands there twice, which compares them pair by pair.
fn words_repeat(words: &[&[u8]]) -> bool
    ensures { result ≡ repeats bytes_eq (contents words.now) }
{
    for i in 0..words.len() {
        if is_among(word(words, i), behind(words, i + 1)) {
            return true;
        }
    }
    false
}

/// Whether one event stands there twice, where each word is spelled as a name.
pub fn events_repeat(alloc: Global, graph: &Graph, words: &[&[u8]]) -> Result<bool, NoMemory>
    requires { list_all (is_name_in graph.now.format) (contents words.now) ≡ true }
    ensures { IfOk result (λ b. b ≡ repeats bytes_eq (contents words.now)) }
{
    if words.len() <= MAX_EVENTS as usize {
        return Ok(words_repeat(words));
    }
    names_repeat(alloc, graph, words)
}
