//! The line that has ended an event already, or released an acquire.

ghost use Rattle.basics.specs.Words.{contents};
ghost use Rattle.std.specs.Prelude.{◌≡◌};
ghost use Rattle.graph_words.specs.Draft.{as_place};
ghost use Rattle.refused_words.specs.Ends.{ends, IsFirstEnding, IsEndedBy};

use crate::places::{WordPlace, place_at};
use graph_model::graph::Graph;
use graph_terms::table::Place;
use graph_terms::verb::Verb;
use graph_words::words::word;
use word_meanings::seen::see;

/// The topmost line that ends the user event, or releases the acquire, which the word of number `k`
/// names in a place where a line would do so again. `None` exactly where none does.
pub fn ended_by(graph: &Graph, words: &[&[u8]], k: usize) -> Option<u32>
    ensures { IsEndedBy graph.now (contents words.now) k result }
{
    let Some(WordPlace::Of(place)) = place_at(graph.format(), words, k) else {
        return None;
    };
    let seen = see(graph, place, word(words, k));
    if !seen.faults.twice {
        return None;
    }
    first_ending(graph, place, seen.number)
}

/// The topmost line that ends or releases the line of this number, as a word in this place would.
fn first_ending(graph: &Graph, place: Place, number: u32) -> Option<u32>
    ensures { IsFirstEnding graph.now (as_place place) number result }
{
    for i in 0..graph.lines() {
        if ends(place, number, &graph.line(i).verb) {
            return Some(i);
        }
    }
    None
}

/// Whether a line with this verb ends or releases the line of this number, as a word in this place
/// would.
fn ends(place: Place, number: u32, verb: &Verb) -> bool
    ensures { result ≡ ends (as_place place) number verb.now }
{
    match (place, verb) {
        (Place::User, Verb::Trigger { user } | Verb::Cancel { user }) => *user == number,
        (Place::Acquire, Verb::Release { acquire }) => *acquire == number,
        _ => false,
    }
}
