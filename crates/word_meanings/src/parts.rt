//! What the words of an operation line stand for in their places, and what refuses them.

ghost use Rattle.basics.specs.Words.{contents};
ghost use Rattle.std.specs.Prelude.{◌≡◌, ◌≤◌, map, length};
ghost use Rattle.graph_terms.specs.Table.{parts_from};
ghost use Rattle.graph_words.specs.Draft.{number_in, words_in};
ghost use Rattle.word_meanings.specs.Telling.{AllTell};

use crate::faults::Faults;
use crate::seen::see;
use graph_model::graph::Graph;
use graph_terms::table::{MOST_PLACES, Parts, Place};
use graph_words::words::word;

/// What words stand for in their places, and what refuses them.
pub fn read_parts(graph: &Graph, places: &[Place], words: &[&[u8]]) -> (Parts, Faults)
    requires few { length places.now ≤ MOST_PLACES }
    requires there { length places.now ≤ length words.now }
    ensures parts { parts_from 0 places.now result.0 ≡ map (number_in graph.now) (words_in places.now (contents words.now)) }
    ensures faults { AllTell graph.now (words_in places.now (contents words.now)) result.1 }
{
    let mut parts = Parts {
        numbers: [0; MOST_PLACES],
        values: [0; MOST_PLACES],
    };
    let mut faults = Faults::default();
    for i in 0..places.len() {
        let seen = see(graph, places[i], word(words, i));
        parts.numbers[i] = seen.number;
        parts.values[i] = seen.value;
        faults = faults.with(seen.faults);
    }
    (parts, faults)
}
