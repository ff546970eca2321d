//! Tests of one word, and of the verb of a line.

ghost use Rattle.basics.specs.Words.{contents};
ghost use Rattle.std.specs.Prelude.{◌≡◌, ◌&&◌, map, false, true, IfOk, IsTrue, MatchOption};
ghost use Rattle.std.specs.List.{list_all};
ghost use Rattle.std.specs.Str.{bytes_eq};
ghost use Rattle.graph_terms.specs.Fits.{repeats};
ghost use Rattle.graph_terms.specs.Name.{is_name_in};
ghost use Rattle.graph_terms.specs.Graph.{is_user, is_phase, is_acquire};

use graph_model::graph::Graph;
use graph_terms::name::Name;
use graph_terms::verb::Verb;
use graph_words::names::{has_repeat, names_of};
use index_spaces::NoMemory;
use std::alloc::Global;

/// The word as a name of the graph's format. `None` exactly where it is spelled otherwise.
pub fn name_in(graph: &Graph, word: &[u8]) -> Option<Name>
    ensures { MatchOption result (is_name_in graph.now.format word.now ≡ false)
        (λ name. (name ≡ word.now) × IsTrue (is_name_in graph.now.format word.now)) }
{
    Name::in_format(graph.format(), word)
}

/// Whether a word is spelled as a name of the graph's format.
pub fn is_name(graph: &Graph, word: &[u8]) -> bool
    ensures { result ≡ is_name_in graph.now.format word.now }
{
    name_in(graph, word).is_some()
}

/// The words as names of the graph's format. `None` exactly where one of them is spelled otherwise.
pub fn names_in(
    alloc: Global,
    graph: &Graph,
    words: &[&[u8]],
) -> Result<Option<Vec<Name>>, NoMemory>
    ensures { IfOk result (λ o. MatchOption o (list_all (is_name_in graph.now.format) (contents words.now) ≡ false)
        (λ v. (v.items ≡ contents words.now) × (list_all (is_name_in graph.now.format) (contents words.now) ≡ true))) }
{
    names_of(alloc, graph.format(), words)
}

/// Whether each word is spelled as a name of the graph's format, and one stands there twice.
pub fn names_repeat(alloc: Global, graph: &Graph, words: &[&[u8]]) -> Result<bool, NoMemory>
    ensures { IfOk result (λ b. b ≡ (list_all (is_name_in graph.now.format) (contents words.now) && repeats bytes_eq (contents words.now))) }
{
    match names_in(alloc, graph, words)? {
        Some(names) => has_repeat(alloc, &names),
        None => Ok(false),
    }
}

pub(crate) fn is_user(verb: &Verb) -> bool
    ensures { result ≡ is_user verb.now }
{
    matches!(verb, Verb::User)
}

pub(crate) fn is_phase(verb: &Verb) -> bool
    ensures { result ≡ is_phase verb.now }
{
    matches!(verb, Verb::Phase { .. })
}

pub(crate) fn is_acquire(verb: &Verb) -> bool
    ensures { result ≡ is_acquire verb.now }
{
    matches!(verb, Verb::Acquire { .. })
}
