//! What words stand for.

ghost use Rattle.std.specs.Prelude.{◌≡◌, ◌<◌, ℕ, not, List, length, position, IfSome};
ghost use Rattle.std.specs.Str.{bytes_eq};
ghost use Rattle.graph_terms.specs.declared.verb.Line.{Line};
ghost use Rattle.graph_terms.specs.Name.{is_name_in};
ghost use Rattle.graph_terms.specs.Graph.{named_spaces};
ghost use Rattle.graph_terms.specs.Names.{is_column_named};
ghost use Rattle.word_meanings.specs.Lookups.{IsFound, found_space, found_lock, found_barrier, found_line, is_found_inst, is_found_data, column_names, column_place, kept_columns};
ghost use Rattle.graph_words.specs.Words.{pieces};

use crate::checks::name_in;
use graph_model::graph::Graph;
use graph_terms::found::Found;
use graph_terms::name::Name;
use graph_words::cuts::around_dot;

/// What a name stands for in the graph. `None` exactly where no item has it.
pub fn stands_for(graph: &Graph, name: &Name) -> Option<Found>
    ensures { IsFound graph.now name.now result }
{
    let _ = graph.decls();
    graph.find(name)
}

/// A word that was looked up.
#[derive(Clone, Copy)]
pub struct Lookup {
    /// It is not spelled as a name of the graph's format.
    pub misnamed: bool,
    /// What it stands for. `None` exactly where no item has it as its name.
    pub found: Option<Found>,
}

/// What a word stands for in the graph.
pub fn look_up(graph: &Graph, word: &[u8]) -> Lookup
    ensures misnamed { result.misnamed ≡ not (is_name_in graph.now.format word.now) }
    ensures found { IsFound graph.now word.now result.found }
{
    let _ = graph.decls();
    // A name is long: it is looked at where it is made.
    let name = name_in(graph, word);
    match &name {
        Some(name) => Lookup {
            misnamed: false,
            found: graph.find(name),
        },
        None => Lookup {
            misnamed: true,
            found: None,
        },
    }
}

pub(crate) fn as_space(found: Option<Found>) -> Option<u32>
    ensures { result ≡ found_space found }
{
    match found {
        Some(Found::Space(s)) => Some(s),
        _ => None,
    }
}

pub(crate) fn as_lock(found: Option<Found>) -> Option<u32>
    ensures { result ≡ found_lock found }
{
    match found {
        Some(Found::Lock(l)) => Some(l),
        _ => None,
    }
}

pub(crate) fn as_barrier(found: Option<Found>) -> Option<u32>
    ensures { result ≡ found_barrier found }
{
    match found {
        Some(Found::Barrier(b)) => Some(b),
        _ => None,
    }
}

pub(crate) fn as_line(found: Option<Found>) -> Option<u32>
    ensures { result ≡ found_line found }
{
    match found {
        Some(Found::Line(i)) => Some(i),
        _ => None,
    }
}

/// Whether an instance was found.
pub(crate) fn is_inst(found: Option<Found>) -> bool
    ensures { result ≡ is_found_inst found }
{
    matches!(found, Some(Found::Inst(_)))
}

/// Whether data were found.
pub(crate) fn is_data(found: Option<Found>) -> bool
    ensures { result ≡ is_found_data found }
{
    matches!(found, Some(Found::Data(_)))
}

/// The number of the space that a word stands for.
pub fn space(graph: &Graph, word: &[u8]) -> Option<u32>
    ensures { result ≡ position (λ (x : List ℕ × List (ℕ × ℕ)). bytes_eq x.0 word.now) (named_spaces graph.now) }
{
    as_space(look_up(graph, word).found)
}

/// The number of the line that a word stands for.
#[tactic(auto, using(crate::proofs::Owners::position_below))]
pub fn line(graph: &Graph, word: &[u8]) -> Option<u32>
    ensures line { result ≡ position (λ (x : Line). bytes_eq x.name word.now) graph.now.lines }
    ensures below { IfSome result (λ i. i < length graph.now.lines) }
{
    as_line(look_up(graph, word).found)
}

/// The number of the column of an instance that two names stand for, or of the one of data.
pub(crate) fn find_column(graph: &Graph, hosted: bool, owner: &Name, field: &Name) -> Option<u32>
    ensures { result ≡ position (is_column_named owner.now field.now) (kept_columns hosted graph.now) }
{
    if hosted {
        graph.find_data_column(owner, field)
    } else {
        graph.find_column(owner, field)
    }
}

/// The number of the column that a word stands for.
pub(crate) fn column(graph: &Graph, hosted: bool, word: &[u8]) -> Option<u32>
    ensures { result ≡ column_place graph.now hosted (pieces 46 word.now) }
{
    let _ = graph.decls();
    let Some((inst, field)) = around_dot(word) else {
        return None;
    };
    // Names are long: they are looked at where they are made.
    let inst = name_in(graph, inst);
    let Some(inst) = &inst else {
        return None;
    };
    let field = name_in(graph, field);
    let Some(field) = &field else {
        return None;
    };
    find_column(graph, hosted, inst, field)
}

/// The names of the graph's format that a word in the place of a column has, with a dot between them.
#[tactic(auto, unfolding(crate::specs::Lookups::column_names))]
pub(crate) fn column_names(graph: &Graph, word: &[u8]) -> Option<(Name, Name)>
    ensures { result ≡ column_names graph.now.format word.now }
{
    let Some((inst, field)) = around_dot(word) else {
        return None;
    };
    let inst = name_in(graph, inst)?;
    let field = name_in(graph, field)?;
    Some((inst, field))
}
