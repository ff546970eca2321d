//! Lines of declarations.

ghost use Rattle.std.specs.Prelude.{◌≡◌, true, false, [], MatchResult, IsTrue};
ghost use Rattle.std.specs.List.{list_all};
ghost use Rattle.graph_terms.specs.Fits.{is_used};
ghost use Rattle.graph_terms.specs.Name.{is_name_in};
ghost use Rattle.graph_words.specs.Draft.{space_with, columns_decl, columns_with, lock_with, barrier_with};
ghost use Rattle.graph_reader.specs.Reading.{IsDone, IsDoneBy, space_error, space_reason, twice_or, columns_reason, spelled_columns, columns_lack, AreFields, AreNoFields};

use crate::item::{ItemError, offer_decl};
use graph_model::graph::Graph;
use graph_terms::decl::Decl;
use graph_terms::limits::Limits;
use graph_terms::lists::{ItemList, NameList};
use graph_terms::name::Name;
use graph_terms::why::Why;
use graph_words::intervals::{intervals, one_interval};
use graph_words::names::has_repeat;
use graph_words::numbers::{count, value};
use graph_words::words::split;
use index_spaces::Op;
use index_spaces::space::{Space, SpaceFault};
use std::alloc::Global;
use word_meanings::checks::{is_name, name_in, names_in};
use word_meanings::lookup::{look_up, space, stands_for};

/// What refuses a declaration with this name where a reason does: it comes behind that the name is in use.
fn twice_or(graph: &Graph, name: &Name, why: Why) -> ItemError
    ensures { result ≡ ItemError.Refused (twice_or (is_used graph.now name.now) why) }
{
    if stands_for(graph, name).is_some() {
        ItemError::Refused(Why::Twice)
    } else {
        ItemError::Refused(why)
    }
}

/// Puts the declaration of a reservation at the end, where it fits; else the graph stays as it was.
pub(crate) fn take_lock(graph: &mut Graph, name: &[u8]) -> Result<(), ItemError>
    requires { graph.old.lines ≡ [] }
    ensures { IsDone graph.old (lock_with name.now) graph.new result }
{
    let Some(name) = name_in(graph, name) else {
        return Err(ItemError::Refused(Why::Name));
    };
    offer_decl(graph, Decl::Lock { name })
}

/// Puts the declaration of a barrier at the end, where it fits; else the graph stays as it was.
pub(crate) fn take_barrier(
    graph: &mut Graph,
    name: &[u8],
    arrivals: &[u8],
    op: Op,
    first: &[u8],
) -> Result<(), ItemError>
    requires { graph.old.lines ≡ [] }
    ensures { IsDone graph.old (barrier_with graph.old.format name.now arrivals.now op first.now) graph.new result }
{
    let Some(new) = name_in(graph, name) else {
        return Err(ItemError::Refused(Why::Name));
    };
    let Some(count) = count(graph.format(), arrivals) else {
        return Err(twice_or(graph, &new, Why::Number));
    };
    let Some(first) = value(first) else {
        return Err(twice_or(graph, &new, Why::Number));
    };
    offer_decl(
        graph,
        Decl::Barrier {
            name: new,
            count,
            op,
            first,
        },
    )
}

/// What a fault of a space with this name is for the line that declares it.
fn space_error(graph: &Graph, name: &Name, fault: SpaceFault) -> ItemError
    ensures { result ≡ space_error (is_used graph.now name.now) fault }
{
    match fault {
        SpaceFault::Empty => twice_or(graph, name, Why::Space),
        SpaceFault::Reversed(_) => twice_or(graph, name, Why::Space),
        SpaceFault::Order(_) => twice_or(graph, name, Why::Space),
        SpaceFault::Many => twice_or(graph, name, Why::Limit),
        SpaceFault::Large => twice_or(graph, name, Why::Limit),
        SpaceFault::NoMemory => ItemError::NoMemory,
    }
}

/// Puts the declaration of a space with these intervals at the end, where it fits; else the graph stays as it was.
fn take_intervals(
    alloc: Global,
    graph: &mut Graph,
    name: Name,
    pairs: &[(u32, u32)],
) -> Result<(), ItemError>
    requires first { graph.old.lines ≡ [] }
    requires named { is_name_in graph.old.format name ≡ true }
    requires some { pairs.now ≡ [] → ⊥ }
    ensures { IsDoneBy graph.old (space_reason graph.old name pairs.now) (Decl.Space name pairs.now) graph.new result }
{
    // A space numbers its intervals by 32 bits.
    if pairs.len() > 4294967295 {
        return Err(ItemError::NoMemory);
    }
    match Space::within(alloc, Limits::of(graph.format()).space, pairs) {
        Ok(space) => offer_decl(graph, Decl::Space { name, space }),
        Err(fault) => Err(space_error(graph, &name, fault)),
    }
}

/// The same with the intervals that a word spells. Out of line, since most spaces have one.
#[inline(never)]
fn take_spelled(alloc: Global, graph: &mut Graph, name: Name, word: &[u8]) -> Result<(), ItemError>
    requires first { graph.old.lines ≡ [] }
    requires named { is_name_in graph.old.format name ≡ true }
    ensures { IsDone graph.old (space_with name word.now) graph.new result }
{
    match intervals(alloc, word) {
        Ok(Some(pairs)) => take_intervals(alloc, graph, name, &pairs),
        Ok(None) => Err(twice_or(graph, &name, Why::Number)),
        Err(_) => Err(ItemError::NoMemory),
    }
}

/// Puts the declaration of a space at the end, where it fits; else the graph stays as it was.
pub(crate) fn take_space(
    alloc: Global,
    graph: &mut Graph,
    name: &[u8],
    word: &[u8],
) -> Result<(), ItemError>
    requires { graph.old.lines ≡ [] }
    ensures { IsDone graph.old (space_with name.now word.now) graph.new result }
{
    let Some(new) = name_in(graph, name) else {
        return Err(ItemError::Refused(Why::Name));
    };
    match one_interval(word) {
        Some(pair) => take_intervals(alloc, graph, new, &[pair]),
        None => take_spelled(alloc, graph, new, word),
    }
}

/// The fields that a word spells, with a comma between each two.
fn read_fields(alloc: Global, graph: &Graph, word: &[u8]) -> Result<Vec<Name>, ItemError>
    ensures { MatchResult result (λ v. AreFields graph.now.format word.now v.items) (AreNoFields graph.now.format word.now) }
{
    let Ok(words) = split(alloc, word, b',') else {
        return Err(ItemError::NoMemory);
    };
    match names_in(alloc, graph, &words) {
        Ok(Some(names)) => Ok(names),
        Ok(None) => Err(ItemError::Refused(Why::Name)),
        Err(_) => Err(ItemError::NoMemory),
    }
}

/// The declaration of an instance with these fields, or of data.
fn columns_decl(hosted: bool, name: Name, space: u32, fields: NameList) -> Decl
    ensures { result ≡ columns_decl hosted name space fields }
{
    if hosted {
        Decl::Data {
            name,
            space,
            fields,
        }
    } else {
        Decl::Inst {
            name,
            space,
            fields,
        }
    }
}

/// Puts the declaration of an instance with these fields, or of data where the host keeps their memory, at the end, where it
/// fits; else the graph stays as it was.
fn take_named(
    alloc: Global,
    graph: &mut Graph,
    hosted: bool,
    name: Name,
    space_word: &[u8],
    fields: Vec<Name>,
) -> Result<(), ItemError>
    requires first { graph.old.lines ≡ [] }
    requires named { is_name_in graph.old.format name ≡ true }
    requires fields { list_all (is_name_in graph.old.format) fields.items ≡ true }
    requires there { columns_lack graph.old.format hosted ≡ false }
    requires new { is_used graph.old name ≡ false }
    requires some { fields.items ≡ [] → ⊥ }
    ensures { IsDoneBy graph.old (columns_reason graph.old hosted name space_word.now fields.items)
        (spelled_columns graph.old hosted name space_word.now fields.items) graph.new result }
{
    match has_repeat(alloc, &fields) {
        Ok(false) => {}
        Ok(true) => return Err(ItemError::Refused(Why::Twice)),
        Err(_) => return Err(ItemError::NoMemory),
    }
    if look_up(graph, space_word).found.is_none() {
        return Err(ItemError::Refused(Why::Unknown));
    }
    let Some(space) = space(graph, space_word) else {
        return Err(ItemError::Refused(Why::Kind));
    };
    // More columns than a graph may have: no need to compare the fields again.
    if fields.len() as u64 > Limits::of(graph.format()).columns {
        return Err(ItemError::Refused(Why::Limit));
    }
    let fields = ItemList { items: fields };
    offer_decl(graph, columns_decl(hosted, name, space, fields))
}

/// Puts the declaration of an instance, or of data where the host keeps their memory, at the end, where it fits; else the
/// graph stays as it was.
pub(crate) fn take_columns(
    alloc: Global,
    graph: &mut Graph,
    hosted: bool,
    name: &[u8],
    space_word: &[u8],
    word: &[u8],
) -> Result<(), ItemError>
    requires first { graph.old.lines ≡ [] }
    requires there { columns_lack graph.old.format hosted ≡ false }
    ensures { IsDone graph.old (columns_with graph.old hosted name.now space_word.now word.now) graph.new result }
{
    let Some(new) = name_in(graph, name) else {
        return Err(ItemError::Refused(Why::Name));
    };
    if !is_name(graph, space_word) {
        return Err(ItemError::Refused(Why::Name));
    }
    let fields = read_fields(alloc, graph, word)?;
    if stands_for(graph, &new).is_some() {
        return Err(ItemError::Refused(Why::Twice));
    }
    take_named(alloc, graph, hosted, new, space_word, fields)
}
