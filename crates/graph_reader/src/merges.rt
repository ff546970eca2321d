//! Lines of merges.

ghost use Rattle.basics.specs.Words.{contents};
ghost use Rattle.std.specs.Prelude.{◌≡◌, map, not, false, true, IfOk, MatchOption, Some, []};
ghost use Rattle.std.specs.List.{list_any};
ghost use Rattle.std.specs.Str.{bytes_eq};
ghost use Rattle.graph_terms.specs.Fits.{repeats, is_used};
ghost use Rattle.graph_terms.specs.Name.{is_name_in};
ghost use Rattle.graph_words.specs.Draft.{line_number, merge_with};
ghost use Rattle.graph_reader.specs.Merges.{merge_verb, merge_reason, all_lines, IsMergeError};
ghost use Rattle.graph_reader.specs.Reading.{IsDone, IsTakable};

use crate::item::{ItemError, offer};
use graph_model::graph::Graph;
use graph_terms::limits::MAX_EVENTS;
use graph_terms::lists::{EventList, LineList};
use graph_terms::name::Name;
use graph_terms::verb::{Line, Verb};
use graph_terms::why::Why;
use graph_words::names::has_repeat;
use index_spaces::NoMemory;
use index_spaces::room::{push_within, with_room};
use std::alloc::Global;
use word_meanings::checks::{name_in, names_in, names_repeat};
use word_meanings::lookup::{look_up, stands_for};
use word_meanings::recent::recent_line;

/// Whether a word names no item.
fn any_unknown(graph: &Graph, words: &[&[u8]]) -> bool
    ensures { result ≡ list_any (λ w. not (is_used graph.now w)) (contents words.now) }
{
    words
        .iter()
        .any(|word| look_up(graph, word).found.is_none())
}

/// The numbers of the lines that words name, by the number of the line that was last found. `None` exactly where one of
/// them names no line. All its room is asked for at once.
fn lines_of(
    alloc: Global,
    graph: &Graph,
    last: &mut u32,
    words: &[&[u8]],
) -> Result<Option<Vec<u32>>, NoMemory>
    ensures { IfOk result (λ o. MatchOption o (all_lines graph.now (contents words.now) ≡ false)
        (λ v. (v.items ≡ map (line_number graph.now) (contents words.now)) × (all_lines graph.now (contents words.now) ≡ true))) }
{
    let mut numbers = with_room(alloc, words.len())?;
    for word in words {
        let Some(number) = recent_line(graph, last, word) else {
            return Ok(None);
        };
        push_within(&mut numbers, number);
    }
    Ok(Some(numbers))
}

/// The first reason that refuses the words of a merge, of which one names no line.
#[tactic(auto, unfolding(crate::specs::Merges::merge_reason))]
fn merge_fault(alloc: Global, graph: &Graph, name: &Name, words: &[&[u8]]) -> Result<Why, NoMemory>
    requires { all_lines graph.now (contents words.now) ≡ false }
    ensures { IfOk result (λ why. merge_reason graph.now name.now (contents words.now) ≡ Some why) }
{
    let Some(names) = names_in(alloc, graph, words)? else {
        return Ok(Why::Name);
    };
    let repeated = has_repeat(alloc, &names)?;
    if repeated || stands_for(graph, name).is_some() {
        return Ok(Why::Twice);
    }
    if any_unknown(graph, words) {
        return Ok(Why::Unknown);
    }
    Ok(Why::Kind)
}

/// What refuses the words of a merge, of which one names no line.
fn merge_error(alloc: Global, graph: &Graph, name: &Name, words: &[&[u8]]) -> ItemError
    requires { all_lines graph.now (contents words.now) ≡ false }
    ensures { IsMergeError graph.now name.now (contents words.now) result }
{
    match merge_fault(alloc, graph, name, words) {
        Ok(why) => ItemError::Refused(why),
        Err(_) => ItemError::NoMemory,
    }
}

/// Whether there are more words than a merge has in formats 1 and 2, and one of them stands there twice. A graph compares fewer pair by
/// pair.
fn many_repeat(alloc: Global, graph: &Graph, words: &[&[u8]]) -> Result<bool, NoMemory>
    ensures { IfOk result (λ b. b ≡ true → repeats bytes_eq (contents words.now) ≡ true) }
{
    if words.len() <= MAX_EVENTS as usize {
        return Ok(false);
    }
    names_repeat(alloc, graph, words)
}

/// The line of a merge of these lines.
fn merged(alloc: Global, ignores: bool, name: Name, numbers: Vec<u32>) -> Result<Line, NoMemory>
    ensures { IfOk result (λ l. l ≡ record { name = name; verb = merge_verb ignores numbers.items; on = [] }) }
{
    // More numbers than a list of lines holds.
    if numbers.len() > 4294967295 {
        return Err(NoMemory);
    }
    let events = LineList { items: numbers };
    let verb = if ignores {
        Verb::MergeIgnore { events }
    } else {
        Verb::Merge { events }
    };
    Ok(Line {
        name,
        verb,
        on: EventList::new(alloc),
    })
}

/// Puts the merge of words that name these lines at the end, where it fits; else the graph stays as it was.
fn take_lines(
    alloc: Global,
    graph: &mut Graph,
    ignores: bool,
    name: Name,
    words: &[&[u8]],
    numbers: Vec<u32>,
) -> Result<(), ItemError>
    requires named { is_name_in graph.old.format name ≡ true }
    requires lines { all_lines graph.old (contents words.now) ≡ true }
    requires numbers { numbers.items ≡ map (line_number graph.old) (contents words.now) }
    requires takable { IsTakable graph.old (merge_with graph.old name (merge_verb ignores) (contents words.now)) }
    ensures { IsDone graph.old (merge_with graph.old name (merge_verb ignores) (contents words.now)) graph.new result }
{
    let _ = graph.decls();
    match many_repeat(alloc, graph, words) {
        Ok(false) => {}
        Ok(true) => return Err(ItemError::Refused(Why::Twice)),
        Err(_) => return Err(ItemError::NoMemory),
    }
    match merged(alloc, ignores, name, numbers) {
        Ok(line) => offer(graph, line),
        Err(_) => Err(ItemError::NoMemory),
    }
}

/// Puts the merge with this name and these words at the end, where it fits; else the graph stays as it was.
pub(crate) fn take_merge(
    alloc: Global,
    graph: &mut Graph,
    last: &mut u32,
    ignores: bool,
    name: &[u8],
    words: &[&[u8]],
) -> Result<(), ItemError>
    requires { IsTakable graph.old (merge_with graph.old name.now (merge_verb ignores) (contents words.now)) }
    ensures { IsDone graph.old (merge_with graph.old name.now (merge_verb ignores) (contents words.now)) graph.new result }
{
    let Some(name) = name_in(graph, name) else {
        return Err(ItemError::Refused(Why::Name));
    };
    match lines_of(alloc, graph, last, words) {
        Ok(Some(numbers)) => take_lines(alloc, graph, ignores, name, words, numbers),
        Ok(None) => Err(merge_error(alloc, graph, &name, words)),
        Err(_) => Err(ItemError::NoMemory),
    }
}
