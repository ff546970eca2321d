//! What the words of a run show once no other seat can step.

ghost use Rattle.std.specs.Prelude.{◌≡◌, ℕ, ◌+◌, ◌<◌, ◌≤◌, length, Some, slice_get, slice_index, Option, None};
ghost use Rattle.std.specs.Vec.{vec_capacity};
ghost use Rattle.std.specs.Slots.{slots_items, slots_len, IsFull};
ghost use Rattle.graph_terms.specs.Graph.{verb_at};
ghost use Rattle.word_steps.specs.Layout.{size_of, value_word, word_count};
ghost use Rattle.word_parts.specs.Reading.{stage_for, end_for, time_for, state_for, value_for};
ghost use Rattle.word_steps.specs.Rule.{handle_at};

use atomic_table::Closed;
use event_table::{Handle, NO_EVENT};
use graph_model::graph::Graph;
use graph_terms::lists::ValueList;
use graph_terms::outcome::End;
use graph_terms::verb::Verb;
use index_spaces::room::push_within;
use run_parts::{LineState, Stage, StateList};
use std::alloc::Global;
use word_steps::Content;

/// What a word holds.
fn word_at(closed: &Closed<Content, Global>, k: usize) -> u64
    requires full { IsFull closed.now.words }
    requires near { k < slots_len closed.now.words }
    ensures { result ≡ slice_index (slots_items closed.now.words) k }
{
    *closed.words.get(k)
}

/// How far a line has come, by its status word, where no work is out.
fn stage_for(status: u64) -> Stage
    ensures { result ≡ stage_for status }
{
    match status {
        0 => Stage::Unissued,
        2 => Stage::Issued,
        _ => Stage::Ended,
    }
}

/// How it has ended, if it has.
fn end_for(status: u64) -> End
    ensures { result ≡ end_for status }
{
    match status {
        8 => End::Done,
        9 => End::Faulted,
        10 => End::Cancelled,
        _ => End::Waiting,
    }
}

/// The time in a time word, which is one more than it, and 0 where it has none.
fn time_for(word: u64) -> u32
    ensures { result ≡ time_for word }
{
    (word.saturating_sub(1) % 4_294_967_296) as u32
}

/// The handle of a line, `NO_EVENT` where it isn't issued.
fn handle_at(handles: &[Handle], line: u32) -> Handle
    ensures { result ≡ handle_at handles.now line }
{
    match handles.get(line as usize) {
        Some(handle) => *handle,
        None => NO_EVENT,
    }
}

/// The state of a line.
fn state_for(
    graph: &Graph,
    closed: &Closed<Content, Global>,
    handles: &[Handle],
    line: u32,
) -> LineState
    requires full { IsFull closed.now.words }
    requires wide { slots_len closed.now.words ≡ word_count (size_of graph.now) }
    requires near { line < length graph.now.lines }
    ensures { result ≡ state_for (slots_items closed.now.words) (size_of graph.now) handles.now line }
{
    let status = word_at(closed, line as usize);
    let time = word_at(closed, graph.lines() as usize + line as usize);
    LineState {
        stage: stage_for(status),
        end: end_for(status),
        handle: handle_at(handles, line),
        time: time_for(time),
    }
}

/// The states of the lines.
pub(crate) fn states_of(
    graph: &Graph,
    closed: &Closed<Content, Global>,
    handles: &[Handle],
    mut states: Vec<LineState>,
) -> StateList
    requires full { IsFull closed.now.words }
    requires wide { slots_len closed.now.words ≡ word_count (size_of graph.now) }
    requires room { length graph.now.lines ≤ vec_capacity states }
    ensures each { length result ≡ length graph.now.lines }
    ensures states { (i : ℕ) → i < length graph.now.lines → slice_get result i
        ≡ Some (state_for (slots_items closed.now.words) (size_of graph.now) handles.now i) }
{
    states.clear();
    for line in 0..graph.lines() {
        push_within(&mut states, state_for(graph, closed, handles, line));
    }
    StateList { items: states }
}

/// The value in a word, where it is that of a phase, and none for another line.
fn value_for(graph: &Graph, line: u32, value: u64) -> Option<u64>
    requires { line < length graph.now.lines }
    ensures { result ≡ value_for (verb_at graph.now line) value }
{
    match &graph.line(line).verb {
        Verb::Phase { .. } => Some(value),
        _ => None,
    }
}

/// The value of a phase, and none for another line.
fn value_of(graph: &Graph, closed: &Closed<Content, Global>, line: u32) -> Option<u64>
    requires full { IsFull closed.now.words }
    requires wide { slots_len closed.now.words ≡ word_count (size_of graph.now) }
    requires near { line < length graph.now.lines }
    ensures { result ≡ value_for (verb_at graph.now line)
        (slice_index (slots_items closed.now.words) (value_word (size_of graph.now) line)) }
{
    let value = word_at(closed, 2 * graph.lines() as usize + line as usize);
    value_for(graph, line, value)
}

/// The values of the phases.
pub(crate) fn values_of(
    graph: &Graph,
    closed: &Closed<Content, Global>,
    mut values: Vec<Option<u64>>,
) -> ValueList
    requires full { IsFull closed.now.words }
    requires wide { slots_len closed.now.words ≡ word_count (size_of graph.now) }
    requires room { length graph.now.lines ≤ vec_capacity values }
    ensures each { length result ≡ length graph.now.lines }
    ensures values { (i : ℕ) → i < length graph.now.lines → slice_get result i
        ≡ Some (value_for (verb_at graph.now i) (slice_index (slots_items closed.now.words) (value_word (size_of graph.now) i))) }
{
    values.clear();
    for line in 0..graph.lines() {
        push_within(&mut values, value_of(graph, closed, line));
    }
    ValueList { items: values }
}
