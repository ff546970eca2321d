//! Lines between the first and the closing one.

ghost use Rattle.basics.specs.Words.{contents};
ghost use Rattle.std.specs.Prelude.{◌≡◌, ◌≤◌, ℕ, ◌<◌, [], false, true, OnOk, drop, length, find, codes, None};
ghost use Rattle.graph_terms.specs.declared.table.TheConstants.{KINDS};
ghost use Rattle.std.specs.List.{list_any};
ghost use Rattle.std.specs.Str.{bytes_eq};
ghost use Rattle.graph_words.specs.Words.{pieces};
ghost use Rattle.graph_words.specs.Draft.{op_of, line_draft, decl_draft, space_draft, inst_draft, data_draft, lock_draft, barrier_draft, merge_draft, call_draft, form_of, is_of_form};
ghost use Rattle.word_meanings.specs.Words.{is_empty};
ghost use Rattle.word_meanings.specs.Recent.{IsRecent};
ghost use Rattle.graph_reader.specs.Kinds.{kind_draft};
ghost use Rattle.graph_reader.specs.Merges.{merge_verb};
ghost use Rattle.graph_reader.specs.Reading.{IsDone, IsDoneOf, IsWordsDone, is_operation};

use crate::calls::call_line;
use crate::decls::{take_barrier, take_columns, take_lock, take_space};
use crate::forms::take_form;
use crate::item::{ItemError, offer};
use crate::merges::take_merge;
use graph_model::graph::Graph;
use graph_terms::format::Format;
use graph_terms::table::Kind;
use graph_terms::why::Why;
use graph_words::words::{behind, is_same, kind_of, word};
use index_spaces::Op;
use std::alloc::Global;
use word_meanings::recent::{Recent, forget_columns};

/// The reduction that a word names.
fn op_of(word: &[u8]) -> Option<Op>
    ensures { result ≡ op_of word.now }
{
    if word == b"sum".as_slice() {
        Some(Op::Sum)
    } else if word == b"min".as_slice() {
        Some(Op::Min)
    } else if word == b"max".as_slice() {
        Some(Op::Max)
    } else {
        None
    }
}

/// Puts the declaration of a space by its words, of which the first says so, at the end, where it fits; else the graph stays
/// as it was.
#[tactic(auto, using(crate::proofs::LineShapes::space_shape, crate::proofs::LineShapes::no_space_shape))]
fn space_line(alloc: Global, graph: &mut Graph, words: &[&[u8]]) -> Result<(), ItemError>
    requires { graph.old.lines ≡ [] }
    ensures { IsDoneOf graph.old (space_draft graph.old (drop 1 (contents words.now))) graph.new result }
{
    if words.len() != 3 {
        return Err(ItemError::Refused(Why::Syntax));
    }
    take_space(alloc, graph, word(words, 1), word(words, 2))
}

/// The same of an instance.
#[tactic(auto, using(crate::proofs::LineShapes::inst_shape, crate::proofs::LineShapes::no_inst_shape))]
fn inst_line(alloc: Global, graph: &mut Graph, words: &[&[u8]]) -> Result<(), ItemError>
    requires { graph.old.lines ≡ [] }
    ensures { IsDoneOf graph.old (inst_draft graph.old (drop 1 (contents words.now))) graph.new result }
{
    if words.len() != 4 {
        return Err(ItemError::Refused(Why::Syntax));
    }
    take_columns(
        alloc,
        graph,
        false,
        word(words, 1),
        word(words, 2),
        word(words, 3),
    )
}

/// The same of data.
#[tactic(auto, using(crate::proofs::LineShapes::no_data_shape))]
fn data_line(alloc: Global, graph: &mut Graph, words: &[&[u8]]) -> Result<(), ItemError>
    requires { graph.old.lines ≡ [] }
    ensures { IsDoneOf graph.old (data_draft graph.old (drop 1 (contents words.now))) graph.new result }
{
    if !graph.format().has_since(Format::Three) || words.len() != 4 {
        return Err(ItemError::Refused(Why::Syntax));
    }
    take_columns(
        alloc,
        graph,
        true,
        word(words, 1),
        word(words, 2),
        word(words, 3),
    )
}

/// The same of a reservation.
#[tactic(auto, using(crate::proofs::LineShapes::lock_shape, crate::proofs::LineShapes::no_lock_shape))]
fn lock_line(graph: &mut Graph, words: &[&[u8]]) -> Result<(), ItemError>
    requires { graph.old.lines ≡ [] }
    ensures { IsDoneOf graph.old (lock_draft graph.old (drop 1 (contents words.now))) graph.new result }
{
    if words.len() != 2 {
        return Err(ItemError::Refused(Why::Syntax));
    }
    take_lock(graph, word(words, 1))
}

/// The same of a barrier.
#[tactic(auto, using(crate::proofs::LineShapes::barrier_shape, crate::proofs::LineShapes::no_barrier_shape))]
fn barrier_line(graph: &mut Graph, words: &[&[u8]]) -> Result<(), ItemError>
    requires { graph.old.lines ≡ [] }
    ensures { IsDoneOf graph.old (barrier_draft graph.old (drop 1 (contents words.now))) graph.new result }
{
    if words.len() != 5 {
        return Err(ItemError::Refused(Why::Syntax));
    }
    match op_of(word(words, 3)) {
        Some(op) => take_barrier(graph, word(words, 1), word(words, 2), op, word(words, 4)),
        None => Err(ItemError::Refused(Why::Syntax)),
    }
}

/// Puts the declaration that words spell at the end, where it fits; else the graph stays as it was.
fn decl_line(alloc: Global, graph: &mut Graph, words: &[&[u8]]) -> Result<(), ItemError>
    requires { graph.old.lines ≡ [] }
    ensures { IsDoneOf graph.old (decl_draft graph.old (contents words.now)) graph.new result }
{
    let kind = word(words, 0);
    if is_same(kind, b"space") {
        return space_line(alloc, graph, words);
    }
    if is_same(kind, b"inst") {
        return inst_line(alloc, graph, words);
    }
    if is_same(kind, b"lock") {
        return lock_line(graph, words);
    }
    if is_same(kind, b"barrier") {
        return barrier_line(graph, words);
    }
    if is_same(kind, b"data") {
        return data_line(alloc, graph, words);
    }
    Err(ItemError::Refused(Why::Syntax))
}

/// Puts the merge that words spell, of which the first says so, at the end, where it fits; else the graph stays as it was.
fn merge_line(
    alloc: Global,
    graph: &mut Graph,
    last: &mut u32,
    ignores: bool,
    name: &[u8],
    words: &[&[u8]],
) -> Result<(), ItemError>
    ensures { IsDoneOf graph.old (merge_draft graph.old name.now (merge_verb ignores) (drop 1 (contents words.now))) graph.new result }
{
    if words.len() < 2 {
        return Err(ItemError::Refused(Why::Syntax));
    }
    take_merge(alloc, graph, last, ignores, name, behind(words, 1))
}

/// Puts the call that words spell, of which the first says so, at the end, where it fits; else the graph stays as it was.
#[inline(never)]
fn take_call(
    alloc: Global,
    graph: &mut Graph,
    name: &[u8],
    words: &[&[u8]],
) -> Result<(), ItemError>
    requires { 1 ≤ length words.now }
    ensures { IsDoneOf graph.old (call_draft graph.old name.now (drop 1 (contents words.now))) graph.new result }
{
    match call_line(alloc, graph, name, words) {
        Ok(line) => offer(graph, line),
        Err(error) => Err(error),
    }
}

/// Puts the line of a kind that words spell at the end, where it fits; else the graph stays as it was.
fn kind_line<'a>(
    alloc: Global,
    graph: &mut Graph,
    recent: &mut Recent<'a>,
    kind: Kind,
    name: &[u8],
    words: &[&'a [u8]],
) -> Result<(), ItemError>
    requires recent { IsRecent graph.old recent.old }
    requires form { is_of_form graph.old.format (contents words.now) (form_of kind) ≡ true }
    ensures done { IsDone graph.old (kind_draft graph.old kind name.now (drop (length (form_of kind).words) (contents words.now))) graph.new result }
    ensures recent { OnOk result (IsRecent graph.new recent.new) }
{
    let rest = behind(words, kind.words().len());
    take_form(alloc, graph, recent, kind, name, rest)
}

/// Puts the merge or the call that words of no kind spell at the end, where it fits; else the graph stays as it was.
#[inline(never)]
fn other_line(
    alloc: Global,
    graph: &mut Graph,
    last: &mut u32,
    name: &[u8],
    words: &[&[u8]],
) -> Result<(), ItemError>
    requires { find (λ k. is_of_form graph.old.format (contents words.now) (form_of k)) KINDS ≡ None }
    ensures { IsDoneOf graph.old (line_draft graph.old name.now (contents words.now)) graph.new result }
{
    let verb = word(words, 0);
    if is_same(verb, b"merge") {
        return merge_line(alloc, graph, last, false, name, words);
    }
    if is_same(verb, b"mergei") {
        return merge_line(alloc, graph, last, true, name, words);
    }
    if is_same(verb, b"call") {
        return take_call(alloc, graph, name, words);
    }
    Err(ItemError::Refused(Why::Syntax))
}

/// Puts the operation line with this name that the words behind the sign spell at the end, where it fits; else the graph
/// stays as it was.
fn take_named<'a>(
    alloc: Global,
    graph: &mut Graph,
    recent: &mut Recent<'a>,
    name: &[u8],
    words: &[&'a [u8]],
) -> Result<(), ItemError>
    requires { IsRecent graph.old recent.old }
    ensures done { IsDoneOf graph.old (line_draft graph.old name.now (contents words.now)) graph.new result }
    ensures recent { OnOk result (IsRecent graph.new recent.new) }
{
    match kind_of(graph.format(), words) {
        Some(kind) => kind_line(alloc, graph, recent, kind, name, words),
        None => {
            forget_columns(recent);
            other_line(alloc, graph, &mut recent.line, name, words)
        }
    }
}

fn any_empty(words: &[&[u8]]) -> bool
    ensures { result ≡ list_any is_empty (contents words.now) }
{
    words.iter().any(|word| word.is_empty())
}

/// Whether the words are those of an operation line.
fn is_operation(words: &[&[u8]]) -> bool
    ensures { result ≡ is_operation (contents words.now) }
{
    words.len() >= 2 && is_same(word(words, 1), b"=")
}

/// Puts the operation line that words spell, of which none is empty, at the end, where it fits; else the graph stays as it
/// was.
fn take_operation<'a>(
    alloc: Global,
    graph: &mut Graph,
    recent: &mut Recent<'a>,
    words: &[&'a [u8]],
) -> Result<(), ItemError>
    requires recent { IsRecent graph.old recent.old }
    requires filled { list_any is_empty (contents words.now) ≡ false }
    requires operation { is_operation (contents words.now) ≡ true }
    ensures done { IsWordsDone graph.old (contents words.now) graph.new result }
    ensures recent { OnOk result (IsRecent graph.new recent.new) }
{
    take_named(alloc, graph, recent, word(words, 0), behind(words, 2))
}

/// Puts the declaration that words spell, of which none is empty, at the end, where it fits; else the graph stays as it was.
/// Out of line, since most lines are operations.
#[inline(never)]
fn take_declaration(alloc: Global, graph: &mut Graph, words: &[&[u8]]) -> Result<(), ItemError>
    requires filled { list_any is_empty (contents words.now) ≡ false }
    requires declaration { is_operation (contents words.now) ≡ false }
    ensures { IsWordsDone graph.old (contents words.now) graph.new result }
{
    if graph.lines() > 0 {
        return Err(ItemError::Refused(Why::Syntax));
    }
    decl_line(alloc, graph, words)
}

/// Puts the item that words spell at the end, where it fits; else the graph stays as it was.
pub(crate) fn take_words<'a>(
    alloc: Global,
    graph: &mut Graph,
    recent: &mut Recent<'a>,
    words: &[&'a [u8]],
) -> Result<(), ItemError>
    requires { IsRecent graph.old recent.old }
    ensures done { IsWordsDone graph.old (contents words.now) graph.new result }
    ensures recent { OnOk result (IsRecent graph.new recent.new) }
{
    if any_empty(words) {
        return Err(ItemError::Refused(Why::Syntax));
    }
    if is_operation(words) {
        return take_operation(alloc, graph, recent, words);
    }
    forget_columns(recent);
    take_declaration(alloc, graph, words)
}
