//! The report of an outcome.

ghost use Rattle.std.specs.Prelude.{◌≡◌, ℕ, ◌<◌, ◌≤◌, length, ◌+◌, ◌-◌, true, map, take, drop, flat_map, [], ◌∷◌, ◌++◌, decimal, OnOk, OnErr};
ghost use Rattle.realm_io.specs.Counts.{Rose};
ghost use Rattle.realm_io.specs.Told.{with_more, TookPrefix};
ghost use Rattle.graph_terms.specs.Spelling.{spelled, interval_word};
ghost use Rattle.run_report.specs.Report.{FitsGraph, op_rest, op_text, op_texts, op_texts_from, phase_text, phase_texts, interval_front, interval_text, cells_text, cells_texts, column_texts, report, evaluation_report};
ghost use Rattle.index_spaces.specs.Space.{space_size, IsSpace};
ghost use Rattle.graph_terms.specs.Graph.{is_phase};
ghost use Rattle.graph_meaning.specs.Evaluation.{outcome};
ghost use Rattle.realm_io.specs.Written.{Writes};

use crate::words::put_words;
use graph_model::graph::Graph;
use graph_terms::name::Name;
use graph_terms::outcome::{Answer, End, Outcome};
use graph_terms::verb::{Line, Verb};
use graph_writer::{put_column_name, put_interval};
use index_spaces::column::Column;
use index_spaces::limits::MAX_POINTS_OF_THREE;
use itoa::{Buffer, write_digits};
use realm_io::{Sink, WriteFault, put_bytes};

/// What stands behind the name of an operation in its line: one piece, since a report has a line for each operation.
fn op_rest(end: End, answer: Answer) -> &'static [u8]
    ensures { result.now ≡ op_rest end answer }
{
    match (end, answer) {
        (End::Done, Answer::Triggered) => b" done triggered\n",
        (End::Done, Answer::Poisoned) => b" done poisoned\n",
        (End::Done, Answer::Pending) => b" done pending\n",
        (End::Faulted, Answer::Triggered) => b" faulted triggered\n",
        (End::Faulted, Answer::Poisoned) => b" faulted poisoned\n",
        (End::Faulted, Answer::Pending) => b" faulted pending\n",
        (End::Cancelled, Answer::Triggered) => b" cancelled triggered\n",
        (End::Cancelled, Answer::Poisoned) => b" cancelled poisoned\n",
        (End::Cancelled, Answer::Pending) => b" cancelled pending\n",
        (End::Waiting, Answer::Triggered) => b" waiting triggered\n",
        (End::Waiting, Answer::Poisoned) => b" waiting poisoned\n",
        (End::Waiting, Answer::Pending) => b" waiting pending\n",
    }
}

/// How many bytes the line of an operation has at most: its name 63, and what stands around it 24.
const OP: usize = 87;

/// How many lines of operations are written in one piece.
const OPS: u32 = 16;

/// How many bytes these have at most.
const OPS_SIZE: usize = 1_392;

/// Puts a piece behind the bytes that a text has so far, and gives how many it has then.
#[inline]
fn add_piece(text: &mut [u8; OPS_SIZE], used: usize, piece: &[u8]) -> usize
    requires { used + length piece.now ≤ OPS_SIZE }
    ensures size { result ≡ used + length piece.now }
    ensures bytes { take result text.new ≡ take used text.old ++ piece.now }
{
    let end = used + piece.len();
    text[used..end].copy_from_slice(piece);
    end
}

/// Puts the line of an operation behind the bytes that a text has so far, and gives how many it has then.
fn add_op(text: &mut [u8; OPS_SIZE], used: usize, line: &Line, end: End, answer: Answer) -> usize
    requires { used + OP ≤ OPS_SIZE }
    ensures size { result ≤ used + OP }
    ensures bytes { take result text.new ≡ take used text.old ++ op_text line.now end answer }
{
    let before = add_piece(text, used, b"op ");
    let named = add_piece(text, before, line.name.bytes());
    add_piece(text, named, op_rest(end, answer))
}

/// Puts the lines of the operations from `first` up to `end` into a text, and gives how many bytes they have.
fn add_ops(
    text: &mut [u8; OPS_SIZE],
    graph: &Graph,
    outcome: &Outcome,
    first: u32,
    end: u32,
) -> usize
    requires fits { FitsGraph graph.now outcome.now }
    requires ordered { first ≤ end }
    requires within { end ≤ length graph.now.lines }
    requires few { end ≤ first + OPS }
    ensures size { result ≤ OPS_SIZE }
    ensures bytes { op_texts_from graph.now.lines outcome.now.ends outcome.now.answers first
        ≡ take result text.new ++ op_texts_from graph.now.lines outcome.now.ends outcome.now.answers end }
{
    let mut used = 0;
    for i in first..end {
        used = add_op(
            text,
            used,
            graph.line(i),
            outcome.ends.at(i),
            outcome.answers.at(i),
        );
    }
    used
}

/// Writes the lines of the operations, several in one piece, since a report has one for each.
fn put_ops<K: Sink>(sink: &mut K, graph: &Graph, outcome: &Outcome) -> Result<(), WriteFault>
    requires { FitsGraph graph.now outcome.now }
    ensures { Writes (K.state sink.old) (K.state sink.new) result (op_texts graph.now.lines outcome.now.ends outcome.now.answers) }
{
    let lines = graph.lines();
    let mut text = [0; OPS_SIZE];
    let mut first = 0;
    while first < lines {
        let end = first + OPS.min(lines - first);
        let size = add_ops(&mut text, graph, outcome, first, end);
        put_bytes(sink, &text[..size])?;
        first = end;
    }
    Ok(())
}

/// Writes the line of a phase with its value.
fn put_phase<K: Sink>(sink: &mut K, line: &Line, value: Option<u64>) -> Result<(), WriteFault>
    ensures { Writes (K.state sink.old) (K.state sink.new) result (phase_text line.now true value) }
{
    match value {
        None => put_words(sink, &[b"phase", line.name.bytes(), b"-"]),
        Some(value) => {
            let mut buffer = Buffer::new();
            let word = buffer.format(value).as_bytes();
            put_words(sink, &[b"phase", line.name.bytes(), word])
        }
    }
}

/// Writes the line of a phase, and nothing for another line.
fn put_if_phase<K: Sink>(sink: &mut K, line: &Line, value: Option<u64>) -> Result<(), WriteFault>
    ensures { Writes (K.state sink.old) (K.state sink.new) result (phase_text line.now (is_phase line.now.verb) value) }
{
    match line.verb {
        Verb::Phase { .. } => put_phase(sink, line, value),
        _ => Ok(()),
    }
}

/// Writes the lines of the phases.
fn put_phases<K: Sink>(sink: &mut K, graph: &Graph, outcome: &Outcome) -> Result<(), WriteFault>
    requires { FitsGraph graph.now outcome.now }
    ensures { Writes (K.state sink.old) (K.state sink.new) result (phase_texts graph.now.lines outcome.now.phases) }
{
    for i in 0..graph.lines() {
        put_if_phase(sink, graph.line(i), outcome.phases.at(i))?;
    }
    Ok(())
}

/// Writes what stands before the cells of an interval.
fn put_interval_front<K: Sink>(
    sink: &mut K,
    inst: &Name,
    field: &Name,
    interval: (u32, u32),
) -> Result<(), WriteFault>
    ensures { Writes (K.state sink.old) (K.state sink.new) result (interval_front (inst.now ++ 46 ∷ field.now) interval) }
{
    put_bytes(sink, b"cells ")?;
    put_column_name(sink, inst, field)?;
    put_bytes(sink, b" ")?;
    put_interval(sink, interval.0, interval.1)
}

/// How many bytes a cell and the space before it have at most.
const CELL: usize = 21;

/// How many cells are written in one piece.
const CELLS: u64 = 24;

/// How many bytes these have at most.
const CELLS_SIZE: usize = 504;

/// Puts a cell and the space before it where the bytes that a text has so far begin, and gives where they begin then.
#[inline]
fn add_cell(text: &mut [u8; CELLS_SIZE], end: usize, cell: u64) -> usize
    requires { (CELL ≤ end) × (end ≤ CELLS_SIZE) }
    ensures start { (result ≤ end) × (end ≤ result + CELL) }
    ensures bytes { drop result text.new ≡ (32 ∷ decimal cell) ++ drop end text.old }
{
    let start = write_digits(cell, text, end) - 1;
    text[start] = b' ';
    start
}

/// Puts the cells of the points of these ranks, each with a space before it, at the end of a text, from the last one to the
/// first, and gives where they begin.
fn add_cells(text: &mut [u8; CELLS_SIZE], column: &Column, first: u64, end: u64) -> usize
    requires ordered { first ≤ end }
    requires within { end ≤ length column.now.cells }
    requires full { length column.now.cells ≡ space_size column.now.space }
    requires few { end ≤ first + CELLS }
    ensures start { result ≤ CELLS_SIZE }
    ensures bytes { drop result text.new ≡ cells_text column.now.cells first end }
{
    let _ = column.space().size();
    let mut start = CELLS_SIZE;
    let mut rank = end;
    while rank > first {
        rank -= 1;
        start = add_cell(text, start, column.at(rank as u32));
    }
    start
}

/// Writes the cells of the points of these ranks, each with a space before it, several in one piece, since there may be
/// millions of them.
fn put_cells<K: Sink>(sink: &mut K, column: &Column, first: u64, end: u64) -> Result<(), WriteFault>
    requires ordered { first ≤ end }
    requires within { end ≤ length column.now.cells }
    requires full { length column.now.cells ≡ space_size column.now.space }
    ensures { Writes (K.state sink.old) (K.state sink.new) result (cells_text column.now.cells first end) }
{
    let _ = column.space().size();
    let mut text = [0; CELLS_SIZE];
    let mut rank = first;
    while rank < end {
        let next = rank + CELLS.min(end - rank);
        let start = add_cells(&mut text, column, rank, next);
        put_bytes(sink, &text[start..])?;
        rank = next;
    }
    Ok(())
}

/// Writes the line of an interval whose points have the ranks from `first` up to `end`.
fn put_interval_line<K: Sink>(
    sink: &mut K,
    inst: &Name,
    field: &Name,
    interval: (u32, u32),
    column: &Column,
    first: u64,
    end: u64,
) -> Result<(), WriteFault>
    requires long { end ≡ first + (interval.1 + 1 - interval.0) }
    requires within { end ≤ length column.now.cells }
    requires full { length column.now.cells ≡ space_size column.now.space }
    ensures { Writes (K.state sink.old) (K.state sink.new) result
        (interval_text (inst.now ++ 46 ∷ field.now) interval (take (interval.1 + 1 - interval.0) (drop first column.now.cells))) }
{
    put_interval_front(sink, inst, field, interval)?;
    put_cells(sink, column, first, end)?;
    put_bytes(sink, b"\n")
}

/// Writes the lines of a column's intervals.
fn put_intervals<K: Sink>(
    sink: &mut K,
    inst: &Name,
    field: &Name,
    column: &Column,
    intervals: &[(u32, u32)],
) -> Result<(), WriteFault>
    requires is_space { IsSpace intervals.now }
    requires small { space_size intervals.now ≤ MAX_POINTS_OF_THREE }
    requires full { length column.now.cells ≡ space_size intervals.now }
    requires over { column.now.space ≡ intervals.now }
    ensures { Writes (K.state sink.old) (K.state sink.new) result
        (cells_texts (inst.now ++ 46 ∷ field.now) intervals.now column.now.cells) }
{
    let mut first = 0;
    for interval in intervals {
        let end = first + u64::from(interval.1 - interval.0) + 1;
        put_interval_line(sink, inst, field, *interval, column, first, end)?;
        first = end;
    }
    Ok(())
}

/// Writes the lines of a column.
fn put_column<K: Sink>(
    sink: &mut K,
    inst: &Name,
    field: &Name,
    column: &Column,
) -> Result<(), WriteFault>
    ensures { Writes (K.state sink.old) (K.state sink.new) result
        (cells_texts (inst.now ++ 46 ∷ field.now) column.now.space column.now.cells) }
{
    let space = column.space();
    let _ = space.size();
    put_intervals(sink, inst, field, column, space.intervals())
}

/// Writes the lines of the columns.
fn put_columns<K: Sink>(sink: &mut K, graph: &Graph, outcome: &Outcome) -> Result<(), WriteFault>
    requires { FitsGraph graph.now outcome.now }
    ensures { Writes (K.state sink.old) (K.state sink.new) result (column_texts graph.now 0 outcome.now.columns) }
{
    for c in 0..graph.columns() {
        let (inst, field) = graph.column_name(c);
        put_column(sink, &inst, &field, outcome.columns.at(c))?;
    }
    Ok(())
}

/// Writes the report of an outcome: a line for each operation with its end and the answer of its handle, one for
/// each phase with its value, one for each interval of each column with its cells. After a fault the sink has
/// taken a prefix of it.
pub fn put_report<K: Sink>(sink: &mut K, graph: &Graph, outcome: &Outcome) -> Result<(), WriteFault>
    requires { FitsGraph graph.now outcome.now }
    ensures ok { OnOk result ((K.state sink.new).taken ≡ with_more (K.state sink.old).taken (report graph.now outcome.now)) }
    ensures fault { OnErr result (Rose (K.state sink.old).faults (K.state sink.new).faults) }
    ensures took { OnErr result (TookPrefix (K.state sink.old).taken (K.state sink.new).taken (report graph.now outcome.now)) }
    ensures flushed { (K.state sink.new).flushed ≡ (K.state sink.old).flushed }
    ensures count { (K.state sink.old).faults ≤ (K.state sink.new).faults }
{
    put_parts(sink, graph, outcome)
}

/// Writes the report of an evaluation, from an outcome of it.
pub fn put_evaluation<K: Sink>(
    sink: &mut K,
    graph: &Graph,
    found: &Outcome,
) -> Result<(), WriteFault>
    requires { found.now ≡ outcome graph.now found.now.trace }
    ensures { Writes (K.state sink.old) (K.state sink.new) result (evaluation_report graph.now) }
{
    put_parts(sink, graph, found)
}

/// Writes the parts of the report.
fn put_parts<K: Sink>(sink: &mut K, graph: &Graph, outcome: &Outcome) -> Result<(), WriteFault>
    requires { FitsGraph graph.now outcome.now }
    ensures { Writes (K.state sink.old) (K.state sink.new) result (report graph.now outcome.now) }
{
    put_bytes(sink, b"realm-report 1\n")?;
    put_ops(sink, graph, outcome)?;
    put_phases(sink, graph, outcome)?;
    put_columns(sink, graph, outcome)?;
    put_bytes(sink, b"done\n")
}
