//! Which sums are contended.

ghost use Rattle.std.specs.Prelude.{◌≡◌, ℕ, ◌+◌, ◌<◌, ◌/◌, ◌==◌, ◌||◌, ◌&&◌, length, Some, IfOk, OnOk, IfSome};
ghost use Rattle.std.specs.List.{list_any};
ghost use Rattle.index_spaces.specs.Space.{has_point, points};
ghost use Rattle.graph_terms.specs.Graph.{named_spaces, columns, space_at};
ghost use Rattle.graph_terms.specs.Access.{accesses};
ghost use Rattle.flow_order.specs.Bits.{word_bit};
ghost use Rattle.flow_order.specs.Rows.{AreRows};
ghost use Rattle.task_flow.specs.Sums.{AreSums};
ghost use Rattle.flow_order.specs.SourceParts.{sources_after};
ghost use Rattle.task_flow.specs.Construction.{summed, summed_column, cells_meet, contends_with, is_contended};

use crate::sums::Sums;
use flow_order::bits::Bits;
use flow_order::rows::Rows;
use flow_order::sources::{add_row, parts_of};
use graph_meaning::line_laws::{accesses_are_few, accesses_fit};
use graph_model::graph::Graph;
use graph_terms::limits::MOST_ACCESSES;
use graph_terms::verb::{Access, Mode};
use index_spaces::NoMemory;
use index_spaces::laws::points_are_listed;
use std::alloc::Global;

/// A bit for each contended sum: where sums commute, one that shares a cell with another sum while
/// neither reaches the other.
pub(crate) fn contended(alloc: Global, flow: &Graph, commute: bool) -> Result<Bits, NoMemory>
    ensures size { IfOk result (λ bits. length bits ≡ (length flow.now.lines + 63) / 64) }
    ensures bits { IfOk result (λ bits. (k : ℕ) → word_bit bits k ≡ is_contended flow.now commute k) }
{
    let lines = flow.lines();
    let mut bits = Bits::zeros(alloc, (lines as usize + 63) / 64)?;
    if !commute {
        return Ok(bits);
    }
    let rows = all_rows(alloc, flow, commute)?;
    let mut sums = Sums::new(alloc, flow)?;
    for line in 0..lines {
        let Some(sum) = summed(flow, line) else {
            sums.skip(flow, line);
            continue;
        };
        mark_rivals(alloc, flow, commute, &rows, &sums, &mut bits, line, sum)?;
        sums.add(flow, line, sum);
    }
    Ok(bits)
}

/// The rows of all lines.
fn all_rows(alloc: Global, flow: &Graph, commute: bool) -> Result<Rows, NoMemory>
    ensures rows { IfOk result (λ rows. AreRows flow.now commute rows.rows.items) }
    ensures all { IfOk result (λ rows. length rows.rows.items ≡ length flow.now.lines) }
{
    let mut rows = Rows::new(alloc, flow)?;
    for _line in 0..flow.lines() {
        let parts = parts_of(alloc, flow, commute, &rows)?;
        add_row(alloc, flow, commute, &mut rows, &parts)?;
    }
    Ok(rows)
}

/// Sets the bits of a line and of its rivals above it, which are among the lines that add to the
/// same column and do not reach it.
fn mark_rivals(
    alloc: Global,
    flow: &Graph,
    commute: bool,
    rows: &Rows,
    sums: &Sums,
    bits: &mut Bits,
    line: u32,
    sum: Access,
) -> Result<(), NoMemory>
    requires rows { AreRows flow.now commute rows.now.rows.items }
    requires all { length rows.now.rows.items ≡ length flow.now.lines }
    requires sums { AreSums flow.now line ((length flow.now.lines + 63) / 64) sums.now.columns.items }
    requires line { line < length flow.now.lines }
    requires sum { Some sum ≡ summed flow.now line }
    requires column { sum.column < length (columns flow.now) }
    requires space { sum.space < length (named_spaces flow.now) }
    requires size { length bits.old ≡ (length flow.now.lines + 63) / 64 }
    ensures size { OnOk result (length bits.new ≡ length bits.old) }
    ensures bits { OnOk result ((k : ℕ) → word_bit bits.new k ≡ (word_bit bits.old k || contends_with flow.now (sources_after flow.now commute (length flow.now.lines)) k line)) }
{
    let hidden = rows.reaching(alloc, line)?;
    let adding = &sums.columns[sum.column as usize];
    let mut above = line;
    'others: while let Some(other) = adding.last_below(&hidden, above) {
        above = other;
        if !meets_sum(flow, other, sum) {
            continue;
        }
        bits.set(other);
        bits.set(line);
    }
    Ok(())
}

/// Whether a line adds to a cell of this access.
fn meets_sum(flow: &Graph, line: u32, sum: Access) -> bool
    requires line { line < length flow.now.lines }
    requires space { sum.space < length (named_spaces flow.now) }
    ensures { result ≡ cells_meet flow.now (summed flow.now line) (Some sum) }
{
    match summed(flow, line) {
        Some(other) => cells_meet(flow, other, sum),
        None => false,
    }
}

/// Whether two accesses are of one column at a shared point.
fn cells_meet(flow: &Graph, one: Access, other: Access) -> bool
    requires one { one.space < length (named_spaces flow.now) }
    requires other { other.space < length (named_spaces flow.now) }
    ensures { result ≡ ((one.column == other.column) && list_any (has_point (space_at flow.now one.space)) (points (space_at flow.now other.space))) }
{
    points_are_listed();
    if one.column != other.column {
        return false;
    }
    flow.space(one.space).meets(flow.space(other.space))
}

/// The access by which a line adds to a column.
fn summed(flow: &Graph, line: u32) -> Option<Access>
    requires { line < length flow.now.lines }
    ensures access { result ≡ summed flow.now line }
    ensures column { IfSome result (λ a. a.column < length (columns flow.now)) }
    ensures space { IfSome result (λ a. a.space < length (named_spaces flow.now)) }
{
    accesses_fit();
    accesses_are_few();
    let _ = flow.lines();
    for k in 0..MOST_ACCESSES {
        let Some(access) = flow.access(line, k) else {
            return None;
        };
        if access.mode == Mode::Sum {
            return Some(access);
        }
    }
    None
}

/// The column that a line adds to, or 0.
pub(crate) fn summed_column(flow: &Graph, line: u32) -> u32
    requires { line < length flow.now.lines }
    ensures { result ≡ summed_column flow.now line }
{
    match summed(flow, line) {
        Some(access) => access.column,
        None => 0,
    }
}
