//! The rows of the table of lines.

ghost use Rattle.std.specs.Prelude.{◌≡◌, ◌<◌, false, IfOk, [], ◌∷◌, None, Some, ◌+◌};
ghost use Rattle.graph_gen.specs.MadeGraph.{last_of, is_open, row_taken, merged, made_line, row_lines};

use crate::draw::{Draw, Row};
use crate::lasts::Lasts;
use crate::line::put_line;
use graph_terms::limits::MAX_LINES;
use graph_terms::lists::LineList;
use graph_terms::verb::{Kernel, Line, Verb};
use index_spaces::{NoMemory, Op};
use std::alloc::Global;

/// The number of the column of the sums.
const TOTAL_COLUMN: u32 = 8;

/// The greatest cell that lets a line pass.
const GREATEST_CELL: u64 = 60000;

/// The row that is taken: that of the draw, or `Fill` where its condition fails.
pub(crate) fn row_taken(draw: &Draw, lasts: &Lasts, left: u32) -> Row
    requires column { draw.now.column < 8 }
    requires other { draw.now.other < 8 }
    ensures { result ≡ row_taken draw.now lasts.now.lines left }
{
    if is_open(draw, lasts, left) {
        draw.row
    } else {
        Row::Fill
    }
}

/// Whether the condition of the draw's row holds.
fn is_open(draw: &Draw, lasts: &Lasts, left: u32) -> bool
    requires column { draw.now.column < 8 }
    requires other { draw.now.other < 8 }
    ensures { result ≡ is_open draw.now.row draw.now lasts.now.lines left }
{
    match draw.row {
        Row::Fill | Row::Iota | Row::Expect => true,
        Row::Settle => lasts.of(draw.column).is_some(),
        Row::Copy | Row::Sum => {
            draw.column != draw.other
                && lasts.of(draw.column).is_some()
                && lasts.of(draw.other).is_some()
                && left >= 2
        }
        Row::Event => left >= 2,
        Row::Section => left >= 4,
    }
}

/// The lines of a row, the first having this number.
pub(crate) fn row_lines(
    alloc: Global,
    row: Row,
    draw: &Draw,
    lasts: &Lasts,
    first: u32,
) -> Result<Vec<Line>, NoMemory>
    requires few { first < MAX_LINES }
    requires column { draw.now.column < 8 }
    requires other { draw.now.other < 8 }
    ensures { IfOk result (λ v. v.items ≡ row_lines row draw.now lasts.now.lines first) }
{
    let last = lasts.of(draw.column);
    match row {
        Row::Fill => one_line(alloc, first, fill(draw), last),
        Row::Iota => one_line(alloc, first, iota(draw), last),
        Row::Expect => one_line(alloc, first, expect(draw), last),
        Row::Settle => settle(alloc, first, last),
        Row::Copy => joined(alloc, first, last, lasts.of(draw.other), copy(draw)),
        Row::Sum => joined(alloc, first, last, lasts.of(draw.other), sum(draw)),
        Row::Event => event(alloc, first, last),
        Row::Section => section(alloc, first, draw, last),
    }
}

fn fill(draw: &Draw) -> Verb
    ensures { result ≡ Verb.Fill draw.now.column 0 draw.now.value }
{
    Verb::Fill {
        target: draw.column,
        space: 0,
        value: draw.value,
    }
}

fn iota(draw: &Draw) -> Verb
    ensures { result ≡ Verb.Task (Kernel.Iota draw.now.column 0 draw.now.value) }
{
    Verb::Task {
        kernel: Kernel::Iota {
            x: draw.column,
            s: 0,
            value: draw.value,
        },
    }
}

fn expect(draw: &Draw) -> Verb
    ensures { result ≡ Verb.Task (Kernel.Expect draw.now.column 0 0 60000) }
{
    Verb::Task {
        kernel: Kernel::Expect {
            x: draw.column,
            s: 0,
            low: 0,
            high: GREATEST_CELL,
        },
    }
}

fn copy(draw: &Draw) -> Verb
    ensures { result ≡ Verb.Copy draw.now.column draw.now.other 0 }
{
    Verb::Copy {
        source: draw.column,
        target: draw.other,
        space: 0,
    }
}

fn sum(draw: &Draw) -> Verb
    ensures { result ≡ Verb.Reduce Op.Sum draw.now.column draw.now.other 0 }
{
    Verb::Reduce {
        op: Op::Sum,
        source: draw.column,
        target: draw.other,
        space: 0,
    }
}

/// One line that waits for the last of its column.
fn one_line(alloc: Global, first: u32, verb: Verb, last: Option<u32>) -> Result<Vec<Line>, NoMemory>
    ensures { IfOk result (λ v. v.items ≡ made_line first verb last ∷ []) }
{
    let mut lines = Vec::new(alloc);
    put_line(alloc, &mut lines, first, verb, last)?;
    Ok(lines)
}

/// A merge of the last line that ignores faults.
fn settle(alloc: Global, first: u32, last: Option<u32>) -> Result<Vec<Line>, NoMemory>
    ensures { IfOk result (λ v. v.items ≡ made_line first (Verb.MergeIgnore (merged last None)) None ∷ []) }
{
    let events = merged(alloc, last, None)?;
    one_line(alloc, first, Verb::MergeIgnore { events }, None)
}

/// A merge of two last lines, and a line on it.
fn joined(
    alloc: Global,
    first: u32,
    last: Option<u32>,
    other: Option<u32>,
    verb: Verb,
) -> Result<Vec<Line>, NoMemory>
    requires { first < MAX_LINES }
    ensures { IfOk result (λ v. v.items ≡ made_line first (Verb.Merge (merged last other)) None ∷ made_line (first + 1) verb
        (Some first) ∷ []) }
{
    let events = merged(alloc, last, other)?;
    let mut lines = one_line(alloc, first, Verb::Merge { events }, None)?;
    put_line(alloc, &mut lines, first + 1, verb, Some(first))?;
    Ok(lines)
}

/// A user event, and its trigger on the last line.
fn event(alloc: Global, first: u32, last: Option<u32>) -> Result<Vec<Line>, NoMemory>
    requires { first < MAX_LINES }
    ensures { IfOk result (λ v. v.items ≡ made_line first Verb.User None ∷ made_line (first + 1) (Verb.Trigger first) last ∷ []) }
{
    let mut lines = one_line(alloc, first, Verb::User, None)?;
    put_line(
        alloc,
        &mut lines,
        first + 1,
        Verb::Trigger { user: first },
        last,
    )?;
    Ok(lines)
}

/// A section in which a column is added to the column of the sums.
fn section(alloc: Global, first: u32, draw: &Draw, last: Option<u32>) -> Result<Vec<Line>, NoMemory>
    requires { first < MAX_LINES }
    ensures { IfOk result (λ v. v.items ≡ made_line first (Verb.Acquire 0 false) last
        ∷ made_line (first + 1) (Verb.Reduce Op.Sum draw.now.column 8 0) (Some first)
        ∷ made_line (first + 2) (Verb.MergeIgnore ((first + 1) ∷ [])) None
        ∷ made_line (first + 3) (Verb.Release first) (Some (first + 2))
        ∷ []) }
{
    let add = Verb::Reduce {
        op: Op::Sum,
        source: draw.column,
        target: TOTAL_COLUMN,
        space: 0,
    };
    let events = merged(alloc, Some(first + 1), None)?;
    let free = Verb::Release { acquire: first };
    let take = Verb::Acquire {
        lock: 0,
        shared: false,
    };
    let mut lines = one_line(alloc, first, take, last)?;
    put_line(alloc, &mut lines, first + 1, add, Some(first))?;
    put_line(
        alloc,
        &mut lines,
        first + 2,
        Verb::MergeIgnore { events },
        None,
    )?;
    put_line(alloc, &mut lines, first + 3, free, Some(first + 2))?;
    Ok(lines)
}

/// The lines that a merge names: one where both are the same.
fn merged(alloc: Global, one: Option<u32>, other: Option<u32>) -> Result<LineList, NoMemory>
    ensures { IfOk result (λ list. list ≡ merged one other) }
{
    let mut events = LineList::new(alloc);
    if let Some(line) = one {
        events.push(line)?;
    }
    match other {
        Some(line) if one != Some(line) => events.push(line)?,
        _ => {}
    }
    Ok(events)
}
