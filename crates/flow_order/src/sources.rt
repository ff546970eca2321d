//! The sources of the lines.

ghost use Rattle.std.specs.Prelude.{◌≡◌, ℕ, ◌+◌, ◌<◌, ◌/◌, ◌||◌, ◌++◌, [], ◌∷◌, cond, false, length, filter, flat_map, not, Contains, IfOk, OnOk, MatchOption};
ghost use Rattle.graph_terms.specs.Access.{accesses};
ghost use Rattle.flow_order.specs.Bits.{word_bit};
ghost use Rattle.std.specs.List.{list_any};
ghost use Rattle.flow_order.specs.Rows.{AreRows, IsKept, parts_at, words_for};
ghost use Rattle.flow_order.specs.SourceParts.{down_from, tied_by, has, is_large, is_reached, large_from, least, parts_of, sources_after};

use crate::bits::Bits;
use crate::row::Row;
use crate::rows::Rows;
use graph_meaning::line_laws::{accesses_are_few, accesses_fit};
use graph_model::graph::Graph;
use graph_terms::format::Format;
use graph_terms::limits::{MAX_EVENTS_OF_THREE, MOST_ACCESSES};
use graph_terms::lists::LineList;
use graph_terms::verb::Access;
use index_spaces::NoMemory;
use index_spaces::room::push;
use std::alloc::Global;
use std::marker::Model;

/// From so many lines on a part stays whole in formats 1 and 2, so that lines share it.
const LARGE: u32 = 8;

/// The sources of a line: large parts, which lines share, and the others.
#[derive(Drop)]
pub struct Parts {
    pub large: Vec<LineList>,
    pub small: LineList,
}

impl Model for Parts {
    ghost use Rattle.flow_order.specs.SourceParts.{Parts as PartsValue};

    ghost Value = { PartsValue };

    ghost view = { λ a. record { large = a.large.items; small = a.small } };
}

/// Whether a line is in a list.
pub fn has(part: &LineList, line: u32) -> bool
    ensures { result ≡ has part.now line }
{
    part.items.iter().any(|other| *other == line)
}

/// The sources of the line that comes next, by the rows of those before it.
pub fn parts_of(alloc: Global, flow: &Graph, commute: bool, rows: &Rows) -> Result<Parts, NoMemory>
    requires rows { IsKept flow.now commute rows.now }
    requires next { length rows.now.rows.items < length flow.now.lines }
    ensures { IfOk result (λ p. p ≡ parts_of flow.now commute (sources_after flow.now commute (length rows.now.rows.items)) (length rows.now.rows.items)) }
{
    let (large, mut few) = parts_by_access(alloc, flow, commute, rows)?;
    // The least of one part is that part.
    if let Some(small) = only_part(large.as_slice(), &mut few) {
        return Ok(Parts { large, small });
    }
    let asked = rows.asked_among(alloc, few.as_slice())?;
    let small = least(alloc, flow, commute, rows, large.as_slice(), &asked)?;
    Ok(Parts { large, small })
}

/// Takes the one part out, where there is only one and none is large.
fn only_part(large: &[LineList], few: &mut Vec<LineList>) -> Option<LineList>
    ensures { MatchOption result (few.new.items ≡ few.old.items) (λ p. (large.now ≡ []) × (few.old.items ≡ p ∷ [])) }
{
    if !large.is_empty() {
        return None;
    }
    if few.len() != 1 {
        return None;
    }
    few.pop()
}

/// For each access of the next line the least of the lines that it ties: the large parts, and the
/// others.
fn parts_by_access(
    alloc: Global,
    flow: &Graph,
    commute: bool,
    rows: &Rows,
) -> Result<(Vec<LineList>, Vec<LineList>), NoMemory>
    requires rows { IsKept flow.now commute rows.now }
    requires next { length rows.now.rows.items < length flow.now.lines }
    ensures large { IfOk result (λ r. r.0.items ≡ filter (is_large flow.now.format) (parts_at flow.now commute (length rows.now.rows.items) (accesses flow.now (length rows.now.rows.items)))) }
    ensures few { IfOk result (λ r. r.1.items ≡ filter (λ p. not (is_large flow.now.format p)) (parts_at flow.now commute (length rows.now.rows.items) (accesses flow.now (length rows.now.rows.items)))) }
{
    accesses_fit();
    accesses_are_few();
    let _ = flow.lines();
    let line = rows.rows.len() as u32;
    let mut large = Vec::new(alloc);
    let mut few = Vec::new(alloc);
    for k in 0..MOST_ACCESSES {
        let Some(access) = flow.access(line, k) else {
            break;
        };
        let asked = rows.asked_by(alloc, flow, commute, access)?;
        let part = least(alloc, flow, commute, rows, &[], &asked)?;
        keep_part(flow.format(), &mut large, &mut few, part)?;
    }
    Ok((large, few))
}

/// From so many lines on a part stays whole in a format: in format 3 where a line names fewer behind
/// its `on`.
fn large_from(format: Format) -> u32
    ensures { result ≡ large_from format }
{
    match format {
        Format::One | Format::Two => LARGE,
        Format::Three => MAX_EVENTS_OF_THREE + 1,
    }
}

/// Puts a part at the end of the large ones, or of the others.
fn keep_part(
    format: Format,
    large: &mut Vec<LineList>,
    few: &mut Vec<LineList>,
    part: LineList,
) -> Result<(), NoMemory>
    ensures large { OnOk result (large.new.items ≡ cond (is_large format part) (large.old.items ++ part ∷ []) large.old.items) }
    ensures few { OnOk result (few.new.items ≡ cond (is_large format part) few.old.items (few.old.items ++ part ∷ [])) }
{
    if part.len() >= large_from(format) {
        push(large, part)
    } else {
        push(few, part)
    }
}

/// Of the lines with these bits, the highest first, those that reach none of the others and none of
/// those that are kept.
fn least(
    alloc: Global,
    flow: &Graph,
    commute: bool,
    rows: &Rows,
    kept: &[LineList],
    asked: &Bits,
) -> Result<LineList, NoMemory>
    requires rows { AreRows flow.now commute rows.now.rows.items }
    requires next { length rows.now.rows.items < length flow.now.lines }
    requires kept { (i : ℕ) → Contains (flat_map (λ p. p) kept.now) i → i < length rows.now.rows.items }
    requires asked { length asked.now ≡ words_for (length rows.now.rows.items) }
    ensures { IfOk result (λ part. part ≡ least (sources_after flow.now commute (length rows.now.rows.items)) (flat_map (λ p. p) kept.now) (filter (word_bit asked.now) (down_from (length rows.now.rows.items)))) }
{
    let _ = flow.lines();
    let mut above = rows.rows.len() as u32;
    let mut part = LineList::new(alloc);
    if kept.is_empty() {
        // Most lines wait for one line alone: no mask of what reaches it is needed then.
        if let Some(line) = asked.only_below(alloc, above) {
            part.push(line)?;
            return Ok(part);
        }
    }
    let mut mask = mask_of(alloc, flow, commute, rows, kept)?;
    'lines: while let Some(line) = asked.last_below(&mask, above) {
        above = line;
        part.push(line)?;
        if asked.has_none_below(line) {
            return Ok(part);
        }
        rows.reach(&mut mask, line);
    }
    Ok(part)
}

/// A bit for each line of some lists, and for each that reaches one of them.
fn mask_of(
    alloc: Global,
    flow: &Graph,
    commute: bool,
    rows: &Rows,
    kept: &[LineList],
) -> Result<Bits, NoMemory>
    requires rows { AreRows flow.now commute rows.now.rows.items }
    requires kept { (i : ℕ) → Contains (flat_map (λ p. p) kept.now) i → i < length rows.now.rows.items }
    ensures size { IfOk result (λ mask. length mask ≡ words_for (length rows.now.rows.items)) }
    ensures bits { IfOk result (λ mask. (i : ℕ) → word_bit mask i ≡ is_reached (sources_after flow.now commute (length rows.now.rows.items)) (flat_map (λ p. p) kept.now) i) }
{
    let mut mask = Bits::zeros(alloc, rows.words())?;
    for part in kept {
        reach_all(flow, commute, rows, &mut mask, part);
    }
    Ok(mask)
}

/// Sets the bits of the lines of a list, and of those that reach one of them.
fn reach_all(flow: &Graph, commute: bool, rows: &Rows, mask: &mut Bits, part: &LineList)
    requires rows { AreRows flow.now commute rows.now.rows.items }
    requires size { length mask.old ≡ words_for (length rows.now.rows.items) }
    requires part { (i : ℕ) → Contains part.now i → i < length rows.now.rows.items }
    ensures size { length mask.new ≡ length mask.old }
    ensures bits { (i : ℕ) → word_bit mask.new i ≡ (word_bit mask.old i || is_reached (sources_after flow.now commute (length rows.now.rows.items)) part.now i) }
{
    for line in part.items.as_slice() {
        rows.reach(mask, *line);
    }
}

/// The row of the next line, by its sources.
pub fn add_row(
    alloc: Global,
    flow: &Graph,
    commute: bool,
    rows: &mut Rows,
    parts: &Parts,
) -> Result<(), NoMemory>
    requires rows { IsKept flow.now commute rows.old }
    requires next { length rows.old.rows.items < length flow.now.lines }
    requires parts { parts.now ≡ parts_of flow.now commute (sources_after flow.now commute (length rows.old.rows.items)) (length rows.old.rows.items) }
    ensures rows { OnOk result (IsKept flow.now commute rows.new) }
    ensures more { OnOk result (length rows.new.rows.items ≡ length rows.old.rows.items + 1) }
{
    let _ = flow.lines();
    let line = rows.rows.len() as u32;
    let mut mask = mask_of(alloc, flow, commute, rows, parts.large.as_slice())?;
    reach_all(flow, commute, rows, &mut mask, &parts.small);
    let row = Row::of(alloc, &mask)?;
    push(&mut rows.rows, row)?;
    rows.uses.add_line(alloc, flow, commute, line, &mask)?;
    Ok(())
}
