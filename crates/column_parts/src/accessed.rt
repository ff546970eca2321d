//! The spaces over which each column is accessed.

ghost use Rattle.std.specs.Prelude.{◌≡◌, ◌<◌, ◌⊎◌, ◌↔◌, [], ℕ, length, Contains, Some, slice_get, IfOk, OnOk, Vec};
ghost use Rattle.std.specs.Global.{Global};
ghost use Rattle.graph_terms.specs.Graph.{columns};
ghost use Rattle.column_parts.specs.Accessed.{AreNoted, NotesPlace, NotesLine, Keeps};

use graph_meaning::line_laws::{accesses_are_few, accesses_fit};
use graph_model::graph::Graph;
use graph_terms::limits::MOST_ACCESSES;
use index_spaces::NoMemory;
use index_spaces::room::{filled, push, with_room};
use std::alloc::Global;

/// For each column the numbers of the spaces over which it is accessed.
pub(crate) fn noted_spaces(alloc: Global, graph: &Graph) -> Result<Vec<Vec<u32>>, NoMemory>
    ensures { IfOk result (λ v. AreNoted graph.now v.items (length graph.now.lines)) }
{
    let mut lists = empty_lists(alloc, graph.columns())?;
    for i in 0..graph.lines() {
        note_line(&mut lists, graph, i)?;
    }
    Ok(lists)
}

/// No spaces of so many columns.
fn empty_lists(alloc: Global, count: u32) -> Result<Vec<Vec<u32>>, NoMemory>
    ensures count { IfOk result (λ v. length v.items ≡ count) }
    ensures none { IfOk result (λ v. (c : ℕ) (x : Vec ℕ Global) → slice_get v.items c ≡ Some x → x.items ≡ []) }
{
    let mut lists = with_room(alloc, count as usize)?;
    for _column in 0..count {
        push(&mut lists, Vec::new(alloc))?;
    }
    Ok(lists)
}

/// Notes the accesses of a line.
fn note_line(lists: &mut Vec<Vec<u32>>, graph: &Graph, i: u32) -> Result<(), NoMemory>
    requires line { i < length graph.now.lines }
    requires count { length lists.old.items ≡ length (columns graph.now) }
    ensures { OnOk result (NotesLine graph.now lists.old.items lists.new.items i) }
{
    accesses_are_few();
    for k in 0..MOST_ACCESSES {
        note_place(lists, graph, i, k)?;
    }
    Ok(())
}

/// Notes the access of number `k` of a line, where there is one.
fn note_place(lists: &mut Vec<Vec<u32>>, graph: &Graph, i: u32, k: u32) -> Result<(), NoMemory>
    requires line { i < length graph.now.lines }
    requires count { length lists.old.items ≡ length (columns graph.now) }
    ensures { OnOk result (NotesPlace graph.now lists.old.items lists.new.items i k) }
{
    accesses_fit();
    let _ = graph.lines();
    match graph.access(i, k) {
        Some(access) => note(&mut lists[access.column as usize], access.space),
        None => Ok(()),
    }
}

/// Notes a space. One that was noted last is not noted again.
fn note(list: &mut Vec<u32>, s: u32) -> Result<(), NoMemory>
    ensures { OnOk result ((t : ℕ) → Contains list.new.items t ↔ (Contains list.old.items t ⊎ (s ≡ t))) }
{
    if list.last() == Some(&s) {
        return Ok(());
    }
    push(list, s)
}

/// The same numbers, each once.
pub(crate) fn distinct(alloc: Global, numbers: &[u32], spaces: u32) -> Result<Vec<u32>, NoMemory>
    requires { (s : ℕ) → Contains numbers.now s → s < spaces }
    ensures { IfOk result (λ v. (s : ℕ) → Contains v.items s ↔ Contains numbers.now s) }
{
    let mut distinct = Vec::new(alloc);
    let mut seen = filled(alloc, false, spaces as usize)?;
    for s in numbers {
        keep(&mut distinct, &mut seen, *s)?;
    }
    Ok(distinct)
}

/// Puts a number at the end, unless it was seen.
fn keep(distinct: &mut Vec<u32>, seen: &mut Vec<bool>, s: u32) -> Result<(), NoMemory>
    requires { s < length seen.old.items }
    ensures { OnOk result (Keeps s distinct.old.items seen.old.items distinct.new.items seen.new.items) }
{
    if seen[s as usize] {
        return Ok(());
    }
    seen[s as usize] = true;
    push(distinct, s)
}
