//! Letting go of the slots of a run that is not to be, with its columns.

ghost use Rattle.std.specs.Prelude.{ℕ, ◌≡◌, ◌≢◌, ◌<◌, length, slice_get};
ghost use Rattle.index_spaces.specs.Column.{ColumnValue};
ghost use Rattle.graph_terms.specs.Graph.{columns};
ghost use Rattle.word_steps.specs.Layout.{size_of, share_slot};
ghost use Rattle.word_steps.specs.Lending.{all_for};
ghost use Rattle.word_parts.specs.Preparing.{AreLoose, LiesStill};
ghost use Rattle.share_words.specs.Shares.{AreShares, share_count};

use crate::closed_slots::joined;
use crate::preparing::discard;
use graph_model::graph::Graph;
use index_spaces::shares::ColumnShare;
use share_words::ShareCounts;
use std::mem::replace;
use word_steps::{Content, column_of};

/// All shares of a column, out of their places, if it has some.
fn shares_in(graph: &Graph, planes: u32, slots: &mut Vec<Content>, c: u32) -> Option<ColumnShare>
    requires known { c < length (columns graph.now) }
    requires planes { planes ≡ (size_of graph.now).planes }
    requires there { (d : ℕ) × (x : ColumnValue) × LiesStill graph.now slots.old.items c d x }
    requires loose { AreLoose slots.old.items }
    ensures all { (d : ℕ) (x : ColumnValue) → LiesStill graph.now slots.old.items c d x → result ≡ all_for (share_count graph.now c) d x }
    ensures others { (k : ℕ) → ((j : ℕ) → j < planes → k ≢ share_slot (size_of graph.now) c j)
        → slice_get slots.new.items k ≡ slice_get slots.old.items k }
    ensures loose { AreLoose slots.new.items }
{
    let columns = graph.columns() as usize;
    let first = graph.lines() as usize + columns + c as usize;
    let mut all = None;
    for j in 0..planes {
        let content = replace(&mut slots[first + j as usize * columns], Content::Nothing);
        all = joined(all, content);
    }
    all
}

/// Puts each column together again, and frees it.
fn free_columns(graph: &Graph, shares: &ShareCounts, slots: &mut Vec<Content>)
    requires shares { AreShares graph.now shares.now }
    requires lie { (c : ℕ) → c < length (columns graph.now) → (d : ℕ) × (x : ColumnValue) × LiesStill graph.now slots.old.items c d x }
    requires loose { AreLoose slots.old.items }
    ensures { AreLoose slots.new.items }
{
    let lines = graph.lines() as usize;
    for c in 0..graph.columns() {
        let all = shares_in(graph, shares.planes(), slots, c);
        let content = replace(&mut slots[lines + c as usize], Content::Nothing);
        drop(column_of(content, all));
    }
}

/// Lets go of the slots of a run that is not to be. A column that is lent is put together again first,
/// since a right to have it back that is dropped frees nothing.
pub(crate) fn free_slots(graph: &Graph, shares: &ShareCounts, mut slots: Vec<Content>)
    requires shares { AreShares graph.now shares.now }
    requires lie { (c : ℕ) → c < length (columns graph.now) → (d : ℕ) × (x : ColumnValue) × LiesStill graph.now slots.items c d x }
    requires loose { AreLoose slots.items }
{
    free_columns(graph, shares, &mut slots);
    discard(slots);
}
