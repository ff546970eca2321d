//! Edges with room for more.

ghost use Rattle.std.specs.Prelude.{◌≡◌, ◌<◌, ◌≤◌, ◌+◌, [], ◌∷◌, ◌++◌, length, OnOk};
ghost use Rattle.graph_indexes.specs.Rows.{KeepsEdges, EndsBelow, HasRoom, KeepsRoom, AddsEdge, AddsEdges, room_at};

use crate::side::Side;
use graph_terms::verb::Edge;
use index_spaces::NoMemory;
use smallvec::SmallVec;
use std::alloc::Global;
use std::marker::Model;

/// Edges, seen with how many more room is kept for. Most lines have one or two edges at an end, and
/// room for these takes no allocation.
#[derive(Drop)]
pub(crate) struct Stock {
    edges: SmallVec<Edge, 2>,
    kept: usize,
}

impl Model for Stock {
    ghost use Rattle.smallvec.specs.SmallVec.{HasRoomFor};
    ghost use Rattle.graph_indexes.specs.Rows.{Stock as StockValue};

    ghost Value = { StockValue };

    ghost view = { λ a. record {
      edges = a.edges.items;
      room = a.kept;
    } };

    ghost invariant = { λ a. HasRoomFor a.edges a.kept };
}

impl Stock {
    pub(crate) fn new(alloc: Global) -> Stock
        ensures { result.edges ≡ [] }
    {
        Stock {
            edges: SmallVec::new(alloc),
            kept: 0,
        }
    }

    pub(crate) fn edges(&self) -> &[Edge]
        ensures { result.now ≡ self.now.edges }
    {
        self.edges.as_slice()
    }

    /// Keeps room for one more edge.
    fn keep_room(&mut self) -> Result<(), NoMemory>
        ensures edges { self.new.edges ≡ self.old.edges }
        ensures keeps { self.old.room ≤ self.new.room }
        ensures more { OnOk result (self.new.room ≡ self.old.room + 1) }
    {
        let kept = self.kept.checked_add(1).ok_or(NoMemory)?;
        if self.edges.reserve(kept).is_err() {
            return Err(NoMemory);
        }
        self.kept = kept;
        Ok(())
    }

    fn push(&mut self, edge: Edge)
        requires { 0 < self.old.room }
        ensures edges { self.new.edges ≡ self.old.edges ++ edge ∷ [] }
        ensures room { self.old.room ≤ self.new.room + 1 }
    {
        self.edges.push_reserved(edge);
        self.kept -= 1;
    }
}

/// Keeps room for each edge at an end of it.
pub(crate) fn make_room(stocks: &mut [Stock], side: Side, given: &[Edge]) -> Result<(), NoMemory>
    requires { EndsBelow side given.now (length stocks.old) }
    ensures keeps { KeepsEdges stocks.old stocks.new }
    ensures room { OnOk result (HasRoom side stocks.new given.now) }
{
    for edge in given {
        keep_room_at(stocks, side.of(edge))?;
    }
    Ok(())
}

/// Adds each edge at an end of it.
pub(crate) fn add_all(stocks: &mut [Stock], side: Side, given: &[Edge])
    requires below { EndsBelow side given.now (length stocks.old) }
    requires room { HasRoom side stocks.old given.now }
    ensures { AddsEdges side stocks.old stocks.new given.now }
{
    for edge in given {
        push_at(stocks, side.of(edge), *edge);
    }
}

fn keep_room_at(stocks: &mut [Stock], place: u32) -> Result<(), NoMemory>
    requires { place < length stocks.old }
    ensures keeps { KeepsEdges stocks.old stocks.new }
    ensures room { OnOk result (KeepsRoom stocks.old stocks.new place) }
{
    let stock = &mut stocks[place as usize];
    stock.keep_room()
}

fn push_at(stocks: &mut [Stock], place: u32, edge: Edge)
    requires within { place < length stocks.old }
    requires room { 0 < room_at stocks.old place }
    ensures { AddsEdge stocks.old stocks.new place edge }
{
    let stock = &mut stocks[place as usize];
    stock.push(edge);
}
