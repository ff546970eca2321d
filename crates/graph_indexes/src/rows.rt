//! What a graph keeps for each of its lines.

ghost use Rattle.std.specs.Prelude.{◌≡◌, ℕ, ◌<◌, ◌^◌, ◌+◌, [], ◌∷◌, ◌++◌, length, map, slice_get, OnOk, OnErr};
ghost use Rattle.graph_indexes.specs.declared.side.Side.TheVariants.{From, To};
ghost use Rattle.graph_indexes.specs.Rows.{mark_at, NamesBelow, EndsBelow, HasRoom, AddsRow};

use crate::mark::{FRESH, Mark, mark_named};
use crate::side::Side;
use crate::stock::{Stock, add_all, make_room};
use graph_terms::verb::{Edge, Verb};
use index_spaces::NoMemory;
use index_spaces::room::{push, push_within, reserve};
use std::alloc::Global;
use std::marker::Model;

/// For each line the edges into it and from it, and its mark.
#[derive(Drop)]
pub struct Rows {
    alloc: Global,
    into: Vec<Stock>,
    from: Vec<Stock>,
    marks: Vec<Mark>,
}

impl Model for Rows {
    ghost use Rattle.std.specs.Prelude.{◌≡◌, length, map};
    ghost use Rattle.graph_indexes.specs.Rows.{RowsValue};

    ghost Value = { RowsValue };

    ghost view = { λ a. record {
      into = map (λ s. s.edges) a.into.items;
      from = map (λ s. s.edges) a.from.items;
      marks = a.marks.items;
    } };

    ghost invariant = { λ a. record {
      into_count : length a.into.items ≡ length a.marks.items;
      from_count : length a.from.items ≡ length a.marks.items;
    } };
}

impl Rows {
    ghost use Rattle.graph_terms.specs.Graph.{arrival_weight};

    /// No rows. It takes no memory.
    pub fn new(alloc: Global) -> Rows
        ensures { result ≡ record { into = []; from = []; marks = [] } }
    {
        Rows {
            alloc,
            into: Vec::new(alloc),
            from: Vec::new(alloc),
            marks: Vec::new(alloc),
        }
    }

    /// The edges that enter a line.
    pub fn edges_into(&self, i: u32) -> &[Edge]
        requires { i < length self.now.marks }
        ensures { slice_get self.now.into i ≡ Some result.now }
    {
        let stock = &self.into[i as usize];
        stock.edges()
    }

    /// The edges that leave a line.
    pub fn edges_from(&self, i: u32) -> &[Edge]
        requires { i < length self.now.marks }
        ensures { slice_get self.now.from i ≡ Some result.now }
    {
        let stock = &self.from[i as usize];
        stock.edges()
    }

    /// The mark of a line, and that of one that no line names where there is no such line.
    pub fn mark(&self, i: u32) -> Mark
        ensures { result ≡ mark_at self.now.marks i }
    {
        match self.marks.get(i as usize) {
            Some(mark) => *mark,
            None => FRESH,
        }
    }

    /// Adds a row for a line that does this and gives these edges. `NoMemory` leaves the rows as
    /// they were.
    pub fn add(&mut self, verb: &Verb, given: &[Edge]) -> Result<(), NoMemory>
        requires from_below { EndsBelow From given.now (length self.old.marks + 1) }
        requires to_below { EndsBelow To given.now (length self.old.marks + 1) }
        requires named { NamesBelow (length self.old.marks) verb.now }
        requires few { (i : ℕ) → (mark_at self.old.marks i).arrivals + arrival_weight i verb.now < 2 ^ 64 }
        ensures ok { OnOk result (AddsRow self.old self.new verb.now given.now) }
        ensures err { OnErr result (self.new ≡ self.old) }
    {
        reserve(&mut self.marks, 1)?;
        open(self.alloc, &mut self.into, Side::To, given)?;
        if let Err(error) = open(self.alloc, &mut self.from, Side::From, given) {
            let _ = self.into.pop();
            return Err(error);
        }
        add_all(&mut self.into, Side::To, given);
        add_all(&mut self.from, Side::From, given);
        mark_named(&mut self.marks, verb);
        push_within(&mut self.marks, FRESH);
        Ok(())
    }
}

/// Adds an empty list of edges, and keeps room for each of these edges at an end of it.
fn open(alloc: Global, stocks: &mut Vec<Stock>, side: Side, given: &[Edge]) -> Result<(), NoMemory>
    requires { EndsBelow side given.now (length stocks.old.items + 1) }
    ensures opened { OnOk result (map (λ s. s.edges) stocks.new.items ≡ map (λ s. s.edges) stocks.old.items ++ [] ∷ []) }
    ensures room { OnOk result (HasRoom side stocks.new.items given.now) }
    ensures err { OnErr result (map (λ s. s.edges) stocks.new.items ≡ map (λ s. s.edges) stocks.old.items) }
{
    push(stocks, Stock::new(alloc))?;
    if let Err(error) = make_room(stocks, side, given) {
        let _ = stocks.pop();
        return Err(error);
    }
    Ok(())
}
