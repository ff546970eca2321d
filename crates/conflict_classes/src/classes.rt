//! The classes of accesses.

ghost use Rattle.std.specs.Prelude.{◌≡◌, ℕ, ◌+◌, ◌<◌, ◌≤◌, List, length, Some, slice_get, OnOk, IfOk, IfSome};
ghost use Rattle.graph_terms.specs.declared.verb.Access.{Access};
ghost use Rattle.graph_terms.specs.Graph.{GraphValue};
ghost use Rattle.conflict_classes.specs.Classes.{AreClasses, AreClassesTo};
ghost use Rattle.sweep_base.specs.Placed.{IsPlaced};

use graph_model::graph::Graph;
use graph_terms::limits::MAX_CALL_ACCESSES;
use graph_terms::verb::{Access, Mode};
use index_spaces::NoMemory;
use index_spaces::room::{filled, push, with_room};
use std::alloc::Global;

/// The fewest heads of lists, from which on their number is doubled.
const FEWEST_HEADS: usize = 16;

/// From how many heads on their number is doubled no more.
const MOST_HEADS: usize = 131_072;

/// How far a list is searched.
const MOST_STEPS: u32 = 64;

/// The access of each class; the class of each access of a line, by its number, and the place of
/// its line; and for each place the number of the first access of the line there, with the count of
/// all behind them. The accesses are numbered place by place; those of lines from the limit on are
/// left out.
#[derive(Drop)]
pub(crate) struct Classes {
    pub(crate) limit: u32,
    pub(crate) keys: Vec<Access>,
    pub(crate) of: Vec<u32>,
    pub(crate) sites: Vec<u32>,
    pub(crate) begins: Vec<u32>,
}

/// The classes of the accesses of the lines below a limit.
pub(crate) fn classes_of_lines(
    alloc: Global,
    graph: &Graph,
    order: &[u32],
    limit: u32,
) -> Result<Classes, NoMemory>
    requires { IsPlaced graph.now order.now }
    ensures limit { IfOk result (λ s. s.limit ≡ limit) }
    ensures classes { IfOk result (λ s. AreClasses graph.now s.limit order.now s.keys.items s.of.items s.sites.items s.begins.items) }
{
    let lines = graph.lines();
    let mut classing = Classing::new(alloc, lines, limit)?;
    for place in 0..lines {
        classing.add_line(graph, order, place)?;
    }
    Ok(classing.classes)
}

/// Classes under way, with lists of those that one head stands for.
#[derive(Drop)]
struct Classing {
    classes: Classes,
    heads: Vec<Option<u32>>,
    next: Vec<Option<u32>>,
}

impl Classing {
    /// No classes of so many lines.
    fn new(alloc: Global, lines: u32, limit: u32) -> Result<Classing, NoMemory>
        ensures limit { IfOk result (λ s. s.classes.limit ≡ limit) }
        ensures classes { IfOk result (λ s. (g : GraphValue) (lines : List ℕ) → AreClassesTo g s.classes.limit lines s.classes.keys.items s.classes.of.items s.classes.sites.items s.classes.begins.items 0 0) }
        ensures heads { IfOk result (λ s. 0 < length s.heads.items) }
    {
        let mut begins = with_room(alloc, lines as usize + 1)?;
        push(&mut begins, 0)?;
        let classes = Classes {
            limit,
            keys: Vec::new(alloc),
            of: with_room(alloc, lines as usize)?,
            sites: with_room(alloc, lines as usize)?,
            begins,
        };
        let heads = filled(alloc, None, heads_for(lines))?;
        Ok(Classing {
            classes,
            heads,
            next: Vec::new(alloc),
        })
    }

    /// Adds the accesses of the line at the next place.
    fn add_line(&mut self, graph: &Graph, order: &[u32], place: u32) -> Result<(), NoMemory>
        requires placed { IsPlaced graph.now order.now }
        requires place { place < length order.now }
        requires heads { 0 < length self.old.heads.items }
        requires classes { AreClassesTo graph.now self.old.classes.limit order.now self.old.classes.keys.items self.old.classes.of.items self.old.classes.sites.items self.old.classes.begins.items place 0 }
        ensures limit { self.new.classes.limit ≡ self.old.classes.limit }
        ensures heads { OnOk result (0 < length self.new.heads.items) }
        ensures classes { OnOk result (AreClassesTo graph.now self.new.classes.limit order.now self.new.classes.keys.items self.new.classes.of.items self.new.classes.sites.items self.new.classes.begins.items (place + 1) 0) }
    {
        let _ = graph.lines();
        self.add_accesses(graph, order, place)?;
        let end = self.classes.of.len() as u32;
        push(&mut self.classes.begins, end)
    }

    /// Gives the accesses of the line at a place their numbers, where it stands below the limit.
    fn add_accesses(&mut self, graph: &Graph, order: &[u32], place: u32) -> Result<(), NoMemory>
        requires placed { IsPlaced graph.now order.now }
        requires place { place < length order.now }
        requires heads { 0 < length self.old.heads.items }
        requires classes { AreClassesTo graph.now self.old.classes.limit order.now self.old.classes.keys.items self.old.classes.of.items self.old.classes.sites.items self.old.classes.begins.items place 0 }
        ensures limit { self.new.classes.limit ≡ self.old.classes.limit }
        ensures heads { OnOk result (0 < length self.new.heads.items) }
        ensures classes { OnOk result (AreClassesTo graph.now self.new.classes.limit order.now self.new.classes.keys.items self.new.classes.of.items self.new.classes.sites.items self.new.classes.begins.items place 8) }
    {
        let _ = graph.lines();
        let line = order[place as usize];
        if line >= self.classes.limit {
            return Ok(());
        }
        for k in 0..MAX_CALL_ACCESSES {
            let Some(access) = graph.any_access(line, k) else {
                return Ok(());
            };
            let class = self.class_of(access)?;
            push(&mut self.classes.of, class)?;
            push(&mut self.classes.sites, place)?;
        }
        Ok(())
    }

    /// The class of an access, which is added where it is new.
    fn class_of(&mut self, access: Access) -> Result<u32, NoMemory>
        requires heads { 0 < length self.old.heads.items }
        requires few { length self.old.classes.keys.items < 4294967295 }
        ensures heads { OnOk result (0 < length self.new.heads.items) }
        ensures limit { self.new.classes.limit ≡ self.old.classes.limit }
        ensures of { self.new.classes.of.items ≡ self.old.classes.of.items }
        ensures sites { self.new.classes.sites.items ≡ self.old.classes.sites.items }
        ensures begins { self.new.classes.begins.items ≡ self.old.classes.begins.items }
        ensures few { OnOk result (length self.new.classes.keys.items ≤ length self.old.classes.keys.items + 1) }
        ensures kept { OnOk result ((c : ℕ) (a : Access) → slice_get self.old.classes.keys.items c ≡ Some a → slice_get self.new.classes.keys.items c ≡ Some a) }
        ensures class { IfOk result (λ c. slice_get self.new.classes.keys.items c ≡ Some access) }
    {
        let head = head_of(access, self.heads.len());
        let first = self.heads[head];
        if let Some(class) = self.find(first, access) {
            return Ok(class);
        }
        let class = self.classes.keys.len() as u32;
        push(&mut self.classes.keys, access)?;
        push(&mut self.next, first)?;
        self.heads[head] = Some(class);
        Ok(class)
    }

    /// The class of an access in a list, as far as it is searched.
    fn find(&self, first: Option<u32>, access: Access) -> Option<u32>
        ensures { IfSome result (λ c. slice_get self.now.classes.keys.items c ≡ Some access) }
    {
        let mut found = first;
        for _step in 0..MOST_STEPS {
            let class = found?;
            let key = *self.classes.keys.get(class as usize)?;
            if key == access {
                return Some(class);
            }
            found = *self.next.get(class as usize)?;
        }
        None
    }
}

/// How many heads of lists serve so many lines: twice as many, or the next power of two, so that
/// lists are short and a graph of few lines has few heads.
fn heads_for(lines: u32) -> usize
    ensures { 0 < result }
{
    let wanted = 2 * lines as u64;
    let mut heads = FEWEST_HEADS;
    while heads < MOST_HEADS && (heads as u64) < wanted {
        heads *= 2;
    }
    heads
}

/// The head whose list an access is in, of so many.
fn head_of(access: Access, heads: usize) -> usize
    requires { 0 < heads }
    ensures { result < heads }
{
    let mode = match access.mode {
        Mode::Read => 0,
        Mode::Write => 1,
        Mode::Sum => 2,
        Mode::Least => 3,
        Mode::Most => 4,
    };
    let mixed = access.column as u64 * 40_503 + access.space as u64 * 5 + mode;
    (mixed % heads as u64) as usize
}
