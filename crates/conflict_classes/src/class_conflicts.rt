//! Which classes conflict.

ghost use Rattle.std.specs.Prelude.{◌≡◌, ℕ, ◌<◌, ◌≤◌, [], length, Vec, Contains, Some, slice_get, IsTrue, OnOk, IfOk, IfSome};
ghost use Rattle.std.specs.Global.{Global};
ghost use Rattle.graph_terms.specs.Graph.{space_at};
ghost use Rattle.conflict_classes.specs.Classes.{AreNear, IsNear};
ghost use Rattle.conflict_classes.specs.Spots.{IsSpan, IsSpot, AreSpots, AreAscending, AreLinkedTo, IsLinkedTo, AreGrown, AreLinked, IsFar, IsUpTo};

use crate::clash::clash;
use graph_model::graph::Graph;
use graph_terms::verb::Access;
use index_spaces::NoMemory;
use index_spaces::room::{push, with_room};
use index_spaces::space::Space;
use std::alloc::Global;

/// How many pairs of classes are compared at most for each line of a graph.
const PAIRS_OF_LINE: u32 = 16;

/// How many are compared in a graph of few lines.
const FEWEST_PAIRS: u32 = 131_072;

/// A class with its column and the first and the last point of its space.
#[derive(Clone, Copy)]
pub(crate) struct Spot {
    column: u32,
    first: u32,
    last: u32,
    class: u32,
}

/// For each class the other classes that it conflicts with, or `None` where too many spaces
/// overlap.
pub(crate) fn near_classes(
    alloc: Global,
    graph: &Graph,
    keys: &[Access],
) -> Result<Option<Vec<Vec<u32>>>, NoMemory>
    requires { length keys.now < 4294967296 }
    ensures { IfOk result (λ o. IfSome o (λ v. AreNear graph.now keys.now v.items)) }
{
    let Some(mut spots) = spots(alloc, graph, keys)? else {
        return Ok(None);
    };
    spots.sort_unstable_by_key(|spot| (spot.column as u64) << 32 | spot.first as u64);
    if !are_ascending(spots.as_slice()) {
        return Ok(None);
    }
    let mut linking = Linking {
        near: empty_lists(alloc, keys.len())?,
        left: most_pairs(graph),
    };
    for place in 0..spots.len() {
        if !linking.link_from(graph, keys, spots.as_slice(), place)? {
            return Ok(None);
        }
    }
    Ok(Some(linking.near))
}

/// How many pairs of classes of a graph are compared at most.
fn most_pairs(graph: &Graph) -> u32 {
    FEWEST_PAIRS.max(PAIRS_OF_LINE * graph.lines())
}

/// The spots of all classes, or `None` where a space isn't known.
fn spots(alloc: Global, graph: &Graph, keys: &[Access]) -> Result<Option<Vec<Spot>>, NoMemory>
    requires { length keys.now < 4294967296 }
    ensures { IfOk result (λ o. IfSome o (λ v. AreSpots graph.now keys.now (length keys.now) v.items)) }
{
    let spaces = graph.spaces();
    let mut spots = with_room(alloc, keys.len())?;
    for class in 0..keys.len() {
        let key = keys[class];
        if key.space >= spaces {
            return Ok(None);
        }
        let (first, last) = span(graph.space(key.space));
        push(
            &mut spots,
            Spot {
                column: key.column,
                first,
                last,
                class: class as u32,
            },
        )?;
    }
    Ok(Some(spots))
}

/// The first and the last point of a space.
fn span(space: &Space) -> (u32, u32)
    ensures { IsSpan space.now result.0 result.1 }
{
    let mut first = u32::MAX;
    let mut last = 0;
    let intervals = space.intervals();
    for interval in intervals {
        first = first.min(interval.0);
        last = last.max(interval.1);
    }
    (first, last)
}

/// Whether spots stand by column and by first point.
fn are_ascending(spots: &[Spot]) -> bool
    ensures { IsTrue result → AreAscending spots.now }
{
    for place in 1..spots.len() {
        if !is_up_to(spots[place - 1], spots[place]) {
            return false;
        }
    }
    true
}

fn is_up_to(one: Spot, other: Spot) -> bool
    ensures { IsTrue result → IsUpTo one other }
{
    one.column < other.column || (one.column == other.column && one.first <= other.first)
}

/// Whether another class is of another column or begins behind the end of a class.
fn is_far(spot: Spot, other: Spot) -> bool
    ensures { IsTrue result → IsFar spot other }
{
    other.column != spot.column || spot.last < other.first
}

/// So many lists without items.
fn empty_lists(alloc: Global, count: usize) -> Result<Vec<Vec<u32>>, NoMemory>
    ensures size { IfOk result (λ v. length v.items ≡ count) }
    ensures none { IfOk result (λ v. (c d : ℕ) → IsNear v.items c d → ⊥) }
{
    let mut lists = with_room(alloc, count)?;
    for _list in 0..count {
        push(&mut lists, Vec::new(alloc))?;
    }
    Ok(lists)
}

/// Classes that are linked, and how many more pairs are compared.
#[derive(Drop)]
struct Linking {
    near: Vec<Vec<u32>>,
    left: u32,
}

impl Linking {
    /// Links the class at a place with those after it that it conflicts with. `false` says that too
    /// many pairs were compared.
    fn link_from(
        &mut self,
        graph: &Graph,
        keys: &[Access],
        spots: &[Spot],
        place: usize,
    ) -> Result<bool, NoMemory>
        requires place { place < length spots.now }
        requires spots { AreSpots graph.now keys.now (length keys.now) spots.now }
        requires ascending { AreAscending spots.now }
        requires size { length self.old.near.items ≡ length keys.now }
        ensures grown { OnOk result (AreGrown (length keys.now) self.old.near.items self.new.near.items) }
        ensures linked { IfOk result (λ b. IsTrue b → (q : ℕ) → IsLinkedTo graph.now keys.now spots.now self.new.near.items place q) }
    {
        let spot = spots[place];
        for at in place + 1..spots.len() {
            let other = spots[at];
            if is_far(spot, other) {
                return Ok(true);
            }
            if self.left == 0 {
                return Ok(false);
            }
            self.left -= 1;
            self.link(graph, keys, spot, other)?;
        }
        Ok(true)
    }

    /// Links two classes where they conflict.
    fn link(
        &mut self,
        graph: &Graph,
        keys: &[Access],
        spot: Spot,
        other: Spot,
    ) -> Result<(), NoMemory>
        requires spot { IsSpot graph.now keys.now spot }
        requires other { IsSpot graph.now keys.now other }
        requires size { length self.old.near.items ≡ length keys.now }
        ensures grown { OnOk result (AreGrown (length keys.now) self.old.near.items self.new.near.items) }
        ensures linked { OnOk result (AreLinked graph.now keys.now self.new.near.items spot other) }
        ensures left { self.new.left ≡ self.old.left }
    {
        let one = keys[spot.class as usize];
        let two = keys[other.class as usize];
        if clash(graph, one, two, true) {
            self.add(spot.class, other.class)?;
            self.add(other.class, spot.class)?;
        }
        Ok(())
    }

    /// Puts a class beside another.
    fn add(&mut self, class: u32, other: u32) -> Result<(), NoMemory>
        requires class { class < length self.old.near.items }
        requires other { other < length self.old.near.items }
        ensures grown { OnOk result (AreGrown (length self.old.near.items) self.old.near.items self.new.near.items) }
        ensures added { OnOk result (IsNear self.new.near.items class other) }
        ensures left { self.new.left ≡ self.old.left }
    {
        push(&mut self.near[class as usize], other)
    }
}
