//! The reservations that guard classes of reductions.

ghost use Rattle.std.specs.Prelude.{◌≡◌, ℕ, ◌+◌, ◌<◌, List, length, slice_index, IfOk};
ghost use Rattle.graph_terms.specs.Graph.{GraphValue, locks};
ghost use Rattle.graph_terms.specs.Reservations.{Acquires};
ghost use Rattle.conflict_classes.specs.Classes.{AreClasses};
ghost use Rattle.conflict_classes.specs.Guards.{AreGuards, AreOpened, IsBeforeStart, slot_of};
ghost use Rattle.sweep_base.specs.Held.{IsHeld};
ghost use Rattle.sweep_base.specs.Placed.{IsPlaced};

use crate::clash::is_reduction;
use crate::classes::Classes;
use graph_model::graph::Graph;
use index_spaces::NoMemory;
use index_spaces::room::{filled, push, with_room};
use std::alloc::Global;
use sweep_base::line_sections::Held;

/// The reservation that guards each class, in sections of which all its members lie, and for each
/// access of such a class the first place with a member of one in its section, or in any shared one
/// of the reservation where its section is shared.
#[derive(Drop)]
pub(crate) struct Guards {
    pub(crate) locks: Vec<Option<u32>>,
    pub(crate) starts: Vec<u32>,
}

/// The guards of the classes of all lines.
pub(crate) fn guards_of(
    alloc: Global,
    graph: &Graph,
    order: &[u32],
    classes: &Classes,
    held: &Held,
) -> Result<Guards, NoMemory>
    requires placed { IsPlaced graph.now order.now }
    requires classes { AreClasses graph.now classes.now.limit order.now classes.now.keys.items classes.now.of.items classes.now.sites.items classes.now.begins.items }
    requires held { IsHeld graph.now held.now }
    ensures { IfOk result (λ s. AreGuards graph.now order.now classes.now.keys.items classes.now.of.items classes.now.sites.items s.locks.items s.starts.items) }
{
    if graph.locks() == 0 {
        let guards = unguarded(alloc, classes)?;
        return Ok(guards);
    }
    let mut guarding = Guarding::new(alloc, graph, classes)?;
    guarding.propose_all(graph, order, classes, held);
    guarding.open_all(graph, order, classes, held);
    guarding.finish(alloc, graph, order, classes, held)
}

/// No class is guarded.
fn unguarded(alloc: Global, classes: &Classes) -> Result<Guards, NoMemory>
    ensures { IfOk result (λ s. (g : GraphValue) (lines : List ℕ) → AreGuards g lines classes.now.keys.items classes.now.of.items classes.now.sites.items s.locks.items s.starts.items) }
{
    let guards = no_guards(alloc, classes)?;
    Ok(guards)
}

/// No reservation for each class, and the start 0 for each access.
fn no_guards(alloc: Global, classes: &Classes) -> Result<Guards, NoMemory>
    ensures locks { IfOk result (λ s. length s.locks.items ≡ length classes.now.keys.items) }
    ensures starts { IfOk result (λ s. length s.starts.items ≡ length classes.now.of.items) }
    ensures none { IfOk result (λ s. (i : ℕ) → slice_index s.starts.items i ≡ 0) }
{
    Ok(Guards {
        locks: filled(alloc, None, classes.keys.len())?,
        starts: filled(alloc, 0, classes.of.len())?,
    })
}

/// Guards under way: a reservation for each class, and for each acquire the first place with a
/// member of a guarded class in its section. The shared acquires of a reservation count as one.
#[derive(Drop)]
struct Guarding {
    locks: Vec<Option<u32>>,
    openings: Vec<u32>,
}

impl Guarding {
    /// No class is guarded.
    fn new(alloc: Global, graph: &Graph, classes: &Classes) -> Result<Guarding, NoMemory>
        ensures locks { IfOk result (λ s. length s.locks.items ≡ length classes.now.keys.items) }
        ensures openings { IfOk result (λ s. length s.openings.items ≡ length graph.now.lines + length (locks graph.now)) }
    {
        Ok(Guarding {
            locks: filled(alloc, None, classes.keys.len())?,
            openings: filled(
                alloc,
                u32::MAX,
                graph.lines() as usize + graph.locks() as usize,
            )?,
        })
    }

    /// Proposes for each class of reductions a reservation in a section of which a member lies.
    fn propose_all(&mut self, graph: &Graph, order: &[u32], classes: &Classes, held: &Held)
        requires placed { IsPlaced graph.now order.now }
        requires classes { AreClasses graph.now classes.now.limit order.now classes.now.keys.items classes.now.of.items classes.now.sites.items classes.now.begins.items }
        requires held { IsHeld graph.now held.now }
        requires locks { length self.old.locks.items ≡ length classes.now.keys.items }
        ensures locks { length self.new.locks.items ≡ length self.old.locks.items }
        ensures openings { self.new.openings.items ≡ self.old.openings.items }
    {
        for number in 0..classes.of.len() {
            self.propose(graph, order, classes, held, number);
        }
    }

    /// Proposes a reservation for the class of an access, where it has none.
    fn propose(
        &mut self,
        graph: &Graph,
        order: &[u32],
        classes: &Classes,
        held: &Held,
        number: usize,
    )
        requires placed { IsPlaced graph.now order.now }
        requires classes { AreClasses graph.now classes.now.limit order.now classes.now.keys.items classes.now.of.items classes.now.sites.items classes.now.begins.items }
        requires held { IsHeld graph.now held.now }
        requires number { number < length classes.now.of.items }
        requires locks { length self.old.locks.items ≡ length classes.now.keys.items }
        ensures locks { length self.new.locks.items ≡ length self.old.locks.items }
        ensures openings { self.new.openings.items ≡ self.old.openings.items }
    {
        let class = classes.of[number];
        if is_reduction(classes.keys[class as usize].mode) && self.locks[class as usize].is_none() {
            let place = classes.sites[number];
            let lock = held.some_lock(graph, order[place as usize]);
            self.locks[class as usize] = lock;
        }
    }

    /// Opens the sections of all accesses.
    fn open_all(&mut self, graph: &Graph, order: &[u32], classes: &Classes, held: &Held)
        requires placed { IsPlaced graph.now order.now }
        requires classes { AreClasses graph.now classes.now.limit order.now classes.now.keys.items classes.now.of.items classes.now.sites.items classes.now.begins.items }
        requires held { IsHeld graph.now held.now }
        requires locks { length self.old.locks.items ≡ length classes.now.keys.items }
        requires openings { length self.old.openings.items ≡ length graph.now.lines + length (locks graph.now) }
        ensures locks { length self.new.locks.items ≡ length self.old.locks.items }
        ensures openings { length self.new.openings.items ≡ length self.old.openings.items }
        ensures opened { AreOpened graph.now held.now order.now classes.now.of.items classes.now.sites.items self.new.locks.items self.new.openings.items (length classes.now.of.items) }
    {
        for number in 0..classes.of.len() {
            self.open(graph, order, classes, held, number);
        }
    }

    /// Opens the section of an access of a guarded class; where there is none, no reservation
    /// guards the class.
    fn open(&mut self, graph: &Graph, order: &[u32], classes: &Classes, held: &Held, number: usize)
        requires placed { IsPlaced graph.now order.now }
        requires classes { AreClasses graph.now classes.now.limit order.now classes.now.keys.items classes.now.of.items classes.now.sites.items classes.now.begins.items }
        requires held { IsHeld graph.now held.now }
        requires number { number < length classes.now.of.items }
        requires locks { length self.old.locks.items ≡ length classes.now.keys.items }
        requires openings { length self.old.openings.items ≡ length graph.now.lines + length (locks graph.now) }
        requires opened { AreOpened graph.now held.now order.now classes.now.of.items classes.now.sites.items self.old.locks.items self.old.openings.items number }
        ensures locks { length self.new.locks.items ≡ length self.old.locks.items }
        ensures openings { length self.new.openings.items ≡ length self.old.openings.items }
        ensures opened { AreOpened graph.now held.now order.now classes.now.of.items classes.now.sites.items self.new.locks.items self.new.openings.items (number + 1) }
    {
        let class = classes.of[number];
        let Some(lock) = self.locks[class as usize] else {
            return;
        };
        let place = classes.sites[number];
        match held.acquire(lock, order[place as usize]) {
            None => self.locks[class as usize] = None,
            Some(acquire) => {
                let slot = slot_of(graph, lock, acquire);
                let opening = self.openings[slot];
                self.openings[slot] = opening.min(place);
            }
        }
    }

    /// The guards, with the start of each access.
    fn finish(
        self,
        alloc: Global,
        graph: &Graph,
        order: &[u32],
        classes: &Classes,
        held: &Held,
    ) -> Result<Guards, NoMemory>
        requires placed { IsPlaced graph.now order.now }
        requires classes { AreClasses graph.now classes.now.limit order.now classes.now.keys.items classes.now.of.items classes.now.sites.items classes.now.begins.items }
        requires held { IsHeld graph.now held.now }
        requires locks { length self.locks.items ≡ length classes.now.keys.items }
        requires openings { length self.openings.items ≡ length graph.now.lines + length (locks graph.now) }
        requires opened { AreOpened graph.now held.now order.now classes.now.of.items classes.now.sites.items self.locks.items self.openings.items (length classes.now.of.items) }
        ensures { IfOk result (λ s. AreGuards graph.now order.now classes.now.keys.items classes.now.of.items classes.now.sites.items s.locks.items s.starts.items) }
    {
        let mut starts = with_room(alloc, classes.of.len())?;
        for number in 0..classes.of.len() {
            let start = self.start(graph, order, classes, held, number);
            push(&mut starts, start)?;
        }
        Ok(Guards {
            locks: self.locks,
            starts,
        })
    }

    /// The first place with a member of a guarded class in the section of an access, or 0 where
    /// its class is not guarded.
    fn start(
        &self,
        graph: &Graph,
        order: &[u32],
        classes: &Classes,
        held: &Held,
        number: usize,
    ) -> u32
        requires placed { IsPlaced graph.now order.now }
        requires classes { AreClasses graph.now classes.now.limit order.now classes.now.keys.items classes.now.of.items classes.now.sites.items classes.now.begins.items }
        requires held { IsHeld graph.now held.now }
        requires number { number < length classes.now.of.items }
        requires locks { length self.now.locks.items ≡ length classes.now.keys.items }
        requires openings { length self.now.openings.items ≡ length graph.now.lines + length (locks graph.now) }
        ensures { (x : ℕ) → x < result → IsBeforeStart graph.now held.now order.now classes.now.of.items classes.now.sites.items self.now.locks.items self.now.openings.items number x }
    {
        let class = classes.of[number];
        let Some(lock) = self.locks[class as usize] else {
            return 0;
        };
        let place = classes.sites[number];
        let Some(acquire) = held.acquire(lock, order[place as usize]) else {
            return 0;
        };
        self.openings[slot_of(graph, lock, acquire)]
    }
}

/// The slot of an acquire's opening: one of its own, or one for all that are shared, since these
/// do not exclude one another.
fn slot_of(graph: &Graph, lock: u32, acquire: u32) -> usize
    requires acquires { Acquires graph.now acquire lock }
    ensures slot { result ≡ slot_of graph.now lock acquire }
    ensures within { result < length graph.now.lines + length (locks graph.now) }
{
    let lines = graph.lines() as usize;
    if graph.is_shared(acquire) {
        lines + lock as usize
    } else {
        acquire as usize
    }
}
