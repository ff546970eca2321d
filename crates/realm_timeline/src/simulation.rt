//! The simulation of a graph in virtual time: lines start as soon as they may, the lowest first, and
//! time goes from one finish to the next.

ghost use Rattle.std.specs.Prelude.{◌≡◌, ◌⊎◌, ℕ, ◌+◌, ◌-◌, ◌*◌, ◌<◌, ◌≤◌, ◌==◌, true, false, [], ◌∷◌, ◌++◌, length, Some, None, slice_index, slice_set, not, ◌&&◌, replicate, min, OnOk, IfOk, IfSome, MatchOption};
ghost use Rattle.graph_terms.specs.Graph.{never_comes, locks};
ghost use Rattle.graph_terms.specs.Edges.{edges_into, edges_out_of};
ghost use Rattle.graph_meaning.specs.Path.{Reached};
ghost use Rattle.graph_meaning.specs.Rules.{Accepted};
ghost use Rattle.realm_timeline.specs.declared.slot.Slot.{Slot as SlotValue};
ghost use Rattle.realm_timeline.specs.Plan.{slot_at, HasSlot, IsPlan, IsValid, IsGreedy};
ghost use Rattle.realm_timeline.specs.Columns.{AreApart, IsGreedyByColumns};
ghost use Rattle.realm_timeline.specs.Queue.{has_line, queue_at, IsUnheld, AllHeldOrEmpty, IsLowestPlace, no_queue};
ghost use Rattle.realm_timeline.specs.State.{state_of, is_done, runs_at, joins, count_of_queues, IsConsistent, IsSimulation, HasStartedAll, AllBusy, undone};
ghost use Rattle.realm_timeline.specs.Steps.{IsFirstIdle, IsOffered, CountsDown, MarksFinished, Finishes, Starts, Moves, GoesOn};
ghost use Rattle.realm_timeline.specs.NextFinish.{IsNextFinish, IsSoonest, RunsHaveSlots, IsFinishOn, FinishesOn};
ghost use Rattle.realm_timeline.specs.Order.{IsOrder};

use crate::cost::{cost_of, count_of_queues, queue_of, released};
use crate::holding::{add_holder, held_queue, remove_section, remove_uses};
use crate::queue::{MAX_QUEUES, Queue, insert_at, lowest_at, lowest_of, remove_at};
use crate::slot::Slot;
use graph_meaning::laws::edges_between_lines;
use graph_model::graph::Graph;
use index_spaces::NoMemory;
use index_spaces::room::{filled, push};
use std::alloc::Global;

/// The slots of the lines that have started so far, and what tells which lines may start next.
#[derive(Drop)]
pub(crate) struct Simulation {
    /// Whether columns keep lines apart: a line that changes one runs beside no other that uses it.
    pub(crate) by_columns: bool,
    /// The present time: 0, or a finish.
    pub(crate) time: u64,
    /// The slot of each line that has started.
    pub(crate) slots: Vec<Option<Slot>>,
    /// The lines that have started, in the order in which they did.
    pub(crate) order: Vec<u32>,
    /// Whether each line has finished.
    pub(crate) done: Vec<bool>,
    /// For each line how many edges enter it from lines that have not finished.
    pub(crate) left: Vec<usize>,
    /// The lines that have not started, though their sources have finished: the acquires of each
    /// reservation in two queues, and all others in queue 0 at first. Where columns keep lines apart,
    /// each column has two queues too, in which lines wait for it.
    pub(crate) queues: Vec<Queue>,
    /// The line that each processor runs, if it runs one.
    pub(crate) running: Vec<Option<u32>>,
}

impl Simulation {
    /// The simulation at its end: each line that is to be planned has started and finished.
    ///
    /// `NoMemory`: memory was refused.
    pub(crate) fn of_all_lines(
        alloc: Global,
        graph: &Graph,
        by_columns: bool,
        processors: u32,
    ) -> Result<Simulation, NoMemory>
        requires some { 0 < processors }
        requires few { processors ≤ 8 }
        requires accepted { Accepted graph.now }
        ensures plan { IfOk result (λ r. IsPlan graph.now processors r.slots.items) }
        ensures reached { IfOk result (λ r. (i : ℕ) → i < length graph.now.lines → slot_at r.slots.items i ≡ None → Reached graph.now i) }
        ensures valid { IfOk result (λ r. IsValid graph.now r.slots.items) }
        ensures apart { IfOk result (λ r. by_columns ≡ true → AreApart graph.now r.slots.items) }
        ensures greedy { IfOk result (λ r. by_columns ≡ false → IsGreedy graph.now processors r.slots.items) }
        ensures greedy_by_columns { IfOk result (λ r. by_columns ≡ true → IsGreedyByColumns graph.now processors r.slots.items) }
        ensures order { IfOk result (λ r. IsOrder graph.now r.order.items) }
    {
        let _ = graph.lines();
        let mut simulation = Simulation::new(alloc, graph, by_columns, processors)?;
        simulation.start_all(graph)?;
        while let Some(next) = simulation.next_finish() {
            simulation.finish_all(graph, next)?;
            simulation.start_all(graph)?;
        }
        Ok(simulation)
    }

    /// The simulation at time 0, before any line has started. Each line waits for one edge more than
    /// enter it, and that one is passed here, so that lines without a source are put into their queues
    /// in the same way as all others.
    fn new(
        alloc: Global,
        graph: &Graph,
        by_columns: bool,
        processors: u32,
    ) -> Result<Simulation, NoMemory>
        requires few { processors ≤ 8 }
        ensures by_columns { IfOk result (λ r. r.by_columns ≡ by_columns) }
        ensures simulation { IfOk result (λ r. IsSimulation graph.now processors (state_of r)) }
        ensures count { IfOk result (λ r. length r.running.items ≡ processors) }
    {
        let lines = graph.lines();
        let mut simulation = Simulation {
            by_columns,
            time: 0,
            slots: filled(alloc, None, lines as usize)?,
            order: Vec::new(alloc),
            done: filled(alloc, false, lines as usize)?,
            left: first_counts(alloc, graph)?,
            queues: empty_queues(alloc, count_of_queues(graph, by_columns))?,
            running: filled(alloc, None, processors as usize)?,
        };
        for line in 0..lines {
            simulation.count_down(graph, line)?;
        }
        Ok(simulation)
    }

    /// Starts each line that may start now, the lowest first.
    fn start_all(&mut self, graph: &Graph) -> Result<(), NoMemory>
        requires few { length self.old.running.items ≤ 8 }
        requires accepted { Accepted graph.now }
        requires simulation { IsSimulation graph.now (length self.old.running.items) (state_of self.old) }
        ensures started_all { OnOk result (HasStartedAll graph.now (length self.old.running.items) (state_of self.new)) }
        ensures by_columns { OnOk result (self.new.by_columns ≡ self.old.by_columns) }
        ensures done { OnOk result (self.new.done.items ≡ self.old.done.items) }
        ensures count { OnOk result (length self.new.running.items ≡ length self.old.running.items) }
    {
        let _ = count_of_queues(graph, self.by_columns);
        let _ = graph.lines();
        while let Some((place, processor)) = self.next_start() {
            self.go_on(graph, place, processor)?;
        }
        Ok(())
    }

    /// The place of the queue whose lowest line starts next, and the processor that it gets: the
    /// lowest that runs no line. None where no line may start now.
    fn next_start(&self) -> Option<(u32, u32)>
        requires few { length self.now.running.items ≤ 8 }
        requires queues { length self.now.queues.items ≤ MAX_QUEUES }
        ensures { MatchOption result (AllBusy self.now.running.items ⊎ AllHeldOrEmpty self.now.queues.items)
            (λ x. IsLowestPlace self.now.queues.items x.0 × IsFirstIdle self.now.running.items x.1) }
    {
        let processor = self.idle()?;
        let place = lowest_of(&self.queues)?;
        Some((place, processor))
    }

    /// The lowest processor that runs no line.
    fn idle(&self) -> Option<u32>
        requires { length self.now.running.items ≤ 8 }
        ensures { MatchOption result (AllBusy self.now.running.items) (IsFirstIdle self.now.running.items) }
    {
        for processor in 0..self.running.len() as u32 {
            if self.running[processor as usize].is_none() {
                return Some(processor);
            }
        }
        None
    }

    /// Starts the lowest line of the queue at a place on a processor, or puts it into another queue
    /// that is held and in which it has to wait.
    fn go_on(&mut self, graph: &Graph, place: u32, processor: u32) -> Result<(), NoMemory>
        requires accepted { Accepted graph.now }
        requires simulation { IsSimulation graph.now (length self.old.running.items) (state_of self.old) }
        requires place { IsLowestPlace self.old.queues.items place }
        requires processor { IsFirstIdle self.old.running.items processor }
        ensures { OnOk result ((line : ℕ) × GoesOn graph.now (state_of self.old) (state_of self.new) place processor line) }
    {
        let _ = graph.lines();
        let Some(line) = lowest_at(&self.queues, place) else {
            return Ok(());
        };
        match held_queue(&self.queues, graph, self.by_columns, line) {
            Some(other) => self.move_line(graph, line, place, other),
            None => self.start(graph, line, place, processor),
        }
    }

    /// Puts a line into another queue.
    fn move_line(
        &mut self,
        graph: &Graph,
        line: u32,
        place: u32,
        other: u32,
    ) -> Result<(), NoMemory>
        requires place { place < length self.old.queues.items }
        requires other { other < length self.old.queues.items }
        requires listed { has_line (queue_at self.old.queues.items place).lines line ≡ true }
        requires joined { joins graph.now self.old.by_columns line other ≡ true }
        requires held { (k : ℕ) × (has_line (queue_at self.old.queues.items other).holders k ≡ true) }
        ensures { OnOk result (Moves graph.now (state_of self.old) (state_of self.new) place other line) }
    {
        remove_at(&mut self.queues, place, line);
        insert_at(&mut self.queues, other, line)
    }

    /// Starts a line, the lowest of the queue at a place, on a processor.
    fn start(
        &mut self,
        graph: &Graph,
        line: u32,
        place: u32,
        processor: u32,
    ) -> Result<(), NoMemory>
        requires accepted { Accepted graph.now }
        requires simulation { IsSimulation graph.now (length self.old.running.items) (state_of self.old) }
        requires place { IsLowestPlace self.old.queues.items place }
        requires processor { IsFirstIdle self.old.running.items processor }
        requires listed { has_line (queue_at self.old.queues.items place).lines line ≡ true }
        requires lowest { (i : ℕ) → has_line (queue_at self.old.queues.items place).lines i ≡ true → line ≤ i }
        requires unheld { (q : ℕ) → joins graph.now self.old.by_columns line q ≡ true → IsUnheld (queue_at self.old.queues.items q) }
        ensures { OnOk result (Starts graph.now (state_of self.old) (state_of self.new) place processor line) }
    {
        let _ = graph.lines();
        remove_at(&mut self.queues, place, line);
        add_holder(&mut self.queues, graph, self.by_columns, line)?;
        let finish = self.time + cost_of(graph, line);
        push(&mut self.order, line)?;
        self.slots[line as usize] = Some(Slot {
            processor,
            start: self.time,
            finish,
        });
        self.running[processor as usize] = Some(line);
        Ok(())
    }

    /// When the next of the lines that run finishes, and none where no line runs.
    fn next_finish(&self) -> Option<u64>
        requires few { length self.now.running.items ≤ 8 }
        requires slots { RunsHaveSlots self.now.slots.items self.now.running.items }
        ensures { IsSoonest self.now.slots.items self.now.running.items (length self.now.running.items) result }
    {
        let mut next: Option<u64> = None;
        for processor in 0..self.running.len() as u32 {
            next = self.sooner(next, processor);
        }
        next
    }

    /// The finish of the lines so far and that of one processor more, whichever is sooner.
    fn sooner(&self, next: Option<u64>, processor: u32) -> Option<u64>
        requires processor { processor < length self.now.running.items }
        requires slots { RunsHaveSlots self.now.slots.items self.now.running.items }
        requires up_to_now { IsSoonest self.now.slots.items self.now.running.items processor next }
        ensures { IsSoonest self.now.slots.items self.now.running.items (processor + 1) result }
    {
        match self.finish_on(processor) {
            Some(finish) => Some(sooner_of(next, finish)),
            None => next,
        }
    }

    /// When the line on a processor finishes, and none where it runs none.
    fn finish_on(&self, processor: u32) -> Option<u64>
        requires processor { processor < length self.now.running.items }
        requires slots { RunsHaveSlots self.now.slots.items self.now.running.items }
        ensures { IsFinishOn self.now.slots.items self.now.running.items processor result }
    {
        let line = self.running[processor as usize]?;
        Some(self.finish_of(line))
    }

    /// When a line that has started finishes.
    fn finish_of(&self, line: u32) -> u64
        requires { (x : SlotValue) × HasSlot self.now.slots.items line x }
        ensures { (x : SlotValue) → HasSlot self.now.slots.items line x → result ≡ x.finish }
    {
        match self.slots[line as usize] {
            Some(slot) => slot.finish,
            None => 0,
        }
    }

    /// Finishes each line whose finish is the given time, which is the next one, and sets the clock
    /// to it.
    fn finish_all(&mut self, graph: &Graph, next: u64) -> Result<(), NoMemory>
        requires few { length self.old.running.items ≤ 8 }
        requires accepted { Accepted graph.now }
        requires started_all { HasStartedAll graph.now (length self.old.running.items) (state_of self.old) }
        requires next { IsNextFinish (state_of self.old) next }
        ensures simulation { OnOk result (IsSimulation graph.now (length self.old.running.items) (state_of self.new)) }
        ensures by_columns { OnOk result (self.new.by_columns ≡ self.old.by_columns) }
        ensures fewer { OnOk result (undone self.new.done.items (length graph.now.lines) < undone self.old.done.items (length graph.now.lines)) }
    {
        let processors = self.running.len() as u32;
        for processor in 0..processors {
            self.finish_if(graph, processor, next)?;
        }
        self.time = next;
        Ok(())
    }

    /// Finishes the line on a processor, if its finish is the given time.
    fn finish_if(&mut self, graph: &Graph, processor: u32, next: u64) -> Result<(), NoMemory>
        requires processor { processor < length self.old.running.items }
        requires accepted { Accepted graph.now }
        requires consistent { IsConsistent graph.now (length self.old.running.items) (state_of self.old) [] }
        ensures consistent { OnOk result (IsConsistent graph.now (length self.old.running.items) (state_of self.new) []) }
        ensures finishes { OnOk result (FinishesOn (state_of self.old) (state_of self.new) processor next) }
    {
        let Some(line) = self.running[processor as usize] else {
            return Ok(());
        };
        if self.finish_of(line) != next {
            return Ok(());
        }
        self.finish(graph, processor, line)?;
        Ok(())
    }

    /// Finishes a line, which the lines with an edge from it wait for no longer.
    fn finish(&mut self, graph: &Graph, processor: u32, line: u32) -> Result<(), NoMemory>
        requires accepted { Accepted graph.now }
        requires consistent { IsConsistent graph.now (length self.old.running.items) (state_of self.old) [] }
        requires runs { runs_at self.old.running.items processor ≡ Some line }
        ensures consistent { OnOk result (IsConsistent graph.now (length self.old.running.items) (state_of self.new) []) }
        ensures finishes { OnOk result (Finishes graph.now (state_of self.old) (state_of self.new) processor line) }
    {
        edges_between_lines();
        let _ = graph.lines();
        self.mark_finished(graph, processor, line);
        let edges = graph.edges_from(line);
        for edge in edges {
            self.count_down(graph, edge.to)?;
        }
        Ok(())
    }

    /// Marks a line as finished, and its columns and the reservation that it releases as free.
    fn mark_finished(&mut self, graph: &Graph, processor: u32, line: u32)
        requires processor { processor < length self.old.running.items }
        requires line { line < length graph.now.lines }
        requires done { length self.old.done.items ≡ length graph.now.lines }
        requires queues { length self.old.queues.items ≡ count_of_queues graph.now self.old.by_columns }
        ensures { MarksFinished graph.now (state_of self.old) (state_of self.new) processor line }
    {
        self.running[processor as usize] = None;
        self.done[line as usize] = true;
        remove_uses(&mut self.queues, graph, self.by_columns, line);
        if let Some(acquire) = released(graph, line) {
            remove_section(&mut self.queues, graph, self.by_columns, acquire);
        }
    }

    /// Counts one edge fewer for a line, and puts it into its queue where that was the last one and
    /// the line comes.
    fn count_down(&mut self, graph: &Graph, line: u32) -> Result<(), NoMemory>
        requires line { line < length graph.now.lines }
        requires known { length self.old.left.items ≡ length graph.now.lines }
        requires waits { 0 < slice_index self.old.left.items line }
        requires queues { length self.old.queues.items ≡ count_of_queues graph.now self.old.by_columns }
        ensures { OnOk result (CountsDown graph.now (state_of self.old) (state_of self.new) line) }
    {
        let left = self.left[line as usize] - 1;
        self.left[line as usize] = left;
        let offered = left == 0 && !graph.never_comes(line);
        offer(&mut self.queues, graph, line, offered)
    }
}

/// Puts a line into its queue if it is offered.
fn offer(queues: &mut Vec<Queue>, graph: &Graph, line: u32, offered: bool) -> Result<(), NoMemory>
    requires line { line < length graph.now.lines }
    requires queues { 2 * length (locks graph.now) + 1 ≤ length queues.old.items }
    ensures count { OnOk result (length queues.new.items ≡ length queues.old.items) }
    ensures offered { OnOk result (IsOffered graph.now queues.old.items queues.new.items line offered) }
{
    if offered {
        insert_at(queues, queue_of(graph, line), line)
    } else {
        Ok(())
    }
}

/// How many edges each line waits for at first: those into it, and one more, which is passed when the
/// simulation begins.
fn first_counts(alloc: Global, graph: &Graph) -> Result<Vec<usize>, NoMemory>
    ensures count { IfOk result (λ v. length v.items ≡ length graph.now.lines) }
    ensures counts { IfOk result (λ v. (i : ℕ) → i < length graph.now.lines → slice_index v.items i ≡ length (edges_into graph.now i) + 1) }
{
    let mut counts = Vec::new(alloc);
    for line in 0..graph.lines() {
        push(&mut counts, graph.edges_into(line).len() + 1)?;
    }
    Ok(counts)
}

/// So many queues without lines.
fn empty_queues(alloc: Global, count: u32) -> Result<Vec<Queue>, NoMemory>
    ensures { IfOk result (λ v. v.items ≡ replicate count no_queue) }
{
    let mut queues = Vec::new(alloc);
    for _queue in 0..count {
        push(&mut queues, Queue::new(alloc))?;
    }
    Ok(queues)
}

/// The sooner of two times, of which the first may be missing.
fn sooner_of(next: Option<u64>, finish: u64) -> u64
    ensures { MatchOption next (result ≡ finish) (λ t. result ≡ min t finish) }
{
    match next {
        Some(other) => { if other <= finish { other } else { finish } }
        None => finish,
    }
}
