//! The high numbers of lines, by floods from the heaviest line down.

ghost use Rattle.std.specs.Prelude.{◌≡◌, ℕ, ◌+◌, ◌<◌, ◌≤◌, ◌==◌, ◌||◌, Bool, true, false, [], Contains, length, slice_index, OnOk, IfOk};
ghost use Rattle.graph_terms.specs.Graph.{locks, never_comes};
ghost use Rattle.graph_terms.specs.Edges.{edges_out_of};
ghost use Rattle.graph_terms.specs.Reservations.{Acquires};
ghost use Rattle.graph_meaning.specs.Need.{IsHigh};
ghost use Rattle.line_marks.specs.Marking.{IsMarking};
ghost use Rattle.slot_need.specs.High.{IsTarget, IsNext, AreAcquires, AreAcquiresMarked, weight_of, IsFlooding, IsFlood};

use crate::reservations::{acquires_of_all, freed};
use graph_meaning::laws::edges_between_lines;
use graph_model::graph::Graph;
use index_spaces::NoMemory;
use index_spaces::room::push;
use line_marks::Marks;
use std::alloc::Global;

/// The high number of each line: the largest count of the lines that precede it, and one more than
/// all lines where one of these never comes.
pub(crate) fn high_numbers(alloc: Global, graph: &Graph) -> Result<Vec<u32>, NoMemory>
    ensures size { IfOk result (λ v. length v.items ≡ length graph.now.lines) }
    ensures high { IfOk result (λ v. (i : ℕ) → i < length graph.now.lines → IsHigh graph.now i (slice_index v.items i)) }
{
    let acquires = acquires_of_all(alloc, graph)?;
    let mut flood = Flood::new(alloc, graph)?;
    flood.reach_from_unended(graph, acquires.as_slice())?;
    flood.reach_from_all(graph, acquires.as_slice())?;
    Ok(flood.marks.by_line)
}

/// What a line counts for.
fn weight(graph: &Graph, line: u32) -> u32
    requires { line < length graph.now.lines }
    ensures { result ≡ weight_of graph.now line }
{
    let lines = graph.lines();
    if graph.never_comes(line) {
        lines + 1
    } else {
        line + 1
    }
}

/// Marks the lines that the edges of a line lead to.
fn mark_targets(marks: &mut Marks, graph: &Graph, line: u32, mark: u32) -> Result<(), NoMemory>
    requires known { line < length graph.now.lines }
    requires size { length marks.old.by_line.items ≡ length graph.now.lines }
    requires some { 0 < mark }
    ensures { OnOk result
        (IsMarking (IsTarget (edges_out_of graph.now line)) mark marks.old.by_line.items marks.old.pending.items
        marks.new.by_line.items marks.new.pending.items) }
{
    edges_between_lines();
    let _ = graph.lines();
    let edges = graph.edges_from(line);
    for edge in edges {
        marks.mark(edge.to, mark)?;
    }
    Ok(())
}

/// Marks the acquires of a reservation.
fn mark_acquires(
    marks: &mut Marks,
    graph: &Graph,
    acquires: &[Vec<u32>],
    lock: u32,
    mark: u32,
) -> Result<(), NoMemory>
    requires lists { AreAcquires graph.now acquires.now (length graph.now.lines) }
    requires lock { lock < length (locks graph.now) }
    requires size { length marks.old.by_line.items ≡ length graph.now.lines }
    requires some { 0 < mark }
    ensures { OnOk result
        (IsMarking (λ i. Acquires graph.now i lock) mark marks.old.by_line.items marks.old.pending.items
        marks.new.by_line.items marks.new.pending.items) }
{
    marks.mark_all(acquires[lock as usize].as_slice(), mark)
}

/// A flood, with a note of each reservation whose acquires are marked.
#[derive(Drop)]
struct Flood {
    marks: Marks,
    noted: Vec<bool>,
}

impl Flood {
    /// No line is marked.
    fn new(alloc: Global, graph: &Graph) -> Result<Flood, NoMemory>
        ensures { IfOk result (λ f. IsFlood graph.now (λ m. false) f.marks.by_line.items f.marks.pending.items f.noted.items) }
    {
        let marks = Marks::new(alloc, graph.lines() as usize)?;
        let mut noted = Vec::new(alloc);
        for _lock in 0..graph.locks() {
            push(&mut noted, false)?;
        }
        Ok(Flood { marks, noted })
    }

    /// Floods from the lines that never come.
    fn reach_from_unended(&mut self, graph: &Graph, acquires: &[Vec<u32>]) -> Result<(), NoMemory>
        requires lists { AreAcquires graph.now acquires.now (length graph.now.lines) }
        requires flood { IsFlood graph.now (λ m. false) self.old.marks.by_line.items self.old.marks.pending.items self.old.noted.items }
        ensures { OnOk result
            (IsFlood graph.now (never_comes graph.now) self.new.marks.by_line.items self.new.marks.pending.items self.new.noted.items) }
    {
        for line in 0..graph.lines() {
            if graph.never_comes(line) {
                self.reach(graph, acquires, line)?;
            }
        }
        Ok(())
    }

    /// Floods from the other lines, the last one first.
    fn reach_from_all(&mut self, graph: &Graph, acquires: &[Vec<u32>]) -> Result<(), NoMemory>
        requires lists { AreAcquires graph.now acquires.now (length graph.now.lines) }
        requires flood { IsFlood graph.now (never_comes graph.now) self.old.marks.by_line.items self.old.marks.pending.items self.old.noted.items }
        ensures size { OnOk result (length self.new.marks.by_line.items ≡ length graph.now.lines) }
        ensures high { OnOk result ((i : ℕ) → i < length graph.now.lines → IsHigh graph.now i (slice_index self.new.marks.by_line.items i)) }
    {
        edges_between_lines();
        let mut line = graph.lines();
        while line > 0 {
            line -= 1;
            if !graph.never_comes(line) {
                self.reach(graph, acquires, line)?;
            }
        }
        Ok(())
    }

    /// Floods from a line that is no heavier than those done.
    fn reach(&mut self, graph: &Graph, acquires: &[Vec<u32>], line: u32) -> Result<(), NoMemory>
        requires lists { AreAcquires graph.now acquires.now (length graph.now.lines) }
        requires known { line < length graph.now.lines }
        requires flood { (done : ℕ → Bool)
            × IsFlood graph.now done self.old.marks.by_line.items self.old.marks.pending.items self.old.noted.items }
        ensures { OnOk result ((done : ℕ → Bool)
            → IsFlood graph.now done self.old.marks.by_line.items self.old.marks.pending.items self.old.noted.items
            → ((d : ℕ) → done d ≡ true → weight_of graph.now line ≤ weight_of graph.now d)
            → IsFlood graph.now (λ d. (d == line) || done d) self.new.marks.by_line.items self.new.marks.pending.items self.new.noted.items) }
    {
        if self.marks.by_line[line as usize] > 0 {
            return Ok(());
        }
        let mark = weight(graph, line);
        self.marks.mark(line, mark)?;
        self.run(graph, acquires, mark)
    }

    /// Follows the edges of all lines on the stack.
    fn run(&mut self, graph: &Graph, acquires: &[Vec<u32>], mark: u32) -> Result<(), NoMemory>
        requires lists { AreAcquires graph.now acquires.now (length graph.now.lines) }
        requires some { 0 < mark }
        requires size { length self.old.marks.by_line.items ≡ length graph.now.lines }
        requires locks_noted { length self.old.noted.items ≡ length (locks graph.now) }
        requires acquires { AreAcquiresMarked graph.now self.old.marks.by_line.items self.old.noted.items }
        requires known { (i : ℕ) → Contains self.old.marks.pending.items i → i < length graph.now.lines }
        ensures size { OnOk result (length self.new.marks.by_line.items ≡ length graph.now.lines) }
        ensures locks_noted { OnOk result (length self.new.noted.items ≡ length (locks graph.now)) }
        ensures acquires { OnOk result (AreAcquiresMarked graph.now self.new.marks.by_line.items self.new.noted.items) }
        ensures empty { OnOk result (self.new.marks.pending.items ≡ []) }
        ensures flooded { OnOk result ((old : ℕ → ℕ) (m : ℕ) → mark ≡ weight_of graph.now m
            → IsFlooding graph.now old (slice_index self.old.marks.by_line.items) m self.old.marks.pending.items
            → IsFlooding graph.now old (slice_index self.new.marks.by_line.items) m []) }
    {
        while let Some(line) = self.marks.pending.pop() {
            self.follow(graph, acquires, line, mark)?;
        }
        Ok(())
    }

    /// Marks the lines that come next after a line.
    fn follow(
        &mut self,
        graph: &Graph,
        acquires: &[Vec<u32>],
        line: u32,
        mark: u32,
    ) -> Result<(), NoMemory>
        requires lists { AreAcquires graph.now acquires.now (length graph.now.lines) }
        requires known { line < length graph.now.lines }
        requires some { 0 < mark }
        requires size { length self.old.marks.by_line.items ≡ length graph.now.lines }
        requires locks_noted { length self.old.noted.items ≡ length (locks graph.now) }
        requires acquires { AreAcquiresMarked graph.now self.old.marks.by_line.items self.old.noted.items }
        ensures marking { OnOk result
            (IsMarking (IsNext graph.now line) mark self.old.marks.by_line.items self.old.marks.pending.items
            self.new.marks.by_line.items self.new.marks.pending.items) }
        ensures locks_noted { OnOk result (length self.new.noted.items ≡ length (locks graph.now)) }
        ensures acquires { OnOk result (AreAcquiresMarked graph.now self.new.marks.by_line.items self.new.noted.items) }
    {
        mark_targets(&mut self.marks, graph, line, mark)?;
        match freed(graph, line) {
            Some(lock) => self.note(graph, acquires, lock, mark),
            None => Ok(()),
        }
    }

    /// Marks the acquires of a reservation, once.
    fn note(
        &mut self,
        graph: &Graph,
        acquires: &[Vec<u32>],
        lock: u32,
        mark: u32,
    ) -> Result<(), NoMemory>
        requires lists { AreAcquires graph.now acquires.now (length graph.now.lines) }
        requires known { lock < length (locks graph.now) }
        requires some { 0 < mark }
        requires size { length self.old.marks.by_line.items ≡ length graph.now.lines }
        requires locks_noted { length self.old.noted.items ≡ length (locks graph.now) }
        requires acquires { AreAcquiresMarked graph.now self.old.marks.by_line.items self.old.noted.items }
        ensures marking { OnOk result
            (IsMarking (λ i. Acquires graph.now i lock) mark self.old.marks.by_line.items self.old.marks.pending.items
            self.new.marks.by_line.items self.new.marks.pending.items) }
        ensures locks_noted { OnOk result (length self.new.noted.items ≡ length (locks graph.now)) }
        ensures acquires { OnOk result (AreAcquiresMarked graph.now self.new.marks.by_line.items self.new.noted.items) }
    {
        if !self.noted[lock as usize] {
            mark_acquires(&mut self.marks, graph, acquires, lock, mark)?;
            self.noted[lock as usize] = true;
        }
        Ok(())
    }
}
