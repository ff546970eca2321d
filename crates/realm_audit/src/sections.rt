//! The sections that are open before a place of a trace.

ghost use Rattle.std.specs.Prelude.{◌≡◌, ℕ, ◌+◌, ◌<◌, ◌==◌, ◌&&◌, not, false, cond, length};
ghost use Rattle.realm_audit.specs.Prefix.{number_in};

use crate::acquires::{acquired, released, taken};
use graph_meaning::laws::order_lists_ended;
use graph_model::graph::Graph;
use graph_terms::lists::{EndList, LineList};
use index_spaces::NoMemory;
use index_spaces::room::filled;
use std::alloc::Global;

/// Which acquires have an open section, and how many those of each reservation are, so that lines are
/// gone through for one of them only where there is one.
#[derive(Drop)]
pub(crate) struct Sections {
    /// For each line, whether it is an acquire whose section is open.
    pub(crate) opened: Vec<bool>,
    /// For each reservation, how many of its sections are open.
    pub(crate) all: Vec<u32>,
    /// For each reservation, how many of those are of acquires that are not shared.
    pub(crate) exclusive: Vec<u32>,
}

impl Sections {
    ghost use Rattle.std.specs.Prelude.{◌≡◌, ℕ, ◌+◌, ◌<◌, ◌↔◌, true, false, List, length, IsTrue, IfOk, MatchOption};
    ghost use Rattle.graph_terms.specs.Graph.{locks, line_passes, is_shared};
    ghost use Rattle.graph_meaning.specs.Rules.{Accepted};
    ghost use Rattle.graph_terms.specs.Reservations.{Acquires};
    ghost use Rattle.realm_audit.specs.Lawful.{ends_of, IsSoundBefore, IsLeast};
    ghost use Rattle.realm_audit.specs.Reading.{AreLines};
    ghost use Rattle.realm_audit.specs.Prefix.{AreSectionsAt, AreCounted, OpensSection, IsOpenBeside, IsRival, stands_in};

    /// No section is open.
    pub(crate) fn new(alloc: Global, graph: &Graph) -> Result<Sections, NoMemory>
        ensures { IfOk result (λ s. (trace : List ℕ) → AreSectionsAt graph.now trace 0 s) }
    {
        let locks = graph.locks() as usize;
        Ok(Sections {
            opened: filled(alloc, false, graph.lines() as usize)?,
            all: filled(alloc, 0, locks)?,
            exclusive: filled(alloc, 0, locks)?,
        })
    }

    /// Lets the line at a place begin or end a section.
    pub(crate) fn pass(&mut self, graph: &Graph, ends: &EndList, trace: &LineList, place: u32)
        requires accepted { Accepted graph.now }
        requires ends { ends.now ≡ ends_of graph.now }
        requires lines { AreLines graph.now trace.now }
        requires place { place < length trace.now }
        requires sound { IsSoundBefore graph.now trace.now (place + 1) }
        requires sections { AreSectionsAt graph.now trace.now place self.old }
        ensures { AreSectionsAt graph.now trace.now (place + 1) self.new }
    {
        order_lists_ended();
        let _ = graph.lines();
        let line = trace.at(place);
        if let Some((lock, shared)) = taken(graph, ends, line) {
            self.begin(graph, line, lock, shared);
        } else if let Some(acquire) = released(graph, line) {
            self.end_if_open(graph, acquire);
        }
    }

    /// Begins the section of an acquire.
    fn begin(&mut self, graph: &Graph, line: u32, lock: u32, shared: bool)
        requires counted { AreCounted graph.now self.old }
        requires closed { stands_in self.old.opened.items line ≡ false }
        requires acquires { Acquires graph.now line lock }
        requires shared { line_passes is_shared graph.now line ≡ shared }
        requires lock { lock < length (locks graph.now) }
        ensures counted { AreCounted graph.now self.new }
        ensures opens { OpensSection self.old.opened.items self.new.opened.items line }
    {
        let _ = graph.lines();
        self.opened[line as usize] = true;
        count_up(&mut self.all, lock);
        count_up_unless(&mut self.exclusive, lock, shared);
    }

    /// Ends the section of an acquire, if it is open.
    fn end_if_open(&mut self, graph: &Graph, acquire: u32)
        requires counted { AreCounted graph.now self.old }
        requires acquire { (l : ℕ) × Acquires graph.now acquire l }
        ensures counted { AreCounted graph.now self.new }
        ensures ends { stands_in self.old.opened.items acquire ≡ true → OpensSection self.new.opened.items self.old.opened.items acquire }
        ensures stays { stands_in self.old.opened.items acquire ≡ false → self.new ≡ self.old }
    {
        if !self.opened[acquire as usize] {
            return;
        }
        match acquired(graph, acquire) {
            Some((lock, shared)) => self.end(graph, acquire, lock, shared),
            None => unreachable!(),
        }
    }

    /// Ends the section of an acquire.
    fn end(&mut self, graph: &Graph, acquire: u32, lock: u32, shared: bool)
        requires counted { AreCounted graph.now self.old }
        requires opened { stands_in self.old.opened.items acquire ≡ true }
        requires acquires { Acquires graph.now acquire lock }
        requires shared { line_passes is_shared graph.now acquire ≡ shared }
        requires lock { lock < length (locks graph.now) }
        ensures counted { AreCounted graph.now self.new }
        ensures ends { OpensSection self.new.opened.items self.old.opened.items acquire }
    {
        self.opened[acquire as usize] = false;
        count_down(&mut self.all, lock);
        count_down_unless(&mut self.exclusive, lock, shared);
    }

    /// The least acquire whose section is open, though it may not be where a line begins its own.
    pub(crate) fn rival(&self, graph: &Graph, ends: &EndList, line: u32) -> Option<u32>
        requires line { line < length graph.now.lines }
        requires ends { ends.now ≡ ends_of graph.now }
        requires counted { AreCounted graph.now self.now }
        ensures { MatchOption result ((q : ℕ) → IsRival graph.now self.now.opened.items line q → ⊥) (IsLeast (IsRival graph.now self.now.opened.items line)) }
    {
        let Some((lock, shared)) = taken(graph, ends, line) else {
            return None;
        };
        if self.admits(graph, lock, shared) {
            return None;
        }
        self.first_beside(graph, lock, shared)
    }

    /// Whether no open section of a reservation keeps an acquire of it from beginning one.
    fn admits(&self, graph: &Graph, lock: u32, shared: bool) -> bool
        requires lock { lock < length (locks graph.now) }
        requires counted { AreCounted graph.now self.now }
        ensures { IsTrue result → (q : ℕ) → IsOpenBeside graph.now self.now.opened.items lock shared q → ⊥ }
    {
        if shared {
            self.exclusive[lock as usize] == 0
        } else {
            self.all[lock as usize] == 0
        }
    }

    /// The least acquire of a reservation whose section is open, unless it and the given one are both
    /// shared.
    fn first_beside(&self, graph: &Graph, lock: u32, shared: bool) -> Option<u32>
        requires { length self.now.opened.items ≡ length graph.now.lines }
        ensures { MatchOption result ((q : ℕ) → IsOpenBeside graph.now self.now.opened.items lock shared q → ⊥) (IsLeast (IsOpenBeside graph.now self.now.opened.items lock shared)) }
    {
        for line in 0..graph.lines() {
            if self.is_beside(graph, line, lock, shared) {
                return Some(line);
            }
        }
        None
    }

    /// Whether a line is such an acquire.
    fn is_beside(&self, graph: &Graph, line: u32, lock: u32, shared: bool) -> bool
        requires size { length self.now.opened.items ≡ length graph.now.lines }
        requires line { line < length graph.now.lines }
        ensures { IsTrue result ↔ IsOpenBeside graph.now self.now.opened.items lock shared line }
    {
        match acquired(graph, line) {
            Some((other, other_shared)) => {
                self.opened[line as usize] && other == lock && !(other_shared && shared)
            }
            None => false,
        }
    }
}

/// Counts one more for a reservation.
fn count_up(counts: &mut Vec<u32>, lock: u32)
    requires lock { lock < length counts.old.items }
    requires few { number_in counts.old.items lock < 4294967295 }
    ensures size { length counts.new.items ≡ length counts.old.items }
    ensures counts { (l : ℕ) → number_in counts.new.items l ≡ cond (lock == l) 1 0 + number_in counts.old.items l }
{
    counts[lock as usize] += 1;
}

/// Counts one more for a reservation, unless the acquire is shared.
fn count_up_unless(counts: &mut Vec<u32>, lock: u32, shared: bool)
    requires lock { lock < length counts.old.items }
    requires few { number_in counts.old.items lock < 4294967295 }
    ensures size { length counts.new.items ≡ length counts.old.items }
    ensures counts { (l : ℕ) → number_in counts.new.items l ≡ cond (not shared && (lock == l)) 1 0 + number_in counts.old.items l }
{
    if !shared {
        count_up(counts, lock);
    }
}

/// Counts one fewer for a reservation.
fn count_down(counts: &mut Vec<u32>, lock: u32)
    requires lock { lock < length counts.old.items }
    requires some { 0 < number_in counts.old.items lock }
    ensures size { length counts.new.items ≡ length counts.old.items }
    ensures counts { (l : ℕ) → number_in counts.old.items l ≡ cond (lock == l) 1 0 + number_in counts.new.items l }
{
    counts[lock as usize] -= 1;
}

/// Counts one fewer for a reservation, unless the acquire is shared.
fn count_down_unless(counts: &mut Vec<u32>, lock: u32, shared: bool)
    requires lock { lock < length counts.old.items }
    requires some { shared ≡ false → 0 < number_in counts.old.items lock }
    ensures size { length counts.new.items ≡ length counts.old.items }
    ensures counts { (l : ℕ) → number_in counts.old.items l ≡ cond (not shared && (lock == l)) 1 0 + number_in counts.new.items l }
{
    if !shared {
        count_down(counts, lock);
    }
}
