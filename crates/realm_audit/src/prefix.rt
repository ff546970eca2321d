//! What is kept of the items of a trace before a place.

use crate::ends::waits;
use crate::sections::Sections;
use graph_model::graph::Graph;
use graph_terms::lists::{EndList, LineList};
use graph_terms::outcome::End;
use index_spaces::NoMemory;
use index_spaces::room::filled;
use std::alloc::Global;

/// The lines that stand there, and the sections that are open.
#[derive(Drop)]
pub(crate) struct Prefix {
    /// For each line, whether it stands there.
    pub(crate) stands: Vec<bool>,
    /// The sections that are open there.
    pub(crate) sections: Sections,
}

impl Prefix {
    ghost use Rattle.std.specs.Prelude.{◌≡◌, ◌≢◌, ℕ, ◌+◌, ◌<◌, ◌↔◌, false, List, length, slice_get, IsTrue, IfOk, MatchOption};
    ghost use Rattle.graph_meaning.specs.Rules.{Accepted};
    ghost use Rattle.realm_audit.specs.Lawful.{ends_of, IsSoundBefore, IsLeast};
    ghost use Rattle.realm_audit.specs.Reading.{AreLines};
    ghost use Rattle.realm_audit.specs.Prefix.{IsPrefix, IsLeft, stands_in};

    /// Before the first item.
    pub(crate) fn new(alloc: Global, graph: &Graph) -> Result<Prefix, NoMemory>
        ensures { IfOk result (λ p. (trace : List ℕ) → IsPrefix graph.now trace 0 p) }
    {
        Ok(Prefix {
            stands: filled(alloc, false, graph.lines() as usize)?,
            sections: Sections::new(alloc, graph)?,
        })
    }

    /// Whether a line stands there.
    pub(crate) fn has(&self, line: u32) -> bool
        requires { line < length self.now.stands.items }
        ensures { result ≡ stands_in self.now.stands.items line }
    {
        self.stands[line as usize]
    }

    /// Whether a line ends and does not stand there.
    pub(crate) fn lacks(&self, ends: &EndList, line: u32) -> bool
        requires ends { line < length ends.now }
        requires size { line < length self.now.stands.items }
        ensures { IsTrue result ↔ ((slice_get ends.now line ≢ Some End.Waiting) × (stands_in self.now.stands.items line ≡ false)) }
    {
        !waits(ends, line) && !self.has(line)
    }

    /// Adds the line at a place.
    pub(crate) fn add(&mut self, graph: &Graph, ends: &EndList, trace: &LineList, place: u32)
        requires accepted { Accepted graph.now }
        requires ends { ends.now ≡ ends_of graph.now }
        requires lines { AreLines graph.now trace.now }
        requires place { place < length trace.now }
        requires sound { IsSoundBefore graph.now trace.now (place + 1) }
        requires prefix { IsPrefix graph.now trace.now place self.old }
        ensures { IsPrefix graph.now trace.now (place + 1) self.new }
    {
        let line = trace.at(place);
        self.stands[line as usize] = true;
        self.sections.pass(graph, ends, trace, place);
    }

    /// The least line that ends and does not stand there.
    pub(crate) fn first_left(&self, graph: &Graph, ends: &EndList) -> Option<u32>
        requires ends { ends.now ≡ ends_of graph.now }
        requires size { length self.now.stands.items ≡ length graph.now.lines }
        ensures { MatchOption result ((j : ℕ) → IsLeft graph.now self.now.stands.items j → ⊥) (IsLeast (IsLeft graph.now self.now.stands.items)) }
    {
        for line in 0..graph.lines() {
            if self.lacks(ends, line) {
                return Some(line);
            }
        }
        None
    }
}
