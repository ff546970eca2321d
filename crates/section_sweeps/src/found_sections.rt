//! What is found of the sections of a graph, a group of acquires after the other.

ghost use Rattle.std.specs.Prelude.{◌≡◌, ◌≢◌, ℕ, ◌<◌, ◌≤◌, true, List, length, slice_index, OnOk, IfOk};
ghost use Rattle.sweep_base.specs.Noted.{AreStillNoted, is_noted};
ghost use Rattle.section_sweeps.specs.Found.{AreFound, AreSectionsFound};
ghost use Rattle.section_sweeps.specs.Group.{IsCleared};
ghost use Rattle.section_sweeps.specs.Table.{IsTable};

use crate::group::Group;
use crate::kept_acquires::nothing_kept;
use crate::lookups::Table;
use graph_model::graph::Graph;
use index_spaces::NoMemory;
use index_spaces::room::filled;
use std::alloc::Global;
use sweep_base::line_sections::Held;

/// What is found of the sections of a graph.
#[derive(Drop)]
pub enum Sections {
    /// The rules of sections hold, and in these the lines lie.
    Kept(Held),
    /// For each line whether a rule may fail of it, if it is an acquire.
    Doubted(Vec<bool>),
}

/// In which sections the lines lie, which lines are doubted, and whether any are.
#[derive(Drop)]
pub(crate) struct Found {
    pub(crate) held: Held,
    pub(crate) doubted: Vec<bool>,
    pub(crate) is_doubted: bool,
}

impl Found {
    /// Nothing is kept or doubted.
    pub(crate) fn new(alloc: Global, graph: &Graph) -> Result<Found, NoMemory>
        ensures { IfOk result (λ f. (places : List ℕ) → AreFound graph.now places f 0) }
    {
        let held = nothing_kept(alloc, graph)?;
        let doubted = filled(alloc, false, graph.lines() as usize)?;
        Ok(Found {
            held,
            doubted,
            is_doubted: false,
        })
    }

    /// Tries the rules at all acquires, a group after the other.
    pub(crate) fn pass_all(
        &mut self,
        alloc: Global,
        graph: &Graph,
        table: &Table,
    ) -> Result<(), NoMemory>
        requires table { IsTable graph.now table.now }
        requires found { AreFound graph.now table.now.places.items self.old 0 }
        ensures { OnOk result (AreFound graph.now table.now.places.items self.new (length graph.now.lines)) }
    {
        let lines = graph.lines();
        let mut group = Group::new(alloc, graph)?;
        let mut start = 0;
        while start < lines {
            start = self.pass(alloc, graph, table, &mut group, start)?;
        }
        Ok(())
    }

    /// Tries the rules at the next acquires from a place on, keeps those in whose sections lines
    /// lie, or doubts them, and gives the place behind them. What was kept is asked for only where
    /// none is doubted, so it goes with the first doubt.
    fn pass(
        &mut self,
        alloc: Global,
        graph: &Graph,
        table: &Table,
        group: &mut Group,
        start: u32,
    ) -> Result<u32, NoMemory>
        requires table { IsTable graph.now table.now }
        requires start { start < length graph.now.lines }
        requires cleared { IsCleared (length graph.now.lines) group.old }
        requires found { AreFound graph.now table.now.places.items self.old start }
        ensures further { IfOk result (λ end. (start < end) × (end ≤ length graph.now.lines)) }
        ensures cleared { OnOk result (IsCleared (length graph.now.lines) group.new) }
        ensures found { IfOk result (AreFound graph.now table.now.places.items self.new) }
    {
        let end = group.gather(graph, table, start)?;
        if group.passes(graph, table, &mut self.held, start)? {
            return Ok(end);
        }
        self.doubt(group.acquires.as_slice());
        self.held = nothing_kept(alloc, graph)?;
        *group = Group::new(alloc, graph)?;
        Ok(end)
    }

    /// Doubts these acquires.
    fn doubt(&mut self, acquires: &[u32])
        requires { (b : ℕ) → b < length acquires.now → slice_index acquires.now b < length self.old.doubted.items }
        ensures held { self.new.held ≡ self.old.held }
        ensures size { length self.new.doubted.items ≡ length self.old.doubted.items }
        ensures any { self.new.is_doubted ≡ true }
        ensures still { AreStillNoted self.old.doubted.items self.new.doubted.items }
        ensures doubted { (b : ℕ) → b < length acquires.now → is_noted self.new.doubted.items (slice_index acquires.now b) ≡ true }
    {
        self.is_doubted = true;
        for bit in 0..acquires.len() {
            self.doubted[acquires[bit] as usize] = true;
        }
    }

    /// What was found, where all groups were tried.
    pub(crate) fn sections(self, graph: &Graph, table: &Table) -> Sections
        requires table { IsTable graph.now table.now }
        requires found { AreFound graph.now table.now.places.items self (length graph.now.lines) }
        ensures { AreSectionsFound graph.now result }
    {
        let _ = graph.lines();
        let _ = table.lines.len();
        if self.is_doubted {
            return Sections::Doubted(self.doubted);
        }
        Sections::Kept(self.held)
    }
}
