//! The scan for lines that race.

ghost use Rattle.std.specs.Prelude.{◌≡◌, ℕ, ◌+◌, ◌-◌, ◌<◌, ◌≤◌, [], length, Some, slice_get, slice_index, OnOk, IfOk};
ghost use Rattle.sweep_base.specs.Held.{IsHeld};
ghost use Rattle.conflict_classes.specs.Classes.{AreNumbered, IsBegin, place_at};
ghost use Rattle.race_sweeps.specs.Marks.{AreMarksBelow, IsMarked};
ghost use Rattle.race_sweeps.specs.Scan.{AreAnsweredAt};
ghost use Rattle.race_sweeps.specs.ScanState.{AreListed, IsScanned, AreGrouped};
ghost use Rattle.race_sweeps.specs.Enough.{AreEnoughBelow};
ghost use Rattle.sweep_base.specs.Noted.{AreStillNoted};
ghost use Rattle.conflict_classes.specs.Table.{IsTable};

use crate::asked_classes::ask_all;
use crate::marks::Marks;
use crate::members::Members;
use crate::reach::Reach;
use crate::unexempt::harden_all;
use conflict_classes::lookups::Table;
use graph_meaning::laws::edges_between_lines;
use graph_model::graph::Graph;
use index_spaces::NoMemory;
use index_spaces::room::filled;
use std::alloc::Global;
use sweep_base::line_sections::Held;

/// A scan under way: the members of the classes, the last hard place of each class, what reaches
/// the lines of the slice, which classes have lines in it and which are asked about these.
#[derive(Drop)]
pub(crate) struct Scan {
    pub(crate) members: Members,
    pub(crate) hard: Vec<u32>,
    pub(crate) reach: Reach,
    pub(crate) groups: Marks,
    pub(crate) asks: Marks,
}

impl Scan {
    /// Nothing is scanned.
    pub(crate) fn new(alloc: Global, graph: &Graph, table: &Table) -> Result<Scan, NoMemory>
        requires { IsTable graph.now table.now }
        ensures { IfOk result (λ s. IsScanned graph.now table.now s 0) }
    {
        let classes = table.keys.len();
        Ok(Scan {
            members: Members::new(alloc, classes, table.classes.len())?,
            hard: filled(alloc, 0, classes)?,
            reach: Reach::new(alloc, table.lines.len())?,
            groups: Marks::new(alloc, classes)?,
            asks: Marks::new(alloc, classes)?,
        })
    }

    /// Notes enough of the lines that race, where none is noted yet, and in `later` the least later
    /// line of two that are noted, where it is less.
    pub(crate) fn note_racing(
        mut self,
        graph: &Graph,
        table: &Table,
        held: &Held,
        racing: &mut Vec<bool>,
        later: &mut u32,
    ) -> Result<(), NoMemory>
        requires table { IsTable graph.now table.now }
        requires held { IsHeld graph.now held.now }
        requires scanned { IsScanned graph.now table.now self 0 }
        requires size { length racing.old.items ≡ length graph.now.lines }
        ensures size { OnOk result (length racing.new.items ≡ length graph.now.lines) }
        ensures enough { OnOk result (AreEnoughBelow graph.now table.now.limit racing.new.items) }
    {
        edges_between_lines();
        let lines = graph.lines();
        let mut first = 0;
        while first < lines {
            let end = lines.min(first + 64);
            self.note_slice(graph, table, held, first, end, racing, later)?;
            first = end;
        }
        Ok(())
    }

    /// Settles the lines of a slice with those before them.
    fn note_slice(
        &mut self,
        graph: &Graph,
        table: &Table,
        held: &Held,
        first: u32,
        end: u32,
        racing: &mut Vec<bool>,
        later: &mut u32,
    ) -> Result<(), NoMemory>
        requires table { IsTable graph.now table.now }
        requires held { IsHeld graph.now held.now }
        requires begins { first < end }
        requires short { end ≤ first + 64 }
        requires end { end ≤ length table.now.lines.items }
        requires scanned { IsScanned graph.now table.now self.old first }
        requires size { length racing.old.items ≡ length graph.now.lines }
        ensures scanned { OnOk result (IsScanned graph.now table.now self.new end) }
        ensures size { OnOk result (length racing.new.items ≡ length graph.now.lines) }
        ensures noted { OnOk result (AreStillNoted racing.old.items racing.new.items) }
        ensures answered { OnOk result ((u : ℕ) → first ≤ u → u < end → AreAnsweredAt graph.now table.now.limit table.now.lines.items racing.new.items u) }
    {
        let _ = graph.lines();
        self.groups.clear();
        self.asks.clear();
        let targets = list(&mut self.members, &mut self.groups, table, first, end)?;
        let stop = ask_all(
            &mut self.asks,
            self.groups.marks.as_slice(),
            &self.members,
            self.hard.as_slice(),
            table,
        )?;
        self.reach.sweep(graph, table, first, end, targets, stop);
        self.walk_all(graph, table, held, first, racing, later);
        harden_all(
            &mut self.hard,
            self.groups.marks.as_slice(),
            &self.members,
            graph,
            table,
            held,
        );
        Ok(())
    }
}

/// Lists the accesses of a slice as members of their classes and in groups, and gives the lines
/// that have some.
fn list(
    members: &mut Members,
    groups: &mut Marks,
    table: &Table,
    first: u32,
    end: u32,
) -> Result<u64, NoMemory>
    requires short { end ≤ first + 64 }
    requires numbered { AreNumbered table.now.classes.items table.now.sites.items }
    requires known { (m c : ℕ) → slice_get table.now.classes.items m ≡ Some c → c < length table.now.keys.items }
    requires starts { length table.now.starts.items ≡ length table.now.classes.items }
    requires count { length table.now.begins.items ≡ length table.now.lines.items + 1 }
    requires end { end ≤ length table.now.lines.items }
    requires begins { first ≤ end }
    requires begin { IsBegin table.now.sites.items first (slice_index table.now.begins.items first) }
    requires stop { IsBegin table.now.sites.items end (slice_index table.now.begins.items end) }
    requires listed { AreListed table.now members.old (slice_index table.now.begins.items first) }
    requires slots { length groups.old.slots.items ≡ length table.now.keys.items }
    requires empty { groups.old.marks.items ≡ [] }
    ensures listed { OnOk result (AreListed table.now members.new (slice_index table.now.begins.items end)) }
    ensures slots { OnOk result (length groups.new.slots.items ≡ length table.now.keys.items) }
    ensures below { OnOk result (AreMarksBelow groups.new.marks.items (length table.now.keys.items)) }
    ensures grouped { OnOk result (AreGrouped table.now groups.new.marks.items first (slice_index table.now.begins.items end)) }
{
    let begin = table.begins[first as usize];
    let stop = table.begins[end as usize];
    let mut targets = 0;
    for number in begin..stop {
        targets |= list_one(members, groups, table, first, number)?;
    }
    Ok(targets)
}

/// Lists one access, and gives its line's bit.
fn list_one(
    members: &mut Members,
    groups: &mut Marks,
    table: &Table,
    first: u32,
    number: u32,
) -> Result<u64, NoMemory>
    requires begins { first ≤ place_at table.now.sites.items number }
    requires short { place_at table.now.sites.items number < first + 64 }
    requires numbered { AreNumbered table.now.classes.items table.now.sites.items }
    requires known { (m c : ℕ) → slice_get table.now.classes.items m ≡ Some c → c < length table.now.keys.items }
    requires starts { length table.now.starts.items ≡ length table.now.classes.items }
    requires number { number < length table.now.classes.items }
    requires listed { AreListed table.now members.old number }
    requires slots { length groups.old.slots.items ≡ length table.now.keys.items }
    requires below { AreMarksBelow groups.old.marks.items (length table.now.keys.items) }
    ensures listed { OnOk result (AreListed table.now members.new (number + 1)) }
    ensures slots { OnOk result (length groups.new.slots.items ≡ length table.now.keys.items) }
    ensures below { OnOk result (AreMarksBelow groups.new.marks.items (length table.now.keys.items)) }
    ensures kept { OnOk result ((c b x : ℕ) → IsMarked groups.old.marks.items c b x → IsMarked groups.new.marks.items c b x) }
    ensures grouped { OnOk result ((c : ℕ) → slice_get table.now.classes.items number ≡ Some c
        → IsMarked groups.new.marks.items c (place_at table.now.sites.items number - first) (slice_index table.now.starts.items number)) }
{
    let place = table.sites[number as usize];
    let class = table.classes[number as usize];
    members.add(table.classes.as_slice(), number, place)?;
    let bit = 1 << (place - first);
    groups.add(class, bit, table.starts[number as usize])?;
    Ok(bit)
}
