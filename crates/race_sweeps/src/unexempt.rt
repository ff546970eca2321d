//! The hard accesses, which no exemption covers.

ghost use Rattle.std.specs.Prelude.{◌≡◌, ℕ, ◌<◌, ◌≤◌, length, Some, slice_get, slice_index, IsTrue};
ghost use Rattle.graph_terms.specs.declared.verb.Access.{Access};
ghost use Rattle.graph_terms.specs.Graph.{GraphValue};
ghost use Rattle.conflict_classes.specs.Classes.{IsNear};
ghost use Rattle.sweep_base.specs.Held.{IsHeld};
ghost use Rattle.race_sweeps.specs.Marks.{AreMarksBelow};
ghost use Rattle.race_sweeps.specs.Scan.{IsHard, HasHard, IsHardTo};
ghost use Rattle.race_sweeps.specs.ScanState.{AreListed};
ghost use Rattle.conflict_classes.specs.Table.{IsTable};

use crate::marks::Mark;
use crate::members::Members;
use conflict_classes::lookups::Table;
use graph_model::graph::Graph;
use graph_terms::verb::{Access, Mode};
use sweep_base::line_sections::Held;

/// Notes the last member of each group's class, where its access is hard.
pub(crate) fn harden_all(
    hard: &mut Vec<u32>,
    groups: &[Mark],
    members: &Members,
    graph: &Graph,
    table: &Table,
    held: &Held,
)
    requires table { IsTable graph.now table.now }
    requires held { IsHeld graph.now held.now }
    requires groups { AreMarksBelow groups.now (length table.now.keys.items) }
    requires size { length hard.old.items ≡ length table.now.keys.items }
    requires listed { (end : ℕ) × (end ≤ length table.now.lines.items) × AreListed table.now members.now (slice_index table.now.begins.items end) }
    ensures size { length hard.new.items ≡ length table.now.keys.items }
    ensures hard { (end : ℕ) → end ≤ length table.now.lines.items → AreListed table.now members.now (slice_index table.now.begins.items end) → IsHardTo graph.now table.now hard.old.items end → IsHardTo graph.now table.now hard.new.items end }
{
    for group in groups {
        harden_group(hard, *group, members, graph, table, held);
    }
}

/// Notes the last member of a group's class, where its access is hard.
fn harden_group(
    hard: &mut Vec<u32>,
    group: Mark,
    members: &Members,
    graph: &Graph,
    table: &Table,
    held: &Held,
)
    requires table { IsTable graph.now table.now }
    requires held { IsHeld graph.now held.now }
    requires group { group.class < length table.now.keys.items }
    requires size { length hard.old.items ≡ length table.now.keys.items }
    requires listed { (end : ℕ) × (end ≤ length table.now.lines.items) × AreListed table.now members.now (slice_index table.now.begins.items end) }
    ensures size { length hard.new.items ≡ length table.now.keys.items }
    ensures hard { (end : ℕ) → end ≤ length table.now.lines.items → AreListed table.now members.now (slice_index table.now.begins.items end) → IsHardTo graph.now table.now hard.old.items end → IsHardTo graph.now table.now hard.new.items end }
{
    let _ = graph.lines();
    let Some(last) = members.last[group.class as usize] else {
        return;
    };
    let key = table.keys[group.class as usize];
    let place = table.sites[last as usize];
    let line = table.lines[place as usize];
    if is_hard(graph, held, key.mode, line) {
        harden(hard, table, group.class, place);
    }
}

/// Whether an access of a line is hard.
fn is_hard(graph: &Graph, held: &Held, mode: Mode, line: u32) -> bool
    requires held { IsHeld graph.now held.now }
    requires line { line < length graph.now.lines }
    ensures { IsTrue result → IsHard graph.now line mode }
{
    match mode {
        Mode::Read => false,
        Mode::Write => true,
        Mode::Sum | Mode::Least | Mode::Most => held.is_free(graph, line),
    }
}

/// Notes a hard place of a class at all classes of its column and space.
fn harden(hard: &mut Vec<u32>, table: &Table, class: u32, place: u32)
    requires class { class < length table.now.keys.items }
    requires size { length hard.old.items ≡ length table.now.keys.items }
    requires lists { length table.now.near.items ≡ length table.now.keys.items }
    requires near { (c d : ℕ) → IsNear table.now.near.items c d → d < length table.now.keys.items }
    ensures size { length hard.new.items ≡ length table.now.keys.items }
    ensures hard { (g : GraphValue) (end : ℕ) (a : Access) → place < end → slice_get table.now.keys.items class ≡ Some a → HasHard g table.now.limit (slice_index table.now.lines.items place) a.column a.space
        → IsHardTo g table.now hard.old.items end → IsHardTo g table.now hard.new.items end }
{
    let key = table.keys[class as usize];
    hard[class as usize] = place;
    let near = table.near[class as usize].as_slice();
    for other in near {
        if is_same_use(table.keys[*other as usize], key) {
            hard[*other as usize] = place;
        }
    }
}

/// Whether two accesses are of one column and one space.
fn is_same_use(one: Access, other: Access) -> bool
    ensures { IsTrue result → (one.column ≡ other.column) × (one.space ≡ other.space) }
{
    one.column == other.column && one.space == other.space
}
