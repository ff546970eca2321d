//! Which classes are asked about the lines of a slice.

ghost use Rattle.std.specs.Prelude.{◌≡◌, ◌≢◌, ℕ, ◌<◌, [], length, Contains, Some, IsTrue, slice_get, OnOk};
ghost use Rattle.graph_terms.specs.declared.verb.Access.{Access};
ghost use Rattle.conflict_classes.specs.Classes.{AreNumbered, IsNear};
ghost use Rattle.conflict_classes.specs.Guards.{AreGuarded};
ghost use Rattle.race_sweeps.specs.Marks.{IsMarked, AreMarksBelow};
ghost use Rattle.race_sweeps.specs.Scan.{IsAsked, IsMarkAsked};
ghost use Rattle.race_sweeps.specs.ScanState.{AreListed};
ghost use Rattle.race_sweeps.specs.declared.marks.Mark.{Mark};
ghost use Rattle.conflict_classes.specs.declared.lookups.Table.{Table};

use crate::marks::{Mark, Marks};
use crate::members::Members;
use conflict_classes::clash::modes_commute;
use conflict_classes::lookups::Table;
use graph_terms::verb::Mode;
use index_spaces::NoMemory;

/// Asks the classes that conflict with those of groups about the lines of these, and gives the
/// first place that is asked about.
pub(crate) fn ask_all(
    asks: &mut Marks,
    groups: &[Mark],
    members: &Members,
    hard: &[u32],
    table: &Table,
) -> Result<u32, NoMemory>
    requires slots { length asks.old.slots.items ≡ length table.now.keys.items }
    requires empty { asks.old.marks.items ≡ [] }
    requires groups { AreMarksBelow groups.now (length table.now.keys.items) }
    requires near { (c d : ℕ) → IsNear table.now.near.items c d → d < length table.now.keys.items }
    requires lists { length table.now.near.items ≡ length table.now.keys.items }
    requires hard { length hard.now ≡ length table.now.keys.items }
    requires guards { length table.now.guards.items ≡ length table.now.keys.items }
    requires numbered { AreNumbered table.now.classes.items table.now.sites.items }
    requires listed { (m : ℕ) × AreListed table.now members.now m }
    ensures slots { OnOk result (length asks.new.slots.items ≡ length table.now.keys.items) }
    ensures below { OnOk result (AreMarksBelow asks.new.marks.items (length table.now.keys.items)) }
    ensures asked { OnOk result ((m : ℕ) → AreListed table.now members.now m → (g : Mark) → Contains groups.now g → IsMarkAsked table.now hard.now asks.new.marks.items m g) }
{
    let mut stop = u32::MAX;
    for group in groups {
        let from = ask_group(asks, *group, members, hard, table)?;
        stop = stop.min(from);
    }
    Ok(stop)
}

/// Asks the classes that conflict with that of a group.
fn ask_group(
    asks: &mut Marks,
    group: Mark,
    members: &Members,
    hard: &[u32],
    table: &Table,
) -> Result<u32, NoMemory>
    requires slots { length asks.old.slots.items ≡ length table.now.keys.items }
    requires below { AreMarksBelow asks.old.marks.items (length table.now.keys.items) }
    requires group { group.class < length table.now.keys.items }
    requires near { (c d : ℕ) → IsNear table.now.near.items c d → d < length table.now.keys.items }
    requires lists { length table.now.near.items ≡ length table.now.keys.items }
    requires hard { length hard.now ≡ length table.now.keys.items }
    requires guards { length table.now.guards.items ≡ length table.now.keys.items }
    requires numbered { AreNumbered table.now.classes.items table.now.sites.items }
    requires listed { (m : ℕ) × AreListed table.now members.now m }
    ensures slots { OnOk result (length asks.new.slots.items ≡ length table.now.keys.items) }
    ensures below { OnOk result (AreMarksBelow asks.new.marks.items (length table.now.keys.items)) }
    ensures kept { OnOk result ((c b x : ℕ) → IsMarked asks.old.marks.items c b x → IsMarked asks.new.marks.items c b x) }
    ensures asked { OnOk result ((m : ℕ) → AreListed table.now members.now m → IsMarkAsked table.now hard.now asks.new.marks.items m group) }
{
    let mut stop = ask_own(asks, group, members, hard, table)?;
    let near = table.near[group.class as usize].as_slice();
    for other in near {
        let from = ask(asks, group, *other, members, hard, table)?;
        stop = stop.min(from);
    }
    Ok(stop)
}

/// Asks the class of a group itself, unless it reads.
fn ask_own(
    asks: &mut Marks,
    group: Mark,
    members: &Members,
    hard: &[u32],
    table: &Table,
) -> Result<u32, NoMemory>
    requires slots { length asks.old.slots.items ≡ length table.now.keys.items }
    requires below { AreMarksBelow asks.old.marks.items (length table.now.keys.items) }
    requires group { group.class < length table.now.keys.items }
    requires hard { length hard.now ≡ length table.now.keys.items }
    requires guards { length table.now.guards.items ≡ length table.now.keys.items }
    requires numbered { AreNumbered table.now.classes.items table.now.sites.items }
    requires listed { (m : ℕ) × AreListed table.now members.now m }
    ensures slots { OnOk result (length asks.new.slots.items ≡ length table.now.keys.items) }
    ensures below { OnOk result (AreMarksBelow asks.new.marks.items (length table.now.keys.items)) }
    ensures kept { OnOk result ((c b x : ℕ) → IsMarked asks.old.marks.items c b x → IsMarked asks.new.marks.items c b x) }
    ensures asked { OnOk result ((m : ℕ) (a : Access) → AreListed table.now members.now m → slice_get table.now.keys.items group.class ≡ Some a → a.mode ≢ Mode.Read
        → IsAsked table.now hard.now asks.new.marks.items m group group.class) }
{
    match table.keys[group.class as usize].mode {
        Mode::Read => Ok(u32::MAX),
        _ => ask(asks, group, group.class, members, hard, table),
    }
}

/// Asks a class about the lines of a group, from the last hard place on, and not about members
/// in other sections where both are guarded.
fn ask(
    asks: &mut Marks,
    group: Mark,
    class: u32,
    members: &Members,
    hard: &[u32],
    table: &Table,
) -> Result<u32, NoMemory>
    requires slots { class < length asks.old.slots.items }
    requires group { group.class < length table.now.keys.items }
    requires class { class < length table.now.keys.items }
    requires hard { length hard.now ≡ length table.now.keys.items }
    requires guards { length table.now.guards.items ≡ length table.now.keys.items }
    requires numbered { AreNumbered table.now.classes.items table.now.sites.items }
    requires listed { (m : ℕ) × AreListed table.now members.now m }
    ensures slots { OnOk result (length asks.new.slots.items ≡ length asks.old.slots.items) }
    ensures below { OnOk result ((n : ℕ) → class < n → AreMarksBelow asks.old.marks.items n → AreMarksBelow asks.new.marks.items n) }
    ensures kept { OnOk result ((c b x : ℕ) → IsMarked asks.old.marks.items c b x → IsMarked asks.new.marks.items c b x) }
    ensures asked { OnOk result ((m : ℕ) → AreListed table.now members.now m → IsAsked table.now hard.now asks.new.marks.items m group class) }
{
    let last_hard = hard[group.class as usize].max(hard[class as usize]);
    let floor = last_hard.max(guarded_floor(table, group, class));
    let Some(last) = members.last[class as usize] else {
        return Ok(u32::MAX);
    };
    if table.sites[last as usize] < floor {
        return Ok(u32::MAX);
    }
    asks.add(class, group.word, floor)?;
    Ok(floor.max(members.first[class as usize]))
}

/// The place before which members of a class lie in other sections than the lines of a group.
fn guarded_floor(table: &Table, group: Mark, class: u32) -> u32
    requires group { group.class < length table.now.keys.items }
    requires class { class < length table.now.keys.items }
    requires guards { length table.now.guards.items ≡ length table.now.keys.items }
    ensures { (x : ℕ) → x < result → AreGuarded table.now.keys.items table.now.guards.items group.class class × (x < group.floor) }
{
    if are_guarded(table, group.class, class) {
        group.floor
    } else {
        0
    }
}

/// Whether two classes of modes that commute have the same guard.
fn are_guarded(table: &Table, one: u32, other: u32) -> bool
    requires one { one < length table.now.keys.items }
    requires other { other < length table.now.keys.items }
    requires guards { length table.now.guards.items ≡ length table.now.keys.items }
    ensures { IsTrue result → AreGuarded table.now.keys.items table.now.guards.items one other }
{
    let Some(lock) = table.guards[one as usize] else {
        return false;
    };
    let Some(other_lock) = table.guards[other as usize] else {
        return false;
    };
    let one_key = table.keys[one as usize];
    let other_key = table.keys[other as usize];
    lock == other_lock && modes_commute(one_key.mode, other_key.mode)
}
