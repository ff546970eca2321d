//! The walks over the members of the classes that are asked, which note the lines that race.

ghost use Rattle.std.specs.Prelude.{◌≡◌, ℕ, ◌+◌, ◌<◌, ◌≤◌, true, length, Contains, slice_index, IsTrue};
ghost use Rattle.sweep_base.specs.Held.{IsHeld};
ghost use Rattle.race_sweeps.specs.Marks.{AreMarksBelow};
ghost use Rattle.sweep_base.specs.Bits.{bit_in};
ghost use Rattle.race_sweeps.specs.Reach.{IsReach};
ghost use Rattle.race_sweeps.specs.Scan.{AreSettledWith, IsWalked};
ghost use Rattle.race_sweeps.specs.ScanState.{AreListed};
ghost use Rattle.sweep_base.specs.Noted.{AreStillNoted, is_noted};
ghost use Rattle.race_sweeps.specs.Enough.{IsSettledOrNoted};
ghost use Rattle.conflict_classes.specs.Table.{IsTable};
ghost use Rattle.race_sweeps.specs.declared.marks.Mark.{Mark};

use crate::marks::Mark;
use crate::reach::behind;
use crate::scan::Scan;
use conflict_classes::clash::is_exempt;
use conflict_classes::lookups::Table;
use graph_model::graph::Graph;
use sweep_base::bits::has_bit;
use sweep_base::line_sections::Held;

impl Scan {
    /// Settles the members that are asked with the lines that they are asked about.
    pub(crate) fn walk_all(
        &self,
        graph: &Graph,
        table: &Table,
        held: &Held,
        first: u32,
        racing: &mut Vec<bool>,
        later: &mut u32,
    )
        requires table { IsTable graph.now table.now }
        requires held { IsHeld graph.now held.now }
        requires reach { IsReach graph.now table.now.lines.items first self.now.reach.words.items }
        requires asks { AreMarksBelow self.now.asks.marks.items (length table.now.keys.items) }
        requires first { first ≤ length table.now.lines.items }
        requires listed { (end : ℕ) × (end ≤ length table.now.lines.items) × (end ≤ first + 64) × AreListed table.now self.now.members (slice_index table.now.begins.items end) }
        requires size { length racing.old.items ≡ length graph.now.lines }
        ensures size { length racing.new.items ≡ length graph.now.lines }
        ensures noted { AreStillNoted racing.old.items racing.new.items }
        ensures walked { (m : ℕ) → AreListed table.now self.now.members m → (ask : Mark) → Contains self.now.asks.marks.items ask → IsWalked graph.now table.now racing.new.items first m ask }
    {
        let asks = self.asks.marks.as_slice();
        for ask in asks {
            self.walk(graph, table, held, first, *ask, racing, later);
        }
    }

    /// Walks down the members of a class as far as they are asked.
    fn walk(
        &self,
        graph: &Graph,
        table: &Table,
        held: &Held,
        first: u32,
        ask: Mark,
        racing: &mut Vec<bool>,
        later: &mut u32,
    )
        requires table { IsTable graph.now table.now }
        requires held { IsHeld graph.now held.now }
        requires reach { IsReach graph.now table.now.lines.items first self.now.reach.words.items }
        requires class { ask.class < length table.now.keys.items }
        requires first { first ≤ length table.now.lines.items }
        requires listed { (end : ℕ) × (end ≤ length table.now.lines.items) × (end ≤ first + 64) × AreListed table.now self.now.members (slice_index table.now.begins.items end) }
        requires size { length racing.old.items ≡ length graph.now.lines }
        ensures size { length racing.new.items ≡ length graph.now.lines }
        ensures noted { AreStillNoted racing.old.items racing.new.items }
        ensures walked { (m : ℕ) → AreListed table.now self.now.members m → IsWalked graph.now table.now racing.new.items first m ask }
    {
        let mut found = self.members.last[ask.class as usize];
        while let Some(number) = found {
            let place = table.sites[number as usize];
            if place < ask.floor {
                return;
            }
            self.settle(graph, table, held, first, place, ask.word, racing, later);
            found = self.members.earlier[number as usize];
        }
    }

    /// Settles the line at a place with those lines of a word that stand behind it.
    fn settle(
        &self,
        graph: &Graph,
        table: &Table,
        held: &Held,
        first: u32,
        place: u32,
        word: u64,
        racing: &mut Vec<bool>,
        later: &mut u32,
    )
        requires table { IsTable graph.now table.now }
        requires held { IsHeld graph.now held.now }
        requires reach { IsReach graph.now table.now.lines.items first self.now.reach.words.items }
        requires place { place < length table.now.lines.items }
        requires slice { place < first + 64 }
        requires first { first ≤ length table.now.lines.items }
        requires size { length racing.old.items ≡ length graph.now.lines }
        ensures size { length racing.new.items ≡ length graph.now.lines }
        ensures noted { AreStillNoted racing.old.items racing.new.items }
        ensures settled { AreSettledWith graph.now table.now.lines.items racing.new.items first place word }
    {
        let left = word & behind(first, place) & !self.reach.word(place);
        if left == 0 {
            return;
        }
        note_all(graph, table, held, first, place, left, racing, later);
    }
}

/// Notes the line at a place and each line of a word that it races with.
fn note_all(
    graph: &Graph,
    table: &Table,
    held: &Held,
    first: u32,
    place: u32,
    left: u64,
    racing: &mut Vec<bool>,
    later: &mut u32,
)
    requires table { IsTable graph.now table.now }
    requires held { IsHeld graph.now held.now }
    requires place { place < length table.now.lines.items }
    requires first { first ≤ length table.now.lines.items }
    requires size { length racing.old.items ≡ length graph.now.lines }
    ensures size { length racing.new.items ≡ length graph.now.lines }
    ensures noted { AreStillNoted racing.old.items racing.new.items }
    ensures settled { (b : ℕ) → b < 64 → first + b < length table.now.lines.items → bit_in left b ≡ true
        → IsSettledOrNoted graph.now racing.new.items (slice_index table.now.lines.items place) (slice_index table.now.lines.items (first + b)) }
{
    for bit in 0..64 {
        note(graph, table, held, first, place, left, bit, racing, later);
    }
}

/// Notes the line at a place and a line of a slice, where that is one of a word's and they race.
fn note(
    graph: &Graph,
    table: &Table,
    held: &Held,
    first: u32,
    place: u32,
    left: u64,
    bit: u32,
    racing: &mut Vec<bool>,
    later: &mut u32,
)
    requires table { IsTable graph.now table.now }
    requires held { IsHeld graph.now held.now }
    requires place { place < length table.now.lines.items }
    requires first { first ≤ length table.now.lines.items }
    requires bit { bit < 64 }
    requires size { length racing.old.items ≡ length graph.now.lines }
    ensures size { length racing.new.items ≡ length graph.now.lines }
    ensures noted { AreStillNoted racing.old.items racing.new.items }
    ensures settled { first + bit < length table.now.lines.items → bit_in left bit ≡ true
        → IsSettledOrNoted graph.now racing.new.items (slice_index table.now.lines.items place) (slice_index table.now.lines.items (first + bit)) }
{
    if !has_bit(left, bit) {
        return;
    }
    let lines = graph.lines();
    let other = first + bit;
    if other >= lines {
        return;
    }
    let one = table.lines[place as usize];
    let two = table.lines[other as usize];
    note_pair(graph, held, one, two, racing, later);
}

/// Notes two lines unless they are exempt, and the later of them where it is the least so far.
fn note_pair(
    graph: &Graph,
    held: &Held,
    one: u32,
    other: u32,
    racing: &mut Vec<bool>,
    later: &mut u32,
)
    requires held { IsHeld graph.now held.now }
    requires one { one < length graph.now.lines }
    requires other { other < length graph.now.lines }
    requires size { length racing.old.items ≡ length graph.now.lines }
    ensures size { length racing.new.items ≡ length graph.now.lines }
    ensures noted { AreStillNoted racing.old.items racing.new.items }
    ensures settled { IsSettledOrNoted graph.now racing.new.items one other }
{
    if are_noted(racing.as_slice(), one, other, *later) {
        return;
    }
    if is_exempt(graph, held, one, other) {
        return;
    }
    racing[one as usize] = true;
    racing[other as usize] = true;
    *later = one.max(other).min(*later);
}

/// Whether two lines are noted, and neither stands above the least later line.
fn are_noted(racing: &[bool], one: u32, other: u32, later: u32) -> bool
    requires one { one < length racing.now }
    requires other { other < length racing.now }
    ensures { IsTrue result → (is_noted racing.now one ≡ true) × (is_noted racing.now other ≡ true) }
{
    one.max(other) >= later && racing[one as usize] && racing[other as usize]
}
