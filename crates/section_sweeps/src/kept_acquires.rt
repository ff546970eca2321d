//! The acquires that are kept, for each reservation and each line in a section of it.

ghost use Rattle.std.specs.Prelude.{◌≡◌, ℕ, ◌<◌, ◌≤◌, true, length, slice_index, OnOk, IfOk};
ghost use Rattle.graph_terms.specs.Reservations.{Acquires};
ghost use Rattle.graph_meaning.specs.Rules.{Section};
ghost use Rattle.sweep_base.specs.Bits.{bit_in};
ghost use Rattle.section_sweeps.specs.Sections.{AreHeldSoFar, IsGrown, IsKept};

use graph_model::graph::Graph;
use index_spaces::NoMemory;
use std::alloc::Global;
use sweep_base::bits::has_bit;
use sweep_base::line_sections::Held;
use sweep_base::reservations::acquired;

/// No acquire is kept.
pub fn nothing_kept(alloc: Global, graph: &Graph) -> Result<Held, NoMemory>
    ensures { IfOk result (AreHeldSoFar graph.now) }
{
    let lines = graph.lines();
    let held = Held::new(alloc, lines)?;
    Ok(held)
}

/// Keeps some acquires of a group, in whose sections a line lies.
pub fn keep_all(
    held: &mut Held,
    graph: &Graph,
    acquires: &[u32],
    line: u32,
    inside: u64,
) -> Result<(), NoMemory>
    requires line { line < length graph.now.lines }
    requires few { length acquires.now ≤ 64 }
    requires acquires { (b : ℕ) → b < length acquires.now → slice_index acquires.now b < length graph.now.lines }
    requires held { AreHeldSoFar graph.now held.old }
    requires sections { (b l : ℕ) → b < length acquires.now → bit_in inside b ≡ true → Acquires graph.now (slice_index acquires.now b) l → Section graph.now l (slice_index acquires.now b) line }
    ensures held { OnOk result (AreHeldSoFar graph.now held.new) }
    ensures grown { OnOk result (IsGrown held.old held.new) }
    ensures kept { OnOk result ((b l : ℕ) → b < length acquires.now → bit_in inside b ≡ true → Acquires graph.now (slice_index acquires.now b) l → IsKept held.new l line) }
{
    for bit in 0..acquires.len() {
        if has_bit(inside, bit as u32) {
            keep(held, graph, acquires[bit], line)?;
        }
    }
    Ok(())
}

/// Keeps an acquire, in whose section a line lies.
fn keep(held: &mut Held, graph: &Graph, acquire: u32, line: u32) -> Result<(), NoMemory>
    requires line { line < length graph.now.lines }
    requires acquire { acquire < length graph.now.lines }
    requires held { AreHeldSoFar graph.now held.old }
    requires section { (l : ℕ) → Acquires graph.now acquire l → Section graph.now l acquire line }
    ensures held { OnOk result (AreHeldSoFar graph.now held.new) }
    ensures grown { OnOk result (IsGrown held.old held.new) }
    ensures kept { OnOk result ((l : ℕ) → Acquires graph.now acquire l → IsKept held.new l line) }
{
    match acquired(graph, acquire) {
        Some(lock) => held.keep(line, lock, acquire),
        None => Ok(()),
    }
}
