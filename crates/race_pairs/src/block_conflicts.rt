//! Which lines of a block may conflict with a line, by the columns of their accesses.

ghost use Rattle.std.specs.Prelude.{◌≡◌, ℕ, ◌+◌, ◌*◌, ◌%◌, ◌^◌, ◌<◌, ◌≤◌, true, length, Contains, IsTrue, IfOk, slice_index, slice_set};
ghost use Rattle.std.specs.Int.RustNames.{bit_or};
ghost use Rattle.graph_terms.specs.declared.verb.Access.{Access};
ghost use Rattle.graph_terms.specs.Access.{Conflict, all_accesses, modes_clash};
ghost use Rattle.race_pairs.specs.Races.{AreAsked, IsAsked, column_count};
ghost use Rattle.sweep_base.specs.Bits.{bit_in};

use graph_meaning::line_laws::all_accesses_fit;
use graph_model::graph::Graph;
use graph_terms::limits::MAX_CALL_ACCESSES;
use graph_terms::verb::{Access, Mode};
use index_spaces::NoMemory;
use index_spaces::room::filled;
use std::alloc::Global;

/// For each column the lines of a block that use it, and those that change it.
#[derive(Drop)]
pub(crate) struct Asked {
    used: Vec<u64>,
    changed: Vec<u64>,
}

impl Asked {
    /// Those of the lines from `first` up to `end`.
    pub(crate) fn new(alloc: Global, graph: &Graph, first: u32, end: u32) -> Result<Asked, NoMemory>
        requires few { end ≤ first + 64 }
        requires ends { end ≤ length graph.now.lines }
        ensures { IfOk result (AreAsked graph.now first end) }
    {
        let _ = graph.lines();
        let columns = graph.all_columns() as usize;
        let mut asked = Asked {
            used: filled(alloc, 0, columns)?,
            changed: filled(alloc, 0, columns)?,
        };
        for line in first..end {
            asked.add_line(graph, line, line - first);
        }
        Ok(asked)
    }

    /// The lines of the block that may conflict with a line.
    pub(crate) fn of(&self, graph: &Graph, line: u32) -> u64
        requires line { line < length graph.now.lines }
        requires asked { (first : ℕ) × (end : ℕ) × AreAsked graph.now first end self.now }
        ensures { (first end b : ℕ) → AreAsked graph.now first end self.now → first + b < end → Conflict graph.now (first + b) line → bit_in result b ≡ true }
    {
        all_accesses_fit();
        let _ = graph.lines();
        let mut word = 0;
        for k in 0..MAX_CALL_ACCESSES {
            let Some(access) = graph.any_access(line, k) else {
                return word;
            };
            word |= self.of_access(access);
        }
        word
    }

    /// The lines of the block that may conflict with an access.
    fn of_access(&self, access: Access) -> u64
        requires used { access.column < length self.now.used.items }
        requires changed { access.column < length self.now.changed.items }
        ensures { (a : Access) (b : ℕ) → IsAsked self.now.used.items self.now.changed.items a b → a.column ≡ access.column → IsTrue (modes_clash a.mode access.mode) → bit_in result b ≡ true }
    {
        match access.mode {
            Mode::Read => self.changed[access.column as usize],
            _ => self.used[access.column as usize],
        }
    }

    /// Adds a line.
    fn add_line(&mut self, graph: &Graph, line: u32, bit: u32)
        requires line { line < length graph.now.lines }
        requires bit { bit < 64 }
        requires used_size { length self.old.used.items ≡ column_count graph.now }
        requires changed_size { length self.old.changed.items ≡ column_count graph.now }
        ensures used_size { length self.new.used.items ≡ column_count graph.now }
        ensures changed_size { length self.new.changed.items ≡ column_count graph.now }
        ensures kept { (a : Access) (b : ℕ) → IsAsked self.old.used.items self.old.changed.items a b → IsAsked self.new.used.items self.new.changed.items a b }
        ensures added { (a : Access) → Contains (all_accesses graph.now line) a → IsAsked self.new.used.items self.new.changed.items a bit }
    {
        all_accesses_fit();
        let _ = graph.lines();
        for k in 0..MAX_CALL_ACCESSES {
            let Some(access) = graph.any_access(line, k) else {
                return;
            };
            self.add(access, bit);
        }
    }

    /// Adds an access of a line.
    fn add(&mut self, access: Access, bit: u32)
        requires bit { bit < 64 }
        requires used { access.column < length self.old.used.items }
        requires changed { access.column < length self.old.changed.items }
        ensures used_size { length self.new.used.items ≡ length self.old.used.items }
        ensures changed_size { length self.new.changed.items ≡ length self.old.changed.items }
        ensures kept { (a : Access) (b : ℕ) → IsAsked self.old.used.items self.old.changed.items a b → IsAsked self.new.used.items self.new.changed.items a b }
        ensures added { IsAsked self.new.used.items self.new.changed.items access bit }
    {
        give(&mut self.used, access.column, bit);
        match access.mode {
            Mode::Read => {}
            _ => give(&mut self.changed, access.column, bit),
        }
    }
}

/// Gives a bit to a column.
fn give(words: &mut Vec<u64>, column: u32, bit: u32)
    requires bit { bit < 64 }
    requires column { column < length words.old.items }
    ensures { words.new.items ≡ slice_set words.old.items column (bit_or (slice_index words.old.items column) (1 * 2 ^ bit % 2 ^ 64)) }
{
    words[column as usize] |= 1 << bit;
}
