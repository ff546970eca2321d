//! The marks that a search leaves on lines.
#![tactic(auto)]

ghost use Rattle.std.specs.Prelude.{◌≡◌, ℕ, ◌<◌, ◌==◌, [], cond, Contains, length, slice_index, slice_set, OnOk, IfOk};
ghost use Rattle.line_marks.specs.Marking.{IsMarking};

use index_spaces::NoMemory;
use index_spaces::room::{filled, push};
use std::alloc::Global;

/// The marks of lines, and the marked lines from which a search has still to go on.
#[derive(Drop)]
pub struct Marks {
    /// The mark of each line, 0 where it has none.
    pub by_line: Vec<u32>,
    /// The marked lines from which the search has still to go on, in the order of their marks.
    pub pending: Vec<u32>,
}

impl Marks {
    /// No line of so many has a mark.
    pub fn new(alloc: Global, lines: usize) -> Result<Marks, NoMemory>
        ensures size { IfOk result (λ m. length m.by_line.items ≡ lines) }
        ensures none { IfOk result (λ m. (i : ℕ) → slice_index m.by_line.items i ≡ 0) }
        ensures pending { IfOk result (λ m. m.pending.items ≡ []) }
    {
        let by_line = filled(alloc, 0, lines)?;
        Ok(Marks {
            by_line,
            pending: Vec::new(alloc),
        })
    }

    /// Marks a line that has no mark, and tells whether it had none.
    pub fn mark(&mut self, line: u32, mark: u32) -> Result<bool, NoMemory>
        requires known { line < length self.old.by_line.items }
        requires some { 0 < mark }
        ensures marking { OnOk result
            (IsMarking (λ i. i ≡ line) mark self.old.by_line.items self.old.pending.items self.new.by_line.items self.new.pending.items) }
        ensures fresh { IfOk result (λ b. b ≡ (slice_index self.old.by_line.items line == 0)) }
        ensures by_line { IfOk result (λ b. self.new.by_line.items ≡ cond b (slice_set self.old.by_line.items line mark) self.old.by_line.items) }
    {
        if self.by_line[line as usize] > 0 {
            return Ok(false);
        }
        push(&mut self.pending, line)?;
        self.by_line[line as usize] = mark;
        Ok(true)
    }

    /// Marks the lines of a list that have none.
    pub fn mark_all(&mut self, lines: &[u32], mark: u32) -> Result<(), NoMemory>
        requires known { (i : ℕ) → Contains lines.now i → i < length self.old.by_line.items }
        requires some { 0 < mark }
        ensures { OnOk result
            (IsMarking (Contains lines.now) mark self.old.by_line.items self.old.pending.items self.new.by_line.items self.new.pending.items) }
    {
        for line in lines {
            self.mark(*line, mark)?;
        }
        Ok(())
    }
}
