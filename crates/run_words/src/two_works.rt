//! Two works of one run at once.

ghost use Rattle.std.specs.Prelude.{◌≢◌};
ghost use Rattle.run_state.specs.Apart.{ConflictOnlyExempt};
ghost use Rattle.run_words.specs.Apart.{StaysWork};
ghost use Rattle.run_words.specs.Words.{graph_of};
ghost use Rattle.run_words.specs.Works.{IsWorkOf, work_line};

use crate::words::Words;
use crate::works::WordWork;
use run_state::laws::unordered_conflict_only_exempt;

impl<'g> Words<'g> {
    /// Shows that two works of this run are of different lines, which conflict only where both reduce
    /// and are exempt. Each stays the work that it is, and looks once at the other's line.
    pub fn works_apart(&self, one: &mut WordWork, other: &mut WordWork)
        requires one { IsWorkOf self.now one.old }
        requires other { IsWorkOf self.now other.old }
        ensures one { StaysWork self.now one.old one.new }
        ensures other { StaysWork self.now other.old other.new }
        ensures different { work_line one.old ≢ work_line other.old }
        ensures conflicts { ConflictOnlyExempt (graph_of self.now) (work_line one.old) (work_line other.old) }
    {
        unordered_conflict_only_exempt();
        let _ = self.table.base.checked.graph();
        if one.line == other.line {
            self.table.refute(&mut one.inner, &mut other.inner);
            unreachable!()
        }
        self.table
            .look_beside(&mut one.inner, &mut other.inner, one.line, other.line);
        self.table
            .look_beside(&mut other.inner, &mut one.inner, other.line, one.line);
    }
}
