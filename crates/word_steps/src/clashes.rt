//! Seats that are never there together.

ghost use Rattle.std.specs.Prelude.{ℕ, ◌≡◌, ◌<◌, length};
ghost use Rattle.graph_meaning.specs.Path.{HasPath};
ghost use Rattle.word_steps.specs.Clashes.{AreNeverTogether};
ghost use Rattle.word_steps.specs.Plays.{looked_at};
ghost use Rattle.word_steps.specs.Premises.{Has};
ghost use Rattle.word_steps.specs.Table.{graph_of, IsSeatOf};

use crate::moves::Place;
use crate::plays::{GiveClaim, ImpossibleJoin, NoStep};
use crate::table::WordTable;

impl<'g> WordTable<'g> {
    /// Such seats are never there together, so this is never called when the program runs. A seat is
    /// joined only without a claim: the claim goes first to one that is split off.
    pub fn refute(&self, one: &mut Place, other: &mut Place)
        requires at { IsSeatOf self.now one.old × IsSeatOf self.now other.old }
        requires clash { AreNeverTogether one.old.me.0 other.old.me.0 }
        ensures { ⊥ }
    {
        let moved = self.table.shared.split_seat::<GiveClaim>(one);
        self.table.shared.join_seat::<ImpossibleJoin>(other, moved);
        self.table.shared.load::<NoStep>(other, 0);
    }

    /// The seat of one line looks at another line that is out with the other seat. It finds it not
    /// ended, so no path leads from there to its own line.
    pub fn look_beside(&self, one: &mut Place, other: &mut Place, line: u32, beside: u32)
        requires at { IsSeatOf self.now one.old × IsSeatOf self.now other.old }
        requires line { Has one.old.me.0 (λ cl. cl.line ≡ line) }
        requires beside { Has other.old.me.0 (λ cl. cl.line ≡ beside) }
        requires near { beside < length (graph_of self.now).lines }
        ensures at { IsSeatOf self.now one.new }
        ensures looked { (r : ℕ) × (one.new.me ≡ (looked_at one.old.me.0 beside r, one.old.me.1)) }
        ensures stays { other.new ≡ other.old }
        ensures no_path { HasPath (graph_of self.now) beside line → ⊥ }
    {
        let word = self.look(one, beside);
        if word >= 8 {
            self.refute(one, other);
            unreachable!()
        }
    }
}
