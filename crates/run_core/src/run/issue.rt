//! Lines are issued in file order.

use crate::run::Core;
use run_parts::{Issue, Progress};
use run_state::laws::{issue_keeps_sharing, left_below_need};

impl<'g> Core<'g> {
    ghost use Rattle.run_core.specs.Core.{slots_given};
    ghost use Rattle.run_core.specs.Steps.{Issues, IsLeft};
    ghost use Rattle.run_core.specs.Works.{KeepsWork};
    ghost use Rattle.run_core.specs.WhatIsOut.{SameOut};
    ghost use Rattle.run_core.specs.Finishing.{NothingOut};
    ghost use Rattle.run_core.specs.Finishing.{CanBeTaken};
    ghost use Rattle.event_table.specs.EventMap.{IsFull};
    ghost use Rattle.std.specs.Prelude.{◌≡◌, ℕ};

    /// Gives the next line in file order its handle. All comes exactly where all lines are issued,
    /// NoSlot exactly where a line is left and no slot is free.
    pub fn issue(&mut self) -> Issue
        ensures answer { Issues self.old self.new result }
        ensures works { (i : ℕ) → KeepsWork self.old self.new i }
        ensures out { SameOut self.old self.new }
        ensures slots { slots_given self.new ≡ slots_given self.old }
    {
        issue_keeps_sharing();
        self.events.holds_a_map();
        let next = self.events.issued();
        if next as usize == self.stages.len() {
            return Issue::All;
        }
        if !self.events.create() {
            return Issue::NoSlot;
        }
        self.stages[next as usize] = Progress::Issued;
        Issue::Issued(next)
    }

    /// Where nothing is out, no issued line can be taken and a line is left to issue, a slot is free.
    pub fn has_free_slot(&self)
        requires nothing_out { NothingOut self.now }
        requires none_taken { (i : ℕ) → CanBeTaken self.now.graph self.now.run i → ⊥ }
        requires left { IsLeft self.now }
        ensures { IsFull self.now.table → ⊥ }
    {
        self.slots_suffice();
    }

    /// The same, before it is known whether a line can be taken or is left.
    pub(crate) fn slots_suffice(&self)
        ensures { NothingOut self.now → ((i : ℕ) → CanBeTaken self.now.graph self.now.run i → ⊥) → IsLeft self.now → IsFull self.now.table
            → ⊥ }
    {
        left_below_need();
        let _ = self.checked.need();
    }
}
