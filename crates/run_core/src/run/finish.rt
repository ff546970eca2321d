//! A run is brought to its end on one thread.

ghost use Rattle.std.specs.Prelude.{◌≡◌};

use crate::answers::Attempt;
use crate::run::Core;
use run_parts::Issue;

impl<'g> Core<'g> {
    ghost use Rattle.std.specs.Prelude.{◌≡◌, ℕ, ◌<◌, ◌≤◌, true, false, length};
    ghost use Rattle.run_state.specs.Run.{out};
    ghost use Rattle.run_core.specs.Finishing.{NothingOut, GoesOn, left_to_do, IsStill, CanBeTaken, IsQuiet};

    /// Issues, takes and puts back lines until nothing moves. No work may be out. Then each line is
    /// issued, and none can be taken.
    pub fn finish(&mut self)
        requires nothing_out { NothingOut self.old }
        ensures quiet { IsQuiet self.new.graph self.new.run }
        ensures goes_on { GoesOn self.old self.new }
    {
        while self.advance() {}
    }

    /// Issues a line and runs what that lets run, or tries each line that is issued. False comes
    /// where nothing moved.
    fn advance(&mut self) -> bool
        requires nothing_out { NothingOut self.old }
        ensures goes_on { GoesOn self.old self.new }
        ensures moved { result ≡ true → left_to_do self.new < left_to_do self.old }
        ensures unmoved { result ≡ false → IsQuiet self.new.graph self.new.run }
    {
        self.is_sound();
        self.slots_suffice();
        match self.issue() {
            Issue::Issued(line) => {
                self.start(line);
                true
            }
            _ => self.scan(),
        }
    }

    /// Runs a line that was just issued, and those that its handle or its end lets run.
    fn start(&mut self, line: u32)
        requires line { line < length self.old.graph.lines }
        requires nothing_out { NothingOut self.old }
        ensures goes_on { GoesOn self.old self.new }
    {
        self.run_line(line);
        for edge in self.graph().edges_from(line) {
            if edge.to < line {
                self.run_line(edge.to);
            }
        }
        self.follow_woken();
    }

    /// Runs lines that were woken, at most as many as the graph has.
    fn follow_woken(&mut self)
        requires nothing_out { NothingOut self.old }
        ensures goes_on { GoesOn self.old self.new }
    {
        for _ in 0..self.graph().lines() {
            let Some(line) = self.next_woken() else {
                return;
            };
            self.run_line(line);
        }
    }

    /// Tries each line. False comes where none could be taken.
    fn scan(&mut self) -> bool
        requires nothing_out { NothingOut self.old }
        ensures goes_on { GoesOn self.old self.new }
        ensures moved { result ≡ true → left_to_do self.new < left_to_do self.old }
        ensures unmoved { result ≡ false → IsStill self.old self.new × ((i : ℕ) → CanBeTaken self.new.graph self.new.run i → ⊥) }
    {
        let mut moved = false;
        for line in 0..self.graph().lines() {
            if self.run_line(line) {
                moved = true;
                self.follow_woken();
            }
        }
        self.is_sound();
        moved
    }

    /// Takes a line, performs it and puts it back. False comes where it can't be taken.
    fn run_line(&mut self, line: u32) -> bool
        requires line { line < length self.old.graph.lines }
        requires nothing_out { NothingOut self.old }
        ensures goes_on { GoesOn self.old self.new }
        ensures moved { result ≡ true → left_to_do self.new < left_to_do self.old }
        ensures unmoved { result ≡ false → IsStill self.old self.new × (CanBeTaken self.old.graph self.old.run line → ⊥) }
    {
        let Attempt::Taken(work) = self.attempt(line) else {
            return false;
        };
        self.is_sound();
        let finished = work.perform(self.graph());
        self.put_back(finished);
        true
    }
}
