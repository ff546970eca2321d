//! Bringing a core to its end on one thread, with the bodies of its calls.

ghost use Rattle.std.specs.Prelude.{◌≡◌, ◌<◌, ℕ, true, false, length};
ghost use Rattle.run_core.specs.Finishing.{IsQuiet, CanBeTaken};
ghost use Rattle.call_bodies.specs.Driving.{HostCore, GoesOn, left};

use crate::Bodies;
use crate::lines::run_line;
use run_core::{Core, Issue};

/// Issues, takes and puts back lines until nothing moves.
pub(crate) fn drive<'g, B: Bodies>(core: &mut Core<'g>, bodies: &mut B)
    requires host { HostCore core.old }
    ensures goes_on { GoesOn core.old (B.memory bodies.old) (B.does bodies.old) core.new (B.memory bodies.new) (B.does bodies.new) }
    ensures quiet { IsQuiet core.new.graph core.new.run }
{
    while advance(core, bodies) {}
}

/// Issues a line and runs what that lets run, or tries each line that is issued. False comes where
/// nothing moved.
fn advance<'g, B: Bodies>(core: &mut Core<'g>, bodies: &mut B) -> bool
    requires host { HostCore core.old }
    ensures goes_on { GoesOn core.old (B.memory bodies.old) (B.does bodies.old) core.new (B.memory bodies.new) (B.does bodies.new) }
    ensures moved { result ≡ true → left core.new < left core.old }
    ensures unmoved { result ≡ false → IsQuiet core.new.graph core.new.run }
{
    if issue(core, bodies) || scan(core, bodies) {
        return true;
    }
    core.is_sound();
    match core.issue() {
        Issue::Issued(_) => true,
        Issue::NoSlot => {
            core.has_free_slot();
            unreachable!()
        }
        _ => false,
    }
}

/// Issues a line, and runs it and those that its handle or its end lets run. False comes where none
/// was issued.
fn issue<'g, B: Bodies>(core: &mut Core<'g>, bodies: &mut B) -> bool
    requires host { HostCore core.old }
    ensures goes_on { GoesOn core.old (B.memory bodies.old) (B.does bodies.old) core.new (B.memory bodies.new) (B.does bodies.new) }
    ensures moved { result ≡ true → left core.new < left core.old }
{
    core.is_sound();
    let Issue::Issued(line) = core.issue() else {
        return false;
    };
    start(core, bodies, line);
    true
}

/// Runs a line that was just issued, and those that its handle or its end lets run.
fn start<'g, B: Bodies>(core: &mut Core<'g>, bodies: &mut B, line: u32)
    requires host { HostCore core.old }
    requires line { line < length core.old.graph.lines }
    ensures goes_on { GoesOn core.old (B.memory bodies.old) (B.does bodies.old) core.new (B.memory bodies.new) (B.does bodies.new) }
{
    run_line(core, bodies, line);
    for edge in core.graph().edges_from(line) {
        if edge.to < line {
            run_line(core, bodies, edge.to);
        }
    }
    follow_woken(core, bodies);
}

/// Runs lines that were woken, at most as many as the graph has.
fn follow_woken<'g, B: Bodies>(core: &mut Core<'g>, bodies: &mut B)
    requires host { HostCore core.old }
    ensures goes_on { GoesOn core.old (B.memory bodies.old) (B.does bodies.old) core.new (B.memory bodies.new) (B.does bodies.new) }
{
    for _ in 0..core.graph().lines() {
        let Some(line) = core.next_woken() else {
            return;
        };
        run_line(core, bodies, line);
    }
}

/// Tries each line. False comes where none could be taken.
fn scan<'g, B: Bodies>(core: &mut Core<'g>, bodies: &mut B) -> bool
    requires host { HostCore core.old }
    ensures goes_on { GoesOn core.old (B.memory bodies.old) (B.does bodies.old) core.new (B.memory bodies.new) (B.does bodies.new) }
    ensures moved { result ≡ true → left core.new < left core.old }
    ensures unmoved { result ≡ false → (i : ℕ) → CanBeTaken core.new.graph core.new.run i → ⊥ }
{
    let mut moved = false;
    for line in 0..core.graph().lines() {
        if run_line(core, bodies, line) {
            moved = true;
            follow_woken(core, bodies);
        }
    }
    core.is_sound();
    moved
}
