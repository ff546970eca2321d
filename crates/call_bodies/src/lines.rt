//! Running a line: the body of a call, and the effect of any other line.

ghost use Rattle.std.specs.Prelude.{◌≡◌, ◌<◌, true, false, length};
ghost use Rattle.graph_terms.specs.Graph.{line_passes, is_call as calls};
ghost use Rattle.run_core.specs.Core.{CoreValue, IsCore};
ghost use Rattle.run_core.specs.Finishing.{CanBeTaken, IsStill};
ghost use Rattle.run_core.specs.Works.{IsWork, IsFinished};
ghost use Rattle.call_bodies.specs.Driving.{HostCore, GoesOn, left, HasRun};

use crate::Bodies;
use graph_model::graph::Graph;
use graph_terms::outcome::Verdict;
use graph_terms::verb::Verb;
use run_core::{Attempt, Core, Finished, Work};
use run_state::laws::{cancelled_by_kept_ends, clock_is_small};

/// Takes a line, performs it and puts it back. False comes where it can't be taken.
pub(crate) fn run_line<'g, B: Bodies>(core: &mut Core<'g>, bodies: &mut B, line: u32) -> bool
    requires host { HostCore core.old }
    requires line { line < length core.old.graph.lines }
    ensures goes_on { GoesOn core.old (B.memory bodies.old) (B.does bodies.old) core.new (B.memory bodies.new) (B.does bodies.new) }
    ensures moved { result ≡ true → left core.new < left core.old }
    ensures unmoved { result ≡ false → IsStill core.old core.new × (CanBeTaken core.old.graph core.old.run line → ⊥) }
{
    cancelled_by_kept_ends();
    clock_is_small();
    core.is_sound();
    let Attempt::Taken(work) = core.attempt(line) else {
        return false;
    };
    core.is_sound();
    let finished = perform(core.graph(), work, bodies);
    core.put_back(finished);
    core.is_sound();
    true
}

/// Performs a line that was taken, with its body where it is a call that is not cancelled.
fn perform<B: Bodies>(graph: &Graph, work: Work, bodies: &mut B) -> Finished
    requires work { (c : CoreValue) × IsCore c × (c.hosted ≡ true) × (c.graph ≡ graph.now) × IsWork c work }
    requires line { work.line < length graph.now.lines }
    ensures line { result.line ≡ work.line }
    ensures finished { (c : CoreValue) → IsCore c → c.hosted ≡ true → c.graph ≡ graph.now → IsWork c work → IsFinished c result }
    ensures ran { HasRun graph.now work (B.memory bodies.old) (B.does bodies.old graph.now) result (B.memory bodies.new) }
    ensures does { B.does bodies.new ≡ B.does bodies.old }
{
    let verdict = if !work.is_cancelled() && is_call(graph, work.line()) {
        bodies.run(graph, work.line())
    } else {
        Verdict::Fine
    };
    work.perform_with(graph, verdict)
}

/// Whether a line is a call.
fn is_call(graph: &Graph, line: u32) -> bool
    requires { line < length graph.now.lines }
    ensures { result ≡ line_passes calls graph.now line }
{
    matches!(&graph.line(line).verb, Verb::Call { .. })
}
