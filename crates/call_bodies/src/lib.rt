//! Runs of a graph whose calls have bodies of the caller's own, on memory of its own, by one thread.
#![tactic(auto)]

mod driving;
mod lines;

ghost use Rattle.std.specs.Prelude.{◌≡◌, ◌≤◌, ℕ, IfOk, IfErr};
ghost use Rattle.graph_meaning.specs.Effect.{zero_cells};
ghost use Rattle.graph_meaning.specs.Evaluation.{outcome_with, evaluation_with, end_with, cells_with};
ghost use Rattle.graph_meaning.specs.Laws.{KeepsToAccesses};
ghost use Rattle.run_state.specs.Quiet.{IsLawfulWith};
ghost use Rattle.run_state.specs.Verdicts.{effect_by};
ghost use Rattle.call_bodies.specs.Bodies.{host_does, end_of, faulted_in};

use crate::driving::drive;
use checked_graph::Checked;
use graph_meaning::laws::waits_where_reached_for_all_effects;
use graph_model::graph::Graph;
use graph_terms::outcome::{Outcome, Verdict};
use host_bodies::laws::{host_agrees, host_leaves_evaluation};
use index_spaces::NoMemory;
use run_core::{Core, MAX_SLOTS};
use std::alloc::Global;

/// The bodies of the calls of graphs, with the memory on which they work.
pub trait Bodies {
    ghost use Rattle.std.specs.Prelude.{◌≡◌, ◌<◌, ℕ, true, length};
    ghost use Rattle.graph_terms.specs.Graph.{GraphValue, is_call, line_passes};
    ghost use Rattle.graph_meaning.specs.Effect.{Cells, Effects, cells_after};
    ghost use Rattle.graph_meaning.specs.Evaluation.{made_by};

    // What the memory holds, by the columns of data of a graph and their points.
    ghost memory: { Self → Cells };

    // What the body of each call of a graph does by what it finds in the memory.
    ghost does: { Self → GraphValue → Effects };

    /// Runs the body of the call that a line of the graph is, and says whether it faulted. A body that
    /// faults leaves the memory as it found it.
    fn run(&mut self, graph: &Graph, line: u32) -> Verdict
        requires line { line < length graph.now.lines }
        requires call { line_passes is_call graph.now line ≡ true }
        ensures verdict { result ≡ (does self.old graph.now line (memory self.old)).verdict }
        ensures memory { (c p : ℕ) → memory self.new c p
            ≡ cells_after (memory self.old) (made_by result (does self.old graph.now line (memory self.old)).changes) c p }
        ensures does { does self.new ≡ does self.old };
}

/// Runs an accepted graph to its end, and answers its outcome: that of the evaluation in which those
/// calls fault whose bodies said so. The memory is in the end that of the evaluation in which the calls
/// do what their bodies do, from the memory as it was. Slots go from the graph's need to the most
/// that a run has. `NoMemory` comes where memory ran out; then the bodies and their memory stay.
pub fn run_calls<B: Bodies>(
    alloc: Global,
    checked: &Checked,
    slots: u32,
    bodies: &mut B,
) -> Result<Outcome, NoMemory>
    requires enough { checked.now.need ≤ slots }
    requires most { slots ≤ MAX_SLOTS }
    requires keeps { KeepsToAccesses checked.now.graph (B.does bodies.old checked.now.graph) }
    ensures evaluated { IfOk result (λ o. o ≡ outcome_with (effect_by (faulted_in o) checked.now.graph) zero_cells checked.now.graph o.trace) }
    ensures in_order { IfOk result (λ o. IsLawfulWith (effect_by (faulted_in o) checked.now.graph) checked.now.graph o.trace) }
    ensures ends { IfOk result (λ o. (i : ℕ) → end_of o i
        ≡ end_with (host_does checked.now.graph (B.does bodies.old checked.now.graph) (faulted_in o)) (B.memory bodies.old) checked.now.graph i) }
    ensures memory { IfOk result (λ o. (c p : ℕ) → B.memory bodies.new c p
        ≡ cells_with (B.memory bodies.old)
        (evaluation_with (host_does checked.now.graph (B.does bodies.old checked.now.graph) (faulted_in o)) (B.memory bodies.old) checked.now.graph) c p) }
    ensures none_run { IfErr result (λ _. bodies.new ≡ bodies.old) }
{
    host_agrees();
    host_leaves_evaluation();
    waits_where_reached_for_all_effects();
    let _ = checked.graph();
    let mut core = Core::prepare_for_host(alloc, checked, slots)?;
    drive(&mut core, bodies);
    core.is_sound();
    Ok(core.outcome())
}
