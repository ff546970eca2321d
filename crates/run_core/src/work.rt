//! The work of a line that was taken.

ghost use Rattle.std.specs.Prelude.{◌≡◌, ◌<◌, true, length};
ghost use Rattle.graph_terms.specs.Graph.{is_call, line_passes};
ghost use Rattle.run_core.specs.Works.{verdict_by};
ghost use Rattle.graph_meaning.specs.Effect.{effect};
ghost use Rattle.graph_meaning.specs.Evaluation.{end_by};

use graph_model::graph::Graph;
use graph_terms::outcome::{End, Verdict};
use graph_terms::verb::Verb;
use index_spaces::held::Held;
use line_effects::effects::apply;
use run_state::laws::{sight_gives_cells, sight_is_as_evaluated};
use std::marker::Model;

/// A line that was taken, with the columns that it may change, moved out of the core, and shares of those
/// that it only reads. A line that is cancelled has none.
#[derive(Drop)]
pub struct Work {
    line: u32,
    is_cancelled: bool,
    held: Held,
}

impl Model for Work {
    ghost use Rattle.run_core.specs.Works.{WorkValue};

    ghost Value = { WorkValue };

    ghost view = { λ a. record { line = a.line; is_cancelled = a.is_cancelled; held = a.held } };
}

/// A line that was performed, with its end and the columns as it leaves them.
#[derive(Drop)]
pub struct Finished {
    line: u32,
    end: End,
    held: Held,
}

impl Model for Finished {
    ghost use Rattle.run_core.specs.Works.{FinishedValue};

    ghost Value = { FinishedValue };

    ghost view = { λ a. record { line = a.line; ends = a.end; held = a.held } };
}

impl Work {
    ghost use Rattle.std.specs.Prelude.{◌≡◌, ◌≢◌, Bool, true, false, List};
    ghost use Rattle.graph_terms.specs.declared.outcome.End.TheVariants.{Done, Cancelled};
    ghost use Rattle.graph_meaning.specs.Evaluation.{eval_end};
    ghost use Rattle.graph_terms.specs.declared.outcome.Verdict.TheVariants.{Fine};
    ghost use Rattle.graph_terms.specs.Graph.{is_call, line_passes};
    ghost use Rattle.run_core.specs.Core.{CoreValue, IsCore};
    ghost use Rattle.run_core.specs.Works.{IsWork, IsFinished, verdict_of};

    /// The work of a line.
    pub(crate) fn of(line: u32, is_cancelled: bool, held: Held) -> Work
        ensures { result ≡ record { «line» = line; «is_cancelled» = is_cancelled; «held» = held } }
    {
        Work {
            line,
            is_cancelled,
            held,
        }
    }

    /// The number of the line.
    pub fn line(&self) -> u32
        ensures { result ≡ self.now.line }
    {
        self.line
    }

    /// Whether what it waits for cancels the line: then it does nothing.
    pub fn is_cancelled(&self) -> bool
        ensures { result ≡ self.now.is_cancelled }
    {
        self.is_cancelled
    }

    /// Does the line's effect on the columns that it holds. A call is done. The graph is that of the
    /// core from which the work was taken.
    pub fn perform(self, graph: &Graph) -> Finished
        requires work { (c : CoreValue) × IsCore c × (c.graph ≡ graph.now) × IsWork c self }
        ensures line { result.line ≡ self.line }
        ensures said { self.is_cancelled ≡ false → line_passes is_call graph.now self.line ≡ true → result.ends ≡ Done }
        ensures finished { (c : CoreValue) → IsCore c → c.graph ≡ graph.now → IsWork c self → IsFinished c result }
    {
        self.perform_by(graph, Verdict::Fine)
    }

    /// The same, but that a call which is not cancelled ends as the host says: Faulted where the verdict
    /// is a fault. The core is one that was prepared for a host.
    pub fn perform_with(self, graph: &Graph, verdict: Verdict) -> Finished
        requires work { (c : CoreValue) × IsCore c × (c.hosted ≡ true) × (c.graph ≡ graph.now) × IsWork c self }
        ensures line { result.line ≡ self.line }
        ensures said { self.is_cancelled ≡ false → line_passes is_call graph.now self.line ≡ true → result.ends ≡ end_by verdict }
        ensures finished { (c : CoreValue) → IsCore c → c.hosted ≡ true → c.graph ≡ graph.now → IsWork c self → IsFinished c result }
    {
        self.perform_by(graph, verdict)
    }

    /// The same, where nothing but Fine is said without a host.
    fn perform_by(self, graph: &Graph, said: Verdict) -> Finished
        requires work { (c : CoreValue) × IsCore c × (c.graph ≡ graph.now) × IsWork c self }
        ensures line { result.line ≡ self.line }
        ensures said { self.is_cancelled ≡ false → line_passes is_call graph.now self.line ≡ true → result.ends ≡ end_by said }
        ensures finished { (c : CoreValue) → IsCore c → (c.hosted ≡ false → said ≡ Fine) → c.graph ≡ graph.now → IsWork c self → IsFinished c result }
    {
        sight_is_as_evaluated();
        sight_gives_cells();
        let Work {
            line,
            is_cancelled,
            mut held,
        } = self;
        let end = if is_cancelled {
            End::Cancelled
        } else {
            let own = apply(graph, line, &mut held);
            end_by(verdict_by(graph, line, said, own))
        };
        Finished { line, end, held }
    }
}

/// The verdict of a line: for a call the one that is said, for another its own.
fn verdict_by(graph: &Graph, line: u32, said: Verdict, own: Verdict) -> Verdict
    requires { line < length graph.now.lines }
    ensures { result ≡ verdict_by (line_passes is_call graph.now line) said own }
{
    match &graph.line(line).verb {
        Verb::Call { .. } => said,
        _ => own,
    }
}

/// The end of a line whose effect says this of itself.
fn end_by(verdict: Verdict) -> End
    ensures { result ≡ end_by verdict }
{
    match verdict {
        Verdict::Fine => End::Done,
        Verdict::Fault => End::Faulted,
    }
}

impl Finished {
    ghost use Rattle.std.specs.Prelude.{◌≡◌};
    ghost use Rattle.run_core.specs.Works.{verdict_of};

    /// The number of the line.
    pub fn line(&self) -> u32
        ensures { result ≡ self.now.line }
    {
        self.line
    }

    /// What the line's effect says of itself, and Fine for a line that is cancelled.
    pub fn verdict(&self) -> Verdict
        ensures { result ≡ verdict_of self.now.ends }
    {
        match self.end {
            End::Faulted => Verdict::Fault,
            _ => Verdict::Fine,
        }
    }

    /// The line, its end and its columns.
    pub(crate) fn into_parts(self) -> (u32, End, Held)
        ensures { (result.0 ≡ self.line) × (result.1 ≡ self.ends) × (result.2 ≡ self.held) }
    {
        (self.line, self.end, self.held)
    }
}
