//! Lines are put back, and those that waited for them are woken.

ghost use Rattle.std.specs.Prelude.{◌≡◌, ◌≢◌, ◌<◌, length, Contains};
ghost use Rattle.graph_terms.specs.declared.outcome.End.TheVariants.{Cancelled};
ghost use Rattle.graph_terms.specs.declared.verb.Access.{Access as TheAccess};
ghost use Rattle.graph_terms.specs.Access.{accesses};
ghost use Rattle.graph_terms.specs.Graph.{columns as graph_columns};
ghost use Rattle.lent_columns.specs.Moved.{MayGive, AreGiven};
ghost use Rattle.run_state.specs.WholeLine.{values_with, arrival_for};
ghost use Rattle.run_core.specs.Steps.{fate_for};

use crate::run::Core;
use crate::work::Finished;
use event_table::{Fate, Handle};
use graph_model::graph::Graph;
use graph_terms::outcome::End;
use index_spaces::held::Held;
use index_spaces::room::push_within;
use run_lists::columns::{Columns, give_columns};
use run_lists::holders::free;
use run_lists::phases::arrive;
use run_parts::Progress;
use run_state::laws::{
    put_back_keeps_sharing, put_back_leaves_end, put_back_leaves_sight, sight_gives_cells,
};

impl<'g> Core<'g> {
    ghost use Rattle.std.specs.Prelude.{◌≡◌, ◌≢◌, ℕ, ◌<◌, [], length, slice_get, IfSome, IfNone};
    ghost use Rattle.run_core.specs.Core.{slots_given};
    ghost use Rattle.run_core.specs.Steps.{with_end, Wakes};
    ghost use Rattle.run_core.specs.Works.{IsFinished, KeepsWork};
    ghost use Rattle.run_core.specs.WhatIsOut.{SameOut, OneMoreOut};

    /// Ends a line whose work was taken from this core, and its handle. Its columns come home, the
    /// value of an arrival goes to its phase, and the acquire of a release, where it is done, holds its
    /// reservation no more. The line stands last in the trace so far.
    pub fn put_back(&mut self, finished: Finished)
        requires { IsFinished self.old finished }
        ensures put { self.new ≡ with_end self.old finished }
        ensures works { (k : ℕ) → k ≢ finished.line → KeepsWork self.old self.new k }
        ensures out { OneMoreOut self.new self.old finished.line }
        ensures slots { slots_given self.new ≡ slots_given self.old }
    {
        put_back_keeps_sharing();
        put_back_leaves_end();
        put_back_leaves_sight();
        sight_gives_cells();
        let (line, end, held) = finished.into_parts();
        let graph = self.checked.graph();
        settle(graph, line, end, held, &mut self.columns, &mut self.values);
        free(graph, line, self.stages.as_slice(), &mut self.holders);
        self.stages[line as usize] = Progress::Ended(end);
        push_within(&mut self.trace, line);
        self.events.end(line, fate_for(end));
    }

    /// A line whose waiter was caught, which is then free again. None comes exactly where none is
    /// left.
    pub fn next_woken(&mut self) -> Option<u32>
        ensures some { IfSome result (λ i. Wakes self.old i self.new × (i < length self.old.graph.lines)) }
        ensures none { IfNone result ((self.old.table.caught ≡ []) × (self.new ≡ self.old)) }
        ensures works { (k : ℕ) → KeepsWork self.old self.new k }
        ensures out { SameOut self.old self.new }
        ensures slots { slots_given self.new ≡ slots_given self.old }
    {
        self.events.next_woken()
    }

    /// The handle of a line. None comes exactly where it isn't issued.
    pub fn handle_of(&self, i: u32) -> Option<Handle>
        ensures { result ≡ slice_get self.now.handles i }
    {
        self.events.handle(i)
    }
}

/// Puts the columns of a line back and its value into its phase, unless it is cancelled.
fn settle(
    graph: &Graph,
    line: u32,
    end: End,
    held: Held,
    columns: &mut Columns,
    values: &mut Vec<u64>,
)
    requires known { line < length graph.now.lines }
    requires each { (length columns.old.homes.columns ≡ length (graph_columns graph.now)) × (length values.old.items ≡ length graph.now.lines) }
    requires may { end ≢ Cancelled → (a : TheAccess) → Contains (accesses graph.now line) a → MayGive a columns.old.homes held }
    ensures given { end ≢ Cancelled → AreGiven graph.now line held columns.old.homes columns.new.homes }
    ensures cancelled { end ≡ Cancelled → columns.new.homes ≡ columns.old.homes }
    ensures takers { columns.new.takers.items ≡ columns.old.takers.items }
    ensures values { values.new.items ≡ values_with values.old.items (arrival_for graph.now line end) }
{
    if end == End::Cancelled {
        return;
    }
    give_columns(graph, line, held, columns);
    arrive(graph, line, values);
}

/// The fate of the handle of a line that ends so.
fn fate_for(end: End) -> Fate
    ensures { result ≡ fate_for end }
{
    match end {
        End::Done => Fate::Ok,
        _ => Fate::Poison,
    }
}
