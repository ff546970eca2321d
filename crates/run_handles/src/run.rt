//! A run that goes on.

ghost use Rattle.std.specs.Prelude.{◌≡◌, ◌≤◌, ◌↔◌, true, IfSome};
ghost use Rattle.run_core.specs.Core.{slots_given, unissued_for_host};
ghost use Rattle.run_core.specs.Finishing.{NothingOut};
ghost use Rattle.run_core.specs.Resting.{core_by, RestsBy};
ghost use Rattle.run_handles.specs.Runs.{lines_of};

use crate::calls::call_at;
use graph_terms::call::Call;
use race_check::checked::Checked;
use run_core::{Attempt, Core, Finished, Issue, MAX_SLOTS, Resting, Stage};
use std::alloc::Global;
use std::marker::Model;
use std::sync::Arc;

mod ending;

/// A run that goes on, and the graph of it, which the work of its lines shares. The last that is freed frees the graph.
#[derive(Drop)]
pub struct Run {
    graph: Arc<Checked, Global>,
    core: Resting,
}

impl Model for Run {
    ghost use Rattle.std.specs.Arc.{arc_value};
    ghost use Rattle.run_core.specs.Core.{CoreValue};
    ghost use Rattle.std.specs.Prelude.{◌≡◌, true};
    ghost use Rattle.run_core.specs.Resting.{core_by, RestsBy};

    ghost Value = { CoreValue };

    ghost view = { λ a. core_by (arc_value a.graph).graph a.core };

    ghost invariant = { λ a. record {
      rests : RestsBy (arc_value a.graph).graph a.core;
      hosted : a.core.hosted ≡ true;
    } };
}

/// How many lines of a run have come how far.
#[repr(C)]
#[derive(Clone, Copy, Drop)]
pub struct Lines {
    /// Not issued.
    pub unissued: u32,
    /// Issued and not taken.
    pub issued: u32,
    /// Taken and not put back.
    pub out: u32,
    /// Those that have ended.
    pub ended: u32,
    /// Those that come and have not ended.
    pub left: u32,
}

impl Lines {
    ghost use Rattle.std.specs.Prelude.{◌≡◌};
    ghost use Rattle.run_handles.specs.Runs.{no_lines};

    /// None at all.
    pub fn none() -> Lines
        ensures { result ≡ no_lines }
    {
        Lines {
            unissued: 0,
            issued: 0,
            out: 0,
            ended: 0,
            left: 0,
        }
    }
}

impl Run {
    ghost use Rattle.std.specs.Prelude.{◌≡◌, ◌≢◌, ℕ, ◌<◌, ◌≤◌, ◌↔◌, [], length, option_map, IfOk, IfSome, IfNone};
    ghost use Rattle.std.specs.Arc.{arc_value};
    ghost use Rattle.run_core.specs.Core.{CoreValue, IsCore, slots_given, unissued_for_host};
    ghost use Rattle.run_core.specs.Finishing.{NothingOut};
    ghost use Rattle.run_core.specs.Steps.{Attempts, Issues, Wakes, with_end};
    ghost use Rattle.run_core.specs.WhatIsOut.{OneMoreOut, OutAfter, SameOut};
    ghost use Rattle.run_core.specs.Works.{IsFinished, KeepsWork};
    ghost use Rattle.run_handles.specs.Runs.{lines_of};
    ghost use Rattle.run_handles.specs.Calls.{call_at};

    /// A run in which no line is issued. None comes where memory ran out.
    pub fn begin(alloc: Global, checked: Checked, slots: u32) -> Option<Run>
        requires enough { checked.need ≤ slots }
        requires most { slots ≤ MAX_SLOTS }
        ensures { IfSome result (λ c. (c ≡ unissued_for_host checked.graph slots) × (slots_given c ≡ slots) × NothingOut c) }
    {
        let Ok(graph) = Arc::new(alloc, checked) else {
            return None;
        };
        match prepare(alloc, &graph, slots) {
            Some(core) => Some(Run { graph, core }),
            None => None,
        }
    }

    /// Another owner of the graph. None comes where there are too many.
    pub(crate) fn graph(&self) -> Option<Arc<Checked, Global>>
        ensures { IfSome result (λ graph. (arc_value graph).graph ≡ self.now.graph) }
    {
        Arc::try_clone(&self.graph).ok()
    }

    /// How many lines the graph has.
    pub(crate) fn lines(&self) -> u32
        ensures { result ≡ length self.now.graph.lines }
    {
        self.graph.graph().lines()
    }

    /// The call that a line is.
    pub fn call_at(&self, line: u32) -> Option<&Call>
        ensures { option_map (λ c. c.now) result ≡ call_at self.now.graph line }
    {
        call_at(self.graph.graph(), line)
    }

    /// Issues the next line.
    pub(crate) fn issue(self) -> (Run, Issue)
        ensures did { Issues self result.0 result.1 }
        ensures works { (k : ℕ) → KeepsWork self result.0 k }
        ensures out { SameOut self result.0 }
        ensures slots { slots_given result.0 ≡ slots_given self }
    {
        let Run { graph, core } = self;
        let mut awake = core.wake(&graph);
        let answer = awake.issue();
        let core = awake.rest();
        (Run { graph, core }, answer)
    }

    /// Tries to take a line.
    pub(crate) fn attempt(self, line: u32) -> (Run, Attempt)
        requires { line < length self.graph.lines }
        ensures did { Attempts self result.0 line result.1 }
        ensures works { (k : ℕ) → KeepsWork self result.0 k }
        ensures out { OutAfter self result.0 result.1 }
        ensures slots { slots_given result.0 ≡ slots_given self }
        ensures sound { IsCore result.0 }
        ensures graph { result.0.graph ≡ self.graph }
    {
        let Run { graph, core } = self;
        let mut awake = core.wake(&graph);
        let answer = awake.attempt(line);
        awake.is_sound();
        let core = awake.rest();
        (Run { graph, core }, answer)
    }

    /// Puts a line back.
    pub(crate) fn put_back(self, finished: Finished) -> Run
        requires { IsFinished self finished }
        ensures put { result ≡ with_end self finished }
        ensures works { (k : ℕ) → k ≢ finished.line → KeepsWork self result k }
        ensures out { OneMoreOut result self finished.line }
        ensures slots { slots_given result ≡ slots_given self }
    {
        let Run { graph, core } = self;
        let mut awake = core.wake(&graph);
        awake.put_back(finished);
        let core = awake.rest();
        Run { graph, core }
    }

    /// Gives a line that waited for one that has ended.
    pub(crate) fn next_woken(self) -> (Run, Option<u32>)
        ensures some { IfSome result.1 (λ i. Wakes self i result.0 × (i < length self.graph.lines)) }
        ensures none { IfNone result.1 ((self.table.caught ≡ []) × (result.0 ≡ self)) }
        ensures works { (k : ℕ) → KeepsWork self result.0 k }
        ensures out { SameOut self result.0 }
        ensures slots { slots_given result.0 ≡ slots_given self }
    {
        let Run { graph, core } = self;
        let mut awake = core.wake(&graph);
        let woken = awake.next_woken();
        let core = awake.rest();
        (Run { graph, core }, woken)
    }

    /// How far its lines have come.
    pub(crate) fn count(self) -> (Run, Lines)
        ensures same { result.0 ≡ self }
        ensures counts { result.1 ≡ lines_of self }
        ensures nothing_out { (result.1.out ≡ 0) ↔ NothingOut self }
    {
        let Run { graph, core } = self;
        let awake = core.wake(&graph);
        let lines = counted(&awake);
        let core = awake.rest();
        (Run { graph, core }, lines)
    }
}

/// A core in which no line is issued. None comes where memory ran out.
fn prepare(alloc: Global, checked: &Checked, slots: u32) -> Option<Resting>
    requires enough { checked.now.need ≤ slots }
    requires most { slots ≤ MAX_SLOTS }
    ensures rests { IfSome result (λ r. RestsBy checked.now.graph r) }
    ensures core { IfSome result (λ r. core_by checked.now.graph r ≡ unissued_for_host checked.now.graph slots) }
    ensures slots { IfSome result (λ r. slots_given (core_by checked.now.graph r) ≡ slots) }
    ensures nothing_out { IfSome result (λ r. NothingOut (core_by checked.now.graph r)) }
    ensures hosted { IfSome result (λ r. r.hosted ≡ true) }
{
    match Core::prepare_for_host(alloc, checked, slots) {
        Ok(core) => Some(core.rest()),
        Err(_) => None,
    }
}

/// How far the lines of a core have come.
fn counted(core: &Core<'_>) -> Lines
    ensures counts { result ≡ lines_of core.now }
    ensures nothing_out { (result.out ≡ 0) ↔ NothingOut core.now }
{
    Lines {
        unissued: core.lines_at(Stage::Unissued),
        issued: core.lines_at(Stage::Issued),
        out: core.lines_at(Stage::Out),
        ended: core.lines_at(Stage::Ended),
        left: core.lines_left(),
    }
}
