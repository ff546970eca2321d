//! The states of the lines, in which a run has stopped.

ghost use Rattle.std.specs.Prelude.{◌≡◌, ◌<◌, length, slice_get, slice_set, replicate, Some, IfOk};
ghost use Rattle.run_parts.specs.Shown.{blank_state};

use crate::answers::Stage;
use event_table::{Handle, NO_EVENT};
use graph_terms::outcome::End;
use index_spaces::NoMemory;
use index_spaces::room::filled;
use std::alloc::Global;
use std::marker::Model;

/// How far a line has come: its end is Waiting where it has not ended, and its handle `NO_EVENT`
/// where it isn't issued. The time is that of a line that has ended, and counts from 0.
#[derive(Clone, Copy, Debug, PartialEq, Eq)]
pub struct LineState {
    pub stage: Stage,
    pub end: End,
    pub handle: Handle,
    pub time: u32,
}

/// The state of each line.
#[derive(Drop)]
pub struct StateList {
    pub items: Vec<LineState>,
}

impl Model for StateList {
    ghost use Rattle.std.specs.Prelude.{List, length, ◌<◌, ◌^◌};
    ghost use Rattle.run_parts.specs.declared.states.LineState.{LineState};

    ghost Value = { List LineState };

    ghost view = { λ a. a.items.items };

    ghost invariant = { λ a. length a.items.items < 2 ^ 32 };
}

impl StateList {
    /// The states of so many lines that are not issued.
    pub fn blank(alloc: Global, lines: u32) -> Result<StateList, NoMemory>
        ensures { IfOk result (λ states. states ≡ replicate lines blank_state) }
    {
        let state = LineState {
            stage: Stage::Unissued,
            end: End::Waiting,
            handle: NO_EVENT,
            time: 0,
        };
        Ok(StateList {
            items: filled(alloc, state, lines as usize)?,
        })
    }

    /// How many there are.
    pub fn len(&self) -> u32
        ensures { result ≡ length self.now }
    {
        self.items.len() as u32
    }

    /// The state of line `i`, counted from 0.
    pub fn at(&self, i: u32) -> LineState
        requires { i < length self.now }
        ensures { slice_get self.now i ≡ Some result }
    {
        self.items[i as usize]
    }

    /// Sets the state of line `i`, counted from 0.
    pub fn set(&mut self, i: u32, state: LineState)
        requires { i < length self.old }
        ensures { self.new ≡ slice_set self.old i state }
    {
        self.items[i as usize] = state;
    }
}
