//! A core is kept without its borrow of the graph, beside whoever owns that.

ghost use Rattle.std.specs.Prelude.{◌≡◌};
ghost use Rattle.run_core.specs.Resting.{core_by, RestsBy};

use crate::run::Core;
use checked_graph::Checked;
use run_lists::columns::Columns;
use run_lists::events::LineEvents;
use run_lists::holders::Holders;
use run_parts::{OutcomeRoom, Progress};

/// What a core has besides the borrow of its graph.
#[derive(Drop)]
pub struct Resting {
    stages: Vec<Progress>,
    events: LineEvents,
    columns: Columns,
    values: Vec<u64>,
    holders: Holders,
    trace: Vec<u32>,
    room: OutcomeRoom,
    hosted: bool,
}

impl<'g> Core<'g> {
    ghost use Rattle.std.specs.Prelude.{◌≡◌};
    ghost use Rattle.run_core.specs.Resting.{core_by, RestsBy};

    /// Gives the borrow of the graph up.
    pub fn rest(self) -> Resting
        ensures rests { RestsBy self.entry.graph result }
        ensures core { core_by self.entry.graph result ≡ self.entry }
    {
        let Core {
            stages,
            events,
            columns,
            values,
            holders,
            trace,
            room,
            hosted,
            ..
        } = self;
        Resting {
            stages,
            events,
            columns,
            values,
            holders,
            trace,
            room,
            hosted,
        }
    }
}

impl Resting {
    /// The core again, with its graph.
    pub fn wake<'g>(self, checked: &'g Checked) -> Core<'g>
        requires rests { RestsBy checked.now.graph self }
        ensures { result ≡ core_by checked.now.graph self }
    {
        let Resting {
            stages,
            events,
            columns,
            values,
            holders,
            trace,
            room,
            hosted,
        } = self;
        Core {
            checked,
            stages,
            events,
            columns,
            values,
            holders,
            trace,
            room,
            hosted,
        }
    }
}
