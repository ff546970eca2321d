//! What the slots of a run hold.

ghost use Rattle.std.specs.Prelude.{◌≡◌, IfOk};

use event_table::Handle;
use index_spaces::NoMemory;
use index_spaces::column::Column;
use index_spaces::shares::{ColumnLender, ColumnShare};
use shared_events::{Maker, Pending, Receipt, Seat, Waiter};
use std::alloc::Global;
use std::marker::Model;

/// The issue state, of which there is one: the right to create events, the handles that were
/// created, a seat that has seen them all, and the free waiters, each at the number of its line.
/// Whoever has the issue turn has all of it, so lines are issued one at a time, and the handles are
/// in file order.
#[derive(Drop)]
pub struct IssueState {
    pub maker: Maker,
    pub handles: Vec<Handle>,
    pub seat: Seat,
    pub waiters: Vec<Option<Waiter>>,
}

/// The issue state at a place of its own. Each line has a slot, and each slot is as wide as the widest
/// thing that a slot holds.
#[derive(Drop)]
pub struct BoxedIssueState {
    pub state: Box<IssueState>,
}

impl Model for BoxedIssueState {
    ghost use Rattle.word_steps.specs.declared.content.IssueState.{IssueState};

    ghost Value = { IssueState };

    ghost view = { λ b. b.state.value };
}

impl BoxedIssueState {
    /// Gives the issue state its place.
    pub fn new(alloc: Global, state: IssueState) -> Result<BoxedIssueState, NoMemory>
        ensures { IfOk result (λ b. b ≡ state) }
    {
        let Ok(state) = Box::new(alloc, state) else {
            return Err(NoMemory);
        };
        Ok(BoxedIssueState { state })
    }

    /// Takes it out.
    pub fn into_state(self) -> IssueState
        ensures { result ≡ self }
    {
        Box::into_inner(self.state)
    }
}

/// What a slot holds: nothing, the event of a line that has not ended, the receipt of one that has,
/// a column, the right to have a column back that is lent, shares of one, or the issue state.
pub enum Content {
    Nothing,
    PendingEvent(Pending),
    EventReceipt(Receipt),
    Cells(Column),
    Lent(ColumnLender),
    Share(ColumnShare),
    Issuer(BoxedIssueState),
}
