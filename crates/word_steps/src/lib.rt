//! The words and slots of a run, and the single steps on them that threads make without a lock.
//! `specs/Rule.antt` says what each step keeps, `specs/Plays.antt` what it finds and does.
#![tactic(auto)]

mod base;
mod clashes;
mod content;
mod held_slots;
mod lending;
mod moves;
mod opening;
mod plays;
mod table;
mod view;

pub use base::Base;
pub use content::{BoxedIssueState, Content, IssueState};
pub use lending::{column_of, content_of, issue_state_of, share_in};
pub use moves::{APART, HALF, Place, clock_word, issue_turn_slot};
pub use opening::{Opened, close_first, open};
pub use table::{RunTable, WordTable};
pub use view::View;
