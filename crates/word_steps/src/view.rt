//! What a seat knows and has. No value of it is made: contracts alone speak of it.

ghost use Rattle.std.specs.Borrow.{ftrue};
ghost use Rattle.std.specs.Prelude.{ℕ, List, Option};
ghost use Rattle.graph_terms.specs.declared.outcome.End.{End};
ghost use Rattle.event_table.specs.declared.handle.Handle.{Handle};
ghost use Rattle.word_steps.specs.Claims.{Claim, Ground};
ghost use Rattle.word_steps.specs.declared.content.IssueState.{IssueState};

use std::marker::Model;

// The first four name the seat. From `issued` to `let_go` the lists only grow. The last three are
// rights, which are moved and never copied.
/// What a seat of a run knows and has.
pub struct View {
    // The graph and the events. A seat that was joined away has none.
    pub ghost keys: { List Ground },
    // Its own number, and those of the seats that were joined into it.
    pub ghost mine: { List ℕ },
    // How many seats were split off it, and the numbers of all that were split off it and off those
    // that were joined into it.
    pub ghost births: { ℕ },
    pub ghost splits: { List ℕ },
    // Lines known issued, and known ended with their ends.
    pub ghost issued: { List ℕ },
    pub ghost ended: { List (ℕ × End) },
    // Lists with which the handles of the lines begin, in file order.
    pub ghost named: { List (List Handle) },
    // Of each load, and of each column that was taken, the number of the word and what it held.
    pub ghost saw: { List (ℕ × ℕ) },
    // The issue state at each turn that it took.
    pub ghost issue_states: { List IssueState },
    // What it put into the issue state at each turn that it gave back.
    pub ghost laid: { List IssueState },
    // The lines whose claims it gave up, and those that it closed.
    pub ghost gave_up: { List ℕ },
    pub ghost closed: { List ℕ },
    // The times of those that it closed.
    pub ghost times: { List (ℕ × ℕ) },
    // The lines of which it let the reservation go, where they had done nothing.
    pub ghost let_go: { List ℕ },
    // The line whose work it has, and how far that has come.
    pub ghost claim: { Option Claim },
    // The line that it is issuing.
    pub ghost issuing: { Option ℕ },
    // The issue turn, with the handles of the lines.
    pub ghost issue_turn: { Option (List Handle) },
}

impl Model for View {
    ghost also_owns = { λ _. ftrue };
}
