//! The memory of the program, and the bodies that work on it.

ghost use Rattle.std.specs.Prelude.{◌≡◌, slice_index};
ghost use Rattle.embedded_calls.specs.Accounts.{body_of};

use call_bodies::Bodies;
use graph_model::graph::Graph;
use graph_terms::call::Call;
use graph_terms::outcome::Verdict;
use graph_terms::verb::Verb;

/// Two accounts: the columns of data 0 and 1 of a graph, each of one point.
#[derive(Clone, Copy)]
pub(crate) struct Accounts {
    pub(crate) x: u64,
    pub(crate) y: u64,
}

/// What the body of a call does.
#[derive(Clone, Copy)]
pub(crate) enum Body {
    Halve,
    Move,
    Double,
    Nothing,
}

/// The body for the word of a call.
fn body_of(word: &[u8]) -> Body
    ensures { result ≡ body_of word.now }
{
    if word == b"halve".as_slice() {
        Body::Halve
    } else if word == b"move".as_slice() {
        Body::Move
    } else if word == b"double".as_slice() {
        Body::Double
    } else {
        Body::Nothing
    }
}

/// The first value of a call, and 0 where it has none.
fn first_value(call: &Call) -> u64
    ensures { result ≡ slice_index call.now.values 0 }
{
    match call.values().items.as_slice().get(0) {
        Some(value) => *value,
        None => 0,
    }
}

impl Bodies for Accounts {
    ghost use Rattle.embedded_calls.specs.Accounts.{cells_of, accounts_do};

    ghost memory = { λ a. cells_of a.x a.y };

    ghost does = { λ _. accounts_do };

    fn run(&mut self, graph: &Graph, line: u32) -> Verdict {
        match &graph.line(line).verb {
            Verb::Call { call } => self.perform(body_of(call.word().bytes()), first_value(call)),
            _ => Verdict::Fine,
        }
    }
}

impl Accounts {
    ghost use Rattle.std.specs.Prelude.{◌≡◌};
    ghost use Rattle.embedded_calls.specs.Accounts.{accounts_after, verdict_of};

    /// Does what a body does with this amount.
    fn perform(&mut self, body: Body, amount: u64) -> Verdict
        ensures verdict { result ≡ verdict_of body amount self.old }
        ensures accounts { self.new ≡ accounts_after body amount self.old }
    {
        match body {
            Body::Halve => self.x /= 2,
            Body::Double => self.y = self.y.wrapping_mul(2),
            Body::Move if self.x < amount => return Verdict::Fault,
            Body::Move => {
                self.x -= amount;
                self.y = self.y.wrapping_add(amount);
            }
            Body::Nothing => {}
        }
        Verdict::Fine
    }
}
