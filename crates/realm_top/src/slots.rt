//! How many slots a run may have.

ghost use Rattle.std.specs.Prelude.{◌≡◌, ◌≤◌, IfSome};
ghost use Rattle.graph_answers.specs.Answer.{most_slots};

use command_line::request::MAX_SLOTS;

/// The most slots of a run, or of all graphs of a session: those that are given, or as many as there may be.
pub(crate) fn most_slots(given: Option<u32>) -> u32
    requires { IfSome given (λ n. (1 ≤ n) × (n ≤ MAX_SLOTS)) }
    ensures slots { result ≡ most_slots given }
    ensures within { (1 ≤ result) × (result ≤ MAX_SLOTS) }
{
    match given {
        Some(slots) => slots,
        None => MAX_SLOTS,
    }
}
