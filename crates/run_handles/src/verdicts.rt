//! Work is performed with what its host says of the body of a call.

ghost use Rattle.std.specs.Prelude.{◌≡◌, ◌≢◌, Some};
ghost use Rattle.graph_meaning.specs.Evaluation.{end_by};
ghost use Rattle.run_handles.specs.Calls.{has_body};
ghost use Rattle.run_handles.specs.Runs.{FinishedBy, HoldsFinished, IfTaken, IsOfHost, end_said, finish_misuse, verdict_misuse};

use crate::calls::has_body;
use crate::inside::taken_misuse;
use crate::token::{Taken, Token};
use c_numbers::status::{DONE, RANGE, WRONG};
use graph_terms::outcome::Verdict;
use run_core::Finished;

/// The verdict of a body that did what it was to do.
const FINE: u32 = 0;

/// The verdict of a body that faulted.
const FAULT: u32 = 1;

/// Performs work with what its host says of the body: 0 that it is fine, 1 that it faulted.
pub fn finish_work_in(token: &mut Token, verdict: u32) -> u32
    requires { IfTaken (Some token.old) IsOfHost }
    ensures misuse { finish_misuse (Some token.old) verdict ≢ 0 → (result ≡ finish_misuse (Some token.old) verdict) × (token.new ≡ token.old) }
    ensures finished { IfTaken (Some token.old) (λ t. finish_misuse (Some token.old) verdict ≡ 0 → (result ≡ 0) × HoldsFinished (Some token.new) (FinishedBy t verdict)) }
{
    match std::mem::replace(token, Token::Empty) {
        Token::Taken(taken) => {
            let (kept, status) = finish_work(taken, verdict);
            *token = kept;
            status
        }
        other => {
            *token = other;
            taken_misuse(token)
        }
    }
}

/// Performs work with this verdict, unless it can't be said of it.
fn finish_work(taken: Taken, verdict: u32) -> (Token, u32)
    requires { IsOfHost taken }
    ensures misuse { verdict_misuse (has_body taken) verdict ≢ 0 → (result.1 ≡ verdict_misuse (has_body taken) verdict) × (result.0 ≡ Token.Taken taken) }
    ensures finished { verdict_misuse (has_body taken) verdict ≡ 0 → (result.1 ≡ 0) × HoldsFinished (Some result.0) (FinishedBy taken verdict) }
{
    let status = verdict_misuse(has_body(&taken), verdict);
    if status != DONE {
        return (Token::Taken(taken), status);
    }
    (Token::Finished(performed_with(taken, verdict)), DONE)
}

/// What is answered to a verdict on a line that has a body to be run, or has none.
fn verdict_misuse(body: bool, verdict: u32) -> u32
    ensures { result ≡ verdict_misuse body verdict }
{
    if verdict == FINE {
        return DONE;
    }
    if verdict != FAULT {
        return RANGE;
    }
    if body { DONE } else { WRONG }
}

/// Performs a line that was taken, with this verdict on its body.
fn performed_with(taken: Taken, verdict: u32) -> Finished
    requires { IsOfHost taken }
    ensures { FinishedBy taken verdict result }
{
    let Taken { work, graph } = taken;
    work.perform_with(graph.graph(), said(verdict))
}

fn said(verdict: u32) -> Verdict
    ensures { end_by result ≡ end_said verdict }
{
    if verdict == FINE {
        Verdict::Fine
    } else {
        Verdict::Fault
    }
}
