//! What is done to what handles of runs and of work hold. A value of another kind than a call asks for stays, and the
//! number that says so is answered.

ghost use Rattle.std.specs.Prelude.{◌≡◌, ◌≢◌, ℕ, ◌<◌, ◌≤◌, ◌⊎◌, true, None, Some, IfOk, IfErr, IfSome, length};
ghost use Rattle.std.specs.Arc.{arc_value};
ghost use Rattle.graph_terms.specs.Graph.{GraphValue};
ghost use Rattle.graph_terms.specs.declared.outcome.End.TheVariants.{Done};
ghost use Rattle.run_core.specs.Core.{CoreValue, IsCore};
ghost use Rattle.run_core.specs.Finishing.{NothingOut};
ghost use Rattle.run_core.specs.Works.{IsFinished, IsWork};
ghost use Rattle.run_handles.specs.Calls.{has_body};
ghost use Rattle.run_handles.specs.Ends.{IsCall, LeavesCall, end_in};
ghost use Rattle.run_handles.specs.Runs.{HoldsFinished, HoldsOver, HoldsRun, HoldsTaken, IfFinished, IfRun, IfTaken, IsOfRun, IsRunOf, IsTaken, IssuedBy, MayReport, PutBackBy, TakenBy, WokenBy, attempt_number, ends_in, finished_misuse, graph_over, held_of, issue_number, issued_line, lines_of, other_of, report_misuse, run_misuse, taken_misuse};

use crate::held::{Held, room};
use crate::run::{Lines, Run};
use crate::token::{Taken, Token};
use c_numbers::status::{
    BUSY_COLUMN, BUSY_LOCK, CALLS_LEFT, DONE, EMPTY, FULL, NEVER, NO_MEMORY, NONE, NOT_YET, OVER,
    PERFORMED, RANGE, REPORTED, UNPERFORMED, WORK_OUT, WRONG,
};
use race_check::checked::Checked;
use run_core::{Attempt, Finished, Issue, Thing};
use std::alloc::Global;
use std::sync::Arc;

/// What is answered to a value that is no run which goes on.
pub fn run_misuse(token: &Token) -> u32
    ensures { result ≡ run_misuse (Some token.now) }
{
    match token {
        Token::Run(_) => DONE,
        Token::Over(_) => REPORTED,
        _ => WRONG,
    }
}

/// What is answered to a value that is no work to be performed.
pub fn taken_misuse(token: &Token) -> u32
    ensures { result ≡ taken_misuse (Some token.now) }
{
    match token {
        Token::Taken(_) => DONE,
        Token::Finished(_) => PERFORMED,
        _ => WRONG,
    }
}

/// What is answered to a value that is no work to be put back.
fn finished_misuse(token: &Token) -> u32
    ensures { result ≡ finished_misuse (Some token.now) }
{
    match token {
        Token::Finished(_) => DONE,
        Token::Taken(_) => UNPERFORMED,
        _ => WRONG,
    }
}

/// Issues the next line of a run.
pub fn issue_in(token: &mut Token, line: &mut u32) -> u32
    ensures misuse { run_misuse (Some token.old) ≢ 0 → (result ≡ run_misuse (Some token.old)) × (token.new ≡ token.old) × (line.new ≡ line.old) }
    ensures issued { IfRun (Some token.old) (λ c. HoldsRun (Some token.new) (λ d. IssuedBy c d result line.old line.new)) }
{
    match std::mem::replace(token, Token::Empty) {
        Token::Run(run) => {
            let (run, answer) = run.issue();
            *token = Token::Run(run);
            issued(answer, line)
        }
        other => {
            *token = other;
            run_misuse(token)
        }
    }
}

/// The number of what issuing answers. The line is told that was issued.
fn issued(answer: Issue, line: &mut u32) -> u32
    ensures number { result ≡ issue_number answer }
    ensures line { line.new ≡ issued_line answer line.old }
{
    match answer {
        Issue::Issued(next) => {
            *line = next;
            DONE
        }
        Issue::All => NONE,
        Issue::NoSlot => FULL,
        Issue::Other => WRONG,
    }
}

/// What an attempt answers: its number, what is told beside it, and the work.
fn told(answer: Attempt, graph: Arc<Checked, Global>, room: &mut Token, other: &mut u32) -> u32
    requires room { room.old ≡ Token.Empty }
    ensures number { result ≡ attempt_number answer }
    ensures other { other.new ≡ other_of answer other.old }
    ensures work { IsTaken answer (arc_value graph).graph (held_of room.new) }
{
    match answer {
        Attempt::Taken(work) => {
            *room = Token::Taken(Taken { work, graph });
            DONE
        }
        Attempt::NotYet(source) => {
            *other = source;
            NOT_YET
        }
        Attempt::Busy(Thing::Lock(lock)) => {
            *other = lock;
            BUSY_LOCK
        }
        Attempt::Busy(Thing::Column(column)) => {
            *other = column;
            BUSY_COLUMN
        }
        Attempt::Over(_) => OVER,
        Attempt::Never => NEVER,
    }
}

/// Tries to take a line of a run; the empty handle holds its work then.
pub fn take_in(alloc: Global, token: &mut Token, line: u32, work: &mut Held, other: &mut u32) -> u32
    requires empty { work.old.value ≡ None }
    ensures misuse { run_misuse (Some token.old) ≢ 0 → (result ≡ run_misuse (Some token.old)) × (token.new ≡ token.old) × (work.new.value ≡ None) × (other.new ≡ other.old) }
    ensures range { IfRun (Some token.old) (λ c. length c.graph.lines ≤ line → (result ≡ RANGE) × (token.new ≡ token.old) × (work.new.value ≡ None) × (other.new ≡ other.old)) }
    ensures taken { result ≢ 7 → IfRun (Some token.old) (λ c. line < length c.graph.lines → HoldsRun (Some token.new) (λ d. TakenBy c d line result other.old other.new work.new.value)) }
    ensures no_memory { result ≡ 7 → (token.new ≡ token.old) × (work.new.value ≡ None) × (other.new ≡ other.old) }
{
    match std::mem::replace(token, Token::Empty) {
        Token::Run(run) => {
            let (run, status) = attempt(alloc, run, line, work, other);
            *token = Token::Run(run);
            status
        }
        other_kind => {
            *token = other_kind;
            run_misuse(token)
        }
    }
}

/// Tries to take a line of a run.
fn attempt(alloc: Global, run: Run, line: u32, work: &mut Held, other: &mut u32) -> (Run, u32)
    requires empty { work.old.value ≡ None }
    ensures range { length run.graph.lines ≤ line → (result.1 ≡ RANGE) × (result.0 ≡ run) × (work.new.value ≡ None) × (other.new ≡ other.old) }
    ensures taken { result.1 ≢ 7 → line < length run.graph.lines → TakenBy run result.0 line result.1 other.old other.new work.new.value }
    ensures no_memory { result.1 ≡ 7 → (result.0 ≡ run) × (work.new.value ≡ None) × (other.new ≡ other.old) }
{
    if line >= run.lines() {
        return (run, RANGE);
    }
    match room_for_work(alloc, &run) {
        Some((graph, mut made)) => {
            let (run, answer) = run.attempt(line);
            let status = told(answer, graph, &mut made, other);
            work.fill(made);
            (run, status)
        }
        None => (run, NO_MEMORY),
    }
}

/// What the work of a line needs. None comes where memory ran out.
fn room_for_work(alloc: Global, run: &Run) -> Option<(Arc<Checked, Global>, Box<Token, Global>)>
    ensures { IfSome result (λ p. ((arc_value p.0).graph ≡ run.now.graph) × (p.1.value ≡ Token.Empty)) }
{
    let Some(graph) = run.graph() else {
        return None;
    };
    match room(alloc) {
        Some(made) => Some((graph, made)),
        None => None,
    }
}

/// Performs work.
pub fn perform_in(token: &mut Token) -> u32
    requires { IfTaken (Some token.old) IsOfRun }
    ensures misuse { taken_misuse (Some token.old) ≢ 0 → (result ≡ taken_misuse (Some token.old)) × (token.new ≡ token.old) }
    ensures performed { IfTaken (Some token.old) (λ t. (result ≡ 0) × HoldsFinished (Some token.new) (λ f. (f.line ≡ t.work.line)
        × (has_body t ≡ true → f.ends ≡ Done) × ((c : CoreValue) → IsCore c → c.graph ≡ (arc_value t.graph).graph → IsWork c t.work → IsFinished c f))) }
{
    match std::mem::replace(token, Token::Empty) {
        Token::Taken(taken) => {
            *token = Token::Finished(performed(taken));
            DONE
        }
        other => {
            *token = other;
            taken_misuse(token)
        }
    }
}

/// Performs a line that was taken.
fn performed(taken: Taken) -> Finished
    requires { IsOfRun taken }
    ensures line { result.line ≡ taken.work.line }
    ensures said { has_body taken ≡ true → result.ends ≡ Done }
    ensures finished { (c : CoreValue) → IsCore c → c.graph ≡ (arc_value taken.graph).graph → IsWork c taken.work → IsFinished c result }
{
    let Taken { work, graph } = taken;
    work.perform(graph.graph())
}

/// Puts the work of a line back into its run.
pub fn put_back_in(alloc: Global, token: &mut Token, work: &mut Held) -> u32
    requires { IfRun (Some token.old) (λ c. IfFinished work.old.value (IsFinished c)) }
    ensures run_misuse { run_misuse (Some token.old) ≢ 0 → (result ≡ run_misuse (Some token.old)) × (token.new ≡ token.old) × (work.new.value ≡ work.old.value) }
    ensures work_misuse { run_misuse (Some token.old) ≡ 0 → finished_misuse work.old.value ≢ 0
        → (result ≡ finished_misuse work.old.value) × (token.new ≡ token.old) × (work.new.value ≡ work.old.value) }
    ensures put { IfRun (Some token.old) (λ c. IfFinished work.old.value (λ f. (result ≡ 0) × (work.new.value ≡ None)
        × HoldsRun (Some token.new) (λ d. PutBackBy c d f))) }
{
    match std::mem::replace(token, Token::Empty) {
        Token::Run(run) => {
            let (run, status) = put_back(alloc, run, work);
            *token = Token::Run(run);
            status
        }
        other => {
            *token = other;
            run_misuse(token)
        }
    }
}

/// Puts a line back into a run.
fn put_back(alloc: Global, run: Run, work: &mut Held) -> (Run, u32)
    requires { IfFinished work.old.value (IsFinished run) }
    ensures misuse { finished_misuse work.old.value ≢ 0 → (result.1 ≡ finished_misuse work.old.value) × (result.0 ≡ run) × (work.new.value ≡ work.old.value) }
    ensures put { IfFinished work.old.value (λ f. (result.1 ≡ 0) × (work.new.value ≡ None) × PutBackBy run result.0 f) }
{
    match finished_in(alloc, work) {
        Ok(finished) => (run.put_back(finished), DONE),
        Err(status) => (run, status),
    }
}

/// The line that was performed, out of its handle.
fn finished_in(alloc: Global, work: &mut Held) -> Result<Finished, u32>
    ensures finished { IfOk result (λ f. (work.old.value ≡ Some (Token.Finished f)) × (work.new.value ≡ None)) }
    ensures misuse { IfErr result (λ status. (finished_misuse work.old.value ≢ 0) × (status ≡ finished_misuse work.old.value) × (work.new.value ≡ work.old.value)) }
{
    let Some(mut token) = work.take(alloc) else {
        return Err(EMPTY);
    };
    match std::mem::replace(&mut *token, Token::Empty) {
        Token::Finished(finished) => Ok(finished),
        other => {
            *token = other;
            let status = finished_misuse(&token);
            work.put(token);
            Err(status)
        }
    }
}

/// Gives a line that waited for one that has ended.
pub fn woken_in(token: &mut Token, line: &mut u32) -> u32
    ensures misuse { run_misuse (Some token.old) ≢ 0 → (result ≡ run_misuse (Some token.old)) × (token.new ≡ token.old) × (line.new ≡ line.old) }
    ensures woken { IfRun (Some token.old) (λ c. HoldsRun (Some token.new) (λ d. WokenBy c d result line.old line.new)) }
{
    match std::mem::replace(token, Token::Empty) {
        Token::Run(run) => {
            let (run, woken) = run.next_woken();
            *token = Token::Run(run);
            match woken {
                Some(next) => {
                    *line = next;
                    DONE
                }
                None => NONE,
            }
        }
        other => {
            *token = other;
            run_misuse(token)
        }
    }
}

/// Tells how far the lines of a run have come.
pub fn count_in(token: &mut Token, lines: &mut Lines) -> u32
    ensures same { token.new ≡ token.old }
    ensures misuse { run_misuse (Some token.old) ≢ 0 → (result ≡ run_misuse (Some token.old)) × (lines.new ≡ lines.old) }
    ensures counted { IfRun (Some token.old) (λ c. (result ≡ 0) × (lines.new ≡ lines_of c)) }
{
    match std::mem::replace(token, Token::Empty) {
        Token::Run(run) => {
            let (run, counted) = run.count();
            *token = Token::Run(run);
            *lines = counted;
            DONE
        }
        other => {
            *token = other;
            run_misuse(token)
        }
    }
}

/// The same of a run that goes on.
fn end_of(alloc: Global, run: Run) -> (Token, u32)
    ensures over { result.1 ≡ 0 → HoldsOver (Some result.0) (λ o. graph_over o ≡ run.graph) }
    ensures kept { result.1 ≢ 0 → result.0 ≡ Token.Run run }
    ensures out { result.1 ≡ WORK_OUT → 0 < (lines_of run).out }
    ensures nothing_out { NothingOut run → result.1 ≢ WORK_OUT }
    ensures left { result.1 ≡ CALLS_LEFT → LeavesCall run }
    ensures answers { (result.1 ≡ 0) ⊎ ((result.1 ≡ 7) ⊎ ((result.1 ≡ WORK_OUT) ⊎ (result.1 ≡ CALLS_LEFT))) }
    ensures ends { (i : ℕ) → IsCall run.graph i → ends_in (Some result.0) i ≡ end_in run i }
{
    let (run, status) = run.may_end(alloc);
    if status != DONE {
        return (Token::Run(run), status);
    }
    (Token::Over(run.end()), DONE)
}

/// Brings a run to its end, unless work is out or a call is left.
pub fn finish_in(alloc: Global, token: &mut Token) -> u32
    ensures misuse { report_misuse (Some token.old) ≢ 0 → (result ≡ report_misuse (Some token.old)) × (token.new ≡ token.old) }
    ensures over { (g : GraphValue) → IsRunOf (Some token.old) g → result ≡ 0 → HoldsOver (Some token.new) (λ o. graph_over o ≡ g) }
    ensures out { result ≡ WORK_OUT → HoldsRun (Some token.old) (λ c. 0 < (lines_of c).out) × (token.new ≡ token.old) }
    ensures nothing_out { (g : GraphValue) → MayReport (Some token.old) g → result ≢ WORK_OUT }
    ensures left { result ≡ CALLS_LEFT → HoldsRun (Some token.old) LeavesCall × (token.new ≡ token.old) }
    ensures answers { (g : GraphValue) → IsRunOf (Some token.old) g → (result ≡ 0) ⊎ ((result ≡ 7) ⊎ ((result ≡ WORK_OUT) ⊎ (result ≡ CALLS_LEFT))) }
    ensures ends { (g : GraphValue) (i : ℕ) → IsRunOf (Some token.old) g → IsCall g i → ends_in (Some token.new) i ≡ ends_in (Some token.old) i }
    ensures again { (g : GraphValue) → MayReport (Some token.old) g → MayReport (Some token.new) g }
    ensures not_cut { result ≢ 6 }
{
    match std::mem::replace(token, Token::Empty) {
        Token::Run(run) => {
            let (kept, status) = end_of(alloc, run);
            *token = kept;
            status
        }
        Token::Over(over) => {
            *token = Token::Over(over);
            DONE
        }
        Token::Taken(taken) => {
            *token = Token::Taken(taken);
            WRONG
        }
        Token::Finished(finished) => {
            *token = Token::Finished(finished);
            WRONG
        }
        Token::Empty => WRONG,
    }
}
