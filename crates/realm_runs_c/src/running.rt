//! Runs whose lines the threads of a caller perform: one call at a time works on a run, and each line is performed
//! beside the others. Each call answers what a handle is that it can't be given, and changes nothing then.

ghost use Rattle.std.specs.Prelude.{◌≡◌, ◌≢◌, ◌<◌, ◌≤◌, true, None, length};
ghost use Rattle.std.specs.Arc.{arc_value};
ghost use Rattle.graph_terms.specs.declared.outcome.End.TheVariants.{Done};
ghost use Rattle.run_core.specs.Core.{CoreValue, IsCore};
ghost use Rattle.run_core.specs.Works.{IsFinished, IsWork};
ghost use Rattle.run_handles.specs.Calls.{has_body};
ghost use Rattle.run_handles.specs.Runs.{FinishedBy, HoldsAny, HoldsFinished, HoldsRun, IfFinished, IfRun, IfTaken, IsOfHost, IsOfRun, IssuedBy, PutBackBy, TakenBy, WokenBy, finish_misuse, finished_misuse, lines_of, no_lines, run_misuse, taken_misuse};

use c_numbers::status::{EMPTY, FILLED, RANGE};
use run_handles::held::Held;
use run_handles::inside::{count_in, issue_in, perform_in, put_back_in, take_in, woken_in};
use run_handles::run::Lines;
use run_handles::verdicts::finish_work_in;
use std::alloc::Global;

/// Issues the next line of the text: 0 with its number; 4 where all are issued; 5 where no slot is free.
#[unsafe(no_mangle)]
pub extern "C" fn realm_run_issue(alloc: Global, run: &mut Held, line: &mut u32) -> u32
    ensures misuse { run_misuse run.old.value ≢ 0 → (result ≡ run_misuse run.old.value) × (run.new.value ≡ run.old.value) × (line.new ≡ line.old) }
    ensures issued { IfRun run.old.value (λ c. HoldsRun run.new.value (λ d. IssuedBy c d result line.old line.new)) }
{
    let Some(mut token) = run.take(alloc) else {
        return EMPTY;
    };
    let status = issue_in(&mut token, line);
    run.put(token);
    status
}

/// Tries to take a line: 0, and the handle of work holds it; 1 where it waits for another line, which is told; 2 and 3
/// where its reservation or a column of it, which is told, is with other lines; 9 where it is not issued, is out or has
/// ended; 10 where it never comes; 15 where there is no such line; 21 where the handle of work is not empty; 7.
#[unsafe(no_mangle)]
pub extern "C" fn realm_run_take(
    alloc: Global,
    run: &mut Held,
    line: u32,
    work: &mut Held,
    other: &mut u32,
) -> u32
    ensures filled { HoldsAny work.old.value → (result ≡ FILLED) × (run.new.value ≡ run.old.value) × (work.new.value ≡ work.old.value) × (other.new ≡ other.old) }
    ensures misuse { work.old.value ≡ None → run_misuse run.old.value ≢ 0
        → (result ≡ run_misuse run.old.value) × (run.new.value ≡ run.old.value) × (work.new.value ≡ None) × (other.new ≡ other.old) }
    ensures range { work.old.value ≡ None → IfRun run.old.value (λ c. length c.graph.lines ≤ line
        → (result ≡ RANGE) × (run.new.value ≡ run.old.value) × (work.new.value ≡ None) × (other.new ≡ other.old)) }
    ensures taken { work.old.value ≡ None → result ≢ 7 → IfRun run.old.value (λ c. line < length c.graph.lines
        → HoldsRun run.new.value (λ d. TakenBy c d line result other.old other.new work.new.value)) }
    ensures no_memory { result ≡ 7 → (run.new.value ≡ run.old.value) × (work.new.value ≡ None) × (other.new ≡ other.old) }
{
    if !work.is_empty(alloc) {
        return FILLED;
    }
    let Some(mut token) = run.take(alloc) else {
        return EMPTY;
    };
    let status = take_in(alloc, &mut token, line, work, other);
    run.put(token);
    status
}

/// Performs a line that was taken. It takes no run, so that lines are performed side by side. A call whose body was to be run
/// is done. 0 always for such work; 20 where it was performed.
#[unsafe(no_mangle)]
pub extern "C" fn realm_work_perform(alloc: Global, work: &mut Held) -> u32
    requires work { IfTaken work.old.value IsOfRun }
    ensures misuse { taken_misuse work.old.value ≢ 0 → (result ≡ taken_misuse work.old.value) × (work.new.value ≡ work.old.value) }
    ensures performed { IfTaken work.old.value (λ t. (result ≡ 0) × HoldsFinished work.new.value (λ f. (f.line ≡ t.work.line)
        × (has_body t ≡ true → f.ends ≡ Done) × ((c : CoreValue) → IsCore c → c.graph ≡ (arc_value t.graph).graph → IsWork c t.work → IsFinished c f))) }
{
    let Some(mut token) = work.take(alloc) else {
        return EMPTY;
    };
    let status = perform_in(&mut token);
    work.put(token);
    status
}

/// Performs a line that was taken, as `realm_work_perform`, with what its host says of the body: 0 that it is fine, 1 that it
/// faulted. 0 always for such work; 11 also where a fault is said and no body is run, since the line is no call or is
/// cancelled; 15 where another number is said; 20 where it was performed.
#[unsafe(no_mangle)]
pub extern "C" fn realm_work_finish(alloc: Global, work: &mut Held, verdict: u32) -> u32
    requires work { IfTaken work.old.value IsOfHost }
    ensures misuse { finish_misuse work.old.value verdict ≢ 0 → (result ≡ finish_misuse work.old.value verdict) × (work.new.value ≡ work.old.value) }
    ensures finished { IfTaken work.old.value (λ t. finish_misuse work.old.value verdict ≡ 0 → (result ≡ 0) × HoldsFinished work.new.value (FinishedBy t verdict)) }
{
    let Some(mut token) = work.take(alloc) else {
        return EMPTY;
    };
    let status = finish_work_in(&mut token, verdict);
    work.put(token);
    status
}

/// Puts a line back that was performed, into the run of which it was taken. 0 always for such work; 16 where it was not
/// performed.
#[unsafe(no_mangle)]
pub extern "C" fn realm_run_put_back(alloc: Global, run: &mut Held, work: &mut Held) -> u32
    requires { IfRun run.old.value (λ c. IfFinished work.old.value (IsFinished c)) }
    ensures run_misuse { run_misuse run.old.value ≢ 0 → (result ≡ run_misuse run.old.value) × (run.new.value ≡ run.old.value) × (work.new.value ≡ work.old.value) }
    ensures work_misuse { run_misuse run.old.value ≡ 0 → finished_misuse work.old.value ≢ 0
        → (result ≡ finished_misuse work.old.value) × (run.new.value ≡ run.old.value) × (work.new.value ≡ work.old.value) }
    ensures put { IfRun run.old.value (λ c. IfFinished work.old.value (λ f. (result ≡ 0) × (work.new.value ≡ None)
        × HoldsRun run.new.value (λ d. PutBackBy c d f))) }
{
    let Some(mut token) = run.take(alloc) else {
        return EMPTY;
    };
    let status = put_back_in(alloc, &mut token, work);
    run.put(token);
    status
}

/// Gives a line that waited for one that has ended, each once: 0 with its number; 4 where there is none.
#[unsafe(no_mangle)]
pub extern "C" fn realm_run_woken(alloc: Global, run: &mut Held, line: &mut u32) -> u32
    ensures misuse { run_misuse run.old.value ≢ 0 → (result ≡ run_misuse run.old.value) × (run.new.value ≡ run.old.value) × (line.new ≡ line.old) }
    ensures woken { IfRun run.old.value (λ c. HoldsRun run.new.value (λ d. WokenBy c d result line.old line.new)) }
{
    let Some(mut token) = run.take(alloc) else {
        return EMPTY;
    };
    let status = woken_in(&mut token, line);
    run.put(token);
    status
}

/// Tells how many lines are not issued, are issued and not taken, are out, have ended, and how many come and have not
/// ended.
#[unsafe(no_mangle)]
pub extern "C" fn realm_run_state(alloc: Global, run: &mut Held, lines: &mut Lines) -> u32
    ensures same { run.new.value ≡ run.old.value }
    ensures misuse { run_misuse run.old.value ≢ 0 → (result ≡ run_misuse run.old.value) × (lines.new ≡ no_lines) }
    ensures counted { IfRun run.old.value (λ c. (result ≡ 0) × (lines.new ≡ lines_of c)) }
{
    *lines = Lines::none();
    let Some(mut token) = run.take(alloc) else {
        return EMPTY;
    };
    let status = count_in(&mut token, lines);
    run.put(token);
    status
}

/// Frees what a handle of a run holds, if anything.
#[unsafe(no_mangle)]
pub extern "C" fn realm_run_free(alloc: Global, run: &mut Held)
    ensures { run.new.value ≡ None }
{
    drop(run.take(alloc));
}

/// Frees what a handle of work holds, if anything. A line whose work is freed never ends, and its run has work out for
/// good.
#[unsafe(no_mangle)]
pub extern "C" fn realm_work_free(alloc: Global, work: &mut Held)
    ensures { work.new.value ≡ None }
{
    drop(work.take(alloc));
}
