//! Reports of runs.

ghost use Rattle.std.specs.Prelude.{◌≡◌, ◌≢◌, ℕ, ◌<◌, ◌⊎◌, Bool, Some, IfOk, IfErr, IfSome};
ghost use Rattle.graph_terms.specs.Graph.{GraphValue};
ghost use Rattle.run_report.specs.Report.{evaluation_report};
ghost use Rattle.c_answers.specs.Buffers.{Holds, IsCut};
ghost use Rattle.run_handles.specs.Ends.{AgreesWith, IsCall, LeavesCall, NoneFaulted, report_with};
ghost use Rattle.run_handles.specs.Runs.{HoldsOver, HoldsRun, IsRunOf, MayReport, ends_in, graph_over, lines_of, report_misuse};

use c_answers::buffer::hand_out;
use c_answers::texts::outcome_text;
use c_numbers::status::{CALLS_LEFT, DONE, EMPTY, NO_MEMORY, WORK_OUT};
use run_handles::held::Held;
use run_handles::inside::finish_in;
use run_handles::token::Token;
use std::alloc::Global;

/// Does on the calling thread what is left of a run of which no work is out, and puts the report into `out` with its
/// length beside it: 0; 6 exactly where `out` is too short for it, and it is cut; 17 only where work is out, and 26 only where
/// a call is left of which a body would be run, and nothing is changed; 7. It may be called again.
#[unsafe(no_mangle)]
pub extern "C" fn realm_run_report(
    alloc: Global,
    run: &mut Held,
    out: &mut [u8],
    written: &mut u64,
) -> u32
    ensures misuse { report_misuse run.old.value ≢ 0 → (result ≡ report_misuse run.old.value) × (run.new.value ≡ run.old.value) }
    ensures work_out { result ≡ WORK_OUT → HoldsRun run.old.value (λ c. 0 < (lines_of c).out) × (run.new.value ≡ run.old.value) }
    ensures calls_left { result ≡ CALLS_LEFT → HoldsRun run.old.value LeavesCall × (run.new.value ≡ run.old.value) }
    ensures answers { (g : GraphValue) → MayReport run.old.value g → (result ≡ 0) ⊎ ((result ≡ 6) ⊎ ((result ≡ 7) ⊎ (result ≡ CALLS_LEFT))) }
    ensures done { (g : GraphValue) (faults : ℕ → Bool) → IsRunOf run.old.value g → AgreesWith g (ends_in run.old.value) faults → result ≡ 0
        → Holds (report_with faults g) out.old out.new written.new }
    ensures cut { (g : GraphValue) (faults : ℕ → Bool) → IsRunOf run.old.value g → AgreesWith g (ends_in run.old.value) faults → result ≡ 6
        → IsCut (report_with faults g) out.old out.new written.new }
    ensures unfaulted { (g : GraphValue) → IsRunOf run.old.value g → NoneFaulted g (ends_in run.old.value)
        → (result ≡ 0 → Holds (evaluation_report g) out.old out.new written.new) × (result ≡ 6 → IsCut (evaluation_report g) out.old out.new written.new) }
    ensures bodies { (g : GraphValue) (i : ℕ) → IsRunOf run.old.value g → IsCall g i → ends_in run.new.value i ≡ ends_in run.old.value i }
    ensures again { (g : GraphValue) → MayReport run.old.value g → MayReport run.new.value g }
    ensures untouched { result ≢ 0 → result ≢ 6 → (out.new ≡ out.old) × (written.new ≡ 0) }
{
    *written = 0;
    let Some(mut token) = run.take(alloc) else {
        return EMPTY;
    };
    let report = report_of(alloc, &mut token);
    run.put(token);
    match report {
        Ok(report) => hand_out(report.as_slice(), out, written),
        Err(status) => status,
    }
}

/// The report of a run that is over. None comes where memory ran out.
fn report_in(alloc: Global, token: &Token) -> Option<Vec<u8>>
    ensures { (g : GraphValue) (faults : ℕ → Bool) → HoldsOver (Some token.now) (λ o. graph_over o ≡ g) → AgreesWith g (ends_in (Some token.now)) faults
        → IfSome result (λ report. report.items ≡ report_with faults g) }
{
    match token {
        Token::Over(over) => {
            over.fits();
            outcome_text(alloc, over.graph.graph(), &over.found)
        }
        _ => None,
    }
}

/// Brings a run to its end, and gives its report, or the number of why not.
fn report_of(alloc: Global, token: &mut Token) -> Result<Vec<u8>, u32>
    ensures report { IfOk result (λ report. (g : GraphValue) (faults : ℕ → Bool) → IsRunOf (Some token.old) g → AgreesWith g (ends_in (Some token.old)) faults
        → report.items ≡ report_with faults g) }
    ensures kind { IfOk result (λ _. report_misuse (Some token.old) ≡ 0) }
    ensures misuse { IfErr result (λ status. report_misuse (Some token.old) ≢ 0 → (status ≡ report_misuse (Some token.old)) × (token.new ≡ token.old)) }
    ensures out { IfErr result (λ status. status ≡ WORK_OUT → HoldsRun (Some token.old) (λ c. 0 < (lines_of c).out) × (token.new ≡ token.old)) }
    ensures left { IfErr result (λ status. status ≡ CALLS_LEFT → HoldsRun (Some token.old) LeavesCall × (token.new ≡ token.old)) }
    ensures answers { IfErr result (λ status. (g : GraphValue) → MayReport (Some token.old) g → (status ≡ 7) ⊎ (status ≡ CALLS_LEFT)) }
    ensures ends { (g : GraphValue) (i : ℕ) → IsRunOf (Some token.old) g → IsCall g i → ends_in (Some token.new) i ≡ ends_in (Some token.old) i }
    ensures again { (g : GraphValue) → MayReport (Some token.old) g → MayReport (Some token.new) g }
    ensures not_done { IfErr result (λ status. (status ≢ 0) × (status ≢ 6)) }
{
    let status = finish_in(alloc, token);
    if status != DONE {
        return Err(status);
    }
    match report_in(alloc, token) {
        Some(report) => Ok(report),
        None => Err(NO_MEMORY),
    }
}
