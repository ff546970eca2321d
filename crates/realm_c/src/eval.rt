//! The evaluation of a graph.

ghost use Rattle.std.specs.Prelude.{◌≡◌, ◌≢◌, ◌<◌, ◌≤◌, ◌⊎◌, length, IfSome};
ghost use Rattle.graph_terms.specs.Graph.{GraphValue};
ghost use Rattle.graph_meaning.specs.Rules.{Accepted};
ghost use Rattle.graph_words.specs.Limits.{text_limit};
ghost use Rattle.graph_words.specs.Text.{GraphText};
ghost use Rattle.graph_answers.specs.Answer.{EndsByPaths};
ghost use Rattle.run_report.specs.Report.{evaluation_report};
ghost use Rattle.c_answers.specs.Buffers.{Holds, IsCut};
ghost use Rattle.c_answers.specs.Refusals.{status_of, IsCheckRefusal};
ghost use Rattle.c_answers.specs.declared.reading.Refusal.{Refusal as TheRefusal};

use c_answers::buffer::hand_out;
use c_answers::reading::read_checked;
use c_answers::texts::report_text;
use c_numbers::status::{NO_MEMORY, TOO_LONG};
use graph_meaning::laws::{cancelled_where_unbroken, waits_where_reached};
use graph_words::limits::text_limit;
use plain_eval::evaluation::eval;
use race_check::checked::Checked;
use std::alloc::Global;

/// Reads a graph from its text, evaluates it on one thread, and puts the report of that into `out` with its length beside
/// it: 0; 6 exactly where `out` is too short for it, and it is cut; else 3, 4, 7 or 9, and nothing is put.
#[unsafe(no_mangle)]
pub extern "C" fn realm_eval(alloc: Global, text: &[u8], out: &mut [u8], written: &mut u64) -> u32
    ensures done { result ≡ 0 → (g : GraphValue) × GraphText text.now g × Accepted g × Holds (evaluation_report g) out.old out.new written.new }
    ensures cut { result ≡ 6 → (g : GraphValue) × GraphText text.now g × Accepted g × IsCut (evaluation_report g) out.old out.new written.new }
    ensures too_long { result ≡ 9 → text_limit text.now < length text.now }
    ensures short { result ≢ 9 → length text.now ≤ text_limit text.now }
    ensures refused { result ≢ 0 → result ≢ 6 → result ≢ 9 → (r : TheRefusal) × IsCheckRefusal text.now r × (result ≡ status_of r) }
    ensures untouched { result ≢ 0 → result ≢ 6 → (out.new ≡ out.old) × (written.new ≡ 0) }
    ensures complete { (g : GraphValue) → length text.now ≤ text_limit text.now → GraphText text.now g → Accepted g → (result ≡ 0) ⊎ ((result ≡ 6) ⊎ (result ≡ 7)) }

    // A line waits exactly where one that never comes reaches it, and a line is cancelled exactly where an unbroken path
    // from a fault reaches it.
    ensures paths { (g : GraphValue) → GraphText text.now g → Accepted g → EndsByPaths g }
{
    ends_by_paths(text);
    *written = 0;
    if text.len() as u64 > text_limit(text) {
        return TOO_LONG;
    }
    let checked = match read_checked(alloc, text) {
        Ok(checked) => checked,
        Err(refusal) => return refusal.status(),
    };
    match report_of(alloc, &checked) {
        Some(report) => hand_out(report.as_slice(), out, written),
        None => NO_MEMORY,
    }
}

/// How the lines of an accepted graph end, by paths.
fn ends_by_paths(text: &[u8])
    ensures { (g : GraphValue) → GraphText text.now g → Accepted g → EndsByPaths g }
{
    waits_where_reached();
    cancelled_where_unbroken();
}

/// The report of the evaluation. None comes where memory ran out.
fn report_of(alloc: Global, checked: &Checked) -> Option<Vec<u8>>
    ensures { IfSome result (λ report. report.items ≡ evaluation_report checked.now.graph) }
{
    let Ok(outcome) = eval(alloc, checked) else {
        return None;
    };
    report_text(alloc, checked.graph(), &outcome)
}
