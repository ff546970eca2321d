//! Whether a trace is lawful.

ghost use Rattle.std.specs.Prelude.{◌≡◌, ◌≢◌, ℕ, ◌+◌, ◌<◌, ◌≤◌, ◌^◌, ◌⊎◌, List, length};
ghost use Rattle.graph_terms.specs.Graph.{GraphValue};
ghost use Rattle.graph_meaning.specs.Rules.{Accepted};
ghost use Rattle.graph_meaning.specs.Trace.{IsLawful};
ghost use Rattle.graph_words.specs.Text.{GraphText};
ghost use Rattle.realm_audit.specs.Parts.{newlines, graph_bytes, trace_bytes};
ghost use Rattle.realm_audit.specs.Reading.{AreLines};
ghost use Rattle.graph_answers.specs.AuditAnswer.{audit_limit, HasTrace};
ghost use Rattle.realm_c.specs.Audits.{audit_status, audit_verdict, AuditSays, TraceFound, TraceSays};
ghost use Rattle.c_answers.specs.Numbers.{nothing};
ghost use Rattle.realm_c.specs.declared.audit.Audited.{Audited as TheAudited};

use c_answers::reading::{Refusal, read_checked};
use c_answers::verdict::Verdict;
use c_numbers::status::{DONE, TOO_LONG, UNLAWFUL, UNREAD};
use graph_answers::auditing::audit_limit;
use graph_reader::laws::bytes_have_one_reading;
use graph_terms::lists::LineList;
use plain_eval::evaluation::eval;
use race_check::checked::Checked;
use realm_audit::reading::text_tells_traces_apart;
use realm_audit::{AuditRefusal, TraceRefusal, audit, newlines, parts, read_trace};
use std::alloc::Global;

/// What was found of the text of a graph with that of a trace behind it.
#[derive(Clone, Copy, Debug, PartialEq, Eq)]
pub(crate) enum Audited {
    Lawful,
    /// The graph is refused, or memory ran out.
    Refused(Refusal),
    /// This line is the first with which no text of a trace begins.
    NoTrace(u64),
    Unlawful(AuditRefusal),
}

/// Reads a graph from its text and a trace from the text behind it, and says whether the graph is accepted and the trace
/// lawful: 0 where they are; 3, 4, 7, 9 or 10, with why. Each other answer than 7 and 9 says what it stands for.
#[unsafe(no_mangle)]
pub extern "C" fn realm_audit(alloc: Global, text: &[u8], out: &mut Verdict) -> u32
    ensures too_long { result ≡ 9 → audit_limit text.now < length text.now }
    ensures short { result ≢ 9 → length text.now ≤ audit_limit text.now }
    ensures untold { result ≡ 9 → out.new ≡ nothing }
    ensures audited { result ≢ 9 → (a : TheAudited) × AuditSays text.now a × (result ≡ audit_status a) × (out.new ≡ audit_verdict a) }
    ensures complete { (g : GraphValue) (trace : List ℕ) → length text.now ≤ audit_limit text.now → GraphText (graph_bytes text.now) g → Accepted g
        → HasTrace g (trace_bytes text.now) trace → IsLawful g trace → (result ≡ 0) ⊎ (result ≡ 7) }
{
    bytes_have_one_reading();
    text_tells_traces_apart();
    if text.len() as u64 > audit_limit(text) {
        *out = Verdict::nothing();
        return TOO_LONG;
    }
    let found = audit_text(alloc, text);
    *out = found.verdict();
    found.status()
}

impl Audited {
    fn status(self) -> u32
        ensures number { result ≡ audit_status self }
        ensures no_length { result ≢ 9 }
    {
        match self {
            Audited::Lawful => DONE,
            Audited::Refused(refusal) => refusal.status(),
            Audited::NoTrace(_) => UNREAD,
            Audited::Unlawful(_) => UNLAWFUL,
        }
    }

    fn verdict(self) -> Verdict
        ensures { result ≡ audit_verdict self }
    {
        match self {
            Audited::Lawful => Verdict::nothing(),
            Audited::Refused(refusal) => Verdict::of(refusal),
            Audited::NoTrace(number) => Verdict::no_trace(number),
            Audited::Unlawful(why) => Verdict::faulty(why),
        }
    }
}

fn audit_text(alloc: Global, text: &[u8]) -> Audited
    requires short { length text.now ≤ audit_limit text.now }
    ensures says { AuditSays text.now result }
{
    let _ = audit_limit(text);
    let (front, back) = parts(text);
    match read_checked(alloc, front) {
        Ok(checked) => audit_behind(alloc, &checked, newlines(front), back),
        Err(refusal) => Audited::Refused(refusal),
    }
}

/// Reads a trace behind an accepted graph, whose text has so many lines, and judges it.
fn audit_behind(alloc: Global, checked: &Checked, lines: u32, back: &[u8]) -> Audited
    requires short { length back.now < 2 ^ 32 }
    ensures says { TraceSays checked.now.graph lines back.now result }
{
    match read_trace(alloc, checked.graph(), back) {
        Ok(trace) => audit_trace(alloc, checked, &trace),
        Err(TraceRefusal::Line(number)) => Audited::NoTrace(number_behind(lines, number)),
        Err(TraceRefusal::NoMemory) => Audited::Refused(Refusal::NoMemory),
    }
}

/// The number of a line behind so many lines, counted with them.
fn number_behind(lines: u32, number: u32) -> u64
    ensures { result ≡ lines + number }
{
    u64::from(lines) + u64::from(number)
}

/// Evaluates a graph, and judges a trace of it.
fn audit_trace(alloc: Global, checked: &Checked, trace: &LineList) -> Audited
    requires lines { AreLines checked.now.graph trace.now }
    ensures { TraceFound checked.now.graph trace.now result }
{
    let Ok(outcome) = eval(alloc, checked) else {
        return Audited::Refused(Refusal::NoMemory);
    };
    match audit(alloc, checked.graph(), &outcome.ends, trace) {
        Ok(()) => Audited::Lawful,
        Err(AuditRefusal::NoMemory) => Audited::Refused(Refusal::NoMemory),
        Err(why) => Audited::Unlawful(why),
    }
}
