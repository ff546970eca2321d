//! Runs are begun.

ghost use Rattle.std.specs.Prelude.{◌≡◌, ◌≢◌, ℕ, ◌<◌, ◌≤◌, ◌⊎◌, None, Some, IfSome, IfNone, length};
ghost use Rattle.graph_terms.specs.Graph.{GraphValue};
ghost use Rattle.graph_meaning.specs.Need.{IsNeed};
ghost use Rattle.graph_meaning.specs.Rules.{Accepted};
ghost use Rattle.event_table.specs.declared.limits.TheConstants.{MAX_SLOTS};
ghost use Rattle.graph_words.specs.Limits.{text_limit};
ghost use Rattle.graph_words.specs.Text.{GraphText};
ghost use Rattle.run_core.specs.Core.{slots_given, unissued_for_host};
ghost use Rattle.run_core.specs.Finishing.{NothingOut};
ghost use Rattle.c_answers.specs.Numbers.{needing, nothing, verdict_of};
ghost use Rattle.c_answers.specs.Refusals.{status_of, IsCheckRefusal};
ghost use Rattle.c_answers.specs.declared.reading.Refusal.{Refusal as TheRefusal};
ghost use Rattle.run_handles.specs.Runs.{HoldsAny, HoldsRun};
ghost use Rattle.realm_runs_c.specs.Slots.{most_slots, slots_for};

use c_answers::need::need_of;
use c_answers::reading::read_checked;
use c_answers::verdict::Verdict;
use c_numbers::status::{DONE, FILLED, NO_MEMORY, SLOTS, TOO_LONG, USAGE};
use graph_terms::limits::MAX_LINES_OF_THREE;
use graph_words::limits::text_limit;
use race_check::checked::Checked;
use run_core::MAX_SLOTS;
use run_handles::held::Held;
use run_handles::run::Run;
use run_handles::token::Token;
use std::alloc::Global;

/// The slots of a run for which no number is given, where they are enough.
pub const DEFAULT_SLOTS: u32 = 256;

/// Reads a graph from its text, checks it, and begins a run of it in which no line is issued, with this many event
/// slots; 0 stands for the greater of 256 and its need, up to 8,192. 21 exactly where the handle is not empty; 0; 2 exactly
/// where there are more than 8,192 slots; 8 exactly where they are fewer than an accepted graph needs, or 8,192 are where 0
/// are given, want of memory aside; else 3, 4, 7 or 9, as a check.
#[unsafe(no_mangle)]
pub extern "C" fn realm_run_new(
    alloc: Global,
    text: &[u8],
    slots: u32,
    run: &mut Held,
    out: &mut Verdict,
) -> u32
    ensures filled { HoldsAny run.old.value → (result ≡ FILLED) × (run.new.value ≡ run.old.value) × (out.new ≡ nothing) }
    ensures empty { result ≡ FILLED → HoldsAny run.old.value }
    ensures begun { result ≡ 0 → (g : GraphValue) × (need : ℕ) × GraphText text.now g × Accepted g × IsNeed g need
        × (need ≤ slots_for slots need) × (need ≤ most_slots slots)
        × HoldsRun run.new.value (λ c. (c ≡ unissued_for_host g (slots_for slots need)) × (slots_given c ≡ slots_for slots need) × NothingOut c) }
    ensures usage { result ≡ 2 → MAX_SLOTS < slots }
    ensures few { result ≢ 2 → result ≢ FILLED → slots ≤ MAX_SLOTS }
    ensures too_long { result ≡ 9 → text_limit text.now < length text.now }
    ensures short { result ≢ 9 → result ≢ 2 → result ≢ FILLED → length text.now ≤ text_limit text.now }
    ensures slots { result ≡ 8 → (g : GraphValue) × (need : ℕ) × GraphText text.now g × Accepted g × IsNeed g need
        × (need ≤ MAX_LINES_OF_THREE) × (most_slots slots < need) × (out.new ≡ needing need) }
    ensures refused { result ≢ 0 → result ≢ 2 → result ≢ 8 → result ≢ 9 → result ≢ FILLED
        → (r : TheRefusal) × IsCheckRefusal text.now r × (result ≡ status_of r) × (out.new ≡ verdict_of r) }
    ensures untold { (result ≡ 0) ⊎ ((result ≡ 2) ⊎ (result ≡ 9)) → out.new ≡ nothing }
    ensures none { result ≢ 0 → run.new.value ≡ run.old.value }
    ensures complete { (g : GraphValue) → length text.now ≤ text_limit text.now → GraphText text.now g → Accepted g → slots ≤ MAX_SLOTS → run.old.value ≡ None
        → (result ≡ 0) ⊎ ((result ≡ 7) ⊎ (result ≡ 8)) }
{
    *out = Verdict::nothing();
    if !run.is_empty(alloc) {
        return FILLED;
    }
    new_run(alloc, text, slots, run, out)
}

/// The same for a handle that is empty.
fn new_run(alloc: Global, text: &[u8], slots: u32, run: &mut Held, out: &mut Verdict) -> u32
    requires empty { run.old.value ≡ None }
    requires nothing { out.old ≡ nothing }
    ensures begun { result ≡ 0 → (g : GraphValue) × (need : ℕ) × GraphText text.now g × Accepted g × IsNeed g need
        × (need ≤ slots_for slots need) × (need ≤ most_slots slots)
        × HoldsRun run.new.value (λ c. (c ≡ unissued_for_host g (slots_for slots need)) × (slots_given c ≡ slots_for slots need) × NothingOut c) }
    ensures usage { result ≡ 2 → MAX_SLOTS < slots }
    ensures few { result ≢ 2 → slots ≤ MAX_SLOTS }
    ensures not_filled { result ≢ FILLED }
    ensures too_long { result ≡ 9 → text_limit text.now < length text.now }
    ensures short { result ≢ 9 → result ≢ 2 → length text.now ≤ text_limit text.now }
    ensures slots { result ≡ 8 → (g : GraphValue) × (need : ℕ) × GraphText text.now g × Accepted g × IsNeed g need
        × (need ≤ MAX_LINES_OF_THREE) × (most_slots slots < need) × (out.new ≡ needing need) }
    ensures refused { result ≢ 0 → result ≢ 2 → result ≢ 8 → result ≢ 9 → (r : TheRefusal) × IsCheckRefusal text.now r × (result ≡ status_of r) × (out.new ≡ verdict_of r) }
    ensures untold { (result ≡ 0) ⊎ ((result ≡ 2) ⊎ (result ≡ 9)) → out.new ≡ nothing }
    ensures none { result ≢ 0 → run.new.value ≡ None }
    ensures complete { (g : GraphValue) → length text.now ≤ text_limit text.now → GraphText text.now g → Accepted g → slots ≤ MAX_SLOTS
        → (result ≡ 0) ⊎ ((result ≡ 7) ⊎ (result ≡ 8)) }
{
    if slots > MAX_SLOTS {
        return USAGE;
    }
    if text.len() as u64 > text_limit(text) {
        return TOO_LONG;
    }
    match read_checked(alloc, text) {
        Ok(checked) => begin_run(alloc, checked, slots, run, out),
        Err(refusal) => {
            *out = Verdict::of(refusal);
            refusal.status()
        }
    }
}

/// How many slots a run has: those that are given, or 256 and at least the need. None comes where those that are given,
/// or 8,192 where none are, are fewer than the need.
fn slots_for(given: u32, need: u32) -> Option<u32>
    requires most { given ≤ MAX_SLOTS }
    ensures some { IfSome result (λ slots. (slots ≡ slots_for given need) × (need ≤ slots) × (slots ≤ MAX_SLOTS)) }
    ensures enough { IfSome result (λ _. need ≤ most_slots given) }
    ensures none { IfNone result (most_slots given < need) }
{
    if given == 0 {
        return if need > MAX_SLOTS {
            None
        } else {
            Some(need.max(DEFAULT_SLOTS))
        };
    }
    if given < need { None } else { Some(given) }
}

/// Begins a run of an accepted graph.
fn begin_run(alloc: Global, checked: Checked, slots: u32, run: &mut Held, out: &mut Verdict) -> u32
    requires empty { run.old.value ≡ None }
    requires few { slots ≤ MAX_SLOTS }
    requires nothing { out.old ≡ nothing }
    ensures answers { (result ≡ 0) ⊎ ((result ≡ 7) ⊎ (result ≡ 8)) }
    ensures begun { result ≡ 0 → (checked.need ≤ slots_for slots checked.need) × (checked.need ≤ most_slots slots)
        × HoldsRun run.new.value (λ c. (c ≡ unissued_for_host checked.graph (slots_for slots checked.need))
        × (slots_given c ≡ slots_for slots checked.need) × NothingOut c) }
    ensures untold { result ≢ 8 → out.new ≡ nothing }
    ensures slots { result ≡ 8 → (checked.need ≤ MAX_LINES_OF_THREE) × (most_slots slots < checked.need) × (out.new ≡ needing checked.need) }
    ensures none { result ≢ 0 → run.new.value ≡ None }
{
    let need = need_of(&checked);
    let Some(given) = slots_for(slots, need) else {
        *out = Verdict::needing(need);
        return SLOTS;
    };
    match begin(alloc, checked, given) {
        Some(begun) => {
            run.put(begun);
            DONE
        }
        None => NO_MEMORY,
    }
}

/// A box with a run in which no line is issued. None comes where memory ran out.
fn begin(alloc: Global, checked: Checked, slots: u32) -> Option<Box<Token, Global>>
    requires enough { checked.need ≤ slots }
    requires most { slots ≤ MAX_SLOTS }
    ensures { IfSome result (λ b. HoldsRun (Some b.value) (λ c. (c ≡ unissued_for_host checked.graph slots) × (slots_given c ≡ slots) × NothingOut c)) }
{
    match Run::begin(alloc, checked, slots) {
        Some(run) => Box::new(alloc, Token::Run(run)).ok(),
        None => None,
    }
}
