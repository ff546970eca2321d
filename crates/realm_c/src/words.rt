//! The words of reasons, rules and faults by their numbers.

ghost use Rattle.std.specs.Prelude.{◌≡◌, ◌≢◌, ℕ, ◌≤◌, ◌⊎◌, List, IfSome, IfNone};
ghost use Rattle.c_answers.specs.Buffers.{Holds, IsCut};
ghost use Rattle.c_answers.specs.Numbers.{why_number};
ghost use Rattle.realm_c.specs.Words.{IsWord, HasWord, IsReasonWord, IsRuleWord, IsFaultWord};

use c_answers::buffer::hand_out;
use c_numbers::status::USAGE;
use graph_terms::why::Why;

// The number of the word for the text of a trace.
const TRACE: u32 = 14;

/// Puts a word into `out` with its length beside it: of the reason of this number where `kind` is 0, of the rule where it
/// is 1, of the fault of a trace where it is 2. 0; 2 exactly where there is no such word; 6 exactly where `out` is too
/// short for it, and it is cut.
#[unsafe(no_mangle)]
pub extern "C" fn realm_word(kind: u32, number: u32, out: &mut [u8], written: &mut u64) -> u32
    ensures answers { (result ≡ 0) ⊎ ((result ≡ 2) ⊎ (result ≡ 6)) }
    ensures done { result ≡ 0 → (word : List ℕ) × IsWord kind number word × Holds word out.old out.new written.new }
    ensures cut { result ≡ 6 → (word : List ℕ) × IsWord kind number word × IsCut word out.old out.new written.new }
    ensures usage { result ≡ 2 → HasWord kind number → ⊥ }
    ensures has { result ≢ 2 → HasWord kind number }
    ensures untouched { result ≡ 2 → (out.new ≡ out.old) × (written.new ≡ 0) }
{
    *written = 0;
    match word_of(kind, number) {
        Some(word) => hand_out(word, out, written),
        None => USAGE,
    }
}

/// The word of this kind and number.
fn word_of(kind: u32, number: u32) -> Option<&'static [u8]>
    ensures some { IfSome result (λ word. IsWord kind number word.now) }
    ensures has { IfSome result (λ _. HasWord kind number) }
    ensures none { IfNone result (HasWord kind number → ⊥) }
{
    match kind {
        0 => reason_word(number),
        1 => rule_word(number),
        2 => fault_word(number),
        _ => None,
    }
}

/// The word of a reason, of which 14 is that for the text of a trace.
fn reason_word(number: u32) -> Option<&'static [u8]>
    ensures some { IfSome result (λ word. IsReasonWord number word.now) }
    ensures has { IfSome result (λ _. (1 ≤ number) × (number ≤ 15)) }
    ensures none { IfNone result ((1 ≤ number) × (number ≤ 15) → ⊥) }
{
    if number == TRACE {
        return Some(b"trace");
    }
    match why_by(number) {
        Some(why) => Some(why.word().as_bytes()),
        None => None,
    }
}

/// The reason with this number.
fn why_by(number: u32) -> Option<Why>
    ensures some { IfSome result (λ why. number ≡ why_number why) }
    ensures has { IfSome result (λ _. (1 ≤ number) × (number ≤ 15)) }
    ensures none { IfNone result ((1 ≤ number) × (number ≤ 15) × (number ≢ 14) → ⊥) }
{
    match number {
        1 => Some(Why::Header),
        2 => Some(Why::Syntax),
        3 => Some(Why::Name),
        4 => Some(Why::Twice),
        5 => Some(Why::Unknown),
        6 => Some(Why::Kind),
        7 => Some(Why::Number),
        8 => Some(Why::Space),
        9 => Some(Why::Outside),
        10 => Some(Why::Arrivals),
        11 => Some(Why::Limit),
        12 => Some(Why::Missing),
        13 => Some(Why::Rest),
        15 => Some(Why::Meets),
        _ => None,
    }
}

/// The word of a rule.
fn rule_word(number: u32) -> Option<&'static [u8]>
    ensures some { IfSome result (λ word. IsRuleWord number word.now) }
    ensures has { IfSome result (λ _. (1 ≤ number) × (number ≤ 6)) }
    ensures none { IfNone result ((1 ≤ number) × (number ≤ 6) → ⊥) }
{
    match number {
        1 => Some(b"cycle"),
        2 => Some(b"unreleased"),
        3 => Some(b"section"),
        4 => Some(b"descends"),
        5 => Some(b"release"),
        6 => Some(b"race"),
        _ => None,
    }
}

/// The word of a fault of a trace.
fn fault_word(number: u32) -> Option<&'static [u8]>
    ensures some { IfSome result (λ word. IsFaultWord number word.now) }
    ensures has { IfSome result (λ _. (1 ≤ number) × (number ≤ 5)) }
    ensures none { IfNone result ((1 ≤ number) × (number ≤ 5) → ⊥) }
{
    match number {
        1 => Some(b"repeat"),
        2 => Some(b"waits"),
        3 => Some(b"source"),
        4 => Some(b"overlap"),
        5 => Some(b"missing"),
        _ => None,
    }
}
