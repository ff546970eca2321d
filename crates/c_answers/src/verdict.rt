//! What is told of a text beside the number of the answer.

ghost use Rattle.std.specs.Prelude.{◌≡◌};
ghost use Rattle.c_answers.specs.Numbers.{why_number, rule_number, fault_number, fault_place, fault_line, first_line, second_line, nothing, verdict_of, needing, no_trace, faulty};

use crate::reading::Refusal;
use graph_terms::why::Why;
use race_check::checked::CheckRefusal;
use realm_audit::AuditRefusal;

/// What is told of a text, by the answer's number. What that does not speak of is 0.
#[repr(C)]
#[derive(Clone, Copy, Drop)]
pub struct Verdict {
    pub need: u32,
    pub rule: u32,
    pub first: u32,
    pub second: u32,
    pub line: u64,
    pub why: u32,
    pub fault: u32,
    pub place: u32,
}

impl Verdict {
    /// The verdict that tells nothing: all zeros.
    pub fn nothing() -> Verdict
        ensures { result ≡ nothing }
    {
        Verdict {
            need: 0,
            rule: 0,
            first: 0,
            second: 0,
            line: 0,
            why: 0,
            fault: 0,
            place: 0,
        }
    }

    /// Of an accepted graph with this need.
    pub fn needing(need: u32) -> Verdict
        ensures { result ≡ needing need }
    {
        Verdict {
            need,
            ..Verdict::nothing()
        }
    }

    /// Of a text that is refused.
    pub fn of(refusal: Refusal) -> Verdict
        ensures { result ≡ verdict_of refusal }
    {
        match refusal {
            Refusal::NoMemory => Verdict::nothing(),
            Refusal::Unread(number, why) => Verdict {
                line: number as u64,
                why: why_number(why),
                ..Verdict::nothing()
            },
            Refusal::Unfit(why) => {
                let (first, second) = lines_of(why);
                Verdict {
                    rule: rule_number(why),
                    first,
                    second,
                    ..Verdict::nothing()
                }
            }
        }
    }

    /// Of a line of this number behind the text of a graph that begins no text of a trace.
    pub fn no_trace(number: u64) -> Verdict
        ensures { result ≡ no_trace number }
    {
        Verdict {
            line: number,
            why: 14,
            ..Verdict::nothing()
        }
    }

    /// Of a trace with this fault.
    pub fn faulty(why: AuditRefusal) -> Verdict
        ensures { result ≡ faulty why }
    {
        let (fault, place, first) = match why {
            AuditRefusal::Repeat(place) => (1, place, 0),
            AuditRefusal::Waits(place) => (2, place, 0),
            AuditRefusal::Source(place, line) => (3, place, line),
            AuditRefusal::Overlap(place, line) => (4, place, line),
            AuditRefusal::Missing(line) => (5, 0, line),
            AuditRefusal::NoMemory => (0, 0, 0),
        };
        Verdict {
            fault,
            place,
            first,
            ..Verdict::nothing()
        }
    }
}

/// The lines that a broken rule names, 0 where it names fewer.
fn lines_of(why: CheckRefusal) -> (u32, u32)
    ensures { (result.0 ≡ first_line why) × (result.1 ≡ second_line why) }
{
    match why {
        CheckRefusal::Cycle(line)
        | CheckRefusal::Unreleased(line)
        | CheckRefusal::ReleaseFault(line) => (line, 0),
        CheckRefusal::Section(line, other)
        | CheckRefusal::Descends(line, other)
        | CheckRefusal::Race(line, other) => (line, other),
        CheckRefusal::NoMemory => (0, 0),
    }
}

/// The number of a rule.
fn rule_number(why: CheckRefusal) -> u32
    ensures { result ≡ rule_number why }
{
    match why {
        CheckRefusal::Cycle(_) => 1,
        CheckRefusal::Unreleased(_) => 2,
        CheckRefusal::Section(..) => 3,
        CheckRefusal::Descends(..) => 4,
        CheckRefusal::ReleaseFault(_) => 5,
        CheckRefusal::Race(..) => 6,
        CheckRefusal::NoMemory => 0,
    }
}

/// The number of a reason. 14 is that for the text of a trace.
fn why_number(why: Why) -> u32
    ensures { result ≡ why_number why }
{
    match why {
        Why::Header => 1,
        Why::Syntax => 2,
        Why::Name => 3,
        Why::Twice => 4,
        Why::Unknown => 5,
        Why::Kind => 6,
        Why::Number => 7,
        Why::Space => 8,
        Why::Outside => 9,
        Why::Arrivals => 10,
        Why::Limit => 11,
        Why::Missing => 12,
        Why::Rest => 13,
        Why::Meets => 15,
    }
}
