//! The numbers of the answers.

ghost use Rattle.std.specs.Prelude.{◌≡◌};
ghost use Rattle.realm_events_c.specs.Kinds.{answer_number, fate_number, fate_by};

use event_table::{Answer, Fate};

pub(crate) const DONE: u32 = 0;

/// A waiter was placed; a handle has ended with Ok, or with Poison; its slot changed meanwhile.
pub(crate) const PLACED: u32 = 0;

pub(crate) const OVER: u32 = 1;

pub(crate) const OVER_POISON: u32 = 2;

pub(crate) const MOVED: u32 = 3;

/// There is none left.
pub(crate) const NONE: u32 = 4;

/// Each slot is pending or retired.
pub(crate) const FULL: u32 = 5;

/// Memory ran out.
pub(crate) const NO_MEMORY: u32 = 7;

/// A number is beyond its limit, or another handle is at the table.
pub(crate) const REFUSED: u32 = 8;

/// A handle holds something else than the call asks for. No contract allows such a call.
pub(crate) const WRONG: u32 = 9;

/// The number of an answer.
pub(crate) fn answer_number(answer: Answer) -> u32
    ensures { result ≡ answer_number answer }
{
    match answer {
        Answer::Triggered => 0,
        Answer::Poisoned => 1,
        Answer::Pending => 2,
    }
}

/// The number of a fate.
pub(crate) fn fate_number(fate: Fate) -> u32
    ensures { result ≡ fate_number fate }
{
    match fate {
        Fate::Ok => 0,
        Fate::Poison => 1,
    }
}

/// The fate with this number: 1 is Poison, each other number Ok.
pub(crate) fn fate_by(number: u32) -> Fate
    ensures { result ≡ fate_by number }
{
    if number == 1 { Fate::Poison } else { Fate::Ok }
}
