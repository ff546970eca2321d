//! A line on each number of an answer.

ghost use Rattle.std.specs.Prelude.{◌≡◌, ◌≢◌, ℕ, ◌⊎◌, List, IfSome, IfNone};
ghost use Rattle.c_answers.specs.Buffers.{Holds, IsCut};
ghost use Rattle.realm_c.specs.Messages.{text_number, text_line, run_number, run_line, misuse_number, misuse_line, IsTextMessage, IsRunMessage, IsMisuseMessage};
ghost use Rattle.realm_c.specs.declared.messages.TextAnswer.{TextAnswer as TheText};
ghost use Rattle.realm_c.specs.declared.messages.RunAnswer.{RunAnswer as TheRun};
ghost use Rattle.realm_c.specs.declared.messages.Misuse.{Misuse as TheMisuse};

use c_answers::buffer::hand_out;
use c_numbers::status::{
    BUSY_COLUMN, BUSY_LOCK, CALLS_LEFT, DONE, EMPTY, FILLED, FORGOTTEN, FULL, IN_BODY, IN_USE,
    MEET, NEEDED, NEVER, NO_BODY, NO_MEMORY, NO_ROOM, NONE, NOT_YET, OTHER_RUN, OTHER_THREAD, OVER,
    OVERLAP, PERFORMED, RANGE, REPORTED, SLOTS, TOO_LONG, UNFIT, UNLAWFUL, UNPERFORMED, UNREAD,
    USAGE, USED_UP, WORK_OUT, WRONG,
};

/// What a call on texts answers.
#[derive(Clone, Copy, Debug)]
pub(crate) enum TextAnswer {
    Done,
    Usage,
    Unread,
    Unfit,
    NoRoom,
    NoMemory,
    Slots,
    TooLong,
    Unlawful,
}

/// What a call on runs answers.
#[derive(Clone, Copy, Debug)]
pub(crate) enum RunAnswer {
    Done,
    NotYet,
    BusyLock,
    BusyColumn,
    Nothing,
    Full,
    NoRoom,
    NoMemory,
    Over,
    Never,
}

/// What a call answers that is not used as it should be.
#[derive(Clone, Copy, Debug)]
pub(crate) enum Misuse {
    Wrong,
    Empty,
    UsedUp,
    OtherRun,
    Range,
    Unperformed,
    WorkOut,
    InUse,
    Reported,
    Performed,
    Filled,
    OtherThread,
    Forgotten,
    NoBody,
    CallsLeft,
    InBody,
    Overlap,
    Meet,
    Needed,
}

/// Puts a line on an answer of the calls on texts, or on misuse, into `out` with its length beside it: 0; 6 exactly where
/// `out` is too short for it, and it is cut. A number that no answer has gets a line of its own.
#[unsafe(no_mangle)]
pub extern "C" fn realm_message(status: u32, out: &mut [u8], written: &mut u64) -> u32
    ensures answers { (result ≡ 0) ⊎ (result ≡ 6) }
    ensures done { result ≡ 0 → (line : List ℕ) × IsTextMessage status line × Holds line out.old out.new written.new }
    ensures cut { result ≡ 6 → (line : List ℕ) × IsTextMessage status line × IsCut line out.old out.new written.new }
{
    hand_out(text_message(status), out, written)
}

/// The same of an answer of the calls on runs, or of misuse.
#[unsafe(no_mangle)]
pub extern "C" fn realm_run_message(status: u32, out: &mut [u8], written: &mut u64) -> u32
    ensures answers { (result ≡ 0) ⊎ (result ≡ 6) }
    ensures done { result ≡ 0 → (line : List ℕ) × IsRunMessage status line × Holds line out.old out.new written.new }
    ensures cut { result ≡ 6 → (line : List ℕ) × IsRunMessage status line × IsCut line out.old out.new written.new }
{
    hand_out(run_message(status), out, written)
}

/// The line on an answer of the calls on texts, or on misuse.
fn text_message(status: u32) -> &'static [u8]
    ensures { IsTextMessage status result.now }
{
    match text_answer(status) {
        Some(answer) => answer.line(),
        None => misuse_message(status),
    }
}

/// The line on an answer of the calls on runs, or on misuse.
fn run_message(status: u32) -> &'static [u8]
    ensures { IsRunMessage status result.now }
{
    match run_answer(status) {
        Some(answer) => answer.line(),
        None => misuse_message(status),
    }
}

/// The line on misuse, or on a number that no answer has.
fn misuse_message(status: u32) -> &'static [u8]
    ensures { IsMisuseMessage status result.now }
{
    match misuse_of(status) {
        Some(misuse) => misuse.line(),
        None => b"no answer has this number",
    }
}

/// The answer of the calls on texts with this number.
fn text_answer(status: u32) -> Option<TextAnswer>
    ensures some { IfSome result (λ a. status ≡ text_number a) }
    ensures none { IfNone result ((a : TheText) → status ≢ text_number a) }
{
    match status {
        DONE => Some(TextAnswer::Done),
        USAGE => Some(TextAnswer::Usage),
        UNREAD => Some(TextAnswer::Unread),
        UNFIT => Some(TextAnswer::Unfit),
        NO_ROOM => Some(TextAnswer::NoRoom),
        NO_MEMORY => Some(TextAnswer::NoMemory),
        SLOTS => Some(TextAnswer::Slots),
        TOO_LONG => Some(TextAnswer::TooLong),
        UNLAWFUL => Some(TextAnswer::Unlawful),
        _ => None,
    }
}

/// The answer of the calls on runs with this number.
fn run_answer(status: u32) -> Option<RunAnswer>
    ensures some { IfSome result (λ a. status ≡ run_number a) }
    ensures none { IfNone result ((a : TheRun) → status ≢ run_number a) }
{
    match status {
        DONE => Some(RunAnswer::Done),
        NOT_YET => Some(RunAnswer::NotYet),
        BUSY_LOCK => Some(RunAnswer::BusyLock),
        BUSY_COLUMN => Some(RunAnswer::BusyColumn),
        NONE => Some(RunAnswer::Nothing),
        FULL => Some(RunAnswer::Full),
        NO_ROOM => Some(RunAnswer::NoRoom),
        NO_MEMORY => Some(RunAnswer::NoMemory),
        OVER => Some(RunAnswer::Over),
        NEVER => Some(RunAnswer::Never),
        _ => None,
    }
}

/// The misuse with this number.
fn misuse_of(status: u32) -> Option<Misuse>
    ensures some { IfSome result (λ a. status ≡ misuse_number a) }
    ensures none { IfNone result ((a : TheMisuse) → status ≢ misuse_number a) }
{
    match status {
        WRONG => Some(Misuse::Wrong),
        EMPTY => Some(Misuse::Empty),
        USED_UP => Some(Misuse::UsedUp),
        OTHER_RUN => Some(Misuse::OtherRun),
        RANGE => Some(Misuse::Range),
        UNPERFORMED => Some(Misuse::Unperformed),
        WORK_OUT => Some(Misuse::WorkOut),
        IN_USE => Some(Misuse::InUse),
        REPORTED => Some(Misuse::Reported),
        PERFORMED => Some(Misuse::Performed),
        FILLED => Some(Misuse::Filled),
        OTHER_THREAD => Some(Misuse::OtherThread),
        FORGOTTEN => Some(Misuse::Forgotten),
        NO_BODY => Some(Misuse::NoBody),
        CALLS_LEFT => Some(Misuse::CallsLeft),
        IN_BODY => Some(Misuse::InBody),
        OVERLAP => Some(Misuse::Overlap),
        MEET => Some(Misuse::Meet),
        NEEDED => Some(Misuse::Needed),
        _ => None,
    }
}

impl TextAnswer {
    fn line(self) -> &'static [u8]
        ensures { result.now ≡ text_line self }
    {
        match self {
            TextAnswer::Done => b"done",
            TextAnswer::Usage => b"a number is not within its range",
            TextAnswer::Unread => b"the text is no graph's, or not followed by a trace's",
            TextAnswer::Unfit => b"the graph breaks a rule",
            TextAnswer::NoRoom => b"out is too short",
            TextAnswer::NoMemory => b"out of memory",
            TextAnswer::Slots => b"fewer event slots than the graph needs",
            TextAnswer::TooLong => b"the text is too long",
            TextAnswer::Unlawful => b"the trace is not lawful",
        }
    }
}

impl RunAnswer {
    fn line(self) -> &'static [u8]
        ensures { result.now ≡ run_line self }
    {
        match self {
            RunAnswer::Done => b"done",
            RunAnswer::NotYet => b"the operation waits for another",
            RunAnswer::BusyLock => b"the reservation is with another operation",
            RunAnswer::BusyColumn => b"the column is with another operation",
            RunAnswer::Nothing => b"there is none",
            RunAnswer::Full => b"no event slot is free",
            RunAnswer::NoRoom => b"out is too short",
            RunAnswer::NoMemory => b"out of memory",
            RunAnswer::Over => b"the operation is not issued, is out or has ended",
            RunAnswer::Never => b"the operation never comes",
        }
    }
}

impl Misuse {
    fn line(self) -> &'static [u8]
        ensures { result.now ≡ misuse_line self }
    {
        match self {
            Misuse::Wrong => b"the handle holds another kind of thing than the call asks for",
            Misuse::Empty => b"the handle is empty",
            Misuse::UsedUp => b"what the handle held is used up or freed",
            Misuse::OtherRun => b"it is of another run or table",
            Misuse::Range => b"there is no such operation, event or number",
            Misuse::Unperformed => b"the work was not performed",
            Misuse::WorkOut => b"work of the run is out",
            Misuse::InUse => b"another call works on the handle",
            Misuse::Reported => b"the run has given its report",
            Misuse::Performed => b"the work was performed before",
            Misuse::Filled => b"the handle that is to be filled holds something",
            Misuse::OtherThread => b"the closed table stays with the thread that closed it",
            Misuse::Forgotten => b"the loop has left an operation that comes",
            Misuse::NoBody => b"a call of the graph has a word that is not in the table",
            Misuse::CallsLeft => b"a call is left whose body was not run",
            Misuse::InBody => b"the body of a task calls the runtime that runs it",
            Misuse::Overlap => b"a byte of the datum is in another datum of the runtime",
            Misuse::Meet => b"two uses of the task are of one datum, but for different tiles",
            Misuse::Needed => b"a task that was inserted with the datum has not ended",
        }
    }
}
