//! How the top call ends.

ghost use Rattle.std.specs.Prelude.{◌≡◌};
ghost use Rattle.graph_answers.specs.Status.{exit_number};

use program_io::ProgramStatus;

/// How the top call ended.
#[derive(Clone, Copy, Debug, PartialEq, Eq)]
pub enum Status {
    /// The action was done, and its text was written and flushed.
    Done,
    /// The words name no action.
    Usage,
    /// The input is no text that is read: not that of a graph or a session, or behind it not that of a trace.
    Unread,
    /// A graph breaks a rule.
    Unfit,
    /// A read failed.
    ReadFault,
    /// A write or a flush failed.
    WriteFault,
    /// Memory ran out, before anything was written.
    NoMemory,
    /// The run, or the session, has too few slots.
    Slots,
    /// The input has more bytes than the action takes: 1,048,576, and 16,777,216 where it begins with
    /// the first line of format 3 and is no session; for `audit` twice as many.
    TooLong,
    /// The trace is not lawful.
    Unlawful,
}

impl Status {
    /// The exit status of the program.
    pub fn number(&self) -> u8
        ensures { result ≡ exit_number self.now }
    {
        match self {
            Status::Done => 0,
            Status::Usage => 2,
            Status::Unread => 3,
            Status::Unfit => 4,
            Status::ReadFault => 5,
            Status::WriteFault => 6,
            Status::NoMemory => 7,
            Status::Slots => 8,
            Status::TooLong => 9,
            Status::Unlawful => 10,
        }
    }
}

impl ProgramStatus for Status {
    ghost use Rattle.graph_answers.specs.declared.status.Status.TheVariants.{WriteFault};

    ghost write_fault = { WriteFault };

    fn write_fault() -> Status {
        Status::WriteFault
    }
}
