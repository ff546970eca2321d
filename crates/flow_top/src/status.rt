//! How the top call ends.

ghost use Rattle.std.specs.Prelude.{◌≡◌};
ghost use Rattle.flow_top.specs.Served.{exit_number};

use graph_terms::why::Why;
use program_io::ProgramStatus;

/// How the top call ended.
#[derive(Clone, Copy, Debug, PartialEq, Eq)]
pub enum FlowStatus {
    /// The text of the graph was written and flushed.
    Done,
    /// The input is no flow's text, or its graph passes a limit: this line, counted from 1, is refused for this reason.
    Unread { number: u32, why: Why },
    /// A read failed.
    ReadFault,
    /// A write or a flush failed.
    WriteFault,
    /// Memory ran out, before anything was written.
    NoMemory,
    /// The input has more than 1,048,576 bytes.
    TooLong,
}

impl FlowStatus {
    /// The exit status of the program.
    pub fn number(&self) -> u8
        ensures { result ≡ exit_number self.now }
    {
        match self {
            FlowStatus::Done => 0,
            FlowStatus::Unread { .. } => 3,
            FlowStatus::ReadFault => 5,
            FlowStatus::WriteFault => 6,
            FlowStatus::NoMemory => 7,
            FlowStatus::TooLong => 9,
        }
    }
}

impl ProgramStatus for FlowStatus {
    ghost use Rattle.flow_top.specs.declared.status.FlowStatus.TheVariants.{WriteFault};

    ghost write_fault = { WriteFault };

    fn write_fault() -> FlowStatus {
        FlowStatus::WriteFault
    }
}
