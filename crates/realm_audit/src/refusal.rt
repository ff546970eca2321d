//! What an audit answers.

ghost use Rattle.std.specs.Prelude.{◌≡◌};
ghost use Rattle.realm_audit.specs.declared.refusal.AuditRefusal.{AuditRefusal};

use index_spaces::NoMemory;

/// Why a trace is not lawful. Places are counted from 0.
#[derive(Clone, Copy, Debug, PartialEq, Eq)]
pub enum AuditRefusal {
    /// The line at this place stands earlier too.
    Repeat(u32),
    /// The line at this place does not end.
    Waits(u32),
    /// Of the line at this place the source of the second number ends, but stands not earlier.
    Source(u32, u32),
    /// At the acquire at this place the section of the acquire of the second number has not ended, and
    /// the two are not both shared.
    Overlap(u32, u32),
    /// This line ends, and is not in the trace.
    Missing(u32),
    /// Memory was refused; nothing is said of the trace.
    NoMemory,
}

impl From<NoMemory> for AuditRefusal {
    ghost from_gives = { λ _ e. e ≡ AuditRefusal.NoMemory };

    fn from(_: NoMemory) -> AuditRefusal {
        AuditRefusal::NoMemory
    }
}
