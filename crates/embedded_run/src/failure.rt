//! Why the program ends early.

ghost use Rattle.std.specs.Prelude.{◌≡◌};
ghost use Rattle.embedded_run.specs.declared.failure.Failure.{Failure};

use graph_terms::why::Why;
use index_spaces::NoMemory;
use race_check::checked::CheckRefusal;
use std::io;

/// Why the program ends early.
#[derive(Clone, Copy, Debug, PartialEq, Eq)]
pub(crate) enum Failure {
    /// An item does not fit after those before it.
    Item(Why),
    /// The graph breaks a rule.
    Graph(CheckRefusal),
    /// The graph needs this many event slots, and there are fewer.
    Slots(u32),
    /// Memory ran out.
    NoMemory,
    /// The standard output can't be written.
    Output,
}

impl From<NoMemory> for Failure {
    ghost from_gives = { λ _ e. e ≡ Failure.NoMemory };

    fn from(_: NoMemory) -> Failure {
        Failure::NoMemory
    }
}

impl From<io::Error> for Failure {
    ghost from_gives = { λ _ e. e ≡ Failure.Output };

    fn from(_: io::Error) -> Failure {
        Failure::Output
    }
}
