//! Why the program ends early.

ghost use Rattle.std.specs.Prelude.{◌≡◌};
ghost use Rattle.embedded_calls.specs.declared.failure.Failure.{Failure};

use index_spaces::NoMemory;
use std::io;

/// Why the program ends early.
#[derive(Clone, Copy, Debug, PartialEq, Eq)]
pub(crate) enum Failure {
    /// The graph is refused.
    Refused,
    /// Memory ran out.
    NoMemory,
    /// The standard output can't be written.
    Output,
}

impl From<NoMemory> for Failure {
    ghost from_gives = { λ _ e. e ≡ Failure.NoMemory };

    fn from(_: NoMemory) -> Failure {
        Failure::NoMemory
    }
}

impl From<io::Error> for Failure {
    ghost from_gives = { λ _ e. e ≡ Failure.Output };

    fn from(_: io::Error) -> Failure {
        Failure::Output
    }
}
