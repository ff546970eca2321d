//! How programs end.

ghost use Rattle.std.specs.Prelude.{◌≡◌};

/// The ways in which a program ends, one of them where a write or a flush failed.
pub trait ProgramStatus: Copy {
    ghost write_fault: { Self };

    /// The status where a write or a flush failed.
    fn write_fault() -> Self
        ensures { result ≡ write_fault };
}
