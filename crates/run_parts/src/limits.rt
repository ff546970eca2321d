//! Limits of a run.

ghost use Rattle.std.specs.Prelude.{◌≡◌};
ghost use Rattle.run_parts.specs.LineEvents.{last_gen_for};

/// The last generation of a slot in a run of so many lines. A slot retires only after all of them have
/// ended on it, and then no line is left.
pub fn last_gen_for(lines: u32) -> u32
    ensures { result ≡ last_gen_for lines }
{
    lines.saturating_sub(1)
}
