//! The accesses of calls.

ghost use Rattle.std.specs.Prelude.{◌≡◌};
ghost use Rattle.graph_terms.specs.Access.{call_accesses, is_read, is_reduction};
ghost use Rattle.graph_terms.specs.Fits.{accesses_many, may_meet};

use graph_terms::limits::MAX_CALL_ACCESSES;
use graph_terms::verb::{Access, Mode, Verb};

/// What a call accesses, by columns of data. None for any other line.
pub fn call_accesses(verb: &Verb) -> &[Access]
    ensures { result.now ≡ call_accesses verb.now }
{
    match verb {
        Verb::Call { call } => call.accesses().items.as_slice(),
        _ => &[],
    }
}

/// Whether two accesses of one call may meet: one of them only reads, and none reduces.
pub fn may_meet(one: Mode, other: Mode) -> bool
    ensures { result ≡ may_meet one other }
{
    (is_read(one) || is_read(other)) && !(is_reduction(one) || is_reduction(other))
}

fn is_read(mode: Mode) -> bool
    ensures { result ≡ is_read mode }
{
    matches!(mode, Mode::Read)
}

fn is_reduction(mode: Mode) -> bool
    ensures { result ≡ is_reduction mode }
{
    !matches!(mode, Mode::Read | Mode::Write)
}

/// Whether a call has too many accesses.
pub fn accesses_many(verb: &Verb) -> bool
    ensures { result ≡ accesses_many verb.now }
{
    call_accesses(verb).len() > MAX_CALL_ACCESSES as usize
}
