//! Whether lines end.

ghost use Rattle.std.specs.Prelude.{◌≡◌, ◌<◌, ◌↔◌, length, slice_get, IsTrue};

use graph_terms::lists::EndList;
use graph_terms::outcome::End;

/// Whether a line waits.
pub(crate) fn waits(ends: &EndList, line: u32) -> bool
    requires { line < length ends.now }
    ensures { IsTrue result ↔ (slice_get ends.now line ≡ Some End.Waiting) }
{
    match ends.at(line) {
        End::Waiting => true,
        _ => false,
    }
}
