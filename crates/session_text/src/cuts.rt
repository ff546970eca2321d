//! Cutting bytes at a byte.

ghost use Rattle.std.specs.Prelude.{◌≡◌, ◌==◌, false, MatchOption};
ghost use Rattle.std.specs.List.{list_any};
ghost use Rattle.graph_words.specs.Cuts.{IsCut};

/// The bytes before the first `stop` and those behind it. `None` exactly where there is none.
pub(crate) fn cut(bytes: &[u8], stop: u8) -> Option<(&[u8], &[u8])>
    ensures { MatchOption result (list_any (λ b. b == stop) bytes.now ≡ false) (λ x. IsCut stop bytes.now x.0.now x.1.now) }
{
    for (i, b) in bytes.iter().enumerate() {
        if *b == stop {
            return Some((&bytes[..i], &bytes[i + 1..]));
        }
    }
    None
}
