//! Cutting bytes at a byte.

ghost use Rattle.std.specs.Prelude.{◌≡◌, ℕ, ◌==◌, false, true, MatchOption, [], ◌∷◌, IfSome, Some};
ghost use Rattle.std.specs.List.{list_any, before_first, after_first};
ghost use Rattle.graph_words.specs.Words.{pieces, first_piece};
ghost use Rattle.graph_words.specs.Cuts.{IsCut, two_pieces, Gives};

/// The bytes before the first `stop` and those behind it. `None` exactly where there is none.
pub fn cut(bytes: &[u8], stop: u8) -> Option<(&[u8], &[u8])>
    ensures { MatchOption result (list_any (λ b. b == stop) bytes.now ≡ false) (λ x. IsCut stop bytes.now x.0.now x.1.now) }
{
    for (i, b) in bytes.iter().enumerate() {
        if *b == stop {
            return Some((&bytes[..i], &bytes[i + 1..]));
        }
    }
    None
}

/// The bytes before the first dot.
pub fn before_dot(word: &[u8]) -> &[u8]
    ensures { result.now ≡ first_piece (pieces 46 word.now) }
{
    match cut(word, b'.') {
        Some((front, _)) => front,
        None => word,
    }
}

/// The two parts of a word with one dot.
pub fn around_dot(word: &[u8]) -> Option<(&[u8], &[u8])>
    ensures { Gives (λ x. (x.0.now, x.1.now)) result (two_pieces (pieces 46 word.now)) }
{
    let Some((front, back)) = cut(word, b'.') else {
        return None;
    };
    match cut(back, b'.') {
        Some(_) => None,
        None => Some((front, back)),
    }
}
