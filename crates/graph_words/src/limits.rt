//! How long a text may be, whatever it says.

ghost use Rattle.std.specs.Prelude.{◌≡◌};
ghost use Rattle.graph_words.specs.Limits.{text_limit};

use graph_terms::limits::{MAX_TEXT, MAX_TEXT_OF_THREE};

/// The first line of the texts that may have more bytes than others: those of format 3.
pub const LONG_START: &[u8] = b"realm 3\n";

/// The most bytes that a text may have which begins as these do, with its comments.
pub fn text_limit(bytes: &[u8]) -> u64
    ensures { result ≡ text_limit bytes.now }
{
    if bytes.starts_with(LONG_START) {
        MAX_TEXT_OF_THREE
    } else {
        MAX_TEXT
    }
}
