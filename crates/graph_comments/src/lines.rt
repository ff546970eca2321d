//! One line of a text.

ghost use Rattle.std.specs.Prelude.{◌≡◌, ◌==◌, false, MatchOption};
ghost use Rattle.std.specs.List.{list_any};
ghost use Rattle.graph_comments.specs.Comments.{is_comment, is_closing};
ghost use Rattle.graph_comments.specs.Cuts.{IsFirstLine};

use memchr::memchr;

/// Whether a line says nothing: it is empty, or its first byte is `#`.
pub fn is_comment(line: &[u8]) -> bool
    ensures { result ≡ is_comment line.now }
{
    match line {
        [] => true,
        [first, ..] => *first == b'#',
    }
}

/// Whether a line is the one that closes a text.
pub fn is_closing(line: &[u8]) -> bool
    ensures { result ≡ is_closing line.now }
{
    line == b"end".as_slice()
}

/// The first line and the bytes behind its newline. `None` exactly where there is no newline.
pub(crate) fn first_line(bytes: &[u8]) -> Option<(&[u8], &[u8])>
    ensures { MatchOption result (list_any (λ b. b == 10) bytes.now ≡ false) (λ x. IsFirstLine bytes.now x.0.now x.1.now) }
{
    match memchr(b'\n', bytes) {
        Some(end) => Some((&bytes[..end], &bytes[end + 1..])),
        None => None,
    }
}
