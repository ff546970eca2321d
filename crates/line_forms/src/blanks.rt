//! What no line of a text has in it.

ghost use Rattle.std.specs.Prelude.{◌≡◌, ◌==◌};
ghost use Rattle.std.specs.List.{list_any};
ghost use Rattle.basics.specs.Words.{contents};
ghost use Rattle.line_forms.specs.Blanks.{is_empty, ends_with_return, begins_comment, has_tab, blank_in, blank_text};

use memchr::memchr;

/// What no line of a text has in it.
#[derive(Clone, Copy)]
pub enum Blank {
    /// A carriage return at its end.
    Return,
    /// Nothing.
    Empty,
    /// A number sign in front.
    Comment,
    /// A tab.
    Tab,
    /// Two spaces side by side, or one at an end.
    Spaces,
}

/// What is told of it.
pub fn blank_text(blank: Blank) -> &'static [u8]
    ensures { result.now ≡ blank_text blank }
{
    match blank {
        Blank::Return => b"the line ends with a carriage return: lines end with a newline alone\n",
        Blank::Empty =>
            b"the line is empty: formats 1 and 2 have no blank lines\nformat 3 has them, from the second line on\n",
        Blank::Comment =>
            b"the line begins with #: formats 1 and 2 have no comments\nformat 3 has them, from the second line on\n",
        Blank::Tab => b"the line has a tab: one space stands between two words\n",
        Blank::Spaces => {
            b"two spaces stand side by side, or one at an end: one stands between two words\n"
        }
    }
}

/// The first of them that a line of these words has.
pub(crate) fn blank_in(line: &[u8], words: &[&[u8]]) -> Option<Blank>
    ensures { result ≡ blank_in line.now (contents words.now) }
{
    if ends_with_return(line) {
        return Some(Blank::Return);
    }
    if line.is_empty() {
        return Some(Blank::Empty);
    }
    if begins_comment(line) {
        return Some(Blank::Comment);
    }
    if has_tab(line) {
        return Some(Blank::Tab);
    }
    if has_empty(words) {
        Some(Blank::Spaces)
    } else {
        None
    }
}

/// Whether the last byte is a carriage return.
pub fn ends_with_return(line: &[u8]) -> bool
    ensures { result ≡ ends_with_return line.now }
{
    match line.last() {
        Some(byte) => *byte == b'\r',
        None => false,
    }
}

pub(crate) fn begins_comment(line: &[u8]) -> bool
    ensures { result ≡ begins_comment line.now }
{
    match line {
        [first, ..] => *first == b'#',
        [] => false,
    }
}

/// Whether a line has a tab.
pub fn has_tab(line: &[u8]) -> bool
    ensures { result ≡ has_tab line.now }
{
    has_byte(line, b'\t')
}

/// Whether bytes have this one.
pub(crate) fn has_byte(bytes: &[u8], byte: u8) -> bool
    ensures { result ≡ list_any (λ b. b == byte) bytes.now }
{
    match memchr(byte, bytes) {
        Some(_place) => true,
        None => false,
    }
}

fn has_empty(words: &[&[u8]]) -> bool
    ensures { result ≡ list_any is_empty (contents words.now) }
{
    words.iter().any(|word| word.is_empty())
}
