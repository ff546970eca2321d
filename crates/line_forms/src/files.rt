//! Lines with which texts begin that are no graphs.

ghost use Rattle.std.specs.Prelude.{◌≡◌};
ghost use Rattle.line_forms.specs.Files.{is_trace, has_mark, first_text, rest_text};

/// What is told of a first line that is not that of a graph.
pub(crate) fn first_text(line: &[u8]) -> &'static [u8]
    ensures { result.now ≡ first_text line.now }
{
    if has_mark(line) {
        return b"a byte-order mark stands before the first word: leave it out\n";
    }
    if line == b"realm-flow 1".as_slice() {
        return b"a flow begins so: realm-flow makes a graph of it\n";
    }
    if line == b"realm-session 1".as_slice() {
        return b"a session begins so: realm session runs it, and each of its graphs stands in it from its line realm to end\n";
    }
    if is_trace(line) {
        return b"a trace begins so: realm audit reads it behind its graph\n";
    }
    if line == b"realm-report 1".as_slice() {
        return b"a report begins so, which realm run writes\n";
    }
    b"a graph begins with a line realm 1, realm 2 or realm 3\n"
}

/// What is told of a line that stands below the line `end`.
pub(crate) fn rest_text(line: &[u8]) -> &'static [u8]
    ensures { result.now ≡ rest_text line.now }
{
    if is_trace(line) {
        return b"a trace begins so: realm audit alone reads it behind a graph\n";
    }
    b"the line end is the last of a graph: nothing stands below it, not even an empty line\n"
}

/// Whether a trace begins with this line.
fn is_trace(line: &[u8]) -> bool
    ensures { result ≡ is_trace line.now }
{
    line == b"realm-trace 1".as_slice()
}

/// Whether the bytes begin with the mark that some editors put before a text.
fn has_mark(line: &[u8]) -> bool
    ensures { result ≡ has_mark line.now }
{
    match line {
        [first, second, third, ..] => *first == 239 && (*second == 187 && *third == 191),
        _ => false,
    }
}
