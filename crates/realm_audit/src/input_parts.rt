//! The two parts of an input of `audit`.

ghost use Rattle.std.specs.Prelude.{◌≡◌, ◌≤◌, length, take, drop};
ghost use Rattle.realm_audit.specs.Parts.{newlines, graph_bytes, trace_bytes};

use crate::reading::first_line;

/// The part of the bytes that is the text of a graph, and the part that is the text of a trace: they are cut after the
/// first line that is exactly `end`. Where no line is, all of them are the first part.
pub fn parts(bytes: &[u8]) -> (&[u8], &[u8])
    ensures graph { result.0.now ≡ graph_bytes bytes.now }
    ensures trace { result.1.now ≡ trace_bytes bytes.now }
{
    bytes.split_at(graph_size(bytes))
}

/// How many bytes the first part has.
fn graph_size(bytes: &[u8]) -> usize
    ensures within { result ≤ length bytes.now }
    ensures graph { take result bytes.now ≡ graph_bytes bytes.now }
    ensures trace { drop result bytes.now ≡ trace_bytes bytes.now }
{
    let mut rest = bytes;
    while let Some((line, after)) = first_line(rest) {
        if line == b"end".as_slice() {
            return bytes.len() - after.len();
        }
        rest = after;
    }
    bytes.len()
}

/// How many lines of the bytes end with a newline. There are fewer than 2^32 bytes.
pub fn newlines(bytes: &[u8]) -> u32
    requires few { length bytes.now ≤ u32.MAX }
    ensures { result ≡ newlines bytes.now }
{
    let mut count = 0;
    for byte in bytes {
        if *byte == b'\n' {
            count += 1;
        }
    }
    count
}
