//! Reading a session from its text.

ghost use Rattle.std.specs.Prelude.{◌≡◌, ◌≢◌, ◌+◌, ◌<◌, ◌≤◌, [], length, IfOk, IfErr, OnOk};
ghost use Rattle.graph_terms.specs.declared.limits.TheConstants.{MAX_TEXT};
ghost use Rattle.session_text.specs.Fits.{SessionText};
ghost use Rattle.session_text.specs.FirstFault.{IsRefusal};
ghost use Rattle.session_text.specs.SoFar.{entries_in, IsSoFar};

use crate::cuts::cut;
use crate::entry::Entry;
use crate::so_far::{SoFar, refused};
use graph_reader::ReadRefusal;
use graph_terms::why::Why;
use std::alloc::Global;

/// The graphs of the session whose text the bytes are, with their links, in order. There are at most
/// 1,048,576 bytes. `Line` exactly where they are no session's text: the first refused line, counted
/// from 1, and the first reason that refuses it. `NoMemory` where memory ran out.
pub fn read_session(alloc: Global, bytes: &[u8]) -> Result<Vec<Entry>, ReadRefusal>
    requires short { length bytes.now ≤ MAX_TEXT }
    ensures text { IfOk result (λ v. SessionText bytes.now v.items) }
    ensures refusal { IfErr result (λ e. IsRefusal bytes.now e) }
{
    let mut so_far = SoFar::new(alloc);
    let read = read_lines(alloc, &mut so_far, bytes);
    let entries = so_far.into_entries();
    read.and(entries)
}

/// Reads all lines, where no graph was read.
fn read_lines(alloc: Global, so_far: &mut SoFar, bytes: &[u8]) -> Result<(), ReadRefusal>
    requires short { length bytes.now ≤ MAX_TEXT }
    requires none { entries_in so_far.old ≡ [] }
    requires is_so_far { IsSoFar so_far.old }
    ensures text { OnOk result (SessionText bytes.now (entries_in so_far.new)) }
    ensures refusal { IfErr result (λ e. IsRefusal bytes.now e) }
{
    let Some(mut rest) = bytes.strip_prefix(b"realm-session 1\n".as_slice()) else {
        return Err(refused(1, Why::Header));
    };
    let mut words = Vec::new(alloc);
    let mut number: u32 = 2;
    while let Some((line, after)) = cut(rest, b'\n') {
        if line == b"close".as_slice() {
            return close(after, number);
        }
        let next = so_far.read_line(alloc, &mut words, line, after, number)?;
        rest = next.bytes;
        number = next.number;
    }
    Err(refused(number, Why::Missing))
}

/// Nothing follows the closing line of this number, else that is refused.
fn close(after: &[u8], number: u32) -> Result<(), ReadRefusal>
    requires few { number < u32.MAX }
    ensures closed { OnOk result (after.now ≡ []) }
    ensures rest { IfErr result (λ e. (after.now ≢ []) × (e ≡ ReadRefusal.Line (number + 1) Why.Rest)) }
{
    if !after.is_empty() {
        return Err(refused(number + 1, Why::Rest));
    }
    Ok(())
}
