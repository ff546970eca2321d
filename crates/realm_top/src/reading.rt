//! Reading an input to its end, as long as it may be.

ghost use Rattle.std.specs.Prelude.{◌≡◌, ℕ, ◌<◌, ◌≤◌, List, Some, length, vec_len, IfOk, OnOk, IsErrOf};
ghost use Rattle.std.specs.Io.KnownBytes.{Consumes, IsAtEnd};
ghost use Rattle.realm_io.specs.Counts.{Rose};
ghost use Rattle.realm_top.specs.Answer.{input_limit};

use command_line::request::Action;
use graph_terms::limits::{MAX_TEXT, MAX_TEXT_OF_THREE};
use graph_words::limits::LONG_START;
use realm_io::{ReadEnd, Source, read_all, read_by_start};
use std::alloc::Global;

// The most bytes of a text of format 3, and of others.
const LONG: u32 = MAX_TEXT_OF_THREE as u32;

const SHORT: u32 = MAX_TEXT as u32;

/// Reads the input of an action to its end: the text of a graph as long as its format allows, with that of a trace
/// behind it twice as long, and the text of a session as long as a text of formats 1 and 2.
pub(crate) fn read_input<S: Source>(
    alloc: Global,
    source: &mut S,
    action: Action,
) -> Result<Vec<u8>, ReadEnd>
    ensures all { IfOk result (λ v. Consumes (S.left source.old) (S.left source.new) v.items) }
    ensures end { OnOk result (IsAtEnd (S.left source.new)) }
    ensures within { IfOk result (λ v. vec_len v ≤ input_limit action v.items) }
    ensures was_long { (xs : List ℕ) → S.left source.old ≡ Some xs → IsErrOf result ReadEnd.TooLong
        → input_limit action xs < length xs }
    ensures read_fault { IsErrOf result ReadEnd.ReadFault → Rose (S.faults source.old) (S.faults source.new) }
    ensures count { S.faults source.old ≤ S.faults source.new }
{
    match action {
        Action::Audit => read_by_start(alloc, source, LONG_START, 2 * LONG, 2 * SHORT),
        Action::Session => read_all(alloc, source, SHORT),
        _ => read_by_start(alloc, source, LONG_START, LONG, SHORT),
    }
}
