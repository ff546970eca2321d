//! How tests tell of a call that was refused memory: `tests/refused-memory` reads their last words.

use std::test::Fail;

/// How a test goes on after a call: it ends where the call was refused memory, and where something is not as it
/// should be.
pub fn after(call: &str, is_refused: bool, is_right: bool) -> Result<(), Fail> {
    match (is_right, is_refused) {
        (true, false) => Ok(()),
        (true, true) => Err(Fail::new(format_args!("{call}: NoMemory"))),
        (false, _) => Err(Fail::new(format_args!("{call}: something is wrong"))),
    }
}
