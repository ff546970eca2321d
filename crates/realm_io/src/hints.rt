//! Where workers leave the numbers of lines that may be ready, and find them.

use std::sync::Wait;

/// Numbers of lines that a worker may try next. Nothing rests on what it gives: a number may be that of
/// no line, come twice or be lost, and `None` does not say that no line is left. Either call may wait.
pub trait Hints: Send {
    /// Keeps the number for a later `take`, or drops it.
    fn push<R: Wait>(&mut self, rt: &R, line: u32);

    /// A number to try, if there is one.
    fn take<R: Wait>(&mut self, rt: &R) -> Option<u32>;
}
