//! What a worker passes before it performs a line.

use std::sync::Wait;

/// Lets workers pass one by one. It may hold a worker up, and changes nothing that a run reads.
pub trait Gate: Sync {
    /// Returns when the worker may perform the line with this number.
    fn pass<R: Wait>(&self, rt: &R, line: u32);
}

/// A gate that holds nobody up.
#[derive(Clone, Copy, Debug)]
pub struct OpenGate;

impl Gate for OpenGate {
    fn pass<R: Wait>(&self, _rt: &R, _line: u32) {}
}
