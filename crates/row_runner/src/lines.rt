//! The lines of a row file, and its blocks: a row or a named text, each from its first line on.

use std::alloc::{AllocError, Global};

/// A line of the file with its number, from 1.
#[derive(Drop)]
pub(crate) struct FileLine<'f> {
    pub(crate) number: u32,
    pub(crate) text: &'f str,
}

impl FileLine<'_> {
    /// Whether a block begins here.
    fn is_head(&self) -> bool {
        self.text.starts_with("row ") || self.text.starts_with("text ")
    }
}

/// The lines of a file but for comments and empty lines.
pub(crate) fn lines_of<'f>(alloc: Global, file: &'f str) -> Result<Vec<FileLine<'f>>, AllocError> {
    let mut lines = Vec::new(alloc);
    let mut number: u32 = 0;
    for text in file.split('\n') {
        number = number.saturating_add(1);
        if !text.is_empty() && !text.starts_with('#') {
            lines.push(FileLine { number, text })?;
        }
    }
    Ok(lines)
}

/// The lines below the first line of a block that belong to it.
pub(crate) fn body_of<'a, 'f>(below: &'a [FileLine<'f>]) -> &'a [FileLine<'f>] {
    for (place, line) in below.iter().enumerate() {
        if line.is_head() {
            return below.get(..place).unwrap_or(below);
        }
    }
    below
}
