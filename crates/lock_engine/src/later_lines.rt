//! What the searches of workers leave for later ones. Nothing rests on it but speed: a line that is
//! forgotten is done at the end, and one that is noted in vain is tried and refused.

use index_spaces::NoMemory;
use std::alloc::Global;
use std::sync::atomic::{AtomicU64, Ordering};

/// Lines that are to be tried again: those that were found busy, and those that were attempted before
/// a line that they wait for was issued, and stand on no handle.
#[derive(Drop)]
pub(crate) struct LaterLines {
    // Bit k of word w is line 64 w + k.
    words: Vec<AtomicU64>,
}

impl LaterLines {
    /// No line is noted. `NoMemory` comes where memory ran out.
    pub(crate) fn new(alloc: Global, lines: u32) -> Result<LaterLines, NoMemory> {
        let mut words = Vec::new(alloc);
        for _word in 0..lines.div_ceil(64) {
            if words.push(AtomicU64::new(0)).is_err() {
                return Err(NoMemory);
            }
        }
        Ok(LaterLines { words })
    }

    /// Notes a line.
    pub(crate) fn add(&self, line: u32) {
        if let Some(noted) = self.words.get((line / 64) as usize) {
            noted.fetch_or(1 << (line % 64), Ordering::SeqCst);
        }
    }

    /// Notes a line no more.
    pub(crate) fn remove(&self, line: u32) {
        if let Some(noted) = self.words.get((line / 64) as usize) {
            noted.fetch_and(!(1 << (line % 64)), Ordering::SeqCst);
        }
    }

    /// The lines of a word that are noted.
    pub(crate) fn noted(&self, word: u32) -> u64 {
        match self.words.get(word as usize) {
            Some(noted) => noted.load(Ordering::SeqCst),
            None => 0,
        }
    }
}
