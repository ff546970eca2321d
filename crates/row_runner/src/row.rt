//! What a row says.

use graph_terms::format::Format;
use std::alloc::Global;

/// The program that a command calls, with what its words ask for.
#[derive(Clone, Copy, Drop)]
pub(crate) enum Program {
    Realm,
    Explain { ends: bool, all: bool },
    Flow { commute: bool, format: Format },
}

/// A command line.
#[derive(Drop)]
pub(crate) struct Command<'f> {
    pub(crate) program: Program,
    /// All its words.
    pub(crate) line: &'f str,
    /// Whether it is called with each engine and each kind of hints.
    pub(crate) each_engine: bool,
}

/// What is wanted of the output.
#[derive(Drop)]
pub(crate) enum Wanted<'f> {
    Bytes(Vec<u8>),
    Any,
    /// What another command line writes over the same input.
    Of(Command<'f>),
    /// Anything that ends in a trace of the input's graph which `realm audit` calls lawful.
    Traced,
}

/// What a row tries one after the other, each in a call of the program of its own.
#[derive(Clone, Copy, Drop)]
pub(crate) enum Each {
    Nothing,
    /// Each read fails.
    Read,
    /// Each write fails, and the flush.
    Write,
    /// The input ends before each byte of its last line, instead of behind it.
    Cut,
}

/// Command lines that all end so over one input.
#[derive(Drop)]
pub(crate) struct Row<'f> {
    pub(crate) name: &'f str,
    pub(crate) commands: Vec<Command<'f>>,
    pub(crate) input: Vec<u8>,
    pub(crate) status: u8,
    pub(crate) output: Wanted<'f>,
    /// How many bytes a read and a write handle at most.
    pub(crate) piece: usize,
    /// The numbers of the reads that fail, and of the writes and flushes.
    pub(crate) failing_reads: Vec<u32>,
    pub(crate) failing_writes: Vec<u32>,
    pub(crate) each: Each,
    /// How often each command line is called.
    pub(crate) times: u32,
}

impl<'f> Row<'f> {
    /// A row of this name without commands, whose input and output are empty.
    pub(crate) fn new(alloc: Global, name: &'f str) -> Row<'f> {
        Row {
            name,
            commands: Vec::new(alloc),
            input: Vec::new(alloc),
            status: 0,
            output: Wanted::Bytes(Vec::new(alloc)),
            piece: 65_536,
            failing_reads: Vec::new(alloc),
            failing_writes: Vec::new(alloc),
            each: Each::Nothing,
            times: 1,
        }
    }

    /// Whether nothing was said of the output.
    pub(crate) fn has_no_output(&self) -> bool {
        match &self.output {
            Wanted::Bytes(bytes) => bytes.is_empty(),
            _ => false,
        }
    }

    /// Whether all that the row says is tried: failing calls want an output that is compared.
    pub(crate) fn is_tried(&self) -> bool {
        match (&self.output, self.each) {
            (Wanted::Any, Each::Write) => false,
            (Wanted::Traced, Each::Nothing) => {
                self.failing_reads.is_empty() && self.failing_writes.is_empty()
            }
            (Wanted::Traced, _) => false,
            _ => true,
        }
    }
}
