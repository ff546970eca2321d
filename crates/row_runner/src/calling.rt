//! A call of a program over a source and a sink in memory.

use crate::row::Program;
use explain_top::run;
use flow_top::serve_flow;
use realm_io::{MemorySink, MemorySource, OpenGate};
use realm_top::realm;
use std::alloc::{AllocError, Global};
use std::sync::Wait;
use std::thread::Threads;

/// How many bytes a read and a write handle at most, and which calls of the source and of the sink fail, by their
/// numbers from 0.
#[derive(Drop)]
pub(crate) struct Outside<'a> {
    pub(crate) piece: usize,
    pub(crate) failing_reads: &'a [u32],
    pub(crate) failing_writes: &'a [u32],
}

/// A program with its words, and what it reads.
#[derive(Drop)]
pub(crate) struct Call<'a> {
    pub(crate) program: Program,
    pub(crate) words: &'a [String],
    pub(crate) input: &'a [u8],
}

/// How a call ended.
#[derive(Drop)]
pub(crate) struct Answer {
    pub(crate) status: u8,
    pub(crate) sink: MemorySink,
}

/// The words of a command line, and more words behind them.
pub(crate) fn words_of(alloc: Global, line: &str, more: &str) -> Result<Vec<String>, AllocError> {
    let mut words = Vec::new(alloc);
    for word in line.split_ascii_whitespace() {
        words.push(String::from_str(alloc, word)?)?;
    }
    for word in more.split_ascii_whitespace() {
        words.push(String::from_str(alloc, word)?)?;
    }
    Ok(words)
}

/// Calls the program, with so much room for its output.
pub(crate) fn call_over<R: Threads + Wait + Sync + AllocGlobal>(
    rt: &R,
    call: &Call,
    outside: &Outside,
    room: usize,
) -> Result<Answer, AllocError> {
    let alloc = rt.alloc();
    let piece = outside.piece.max(1);
    let bytes = Vec::from_slice(alloc, call.input)?;
    let reads = Vec::from_slice(alloc, outside.failing_reads)?;
    let writes = Vec::from_slice(alloc, outside.failing_writes)?;
    let mut source = MemorySource::new(bytes, piece, reads);
    let mut sink = MemorySink::new(vec![in alloc; 0u8; room]?, piece, writes);
    let status = match call.program {
        Program::Realm => realm(rt, alloc, call.words, &mut source, &mut sink, &OpenGate).number(),
        Program::Explain { ends, all } => {
            run(alloc, &mut source, &mut sink, ends, all).number()
        },
        Program::Flow { commute, format } => {
            serve_flow(alloc, &mut source, &mut sink, commute, format).number()
        }
    };
    Ok(Answer { status, sink })
}
