//! How a call ended otherwise than it should.

use crate::calling::{Answer, Call};
use crate::fault::Fault;
use std::alloc::{AllocError, Global};

/// The status of a call that could not write.
const WRITE_FAULT: u8 = 6;

/// How a call has to end: its status, and its output, unless that is not compared.
#[derive(Drop)]
pub(crate) struct End<'a> {
    pub(crate) status: u8,
    pub(crate) output: Option<&'a [u8]>,
}

/// Whether a call ended so. What it wrote is flushed, or nothing of it where writing failed.
pub(crate) fn ended_so(answer: &Answer, end: &End) -> bool {
    let taken = answer.sink.taken();
    let flushed = match answer.status {
        WRITE_FAULT => 0,
        _ => taken.len(),
    };
    let is_output = match end.output {
        Some(output) => taken == output,
        None => true,
    };
    answer.status == end.status && is_output && answer.sink.flushed() == flushed
}

/// A line of two texts in which they differ, with its number from 1.
#[derive(Drop)]
struct Difference<'a> {
    number: u32,
    wanted: &'a [u8],
    got: &'a [u8],
}

/// The first line in which two texts differ.
fn first_difference<'a>(wanted: &'a [u8], got: &'a [u8]) -> Option<Difference<'a>> {
    let mut number: u32 = 0;
    let pairs = wanted
        .split(|byte| *byte == b'\n')
        .zip(got.split(|byte| *byte == b'\n'));
    for (wanted, got) in pairs {
        number = number.saturating_add(1);
        if wanted != got {
            return Some(Difference {
                number,
                wanted,
                got,
            });
        }
    }
    None
}

/// How many bytes of a line are shown at most.
const SHOWN: usize = 200;

/// A line as it is shown.
fn shown(alloc: Global, line: &[u8]) -> Result<String, AllocError> {
    String::from_utf8_lossy(alloc, line.get(..SHOWN).unwrap_or(line))
}

/// Says how the output differs.
fn tell_output<R: Print + AllocGlobal>(rt: &R, wanted: &[u8], got: &[u8]) -> Result<(), Fault> {
    let Some(difference) = first_difference(wanted, got) else {
        println!(rt;
            "  its output has {} bytes, not {}",
            got.len(),
            wanted.len()
        )?;
        return Ok(());
    };
    let number = difference.number;
    let wanted = shown(rt.alloc(), difference.wanted)?;
    let got = shown(rt.alloc(), difference.got)?;
    println!(rt; "  line {number} of its output is \"{got}\", not \"{wanted}\"")?;
    Ok(())
}

/// Says how a call of a row ended, which is not so.
pub(crate) fn tell<R: Print + AllocGlobal>(
    rt: &R,
    row: &str,
    call: &Call,
    end: &End,
    answer: &Answer,
) -> Result<(), Fault> {
    println!(rt; "{row}: {:?}", call.words)?;
    if answer.status != end.status {
        println!(rt; "  its status is {}, not {}", answer.status, end.status)?;
    }
    if let Some(output) = end.output {
        if answer.sink.taken() != output {
            tell_output(rt, output, answer.sink.taken())?;
        }
    }
    println!(rt;
        "  of its output {} bytes were flushed",
        answer.sink.flushed()
    )?;
    Ok(())
}
