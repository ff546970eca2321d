//! Whether all calls of a row end as it says.

use crate::calling::{Call, Outside, call_over, words_of};
use crate::differences::{End, ended_so, tell};
use crate::fault::Fault;
use crate::row::{Command, Each, Program, Row, Wanted};
use std::alloc::Global;
use std::sync::Wait;
use std::thread::Threads;

/// Room for an output of unknown length, and beyond one of a known length.
const ROOM: usize = 1_048_576;

const MORE: usize = 256;

/// The statuses of calls that could not read or write.
const READ_FAULT: u8 = 5;

const WRITE_FAULT: u8 = 6;

/// What stands in front of a trace.
const TRACE: &[u8] = b"realm-trace 1\n";

/// Each engine with each kind of hints that it has.
const ENGINES: [&str; 3] = [
    "--engine words --hints queue",
    "--engine words --hints homes",
    "--engine lock",
];

/// The command line whose report a run has.
const EVALUATION: Command<'static> = Command {
    program: Program::Realm,
    line: "realm eval",
    each_engine: false,
};

/// No call fails.
const SURE: Outside<'static> = Outside {
    piece: 65_536,
    failing_reads: &[],
    failing_writes: &[],
};

/// How many rows are as they should be, how many are not, and how many calls were compared.
#[derive(Drop)]
pub(crate) struct Tally {
    pub(crate) right: u32,
    pub(crate) wrong: u32,
    pub(crate) calls: u32,
}

/// The words that follow those of a command, in each of its calls.
fn endings(command: &Command) -> &'static [&'static str] {
    if command.each_engine { &ENGINES } else { &[""] }
}

/// Calls a program, and says how the call ended unless that is so; whether it is.
fn compare<R: Threads + Wait + Sync + AllocGlobal + Print>(
    rt: &R,
    tally: &mut Tally,
    row: &str,
    call: &Call,
    outside: &Outside,
    end: &End,
) -> Result<bool, Fault> {
    let room = match end.output {
        Some(output) => output.len().saturating_add(MORE),
        None => ROOM,
    };
    let answer = call_over(rt, call, outside, room)?;
    tally.calls = tally.calls.saturating_add(1);
    if ended_so(&answer, end) {
        return Ok(true);
    }
    tell(rt, row, call, end, &answer)?;
    Ok(false)
}

/// A length as a number of calls.
fn count_of(bytes: &[u8]) -> u32 {
    u32::try_from(bytes.len()).unwrap_or(u32::MAX)
}

/// Calls a program once for each of its reads, one byte each, which fails; whether each call says so.
fn each_read_fails<R: Threads + Wait + Sync + AllocGlobal + Print>(
    rt: &R,
    tally: &mut Tally,
    row: &str,
    call: &Call,
) -> Result<bool, Fault> {
    let end = End {
        status: READ_FAULT,
        output: Some(&[]),
    };
    for read in 0..=count_of(call.input) {
        let outside = Outside {
            piece: 1,
            failing_reads: &[read],
            failing_writes: &[],
        };
        if !compare(rt, tally, row, call, &outside, &end)? {
            return Ok(false);
        }
    }
    Ok(true)
}

/// Calls a program once for each of its writes, one byte each, and for its flush, which fails; whether each call says
/// so and wrote what stands before.
fn each_write_fails<R: Threads + Wait + Sync + AllocGlobal + Print>(
    rt: &R,
    tally: &mut Tally,
    row: &str,
    call: &Call,
    output: &[u8],
) -> Result<bool, Fault> {
    for write in 0..=count_of(output) {
        let end = End {
            status: WRITE_FAULT,
            output: output.get(..write as usize),
        };
        let outside = Outside {
            piece: 1,
            failing_reads: &[],
            failing_writes: &[write],
        };
        if !compare(rt, tally, row, call, &outside, &end)? {
            return Ok(false);
        }
    }
    Ok(true)
}

/// The place at which the last line of a text begins.
fn last_line(text: &[u8]) -> usize {
    let mut place = 0;
    for (at, byte) in text.iter().enumerate() {
        if *byte == b'\n' && at.saturating_add(1) < text.len() {
            place = at.saturating_add(1);
        }
    }
    place
}

/// Calls a program with each front of the input that ends within its last line; whether each call ends so.
fn each_cut<R: Threads + Wait + Sync + AllocGlobal + Print>(
    rt: &R,
    tally: &mut Tally,
    row: &str,
    call: &Call,
    end: &End,
) -> Result<bool, Fault> {
    for length in last_line(call.input)..call.input.len() {
        let cut = Call {
            program: call.program,
            words: call.words,
            input: call.input.get(..length).unwrap_or(call.input),
        };
        if !compare(rt, tally, row, &cut, &SURE, end)? {
            return Ok(false);
        }
    }
    Ok(true)
}

/// Calls a program with each of its reads or writes failing, where the row asks for that.
fn each_fails<R: Threads + Wait + Sync + AllocGlobal + Print>(
    rt: &R,
    tally: &mut Tally,
    row: &Row,
    call: &Call,
    output: Option<&[u8]>,
) -> Result<bool, Fault> {
    match (row.each, output) {
        (Each::Read, _) => each_read_fails(rt, tally, row.name, call),
        (Each::Write, Some(output)) => each_write_fails(rt, tally, row.name, call, output),
        (Each::Write, None) | (Each::Nothing | Each::Cut, _) => Ok(true),
    }
}

/// The trace with which an output ends.
fn trace_in(output: &[u8]) -> Option<&[u8]> {
    for place in 0..output.len() {
        let rest = output.get(place..)?;
        if rest.starts_with(TRACE) {
            return Some(rest);
        }
    }
    None
}

/// Whether `realm audit` calls a trace of the input's graph lawful.
fn is_lawful<R: Threads + Wait + Sync + AllocGlobal + Print>(
    rt: &R,
    tally: &mut Tally,
    row: &str,
    graph: &[u8],
    trace: &[u8],
) -> Result<bool, Fault> {
    let mut input = Vec::from_slice(rt.alloc(), graph)?;
    input.extend_from_slice(trace)?;
    let words = words_of(rt.alloc(), "realm audit", "")?;
    let audit = Call {
        program: Program::Realm,
        words: words.as_slice(),
        input: input.as_slice(),
    };
    let end = End {
        status: 0,
        output: Some(b"lawful\n"),
    };
    compare(rt, tally, row, &audit, &SURE, &end)
}

/// Calls a program; whether it writes the report of the evaluation, and behind it a lawful trace.
fn is_traced<R: Threads + Wait + Sync + AllocGlobal + Print>(
    rt: &R,
    tally: &mut Tally,
    row: &Row,
    call: &Call,
) -> Result<bool, Fault> {
    let answer = call_over(rt, call, &SURE, ROOM)?;
    tally.calls = tally.calls.saturating_add(1);
    let trace = trace_in(answer.sink.taken()).unwrap_or(&[]);
    let mut wanted = output_of(rt, &EVALUATION, call.input)?.output;
    wanted.extend_from_slice(trace)?;
    let end = End {
        status: row.status,
        output: Some(wanted.as_slice()),
    };
    if !ended_so(&answer, &end) {
        tell(rt, row.name, call, &end, &answer)?;
        return Ok(false);
    }
    is_lawful(rt, tally, row.name, call.input, trace)
}

/// Calls a program with these words in all ways that the row asks for; whether each call ends so.
fn try_words<R: Threads + Wait + Sync + AllocGlobal + Print>(
    rt: &R,
    tally: &mut Tally,
    row: &Row,
    call: &Call,
    output: Option<&[u8]>,
) -> Result<bool, Fault> {
    if let Wanted::Traced = row.output {
        return is_traced(rt, tally, row, call);
    }
    if !each_fails(rt, tally, row, call, output)? {
        return Ok(false);
    }
    let end = End {
        status: row.status,
        output,
    };
    if let Each::Cut = row.each {
        return each_cut(rt, tally, row.name, call, &end);
    }
    let outside = Outside {
        piece: row.piece,
        failing_reads: row.failing_reads.as_slice(),
        failing_writes: row.failing_writes.as_slice(),
    };
    compare(rt, tally, row.name, call, &outside, &end)
}

/// Calls the command lines of a row, up to the first that does not end as it says; whether all do.
fn try_commands<R: Threads + Wait + Sync + AllocGlobal + Print>(
    rt: &R,
    tally: &mut Tally,
    row: &Row,
    output: Option<&[u8]>,
) -> Result<bool, Fault> {
    for command in row.commands.iter() {
        for ending in endings(command) {
            let words = words_of(rt.alloc(), command.line, ending)?;
            let call = Call {
                program: command.program,
                words: words.as_slice(),
                input: row.input.as_slice(),
            };
            if !try_words(rt, tally, row, &call, output)? {
                return Ok(false);
            }
        }
    }
    Ok(true)
}

/// How a command line ends over an input, and what it writes.
#[derive(Drop)]
struct Written {
    status: u8,
    output: Vec<u8>,
}

/// What a command line writes over an input.
fn output_of<R: Threads + Wait + Sync + AllocGlobal>(
    rt: &R,
    command: &Command,
    input: &[u8],
) -> Result<Written, Fault> {
    let words = words_of(rt.alloc(), command.line, "")?;
    let call = Call {
        program: command.program,
        words: words.as_slice(),
        input,
    };
    let answer = call_over(rt, &call, &SURE, ROOM)?;
    Ok(Written {
        status: answer.status,
        output: Vec::from_slice(rt.alloc(), answer.sink.taken())?,
    })
}

/// The same, as often as the row says.
fn try_often<R: Threads + Wait + Sync + AllocGlobal + Print>(
    rt: &R,
    tally: &mut Tally,
    row: &Row,
    output: Option<&[u8]>,
) -> Result<bool, Fault> {
    for _time in 0..row.times {
        if !try_commands(rt, tally, row, output)? {
            return Ok(false);
        }
    }
    Ok(true)
}

/// Whether all calls of a row end as it says.
pub(crate) fn try_row<R: Threads + Wait + Sync + AllocGlobal + Print>(
    rt: &R,
    tally: &mut Tally,
    row: &Row,
) -> Result<bool, Fault> {
    match &row.output {
        Wanted::Bytes(bytes) => try_often(rt, tally, row, Some(bytes.as_slice())),
        Wanted::Any | Wanted::Traced => try_often(rt, tally, row, None),
        Wanted::Of(command) => {
            let other = output_of(rt, command, row.input.as_slice())?;
            let is_as_wanted = try_often(rt, tally, row, Some(other.output.as_slice()))?;
            Ok(is_as_wanted && other.status == row.status)
        }
    }
}
