//! A program that runs rows: it reads them from the standard input, calls the programs of this repository over sources
//! and sinks in memory, and prints where a call ends otherwise than its row says, and in the end how many rows there are.
#![tactic(auto)]

mod calling;
mod differences;
mod fault;
mod judging;
mod lines;
mod reading;
mod row;
mod texts;

use fault::Fault;
use judging::{Tally, try_row};
use lines::{FileLine, body_of, lines_of};
use reading::{read_row, read_text};
use realm_io::{StdSource, read_all};
use std::process::ExitCode;
use std::str;
use std::sync::Wait;
use std::thread::Threads;
use texts::Texts;

/// The most bytes of a row file.
const MAX_INPUT: u32 = 4_194_304;

/// The exit status where the rows can't be run to their end.
const BROKEN: u8 = 2;

/// Runs a row.
fn run_row<R: Threads + Wait + Sync + AllocGlobal + Print>(
    rt: &R,
    tally: &mut Tally,
    texts: &Texts,
    head: &FileLine,
    body: &[FileLine],
) -> Result<(), Fault> {
    let row = read_row(rt.alloc(), texts, head, body)?;
    if try_row(rt, tally, &row)? {
        tally.right = tally.right.saturating_add(1);
    } else {
        tally.wrong = tally.wrong.saturating_add(1);
    }
    Ok(())
}

/// Runs the rows of a file.
fn run_rows<R: Threads + Wait + Sync + AllocGlobal + Print>(
    rt: &R,
    file: &str,
) -> Result<Tally, Fault> {
    let lines = lines_of(rt.alloc(), file)?;
    let mut texts = Texts::new(rt.alloc());
    let mut tally = Tally {
        right: 0,
        wrong: 0,
        calls: 0,
    };
    for (place, line) in lines.iter().enumerate() {
        let below = lines
            .as_slice()
            .get(place.saturating_add(1)..)
            .unwrap_or(&[]);
        if let Some(name) = line.text.strip_prefix("text ") {
            let bytes = read_text(rt.alloc(), &texts, body_of(below))?;
            texts.add(name, bytes)?;
        } else if line.text.starts_with("row ") {
            run_row(rt, &mut tally, &texts, line, body_of(below))?;
        } else if place == 0 {
            return Err(Fault::Line(line.number, "neither a row nor a text begins here"));
        }
    }
    Ok(tally)
}

/// Runs the rows of the standard input.
fn run<R: Threads + Wait + Sync + AllocGlobal + Input + Print>(rt: &R) -> Result<Tally, Fault> {
    let mut source = StdSource::new(rt.reader());
    let Ok(bytes) = read_all(rt.alloc(), &mut source, MAX_INPUT) else {
        return Err(Fault::Input);
    };
    let Ok(file) = str::from_utf8(bytes.as_slice()) else {
        return Err(Fault::Input);
    };
    let tally = run_rows(rt, file)?;
    let (right, wrong, calls) = (tally.right, tally.wrong, tally.calls);
    println!(rt; "rows: {right} as they should be, by {calls} calls, {wrong} not")?;
    Ok(tally)
}

fn main(rt: HostRuntime) -> ExitCode {
    match run(&rt) {
        Ok(tally) if tally.wrong == 0 => ExitCode::SUCCESS,
        Ok(_) => ExitCode::FAILURE,
        Err(fault) => {
            let _ = match fault {
                Fault::Line(number, why) => println!(rt; "line {number}: {why}"),
                Fault::Input => println!(rt; "the rows can't be read"),
                Fault::Io(error) => println!(rt; "{error:?}"),
            };
            ExitCode::from(BROKEN)
        }
    }
}
