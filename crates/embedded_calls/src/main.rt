//! A program that embeds a run whose calls have bodies of its own: it builds a graph of three calls
//! item by item, has it checked, runs it twice on its own two accounts, and reads what that left.
#![tactic(auto)]

mod accounts;
mod building;
mod failure;
mod running;

use failure::Failure;
use running::{Reading, run_twice};
use std::process::ExitCode;

/// Runs the graph, and prints what is read of the accounts.
fn run<R: Print + AllocGlobal>(rt: &R) -> Result<(), Failure> {
    let (first, second) = run_twice(rt.alloc())?;
    print(rt, "first", first)?;
    print(rt, "second", second)
}

/// Prints what is read after a run.
fn print<R: Print>(rt: &R, name: &str, read: Reading) -> Result<(), Failure> {
    println!(rt;
        "{name} run: {:?} {:?} {:?}, x {}, y {}",
        read.halve, read.carry, read.double, read.accounts.x, read.accounts.y
    )?;
    Ok(())
}

fn main(rt: HostRuntime) -> ExitCode {
    match run(&rt) {
        Ok(()) => ExitCode::SUCCESS,
        Err(failure) => {
            let _ = eprintln!(rt; "embedded_calls: {failure:?}");
            ExitCode::FAILURE
        }
    }
}
