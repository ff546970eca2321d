//! A program that embeds a run: it builds a graph item by item, has it checked, has two workers run it by way
//! of a gate of its own, and reads the outcome.
#![tactic(auto)]

mod building;
mod counting_gate;
mod failure;
mod reading;
mod running;

use counting_gate::CountingGate;
use failure::Failure;
use reading::read_sums;
use std::process::ExitCode;
use std::sync::Wait;
use std::thread::Threads;

/// Runs the graph, and prints what is read of its outcome.
fn run<R: Print + Eprint + AllocGlobal + Threads + Wait + Sync>(rt: &R) -> Result<(), Failure> {
    let gate = CountingGate::new();
    let read = read_sums(rt, rt.alloc(), &gate)?;
    println!(rt; "sum: {:?}", read.end)?;
    println!(rt; "a.y 3: {}", read.cell)?;
    eprintln!(rt; "lines that passed the gate: {}", gate.passed())?;
    Ok(())
}

fn main(rt: HostRuntime) -> ExitCode {
    match run(&rt) {
        Ok(()) => ExitCode::SUCCESS,
        Err(failure) => {
            let _ = eprintln!(rt; "embedded_run: {failure:?}");
            ExitCode::FAILURE
        }
    }
}
