//! A program that uses generational events by themselves: in a table of one thread, and in one that
//! two threads share. In each, one slot serves twice.
#![tactic(auto)]

mod failure;
mod one_thread;
mod two_threads;

use event_table::{Answer, EventTable, Handle};
use failure::Failure;
use one_thread::serve_twice;
use shared_events::Events;
use std::io;
use std::process::ExitCode;
use std::thread::Threads;
use two_threads::serve_beside_look;

/// The last generation of each slot.
const LAST_GEN: u32 = 9;

/// Prints what a handle answers.
fn print_answer<R: Print>(rt: &R, handle: Handle, answer: Answer) -> io::Result<()> {
    let Handle { slot, gen_ } = handle;
    println!(rt; "slot {slot} generation {gen_}: {answer:?}")
}

/// What a table of one thread gives.
fn run_one_thread<R: Print + AllocGlobal>(rt: &R) -> Result<(), Failure> {
    let mut table = EventTable::new(rt.alloc(), 1, 1, LAST_GEN)?;
    let served = serve_twice(&mut table, 0).ok_or(Failure::Full)?;
    println!(rt; "one thread")?;
    print_answer(rt, served.first, served.before)?;
    println!(rt; "caught: {:?}", served.caught)?;
    print_answer(rt, served.first, served.old)?;
    print_answer(rt, served.second, served.new)?;
    Ok(())
}

/// What a table gives that two threads share.
fn run_two_threads<R: Print + AllocGlobal + Threads + Sync>(rt: &R) -> Result<(), Failure> {
    let (events, maker, seat, _waiters) = Events::new(rt.alloc(), 1, 0, LAST_GEN)?;
    let (answer, answers) = serve_beside_look(rt, &events, maker, seat).ok_or(Failure::Full)?;
    println!(rt; "two threads")?;
    println!(rt; "meanwhile: {answer:?}")?;
    for (handle, answer) in answers {
        print_answer(rt, handle, answer)?;
    }
    Ok(())
}

/// Runs both.
fn run<R: Print + AllocGlobal + Threads + Sync>(rt: &R) -> Result<(), Failure> {
    run_one_thread(rt)?;
    run_two_threads(rt)
}

fn main(rt: HostRuntime) -> ExitCode {
    match run(&rt) {
        Ok(()) => ExitCode::SUCCESS,
        Err(failure) => {
            let _ = eprintln!(rt; "embedded_events: {failure:?}");
            ExitCode::FAILURE
        }
    }
}
