//! The program `realm`: it reads a graph from the standard input and writes what is asked for to the standard output.
#![tactic(auto)]

ghost use Rattle.std.specs.Prelude.{◌≡◌, is_some};
ghost use Rattle.realm_main.specs.Message.{has_message};

use command_line::refusal;
use realm_io::{OpenGate, Sink, StdSink, StdSource};
use realm_top::realm;
use realm_top::status::Status;
use std::env::{self, Env};
use std::io::{self, BufWriter};
use std::process::ExitCode;
use std::sync::Wait;
use std::thread::Threads;

/// The line for the standard error, where the standard output has no text for this status. For a command line whose
/// words could be read there is a better one.
fn message(status: Status) -> Option<&'static str>
    ensures { is_some result ≡ has_message status }
{
    match status {
        Status::Usage => Some(
            "usage: realm run|check|eval|make|upgrade|audit|timeline|session [OPTIONS] < INPUT",
        ),
        Status::ReadFault => Some("realm: the standard input can't be read"),
        Status::WriteFault => Some("realm: the standard output can't be written"),
        Status::NoMemory => Some("realm: out of memory"),
        _ => None,
    }
}

/// The program's name and its words, or the status where they can't be had: a word that is not UTF-8 is a usage fault.
fn words<R: Env + AllocGlobal>(rt: &R) -> Result<Vec<String>, Status> {
    let args = match env::args(rt) {
        Ok(args) => args,
        Err(error) if error.kind() == io::ErrorKind::OutOfMemory => return Err(Status::NoMemory),
        Err(_) => return Err(Status::Usage),
    };
    let mut words = Vec::new(rt.alloc());
    for word in args {
        if words.push(word).is_err() {
            return Err(Status::NoMemory);
        }
    }
    Ok(words)
}

/// How many bytes are gathered before they are written on.
const GATHERED: usize = 65_536;

/// Does what the words ask for over the standard streams.
fn run<R: AllocGlobal + Input + Print + Threads + Wait + Sync>(rt: &R, words: &[String]) -> Status {
    match BufWriter::with_capacity(rt.alloc(), GATHERED, io::writer(rt)) {
        Ok(writer) => run_into(rt, words, StdSink::new(writer)),
        Err(_) => Status::NoMemory,
    }
}

/// Does what the words ask for over the standard input and this sink.
fn run_into<R: AllocGlobal + Input + Threads + Wait + Sync, K: Sink + Drop>(
    rt: &R,
    words: &[String],
    mut sink: K,
) -> Status {
    let mut source = StdSource::new(rt.reader());
    realm(rt, rt.alloc(), words, &mut source, &mut sink, &OpenGate)
}

/// Says on the standard error which word is refused; whether that could be said.
fn says_word<R: Eprint + AllocGlobal>(rt: &R, words: &[String]) -> bool {
    match refusal(rt.alloc(), words) {
        Ok(Some(line)) => rt.eprintln(format_args!("realm: {line}")).is_ok(),
        _ => false,
    }
}

/// Says on the standard error what the standard output does not.
fn say<R: Eprint>(rt: &R, status: Status) {
    if let Some(line) = message(status) {
        let _ = rt.eprintln(line);
    }
}

fn main(rt: HostRuntime) -> ExitCode {
    let status = match words(&rt) {
        Ok(words) => {
            let status = run(&rt, words.as_slice());
            if status != Status::Usage || !says_word(&rt, words.as_slice()) {
                say(&rt, status);
            }
            status
        }
        Err(status) => {
            say(&rt, status);
            status
        }
    };
    ExitCode::from(status.number())
}
