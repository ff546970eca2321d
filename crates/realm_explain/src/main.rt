//! The program `realm-explain`: it reads a graph from the standard input and writes to the standard output what the
//! checker says of it, and why it is so.
#![tactic(auto)]

ghost use Rattle.std.specs.Prelude.{◌≡◌, is_some};
ghost use Rattle.realm_explain.specs.Message.{has_message};

use explain_top::{Status, run};
use realm_io::{StdSink, StdSource};
use std::env::{self, Env};
use std::io::{self, BufWriter};
use std::process::ExitCode;

/// The line for the standard error, where the standard output has no text for this status.
fn message(status: Status) -> Option<&'static str>
    ensures { is_some result ≡ has_message status }
{
    match status {
        Status::Usage => Some("usage: realm-explain [--ends] [--all] < GRAPH"),
        Status::ReadFault => Some("realm-explain: the standard input can't be read"),
        Status::WriteFault => Some("realm-explain: the standard output can't be written"),
        Status::NoMemory => Some("realm-explain: out of memory"),
        _ => None,
    }
}

/// What is asked for.
#[derive(Clone, Copy)]
struct Asked {
    /// Why lines are cancelled.
    ends: bool,
    /// Long paths and lists whole.
    all: bool,
}

/// What is asked for, or the status where the words are not those of the program.
fn read_words<R: Env + AllocGlobal>(rt: &R) -> Result<Asked, Status> {
    let args = match env::args(rt) {
        Ok(args) => args,
        Err(error) if error.kind() == io::ErrorKind::OutOfMemory => return Err(Status::NoMemory),
        Err(_) => return Err(Status::Usage),
    };
    let mut asked = Asked {
        ends: false,
        all: false,
    };
    for (i, word) in args.enumerate() {
        match (i, word.as_str()) {
            (0, _) => {}
            (1 | 2, "--ends") if !asked.ends => asked.ends = true,
            (1 | 2, "--all") if !asked.all => asked.all = true,
            _ => return Err(Status::Usage),
        }
    }
    Ok(asked)
}

/// How many bytes are gathered before they are written on.
const GATHERED: usize = 65_536;

/// Explains the standard input on the standard output.
fn explain<R: AllocGlobal + Input + Print>(rt: &R, asked: Asked) -> Status {
    let Ok(writer) = BufWriter::with_capacity(rt.alloc(), GATHERED, io::writer(rt)) else {
        return Status::NoMemory;
    };
    let mut source = StdSource::new(rt.reader());
    let mut sink = StdSink::new(writer);
    run(rt.alloc(), &mut source, &mut sink, asked.ends, asked.all)
}

fn main(rt: HostRuntime) -> ExitCode {
    let status = match read_words(&rt) {
        Ok(asked) => explain(&rt, asked),
        Err(status) => status,
    };
    if let Some(line) = message(status) {
        let _ = rt.eprintln(line);
    }
    ExitCode::from(status.number())
}
