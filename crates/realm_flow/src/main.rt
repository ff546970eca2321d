//! The program `realm-flow`: it reads a flow from the standard input and writes its graph to the standard output.
#![tactic(auto)]

ghost use Rattle.std.specs.Prelude.{◌≡◌, is_some};
ghost use Rattle.realm_flow.specs.Message.{has_message};

use flow_top::serve_flow;
use flow_top::status::FlowStatus;
use graph_terms::format::Format;
use realm_io::{StdSink, StdSource};
use std::env::{self, Env};
use std::io::{self, BufWriter};
use std::process::ExitCode;

/// How many bytes are gathered before they are written on.
const GATHERED: usize = 65_536;

/// The exit status for words that the program doesn't take.
const USAGE: u8 = 2;

/// The line for the standard error, where the standard output has no text for this status, or one that a pipe hides.
fn message(status: FlowStatus) -> Option<&'static str>
    ensures { is_some result ≡ has_message status }
{
    match status {
        FlowStatus::ReadFault => Some("realm-flow: the standard input can't be read"),
        FlowStatus::WriteFault => Some("realm-flow: the standard output can't be written"),
        FlowStatus::NoMemory => Some("realm-flow: out of memory"),
        FlowStatus::TooLong => Some("realm-flow: the input is too long"),
        FlowStatus::Done | FlowStatus::Unread { .. } => None,
    }
}

/// How the program ends where its words are not read.
#[derive(Clone, Copy)]
enum WordsFault {
    /// They are not those of the program.
    Usage,
    NoMemory,
}

/// What the words so far ask for.
#[derive(Clone, Copy)]
struct Asked {
    /// Whether sums commute.
    commute: bool,
    /// Whether the graph is of format 3, and otherwise of format 1.
    three: bool,
    /// Whether the last word was `--format`, so that its number comes next.
    number: bool,
}

impl Asked {
    /// What the words so far and the next one ask for. `None` where the program takes no such word there.
    fn and(self, word: &str) -> Option<Asked> {
        let Asked {
            commute,
            three,
            number,
        } = self;
        match (number, word) {
            (true, "3") => Some(Asked {
                commute,
                three: true,
                number: false,
            }),
            (false, "--commute") if !commute => Some(Asked {
                commute: true,
                three,
                number,
            }),
            (false, "--format") if !three => Some(Asked {
                commute,
                three,
                number: true,
            }),
            _ => None,
        }
    }

    /// The format of the graph.
    fn format(self) -> Format {
        if self.three {
            Format::Three
        } else {
            Format::One
        }
    }
}

/// What the words of the command line ask for.
fn asked_by_words<R: Env + AllocGlobal>(rt: &R) -> Result<Asked, WordsFault> {
    let args = match env::args(rt) {
        Ok(args) => args,
        Err(error) if error.kind() == io::ErrorKind::OutOfMemory => {
            return Err(WordsFault::NoMemory);
        }
        Err(_) => return Err(WordsFault::Usage),
    };
    let mut asked = Asked {
        commute: false,
        three: false,
        number: false,
    };
    for (i, word) in args.enumerate() {
        if i == 0 {
            continue;
        }
        match asked.and(word.as_str()) {
            Some(more) => asked = more,
            None => return Err(WordsFault::Usage),
        }
    }
    if asked.number {
        return Err(WordsFault::Usage);
    }
    Ok(asked)
}

/// Reads a flow and writes its graph, over the standard streams.
fn run<R: AllocGlobal + Input + Print>(rt: &R, asked: Asked) -> FlowStatus {
    let Ok(writer) = BufWriter::with_capacity(rt.alloc(), GATHERED, io::writer(rt)) else {
        return FlowStatus::NoMemory;
    };
    let mut source = StdSource::new(rt.reader());
    let mut sink = StdSink::new(writer);
    serve_flow(
        rt.alloc(),
        &mut source,
        &mut sink,
        asked.commute,
        asked.format(),
    )
}

/// Says on the standard error what the standard output does not, and of a refused flow what it says too: behind a pipe it is not seen.
fn say<R: Eprint>(rt: &R, status: FlowStatus) {
    if let FlowStatus::Unread { number, why } = status {
        let word = why.word();
        let _ = rt.eprintln(format_args!(
            "realm-flow: refused line {number} {word}; realm-explain tells why"
        ));
    }
    if let Some(line) = message(status) {
        let _ = rt.eprintln(line);
    }
}

fn main(rt: HostRuntime) -> ExitCode {
    let status = match asked_by_words(&rt) {
        Ok(asked) => run(&rt, asked),
        Err(WordsFault::NoMemory) => FlowStatus::NoMemory,
        Err(WordsFault::Usage) => {
            let _ = rt.eprintln("usage: realm-flow [--commute] [--format 3] < FLOW");
            return ExitCode::from(USAGE);
        }
    };
    say(&rt, status);
    ExitCode::from(status.number())
}
