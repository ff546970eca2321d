//! Why a command line is refused, in one line for whoever typed it. Clauses say that there is such a line, and
//! none speaks of what it says.

ghost use Rattle.std.specs.Prelude.{◌≡◌, IfOk, is_none, is_some};
ghost use Rattle.command_line.specs.Request.{request_of_words};

use crate::matched::{action_by_word, engine_by_word, given, hint_kind_by_word, three_by_word};
use crate::number::number;
use crate::request::{MAX_SIZE, MAX_SLOTS, MAX_WORKERS};
use crate::{WordsFault, command, read_words};
use clap::error::ErrorKind;
use clap::{ArgMatches, Error};
use std::alloc::{AllocError, Global};
use std::fmt;

/// What may stand as the value of an argument.
#[derive(Clone, Copy)]
enum Allowed {
    Action,
    Engine,
    Hints,
    Number { least: u64, most: u64 },
    Three,
}

impl Allowed {
    fn takes(&self, word: &str) -> bool {
        match self {
            Allowed::Action => action_by_word(word).is_some(),
            Allowed::Engine => engine_by_word(word).is_some(),
            Allowed::Hints => hint_kind_by_word(word).is_some(),
            Allowed::Number { least, most } => match number(word) {
                Some(number) => *least <= number && number <= *most,
                None => false,
            },
            Allowed::Three => three_by_word(word).is_some(),
        }
    }
}

impl fmt::Display for Allowed {
    fn fmt<W: fmt::Write>(&self, f: &mut fmt::Formatter<W>) -> fmt::Result {
        match self {
            Allowed::Action => f.write_str(
                "run, check, eval, make, upgrade, audit, timeline or session",
            ),
            Allowed::Engine => f.write_str("words or lock"),
            Allowed::Hints => f.write_str("queue or homes"),
            Allowed::Number { least, most } => write!(f, "{least} to {most}"),
            Allowed::Three => f.write_str("3"),
        }
    }
}

/// An argument with a value: its name in a match, how it is shown before its value, and what its values are.
#[derive(Clone, Copy)]
struct Argument {
    id: &'static str,
    shown: &'static str,
    allowed: Allowed,
}

const ARGUMENTS: [Argument; 8] = [
    Argument {
        id: "ACTION",
        shown: "",
        allowed: Allowed::Action,
    },
    Argument {
        id: "workers",
        shown: "--workers ",
        allowed: Allowed::Number {
            least: 0,
            most: MAX_WORKERS as u64,
        },
    },
    Argument {
        id: "slots",
        shown: "--slots ",
        allowed: Allowed::Number {
            least: 1,
            most: MAX_SLOTS as u64,
        },
    },
    Argument {
        id: "engine",
        shown: "--engine ",
        allowed: Allowed::Engine,
    },
    Argument {
        id: "hints",
        shown: "--hints ",
        allowed: Allowed::Hints,
    },
    Argument {
        id: "seed",
        shown: "--seed ",
        allowed: Allowed::Number {
            least: 0,
            most: u64::MAX,
        },
    },
    Argument {
        id: "size",
        shown: "--size ",
        allowed: Allowed::Number {
            least: 1,
            most: MAX_SIZE as u64,
        },
    },
    Argument {
        id: "to",
        shown: "--to ",
        allowed: Allowed::Three,
    },
];

/// What may stand on a command line.
const ALL_WORDS: &str =
    "an action with --workers, --slots, --engine, --hints, --seed, --size, --trace, --text, --to, --columns";

/// Which word of a command line is refused, and what may stand there, as `--workers 9: 0 to 8`. None exactly
/// where the words ask for something.
pub fn refusal(alloc: Global, words: &[String]) -> Result<Option<String>, AllocError>
    ensures { IfOk result (λ said. is_some said ≡ is_none (request_of_words words.now)) }
{
    match read_words(alloc, words) {
        Ok(_) => Ok(None),
        Err(WordsFault::NoMemory) => Err(AllocError),
        Err(WordsFault::Usage) => Ok(Some(refused(alloc, words)?)),
    }
}

/// What is said of words that ask for nothing.
fn refused(alloc: Global, words: &[String]) -> Result<String, AllocError> {
    match command(alloc)?.try_get_matches_from(words) {
        Ok(matches) => refused_value(alloc, &matches),
        Err(error) => refused_word(alloc, &error),
    }
}

/// The front of a text, up to the end of its first line.
fn first_line(text: &str) -> &str {
    text.split('\n').next().unwrap_or("")
}

/// The first value that is none of its argument's.
fn refused_value(alloc: Global, matches: &ArgMatches) -> Result<String, AllocError> {
    for argument in ARGUMENTS {
        if let Some(word) = given(matches, argument.id) {
            if !argument.allowed.takes(word) {
                let word = first_line(word);
                return format!(in alloc; "{}{word}: {}", argument.shown, argument.allowed);
            }
        }
    }
    format!(in alloc; "{ALL_WORDS}")
}

/// What `clap` says of a word that it refuses, and what may stand there.
fn refused_word(alloc: Global, error: &Error) -> Result<String, AllocError> {
    if error.kind() == ErrorKind::MissingRequiredArgument {
        return format!(in alloc; "no action: {}", Allowed::Action);
    }
    let text = format!(in alloc; "{error}")?;
    let line = first_line(text.as_str());
    let said = line.strip_prefix("error: ").unwrap_or(line);
    for argument in ARGUMENTS {
        if !argument.shown.is_empty() && said.contains(argument.shown) {
            return format!(in alloc; "{said}: {}", argument.allowed);
        }
    }
    format!(in alloc; "{said}: {ALL_WORDS}")
}
