//! The words of the command line, and what they ask for.
#![tactic(auto)]

mod matched;
mod number;
mod refused;
pub mod request;

ghost use Rattle.std.specs.Prelude.{◌≡◌, ◌≤◌, ◌⊎◌, List, None, false, MatchResult, IfOk, IfSome};
ghost use Rattle.clap.specs.Words.{app_of, rule_of, kind_of};
ghost use Rattle.command_line.specs.Request.{realm_command, option_rule, flag_rule, request_of_words, Asks};
ghost use Rattle.command_line.specs.Faults.{fault_by_kind};
ghost use Rattle.command_line.specs.declared.WordsFault.{WordsFault};

use crate::matched::request_in;
use crate::request::{MAX_SIZE, MAX_SLOTS, MAX_WORKERS, Request};
use clap::error::ErrorKind;
use clap::{Arg, ArgAction, Command, Error};
pub use refused::refusal;
use std::alloc::{AllocError, Global};

/// Why words ask for nothing.
#[derive(Clone, Copy, Debug, PartialEq, Eq)]
pub enum WordsFault {
    /// They are no command line of the program.
    Usage,
    /// Memory was refused.
    NoMemory,
}

/// What the words ask for. `words[0]` is the program's name.
pub fn read_words<'a>(alloc: Global, words: &'a [String]) -> Result<Request, WordsFault>
    ensures request { MatchResult result (λ request. Asks words.now request)
        (λ fault. (fault ≡ WordsFault.NoMemory) ⊎ (request_of_words words.now ≡ None)) }
    ensures size { IfOk result (λ request. (1 ≤ request.size) × (request.size ≤ MAX_SIZE)) }
    ensures workers { IfOk result (λ request. request.workers ≤ MAX_WORKERS) }
    ensures slots { IfOk result (λ request. IfSome request.slots (λ n. (1 ≤ n) × (n ≤ MAX_SLOTS))) }
{
    let Ok(command) = command(alloc) else {
        return Err(WordsFault::NoMemory);
    };
    match command.try_get_matches_from(words) {
        Ok(matches) => request_in(&matches).ok_or(WordsFault::Usage),
        Err(error) => Err(fault_of(&error)),
    }
}

/// What kept a command line from being matched.
fn fault_of(error: &Error) -> WordsFault
    ensures { result ≡ fault_by_kind (kind_of error.now) }
{
    match error.kind() {
        ErrorKind::OutOfMemory => WordsFault::NoMemory,
        _ => WordsFault::Usage,
    }
}

/// The command: an action, seven options with a value each, and three flags.
fn command<'a>(alloc: Global) -> Result<Command<'a>, AllocError>
    ensures { IfOk result (λ c. app_of c ≡ realm_command) }
{
    let action = Arg::new(alloc, "ACTION").required(true);
    Command::new(alloc, "realm")
        .disable_help_flag(true)
        .disable_version_flag(true)
        .arg(action)?
        .arg(option(alloc, "workers"))?
        .arg(option(alloc, "slots"))?
        .arg(option(alloc, "engine"))?
        .arg(option(alloc, "hints"))?
        .arg(option(alloc, "seed"))?
        .arg(option(alloc, "size"))?
        .arg(flag(alloc, "trace"))?
        .arg(flag(alloc, "text"))?
        .arg(option(alloc, "to"))?
        .arg(flag(alloc, "columns"))
}

/// An option with one value.
fn option<'a>(alloc: Global, name: &'a str) -> Arg<'a>
    ensures rule { rule_of result ≡ option_rule name.entry.now }
    ensures local { result.global ≡ false }
{
    Arg::new(alloc, name).long(name)
}

/// A flag.
fn flag<'a>(alloc: Global, name: &'a str) -> Arg<'a>
    ensures rule { rule_of result ≡ flag_rule name.entry.now }
    ensures local { result.global ≡ false }
{
    Arg::new(alloc, name).long(name).action(ArgAction::SetTrue)
}
