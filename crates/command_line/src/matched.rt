//! What the matches of a command line ask for.

ghost use Rattle.std.specs.Prelude.{◌≡◌, ◌≤◌, IfSome, false, List, Option, Some, None, option_map, option_and_then, codes};
ghost use Rattle.clap.specs.Words.{Text, first_of, rows_of, found_of};
ghost use Rattle.command_line.specs.Number.{number_of, number_between};
ghost use Rattle.command_line.specs.Request.{action_by_word, engine_by_word, hint_kind_by_word, three_by_word, value_or, is_set, request_in};

use crate::number::{number, number_between};
use crate::request::{Action, Engine, HintKind, MAX_SIZE, MAX_SLOTS, MAX_WORKERS, Request};
use clap::ArgMatches;

/// The action that a word names.
pub(crate) fn action_by_word(word: &str) -> Option<Action>
    ensures { result ≡ action_by_word word.now }
{
    match word {
        "run" => Some(Action::Run),
        "check" => Some(Action::Check),
        "eval" => Some(Action::Eval),
        "make" => Some(Action::Make),
        "audit" => Some(Action::Audit),
        "timeline" => Some(Action::Timeline),
        "upgrade" => Some(Action::Upgrade),
        "session" => Some(Action::Session),
        _ => None,
    }
}

/// The engine that a word names.
pub(crate) fn engine_by_word(word: &str) -> Option<Engine>
    ensures { result ≡ engine_by_word word.now }
{
    match word {
        "words" => Some(Engine::Words),
        "lock" => Some(Engine::Lock),
        _ => None,
    }
}

/// The kind of hints that a word names.
pub(crate) fn hint_kind_by_word(word: &str) -> Option<HintKind>
    ensures { result ≡ hint_kind_by_word word.now }
{
    match word {
        "queue" => Some(HintKind::Queue),
        "homes" => Some(HintKind::Homes),
        _ => None,
    }
}

/// That a word names format 3, the only one that an upgrade can be asked for.
pub(crate) fn three_by_word(word: &str) -> Option<bool>
    ensures { result ≡ three_by_word word.now }
{
    match word {
        "3" => Some(true),
        _ => None,
    }
}

/// The text that was given for an argument.
pub(crate) fn given<'a>(matches: &ArgMatches<'a>, id: &str) -> Option<&'a str>
    ensures { option_map (λ s. s.now) result ≡ first_of id.now (rows_of (found_of matches.now)) }
{
    matches.get_str(id)
}

/// Whether a flag was given.
fn is_set(matches: &ArgMatches, id: &str) -> bool
    ensures { result ≡ is_set (first_of id.now (rows_of (found_of matches.now))) }
{
    match given(matches, id) {
        None => false,
        Some(word) => word == "true",
    }
}

/// The number that was given for an option, or its default; none where the text is no number of its range.
fn number_or(matches: &ArgMatches, id: &str, default: u32, least: u32, most: u32) -> Option<u32>
    requires { (least ≤ default) × (default ≤ most) }
    ensures value { result ≡ value_or default (number_between least most) (first_of id.now (rows_of (found_of matches.now))) }
    ensures within { IfSome result (λ n. (least ≤ n) × (n ≤ most)) }
{
    match given(matches, id) {
        None => Some(default),
        Some(word) => number_between(word, least, most),
    }
}

/// The number of slots, if it is given; none where the text is no number of its range.
fn slots(matches: &ArgMatches) -> Option<Option<u32>>
    ensures value { result ≡ value_or None (λ word. option_map (λ n. Some n) (number_between 1 MAX_SLOTS word))
        (first_of (codes "slots") (rows_of (found_of matches.now))) }
    ensures within { IfSome result (λ slots. IfSome slots (λ n. (1 ≤ n) × (n ≤ MAX_SLOTS))) }
{
    match given(matches, "slots") {
        None => Some(None),
        Some(word) => number_between(word, 1, MAX_SLOTS).map(Some),
    }
}

/// The engine; none where the text names none.
fn engine(matches: &ArgMatches) -> Option<Engine>
    ensures { result ≡ value_or Engine.Words engine_by_word (first_of (codes "engine") (rows_of (found_of matches.now))) }
{
    match given(matches, "engine") {
        None => Some(Engine::Words),
        Some(word) => engine_by_word(word),
    }
}

/// The kind of hints; none where the text names none.
fn hints(matches: &ArgMatches) -> Option<HintKind>
    ensures { result ≡ value_or HintKind.Queue hint_kind_by_word (first_of (codes "hints") (rows_of (found_of matches.now))) }
{
    match given(matches, "hints") {
        None => Some(HintKind::Queue),
        Some(word) => hint_kind_by_word(word),
    }
}

/// The seed; none where the text is no number.
fn seed(matches: &ArgMatches) -> Option<u64>
    ensures { result ≡ value_or 1 number_of (first_of (codes "seed") (rows_of (found_of matches.now))) }
{
    match given(matches, "seed") {
        None => Some(1),
        Some(word) => number(word),
    }
}

/// Whether format 3 is asked for; none where the text names no format that can be.
fn to_three(matches: &ArgMatches) -> Option<bool>
    ensures { result ≡ value_or false three_by_word (first_of (codes "to") (rows_of (found_of matches.now))) }
{
    match given(matches, "to") {
        None => Some(false),
        Some(word) => three_by_word(word),
    }
}

/// What the matches ask for; none where a value is out of its range.
pub(crate) fn request_in(matches: &ArgMatches) -> Option<Request>
    ensures request { result ≡ request_in (rows_of (found_of matches.now)) }
    ensures size { IfSome result (λ request. (1 ≤ request.size) × (request.size ≤ MAX_SIZE)) }
    ensures workers { IfSome result (λ request. request.workers ≤ MAX_WORKERS) }
    ensures slots { IfSome result (λ request. IfSome request.slots (λ n. (1 ≤ n) × (n ≤ MAX_SLOTS))) }
{
    Some(Request {
        action: action_by_word(given(matches, "ACTION")?)?,
        workers: number_or(matches, "workers", 4, 0, MAX_WORKERS)?,
        slots: slots(matches)?,
        engine: engine(matches)?,
        hints: hints(matches)?,
        seed: seed(matches)?,
        size: number_or(matches, "size", 100, 1, MAX_SIZE)?,
        trace: is_set(matches, "trace"),
        text: is_set(matches, "text"),
        to_three: to_three(matches)?,
        columns: is_set(matches, "columns"),
    })
}
