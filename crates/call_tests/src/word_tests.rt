//! Command lines, what they ask for, and what is said of a word that is refused.

use command_line::request::{Action, Engine, HintKind, Request};
use command_line::{WordsFault, read_words, refusal};
use std::alloc::Global;
use std::test::Fail;

/// What is asked for where no option is given.
const RUN: Request = Request {
    action: Action::Run,
    workers: 4,
    slots: None,
    engine: Engine::Words,
    hints: HintKind::Queue,
    seed: 1,
    size: 100,
    trace: false,
    text: false,
    to_three: false,
    columns: false,
};

fn words(alloc: Global, line: &str) -> Result<Vec<String>, Fail> {
    let mut words = Vec::new(alloc);
    for word in line.split(' ') {
        words.push(String::from_str(alloc, word)?)?;
    }
    Ok(words)
}

fn request(alloc: Global, line: &str) -> Result<Result<Request, WordsFault>, Fail> {
    let words = words(alloc, line)?;
    Ok(read_words(alloc, words.as_slice()))
}

#[test]
fn takes_options(rt: HostRuntime) -> Result<(), Fail> {
    for (line, wanted) in [
        ("realm run", RUN),
        (
            "realm check",
            Request {
                action: Action::Check,
                ..RUN
            },
        ),
        ("realm run --workers=2", Request { workers: 2, ..RUN }),
        ("realm run --workers 2", Request { workers: 2, ..RUN }),
        ("realm --trace run", Request { trace: true, ..RUN }),
        (
            "realm run --slots 8192",
            Request {
                slots: Some(8192),
                ..RUN
            },
        ),
        ("realm run --engine words", RUN),
        (
            "realm run --engine lock",
            Request {
                engine: Engine::Lock,
                ..RUN
            },
        ),
        ("realm run --hints queue", RUN),
        (
            "realm run --hints homes",
            Request {
                hints: HintKind::Homes,
                ..RUN
            },
        ),
        (
            "realm check --engine lock --hints homes",
            Request {
                action: Action::Check,
                engine: Engine::Lock,
                hints: HintKind::Homes,
                ..RUN
            },
        ),
        (
            "realm eval --workers 0",
            Request {
                action: Action::Eval,
                workers: 0,
                ..RUN
            },
        ),
        (
            "realm make --seed 7 --size 12 --slots 3",
            Request {
                action: Action::Make,
                seed: 7,
                size: 12,
                slots: Some(3),
                ..RUN
            },
        ),
        (
            "realm run --seed 18446744073709551615 --size 8192 --text",
            Request {
                seed: 18446744073709551615,
                size: 8192,
                text: true,
                ..RUN
            },
        ),
        (
            "realm upgrade --to 3",
            Request {
                action: Action::Upgrade,
                to_three: true,
                ..RUN
            },
        ),
        (
            "realm run --to=3",
            Request {
                to_three: true,
                ..RUN
            },
        ),
        (
            "realm timeline --columns",
            Request {
                action: Action::Timeline,
                columns: true,
                ..RUN
            },
        ),
    ] {
        assert_eq!(rt; request(rt.alloc(), line)?, Ok(wanted));
    }
    Ok(())
}

/// Command lines with what is said of the word that is refused.
const REFUSALS: [(&str, &str); 15] = [
    ("realm run", ""),
    (
        "realm",
        "no action: run, check, eval, make, upgrade, audit, timeline or session",
    ),
    (
        "realm walk",
        "walk: run, check, eval, make, upgrade, audit, timeline or session",
    ),
    ("realm run --workers 9", "--workers 9: 0 to 8"),
    ("realm run --slots=01", "--slots 01: 1 to 8192"),
    (
        "realm run --engine free --size 0",
        "--engine free: words or lock",
    ),
    (
        "realm run --workers 0 --hints free",
        "--hints free: queue or homes",
    ),
    (
        "realm check --hints",
        "a value is required for '--hints <hints>' but none was supplied: queue or homes",
    ),
    (
        "realm make --seed 18446744073709551616",
        "--seed 18446744073709551616: 0 to 18446744073709551615",
    ),
    ("realm eval --size 8193", "--size 8193: 1 to 8192"),
    ("realm upgrade --to 2", "--to 2: 3"),
    (
        "realm upgrade --to",
        "a value is required for '--to <to>' but none was supplied: 3",
    ),
    (
        "realm run --workers",
        "a value is required for '--workers <workers>' but none was supplied: 0 to 8",
    ),
    (
        "realm run --slots 1 --slots 2",
        "the argument '--slots <slots>' cannot be used multiple times: 1 to 8192",
    ),
    (
        "realm run --fast",
        "unexpected argument '--fast' found: an action with --workers, --slots, --engine, --hints, --seed, --size, --trace, --text, --to, --columns",
    ),
];

#[test]
fn names_refused_words(rt: HostRuntime) -> Result<(), Fail> {
    for (line, said) in REFUSALS {
        let words = words(rt.alloc(), line)?;
        let refused = refusal(rt.alloc(), words.as_slice())?;
        let found = match &refused {
            Some(text) => text.as_str(),
            None => "",
        };
        assert_eq!(rt; found, said);
    }
    Ok(())
}
