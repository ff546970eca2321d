//! Runs by workers that share words without a lock: the outcome is that of the evaluation, whatever the schedule
//! and whatever the hints give.

ghost use Rattle.std.specs.Prelude.{◌≤◌, length};

use crate::graphs::{TEXTS, checked};
use crate::outcomes::is_same;
use crate::prepared::prepared;
use free_engine::{HintQueue, Round, run_free};
use graph_terms::outcome::Outcome;
use plain_eval::evaluation::eval;
use race_check::checked::Checked;
use realm_io::{Hints, OpenGate};
use std::sync::Wait;
use std::test::Fail;
use std::thread::Threads;
use test_texts::tiles;

/// How often each graph is run with each kind of hints.
const RUNS: u32 = 100;

/// What the workers of a run have as hints.
#[derive(Clone, Copy, Debug)]
enum Kind {
    /// A queue that so many workers share.
    Queue(u32),
    /// Three rounds, from the first line, the middle one and the last one on.
    Rounds,
    /// Three times nothing.
    Nothing,
    /// Three times a number that is no line's, again and again.
    NoLine(u32),
    /// Three times the first line, again and again.
    First,
    /// Three times the last line, again and again.
    Last,
}

const KINDS: [Kind; 10] = [
    Kind::Queue(0),
    Kind::Queue(1),
    Kind::Queue(3),
    Kind::Queue(8),
    Kind::Rounds,
    Kind::Nothing,
    Kind::NoLine(65536),
    Kind::NoLine(4294967295),
    Kind::First,
    Kind::Last,
];

/// Hints that give one number a hundred times and drop all that they are told.
#[derive(Drop)]
struct Liar {
    number: Option<u32>,
    left: u32,
}

impl Liar {
    fn new(number: Option<u32>) -> Liar {
        Liar { number, left: 100 }
    }
}

impl Hints for Liar {
    fn push<R: Wait>(&mut self, _rt: &R, _line: u32) {}

    fn take<R: Wait>(&mut self, _rt: &R) -> Option<u32> {
        if self.left == 0 {
            return None;
        }
        self.left -= 1;
        self.number
    }
}

/// What a worker for each of these hints makes of a graph, with as many slots as it needs.
fn ran<R: Threads + Wait + Sync + AllocGlobal, H: Hints>(
    rt: &R,
    checked: &Checked,
    hints: &mut [H],
) -> Result<Outcome, Fail>
    requires { length hints.old ≤ 8 }
{
    let (words, seat) = prepared(rt.alloc(), checked)?;
    Ok(run_free(rt, words, seat, &OpenGate, hints))
}

/// What so many workers make of a graph, which share a queue.
fn ran_by_queue<R: Threads + Wait + Sync + AllocGlobal>(
    rt: &R,
    checked: &Checked,
    workers: u32,
) -> Result<Outcome, Fail> {
    if workers > 8 {
        return Err("workers".into());
    }
    let lines = checked.graph().lines().max(1);
    let (queue, pass) = HintQueue::new(rt.alloc(), lines)?;
    let mut list = queue.hints(rt.alloc(), pass, workers)?;
    ran(rt, checked, list.parts())
}

/// What three workers make of a graph, each with a round.
fn ran_by_rounds<R: Threads + Wait + Sync + AllocGlobal>(
    rt: &R,
    checked: &Checked,
) -> Result<Outcome, Fail> {
    let lines = checked.graph().lines();
    let mut rounds = [
        Round::new(lines, 0),
        Round::new(lines, lines / 2),
        Round::new(lines, lines.saturating_sub(1)),
    ];
    ran(rt, checked, &mut rounds)
}

/// What three workers make of a graph, each with hints that give this number.
fn ran_by_liars<R: Threads + Wait + Sync + AllocGlobal>(
    rt: &R,
    checked: &Checked,
    number: Option<u32>,
) -> Result<Outcome, Fail> {
    let mut liars = [Liar::new(number), Liar::new(number), Liar::new(number)];
    ran(rt, checked, &mut liars)
}

/// What workers with hints of this kind make of a graph.
fn ran_with<R: Threads + Wait + Sync + AllocGlobal>(
    rt: &R,
    checked: &Checked,
    kind: Kind,
) -> Result<Outcome, Fail> {
    match kind {
        Kind::Queue(workers) => ran_by_queue(rt, checked, workers),
        Kind::Rounds => ran_by_rounds(rt, checked),
        Kind::Nothing => ran_by_liars(rt, checked, None),
        Kind::NoLine(number) => ran_by_liars(rt, checked, Some(number)),
        Kind::First => ran_by_liars(rt, checked, Some(0)),
        Kind::Last => ran_by_liars(rt, checked, checked.graph().lines().checked_sub(1)),
    }
}

/// Fails where one of many runs with hints of this kind does not give the outcome of the evaluation.
fn run_often<R: Threads + Wait + Sync + AllocGlobal>(
    rt: &R,
    text: &str,
    kind: Kind,
) -> Result<(), Fail> {
    let checked = checked(rt.alloc(), text)?;
    let wanted = eval(rt.alloc(), &checked)?;
    for run in 0..RUNS {
        if !is_same(&ran_with(rt, &checked, kind)?, &wanted) {
            return Err(Fail::new(format_args!("{kind:?}, run {run}, over {text}")));
        }
    }
    Ok(())
}

#[test]
fn same_outcomes(rt: HostRuntime) -> Result<(), Fail> {
    for kind in KINDS {
        for text in TEXTS {
            run_often(&rt, text, kind)?;
        }
    }
    Ok(())
}

#[test]
fn same_outcomes_of_tiles(rt: HostRuntime) -> Result<(), Fail> {
    let text = tiles::graph(rt.alloc())?;
    for kind in KINDS {
        run_often(&rt, text.as_str(), kind)?;
    }
    Ok(())
}
