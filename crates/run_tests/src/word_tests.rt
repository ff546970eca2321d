//! Graphs run in words by one thread, in orders unlike the evaluation's, and by two: each gives the
//! outcome of the evaluation.

ghost use Rattle.std.specs.Prelude.{◌≡◌, ◌+◌, ◌<◌, ◌≤◌, ◌++◌, length, IfOk, IfSome, IfNone};
ghost use Rattle.run_words.specs.Rejoined.{Rejoined};
ghost use Rattle.run_words.specs.Answered.{IsOut, work_numbers, work_splits};
ghost use Rattle.run_words.specs.Words.{graph_of, numbers_of, splits_of, HasAll, IsAt};
ghost use Rattle.run_words.specs.Works.{IsWokenOf, IsWorkOf};
ghost use Rattle.run_words.specs.declared.words.Words.{Words as TheWords};

use crate::graphs::{TEXTS, checked};
use crate::orders::{Order, line_at};
use crate::outcomes::{has_trace, is_same};
use crate::prepared::{closed, prepared};
use graph_terms::outcome::Outcome;
use plain_eval::evaluation::eval;
use race_check::checked::Checked;
use run_words::{Woken, WordAttempt, WordSeat, WordWork, Words};
use std::alloc::Global;
use std::test::Fail;
use std::thread::{Threads, join};

/// How often two threads run each graph.
const RUNS: u32 = 100;

/// Issues as many lines as there is room for.
fn issue_all(words: &Words, seat: &mut WordSeat)
    requires at { IsAt words.now seat.old }
    ensures at { IsAt words.now seat.new }
    ensures back { Rejoined seat.old seat.new }
{
    for _turn in 0..words.graph().lines() {
        words.issue(seat);
    }
}

/// Gives all waiters that were caught, of which there are no more than lines.
fn wake_all(words: &Words, seat: &mut WordSeat, mut woken: Woken)
    requires at { IsAt words.now seat.old }
    requires woken { IsWokenOf words.now woken }
    ensures at { IsAt words.now seat.new }
    ensures numbers { (numbers_of seat.new ≡ numbers_of seat.old) × (splits_of seat.new ≡ splits_of seat.old) }
{
    for _turn in 0..words.graph().lines() {
        woken.next(words, seat);
    }
}

/// The work of a line, where it is taken.
fn try_line(words: &Words, seat: &mut WordSeat, line: u32) -> Option<WordWork>
    requires at { IsAt words.now seat.old }
    requires line { line < length (graph_of words.now).lines }
    ensures at { IsAt words.now seat.new }
    ensures work { IfSome result (λ work. IsWorkOf words.now work) }
    ensures out { IfSome result (λ work. IsOut seat.old seat.new work) }
    ensures none { IfNone result (Rejoined seat.old seat.new) }
{
    match words.attempt(seat, line) {
        WordAttempt::Taken(work) => Some(work),
        WordAttempt::Over(_) => None,
        WordAttempt::Never => None,
        WordAttempt::NotYet(_) => None,
        WordAttempt::Busy(_) => None,
    }
}

/// Performs the work of a line, puts the line back and wakes those that waited for it.
fn end_work(words: &Words, seat: &mut WordSeat, work: WordWork)
    requires at { IsAt words.now seat.old }
    requires work { IsWorkOf words.now work }
    ensures at { IsAt words.now seat.new }
    ensures numbers { (numbers_of seat.new ≡ numbers_of seat.old ++ work_numbers work)
        × (splits_of seat.new ≡ splits_of seat.old ++ work_splits work) }
{
    let graph = words.graph();
    let finished = work.perform(graph);
    let woken = words.put_back(seat, finished);
    wake_all(words, seat, woken);
}

/// Takes what can be taken from this place of the order on: how many lines. Each is put back after
/// those that were taken after it, so as much as can be is out at one time.
fn take_from(words: &Words, seat: &mut WordSeat, order: Order, place: u32) -> u32
    requires at { IsAt words.now seat.old }
    requires place { place ≤ length (graph_of words.now).lines }
    ensures at { IsAt words.now seat.new }
    ensures few { place + result ≤ length (graph_of words.now).lines }
    ensures back { Rejoined seat.old seat.new }
{
    let lines = words.graph().lines();
    if place == lines {
        return 0;
    }
    let Some(work) = try_line(words, seat, line_at(order, place, lines)) else {
        return take_from(words, seat, order, place + 1);
    };
    let others = take_from(words, seat, order, place + 1);
    end_work(words, seat, work);
    others + 1
}

/// Issues lines and takes all that can be taken, as many times as there are lines, since one at
/// least ends each time while any can and no other thread steps: how many have ended.
fn drive(words: &Words, seat: &mut WordSeat, order: Order) -> u32
    requires at { IsAt words.now seat.old }
    ensures at { IsAt words.now seat.new }
    ensures back { Rejoined seat.old seat.new }
{
    let mut ended = 0u32;
    for _turn in 0..words.graph().lines() {
        issue_all(words, seat);
        ended = ended.saturating_add(take_from(words, seat, order, 0));
    }
    ended
}

/// The outcome of a graph that one thread drives in this order, with how many lines the drive ended.
fn driven(alloc: Global, checked: &Checked, order: Order) -> Result<(Outcome, u32), Fail> {
    let (words, mut seat) = prepared(alloc, checked)?;
    let ended = drive(&words, &mut seat, order);
    Ok((closed(words, seat), ended))
}

/// Words that threads share. It hides their lifetime, since a closure that captures a type with a
/// lifetime of its own tells `join` nothing.
trait SharedWords: Sync {
    // Which words they are.
    ghost words: { Self → TheWords };

    /// Drives the run by a seat.
    fn drive_by(&self, seat: WordSeat, order: Order) -> WordSeat
        requires at { IsAt (words self.now) seat }
        ensures at { IsAt (words self.now) result }
        ensures back { Rejoined seat result };
}

impl<'g> SharedWords for Words<'g> {
    ghost words = { λ w. w };

    fn drive_by(&self, seat: WordSeat, order: Order) -> WordSeat {
        let mut own = seat;
        drive(self, &mut own, order);
        own
    }
}

/// Drives a run by two threads, each with a seat and an order of its own.
fn drive_both<R: Threads + Sync, W: SharedWords>(
    rt: &R,
    words: &W,
    first: WordSeat,
    second: WordSeat,
) -> (WordSeat, WordSeat)
    requires at { IsAt (W.words words.now) first × IsAt (W.words words.now) second }
    ensures at { IsAt (W.words words.now) result.0 × IsAt (W.words words.now) result.1 }
    ensures back { Rejoined first result.0 × Rejoined second result.1 }
{
    join(
        rt,
        || -> WordSeat
            requires { IsAt (W.words words.now) first }
            ensures { IsAt (W.words words.entry.now) result × Rejoined first result }
        { words.drive_by(first, Order::Ascending) },
        || -> WordSeat
            requires { IsAt (W.words words.now) second }
            ensures { IsAt (W.words words.entry.now) result × Rejoined second result }
        { words.drive_by(second, Order::Descending) },
    )
}

/// The outcome of a graph that two threads drive.
fn driven_by_two<R: Threads + Sync + AllocGlobal>(
    rt: &R,
    checked: &Checked,
) -> Result<Outcome, Fail> {
    let (words, mut seat) = prepared(rt.alloc(), checked)?;
    let other = words.split(&mut seat);
    let (mut first, second) = drive_both(rt, &words, seat, other);
    words.join(&mut first, second);
    Ok(closed(words, first))
}

/// Whether a graph that one thread drives in each order gives the outcome of the evaluation, and
/// ends by the drive alone.
fn is_evaluated(alloc: Global, text: &str) -> Result<bool, Fail> {
    let checked = checked(alloc, text)?;
    let wanted = eval(alloc, &checked)?;
    for order in [Order::Ascending, Order::Descending, Order::Alternating] {
        let (outcome, ended) = driven(alloc, &checked, order)?;
        if !is_same(&outcome, &wanted) || !has_trace(&outcome, ended) {
            return Ok(false);
        }
    }
    Ok(true)
}

/// Whether each of many runs by two threads gives the outcome of the evaluation.
fn is_steady<R: Threads + Sync + AllocGlobal>(rt: &R, text: &str) -> Result<bool, Fail> {
    let checked = checked(rt.alloc(), text)?;
    let wanted = eval(rt.alloc(), &checked)?;
    for _run in 0..RUNS {
        if !is_same(&driven_by_two(rt, &checked)?, &wanted) {
            return Ok(false);
        }
    }
    Ok(true)
}

#[test]
fn by_one_thread(rt: HostRuntime) -> Result<(), Fail> {
    for text in TEXTS {
        assert!(rt; is_evaluated(rt.alloc(), text)?);
    }
    Ok(())
}

#[test]
fn by_two_threads(rt: HostRuntime) -> Result<(), Fail> {
    for text in TEXTS {
        assert!(rt; is_steady(&rt, text)?);
    }
    Ok(())
}
