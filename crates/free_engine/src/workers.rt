//! Workers, which share the lines of a run.

ghost use Rattle.std.specs.Prelude.{◌≡◌, ◌<◌, ◌++◌, length};
ghost use Rattle.std.specs.Thread.{IsSync, IsSend};
ghost use Rattle.run_words.specs.Answered.{work_numbers, work_splits};
ghost use Rattle.run_words.specs.Rejoined.{Rejoined};
ghost use Rattle.run_words.specs.Words.{graph_of, numbers_of, splits_of, IsAt};
ghost use Rattle.run_words.specs.Works.{IsWokenOf, IsWorkOf};

use crate::search::{Search, follow, next_line};
use crate::shared_words::SharedWords;
use crate::team::Team;
use realm_io::{Gate, Hints};
use run_words::{Woken, WordAttempt, WordSeat, WordWork};
use std::sync::Wait;
use std::thread::{Threads, join};

/// One worker: takes lines and performs them until it finds none and no other worker has one.
fn work<R: Wait, W: SharedWords, G: Gate, H: Hints>(
    rt: &R,
    words: &W,
    gate: &G,
    team: &Team,
    seat: WordSeat,
    hints: &mut H,
) -> WordSeat
    requires at { IsAt (W.words words.now) seat }
    ensures at { IsAt (W.words words.now) result }
    ensures back { Rejoined seat result }
{
    team.idle.enter();
    let mut own = seat;
    let mut search = Search::new();
    for _turn in rt.forever() {
        if !go_on(rt, words, gate, team, &mut own, hints, &mut search) {
            return own;
        }
    }
    unreachable!()
}

/// Tries one line, or rests where there is none. False where there is none and no other worker has one.
fn go_on<R: Wait, W: SharedWords, G: Gate, H: Hints>(
    rt: &R,
    words: &W,
    gate: &G,
    team: &Team,
    seat: &mut WordSeat,
    hints: &mut H,
    search: &mut Search,
) -> bool
    requires at { IsAt (W.words words.now) seat.old }
    ensures at { IsAt (W.words words.now) seat.new }
    ensures back { Rejoined seat.old seat.new }
{
    let Some(line) = next_line(rt, words, team, seat, hints, search) else {
        return search.rest(rt, &team.idle, words.lines());
    };
    try_line(rt, words, gate, team, seat, hints, search, line);
    true
}

/// Tries a line, and does it where it is taken. Where it is not, and nothing else gives it again, it is
/// left for later.
fn try_line<R: Wait, W: SharedWords, G: Gate, H: Hints>(
    rt: &R,
    words: &W,
    gate: &G,
    team: &Team,
    seat: &mut WordSeat,
    hints: &mut H,
    search: &mut Search,
    line: u32,
)
    requires at { IsAt (W.words words.now) seat.old }
    requires line { line < length (graph_of (W.words words.now)).lines }
    ensures at { IsAt (W.words words.now) seat.new }
    ensures back { Rejoined seat.old seat.new }
{
    match words.attempt_line(seat, line) {
        WordAttempt::Taken(work) => {
            search.taken(words, team, line);
            end_work(rt, words, gate, team, seat, hints, search, work);
        }
        WordAttempt::NotYet(_) => leave_unplaced(rt, seat, hints, line),
        WordAttempt::Busy(_) => hints.push(rt, line),
        WordAttempt::Over(_) => {}
        WordAttempt::Never => {}
    }
}

/// Leaves a line for later whose waiter the last try did not place.
fn leave_unplaced<R: Wait, H: Hints>(rt: &R, seat: &WordSeat, hints: &mut H, line: u32) {
    if !seat.has_placed() {
        hints.push(rt, line);
    }
}

/// Performs the work of a line and puts the line back. A line that waited for it is kept, and the others
/// are left for later.
fn end_work<R: Wait, W: SharedWords, G: Gate, H: Hints>(
    rt: &R,
    words: &W,
    gate: &G,
    team: &Team,
    seat: &mut WordSeat,
    hints: &mut H,
    search: &mut Search,
    work: WordWork,
)
    requires at { IsAt (W.words words.now) seat.old }
    requires work { IsWorkOf (W.words words.now) work }
    ensures at { IsAt (W.words words.now) seat.new }
    ensures numbers { (numbers_of seat.new ≡ numbers_of seat.old ++ work_numbers work)
        × (splits_of seat.new ≡ splits_of seat.old ++ work_splits work) }
{
    let line = work.line();
    let mut woken = words.end(rt, seat, work, gate);
    let kept = next_kept(words, team, seat, search, line, &mut woken);
    search.ended(line, kept);
    if let Some(first) = kept {
        leave_others(rt, words, team, seat, hints, woken, first);
    }
}

/// The line that is kept: the one to which the worker goes on, else the first that waited for the line that
/// was put back.
fn next_kept<W: SharedWords>(
    words: &W,
    team: &Team,
    seat: &mut WordSeat,
    search: &mut Search,
    ended: u32,
    woken: &mut Woken,
) -> Option<u32>
    requires at { IsAt (W.words words.now) seat.old }
    requires woken { IsWokenOf (W.words words.now) woken.old }
    ensures at { IsAt (W.words words.now) seat.new }
    ensures woken { IsWokenOf (W.words words.now) woken.new }
    ensures numbers { (numbers_of seat.new ≡ numbers_of seat.old) × (splits_of seat.new ≡ splits_of seat.old) }
{
    if let Some(line) = follow(words, team, seat, search, ended) {
        return Some(line);
    }
    words.next_woken(seat, woken)
}

/// Leaves all further lines that waited for one for later, and tells a worker that waits of each that
/// may run beside the one that was kept.
fn leave_others<R: Wait, W: SharedWords, H: Hints>(
    rt: &R,
    words: &W,
    team: &Team,
    seat: &mut WordSeat,
    hints: &mut H,
    mut woken: Woken,
    kept: u32,
)
    requires at { IsAt (W.words words.now) seat.old }
    requires woken { IsWokenOf (W.words words.now) woken }
    ensures at { IsAt (W.words words.now) seat.new }
    ensures numbers { (numbers_of seat.new ≡ numbers_of seat.old) × (splits_of seat.new ≡ splits_of seat.old) }
{
    for _turn in 0..words.lines() {
        let Some(line) = words.next_woken(seat, &mut woken) else {
            return;
        };
        leave_other(rt, words, team, hints, line, kept);
    }
}

/// Leaves a line for later, unless it was kept.
fn leave_other<R: Wait, W: SharedWords, H: Hints>(
    rt: &R,
    words: &W,
    team: &Team,
    hints: &mut H,
    line: u32,
    kept: u32,
) {
    if line != kept {
        hints.push(rt, line);
        tell_of(words, team, line, kept);
    }
}

/// Tells a worker that waits of a line that may run beside the one that was kept.
fn tell_of<W: SharedWords>(words: &W, team: &Team, line: u32, kept: u32) {
    if team.idle.is_waited() && words.may_run_beside(line, kept) {
        team.idle.tell();
    }
}

/// Runs a worker for each of these hints, and waits for all of them.
#[cycle(workers)]
pub(crate) fn run_workers<R: Threads + Wait + Sync, W: SharedWords, G: Gate, H: Hints>(
    rt: &R,
    words: &W,
    gate: &G,
    team: &Team,
    seat: WordSeat,
    hints: &mut [H],
) -> WordSeat
    requires at { IsAt (W.words words.now) seat }
    ensures at { IsAt (W.words words.now) result }
    ensures back { Rejoined seat result }
{
    if hints.len() == 0 {
        return seat;
    }
    let (first, rest) = hints.split_at_mut(1);
    if rest.len() == 0 {
        return work(rt, words, gate, team, seat, &mut first[0]);
    }
    let (own, other) = words.cut(seat);
    let (own, other) = run_both(rt, words, gate, team, own, &mut first[0], other, rest);
    words.joined(own, other)
}

/// Runs a worker beside all further ones.
#[cycle(workers)]
fn run_both<R: Threads + Wait + Sync, W: SharedWords, G: Gate, H: Hints>(
    rt: &R,
    words: &W,
    gate: &G,
    team: &Team,
    own: WordSeat,
    hints: &mut H,
    other: WordSeat,
    rest: &mut [H],
) -> (WordSeat, WordSeat)
    requires at { IsAt (W.words words.now) own × IsAt (W.words words.now) other }
    ensures at { IsAt (W.words words.now) result.0 × IsAt (W.words words.now) result.1 }
    ensures back { Rejoined own result.0 × Rejoined other result.1 }
{
    join(
        rt,
        || -> WordSeat
            requires { IsSync G.row × IsSend H.row × IsAt (W.words words.now) own }
            ensures { IsAt (W.words words.entry.now) result × Rejoined own result }
        { work(rt, words, gate, team, own, hints) },
        || -> WordSeat
            requires { IsSync R.row × IsSync W.row × IsSync G.row × IsSend H.row × IsAt (W.words words.now) other }
            ensures { IsAt (W.words words.entry.now) result × Rejoined other result }
        { run_workers(rt, words, gate, team, other, rest) },
    )
}
