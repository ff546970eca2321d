//! The search of a worker for its next line, turn by turn.

ghost use Rattle.std.specs.Prelude.{◌≡◌, ◌<◌, length, None, IfSome};
ghost use Rattle.lock_engine.specs.Seats.{IsWaiting, IsIdle, KeepsPlace, HasWork, HasDone};

use crate::calls::{attempt, issue, next_woken, put_back};
use crate::later_lines::LaterLines;
use crate::lock::{Lock, LockSeat};
use crate::notes::Notes;
use graph_model::graph::Graph;
use run_core::{Attempt, Finished, Issue, Work};
use std::sync::Wait;

/// Where the next search of a worker begins. Nothing rests on it but speed.
#[derive(Drop)]
pub(crate) struct Search {
    // Whether the worker knows that no line is left to issue.
    all_issued: bool,
    // The word of noted lines that is tried first.
    word: u32,
}

impl Search {
    /// The first search of a worker.
    pub(crate) fn new() -> Search {
        Search {
            all_issued: false,
            word: 0,
        }
    }
}

/// Puts a line back, where there is one.
pub(crate) fn give_back<'g, R: Wait>(
    rt: &R,
    lock: &Lock<'g>,
    seat: &mut LockSeat<'g>,
    notes: &Notes,
    done: Option<Finished>,
)
    requires waiting { IsWaiting lock.now.table_id seat.old }
    requires done { HasDone seat.old.me.0 done }
    ensures place { KeepsPlace lock.now.table_id seat.old seat.new }
    ensures idle { seat.new.me.0.line ≡ None }
{
    if let Some(finished) = done {
        put_back(rt, lock, &notes.sleepers, seat, finished);
    }
}

/// Takes a line: one that is new, else one that was woken, else one that was noted before. New lines
/// come first so that a slot that came free is used at once.
pub(crate) fn find<'g, R: Wait>(
    rt: &R,
    lock: &Lock<'g>,
    seat: &mut LockSeat<'g>,
    graph: &Graph,
    notes: &Notes,
    search: &mut Search,
) -> Option<Work>
    requires idle { IsIdle lock.now.table_id seat.old }
    requires graph { seat.old.me.0.core.graph ≡ graph.now }
    ensures place { KeepsPlace lock.now.table_id seat.old seat.new }
    ensures work { HasWork seat.new.me.0 result }
{
    if let Some(work) = take_new(rt, lock, seat, graph, notes, search) {
        return Some(work);
    }
    if let Some(work) = take_woken(rt, lock, seat, graph, notes) {
        return Some(work);
    }
    take_later(rt, lock, seat, graph, notes, search)
}

/// Issues lines, and tries each.
fn take_new<'g, R: Wait>(
    rt: &R,
    lock: &Lock<'g>,
    seat: &mut LockSeat<'g>,
    graph: &Graph,
    notes: &Notes,
    search: &mut Search,
) -> Option<Work>
    requires idle { IsIdle lock.now.table_id seat.old }
    requires graph { seat.old.me.0.core.graph ≡ graph.now }
    ensures place { KeepsPlace lock.now.table_id seat.old seat.new }
    ensures work { HasWork seat.new.me.0 result }
{
    for _turn in 0..graph.lines() {
        let line = next_new(rt, lock, seat, notes, search)?;
        note_above(graph, &notes.later, line);
        if let Some(work) = take(rt, lock, seat, notes, line) {
            return Some(work);
        }
    }
    None
}

/// A line that was issued. None comes where no slot is free or no line is left.
fn next_new<'g, R: Wait>(
    rt: &R,
    lock: &Lock<'g>,
    seat: &mut LockSeat<'g>,
    notes: &Notes,
    search: &mut Search,
) -> Option<u32>
    requires idle { IsIdle lock.now.table_id seat.old }
    ensures place { KeepsPlace lock.now.table_id seat.old seat.new }
    ensures idle { seat.new.me.0.line ≡ None }
    ensures line { IfSome result (λ i. i < length seat.old.me.0.core.graph.lines) }
{
    if search.all_issued {
        return None;
    }
    match issue(rt, lock, &notes.sleepers, seat) {
        Issue::Issued(line) => Some(line),
        Issue::All => {
            search.all_issued = true;
            None
        }
        _ => None,
    }
}

/// Notes the lines above a line that was just issued that wait for it: an attempt before that found no
/// handle for them to stand on.
fn note_above(graph: &Graph, later: &LaterLines, line: u32)
    requires line { line < length graph.now.lines }
{
    for edge in graph.edges_from(line) {
        if edge.to < line {
            later.add(edge.to);
        }
    }
}

/// Tries the lines that were woken.
fn take_woken<'g, R: Wait>(
    rt: &R,
    lock: &Lock<'g>,
    seat: &mut LockSeat<'g>,
    graph: &Graph,
    notes: &Notes,
) -> Option<Work>
    requires idle { IsIdle lock.now.table_id seat.old }
    requires graph { seat.old.me.0.core.graph ≡ graph.now }
    ensures place { KeepsPlace lock.now.table_id seat.old seat.new }
    ensures work { HasWork seat.new.me.0 result }
{
    for _turn in 0..graph.lines() {
        let line = next_woken(rt, lock, &notes.sleepers, seat)?;
        if let Some(work) = take(rt, lock, seat, notes, line) {
            return Some(work);
        }
    }
    None
}

/// Tries a line, and notes it where it is busy. What it waits for may come home before it is noted; but
/// this worker tries noted lines later in this search, or in its next one.
fn take<'g, R: Wait>(
    rt: &R,
    lock: &Lock<'g>,
    seat: &mut LockSeat<'g>,
    notes: &Notes,
    line: u32,
) -> Option<Work>
    requires idle { IsIdle lock.now.table_id seat.old }
    requires line { line < length seat.old.me.0.core.graph.lines }
    ensures place { KeepsPlace lock.now.table_id seat.old seat.new }
    ensures work { HasWork seat.new.me.0 result }
{
    match attempt(rt, lock, &notes.sleepers, seat, line) {
        Attempt::Taken(work) => Some(work),
        Attempt::Busy(_) => {
            notes.later.add(line);
            None
        }
        _ => None,
    }
}

/// Tries the lines that were noted, word by word. The first word that is tried next time is the
/// one behind the last one that was tried.
fn take_later<'g, R: Wait>(
    rt: &R,
    lock: &Lock<'g>,
    seat: &mut LockSeat<'g>,
    graph: &Graph,
    notes: &Notes,
    search: &mut Search,
) -> Option<Work>
    requires idle { IsIdle lock.now.table_id seat.old }
    requires graph { seat.old.me.0.core.graph ≡ graph.now }
    ensures place { KeepsPlace lock.now.table_id seat.old seat.new }
    ensures work { HasWork seat.new.me.0 result }
{
    let words = graph.lines().div_ceil(64);
    for _turn in 0..words {
        let word = if search.word < words { search.word } else { 0 };
        search.word = word + 1;
        if let Some(work) = take_noted(rt, lock, seat, graph, notes, word) {
            return Some(work);
        }
    }
    None
}

/// Tries the lines of a word that were noted.
fn take_noted<'g, R: Wait>(
    rt: &R,
    lock: &Lock<'g>,
    seat: &mut LockSeat<'g>,
    graph: &Graph,
    notes: &Notes,
    word: u32,
) -> Option<Work>
    requires idle { IsIdle lock.now.table_id seat.old }
    requires graph { seat.old.me.0.core.graph ≡ graph.now }
    requires word { word < 1024 }
    ensures place { KeepsPlace lock.now.table_id seat.old seat.new }
    ensures work { HasWork seat.new.me.0 result }
{
    let mut noted = notes.later.noted(word);
    let lines = graph.lines();
    for _turn in 0..64u32 {
        if noted == 0 {
            return None;
        }
        let line = 64 * word + noted.trailing_zeros();
        noted &= noted - 1;
        if line >= lines {
            continue;
        }
        if let Some(work) = take_again(rt, lock, seat, notes, line) {
            return Some(work);
        }
    }
    None
}

/// Tries a line that is noted. The note of a busy line stands meanwhile, so that a worker that puts back
/// what the line waits for, after this try, sees it. A line that waits for another is tried once more
/// without its note, since that other one may have been issued, and the line noted, before its note
/// was taken away.
fn take_again<'g, R: Wait>(
    rt: &R,
    lock: &Lock<'g>,
    seat: &mut LockSeat<'g>,
    notes: &Notes,
    line: u32,
) -> Option<Work>
    requires idle { IsIdle lock.now.table_id seat.old }
    requires line { line < length seat.old.me.0.core.graph.lines }
    ensures place { KeepsPlace lock.now.table_id seat.old seat.new }
    ensures work { HasWork seat.new.me.0 result }
{
    match attempt(rt, lock, &notes.sleepers, seat, line) {
        Attempt::Taken(work) => {
            notes.later.remove(line);
            Some(work)
        }
        Attempt::Busy(_) => None,
        Attempt::NotYet(_) => {
            notes.later.remove(line);
            take(rt, lock, seat, notes, line)
        }
        _ => {
            notes.later.remove(line);
            None
        }
    }
}
