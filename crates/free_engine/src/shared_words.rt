//! What a worker does with the words of a run.

ghost use Rattle.std.specs.Prelude.{ℕ, ◌≡◌, ◌<◌, ◌++◌, ◌∷◌, [], length, IfSome};
ghost use Rattle.run_words.specs.Answered.{Answered, work_numbers, work_splits};
ghost use Rattle.run_words.specs.Words.{graph_of, numbers_of, splits_of, IsAt};
ghost use Rattle.run_words.specs.Works.{IsWokenOf, IsWorkOf};
ghost use Rattle.run_words.specs.declared.words.Words.{Words as TheWords};

use graph_model::graph::Graph;
use graph_terms::limits::MOST_ACCESSES;
use graph_terms::verb::{Access, Mode, Verb};
use idle_workers::spin;
use realm_io::Gate;
use run_core::Issue;
use run_words::{Woken, WordAttempt, WordSeat, WordWork, Words};
use std::sync::Wait;

/// How often a worker tries to issue a line while another one has the issue turn, which is short.
const MOST_ISSUES: u32 = 8;

/// How many of the lines that wait for one a worker looks at, to go on to one of them.
const MOST_EDGES: usize = 4;

/// Whether what may be a line waits for one line alone.
fn waits_for_one(graph: &Graph, line: u32) -> bool {
    line < graph.lines() && graph.edges_into(line).len() == 1
}

/// Whether a line has the column of the access k of another one.
fn has_column_of(graph: &Graph, line: u32, other: u32, k: u32) -> bool {
    let Some(column) = column_of(graph, other, k) else {
        return false;
    };
    for j in 0..MOST_ACCESSES {
        if column_of(graph, line, j) == Some(column) {
            return true;
        }
    }
    false
}

/// The column of the access k of what may be a line.
fn column_of(graph: &Graph, line: u32, k: u32) -> Option<u32> {
    let access = access_of(graph, line, k)?;
    Some(access.column)
}

/// The access k of what may be a line.
fn access_of(graph: &Graph, line: u32, k: u32) -> Option<Access> {
    if line >= graph.lines() {
        return None;
    }
    graph.access(line, k)
}

/// Whether an access keeps another from a column: both only read it where it does not.
fn excludes(own: Access, other: Access) -> bool {
    let is_shared = matches!(own.mode, Mode::Read) && matches!(other.mode, Mode::Read);
    own.column == other.column && !is_shared
}

/// Whether an access of a line keeps the access k of another one from its column.
fn excludes_at(graph: &Graph, line: u32, other: u32, k: u32) -> bool {
    let Some(access) = access_of(graph, other, k) else {
        return false;
    };
    for j in 0..MOST_ACCESSES {
        let Some(own) = access_of(graph, line, j) else {
            return false;
        };
        if excludes(own, access) {
            return true;
        }
    }
    false
}

/// Whether what may be a line gives a reservation back.
fn is_release(graph: &Graph, line: u32) -> bool {
    line < graph.lines() && matches!(graph.line(line).verb, Verb::Release { .. })
}

/// The words that workers share. It hides their lifetime, since a closure that captures a type with a
/// lifetime of its own tells `join` nothing.
pub(crate) trait SharedWords: Sync {
    // Which words they are.
    ghost words: { Self → TheWords };

    /// How many lines the run has.
    fn lines(&self) -> u32
        ensures { result ≡ length (graph_of (words self.now)).lines };

    /// Issues the next line. None comes where that can't be done now, and `is_last` is then set where
    /// no line is left to issue.
    fn issue_next(&self, seat: &mut WordSeat, is_last: &mut bool) -> Option<u32>
        requires at { IsAt (words self.now) seat.old }
        ensures at { IsAt (words self.now) seat.new }
        ensures line { IfSome result (λ line. line < length (graph_of (words self.now)).lines) }
        ensures numbers { (numbers_of seat.new ≡ numbers_of seat.old) × (splits_of seat.new ≡ splits_of seat.old) };

    /// Tries to take a line, as `Words::attempt` does.
    fn attempt_line(&self, seat: &mut WordSeat, line: u32) -> WordAttempt
        requires at { IsAt (words self.now) seat.old }
        requires line { line < length (graph_of (words self.now)).lines }
        ensures at { IsAt (words self.now) seat.new }
        ensures answer { Answered (words self.now) line seat.old seat.new result };

    /// The first of the lines that wait for this one alone, if there is one among the first few that wait
    /// for it.
    fn follower(&self, line: u32) -> Option<u32>;

    /// Whether a line may run while another one does: they have no column in common but such as both only
    /// read.
    fn may_run_beside(&self, line: u32, other: u32) -> bool;

    /// Whether a line that was put back has left a column or a reservation free that another line does
    /// not use.
    fn leaves_free(&self, ended: u32, other: u32) -> bool;

    /// Passes the gate, performs the work of a line and puts the line back.
    fn end<R: Wait, G: Gate>(&self, rt: &R, seat: &mut WordSeat, work: WordWork, gate: &G) -> Woken
        requires at { IsAt (words self.now) seat.old }
        requires work { IsWorkOf (words self.now) work }
        ensures at { IsAt (words self.now) seat.new }
        ensures woken { IsWokenOf (words self.now) result }
        ensures numbers { (numbers_of seat.new ≡ numbers_of seat.old ++ work_numbers work)
            × (splits_of seat.new ≡ splits_of seat.old ++ work_splits work) };

    /// The next line that waited for one that was put back.
    fn next_woken(&self, seat: &mut WordSeat, woken: &mut Woken) -> Option<u32>
        requires at { IsAt (words self.now) seat.old }
        requires woken { IsWokenOf (words self.now) woken.old }
        ensures at { IsAt (words self.now) seat.new }
        ensures woken { IsWokenOf (words self.now) woken.new }
        ensures numbers { (numbers_of seat.new ≡ numbers_of seat.old) × (splits_of seat.new ≡ splits_of seat.old) };

    /// Splits a seat off.
    fn cut(&self, seat: WordSeat) -> (WordSeat, WordSeat)
        requires at { IsAt (words self.now) seat }
        ensures at { IsAt (words self.now) result.0 × IsAt (words self.now) result.1 }
        ensures numbers { (n : ℕ) × (numbers_of result.1 ≡ n ∷ []) × (splits_of result.1 ≡ [])
            × (numbers_of result.0 ≡ numbers_of seat) × (splits_of result.0 ≡ splits_of seat ++ n ∷ []) };

    /// Joins a seat into another.
    fn joined(&self, first: WordSeat, second: WordSeat) -> WordSeat
        requires at { IsAt (words self.now) first × IsAt (words self.now) second }
        ensures at { IsAt (words self.now) result }
        ensures numbers { (numbers_of result ≡ numbers_of first ++ numbers_of second)
            × (splits_of result ≡ splits_of first ++ splits_of second) };
}

impl<'g> SharedWords for Words<'g> {
    ghost words = { λ w. w };

    fn lines(&self) -> u32 {
        self.graph().lines()
    }

    fn issue_next(&self, seat: &mut WordSeat, is_last: &mut bool) -> Option<u32> {
        for _turn in 0..MOST_ISSUES {
            match self.issue(seat) {
                Issue::Issued(line) => return Some(line),
                Issue::NoSlot => return None,
                Issue::All => {
                    *is_last = true;
                    return None;
                }
                Issue::Other => spin(),
            }
        }
        None
    }

    fn attempt_line(&self, seat: &mut WordSeat, line: u32) -> WordAttempt {
        self.attempt(seat, line)
    }

    fn follower(&self, line: u32) -> Option<u32> {
        let graph = self.graph();
        if line >= graph.lines() {
            return None;
        }
        let edges = graph.edges_from(line);
        for k in 0..edges.len().min(MOST_EDGES) {
            let next = edges[k].to;
            if waits_for_one(graph, next) {
                return Some(next);
            }
        }
        None
    }

    fn may_run_beside(&self, line: u32, other: u32) -> bool {
        let graph = self.graph();
        for k in 0..MOST_ACCESSES {
            if excludes_at(graph, other, line, k) {
                return false;
            }
        }
        true
    }

    fn leaves_free(&self, ended: u32, other: u32) -> bool {
        let graph = self.graph();
        if is_release(graph, ended) {
            return true;
        }
        for k in 0..MOST_ACCESSES {
            if column_of(graph, ended, k).is_some() && !has_column_of(graph, other, ended, k) {
                return true;
            }
        }
        false
    }

    fn end<R: Wait, G: Gate>(
        &self,
        rt: &R,
        seat: &mut WordSeat,
        work: WordWork,
        gate: &G,
    ) -> Woken {
        gate.pass(rt, work.line());
        let graph = self.graph();
        let finished = work.perform(graph);
        self.put_back(seat, finished)
    }

    fn next_woken(&self, seat: &mut WordSeat, woken: &mut Woken) -> Option<u32> {
        woken.next(self, seat)
    }

    fn cut(&self, seat: WordSeat) -> (WordSeat, WordSeat) {
        let mut own = seat;
        let other = self.split(&mut own);
        (own, other)
    }

    fn joined(&self, first: WordSeat, second: WordSeat) -> WordSeat {
        let mut own = first;
        self.join(&mut own, second);
        own
    }
}
