//! The search of a worker for its next line. Nothing rests on it but speed: what no worker takes is done
//! at the end.

ghost use Rattle.std.specs.Prelude.{◌≡◌, ◌<◌, length, IfSome};
ghost use Rattle.run_words.specs.Words.{graph_of, numbers_of, splits_of, IsAt};

use crate::shared_words::SharedWords;
use crate::team::Team;
use idle_workers::Waiting;
use realm_io::Hints;
use run_words::WordSeat;
use std::sync::Wait;

/// How many lines that were left for later a worker tries in one look at them.
const MOST_TRIES: u32 = 64;

/// How many lines a worker takes at most between two looks at those that were left for later, where it
/// took none of them in the first.
const MOST_SKIPS: u32 = 15;

/// Where a line that a worker tries comes from.
#[derive(Drop)]
enum Origin {
    /// The worker kept it.
    Kept,
    /// It was left for later.
    Hinted,
    /// It was issued just now.
    New,
}

/// What a worker knows of the next line to try.
#[derive(Drop)]
pub(crate) struct Search {
    // The line that it kept for itself.
    kept: Option<u32>,
    // The line that it put back last, until it takes another.
    ended: Option<u32>,
    // How many lines that were left for later it may still try in this look.
    tries: u32,
    // The first of them.
    first: Option<u32>,
    // How often it does not look at them, now and after the next look in vain.
    skips: u32,
    next_skips: u32,
    // Where the line that it tries comes from.
    origin: Origin,
    // Whether it found that no line is left to issue.
    is_all_issued: bool,
    // What it read when it said that it is about to wait.
    seen: Option<u64>,
    // Whether it was told of a line, and has taken none since.
    was_told: bool,
}

impl Search {
    /// A worker that begins.
    pub(crate) fn new() -> Search {
        Search {
            kept: None,
            ended: None,
            tries: MOST_TRIES,
            first: None,
            skips: 0,
            next_skips: 1,
            origin: Origin::New,
            is_all_issued: false,
            seen: None,
            was_told: false,
        }
    }

    /// A line that was kept, else one that was left for later.
    fn known<R: Wait, H: Hints>(&mut self, rt: &R, hints: &mut H) -> Option<u32> {
        if let Some(line) = self.kept.take() {
            self.origin = Origin::Kept;
            return Some(line);
        }
        self.origin = Origin::Hinted;
        if self.skips > 0 {
            self.skips -= 1;
            return None;
        }
        self.hinted(rt, hints)
    }

    /// A line that was left for later, if one was that this look has not tried yet.
    fn hinted<R: Wait, H: Hints>(&mut self, rt: &R, hints: &mut H) -> Option<u32> {
        let Some(line) = hints.take(rt) else {
            self.look_again_after(0);
            return None;
        };
        if self.first == Some(line) || self.tries == 0 {
            hints.push(rt, line);
            self.look_in_vain();
            return None;
        }
        if self.first.is_none() {
            self.first = Some(line);
        }
        self.tries -= 1;
        Some(line)
    }

    /// All lines that were left for later were tried in vain, so the next look comes later than the last
    /// one did.
    fn look_in_vain(&mut self) {
        let skips = self.next_skips;
        self.look_again_after(skips);
        self.next_skips = if skips < MOST_SKIPS {
            2 * skips + 1
        } else {
            MOST_SKIPS
        };
    }

    /// Begins a new look, once the worker has passed over so many.
    fn look_again_after(&mut self, skips: u32) {
        self.tries = MOST_TRIES;
        self.first = None;
        self.skips = skips;
    }

    /// The worker has put a line back, and keeps one for itself.
    pub(crate) fn ended(&mut self, line: u32, kept: Option<u32>) {
        self.ended = Some(line);
        self.kept = kept;
    }

    /// The worker has taken a line, so it does not wait. Another worker is told where there may be more:
    /// further new lines, lines that wait for what the line that was put back before has left free, or
    /// more of those that this worker was told of.
    pub(crate) fn taken<W: SharedWords>(&mut self, words: &W, team: &Team, line: u32) {
        if let Origin::Hinted = self.origin {
            self.look_again_after(0);
            self.next_skips = 1;
        }
        if self.seen.take().is_some() {
            team.idle.withdraw();
        }
        let ended = self.ended.take();
        let was_told = self.was_told;
        self.was_told = false;
        if team.idle.is_waited()
            && (was_told || self.has_more_new(team) || leaves_free(words, ended, line))
        {
            team.idle.tell();
        }
    }

    /// Whether a new line may be left: one that was issued ahead, or one behind the new line that was taken.
    fn has_more_new(&self, team: &Team) -> bool {
        let is_new = matches!(self.origin, Origin::New);
        is_new && !self.is_all_issued || team.counts.has_unclaimed()
    }

    /// The worker finds no line: first it says that it is about to wait and looks once more, through all
    /// lines that were left for later, and then it waits. False where no other worker has a line or looks
    /// for one.
    pub(crate) fn rest<R: Wait>(&mut self, rt: &R, idle: &Waiting, lines: u32) -> bool {
        self.look_again_after(0);
        match self.seen.take() {
            None => {
                self.seen = Some(idle.announce());
                self.tries = lines;
                true
            }
            Some(count) => {
                self.was_told = idle.sleep(rt, count);
                self.was_told
            }
        }
    }
}

/// Whether a line that was put back has left something free that the one taken after it does not use.
fn leaves_free<W: SharedWords>(words: &W, ended: Option<u32>, taken: u32) -> bool {
    match ended {
        Some(line) => words.leaves_free(line, taken),
        None => false,
    }
}

/// The next line to try: one that was kept, else one that was left for later, else one that is new.
pub(crate) fn next_line<R: Wait, W: SharedWords, H: Hints>(
    rt: &R,
    words: &W,
    team: &Team,
    seat: &mut WordSeat,
    hints: &mut H,
    search: &mut Search,
) -> Option<u32>
    requires at { IsAt (W.words words.now) seat.old }
    ensures at { IsAt (W.words words.now) seat.new }
    ensures line { IfSome result (λ line. line < length (graph_of (W.words words.now)).lines) }
    ensures numbers { (numbers_of seat.new ≡ numbers_of seat.old) × (splits_of seat.new ≡ splits_of seat.old) }
{
    let lines = words.lines();
    if let Some(line) = search.known(rt, hints) {
        if line < lines {
            return Some(line);
        }
    }
    search.origin = Origin::New;
    if let Some(line) = team.counts.claim() {
        if line < lines {
            return Some(line);
        }
    }
    issue_new(words, team, seat, search)
}

/// Issues the next line and claims it. None also comes where another was faster to claim it.
fn issue_new<W: SharedWords>(
    words: &W,
    team: &Team,
    seat: &mut WordSeat,
    search: &mut Search,
) -> Option<u32>
    requires at { IsAt (W.words words.now) seat.old }
    ensures at { IsAt (W.words words.now) seat.new }
    ensures line { IfSome result (λ line. line < length (graph_of (W.words words.now)).lines) }
    ensures numbers { (numbers_of seat.new ≡ numbers_of seat.old) × (splits_of seat.new ≡ splits_of seat.old) }
{
    let line = issue_one(words, team, seat, search)?;
    if team.counts.claim_if_first(line) {
        return Some(line);
    }
    None
}

/// Issues the next line, and says so.
fn issue_one<W: SharedWords>(
    words: &W,
    team: &Team,
    seat: &mut WordSeat,
    search: &mut Search,
) -> Option<u32>
    requires at { IsAt (W.words words.now) seat.old }
    ensures at { IsAt (W.words words.now) seat.new }
    ensures line { IfSome result (λ line. line < length (graph_of (W.words words.now)).lines) }
    ensures numbers { (numbers_of seat.new ≡ numbers_of seat.old) × (splits_of seat.new ≡ splits_of seat.old) }
{
    if search.is_all_issued {
        return None;
    }
    let line = words.issue_next(seat, &mut search.is_all_issued)?;
    team.counts.note_issued(line);
    Some(line)
}

/// The line to which a worker goes on from one that it has put back: it waited for that one alone, and
/// comes soon in the file. It is issued then, and so are all lines before it.
pub(crate) fn follow<W: SharedWords>(
    words: &W,
    team: &Team,
    seat: &mut WordSeat,
    search: &mut Search,
    ended: u32,
) -> Option<u32>
    requires at { IsAt (W.words words.now) seat.old }
    ensures at { IsAt (W.words words.now) seat.new }
    ensures numbers { (numbers_of seat.new ≡ numbers_of seat.old) × (splits_of seat.new ≡ splits_of seat.old) }
{
    let line = words.follower(ended)?;
    if !team.counts.is_near(line) || !is_issued_up_to(words, team, seat, search, line) {
        return None;
    }
    let _ = team.counts.claim_if_first(line);
    Some(line)
}

/// Issues lines up to one that is near. False where that can't be done now.
fn is_issued_up_to<W: SharedWords>(
    words: &W,
    team: &Team,
    seat: &mut WordSeat,
    search: &mut Search,
    line: u32,
) -> bool
    requires at { IsAt (W.words words.now) seat.old }
    ensures at { IsAt (W.words words.now) seat.new }
    ensures numbers { (numbers_of seat.new ≡ numbers_of seat.old) × (splits_of seat.new ≡ splits_of seat.old) }
{
    for _turn in 0..words.lines() {
        if team.counts.is_issued(line) {
            return true;
        }
        if issue_one(words, team, seat, search).is_none() {
            return false;
        }
    }
    team.counts.is_issued(line)
}
