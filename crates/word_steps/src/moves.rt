//! The single steps of a run, each on one word.
//!
//! The word of a line is 0 where it is unissued, 1 while it is being issued, 2 where it is issued, 3
//! where it is out, 4 and the code of its end while it is ending, and 8 and that code once it has
//! ended. A time, the line that has a column and the acquire that holds a reservation stand in their
//! words as one more than the number, so that 0 is none.

ghost use Rattle.std.specs.Prelude.{ℕ, List, ◌≡◌, ◌≢◌, ◌+◌, ◌<◌, ◌≤◌, ◌∷◌, [], true, false, Some, None, length, Contains, slice_get};
ghost use Rattle.graph_terms.specs.declared.decl.BarrierInfo.{BarrierInfo};
ghost use Rattle.graph_terms.specs.declared.limits.TheConstants.{MAX_LINES_OF_THREE};
ghost use Rattle.graph_terms.specs.declared.outcome.End.TheVariants.{Done, Cancelled};
ghost use Rattle.graph_terms.specs.declared.verb.Verb.TheVariants.{Phase};
ghost use Rattle.graph_meaning.specs.Evaluation.{eval_end};
ghost use Rattle.graph_terms.specs.Graph.{barriers, columns, locks, verb_at, never_comes, line_passes, is_shared};
ghost use Rattle.graph_terms.specs.Reservations.{Acquires, Releases};
ghost use Rattle.run_state.specs.Sound.{value_for};
ghost use Rattle.event_table.specs.declared.handle.Handle.{Handle as TheHandle};
ghost use Rattle.shared_events.specs.declared.tokens.Pending.{Pending as ThePending};
ghost use Rattle.shared_events.specs.declared.tokens.Receipt.{Receipt as TheReceipt};
ghost use Rattle.shared_events.specs.Views.{IsPendingOf, IsReceiptOf, handle_of, ended_by, fate_of};
ghost use Rattle.word_steps.specs.declared.content.Content.TheVariants.{Nothing, PendingEvent, EventReceipt, Issuer};
ghost use Rattle.word_steps.specs.declared.content.IssueState.{IssueState as TheIssueState};
ghost use Rattle.word_steps.specs.Layout.{size_of, turn_word, share_word, column_slot, share_slot, lock_word, half, time_word, value_word, clock_word, issue_turn_word, issue_turn_slot, word_count};
ghost use Rattle.word_steps.specs.Plays.{looked, claims, turns, returns_unused, puts_back, takes_share, gives_share, reads_back, missed, holds, shares, lets_go, frees, arrives, draws, stores, ends, closes, unclaims, takes_issue_turn, gives_issue_turn, issues, gives_up_issue, issuing_at, parent_of, child_of, joined};
ghost use Rattle.word_steps.specs.Premises.{Has, IsNumbered, Sources, MayTake, MayTakeShare, MayGiveShare, MayReadBack, MayLock, MayReturn, MayPut, IsThrough, IsOver, IsBare, HasNoRights, OnTop};
ghost use Rattle.word_steps.specs.Rule.{end_code, fate_for, IsIssueState};
ghost use Rattle.share_words.specs.Shares.{AreShares, share_count};
ghost use Rattle.word_steps.specs.Table.{graph_of, events_of, IsSeatOf};

use crate::content::Content;
use crate::plays::{
    Arrive, BeginIssue, Both, Claim, Close, Copies, Draw, Ending, Free, GiveIssueTurn, GiveShare,
    GiveUpIssue, Hold, Issued, LetGo, Look, LookAtLock, Put, ReadBack, Return, Share, Store,
    TakeIssueTurn, TakeShare, Turn, Unclaim,
};
use crate::table::WordTable;
use crate::view::View;
use graph_model::graph::Graph;
use graph_terms::outcome::End;
use index_spaces::Op;
use share_words::ShareCounts;

/// How far the clock and the issue turn, which all threads write, stand from other words: a cache
/// line has eight words.
pub const APART: usize = 8;

/// What a reservation's word is below where no line holds it alone: then it is how many share it.
/// Else it is the line's number plus 1, times this.
pub const HALF: u64 = 4_294_967_296;

/// A place at the table of a run: a seat without the events.
pub type Place = atomic_table::Seat<Content, View>;

/// The code of an end.
fn code(end: End) -> u64
    ensures { result ≡ end_code end }
{
    match end {
        End::Done => 0,
        End::Faulted => 1,
        End::Cancelled => 2,
        End::Waiting => 3,
    }
}

/// The word of the clock of a graph.
pub fn clock_word(graph: &Graph, shares: &ShareCounts) -> usize
    requires { AreShares graph.now shares.now }
    ensures word { result ≡ clock_word (size_of graph.now) }
    ensures few { result < 300000 }
{
    let columns = graph.columns() as usize;
    let planes = shares.planes() as usize * (columns + APART);
    3 * graph.lines() as usize + columns + planes + graph.locks() as usize + APART
}

/// The slot of the issue state of a graph.
pub fn issue_turn_slot(graph: &Graph, shares: &ShareCounts) -> usize
    requires { AreShares graph.now shares.now }
    ensures { result ≡ issue_turn_slot (size_of graph.now) }
{
    let columns = graph.columns() as usize;
    graph.lines() as usize + columns + shares.planes() as usize * columns
}

impl<'g> WordTable<'g> {
    /// The slot of the issue state.
    pub fn issue_turn_slot(&self) -> usize
        ensures { result ≡ issue_turn_slot (size_of (graph_of self.now)) }
    {
        self.issue_slot
    }

    /// The slot of a column.
    pub fn column_slot(&self, c: u32) -> usize
        requires known { c < length (columns (graph_of self.now)) }
        ensures { result ≡ column_slot (size_of (graph_of self.now)) c }
    {
        let graph = self.base.checked.graph();
        graph.lines() as usize + c as usize
    }

    /// The word of a column's turn.
    pub(crate) fn turn_word(&self, c: u32) -> usize
        requires known { c < length (columns (graph_of self.now)) }
        ensures word { result ≡ turn_word (size_of (graph_of self.now)) c }
        ensures there { result < word_count (size_of (graph_of self.now)) }
    {
        let graph = self.base.checked.graph();
        3 * graph.lines() as usize + c as usize
    }

    /// The word of a reservation.
    pub(crate) fn lock_word(&self, l: u32) -> usize
        requires known { l < length (locks (graph_of self.now)) }
        ensures word { result ≡ lock_word (size_of (graph_of self.now)) l }
        ensures lines { length (graph_of self.now).lines ≤ MAX_LINES_OF_THREE }
        ensures there { result < word_count (size_of (graph_of self.now)) }
    {
        let graph = self.base.checked.graph();
        self.clock_word() - APART - graph.locks() as usize + l as usize
    }

    /// The word of a share.
    pub(crate) fn share_word(&self, c: u32, j: u32) -> usize
        requires known { (c < length (columns (graph_of self.now))) × (j < share_count (graph_of self.now) c) }
        ensures word { result ≡ share_word (size_of (graph_of self.now)) c j }
        ensures there { result < word_count (size_of (graph_of self.now)) }
    {
        let graph = self.base.checked.graph();
        let columns = graph.columns() as usize;
        3 * graph.lines() as usize + columns + j as usize * (columns + APART) + c as usize + APART
    }

    /// The slot of a share.
    pub fn share_slot(&self, c: u32, j: u32) -> usize
        requires known { (c < length (columns (graph_of self.now))) × (j < share_count (graph_of self.now) c) }
        ensures { result ≡ share_slot (size_of (graph_of self.now)) c j }
    {
        let graph = self.base.checked.graph();
        let columns = graph.columns() as usize;
        graph.lines() as usize + columns + j as usize * columns + c as usize
    }

    /// How many shares a column has.
    pub fn share_count(&self, c: u32) -> u32
        requires known { c < length (columns (graph_of self.now)) }
        ensures { result ≡ share_count (graph_of self.now) c }
    {
        self.shares.of_column(c)
    }

    /// The word of the time of a line.
    pub(crate) fn time_word(&self, i: u32) -> usize
        requires known { i < length (graph_of self.now).lines }
        ensures word { result ≡ time_word (size_of (graph_of self.now)) i }
        ensures there { result < word_count (size_of (graph_of self.now)) }
    {
        let graph = self.base.checked.graph();
        graph.lines() as usize + i as usize
    }

    /// The word of the clock.
    pub(crate) fn clock_word(&self) -> usize
        ensures word { result ≡ clock_word (size_of (graph_of self.now)) }
        ensures few { result < 300000 }
        ensures lines { length (graph_of self.now).lines ≤ MAX_LINES_OF_THREE }
    {
        let graph = self.base.checked.graph();
        let _ = graph.lines();
        let _ = graph.columns();
        let _ = graph.locks();
        self.clock
    }

    /// The word of the issue turn.
    pub(crate) fn issue_turn_word(&self) -> usize
        ensures { result ≡ issue_turn_word (size_of (graph_of self.now)) }
    {
        self.clock_word() + APART
    }

    /// Splits a seat.
    pub fn split_place(&self, seat: &mut Place) -> Place
        requires at { IsSeatOf self.now seat.old }
        requires numbered { IsNumbered seat.old.me.0 }
        ensures at { IsSeatOf self.now seat.new × IsSeatOf self.now result }
        ensures parent { seat.new.me ≡ (parent_of seat.old.me.0, seat.old.me.1) }
        ensures child { result.me ≡ (child_of seat.old.me.0, []) }
    {
        self.table.shared.split_seat::<Copies>(seat)
    }

    /// Joins a seat without rights into another.
    pub fn join_place(&self, seat: &mut Place, other: Place)
        requires at { IsSeatOf self.now seat.old }
        requires other { IsSeatOf self.now other }
        requires numbered { IsNumbered seat.old.me.0 }
        requires empty { other.me.1 ≡ [] }
        requires free { HasNoRights other.me.0 }
        ensures at { IsSeatOf self.now seat.new }
        ensures joined { seat.new.me ≡ (joined seat.old.me.0 other.me.0, seat.old.me.1) }
    {
        self.table.shared.join_seat::<Both>(seat, other);
    }

    /// Loads the word of a line.
    pub fn look(&self, seat: &mut Place, line: u32) -> u64
        requires at { IsSeatOf self.now seat.old }
        requires line { line < length (graph_of self.now).lines }
        ensures at { IsSeatOf self.now seat.new }
        ensures looked { looked line seat.old.me result seat.new.me }
    {
        self.table.shared.load::<Look>(seat, line as usize)
    }

    /// Claims a line for its work, where it is issued. The answer is the word that was found: 2 where
    /// the line was claimed.
    pub fn claim(&self, seat: &mut Place, line: u32) -> u64
        requires at { IsSeatOf self.now seat.old }
        requires line { line < length (graph_of self.now).lines }
        requires idle { seat.old.me.0.claim ≡ None }
        requires numbered { IsNumbered seat.old.me.0 }
        requires comes { never_comes (graph_of self.now) line ≡ false }
        requires sources { Sources (graph_of self.now) line seat.old.me.0 }
        ensures table { seat.new.table_id ≡ seat.old.table_id }
        ensures claims { claims line seat.old.me result seat.new.me }
    {
        self.table
            .shared
            .compare_exchange::<Claim>(seat, line as usize, 2, 3)
    }

    /// Takes a column, where it is at home. The answer is the word that was found: 0 where the column
    /// was taken.
    pub fn take_turn(&self, seat: &mut Place, line: u32, c: u32) -> u64
        requires at { IsSeatOf self.now seat.old }
        requires known { c < length (columns (graph_of self.now)) }
        requires may { Has seat.old.me.0 (λ cl. (cl.line ≡ line) × MayTake (graph_of self.now) c cl) }
        ensures table { seat.new.table_id ≡ seat.old.table_id }
        ensures turns { turns (turn_word (size_of (graph_of self.now)) c) seat.old.me result seat.new.me }
    {
        let word = self.turn_word(c);
        self.table
            .shared
            .compare_exchange::<Turn>(seat, word, 0, line as u64 + 1)
    }

    /// Gives the column back that was taken last, as it was.
    pub fn return_column(&self, seat: &mut Place, c: u32)
        requires at { IsSeatOf self.now seat.old }
        requires known { c < length (columns (graph_of self.now)) }
        requires may { MayReturn (graph_of self.now) c seat.old.me }
        ensures at { IsSeatOf self.now seat.new }
        ensures returned { returns_unused seat.old.me seat.new.me }
    {
        let word = self.turn_word(c);
        self.table.shared.store::<Return>(seat, word, 0);
    }

    /// Puts the line back on the column that was taken last.
    pub fn put_column(&self, seat: &mut Place, c: u32)
        requires at { IsSeatOf self.now seat.old }
        requires known { c < length (columns (graph_of self.now)) }
        requires may { MayPut (graph_of self.now) c seat.old.me }
        ensures at { IsSeatOf self.now seat.new }
        ensures put { puts_back seat.old.me seat.new.me }
    {
        let word = self.turn_word(c);
        self.table.shared.store::<Put>(seat, word, 0);
    }

    /// Takes a share, where nobody has it. The answer is the word that was found: 0 where the share was
    /// taken.
    pub fn take_share(&self, seat: &mut Place, line: u32, c: u32, j: u32) -> u64
        requires at { IsSeatOf self.now seat.old }
        requires known { (c < length (columns (graph_of self.now))) × (j < share_count (graph_of self.now) c) }
        requires may { Has seat.old.me.0 (λ cl. (cl.line ≡ line) × MayTakeShare (graph_of self.now) c j cl) }
        ensures table { seat.new.table_id ≡ seat.old.table_id }
        ensures takes { takes_share (share_word (size_of (graph_of self.now)) c j) seat.old.me result seat.new.me }
    {
        let word = self.share_word(c, j);
        self.table
            .shared
            .compare_exchange::<TakeShare>(seat, word, 0, line as u64 + 1)
    }

    /// Gives the share back that was taken last.
    pub fn give_share(&self, seat: &mut Place, c: u32, j: u32)
        requires at { IsSeatOf self.now seat.old }
        requires known { (c < length (columns (graph_of self.now))) × (j < share_count (graph_of self.now) c) }
        requires may { MayGiveShare (graph_of self.now) c j seat.old.me }
        ensures at { IsSeatOf self.now seat.new }
        ensures given { gives_share seat.old.me seat.new.me }
    {
        let word = self.share_word(c, j);
        self.table.shared.store::<GiveShare>(seat, word, 0);
    }

    /// Puts the line back on the column of the share that was taken last, which it only reads.
    pub fn read_back(&self, seat: &mut Place, c: u32, j: u32)
        requires at { IsSeatOf self.now seat.old }
        requires known { (c < length (columns (graph_of self.now))) × (j < share_count (graph_of self.now) c) }
        requires may { MayReadBack (graph_of self.now) c j seat.old.me }
        ensures at { IsSeatOf self.now seat.new }
        ensures back { reads_back seat.old.me seat.new.me }
    {
        let word = self.share_word(c, j);
        self.table.shared.store::<ReadBack>(seat, word, 0);
    }

    /// Takes a reservation for one line alone, where none holds it. The answer is the word that was
    /// found: 0 where the reservation was taken.
    pub fn hold(&self, seat: &mut Place, line: u32, l: u32) -> u64
        requires at { IsSeatOf self.now seat.old }
        requires known { l < length (locks (graph_of self.now)) }
        requires line { line < length (graph_of self.now).lines }
        requires may { MayLock (graph_of self.now) line l seat.old.me.0 }
        requires alone { line_passes is_shared (graph_of self.now) line ≡ false }
        ensures table { seat.new.table_id ≡ seat.old.table_id }
        ensures holds { holds (lock_word (size_of (graph_of self.now)) l) seat.old.me result seat.new.me }
    {
        let word = self.lock_word(l);
        let alone = (line as u64 + 1) * HALF;
        self.table
            .shared
            .compare_exchange::<Hold>(seat, word, 0, alone)
    }

    /// The word of a reservation.
    pub fn look_at_lock(&self, seat: &mut Place, l: u32) -> u64
        requires at { IsSeatOf self.now seat.old }
        requires known { l < length (locks (graph_of self.now)) }
        ensures at { IsSeatOf self.now seat.new }
        ensures seen { missed (lock_word (size_of (graph_of self.now)) l) seat.old.me result seat.new.me }
    {
        let word = self.lock_word(l);
        self.table.shared.load::<LookAtLock>(seat, word)
    }

    /// Takes a reservation beside the lines that share it, where its word is still the one that was
    /// found before. The answer is the word that was found now.
    pub fn share(&self, seat: &mut Place, line: u32, l: u32, before: u64) -> u64
        requires at { IsSeatOf self.now seat.old }
        requires known { l < length (locks (graph_of self.now)) }
        requires may { MayLock (graph_of self.now) line l seat.old.me.0 }
        requires shared { line_passes is_shared (graph_of self.now) line ≡ true }
        requires low { before < half }
        ensures table { seat.new.table_id ≡ seat.old.table_id }
        ensures shares { shares (lock_word (size_of (graph_of self.now)) l) before seat.old.me result seat.new.me }
    {
        let word = self.lock_word(l);
        self.table
            .shared
            .compare_exchange::<Share>(seat, word, before, before + 1)
    }

    /// Lets a reservation go, which the line holds alone or shares.
    pub fn let_go(&self, seat: &mut Place, line: u32, l: u32, shared: bool)
        requires at { IsSeatOf self.now seat.old }
        requires known { l < length (locks (graph_of self.now)) }
        requires may { Has seat.old.me.0 (λ cl. (cl.line ≡ line) × Acquires (graph_of self.now) line l × (cl.holds ≡ true) × (cl.time ≡ None)) }
        requires shared { shared ≡ line_passes is_shared (graph_of self.now) line }
        ensures at { IsSeatOf self.now seat.new }
        ensures gone { lets_go seat.old.me seat.new.me }
    {
        let word = self.lock_word(l);
        if shared {
            self.table.shared.fetch_sub::<LetGo>(seat, word, 1);
        } else {
            self.table.shared.store::<LetGo>(seat, word, 0);
        }
    }

    /// Frees a reservation, by the release of an acquire that is ended and done, which held it alone
    /// or shared it.
    pub fn free(&self, seat: &mut Place, q: u32, l: u32, shared: bool)
        requires at { IsSeatOf self.now seat.old }
        requires known { l < length (locks (graph_of self.now)) }
        requires may { Has seat.old.me.0 (λ cl. (x : End) × (cl.ends ≡ Some x) × Releases (graph_of self.now) cl.line q
            × (cl.freed ≡ false)) }
        requires acquire { Acquires (graph_of self.now) q l }
        requires done { Contains seat.old.me.0.ended (q, Done) }
        requires shared { shared ≡ line_passes is_shared (graph_of self.now) q }
        ensures at { IsSeatOf self.now seat.new }
        ensures freed { frees seat.old.me seat.new.me }
    {
        let word = self.lock_word(l);
        if shared {
            self.table.shared.fetch_sub::<Free>(seat, word, 1);
        } else {
            self.table.shared.store::<Free>(seat, word, 0);
        }
    }

    /// Draws a time, which no other line draws.
    pub fn draw(&self, seat: &mut Place) -> u64
        requires at { IsSeatOf self.now seat.old }
        requires may { Has seat.old.me.0 (λ cl. (cl.ends ≡ None) × (cl.time ≡ None)
            × ((l : ℕ) → Acquires (graph_of self.now) cl.line l → eval_end (graph_of self.now) cl.line ≢ Cancelled → cl.holds ≡ true)) }
        ensures at { IsSeatOf self.now seat.new }
        ensures drawn { draws seat.old.me result seat.new.me }
    {
        let word = self.clock_word();
        self.table.shared.fetch_add::<Draw>(seat, word, 1)
    }

    /// Stores the time of a line.
    pub fn store_time(&self, seat: &mut Place, line: u32, time: u64)
        requires at { IsSeatOf self.now seat.old }
        requires line { line < length (graph_of self.now).lines }
        requires time { time ≤ MAX_LINES_OF_THREE }
        requires may { Has seat.old.me.0 (λ cl. (cl.line ≡ line) × (cl.time ≡ Some time) × (cl.stored ≡ false)) }
        ensures at { IsSeatOf self.now seat.new }
        ensures stored { stores seat.old.me seat.new.me }
    {
        let word = self.time_word(line);
        self.table.shared.store::<Store>(seat, word, time + 1);
    }

    /// Ends a line.
    pub fn end_line(&self, seat: &mut Place, line: u32, end: End)
        requires at { IsSeatOf self.now seat.old }
        requires line { line < length (graph_of self.now).lines }
        requires may { Has seat.old.me.0 (λ cl. (cl.line ≡ line) × IsThrough (graph_of self.now) cl end) }
        ensures at { IsSeatOf self.now seat.new }
        ensures ends { ends (4 + end_code end) seat.old.me seat.new.me }
    {
        let end = code(end);
        self.table
            .shared
            .store::<Ending>(seat, line as usize, 4 + end);
    }

    /// Closes a line that is ending.
    pub fn close_line(&self, seat: &mut Place, line: u32, end: End)
        requires at { IsSeatOf self.now seat.old }
        requires line { line < length (graph_of self.now).lines }
        requires may { Has seat.old.me.0 (λ cl. (cl.line ≡ line) × IsOver (graph_of self.now) cl end
            × ((receipt : TheReceipt) × OnTop line (EventReceipt receipt) seat.old.me.1 × IsReceiptOf (events_of self.now) receipt
            × (ended_by receipt ≡ cl.event) × (fate_of receipt ≡ fate_for end))) }
        ensures at { IsSeatOf self.now seat.new }
        ensures closes { closes line (8 + end_code end) seat.old.me seat.new.me }
    {
        let end = code(end);
        self.table
            .shared
            .store::<Close>(seat, line as usize, 8 + end);
    }

    /// Gives up the claim of a line that has done nothing.
    pub fn unclaim(&self, seat: &mut Place, line: u32)
        requires at { IsSeatOf self.now seat.old }
        requires line { line < length (graph_of self.now).lines }
        requires may { Has seat.old.me.0 (λ cl. (cl.line ≡ line) × IsBare cl
            × ((pending : ThePending) × OnTop line (PendingEvent pending) seat.old.me.1 × IsPendingOf (events_of self.now) pending
            × (handle_of pending ≡ cl.event))) }
        ensures at { IsSeatOf self.now seat.new }
        ensures unclaims { unclaims seat.old.me seat.new.me }
    {
        self.table.shared.store::<Unclaim>(seat, line as usize, 2);
    }

    /// Takes the issue turn, where nobody has it. The answer is the word that was found: 0 where the
    /// turn was taken.
    pub fn take_issue_turn(&self, seat: &mut Place) -> u64
        requires at { IsSeatOf self.now seat.old }
        requires idle { seat.old.me.0.issue_turn ≡ None }
        requires numbered { IsNumbered seat.old.me.0 }
        ensures table { seat.new.table_id ≡ seat.old.table_id }
        ensures takes { takes_issue_turn (issue_turn_word (size_of (graph_of self.now))) seat.old.me result seat.new.me }
    {
        let word = self.issue_turn_word();
        self.table
            .shared
            .compare_exchange::<TakeIssueTurn>(seat, word, 0, 1)
    }

    /// Gives the issue turn, with the issue state in the hand.
    pub fn give_issue_turn(&self, seat: &mut Place)
        requires at { IsSeatOf self.now seat.old }
        requires quiet { seat.old.me.0.issuing ≡ None }
        requires may { (handles : List TheHandle) × (seat.old.me.0.issue_turn ≡ Some handles)
            × ((issue_state : TheIssueState) × OnTop (issue_turn_slot (size_of (graph_of self.now))) (Issuer issue_state) seat.old.me.1
            × IsIssueState (events_of self.now) (length (graph_of self.now).lines) handles issue_state) }
        ensures at { IsSeatOf self.now seat.new }
        ensures gives { gives_issue_turn seat.old.me seat.new.me }
    {
        let word = self.issue_turn_word();
        self.table.shared.store::<GiveIssueTurn>(seat, word, 0);
    }

    /// Claims the next line to issue it. Its word is 0, since nobody issues without the
    /// issue turn.
    pub fn begin_issue(&self, seat: &mut Place, line: u32)
        requires at { IsSeatOf self.now seat.old }
        requires line { line < length (graph_of self.now).lines }
        requires quiet { seat.old.me.0.issuing ≡ None }
        requires may { (handles : List TheHandle) × (seat.old.me.0.issue_turn ≡ Some handles) × (length handles ≡ line) }
        ensures at { IsSeatOf self.now seat.new }
        ensures begun { seat.new.me ≡ (issuing_at seat.old.me.0 line, (line, Nothing) ∷ seat.old.me.1) }
    {
        self.table
            .shared
            .compare_exchange::<BeginIssue>(seat, line as usize, 0, 1);
    }

    /// Issues the line with the event in the hand.
    pub fn store_issue(&self, seat: &mut Place, line: u32)
        requires at { IsSeatOf self.now seat.old }
        requires line { line < length (graph_of self.now).lines }
        requires mine { seat.old.me.0.issuing ≡ Some line }
        requires may { (handles : List TheHandle) × (seat.old.me.0.issue_turn ≡ Some handles) × (length handles ≡ line)
            × ((pending : ThePending) × OnTop line (PendingEvent pending) seat.old.me.1 × IsPendingOf (events_of self.now) pending
            × (Contains handles (handle_of pending) → ⊥)) }
        ensures at { IsSeatOf self.now seat.new }
        ensures issues { issues line seat.old.me seat.new.me }
    {
        self.table.shared.store::<Issued>(seat, line as usize, 2);
    }

    /// Gives up issuing the line.
    pub fn give_up_issue(&self, seat: &mut Place, line: u32)
        requires at { IsSeatOf self.now seat.old }
        requires line { line < length (graph_of self.now).lines }
        requires mine { seat.old.me.0.issuing ≡ Some line }
        requires may { (handles : List TheHandle) × (seat.old.me.0.issue_turn ≡ Some handles) × OnTop line Nothing seat.old.me.1 }
        ensures at { IsSeatOf self.now seat.new }
        ensures given_up { gives_up_issue seat.old.me seat.new.me }
    {
        self.table
            .shared
            .store::<GiveUpIssue>(seat, line as usize, 0);
    }

    /// The word of the value of a phase.
    pub(crate) fn value_word(&self, p: u32) -> usize
        requires known { p < length (graph_of self.now).lines }
        ensures word { result ≡ value_word (size_of (graph_of self.now)) p }
        ensures there { result < word_count (size_of (graph_of self.now)) }
    {
        let graph = self.base.checked.graph();
        2 * graph.lines() as usize + p as usize
    }

    /// Puts an arrival in at its phase, whose barrier reduces by this operation.
    pub fn arrive(&self, seat: &mut Place, phase: u32, op: Op, value: u64)
        requires at { IsSeatOf self.now seat.old }
        requires known { phase < length (graph_of self.now).lines }
        requires may { Has seat.old.me.0 (λ cl. (cl.ends ≡ None) × (value_for (graph_of self.now) phase cl.line ≡ Some value)
            × (eval_end (graph_of self.now) cl.line ≢ Cancelled) × (cl.arrived ≡ false)) }
        requires op { (b : ℕ) (y : BarrierInfo) → verb_at (graph_of self.now) phase ≡ Some (Phase b)
            → slice_get (barriers (graph_of self.now)) b ≡ Some y → y.op ≡ op }
        ensures at { IsSeatOf self.now seat.new }
        ensures arrived { arrives seat.old.me seat.new.me }
    {
        let word = self.value_word(phase);
        match op {
            Op::Sum => {
                self.table.shared.fetch_add::<Arrive>(seat, word, value);
            }
            Op::Min => {
                self.table.shared.fetch_min::<Arrive>(seat, word, value);
            }
            Op::Max => {
                self.table.shared.fetch_max::<Arrive>(seat, word, value);
            }
        }
    }
}
