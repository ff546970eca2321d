//! Putting back a line whose work is done.

ghost use Rattle.std.specs.Prelude.{ℕ, suc, slice_get, List, [], ◌≡◌, ◌≢◌, ◌<◌, ◌∷◌, true, Some, None, length, Contains};
ghost use Rattle.graph_terms.specs.declared.outcome.End.{End as TheEnd};
ghost use Rattle.graph_terms.specs.declared.outcome.End.TheVariants.{Cancelled};
ghost use Rattle.graph_meaning.specs.Evaluation.{eval_end};
ghost use Rattle.graph_terms.specs.Graph.{columns};
ghost use Rattle.graph_terms.specs.Reservations.{Acquires};
ghost use Rattle.run_state.specs.Run.{is_listed};
ghost use Rattle.run_state.specs.WholeLine.{column_list, phase_op};
ghost use Rattle.shared_events.specs.declared.tokens.Pending.{Pending as ThePending};
ghost use Rattle.shared_events.specs.declared.tokens.Receipt.{Receipt as TheReceipt};
ghost use Rattle.shared_events.specs.Seats.{Grows, Keeps, SamePlacings};
ghost use Rattle.shared_events.specs.Views.{IsAt, lists, IsPendingOf, IsReceiptOf, IsCaughtOf, handle_of, ended_by, fate_of, caught_on, given_by, rest_of};
ghost use Rattle.word_steps.specs.Claims.{Claim as TheClaim};
ghost use Rattle.word_steps.specs.declared.content.Content.{Content as TheContent};
ghost use Rattle.word_steps.specs.declared.content.Content.TheVariants.{PendingEvent, EventReceipt};
ghost use Rattle.word_steps.specs.declared.view.View.{View as TheView};
ghost use Rattle.word_loads.specs.Laden.{Laden, with_taken, WorkDone, IsPutBack, IsBrought, MayBring, IsEnding, IsReleased};
ghost use Rattle.word_loads.specs.Gathering.{SeenOnTop, WholeOnTop, as_left, less_read, less_whole, LosesOne, MayRead};
ghost use Rattle.share_words.specs.Shares.{share_count};
ghost use Rattle.graph_terms.specs.Access.{accesses};
ghost use Rattle.word_steps.specs.Layout.{column_slot};
ghost use Rattle.word_steps.specs.Plays.{on_claim, timed_at};
ghost use Rattle.word_steps.specs.Premises.{Has};
ghost use Rattle.word_steps.specs.Rule.{fate_for};
ghost use Rattle.word_steps.specs.Table.{graph_of, events_of, IsSeatOf};

use crate::loads::Load;
use crate::taking::{is_reader, scatter};
use event_table::Fate;
use graph_meaning::laws::edges_between_lines;
use graph_meaning::line_laws::phases_fit;
use graph_model::graph::Graph;
use graph_terms::outcome::End;
use graph_terms::verb::{Access, Verb};
use index_spaces::Op;
use shared_events::{Caught, Pending, Seat};
use word_steps::{Content, Place, WordTable, content_of};

/// A line has at most three accesses.
const MOST_ACCESSES: u32 = 3;

/// The word of a line that has ended with Done.
const ENDED_DONE: u64 = 8;

/// How the values of arrivals at a phase are reduced.
fn phase_op(graph: &Graph, phase: u32) -> Op
    requires { phase < length graph.now.lines }
    ensures { result ≡ phase_op graph.now phase }
{
    phases_fit();
    match &graph.line(phase).verb {
        Verb::Phase { barrier } => graph.barrier(*barrier).op,
        _ => Op::Sum,
    }
}

/// The fate with which the event of a line ends.
fn fate(end: End) -> Fate
    ensures { result ≡ fate_for end }
{
    match end {
        End::Done => Fate::Ok,
        End::Faulted => Fate::Poison,
        End::Cancelled => Fate::Poison,
        End::Waiting => Fate::Ok,
    }
}

/// The event of a line.
fn pending_of(content: Content) -> Pending
    requires { (p : ThePending) × (content ≡ PendingEvent p) }
    ensures { content ≡ PendingEvent result }
{
    let Content::PendingEvent(pending) = content else {
        unreachable!()
    };
    pending
}

/// Draws the time of a line, and stores it.
fn record_time<'g>(table: &WordTable<'g>, seat: &mut Place, line: u32)
    requires at { IsSeatOf table.now seat.old }
    requires line { line < length (graph_of table.now).lines }
    requires may { Has seat.old.me.0 (λ cl. (cl.line ≡ line) × (cl.ends ≡ None) × (cl.time ≡ None)
        × ((l : ℕ) → Acquires (graph_of table.now) cl.line l → eval_end (graph_of table.now) cl.line ≢ Cancelled → cl.holds ≡ true)) }
    ensures at { IsSeatOf table.now seat.new }
    ensures now { (t : ℕ) × (seat.new.me ≡ (on_claim (timed_at t) seat.old.me.0, seat.old.me.1)) }
{
    let time = table.draw(seat);
    table.store_time(seat, line, time);
}

/// Ends the event of a line, which lies in the line's slot in the hand, and puts the receipt in
/// its place.
pub fn end_event<'g>(
    table: &WordTable<'g>,
    events: &mut Seat,
    seat: &mut Place,
    line: u32,
    end: End,
) -> Caught
    requires at { IsSeatOf table.now seat.old }
    requires events { IsAt (events_of table.now) events.old }
    requires top { (pending : ThePending) × (left : List (ℕ × TheContent)) × (seat.old.me.1 ≡ (line, PendingEvent pending) ∷ left)
        × IsPendingOf (events_of table.now) pending }
    ensures at { IsSeatOf table.now seat.new }
    ensures events { IsAt (events_of table.now) events.new × Keeps (lists events.old) (lists events.new) }
    ensures grows { Grows (lists events.old) (lists events.new) }
    ensures same_placings { SamePlacings (lists events.old) (lists events.new) }
    ensures now { (pending : ThePending) (left : List (ℕ × TheContent)) → seat.old.me.1 ≡ (line, PendingEvent pending) ∷ left
        → (receipt : TheReceipt) × (seat.new.me ≡ (seat.old.me.0, (line, EventReceipt receipt) ∷ left)) × IsReceiptOf (events_of table.now) receipt
        × (ended_by receipt ≡ handle_of pending) × (fate_of receipt ≡ fate_for end) × (caught_on result ≡ handle_of pending) }
    ensures caught { IsCaughtOf (events_of table.now) result }
    ensures waiters { (k : ℕ) → Contains (lists events.new).placed (k, caught_on result) → Contains (rest_of result) k }
    ensures given { given_by result ≡ (lists events.old).given }
{
    let pending = pending_of(table.take_out(seat, line as usize));
    let (receipt, caught) = table.base.events.end(events, pending, fate(end));
    table.put_in(seat, line as usize, Content::EventReceipt(receipt));
    caught
}

/// Puts a line back on a column that it only reads, with the share that it took last.
fn put_seen<'g>(table: &WordTable<'g>, seat: &mut Place, load: &mut Load, c: u32, j: u32)
    requires at { IsSeatOf table.now seat.old }
    requires known { (c < length (columns (graph_of table.now))) × (j < share_count (graph_of table.now) c) }
    requires reads { 0 < j }
    requires top { (t : SeenOnTop (graph_of table.now) c j seat.old.me load.old.held) × MayRead (graph_of table.now) c t.claim }
    ensures at { IsSeatOf table.now seat.new }
    ensures held { LosesOne c load.old load.new }
    ensures now { (t : SeenOnTop (graph_of table.now) c j seat.old.me load.old.held) → seat.new.me ≡ less_read c seat.old.me.0 t.claim t.more t.left }
{
    let share = load.held.take_share(c);
    let slot = table.share_slot(c, j);
    table.put_in(seat, slot, Content::Share(share));
    table.read_back(seat, c, j);
}

/// Puts a line back on a column that it may change, the last that it has, and gives its shares back.
fn put_whole<'g>(table: &WordTable<'g>, seat: &mut Place, load: &mut Load, c: u32)
    requires at { IsSeatOf table.now seat.old }
    requires known { c < length (columns (graph_of table.now)) }
    requires top { WholeOnTop (graph_of table.now) c (as_left (graph_of table.now) c) seat.old.me load.old.held }
    ensures at { IsSeatOf table.now seat.new }
    ensures held { LosesOne c load.old load.new }
    ensures now { (t : WholeOnTop (graph_of table.now) c (as_left (graph_of table.now) c) seat.old.me load.old.held)
        → seat.new.me ≡ less_whole seat.old.me.0 t.claim t.columns (c ∷ t.claim.puts) t.more t.left }
{
    let column = load.held.take(c);
    let count = table.share_count(c);
    let (content, all) = content_of(column, count);
    let slot = table.column_slot(c);
    table.put_in(seat, slot, content);
    table.put_column(seat, c);
    scatter(table, seat, c, count, all);
}

/// Puts a line back on the column of its access k, the last that it has.
fn put_one<'g>(
    table: &WordTable<'g>,
    seat: &mut Place,
    load: &mut Load,
    line: u32,
    k: u32,
    access: Access,
)
    requires at { IsSeatOf table.now seat.old }
    requires known { access.column < length (columns (graph_of table.now)) }
    requires few { k < 3 }
    requires access { slice_get (accesses (graph_of table.now) line) k ≡ Some access }
    requires laden { (v : TheView) × (cl : TheClaim) × (left : List (ℕ × TheContent))
        × Laden (graph_of table.now) line (suc k) v cl left seat.old.me load.old.held load.old.numbers }
    ensures at { IsSeatOf table.now seat.new }
    ensures laden { (v : TheView) (cl : TheClaim) (left : List (ℕ × TheContent))
        → Laden (graph_of table.now) line (suc k) v cl left seat.old.me load.old.held load.old.numbers
        → Laden (graph_of table.now) line k v cl left seat.new.me load.new.held load.new.numbers }
{
    if is_reader(access) {
        let number = load.numbers[k as usize] as u32;
        put_seen(table, seat, load, access.column, number);
    } else {
        put_whole(table, seat, load, access.column);
    }
}

/// Puts a line back on its columns, the last that it took first.
fn put_columns<'g>(table: &WordTable<'g>, seat: &mut Place, line: u32, mut load: Load)
    requires at { IsSeatOf table.now seat.old }
    requires line { line < length (graph_of table.now).lines }
    requires laden { (v : TheView) × (cl : TheClaim) × (left : List (ℕ × TheContent))
        × Laden (graph_of table.now) line 3 v cl left seat.old.me load.held load.numbers }
    ensures at { IsSeatOf table.now seat.new }
    ensures put { (v : TheView) (cl : TheClaim) (left : List (ℕ × TheContent))
        → Laden (graph_of table.now) line 3 v cl left seat.old.me load.held load.numbers
        → (puts : List ℕ) × (seat.new.me ≡ (record v { claim = Some (with_taken cl [] puts) }, left))
        × ((j c : ℕ) → slice_get (column_list (graph_of table.now) line) j ≡ Some c → is_listed puts c ≡ true) }
{
    let graph = table.base.checked.graph();
    let _ = graph.lines();
    let mut k = MOST_ACCESSES;
    while k > 0 {
        k -= 1;
        if let Some(access) = graph.access(line, k) {
            put_one(table, seat, &mut load, line, k, access);
        }
    }
}

/// Puts a line that is not cancelled back on its columns.
fn put_work<'g>(table: &WordTable<'g>, seat: &mut Place, line: u32, end: End, load: Load)
    requires at { IsSeatOf table.now seat.old }
    requires line { line < length (graph_of table.now).lines }
    requires done { (v : TheView) × (cl : TheClaim) × (left : List (ℕ × TheContent))
        × WorkDone (graph_of table.now) line end v cl left seat.old.me load.held load.numbers }
    ensures at { IsSeatOf table.now seat.new }
    ensures put { (v : TheView) (cl : TheClaim) (left : List (ℕ × TheContent))
        → WorkDone (graph_of table.now) line end v cl left seat.old.me load.held load.numbers
        → IsPutBack (graph_of table.now) line end v cl left seat.new.me }
{
    if let End::Cancelled = end {
        return;
    }
    put_columns(table, seat, line, load);
}

/// Puts an arrival in at its phase, unless it is cancelled.
fn bring<'g>(table: &WordTable<'g>, seat: &mut Place, line: u32, end: End)
    requires at { IsSeatOf table.now seat.old }
    requires line { line < length (graph_of table.now).lines }
    requires put { (v : TheView) × (cl : TheClaim) × (left : List (ℕ × TheContent))
        × (IsPutBack (graph_of table.now) line end v cl left seat.old.me × MayBring (graph_of table.now) line end cl) }
    ensures at { IsSeatOf table.now seat.new }
    ensures brought { (v : TheView) (cl : TheClaim) (left : List (ℕ × TheContent))
        → IsPutBack (graph_of table.now) line end v cl left seat.old.me → IsBrought (graph_of table.now) line end v cl left seat.new.me }
{
    if let End::Cancelled = end {
        return;
    }
    edges_between_lines();
    let graph = table.base.checked.graph();
    if let Verb::Arrive { phase, value, .. } = &graph.line(line).verb {
        table.arrive(seat, *phase, phase_op(graph, *phase), *value);
    }
}

/// Frees the reservation of a release, where its acquire is done.
pub fn free_lock<'g>(table: &WordTable<'g>, seat: &mut Place, line: u32)
    requires at { IsSeatOf table.now seat.old }
    requires line { line < length (graph_of table.now).lines }
    requires ending { (x : TheEnd) × (v : TheView) × (cl : TheClaim) × (left : List (ℕ × TheContent))
        × IsEnding line x v cl left seat.old.me }
    ensures at { IsSeatOf table.now seat.new }
    ensures released { (x : TheEnd) (v : TheView) (cl : TheClaim) (left : List (ℕ × TheContent))
        → IsEnding line x v cl left seat.old.me → IsReleased (graph_of table.now) line x v cl left seat.new.me }
{
    let graph = table.base.checked.graph();
    let Verb::Release { acquire } = &graph.line(line).verb else {
        return;
    };
    let found = table.look(seat, *acquire);
    if found != ENDED_DONE {
        return;
    }
    let Verb::Acquire { lock, shared } = &graph.line(*acquire).verb else {
        unreachable!()
    };
    table.free(seat, *acquire, *lock, *shared);
}

/// Puts a line back on its columns, puts it in where it arrives, draws its time and ends it.
pub fn end_work<'g>(table: &WordTable<'g>, seat: &mut Place, line: u32, end: End, load: Load)
    requires at { IsSeatOf table.now seat.old }
    requires line { line < length (graph_of table.now).lines }
    requires done { (v : TheView) × (cl : TheClaim) × (left : List (ℕ × TheContent))
        × WorkDone (graph_of table.now) line end v cl left seat.old.me load.held load.numbers }
    ensures at { IsSeatOf table.now seat.new }
    ensures ending { (v : TheView) (cl : TheClaim) (left : List (ℕ × TheContent))
        → WorkDone (graph_of table.now) line end v cl left seat.old.me load.held load.numbers → IsEnding line end v cl left seat.new.me }
{
    put_work(table, seat, line, end, load);
    bring(table, seat, line, end);
    record_time(table, seat, line);
    table.end_line(seat, line, end);
}
