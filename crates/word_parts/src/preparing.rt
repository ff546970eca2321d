//! What a run is prepared from: its first words and slots, and the issue state.

ghost use Rattle.std.specs.Prelude.{ℕ, ◌≡◌, ◌+◌, ◌-◌, ◌≢◌, ◌<◌, ◌≤◌, ◌++◌, ◌∷◌, [], length, vec_len, replicate, Some, None, slice_index_or, slice_set, IfOk};
ghost use Rattle.std.specs.Vec.{vec_capacity};
ghost use Rattle.index_spaces.specs.Column.{ColumnValue};
ghost use Rattle.graph_meaning.specs.Effect.{zero_cells};
ghost use Rattle.graph_terms.specs.declared.limits.TheConstants.{MAX_LINES_OF_THREE};
ghost use Rattle.graph_terms.specs.Graph.{columns as graph_columns};
ghost use Rattle.line_effects.specs.Homes.{all_home};
ghost use Rattle.run_state.specs.Start.{first_value};
ghost use Rattle.shared_events.specs.declared.events.Events.{Events as TheEvents};
ghost use Rattle.shared_events.specs.Views.{shape_of, IsAt as IsEventsAt, IsSetOf, IsWaiterOf, number_of, taken_of, size_of as set_size};
ghost use Rattle.word_steps.specs.Layout.{size_of, slot_count};
ghost use Rattle.word_steps.specs.Opening.{AreFirstWords, AreFirstSlots};
ghost use Rattle.word_steps.specs.Lending.{in_place, place_for, rest_for};
ghost use Rattle.word_parts.specs.Preparing.{IsLoose, AreLoose, AreWaiters, AreMoved, ArePlaced, AreSpread, AreEmpty, AreOut};
ghost use Rattle.word_steps.specs.Rule.{IsIssueState};
ghost use Rattle.word_steps.specs.declared.content.Content.TheVariants.{Nothing};
ghost use Rattle.share_words.specs.Shares.{AreShares};

use graph_meaning::line_laws::phases_fit;
use graph_model::graph::Graph;
use graph_terms::verb::Verb;
use index_spaces::NoMemory;
use index_spaces::column::Column;
use index_spaces::shares::ColumnShare;
use line_effects::homes::Homes;
use share_words::ShareCounts;
use shared_events::{Events, Seat, Waiter, WaiterSet};
use std::alloc::{AllocError, Global};
use std::mem::replace;
use word_steps::{
    APART, BoxedIssueState, Content, IssueState, clock_word, content_of, issue_turn_slot,
};

/// Lets go of what is no event of a line that has not ended: such an event may not be dropped.
fn let_loose(content: Content)
    requires { IsLoose content }
{
    match content {
        Content::Nothing => {}
        Content::EventReceipt(receipt) => drop(receipt),
        Content::Cells(column) => drop(column),
        Content::Lent(lender) => drop(lender),
        Content::Share(share) => drop(share),
        Content::Issuer(issue_turn) => drop(issue_turn),
        _ => unreachable!(),
    }
}

/// Lets go of slots.
pub(crate) fn discard(mut slots: Vec<Content>)
    requires { AreLoose slots.items }
{
    while let Some(content) = slots.pop() {
        let_loose(content);
    }
    slots.destroy_empty();
}

/// Puts something at the end of slots that have room for it.
fn push_slot(slots: &mut Vec<Content>, content: Content)
    requires room { vec_len slots.old < vec_capacity slots.old }
    ensures items { slots.new.items ≡ slots.old.items ++ content ∷ [] }
    ensures capacity { vec_capacity slots.old ≤ vec_capacity slots.new }
{
    match slots.push(content) {
        Ok(()) => {}
        Err(_) => unreachable!(),
    }
}

/// The first value of the barrier of a phase, and 0 for another line.
fn first_value(graph: &Graph, line: u32) -> u64
    requires { line < length graph.now.lines }
    ensures { result ≡ first_value graph.now line }
{
    phases_fit();
    match &graph.line(line).verb {
        Verb::Phase { barrier } => graph.barrier(*barrier).first,
        _ => 0,
    }
}

/// The words of a run that begins.
pub(crate) fn first_words(
    alloc: Global,
    graph: &Graph,
    shares: &ShareCounts,
) -> Result<Vec<u64>, NoMemory>
    requires { AreShares graph.now shares.now }
    ensures { IfOk result (λ words. AreFirstWords graph.now (size_of graph.now) words.items) }
{
    let lines = graph.lines() as usize;
    let count = clock_word(graph, shares) + 2 * APART;
    let Ok(mut words) = zeros_of(alloc, count) else {
        return Err(NoMemory);
    };
    for line in 0..graph.lines() {
        words[2 * lines + line as usize] = first_value(graph, line);
    }
    Ok(words)
}

/// So many zeros.
fn zeros_of(alloc: Global, count: usize) -> Result<Vec<u64>, AllocError>
    ensures { IfOk result (λ words. words.items ≡ replicate count 0) }
{
    let words = vec![in alloc; 0u64; count]?;
    Ok(words)
}

/// Slots that hold nothing, one for each line, and room for so many.
fn line_slots(alloc: Global, lines: u32, count: usize) -> Result<Vec<Content>, NoMemory>
    requires room { lines ≤ count }
    ensures empty { IfOk result (λ slots. AreEmpty lines slots.items × AreLoose slots.items × (count ≤ vec_capacity slots)) }
{
    let Ok(mut slots) = Vec::with_capacity(alloc, count) else {
        return Err(NoMemory);
    };
    for _line in 0..lines {
        push_slot(&mut slots, Content::Nothing);
    }
    Ok(slots)
}

/// Moves out a column that is at home.
fn take_home(homes: &mut Homes, c: u32) -> Column
    requires known { c < length homes.old }
    requires home { (x : ColumnValue) × (slice_index_or homes.old c None ≡ Some x) }
    ensures column { slice_index_or homes.old c None ≡ Some result }
    ensures homes { homes.new ≡ slice_set homes.old c None }
{
    match homes.take(c) {
        Some(column) => column,
        None => unreachable!(),
    }
}

/// Moves the columns of a graph, each cell 0, out of their homes and behind the slots of the lines, and all shares of
/// each, where it has some, into a list.
fn move_columns(
    graph: &Graph,
    homes: &mut Homes,
    shares: &ShareCounts,
    slots: &mut Vec<Content>,
    lent: &mut Vec<Content>,
)
    requires zero { homes.old ≡ all_home graph.now zero_cells }
    requires shares { AreShares graph.now shares.now }
    requires empty { AreMoved graph.now 0 slots.old.items lent.old.items }
    requires loose { AreLoose slots.old.items × AreLoose lent.old.items }
    requires room { (slot_count (size_of graph.now) ≤ vec_capacity slots.old) × (length (graph_columns graph.now) ≤ vec_capacity lent.old) }
    ensures moved { AreMoved graph.now (length (graph_columns graph.now)) slots.new.items lent.new.items }
    ensures loose { AreLoose slots.new.items × AreLoose lent.new.items }
    ensures room { slot_count (size_of graph.now) ≤ vec_capacity slots.new }
    ensures out { AreOut graph.now homes.new }
{
    for c in 0..graph.columns() {
        let column = take_home(homes, c);
        let (content, all) = content_of(column, shares.of_column(c));
        push_slot(slots, content);
        push_slot(lent, share_or_nothing(all));
    }
}

/// What lies in the place of shares, if there are some.
fn share_or_nothing(all: Option<ColumnShare>) -> Content
    ensures { result ≡ in_place all }
{
    match all {
        Some(all) => Content::Share(all),
        None => Content::Nothing,
    }
}

/// The share of this number, off what is left of so many, or nothing where there are no more.
fn next_share(rest: &mut Content, number: u32, count: u32) -> Content
    requires number { 0 < number }
    requires rest { (d : ℕ) × (x : ColumnValue) × (rest.old ≡ rest_for count number d x) }
    ensures rest { (d : ℕ) (x : ColumnValue) → rest.old ≡ rest_for count number d x → rest.new ≡ rest_for count (number + 1) d x }
    ensures share { (d : ℕ) (x : ColumnValue) → rest.old ≡ rest_for count number d x → result ≡ place_for count number d x }
{
    if number >= count {
        return Content::Nothing;
    }
    let Content::Share(share) = rest else {
        unreachable!()
    };
    Content::Share(share.split_one())
}

/// Puts the shares of a number, off what is left of each column's, behind the other slots.
fn push_plane(
    graph: &Graph,
    shares: &ShareCounts,
    number: u32,
    slots: &mut Vec<Content>,
    lent: &mut Vec<Content>,
)
    requires number { (0 < number) × (number < (size_of graph.now).planes) }
    requires shares { AreShares graph.now shares.now }
    requires placed { ArePlaced graph.now number 0 slots.old.items lent.old.items }
    requires loose { AreLoose slots.old.items × AreLoose lent.old.items }
    requires room { slot_count (size_of graph.now) ≤ vec_capacity slots.old }
    ensures placed { ArePlaced graph.now (number + 1) 0 slots.new.items lent.new.items }
    ensures loose { AreLoose slots.new.items × AreLoose lent.new.items }
    ensures room { slot_count (size_of graph.now) ≤ vec_capacity slots.new }
{
    for c in 0..graph.columns() {
        let count = shares.of_column(c);
        let share = next_share(&mut lent[c as usize], number, count);
        push_slot(slots, share);
    }
}

/// Puts nothing behind other slots, so often.
fn push_nothing(slots: &mut Vec<Content>, count: usize)
    requires room { vec_len slots.old + count ≤ vec_capacity slots.old }
    ensures items { slots.new.items ≡ slots.old.items ++ replicate count Nothing }
    ensures capacity { vec_capacity slots.old ≤ vec_capacity slots.new }
{
    for _place in 0..count {
        push_slot(slots, Content::Nothing);
    }
}

/// Puts what is left of the shares of each column into the places of the first shares, which begin here and
/// hold nothing.
fn put_rests(graph: &Graph, slots: &mut Vec<Content>, mut rests: Vec<Content>)
    requires planes { 0 < (size_of graph.now).planes }
    requires spread { AreSpread graph.now (length (graph_columns graph.now)) slots.old.items rests.items }
    requires loose { AreLoose slots.old.items × AreLoose rests.items }
    ensures spread { AreSpread graph.now 0 slots.new.items [] }
    ensures loose { AreLoose slots.new.items }
    ensures room { vec_capacity slots.new ≡ vec_capacity slots.old }
{
    let first = graph.lines() as usize + graph.columns() as usize;
    while let Some(rest) = rests.pop() {
        let at = first + rests.len();
        let_loose(replace(&mut slots[at], rest));
    }
    rests.destroy_empty();
}

/// Spreads the shares of columns over their places, behind the other slots.
fn spread_shares(
    graph: &Graph,
    shares: &ShareCounts,
    slots: &mut Vec<Content>,
    mut lent: Vec<Content>,
)
    requires shares { AreShares graph.now shares.now }
    requires moved { AreMoved graph.now (length (graph_columns graph.now)) slots.old.items lent.items }
    requires loose { AreLoose slots.old.items × AreLoose lent.items }
    requires room { slot_count (size_of graph.now) ≤ vec_capacity slots.old }
    ensures spread { AreSpread graph.now 0 slots.new.items [] }
    ensures loose { AreLoose slots.new.items }
    ensures room { slot_count (size_of graph.now) ≤ vec_capacity slots.new }
{
    if shares.planes() == 0 {
        discard(lent);
        return;
    }
    push_nothing(slots, graph.columns() as usize);
    for number in 1..shares.planes() {
        push_plane(graph, shares, number, slots, &mut lent);
    }
    put_rests(graph, slots, lent);
}

/// The slots of lines, without a column, and room for all slots; and room for the shares of all columns.
fn empty_slots(
    alloc: Global,
    graph: &Graph,
    shares: &ShareCounts,
) -> Result<(Vec<Content>, Vec<Content>), NoMemory>
    requires shares { AreShares graph.now shares.now }
    ensures moved { IfOk result (λ r. AreMoved graph.now 0 r.0.items r.1.items × AreLoose r.0.items × AreLoose r.1.items) }
    ensures room { IfOk result (λ r. (slot_count (size_of graph.now) ≤ vec_capacity r.0) × (length (graph_columns graph.now) ≤ vec_capacity r.1)) }
{
    let lines = graph.lines();
    let columns = graph.columns() as usize;
    let count = issue_turn_slot(graph, shares) + 1;
    let Ok(lent) = Vec::with_capacity(alloc, columns) else {
        return Err(NoMemory);
    };
    match line_slots(alloc, lines, count) {
        Ok(slots) => Ok((slots, lent)),
        Err(_) => {
            lent.destroy_empty();
            Err(NoMemory)
        }
    }
}

/// The slots of a run that begins, with the columns from their homes.
pub(crate) fn first_slots(
    alloc: Global,
    graph: &Graph,
    homes: &mut Homes,
    shares: &ShareCounts,
    issue_turn: BoxedIssueState,
) -> Result<Vec<Content>, NoMemory>
    requires zero { homes.old ≡ all_home graph.now zero_cells }
    requires shares { AreShares graph.now shares.now }
    ensures home { (e : TheEvents) → IsIssueState e (length graph.now.lines) [] issue_turn
        → IfOk result (λ slots. AreFirstSlots graph.now e (size_of graph.now) slots.items) }
    ensures loose { IfOk result (λ slots. AreLoose slots.items) }
    ensures out { IfOk result (λ slots. AreOut graph.now homes.new) }
{
    let (mut slots, mut lent) = empty_slots(alloc, graph, shares)?;
    move_columns(graph, homes, shares, &mut slots, &mut lent);
    spread_shares(graph, shares, &mut slots, lent);
    push_slot(&mut slots, Content::Issuer(issue_turn));
    Ok(slots)
}

/// The next waiter, of which one is left.
fn next_waiter(set: &mut WaiterSet, events: &Events) -> Waiter
    requires set { IsSetOf events.now set.old }
    requires left { taken_of set.old ≢ set_size set.old }
    ensures set { IsSetOf events.now set.new × (set_size set.new ≡ set_size set.old) }
    ensures waiter { (number_of result ≡ taken_of set.old) × (taken_of set.new ≡ taken_of set.old + 1) × IsWaiterOf events.now result }
{
    match set.take(events) {
        Some(waiter) => waiter,
        None => unreachable!(),
    }
}

/// Puts a waiter at the end of a list that has room for it.
fn push_waiter(waiters: &mut Vec<Option<Waiter>>, waiter: Waiter)
    requires room { vec_len waiters.old < vec_capacity waiters.old }
    ensures items { waiters.new.items ≡ waiters.old.items ++ Some waiter ∷ [] }
    ensures capacity { vec_capacity waiters.old ≤ vec_capacity waiters.new }
{
    match waiters.push(Some(waiter)) {
        Ok(()) => {}
        Err(_) => unreachable!(),
    }
}

/// All waiters of a set, each at its number.
fn all_waiters(
    alloc: Global,
    events: &Events,
    mut set: WaiterSet,
    lines: u32,
) -> Result<Vec<Option<Waiter>>, NoMemory>
    requires set { IsSetOf events.now set × (taken_of set ≡ 0) × (set_size set ≡ lines) }
    ensures { IfOk result (λ waiters. AreWaiters events.now lines waiters.items) }
{
    let Ok(mut waiters) = Vec::with_capacity(alloc, lines as usize) else {
        return Err(NoMemory);
    };
    for _line in 0..lines {
        let waiter = next_waiter(&mut set, events);
        push_waiter(&mut waiters, waiter);
    }
    Ok(waiters)
}

/// The last generation that a slot comes to, since none serves twice before each has served.
fn last_gen(slots: u32, lines: u32) -> u32
    ensures { result ≡ lines - slots }
{
    lines.saturating_sub(slots)
}

/// The events of a run that begins, the issue state, and a seat.
pub(crate) fn new_issue_turn(
    alloc: Global,
    slots: u32,
    lines: u32,
) -> Result<(Events, BoxedIssueState, Seat), NoMemory>
    requires slots { (0 < slots) × (slots ≤ 8192) }
    requires lines { lines ≤ MAX_LINES_OF_THREE }
    ensures shape { IfOk result (λ r. ((shape_of r.0).slots ≡ slots) × ((shape_of r.0).waiters ≡ lines)
        × ((shape_of r.0).last_gen ≡ lines - slots)) }
    ensures issue_state { IfOk result (λ r. IsIssueState r.0 lines [] r.1) }
    ensures at { IfOk result (λ r. IsEventsAt r.0 r.2) }
{
    let Ok((events, maker, mut seat, set)) = Events::new(
        alloc,
        slots,
        lines,
        last_gen(slots, lines),
    ) else {
        return Err(NoMemory);
    };
    let Ok(handles) = Vec::with_capacity(alloc, lines as usize) else {
        return Err(NoMemory);
    };
    let waiters = all_waiters(alloc, &events, set, lines)?;
    let own = events.split(&mut seat);
    let state = IssueState {
        maker,
        handles,
        seat: own,
        waiters,
    };
    let issue_turn = BoxedIssueState::new(alloc, state)?;
    Ok((events, issue_turn, seat))
}
