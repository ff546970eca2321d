//! Taking the columns of a line, and shares of those that it only reads.

ghost use Rattle.std.specs.Prelude.{ℕ, suc, List, [], ◌≡◌, ◌+◌, ◌-◌, ◌<◌, ◌≤◌, true, false, Some, None, IfOk, IfErr, length, slice_get};
ghost use Rattle.graph_terms.specs.Access.{accesses, is_read};
ghost use Rattle.graph_terms.specs.Graph.{columns};
ghost use Rattle.index_spaces.specs.Held.{held_at};
ghost use Rattle.index_spaces.specs.Shares.{ShareValue};
ghost use Rattle.run_state.specs.Sharing.{ChangesColumn};
ghost use Rattle.run_state.specs.WholeLine.{column_list};
ghost use Rattle.share_words.specs.Shares.{share_count};
ghost use Rattle.word_steps.specs.declared.content.Content.{Content as TheContent};
ghost use Rattle.word_steps.specs.declared.view.View.{View as TheView};
ghost use Rattle.word_steps.specs.Claims.{Claim as TheClaim, TakenShare};
ghost use Rattle.word_steps.specs.Plays.{Sat};
ghost use Rattle.word_steps.specs.Premises.{Has, MayTakeShare, ListsShare};
ghost use Rattle.word_loads.specs.Laden.{Taking};
ghost use Rattle.word_loads.specs.Refusals.{IsLoaded, IsRefused};
ghost use Rattle.word_loads.specs.Taking.{HasFirst, GivesBack, TakesAccess, FindsAccess, TakesAll, StopsAt};
ghost use Rattle.word_loads.specs.Gathering.{no_numbers, with_share, MayAdd, tried_share, GetsShare, FindsShare, MayGather, Gathers, IsGathered, GivesOne, without_first, TakesWhole, FindsWhole, TakesSeen, TakesSome, FindsSeen, SeenOnTop, WholeOnTop, less_seen, less_whole, as_home, LosesOne};
ghost use Rattle.word_steps.specs.Table.{graph_of, IsSeatOf};

use crate::loads::Load;
use graph_model::graph::Graph;
use graph_terms::verb::{Access, Mode};
use index_spaces::shares::ColumnShare;
use run_parts::Thing;
use word_steps::{Content, Place, WordTable, column_of, content_of, share_in};

/// A line has at most three accesses.
const MOST_ACCESSES: u32 = 3;

/// Whether an access only reads.
pub(crate) fn is_reader(access: Access) -> bool
    ensures { result ≡ is_read access.mode }
{
    matches!(access.mode, Mode::Read)
}

/// One share with those that were taken before, if there are some.
fn with_share(all: Option<ColumnShare>, share: ColumnShare) -> ColumnShare
    requires { MayAdd all share }
    ensures { result ≡ with_share all share }
{
    match all {
        Some(mut all) => {
            all.join(share);
            all
        }
        None => share,
    }
}

/// The share that a line tries next that only reads a column: those from number 1 on, of which the first
/// to be tried is given.
fn tried_share(first: u32, tried: u32, readers: u32) -> u32
    requires { (first < readers) × (tried < readers) × (readers < 16) }
    ensures { result ≡ tried_share first tried readers }
{
    let next = 1 + first + tried;
    if next <= readers {
        next
    } else {
        next - readers
    }
}

/// Takes share j of a column. None comes where it was found with another line.
fn take_number<'g>(
    table: &WordTable<'g>,
    seat: &mut Place,
    line: u32,
    c: u32,
    j: u32,
) -> Option<ColumnShare>
    requires at { IsSeatOf table.now seat.old }
    requires known { (c < length (columns (graph_of table.now))) × (j < share_count (graph_of table.now) c) }
    requires may { Has seat.old.me.0 (λ cl. (cl.line ≡ line) × MayTakeShare (graph_of table.now) c j cl) }
    requires fresh { Has seat.old.me.0 (λ cl. ListsShare cl.shares c j → ⊥) }
    ensures at { IsSeatOf table.now seat.new }
    ensures taken { (x : ShareValue) → result ≡ Some x → GetsShare (graph_of table.now) c j seat.old.me seat.new.me x }
    ensures busy { result ≡ None → FindsShare (graph_of table.now) line c j seat.old.me seat.new.me }
{
    if table.take_share(seat, line, c, j) != 0 {
        return None;
    }
    let slot = table.share_slot(c, j);
    Some(share_in(table.take_out(seat, slot)))
}

/// Takes the shares of a column, the first first, until one is found with another line: how many, and
/// all these together.
fn gather<'g>(
    table: &WordTable<'g>,
    seat: &mut Place,
    line: u32,
    c: u32,
    count: u32,
) -> (u32, Option<ColumnShare>)
    requires at { IsSeatOf table.now seat.old }
    requires known { c < length (columns (graph_of table.now)) }
    requires count { count ≡ share_count (graph_of table.now) c }
    requires may { Has seat.old.me.0 (MayGather (graph_of table.now) line c) }
    ensures at { IsSeatOf table.now seat.new }
    ensures few { result.0 ≤ count }
    ensures gathers { Gathers (graph_of table.now) line c result.0 seat.old.me seat.new.me result.1 }
{
    let mut all = None;
    let mut j = 0;
    while j < count {
        let Some(share) = take_number(table, seat, line, c, j) else {
            return (j, all);
        };
        all = Some(with_share(all, share));
        j += 1;
    }
    (count, all)
}

/// Gives one share back, the last that was taken.
fn give_one<'g>(table: &WordTable<'g>, seat: &mut Place, c: u32, j: u32, share: ColumnShare)
    requires at { IsSeatOf table.now seat.old }
    requires known { (c < length (columns (graph_of table.now))) × (j < share_count (graph_of table.now) c) }
    requires may { GivesOne (graph_of table.now) c j seat.old.me share }
    ensures at { IsSeatOf table.now seat.new }
    ensures given { seat.new.me ≡ without_first seat.old.me }
{
    let slot = table.share_slot(c, j);
    table.put_in(seat, slot, Content::Share(share));
    table.give_share(seat, c, j);
}

/// Gives the first shares of a column back, which were taken last, the last of them first.
pub(crate) fn scatter<'g>(
    table: &WordTable<'g>,
    seat: &mut Place,
    c: u32,
    count: u32,
    all: Option<ColumnShare>,
)
    requires at { IsSeatOf table.now seat.old }
    requires known { c < length (columns (graph_of table.now)) }
    requires few { count ≤ share_count (graph_of table.now) c }
    requires gathered { (m : Sat) × (ss : List TakenShare) × IsGathered (graph_of table.now) c count ss all m seat.old.me }
    ensures at { IsSeatOf table.now seat.new }
    ensures given { (m : Sat) (ss : List TakenShare) → IsGathered (graph_of table.now) c count ss all m seat.old.me → seat.new.me ≡ m }
{
    let Some(mut rest) = all else {
        return;
    };
    let mut j = count;
    while j > 1 {
        j -= 1;
        let one = rest.split_one();
        give_one(table, seat, c, j, one);
    }
    give_one(table, seat, c, 0, rest);
}

/// Takes a column with all its shares. False comes where its word or a share was found with another
/// line, and then nothing is kept.
fn take_whole<'g>(
    table: &WordTable<'g>,
    seat: &mut Place,
    load: &mut Load,
    line: u32,
    c: u32,
) -> bool
    requires at { IsSeatOf table.now seat.old }
    requires known { c < length (columns (graph_of table.now)) }
    requires may { Has seat.old.me.0 (MayGather (graph_of table.now) line c) }
    requires changes { ChangesColumn (graph_of table.now) line c }
    requires new { held_at load.old.held c ≡ None }
    requires few { length load.old.held < 4 }
    ensures at { IsSeatOf table.now seat.new }
    ensures taken { result ≡ true → TakesWhole (graph_of table.now) c seat.old.me load.old seat.new.me load.new }
    ensures busy { result ≡ false → FindsWhole (graph_of table.now) line c seat.old.me load.old seat.new.me load.new }
{
    let count = table.share_count(c);
    let (taken, all) = gather(table, seat, line, c, count);
    if taken < count {
        scatter(table, seat, c, taken, all);
        return false;
    }
    // The word of a column that has shares is free for who has them all.
    if table.take_turn(seat, line, c) != 0 {
        return false;
    }
    let slot = table.column_slot(c);
    let column = column_of(table.take_out(seat, slot), all);
    load.held.add(c, column);
    true
}

/// Takes share j of a column that a line only reads. False comes where it was found with another line.
fn take_seen<'g>(
    table: &WordTable<'g>,
    seat: &mut Place,
    load: &mut Load,
    line: u32,
    k: u32,
    c: u32,
    j: u32,
) -> bool
    requires at { IsSeatOf table.now seat.old }
    requires known { (c < length (columns (graph_of table.now))) × (j < share_count (graph_of table.now) c) }
    requires reads { 0 < j }
    requires may { Has seat.old.me.0 (MayGather (graph_of table.now) line c) }
    requires access { k < 3 }
    requires new { held_at load.old.held c ≡ None }
    requires few { length load.old.held < 4 }
    ensures at { IsSeatOf table.now seat.new }
    ensures taken { result ≡ true → TakesSeen (graph_of table.now) k c j seat.old.me load.old seat.new.me load.new }
    ensures busy { result ≡ false → FindsShare (graph_of table.now) line c j seat.old.me seat.new.me × (load.new ≡ load.old) }
{
    let Some(share) = take_number(table, seat, line, c, j) else {
        return false;
    };
    load.held.add_share(c, share);
    load.numbers[k as usize] = j as u8;
    true
}

/// Takes a share of a column that a line only reads. False comes where each was found with another line.
/// Lines begin with different ones.
fn take_some_share<'g>(
    table: &WordTable<'g>,
    seat: &mut Place,
    load: &mut Load,
    line: u32,
    k: u32,
    c: u32,
) -> bool
    requires at { IsSeatOf table.now seat.old }
    requires known { c < length (columns (graph_of table.now)) }
    requires readers { (2 ≤ share_count (graph_of table.now) c) × (share_count (graph_of table.now) c ≤ 9) }
    requires may { Has seat.old.me.0 (MayGather (graph_of table.now) line c) }
    requires access { k < 3 }
    requires new { held_at load.old.held c ≡ None }
    requires few { length load.old.held < 4 }
    ensures at { IsSeatOf table.now seat.new }
    ensures taken { result ≡ true → TakesSome (graph_of table.now) k c seat.old.me load.old seat.new.me load.new }
    ensures busy { result ≡ false → FindsSeen (graph_of table.now) line c seat.old.me load.old seat.new.me load.new }
{
    let readers = table.share_count(c) - 1;
    let first = line % readers;
    let mut tried = 0;
    while tried < readers {
        let j = tried_share(first, tried, readers);
        if take_seen(table, seat, load, line, k, c, j) {
            return true;
        }
        tried += 1;
    }
    false
}

/// Takes what the access k of a line names, if it has one. False comes where it was found with
/// another line.
fn take_access<'g>(
    table: &WordTable<'g>,
    seat: &mut Place,
    load: &mut Load,
    line: u32,
    k: u32,
) -> bool
    requires at { IsSeatOf table.now seat.old }
    requires line { line < length (graph_of table.now).lines }
    requires few { k < 3 }
    requires taking { HasFirst (graph_of table.now) line k seat.old.me load.old }
    ensures at { IsSeatOf table.now seat.new }
    ensures taken { result ≡ true → TakesAccess (graph_of table.now) line k seat.old.me load.old seat.new.me load.new }
    ensures busy { result ≡ false → FindsAccess (graph_of table.now) line k seat.old.me load.old seat.new.me load.new }
{
    let graph = table.base.checked.graph();
    let _ = graph.lines();
    let Some(access) = graph.access(line, k) else {
        return true;
    };
    if is_reader(access) {
        take_some_share(table, seat, load, line, k, access.column)
    } else {
        take_whole(table, seat, load, line, access.column)
    }
}

/// Takes the columns of a line, in the order of its accesses, of those that it only reads a share. Some
/// comes where one was found with another line: the place of its access, before which all were
/// found free and are taken.
fn take_columns<'g>(
    table: &WordTable<'g>,
    seat: &mut Place,
    load: &mut Load,
    line: u32,
) -> Option<u32>
    requires at { IsSeatOf table.now seat.old }
    requires line { line < length (graph_of table.now).lines }
    requires taking { HasFirst (graph_of table.now) line 0 seat.old.me load.old }
    ensures at { IsSeatOf table.now seat.new }
    ensures all { result ≡ None → TakesAll (graph_of table.now) line seat.old.me load.old seat.new.me load.new }
    ensures busy { (k : ℕ) → result ≡ Some k → StopsAt (graph_of table.now) line k seat.old.me load.old seat.new.me load.new }
    ensures few { (k : ℕ) → result ≡ Some k → k < 3 }
{
    let mut k = 0;
    while k < MOST_ACCESSES {
        if !take_access(table, seat, load, line, k) {
            return Some(k);
        }
        k += 1;
    }
    None
}

/// Gives back the share of a column that a line only reads, the last that it has taken.
fn return_seen<'g>(table: &WordTable<'g>, seat: &mut Place, load: &mut Load, c: u32, j: u32)
    requires at { IsSeatOf table.now seat.old }
    requires known { (c < length (columns (graph_of table.now))) × (j < share_count (graph_of table.now) c) }
    requires reads { 0 < j }
    requires top { SeenOnTop (graph_of table.now) c j seat.old.me load.old.held }
    ensures at { IsSeatOf table.now seat.new }
    ensures held { LosesOne c load.old load.new }
    ensures now { (t : SeenOnTop (graph_of table.now) c j seat.old.me load.old.held) → seat.new.me ≡ less_seen seat.old.me.0 t.claim t.more t.left }
{
    let share = load.held.take_share(c);
    give_one(table, seat, c, j, share);
}

/// Gives back a column with all its shares, the last that a line has taken.
fn return_whole<'g>(table: &WordTable<'g>, seat: &mut Place, load: &mut Load, c: u32)
    requires at { IsSeatOf table.now seat.old }
    requires known { c < length (columns (graph_of table.now)) }
    requires top { WholeOnTop (graph_of table.now) c (as_home (graph_of table.now) c) seat.old.me load.old.held }
    ensures at { IsSeatOf table.now seat.new }
    ensures held { LosesOne c load.old load.new }
    ensures now { (t : WholeOnTop (graph_of table.now) c (as_home (graph_of table.now) c) seat.old.me load.old.held)
        → seat.new.me ≡ less_whole seat.old.me.0 t.claim t.columns t.claim.puts t.more t.left }
{
    let column = load.held.take(c);
    let count = table.share_count(c);
    let (content, all) = content_of(column, count);
    let slot = table.column_slot(c);
    table.put_in(seat, slot, content);
    table.return_column(seat, c);
    scatter(table, seat, c, count, all);
}

/// Gives back what the access k names, the last that a line has taken.
fn return_one<'g>(
    table: &WordTable<'g>,
    seat: &mut Place,
    load: &mut Load,
    line: u32,
    k: u32,
    access: Access,
)
    requires at { IsSeatOf table.now seat.old }
    requires known { access.column < length (columns (graph_of table.now)) }
    requires few { k < 3 }
    requires access { slice_get (accesses (graph_of table.now) line) k ≡ Some access }
    requires taking { HasFirst (graph_of table.now) line (suc k) seat.old.me load.old }
    ensures at { IsSeatOf table.now seat.new }
    ensures returned { GivesBack (graph_of table.now) line (suc k) k seat.old.me load.old seat.new.me load.new }
{
    if is_reader(access) {
        let number = load.numbers[k as usize] as u32;
        return_seen(table, seat, load, access.column, number);
    } else {
        return_whole(table, seat, load, access.column);
    }
}

/// Gives back what the first accesses of a line name, the last that it took first.
fn return_columns<'g>(
    table: &WordTable<'g>,
    seat: &mut Place,
    load: &mut Load,
    line: u32,
    from: u32,
)
    requires at { IsSeatOf table.now seat.old }
    requires line { line < length (graph_of table.now).lines }
    requires few { from < 4 }
    requires taking { HasFirst (graph_of table.now) line from seat.old.me load.old }
    ensures at { IsSeatOf table.now seat.new }
    ensures returned { GivesBack (graph_of table.now) line from 0 seat.old.me load.old seat.new.me load.new }
{
    let graph = table.base.checked.graph();
    let _ = graph.lines();
    let mut k = from;
    while k > 0 {
        k -= 1;
        if let Some(access) = graph.access(line, k) {
            return_one(table, seat, load, line, k, access);
        }
    }
}

/// The column of an access that a line has.
fn column_at(graph: &Graph, line: u32, k: u32) -> u32
    requires line { line < length graph.now.lines }
    requires there { (c : ℕ) × (slice_get (column_list graph.now line) k ≡ Some c) }
    ensures { slice_get (column_list graph.now line) k ≡ Some result }
{
    match graph.access(line, k) {
        Some(access) => access.column,
        None => unreachable!(),
    }
}

/// Takes the columns of a claimed line, or none where one is found with another line.
pub fn take_rest<'g>(table: &WordTable<'g>, place: &mut Place, line: u32) -> Result<Load, Thing>
    requires at { IsSeatOf table.now place.old }
    requires line { line < length (graph_of table.now).lines }
    requires taking { (v : TheView) × (cl : TheClaim) × (left : List (ℕ × TheContent))
        × Taking (graph_of table.now) line 0 v cl left place.old.me [] no_numbers }
    ensures at { IsSeatOf table.now place.new }
    ensures ok { IfOk result (λ load. (v : TheView) (cl : TheClaim) (left : List (ℕ × TheContent))
        → Taking (graph_of table.now) line 0 v cl left place.old.me [] no_numbers → IsLoaded (graph_of table.now) line v cl left place.new.me load) }
    ensures err { IfErr result (λ thing. (v : TheView) (cl : TheClaim) (left : List (ℕ × TheContent))
        → Taking (graph_of table.now) line 0 v cl left place.old.me [] no_numbers
        → IsRefused (graph_of table.now) line v cl left thing place.new.me) }
{
    let graph = table.base.checked.graph();
    let _ = graph.lines();
    let mut load = Load::none();
    if let Some(k) = take_columns(table, place, &mut load, line) {
        return_columns(table, place, &mut load, line, k);
        return Err(Thing::Column(column_at(graph, line, k)));
    }
    table.look(place, line);
    Ok(load)
}
