//! Creating events, which the one Maker does.

ghost use Rattle.shared_events.specs.Seats.{HasSeen, Knows, IsPast, Grows, Keeps, SamePlacings, no_event};
ghost use Rattle.event_table.specs.declared.handle.Handle.{Handle as TheHandle};
ghost use Rattle.shared_events.specs.Views.{lists, IsOf, IsAt, IsMakerOf, IsPendingOf, made_by, maker_lists, shape_of, handle_of, IsNew, IsFull, Scanned, AreHeld, AreTaken, IsWithin, ArePast, ComesAfter, ComesNext, GoesRound};
ghost use Rattle.std.specs.Prelude.{◌≡◌, ◌≢◌, ◌%◌, ◌/◌, ◌<◌, ◌≤◌, ◌++◌, [], Contains, IfSome, IfNone};

use crate::events::Events;
use crate::plays::{Both, Create, Grants, Informs, Reports, Scout};
use crate::tokens::{Maker, Pending, Seat};
use event_table::{Fate, Handle};

impl Events {
    /// A new pending handle, which then stands at the end of the Maker's list, all of which the seat
    /// has then seen. Each older handle of its slot was found to have ended, and no slot serves twice
    /// before each has served. None comes where each slot was found retired or pending, as the seat
    /// then shows, and by no handle that the seat knew to have ended.
    pub fn create(&self, maker: &mut Maker, seat: &mut Seat) -> Option<Pending>
        requires maker { IsMakerOf self.now maker.old }
        requires at { IsAt self.now seat.old }
        ensures maker { IsMakerOf self.now maker.new }
        ensures at { IsAt self.now seat.new }
        ensures grows { Grows (lists seat.old) (lists seat.new) }
        ensures kept { Keeps (lists seat.old) (lists seat.new) }
        ensures some { IfSome result (λ p. IsPendingOf self.now p × IsNew (made_by maker.old) (made_by maker.new) (handle_of p)
            × HasSeen (lists seat.new) (handle_of p) × (handle_of p ≢ no_event)) }
        ensures within { IfSome result (λ p. IsWithin (shape_of self.now) (handle_of p)) }
        ensures after { IfSome result (λ p. ComesAfter (made_by maker.old) (lists seat.new) (handle_of p)) }
        ensures none { IfNone result (made_by maker.new ≡ made_by maker.old) }
        ensures full { IfNone result (IsFull (shape_of self.now) (made_by maker.old) (lists seat.old) (lists seat.new)) }
        ensures taken { IfNone result (AreTaken (shape_of self.now) (made_by maker.old) (lists seat.old)) }
        ensures more_seen { (lists seat.new).seen ≡ (lists seat.old).seen ++ made_by maker.new }
        ensures same_known { (lists seat.new).known ≡ (lists seat.old).known }
        ensures same_placings { SamePlacings (lists seat.old) (lists seat.new) }
        ensures same_left { (lists seat.new).left ≡ (lists seat.old).left }
    {
        let told = self.split(seat);
        self.inform(maker, told);
        self.create_informed(maker, seat)
    }

    // Tells the Maker which handles a seat knows to have ended, so that it finds none of them pending.
    fn inform(&self, maker: &mut Maker, told: Seat)
        requires maker { IsMakerOf self.now maker.old }
        requires told { IsAt self.now told }
        ensures maker { IsMakerOf self.now maker.new }
        ensures made { made_by maker.new ≡ made_by maker.old }
        ensures past { (h : TheHandle) (f : Fate) → Knows (lists told) h f → IsPast (maker_lists maker.new) h }
    {
        let Seat { inner } = told;
        self.table
            .shared
            .join_seat::<Informs>(&mut maker.inner, inner);
    }

    // As `create`, by a Maker that was told. None comes where each slot is held by its last handle, or
    // by one of which the Maker was not told that it has ended.
    fn create_informed(&self, maker: &mut Maker, seat: &mut Seat) -> Option<Pending>
        requires maker { IsMakerOf self.now maker.old }
        requires at { IsAt self.now seat.old }
        ensures maker { IsMakerOf self.now maker.new }
        ensures at { IsAt self.now seat.new }
        ensures grows { Grows (lists seat.old) (lists seat.new) }
        ensures kept { Keeps (lists seat.old) (lists seat.new) }
        ensures some { IfSome result (λ p. IsPendingOf self.now p × IsNew (made_by maker.old) (made_by maker.new) (handle_of p)
            × HasSeen (lists seat.new) (handle_of p) × (handle_of p ≢ no_event)) }
        ensures within { IfSome result (λ p. IsWithin (shape_of self.now) (handle_of p)) }
        ensures after { IfSome result (λ p. ComesAfter (made_by maker.old) (lists seat.new) (handle_of p)) }
        ensures none { IfNone result (made_by maker.new ≡ made_by maker.old) }
        ensures full { IfNone result (IsFull (shape_of self.now) (made_by maker.old) (lists seat.old) (lists seat.new)) }
        ensures held { IfNone result (AreHeld (shape_of self.now) (made_by maker.old) (maker_lists maker.old) 0 (shape_of self.now).slots) }
        ensures more_seen { (lists seat.new).seen ≡ (lists seat.old).seen ++ made_by maker.new }
        ensures same_known { (lists seat.new).known ≡ (lists seat.old).known }
        ensures same_placings { SamePlacings (lists seat.old) (lists seat.new) }
        ensures same_left { (lists seat.new).left ≡ (lists seat.old).left }
    {
        let Some((slot, found)) = self.scan_round(maker) else {
            self.report(maker, seat);
            return None;
        };
        Some(self.make(maker, seat, slot, found))
    }

    // A free slot, with its word. The first that is looked at is the one behind that which was given
    // last, since the slots there were given longest ago.
    fn scan_round(&self, maker: &mut Maker) -> Option<(u32, u64)>
        requires maker { IsOf self.now maker.old.inner }
        ensures maker { IsOf self.now maker.new.inner }
        ensures made { made_by maker.new ≡ made_by maker.old }
        ensures slot { IfSome result (λ r. r.0 < (shape_of self.now).slots) }
        ensures free { IfSome result (λ r. (r.1 % 4294967296 ≡ 0) × Contains (maker_lists maker.new).spare r) }
        ensures past { IfSome result (λ r. ArePast (made_by maker.new) (maker_lists maker.new) r.0 (r.1 / 4294967296)) }
        ensures next { (maker.new.next ≡ maker.old.next)
            × IfSome result (λ r. maker.old.next < (shape_of self.now).slots → ComesNext (made_by maker.new) maker.old.next r.0) }
        ensures full { IfNone result (IsFull (shape_of self.now) (made_by maker.old) (maker_lists maker.old) (maker_lists maker.new)) }
        ensures held { IfNone result (AreHeld (shape_of self.now) (made_by maker.old) (maker_lists maker.old) 0 (shape_of self.now).slots) }
    {
        let from = self.first_to_scan(maker);
        let Some(free) = self.scan(maker, from, self.shape.slots) else {
            return self.scan(maker, 0, from);
        };
        Some(free)
    }

    // The slot behind the one that was given last.
    fn first_to_scan(&self, maker: &Maker) -> u32
        ensures within { result ≤ (shape_of self.now).slots }
        ensures next { maker.now.next < (shape_of self.now).slots → result ≡ maker.now.next }
    {
        if maker.next < self.shape.slots {
            maker.next
        } else {
            0
        }
    }

    // The first free slot from `low` on and below `high`, with its word.
    fn scan(&self, maker: &mut Maker, low: u32, high: u32) -> Option<(u32, u64)>
        requires maker { IsOf self.now maker.old.inner }
        requires high { high ≤ (shape_of self.now).slots }
        ensures maker { IsOf self.now maker.new.inner }
        ensures made { made_by maker.new ≡ made_by maker.old }
        ensures slot { IfSome result (λ r. r.0 < (shape_of self.now).slots) }
        ensures free { IfSome result (λ r. (r.1 % 4294967296 ≡ 0) × Contains (maker_lists maker.new).spare r) }
        ensures past { IfSome result (λ r. ArePast (made_by maker.new) (maker_lists maker.new) r.0 (r.1 / 4294967296)) }
        ensures next { (maker.new.next ≡ maker.old.next) × IfSome result (λ r. ComesNext (made_by maker.new) low r.0) }
        ensures none { IfNone result (Scanned (shape_of self.now) (made_by maker.old) (maker_lists maker.old) (maker_lists maker.new) low high) }
        ensures held { IfNone result (AreHeld (shape_of self.now) (made_by maker.old) (maker_lists maker.old) low high) }
        ensures known { (h : TheHandle) → IsPast (maker_lists maker.old) h → IsPast (maker_lists maker.new) h }
    {
        let mut slot = low;
        while slot < high {
            let found = self
                .table
                .shared
                .load::<Scout>(&mut maker.inner, slot as usize);
            if found % 4294967296 == 0 {
                return Some((slot, found));
            }
            slot += 1;
        }
        None
    }

    // Creates at a slot that the Maker found free.
    fn make(&self, maker: &mut Maker, seat: &mut Seat, slot: u32, found: u64) -> Pending
        requires maker { IsOf self.now maker.old.inner }
        requires round { GoesRound (shape_of self.now).slots maker.old.next (made_by maker.old) }
        requires next { maker.old.next < (shape_of self.now).slots → ComesNext (made_by maker.old) maker.old.next slot }
        requires at { IsAt self.now seat.old }
        requires slot { slot < (shape_of self.now).slots }
        requires free { (found % 4294967296 ≡ 0) × Contains (maker_lists maker.old).spare (slot, found) }
        requires past { ArePast (made_by maker.old) (maker_lists maker.old) slot (found / 4294967296) }
        ensures maker { IsMakerOf self.now maker.new }
        ensures at { IsAt self.now seat.new }
        ensures grows { Grows (lists seat.old) (lists seat.new) }
        ensures kept { Keeps (lists seat.old) (lists seat.new) }
        ensures pending { IsPendingOf self.now result }
        ensures new { IsNew (made_by maker.old) (made_by maker.new) (handle_of result) }
        ensures seen { HasSeen (lists seat.new) (handle_of result) }
        ensures real { handle_of result ≢ no_event }
        ensures within { IsWithin (shape_of self.now) (handle_of result) }
        ensures after { ComesAfter (made_by maker.old) (lists seat.new) (handle_of result) }
        ensures more_seen { (lists seat.new).seen ≡ (lists seat.old).seen ++ made_by maker.new }
        ensures same_known { (lists seat.new).known ≡ (lists seat.old).known }
        ensures same_placings { SamePlacings (lists seat.old) (lists seat.new) }
        ensures same_left { (lists seat.new).left ≡ (lists seat.old).left }
    {
        let gen_ = (found / 4294967296) as u32;
        self.table
            .shared
            .compare_exchange::<Create>(&mut maker.inner, slot as usize, found, found + 1);
        let inner = self.table.shared.split_seat::<Grants>(&mut maker.inner);
        self.report(maker, seat);
        maker.next = slot + 1;
        Pending {
            handle: Handle { slot, gen_ },
            inner,
        }
    }

    // Gives the seat what the Maker has made and found.
    fn report(&self, maker: &mut Maker, seat: &mut Seat)
        requires maker { IsOf self.now maker.old.inner }
        requires at { IsAt self.now seat.old }
        ensures maker { IsOf self.now maker.new.inner × ((maker_lists maker.new).saw ≡ []) }
        ensures made { (made_by maker.new ≡ made_by maker.old) × (maker.new.next ≡ maker.old.next) }
        ensures at { IsAt self.now seat.new }
        ensures grows { Grows (lists seat.old) (lists seat.new) }
        ensures kept { Keeps (lists seat.old) (lists seat.new) }
        ensures more_seen { (lists seat.new).seen ≡ (lists seat.old).seen ++ made_by maker.old }
        ensures more_saw { (lists seat.new).saw ≡ (lists seat.old).saw ++ (maker_lists maker.old).saw }
        ensures more_past { (lists seat.new).past ≡ (lists seat.old).past ++ (maker_lists maker.old).past }
        ensures same_known { (lists seat.new).known ≡ (lists seat.old).known }
        ensures same_placings { SamePlacings (lists seat.old) (lists seat.new) }
        ensures same_left { (lists seat.new).left ≡ (lists seat.old).left }
    {
        let news = self.table.shared.split_seat::<Reports>(&mut maker.inner);
        self.table.shared.join_seat::<Both>(&mut seat.inner, news);
    }
}
