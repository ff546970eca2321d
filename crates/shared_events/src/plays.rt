//! The rule of the table, and the names of its steps, cuts and joins.

ghost use Rattle.shared_events.specs.Rule.{Orderly, opener};
ghost use Rattle.shared_events.specs.Plays.{looked, reads, marks, heeded, scouted, informed, created, relinked, put, ended, walked, copy_of, dealt, dealer, all_dealt, none_left, granted, granter, receipted, maker_of, no_maker, report, reporter, chaser, unchased, emptier, joined, forsaken, gathered, no_view};

use crate::view::View;
use atomic_table::{Join, Play, Split, TableRule};
use event_table::Shape;

/// The rule of the table, and what its first seat has, in `new`.
pub struct Order;

impl TableRule<(), View, Shape> for Order {
    ghost holds = { Orderly };

    ghost first = { opener };
}

/// The load of a slot's word in `look`, `see` and `watch`.
pub struct Look;

impl Play<(), View> for Look {
    ghost then = { λ st. looked st.word };
}

/// The load in `join` and in a None of `next` that tells how the seat's lists go together.
pub struct Heed;

impl Play<(), View> for Heed {
    ghost then = { λ _ m _ n. heeded m n };
}

/// The Maker's load of a slot's word in `create`.
pub struct Scout;

impl Play<(), View> for Scout {
    ghost then = { λ st. scouted st.word };
}

/// The compare-exchange in `create` that makes a free slot pending.
pub struct Create;

impl Play<(), View> for Create {
    ghost then = { λ st. created st.word st.first };
}

/// The store of the waiter's link word in `watch`.
pub struct Link;

impl Play<(), View> for Link {
    ghost then = { λ st m _ n. relinked st.first m n };
}

/// The compare-exchange in `watch` that places the waiter.
pub struct Put;

impl Play<(), View> for Put {
    ghost then = { λ st. put st.word st.first };
}

/// The swap of a slot's word in `end`.
pub struct End;

impl Play<(), View> for End {
    ghost then = { λ _. ended };
}

/// The load of a waiter's link word in a Some of `next`.
pub struct Walk;

impl Play<(), View> for Walk {
    ghost then = { λ _. walked };
}

/// The cut in `split`, and in `again` of a receipt.
pub struct Copies;

impl Split<View> for Copies {
    ghost left = { λ v. v };

    ghost right = { copy_of };
}

/// The cut of one waiter in `take` and in a Some of `next`, and in `watch` where it comes back.
pub struct Deals;

impl Split<View> for Deals {
    ghost left = { dealer };

    ghost right = { dealt };
}

/// The cut of all waiters in `new`.
pub struct DealsAll;

impl Split<View> for DealsAll {
    ghost left = { none_left };

    ghost right = { all_dealt };
}

/// The cut of the right to end a handle in `create`, and in `see` off the Pending and back.
pub struct Grants;

impl Split<View> for Grants {
    ghost left = { granter };

    ghost right = { granted };
}

/// The cut of the receipt in `end`.
pub struct Receipts;

impl Split<View> for Receipts {
    ghost left = { λ v. v };

    ghost right = { receipted };
}

/// The cut of the right to create in `new`.
pub struct Appoints;

impl Split<View> for Appoints {
    ghost left = { no_maker };

    ghost right = { maker_of };
}

/// The cut of what the Maker has made and found in `create`.
pub struct Reports;

impl Split<View> for Reports {
    ghost left = { reporter };

    ghost right = { report };
}

/// The cut of the handle's chain of waiters in `end`.
pub struct Chases;

impl Split<View> for Chases {
    ghost left = { unchased };

    ghost right = { chaser };
}

/// The cut of what a chain that was given whole tells, in a None of `next`.
pub struct Empties;

impl Split<View> for Empties {
    ghost left = { λ v. v };

    ghost right = { emptier };
}

/// The join in `join` and `learn`, and of a cut or a token in `create`, `see`, `watch`, `end` and a None of `next`.
pub struct Both;

impl Join<View> for Both {
    ghost both = { joined };

    ghost spent = { no_view };
}

/// The join with the Pending in `leave`.
pub struct Forsakes;

impl Join<View> for Forsakes {
    ghost both = { forsaken };

    ghost spent = { no_view };
}

/// The join of the Maker's seat with the last one in `close`.
pub struct Gathers;

impl Join<View> for Gathers {
    ghost both = { gathered };

    ghost spent = { no_view };
}

/// The join in `create` that tells the Maker what a seat knows.
pub struct Informs;

impl Join<View> for Informs {
    ghost both = { informed };

    ghost spent = { no_view };
}

/// The load of a poison word in `look` and `watch`, where the handle has ended.
pub struct Read;

impl Play<(), View> for Read {
    ghost then = { λ st. reads st.word };
}

/// The fetch-or of a poison word in an `end` with Poison.
pub struct Mark;

impl Play<(), View> for Mark {
    ghost then = { λ _ m _ n. marks m n };
}
