//! A table that two threads share.

ghost use Rattle.std.specs.Prelude.{◌≡◌, IfSome};
ghost use Rattle.shared_events.specs.Seats.{HasSeen};
ghost use Rattle.shared_events.specs.Views.{lists, ended_by, IsAt, IsMakerOf, IsReceiptOf};

use event_table::{Answer, Fate, Handle};
use shared_events::{Events, Maker, Receipt, Seat};
use std::thread::{Threads, join};

/// Who creates and ends.
#[derive(Drop)]
struct Writer {
    maker: Maker,
    seat: Seat,
}

/// Who was told of an end, with what the handle answered.
#[derive(Drop)]
struct Told {
    seat: Seat,
    handle: Handle,
    answer: Answer,
}

/// Creates an event and ends it. `None` comes where each slot was found pending or retired.
fn serve(events: &Events, mut writer: Writer, fate: Fate) -> (Writer, Option<Receipt>)
    requires maker { IsMakerOf events.now writer.maker }
    requires at { IsAt events.now writer.seat }
    ensures maker { IsMakerOf events.now result.0.maker }
    ensures at { IsAt events.now result.0.seat }
    ensures receipt { IfSome result.1 (λ r. IsReceiptOf events.now r) }
    ensures seen { IfSome result.1 (λ r. HasSeen (lists result.0.seat) (ended_by r)) }
{
    let Some(pending) = events.create(&mut writer.maker, &mut writer.seat) else {
        return (writer, None);
    };
    let (receipt, _caught) = events.end(&mut writer.seat, pending, fate);
    (writer, Some(receipt))
}

/// Learns of an end, and looks at the handle.
fn learn(events: &Events, mut seat: Seat, receipt: Receipt) -> Told
    requires at { IsAt events.now seat }
    requires receipt { IsReceiptOf events.now receipt }
    ensures at { IsAt events.now result.seat }
    ensures seen { HasSeen (lists result.seat) result.handle }
{
    let handle = receipt.handle();
    events.learn(&mut seat, receipt);
    let answer = events.look(&mut seat, handle);
    Told {
        seat,
        handle,
        answer,
    }
}

/// What the handle that was told of and the one that was ended last answer a seat that has what both
/// threads saw.
fn ask_both(events: &Events, told: Told, other: Seat, last: Receipt) -> [(Handle, Answer); 2]
    requires told { IsAt events.now told.seat × HasSeen (lists told.seat) told.handle }
    requires other { IsAt events.now other × HasSeen (lists other) (ended_by last) }
{
    let Told {
        mut seat,
        handle: first,
        answer: _,
    } = told;
    events.join(&mut seat, other);
    let second = last.handle();
    let old = events.look(&mut seat, first);
    let new = events.look(&mut seat, second);
    [(first, old), (second, new)]
}

/// Has one thread create and end a second event, while another is told of the first: what the first
/// handle answered there, and what both answer once the threads have met.
pub(crate) fn serve_beside_look<R: Threads + Sync>(
    rt: &R,
    events: &Events,
    maker: Maker,
    mut seat: Seat,
) -> Option<(Answer, [(Handle, Answer); 2])>
    requires maker { IsMakerOf events.now maker }
    requires at { IsAt events.now seat }
{
    let other = events.split(&mut seat);
    let (writer, receipt) = serve(events, Writer { maker, seat }, Fate::Poison);
    let receipt = receipt?;
    let (served, told) = join(
        rt,
        || -> (Writer, Option<Receipt>)
            requires { IsMakerOf events.now writer.maker × IsAt events.now writer.seat }
            ensures { IsMakerOf events.entry.now result.0.maker × IsAt events.entry.now result.0.seat
                × IfSome result.1 (λ r. HasSeen (lists result.0.seat) (ended_by r)) }
        { serve(events, writer, Fate::Ok) },
        || -> Told
            requires { IsAt events.now other × IsReceiptOf events.now receipt }
            ensures { IsAt events.entry.now result.seat × HasSeen (lists result.seat) result.handle }
        { learn(events, other, receipt) },
    );
    let answer = told.answer;
    let (writer, last) = served;
    let last = last?;
    Some((answer, ask_both(events, told, writer.seat, last)))
}
