//! Two threads on one slot: one creates and ends, and the other is told of each end.

ghost use Rattle.std.specs.Prelude.{◌≡◌, All, IfSome};
ghost use Rattle.shared_events.specs.Seats.{HasSeen, Keeps};
ghost use Rattle.shared_events.specs.Views.{lists, IsAt, IsMakerOf, IsReceiptOf};

use crate::shared_tests::{fate_of, serve};
use event_table::{Answer, Handle};
use shared_events::{Events, Maker, Receipt, Seat};
use std::test::Fail;
use std::thread::{Threads, join};

// Who creates and ends.
#[derive(Drop)]
struct Writer {
    maker: Maker,
    seat: Seat,
}

// Who is told, with the handles so far, and whether all answers were right.
#[derive(Drop)]
struct Reader {
    seat: Seat,
    handles: Vec<Handle>,
    agrees: bool,
}

// Creates a handle and ends it, with Poison in each third round.
fn write(events: &Events, mut writer: Writer, round: u32) -> (Writer, Option<Receipt>)
    requires maker { IsMakerOf events.now writer.maker }
    requires at { IsAt events.now writer.seat }
    ensures maker { IsMakerOf events.now result.0.maker }
    ensures at { IsAt events.now result.0.seat }
    ensures receipt { IfSome result.1 (λ r. IsReceiptOf events.now r) }
{
    let receipt = serve(events, &mut writer.maker, &mut writer.seat, fate_of(round));
    (writer, receipt)
}

// Whether each handle has the answer of the round of its generation.
fn agree(events: &Events, seat: &mut Seat, handles: &[Handle]) -> bool
    requires at { IsAt events.now seat.old }
    requires seen { All (HasSeen (lists seat.old)) handles.now }
    ensures at { IsAt events.now seat.new }
    ensures kept { Keeps (lists seat.old) (lists seat.new) }
{
    for handle in handles {
        let wanted = if handle.gen_ % 3 == 0 {
            Answer::Poisoned
        } else {
            Answer::Triggered
        };
        if events.look(seat, *handle) != wanted {
            return false;
        }
    }
    true
}

// Learns the fate of one more handle, and looks at all so far.
fn read(events: &Events, mut reader: Reader, receipt: Receipt) -> Reader
    requires at { IsAt events.now reader.seat }
    requires seen { All (HasSeen (lists reader.seat)) reader.handles.items }
    requires receipt { IsReceiptOf events.now receipt }
    ensures at { IsAt events.now result.seat }
    ensures seen { All (HasSeen (lists result.seat)) result.handles.items }
{
    let handle = receipt.handle();
    events.learn(&mut reader.seat, receipt);
    let kept = reader.handles.push(handle).is_ok();
    let agree = agree(events, &mut reader.seat, reader.handles.as_slice());
    reader.agrees = reader.agrees && kept && agree;
    reader
}

// So many rounds. In each the first thread makes a round, while the second is told of the one before.
fn rounds<R: Threads + Sync>(
    rt: &R,
    events: &Events,
    writer: Writer,
    reader: Reader,
    count: u32,
) -> Option<Reader>
    requires maker { IsMakerOf events.now writer.maker }
    requires writer { IsAt events.now writer.seat }
    requires reader { IsAt events.now reader.seat }
    requires seen { All (HasSeen (lists reader.seat)) reader.handles.items }
{
    let (mut writer, mut last) = write(events, writer, 0);
    let mut reader = reader;
    for round in 1..count {
        let receipt = last?;
        let (made, told) = join(
            rt,
            || -> (Writer, Option<Receipt>)
                requires { IsMakerOf events.now writer.maker × IsAt events.now writer.seat }
                ensures { IsMakerOf events.entry.now result.0.maker × IsAt events.entry.now result.0.seat
                    × IfSome result.1 (λ r. IsReceiptOf events.entry.now r) }
            { write(events, writer, round) },
            || -> Reader
                requires { IsAt events.now reader.seat × All (HasSeen (lists reader.seat)) reader.handles.items
                    × IsReceiptOf events.now receipt }
                ensures { IsAt events.entry.now result.seat × All (HasSeen (lists result.seat)) result.handles.items }
            { read(events, reader, receipt) },
        );
        writer = made.0;
        last = made.1;
        reader = told;
    }
    Some(read(events, reader, last?))
}

#[test]
fn two_threads_use_one_slot(rt: HostRuntime) -> Result<(), Fail> {
    let Ok((events, maker, mut seat, _set)) = Events::new(rt.alloc(), 1, 0, 999) else {
        return Err("no memory".into());
    };
    let other = events.split(&mut seat);
    let writer = Writer { maker, seat };
    let reader = Reader {
        seat: other,
        handles: Vec::new(rt.alloc()),
        agrees: true,
    };
    let reader = rounds(&rt, &events, writer, reader, 1000).ok_or("a round")?;
    assert_eq!(rt; reader.handles.len(), 1000);
    assert!(rt; reader.agrees);
    Ok(())
}
