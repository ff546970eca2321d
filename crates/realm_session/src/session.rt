//! Sessions: what is asked of them, and their end.

ghost use Rattle.std.specs.Prelude.{◌≡◌};
ghost use Rattle.shared_events.specs.Views.{shape_of};
ghost use Rattle.realm_session.specs.declared.limits.TheConstants.{LAST_GEN};

use crate::limits::LAST_GEN;
use crate::recorder::Recorder;
use event_table::{Answer, Handle, Left, NoMemory};
use shared_events::{Events, Seat};
use std::alloc::Global;

/// The events of all graphs that are recorded.
#[derive(Drop)]
pub struct Session {
    pub(crate) events: Events,
    ghost shaped: { ((shape_of events).waiters ≡ 0) × ((shape_of events).last_gen ≡ LAST_GEN) },
}

impl Session {
    ghost use Rattle.std.specs.Prelude.{◌≢◌, ◌<◌, ◌≤◌, [], length, IfOk, Some};
    ghost use Rattle.event_table.specs.EventMap.{no_event, answer, IsCreated, IsEventMap};
    ghost use Rattle.event_table.specs.declared.handle.Handle.{Handle as TheHandle};
    ghost use Rattle.event_table.specs.declared.limits.TheConstants.{MAX_SLOTS};
    ghost use Rattle.realm_session.specs.Recorded.{answer_for, IsRecorded};
    ghost use Rattle.realm_session.specs.Sessions.{recorded_by, IsRecorderOf, IsSeatOf, CanAsk, Tells};
    ghost use Rattle.realm_session.specs.declared.line.Line.{Line as TheLine};

    /// A session of 1 to 8,192 slots, and its recorder, which has recorded nothing. `NoMemory` comes
    /// where memory ran out.
    pub fn new(alloc: Global, slots: u32) -> Result<(Session, Recorder), NoMemory>
        requires slots { (0 < slots) × (slots ≤ MAX_SLOTS) }
        ensures recorder { IfOk result (λ r. IsRecorderOf r.0 r.1) }
        ensures none { IfOk result (λ r. recorded_by r.1 ≡ record { slots = slots; graphs = [] }) }
    {
        let (events, maker, seat, _waiters) = Events::new(alloc, slots, 0, LAST_GEN)?;
        let recorder = Recorder {
            maker,
            seat,
            slots,
            lines: 0,
            waiting: 0,
            graphs: Vec::new(alloc),
        };
        Ok((Session { events }, recorder))
    }

    /// A seat that tells of each line that was recorded until now.
    pub fn asker(&self, recorder: &mut Recorder) -> Seat
        requires recorder { IsRecorderOf self.now recorder.old }
        ensures recorder { IsRecorderOf self.now recorder.new }
        ensures same { recorded_by recorder.new ≡ recorded_by recorder.old }
        ensures at { IsSeatOf self.now result }
        ensures tells { (x : TheLine) → IsRecorded (recorded_by recorder.old) x → Tells result x }
    {
        self.events.split(&mut recorder.seat)
    }

    /// What became of the event of a recorded line of which the seat tells: that it is pending where
    /// the line waits, and else how the line ended. The seat goes on to tell of all that it told of.
    pub fn ask(&self, seat: &mut Seat, handle: Handle) -> Answer
        requires at { IsSeatOf self.now seat.old }
        requires recorded { CanAsk seat.old handle }
        ensures at { IsSeatOf self.now seat.new }
        ensures answer { (x : TheLine) → x.handle ≡ handle → Tells seat.old x → result ≡ answer_for x.end }
        ensures tells { (x : TheLine) → Tells seat.old x → Tells seat.new x }
    {
        self.events.look(seat, handle)
    }

    /// Takes a seat back.
    pub fn give_back(&self, recorder: &mut Recorder, seat: Seat)
        requires recorder { IsRecorderOf self.now recorder.old }
        requires at { IsSeatOf self.now seat }
        ensures recorder { IsRecorderOf self.now recorder.new }
        ensures same { recorded_by recorder.new ≡ recorded_by recorder.old }
    {
        self.events.join(&mut recorder.seat, seat);
    }

    /// What the table leaves: the handles of the recorded lines and no others, each of which answers by
    /// the end of its line. No seat asks any more.
    pub fn close(self, recorder: Recorder) -> Left
        requires recorder { IsRecorderOf self recorder }
        ensures map { IsEventMap result × (result.caught ≡ []) }
        ensures shape { (length result.slots ≡ (recorded_by recorder).slots) × (result.waiters ≡ 0) × (result.last_gen ≡ LAST_GEN) }
        ensures created { (x : TheLine) → IsRecorded (recorded_by recorder) x → IsCreated result x.handle }
        ensures answers { (x : TheLine) → IsRecorded (recorded_by recorder) x → answer result x.handle ≡ Some (answer_for x.end) }
        ensures only { (h : TheHandle) → IsCreated result h → h ≢ no_event → (x : TheLine) × IsRecorded (recorded_by recorder) x × (x.handle ≡ h) }
    {
        let Recorder { maker, seat, .. } = recorder;
        self.events.close(maker, seat)
    }
}
