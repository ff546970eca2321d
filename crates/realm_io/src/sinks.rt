//! What takes bytes.
ghost use Rattle.std.specs.Prelude.{◌≡◌, ◌<◌, ◌≤◌, length, take, IfOk, OnOk, OnErr};
ghost use Rattle.std.specs.Option.{option_map};
ghost use Rattle.realm_io.specs.Counts.{Rose, next_count};
ghost use Rattle.realm_io.specs.SinkState.{SinkState};
ghost use Rattle.realm_io.specs.Told.{with_more};

use crate::sources::Failed;

/// A writer that counts its faults.
pub trait Sink {
    // What the sink tells: its bytes, its calls and its faults. No count falls.
    ghost state: { Self → SinkState };

    /// Takes bytes from the front of `piece`, and answers how many: at least one where there is one.
    /// After `Failed` none was taken.
    fn write(&mut self, piece: &[u8]) -> Result<usize, Failed>
        ensures bound { IfOk result (λ n. n ≤ length piece.now) }
        ensures some { 0 < length piece.now → IfOk result (λ n. 1 ≤ n) }
        ensures took { IfOk result (λ n. (state self.new).taken ≡ with_more (state self.old).taken (take n piece.now)) }
        ensures failed { OnErr result (Rose (state self.old).faults (state self.new).faults) }
        ensures kept { OnErr result ((state self.new).taken ≡ (state self.old).taken) }
        ensures flushed { (state self.new).flushed ≡ (state self.old).flushed }
        ensures count { (state self.old).faults ≤ (state self.new).faults }
        ensures counted { (state self.new).calls ≡ option_map next_count (state self.old).calls }
        ensures empty { length piece.now ≡ 0 → (state self.new).empty_writes ≡ option_map next_count (state self.old).empty_writes }
        ensures not_empty { 0 < length piece.now → (state self.new).empty_writes ≡ (state self.old).empty_writes };

    /// Flushes all that was taken. `Failed` leaves the number of flushed bytes as it was.
    fn flush(&mut self) -> Result<(), Failed>
        ensures kept { (state self.new).taken ≡ (state self.old).taken }
        ensures ok { OnOk result ((state self.new).flushed ≡ option_map length (state self.new).taken) }
        ensures err { OnErr result ((state self.new).flushed ≡ (state self.old).flushed) }
        ensures failed { OnErr result (Rose (state self.old).faults (state self.new).faults) }
        ensures count { (state self.old).faults ≤ (state self.new).faults }
        ensures counted { (state self.new).calls ≡ option_map next_count (state self.old).calls }
        ensures not_empty { (state self.new).empty_writes ≡ (state self.old).empty_writes };
}
