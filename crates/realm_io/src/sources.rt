//! What gives bytes.
ghost use Rattle.std.specs.Prelude.{◌≡◌, ℕ, ◌<◌, ◌≤◌, List, Option, None, length, take, IfOk, OnErr};
ghost use Rattle.std.specs.Option.{option_map};
ghost use Rattle.std.specs.Io.KnownBytes.{Consumes, IsAtEnd};
ghost use Rattle.realm_io.specs.Counts.{Rose, next_count};

/// A read, a write or a flush that failed.
#[derive(Clone, Copy, Debug, PartialEq, Eq)]
pub struct Failed;

/// A reader that counts its faults.
pub trait Source {
    // The bytes still to come, where they are told.
    ghost left: { Self → Option (List ℕ) } = { λ _. None };

    // How many reads were made, where that is told.
    ghost reads: { Self → Option ℕ } = { λ _. None };

    // How many reads gave no byte and did not fail, where that is told.
    ghost empty_reads: { Self → Option ℕ } = { λ _. None };

    // How many faults there were. The count never falls.
    ghost faults: { Self → ℕ };

    /// Reads into the front of `into`, and answers how many bytes came: none, into a slice with room,
    /// only at the end of input. After `Failed` nothing is known of the bytes still to come.
    fn read(&mut self, into: &mut [u8]) -> Result<usize, Failed>
        ensures bound { IfOk result (λ n. n ≤ length into.new) }
        ensures bytes { IfOk result (λ n. Consumes (left self.old) (left self.new) (take n into.new)) }
        ensures end { IfOk result (λ n. n ≡ 0 → 0 < length into.new → IsAtEnd (left self.new)) }
        ensures failed { OnErr result (Rose (faults self.old) (faults self.new)) }
        ensures count { faults self.old ≤ faults self.new }
        ensures counted { reads self.new ≡ option_map next_count (reads self.old) }
        ensures empty { IfOk result (λ n. n ≡ 0 → empty_reads self.new ≡ option_map next_count (empty_reads self.old)) }
        ensures not_empty { IfOk result (λ n. 0 < n → empty_reads self.new ≡ empty_reads self.old) }
        ensures failed_not_empty { OnErr result (empty_reads self.new ≡ empty_reads self.old) };
}
