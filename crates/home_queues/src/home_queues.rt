//! The memory in which the parts are counted in the end, and how that is done.
ghost use Rattle.std.specs.Prelude.{◌≡◌, ◌≤◌};
ghost use Rattle.home_queues.specs.Counts.{no_counts};
ghost use Rattle.home_queues.specs.Spreading.{IsRoom};

use crate::closing::{drain_all, gather_all, spread};
use crate::counts::Counts;
use crate::deque::{Owner, StealRight};
use crate::home_hints::HomeHints;
use crate::home_list::HomeList;
use crate::room::room_for_parts;
use crate::tally::{PartCounts, Tally};
use std::alloc::{AllocError, Global};

/// Memory ran out.
#[derive(Clone, Copy, Debug, PartialEq, Eq)]
pub struct NoMemory;

/// What is counted in the end, over eight parts: memory for it, which is taken at the start.
#[derive(Drop)]
pub struct HomeQueues {
    lines: u32,
    owners: Vec<Owner>,
    rows: Vec<Vec<StealRight>>,
    counts: Vec<PartCounts>,
    all: Vec<HomeHints>,
    left: Counts,
    ghost room: { IsRoom owners × IsRoom rows × IsRoom counts × IsRoom all },
    ghost none: { left ≡ no_counts lines },
}

impl HomeQueues {
    ghost use Rattle.std.specs.Prelude.{ℕ, ◌+◌, ◌<◌, All, IfOk, length};
    ghost use Rattle.home_queues.specs.Hints.{IsNew, IsListOf};
    ghost use Rattle.home_queues.specs.HomeLists.{lines_of, parts_of, used_of, pushed_over, taken_over};
    ghost use Rattle.home_queues.specs.TallySums.{lines_in, pushed_in, taken_in, left_in};

    /// Eight parts for the numbers below `lines`, each with a deque of its own, whatever the number of
    /// workers, of which the first `workers` are for use. They have put nothing in and taken nothing.
    /// `NoMemory` comes where memory ran out.
    pub fn new(alloc: Global, lines: u32, workers: u32) -> Result<(HomeQueues, HomeList), NoMemory>
        requires lines { (1 ≤ lines) × (lines ≤ 65536) }
        requires workers { (1 ≤ workers) × (workers ≤ 8) }
        ensures lines { IfOk result (λ r. lines_of r.0 ≡ lines) }
        ensures workers { IfOk result (λ r. length (used_of r.1) ≡ workers) }
        ensures list { IfOk result (λ r. IsListOf lines (parts_of r.1)) }
        ensures new { IfOk result (λ r. All (IsNew lines) (parts_of r.1)) }
    {
        let Ok(list) = HomeList::new(alloc, lines, workers) else {
            return Err(NoMemory);
        };
        let Ok(queues) = HomeQueues::with_room(alloc, lines) else {
            return Err(NoMemory);
        };
        Ok((queues, list))
    }

    /// Counts what all parts put in and what they took, and what is left in their deques. Each number was
    /// put in as often as it was taken or is left. The list is one whose eight parts stand in their places
    /// and steal from the same deques.
    pub fn close(self, list: HomeList) -> Tally
        requires { IsListOf (lines_of self) (parts_of list) }
        ensures lines { lines_in result ≡ lines_of self }
        ensures pushed { (x : ℕ) → pushed_in result x ≡ pushed_over (parts_of list) x }
        ensures taken { (x : ℕ) → taken_in result x ≡ taken_over (parts_of list) x }
        ensures balance { (x : ℕ) → x < lines_of self →
            pushed_in result x ≡ taken_in result x + left_in result x }
    {
        let HomeQueues {
            lines,
            owners,
            rows,
            counts,
            all,
            left,
        } = self;
        let mut owners = owners;
        let mut rows = rows;
        let mut counts = counts;
        let mut left = left;
        spread(
            list.together(all),
            &mut owners,
            &mut rows,
            &mut counts,
            lines,
        );
        gather_all(&mut owners, rows, lines);
        drain_all(owners, &mut left, lines);
        Tally {
            lines,
            parts: counts,
            left,
        }
    }

    /// Memory for what is counted in the end.
    fn with_room(alloc: Global, lines: u32) -> Result<HomeQueues, AllocError>
        ensures { IfOk result (λ q. lines_of q ≡ lines) }
    {
        Ok(HomeQueues {
            lines,
            owners: room_for_parts(alloc)?,
            rows: room_for_parts(alloc)?,
            counts: room_for_parts(alloc)?,
            all: room_for_parts(alloc)?,
            left: Counts::new(alloc, lines)?,
        })
    }
}
