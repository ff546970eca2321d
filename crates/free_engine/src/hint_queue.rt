//! The queue of hints, which workers share.
ghost use Rattle.std.specs.Prelude.{◌≡◌, ◌<◌, ◌≤◌};
ghost use Rattle.crossbeam_queue.specs.Passes.{IsSamePass, IsPassOf, ruled_capacity, view};
ghost use Rattle.free_engine.specs.HintRule.{first_view, idle_view};
ghost use Rattle.graph_terms.specs.declared.limits.TheConstants.{MAX_LINES_OF_THREE};

use crate::hint_rule::{Bound, QueueRule, SetsBound};
use crate::hint_view::HintView;
use crossbeam_queue::{Pass, RuledArrayQueue};
use index_spaces::NoMemory;
use std::alloc::Global;
use std::marker::Brand;

pub(crate) type RuledQueue = RuledArrayQueue<u32, HintView, QueueRule>;

/// A queue of numbers below a bound, from 1 to 65,536, with room for as many of them as the bound says.
#[derive(Drop)]
pub struct HintQueue {
    pub(crate) ruled: RuledQueue,
    pub(crate) lines: u32,
    ghost sized: { (0 < lines) × (lines ≤ MAX_LINES_OF_THREE) × (ruled_capacity ruled ≡ lines) },
}

/// The right to make the hints of one queue.
#[derive(Drop)]
pub struct HintPass {
    pub(crate) pass: Pass<u32, HintView>,
}

impl HintQueue {
    ghost use Rattle.std.specs.Prelude.{IfOk};
    ghost use Rattle.free_engine.specs.HintQueues.{lines_of, IsHintPassOf};

    /// An empty queue for the numbers below `lines`, and the right to make its hints. `NoMemory` comes where
    /// memory ran out.
    pub fn new(alloc: Global, lines: u32) -> Result<(HintQueue, HintPass), NoMemory>
        requires { (1 ≤ lines) × (lines ≤ MAX_LINES_OF_THREE) }
        ensures lines { IfOk result (λ r. lines_of r.0 ≡ lines) }
        ensures pass { IfOk result (λ r. IsHintPassOf r.0 r.1) }
    {
        let Ok((ruled, mut pass)) = RuledQueue::ruled(alloc, lines as usize) else {
            return Err(NoMemory);
        };
        set_bound::<Brand>(&ruled, &mut pass, lines);
        Ok((HintQueue { ruled, lines }, HintPass { pass }))
    }
}

/// Tells the first pass the bound. Nothing is done when the program runs.
fn set_bound<B: Bound>(ruled: &RuledQueue, pass: &mut Pass<u32, HintView>, lines: u32)
    requires queue { IsPassOf ruled.now pass.old }
    requires first { view pass.old ≡ first_view }
    requires bound { (B.lines ≡ lines) × (0 < lines) }
    ensures queue { IsSamePass pass.old pass.new }
    ensures set { view pass.new ≡ idle_view lines }
{
    let _bound = lines;
    drop(ruled.another::<SetsBound<B>>(pass));
}
