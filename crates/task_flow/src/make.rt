//! The graph of a flow.

ghost use Rattle.std.specs.Prelude.{◌≡◌, ℕ, ◌<◌, false, length, IfOk, OnOk, IfErr};
ghost use Rattle.graph_terms.specs.Fits.{IsGraph};
ghost use Rattle.flow_order.specs.Flow.{IsFlow};
ghost use Rattle.task_flow.specs.Making.{IsMaking, AreSections};
ghost use Rattle.flow_order.specs.Written.{MeansFlow};
ghost use Rattle.task_flow.specs.Construction.{is_over, written};
ghost use Rattle.task_flow.specs.Refusal.{IsFlowRefusal};

use crate::making::{Making, Stop};
use crate::sections::Sections;
use flow_order::laws::means_by_sources;
use flow_order::rows::Rows;
use graph_model::graph::Graph;
use index_spaces::NoMemory;
use index_spaces::laws::points_are_listed;
use std::alloc::Global;

/// Why no graph is made of a flow.
#[derive(Clone, Copy, Debug, PartialEq, Eq)]
pub enum FlowRefusal {
    /// With this line of the flow, counted from 0, the graph passes a limit.
    Limit { line: u32 },
    NoMemory,
}

impl From<NoMemory> for FlowRefusal {
    ghost use Rattle.task_flow.specs.declared.make.FlowRefusal.TheVariants.{NoMemory as Wants};

    ghost from_gives = { λ _ e. e ≡ Wants };

    fn from(_: NoMemory) -> FlowRefusal {
        FlowRefusal::NoMemory
    }
}

/// The graph of a flow: its lines in their order, with the merges and preconditions that they need
/// to be done in parallel as if they were done one after the other; and where sums commute, which
/// `commute` says, with the sections in which two sums into one cell go one at a time in either
/// order. `Limit` comes exactly where the graph would pass a limit, with the first line with which
/// it does.
pub fn make_graph(alloc: Global, flow: &Graph, commute: bool) -> Result<Graph, FlowRefusal>
    requires { IsFlow flow.now }
    ensures graph { IfOk result (λ g. g ≡ written flow.now commute) }
    ensures means { IfOk result (λ g. MeansFlow flow.now commute g) }
    ensures within { OnOk result ((j : ℕ) → j < length flow.now.lines → is_over flow.now commute j ≡ false) }
    ensures refusal { IfErr result (λ e. IsFlowRefusal flow.now commute e) }
{
    means_by_sources();
    points_are_listed();
    let sections = Sections::new(alloc, flow, commute)?;
    match Making::new(alloc, flow, &sections) {
        Ok(making) => with_lines(alloc, flow, making, &sections),
        Err(Stop::Limit) => Err(FlowRefusal::Limit { line: 0 }),
        Err(Stop::NoMemory) => Err(FlowRefusal::NoMemory),
    }
}

/// The graph with all lines of the flow, from that with none of them.
fn with_lines(
    alloc: Global,
    flow: &Graph,
    mut making: Making,
    sections: &Sections,
) -> Result<Graph, FlowRefusal>
    requires flow { IsFlow flow.now }
    requires sections { AreSections flow.now sections.now }
    requires none { IsMaking flow.now sections.now.commute 0 making }
    ensures graph { IfOk result (λ g. (g ≡ written flow.now sections.now.commute) × IsGraph g) }
    ensures within { OnOk result ((j : ℕ) → j < length flow.now.lines → is_over flow.now sections.now.commute j ≡ false) }
    ensures refusal { IfErr result (λ e. IsFlowRefusal flow.now sections.now.commute e) }
{
    match add_lines(alloc, flow, &mut making, sections) {
        Ok(()) => {
            let _ = making.graph.lines();
            Ok(making.graph)
        }
        Err(refusal) => Err(refusal),
    }
}

/// Puts all lines of the flow, and the lines that go with them, into the graph.
fn add_lines(
    alloc: Global,
    flow: &Graph,
    making: &mut Making,
    sections: &Sections,
) -> Result<(), FlowRefusal>
    requires flow { IsFlow flow.now }
    requires sections { AreSections flow.now sections.now }
    requires none { IsMaking flow.now sections.now.commute 0 making.old }
    ensures all { OnOk result (IsMaking flow.now sections.now.commute (length flow.now.lines) making.new) }
    ensures within { OnOk result ((j : ℕ) → j < length flow.now.lines → is_over flow.now sections.now.commute j ≡ false) }
    ensures refusal { IfErr result (λ e. IsFlowRefusal flow.now sections.now.commute e) }
{
    let mut rows = Rows::new(alloc, flow)?;
    for line in 0..flow.lines() {
        match making.add_next(alloc, flow, &mut rows, sections) {
            Ok(()) => {}
            Err(Stop::Limit) => return Err(FlowRefusal::Limit { line }),
            Err(Stop::NoMemory) => return Err(FlowRefusal::NoMemory),
        }
    }
    Ok(())
}
