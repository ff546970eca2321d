//! From the text of a flow to the text of its graph.
#![tactic(auto)]

mod answer;
pub mod laws;
mod reading;
mod serving;
pub mod status;
mod unlike_flow;
mod writing;

pub use answer::{answer_flow, answer_read};
use graph_terms::why::Why;
use index_spaces::NoMemory;
pub use reading::{FlowReading, flow_reading, read_flow};
pub use serving::serve_flow;
pub use unlike_flow::{has_event_verb, other_word};

/// Why bytes are no flow's text, or the text of a flow that has no graph.
#[derive(Clone, Copy, Debug, PartialEq, Eq)]
pub enum FlowFault {
    /// This line, counted from 1, is refused for this reason.
    Line { number: u32, why: Why },
    /// Memory ran out.
    NoMemory,
}

impl From<NoMemory> for FlowFault {
    ghost use Rattle.std.specs.Prelude.{◌≡◌};
    ghost use Rattle.flow_top.specs.declared.FlowFault.TheVariants.{NoMemory as Wants};

    ghost from_gives = { λ _ e. e ≡ Wants };

    fn from(_: NoMemory) -> FlowFault {
        FlowFault::NoMemory
    }
}
