//! Reading a graph from its text, and checking it.

ghost use Rattle.std.specs.Prelude.{◌≡◌, ◌≢◌, IfOk, IfErr};
ghost use Rattle.graph_terms.specs.Graph.{GraphValue};
ghost use Rattle.graph_meaning.specs.Need.{IsNeed};
ghost use Rattle.graph_meaning.specs.Rules.{Accepted};
ghost use Rattle.graph_words.specs.Text.{GraphText};
ghost use Rattle.c_answers.specs.Refusals.{status_of, IsReadRefusal, IsRuleRefusal, IsCheckRefusal};

use c_numbers::status::{NO_MEMORY, UNFIT, UNREAD};
use graph_model::graph::Graph;
use graph_reader::laws::bytes_have_one_reading;
use graph_reader::{ReadRefusal, read_graph};
use graph_terms::why::Why;
use race_check::check;
use race_check::checked::{CheckRefusal, Checked};
use std::alloc::Global;

/// Why a text is refused: the first refused line, from 1, with its first reason; the first rule that the graph
/// breaks; or memory ran out.
#[derive(Clone, Copy, Debug, PartialEq, Eq)]
pub enum Refusal {
    Unread(u32, Why),
    Unfit(CheckRefusal),
    NoMemory,
}

impl Refusal {
    /// The number of the refusal.
    pub fn status(self) -> u32
        ensures number { result ≡ status_of self }
        ensures some { result ≢ 0 }
        ensures no_usage { result ≢ 2 }
        ensures no_cut { result ≢ 6 }
        ensures no_length { result ≢ 9 }
    {
        match self {
            Refusal::Unread(..) => UNREAD,
            Refusal::Unfit(_) => UNFIT,
            Refusal::NoMemory => NO_MEMORY,
        }
    }
}

/// The graph whose text this is.
pub fn read(alloc: Global, text: &[u8]) -> Result<Graph, Refusal>
    ensures text { IfOk result (λ g. GraphText text.now g) }
    ensures refused { IfErr result (IsReadRefusal text.now) }
    ensures complete { IfErr result (λ r. (g : GraphValue) → GraphText text.now g → r ≡ Refusal.NoMemory) }
{
    bytes_have_one_reading();
    match read_graph(alloc, text) {
        Ok(graph) => Ok(graph),
        Err(ReadRefusal::Line { number, why }) => Err(Refusal::Unread(number, why)),
        Err(ReadRefusal::NoMemory) => Err(Refusal::NoMemory),
    }
}

/// The graph, where it is accepted.
pub fn judge(alloc: Global, graph: Graph) -> Result<Checked, Refusal>
    ensures graph { IfOk result (λ c. (c.graph ≡ graph) × Accepted graph × IsNeed graph c.need) }
    ensures refused { IfErr result (IsRuleRefusal graph) }
    ensures complete { IfErr result (λ r. Accepted graph → r ≡ Refusal.NoMemory) }
{
    match check(alloc, graph) {
        Ok(checked) => Ok(checked),
        Err(unfit) if unfit.why == CheckRefusal::NoMemory => Err(Refusal::NoMemory),
        Err(unfit) => Err(Refusal::Unfit(unfit.why)),
    }
}

/// The accepted graph whose text this is.
pub fn read_checked(alloc: Global, text: &[u8]) -> Result<Checked, Refusal>
    ensures text { IfOk result (λ c. GraphText text.now c.graph × Accepted c.graph × IsNeed c.graph c.need) }
    ensures refused { IfErr result (IsCheckRefusal text.now) }
    ensures complete { IfErr result (λ r. (g : GraphValue) → GraphText text.now g → Accepted g → r ≡ Refusal.NoMemory) }
{
    bytes_have_one_reading();
    match read(alloc, text) {
        Ok(graph) => judge(alloc, graph),
        Err(refusal) => Err(refusal),
    }
}
