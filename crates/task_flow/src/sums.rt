//! The lines that add to each column.

ghost use Rattle.std.specs.Prelude.{◌≡◌, ◌<◌, ◌+◌, ◌/◌, length, None, Some, IfOk};
ghost use Rattle.graph_terms.specs.Graph.{columns};
ghost use Rattle.task_flow.specs.Construction.{summed};

use flow_order::bits::Bits;
use graph_model::graph::Graph;
use graph_terms::verb::Access;
use index_spaces::NoMemory;
use index_spaces::room::push;
use std::alloc::Global;

/// For each column a bit for each of the first lines of a flow that adds to it.
#[derive(Drop)]
pub(crate) struct Sums {
    pub(crate) columns: Vec<Bits>,
}

impl Sums {
    ghost use Rattle.task_flow.specs.Sums.{AreSums};

    /// No line.
    pub(crate) fn new(alloc: Global, flow: &Graph) -> Result<Sums, NoMemory>
        ensures { IfOk result (λ s. AreSums flow.now 0 ((length flow.now.lines + 63) / 64) s.columns.items) }
    {
        let words = (flow.lines() as usize + 63) / 64;
        let mut columns = Vec::new(alloc);
        for _column in 0..flow.columns() {
            push(&mut columns, Bits::zeros(alloc, words)?)?;
        }
        Ok(Sums { columns })
    }

    /// One line more, which adds to the column of this access.
    pub(crate) fn add(&mut self, flow: &Graph, line: u32, sum: Access)
        requires sums { AreSums flow.now line ((length flow.now.lines + 63) / 64) self.old.columns.items }
        requires line { line < length flow.now.lines }
        requires sum { Some sum ≡ summed flow.now line }
        requires column { sum.column < length (columns flow.now) }
        ensures { AreSums flow.now (line + 1) ((length flow.now.lines + 63) / 64) self.new.columns.items }
    {
        self.columns[sum.column as usize].set(line);
    }

    /// One line more, which adds to no column.
    pub(crate) fn skip(&self, flow: &Graph, line: u32)
        requires sums { AreSums flow.now line ((length flow.now.lines + 63) / 64) self.now.columns.items }
        requires sum { None ≡ summed flow.now line }
        ensures { AreSums flow.now (line + 1) ((length flow.now.lines + 63) / 64) self.now.columns.items }
    {}
}
