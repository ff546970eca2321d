//! How many shares each column has.

ghost use Rattle.std.specs.Prelude.{◌≡◌, ◌<◌, length, slice_index, IfOk};
ghost use Rattle.share_words.specs.Shares.{AreShares};

use crate::counting::{count_line, most_of};
use graph_model::graph::Graph;
use index_spaces::NoMemory;
use index_spaces::room::filled;
use std::alloc::Global;
use std::marker::Model;

/// How many shares each column of a graph has, and the most of them.
#[derive(Drop)]
pub struct ShareCounts {
    counts: Vec<u8>,
    planes: u8,
}

impl Model for ShareCounts {
    ghost use Rattle.share_words.specs.Shares.{SharesValue};

    ghost Value = { SharesValue };

    ghost view = { λ s. record { counts = s.counts.items; planes = s.planes } };
}

impl ShareCounts {
    /// Counts the shares of a graph. `NoMemory` comes where memory ran out.
    pub fn of_graph(alloc: Global, graph: &Graph) -> Result<ShareCounts, NoMemory>
        ensures { IfOk result (λ s. AreShares graph.now s) }
    {
        let mut counts = filled(alloc, 0, graph.columns() as usize)?;
        for line in 0..graph.lines() {
            count_line(graph, line, &mut counts);
        }
        let planes = most_of(counts.as_slice());
        Ok(ShareCounts { counts, planes })
    }

    /// How many shares a column has.
    pub fn of_column(&self, c: u32) -> u32
        requires { c < length self.now.counts }
        ensures { result ≡ slice_index self.now.counts c }
    {
        u32::from(self.counts[c as usize])
    }

    /// The most shares of a column.
    pub fn planes(&self) -> u32
        ensures { result ≡ self.now.planes }
    {
        u32::from(self.planes)
    }
}
