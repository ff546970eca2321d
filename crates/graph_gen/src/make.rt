//! Graphs that are generated.

ghost use Rattle.std.specs.Prelude.{◌≡◌, ℕ, ◌<◌, ◌≤◌, ◌^◌, ◌++◌, length, IfOk, OnOk};
ghost use Rattle.graph_terms.specs.declared.format.Format.TheVariants.{One};
ghost use Rattle.graph_terms.specs.Fits.{LinesFit};
ghost use Rattle.graph_gen.specs.MadeGraph.{made_decls, made_of, unmade, one_more, after_draws, made_graph};

use crate::declarations::declared;
use crate::draw::{Draw, next_state};
use crate::lasts::Lasts;
use crate::row::{row_lines, row_taken};
use graph_model::graph::Graph;
use graph_terms::limits::MAX_LINES;
use graph_terms::verb::Line;
use index_spaces::NoMemory;
use std::alloc::Global;

/// What stands after some draws.
#[derive(Drop)]
struct Making {
    graph: Graph,
    lasts: Lasts,
    state: u64,
}

/// The generated graph of a seed and a size. `NoMemory` leaves nothing behind.
pub fn make(alloc: Global, seed: u64, size: u32) -> Result<Graph, NoMemory>
    requires size { (1 ≤ size) × (size ≤ MAX_LINES) }
    ensures graph { IfOk result (λ g. g ≡ made_graph seed size) }
{
    let mut making = Making::new(alloc, seed)?;
    while making.graph.lines() < size {
        making.draw(alloc, size)?;
    }
    Ok(making.graph)
}

impl Making {
    /// Before any draw.
    fn new(alloc: Global, seed: u64) -> Result<Making, NoMemory>
        ensures made { IfOk result (λ m. made_of m ≡ unmade seed) }
        ensures format { IfOk result (λ m. m.graph.format ≡ One) }
        ensures decls { IfOk result (λ m. m.graph.decls ≡ made_decls) }
    {
        let graph = declared(alloc)?;
        Ok(Making {
            graph,
            lasts: Lasts::none(),
            state: seed,
        })
    }

    /// Makes a draw, and adds the lines of its row.
    fn draw(&mut self, alloc: Global, size: u32) -> Result<(), NoMemory>
        requires size { size ≤ MAX_LINES }
        requires left { length self.old.graph.lines < size }
        requires format { self.old.graph.format ≡ One }
        requires decls { self.old.graph.decls ≡ made_decls }
        requires made { (seed n : ℕ) × (seed < 2 ^ 64) × (made_of self.old ≡ after_draws seed size n) }
        ensures made { OnOk result (made_of self.new ≡ one_more size (made_of self.old)) }
        ensures format { OnOk result (self.new.graph.format ≡ One) }
        ensures decls { OnOk result (self.new.graph.decls ≡ made_decls) }
    {
        let state = next_state(self.state);
        let draw = Draw::of(state);
        let first = self.graph.lines();
        let row = row_taken(&draw, &self.lasts, size - first);
        let lines = row_lines(alloc, row, &draw, &self.lasts, first)?;
        add_lines(&mut self.graph, lines)?;
        self.lasts = self.lasts.after(row, &draw, first);
        self.state = state;
        Ok(())
    }
}

/// Puts lines at the end.
fn add_lines(graph: &mut Graph, lines: Vec<Line>) -> Result<(), NoMemory>
    requires { LinesFit graph.old.format graph.old.decls graph.old.lines lines.items }
    ensures { OnOk result (graph.new ≡ record { format = graph.old.format; decls = graph.old.decls; lines = graph.old.lines ++ lines.items }) }
{
    for line in lines {
        graph.add_line(line)?;
    }
    Ok(())
}
