//! The quantities of a graph with one more item.

use super::Graph;
use graph_indexes::counts::{Counts, barriers_of, columns_of, insts_of, locks_of, spaces_of};
use graph_items::edges::count_edges;
use graph_terms::decl::Decl;
use graph_terms::verb::Line;
use index_spaces::limits::MAX_POINTS_OF_THREE;

impl Graph {
    ghost use Rattle.std.specs.Prelude.{◌≡◌, ◌≤◌};
    ghost use Rattle.index_spaces.specs.Space.{space_size};
    ghost use Rattle.graph_terms.specs.Graph.{space_at};
    ghost use Rattle.graph_terms.specs.Fits.{with_decl, with_line};
    ghost use Rattle.graph_indexes.specs.Counts.{counts_of, cells_of_decl};

    /// The quantities with a declaration at the end.
    pub(super) fn counts_with_decl(&self, decl: &Decl) -> Counts
        ensures { result ≡ counts_of (with_decl self.now decl.now) }
    {
        Counts {
            text: self.counts.text + self.decl_size(decl),
            spaces: self.counts.spaces + spaces_of(decl),
            insts: self.counts.insts + insts_of(decl),
            columns: self.counts.columns + columns_of(decl),
            cells: self.counts.cells + self.cells_of(decl),
            locks: self.counts.locks + locks_of(decl),
            barriers: self.counts.barriers + barriers_of(decl),
            lines: self.counts.lines,
            edges: self.counts.edges,
        }
    }

    /// The quantities with a line at the end.
    pub(super) fn counts_with_line(&self, line: &Line) -> Counts
        ensures { result ≡ counts_of (with_line self.now line.now) }
    {
        Counts {
            text: self.counts.text + self.line_size(line),
            spaces: self.counts.spaces,
            insts: self.counts.insts,
            columns: self.counts.columns,
            cells: self.counts.cells,
            locks: self.counts.locks,
            barriers: self.counts.barriers,
            lines: self.counts.lines + 1,
            edges: self.counts.edges + count_edges(&self.lines, line) as u64,
        }
    }

    /// How many cells the columns of a declaration have.
    fn cells_of(&self, decl: &Decl) -> u64
        ensures cells { result ≡ cells_of_decl self.now decl.now }
        ensures few { result ≤ 18446744069414584320 }
    {
        match decl {
            Decl::Inst { space, fields, .. } => { u64::from(fields.len()) * self.points_of(*space) }
            _ => 0,
        }
    }

    /// How many points a space has: none where it is not declared.
    fn points_of(&self, s: u32) -> u64
        ensures points { result ≡ space_size (space_at self.now s) }
        ensures few { result ≤ MAX_POINTS_OF_THREE }
    {
        if s >= self.spaces() {
            return 0;
        }
        self.space(s).size()
    }
}
