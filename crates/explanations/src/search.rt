//! Searches from some lines, edge by edge, for how far the other lines are from these, and by which edges they are found.

ghost use Rattle.std.specs.Prelude.{◌≡◌, ℕ, ◌+◌, ◌<◌, ◌==◌, List, [], filter, length, Contains, slice_index, OnOk, IfOk};
ghost use Rattle.graph_terms.specs.declared.verb.Edge.{Edge};
ghost use Rattle.graph_terms.specs.declared.verb.EdgeKind.{EdgeKind};
ghost use Rattle.graph_terms.specs.Edges.{edges};
ghost use Rattle.graph_meaning.specs.Evaluation.{cancels, is_ended};
ghost use Rattle.line_marks.specs.Marking.{IsMarking};
ghost use Rattle.explanations.specs.Reaches.{end_at, carries};
ghost use Rattle.explanations.specs.Search.{near_end, far_end, follows, way_edges, origin_at, no_origin, AreCounts, AreOrigins, IsOrigin, IsFarEnd, IsFarEndOfSome};

use graph_meaning::laws::edges_between_lines;
use graph_model::graph::Graph;
use graph_terms::outcome::End;
use graph_terms::verb::{Edge, EdgeKind};
use index_spaces::NoMemory;
use index_spaces::room::filled;
use line_marks::Marks;
use std::alloc::Global;
use std::mem;

/// Which way a search follows the edges.
#[derive(Clone, Copy, Debug, PartialEq, Eq)]
pub(crate) enum Way {
    /// From a line to those that wait for it.
    Onward,
    /// From a line to those that it waits for.
    Back,
    /// From a line to those that it cancels, by the ends of lines.
    Faults,
}

/// Where the way to a line begins, and the last edge of it.
#[derive(Clone, Copy, Debug, PartialEq, Eq)]
pub(crate) struct Origin {
    pub(crate) start: u32,
    /// `None` where the line is the start.
    pub(crate) by: Option<Edge>,
}

/// What a search leaves: for each line the least number of lines on the way from a start to it, itself and the start
/// included, 1 for a start, and 0 where no way leads from any start to it; and for each line that counts its origin.
#[derive(Drop)]
pub(crate) struct Tree {
    pub(crate) counts: Vec<u32>,
    pub(crate) origins: Vec<Origin>,
}

/// The edges that a search follows from a line.
pub(crate) fn edges_at(graph: &Graph, way: Way, line: u32) -> &[Edge]
    requires { line < length graph.now.lines }
    ensures { result.now ≡ filter (λ e. near_end way e == line) (edges graph.now) }
{
    match way {
        Way::Onward | Way::Faults => graph.edges_from(line),
        Way::Back => graph.edges_into(line),
    }
}

/// Whether a search follows an edge.
pub(crate) fn follows(way: Way, ends: &[End], edge: Edge) -> bool
    ensures { result ≡ follows way ends.now edge }
{
    match way {
        Way::Onward | Way::Back => true,
        Way::Faults => carries(ends, edge),
    }
}

/// Whether an edge cancels the line that waits.
fn carries(ends: &[End], edge: Edge) -> bool
    ensures { result ≡ carries ends.now edge }
{
    let cancels = match edge.kind {
        EdgeKind::Faults => true,
        EdgeKind::Passes => is_fault(end_at(ends, edge.from)),
        EdgeKind::Ignores => false,
    };
    cancels && is_ended(end_at(ends, edge.to))
}

fn is_ended(end: End) -> bool
    ensures { result ≡ is_ended end }
{
    !matches!(end, End::Waiting)
}

/// Whether a fault passes on from a line that ended so.
fn is_fault(end: End) -> bool
    ensures { result ≡ cancels EdgeKind.Passes end }
{
    matches!(end, End::Faulted | End::Cancelled)
}

/// How a line ended.
pub(crate) fn end_at(ends: &[End], line: u32) -> End
    ensures { result ≡ end_at ends.now line }
{
    match ends.get(line as usize) {
        Some(end) => *end,
        None => End::Waiting,
    }
}

/// The line at which a search begins to follow an edge.
pub(crate) fn near_end(way: Way, edge: Edge) -> u32
    ensures { result ≡ near_end way edge }
{
    match way {
        Way::Onward | Way::Faults => edge.from,
        Way::Back => edge.to,
    }
}

/// The line that a search finds by an edge.
pub(crate) fn far_end(way: Way, edge: Edge) -> u32
    ensures { result ≡ far_end way edge }
{
    match way {
        Way::Onward | Way::Faults => edge.to,
        Way::Back => edge.from,
    }
}

/// A search from some lines, which reads the ends of lines where it follows faults.
pub(crate) fn search_from(
    alloc: Global,
    graph: &Graph,
    way: Way,
    ends: &[End],
    starts: &[u32],
) -> Result<Tree, NoMemory>
    requires { (i : ℕ) → Contains starts.now i → i < length graph.now.lines }
    ensures size { IfOk result (λ t. length t.counts.items ≡ length graph.now.lines) }
    ensures counts { IfOk result (λ t. AreCounts (way_edges way ends.now (edges graph.now)) (near_end way) (far_end way) (Contains starts.now) (slice_index t.counts.items)) }
    ensures origins { IfOk result (λ t. AreOrigins (way_edges way ends.now (edges graph.now)) (near_end way) (far_end way) starts.now t.counts.items t.origins.items) }
{
    let _ = graph.lines();
    let mut search = Search::new(alloc, graph)?;
    search.find_starts(starts)?;
    let mut count = 1;
    'levels: while !search.marks.pending.is_empty() {
        let level = mem::replace(&mut search.marks.pending, Vec::new(alloc));
        count += 1;
        search.follow_all(graph, way, ends, level.as_slice(), count)?;
    }
    Ok(search.into_tree())
}

/// A search under way: how far lines are by their marks, the lines that the last step found, and the
/// origins of lines.
#[derive(Drop)]
struct Search {
    marks: Marks,
    origins: Vec<Origin>,
}

impl Search {
    /// No line is found.
    fn new(alloc: Global, graph: &Graph) -> Result<Search, NoMemory>
        ensures size { IfOk result (λ s. length s.marks.by_line.items ≡ length graph.now.lines) }
        ensures none { IfOk result (λ s. (i : ℕ) → slice_index s.marks.by_line.items i ≡ 0) }
        ensures origins { IfOk result (λ s. length s.origins.items ≡ length graph.now.lines) }
        ensures pending { IfOk result (λ s. s.marks.pending.items ≡ []) }
    {
        let marks = Marks::new(alloc, graph.lines() as usize)?;
        let none = Origin { start: 0, by: None };
        let origins = filled(alloc, none, graph.lines() as usize)?;
        Ok(Search { marks, origins })
    }

    /// What it leaves.
    fn into_tree(self) -> Tree
        ensures counts { result.counts ≡ self.marks.by_line }
        ensures origins { result.origins ≡ self.origins }
    {
        let Search { marks, origins } = self;
        let Marks { by_line, .. } = marks;
        Tree {
            counts: by_line,
            origins,
        }
    }

    /// Finds a line, where it was not found before.
    fn find(&mut self, line: u32, count: u32, origin: Origin) -> Result<(), NoMemory>
        requires known { line < length self.old.marks.by_line.items }
        requires size { length self.old.origins.items ≡ length self.old.marks.by_line.items }
        requires some { 0 < count }
        ensures marking { OnOk result
            (IsMarking (λ i. i ≡ line) count self.old.marks.by_line.items self.old.marks.pending.items self.new.marks.by_line.items self.new.marks.pending.items) }
        ensures size { OnOk result (length self.new.origins.items ≡ length self.old.origins.items) }
        ensures origins { OnOk result ((all : List Edge) (near far : Edge → ℕ) (starts : List ℕ)
            → IsOrigin all near far starts self.old.marks.by_line.items self.old.origins.items line count origin
            → AreOrigins all near far starts self.old.marks.by_line.items self.old.origins.items
            → AreOrigins all near far starts self.new.marks.by_line.items self.new.origins.items) }
    {
        if self.marks.mark(line, count)? {
            self.origins[line as usize] = origin;
        }
        Ok(())
    }

    /// Finds the lines with which a search begins.
    fn find_starts(&mut self, starts: &[u32]) -> Result<(), NoMemory>
        requires known { (i : ℕ) → Contains starts.now i → i < length self.old.marks.by_line.items }
        requires none { (i : ℕ) → slice_index self.old.marks.by_line.items i ≡ 0 }
        requires size { length self.old.origins.items ≡ length self.old.marks.by_line.items }
        ensures marking { OnOk result
            (IsMarking (Contains starts.now) 1 self.old.marks.by_line.items self.old.marks.pending.items self.new.marks.by_line.items self.new.marks.pending.items) }
        ensures origins { OnOk result ((all : List Edge) (near far : Edge → ℕ)
            → AreOrigins all near far starts.now self.new.marks.by_line.items self.new.origins.items) }
    {
        for line in starts {
            let own = Origin {
                start: *line,
                by: None,
            };
            self.find(*line, 1, own)?;
        }
        Ok(())
    }

    /// Follows the edges at a line.
    fn follow(
        &mut self,
        graph: &Graph,
        way: Way,
        ends: &[End],
        line: u32,
        count: u32,
    ) -> Result<(), NoMemory>
        requires known { line < length graph.now.lines }
        requires size { length self.old.marks.by_line.items ≡ length graph.now.lines }
        requires origins_size { length self.old.origins.items ≡ length graph.now.lines }
        requires some { 0 < slice_index self.old.marks.by_line.items line }
        requires next { count ≡ slice_index self.old.marks.by_line.items line + 1 }
        ensures marking { OnOk result
            (IsMarking (IsFarEnd (way_edges way ends.now (filter (λ e. near_end way e == line) (edges graph.now))) (far_end way)) count
            self.old.marks.by_line.items self.old.marks.pending.items self.new.marks.by_line.items self.new.marks.pending.items) }
        ensures origins_size { OnOk result (length self.new.origins.items ≡ length graph.now.lines) }
        ensures origins { OnOk result ((starts : List ℕ)
            → AreOrigins (way_edges way ends.now (edges graph.now)) (near_end way) (far_end way) starts self.old.marks.by_line.items self.old.origins.items
            → AreOrigins (way_edges way ends.now (edges graph.now)) (near_end way) (far_end way) starts self.new.marks.by_line.items self.new.origins.items) }
    {
        edges_between_lines();
        let _ = graph.lines();
        let edges = edges_at(graph, way, line);
        for edge in edges {
            if follows(way, ends, *edge) {
                let origin = Origin {
                    start: self.origins[line as usize].start,
                    by: Some(*edge),
                };
                let found = far_end(way, *edge);
                self.find(found, count, origin)?;
            }
        }
        Ok(())
    }

    /// Follows the edges at all lines of a level.
    fn follow_all(
        &mut self,
        graph: &Graph,
        way: Way,
        ends: &[End],
        level: &[u32],
        count: u32,
    ) -> Result<(), NoMemory>
        requires known { (i : ℕ) → Contains level.now i → i < length graph.now.lines }
        requires size { length self.old.marks.by_line.items ≡ length graph.now.lines }
        requires origins_size { length self.old.origins.items ≡ length graph.now.lines }
        requires some { 1 < count }
        requires next { (i : ℕ) → Contains level.now i → count ≡ slice_index self.old.marks.by_line.items i + 1 }
        ensures marking { OnOk result
            (IsMarking (IsFarEndOfSome (way_edges way ends.now (edges graph.now)) (near_end way) (far_end way) level.now) count
            self.old.marks.by_line.items self.old.marks.pending.items self.new.marks.by_line.items self.new.marks.pending.items) }
        ensures origins_size { OnOk result (length self.new.origins.items ≡ length graph.now.lines) }
        ensures origins { OnOk result ((starts : List ℕ)
            → AreOrigins (way_edges way ends.now (edges graph.now)) (near_end way) (far_end way) starts self.old.marks.by_line.items self.old.origins.items
            → AreOrigins (way_edges way ends.now (edges graph.now)) (near_end way) (far_end way) starts self.new.marks.by_line.items self.new.origins.items) }
    {
        for line in level {
            self.follow(graph, way, ends, *line, count)?;
        }
        Ok(())
    }
}
