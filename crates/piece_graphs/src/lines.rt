//! The lines of a graph of pieces.

ghost use Rattle.std.specs.Prelude.{◌≡◌, ◌==◌, ◌<◌, Contains, false, length, position, find, slice_get, Some, None, IfOk, IfSome, IsTrue};
ghost use Rattle.index_spaces.specs.Space.{has_point, point_at, IsSpace};
ghost use Rattle.graph_terms.specs.declared.verb.Access.{Access};
ghost use Rattle.graph_terms.specs.Graph.{named_spaces, space_at};
ghost use Rattle.graph_terms.specs.Access.{accesses};
ghost use Rattle.graph_terms.specs.Fits.{IsGraph};
ghost use Rattle.column_pieces.specs.Cut.{kernel_on, verb_on, line_on};
ghost use Rattle.column_pieces.specs.Pieces.{piece_space, named_at, decls_of_pieces, graph_of_pieces};
ghost use Rattle.piece_graphs.specs.Items.{of_decls};
ghost use Rattle.piece_graphs.specs.declared.numbered.Place.{Place};
ghost use Rattle.piece_graphs.specs.Naming.{place_of, name_of};
ghost use Rattle.piece_graphs.specs.Numbered.{AreColumns};

use crate::numbered::{ColumnPieces, Place};
use crate::within::{first_point, has_point};
use graph_copies::copy_of_line;
use graph_meaning::line_laws::{accesses_are_few, accesses_fit};
use graph_model::graph::Graph;
use graph_terms::limits::MOST_ACCESSES;
use graph_terms::verb::{Access, Kernel, Line, Verb};
use index_spaces::NoMemory;
use index_spaces::space::Space;
use std::alloc::Global;

/// Puts the lines of a graph behind the declarations of another, with pieces in place of columns.
/// `None` exactly where one of them does not fit there.
pub(crate) fn with_lines(
    alloc: Global,
    mut cut: Graph,
    graph: &Graph,
    columns: &ColumnPieces,
) -> Result<Option<Graph>, NoMemory>
    requires columns { AreColumns graph.now columns.now }
    requires declared { cut ≡ of_decls (decls_of_pieces graph.now columns.now.unions.items columns.now.pieces.items) }
    ensures some { IfOk result (λ o. IfSome o (λ g. g ≡ graph_of_pieces graph.now columns.now.unions.items columns.now.pieces.items)) }
    ensures none { IfOk result (λ o. o ≡ None → IsGraph (graph_of_pieces graph.now columns.now.unions.items columns.now.pieces.items) → ⊥) }
{
    for i in 0..graph.lines() {
        let line = line_of_pieces(alloc, graph, columns, i, graph.line(i))?;
        line.is_well_formed();
        if cut.offer_line(line)?.is_some() {
            return Ok(None);
        }
    }
    Ok(Some(cut))
}

/// Line `i` with pieces in place of columns.
fn line_of_pieces(
    alloc: Global,
    graph: &Graph,
    columns: &ColumnPieces,
    i: u32,
    line: &Line,
) -> Result<Line, NoMemory>
    requires line { slice_get graph.now.lines i ≡ Some line.now }
    requires below { i < length graph.now.lines }
    requires columns { AreColumns graph.now columns.now }
    ensures { IfOk result (λ l. l ≡ line_on (named_at graph.now columns.now.unions.items columns.now.pieces.items i) line.now) }
{
    let _ = graph.lines();
    let Line { name, verb, on } = copy_of_line(alloc, line)?;
    Ok(Line {
        name,
        verb: verb_on(graph, columns, i, verb),
        on,
    })
}

/// What line `i` does, with pieces in place of columns.
fn verb_on(graph: &Graph, columns: &ColumnPieces, i: u32, verb: Verb) -> Verb
    requires line { i < length graph.now.lines }
    requires columns { AreColumns graph.now columns.now }
    ensures { result ≡ verb_on (name_of graph.now columns.now.unions.items columns.now.pieces.items i) verb }
{
    match verb {
        Verb::Fill {
            target,
            space,
            value,
        } => Verb::Fill {
            target: name_of(graph, columns, i, target),
            space,
            value,
        },
        Verb::Copy {
            source,
            target,
            space,
        } => Verb::Copy {
            source: name_of(graph, columns, i, source),
            target: name_of(graph, columns, i, target),
            space,
        },
        Verb::Reduce {
            op,
            source,
            target,
            space,
        } => Verb::Reduce {
            op,
            source: name_of(graph, columns, i, source),
            target: name_of(graph, columns, i, target),
            space,
        },
        Verb::Task { kernel } => Verb::Task {
            kernel: kernel_on(graph, columns, i, kernel),
        },
        other => other,
    }
}

/// The kernel of line `i`, with pieces in place of columns.
fn kernel_on(graph: &Graph, columns: &ColumnPieces, i: u32, kernel: Kernel) -> Kernel
    requires line { i < length graph.now.lines }
    requires columns { AreColumns graph.now columns.now }
    ensures { result ≡ kernel_on (name_of graph.now columns.now.unions.items columns.now.pieces.items i) kernel }
{
    match kernel {
        Kernel::Iota { x, s, value } => Kernel::Iota {
            x: name_of(graph, columns, i, x),
            s,
            value,
        },
        Kernel::Axpy { x, y, s, factor } => Kernel::Axpy {
            x: name_of(graph, columns, i, x),
            y: name_of(graph, columns, i, y),
            s,
            factor,
        },
        Kernel::Stencil { x, y, r, s } => Kernel::Stencil {
            x: name_of(graph, columns, i, x),
            y: name_of(graph, columns, i, y),
            r,
            s,
        },
        Kernel::Scan { x, y, s } => Kernel::Scan {
            x: name_of(graph, columns, i, x),
            y: name_of(graph, columns, i, y),
            s,
        },
        Kernel::Hist { x, y, s, t } => Kernel::Hist {
            x: name_of(graph, columns, i, x),
            y: name_of(graph, columns, i, y),
            s,
            t,
        },
        Kernel::Dot { x, y, z, s, t } => Kernel::Dot {
            x: name_of(graph, columns, i, x),
            y: name_of(graph, columns, i, y),
            z: name_of(graph, columns, i, z),
            s,
            t,
        },
        Kernel::Expect { x, s, low, high } => Kernel::Expect {
            x: name_of(graph, columns, i, x),
            s,
            low,
            high,
        },
        Kernel::Gather { x, y, z, s, t } => Kernel::Gather {
            x: name_of(graph, columns, i, x),
            y: name_of(graph, columns, i, y),
            z: name_of(graph, columns, i, z),
            s,
            t,
        },
    }
}

/// The piece that line `i` names in place of a column.
fn name_of(graph: &Graph, columns: &ColumnPieces, i: u32, column: u32) -> u32
    requires line { i < length graph.now.lines }
    requires columns { AreColumns graph.now columns.now }
    ensures { result ≡ name_of graph.now columns.now.unions.items columns.now.pieces.items i column }
{
    accesses_fit();
    let _ = graph.lines();
    match access_of(graph, i, column) {
        Some(access) => place_of(graph, columns, column, access.space),
        // A line names no column but those that it accesses.
        None => column,
    }
}

/// The access of a column by a line.
fn access_of(graph: &Graph, i: u32, column: u32) -> Option<Access>
    requires { i < length graph.now.lines }
    ensures { result ≡ find (λ (a : Access). a.column == column) (accesses graph.now i) }
{
    accesses_are_few();
    for k in 0..MOST_ACCESSES {
        match graph.access(i, k) {
            Some(access) if access.column == column => return Some(access),
            _ => {}
        }
    }
    None
}

/// The number of the piece that has the first point of a space by which a column is accessed.
fn place_of(graph: &Graph, columns: &ColumnPieces, column: u32, space: u32) -> u32
    requires known { column < length columns.now.places.items }
    requires space { space < length (named_spaces graph.now) }
    requires is_space { IsSpace (space_at graph.now space) }
    requires columns { AreColumns graph.now columns.now }
    ensures { result ≡ place_of graph.now columns.now.unions.items columns.now.pieces.items column (point_at (space_at graph.now space) 0) }
{
    let own = &columns.places[column as usize];
    match place_in(graph, &columns.unions, own, space) {
        Some(k) => own[k].number,
        None => column,
    }
}

/// The place of that piece among those of the column.
fn place_in(graph: &Graph, unions: &[Space], own: &[Place], space: u32) -> Option<usize>
    requires space { space < length (named_spaces graph.now) }
    requires is_space { IsSpace (space_at graph.now space) }
    ensures some { IfSome result (λ k. (p : Place) × (slice_get own.now k ≡ Some p) × IsTrue (has_point (piece_space graph.now unions.now p.space) (point_at (space_at graph.now space) 0))) }
    ensures none { result ≡ None → (p : Place) → Contains own.now p → has_point (piece_space graph.now unions.now p.space) (point_at (space_at graph.now space) 0) ≡ false }
{
    // An access over the very space of a piece is told without a look at its points.
    match place_of_space(own, space) {
        Some(k) => Some(k),
        None => place_of_point(graph, unions, own, first_point(graph, space)),
    }
}

/// The first of these places over a space.
fn place_of_space(own: &[Place], space: u32) -> Option<usize>
    ensures { result ≡ position (λ (p : Place). p.space == space) own.now }
{
    own.iter().position(|place| place.space == space)
}

/// The first of these places over a space that has a point.
fn place_of_point(graph: &Graph, unions: &[Space], own: &[Place], point: u32) -> Option<usize>
    ensures { result ≡ position (λ (p : Place). has_point (piece_space graph.now unions.now p.space) point) own.now }
{
    own.iter()
        .position(|place| has_point(graph, unions, place.space, point))
}
