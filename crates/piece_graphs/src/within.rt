//! The spaces of pieces.

ghost use Rattle.std.specs.Prelude.{◌≡◌, ◌<◌, length};
ghost use Rattle.index_spaces.specs.Space.{has_point, point_at};
ghost use Rattle.graph_terms.specs.Graph.{named_spaces, space_at};
ghost use Rattle.column_pieces.specs.Pieces.{piece_space};

use graph_model::graph::Graph;
use index_spaces::space::Space;

/// The first point of a space.
pub(crate) fn first_point(graph: &Graph, s: u32) -> u32
    requires { s < length (named_spaces graph.now) }
    ensures { result ≡ point_at (space_at graph.now s) 0 }
{
    let space = graph.space(s);
    let _ = space.size();
    space.point(0)
}

/// Whether the space of a number, declared or a union, has a point.
pub(crate) fn has_point(graph: &Graph, unions: &[Space], s: u32, point: u32) -> bool
    ensures { result ≡ has_point (piece_space graph.now unions.now s) point }
{
    let spaces = graph.spaces();
    if s < spaces {
        return graph.space(s).contains(point);
    }
    match unions.get((s - spaces) as usize) {
        Some(space) => space.contains(point),
        None => false,
    }
}
