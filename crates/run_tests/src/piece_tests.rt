//! The pieces into which the columns of a graph are cut, by the numbers of their columns and spaces.

use column_pieces::pieces::Piece;
use graph_reader::read_graph;
use piece_graphs::cut_columns;
use std::alloc::{AllocError, Global};
use std::test::Fail;
use test_texts::generated::numbered;

/// Two columns whose spaces cross, so that each is one piece over a union, and two tiles of a third.
const CROSSED: &str =
    "realm 3\nspace w 0..5\nspace low 0..3\nspace high 2..5\nspace left 0..2\nspace right 3..5\n\
    inst a w x,y,z\nf = fill a.x low 1\ng = fill a.x high 2 on f\nh = fill a.y high 1\ni = fill a.y low 2 on h\n\
    j = fill a.z right 1\nk = fill a.z left 1\nend\n";
/// Halos join two tiles of eight, and the others lie apart: a piece over a union, and six over tiles.
const HALOS: &str =
    "realm 3\nspace w 0..23\nspace t0 0..2\nspace t1 3..5\nspace t2 6..8\nspace t3 9..11\nspace t4 12..14\n\
    space t5 15..17\nspace t6 18..20\nspace t7 21..23\nspace low 0..3\nspace high 2..5\ninst a w x\n\
    f = fill a.x t2 1\ng = fill a.x low 1\nh = fill a.x high 2 on g\ni = fill a.x t0 2 on h\nj = fill a.x t1 2 on h\n\
    k = fill a.x t3 1\nl = fill a.x t4 1\nm = fill a.x t5 1\nn = fill a.x t6 1\no = fill a.x t7 1\nend\n";
/// The ends of a column join its two tiles, and a tile between them lies apart: the union is two intervals.
const AROUND: &str =
    "realm 3\nspace w 0..8\nspace left 0..2\nspace mid 4..4\nspace right 6..8\nspace ends 0..0,8..8\ninst a w x\n\
    f = fill a.x left 1\ng = fill a.x mid 1\nh = fill a.x right 1\ni = fill a.x ends 2 on h\nend\n";
/// A later space that has all points of a union, and of a tile beside it, takes the place of both.
const TAKEN: &str =
    "realm 3\nspace w 0..8\nspace low 0..3\nspace high 2..5\nspace most 0..6\nspace last 8..8\nspace six 6..6\ninst a w x\n\
    f = fill a.x low 1\ng = fill a.x high 1 on f\nh = fill a.x six 1\ni = fill a.x most 2 on g\nj = fill a.x last 1\nend\n";
/// An access joins two unions, and a tile lies apart.
const LINKED: &str =
    "realm 3\nspace w 0..11\nspace a 0..2\nspace b 2..4\nspace c 6..8\nspace d 8..10\nspace e 4..6\nspace f 11..11\ninst x w y\n\
    g = fill x.y a 1\nh = fill x.y b 1 on g\ni = fill x.y c 1 on h\nj = fill x.y d 1 on i\nk = fill x.y e 1 on j\n\
    l = fill x.y f 1\nend\n";
/// Spaces that cross beside a tile, in a graph that has the name of the first union.
const NAMED_UNION: &str =
    "realm 3\nspace w 0..8\nspace Union_aaaa 0..3\nspace high 2..5\nspace last 6..8\ninst a w x\n\
    f = fill a.x Union_aaaa 1\ng = fill a.x high 1 on f\nh = fill a.x last 1\nend\n";
/// A tile within another one, and one beside it.
const WITHIN: &str =
    "realm 3\nspace w 0..5\nspace one 1..1\nspace left 0..2\nspace right 3..5\ninst a w x\n\
    f = fill a.x one 1\ng = fill a.x left 2 on f\nh = fill a.x one 3 on g\ni = fill a.x right 4\nend\n";
/// Each column is used over one space alone.
const ONE_EACH: &str =
    "realm 3\nspace w 0..5\nspace left 0..2\ninst a w x,y\nf = fill a.x left 1\ng = fill a.y left 1\nend\n";
/// Two tiles, in a graph that has the name of the second piece.
const NAMED: &str = "realm 3\nspace w 0..5\nspace Piece_aaab 0..2\nspace right 3..5\ninst a w x\n\
    f = fill a.x Piece_aaab 1\ng = fill a.x right 1\nend\n";
/// The same with the name of a third one.
const NAMED_THIRD: &str =
    "realm 3\nspace w 0..5\nspace Piece_aaac 0..2\nspace right 3..5\ninst a w x\n\
    f = fill a.x Piece_aaac 1\ng = fill a.x right 1\nend\n";

/// Two tiles of two columns, in a graph that has the name of the second piece: the first instance has a field of that name.
const NAMED_FIELD: &str =
    "realm 3\nspace w 0..5\nspace Piece_aaab 0..2\nspace right 3..5\ninst a w x,y\n\
    f = fill a.x right 1\ng = fill a.y right 1\nh = fill a.y Piece_aaab 1\ni = fill a.x Piece_aaab 1\nend\n";
/// The same with the name of the third piece, which the second instance has too.
const NAMED_INSTANCE: &str =
    "realm 3\nspace w 0..5\nspace Piece_aaac 0..2\nspace right 3..5\ninst a w x,y\n\
    f = fill a.x right 1\ng = fill a.y right 1\nh = fill a.y Piece_aaac 1\ni = fill a.x Piece_aaac 1\nend\n";

/// Whether the columns of a graph are cut into just these pieces: not at all where there are none.
fn is_cut(alloc: Global, text: &str, wanted: &[(u32, u32)]) -> Result<bool, Fail> {
    let graph = read_graph(alloc, text.as_bytes())?;
    match cut_columns(alloc, &graph)? {
        Some(cut) => Ok(are_same(&cut.pieces.pieces, wanted)),
        None => Ok(wanted.is_empty()),
    }
}

/// Whether pieces are of these columns, over these spaces.
fn are_same(pieces: &[Piece], wanted: &[(u32, u32)]) -> bool {
    pieces.len() == wanted.len()
        && pieces.iter().zip(wanted).all(|(piece, want)| piece.column == want.0
            && piece.space == want.1)
}

/// So many tiles of a column, and two of another one.
fn tiles(alloc: Global, count: u32) -> Result<String, AllocError> {
    let spaces = numbered(alloc, 65, "space t# #..#\n")?;
    let fills = numbered(alloc, count, "f# = fill a.x t# 1\n")?;
    format!(in alloc;
        "realm 3\nspace w 0..64\n{spaces}inst a w x,y\n{fills}g = fill a.y t1 1\nh = fill a.y t0 1\nend\n"
    )
}

/// So many columns of 64 tiles, which are the same ones, and another column with some more lines.
fn many_tiles(alloc: Global, columns: u32, more: &str) -> Result<String, AllocError> {
    let spaces = numbered(alloc, 64, "space t# #..#\n")?;
    let insts = numbered(alloc, columns, "inst a# w x\n")?;
    let fills = of_columns(alloc, columns, "f@_# = fill a@.x t# 1\n")?;
    format!(in alloc; "realm 3\nspace w 0..63\n{spaces}{insts}inst b w x\n{fills}{more}end\n")
}

/// The same, each column with spaces of its own for its tiles.
fn own_tiles(alloc: Global, columns: u32, more: &str) -> Result<String, AllocError> {
    let spaces = of_columns(alloc, columns, "space t@_# #..#\n")?;
    let insts = numbered(alloc, columns, "inst a# w x\n")?;
    let fills = of_columns(alloc, columns, "f@_# = fill a@.x t@_# 1\n")?;
    format!(in alloc; "realm 3\nspace w 0..63\n{spaces}{insts}inst b w x\n{fills}{more}end\n")
}

/// For each of so many columns 64 copies of a text, with the number of the column in place of each `@`, and that of the copy in place of
/// each `#`.
fn of_columns(alloc: Global, columns: u32, each: &str) -> Result<String, AllocError> {
    let mut text = String::new(alloc);
    for column in 0..columns {
        let digits = format!(in alloc; "{column}")?;
        let one = numbered(alloc, 64, each)?;
        text.push_str(one.replace(alloc, '@', digits.as_str())?.as_str())?;
    }
    Ok(text)
}

/// How many pieces a graph has; none where it is not cut.
fn count(alloc: Global, text: &str) -> Result<usize, Fail> {
    let graph = read_graph(alloc, text.as_bytes())?;
    match cut_columns(alloc, &graph)? {
        Some(cut) => Ok(cut.pieces.pieces.len()),
        None => Ok(0),
    }
}

#[test]
fn pieces_of_small_graphs(rt: HostRuntime) -> Result<(), Fail> {
    let alloc = rt.alloc();
    assert!(rt; is_cut(alloc, CROSSED, &[(2, 3), (2, 4), (0, 5), (1, 6)])?);
    assert!(rt;
        is_cut(
            alloc,
            HALOS,
            &[(0, 3), (0, 4), (0, 5), (0, 6), (0, 7), (0, 8), (0, 11)]
        )?
    );
    assert!(rt; is_cut(alloc, AROUND, &[(0, 2), (0, 5)])?);
    assert!(rt; is_cut(alloc, TAKEN, &[(0, 3), (0, 4)])?);
    assert!(rt; is_cut(alloc, LINKED, &[(0, 6), (0, 7)])?);
    assert!(rt; is_cut(alloc, NAMED_UNION, &[])?);
    assert!(rt; is_cut(alloc, WITHIN, &[(0, 2), (0, 3)])?);
    assert!(rt; is_cut(alloc, ONE_EACH, &[])?);
    assert!(rt; is_cut(alloc, NAMED, &[])?);
    assert!(rt; is_cut(alloc, NAMED_THIRD, &[(0, 1), (0, 2)])?);
    assert!(rt; is_cut(alloc, NAMED_FIELD, &[(0, 1), (1, 1), (0, 2), (1, 2)])?);
    assert!(rt; is_cut(alloc, NAMED_INSTANCE, &[])?);
    Ok(())
}

#[test]
fn a_column_of_many_tiles_stays_whole(rt: HostRuntime) -> Result<(), Fail> {
    let alloc = rt.alloc();
    let text = tiles(alloc, 65)?;
    assert!(rt; is_cut(alloc, text.as_str(), &[(0, 0), (1, 1), (1, 2)])?);
    let text = tiles(alloc, 64)?;
    assert_eq!(rt; count(alloc, text.as_str())?, 66);
    Ok(())
}

#[test]
fn no_column_is_cut_where_pieces_are_too_many(rt: HostRuntime) -> Result<(), Fail> {
    let alloc = rt.alloc();
    let text = many_tiles(alloc, 64, "")?;
    assert_eq!(rt; count(alloc, text.as_str())?, 4096);
    let text = many_tiles(alloc, 64, "g = fill b.x t0 1\n")?;
    assert_eq!(rt; count(alloc, text.as_str())?, 0);
    Ok(())
}

#[test]
fn no_column_is_cut_where_spaces_of_pieces_are_too_many(rt: HostRuntime) -> Result<(), Fail> {
    let alloc = rt.alloc();
    let text = own_tiles(alloc, 16, "g = fill b.x t0_0 1\n")?;
    assert_eq!(rt; count(alloc, text.as_str())?, 1025);
    let text = own_tiles(alloc, 16, "g = fill b.x w 1\n")?;
    assert_eq!(rt; count(alloc, text.as_str())?, 0);
    Ok(())
}
