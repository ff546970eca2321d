//! The quantities that a declaration is part of.

ghost use Rattle.basics.specs.Words.{contents};
ghost use Rattle.std.specs.Prelude.{◌≡◌, ◌≤◌, ◌<◌, ◌+◌, ◌-◌, length, drop, filter, option_map, is_some, IfOk};
ghost use Rattle.index_spaces.specs.Space.{space_size};
ghost use Rattle.graph_terms.specs.Graph.{space_at};
ghost use Rattle.graph_terms.specs.Fits.{is_inst, cell_count};
ghost use Rattle.graph_words.specs.Draft.{op_of, decl_draft, space_draft, inst_draft, data_draft, lock_draft, barrier_draft, SpaceName};
ghost use Rattle.word_meanings.specs.Telling.{named_number};
ghost use Rattle.refused_words.specs.Limits.{quantity_value, limit_in, columns_quantity, column_count, intervals_limit, inst_limit, data_limit};

use crate::limits::{Quantity, first_above, one_if, spaces, with_bound};
use graph_model::graph::Graph;
use graph_terms::decl::Decl;
use graph_terms::format::Format;
use graph_terms::limits::Limits;
use graph_terms::table::Place;
use graph_words::intervals::intervals;
use graph_words::words::{split, word};
use index_spaces::NoMemory;
use index_spaces::limits::MAX_INTERVALS_OF_THREE;
use std::alloc::Global;
use word_meanings::seen::see;

/// Of a declaration.
pub(crate) fn of_declaration(
    alloc: Global,
    graph: &Graph,
    words: &[&[u8]],
) -> Result<Option<Quantity>, NoMemory>
    ensures { IfOk result (λ o. option_map quantity_value o ≡ limit_in graph.now (decl_draft graph.now (contents words.now))) }
{
    let kind = word(words, 0);
    if kind == b"space".as_slice() {
        return of_space(alloc, graph, words);
    }
    if kind == b"inst".as_slice() {
        return of_inst(alloc, graph, words);
    }
    if kind == b"lock".as_slice() {
        return Ok(of_lock(graph, words));
    }
    if kind == b"barrier".as_slice() {
        return Ok(of_barrier(graph, words));
    }
    if kind == b"data".as_slice() {
        return of_data(alloc, graph, words);
    }
    Ok(None)
}

/// Of a space: its intervals, its points, and the spaces.
fn of_space(alloc: Global, graph: &Graph, words: &[&[u8]]) -> Result<Option<Quantity>, NoMemory>
    ensures { IfOk result (λ o. option_map quantity_value o ≡ limit_in graph.now (space_draft graph.now (drop 1 (contents words.now)))) }
{
    if words.len() != 3 {
        return Ok(None);
    }
    match intervals(alloc, word(words, 2))? {
        Some(pairs) => Ok(of_intervals(graph, pairs.as_slice())),
        None => Ok(of_intervals(graph, &[])),
    }
}

/// Of a space of these intervals; a word that spells none counts as none.
fn of_intervals(graph: &Graph, pairs: &[(u32, u32)]) -> Option<Quantity>
    ensures { option_map quantity_value result ≡ intervals_limit graph.now pairs.now }
{
    let most = Limits::of(graph.format()).space;
    let count = pairs.len() as u64;
    let bound = u64::from(most.intervals);
    let intervals = with_bound(b"intervals of a space", count, bound);
    if count > bound {
        return Some(intervals);
    }
    let points = with_bound(b"points of a space", point_count(pairs), most.points);
    first_above(&[points, spaces(graph, 1)])
}

/// How many points intervals have: none where one is reversed.
fn point_count(pairs: &[(u32, u32)]) -> u64
    requires { length pairs.now ≤ MAX_INTERVALS_OF_THREE }
    ensures { result ≡ space_size pairs.now }
{
    let mut points: u64 = 0;
    for pair in pairs {
        points += interval_size(*pair);
    }
    points
}

fn interval_size(pair: (u32, u32)) -> u64
    ensures size { result ≡ pair.1 + 1 - pair.0 }
    ensures few { result ≤ 4294967296 }
{
    (u64::from(pair.1) + 1).saturating_sub(u64::from(pair.0))
}

/// Of an instance: the instances, the columns, the cells and the spaces.
fn of_inst(alloc: Global, graph: &Graph, words: &[&[u8]]) -> Result<Option<Quantity>, NoMemory>
    ensures { IfOk result (λ o. option_map quantity_value o ≡ limit_in graph.now (inst_draft graph.now (drop 1 (contents words.now)))) }
{
    if words.len() != 4 {
        return Ok(None);
    }
    let _ = graph.lines();
    let fields = split(alloc, word(words, 3), b',')?;
    let space = see(graph, Place::Space, word(words, 2)).number;
    Ok(of_fields(graph, space, fields.len() as u64))
}

/// Of an instance of so many fields over the space of this number.
fn of_fields(graph: &Graph, space: u32, fields: u64) -> Option<Quantity>
    requires { fields ≤ 9223372036854775807 }
    ensures { option_map quantity_value result ≡ inst_limit graph.now space fields }
{
    let most = Limits::of(graph.format());
    let insts = with_bound(b"instances", inst_count(graph) + 1, most.insts);
    let columns = columns(graph, fields);
    if columns.value > columns.bound {
        return first_above(&[insts, columns]);
    }
    let all = cell_count(graph) + fields * points_of(graph, space);
    let cells = with_bound(b"cells", all, most.cells);
    first_above(&[insts, cells, spaces(graph, 0)])
}

/// The columns of a graph with so many more.
fn columns(graph: &Graph, fields: u64) -> Quantity
    requires { fields ≤ 9223372036854775807 }
    ensures { quantity_value result ≡ columns_quantity graph.now.format (column_count graph.now + fields) }
{
    let count = u64::from(graph.all_columns()) + fields;
    with_bound(b"columns", count, Limits::of(graph.format()).columns)
}

/// Of data: the columns and the spaces.
fn of_data(alloc: Global, graph: &Graph, words: &[&[u8]]) -> Result<Option<Quantity>, NoMemory>
    ensures { IfOk result (λ o. option_map quantity_value o ≡ limit_in graph.now (data_draft graph.now (drop 1 (contents words.now)))) }
{
    if !graph.format().has_since(Format::Three) || words.len() != 4 {
        return Ok(None);
    }
    let _ = graph.lines();
    let fields = split(alloc, word(words, 3), b',')?;
    Ok(of_data_fields(graph, fields.len() as u64))
}

/// Of data of so many fields.
fn of_data_fields(graph: &Graph, fields: u64) -> Option<Quantity>
    requires { fields ≤ 9223372036854775807 }
    ensures { option_map quantity_value result ≡ data_limit graph.now fields }
{
    first_above(&[columns(graph, fields), spaces(graph, 0)])
}

/// How many instances a graph has.
fn inst_count(graph: &Graph) -> u64
    ensures count { result ≡ length (filter is_inst graph.now.decls) }
    ensures few { result ≤ 4294967295 }
{
    let mut count: u64 = 0;
    for d in 0..graph.decls() {
        count += one_if(is_inst(graph.decl(d)));
    }
    count
}

fn is_inst(decl: &Decl) -> bool
    ensures { result ≡ is_inst decl.now }
{
    matches!(decl, Decl::Inst { .. })
}

/// How many cells the columns of a graph have.
fn cell_count(graph: &Graph) -> u64
    ensures count { result ≡ cell_count graph.now }
    ensures few { result ≤ 17592186044416 }
{
    let mut count: u64 = 0;
    for c in 0..graph.columns() {
        count += graph.column_space(c).size();
    }
    count
}

/// How many points a space has: none where it is not declared.
fn points_of(graph: &Graph, s: u32) -> u64
    ensures points { result ≡ space_size (space_at graph.now s) }
    ensures few { result ≤ 4294967296 }
{
    if s >= graph.spaces() {
        return 0;
    }
    graph.space(s).size()
}

/// Of a reservation: the reservations, and the spaces.
fn of_lock(graph: &Graph, words: &[&[u8]]) -> Option<Quantity>
    ensures { option_map quantity_value result ≡ limit_in graph.now (lock_draft graph.now (drop 1 (contents words.now))) }
{
    if words.len() != 2 {
        return None;
    }
    let most = Limits::of(graph.format()).locks;
    let locks = with_bound(b"reservations", u64::from(graph.locks()) + 1, most);
    first_above(&[locks, spaces(graph, 0)])
}

/// Of a barrier: the barriers, and the spaces.
fn of_barrier(graph: &Graph, words: &[&[u8]]) -> Option<Quantity>
    ensures { option_map quantity_value result ≡ limit_in graph.now (barrier_draft graph.now (drop 1 (contents words.now))) }
{
    if words.len() != 5 || !is_reduction(word(words, 3)) {
        return None;
    }
    let most = Limits::of(graph.format()).barriers;
    let barriers = with_bound(b"barriers", u64::from(graph.barriers()) + 1, most);
    first_above(&[barriers, spaces(graph, 0)])
}

/// Whether a word names a reduction.
fn is_reduction(word: &[u8]) -> bool
    ensures { result ≡ is_some (op_of word.now) }
{
    word == b"sum".as_slice() || word == b"min".as_slice() || word == b"max".as_slice()
}
