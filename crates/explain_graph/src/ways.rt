//! Whole ways to lines that wait or are cancelled, one for each line with which that begins.

ghost use Rattle.std.specs.Prelude.{◌≡◌, ◌≢◌, ℕ, ◌<◌, nat_lt, cond, List, length, None, Some, IfOk, IsSome};
ghost use Rattle.std.specs.List.{slice_index_or};
ghost use Rattle.graph_terms.specs.declared.verb.Edge.{Edge};
ghost use Rattle.explanations.specs.Reaches.{AreLinked, reach_at};
ghost use Rattle.explain_graph.specs.Ways.{IsWay, AreFarthest, AreLongest, steps_to};

use explanations::reaches::{Reach, path_to, reach_at};
use graph_terms::verb::Edge;
use index_spaces::NoMemory;
use index_spaces::room::{filled, push};
use std::alloc::Global;

/// The way to a line, edge by edge, from the line with which it begins.
#[derive(Drop)]
pub struct Way {
    pub start: u32,
    pub line: u32,
    pub path: Vec<Edge>,
}

/// For each line with which ways begin, the way from it to the farthest line, where an edge leads
/// there; of several lines to the topmost. It takes as many steps as there are lines and edges.
pub fn longest_ways(alloc: Global, reaches: &[Option<Reach>]) -> Result<Vec<Way>, NoMemory>
    requires { (all : List Edge) × AreLinked all reaches.now }
    ensures { IfOk result (λ v. AreLongest reaches.now v.items) }
{
    let farthest = farthest_lines(alloc, reaches)?;
    let mut ways = Vec::new(alloc);
    for line in &farthest {
        if let Some(line) = line {
            push(&mut ways, way_to(alloc, reaches, *line)?)?;
        }
    }
    Ok(ways)
}

/// The way to a line that is reached.
fn way_to(alloc: Global, reaches: &[Option<Reach>], line: u32) -> Result<Way, NoMemory>
    requires linked { (all : List Edge) × AreLinked all reaches.now }
    requires reached { IsSome (reach_at reaches.now line) }
    ensures way { IfOk result (IsWay reaches.now) }
    ensures line { IfOk result (λ w. w.line ≡ line) }
{
    let Some(reach) = reach_at(reaches, line) else {
        unreachable!();
    };
    let start = reach.start;
    let path = path_to(alloc, reaches, line)?;
    Ok(Way { start, line, path })
}

/// For each line with which ways begin, the farthest line on them, where there is one.
fn farthest_lines(alloc: Global, reaches: &[Option<Reach>]) -> Result<Vec<Option<u32>>, NoMemory>
    requires { (all : List Edge) × AreLinked all reaches.now }
    ensures { IfOk result (λ v. AreFarthest reaches.now (length reaches.now) v.items) }
{
    let mut farthest = filled(alloc, None, reaches.len())?;
    for reach in reaches {
        if let Some(reach) = reach {
            note(&mut farthest, reaches, *reach);
        }
    }
    Ok(farthest)
}

/// Notes the line that a way leads to as the farthest from its start, where it is farther than the one that is noted.
fn note(farthest: &mut [Option<u32>], reaches: &[Option<Reach>], reach: Reach)
    requires { reach.start < length farthest.old }
    ensures size { length farthest.new ≡ length farthest.old }
    ensures start { reach.by ≡ None → farthest.new ≡ farthest.old }
    ensures noted { (e : Edge) → reach.by ≡ Some e → slice_index_or farthest.new reach.start None
        ≡ cond (nat_lt (steps_to reaches.now (slice_index_or farthest.old reach.start None)) reach.steps) (Some e.to) (slice_index_or farthest.old reach.start None) }
    ensures others { (k : ℕ) → k ≢ reach.start → slice_index_or farthest.new k None ≡ slice_index_or farthest.old k None }
{
    let start = reach.start as usize;
    if let Some(edge) = reach.by {
        if steps_to(reaches, farthest[start]) < reach.steps {
            farthest[start] = Some(edge.to);
        }
    }
}

/// How many edges lead to a line, none where there is no line.
fn steps_to(reaches: &[Option<Reach>], line: Option<u32>) -> u32
    ensures { result ≡ steps_to reaches.now line }
{
    let Some(line) = line else {
        return 0;
    };
    match reach_at(reaches, line) {
        Some(reach) => reach.steps,
        None => 0,
    }
}
