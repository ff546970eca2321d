//! Lines that two lines both come after.

ghost use Rattle.std.specs.Prelude.{◌≡◌, ◌≢◌, ℕ, ◌+◌, ◌<◌, length, slice_index, None, IfOk, IfSome};
ghost use Rattle.graph_meaning.specs.Path.{HasPath};
ghost use Rattle.explanations.specs.Meetings.{IsNearestCommon, IsLeastBelow};

use crate::paths::shortest_path;
use crate::search::{Way, search_from};
use graph_model::graph::Graph;
use graph_terms::verb::Edge;
use index_spaces::NoMemory;
use std::alloc::Global;

/// A line that has a path to each of two others, with a shortest path to each.
#[derive(Drop)]
pub struct Meeting {
    pub line: u32,
    pub to_first: Vec<Edge>,
    pub to_second: Vec<Edge>,
}

/// The line with paths to both of two lines that no path leads between, of fewest edges together.
/// `None` exactly where no line has paths to both.
pub fn nearest_common(
    alloc: Global,
    graph: &Graph,
    first: u32,
    second: u32,
) -> Result<Option<Meeting>, NoMemory>
    requires first { first < length graph.now.lines }
    requires second { second < length graph.now.lines }
    requires different { first ≢ second }
    requires forward { HasPath graph.now first second → ⊥ }
    requires backward { HasPath graph.now second first → ⊥ }
    ensures nearest { IfOk result (λ o. IfSome o (IsNearestCommon graph.now first second)) }
    ensures none { IfOk result (λ o. o ≡ None → (k : ℕ) → HasPath graph.now k first → HasPath graph.now k second → ⊥) }
{
    let ones = search_from(alloc, graph, Way::Back, &[], &[first])?.counts;
    let others = search_from(alloc, graph, Way::Back, &[], &[second])?.counts;
    let Some(line) = least_below(ones.as_slice(), others.as_slice(), graph.lines()) else {
        return Ok(None);
    };
    match shortest_path(alloc, graph, line, first)? {
        Some(to_first) => match shortest_path(alloc, graph, line, second)? {
            Some(to_second) => Ok(Some(Meeting {
                line,
                to_first,
                to_second,
            })),
            None => unreachable!(),
        },
        None => unreachable!(),
    }
}

/// Of the lines below a number that have both counts, the first with the least sum of them.
fn least_below(ones: &[u32], others: &[u32], lines: u32) -> Option<u32>
    requires ones { length ones.now ≡ lines }
    requires others { length others.now ≡ lines }
    ensures { IsLeastBelow (slice_index ones.now) (slice_index others.now) lines result }
{
    let mut best = None;
    for line in 0..lines {
        best = lesser_line(ones, others, best, line);
    }
    best
}

/// The next line in place of the best so far, where both its counts are there and their sum is less.
fn lesser_line(ones: &[u32], others: &[u32], best: Option<u32>, line: u32) -> Option<u32>
    requires one { line < length ones.now }
    requires other { line < length others.now }
    requires best { IsLeastBelow (slice_index ones.now) (slice_index others.now) line best }
    ensures { IsLeastBelow (slice_index ones.now) (slice_index others.now) (line + 1) result }
{
    if ones[line as usize] == 0 || others[line as usize] == 0 {
        return best;
    }
    let sum = u64::from(ones[line as usize]) + u64::from(others[line as usize]);
    let Some(old) = best else {
        return Some(line);
    };
    if u64::from(ones[old as usize]) + u64::from(others[old as usize]) <= sum {
        best
    } else {
        Some(line)
    }
}
