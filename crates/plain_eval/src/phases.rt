//! The values of phases.

ghost use Rattle.std.specs.Prelude.{◌≡◌, ◌<◌, length, map, option_map, None, slice_index_or, slice_set, IfOk};
ghost use Rattle.basics.specs.Lists.{numbers_below};
ghost use Rattle.graph_meaning.specs.Evaluation.{eval_end, combined, phase_value};
ghost use Rattle.plain_eval.specs.Phases.{with_arrival, first_reduction, reduction_after};

use graph_meaning::line_laws::phases_fit;
use graph_model::graph::Graph;
use graph_terms::outcome::End;
use graph_terms::verb::Verb;
use index_spaces::room::push;
use index_spaces::{NoMemory, Op};
use line_effects::passing::{barrier_of, combined};
use std::alloc::Global;

/// How the values of the arrivals at a phase are reduced, and what they are reduced to so far.
#[derive(Clone, Copy)]
pub(crate) struct Reduction {
    op: Op,
    total: u64,
}

/// The value of each phase that is done, and none for any other line.
pub(crate) fn phase_values(
    alloc: Global,
    graph: &Graph,
    ends: &[End],
) -> Result<Vec<Option<u64>>, NoMemory>
    requires { ends.now ≡ map (eval_end graph.now) (numbers_below (length graph.now.lines)) }
    ensures { IfOk result (λ v. v.items ≡ map (phase_value graph.now) (numbers_below (length graph.now.lines))) }
{
    phases_fit();
    let _ = graph.lines();
    let reductions = reduce(alloc, graph, ends)?;
    let mut values = Vec::new(alloc);
    for reduction in reductions.as_slice() {
        push(&mut values, total_of(reduction))?;
    }
    Ok(values)
}

fn total_of(reduction: &Option<Reduction>) -> Option<u64>
    ensures { result ≡ option_map (λ r. r.total) reduction.now }
{
    match reduction {
        Some(reduction) => Some(reduction.total),
        None => None,
    }
}

/// The reductions after all arrivals.
fn reduce(alloc: Global, graph: &Graph, ends: &[End]) -> Result<Vec<Option<Reduction>>, NoMemory>
    requires { ends.now ≡ map (eval_end graph.now) (numbers_below (length graph.now.lines)) }
    ensures { IfOk result (λ v. v.items ≡ map (reduction_after graph.now (length graph.now.lines))
        (numbers_below (length graph.now.lines))) }
{
    let mut reductions = first_reductions(alloc, graph, ends)?;
    for line in 0..graph.lines() {
        arrive(reductions.as_mut_slice(), &graph.line(line).verb);
    }
    Ok(reductions)
}

/// The reductions before any arrival.
fn first_reductions(
    alloc: Global,
    graph: &Graph,
    ends: &[End],
) -> Result<Vec<Option<Reduction>>, NoMemory>
    requires { ends.now ≡ map (eval_end graph.now) (numbers_below (length graph.now.lines)) }
    ensures { IfOk result (λ v. v.items ≡ map (first_reduction graph.now) (numbers_below (length graph.now.lines))) }
{
    let mut reductions = Vec::new(alloc);
    for line in 0..graph.lines() {
        let first = first_reduction(graph, line, ends[line as usize]);
        push(&mut reductions, first)?;
    }
    Ok(reductions)
}

fn first_reduction(graph: &Graph, line: u32, end: End) -> Option<Reduction>
    requires known { line < length graph.now.lines }
    requires end { end ≡ eval_end graph.now line }
    ensures { result ≡ first_reduction graph.now line }
{
    match (barrier_of(graph, line), end) {
        (Some(barrier), End::Done) => Some(Reduction {
            op: barrier.op,
            total: barrier.first,
        }),
        _ => None,
    }
}

/// Adds what a line arrives with, where it is an arrival.
fn arrive(reductions: &mut [Option<Reduction>], verb: &Verb)
    ensures { reductions.new ≡ with_arrival verb.now reductions.old }
{
    match verb {
        Verb::Arrive { phase, value, .. } => {
            let at = *phase as usize;
            if at < reductions.len() {
                reductions[at] = reduced(reductions[at], *value);
            }
        }
        _ => {}
    }
}

fn reduced(reduction: Option<Reduction>, value: u64) -> Option<Reduction>
    ensures { result ≡ option_map (λ r. record { op = r.op; total = combined r.op r.total value }) reduction }
{
    match reduction {
        Some(reduction) => Some(Reduction {
            op: reduction.op,
            total: combined(reduction.op, reduction.total, value),
        }),
        None => None,
    }
}
