//! The kernels, over columns that are held.
#![tactic(auto)]

ghost use Rattle.std.specs.Prelude.{◌≡◌, Some, option_map};
ghost use Rattle.graph_terms.specs.declared.outcome.Verdict.TheVariants.{Fine};
ghost use Rattle.graph_terms.specs.declared.verb.Access.{Access};
ghost use Rattle.graph_terms.specs.Access.{kernel_accesses};
ghost use Rattle.graph_terms.specs.Graph.{space_at};
ghost use Rattle.graph_meaning.specs.Effect.{Cells, kernel_changes, kernel_verdict, target};
ghost use Rattle.graph_meaning.specs.HeldCells.{HasCells, MakesChanges};
ghost use Rattle.kernel_table.specs.Kernels.{FitsHeld, FitsEach, FitsUpTo, Makes, RunsKernel};

mod axpy;
mod dot;
mod expect;
mod gather;
mod hist;
mod iota;
mod scan;
mod source;
mod stencil;
mod walk;

use crate::axpy::axpy_column;
use crate::dot::dot_column;
use crate::expect::run_expect;
use crate::gather::gather_column;
use crate::hist::hist_column;
use crate::iota::iota_column;
use crate::scan::scan_column;
use crate::stencil::stencil_column;
use graph_meaning::held_cells::{cells_by_point, changes_by_point, seen_cells};
use graph_model::graph::Graph;
use graph_terms::outcome::Verdict;
use graph_terms::verb::Kernel;
use index_spaces::column::Column;
use index_spaces::held::Held;

/// Runs a kernel on the columns that are held. It is a fault exactly where the kernel is `Expect`
/// and some cell is outside its bounds, and then nothing is written. It takes no memory.
pub fn run_kernel(graph: &Graph, kernel: &Kernel, held: &mut Held) -> Verdict
    requires { FitsHeld graph.now held.old kernel.now }
    ensures verdict { (cells : Cells) → HasCells held.old cells → result ≡ kernel_verdict (space_at graph.now) cells kernel.now }
    ensures changes { MakesChanges held.old held.new (λ cells. kernel_changes (space_at graph.now) cells kernel.now) }
{
    run_fitting(graph, kernel, held)
}

/// The same, of a kernel that fits access by access.
fn run_fitting(graph: &Graph, kernel: &Kernel, held: &mut Held) -> Verdict
    requires { FitsEach graph.now held.old kernel.now }
    ensures { RunsKernel graph.now held.old held.new result kernel.now }
{
    match kernel {
        Kernel::Iota { x, .. } => change_column(graph, kernel, held, *x),
        Kernel::Axpy { y, .. } => change_column(graph, kernel, held, *y),
        Kernel::Stencil { y, .. } => change_column(graph, kernel, held, *y),
        Kernel::Scan { y, .. } => change_column(graph, kernel, held, *y),
        Kernel::Hist { y, .. } => change_column(graph, kernel, held, *y),
        Kernel::Dot { z, .. } => change_column(graph, kernel, held, *z),
        Kernel::Expect { x, s, low, high } => run_expect(graph, held, *x, *s, *low, *high),
        Kernel::Gather { z, .. } => change_column(graph, kernel, held, *z),
    }
}

/// Runs a kernel that has a target: holds what it makes of the target's column in its place.
fn change_column(graph: &Graph, kernel: &Kernel, held: &mut Held, column: u32) -> Verdict
    requires fits { FitsEach graph.now held.old kernel.now }
    requires target { option_map (λ (a : Access). a.column) (target (kernel_accesses kernel.now)) ≡ Some column }
    ensures { RunsKernel graph.now held.old held.new result kernel.now }
{
    cells_by_point();
    seen_cells();
    changes_by_point();
    let before = held.take(column);
    let _ = before.space().intervals();
    let after = made(graph, kernel, held, before);
    let _ = after.space();
    held.add(column, after);
    Verdict::Fine
}

/// What a kernel makes of its target's column, while the other columns are held.
fn made(graph: &Graph, kernel: &Kernel, held: &Held, before: Column) -> Column
    requires { FitsUpTo graph.now held.now before (kernel_accesses kernel.now) }
    ensures { Makes graph.now held.now before result kernel.now }
{
    match *kernel {
        Kernel::Iota { s, value, .. } => iota_column(graph, before, s, value),
        Kernel::Axpy { x, s, factor, .. } => axpy_column(graph, held, before, x, s, factor),
        Kernel::Stencil { x, r, s, .. } => stencil_column(graph, held, before, x, r, s),
        Kernel::Scan { x, s, .. } => scan_column(graph, held, before, x, s),
        Kernel::Hist { x, s, t, .. } => hist_column(graph, held, before, x, s, t),
        Kernel::Dot { x, y, s, t, .. } => dot_column(graph, held, before, x, y, s, t),
        Kernel::Expect { .. } => before,
        Kernel::Gather { x, y, s, t, .. } => gather_column(graph, held, before, x, y, s, t),
    }
}
