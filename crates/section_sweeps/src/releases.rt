//! The release of each acquire.

ghost use Rattle.std.specs.Prelude.{◌≡◌, ◌<◌, length, None, IfOk};
ghost use Rattle.section_sweeps.specs.Releases.{AreReleases};

use graph_model::graph::Graph;
use index_spaces::NoMemory;
use index_spaces::room::filled;
use std::alloc::Global;
use sweep_base::reservations::released;

/// The release of each line that is an acquire and has one.
pub fn releases(alloc: Global, graph: &Graph) -> Result<Vec<Option<u32>>, NoMemory>
    ensures { IfOk result (λ v. AreReleases graph.now v.items) }
{
    let lines = graph.lines();
    let mut releases = filled(alloc, None, lines as usize)?;
    for line in 0..lines {
        if let Some(acquire) = released(graph, line) {
            releases[acquire as usize] = Some(line);
        }
    }
    Ok(releases)
}
