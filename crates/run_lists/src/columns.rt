//! Where the columns are, and how those of a line move.

ghost use Rattle.std.specs.Prelude.{◌≡◌, ◌<◌, ◌+◌, ◌^◌, ℕ, length, Contains};
ghost use Rattle.graph_terms.specs.declared.verb.Access.{Access as TheAccess};
ghost use Rattle.graph_terms.specs.Access.{accesses};
ghost use Rattle.graph_terms.specs.Graph.{columns as graph_columns};
ghost use Rattle.lent_columns.specs.Lendings.{lending_in, readers_of};
ghost use Rattle.lent_columns.specs.Moved.{AreOpen, AreTaken, MayGive, AreGiven};
ghost use Rattle.run_state.specs.Sharing.{changed_list};
ghost use Rattle.run_lists.specs.Columns.{takers_with};

use graph_meaning::line_laws::accesses_fit;
use graph_model::graph::Graph;
use graph_terms::limits::MOST_ACCESSES;
use graph_terms::verb::Mode;
use index_spaces::held::Held;
use lent_columns::lines;
use lent_columns::shared_homes::SharedHomes;

/// The columns, each at home, out or lent to readers, and for each the line that took it whole last.
#[derive(Drop)]
pub struct Columns {
    pub homes: SharedHomes,
    pub takers: Vec<u32>,
}

/// Takes the columns of a line: those that it may change whole, of the others a share.
pub fn take_columns(graph: &Graph, line: u32, columns: &mut Columns) -> Held
    requires known { line < length graph.now.lines }
    requires each { (length columns.old.homes.columns ≡ length (graph_columns graph.now))
        × (length columns.old.takers.items ≡ length (graph_columns graph.now)) }
    requires open { AreOpen graph.now line columns.old.homes }
    requires few { (c : ℕ) → readers_of (lending_in columns.old.homes.lendings c) + 1 < 2 ^ 32 }
    ensures taken { AreTaken graph.now line columns.old.homes columns.new.homes result }
    ensures takers { columns.new.takers.items ≡ takers_with columns.old.takers.items line (changed_list graph.now line) }
{
    note_taker(graph, line, &mut columns.takers);
    lines::take_columns(graph, line, &mut columns.homes)
}

/// Notes a line as the one that took the columns last that it may change.
fn note_taker(graph: &Graph, line: u32, takers: &mut Vec<u32>)
    requires known { line < length graph.now.lines }
    requires each { length takers.old.items ≡ length (graph_columns graph.now) }
    ensures { takers.new.items ≡ takers_with takers.old.items line (changed_list graph.now line) }
{
    accesses_fit();
    let _ = graph.lines();
    for k in 0..MOST_ACCESSES {
        if let Some(access) = graph.access(line, k) {
            if !matches!(access.mode, Mode::Read) {
                takers[access.column as usize] = line;
            }
        }
    }
}

/// Gives the columns of a line back.
pub fn give_columns(graph: &Graph, line: u32, held: Held, columns: &mut Columns)
    requires known { line < length graph.now.lines }
    requires each { length columns.old.homes.columns ≡ length (graph_columns graph.now) }
    requires may { (a : TheAccess) → Contains (accesses graph.now line) a → MayGive a columns.old.homes held }
    ensures given { AreGiven graph.now line held columns.old.homes columns.new.homes }
    ensures takers { columns.new.takers.items ≡ columns.old.takers.items }
{
    lines::give_columns(graph, line, held, &mut columns.homes);
}
