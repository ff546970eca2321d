//! The columns of a line, taken and given back: those that it may change whole, those that it only reads
//! by shares.

ghost use Rattle.std.specs.Prelude.{◌≡◌, ◌<◌, ◌+◌, ◌^◌, ℕ, true, None, length, Contains, MatchOption};
ghost use Rattle.index_spaces.specs.Held.{held_at};
ghost use Rattle.graph_terms.specs.declared.verb.Access.{Access as TheAccess};
ghost use Rattle.graph_terms.specs.Graph.{columns};
ghost use Rattle.graph_terms.specs.Access.{accesses, is_read};
ghost use Rattle.lent_columns.specs.Lendings.{lending_in, readers_of, is_open};
ghost use Rattle.lent_columns.specs.Moved.{AreOpen, IsFirstShut, AreTaken, TakesColumn, MayGive, AreGiven, GivesColumn};

use crate::shared_homes::SharedHomes;
use graph_meaning::line_laws::{accesses_fit, columns_differ};
use graph_model::graph::Graph;
use graph_terms::limits::MOST_ACCESSES;
use graph_terms::verb::{Access, Mode};
use index_spaces::held::Held;

/// The first column of a line that is not open to it.
pub fn busy_column(graph: &Graph, line: u32, homes: &SharedHomes) -> Option<u32>
    requires known { line < length graph.now.lines }
    requires each { length homes.now.columns ≡ length (columns graph.now) }
    ensures { MatchOption result (AreOpen graph.now line homes.now) (IsFirstShut graph.now line homes.now) }
{
    accesses_fit();
    let _ = graph.lines();
    for k in 0..MOST_ACCESSES {
        if let Some(access) = graph.access(line, k) {
            if !homes.is_open(access.column, is_read(access.mode)) {
                return Some(access.column);
            }
        }
    }
    None
}

/// Takes the columns of a line, which are open to it.
pub fn take_columns(graph: &Graph, line: u32, homes: &mut SharedHomes) -> Held
    requires known { line < length graph.now.lines }
    requires each { length homes.old.columns ≡ length (columns graph.now) }
    requires open { AreOpen graph.now line homes.old }
    requires few { (c : ℕ) → readers_of (lending_in homes.old.lendings c) + 1 < 2 ^ 32 }
    ensures { AreTaken graph.now line homes.old homes.new result }
{
    accesses_fit();
    columns_differ();
    let _ = graph.lines();
    let mut held = Held::none();
    for k in 0..MOST_ACCESSES {
        if let Some(access) = graph.access(line, k) {
            take_column(access, homes, &mut held);
        }
    }
    held
}

/// Takes a column: whole, or a share where it is only read.
fn take_column(access: Access, homes: &mut SharedHomes, held: &mut Held)
    requires known { access.column < length homes.old.columns }
    requires open { is_open homes.old access.column (is_read access.mode) ≡ true }
    requires few { readers_of (lending_in homes.old.lendings access.column) + 1 < 2 ^ 32 }
    requires new { held_at held.old access.column ≡ None }
    requires room { length held.old < 4 }
    ensures { TakesColumn access homes.old homes.new held.old held.new }
{
    let c = access.column;
    if is_read(access.mode) {
        let share = homes.share(c);
        held.add_share(c, share);
    } else {
        let column = homes.take(c);
        held.add(c, column);
    }
}

/// Gives the columns of a line back.
pub fn give_columns(graph: &Graph, line: u32, mut held: Held, homes: &mut SharedHomes)
    requires known { line < length graph.now.lines }
    requires each { length homes.old.columns ≡ length (columns graph.now) }
    requires may { (a : TheAccess) → Contains (accesses graph.now line) a → MayGive a homes.old held }
    ensures { AreGiven graph.now line held homes.old homes.new }
{
    accesses_fit();
    columns_differ();
    let _ = graph.lines();
    for k in 0..MOST_ACCESSES {
        if let Some(access) = graph.access(line, k) {
            give_column(access, &mut held, homes);
        }
    }
}

/// Gives a column back: whole, or a share where it is only read.
fn give_column(access: Access, held: &mut Held, homes: &mut SharedHomes)
    requires known { access.column < length homes.old.columns }
    requires may { MayGive access homes.old held.old }
    ensures { GivesColumn access held.old held.new homes.old homes.new }
{
    let c = access.column;
    if is_read(access.mode) {
        let share = held.take_share(c);
        homes.join(c, share);
    } else {
        let column = held.take(c);
        homes.give(c, column);
    }
}

/// Whether a column is only read.
fn is_read(mode: Mode) -> bool
    ensures { result ≡ is_read mode }
{
    matches!(mode, Mode::Read)
}
