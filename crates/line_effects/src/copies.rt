//! Fills, copies and reductions over spaces, in columns that are held.

ghost use Rattle.std.specs.Prelude.{◌≡◌, ◌≢◌, None};
ghost use Rattle.index_spaces.specs.Space.{IsWithin};
ghost use Rattle.index_spaces.specs.Column.{cell_of};
ghost use Rattle.index_spaces.specs.Held.{lending_at};
ghost use Rattle.index_spaces.specs.Run.{reduced_cell, WritesPoints};
ghost use Rattle.graph_terms.specs.declared.verb.Verb.TheVariants.{Fill, Copy, Reduce};
ghost use Rattle.graph_meaning.specs.HeldCells.{HoldsOver, MakesVerb};

use graph_meaning::held_cells::{cells_by_point, changes_by_point};
use index_spaces::Op;
use index_spaces::column::{Column, ColumnView};
use index_spaces::held::Held;
use index_spaces::laws::{earlier_points, runs_of_spaces, spaces_are_written};
use index_spaces::space::Space;

/// Writes a value at each point of a space.
pub fn fill(held: &mut Held, target: u32, space: &Space, value: u64)
    requires target { HoldsOver held.old target space.now }
    requires own { lending_at held.old target ≡ None }
    ensures { MakesVerb held.old held.new space.now (λ s. Fill target s value) }
{
    changes_by_point();
    let _ = space.intervals();
    let mut to = held.take(target);
    let _ = to.space().intervals();
    fill_points(&mut to, space, value);
    let _ = to.space();
    held.add(target, to);
}

/// Writes the cells of one column into another at each point of a space.
pub fn copy(held: &mut Held, source: u32, target: u32, space: &Space)
    requires source { HoldsOver held.old source space.now }
    requires target { HoldsOver held.old target space.now }
    requires own { lending_at held.old target ≡ None }
    requires distinct { source ≢ target }
    ensures { MakesVerb held.old held.new space.now (λ s. Copy source target s) }
{
    cells_by_point();
    changes_by_point();
    let _ = space.intervals();
    let mut to = held.take(target);
    let _ = to.space().intervals();
    let from = held.view(source).unwrap();
    let _ = from.space().intervals();
    copy_points(&mut to, &from, space);
    let _ = to.space();
    held.add(target, to);
}

/// Reduces the cells of one column into another at each point of a space. Sums are modulo 2^64.
pub fn reduce(held: &mut Held, op: Op, source: u32, target: u32, space: &Space)
    requires source { HoldsOver held.old source space.now }
    requires target { HoldsOver held.old target space.now }
    requires own { lending_at held.old target ≡ None }
    requires distinct { source ≢ target }
    ensures { MakesVerb held.old held.new space.now (λ s. Reduce op source target s) }
{
    cells_by_point();
    changes_by_point();
    let _ = space.intervals();
    let mut to = held.take(target);
    let _ = to.space().intervals();
    let from = held.view(source).unwrap();
    let _ = from.space().intervals();
    reduce_points(op, &mut to, &from, space);
    let _ = to.space();
    held.add(target, to);
}

fn fill_points(to: &mut Column, space: &Space, value: u64)
    requires { IsWithin space.now to.old.space }
    ensures { WritesPoints to.old to.new space.now (λ p. value) }
{
    runs_of_spaces();
    spaces_are_written();
    for interval in space.intervals() {
        to.fill_run(*interval, value);
    }
}

fn copy_points(to: &mut Column, from: &ColumnView<'_>, space: &Space)
    requires here { IsWithin space.now to.old.space }
    requires there { IsWithin space.now from.now.space }
    ensures { WritesPoints to.old to.new space.now (cell_of from.now) }
{
    runs_of_spaces();
    spaces_are_written();
    for interval in space.intervals() {
        to.copy_run(from, *interval);
    }
}

fn reduce_points(op: Op, to: &mut Column, from: &ColumnView<'_>, space: &Space)
    requires here { IsWithin space.now to.old.space }
    requires there { IsWithin space.now from.now.space }
    ensures { WritesPoints to.old to.new space.now (λ p. reduced_cell op (cell_of to.old p) (cell_of from.now p)) }
{
    earlier_points();
    runs_of_spaces();
    spaces_are_written();
    for interval in space.intervals() {
        to.reduce_run(op, from, *interval);
    }
}
