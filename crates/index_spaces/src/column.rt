//! A column: one cell for each point of a space.

ghost use Rattle.std.specs.Prelude.{◌≡◌, ◌<◌, ℕ, length, slice_index};
ghost use Rattle.index_spaces.specs.Run.{reduced_cell};

use crate::space::Space;
use crate::{NoMemory, Op};
use std::alloc::{AllocError, Global};
use std::marker::Model;

/// A space and a cell for each of its points, by rank. It takes one place in memory, since columns
/// are moved at each operation.
#[derive(Drop)]
pub struct Column {
    parts: Box<ColumnParts>,
}

/// What a column is made of.
#[derive(Drop)]
pub struct ColumnParts {
    /// The space that it is over.
    pub space: Space,
    /// The cells of the points of the space, by rank.
    pub cells: Vec<u64>,
}

/// What a reader sees of a column. It is one pointer, to what the column is made of.
#[derive(Drop)]
pub struct ColumnView<'a> {
    pub(crate) parts: &'a ColumnParts,
}

impl Model for Column {
    ghost use Rattle.std.specs.Prelude.{◌≡◌, ℕ, List, length};
    ghost use Rattle.index_spaces.specs.Space.{space_size};
    ghost use Rattle.index_spaces.specs.Column.{ColumnValue};

    ghost Value = { ColumnValue };

    ghost view = { λ a. record { space = a.parts.value.space; cells = a.parts.value.cells.items } };

    ghost invariant = { λ a. length a.parts.value.cells.items ≡ space_size a.parts.value.space };
}

impl<'a> Model for ColumnView<'a> {
    ghost use Rattle.std.specs.Prelude.{◌≡◌, length};
    ghost use Rattle.index_spaces.specs.Space.{space_size};
    ghost use Rattle.index_spaces.specs.Column.{ColumnValue};

    ghost Value = { ColumnValue };

    ghost view = { λ a. record { space = a.parts.now.space; cells = a.parts.now.cells.items } };

    ghost invariant = { λ a. length a.parts.now.cells.items ≡ space_size a.parts.now.space };
}

impl<'a> ColumnView<'a> {
    ghost use Rattle.std.specs.Prelude.{◌≡◌, ◌<◌, length, map, slice_index, is_some, IfSome};
    ghost use Rattle.index_spaces.specs.Space.{has_point, interval_points, space_size, rank};
    ghost use Rattle.index_spaces.specs.Column.{cell_of};
    ghost use Rattle.index_spaces.specs.Run.{IsRun};

    /// The space that it is over.
    pub fn space(&self) -> &Space
        ensures space { result.now ≡ self.now.space }
        ensures full { length self.now.cells ≡ space_size self.now.space }
    {
        &self.parts.space
    }

    /// The cell of a point, or None where the point is not in the space.
    pub fn get(&self, p: u32) -> Option<u64>
        ensures in_space { is_some result ≡ has_point self.now.space p }
        ensures cell { IfSome result (λ v. v ≡ slice_index self.now.cells (rank self.now.space p)) }
    {
        let r = self.parts.space.rank(p)?;
        Some(self.parts.cells[r as usize])
    }

    /// The cell of the point of this rank.
    pub fn at(&self, r: u32) -> u64
        requires { r < space_size self.now.space }
        ensures { result ≡ slice_index self.now.cells r }
    {
        self.parts.cells[r as usize]
    }

    /// The cells of the points of an interval, in order.
    pub fn run(&self, interval: (u32, u32)) -> &[u64]
        requires { IsRun self.now.space interval }
        ensures { result.now ≡ map (cell_of self.now) (interval_points interval) }
    {
        let start = self.parts.space.start_of(interval) as usize;
        let size = (interval.1 - interval.0) as usize + 1;
        &self.parts.cells[start..start + size]
    }
}

impl Column {
    ghost use Rattle.std.specs.Prelude.{◌≡◌, ◌+◌, ◌%◌, ◌^◌, ◌<◌, length, map, replicate, slice_index, slice_set, is_some, IfSome, IfOk, IsTrue};
    ghost use Rattle.index_spaces.specs.Space.{has_point, interval_points, space_size, rank};
    ghost use Rattle.index_spaces.specs.Column.{cell_of};
    ghost use Rattle.index_spaces.specs.Run.{IsRun, WritesRun, reduced_cell};

    /// A column over a copy of this space, each cell 0.
    pub fn zeroed(alloc: Global, space: &Space) -> Result<Column, NoMemory>
        ensures space { IfOk result (λ c. c.space ≡ space.now) }
        ensures zero { IfOk result (λ c. c.cells ≡ replicate (space_size space.now) 0) }
    {
        Column::over(alloc, space).map_err(|_| NoMemory)
    }

    /// A column over a copy of this space, each cell 0.
    fn over(alloc: Global, space: &Space) -> Result<Column, AllocError>
        ensures space { IfOk result (λ c. c.space ≡ space.now) }
        ensures zero { IfOk result (λ c. c.cells ≡ replicate (space_size space.now) 0) }
    {
        let count = space.size() as usize;
        let space = Space::copy_of(alloc, space.intervals())?;
        let cells = vec![in alloc; 0; count]?;
        let parts = Box::new(alloc, ColumnParts { space, cells })?;
        Ok(Column { parts })
    }

    /// The space that it is over.
    pub fn space(&self) -> &Space
        ensures space { result.now ≡ self.now.space }
        ensures full { length self.now.cells ≡ space_size self.now.space }
    {
        &self.parts.space
    }

    /// What a reader sees of it.
    pub fn view(&self) -> ColumnView<'_>
        ensures { result ≡ self.now }
    {
        ColumnView { parts: &self.parts }
    }

    /// The cell of a point, or None where the point is not in the space.
    pub fn get(&self, p: u32) -> Option<u64>
        ensures in_space { is_some result ≡ has_point self.now.space p }
        ensures cell { IfSome result (λ v. v ≡ slice_index self.now.cells (rank self.now.space p)) }
    {
        self.view().get(p)
    }

    /// The cell of the point of this rank.
    pub fn at(&self, r: u32) -> u64
        requires { r < space_size self.now.space }
        ensures { result ≡ slice_index self.now.cells r }
    {
        self.view().at(r)
    }

    /// Writes the cell of a point of the space.
    pub fn set(&mut self, p: u32, v: u64)
        requires { IsTrue (has_point self.old.space p) }
        ensures space { self.new.space ≡ self.old.space }
        ensures cells { self.new.cells ≡ slice_set self.old.cells (rank self.old.space p) v }
    {
        let r = self.parts.space.rank(p).unwrap() as usize;
        self.parts.cells[r] = v;
    }

    /// Adds to the cell of a point of the space, modulo 2^64.
    pub fn add(&mut self, p: u32, v: u64)
        requires { IsTrue (has_point self.old.space p) }
        ensures space { self.new.space ≡ self.old.space }
        ensures cells { self.new.cells
            ≡ slice_set self.old.cells (rank self.old.space p)
            ((slice_index self.old.cells (rank self.old.space p) + v) % 2 ^ 64) }
    {
        let r = self.parts.space.rank(p).unwrap() as usize;
        self.parts.cells[r] = self.parts.cells[r].wrapping_add(v);
    }

    /// The column of a space and of as many cells as it has points, by rank. It takes no memory.
    pub fn from_parts(parts: Box<ColumnParts>) -> Column
        requires { length parts.value.cells.items ≡ space_size parts.value.space }
        ensures space { result.space ≡ parts.value.space }
        ensures cells { result.cells ≡ parts.value.cells.items }
    {
        Column { parts }
    }

    /// Its space, and its cells by rank, where they stand.
    pub fn into_parts(self) -> Box<ColumnParts>
        ensures space { result.value.space ≡ self.space }
        ensures cells { result.value.cells.items ≡ self.cells }
        ensures full { length self.cells ≡ space_size self.space }
    {
        let Column { parts } = self;
        parts
    }

    /// Writes a value at each point of an interval.
    pub fn fill_run(&mut self, interval: (u32, u32), value: u64)
        requires { IsRun self.old.space interval }
        ensures { WritesRun self.old self.new interval (λ p. value) }
    {
        let start = self.parts.space.start_of(interval) as usize;
        let size = (interval.1 - interval.0) as usize + 1;
        self.parts.cells[start..start + size].fill(value);
    }

    /// Writes the cells of another column at each point of an interval.
    pub fn copy_run(&mut self, from: &ColumnView<'_>, interval: (u32, u32))
        requires here { IsRun self.old.space interval }
        requires there { IsRun from.now.space interval }
        ensures { WritesRun self.old self.new interval (cell_of from.now) }
    {
        let start = self.parts.space.start_of(interval) as usize;
        let size = (interval.1 - interval.0) as usize + 1;
        self.parts.cells[start..start + size].copy_from_slice(from.run(interval));
    }

    /// Reduces the cells of another column into its own at each point of an interval. Sums are
    /// modulo 2^64.
    pub fn reduce_run(&mut self, op: Op, from: &ColumnView<'_>, interval: (u32, u32))
        requires here { IsRun self.old.space interval }
        requires there { IsRun from.now.space interval }
        ensures { WritesRun self.old self.new interval (λ p. reduced_cell op (cell_of self.old p) (cell_of from.now p)) }
    {
        let start = self.parts.space.start_of(interval) as usize;
        let size = (interval.1 - interval.0) as usize + 1;
        reduce_cells(
            op,
            &mut self.parts.cells[start..start + size],
            from.run(interval),
        );
    }
}

/// Reduces each cell into the one at its place.
fn reduce_cells(op: Op, to: &mut [u64], from: &[u64])
    requires { length to.old ≡ length from.now }
    ensures { (k : ℕ) → k < length to.old → slice_index to.new k
        ≡ reduced_cell op (slice_index to.old k) (slice_index from.now k) }
{
    for k in 0..to.len() {
        to[k] = reduced(op, to[k], from[k]);
    }
}

/// Two values made one.
#[inline]
fn reduced(op: Op, cell: u64, value: u64) -> u64
    ensures { result ≡ reduced_cell op cell value }
{
    match op {
        Op::Sum => cell.wrapping_add(value),
        Op::Min => cell.min(value),
        Op::Max => cell.max(value),
    }
}
