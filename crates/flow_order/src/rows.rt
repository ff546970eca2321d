//! What is kept of the lines so far: which lines reach which, and how the columns are used.

ghost use Rattle.std.specs.Prelude.{◌≡◌, ℕ, ◌<◌, ◌≤◌, ◌/◌, ◌==◌, ◌||◌, [], length, slice_index_or, IfOk};
ghost use Rattle.flow_order.specs.Bits.{word_bit};

use crate::bits::Bits;
use crate::row::Row;
use crate::uses::Uses;
use graph_model::graph::Graph;
use index_spaces::NoMemory;
use std::alloc::Global;

/// For each of the first lines of a flow a row with a bit for each line that reaches it, and the
/// classes of their uses.
#[derive(Drop)]
pub struct Rows {
    pub rows: Vec<Row>,
    pub(crate) uses: Uses,
}

impl Rows {
    ghost use Rattle.flow_order.specs.Rows.{IsKept, words_for};

    /// No row and no use.
    pub fn new(alloc: Global, flow: &Graph) -> Result<Rows, NoMemory>
        ensures kept { (commute : _) → IfOk result (λ r. IsKept flow.now commute r) }
        ensures none { IfOk result (λ r. r.rows.items ≡ []) }
    {
        let uses = Uses::new(alloc, flow)?;
        Ok(Rows {
            rows: Vec::new(alloc),
            uses,
        })
    }

    /// How many words the row of the next line has.
    pub(crate) fn words(&self) -> usize
        ensures { result ≡ words_for (length self.now.rows.items) }
    {
        self.rows.len() / 64 + 1
    }

    /// A bit for each line that reaches this one.
    pub fn reaching(&self, alloc: Global, line: u32) -> Result<Bits, NoMemory>
        requires { line < length self.now.rows.items }
        ensures size { IfOk result (λ b. length b ≡ length (slice_index_or self.now.rows.items line [])) }
        ensures bits { IfOk result (λ b. (i : ℕ) → word_bit b i ≡ word_bit (slice_index_or self.now.rows.items line []) i) }
    {
        let row = &self.rows[line as usize];
        let mut bits = Bits::zeros(alloc, row.size())?;
        bits.join(row);
        Ok(bits)
    }

    /// Sets the bits of a line and of those that reach it.
    pub(crate) fn reach(&self, mask: &mut Bits, line: u32)
        requires line { line < length self.now.rows.items }
        requires line_bit { line / 64 < length mask.old }
        requires size { length (slice_index_or self.now.rows.items line []) ≤ length mask.old }
        ensures size { length mask.new ≡ length mask.old }
        ensures bits { (i : ℕ) → word_bit mask.new i ≡ (word_bit mask.old i || ((line == i) || word_bit (slice_index_or self.now.rows.items line []) i)) }
    {
        mask.set(line);
        mask.join(&self.rows[line as usize]);
    }
}
