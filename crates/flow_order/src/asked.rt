//! Which lines stand for those that an access ties.

ghost use Rattle.std.specs.Prelude.{◌≡◌, ℕ, ◌<◌, ◌/◌, ◌||◌, ◌&&◌, length, flat_map, Contains, Some, slice_get, IfOk};
ghost use Rattle.std.specs.List.{list_any};
ghost use Rattle.graph_terms.specs.Graph.{named_spaces, columns, space_at};
ghost use Rattle.flow_order.specs.Bits.{word_bit};
ghost use Rattle.flow_order.specs.SourceParts.{has};
ghost use Rattle.flow_order.specs.Ends.{AreEnds};
ghost use Rattle.flow_order.specs.Uses.{AreAsked, group_for, spaces_meet, stands_in};

use crate::bits::Bits;
use crate::ends::{are_apart, ends_of};
use crate::rows::Rows;
use crate::ties::order_counts;
use crate::uses::{Class, ColumnUses};
use graph_model::graph::Graph;
use graph_terms::lists::LineList;
use graph_terms::verb::{Access, Mode};
use index_spaces::NoMemory;
use index_spaces::laws::points_are_listed;
use std::alloc::Global;

/// Sets the bits of some lines.
pub(crate) fn set_all(row: &mut Bits, lines: &LineList)
    requires { (i : ℕ) → Contains lines.now i → i / 64 < length row.old }
    ensures size { length row.new ≡ length row.old }
    ensures bits { (i : ℕ) → word_bit row.new i ≡ (word_bit row.old i || has lines.now i) }
{
    for line in lines.items.as_slice() {
        row.set(*line);
    }
}

/// Whether the spaces of these numbers meet.
fn spaces_meet(flow: &Graph, one: u32, other: u32) -> bool
    requires one { one < length (named_spaces flow.now) }
    requires other { other < length (named_spaces flow.now) }
    ensures { result ≡ spaces_meet flow.now one other }
{
    points_are_listed();
    flow.space(one).meets(flow.space(other))
}

impl Class {
    /// Sets the bits of the lines that stand for those that a use in this mode has an order against.
    fn set_group(&self, commute: bool, mode: Mode, row: &mut Bits)
        requires { (i : ℕ) → Contains (group_for commute self.now mode) i → i / 64 < length row.old }
        ensures size { length row.new ≡ length row.old }
        ensures bits { (i : ℕ) → word_bit row.new i ≡ (word_bit row.old i || has (group_for commute self.now mode) i) }
    {
        if order_counts(commute, self.mode, mode) {
            set_all(row, &self.latest);
        } else {
            set_all(row, &self.before);
        }
    }
}

impl ColumnUses {
    /// Sets the bits of the lines that stand for those that an access ties.
    fn set_asked(&self, flow: &Graph, commute: bool, access: Access, row: &mut Bits)
        requires space { access.space < length (named_spaces flow.now) }
        requires spaces { (k : ℕ) (x : Class) → slice_get self.now.classes.items k ≡ Some x → x.space < length (named_spaces flow.now) }
        requires ends { (k : ℕ) (x : Class) → slice_get self.now.classes.items k ≡ Some x → AreEnds (space_at flow.now x.space) x.ends }
        requires groups { (k : ℕ) (x : Class) (i : ℕ) → slice_get self.now.classes.items k ≡ Some x → Contains (group_for commute x access.mode) i → i / 64 < length row.old }
        ensures size { length row.new ≡ length row.old }
        ensures bits { (i : ℕ) → word_bit row.new i ≡ (word_bit row.old i || list_any (λ x. stands_in flow.now commute access x i) self.now.classes.items) }
    {
        points_are_listed();
        let ends = ends_of(flow.space(access.space));
        for class in self.classes.as_slice() {
            if are_apart(class.ends, ends) {
                continue;
            }
            if !spaces_meet(flow, class.space, access.space) {
                continue;
            }
            class.set_group(commute, access.mode, row);
        }
    }
}

impl Rows {
    ghost use Rattle.flow_order.specs.Rows.{IsKept, words_for};

    /// Bits of lines that an access of the next line ties: each line that it ties has one, or a
    /// chain to a line that has.
    pub(crate) fn asked_by(
        &self,
        alloc: Global,
        flow: &Graph,
        commute: bool,
        access: Access,
    ) -> Result<Bits, NoMemory>
        requires kept { IsKept flow.now commute self.now }
        requires column { access.column < length (columns flow.now) }
        requires space { access.space < length (named_spaces flow.now) }
        ensures size { IfOk result (λ row. length row ≡ words_for (length self.now.rows.items)) }
        ensures asked { IfOk result (λ row. AreAsked flow.now commute (length self.now.rows.items) access row) }
    {
        let mut row = Bits::zeros(alloc, self.words())?;
        self.uses.columns[access.column as usize].set_asked(flow, commute, access, &mut row);
        Ok(row)
    }

    /// Bits of the lines of some lists.
    pub(crate) fn asked_among(&self, alloc: Global, parts: &[LineList]) -> Result<Bits, NoMemory>
        requires { (i : ℕ) → Contains (flat_map (λ p. p) parts.now) i → i / 64 < words_for (length self.now.rows.items) }
        ensures size { IfOk result (λ row. length row ≡ words_for (length self.now.rows.items)) }
        ensures bits { IfOk result (λ row. (i : ℕ) → word_bit row i ≡ list_any (λ p. has p i) parts.now) }
    {
        let mut row = Bits::zeros(alloc, self.words())?;
        for part in parts {
            set_all(&mut row, part);
        }
        Ok(row)
    }
}
