//! What a call accesses, and what its accesses ask for.

use super::Graph;
use graph_items::calls::{call_accesses, may_meet};
use graph_terms::limits::MAX_COMPARED_ACCESSES;
use graph_terms::verb::Access;
use index_spaces::laws::points_are_listed;

impl Graph {
    ghost use Rattle.std.specs.Prelude.{◌≡◌, ◌<◌, [], false, length, map, take, slice_get};
    ghost use Rattle.std.specs.Option.{option_map_or};
    ghost use Rattle.std.specs.List.{list_any};
    ghost use Rattle.graph_terms.specs.Graph.{verb_at, data_columns, space_at};
    ghost use Rattle.graph_terms.specs.Access.{all_accesses, call_accesses, behind_columns};
    ghost use Rattle.index_spaces.specs.Space.{has_point, points};
    ghost use Rattle.graph_terms.specs.Fits.{repeats, data_unknown, data_outside, accesses_clash};

    /// The access of number `k` of a line, of a column of either kind: those of data are numbered
    /// behind the others. `None` exactly where it has at most `k`.
    pub fn any_access(&self, i: u32, k: u32) -> Option<Access>
        requires { i < length self.now.lines }
        ensures { result ≡ slice_get (all_accesses self.now i) k }
    {
        match self.access(i, k) {
            Some(access) => Some(access),
            None => self.call_access(i, k),
        }
    }

    /// The access of number `k` of a line to a column of data.
    fn call_access(&self, i: u32, k: u32) -> Option<Access>
        requires { i < length self.now.lines }
        ensures { result ≡ slice_get (map (behind_columns self.now) (option_map_or call_accesses (verb_at self.now i) [])) k }
    {
        let line = self.line(i);
        if self.data_columns() == 0 {
            return None;
        }
        match call_accesses(&line.verb).get(k as usize) {
            Some(access) => Some(self.behind_columns(access)),
            None => None,
        }
    }

    /// An access of a column of data by the number of that among all columns.
    fn behind_columns(&self, access: &Access) -> Access
        requires { access.now.column < length (data_columns self.now) }
        ensures { result ≡ behind_columns self.now access.now }
    {
        let _ = self.data_columns();
        Access {
            column: self.columns() + access.column,
            space: access.space,
            mode: access.mode,
        }
    }

    /// Whether one of these accesses of a call is of a column of data or over a space that is not
    /// declared.
    #[inline(always)]
    pub(super) fn any_unknown(&self, accesses: &[Access]) -> bool
        ensures { result ≡ list_any (data_unknown self.now) accesses.now }
    {
        let mut rest = accesses;
        while let [first, others @ ..] = rest {
            if self.data_unknown(first) {
                return true;
            }
            rest = others;
        }
        false
    }

    fn data_unknown(&self, access: &Access) -> bool
        ensures { result ≡ data_unknown self.now access.now }
    {
        access.column >= self.data_columns() || access.space >= self.spaces()
    }

    /// Whether one of these accesses of a call is over a space that does not lie within its column.
    #[inline(always)]
    pub(super) fn any_outside(&self, accesses: &[Access]) -> bool
        requires { list_any (data_unknown self.now) accesses.now ≡ false }
        ensures { result ≡ list_any (data_outside self.now) accesses.now }
    {
        let mut rest = accesses;
        while let [first, others @ ..] = rest {
            if self.data_outside(first) {
                return true;
            }
            rest = others;
        }
        false
    }

    fn data_outside(&self, access: &Access) -> bool
        requires { data_unknown self.now access.now ≡ false }
        ensures { result ≡ data_outside self.now access.now }
    {
        points_are_listed();
        let column = self.data_space(access.column);
        !self.space(access.space).is_within(column)
    }

    /// Whether two of these accesses of a call are of one column and meet, and may not. Of a line with
    /// too many the first ones are compared.
    #[inline(always)]
    pub(super) fn any_clash(&self, accesses: &[Access]) -> bool
        requires { list_any (data_unknown self.now) accesses.now ≡ false }
        ensures { result ≡ repeats (accesses_clash self.now) (take MAX_COMPARED_ACCESSES accesses.now) }
    {
        let most = MAX_COMPARED_ACCESSES as usize;
        let mut rest = if most < accesses.len() {
            &accesses[..most]
        } else {
            accesses
        };
        while let [first, others @ ..] = rest {
            if self.clashes_with(first, others) {
                return true;
            }
            rest = others;
        }
        false
    }

    fn clashes_with(&self, one: &Access, others: &[Access]) -> bool
        requires one { data_unknown self.now one.now ≡ false }
        requires others { list_any (data_unknown self.now) others.now ≡ false }
        ensures { result ≡ list_any (accesses_clash self.now one.now) others.now }
    {
        let mut rest = others;
        while let [other, more @ ..] = rest {
            if self.accesses_clash(one, other) {
                return true;
            }
            rest = more;
        }
        false
    }

    fn accesses_clash(&self, one: &Access, other: &Access) -> bool
        requires one { data_unknown self.now one.now ≡ false }
        requires other { data_unknown self.now other.now ≡ false }
        ensures { result ≡ accesses_clash self.now one.now other.now }
    {
        one.column == other.column
            && !may_meet(one.mode, other.mode)
            && self.spaces_meet(one, other)
    }

    /// Whether the spaces of two accesses have a point in common.
    fn spaces_meet(&self, one: &Access, other: &Access) -> bool
        requires one { data_unknown self.now one.now ≡ false }
        requires other { data_unknown self.now other.now ≡ false }
        ensures { result ≡ list_any (has_point (space_at self.now one.now.space)) (points (space_at self.now other.now.space)) }
    {
        points_are_listed();
        self.space(one.space).meets(self.space(other.space))
    }
}
