//! The reasons that refuse an item after a graph.

use super::Graph;
use graph_indexes::counts::Counts;
use graph_indexes::repeats::numbers_repeat;
use graph_items::calls::{accesses_many, call_accesses};
use graph_items::decls::{decl_lacks, decl_misnumbered, decl_repeats, is_large};
use graph_items::lines::{
    any_past, columns_repeat, format_lacks, names_many, names_past, on_unlike, verb_misnumbered,
};
use graph_terms::access::{Accesses, verb_accesses};
use graph_terms::decl::Decl;
use graph_terms::name::Name;
use graph_terms::verb::{Access, Line, Verb};
use graph_terms::why::Why;
use index_spaces::laws::points_are_listed;

impl Graph {
    ghost use Rattle.std.specs.Prelude.{◌≡◌, ◌<◌, true, false, IsTrue, length};
    ghost use Rattle.std.specs.Option.{option_map_or};
    ghost use Rattle.std.specs.List.{list_any};
    ghost use Rattle.graph_terms.specs.Graph.{line_passes, is_user, is_phase, is_acquire, columns, space_at, column_space};
    ghost use Rattle.graph_terms.specs.Access.{verb_accesses, present};
    ghost use Rattle.graph_indexes.specs.Counts.{counts_of};
    ghost use Rattle.graph_terms.specs.Fits.{decl_fault, line_fault, with_decl, with_line, is_used, decl_unknown, verb_repeats, verb_unknown, access_unknown, line_unknown, verb_unlike, access_outside, phase_count, arrives_late};

    /// The first reason that refuses a declaration after this graph. `None` exactly where it fits.
    pub fn decl_fault(&self, decl: &Decl) -> Option<Why>
        ensures { result ≡ decl_fault self.now decl.now }
    {
        let counts = self.counts_with_decl(decl);
        self.decl_fault_by(decl, &counts)
    }

    /// The same, by the quantities with the declaration at the end.
    pub(super) fn decl_fault_by(&self, decl: &Decl, counts: &Counts) -> Option<Why>
        requires { counts.now ≡ counts_of (with_decl self.now decl.now) }
        ensures { result ≡ decl_fault self.now decl.now }
    {
        if self.is_used(decl.name()) || decl_repeats(decl) {
            return Some(Why::Twice);
        }
        if self.decl_unknown(decl) {
            return Some(Why::Unknown);
        }
        if decl_lacks(self.format, decl) {
            return Some(Why::Kind);
        }
        if decl_misnumbered(self.format, decl) {
            return Some(Why::Number);
        }
        if is_large(self.format, decl) || counts.is_above(self.format) {
            return Some(Why::Limit);
        }
        None
    }

    /// The first reason that refuses a line after this graph. `None` exactly where it fits.
    pub fn line_fault(&self, line: &Line) -> Option<Why>
        ensures { result ≡ line_fault self.now line.now }
    {
        let accesses = verb_accesses(&line.verb);
        let counts = self.counts_with_line(line);
        self.line_fault_by(line, &accesses, &counts)
    }

    /// The same, by the accesses of the line and the quantities with it at the end.
    pub(super) fn line_fault_by(
        &self,
        line: &Line,
        accesses: &Accesses,
        counts: &Counts,
    ) -> Option<Why>
        requires accesses { present accesses.now ≡ verb_accesses line.now.verb }
        requires counts { counts.now ≡ counts_of (with_line self.now line.now) }
        ensures { result ≡ line_fault self.now line.now }
    {
        if self.is_used(&line.name)
            || self.verb_repeats(&line.verb)
            || columns_repeat(accesses)
            || numbers_repeat(line.on.as_slice())
        {
            return Some(Why::Twice);
        }
        if self.line_unknown(line, accesses) {
            return Some(Why::Unknown);
        }
        if self.verb_unlike(&line.verb)
            || on_unlike(self.format, line)
            || format_lacks(self.format, &line.verb)
        {
            return Some(Why::Kind);
        }
        if verb_misnumbered(self.format, &line.verb) {
            return Some(Why::Number);
        }
        let calls = call_accesses(&line.verb);
        if self.reaches_outside(accesses) || self.any_outside(calls) {
            return Some(Why::Outside);
        }
        if self.any_clash(calls) {
            return Some(Why::Meets);
        }
        if self.arrives_late(&line.verb) {
            return Some(Why::Arrivals);
        }
        if names_many(self.format, line)
            || accesses_many(&line.verb)
            || counts.is_above(self.format)
        {
            return Some(Why::Limit);
        }
        None
    }

    fn is_used(&self, name: &Name) -> bool
        ensures { result ≡ is_used self.now name.now }
    {
        self.find(name).is_some()
    }

    fn decl_unknown(&self, decl: &Decl) -> bool
        ensures { result ≡ decl_unknown self.now decl.now }
    {
        match decl {
            Decl::Inst { space, .. } => *space >= self.spaces(),
            Decl::Data { space, .. } => *space >= self.spaces(),
            _ => false,
        }
    }

    /// Whether a merge names a line twice, or a line names one that is ended or released already.
    fn verb_repeats(&self, verb: &Verb) -> bool
        ensures { result ≡ verb_repeats self.now verb.now }
    {
        match verb {
            Verb::Merge { events } => numbers_repeat(events.items.as_slice()),
            Verb::MergeIgnore { events } => numbers_repeat(events.items.as_slice()),
            Verb::Trigger { user } => self.mark(*user).ended,
            Verb::Cancel { user } => self.mark(*user).ended,
            Verb::Release { acquire } => self.mark(*acquire).released,
            _ => false,
        }
    }

    fn line_unknown(&self, line: &Line, accesses: &Accesses) -> bool
        requires { present accesses.now ≡ verb_accesses line.now.verb }
        ensures { result ≡ line_unknown self.now line.now }
    {
        let lines = self.lines();
        names_past(&line.verb, lines)
            || any_past(line.on.as_slice(), lines)
            || self.verb_unknown(&line.verb)
            || self.reaches_unknown(accesses)
            || self.any_unknown(call_accesses(&line.verb))
    }

    fn verb_unknown(&self, verb: &Verb) -> bool
        ensures { result ≡ verb_unknown self.now verb.now }
    {
        match verb {
            Verb::Phase { barrier } => *barrier >= self.barriers(),
            Verb::Acquire { lock, .. } => *lock >= self.locks(),
            _ => false,
        }
    }

    /// Whether an access is of a column or over a space that is not declared.
    fn reaches_unknown(&self, accesses: &Accesses) -> bool
        ensures { result ≡ list_any (access_unknown self.now) (present accesses.now) }
    {
        self.is_unknown(accesses[0]) || self.is_unknown(accesses[1]) || self.is_unknown(accesses[2])
    }

    fn is_unknown(&self, access: Option<Access>) -> bool
        ensures { result ≡ option_map_or (access_unknown self.now) access false }
    {
        match access {
            Some(access) => access.column >= self.columns() || access.space >= self.spaces(),
            None => false,
        }
    }

    fn verb_unlike(&self, verb: &Verb) -> bool
        ensures { result ≡ verb_unlike self.now verb.now }
    {
        match verb {
            Verb::Trigger { user } => !self.is_user(*user),
            Verb::Cancel { user } => !self.is_user(*user),
            Verb::Arrive { phase, .. } => !self.is_phase(*phase),
            Verb::Release { acquire } => !self.is_acquire(*acquire),
            _ => false,
        }
    }

    fn is_user(&self, i: u32) -> bool
        ensures { result ≡ line_passes is_user self.now i }
    {
        i < self.lines() && matches!(&self.line(i).verb, Verb::User)
    }

    fn is_phase(&self, i: u32) -> bool
        ensures { result ≡ line_passes is_phase self.now i }
    {
        i < self.lines() && matches!(&self.line(i).verb, Verb::Phase { .. })
    }

    fn is_acquire(&self, i: u32) -> bool
        ensures { result ≡ line_passes is_acquire self.now i }
    {
        i < self.lines() && matches!(&self.line(i).verb, Verb::Acquire { .. })
    }

    /// Whether an access is over a space that does not lie within its column.
    fn reaches_outside(&self, accesses: &Accesses) -> bool
        requires { list_any (access_unknown self.now) (present accesses.now) ≡ false }
        ensures { result ≡ list_any (access_outside self.now) (present accesses.now) }
    {
        self.is_outside_where(accesses[0])
            || self.is_outside_where(accesses[1])
            || self.is_outside_where(accesses[2])
    }

    fn is_outside_where(&self, access: Option<Access>) -> bool
        requires { option_map_or (access_unknown self.now) access false ≡ false }
        ensures { result ≡ option_map_or (access_outside self.now) access false }
    {
        match access {
            Some(access) => self.is_outside(&access),
            None => false,
        }
    }

    fn is_outside(&self, access: &Access) -> bool
        requires { access_unknown self.now access.now ≡ false }
        ensures { result ≡ access_outside self.now access.now }
    {
        points_are_listed();
        if self.is_over(access.column, access.space) {
            return false;
        }
        let column = self.column_space(access.column);
        !self.space(access.space).is_within(column)
    }

    /// Whether a column is declared over this space. Then it need not be compared with itself.
    fn is_over(&self, c: u32, s: u32) -> bool
        requires { c < length (columns self.now) }
        ensures { result ≡ true → space_at self.now s ≡ column_space self.now c }
    {
        self.tables.column(c).space == s
    }

    /// How many arrivals complete a phase.
    fn phase_count(&self, p: u32) -> u32
        requires { IsTrue (line_passes is_phase self.now p) }
        ensures { result ≡ phase_count self.now p }
    {
        match &self.line(p).verb {
            Verb::Phase { barrier } => self.barrier(*barrier).count,
            _ => unreachable!(),
        }
    }

    /// Whether with it a phase has more arrivals than it takes.
    fn arrives_late(&self, verb: &Verb) -> bool
        requires { verb_unlike self.now verb.now ≡ false }
        ensures { result ≡ arrives_late self.now verb.now }
    {
        match verb {
            Verb::Arrive { phase, weight, .. } => {
                let arrived = self.mark(*phase).arrivals + u64::from(*weight);
                arrived > u64::from(self.phase_count(*phase))
            }
            _ => false,
        }
    }
}
