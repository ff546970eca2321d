//! Which lines stand for the uses of the columns.

ghost use Rattle.std.specs.Prelude.{◌≡◌, ◌<◌, ◌+◌, true, [], IfOk, OnOk, IfSome, MatchOption, ℕ, Some, length, slice_get, slice_set, cond};
ghost use Rattle.graph_terms.specs.Graph.{columns};
ghost use Rattle.flow_order.specs.Bits.{word_bit};
ghost use Rattle.flow_order.specs.Meaning.{order_counts, Chain};
ghost use Rattle.flow_order.specs.Uses.{IsRest};

use crate::bits::Bits;
use crate::ends::{Ends, ends_of};
use crate::ties::order_counts;
use graph_meaning::line_laws::{accesses_are_few, accesses_fit};
use graph_model::graph::Graph;
use graph_terms::limits::MOST_ACCESSES;
use graph_terms::lists::LineList;
use graph_terms::verb::{Access, Mode};
use index_spaces::NoMemory;
use index_spaces::laws::points_are_listed;
use index_spaces::room::push;
use index_spaces::space::Space;
use std::alloc::Global;
use std::mem;

/// The uses of a column over one space with these ends: the lines of the latest, which have no order
/// among themselves and all have this mode, and those of the ones before, which have an order
/// against them. Of the latest some that reach others of them may be left out.
#[derive(Drop)]
pub(crate) struct Class {
    pub(crate) space: u32,
    pub(crate) ends: Ends,
    pub(crate) mode: Mode,
    pub(crate) latest: LineList,
    pub(crate) before: LineList,
}

/// The classes of a column.
#[derive(Drop)]
pub(crate) struct ColumnUses {
    pub(crate) classes: Vec<Class>,
}

/// The classes of each column.
#[derive(Drop)]
pub(crate) struct Uses {
    pub(crate) columns: Vec<ColumnUses>,
}

impl Class {
    ghost use Rattle.flow_order.specs.Ends.{AreEnds};
    ghost use Rattle.flow_order.specs.Uses.{HasUse, first_use};

    /// The class of a first use.
    fn of_first(alloc: Global, space: &Space, access: Access, line: u32) -> Result<Class, NoMemory>
        ensures ends { IfOk result (λ x. AreEnds space.now x.ends) }
        ensures class { IfOk result (λ x. x ≡ first_use access x.ends line) }
    {
        let mut latest = LineList::new(alloc);
        latest.push(line)?;
        Ok(Class {
            space: access.space,
            ends: ends_of(space),
            mode: access.mode,
            latest,
            before: LineList::new(alloc),
        })
    }

    /// Puts one more use into the class, by a line that is reached by those with these bits.
    fn add(
        &mut self,
        alloc: Global,
        commute: bool,
        mode: Mode,
        line: u32,
        reaching: &Bits,
    ) -> Result<(), NoMemory>
        ensures { OnOk result (HasUse commute self.old mode line reaching.now self.new) }
    {
        if order_counts(commute, self.mode, mode) {
            self.before = mem::replace(&mut self.latest, LineList::new(alloc));
            self.mode = mode;
            return self.latest.push(line);
        }
        leave_out(&mut self.latest, reaching);
        // A list has fewer than 2^32 items.
        if self.latest.len() == u32::MAX {
            return Err(NoMemory);
        }
        self.latest.push(line)
    }
}

/// Takes the lines with these bits out of a list, where its first line has one: so lists stay short
/// where the old lines reach the new, and a line costs no more where the first does not.
fn leave_out(lines: &mut LineList, reaching: &Bits)
    ensures { IsRest reaching.now lines.old lines.new }
{
    match lines.items.first() {
        Some(first) if reaching.has(*first) => lines.items.retain(|line| !reaching.has(*line)),
        _ => {}
    }
}

impl ColumnUses {
    ghost use Rattle.flow_order.specs.Uses.{PutsUse};

    /// The place of the class of a space, if there is one.
    fn place_of(&self, space: u32) -> Option<usize>
        ensures within { IfSome result (λ k. k < length self.now.classes.items) }
        ensures class { MatchOption result ((k : ℕ) (x : _) → slice_get self.now.classes.items k ≡ Some x → x.space ≡ space → ⊥) (λ k. (x : _) × (slice_get self.now.classes.items k ≡ Some x) × (x.space ≡ space)) }
    {
        self.classes.iter().position(|class| class.space == space)
    }

    /// Puts one more use into its class, or begins a class with it.
    fn add(
        &mut self,
        alloc: Global,
        space: &Space,
        commute: bool,
        access: Access,
        line: u32,
        reaching: &Bits,
    ) -> Result<(), NoMemory>
        ensures { OnOk result (PutsUse commute self.old.classes.items access space.now line reaching.now self.new.classes.items) }
    {
        match self.place_of(access.space) {
            Some(place) => { self.classes[place].add(alloc, commute, access.mode, line, reaching)? }
            None => {
                let class = Class::of_first(alloc, space, access, line)?;
                push(&mut self.classes, class)?;
            }
        }
        Ok(())
    }
}

impl Uses {
    ghost use Rattle.graph_terms.specs.Access.{accesses};
    ghost use Rattle.flow_order.specs.Uses.{AreUses, uses_before};

    /// No use of the columns of a flow.
    pub(crate) fn new(alloc: Global, flow: &Graph) -> Result<Uses, NoMemory>
        ensures { (commute : _) → IfOk result (λ u. AreUses flow.now commute [] u.columns.items) }
    {
        let mut columns = Vec::new(alloc);
        for _column in 0..flow.columns() {
            let classes = Vec::new(alloc);
            push(&mut columns, ColumnUses { classes })?;
        }
        Ok(Uses { columns })
    }

    /// Puts the uses of the next line in, which is reached by those with these bits.
    pub(crate) fn add_line(
        &mut self,
        alloc: Global,
        flow: &Graph,
        commute: bool,
        line: u32,
        reaching: &Bits,
    ) -> Result<(), NoMemory>
        requires line { line < length flow.now.lines }
        requires reaching { (i : ℕ) → word_bit reaching.now i ≡ true → Chain flow.now commute i line }
        requires uses { AreUses flow.now commute (uses_before flow.now line) self.old.columns.items }
        ensures { OnOk result (AreUses flow.now commute (uses_before flow.now (line + 1)) self.new.columns.items) }
    {
        points_are_listed();
        accesses_fit();
        accesses_are_few();
        let _ = flow.lines();
        for k in 0..MOST_ACCESSES {
            let Some(access) = flow.access(line, k) else {
                break;
            };
            let space = flow.space(access.space);
            self.columns[access.column as usize].add(
                alloc, space, commute, access, line, reaching,
            )?;
        }
        Ok(())
    }
}
