//! Which lines of a flow stand in sections, and of which reservations.

ghost use Rattle.std.specs.Prelude.{◌≡◌, ℕ, ◌+◌, ◌<◌, ◌/◌, length, false, IfOk, IfErr, OnOk};
ghost use Rattle.flow_order.specs.Flow.{IsFlow};
ghost use Rattle.flow_order.specs.Bits.{word_bit};
ghost use Rattle.task_flow.specs.Construction.{is_contended, needed, place_of, lock_of, wants_many};
ghost use Rattle.task_flow.specs.Refusal.{IsFlowRefusal};

use crate::contended::{contended, summed_column};
use crate::make::FlowRefusal;
use crate::making::add_event;
use crate::quantities::most_locks;
use flow_order::bits::Bits;
use graph_model::graph::Graph;
use graph_terms::lists::LineList;
use index_spaces::NoMemory;
use std::alloc::Global;

/// The contended sums of a flow, and the columns that they add to, each of which wants a
/// reservation.
#[derive(Drop)]
pub(crate) struct Sections {
    pub(crate) commute: bool,
    pub(crate) contended: Bits,
    pub(crate) columns: LineList,
}

impl Sections {
    ghost use Rattle.task_flow.specs.Making.{AreSections};

    /// The sections of a flow. `Limit` with the first line that needs a reservation too many.
    pub(crate) fn new(alloc: Global, flow: &Graph, commute: bool) -> Result<Sections, FlowRefusal>
        requires { IsFlow flow.now }
        ensures sections { IfOk result (AreSections flow.now) }
        ensures commute { IfOk result (λ s. s.commute ≡ commute) }
        ensures refusal { IfErr result (IsFlowRefusal flow.now commute) }
    {
        let contended = contended(alloc, flow, commute)?;
        let columns = needed(alloc, flow, commute, &contended)?;
        Ok(Sections {
            commute,
            contended,
            columns,
        })
    }

    /// The reservation of a line, where it stands in a section.
    pub(crate) fn lock_of(&self, flow: &Graph, line: u32) -> Option<u32>
        requires sections { AreSections flow.now self.now }
        requires line { line < length flow.now.lines }
        ensures { result ≡ lock_of flow.now self.now.commute line }
    {
        if !self.contended.test(line) {
            return None;
        }
        let column = summed_column(flow, line);
        Some(flow.locks() + place_of(&self.columns, column))
    }
}

/// The columns of the contended sums.
fn needed(
    alloc: Global,
    flow: &Graph,
    commute: bool,
    contended: &Bits,
) -> Result<LineList, FlowRefusal>
    requires size { length contended.now ≡ (length flow.now.lines + 63) / 64 }
    requires bits { (k : ℕ) → word_bit contended.now k ≡ is_contended flow.now commute k }
    ensures columns { IfOk result (λ columns. columns ≡ needed flow.now commute (length flow.now.lines)) }
    ensures few { OnOk result (wants_many flow.now commute (length flow.now.lines) ≡ false) }
    ensures refusal { IfErr result (IsFlowRefusal flow.now commute) }
{
    let mut columns = LineList::new(alloc);
    let most = most_locks(flow.format());
    let locks = u64::from(flow.locks());
    for line in 0..flow.lines() {
        if !contended.test(line) {
            continue;
        }
        add_event(&mut columns, summed_column(flow, line))?;
        if locks + u64::from(columns.len()) > most {
            return Err(FlowRefusal::Limit { line });
        }
    }
    Ok(columns)
}

/// The place of a column among others, or how many there are.
fn place_of(columns: &LineList, column: u32) -> u32
    ensures { result ≡ place_of columns.now column }
{
    let mut place = 0;
    for other in columns.items.as_slice() {
        if *other == column {
            return place;
        }
        place += 1;
    }
    place
}
