//! What stands while the graph of a flow is made.

ghost use Rattle.std.specs.Prelude.{◌≡◌, ℕ, ◌+◌, ◌≤◌, ◌<◌, [], length, take, drop, map, not, ◌&&◌, nat_lt, false, true, option_to_list, IsTrue, IfOk, OnOk};
ghost use Rattle.graph_terms.specs.Limits.{limits};
ghost use Rattle.graph_terms.specs.Fits.{is_beyond};
ghost use Rattle.flow_order.specs.Flow.{IsFlow, uses_columns};
ghost use Rattle.flow_order.specs.Rows.{IsKept};
ghost use Rattle.task_flow.specs.Construction.{most_merged, merge_for, event_for, events_for, on_for, place_in, wait_for, with_new, with_flow_line, in_section, with_line_by, is_over};
ghost use Rattle.flow_order.specs.SourceParts.{with_event};
ghost use Rattle.task_flow.specs.Fitting.{AreToFit, with_lines};

use crate::copies::copy_of_verb;
use crate::locks::declared_with_locks;
use crate::merges::Merges;
use crate::numbers::{first_number, new_name};
use crate::quantities::{most_lines, most_on};
use crate::sections::Sections;
use flow_order::rows::Rows;
use flow_order::sources::{Parts, add_row, has, parts_of};
use graph_model::graph::Graph;
use graph_terms::limits::Limits;
use graph_terms::lists::{EventList, LineList};
use graph_terms::verb::{Line, Verb};
use index_spaces::NoMemory;
use index_spaces::room::push;
use std::alloc::Global;
use std::mem;

/// Why no more is made.
#[derive(Clone, Copy, Debug, PartialEq, Eq)]
pub(crate) enum Stop {
    /// There would be more lines than a graph may have.
    Limit,
    NoMemory,
}

impl From<NoMemory> for Stop {
    ghost use Rattle.task_flow.specs.declared.making.Stop.TheVariants.{NoMemory as Wants};

    ghost from_gives = { λ _ e. e ≡ Wants };

    fn from(_: NoMemory) -> Stop {
        Stop::NoMemory
    }
}

/// The graph so far, the lines that are to be put into it next, the place of each line of the flow,
/// the merges, and the first number of the names, where there is one.
#[derive(Drop)]
pub(crate) struct Making {
    pub(crate) graph: Graph,
    pub(crate) row: Vec<Line>,
    pub(crate) places: Vec<u32>,
    pub(crate) merges: Merges,
    pub(crate) named: bool,
    pub(crate) first: u64,
    ghost small: { first ≤ 100000000000000000 },
}

impl Making {
    ghost use Rattle.task_flow.specs.Making.{made_of, IsPast, IsMaking, IsNext, AreSections};

    /// The declarations of a flow and the reservations of its sections, and none of its lines.
    /// `Limit` where that is too much for any of its lines.
    pub(crate) fn new(alloc: Global, flow: &Graph, sections: &Sections) -> Result<Making, Stop>
        requires flow { IsFlow flow.now }
        requires sections { AreSections flow.now sections.now }
        ensures ok { IfOk result (IsMaking flow.now sections.now.commute 0) }
        ensures some { result ≡ Err Stop.Limit → 0 < length flow.now.lines }
        ensures limit { result ≡ Err Stop.Limit → is_over flow.now sections.now.commute 0 ≡ true }
    {
        let numbers = first_number(flow);
        let graph = declared_with_locks(alloc, flow, numbers, sections)?;
        Ok(Making {
            graph,
            row: Vec::new(alloc),
            places: Vec::new(alloc),
            merges: Merges::new(alloc),
            named: numbers.is_some(),
            first: numbers.unwrap_or(0),
        })
    }

    /// The number of the next line. `Limit` where there are as many as a graph may have.
    fn next_line(&self) -> Result<u32, Stop>
        ensures ok { IfOk result (λ n. n ≡ length (made_of self.now).lines) }
        ensures few { OnOk result (length (made_of self.now).lines < (limits self.now.graph.format).lines) }
        ensures small { IfOk result (λ n. n < 65536) }
        ensures limit { result ≡ Err Stop.Limit → (limits self.now.graph.format).lines ≤ length (made_of self.now).lines }
    {
        let count = u64::from(self.graph.lines()) + self.row.len() as u64;
        let most = u64::from(most_lines(self.graph.format()));
        if count < most {
            Ok(count as u32)
        } else {
            Err(Stop::Limit)
        }
    }

    /// The merge of these events: the one that stands, or a new one.
    fn merge_for(&mut self, alloc: Global, events: LineList) -> Result<u32, Stop>
        ensures ok { IfOk result (λ e. (made_of self.new, e) ≡ merge_for events (made_of self.old)) }
        ensures graph { self.new.graph ≡ self.old.graph }
        ensures named { self.new.named ≡ self.old.named }
        ensures limit { result ≡ Err Stop.Limit → IsPast (merge_for events (made_of self.old)).0 }
    {
        match self.merges.find(&events) {
            Some(line) => return Ok(line),
            None => {}
        }
        let line = self.next_line()?;
        let name = new_name(alloc, self.first, line)?;
        self.merges.add(alloc, &events, line)?;
        let verb = Verb::Merge { events };
        let on = EventList::new(alloc);
        push(&mut self.row, Line { name, verb, on })?;
        Ok(line)
    }

    /// One event for these: as many as a merge names are merged, and then the merges, until one is
    /// left.
    fn event_for(&mut self, alloc: Global, events: LineList) -> Result<Option<u32>, Stop>
        ensures ok { IfOk result (λ e. (made_of self.new, e) ≡ event_for (length events) events (made_of self.old)) }
        ensures graph { self.new.graph ≡ self.old.graph }
        ensures named { self.new.named ≡ self.old.named }
        ensures limit { result ≡ Err Stop.Limit → IsPast (event_for (length events) events (made_of self.old)).0 }
    {
        let mut left = events;
        while left.len() > 1 {
            let most = self.most_merged();
            let front = front_of(alloc, &left, most)?;
            let merge = self.merge_for(alloc, front)?;
            left = rest_of(alloc, &left, most, merge)?;
        }
        if left.len() == 1 {
            Ok(Some(left.at(0)))
        } else {
            Ok(None)
        }
    }

    /// The most events that a merge names.
    fn most_merged(&self) -> u32
        ensures { result ≡ most_merged (made_of self.now) }
    {
        Limits::of(self.graph.format()).events
    }

    /// These events and one for each large part.
    fn events_for(
        &mut self,
        alloc: Global,
        events: LineList,
        large: &[LineList],
    ) -> Result<LineList, Stop>
        ensures ok { IfOk result (λ es. (made_of self.new, es) ≡ events_for events large.now (made_of self.old)) }
        ensures graph { self.new.graph ≡ self.old.graph }
        ensures named { self.new.named ≡ self.old.named }
        ensures limit { result ≡ Err Stop.Limit → IsPast (events_for events large.now (made_of self.old)).0 }
    {
        let mut all = events;
        for part in large {
            let places = self.places_of(alloc, part)?;
            if let Some(event) = self.event_for(alloc, places)? {
                add_event(&mut all, event)?;
            }
        }
        Ok(all)
    }

    /// The places of some lines of the flow.
    fn places_of(&self, alloc: Global, lines: &LineList) -> Result<LineList, NoMemory>
        ensures { IfOk result (λ places. places ≡ map (place_in (made_of self.now)) lines.now) }
    {
        let mut places = LineList::new(alloc);
        for line in lines.items.as_slice() {
            let place = self.places.get(*line as usize).copied().unwrap_or(0);
            places.push(place)?;
        }
        Ok(places)
    }

    /// These events where a line may name so many behind its `on`, and otherwise one for them.
    fn on_for(&mut self, alloc: Global, events: LineList) -> Result<EventList, Stop>
        ensures ok { IfOk result (λ on. (made_of self.new, on) ≡ on_for events (made_of self.old)) }
        ensures graph { self.new.graph ≡ self.old.graph }
        ensures named { self.new.named ≡ self.old.named }
        ensures limit { result ≡ Err Stop.Limit → IsPast (on_for events (made_of self.old)).0 }
    {
        if events.len() <= most_on(self.graph.format()) {
            return Ok(list_of(alloc, &events)?);
        }
        let event = self.event_for(alloc, events)?;
        Ok(event_list(alloc, event)?)
    }

    /// What a line of the flow with these sources waits for.
    fn wait_for(&mut self, alloc: Global, parts: &Parts) -> Result<EventList, Stop>
        ensures ok { IfOk result (λ on. (made_of self.new, on) ≡ wait_for parts.now (made_of self.old)) }
        ensures graph { self.new.graph ≡ self.old.graph }
        ensures named { self.new.named ≡ self.old.named }
        ensures limit { result ≡ Err Stop.Limit → IsPast (wait_for parts.now (made_of self.old)).0 }
    {
        let small = self.places_of(alloc, &parts.small)?;
        let events = self.events_for(alloc, small, parts.large.as_slice())?;
        self.on_for(alloc, events)
    }

    /// Makes a line that is none of the flow, and gives its number.
    fn push_new(&mut self, alloc: Global, verb: Verb, on: EventList) -> Result<u32, Stop>
        ensures ok { OnOk result (made_of self.new ≡ with_new verb on (made_of self.old)) }
        ensures line { IfOk result (λ n. n ≡ length (made_of self.old).lines) }
        ensures few { OnOk result (length (made_of self.new).lines ≤ (limits self.new.graph.format).lines) }
        ensures graph { self.new.graph ≡ self.old.graph }
        ensures named { self.new.named ≡ self.old.named }
        ensures limit { result ≡ Err Stop.Limit → IsPast (with_new verb on (made_of self.old)) }
    {
        let line = self.next_line()?;
        let name = new_name(alloc, self.first, line)?;
        push(&mut self.row, Line { name, verb, on })?;
        Ok(line)
    }

    /// Makes a line of the flow, and gives its number.
    fn push_flow_line(&mut self, line: &Line, on: EventList) -> Result<u32, Stop>
        requires { IsTrue (uses_columns line.now.verb) }
        ensures ok { OnOk result (made_of self.new ≡ with_flow_line line.now (made_of self.old, on)) }
        ensures line { IfOk result (λ n. n ≡ length (made_of self.old).lines) }
        ensures few { OnOk result (length (made_of self.new).lines ≤ (limits self.new.graph.format).lines) }
        ensures graph { self.new.graph ≡ self.old.graph }
        ensures named { self.new.named ≡ self.old.named }
        ensures limit { result ≡ Err Stop.Limit → IsPast (with_flow_line line.now (made_of self.old, on)) }
    {
        let place = self.next_line()?;
        let name = line.name;
        let verb = copy_of_verb(&line.verb);
        push(&mut self.row, Line { name, verb, on })?;
        push(&mut self.places, place)?;
        Ok(place)
    }

    /// Makes a line of the flow in a section of its own.
    fn push_section(
        &mut self,
        alloc: Global,
        lock: u32,
        line: &Line,
        on: EventList,
    ) -> Result<u32, Stop>
        requires { IsTrue (uses_columns line.now.verb) }
        ensures ok { OnOk result (made_of self.new ≡ in_section lock line.now (made_of self.old, on)) }
        ensures few { OnOk result (length (made_of self.new).lines ≤ (limits self.new.graph.format).lines) }
        ensures graph { self.new.graph ≡ self.old.graph }
        ensures named { self.new.named ≡ self.old.named }
        ensures limit { result ≡ Err Stop.Limit → IsPast (in_section lock line.now (made_of self.old, on)) }
    {
        let shared = false;
        let acquire = self.push_new(alloc, Verb::Acquire { lock, shared }, on)?;
        let sum = self.push_flow_line(line, event_list(alloc, Some(acquire))?)?;
        let mut events = LineList::new(alloc);
        events.push(sum)?;
        let none = EventList::new(alloc);
        let merge = self.push_new(alloc, Verb::MergeIgnore { events }, none)?;
        let on = event_list(alloc, Some(merge))?;
        self.push_new(alloc, Verb::Release { acquire }, on)
    }

    /// Makes a line of the flow with these sources, and the merges before it; in a section of a
    /// reservation, where there is one.
    fn make_line(
        &mut self,
        alloc: Global,
        line: &Line,
        parts: &Parts,
        lock: Option<u32>,
    ) -> Result<u32, Stop>
        requires { IsTrue (uses_columns line.now.verb) }
        ensures ok { OnOk result (made_of self.new ≡ with_line_by lock line.now (wait_for parts.now (made_of self.old))) }
        ensures few { OnOk result (length (made_of self.new).lines ≤ (limits self.new.graph.format).lines) }
        ensures graph { self.new.graph ≡ self.old.graph }
        ensures named { self.new.named ≡ self.old.named }
        ensures limit { result ≡ Err Stop.Limit → IsPast (with_line_by lock line.now (wait_for parts.now (made_of self.old))) }
    {
        let on = self.wait_for(alloc, parts)?;
        match lock {
            Some(lock) => self.push_section(alloc, lock, line, on),
            None => self.push_flow_line(line, on),
        }
    }

    /// Puts the lines that are made into the graph. `Limit` where it passes one.
    fn put_row(&mut self, alloc: Global) -> Result<(), Stop>
        requires { AreToFit self.old.graph.format self.old.graph.decls self.old.graph.lines self.old.row.items }
        ensures ok { OnOk result (self.new.graph ≡ with_lines self.old.graph self.old.row.items) }
        ensures row { OnOk result (self.new.row.items ≡ []) }
        ensures made { OnOk result (made_of self.new ≡ made_of self.old) }
        ensures named { OnOk result (self.new.named ≡ self.old.named) }
        ensures within { OnOk result ((self.old.row.items ≡ [] → ⊥) → is_beyond (with_lines self.old.graph self.old.row.items) ≡ false) }
        ensures limit { result ≡ Err Stop.Limit → is_beyond (with_lines self.old.graph self.old.row.items) ≡ true }
    {
        let row = mem::replace(&mut self.row, Vec::new(alloc));
        put_lines(&mut self.graph, row)
    }

    /// Whether lines are to be put into the graph beside the flow's and no name is left for them.
    fn wants_names(&self) -> bool
        ensures { result ≡ (not self.now.named && nat_lt 1 (length self.now.row.items)) }
    {
        !self.named && self.row.len() > 1
    }

    /// Makes the next line of the flow, and puts it and the lines that go with it into the graph.
    pub(crate) fn add_next(
        &mut self,
        alloc: Global,
        flow: &Graph,
        rows: &mut Rows,
        sections: &Sections,
    ) -> Result<(), Stop>
        requires flow { IsFlow flow.now }
        requires sections { AreSections flow.now sections.now }
        requires rows { IsKept flow.now sections.now.commute rows.old }
        requires next { length rows.old.rows.items < length flow.now.lines }
        requires making { IsMaking flow.now sections.now.commute (length rows.old.rows.items) self.old }
        ensures ok { OnOk result (IsNext flow.now sections.now.commute (length rows.old.rows.items) rows.new self.new) }
        ensures limit { result ≡ Err Stop.Limit → is_over flow.now sections.now.commute (length rows.old.rows.items) ≡ true }
    {
        let _ = flow.lines();
        let line = rows.rows.len() as u32;
        let parts = parts_of(alloc, flow, sections.commute, rows)?;
        let lock = sections.lock_of(flow, line);
        self.make_line(alloc, flow.line(line), &parts, lock)?;
        if self.wants_names() {
            return Err(Stop::Limit);
        }
        self.put_row(alloc)?;
        add_row(alloc, flow, sections.commute, rows, &parts)?;
        Ok(())
    }
}

/// The event, where there is one.
fn event_list(alloc: Global, event: Option<u32>) -> Result<EventList, NoMemory>
    ensures { IfOk result (λ on. on ≡ option_to_list event) }
{
    let mut on = EventList::new(alloc);
    if let Some(event) = event {
        on.push(event)?;
    }
    Ok(on)
}

/// These events.
fn list_of(alloc: Global, events: &LineList) -> Result<EventList, NoMemory>
    ensures { IfOk result (λ on. on ≡ events.now) }
{
    let mut on = EventList::new(alloc);
    for i in 0..events.len() {
        on.push(events.at(i))?;
    }
    Ok(on)
}

/// The first of some events, at most so many.
fn front_of(alloc: Global, events: &LineList, most: u32) -> Result<LineList, NoMemory>
    ensures { IfOk result (λ front. front ≡ take most events.now) }
{
    let mut front = LineList::new(alloc);
    for i in 0..events.len().min(most) {
        front.push(events.at(i))?;
    }
    Ok(front)
}

/// The events behind so many, and one more.
fn rest_of(alloc: Global, events: &LineList, most: u32, event: u32) -> Result<LineList, NoMemory>
    ensures { IfOk result (λ rest. rest ≡ with_event (drop most events.now) event) }
{
    let mut rest = LineList::new(alloc);
    for i in most..events.len() {
        rest.push(events.at(i))?;
    }
    add_event(&mut rest, event)?;
    Ok(rest)
}

/// Puts an event at the end of a list that doesn't have it.
pub(crate) fn add_event(events: &mut LineList, event: u32) -> Result<(), NoMemory>
    ensures { OnOk result (events.new ≡ with_event events.old event) }
{
    if has(events, event) {
        return Ok(());
    }
    // A list has fewer than 2^32 items.
    if events.len() == u32::MAX {
        return Err(NoMemory);
    }
    events.push(event)
}

/// Puts lines at the end of a graph. `Limit` where it passes one.
fn put_lines(graph: &mut Graph, row: Vec<Line>) -> Result<(), Stop>
    requires { AreToFit graph.old.format graph.old.decls graph.old.lines row.items }
    ensures ok { OnOk result (graph.new ≡ with_lines graph.old row.items) }
    ensures within { OnOk result ((row.items ≡ [] → ⊥) → is_beyond (with_lines graph.old row.items) ≡ false) }
    ensures limit { result ≡ Err Stop.Limit → is_beyond (with_lines graph.old row.items) ≡ true }
{
    for line in row {
        line.is_well_formed();
        if graph.offer_line(line)?.is_some() {
            return Err(Stop::Limit);
        }
    }
    Ok(())
}
