//! The graphs of a session that were run, and what is asked of them.

ghost use Rattle.std.specs.Prelude.{◌≡◌, ℕ, ◌+◌, ◌<◌, ◌≤◌, ◌++◌, ◌∷◌, [], ◌↔◌, length, map, IfOk, IfErr, OnOk};
ghost use Rattle.realm_session.specs.Recorded.{graph_at, handle_in, lines_in, need_with};
ghost use Rattle.realm_session.specs.declared.limits.TheConstants.{MAX_RECORDED};
ghost use Rattle.session_text.specs.declared.limits.TheConstants.{MAX_GRAPHS, MAX_SESSION_LINES};
ghost use Rattle.realm_session.specs.Sessions.{recorded_by, IsRecorderOf, IsSeatOf};
ghost use Rattle.event_table.specs.declared.limits.TheConstants.{MAX_SLOTS};
ghost use Rattle.session_run.specs.Linked.{link_answer, with_links};
ghost use Rattle.session_run.specs.Running.{graph_place, line_total, op_place, ran_by, slots_needed, slots_of, CanLink, Entered, IsOutcome, IsRunning, TellsAll};

use crate::linking::add_link;
use checked_graph::Checked;
use event_table::{Answer, Handle};
use graph_model::graph::Graph;
use graph_terms::lists::{EndList, ItemList};
use graph_terms::name::Name;
use graph_terms::outcome::Outcome;
use index_spaces::NoMemory;
use index_spaces::room::push;
use realm_session::{RecordRefusal, Recorder, Session};
use session_text::{Entry, Link, find_line};
use shared_events::Seat;
use std::alloc::Global;

/// A graph that was run with its links as lines, what that gave, and the handles of its lines.
#[derive(Drop)]
pub struct RanGraph {
    pub name: Name,
    pub checked: Checked,
    pub outcome: Outcome,
    pub handles: ItemList<Handle>,
}

/// The graphs that were run so far, and their events.
#[derive(Drop)]
pub(crate) struct Running {
    pub(crate) session: Session,
    pub(crate) recorder: Recorder,
    pub(crate) graphs: Vec<RanGraph>,
}

/// Why a graph that was run is not recorded.
#[derive(Clone, Copy, Debug, PartialEq, Eq)]
pub(crate) enum RecordFault {
    /// So many slots are needed, more than there are.
    Slots(u32),
    /// Memory ran out.
    NoMemory,
}

/// The handles of the lines of a graph that was recorded, in order.
fn handles_of(
    alloc: Global,
    recorder: &Recorder,
    graph: u32,
    lines: u32,
) -> Result<ItemList<Handle>, NoMemory>
    requires lines { lines ≡ length (graph_at (recorded_by recorder.now) graph) }
    ensures { IfOk result (λ hs. hs ≡ map handle_in (graph_at (recorded_by recorder.now) graph)) }
{
    let mut handles = ItemList::new(alloc);
    for line in 0..lines {
        handles.push(recorder.handle_of(graph, line))?;
    }
    Ok(handles)
}

/// Records how the lines of a graph ended: their handles.
fn enter_lines(
    session: &Session,
    alloc: Global,
    recorder: &mut Recorder,
    ends: &EndList,
) -> Result<ItemList<Handle>, RecordFault>
    requires recorder { IsRecorderOf session.now recorder.old }
    requires graphs { length (recorded_by recorder.old).graphs < 4294967295 }
    requires few { length (lines_in (recorded_by recorder.old).graphs) + length ends.now ≤ MAX_RECORDED }
    ensures recorder { IsRecorderOf session.now recorder.new }
    ensures entered { IfOk result (λ hs. Entered (recorded_by recorder.old) (recorded_by recorder.new) ends.now hs) }
    ensures short { (n : ℕ) → (result ≡ Err (RecordFault.Slots n)) ↔
        (((recorded_by recorder.old).slots < n) × (n ≡ need_with (recorded_by recorder.old).graphs ends.now)) }
{
    match session.enter(alloc, recorder, ends) {
        Ok(number) => match handles_of(alloc, recorder, number, ends.len()) {
            Ok(handles) => Ok(handles),
            Err(NoMemory) => Err(RecordFault::NoMemory),
        },
        Err(RecordRefusal::Slots(need)) => Err(RecordFault::Slots(need)),
        Err(RecordRefusal::NoMemory) => Err(RecordFault::NoMemory),
        Err(RecordRefusal::Full) => unreachable!(),
    }
}

/// Puts a graph behind those that were run.
fn keep(graphs: &mut Vec<RanGraph>, graph: RanGraph) -> Result<(), RecordFault>
    ensures ok { OnOk result (graphs.new.items ≡ graphs.old.items ++ graph ∷ []) }
    ensures err { IfErr result (λ e. e ≡ RecordFault.NoMemory) }
{
    match push(graphs, graph) {
        Ok(()) => Ok(()),
        Err(NoMemory) => Err(RecordFault::NoMemory),
    }
}

/// The place of the graph that a link names.
fn place_of(graphs: &[RanGraph], link: &Link) -> Option<usize>
    ensures { result ≡ graph_place graphs.now link.now }
{
    graphs.iter().position(|graph| graph.name == link.graph)
}

/// The number of the line of this graph that a link names.
fn op_of(graph: &RanGraph, link: &Link) -> Option<u32>
    ensures { result ≡ op_place graph.now.checked.graph link.now }
{
    find_line(graph.checked.graph(), &link.op)
}

/// The name of a graph, and the graph with its links as lines.
#[derive(Drop)]
pub(crate) struct Linked {
    pub(crate) name: Name,
    pub(crate) graph: Graph,
}

impl Running {
    /// No graph yet, and so many slots for events.
    pub(crate) fn new(alloc: Global, slots: u32) -> Result<Running, NoMemory>
        requires slots { (0 < slots) × (slots ≤ MAX_SLOTS) }
        ensures running { IfOk result (λ r. IsRunning r) }
        ensures none { IfOk result (λ r. (ran_by r ≡ []) × (slots_of r ≡ slots)) }
    {
        match Session::new(alloc, slots) {
            Ok((session, recorder)) => Ok(Running {
                session,
                recorder,
                graphs: Vec::new(alloc),
            }),
            Err(_) => Err(NoMemory),
        }
    }

    /// The next graph with its links as lines, each by what is answered for its operation.
    pub(crate) fn link(&mut self, alloc: Global, entry: Entry) -> Result<Linked, NoMemory>
        requires running { IsRunning self.old }
        requires fits { CanLink entry.graph entry.links }
        ensures running { IsRunning self.new }
        ensures same { (ran_by self.new ≡ ran_by self.old) × (slots_of self.new ≡ slots_of self.old) }
        ensures linked { IfOk result (λ x. (x.name ≡ entry.name) × (x.graph ≡ with_links (ran_by self.old) entry.graph entry.links)) }
        ensures lines { IfOk result (λ x. length x.graph.lines ≤ length entry.graph.lines + length entry.links) }
    {
        let Entry {
            name,
            mut graph,
            links,
        } = entry;
        let mut seat = self.session.asker(&mut self.recorder);
        let linked = self.add_links(alloc, &mut seat, &mut graph, &links);
        self.session.give_back(&mut self.recorder, seat);
        match linked {
            Ok(()) => Ok(Linked { name, graph }),
            Err(NoMemory) => Err(NoMemory),
        }
    }

    /// Records a graph that was run, behind those before it. `Slots` comes exactly where more slots are
    /// needed than there are, else `NoMemory` where memory ran out.
    pub(crate) fn record(
        self,
        alloc: Global,
        name: Name,
        checked: Checked,
        outcome: Outcome,
    ) -> Result<Running, RecordFault>
        requires running { IsRunning self }
        requires outcome { IsOutcome checked.graph outcome }
        requires graphs { length (ran_by self) < MAX_GRAPHS }
        requires few { line_total (ran_by self) + length checked.graph.lines ≤ MAX_SESSION_LINES }
        ensures running { IfOk result (λ r. IsRunning r) }
        ensures ran { IfOk result (λ r. ran_by r ≡ ran_by self ++ record { name = name; graph = checked.graph } ∷ []) }
        ensures slots { IfOk result (λ r. slots_of r ≡ slots_of self) }
        ensures short { (n : ℕ) → (result ≡ Err (RecordFault.Slots n)) ↔
            ((slots_of self < n) × (n ≡ slots_needed (ran_by self ++ record { name = name; graph = checked.graph } ∷ []))) }
    {
        let Running {
            session,
            mut recorder,
            mut graphs,
        } = self;
        let handles = match enter_lines(&session, alloc, &mut recorder, &outcome.ends) {
            Ok(handles) => handles,
            Err(fault) => return Err(fault),
        };
        let graph = RanGraph {
            name,
            checked,
            outcome,
            handles,
        };
        match keep(&mut graphs, graph) {
            Ok(()) => Ok(Running {
                session,
                recorder,
                graphs,
            }),
            Err(fault) => Err(fault),
        }
    }

    /// What became of the operation that a link names: that it is pending where there is none.
    fn answer(&self, seat: &mut Seat, link: &Link) -> Answer
        requires running { IsRunning self.now }
        requires at { IsSeatOf self.now.session seat.old }
        requires tells { TellsAll (recorded_by self.now.recorder) seat.old }
        ensures at { IsSeatOf self.now.session seat.new }
        ensures tells { TellsAll (recorded_by self.now.recorder) seat.new }
        ensures answer { result ≡ link_answer (ran_by self.now) link.now }
    {
        let Some(place) = place_of(self.graphs.as_slice(), link) else {
            return Answer::Pending;
        };
        let Some(line) = op_of(&self.graphs[place], link) else {
            return Answer::Pending;
        };
        let handle = self.recorder.handle_of(place as u32, line);
        self.session.ask(seat, handle)
    }

    /// Puts links at the end of a graph, each by what its operation came to.
    fn add_links(
        &self,
        alloc: Global,
        seat: &mut Seat,
        graph: &mut Graph,
        links: &ItemList<Link>,
    ) -> Result<(), NoMemory>
        requires running { IsRunning self.now }
        requires at { IsSeatOf self.now.session seat.old }
        requires tells { TellsAll (recorded_by self.now.recorder) seat.old }
        requires fits { CanLink graph.old links.now }
        ensures at { IsSeatOf self.now.session seat.new }
        ensures ok { OnOk result (graph.new ≡ with_links (ran_by self.now) graph.old links.now) }
        ensures lines { OnOk result (length graph.new.lines ≤ length graph.old.lines + length links.now) }
    {
        for place in 0..links.len() {
            let link = links.at(place);
            let answer = self.answer(seat, &link);
            add_link(alloc, graph, &link, answer)?;
        }
        Ok(())
    }
}
