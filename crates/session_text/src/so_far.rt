//! What a reader keeps of the graphs and links so far.

ghost use Rattle.basics.specs.Words.{contents};
ghost use Rattle.std.specs.Prelude.{◌≡◌, ℕ, ◌+◌, ◌*◌, ◌<◌, ◌≤◌, ◌++◌, ◌∷◌, [], List, None, Some, true, false, length, IfOk, IfErr, OnOk, MatchResult, IfSome, IsTrue};
ghost use Rattle.std.specs.List.{list_any};
ghost use Rattle.std.specs.Option.{option_map_or};
ghost use Rattle.std.specs.Str.{bytes_eq};
ghost use Rattle.graph_terms.specs.Fits.{cell_count};
ghost use Rattle.index_spaces.specs.declared.limits.TheConstants.{MAX_POINTS_OF_THREE};
ghost use Rattle.graph_terms.specs.declared.limits.TheConstants.{MAX_TEXT, MAX_CELLS, MAX_COLUMNS_OF_THREE};
ghost use Rattle.graph_terms.specs.Name.{is_name_in};
ghost use Rattle.graph_words.specs.Text.{GraphText};
ghost use Rattle.word_meanings.specs.Words.{is_empty};
ghost use Rattle.realm_audit.specs.Parts.{newlines};
ghost use Rattle.graph_words.specs.Words.{pieces};
ghost use Rattle.session_text.specs.Fits.{graph_reason, is_above};
ghost use Rattle.session_text.specs.FirstFault.{word_at, is_graph_line, is_link_line, link_of, last_format, last_reason};
ghost use Rattle.session_text.specs.declared.limits.TheConstants.{MAX_SESSION_LINES};
ghost use Rattle.session_text.specs.SoFar.{last_entry, entries_in, judged_in, IsSoFar, ReadsOn, RefusedThere, IsRefusedBehind, added_reason, AddsLink, LinkAdded, GraphAdded, GraphTaken, GraphRefused, bare_last, LastTaken, LastRefused, AllowsLink, LastAdded};

use crate::entry::{Entry, Link};
use crate::limits::{MAX_GRAPHS, MAX_SESSION_LINES};
use crate::links::{add_trigger, format_of, link_of, names_op};
use crate::words::{any_empty, is_graph_line, is_link_line, split_into, word};
use graph_model::graph::Graph;
use graph_reader::laws::lines_stand_in_order;
use graph_reader::{ReadRefusal, read_graph};
use graph_terms::format::Format;
use graph_terms::limits::MAX_CELLS;
use graph_terms::lists::ItemList;
use graph_terms::name::Name;
use graph_terms::why::Why;
use index_spaces::NoMemory;
use index_spaces::room::push;
use realm_audit::{newlines, parts};
use std::alloc::Global;

/// The last graph, and the same graph with each of its links as a trigger.
#[derive(Drop)]
pub(crate) struct Last {
    pub(crate) entry: Entry,
    pub(crate) judged: Graph,
}

impl Last {
    /// Puts a link at the end, where it fits and there is room for a line more, else the first reason
    /// that refuses it.
    fn add_link(
        &mut self,
        alloc: Global,
        link: Link,
        has_room: bool,
    ) -> Result<Option<Why>, NoMemory>
        requires few { length self.old.entry.links < u32.MAX }
        requires named { IsTrue (is_name_in self.old.judged.format link.line) }
        ensures fault { IfOk result (λ why. why ≡ added_reason self.old link has_room) }
        ensures added { OnOk result (added_reason self.old link has_room ≡ None → AddsLink self.old link self.new) }
    {
        if let Some(why) = add_trigger(alloc, &mut self.judged, &link)? {
            return Ok(Some(why));
        }
        if !has_room {
            return Ok(Some(Why::Limit));
        }
        self.entry.links.push(link)?;
        Ok(None)
    }
}

/// The graphs before the last one, the last one, and how many operation lines, links and cells all of
/// them have.
#[derive(Drop)]
pub(crate) struct SoFar {
    pub(crate) before: Vec<Entry>,
    // The graphs before the last one, each with its links as triggers: its table of names has its links too.
    pub(crate) judged: Vec<Graph>,
    pub(crate) last: Option<Last>,
    pub(crate) lines: u32,
    pub(crate) cells: u64,
}

/// How many operation lines, links and cells there are with one graph more.
#[derive(Clone, Copy)]
pub(crate) struct Sums {
    pub(crate) lines: u32,
    pub(crate) cells: u64,
}

impl Sums {
    /// Whether one of them is too large.
    fn is_above(&self) -> bool
        ensures { result ≡ is_above self.now.lines self.now.cells }
    {
        self.lines > MAX_SESSION_LINES || self.cells > MAX_CELLS
    }
}

/// What follows lines that were read, and the number of the line there.
#[derive(Drop)]
pub(crate) struct Rest<'a> {
    pub(crate) bytes: &'a [u8],
    pub(crate) number: u32,
}

impl SoFar {
    /// No graph.
    pub(crate) fn new(alloc: Global) -> SoFar
        ensures none { entries_in result ≡ [] }
        ensures is_so_far { IsSoFar result }
    {
        SoFar {
            before: Vec::new(alloc),
            judged: Vec::new(alloc),
            last: None,
            lines: 0,
            cells: 0,
        }
    }

    /// Reads this line, which is not the closing one, and the text of a graph behind it where it is the
    /// line before one. The list of words serves one line after the other.
    pub(crate) fn read_line<'a>(
        &mut self,
        alloc: Global,
        words: &mut Vec<&'a [u8]>,
        line: &'a [u8],
        after: &'a [u8],
        number: u32,
    ) -> Result<Rest<'a>, ReadRefusal>
        requires so_far { IsSoFar self.old }
        requires few { number + length after.now ≤ 3 * MAX_TEXT }
        ensures taken { IfOk result (λ x. ReadsOn self.old (pieces 32 line.now) after.now number self.new x.bytes.now x.number) }
        ensures shorter { IfOk result (λ x. length x.bytes.now ≤ length after.now) }
        ensures refused { IfErr result (λ e. RefusedThere self.old (pieces 32 line.now) after.now number e) }
    {
        match split_into(words, line) {
            Ok(()) => self.take_line(alloc, words.as_slice(), after, number),
            Err(NoMemory) => Err(ReadRefusal::NoMemory),
        }
    }

    /// Reads a line of these words, and the text of a graph behind it where it is the line before one.
    fn take_line<'a>(
        &mut self,
        alloc: Global,
        words: &[&[u8]],
        after: &'a [u8],
        number: u32,
    ) -> Result<Rest<'a>, ReadRefusal>
        requires so_far { IsSoFar self.old }
        requires few { number + length after.now ≤ 3 * MAX_TEXT }
        ensures taken { IfOk result (λ x. ReadsOn self.old (contents words.now) after.now number self.new x.bytes.now x.number) }
        ensures shorter { IfOk result (λ x. length x.bytes.now ≤ length after.now) }
        ensures refused { IfErr result (λ e. RefusedThere self.old (contents words.now) after.now number e) }
    {
        if any_empty(words) {
            return Err(refused(number, Why::Syntax));
        }
        if is_graph_line(words) {
            return self.take_graph_line(alloc, words, after, number);
        }
        if is_link_line(words) {
            return self.take_link_line(alloc, words, after, number);
        }
        Err(refused(number, Why::Syntax))
    }

    /// Reads the line before a graph's text, and that text.
    fn take_graph_line<'a>(
        &mut self,
        alloc: Global,
        words: &[&[u8]],
        after: &'a [u8],
        number: u32,
    ) -> Result<Rest<'a>, ReadRefusal>
        requires so_far { IsSoFar self.old }
        requires few { number + length after.now ≤ 3 * MAX_TEXT }
        requires filled { list_any is_empty (contents words.now) ≡ false }
        requires graph_line { is_graph_line (contents words.now) ≡ true }
        ensures taken { IfOk result (λ x. ReadsOn self.old (contents words.now) after.now number self.new x.bytes.now x.number) }
        ensures shorter { IfOk result (λ x. length x.bytes.now ≤ length after.now) }
        ensures refused { IfErr result (λ e. RefusedThere self.old (contents words.now) after.now number e) }
    {
        match self.new_name(word(words, 1)) {
            Ok(name) => self.take_graph(alloc, name, after, number),
            Err(why) => Err(refused(number, why)),
        }
    }

    /// Reads the line of a link.
    fn take_link_line<'a>(
        &mut self,
        alloc: Global,
        words: &[&[u8]],
        after: &'a [u8],
        number: u32,
    ) -> Result<Rest<'a>, ReadRefusal>
        requires so_far { IsSoFar self.old }
        requires few { number + length after.now ≤ 3 * MAX_TEXT }
        requires filled { list_any is_empty (contents words.now) ≡ false }
        requires link_line { is_link_line (contents words.now) ≡ true }
        ensures taken { IfOk result (λ x. ReadsOn self.old (contents words.now) after.now number self.new x.bytes.now x.number) }
        ensures shorter { IfOk result (λ x. length x.bytes.now ≤ length after.now) }
        ensures refused { IfErr result (λ e. RefusedThere self.old (contents words.now) after.now number e) }
    {
        match self.take_link(alloc, words) {
            Ok(None) => Ok(Rest {
                bytes: after,
                number: number + 1,
            }),
            Ok(Some(why)) => Err(refused(number, why)),
            Err(NoMemory) => Err(ReadRefusal::NoMemory),
        }
    }

    /// The name of a graph, where it may have that name, else the first reason why not.
    fn new_name(&self, word: &[u8]) -> Result<Name, Why>
        ensures { MatchResult result
            (λ name. (name ≡ word.now) × (graph_reason (entries_in self.now) word.now ≡ None))
            (λ why. graph_reason (entries_in self.now) word.now ≡ Some why) }
    {
        let Some(name) = Name::new(word) else {
            return Err(Why::Name);
        };
        if self.has_graph(&name) {
            return Err(Why::Twice);
        }
        if self.graphs() >= MAX_GRAPHS as usize {
            return Err(Why::Limit);
        }
        Ok(name)
    }

    /// Whether a graph has this name.
    fn has_graph(&self, name: &Name) -> bool
        ensures { result ≡ list_any (λ e. bytes_eq e.name name.now) (entries_in self.now) }
    {
        let among = has_name(self.before.as_slice(), name);
        match &self.last {
            Some(last) => among || last.entry.name == *name,
            None => among,
        }
    }

    /// How many graphs there are.
    fn graphs(&self) -> usize
        ensures { result ≡ length (entries_in self.now) }
    {
        match &self.last {
            Some(_) => self.before.len() + 1,
            None => self.before.len(),
        }
    }

    /// Reads the text of a graph of this name, behind a line of this number.
    fn take_graph<'a>(
        &mut self,
        alloc: Global,
        name: Name,
        bytes: &'a [u8],
        number: u32,
    ) -> Result<Rest<'a>, ReadRefusal>
        requires so_far { IsSoFar self.old }
        requires few { number + length bytes.now ≤ 3 * MAX_TEXT }
        requires named { graph_reason (entries_in self.old) name ≡ None }
        ensures taken { IfOk result (λ x. GraphTaken self.old name bytes.now number self.new x.bytes.now x.number) }
        ensures shorter { IfOk result (λ x. length x.bytes.now ≤ length bytes.now) }
        ensures refused { IfErr result (λ e. GraphRefused self.old name bytes.now number e) }
    {
        let (front, back) = parts(bytes);
        match read_last(alloc, name, front, number) {
            Ok(last) => self.take_last(last, newlines(front), back, number),
            Err(refusal) => Err(refusal),
        }
    }

    /// Puts a graph at the end whose text, of so many lines, was read behind a line of this number. It is
    /// refused where a sum is too large with it.
    fn take_last<'a>(
        &mut self,
        last: Last,
        lines: u32,
        after: &'a [u8],
        number: u32,
    ) -> Result<Rest<'a>, ReadRefusal>
        requires so_far { IsSoFar self.old }
        requires few { number + lines ≤ 3 * MAX_TEXT }
        requires named { graph_reason (entries_in self.old) last.entry.name ≡ None }
        requires bare { last ≡ bare_last last.entry.name last.entry.graph }
        ensures taken { IfOk result (λ x. LastTaken self.old last lines after.now number self.new x.bytes.now x.number) }
        ensures rest { IfOk result (λ x. x.bytes.now ≡ after.now) }
        ensures refused { IfErr result (λ e. LastRefused self.old last lines number e) }
    {
        let end = number + lines;
        let sums = self.sums_with(&last.entry.graph);
        let Ok(()) = self.add_graph(last, sums) else {
            return Err(ReadRefusal::NoMemory);
        };
        if sums.is_above() {
            return Err(refused(end, Why::Limit));
        }
        Ok(Rest {
            bytes: after,
            number: end + 1,
        })
    }

    /// The sums with a graph more.
    fn sums_with(&self, graph: &Graph) -> Sums
        requires { IsSoFar self.now }
        ensures lines { result.lines ≡ self.now.lines + length graph.now.lines }
        ensures cells { result.cells ≡ self.now.cells + cell_count graph.now }
    {
        let lines = self.lines + graph.lines();
        let cells = self.cells + cell_count(graph);
        Sums { lines, cells }
    }

    /// Puts a graph at the end, with which there are these sums.
    fn add_graph(&mut self, last: Last, sums: Sums) -> Result<(), NoMemory>
        ensures { OnOk result (GraphAdded self.old last sums.lines sums.cells self.new) }
    {
        self.lines = sums.lines;
        self.cells = sums.cells;
        match self.last.replace(last) {
            Some(previous) => self.add_before(previous),
            None => Ok(()),
        }
    }

    /// Puts a graph to those before the last one.
    fn add_before(&mut self, graph: Last) -> Result<(), NoMemory>
        ensures before { OnOk result (self.new.before.items ≡ self.old.before.items ++ graph.entry ∷ []) }
        ensures judged { OnOk result (self.new.judged.items ≡ self.old.judged.items ++ graph.judged ∷ []) }
        ensures last { self.new.last ≡ self.old.last }
        ensures lines { self.new.lines ≡ self.old.lines }
        ensures cells { self.new.cells ≡ self.old.cells }
    {
        let judged = push(&mut self.judged, graph.judged);
        let before = push(&mut self.before, graph.entry);
        judged.and(before)
    }

    /// All graphs.
    pub(crate) fn into_entries(self) -> Result<Vec<Entry>, ReadRefusal>
        ensures all { IfOk result (λ v. v.items ≡ entries_in self) }
        ensures wants { IfErr result (λ e. e ≡ ReadRefusal.NoMemory) }
    {
        let SoFar { before, last, .. } = self;
        match last {
            Some(last) => with_entry(before, last.entry),
            None => Ok(before),
        }
    }

    /// The format of the last graph, and format 1 where there is none.
    fn last_format(&self) -> Format
        ensures { result ≡ last_format (last_entry self.now.last) }
    {
        match &self.last {
            Some(last) => last.entry.graph.format(),
            None => Format::One,
        }
    }

    /// Puts the link of these words at the end of the last graph's, where it fits, else the first
    /// reason that refuses it.
    fn take_link(&mut self, alloc: Global, words: &[&[u8]]) -> Result<Option<Why>, NoMemory>
        requires so_far { IsSoFar self.old }
        ensures fault { IfOk result (λ why. why ≡ last_reason self.old.before.items (last_entry self.old.last) (link_of (contents words.now))) }
        ensures added { OnOk result (last_reason self.old.before.items (last_entry self.old.last) (link_of (contents words.now)) ≡ None
            → LinkAdded self.old (link_of (contents words.now)) self.new) }
    {
        let named = format_of(self.before.as_slice(), word(words, 3));
        let Some(link) = link_of(words, self.last_format(), named) else {
            return Ok(Some(Why::Name));
        };
        if !names_op(self.before.as_slice(), self.judged.as_slice(), &link) {
            return Ok(Some(Why::Unknown));
        }
        let why = add_link(alloc, &mut self.last, link, self.lines < MAX_SESSION_LINES)?;
        if why.is_none() {
            self.lines += 1;
        }
        Ok(why)
    }
}

/// Puts a link at the end of the last graph's, where there is one and the link fits, else the first
/// reason that refuses it.
fn add_link(
    alloc: Global,
    last: &mut Option<Last>,
    link: Link,
    has_room: bool,
) -> Result<Option<Why>, NoMemory>
    requires few { AllowsLink last.old }
    requires named { IfSome last.old (λ l. IsTrue (is_name_in l.judged.format link.line)) }
    ensures fault { IfOk result (λ why. why ≡ option_map_or (λ l. added_reason l link has_room) last.old (Some Why.Unknown)) }
    ensures added { OnOk result (LastAdded last.old link has_room last.new) }
{
    match last {
        Some(last) => last.add_link(alloc, link, has_room),
        None => Ok(Some(Why::Unknown)),
    }
}

/// Whether one of these graphs has this name.
fn has_name(entries: &[Entry], name: &Name) -> bool
    ensures { result ≡ list_any (λ e. bytes_eq e.name name.now) entries.now }
{
    entries.iter().any(|entry| entry.name == *name)
}

/// A refusal of the line of this number.
pub(crate) fn refused(number: u32, why: Why) -> ReadRefusal
    ensures { result ≡ ReadRefusal.Line number why }
{
    ReadRefusal::Line { number, why }
}

/// These graphs, and one more at the end.
fn with_entry(mut entries: Vec<Entry>, entry: Entry) -> Result<Vec<Entry>, ReadRefusal>
    ensures all { IfOk result (λ v. v.items ≡ entries.items ++ entry ∷ []) }
    ensures wants { IfErr result (λ e. e ≡ ReadRefusal.NoMemory) }
{
    match push(&mut entries, entry) {
        Ok(()) => Ok(entries),
        Err(NoMemory) => Err(ReadRefusal::NoMemory),
    }
}

/// The graph of this name whose text the bytes are that stand behind a line of this number. It is read
/// twice: its links are judged in a graph of their own, in which each of them is a trigger.
fn read_last(alloc: Global, name: Name, bytes: &[u8], line: u32) -> Result<Last, ReadRefusal>
    requires few { line + length bytes.now ≤ 3 * MAX_TEXT }
    ensures text { IfOk result (λ last. GraphText bytes.now last.entry.graph) }
    ensures name { IfOk result (λ last. last.entry.name ≡ name) }
    ensures bare { IfOk result (λ last. last ≡ bare_last last.entry.name last.entry.graph) }
    ensures refused { IfErr result (λ e. IsRefusedBehind bytes.now line e) }
{
    let graph = read_behind(alloc, bytes, line)?;
    match read_behind(alloc, bytes, line) {
        Ok(judged) => {
            let links = ItemList::new(alloc);
            Ok(Last {
                entry: Entry { name, graph, links },
                judged,
            })
        }
        Err(refusal) => {
            drop(graph);
            Err(refusal)
        }
    }
}

/// The graph whose text the bytes are that stand behind a line of this number.
fn read_behind(alloc: Global, bytes: &[u8], line: u32) -> Result<Graph, ReadRefusal>
    requires few { line + length bytes.now ≤ 3 * MAX_TEXT }
    ensures text { IfOk result (λ g. GraphText bytes.now g) }
    ensures refused { IfErr result (λ e. IsRefusedBehind bytes.now line e) }
{
    // no line that is refused has a number above the lines of the bytes
    lines_stand_in_order();
    match read_graph(alloc, bytes) {
        Ok(graph) => Ok(graph),
        Err(ReadRefusal::Line { number, why }) => Err(refused(line + number, why)),
        Err(ReadRefusal::NoMemory) => Err(ReadRefusal::NoMemory),
    }
}

/// The cells of all columns of a graph.
fn cell_count(graph: &Graph) -> u64
    ensures cells { result ≡ cell_count graph.now }
    ensures few { result ≤ MAX_COLUMNS_OF_THREE * MAX_POINTS_OF_THREE }
{
    let mut cells = 0;
    for c in 0..graph.columns() {
        cells += graph.column_space(c).size();
    }
    cells
}
