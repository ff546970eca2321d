//! Reading a graph from its text.

ghost use Rattle.std.specs.Prelude.{◌≡◌, ◌==◌, ◌++◌, ◌-◌, ◌^◌, ◌<◌, false, Some, None, OnOk, OnErr, IfOk, IfErr, MatchOption};
ghost use Rattle.graph_terms.specs.Spelling.{header};
ghost use Rattle.graph_reader.specs.FirstFault.{HasNoHeader};
ghost use Rattle.std.specs.List.{list_any};
ghost use Rattle.graph_words.specs.Words.{pieces};
ghost use Rattle.graph_words.specs.Cuts.{IsCut};
ghost use Rattle.word_meanings.specs.Recent.{IsRecent};
ghost use Rattle.graph_words.specs.Text.{GraphText, bare_of, number_of};
ghost use Rattle.graph_reader.specs.Reading.{IsTaken, IsWordsError, IsRefusal, IsReadAs, HasLine, IsBareReadAs, closed_reading};
ghost use Rattle.graph_reader.specs.declared.reader.Reading.{Reading};

use crate::ReadRefusal;
use crate::item::ItemError;
use crate::lines::take_words;
use graph_model::graph::Graph;
use graph_terms::format::Format;
use graph_terms::limits::Limits;
use graph_terms::why::Why;
use graph_words::comments::{bare_of, number_of};
use graph_words::words::{cut_into, is_same};
use index_spaces::NoMemory;
use memchr::memchr;
use std::alloc::Global;
use word_meanings::recent::{Recent, no_recent};

/// The format that the first line names, and the bytes behind it. `None` exactly where they begin with no such line.
fn read_header(bytes: &[u8]) -> Option<(Format, &[u8])>
    ensures { MatchOption result (HasNoHeader bytes.now) (λ x. bytes.now ≡ header x.0 ++ x.1.now) }
{
    if let Some(rest) = bytes.strip_prefix(b"realm 1\n".as_slice()) {
        return Some((Format::One, rest));
    }
    if let Some(rest) = bytes.strip_prefix(b"realm 2\n".as_slice()) {
        return Some((Format::Two, rest));
    }
    match bytes.strip_prefix(b"realm 3\n".as_slice()) {
        Some(rest) => Some((Format::Three, rest)),
        None => None,
    }
}

/// The first line and the bytes behind its newline. `None` exactly where there is no newline.
fn cut_line(bytes: &[u8]) -> Option<(&[u8], &[u8])>
    ensures { MatchOption result (list_any (λ b. b == 10) bytes.now ≡ false) (λ x. IsCut 10 bytes.now x.0.now x.1.now) }
{
    match memchr(b'\n', bytes) {
        Some(end) => Some((&bytes[..end], &bytes[end + 1..])),
        None => None,
    }
}

/// Puts what a line of the text spells at the end; where it spells nothing that fits, the graph stays as it was. The list
/// serves for its words.
fn take_line<'a>(
    alloc: Global,
    graph: &mut Graph,
    recent: &mut Recent<'a>,
    words: &mut Vec<&'a [u8]>,
    line: &'a [u8],
) -> Result<(), ItemError>
    requires { IsRecent graph.old recent.old }
    ensures taken { OnOk result (IsTaken graph.old (pieces 32 line.now) graph.new) }
    ensures refused { IfErr result (IsWordsError graph.old (pieces 32 line.now)) }
    ensures stays { OnErr result (graph.new ≡ graph.old) }
    ensures recent { OnOk result (IsRecent graph.new recent.new) }
{
    match cut_into(words, line, b' ') {
        Ok(count) => take_words(alloc, graph, recent, &words[..count]),
        Err(_) => Err(ItemError::NoMemory),
    }
}

/// What bytes are read as.
#[derive(Drop)]
pub enum Reading {
    /// They are the text of this graph.
    Graph(Graph),
    /// They are the text of no graph.
    Refused(Unread),
}

/// The first refused line of bytes, counted from 1, and the first reason that refuses it.
#[derive(Drop)]
pub struct Unread {
    pub number: u32,
    pub why: Why,
    /// The graph of the lines above it. `None` where that is no such line: the first one has to name
    /// the format, and no line may stand below the closing one.
    pub above: Option<Graph>,
}

/// What bytes are read as. The lines that are empty or begin with `#` say nothing in a text of
/// format 3, and count where lines are numbered.
pub fn read_text(alloc: Global, bytes: &[u8]) -> Result<Reading, NoMemory>
    ensures { IfOk result (IsReadAs bytes.now) }
{
    match bare_of(alloc, bytes)? {
        Some(bare) => {
            let reading = read_bare(alloc, &bare)?;
            Ok(in_whole(bytes, reading))
        }
        None => {
            let reading = read_bare(alloc, bytes)?;
            Ok(in_whole(bytes, reading))
        }
    }
}

/// What bytes are read as, by what they are read as without their comments.
fn in_whole(bytes: &[u8], reading: Reading) -> Reading
    requires { IsBareReadAs (bare_of bytes.now) reading }
    ensures { IsReadAs bytes.now result }
{
    match reading {
        Reading::Graph(graph) => Reading::Graph(graph),
        Reading::Refused(Unread { number, why, above }) => Reading::Refused(Unread {
            number: whole_number(bytes, number),
            why,
            above,
        }),
    }
}

/// The number among all lines of a line that has this number without comments.
fn whole_number(bytes: &[u8], number: u32) -> u32
    requires { HasLine (bare_of bytes.now) number }
    ensures { result ≡ number_of bytes.now number }
{
    number_of(bytes, number) as u32
}

/// What bytes without comments are read as.
fn read_bare(alloc: Global, bytes: &[u8]) -> Result<Reading, NoMemory>
    ensures { IfOk result (IsBareReadAs bytes.now) }
{
    let Some((format, mut rest)) = read_header(bytes) else {
        return Ok(Reading::Refused(Unread {
            number: 1,
            why: Why::Header,
            above: None,
        }));
    };
    let mut graph = Graph::of_format(alloc, format);
    let mut recent = no_recent();
    let mut words = Vec::new(alloc);
    let mut number: u32 = 2;
    while let Some((line, after)) = cut_line(rest) {
        if is_same(line, b"end") {
            return Ok(closed(graph, number, after, bytes.len() - after.len()));
        }
        match take_line(alloc, &mut graph, &mut recent, &mut words, line) {
            Ok(()) => {}
            Err(ItemError::Refused(why)) => return Ok(refused_behind(graph, number, why)),
            Err(ItemError::NoMemory) => return Err(NoMemory),
        }
        rest = after;
        number += 1;
    }
    Ok(refused_behind(graph, number, Why::Missing))
}

/// A line that is refused behind the text of a graph that is not closed.
fn refused_behind(graph: Graph, number: u32, why: Why) -> Reading
    ensures { result ≡ Reading.Refused (record { number = number; why = why; above = Some graph }) }
{
    Reading::Refused(Unread {
        number,
        why,
        above: Some(graph),
    })
}

/// A text that is closed in the line of this number, with the bytes behind it and how many there are before these.
fn closed(graph: Graph, number: u32, after: &[u8], bytes: usize) -> Reading
    requires { number < 2 ^ 32 - 1 }
    ensures { result ≡ closed_reading graph number after.now bytes }
{
    if bytes as u64 > Limits::of(graph.format()).text {
        return refused_behind(graph, number, Why::Limit);
    }
    if after.is_empty() {
        return Reading::Graph(graph);
    }
    Reading::Refused(Unread {
        number: number + 1,
        why: Why::Rest,
        above: None,
    })
}

/// The graph whose text the bytes are. `Line` exactly where they are no graph's text: the first
/// refused line, counted from 1, and the first reason that refuses it. `NoMemory` where memory
/// ran out.
pub fn read_graph(alloc: Global, bytes: &[u8]) -> Result<Graph, ReadRefusal>
    ensures text { IfOk result (λ g. GraphText bytes.now g) }
    ensures refusal { IfErr result (λ e. IsRefusal bytes.now e) }
{
    match read_text(alloc, bytes) {
        Ok(Reading::Graph(graph)) => Ok(graph),
        Ok(Reading::Refused(Unread { number, why, .. })) => Err(ReadRefusal::Line { number, why }),
        Err(NoMemory) => Err(ReadRefusal::NoMemory),
    }
}
