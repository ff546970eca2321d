//! Links: their names, and what they name.

ghost use Rattle.basics.specs.Words.{contents};
ghost use Rattle.std.specs.Prelude.{◌≡◌, ◌∷◌, [], true, false, not, map, position, None, Some, IfOk, OnOk, MatchOption, IsTrue};
ghost use Rattle.std.specs.Str.{bytes_eq};
ghost use Rattle.graph_terms.specs.Fits.{first_reason, is_used, line_fault, with_line};
ghost use Rattle.graph_terms.specs.Name.{is_name_in};
ghost use Rattle.word_meanings.specs.WordFaults.{is_line_name};
ghost use Rattle.session_text.specs.Fits.{names_op, names_op_of, format_of, is_named, trigger_reason, with_trigger};
ghost use Rattle.session_text.specs.FirstFault.{link_of};
ghost use Rattle.session_text.specs.SoFar.{judged_of};

use crate::entry::{Entry, Link};
use crate::words::word;
use graph_model::graph::Graph;
use graph_terms::format::Format;
use graph_terms::found::Found;
use graph_terms::lists::EventList;
use graph_terms::name::Name;
use graph_terms::verb::{Line, Verb};
use graph_terms::why::Why;
use index_spaces::NoMemory;
use std::alloc::Global;

/// The format of the first of these graphs that has this name, and format 1 where none has it.
pub(crate) fn format_of(graphs: &[Entry], name: &[u8]) -> Format
    ensures { result ≡ format_of graphs.now name.now }
{
    for entry in graphs {
        if entry.name.bytes() == name {
            return entry.graph.format();
        }
    }
    Format::One
}

/// The link of the words of its line: `own` is the format of its graph, `named` that of the graph which it names. `None`
/// exactly where a word is not spelled as a name of its format.
pub(crate) fn link_of(words: &[&[u8]], own: Format, named: Format) -> Option<Link>
    ensures { MatchOption result (is_named own named (link_of (contents words.now)) ≡ false)
        (λ l. (l ≡ link_of (contents words.now)) × (is_named own named l ≡ true)) }
{
    Some(Link {
        line: Name::in_format(own, word(words, 1))?,
        user: Name::in_format(own, word(words, 2))?,
        graph: Name::new(word(words, 3))?,
        op: Name::in_format(named, word(words, 4))?,
    })
}

/// The number of the line of this name. `None` exactly where no line has it.
pub fn find_line(graph: &Graph, name: &Name) -> Option<u32>
    ensures { result ≡ position (λ l. bytes_eq l.name name.now) graph.now.lines }
{
    let _ = graph.lines();
    match graph.find(name)? {
        Found::Line(line) => Some(line),
        _ => None,
    }
}

/// Whether a line of the graph has this name.
fn is_line_name(graph: &Graph, name: &Name) -> bool
    ensures { result ≡ is_line_name graph.now name.now }
{
    find_line(graph, name).is_some()
}

/// Whether a link names this graph, and an operation of it. `judged` is the graph with its links as triggers, so that
/// the table of its names finds a link as it finds a line.
fn names_op_of(entry: &Entry, judged: &Graph, link: &Link) -> bool
    requires judged { judged.now ≡ judged_of entry.now }
    ensures { result ≡ names_op_of link.now entry.now }
{
    entry.name == link.graph && is_line_name(judged, &link.op)
}

/// Whether the graph that a link names is among these, and has its operation. Beside them stand the same graphs with
/// their links as triggers.
pub(crate) fn names_op(before: &[Entry], judged: &[Graph], link: &Link) -> bool
    requires judged { judged.now ≡ map judged_of before.now }
    ensures { result ≡ names_op before.now link.now }
{
    for (place, entry) in before.iter().enumerate() {
        if names_op_of(entry, &judged[place], link) {
            return true;
        }
    }
    false
}

/// Puts the line of a link at the end as a trigger, where it fits, else the first reason that refuses it.
pub(crate) fn add_trigger(
    alloc: Global,
    graph: &mut Graph,
    link: &Link,
) -> Result<Option<Why>, NoMemory>
    requires { IsTrue (is_name_in graph.old.format link.now.line) }
    ensures fault { IfOk result (λ why. why ≡ trigger_reason graph.old link.now) }
    ensures added { OnOk result (trigger_reason graph.old link.now ≡ None → graph.new ≡ with_trigger graph.old link.now) }
{
    match find_line(graph, &link.user) {
        Some(user) => offer_trigger(alloc, graph, link.line, user),
        None => Ok(Some(no_user_reason(graph, link))),
    }
}

/// Puts a line that triggers the line of this number at the end, where it fits, else the first reason
/// that refuses it.
fn offer_trigger(
    alloc: Global,
    graph: &mut Graph,
    name: Name,
    user: u32,
) -> Result<Option<Why>, NoMemory>
    requires { IsTrue (is_name_in graph.old.format name) }
    ensures fault { IfOk result (λ why. why ≡ line_fault graph.old (record { name = name; verb = Verb.Trigger user; on = [] })) }
    ensures added { OnOk result (line_fault graph.old (record { name = name; verb = Verb.Trigger user; on = [] }) ≡ None
        → graph.new ≡ with_line graph.old (record { name = name; verb = Verb.Trigger user; on = [] })) }
{
    let line = Line {
        name,
        verb: Verb::Trigger { user },
        on: EventList::new(alloc),
    };
    line.is_well_formed();
    graph.offer_line(line)
}

/// Why the line of a link is refused whose user line is no line.
fn no_user_reason(graph: &Graph, link: &Link) -> Why
    ensures { Some result ≡ first_reason ((is_used graph.now link.now.line, Why.Twice) ∷ (not (is_used graph.now link.now.user), Why.Unknown) ∷ (true, Why.Kind) ∷ []) }
{
    if is_used(graph, &link.line) {
        Why::Twice
    } else if is_used(graph, &link.user) {
        Why::Kind
    } else {
        Why::Unknown
    }
}

/// Whether an item of the graph has this name.
fn is_used(graph: &Graph, name: &Name) -> bool
    ensures { result ≡ is_used graph.now name.now }
{
    let _ = graph.lines();
    graph.find(name).is_some()
}
