//! Why a graph is refused, as text.

ghost use Rattle.std.specs.Prelude.{◌≡◌, ◌<◌, ◌++◌, length, flat_map, IfSome, OnOk};
ghost use Rattle.graph_terms.specs.Graph.{locks};
ghost use Rattle.graph_terms.specs.Spelling.{lock_name};
ghost use Rattle.explain_graph.specs.Explanation.{AreEdges, NamesItems};
ghost use Rattle.refusal_text.specs.Refused.{refused_one, refused_two, cycle_text, unreleased_by, unreleased_text, entered_text, section_text, descends_text, on_of, on_text, waited, further_name, write_text, bare_text, release_text, explanation_text};

use crate::conflict::put_conflict;
use crate::lines::{on_of, put_name, put_names};
use explain_graph::Explanation;
use explain_graph::reasons::{
    CycleReason, DescendsReason, ReleaseReason, SectionReason, UnreleasedReason,
};
use explain_text::lines::{put_edges, put_numbered};
use explain_text::{Lines, Text};
use graph_model::graph::Graph;
use graph_terms::verb::Edge;
use index_spaces::NoMemory;

/// Puts why a graph is refused, by the lines of the text that it was read from: the line that
/// `realm check` writes, and then a fact on each line.
pub fn put_explanation(
    text: &mut Text,
    graph: &Graph,
    lines: &Lines,
    explanation: &Explanation,
) -> Result<(), NoMemory>
    requires { NamesItems graph.now explanation.now }
    ensures { OnOk result (text.new ≡ text.old ++ explanation_text graph.now lines.now explanation.now) }
{
    match explanation {
        Explanation::Cycle(reason) => put_cycle(text, graph, lines, reason),
        Explanation::Unreleased(reason) => put_unreleased(text, graph, lines, reason),
        Explanation::Section(reason) => put_section(text, graph, lines, reason),
        Explanation::Descends(reason) => put_descends(text, graph, lines, reason),
        Explanation::ReleaseFault(reason) => put_release(text, graph, lines, reason),
        Explanation::Race(reason) => put_conflict(text, graph, lines, reason),
    }
}

/// Puts the line that `realm check` writes of one line.
fn put_refused_one(text: &mut Text, graph: &Graph, rule: &[u8], i: u32) -> Result<(), NoMemory>
    ensures { OnOk result (text.new ≡ text.old ++ refused_one graph.now rule.now i) }
{
    text.put(b"refused ")?;
    text.put(rule)?;
    text.put(b" ")?;
    put_name(text, graph, i)?;
    text.put(b"\n")
}

/// Puts the line that `realm check` writes of two lines.
pub(crate) fn put_refused_two(
    text: &mut Text,
    graph: &Graph,
    rule: &[u8],
    i: u32,
    j: u32,
) -> Result<(), NoMemory>
    ensures { OnOk result (text.new ≡ text.old ++ refused_two graph.now rule.now i j) }
{
    text.put(b"refused ")?;
    text.put(rule)?;
    text.put(b" ")?;
    put_name(text, graph, i)?;
    text.put(b" ")?;
    put_name(text, graph, j)?;
    text.put(b"\n")
}

/// Puts why a line waits for itself.
fn put_cycle(
    text: &mut Text,
    graph: &Graph,
    lines: &Lines,
    reason: &CycleReason,
) -> Result<(), NoMemory>
    requires { AreEdges graph.now reason.now.cycle.items }
    ensures { OnOk result (text.new ≡ text.old ++ cycle_text graph.now lines.now reason.now) }
{
    put_refused_one(text, graph, b"cycle", reason.line)?;
    put_numbered(text, graph, lines, reason.line)?;
    text.put(b"a shortest cycle through it:\n")?;
    put_edges(text, graph, lines, reason.cycle.as_slice())
}

/// Puts why an acquire is not released.
fn put_unreleased(
    text: &mut Text,
    graph: &Graph,
    lines: &Lines,
    reason: &UnreleasedReason,
) -> Result<(), NoMemory>
    ensures { OnOk result (text.new ≡ text.old ++ unreleased_text graph.now lines.now reason.now) }
{
    put_refused_one(text, graph, b"unreleased", reason.acquire)?;
    put_numbered(text, graph, lines, reason.acquire)?;
    put_unreleased_by(text, graph, lines, reason.acquire, reason.release)
}

/// Puts the release that does not wait for its acquire, if there is one.
fn put_unreleased_by(
    text: &mut Text,
    graph: &Graph,
    lines: &Lines,
    acquire: u32,
    release: Option<u32>,
) -> Result<(), NoMemory>
    ensures { OnOk result (text.new ≡ text.old ++ unreleased_by graph.now lines.now acquire release) }
{
    let Some(release) = release else {
        return text.put(b"no line releases it\n");
    };
    text.put(b"its release does not wait for it:\n")?;
    put_numbered(text, graph, lines, release)?;
    put_bare(text, graph, release, acquire, on_of(graph, release))
}

/// Puts the two lines to write for a release that is on no line.
fn put_bare(
    text: &mut Text,
    graph: &Graph,
    release: u32,
    acquire: u32,
    on: &[u32],
) -> Result<(), NoMemory>
    ensures { OnOk result (text.new ≡ text.old ++ bare_text graph.now release acquire on.now) }
{
    match on {
        [] => put_write(text, graph, release, acquire, &[]),
        _ => Ok(()),
    }
}

/// Puts why a release must not wait for a line.
fn put_section(
    text: &mut Text,
    graph: &Graph,
    lines: &Lines,
    reason: &SectionReason,
) -> Result<(), NoMemory>
    requires path { AreEdges graph.now reason.now.path.items }
    requires entered { IfSome reason.now.entered (λ p. AreEdges graph.now p.items) }
    ensures { OnOk result (text.new ≡ text.old ++ section_text graph.now lines.now reason.now) }
{
    put_refused_two(text, graph, b"section", reason.release, reason.line)?;
    put_numbered(text, graph, lines, reason.release)?;
    put_numbered(text, graph, lines, reason.line)?;
    text.put(b"the release waits for that line:\n")?;
    put_edges(text, graph, lines, reason.path.as_slice())?;
    text.put(b"which comes not before the acquire\n")?;
    put_numbered(text, graph, lines, reason.acquire)?;
    put_entered(text, graph, lines, &reason.entered)
}

/// Puts the way from the acquire to the line, if there is one.
fn put_entered(
    text: &mut Text,
    graph: &Graph,
    lines: &Lines,
    entered: &Option<Vec<Edge>>,
) -> Result<(), NoMemory>
    requires { IfSome entered.now (λ p. AreEdges graph.now p.items) }
    ensures { OnOk result (text.new ≡ text.old ++ entered_text graph.now lines.now entered.now) }
{
    let Some(path) = entered else {
        return text.put(b"and not after it\n");
    };
    text.put(b"and after it, but never:\n")?;
    put_edges(text, graph, lines, path.as_slice())
}

/// Puts why an acquire must not lie in the section of another.
fn put_descends(
    text: &mut Text,
    graph: &Graph,
    lines: &Lines,
    reason: &DescendsReason,
) -> Result<(), NoMemory>
    requires entered { AreEdges graph.now reason.now.entered.items }
    requires left { AreEdges graph.now reason.now.left.items }
    requires inner { reason.now.inner_lock < length (locks graph.now) }
    requires outer { reason.now.outer_lock < length (locks graph.now) }
    ensures { OnOk result (text.new ≡ text.old ++ descends_text graph.now lines.now reason.now) }
{
    put_refused_two(text, graph, b"descends", reason.outer, reason.inner)?;
    put_numbered(text, graph, lines, reason.outer)?;
    put_numbered(text, graph, lines, reason.inner)?;
    text.put(b"the second lies in the section of the first:\n")?;
    put_edges(text, graph, lines, reason.entered.as_slice())?;
    put_edges(text, graph, lines, reason.left.as_slice())?;
    text.put(b"reservation ")?;
    put_lock(text, graph, reason.inner_lock)?;
    text.put(b" is not declared below ")?;
    put_lock(text, graph, reason.outer_lock)?;
    text.put(b"\n")
}

/// Puts the name of a reservation.
fn put_lock(text: &mut Text, graph: &Graph, lock: u32) -> Result<(), NoMemory>
    requires { lock < length (locks graph.now) }
    ensures { OnOk result (text.new ≡ text.old ++ lock_name graph.now lock) }
{
    let name = graph.lock_name(lock);
    text.put(name.bytes())
}

/// Puts why a fault could keep a release from its end.
fn put_release(
    text: &mut Text,
    graph: &Graph,
    lines: &Lines,
    reason: &ReleaseReason,
) -> Result<(), NoMemory>
    requires { reason.now.release < length graph.now.lines }
    ensures { OnOk result (text.new ≡ text.old ++ release_text graph.now lines.now reason.now) }
{
    put_refused_one(text, graph, b"release", reason.release)?;
    put_numbered(text, graph, lines, reason.release)?;
    put_on(text, graph, lines, reason.on)?;
    let on = graph.line(reason.release).on.as_slice();
    put_write(text, graph, reason.release, reason.acquire, on)
}

/// Puts the two lines to write for a release that is not on mergeis alone.
fn put_write(
    text: &mut Text,
    graph: &Graph,
    release: u32,
    acquire: u32,
    on: &[u32],
) -> Result<(), NoMemory>
    ensures { OnOk result (text.new ≡ text.old ++ write_text graph.now release acquire on.now) }
{
    text.put(b"put a mergei between them:\nNAME = mergei")?;
    put_waited(text, graph, acquire, on)?;
    text.put(b"\n")?;
    put_name(text, graph, release)?;
    text.put(b" = release ")?;
    put_name(text, graph, acquire)?;
    text.put(b" on NAME\n")
}

/// Puts the names of the lines that a release is on, else of its acquire.
fn put_waited(text: &mut Text, graph: &Graph, acquire: u32, on: &[u32]) -> Result<(), NoMemory>
    ensures { OnOk result (text.new ≡ text.old ++ flat_map (further_name graph.now) (waited acquire on.now)) }
{
    if on.is_empty() {
        put_names(text, graph, &[acquire])
    } else {
        put_names(text, graph, on)
    }
}

/// Puts the line that a release is on and that is no mergei, if there is one.
fn put_on(text: &mut Text, graph: &Graph, lines: &Lines, on: Option<u32>) -> Result<(), NoMemory>
    ensures { OnOk result (text.new ≡ text.old ++ on_text graph.now lines.now on) }
{
    let Some(on) = on else {
        return text.put(b"it is on no line, and has to be on a mergei\n");
    };
    text.put(b"it has to be on a mergei, and is on\n")?;
    put_numbered(text, graph, lines, on)
}
