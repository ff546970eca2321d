//! Why two lines race, as text.

ghost use Rattle.std.specs.Prelude.{◌≡◌, ◌<◌, ◌+◌, ◌++◌, ◌&&◌, length, take, codes, IfSome, OnOk};
ghost use Rattle.std.specs.List.{list_any};
ghost use Rattle.graph_terms.specs.Graph.{columns, data_columns, line_passes, is_shared};
ghost use Rattle.graph_terms.specs.Reservations.{both_shared};
ghost use Rattle.explain_graph.specs.Explanation.{NamesMeeting, NamesRace};
ghost use Rattle.refusal_text.specs.Refused.{mode_word, any_column_name, shared_text, meeting_text, on_line, on_merge, advice_by, wait_text, order_text, form_text, advice_text, most_told, told_few, few_lines_text, in_sections, are_equal, takes, of_one_lock, have_pair, none_text, turn_text, turns_text, pair_by, pair_text, pairs_with, pairs_text, apart_text, named_text, ordered_text, besides_text, sections_text, topmost_text, race_text};
ghost use Rattle.explain_text.specs.Lines.{by_number};

use crate::bounds::MAX_SECTIONS;
use crate::lines::{on_of, put_lines, put_name};
use crate::orders::lines_need_order;
use crate::refused::put_refused_two;
use explain_graph::reasons::{ConflictReason, OtherRace, Sections};
use explain_text::lines::{put_by_number, put_edges, put_numbered};
use explain_text::{Lines, Text};
use explanations::meetings::Meeting;
use explanations::races::SharedPoint;
use explanations::sections::lock_of;
use graph_model::graph::Graph;
use graph_terms::format::Format;
use graph_terms::verb::Mode;
use index_spaces::NoMemory;
use tried_advice::form::Form;

/// Puts why two lines race.
pub(crate) fn put_conflict(
    text: &mut Text,
    graph: &Graph,
    lines: &Lines,
    reason: &ConflictReason,
) -> Result<(), NoMemory>
    requires first { reason.now.first < length graph.now.lines }
    requires second { reason.now.second < length graph.now.lines }
    requires column { reason.now.race.shared.one.column < length (columns graph.now) + length (data_columns graph.now) }
    requires meeting { IfSome reason.now.race.meeting (NamesMeeting graph.now) }
    requires topmost { IfSome reason.now.topmost (NamesRace graph.now) }
    ensures { OnOk result (text.new ≡ text.old ++ race_text graph.now lines.now reason.now) }
{
    put_refused_two(text, graph, b"race", reason.first, reason.second)?;
    put_numbered(text, graph, lines, reason.first)?;
    put_numbered(text, graph, lines, reason.second)?;
    put_shared(
        text,
        graph,
        lines,
        &reason.race.shared,
        reason.first,
        reason.second,
    )?;
    text.put(b"neither waits for the other\n")?;
    put_meeting(text, graph, lines, &reason.race.meeting)?;
    put_advice(text, graph, lines, reason.advice)?;
    put_sections(text, graph, lines, reason)?;
    put_topmost(text, graph, lines, &reason.topmost)
}

/// Puts the race whose later line stands first, where that is another.
fn put_topmost(
    text: &mut Text,
    graph: &Graph,
    lines: &Lines,
    topmost: &Option<OtherRace>,
) -> Result<(), NoMemory>
    requires { IfSome topmost.now (NamesRace graph.now) }
    ensures { OnOk result (text.new ≡ text.old ++ topmost_text graph.now lines.now topmost.now) }
{
    let Some(race) = topmost else {
        return Ok(());
    };
    text.put(b"going down the file, these race first:\n")?;
    put_numbered(text, graph, lines, race.first)?;
    put_numbered(text, graph, lines, race.second)?;
    put_shared(text, graph, lines, &race.shared, race.first, race.second)
}

/// Puts the point that two lines share, and how they use it.
fn put_shared(
    text: &mut Text,
    graph: &Graph,
    lines: &Lines,
    shared: &SharedPoint,
    first: u32,
    second: u32,
) -> Result<(), NoMemory>
    requires { shared.now.one.column < length (columns graph.now) + length (data_columns graph.now) }
    ensures { OnOk result (text.new ≡ text.old ++ shared_text graph.now lines.now shared.now first second) }
{
    text.put(b"both use column ")?;
    put_column(text, graph, shared.one.column)?;
    text.put(b" at point ")?;
    text.put_number(u64::from(shared.point))?;
    text.put(b": ")?;
    put_by_number(text, graph, lines, first)?;
    text.put(b" ")?;
    text.put(mode_word(shared.one.mode))?;
    text.put(b" it, ")?;
    put_by_number(text, graph, lines, second)?;
    text.put(b" ")?;
    text.put(mode_word(shared.other.mode))?;
    text.put(b" it\n")
}

/// How a line uses a column.
fn mode_word(mode: Mode) -> &'static [u8]
    ensures { result.now ≡ mode_word mode }
{
    match mode {
        Mode::Read => b"reads",
        Mode::Write => b"writes",
        Mode::Sum => b"adds to",
        Mode::Least => b"takes the least into",
        Mode::Most => b"takes the greatest into",
    }
}

/// Puts the name of a column, which may be one of data.
fn put_column(text: &mut Text, graph: &Graph, column: u32) -> Result<(), NoMemory>
    requires { column < length (columns graph.now) + length (data_columns graph.now) }
    ensures { OnOk result (text.new ≡ text.old ++ any_column_name graph.now column) }
{
    let (inst, field) = graph.any_column_name(column);
    text.put(inst.bytes())?;
    text.put(b".")?;
    text.put(field.bytes())
}

/// Puts the nearest line that leads to both, if there is one, with the ways from there.
fn put_meeting(
    text: &mut Text,
    graph: &Graph,
    lines: &Lines,
    meeting: &Option<Meeting>,
) -> Result<(), NoMemory>
    requires { IfSome meeting.now (NamesMeeting graph.now) }
    ensures { OnOk result (text.new ≡ text.old ++ meeting_text graph.now lines.now meeting.now) }
{
    let Some(meeting) = meeting else {
        return text.put(b"no line leads to both\n");
    };
    text.put(b"the nearest line that leads to both:\n")?;
    put_numbered(text, graph, lines, meeting.line)?;
    text.put(b"to the first:\n")?;
    put_edges(text, graph, lines, meeting.to_first.as_slice())?;
    text.put(b"to the second:\n")?;
    put_edges(text, graph, lines, meeting.to_second.as_slice())
}

/// Puts what orders two lines, or that no form does which was tried.
fn put_advice(
    text: &mut Text,
    graph: &Graph,
    lines: &Lines,
    advice: Option<Form>,
) -> Result<(), NoMemory>
    ensures { OnOk result (text.new ≡ text.old ++ advice_text graph.now lines.now advice) }
{
    match advice {
        Some(form) => put_form(text, graph, lines, form),
        None => text.put(b"no wait that was tried orders them and breaks no rule\n"),
    }
}

/// Puts a form in words.
fn put_form(text: &mut Text, graph: &Graph, lines: &Lines, form: Form) -> Result<(), NoMemory>
    ensures { OnOk result (text.new ≡ text.old ++ form_text graph.now lines.now form) }
{
    match form {
        Form::OnLine { line, event } => put_order(text, graph, lines, event, line),
        Form::Between {
            before,
            line,
            after,
        } => put_between(text, graph, lines, before, line, after),
    }
}

/// Puts that a line comes between two others.
fn put_between(
    text: &mut Text,
    graph: &Graph,
    lines: &Lines,
    before: u32,
    line: u32,
    after: u32,
) -> Result<(), NoMemory>
    ensures { OnOk result (text.new ≡ text.old ++ (order_text graph.now lines.now before line ++ (codes "and put " ++ wait_text graph.now lines.now line after))) }
{
    put_order(text, graph, lines, before, line)?;
    text.put(b"and put ")?;
    put_wait(text, graph, lines, line, after)
}

/// Puts on which event a line may be put.
fn put_order(
    text: &mut Text,
    graph: &Graph,
    lines: &Lines,
    event: u32,
    line: u32,
) -> Result<(), NoMemory>
    ensures { OnOk result (text.new ≡ text.old ++ order_text graph.now lines.now event line) }
{
    text.put(b"to order them, put ")?;
    put_wait(text, graph, lines, event, line)
}

/// Puts a line, and on what it is to be.
fn put_wait(
    text: &mut Text,
    graph: &Graph,
    lines: &Lines,
    event: u32,
    line: u32,
) -> Result<(), NoMemory>
    ensures { OnOk result (text.new ≡ text.old ++ wait_text graph.now lines.now event line) }
{
    put_by_number(text, graph, lines, line)?;
    text.put(b" ")?;
    put_advice_by(text, graph, on_of(graph, line), event)
}

/// Puts on what a line is to be, which is on other lines or on none.
fn put_advice_by(text: &mut Text, graph: &Graph, on: &[u32], first: u32) -> Result<(), NoMemory>
    ensures { OnOk result (text.new ≡ text.old ++ advice_by graph.now on.now first) }
{
    if on.is_empty() {
        return put_on_line(text, graph, first, b"\n");
    }
    if graph.format().has_since(Format::Three) {
        return put_on_line(text, graph, first, b" too\n");
    }
    put_on_merge(text, graph, on[0], first)
}

/// Puts that a line is to be on another.
fn put_on_line(text: &mut Text, graph: &Graph, line: u32, behind: &[u8]) -> Result<(), NoMemory>
    ensures { OnOk result (text.new ≡ text.old ++ on_line graph.now line behind.now) }
{
    text.put(b"on ")?;
    put_name(text, graph, line)?;
    text.put(behind)
}

/// Puts that a line is to be on a merge of two.
fn put_on_merge(text: &mut Text, graph: &Graph, one: u32, other: u32) -> Result<(), NoMemory>
    ensures { OnOk result (text.new ≡ text.old ++ on_merge graph.now one other) }
{
    text.put(b"on a merge of ")?;
    put_name(text, graph, one)?;
    text.put(b" and ")?;
    put_name(text, graph, other)?;
    text.put(b"\n")
}

/// Puts how the sections of two lines stand to each other; of lines that reduce in one way also what would
/// set them apart, unless they need an order besides.
fn put_sections(
    text: &mut Text,
    graph: &Graph,
    lines: &Lines,
    reason: &ConflictReason,
) -> Result<(), NoMemory>
    requires first { reason.now.first < length graph.now.lines }
    requires second { reason.now.second < length graph.now.lines }
    ensures { OnOk result (text.new ≡ text.old ++ sections_text graph.now lines.now reason.now) }
{
    if !reason.commutes {
        return put_ordered(text, graph, lines, reason);
    }
    if lines_need_order(graph, reason.first, reason.second) {
        return put_besides(text, graph, lines, reason);
    }
    put_apart(
        text,
        graph,
        lines,
        &reason.sections,
        reason.first,
        reason.second,
    )
}

/// Puts how the sections of two lines stand to each other that need an order, and that they need one.
fn put_besides(
    text: &mut Text,
    graph: &Graph,
    lines: &Lines,
    reason: &ConflictReason,
) -> Result<(), NoMemory>
    ensures { OnOk result (text.new ≡ text.old ++ besides_text graph.now lines.now reason.now) }
{
    text.put(
        b"sections would not set them apart: they also use a column in a way of which the order counts\n",
    )?;
    put_ordered(text, graph, lines, reason)
}

/// The same without that.
fn put_ordered(
    text: &mut Text,
    graph: &Graph,
    lines: &Lines,
    reason: &ConflictReason,
) -> Result<(), NoMemory>
    ensures { OnOk result (text.new ≡ text.old ++ ordered_text graph.now lines.now reason.now) }
{
    put_named(text, graph, lines, reason)?;
    put_turns(text, graph, lines, &reason.sections)
}

/// Puts the sections in which two lines lie, where nothing orders them that was tried.
fn put_named(
    text: &mut Text,
    graph: &Graph,
    lines: &Lines,
    reason: &ConflictReason,
) -> Result<(), NoMemory>
    ensures { OnOk result (text.new ≡ text.old ++ named_text graph.now lines.now reason.now.advice reason.now.sections reason.now.first reason.now.second) }
{
    if reason.advice.is_some() {
        return Ok(());
    }
    let sections = &reason.sections;
    put_in_sections(text, graph, lines, reason.first, sections.first.as_slice())?;
    put_in_sections(
        text,
        graph,
        lines,
        reason.second,
        sections.second.as_slice(),
    )
}

/// Puts, of two lines of which the order counts, how their sections stand to each other that are of one
/// reservation.
fn put_turns(
    text: &mut Text,
    graph: &Graph,
    lines: &Lines,
    sections: &Sections,
) -> Result<(), NoMemory>
    ensures { OnOk result (text.new ≡ text.old ++ turns_text graph.now lines.now sections.now) }
{
    put_pairs(
        text,
        graph,
        lines,
        first_few(sections.first.as_slice()),
        first_few(sections.second.as_slice()),
    )
}

fn put_apart(
    text: &mut Text,
    graph: &Graph,
    lines: &Lines,
    sections: &Sections,
    first: u32,
    second: u32,
) -> Result<(), NoMemory>
    ensures { OnOk result (text.new ≡ text.old ++ apart_text graph.now lines.now sections.now first second) }
{
    text.put(
        b"sections of one reservation would set them apart, by an acquire for each, not both shared\n",
    )?;
    put_in_sections(text, graph, lines, first, sections.first.as_slice())?;
    put_in_sections(text, graph, lines, second, sections.second.as_slice())?;
    put_pairs(
        text,
        graph,
        lines,
        first_few(sections.first.as_slice()),
        first_few(sections.second.as_slice()),
    )?;
    put_unless(
        text,
        have_pair(graph, sections.first.as_slice(), sections.second.as_slice()),
    )
}

/// Puts that no two acquires are of one reservation, unless there are some.
fn put_unless(text: &mut Text, some: bool) -> Result<(), NoMemory>
    ensures { OnOk result (text.new ≡ text.old ++ none_text some) }
{
    if some {
        return Ok(());
    }
    text.put(b"no two sections of theirs are of one reservation\n")
}

/// Whether an acquire of one list is of the same reservation as one of another: some reservation is
/// acquired in both, so that each list is gone through once for each of the few reservations.
fn have_pair(graph: &Graph, acquires: &[u32], others: &[u32]) -> bool
    ensures { result ≡ have_pair graph.now acquires.now others.now }
{
    let _ = graph.lines();
    for lock in 0..graph.locks() {
        if are_both(graph, acquires, others, lock) {
            return true;
        }
    }
    false
}

/// Whether one of each list acquires the reservation.
fn are_both(graph: &Graph, acquires: &[u32], others: &[u32], lock: u32) -> bool
    ensures { result ≡ (list_any (takes graph.now lock) acquires.now && list_any (takes graph.now lock) others.now) }
{
    has_taken(graph, acquires, lock) && has_taken(graph, others, lock)
}

/// Whether one of some acquires is of the reservation.
fn has_taken(graph: &Graph, acquires: &[u32], lock: u32) -> bool
    ensures { result ≡ list_any (takes graph.now lock) acquires.now }
{
    acquires.iter().any(|acquire| takes(graph, lock, *acquire))
}

fn takes(graph: &Graph, lock: u32, acquire: u32) -> bool
    ensures { result ≡ takes graph.now lock acquire }
{
    are_equal(lock_of(graph, acquire), Some(lock))
}

/// Whether two acquires are of one reservation.
fn of_one_lock(graph: &Graph, one: u32, other: u32) -> bool
    ensures { result ≡ of_one_lock graph.now one other }
{
    are_equal(lock_of(graph, one), lock_of(graph, other))
}

/// Puts of each acquire of one list with each of another why they set nothing apart.
fn put_pairs(
    text: &mut Text,
    graph: &Graph,
    lines: &Lines,
    acquires: &[u32],
    others: &[u32],
) -> Result<(), NoMemory>
    ensures { OnOk result (text.new ≡ text.old ++ pairs_text graph.now lines.now acquires.now others.now) }
{
    for acquire in acquires {
        put_pairs_with(text, graph, lines, others, *acquire)?;
    }
    Ok(())
}

fn put_pairs_with(
    text: &mut Text,
    graph: &Graph,
    lines: &Lines,
    others: &[u32],
    acquire: u32,
) -> Result<(), NoMemory>
    ensures { OnOk result (text.new ≡ text.old ++ pairs_with graph.now lines.now others.now acquire) }
{
    for other in others {
        put_pair(text, graph, lines, acquire, *other)?;
    }
    Ok(())
}

/// Puts of two acquires, where they are of one reservation, why they set nothing apart, or do not order.
fn put_pair(
    text: &mut Text,
    graph: &Graph,
    lines: &Lines,
    one: u32,
    other: u32,
) -> Result<(), NoMemory>
    ensures { OnOk result (text.new ≡ text.old ++ pair_text graph.now lines.now one other) }
{
    if !of_one_lock(graph, one, other) {
        return Ok(());
    }
    if one == other {
        return put_same(text, graph, lines, one);
    }
    if both_shared(graph, one, other) {
        return put_shares(text, graph, lines, one, other);
    }
    put_turn(text, graph, lines, one, other)
}

/// Puts that one reservation keeps two sections apart, and orders nothing.
fn put_turn(
    text: &mut Text,
    graph: &Graph,
    lines: &Lines,
    one: u32,
    other: u32,
) -> Result<(), NoMemory>
    ensures { OnOk result (text.new ≡ text.old ++ turn_text graph.now lines.now one other) }
{
    put_by_number(text, graph, lines, one)?;
    text.put(b" and ")?;
    put_by_number(text, graph, lines, other)?;
    text.put(b" acquire one reservation: it keeps their sections apart, and does not order them\n")
}

fn put_same(text: &mut Text, graph: &Graph, lines: &Lines, acquire: u32) -> Result<(), NoMemory>
    ensures { OnOk result (text.new ≡ text.old ++ (codes "both lie in one section, that of " ++ (by_number graph.now lines.now acquire ++ codes "\n"))) }
{
    text.put(b"both lie in one section, that of ")?;
    put_by_number(text, graph, lines, acquire)?;
    text.put(b"\n")
}

fn put_shares(
    text: &mut Text,
    graph: &Graph,
    lines: &Lines,
    one: u32,
    other: u32,
) -> Result<(), NoMemory>
    ensures { OnOk result (text.new ≡ text.old ++ (by_number graph.now lines.now one ++ (codes " and " ++ (by_number graph.now lines.now other ++ codes " share one reservation\n")))) }
{
    put_by_number(text, graph, lines, one)?;
    text.put(b" and ")?;
    put_by_number(text, graph, lines, other)?;
    text.put(b" share one reservation\n")
}

/// Whether both are there, and are the same.
fn are_equal(one: Option<u32>, other: Option<u32>) -> bool
    ensures { result ≡ are_equal one other }
{
    match (one, other) {
        (Some(one), Some(other)) => one == other,
        _ => false,
    }
}

/// Whether two lines are acquires that are shared.
fn both_shared(graph: &Graph, one: u32, other: u32) -> bool
    ensures { result ≡ both_shared graph.now one other }
{
    is_shared(graph, one) && is_shared(graph, other)
}

/// The same of one line, which need not be one of the graph.
fn is_shared(graph: &Graph, line: u32) -> bool
    ensures { result ≡ line_passes is_shared graph.now line }
{
    line < graph.lines() && graph.is_shared(line)
}

/// Puts the acquires in whose sections a line lies.
fn put_in_sections(
    text: &mut Text,
    graph: &Graph,
    lines: &Lines,
    line: u32,
    acquires: &[u32],
) -> Result<(), NoMemory>
    ensures { OnOk result (text.new ≡ text.old ++ in_sections graph.now lines.now line acquires.now) }
{
    put_by_number(text, graph, lines, line)?;
    if acquires.is_empty() {
        return text.put(b" lies in no section\n");
    }
    text.put(b" lies in the section of\n")?;
    put_few_lines(text, graph, lines, acquires)
}

/// Puts the first of some acquires, and how many more there are.
fn put_few_lines(
    text: &mut Text,
    graph: &Graph,
    lines: &Lines,
    acquires: &[u32],
) -> Result<(), NoMemory>
    ensures { OnOk result (text.new ≡ text.old ++ few_lines_text graph.now lines.now acquires.now) }
{
    put_lines(text, graph, lines, first_told(lines, acquires))?;
    text.put_more(acquires.len().saturating_sub(most_told(lines, acquires)))
}

/// The acquires of a list that are told.
fn first_told<'a>(lines: &Lines, acquires: &'a [u32]) -> &'a [u32]
    ensures { result.now ≡ told_few lines.now acquires.now }
{
    let most = most_told(lines, acquires);
    if acquires.len() > most {
        &acquires[..most]
    } else {
        acquires
    }
}

/// The acquires of a list of which pairs are told.
fn first_few(acquires: &[u32]) -> &[u32]
    ensures { result.now ≡ take MAX_SECTIONS acquires.now }
{
    if acquires.len() > MAX_SECTIONS {
        &acquires[..MAX_SECTIONS]
    } else {
        acquires
    }
}

/// How many acquires are told at most.
fn most_told(lines: &Lines, acquires: &[u32]) -> usize
    ensures { result ≡ most_told lines.now acquires.now }
{
    if lines.all() {
        acquires.len()
    } else {
        MAX_SECTIONS
    }
}
