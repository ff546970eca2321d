//! The tests of lines that look at no graph.

ghost use Rattle.std.specs.Prelude.{◌≡◌, length, map, nat_eq, nat_le};
ghost use Rattle.std.specs.List.{list_any};
ghost use Rattle.graph_terms.specs.declared.verb.Access.{Access};
ghost use Rattle.graph_terms.specs.Access.{present, columns_alike};
ghost use Rattle.graph_terms.specs.Graph.{is_call};
ghost use Rattle.graph_terms.specs.Fits.{repeats, most_weight, named_lines, takes_no_on, on_unlike, format_lacks, verb_misnumbered, merged_events, names_many};

use graph_terms::access::Accesses;
use graph_terms::format::Format;
use graph_terms::limits::{Limits, MAX_CALL_VALUES};
use graph_terms::verb::{Access, Line, Verb};

/// Whether two accesses are of one column.
pub fn columns_repeat(accesses: &Accesses) -> bool
    ensures { result ≡ repeats nat_eq (map (λ (a : Access). a.column) (present accesses.now)) }
{
    are_alike(accesses[0], accesses[1])
        || are_alike(accesses[0], accesses[2])
        || are_alike(accesses[1], accesses[2])
}

fn are_alike(one: Option<Access>, other: Option<Access>) -> bool
    ensures { result ≡ columns_alike one other }
{
    match (one, other) {
        (Some(one), Some(other)) => one.column == other.column,
        _ => false,
    }
}

/// Whether a line that it names has this number or a greater one.
pub fn names_past(verb: &Verb, lines: u32) -> bool
    ensures { result ≡ list_any (λ i. nat_le lines i) (named_lines verb.now) }
{
    match verb {
        Verb::Trigger { user } => *user >= lines,
        Verb::Cancel { user } => *user >= lines,
        Verb::Merge { events } => any_past(events.items.as_slice(), lines),
        Verb::MergeIgnore { events } => any_past(events.items.as_slice(), lines),
        Verb::Arrive { phase, .. } => *phase >= lines,
        Verb::Release { acquire } => *acquire >= lines,
        _ => false,
    }
}

/// Whether one of these lines has this number or a greater one.
pub fn any_past(events: &[u32], lines: u32) -> bool
    ensures { result ≡ list_any (λ i. nat_le lines i) events.now }
{
    events.iter().any(|event| *event >= lines)
}

/// Whether no events may stand behind `on`. Of the verbs without a kind, merges take none.
fn takes_no_on(verb: &Verb) -> bool
    ensures { result ≡ takes_no_on verb.now }
{
    match verb.kind() {
        Some(kind) => !kind.takes_on(),
        None => !is_call(verb),
    }
}

fn is_call(verb: &Verb) -> bool
    ensures { result ≡ is_call verb.now }
{
    matches!(verb, Verb::Call { .. })
}

/// Whether events stand behind `on` of a verb that takes none, or several where the format takes
/// one at most.
pub fn on_unlike(format: Format, line: &Line) -> bool
    ensures { result ≡ on_unlike format line.now.verb line.now.on }
{
    let events = line.on.len();
    events > 0 && takes_no_on(&line.verb) || events > 1 && !format.has_since(Format::Three)
}

/// Whether a verb is one that the format has not.
pub fn format_lacks(format: Format, verb: &Verb) -> bool
    ensures { result ≡ format_lacks format verb.now }
{
    match verb {
        Verb::Acquire { shared, .. } => *shared && !format.has_since(Format::Two),
        Verb::Call { .. } => !format.has_since(Format::Three),
        _ => false,
    }
}

/// The most that one arrival may count for.
fn most_weight(format: Format) -> u32
    ensures { result ≡ most_weight format }
{
    match format {
        Format::One => 1,
        _ => Limits::of(format).count,
    }
}

/// Whether a merge names no event, an arrival has a weight that the format has not, or a call too
/// many values.
pub fn verb_misnumbered(format: Format, verb: &Verb) -> bool
    ensures { result ≡ verb_misnumbered format verb.now }
{
    match verb {
        Verb::Merge { events } => events.len() < 1,
        Verb::MergeIgnore { events } => events.len() < 1,
        Verb::Arrive { weight, .. } => *weight < 1 || *weight > most_weight(format),
        Verb::Call { call } => call.values().len() > MAX_CALL_VALUES,
        _ => false,
    }
}

/// How many events a merge names. 0 for any other verb.
fn merged_events(verb: &Verb) -> u32
    ensures { result ≡ length (merged_events verb.now) }
{
    match verb {
        Verb::Merge { events } => events.len(),
        Verb::MergeIgnore { events } => events.len(),
        _ => 0,
    }
}

/// Whether a merge names too many events, or too many stand behind `on`.
pub fn names_many(format: Format, line: &Line) -> bool
    ensures { result ≡ names_many format line.now.verb line.now.on }
{
    let most = Limits::of(format).events;
    merged_events(&line.verb) > most || line.on.len() > most
}
