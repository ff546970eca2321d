//! The answer to the bytes of an input.

ghost use Rattle.std.specs.List.{list_all};
ghost use Rattle.std.specs.Prelude.{◌≡◌, ◌≢◌, ◌++◌, ◌≤◌, nat_lt, Bool, true, length, IsTrue, option_map, Contains, None, IfOk, IfSome, OnOk, MatchOption};
ghost use Rattle.basics.specs.Words.{contents};
ghost use Rattle.refused_words.specs.Ends.{IsEndedBy};
ghost use Rattle.refused_words.specs.Refused.{IsRefusedWord};
ghost use Rattle.refused_words.specs.Limits.{quantity_value};
ghost use Rattle.explain_text.specs.Front.{behind};
ghost use Rattle.told_names.specs.Named.{IsInside, names_text, space_text};
ghost use Rattle.told_names.specs.declared.naming.NamedWord.{NamedWord};
ghost use Rattle.explain_text.specs.Visible.{is_plain, visible};
ghost use Rattle.explain_top.specs.Answer.{IsAnswer, IsAnswerIn, IsWholeAnswer, speaks_of_none, asked, most_bytes, most_names, told, IsUnfitText, IsUnreadText, first_text, advice_text, AreNamed, TellsSpace, limit_for};
ghost use Rattle.explain_top.specs.Missing.{IsReached, IsTextOn, MarksBy, TellsBy};
ghost use Rattle.graph_meaning.specs.Rules.{Accepted};
ghost use Rattle.graph_reader.specs.Reading.{IsUnreadBy};
ghost use Rattle.graph_words.specs.Text.{GraphText};
ghost use Rattle.race_check.specs.Refusal.{IsRefusal, NamesLines};

use crate::accepted::put_accepted;
use crate::columns::put_columns;
use crate::missing::missing_lines;
use checked_graph::Checked;
use explain_graph::explain;
use explain_text::bounds::{MAX_ANSWER, MAX_NAMES, MAX_WHOLE};
use explain_text::visible::visible_front;
use explain_text::{
    Lines, Text, line_at, put_ended, put_limit, put_mark, put_refused, put_unread, split_front,
};
use graph_model::graph::Graph;
use graph_reader::{Reading, Unread, read_text};
use graph_terms::format::Format;
use graph_terms::why::Why;
use index_spaces::NoMemory;
use line_forms::line_advice;
use line_forms::splitting::split_long;
use race_check::check;
use race_check::checked::{CheckRefusal, Unfit};
use refusal_text::put_explanation;
use refused_words::{Quantity, ended_by, passed_limit, refused_word};
use std::alloc::Global;
use told_names::{
    NamedWord, NamedWords, given_names, named_space, named_words, put_named_words, put_space,
};
use word_forms::word_advice;

/// What becomes of an input.
#[derive(Clone, Copy, Debug, PartialEq, Eq)]
pub enum Verdict {
    /// It is the text of a graph that is accepted.
    Accepted,
    /// It is the text of a graph that breaks a rule.
    Unfit,
    /// It is the text of no graph.
    Unread,
}

/// What becomes of an input, and the text that says why.
#[derive(Drop)]
pub struct Answer {
    pub verdict: Verdict,
    pub text: Text,
}

/// Reads and checks a graph as `realm check` does, and says why it is refused or what it needs, and why
/// lines wait; where the ends of lines are asked for, also why lines are cancelled.
pub fn explain_bytes(alloc: Global, bytes: &[u8], ends: bool) -> Result<Answer, NoMemory>
    ensures { IfOk result (λ a. IsAnswer ends bytes.now a.verdict a.text) }
{
    explain_in(alloc, bytes, ends, false)
}

/// The same, where all is asked for with long paths and lists whole, in at most 16,777,216 bytes.
pub fn explain_in(alloc: Global, bytes: &[u8], ends: bool, all: bool) -> Result<Answer, NoMemory>
    ensures { IfOk result (λ a. IsAnswerIn ends all bytes.now a.verdict a.text) }
{
    let whole = answer_bytes(alloc, bytes, ends, all)?;
    as_told(alloc, &whole, most_bytes(all))
}

/// How many bytes an answer has at most.
pub(crate) fn most_bytes(all: bool) -> usize
    ensures number { result ≡ most_bytes all }
    ensures some { 4 ≤ result }
{
    if all { MAX_WHOLE } else { MAX_ANSWER }
}

/// An answer as it is told.
pub(crate) fn as_told(alloc: Global, whole: &Answer, most: usize) -> Result<Answer, NoMemory>
    requires { 4 ≤ most }
    ensures verdict { IfOk result (λ a. a.verdict ≡ whole.now.verdict) }
    ensures text { IfOk result (λ a. a.text ≡ told most (visible whole.now.text)) }
    ensures few { IfOk result (λ a. length a.text ≤ most) }
    ensures plain { IfOk result (λ a. list_all is_plain a.text ≡ true) }
{
    let front = visible_front(alloc, whole.text.bytes(), most)?;
    let mut text = Text::of(front);
    shorten(&mut text, most)?;
    Ok(Answer {
        verdict: whole.verdict,
        text,
    })
}

/// Keeps the front of a long text, with a line `..` behind it.
fn shorten(text: &mut Text, most: usize) -> Result<(), NoMemory>
    requires { 4 ≤ most }
    ensures text { OnOk result (text.new ≡ told most text.old) }
    ensures few { OnOk result (length text.new ≤ most) }
{
    if text.len() <= most {
        return Ok(());
    }
    text.keep(most - 4);
    text.put(b"\n..\n")
}

/// The answer to bytes. Those that are the text of no graph are split up to the refused line, and further
/// where its names ask for it.
fn answer_bytes(alloc: Global, bytes: &[u8], ends: bool, all: bool) -> Result<Answer, NoMemory>
    ensures { IfOk result (λ a. IsWholeAnswer ends all bytes.now a.verdict a.text) }
{
    match read_text(alloc, bytes)? {
        Reading::Graph(graph) => answer_text(alloc, graph, bytes, ends, all),
        Reading::Refused(unread) => answer_unread(alloc, &unread, bytes, all),
    }
}

/// The answer to bytes that are the text of the graph.
fn answer_text(
    alloc: Global,
    graph: Graph,
    bytes: &[u8],
    ends: bool,
    all: bool,
) -> Result<Answer, NoMemory>
    requires { GraphText bytes.now graph }
    ensures { IfOk result (λ a. IsWholeAnswer ends all bytes.now a.verdict a.text) }
{
    let lines = Lines::of(alloc, bytes, all)?;
    answer_graph(alloc, graph, bytes, &lines, ends, all)
}

/// The answer to bytes of these lines that are the text of the graph.
fn answer_graph(
    alloc: Global,
    graph: Graph,
    bytes: &[u8],
    lines: &Lines,
    ends: bool,
    all: bool,
) -> Result<Answer, NoMemory>
    requires text { GraphText bytes.now graph }
    requires lines { lines.now ≡ asked all bytes.now }
    ensures { IfOk result (λ a. IsWholeAnswer ends all bytes.now a.verdict a.text) }
{
    match check(alloc, graph) {
        Ok(checked) => answer_accepted(alloc, &checked, bytes, lines, ends, all),
        Err(unfit) => answer_unfit(alloc, &unfit, bytes, lines, all),
    }
}

/// The answer to bytes of these lines that are the text of an accepted graph.
fn answer_accepted(
    alloc: Global,
    checked: &Checked,
    bytes: &[u8],
    lines: &Lines,
    ends: bool,
    all: bool,
) -> Result<Answer, NoMemory>
    requires text { GraphText bytes.now checked.now.graph }
    requires lines { lines.now ≡ asked all bytes.now }
    ensures { IfOk result (λ a. IsWholeAnswer ends all bytes.now a.verdict a.text) }
{
    let _bytes = bytes;
    let _all = all;
    let _ = checked.graph();
    let _ = checked.need();
    let text = put_accepted(alloc, checked, lines, ends)?;
    Ok(Answer {
        verdict: Verdict::Accepted,
        text,
    })
}

/// The answer to bytes of these lines that are the text of a refused graph.
fn answer_unfit(
    alloc: Global,
    unfit: &Unfit,
    bytes: &[u8],
    lines: &Lines,
    all: bool,
) -> Result<Answer, NoMemory>
    requires text { GraphText bytes.now unfit.now.graph }
    requires lines { lines.now ≡ asked all bytes.now }
    requires refused { IsRefusal unfit.now.graph unfit.now.why × NamesLines unfit.now.graph unfit.now.why }
    requires broken { Accepted unfit.now.graph → unfit.now.why ≡ CheckRefusal.NoMemory }
    ensures { IfOk result (λ a. (ends : Bool) → IsWholeAnswer ends all bytes.now a.verdict a.text) }
{
    let _bytes = bytes;
    let _all = all;
    let text = put_unfit(alloc, unfit, lines)?;
    Ok(Answer {
        verdict: Verdict::Unfit,
        text,
    })
}

/// The answer to bytes that are the text of no graph.
fn answer_unread(
    alloc: Global,
    unread: &Unread,
    bytes: &[u8],
    all: bool,
) -> Result<Answer, NoMemory>
    requires { IsUnreadBy bytes.now unread.now.number unread.now.why unread.now.above }
    ensures { IfOk result (λ a. (ends : Bool) → IsWholeAnswer ends all bytes.now a.verdict a.text) }
{
    let _bytes = bytes;
    let _all = all;
    let text = unread_text(alloc, bytes, unread, all)?;
    Ok(Answer {
        verdict: Verdict::Unread,
        text,
    })
}

/// The text on a graph that is refused.
fn put_unfit(alloc: Global, unfit: &Unfit, lines: &Lines) -> Result<Text, NoMemory>
    requires lines { NamesLines unfit.now.graph unfit.now.why }
    requires refused { IsRefusal unfit.now.graph unfit.now.why }
    ensures text { IfOk result (λ t. IsUnfitText unfit.now.graph unfit.now.why lines.now t) }
    ensures a_rule { OnOk result (unfit.now.why ≢ CheckRefusal.NoMemory) }
{
    if unfit.why == CheckRefusal::NoMemory {
        return Err(NoMemory);
    }
    let explanation = explain(alloc, &unfit.graph, unfit.why)?;
    let mut text = Text::new(alloc);
    put_explanation(&mut text, &unfit.graph, lines, &explanation)?;
    Ok(text)
}

/// The text on bytes that are no graph's, by the lines up to the refused one where these tell it, else by as many more as
/// its names ask for, else by all.
pub(crate) fn unread_text(
    alloc: Global,
    bytes: &[u8],
    unread: &Unread,
    all: bool,
) -> Result<Text, NoMemory>
    ensures { IfOk result (IsUnreadText (asked all bytes.now) unread.now.number unread.now.why unread.now.above) }
{
    let few = front_text(alloc, bytes, unread, all, unread.number as usize)?;
    if few.missing == 0 {
        return Ok(few.text);
    }
    let count = few.missing.saturating_add(unread.number as usize);
    let more = front_text(alloc, bytes, unread, all, count)?;
    if more.missing == 0 {
        return Ok(more.text);
    }
    whole_text(alloc, bytes, unread, all)
}

/// A text that is told by some lines, and how many more lines its names ask for, as far as that is known.
#[derive(Drop)]
pub(crate) struct FrontText {
    pub(crate) text: Text,
    pub(crate) missing: usize,
}

/// The text by the first lines.
fn front_text(
    alloc: Global,
    bytes: &[u8],
    unread: &Unread,
    all: bool,
    count: usize,
) -> Result<FrontText, NoMemory>
    ensures { IfOk result (λ t. t.missing ≡ 0 → IsTextOn (asked all bytes.now) unread.now t.text) }
{
    let front = split_front(alloc, bytes, count)?;
    let rest = front.rest;
    if !is_reached(front.lines.as_slice(), rest, unread.number) {
        return Ok(FrontText {
            text: Text::new(alloc),
            missing: usize::MAX,
        });
    }
    let lines = Lines::of_front(alloc, bytes, front.lines, all)?;
    put_unread_text(alloc, &lines, rest, unread)
}

/// Whether the line of a number is among some lines, or no others follow.
fn is_reached(lines: &[&[u8]], rest: Option<&[u8]>, number: u32) -> bool
    ensures { IsTrue result → IsReached (contents lines.now) (behind rest.entry) number }
{
    match rest {
        None => true,
        Some(_) => (number.saturating_sub(1) as usize) < lines.len(),
    }
}

/// The text by all lines.
fn whole_text(alloc: Global, bytes: &[u8], unread: &Unread, all: bool) -> Result<Text, NoMemory>
    ensures { IfOk result (IsUnreadText (asked all bytes.now) unread.now.number unread.now.why unread.now.above) }
{
    let lines = Lines::of(alloc, bytes, all)?;
    let told = put_unread_text(alloc, &lines, None, unread)?;
    Ok(told.text)
}

/// The text on bytes of these lines and those of the rest.
fn put_unread_text(
    alloc: Global,
    lines: &Lines,
    rest: Option<&[u8]>,
    unread: &Unread,
) -> Result<FrontText, NoMemory>
    requires { IsReached lines.now.lines (behind rest) unread.now.number }
    ensures { IfOk result (λ t. TellsBy lines.now rest.entry unread.now t.missing t.text) }
{
    let mut text = Text::new(alloc);
    put_unread(&mut text, lines.pieces(), unread.number, unread.why)?;
    match &unread.above {
        Some(graph) => {
            let missing = put_behind(
                alloc,
                &mut text,
                graph,
                lines,
                rest,
                unread.number,
                unread.why,
            )?;
            Ok(FrontText { text, missing })
        }
        None => {
            put_first(alloc, &mut text, lines.pieces(), unread.number, unread.why)?;
            Ok(FrontText { text, missing: 0 })
        }
    }
}

/// Puts, of a line above which no graph is, that the whole line is refused, and what its form tells.
fn put_first(
    alloc: Global,
    text: &mut Text,
    lines: &[&[u8]],
    number: u32,
    why: Why,
) -> Result<(), NoMemory>
    ensures { OnOk result (text.new ≡ text.old ++ first_text (contents lines.now) number why) }
{
    put_mark(text, number, &[], &[], None)?;
    let line = line_at(lines, number);
    let words = split_long(alloc, line, b' ')?;
    let advice = line_advice(alloc, Format::One, false, why, line, words.as_slice())?;
    text.put(advice.as_slice())
}

/// Puts what the form of a line of these words tells that is refused behind a graph, and what kind of word the refused one
/// has to be.
fn put_advice(
    alloc: Global,
    text: &mut Text,
    graph: &Graph,
    why: Why,
    line: &[u8],
    words: &[&[u8]],
    mark: Option<usize>,
) -> Result<(), NoMemory>
    ensures { OnOk result (text.new ≡ text.old ++ advice_text graph.now why line.now (contents words.now) mark) }
{
    let below = is_below(graph);
    let advice = line_advice(alloc, graph.format(), below, why, line, words)?;
    text.put(advice.as_slice())?;
    let told = word_advice(alloc, graph.format(), why, line, words, mark)?;
    text.put(told.as_slice())
}

/// Whether an operation stands above the line behind a graph.
fn is_below(graph: &Graph) -> bool
    ensures { result ≡ nat_lt 0 (length graph.now.lines) }
{
    graph.lines() > 0
}

/// Puts, of a line that is refused behind a graph, which word is, and what that word clashes with. Gives how many more lines
/// the names ask for.
fn put_behind(
    alloc: Global,
    text: &mut Text,
    graph: &Graph,
    lines: &Lines,
    rest: Option<&[u8]>,
    number: u32,
    why: Why,
) -> Result<usize, NoMemory>
    requires { IsReached lines.now.lines (behind rest) number }
    ensures { IfOk result (MarksBy lines.now rest.entry number why graph.now text.old text.new) }
{
    put_clashes(alloc, text, graph, lines, lines.pieces(), rest, number, why)
}

/// The same by the pieces that the lines are.
fn put_clashes(
    alloc: Global,
    text: &mut Text,
    graph: &Graph,
    lines: &Lines,
    pieces: &[&[u8]],
    rest: Option<&[u8]>,
    number: u32,
    why: Why,
) -> Result<usize, NoMemory>
    requires pieces { contents pieces.now ≡ lines.now.lines }
    requires reached { IsReached lines.now.lines (behind rest) number }
    ensures { IfOk result (MarksBy lines.now rest.entry number why graph.now text.old text.new) }
{
    let line = line_at(pieces, number);
    let words = split_long(alloc, line, b' ')?;
    let mark = mark_for(alloc, graph, words.as_slice(), why)?;
    let ended = ended_for(graph, words.as_slice(), mark);
    let names = given_names(alloc, pieces)?;
    let named = named_for(
        alloc,
        graph.format(),
        names.as_slice(),
        number,
        words.as_slice(),
        why,
        most_names(lines, words.as_slice()),
    )?;
    let space = space_for(
        graph.format(),
        pieces,
        names.as_slice(),
        number,
        words.as_slice(),
        why,
        mark,
    );
    let passed = limit_for(alloc, graph, words.as_slice(), why)?;
    put_refused(text, why, number, line, words.as_slice(), mark)?;
    put_limit(text, passed)?;
    put_ended(text, graph, lines, ended)?;
    put_names(text, pieces, &named, &space)?;
    put_columns(alloc, text, graph, words.as_slice(), why, mark)?;
    put_advice(alloc, text, graph, why, line, words.as_slice(), mark)?;
    Ok(missing_lines(graph, lines, rest, named.told.as_slice(), &space, ended))
}

/// The word that is refused. Where the reason speaks of none, words are not looked at one by one.
fn mark_for(
    alloc: Global,
    graph: &Graph,
    words: &[&[u8]],
    why: Why,
) -> Result<Option<usize>, NoMemory>
    ensures { IfOk result (IsRefusedWord graph.now why (contents words.now)) }
{
    if speaks_of_none(why) {
        return Ok(None);
    }
    refused_word(alloc, graph, words, why)
}

/// Whether a reason refuses no single word of any line.
fn speaks_of_none(why: Why) -> bool
    ensures { result ≡ speaks_of_none why }
{
    matches!(
        why,
        Why::Header | Why::Syntax | Why::Limit | Why::Missing | Why::Rest
    )
}

/// How many of the names of words are told at most.
fn most_names(lines: &Lines, words: &[&[u8]]) -> usize
    ensures { result ≡ most_names lines.now (contents words.now) }
{
    if lines.all() { words.len() } else { MAX_NAMES }
}

/// Puts names, and then the space of a column.
fn put_names(
    text: &mut Text,
    lines: &[&[u8]],
    named: &NamedWords,
    space: &Option<NamedWord>,
) -> Result<(), NoMemory>
    requires named { (x : NamedWord) → Contains named.now.told.items x → IsInside (length lines.now) x }
    requires space { IfSome space.now (IsInside (length lines.now)) }
    ensures { OnOk result (text.new ≡ text.old ++ (names_text (contents lines.now) named.now.told.items named.now.more ++ space_text (contents lines.now) space.now)) }
{
    put_named_words(text, lines, named)?;
    put_space(text, lines, space)
}

/// The line that has done already what the refused word would do.
fn ended_for(graph: &Graph, words: &[&[u8]], mark: Option<usize>) -> Option<u32>
    ensures { MatchOption mark (result ≡ None) (λ k. IsEndedBy graph.now (contents words.now) k result) }
{
    match mark {
        Some(k) => ended_by(graph, words, k),
        None => None,
    }
}

/// The names that words of the line stand for, with the lines that give them, for a reason that speaks of
/// names, by the names that all lines give.
fn named_for<'a>(
    alloc: Global,
    format: Format,
    names: &[&[u8]],
    number: u32,
    words: &[&'a [u8]],
    why: Why,
    most: usize,
) -> Result<NamedWords<'a>, NoMemory>
    ensures named { IfOk result (λ v. AreNamed format (contents names.now) number (contents words.now) why most v.told.items v.more) }
    ensures inside { IfOk result (λ v. (x : NamedWord) → Contains v.told.items x → IsInside (length names.now) x) }
{
    match why {
        Why::Twice | Why::Unknown | Why::Kind | Why::Outside | Why::Meets | Why::Arrivals =>
            named_words(alloc, format, names, number, words, most),
        _ => Ok(NamedWords {
            told: Vec::new(alloc),
            more: 0,
        }),
    }
}

/// The space of the column that is refused, for the reason that speaks of it.
fn space_for<'a>(
    format: Format,
    lines: &[&'a [u8]],
    names: &[&[u8]],
    number: u32,
    words: &[&[u8]],
    why: Why,
    mark: Option<usize>,
) -> Option<NamedWord<'a>>
    requires { length names.now ≡ length lines.now }
    ensures space { TellsSpace format (contents lines.now) (contents names.now) number (contents words.now) why mark result }
    ensures inside { IfSome result (IsInside (length lines.now)) }
{
    match (why, mark) {
        (Why::Outside, Some(k)) => named_space(format, lines, names, number, words, k),
        _ => None,
    }
}

/// The quantity that the line brings above its bound, where that is the reason.
fn limit_for(
    alloc: Global,
    graph: &Graph,
    words: &[&[u8]],
    why: Why,
) -> Result<Option<Quantity>, NoMemory>
    ensures { IfOk result (λ o. option_map quantity_value o ≡ limit_for graph.now (contents words.now) why) }
{
    match why {
        Why::Limit => passed_limit(alloc, graph, words),
        _ => Ok(None),
    }
}
