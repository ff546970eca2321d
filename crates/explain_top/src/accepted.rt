//! The text on a graph that is accepted.

ghost use Rattle.std.specs.Prelude.{◌≡◌, map, length, IfOk, OnOk};
ghost use Rattle.basics.specs.Lists.{numbers_below};
ghost use Rattle.graph_meaning.specs.Evaluation.{eval_end};
ghost use Rattle.explain_top.specs.Answer.{IsWaitingText, IsEndsText, IsCancelledText, IsAcceptedText};

use checked_graph::Checked;
use explain_graph::longest_ways;
use explain_text::{Lines, Text, put_cancelled, put_need, put_need_line, put_waiting, put_ways};
use explanations::reaches::{cancelled_lines, waiting_lines};
use graph_model::graph::Graph;
use graph_terms::lists::EndList;
use index_spaces::NoMemory;
use plain_eval::evaluation::eval;
use race_check::need_line;
use std::alloc::Global;

/// The need and the line at which it is reached, why lines wait, and where it is asked for why lines are cancelled.
pub(crate) fn put_accepted(
    alloc: Global,
    checked: &Checked,
    lines: &Lines,
    ends: bool,
) -> Result<Text, NoMemory>
    ensures { IfOk result (IsAcceptedText ends checked.now lines.now) }
{
    let mut text = Text::new(alloc);
    let need = checked.need();
    let line = need_line(alloc, checked)?;
    put_need(&mut text, need)?;
    put_need_line(&mut text, checked.graph(), lines, need, line)?;
    put_all_waiting(alloc, &mut text, checked.graph(), lines)?;
    put_ends(alloc, &mut text, checked, lines, ends)?;
    Ok(text)
}

/// Puts why lines wait, and a whole way for each line that never comes.
fn put_all_waiting(
    alloc: Global,
    text: &mut Text,
    graph: &Graph,
    lines: &Lines,
) -> Result<(), NoMemory>
    ensures { OnOk result (IsWaitingText graph.now lines.now text.old text.new) }
{
    let reaches = waiting_lines(alloc, graph)?;
    let ways = longest_ways(alloc, reaches.as_slice())?;
    put_waiting(text, graph, lines, reaches.as_slice())?;
    put_ways(text, graph, lines, ways.as_slice())?;
    Ok(())
}

/// Puts why lines are cancelled, where it is asked for.
fn put_ends(
    alloc: Global,
    text: &mut Text,
    checked: &Checked,
    lines: &Lines,
    ends: bool,
) -> Result<(), NoMemory>
    ensures { OnOk result (IsEndsText ends checked.now.graph lines.now text.old text.new) }
{
    if !ends {
        return Ok(());
    }
    let outcome = eval(alloc, checked)?;
    put_all_cancelled(alloc, text, checked.graph(), lines, &outcome.ends)
}

/// Puts why lines are cancelled, by the ends of all, and a whole way for each line with which a fault begins.
fn put_all_cancelled(
    alloc: Global,
    text: &mut Text,
    graph: &Graph,
    lines: &Lines,
    ends: &EndList,
) -> Result<(), NoMemory>
    requires { ends.now ≡ map (eval_end graph.now) (numbers_below (length graph.now.lines)) }
    ensures { OnOk result (IsCancelledText graph.now lines.now text.old text.new) }
{
    let reaches = cancelled_lines(alloc, graph, ends)?;
    let ways = longest_ways(alloc, reaches.as_slice())?;
    put_cancelled(text, graph, lines, ends, reaches.as_slice())?;
    put_ways(text, graph, lines, ways.as_slice())?;
    Ok(())
}
