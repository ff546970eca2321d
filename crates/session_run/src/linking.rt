//! Links as lines.

ghost use Rattle.std.specs.Prelude.{◌≡◌, true, None, OnOk, IsTrue};
ghost use Rattle.graph_terms.specs.Fits.{line_fault};
ghost use Rattle.graph_terms.specs.Name.{is_name_in};
ghost use Rattle.word_meanings.specs.WordFaults.{is_line_name};
ghost use Rattle.session_text.specs.Fits.{trigger_line};
ghost use Rattle.session_run.specs.Linked.{cancel_line, with_answer};

use event_table::Answer;
use graph_model::graph::Graph;
use graph_terms::lists::EventList;
use graph_terms::verb::{Line, Verb};
use index_spaces::NoMemory;
use session_text::{Link, find_line};
use std::alloc::Global;

/// Puts the line of a link at the end, by the answer of its operation: a trigger or a cancel of its user
/// line, or nothing.
pub(crate) fn add_link(
    alloc: Global,
    graph: &mut Graph,
    link: &Link,
    answer: Answer,
) -> Result<(), NoMemory>
    requires named { IsTrue (is_name_in graph.old.format link.now.line) }
    requires user { is_line_name graph.old link.now.user ≡ true }
    requires trigger { line_fault graph.old (trigger_line graph.old link.now) ≡ None }
    requires cancel { line_fault graph.old (cancel_line graph.old link.now) ≡ None }
    ensures { OnOk result (graph.new ≡ with_answer graph.old link.now answer) }
{
    let Some(user) = find_line(graph, &link.user) else {
        unreachable!();
    };
    let verb = match answer {
        Answer::Triggered => Verb::Trigger { user },
        Answer::Poisoned => Verb::Cancel { user },
        Answer::Pending => return Ok(()),
    };
    let line = Line {
        name: link.line,
        verb,
        on: EventList::new(alloc),
    };
    line.is_well_formed();
    graph.add_line(line)
}
