//! Laws of what a request is to answer. Each function only states one.

ghost use Rattle.realm_top.specs.Laws.{AnswersAreOne, PathsTellEnds};

use graph_meaning::laws::{cancelled_where_unbroken, needs_are_one, waits_where_reached};
use graph_reader::laws::bytes_have_one_reading;
use realm_audit::reading::text_tells_traces_apart;
use session_run::laws::sessions_have_one_end;
use session_text::laws::bytes_have_one_session;

/// An answer has the status that is asked for.
pub(crate) fn answers_are_one()
    ensures { AnswersAreOne }
{
    needs_are_one();
    bytes_have_one_reading();
    text_tells_traces_apart();
    bytes_have_one_session();
    sessions_have_one_end();
}

/// In an accepted graph lines end by paths.
pub(crate) fn paths_tell_ends()
    ensures { PathsTellEnds }
{
    bytes_have_one_reading();
    waits_where_reached();
    cancelled_where_unbroken();
}
