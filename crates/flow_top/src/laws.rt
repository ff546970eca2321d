//! A law of answers. The function only states it.

ghost use Rattle.flow_top.specs.Laws.{AnswersAreRead};

use graph_reader::laws::bytes_have_one_reading;

/// A flow's text has one flow, the text that answers it is that of a graph, and whatever graph is read from it, as `realm`
/// reads one, is accepted and means that flow. So what is written of a run of it is what the lines of the flow do one after the other.
pub fn answers_are_read()
    ensures { AnswersAreRead }
{
    bytes_have_one_reading();
}
