//! What `realm` writes for the graph of a flow: what the lines of the flow do one after the other.
#![tactic(auto)]

ghost use Rattle.flow_runs.specs.Ran.{RunsMeanFlows};

use flow_order::laws::flow_in_each_format;
use graph_reader::laws::bytes_have_one_reading;

/// Where the bytes of a flow are answered by the text of a graph, in whatever format, and `realm run` or `realm eval` is
/// done with that text, whatever the number of workers and the schedule: the report that was written
/// says of each line of the flow that it ended as the flow means, and of each column that it has the
/// cells that the flow means. The function only states this law.
pub fn runs_mean_flows()
    ensures { RunsMeanFlows }
{
    bytes_have_one_reading();
    flow_in_each_format();
}
