//! What holds of all graphs, for callers to cite. No function here does anything.

ghost use Rattle.graph_meaning.specs.Laws.{PathsCompose, EdgesBetweenLines, ChangesWithinAccesses, ReadyWhereUnreached, WaitsWhereReached, WaitsWhereReachedWith, CancelledWhereUnbroken, CancelledWhereUnbrokenWith, OrderListsEnded, OrderListsEndedWith, ChangesNameEachCellOnce, VerbsKeepToAccesses, OrderIrrelevant, OrderIrrelevantWith, OneNeed, SectionsNeverOverlap, LaterFormatsKeepMeaning, UpgradeKeepsMeaning, OnIsAsAMerge};

use index_spaces::laws::points_ascend;

/// One path after another is a path.
pub fn paths_compose()
    ensures { PathsCompose }
{}

/// The edges of a graph are between its lines.
pub fn edges_between_lines()
    ensures { EdgesBetweenLines }
{}

/// In a graph without a cycle a line that is neither ended nor reached by one that never comes is
/// ready, or has a path from one that is ready.
pub fn ready_where_unreached()
    ensures { ReadyWhereUnreached }
{}

/// In a graph without a cycle the evaluation leaves a line waiting exactly where one that never
/// comes reaches it.
pub fn waits_where_reached()
    ensures { WaitsWhereReached }
{}

/// In a graph without a cycle an evaluation leaves a line waiting exactly where one that never comes
/// reaches it, whatever the lines do to the cells and whatever these are first.
pub fn waits_where_reached_for_all_effects()
    ensures { WaitsWhereReachedWith }
{}

/// A line is cancelled exactly where an unbroken path from a fault reaches it.
pub fn cancelled_where_unbroken()
    ensures { CancelledWhereUnbroken }
{}

/// A line is cancelled exactly where an unbroken path from a fault reaches it, whatever the lines do
/// to the cells and whatever these are first.
pub fn cancelled_where_unbroken_for_all_effects()
    ensures { CancelledWhereUnbrokenWith }
{}

/// The order of the evaluation lists the lines that end, each once and after its sources.
pub fn order_lists_ended()
    ensures { OrderListsEnded }
{}

/// The order of an evaluation lists the lines that end, each once and after its sources, whatever the
/// lines do to the cells and whatever these are first.
pub fn order_lists_ended_for_all_effects()
    ensures { OrderListsEndedWith }
{}

/// Each change of a line lies within one of its accesses, and is of its mode.
pub fn changes_within_accesses()
    ensures { ChangesWithinAccesses }
{}

/// No two changes of a line are of one cell.
pub fn changes_name_each_cell_once()
    ensures { ChangesNameEachCellOnce }
{
    points_ascend();
}

/// The effects of a graph's verbs keep to its accesses: their changes lie within them, and they
/// rest on no cells but those that are read, or written other than by reductions.
pub fn verbs_keep_to_accesses()
    ensures { VerbsKeepToAccesses }
{}

/// In an accepted graph a line ends and changes the cells as in the evaluation, whatever ready
/// lines came before it.
pub fn order_is_irrelevant()
    ensures { OrderIrrelevant }
{}

/// In an accepted graph whose lines do anything that keeps to their accesses, a line ends and changes
/// the cells as in the evaluation, whatever ready lines came before it and whatever the cells are
/// first.
pub fn order_is_irrelevant_for_all_effects()
    ensures { OrderIrrelevantWith }
{}

/// A graph has one need.
pub fn needs_are_one()
    ensures { OneNeed }
{}

/// In a lawful trace of an accepted graph the sections of one reservation never overlap: between an
/// acquire that is done and its release stands no other acquire of that reservation that is done.
pub fn sections_never_overlap()
    ensures { SectionsNeverOverlap }
{}

/// Where a graph is accepted, the same graph in a later format is accepted too, with the same need and the
/// same outcome.
pub fn later_formats_keep_meaning()
    ensures { LaterFormatsKeepMeaning }
{}

/// Where a graph is accepted, the graph that an upgrade writes is accepted too, with the same need and the
/// same outcome.
pub fn upgrade_keeps_meaning()
    ensures { UpgradeKeepsMeaning }
{}

/// A line that waits for events behind `on` does as one that waits for one merge of them: where the
/// merge stands above it, the evaluation is the same with either behind `on`.
pub fn on_is_as_a_merge()
    ensures { OnIsAsAMerge }
{}
