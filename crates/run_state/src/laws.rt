//! What holds of the states of all runs, for callers to cite. No function here does anything.

ghost use Rattle.run_state.specs.Laws.{VerbsKeepToColumns, FaultsKeepToColumns, StartIsSound, StartIsAtRest, IssueKeepsSound, ClaimKeepsSound, UnclaimKeepsSound, ColumnOutKeepsSound, ColumnUnusedKeepsSound, ColumnBackKeepsSound, HoldKeepsSound, LetGoKeepsSound, ArriveKeepsSound, DrawKeepsSound, EndingKeepsSound, FreeKeepsSound, CloseKeepsSound, IssueKeepsRest, TakeKeepsRest, ClaimOfCancelledKeepsRest, PutBackKeepsRest, CanTakeWhole, CancelledByKeptEnds, TakenHolds, ListsHold, WorkIsAsEvaluated, WorkGivesCells, PerformedMayBePutBack, CancelledMayBePutBack, HoldsAllStays, MayPutBackStays, StageLeaves, ColumnOutLeaves, ColumnUnusedLeaves, ColumnBackLeaves, TakeLeaves, PutBackLeaves, BackAtRest, ArrivedAtRest, FreedAtRest, QuietGivesOutcome, SlotsAreByTimes, ClockIsSmall, LeftBelowNeed, UnorderedConflictOnlyExempt, OutConflictOnlyExempt, ColumnReadKeepsSound, ColumnReadLeavesCells, HoldersSee, SightIsAsEvaluated, SightGivesCells, ReadersStayApart, BackOrReadKeepsSound, ChangedOrRead, SharingStartsAtRest, IssueKeepsSharing, TakeKeepsSharing, ClaimOfCancelledKeepsSharing, PutBackKeepsSharing, TakenSees, SeenMayBePutBack, TakeLeavesSight, TakeLeavesEnd, PutBackLeavesSight, PutBackLeavesEnd};

/// The effects of a graph's verbs keep to its columns.
pub fn verbs_keep_to_columns()
    ensures { VerbsKeepToColumns }
{}

/// So they do where a host says of calls that they faulted.
pub fn faults_keep_to_columns()
    ensures { FaultsKeepToColumns }
{}

/// A run of an accepted graph begins in a sound state.
pub fn start_is_sound()
    ensures { StartIsSound }
{}

/// A run begins at rest.
pub fn start_is_at_rest()
    ensures { StartIsAtRest }
{}

/// Issuing the next line keeps a state sound.
pub fn issue_keeps_sound()
    ensures { IssueKeepsSound }
{}

/// Claiming an issued line whose sources are ended keeps a state sound.
pub fn claim_keeps_sound()
    ensures { ClaimKeepsSound }
{}

/// Giving back the claim of a line that has done nothing yet keeps a state sound.
pub fn unclaim_keeps_sound()
    ensures { UnclaimKeepsSound }
{}

/// Taking a column that is at home, by a line that accesses it, keeps a state sound.
pub fn column_out_keeps_sound()
    ensures { ColumnOutKeepsSound }
{}

/// Returning a column unchanged keeps a state sound.
pub fn column_unused_keeps_sound()
    ensures { ColumnUnusedKeepsSound }
{}

/// Putting a line back on its column, with the column's cells changed as in the evaluation, keeps a
/// state sound.
pub fn column_back_keeps_sound()
    ensures { ColumnBackKeepsSound }
{}

/// Taking a reservation that is open to the acquire keeps a state sound.
pub fn hold_keeps_sound()
    ensures { HoldKeepsSound }
{}

/// Letting a reservation go before the acquire has a time keeps a state sound.
pub fn let_go_keeps_sound()
    ensures { LetGoKeepsSound }
{}

/// Putting an arrival in, once, keeps a state sound.
pub fn arrive_keeps_sound()
    ensures { ArriveKeepsSound }
{}

/// Drawing the time of a line that is out keeps a state sound.
pub fn draw_keeps_sound()
    ensures { DrawKeepsSound }
{}

/// Ending a line with the end of the evaluation keeps a state sound.
pub fn ending_keeps_sound()
    ensures { EndingKeepsSound }
{}

/// Freeing a reservation by the release of its acquire keeps a state sound.
pub fn free_keeps_sound()
    ensures { FreeKeepsSound }
{}

/// Closing a line that is ending, and that has freed what it releases, keeps a state sound.
pub fn close_keeps_sound()
    ensures { CloseKeepsSound }
{}

/// Issuing the next line leaves a state sound and at rest.
pub fn issue_keeps_rest()
    ensures { IssueKeepsRest }
{}

/// Taking a whole line leaves a state sound and at rest.
pub fn take_keeps_rest()
    ensures { TakeKeepsRest }
{}

/// Claiming a line that is cancelled leaves a state sound and at rest.
pub fn claim_of_cancelled_keeps_rest()
    ensures { ClaimOfCancelledKeepsRest }
{}

/// Putting a whole line back leaves a state sound and at rest.
pub fn put_back_keeps_rest()
    ensures { PutBackKeepsRest }
{}

/// A line that can be taken, and is not cancelled, can be taken whole.
pub fn can_take_whole()
    ensures { CanTakeWhole }
{}

/// The ends that a run keeps of the sources of a line tell whether the line is cancelled.
pub fn cancelled_by_kept_ends()
    ensures { CancelledByKeptEnds }
{}

/// A line taken whole holds its columns with the cells that they had at home.
pub fn taken_holds()
    ensures { TakenHolds }
{}

/// A line that has all its columns holds them with the cells that they had at home.
pub fn lists_hold()
    ensures { ListsHold }
{}

/// What a line does to the cells that it holds is what it does in the evaluation.
pub fn work_is_as_evaluated()
    ensures { WorkIsAsEvaluated }
{}

/// The cells that a line leaves on a column are those with which it is put back there.
pub fn work_gives_cells()
    ensures { WorkGivesCells }
{}

/// A line that performed on the cells that it holds may be put back with what it left.
pub fn performed_may_be_put_back()
    ensures { PerformedMayBePutBack }
{}

/// A cancelled line that was claimed may be put back.
pub fn cancelled_may_be_put_back()
    ensures { CancelledMayBePutBack }
{}

/// A step that leaves a line undisturbed leaves it what it holds.
pub fn holds_all_stays()
    ensures { HoldsAllStays }
{}

/// A step that leaves a line undisturbed leaves it what it may be put back with.
pub fn may_put_back_stays()
    ensures { MayPutBackStays }
{}

/// A line that goes on to another stage leaves the others undisturbed.
pub fn stage_leaves()
    ensures { StageLeaves }
{}

/// Taking a column leaves the lines undisturbed that have it not.
pub fn column_out_leaves()
    ensures { ColumnOutLeaves }
{}

/// Returning a column unchanged leaves the lines undisturbed that have it not.
pub fn column_unused_leaves()
    ensures { ColumnUnusedLeaves }
{}

/// Putting a line back on a column leaves the lines undisturbed that have the column not.
pub fn column_back_leaves()
    ensures { ColumnBackLeaves }
{}

/// Taking a whole line leaves each line that is out undisturbed.
pub fn take_leaves()
    ensures { TakeLeaves }
{}

/// Putting a whole line back leaves the other lines undisturbed.
pub fn put_back_leaves()
    ensures { PutBackLeaves }
{}

/// At rest the lines put back on a column are the ended lines that access it and are not cancelled.
pub fn back_at_rest()
    ensures { BackAtRest }
{}

/// At rest the arrivals put in are the ended ones that are not cancelled.
pub fn arrived_at_rest()
    ensures { ArrivedAtRest }
{}

/// At rest the releases that have freed are the ended ones of acquires that are done.
pub fn freed_at_rest()
    ensures { FreedAtRest }
{}

/// A sound and quiet run gives the outcome of the evaluation, and its ended lines by their times are
/// a lawful trace.
pub fn quiet_gives_outcome()
    ensures { QuietGivesOutcome }
{}

/// A list as long as the clock, with each line at its time, is the ended lines by their times.
pub fn slots_are_by_times()
    ensures { SlotsAreByTimes }
{}

/// The clock is at most the number of lines.
pub fn clock_is_small()
    ensures { ClockIsSmall }
{}

/// Where none of the issued lines can be taken, and a line is left to issue, fewer issued lines are
/// left than the need of the graph: with as many slots as the need one is free.
pub fn left_below_need()
    ensures { LeftBelowNeed }
{}

/// Two lines of an accepted graph with no path between them conflict only where both reduce and are
/// exempt.
pub fn unordered_conflict_only_exempt()
    ensures { UnorderedConflictOnlyExempt }
{}

/// Two lines that are out together conflict only where both reduce and are exempt.
pub fn out_conflict_only_exempt()
    ensures { OutConflictOnlyExempt }
{}

/// Putting a line back on a column that it only reads, while the column is at home, keeps a state
/// sound.
pub fn column_read_keeps_sound()
    ensures { ColumnReadKeepsSound }
{}

/// It leaves the cells of all columns as they are.
pub fn column_read_leaves_cells()
    ensures { ColumnReadLeavesCells }
{}

/// A line that holds its columns sees their cells.
pub fn holders_see()
    ensures { HoldersSee }
{}

/// What a line does to the cells that it sees is what it does in the evaluation.
pub fn sight_is_as_evaluated()
    ensures { SightIsAsEvaluated }
{}

/// The cells that a line leaves on a column that it sees are those with which it is put back there,
/// and on a column that it only reads those at home.
pub fn sight_gives_cells()
    ensures { SightGivesCells }
{}

/// A line goes on to see the same cells where another is put back on a column that it only reads.
pub fn readers_stay_apart()
    ensures { ReadersStayApart }
{}

/// Putting a line back on all its columns, of which it has some and only reads the others, keeps a
/// state sound.
pub fn back_or_read_keeps_sound()
    ensures { BackOrReadKeepsSound }
{}

/// A column that a line accesses is one that it may change, or one that it only reads.
pub fn changed_or_read()
    ensures { ChangedOrRead }
{}

/// Where lines share the columns that they only read, a run begins at rest.
pub fn sharing_starts_at_rest()
    ensures { SharingStartsAtRest }
{}

/// Issuing the next line then leaves a state sound and at rest.
pub fn issue_keeps_sharing()
    ensures { IssueKeepsSharing }
{}

/// Taking a line with the columns that it may change leaves a state sound and at rest.
pub fn take_keeps_sharing()
    ensures { TakeKeepsSharing }
{}

/// Claiming a line that is cancelled leaves a state sound and at rest.
pub fn claim_of_cancelled_keeps_sharing()
    ensures { ClaimOfCancelledKeepsSharing }
{}

/// Putting a whole line back leaves a state sound and at rest.
pub fn put_back_keeps_sharing()
    ensures { PutBackKeepsSharing }
{}

/// A line taken so sees the cells that its columns have at home.
pub fn taken_sees()
    ensures { TakenSees }
{}

/// A line that performed on the cells that it sees may be put back with what it left.
pub fn seen_may_be_put_back()
    ensures { SeenMayBePutBack }
{}

/// A line goes on to see the same cells as another is taken.
pub fn take_leaves_sight()
    ensures { TakeLeavesSight }
{}

/// A line may be put back with the same as another is taken.
pub fn take_leaves_end()
    ensures { TakeLeavesEnd }
{}

/// A line goes on to see the same cells as another is put back.
pub fn put_back_leaves_sight()
    ensures { PutBackLeavesSight }
{}

/// A line may be put back with the same as another is put back.
pub fn put_back_leaves_end()
    ensures { PutBackLeavesEnd }
{}
