//! Planning a graph in virtual time.

ghost use Rattle.std.specs.Prelude.{◌≡◌, ℕ, ◌≤◌, ◌⊎◌, List};
ghost use Rattle.column_pieces.specs.Pieces.{ArePieces, graph_of_pieces};
ghost use Rattle.graph_answers.specs.Answer.{IsTimelineText, IsColumnsText, IsPieceText, IsPlanText};
ghost use Rattle.graph_answers.specs.Delivered.{Delivers};

use crate::status::Status;
use command_line::request::{MAX_WORKERS, Request};
use piece_graphs::{CutGraph, checked_pieces, cut_columns};
use program_io::flush;
use race_check::checked::Checked;
use realm_io::Sink;
use realm_timeline::text::put_timeline;
use realm_timeline::timeline::{plan, plan_by_columns};
use std::alloc::Global;

/// Plans a graph on as many processors as there are workers, but one at least, and writes its timeline.
/// Where the request asks for it, the plan knows of columns.
pub(crate) fn plan_graph<K: Sink>(
    alloc: Global,
    request: &Request,
    checked: &Checked,
    sink: &mut K,
) -> Status
    requires workers { request.now.workers ≤ MAX_WORKERS }
    ensures done { (result ≡ Status.NoMemory) ⊎ ((out : List ℕ) × IsPlanText request.now checked.now.graph out
        × Delivers (K.state sink.old) (K.state sink.new) Status.Done result out) }
    ensures no_memory { result ≡ Status.NoMemory → sink.new ≡ sink.old }
{
    let processors = request.workers.max(1);
    if request.columns {
        plan_pieces(alloc, processors, checked, sink)
    } else {
        plan_lines(alloc, processors, checked, sink)
    }
}

/// Plans a graph as its lines are ordered, and writes its timeline.
fn plan_lines<K: Sink>(alloc: Global, processors: u32, checked: &Checked, sink: &mut K) -> Status
    requires processors { (1 ≤ processors) × (processors ≤ MAX_WORKERS) }
    ensures done { (result ≡ Status.NoMemory) ⊎ ((out : List ℕ) × IsTimelineText processors checked.now.graph out
        × Delivers (K.state sink.old) (K.state sink.new) Status.Done result out) }
    ensures no_memory { result ≡ Status.NoMemory → sink.new ≡ sink.old }
{
    let Ok(timeline) = plan(alloc, checked, processors) else {
        return Status::NoMemory;
    };
    match put_timeline(sink, checked.graph(), &timeline) {
        Ok(()) => flush(sink, Status::Done),
        Err(_) => Status::WriteFault,
    }
}

/// Plans the graph of the pieces of a graph, or the graph itself where its columns are not cut, and
/// writes its timeline: a line that changes a piece is planned beside no other that uses it.
fn plan_pieces<K: Sink>(alloc: Global, processors: u32, checked: &Checked, sink: &mut K) -> Status
    requires processors { (1 ≤ processors) × (processors ≤ MAX_WORKERS) }
    ensures done { (result ≡ Status.NoMemory) ⊎ ((out : List ℕ) × IsPieceText processors checked.now.graph out
        × Delivers (K.state sink.old) (K.state sink.new) Status.Done result out) }
    ensures no_memory { result ≡ Status.NoMemory → sink.new ≡ sink.old }
{
    let Ok(cut) = cut_columns(alloc, checked.graph()) else {
        return Status::NoMemory;
    };
    match cut {
        Some(cut) => plan_cut(alloc, processors, checked, cut, sink),
        None => plan_columns(alloc, processors, checked, sink),
    }
}

/// Plans the graph of the pieces of a graph, and writes its timeline.
fn plan_cut<K: Sink>(
    alloc: Global,
    processors: u32,
    checked: &Checked,
    cut: CutGraph,
    sink: &mut K,
) -> Status
    requires processors { (1 ≤ processors) × (processors ≤ MAX_WORKERS) }
    requires pieces { ArePieces checked.now.graph cut.pieces.unions.items cut.pieces.pieces.items }
    requires graph { cut.graph ≡ graph_of_pieces checked.now.graph cut.pieces.unions.items cut.pieces.pieces.items }
    ensures done { (result ≡ Status.NoMemory) ⊎ ((out : List ℕ) × IsPieceText processors checked.now.graph out
        × Delivers (K.state sink.old) (K.state sink.new) Status.Done result out) }
    ensures no_memory { result ≡ Status.NoMemory → sink.new ≡ sink.old }
{
    let CutGraph { graph, pieces } = cut;
    let in_pieces = checked_pieces(checked, graph, &pieces);
    plan_columns(alloc, processors, &in_pieces, sink)
}

/// Plans a graph so that a line which changes a column runs beside no other that uses it, and writes
/// its timeline.
fn plan_columns<K: Sink>(alloc: Global, processors: u32, checked: &Checked, sink: &mut K) -> Status
    requires processors { (1 ≤ processors) × (processors ≤ MAX_WORKERS) }
    ensures done { (result ≡ Status.NoMemory) ⊎ ((out : List ℕ) × IsColumnsText processors checked.now.graph out
        × Delivers (K.state sink.old) (K.state sink.new) Status.Done result out) }
    ensures no_memory { result ≡ Status.NoMemory → sink.new ≡ sink.old }
{
    let Ok(timeline) = plan_by_columns(alloc, checked, processors) else {
        return Status::NoMemory;
    };
    match put_timeline(sink, checked.graph(), &timeline) {
        Ok(()) => flush(sink, Status::Done),
        Err(_) => Status::WriteFault,
    }
}
