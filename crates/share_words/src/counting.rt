//! Counting the lines that only read a column.

ghost use Rattle.std.specs.Prelude.{◌≡◌, ◌<◌, ◌+◌, [], length, slice_index};
ghost use Rattle.graph_terms.specs.Graph.{columns};
ghost use Rattle.share_words.specs.Counting.{AreCounted, with_reader, counted};
ghost use Rattle.share_words.specs.Shares.{most_below};

use graph_meaning::line_laws::{accesses_are_few, accesses_fit};
use graph_model::graph::Graph;
use graph_terms::limits::MOST_ACCESSES;
use graph_terms::verb::{Access, Mode};

/// So many readers of a column have a share each at the same time.
const MOST_READERS: u8 = 8;

/// The shares of a column with one reader more than has so many: what is left of a lending is a share too,
/// so the first reader brings two.
fn with_reader(shares: u8) -> u8
    ensures { result ≡ with_reader shares }
{
    shares.max(1).min(MOST_READERS) + 1
}

/// Counts an access.
fn count_access(counts: &mut Vec<u8>, access: Access)
    requires { access.column < length counts.old.items }
    ensures { counts.new.items ≡ counted access counts.old.items }
{
    if matches!(access.mode, Mode::Read) {
        let c = access.column as usize;
        counts[c] = with_reader(counts[c]);
    }
}

/// Counts the accesses of a line.
pub(crate) fn count_line(graph: &Graph, line: u32, counts: &mut Vec<u8>)
    requires known { line < length graph.now.lines }
    requires counted { AreCounted graph.now line [] counts.old.items }
    ensures { AreCounted graph.now (line + 1) [] counts.new.items }
{
    accesses_are_few();
    accesses_fit();
    let _ = graph.lines();
    for k in 0..MOST_ACCESSES {
        let Some(access) = graph.access(line, k) else {
            break;
        };
        count_access(counts, access);
    }
}

/// The greatest of some numbers, or 0.
pub(crate) fn most_of(counts: &[u8]) -> u8
    ensures { result ≡ most_below (slice_index counts.now) (length counts.now) }
{
    let mut most = 0;
    for c in 0..counts.len() {
        most = counts[c].max(most);
    }
    most
}
