//! The lines that say why a graph of a session is refused.

ghost use Rattle.std.specs.Prelude.{◌≡◌, ◌≢◌, ◌<◌, ℕ, List, Some, length};
ghost use Rattle.race_check.specs.Refusal.{NamesLines};
ghost use Rattle.race_check.specs.declared.checked.CheckRefusal.{CheckRefusal};
ghost use Rattle.realm_io.specs.Written.{Writes};
ghost use Rattle.realm_top.specs.SessionTexts.{broken_by_one_in, broken_by_two_in, unfit_in_text};

use race_check::checked::CheckRefusal;
use realm_io::{Sink, WriteFault};
use run_report::put_words;
use session_run::UnfitGraph;

/// Writes that one line of a graph of a session breaks a rule.
fn put_one_in<K: Sink>(
    sink: &mut K,
    unfit: &UnfitGraph,
    rule: &[u8],
    i: u32,
) -> Result<(), WriteFault>
    requires { i < length unfit.now.graph.lines }
    ensures { Writes (K.state sink.old) (K.state sink.new) result (broken_by_one_in unfit.now.graph rule.now i unfit.now.name) }
{
    put_words(
        sink,
        &[
            b"refused",
            rule,
            unfit.graph.line(i).name.bytes(),
            b"in",
            unfit.name.bytes(),
        ],
    )
}

/// Writes that two lines of a graph of a session break a rule.
fn put_two_in<K: Sink>(
    sink: &mut K,
    unfit: &UnfitGraph,
    rule: &[u8],
    i: u32,
    j: u32,
) -> Result<(), WriteFault>
    requires { (i < length unfit.now.graph.lines) × (j < length unfit.now.graph.lines) }
    ensures { Writes (K.state sink.old) (K.state sink.new) result (broken_by_two_in unfit.now.graph rule.now i j unfit.now.name) }
{
    put_words(
        sink,
        &[
            b"refused",
            rule,
            unfit.graph.line(i).name.bytes(),
            unfit.graph.line(j).name.bytes(),
            b"in",
            unfit.name.bytes(),
        ],
    )
}

/// Writes which rule a graph of a session breaks, at which lines, and which graph it is.
pub(crate) fn put_broken_in<K: Sink>(sink: &mut K, unfit: &UnfitGraph) -> Result<(), WriteFault>
    requires a_rule { unfit.now.why ≢ CheckRefusal.NoMemory }
    requires lines { NamesLines unfit.now.graph unfit.now.why }
    ensures { (out : List ℕ) → unfit_in_text unfit.now ≡ Some out → Writes (K.state sink.old) (K.state sink.new) result out }
{
    match unfit.why {
        CheckRefusal::Cycle(i) => put_one_in(sink, unfit, b"cycle", i),
        CheckRefusal::Unreleased(i) => put_one_in(sink, unfit, b"unreleased", i),
        CheckRefusal::Section(i, j) => put_two_in(sink, unfit, b"section", i, j),
        CheckRefusal::Descends(i, j) => put_two_in(sink, unfit, b"descends", i, j),
        CheckRefusal::ReleaseFault(i) => put_one_in(sink, unfit, b"release", i),
        CheckRefusal::Race(i, j) => put_two_in(sink, unfit, b"race", i, j),
        CheckRefusal::NoMemory => Ok(()),
    }
}
