//! Each call of sessions that takes memory. With ample memory it gives its answer. Where one request is refused, as by
//! `tests/refused-memory`, it says so, and the same call made again gives its answer; the test ends with the name of
//! the call then, which that script reads.

ghost use Rattle.std.specs.Prelude.{IfOk, IfSome};
ghost use Rattle.session_text.specs.Fits.{AreEntries};
ghost use Rattle.session_run.specs.Ended.{IsEnded};

use checked_graph::Checked;
use graph_reader::ReadRefusal;
use plain_eval::evaluation::eval;
use realm_session::Answer;
use session_run::{Ended, RunFault, run_session};
use session_text::{Entry, Link, read_session};
use std::alloc::{AllocError, Global};
use std::test::Fail;
use test_texts::memory::after;

/// The texts of two graphs, with a link.
const TEXT: &str = "realm-session 1
graph one
realm 1
k = user
end
graph two
realm 3
# ended by the link
v = user
end
link c v one k
close
";

/// The events of these graphs: `k` waits, so the link adds no line.
const EVENTS: &str = "event one k pending
event two v pending
";

fn is_the_link(link: &Link) -> bool {
    link.line.bytes() == b"c".as_slice()
        && link.user.bytes() == b"v".as_slice()
        && link.graph.bytes() == b"one".as_slice()
        && link.op.bytes() == b"k".as_slice()
}

/// Whether these are the two graphs, each with one line.
fn are_the_two(entries: &[Entry]) -> bool {
    let [one, two] = entries else {
        return false;
    };
    let [link] = two.links.items.as_slice() else {
        return false;
    };
    let is_named = one.name.bytes() == b"one".as_slice() && two.name.bytes() == b"two".as_slice();
    let is_read = one.graph.lines() == 1 && two.graph.lines() == 1 && one.links.len() == 0;
    is_named && is_read && is_the_link(link)
}

fn reads(alloc: Global) -> Result<(), Fail> {
    let bytes = TEXT.as_bytes();
    if bytes.len() > 1_048_576 {
        return Err("a long text".into());
    }
    match read_session(alloc, bytes) {
        Ok(entries) => after("read_session", false, are_the_two(entries.as_slice())),
        Err(refusal) => {
            let again = read_session(alloc, bytes).is_ok();
            after(
                "read_session",
                true,
                refusal == ReadRefusal::NoMemory && again,
            )
        }
    }
}

/// The graphs of a text. `None` where it is no text of a session, or memory ran out.
fn entries_of(alloc: Global, text: &str) -> Option<Vec<Entry>>
    ensures { IfSome result (λ v. AreEntries v.items) }
{
    let bytes = text.as_bytes();
    if bytes.len() > 1_048_576 {
        return None;
    }
    read_session(alloc, bytes).ok()
}

/// Runs the graphs of a session with so many slots, of which there are some, each by its evaluation.
fn run_entries(alloc: Global, entries: Vec<Entry>, slots: u32) -> Result<Ended, RunFault>
    requires { AreEntries entries.items }
    ensures { IfOk result IsEnded }
{
    if slots == 0 || slots > 8_192 {
        return Err(RunFault::Slots(0));
    }
    let run = |checked: &Checked| eval(alloc, checked);
    run_session(alloc, &run, entries, slots)
}

/// Runs the graphs of a text with so many slots. `Slots(0)` where it is no text of a session.
fn run_text(alloc: Global, text: &str, slots: u32) -> Result<Ended, RunFault>
    ensures { IfOk result IsEnded }
{
    match entries_of(alloc, text) {
        Some(entries) => run_entries(alloc, entries, slots),
        None => Err(RunFault::Slots(0)),
    }
}

fn answer_word(answer: Answer) -> &'static [u8] {
    match answer {
        Answer::Triggered => b"triggered",
        Answer::Poisoned => b"poisoned",
        Answer::Pending => b"pending",
    }
}

/// A line for each event, in order.
fn event_lines(alloc: Global, ended: &Ended) -> Result<Vec<u8>, AllocError>
    requires { IsEnded ended.now }
{
    let mut lines = Vec::new(alloc);
    for place in 0..ended.graphs.len() {
        let ran = &ended.graphs[place];
        let graph = ran.checked.graph();
        for line in 0..graph.lines() {
            lines.extend_from_slice(b"event ")?;
            lines.extend_from_slice(ran.name.bytes())?;
            lines.extend_from_slice(b" ")?;
            lines.extend_from_slice(graph.line(line).name.bytes())?;
            lines.extend_from_slice(b" ")?;
            lines.extend_from_slice(answer_word(ended.event(place as u32, line)))?;
            lines.extend_from_slice(b"\n")?;
        }
    }
    Ok(lines)
}

/// Runs the graphs, whose one slot and another for each of the two lines that wait are enough.
fn runs(alloc: Global) -> Result<(), Fail> {
    let Some(entries) = entries_of(alloc, TEXT) else {
        return Err("no memory".into());
    };
    match run_entries(alloc, entries, 3) {
        Ok(ended) => {
            let events = event_lines(alloc, &ended)?;
            after("run_session", false, events.as_slice() == EVENTS.as_bytes())
        }
        Err(fault) => {
            let again = run_text(alloc, TEXT, 3).is_ok();
            after("run_session", true, is_no_memory(&fault) && again)
        }
    }
}

fn is_no_memory(fault: &RunFault) -> bool {
    match fault {
        RunFault::NoMemory => true,
        _ => false,
    }
}

#[test]
fn each_call(rt: HostRuntime) -> Result<(), Fail> {
    reads(rt.alloc())?;
    runs(rt.alloc())
}
