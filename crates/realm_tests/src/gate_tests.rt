//! Runs through gates that look at the workers, by each engine and with each kind of hints. That workers share the work
//! is shown here alone; no clause says it.

use crate::row::Row;
use realm_io::Gate;
use realm_top::status::Status;
use std::alloc::Global;
use std::hint::spin_loop;
use std::sync::Wait;
use std::sync::atomic::{AtomicU64, Ordering};
use std::test::Fail;
use std::thread;
use std::thread::Threads;
use test_texts::graphs::FAULTY_PATHS;
use test_texts::reports::FAULTY_PATHS_REPORT;

/// A gate that holds each line from some line on until so many are there, but not for ever. A line above
/// those is held for a while, so that the other workers find that they have to wait for it.
#[derive(Drop)]
struct Meeting {
    first: u32,
    lines: u64,
    are_there: AtomicU64,
    left_alone: AtomicU64,
}

impl Meeting {
    fn new(first: u32, lines: u64) -> Meeting {
        Meeting {
            first,
            lines,
            are_there: AtomicU64::new(0),
            left_alone: AtomicU64::new(0),
        }
    }

    /// Whether all lines came within some time.
    fn is_met(&self) -> bool {
        for _turn in 0..1_000_000u32 {
            if self.are_there.load(Ordering::SeqCst) >= self.lines {
                return true;
            }
            thread::yield_now();
        }
        false
    }
}

/// Passes a fraction of a millisecond. The thread is not given up, since on a busy machine it would come back late.
fn linger() {
    for _pause in 0..10_000u32 {
        spin_loop();
    }
}

impl Gate for Meeting {
    fn pass<R: Wait>(&self, _rt: &R, line: u32) {
        if line < self.first {
            linger();
            return;
        }
        self.are_there.fetch_add(1, Ordering::SeqCst);
        if !self.is_met() {
            self.left_alone.store(1, Ordering::SeqCst);
        }
    }
}

/// Command lines over one text, in which so many lines meet at the gate from some line on.
struct Meetings {
    commands: &'static [&'static str],
    text: &'static str,
    output: &'static str,
    first: u32,
    lines: u64,
}

/// Two lines, neither of which waits for the other.
const TWO_IOTAS: Meetings = Meetings {
    commands: &[
        "run --workers 2 --engine words",
        "run --workers 2 --hints homes",
        "run --workers 2 --engine lock",
    ],
    text: "realm 1\n\
        space s 0..0\n\
        inst a s x,y\n\
        f = task iota a.x s 1\n\
        g = task iota a.y s 2\n\
        end\n",
    output: "realm-report 1\nop f done triggered\nop g done triggered\ncells a.x 0..0 1\ncells a.y 0..0 2\ndone\n",
    first: 0,
    lines: 2,
};

/// Three lines that all wait for a fourth.
const THREE_WAITERS: Meetings = Meetings {
    commands: &[
        "run --workers 3 --engine words",
        "run --workers 3 --hints homes",
        "run --workers 3 --engine lock",
        "run --workers 4 --engine words",
        "run --workers 4 --hints homes",
        "run --workers 4 --engine lock",
    ],
    text: "realm 1\n\
        space s 0..0\n\
        inst a s w,x,y,z\n\
        f = fill a.w s 7\n\
        g = task iota a.x s 1 on f\n\
        h = task iota a.y s 2 on f\n\
        i = task iota a.z s 3 on f\n\
        end\n",
    output: "realm-report 1\nop f done triggered\nop g done triggered\nop h done triggered\nop i done triggered\n\
        cells a.w 0..0 7\ncells a.x 0..0 1\ncells a.y 0..0 2\ncells a.z 0..0 3\ndone\n",
    first: 1,
    lines: 3,
};

/// How often each command line is run.
const RUNS: u32 = 20;

impl Meetings {
    /// Fails where a line is left alone at the gate, or never comes there.
    fn meet<R: Threads + Wait + Sync + AllocGlobal>(
        &self,
        rt: &R,
        command: &str,
    ) -> Result<(), Fail> {
        let row = Row {
            command,
            text: self.text,
            output: self.output,
        };
        let gate = Meeting::new(self.first, self.lines);
        let (status, sink) = row.run(rt, &gate)?;
        let came = gate.are_there.load(Ordering::SeqCst);
        let is_met = came == self.lines && gate.left_alone.load(Ordering::SeqCst) == 0;
        if status == Status::Done && row.is_output(&sink) && is_met {
            return Ok(());
        }
        Err(Fail::new(format_args!("{command}: {status:?}, {came} came")))
    }

    /// The same with each command line, again and again.
    fn meet_each<R: Threads + Wait + Sync + AllocGlobal>(&self, rt: &R) -> Result<(), Fail> {
        for command in self.commands {
            for _run in 0..RUNS {
                self.meet(rt, command)?;
            }
        }
        Ok(())
    }
}

// each worker is at the gate with its line until the other one comes with the other line
#[test]
fn two_workers_meet(rt: HostRuntime) -> Result<(), Fail> {
    TWO_IOTAS.meet_each(&rt)
}

// the end of one line lets three go on, and each finds a worker while the others are at the gate
#[test]
fn three_workers_meet(rt: HostRuntime) -> Result<(), Fail> {
    THREE_WAITERS.meet_each(&rt)
}

/// A gate that keeps the number of each line that passes it, in order.
#[derive(Drop)]
struct Passes {
    count: AtomicU64,
    lines: [AtomicU64; 6],
}

impl Passes {
    fn none() -> Passes {
        Passes {
            count: AtomicU64::new(0),
            lines: [
                AtomicU64::new(0),
                AtomicU64::new(0),
                AtomicU64::new(0),
                AtomicU64::new(0),
                AtomicU64::new(0),
                AtomicU64::new(0),
            ],
        }
    }
}

impl Gate for Passes {
    fn pass<R: Wait>(&self, _rt: &R, line: u32) {
        let place = self.count.fetch_add(1, Ordering::SeqCst);
        if place < 6 {
            self.lines[place as usize].store(u64::from(line), Ordering::SeqCst);
        }
    }
}

/// Whether this line has passed.
fn has_passed(passes: &Passes, line: u64) -> bool {
    let mut lines = passes.lines.iter();
    lines.any(|passed| passed.load(Ordering::SeqCst) == line)
}

/// The names of the lines of that graph.
const NAMES: [&str; 6] = ["f", "k", "c", "m", "n", "g"];

/// The report, and behind it the trace of these passes.
fn traced(alloc: Global, passes: &Passes) -> Result<String, Fail> {
    let mut text = String::from_str(alloc, FAULTY_PATHS_REPORT)?;
    text.push_str("realm-trace 1\n")?;
    for line in &passes.lines {
        let name = NAMES.get(line.load(Ordering::SeqCst) as usize);
        text.push_str("at ")?;
        text.push_str(name.copied().unwrap_or("no line"))?;
        text.push_str("\n")?;
    }
    text.push_str("done\n")?;
    Ok(text)
}

/// Whether each line passed the gate of a run with this command line once, in the order of its trace.
fn passes_so<R: Threads + Wait + Sync + AllocGlobal>(rt: &R, command: &str) -> Result<bool, Fail> {
    let passes = Passes::none();
    let row = Row {
        command,
        text: FAULTY_PATHS,
        output: FAULTY_PATHS_REPORT,
    };
    let (status, sink) = row.run(rt, &passes)?;
    let wanted = traced(rt.alloc(), &passes)?;
    Ok(
        status == Status::Done
            && passes.count.load(Ordering::SeqCst) == 6
            && (0..6).all(|line| has_passed(&passes, line))
            && sink.taken() == wanted.len() as u64
            && sink.kept() == wanted.as_bytes(),
    )
}

#[test]
fn passes_are_the_trace(rt: HostRuntime) -> Result<(), Fail> {
    for command in [
        "run --workers 1 --trace --engine words",
        "run --workers 1 --trace --hints homes",
        "run --workers 1 --trace --engine lock",
    ] {
        assert!(rt; passes_so(&rt, command)?, "{command}");
    }
    Ok(())
}
