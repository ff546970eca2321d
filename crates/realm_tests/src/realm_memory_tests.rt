//! Runs over a source and a sink that never fail and are made before the call. With ample memory each is done. Where
//! one request for memory is refused, as by `tests/refused-memory`, the call answers NoMemory and writes nothing, and
//! the test ends with the words of the command line then, which that script reads.

use crate::row::Row;
use realm_io::OpenGate;
use realm_top::status::Status;
use std::sync::Wait;
use std::test::Fail;
use std::thread::Threads;
use test_texts::graphs::{FAULTY_PATHS, LOCKED_SUMS};
use test_texts::memory::after;
use test_texts::reports::{FAULTY_PATHS_REPORT, LOCKED_SUMS_CELLS, all_done, tile_report};
use test_texts::tiles;

/// What runs a graph.
const COMMANDS: [&str; 4] = [
    "run --workers 3 --engine words",
    "run --workers 3 --hints homes",
    "run --workers 3 --engine lock",
    "eval",
];

/// Calls `realm` with a command line over a text, and ends where it is refused memory.
fn run_one<R: Threads + Wait + Sync + AllocGlobal>(
    rt: &R,
    command: &str,
    text: &str,
    output: &str,
) -> Result<(), Fail> {
    let row = Row {
        command,
        text,
        output,
    };
    let (status, sink) = row.run(rt, &OpenGate)?;
    if status == Status::NoMemory {
        return after(command, true, sink.taken() == 0);
    }
    after(
        command,
        false,
        status == Status::Done && row.is_output(&sink),
    )
}

/// Runs a graph by each command line.
fn run_each<R: Threads + Wait + Sync + AllocGlobal>(
    rt: &R,
    text: &str,
    report: &str,
) -> Result<(), Fail> {
    for command in COMMANDS {
        run_one(rt, command, text, report)?;
    }
    Ok(())
}

#[test]
fn faulty_paths(rt: HostRuntime) -> Result<(), Fail> {
    run_each(&rt, FAULTY_PATHS, FAULTY_PATHS_REPORT)
}

#[test]
fn locked_sums(rt: HostRuntime) -> Result<(), Fail> {
    let ends = all_done(rt.alloc(), LOCKED_SUMS)?;
    let report = format!(in rt.alloc(); "{ends}{LOCKED_SUMS_CELLS}")?;
    run_each(&rt, LOCKED_SUMS, report.as_str())
}

#[test]
fn tiled_stencil(rt: HostRuntime) -> Result<(), Fail> {
    let text = tiles::graph(rt.alloc())?;
    let report = tile_report(rt.alloc(), text.as_str())?;
    run_each(&rt, text.as_str(), report.as_str())
}

/// Two tiles of a column, which is cut into pieces.
const TWO_TILES: &str = "realm 1\n\
    space s 0..1\n\
    space l 0..0\n\
    space r 1..1\n\
    inst a s x\n\
    f = fill a.x l 1\n\
    g = fill a.x r 2\n\
    end\n";

#[test]
fn two_tiles(rt: HostRuntime) -> Result<(), Fail> {
    let report = "realm-report 1\n\
        op f done triggered\n\
        op g done triggered\n\
        cells a.x 0..1 1 2\n\
        done\n";
    let plan = "timeline 1\n\
        op f 0 0 2\n\
        op g 1 0 2\n\
        critical 2 f\n\
        length 2\n\
        done\n";
    run_each(&rt, TWO_TILES, report)?;
    run_one(&rt, "timeline --workers 2 --columns", TWO_TILES, plan)
}

// the actions that run nothing, over a text with a comment
#[test]
fn other_actions(rt: HostRuntime) -> Result<(), Fail> {
    let text = "realm 3\n\
        # its trigger stands below\n\
        u = user\n\
        t = trigger u\n\
        end\n";
    let traced = format!(in rt.alloc(); "{text}realm-trace 1\nat t\nat u\ndone\n")?;
    let plan = "timeline 1\n\
        op u 0 1 2\n\
        op t 0 0 1\n\
        critical 2 t u\n\
        length 2\n\
        done\n";
    run_one(&rt, "check", text, "accepted need 2\n")?;
    run_one(
        &rt,
        "upgrade",
        text,
        "realm 3\nu = user\nt = trigger u\nend\n",
    )?;
    run_one(&rt, "timeline", text, plan)?;
    run_one(&rt, "audit", traced.as_str(), "lawful\n")
}

/// Two graphs; the second has links to an operation that faulted and to one that waits.
const SESSION: &str = "realm-session 1
graph one
realm 1
space s 0..0
inst a s x
f = fill a.x s 7
k = task expect a.x s 0 5 on f
u = user
end
graph two
realm 1
space s 0..0
inst a s x
v = user
w = user
f = fill a.x s 1 on v
end
link c v one k
link d w one u
close
";

const SESSION_REPORT: &str = "graph one
realm-report 1
op f done triggered
op k faulted poisoned
op u waiting pending
cells a.x 0..0 7
done
graph two
realm-report 1
op v cancelled poisoned
op w waiting pending
op f cancelled poisoned
op c done triggered
cells a.x 0..0 0
done
event one f triggered
event one k poisoned
event one u pending
event two v poisoned
event two w pending
event two f poisoned
event two c triggered
done
";

// graphs of a session, and their events
#[test]
fn sessions(rt: HostRuntime) -> Result<(), Fail> {
    for command in [
        "session --workers 3 --engine words",
        "session --workers 3 --hints homes",
        "session --workers 3 --engine lock",
    ] {
        run_one(&rt, command, SESSION, SESSION_REPORT)?;
    }
    Ok(())
}
