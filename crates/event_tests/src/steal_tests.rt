//! Hints that one part puts in and another steals, on one thread and on four.

ghost use Rattle.std.specs.Prelude.{◌≡◌, length};
ghost use Rattle.home_queues.specs.Hints.{AreSame, IsSame};

use home_queues::{HomeHints, HomeQueues, still_listed};
use realm_io::Hints;
use std::sync::Wait;
use std::test::Fail;
use std::thread;
use std::thread::Threads;

/// Puts the numbers in.
fn push_all<R: Wait>(rt: &R, part: &mut HomeHints, lines: &[u32])
    ensures { IsSame part.old part.new }
{
    for line in lines {
        part.push(rt, *line);
    }
}

/// The first part puts four numbers in, of which one is of no line, and the second takes twice.
fn two_steals<R: Wait>(rt: &R, parts: &mut [HomeHints]) -> [Option<u32>; 2]
    requires { length parts.old ≡ 2 }
    ensures { AreSame parts.old parts.new }
{
    push_all(rt, &mut parts[0], &[0, 1, 2, 7]);
    let one = parts[1].take(rt);
    let two = parts[1].take(rt);
    [one, two]
}

/// How often each of four lines was put in, was taken and is left after two steals.
const COUNTS: [(u64, u64, u64); 4] = [(1, 1, 0), (1, 1, 0), (1, 0, 1), (0, 0, 0)];

#[test]
fn the_second_part_steals_from_the_first(rt: HostRuntime) -> Result<(), Fail> {
    let Ok((queues, mut list)) = HomeQueues::new(rt.alloc(), 4, 2) else {
        return Err("no memory".into());
    };
    assert_eq!(rt; two_steals(&rt, list.parts()), [Some(0), Some(1)]);
    still_listed();
    let tally = queues.close(list);
    for line in 0..4 {
        let counts = (tally.pushed(line), tally.taken(line), tally.left(line));
        assert_eq!(rt; counts, COUNTS[line as usize]);
    }
    Ok(())
}

/// Puts two numbers in and takes one, so many times over.
fn work<R: Wait>(rt: &R, part: &mut HomeHints, turns: u32)
    ensures { IsSame part.old part.new }
{
    for turn in 0..turns {
        part.push(rt, turn % 70 + 8_140);
        part.push(rt, turn % 7);
        let _ = part.take(rt);
    }
}

/// Each part in a thread of its own.
fn work_all<R: Threads + Wait + Sync>(rt: &R, parts: &mut [HomeHints])
    ensures { AreSame parts.old parts.new }
{
    thread::for_each_mut(rt, parts, 4, &|_, part| work(rt, part, 2000));
}

#[test]
fn nothing_is_lost_between_threads(rt: HostRuntime) -> Result<(), Fail> {
    let Ok((queues, mut list)) = HomeQueues::new(rt.alloc(), 8_192, 4) else {
        return Err("no memory".into());
    };
    work_all(&rt, list.parts());
    still_listed();
    let tally = queues.close(list);
    let mut pushed: u64 = 0;
    let mut found: u64 = 0;
    for line in 0..8_192 {
        pushed = pushed.wrapping_add(tally.pushed(line));
        found = found
            .wrapping_add(tally.taken(line))
            .wrapping_add(tally.left(line));
    }
    // Of 16,000 numbers those from 8,192 on are dropped: 18 of each 70 of the first kind, 28 times, and none
    // of the last 40. No part puts in 8,192.
    assert_eq!(rt; (pushed, found), (13_984, 13_984));
    Ok(())
}
