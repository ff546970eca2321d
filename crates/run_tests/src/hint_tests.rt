//! Hints: what does not fit into their queue is dropped, and the rest comes in order, also to another
//! thread; a round gives each number once.

use free_engine::{HintQueue, Round};
use realm_io::Hints;
use std::alloc::Global;
use std::sync::Wait;
use std::test::Fail;
use std::thread;
use std::thread::join;

/// A queue for the numbers below `lines`, the pushes of one worker, and what as many pops of another give then.
#[derive(Clone, Copy)]
struct Row {
    lines: u32,
    pushes: &'static [u32],
    pops: &'static [Option<u32>],
}

const ROWS: [Row; 4] = [
    Row {
        lines: 3,
        pushes: &[3, 4294967295, 2, 0, 1, 0],
        pops: &[Some(2), Some(0), Some(1), None, None],
    },
    Row {
        lines: 1,
        pushes: &[1, 0, 0],
        pops: &[Some(0), None],
    },
    Row {
        lines: 65536,
        pushes: &[65536, 65535, 0, 65535],
        pops: &[Some(65535), Some(0), Some(65535), None],
    },
    Row {
        lines: 2,
        pushes: &[],
        pops: &[None],
    },
];

/// Whether as many pops as there are answers give these.
fn gives<R: Wait, H: Hints>(rt: &R, hints: &mut H, answers: &[Option<u32>]) -> bool {
    for answer in answers {
        if hints.take(rt) != *answer {
            return false;
        }
    }
    true
}

fn push_each<R: Wait, H: Hints>(rt: &R, hints: &mut H, lines: &[u32]) {
    for line in lines {
        hints.push(rt, *line);
    }
}

/// Whether a row comes out, and after it a hint from the second worker to the first.
fn comes_out<R: Wait + AllocGlobal>(rt: &R, row: Row) -> Result<bool, Fail> {
    if row.lines == 0 || row.lines > 65536 {
        return Err("a bound from 1 to 65,536".into());
    }
    let (queue, pass) = HintQueue::new(rt.alloc(), row.lines)?;
    let mut list = queue.hints(rt.alloc(), pass, 2)?;
    let (first, second) = list.parts().split_at_mut(1);
    let (Some(first), Some(second)) = (first.first_mut(), second.first_mut()) else {
        return Err("two workers".into());
    };
    push_each(rt, first, row.pushes);
    let forth = gives(rt, second, row.pops);
    second.push(rt, 0);
    Ok(forth && gives(rt, first, &[Some(0), None]))
}

#[test]
fn what_does_not_fit_is_dropped(rt: HostRuntime) -> Result<(), Fail> {
    for row in ROWS {
        assert!(rt; comes_out(&rt, row)?);
    }
    Ok(())
}

#[test]
fn each_worker_has_hints(rt: HostRuntime) -> Result<(), Fail> {
    for workers in 0..9 {
        let (queue, pass) = HintQueue::new(rt.alloc(), 1)?;
        let mut list = queue.hints(rt.alloc(), pass, workers)?;
        assert_eq!(rt; list.parts().len(), workers as usize);
    }
    Ok(())
}

#[test]
fn a_round_gives_each_number_once(rt: HostRuntime) -> Result<(), Fail> {
    let mut round = Round::new(4, 2);
    round.push(&rt, 3);
    let answers = [Some(2), Some(3), Some(0), Some(1), None, None];
    assert!(rt; gives(&rt, &mut round, &answers));
    assert!(rt; gives(&rt, &mut Round::new(0, 7), &[None]));
    Ok(())
}

/// How many hints one thread hands to another.
const MANY: u32 = 1000;

fn push_all<R: Wait, H: Hints>(rt: &R, hints: &mut H) {
    for line in 0..MANY {
        hints.push(rt, line);
    }
}

/// Takes until it has so many, or memory runs out.
fn take_all<R: Wait, H: Hints>(rt: &R, alloc: Global, hints: &mut H) -> Vec<u32> {
    let mut all = Vec::new(alloc);
    for _ in rt.forever() {
        if all.len() >= MANY as usize || all.reserve(1).is_err() {
            return all;
        }
        match hints.take(rt) {
            Some(line) => all.push_reserved(line),
            None => thread::yield_now(),
        }
    }
    unreachable!()
}

#[test]
fn hints_come_in_order_to_another_thread(rt: HostRuntime) -> Result<(), Fail> {
    let (queue, pass) = HintQueue::new(rt.alloc(), MANY)?;
    let mut list = queue.hints(rt.alloc(), pass, 2)?;
    let (first, second) = list.parts().split_at_mut(1);
    let (Some(first), Some(second)) = (first.first_mut(), second.first_mut()) else {
        return Err("two workers".into());
    };
    let alloc = rt.alloc();
    let ((), all) = join(
        &rt,
        || push_all(&rt, first),
        || take_all(&rt, alloc, second),
    );
    assert_eq!(rt; all.len(), MANY as usize);
    for (i, line) in all.iter().enumerate() {
        assert_eq!(rt; *line as usize, i);
    }
    Ok(())
}
