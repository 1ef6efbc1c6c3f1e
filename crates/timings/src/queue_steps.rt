//! A return that goes through a queue, nobody else at it, beside the same through a queue with no
//! rule.

use crate::segment_steps::Times;
use crossbeam_queue::ArrayQueue;
use return_queue::{Note, Returns, RuledReturns};
use std::alloc::{AllocError, Global};
use std::io;
use std::sync::Wait;
use std::time::{Clock, Instant};

/// How many notes each queue holds.
const CAPACITY: u32 = 256;

/// How many turns are timed together.
const TURNS: u64 = 1_000_000;

/// How often they are timed: the least time counts.
const RUNS: u32 = 12;

/// A note is given and taken, beside one that is pushed and popped.
pub fn returns<C: Clock, H: Wait>(rt: &H, clock: &C, alloc: Global) -> io::Result<Times> {
    let mut times = Times::none();
    for _ in 0..RUNS {
        let Ok((queue, mut pass, mut taker)) = RuledReturns::new(alloc, CAPACITY) else {
            return Err(AllocError.into());
        };
        let start = Instant::now(clock)?;
        give_and_take(rt, &queue, &mut pass, &mut taker, TURNS);
        let ours = start.elapsed(clock)?;
        let plain = ArrayQueue::new(alloc, CAPACITY as usize)?;
        let start = Instant::now(clock)?;
        push_and_pop(rt, &plain, TURNS);
        times = times.with(TURNS, ours, start.elapsed(clock)?);
    }
    Ok(times)
}

#[inline(never)]
fn give_and_take<Q: Returns, H: Wait>(
    rt: &H,
    queue: &Q,
    pass: &mut Q::Pass,
    taker: &mut Q::Taker,
    turns: u64,
)
    requires pass { Q.is_pass (Q.name queue.now) pass.old }
    requires taker { Q.is_taker (Q.name queue.now) taker.old }
{
    for id in 0..turns {
        let note = Note {
            client: 1,
            id,
            block: None,
        };
        let _ = queue.give(rt, pass, note);
        let _ = queue.take(rt, taker);
    }
}

#[inline(never)]
fn push_and_pop<H: Wait>(rt: &H, queue: &ArrayQueue<Note>, turns: u64) {
    for id in 0..turns {
        let note = Note {
            client: 1,
            id,
            block: None,
        };
        let _ = queue.push(rt, note);
        let _ = queue.pop(rt);
    }
}
