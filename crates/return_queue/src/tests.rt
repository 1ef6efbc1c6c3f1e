ghost use Rattle.std.specs.Prelude.{◌≤◌};

use crate::{Note, PlainReturns, Returns, RuledReturns};
use std::alloc::Global;
use std::process::Abort;
use std::sync::Wait;
use std::test::Fail;
use std::thread;
use std::thread::Threads;

/// How often a thread of a test tries at most.
const TURNS: u64 = 10_000_000;

/// How many notes each thread gives.
const EACH: u64 = 5_000;

fn note(client: u32, id: u64) -> Note {
    Note {
        client,
        id,
        block: None,
    }
}

fn is_note(answer: Option<Note>, client: u32, id: u64) -> bool {
    answer.is_some_and(|note| note.client == client && note.id == id)
}

/// A queue of one note hands the second back, and gives the first to its taker.
fn keeps_one<R: Wait>(rt: &R, alloc: Global) -> Result<bool, Fail> {
    let (queue, mut pass, mut taker) = RuledReturns::new(alloc, 1)?;
    let first = queue.give(rt, &mut pass, note(1, 7)).is_ok();
    let second = queue.give(rt, &mut pass, note(2, 8)).err();
    let taken = queue.take(rt, &mut taker);
    let none = queue.take(rt, &mut taker).is_none();
    Ok(queue.capacity() == 1 && first && is_note(second, 2, 8) && is_note(taken, 1, 7) && none)
}

/// A queue of four takes four, and hands them over in their order.
fn keeps_four<R: Wait>(rt: &R, alloc: Global) -> Result<bool, Fail> {
    let (queue, mut pass, mut taker) = RuledReturns::new(alloc, 4)?;
    let given = give_all(rt, &queue, &mut pass, 1, 4);
    let full = queue.give(rt, &mut pass, note(1, 5)).is_err();
    Ok(given == 4 && full && take_all(rt, &queue, &mut taker, 4))
}

/// The plain queue hands every note back.
fn keeps_none<R: Wait>(rt: &R) -> bool {
    let (queue, mut pass, mut taker) = PlainReturns::new();
    let back = queue.give(rt, &mut pass, note(2, 8)).err();
    let none = queue.take(rt, &mut taker).is_none();
    let second = queue.split(&mut pass);
    queue.take_in(&mut taker, second);
    queue.capacity() == 0 && is_note(back, 2, 8) && none
}

/// Gives notes 1 to `count` of a client, and tells how many were taken up.
fn give_all<Q: Returns, R: Wait>(
    rt: &R,
    queue: &Q,
    pass: &mut Q::Pass,
    client: u32,
    count: u64,
) -> u64
    requires { Q.is_pass (Q.name queue.now) pass.old }
    ensures { Q.is_pass (Q.name queue.now) pass.new }
{
    let mut given = 0u64;
    for _ in 0..TURNS {
        if given >= count {
            break;
        }
        match queue.give(rt, pass, note(client, given + 1)) {
            Ok(()) => given += 1,
            Err(_) => thread::yield_now(),
        }
    }
    given
}

/// Whether a number is one more than the last.
fn is_next(last: u64, id: u64) -> bool {
    id.checked_sub(last) == Some(1)
}

/// Takes notes of two clients, and tells whether `count` of them came, those of each client in
/// order, each once.
fn take_all<Q: Returns, R: Wait>(rt: &R, queue: &Q, taker: &mut Q::Taker, count: u64) -> bool
    requires { Q.is_taker (Q.name queue.now) taker.old }
    ensures { Q.is_taker (Q.name queue.now) taker.new }
{
    let (mut first, mut second) = (0u64, 0u64);
    for _ in 0..TURNS {
        if first.saturating_add(second) >= count {
            break;
        }
        match queue.take(rt, taker) {
            Some(note) if note.client == 1 && is_next(first, note.id) => first = note.id,
            Some(note) if note.client == 2 && is_next(second, note.id) => second = note.id,
            Some(_) => return false,
            None => thread::yield_now(),
        }
    }
    first.saturating_add(second) == count
}

/// Two threads give to one queue, and a third takes meanwhile.
fn meet<Q, R>(
    rt: &R,
    queue: &Q,
    mut first: Q::Pass,
    mut second: Q::Pass,
    mut taker: Q::Taker,
) -> bool
where
    Q: Returns + Sync,
    Q::Pass: Send,
    Q::Taker: Send,
    R: Threads + Wait + Sync,
    requires passes { Q.is_pass (Q.name queue.now) first × Q.is_pass (Q.name queue.now) second }
    requires taker { Q.is_taker (Q.name queue.now) taker }
{
    let (given, taken) = thread::join(
        rt,
        move || -> u64
            requires { Q.is_pass (Q.name queue.now) first × Q.is_pass (Q.name queue.now) second }
        {
            let (one, two) = thread::join(
                rt,
                move || -> u64
                    requires { Q.is_pass (Q.name queue.now) first }
                { give_all(rt, queue, &mut first, 1, EACH) },
                move || -> u64
                    requires { Q.is_pass (Q.name queue.now) second }
                { give_all(rt, queue, &mut second, 2, EACH) },
            );
            one.saturating_add(two)
        },
        move || -> bool
            requires { Q.is_taker (Q.name queue.now) taker }
        { take_all(rt, queue, &mut taker, 2 * EACH) },
    );
    given == 2 * EACH && taken
}

#[test]
fn notes_come_back_in_order(rt: HostRuntime) -> Result<(), Fail> {
    assert!(rt; keeps_one(&rt, rt.alloc())? && keeps_four(&rt, rt.alloc())? && keeps_none(&rt));
    Ok(())
}

/// The same over a queue of this capacity.
fn meet_over<R: Threads + Wait + Sync>(rt: &R, alloc: Global, capacity: u32) -> Result<bool, Fail>
    requires { (1 ≤ capacity) × (capacity ≤ 4096) }
{
    let (queue, mut first, taker) = RuledReturns::new(alloc, capacity)?;
    let second = queue.split(&mut first);
    Ok(meet(rt, &queue, first, second, taker))
}

#[test]
fn two_threads_give_and_one_takes(rt: HostRuntime) -> Result<(), Fail> {
    assert!(rt; meet_over(&rt, rt.alloc(), 1)?);
    assert!(rt; meet_over(&rt, rt.alloc(), 3)?);
    assert!(rt; meet_over(&rt, rt.alloc(), 4_096)?);
    Ok(())
}
