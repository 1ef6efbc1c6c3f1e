#![tactic(auto)]
//! `guide`: how a program uses soft memory, as `docs/GUIDE.md` tells it. One client builds more tables than the limit
//! lets it keep, loses the rest under pressure and builds some again; then two clients in threads of their own share the
//! limit. What it prints is the same whatever the schedule.

ghost use Rattle.std.specs.Prelude.{◌≡◌, ◌≤◌, false};
ghost use Rattle.return_queue.specs.Name.{no_queue};

mod tables;

use crate::tables::Tables;
use client::{Client, ClientFault, Granted};
use manager::{Fixed, Level, Manager, State};
use return_queue::PlainReturns;
use segment::Granter;
use std::alloc::Global;
use std::marker::Brand;
use std::sync::Wait;
use std::sync::ledger::Ledger;
use std::thread::Threads;
use std::{io, thread};
use units::{NoMemory, is_moment};

/// The most pages that the manager aims at.
const LIMIT: u64 = 12;

/// How many pages a client asks for at a time: two tables share a segment.
const STANDARD: u32 = 4;

/// What came of a client alone.
#[derive(Clone, Copy)]
struct Alone {
    built: u64,
    enforced: u128,
    under_pressure: u128,
    again: u64,
    tidied: u64,
    grants: u64,
    lost: u64,
}

/// What came of a client in a thread of its own.
#[derive(Clone, Copy)]
struct Worked {
    right: u64,
    grants: u64,
}

/// No tables yet, of a client with this number over what grants its segments.
fn new_tables<Q: Granter + Drop>(
    alloc: Global,
    granter: Q,
    number: u32,
) -> Result<Tables<Q>, NoMemory>
    requires { 1 ≤ number }
{
    let client = Client::new(alloc, number, STANDARD)?;
    Ok(Tables::new(alloc, Granted::new(client, granter)))
}

/// Looks the last byte of each key's table up, and the one after it, at moments from this one on, and tells how many
/// keys are right.
fn look_up<Q: Granter + Drop, H: Threads + Wait + Sync>(
    rt: &H,
    alloc: Global,
    tables: &mut Tables<Q>,
    keys: &[u8],
    from: u64,
) -> u64 {
    let mut right = 0u64;
    let mut now = from;
    for key in keys {
        if is_moment(now)
            && matches!(tables.look_up(rt, alloc, *key, 8191, now), Ok(Some(byte)) if byte == *key)
            && matches!(tables.look_up(rt, alloc, *key, 8192, now), Ok(None))
        {
            right = right.saturating_add(1);
        }
        now = now.saturating_add(1);
    }
    right
}

/// One client uses more than the limit, so that what it used least is purged; it loses the rest under pressure, builds
/// two tables again, and gives all back.
fn one_client<F: Fixed, G: Ledger, E: Ledger, H: Threads + Wait + Sync>(
    rt: &H,
    alloc: Global,
    manager: &Manager<PlainReturns, F, G, E>,
) -> Result<Alone, ClientFault>
    requires { F.counts ≡ false }
{
    let mut tables = new_tables(alloc, manager.handle(), 1)?;
    let built = look_up(rt, alloc, &mut tables, &[1, 2, 3, 4, 5, 6, 7, 8, 8], 1);
    let enforced = manager.enforce(rt, alloc, 10)?.after;
    let under_pressure = manager.pressure(rt, alloc, Level::Critical, 11)?.after;
    let again = look_up(rt, alloc, &mut tables, &[7, 8], 12);
    tables.forget(7, 14);
    tables.forget(8, 15);
    let tidied = tables.tidy(rt);
    let end = tables.close(rt);
    Ok(Alone {
        built,
        enforced,
        under_pressure,
        again,
        tidied,
        grants: end.grants,
        lost: end.gone.len(),
    })
}

/// What a client does in its thread: four tables of two pages, used in turn.
fn work<Q: Granter + Drop, H: Threads + Wait + Sync>(
    rt: &H,
    alloc: Global,
    granter: Q,
    number: u32,
) -> Result<Worked, NoMemory>
    requires { 1 ≤ number }
{
    let mut tables = new_tables(alloc, granter, number)?;
    let right = look_up(rt, alloc, &mut tables, &[1, 2, 3, 4, 1, 2, 3, 4], 16);
    let grants = tables.close(rt).grants;
    Ok(Worked { right, grants })
}

/// Two clients in threads of their own, over granters that share the limit, use more than it.
fn two_clients<Q: Granter + Drop + Send, H: Threads + Wait + Sync>(
    rt: &H,
    alloc: Global,
    one: Q,
    two: Q,
) -> Result<(Worked, Worked), NoMemory> {
    let (one, two) = thread::join(
        rt,
        move || -> Result<Worked, NoMemory> { work(rt, alloc, one, 2) },
        move || -> Result<Worked, NoMemory> { work(rt, alloc, two, 3) },
    );
    Ok((one?, two?))
}

/// A manager of this state, from its making to the state that it leaves, and how many notes were drained.
fn run<F, G, E, H>(
    rt: &H,
    alloc: Global,
    state: State,
) -> Result<(Alone, (Worked, Worked), u64, State), ClientFault>
where
    F: Fixed + Send + Sync,
    G: Ledger + Send + Sync,
    E: Ledger + Send + Sync,
    H: Threads + Wait + Sync,
    requires limit { state.limit ≡ F.limit }
    requires entries { state.entries ≡ F.handed }
    requires queue { F.queue ≡ no_queue }
    requires counts { F.counts ≡ false }
{
    let manager = Manager::<PlainReturns, F, G, E>::new(state);
    let alone = one_client(rt, alloc, &manager)?;
    let together = two_clients(rt, alloc, manager.handle(), manager.handle())?;
    let (_returns, pass, _taker) = PlainReturns::new();
    let drained = manager.drain(rt, pass);
    Ok((alone, together, drained, manager.finish()))
}

fn main(rt: HostRuntime) -> io::Result<()> {
    let alloc = rt.alloc();
    let Ok(state) = State::new(alloc, LIMIT, 0) else {
        return println!(rt; "out of memory");
    };
    let ran = run::<Brand, Brand, Brand, HostRuntime>(&rt, alloc, state);
    let Ok((alone, (second, third), drained, state)) = ran else {
        return println!(rt; "out of memory");
    };
    println!(rt; "client 1: {} of 9 look-ups are right", alone.built)?;
    println!(rt; "enforced: {} pages are granted", alone.enforced)?;
    println!(rt; "pressure: {} pages are granted", alone.under_pressure)?;
    println!(rt; "client 1: {} of 2 look-ups are right", alone.again)?;
    println!(rt;
        "client 1: segments granted {}, purged {}, given back whole {}",
        alone.grants, alone.lost, alone.tidied
    )?;
    println!(rt; "client 2: {} of 8 look-ups are right", second.right)?;
    println!(rt; "client 3: {} of 8 look-ups are right", third.right)?;
    println!(rt; "drained: {} notes", drained)?;
    let grants = alone
        .grants
        .saturating_add(second.grants)
        .saturating_add(third.grants);
    println!(rt;
        "the end: {} pages are granted, and the book has each grant: {}",
        state.granted(),
        state.book().grants() == grants
    )
}
