ghost use Rattle.std.specs.Prelude.{◌≡◌, ◌≢◌, ◌≤◌, false, IfOk};
ghost use Rattle.segment.specs.declared.owner.Phase.TheVariants.{Held, Gone};

use crate::{GiveUp, Granter, Lock, OwnerSide, Phase, Purge, WardenSide, make};
use block_pool::{Block, Pool};
use std::alloc::Global;
use std::sync::Wait;
use std::test::Fail;
use std::thread;
use std::thread::Threads;
use units::NoMemory;

/// The two sides of a new segment with this number and a zero block of so many pages.
fn new_segment(alloc: Global, id: u64, pages: u32) -> Result<(OwnerSide, WardenSide), Fail>
    requires { (1 ≤ pages) × (pages ≤ 2) }
    ensures held { IfOk result (λ sides. sides.0.phase ≡ Held) }
    ensures free { IfOk result (λ sides. sides.1.taken ≡ false) }
{
    let mut pool = Pool::new(alloc, 0)?;
    let block = pool.take(alloc, pages)?;
    match make(alloc, id, block) {
        Ok(sides) => Ok(sides),
        Err(_) => Err("no memory".into()),
    }
}

/// Whether the two sides answer as they should, step by step.
fn worked(mut owner: OwnerSide, mut warden: WardenSide) -> bool
    requires held { owner.phase ≡ Held }
    requires free { warden.taken ≡ false }
{
    if owner.last() != 0 || warden.known().is_some() {
        return false;
    }
    owner.bytes_mut()[0] = 65;
    match warden.try_purge(3) {
        Purge::Used { known: 3 } => {}
        _ => return false,
    }
    owner.unlock(5);
    if owner.last() != 5 {
        return false;
    }
    match warden.try_purge(6) {
        Purge::Used { known: 5 } => {}
        _ => return false,
    }
    match owner.lock() {
        Lock::Held => {}
        Lock::Gone => return false,
    }
    if owner.bytes()[0] != 65 {
        return false;
    }
    owner.unlock(4);
    if owner.last() != 5 || !owner.resident() {
        return false;
    }
    match warden.try_purge(7) {
        Purge::Taken(block) => lost(owner) && block.pages() == 2,
        Purge::Used { .. } => false,
    }
}

/// Whether an owner that has left a purged segment finds it gone.
fn lost(mut owner: OwnerSide) -> bool
    requires { owner.phase ≢ Held }
{
    if owner.resident() || owner.phase() != Phase::Gone {
        return false;
    }
    match owner.lock() {
        Lock::Held => false,
        Lock::Gone => match owner.give_up() {
            GiveUp::Gone(side) => side.id() == 7,
            GiveUp::Whole(_) => false,
        },
    }
}

/// Whether a side that is given up is whole, with this first byte.
fn whole(owner: OwnerSide, first: u8) -> bool {
    match owner.give_up() {
        GiveUp::Whole(block) => block.bytes()[0] == first,
        GiveUp::Gone(_) => false,
    }
}

#[test]
fn the_sides_of_one_segment(rt: HostRuntime) -> Result<(), Fail> {
    let (owner, warden) = new_segment(rt.alloc(), 7, 2)?;
    assert!(rt; worked(owner, warden));
    let (mut owner, _warden) = new_segment(rt.alloc(), 8, 1)?;
    owner.bytes_mut()[0] = 66;
    assert!(rt; whole(owner, 66));
    let (mut owner, _warden) = new_segment(rt.alloc(), 9, 1)?;
    owner.bytes_mut()[0] = 67;
    owner.unlock(1);
    assert!(rt; whole(owner, 67));
    Ok(())
}

#[test]
fn a_granter_numbers_its_segments(rt: HostRuntime) -> Result<(), Fail> {
    let mut granter = OneByOne {
        pool: Pool::new(rt.alloc(), 0)?,
        grants: 0,
        returns: 0,
        greatest: 0,
    };
    let side = granter.grant(&rt, rt.alloc(), 1, 1, 1)?;
    assert!(rt; side.id() == 1 && granter.grants == 1);
    Ok(())
}

/// What came of an owner's rounds: the last one that held its segment again, whether one found it
/// gone, and whether each lock answered as it should.
#[derive(Clone, Copy)]
struct Rounds {
    held: u64,
    lost: bool,
    right: bool,
}

/// What came of a warden's tries: how many lost, and whether one won.
#[derive(Clone, Copy)]
struct Tries {
    lost: u64,
    won: bool,
}

/// In each round the owner fills its bytes, unlocks at a later moment, and locks again, until its
/// segment is gone.
fn own(mut side: OwnerSide, rounds: u64) -> Rounds
    requires held { side.phase ≡ Held }
    requires moments { rounds ≤ 10000 }
{
    let mut held = 0;
    for round in 1..=rounds {
        let mark = (round % 251) as u8;
        side.bytes_mut().fill(mark);
        side.unlock(round);
        thread::yield_now();
        if side.lock() == Lock::Gone {
            let right = stays_gone(side, rounds);
            return Rounds {
                held,
                lost: true,
                right,
            };
        }
        if !side.bytes().iter().all(|byte| *byte == mark) {
            return Rounds {
                held,
                lost: false,
                right: false,
            };
        }
        held = round;
    }
    Rounds {
        held,
        lost: false,
        right: true,
    }
}

/// Whether so many locks of a segment that is gone find it gone.
fn stays_gone(mut side: OwnerSide, locks: u64) -> bool
    requires { side.phase ≡ Gone }
{
    for _ in 0..locks {
        if side.lock() == Lock::Held {
            return false;
        }
    }
    true
}

/// The warden tries at later and later moments, until it has taken the block.
fn guard(mut side: WardenSide, tries: u64) -> Tries
    requires free { side.taken ≡ false }
    requires moments { tries ≤ 1000000 }
{
    let mut lost = 0;
    for now in 1..=tries {
        if let Purge::Taken(_) = side.try_purge(now) {
            return Tries { lost, won: true };
        }
        lost = now;
        thread::yield_now();
    }
    Tries { lost, won: false }
}

/// Both sides of a segment in threads of their own.
fn race<R: Threads + Sync>(
    rt: &R,
    owner: OwnerSide,
    warden: WardenSide,
    rounds: u64,
    tries: u64,
) -> (Tries, Rounds)
    requires held { owner.phase ≡ Held }
    requires free { warden.taken ≡ false }
    requires moments { (rounds ≤ 10000) × (tries ≤ 1000000) }
{
    thread::join(
        rt,
        move || -> Tries
            requires { (warden.taken ≡ false) × (tries ≤ 1000000) }
        { guard(warden, tries) },
        move || -> Rounds
            requires { (owner.phase ≡ Held) × (rounds ≤ 10000) }
        { own(owner, rounds) },
    )
}

/// Races of at most 100 rounds, 200 of them and then more until locks and tries have both won and
/// lost. It answers whether all four came about.
fn races<R: Threads + Sync>(rt: &R, alloc: Global) -> Result<bool, Fail> {
    let (mut held, mut lost, mut used, mut taken) = (0u64, 0u64, 0u64, 0u64);
    for id in 1..=20_000 {
        let (owner, warden) = new_segment(alloc, id, 1)?;
        let (tries, rounds) = race(rt, owner, warden, 100, 100);
        if !rounds.right {
            return Err("a lock answered wrongly".into());
        }
        held = held.saturating_add(rounds.held);
        used = used.saturating_add(tries.lost);
        lost = lost.saturating_add(u64::from(rounds.lost));
        taken = taken.saturating_add(u64::from(tries.won));
        if id >= 200 && held > 0 && lost > 0 && used > id && taken > 0 {
            return Ok(true);
        }
    }
    Ok(false)
}

#[test]
fn both_sides_in_threads_of_their_own(rt: HostRuntime) -> Result<(), Fail> {
    let both = races(&rt, rt.alloc())?;
    assert!(rt; both || thread::available_parallelism(&rt)?.get() < 2);
    let (owner, warden) = new_segment(rt.alloc(), 1, 1)?;
    let (_tries, rounds) = race(&rt, owner, warden, 10_000, 1_000_000);
    assert!(rt; rounds.right);
    Ok(())
}

/// A granter that numbers its segments from 1 and lets their wardens go.
#[derive(Drop)]
struct OneByOne {
    pool: Pool,
    grants: u64,
    returns: u64,
    greatest: u64,
}

impl Granter for OneByOne {
    ghost grants = { λ g. g.grants };

    ghost returns = { λ g. g.returns };

    ghost greatest = { λ g. g.greatest };

    ghost granted_to = { λ _ _ _ _ _. Unit {0} };

    ghost took_back = { λ _ _ _ _ _. Unit {0} };

    ghost Standing = { Unit {0} };

    ghost standing = { λ _. tt };

    fn grant<H: Threads + Wait + Sync>(
        &mut self,
        _rt: &H,
        alloc: Global,
        _client: u32,
        pages: u32,
        _now: u64,
    ) -> Result<OwnerSide, NoMemory> {
        let id = self.greatest.checked_add(1).ok_or(NoMemory)?;
        let block = self.pool.take(alloc, pages)?;
        let Ok((owner, _warden)) = make(alloc, id, block) else {
            return Err(NoMemory);
        };
        self.greatest = id;
        self.grants = self.grants.saturating_add(1);
        Ok(owner)
    }

    fn give_back<H: Threads + Wait + Sync>(
        &mut self,
        _rt: &H,
        _client: u32,
        _id: u64,
        block: Option<Block>,
    ) {
        if let Some(block) = block {
            self.pool.put(block);
        }
        self.returns = self.returns.saturating_add(1);
    }
}
