//! The calls of a segment's two sides, nobody else at it, beside the same exchanges and loads on a
//! plain word.
ghost use Rattle.std.specs.Prelude.{◌≡◌, ◌≢◌, ◌≤◌, false, IfSome};
ghost use Rattle.units.specs.declared.TheConstants.{LAST_MOMENT};
ghost use Rattle.segment.specs.declared.owner.Phase.TheVariants.{Held};

use block_pool::Pool;
use segment::{Lock, OwnerSide, Purge, WardenSide, make};
use std::alloc::{AllocError, Global};
use std::io;
use std::sync::atomic::AtomicU64;
use std::sync::atomic::Ordering::SeqCst;
use std::time::{Clock, Duration, Instant};

/// How many turns are timed together.
const TURNS: u64 = 1_000_000;

/// How often they are timed: the least time counts.
const RUNS: u32 = 12;

/// The least times of one turn, in picoseconds.
#[derive(Clone, Copy)]
pub struct Times {
    pub ours: u128,
    pub plain: u128,
}

impl Times {
    /// No time was measured yet.
    pub(crate) fn none() -> Times {
        Times {
            ours: u128::MAX,
            plain: u128::MAX,
        }
    }

    /// With the times of one more run of so many turns.
    pub(crate) fn with(self, turns: u64, ours: Duration, plain: Duration) -> Times
        requires { 1 ≤ turns }
    {
        Times {
            ours: self.ours.min(each(ours, turns)),
            plain: self.plain.min(each(plain, turns)),
        }
    }
}

/// The picoseconds of each of so many turns.
fn each(time: Duration, turns: u64) -> u128
    requires { 1 ≤ turns }
{
    time.as_nanos().saturating_mul(1000) / u128::from(turns)
}

/// The sides of a new segment of one page.
fn new_segment(alloc: Global) -> Option<(OwnerSide, WardenSide)>
    ensures held { IfSome result (λ sides. sides.0.phase ≡ Held) }
    ensures free { IfSome result (λ sides. sides.1.taken ≡ false) }
{
    let mut pool = Pool::new(alloc, 0).ok()?;
    let block = pool.take(alloc, 1).ok()?;
    make(alloc, 1, block).ok()
}

/// Locks and unlocks beside two exchanges.
pub fn locks<C: Clock>(clock: &C, alloc: Global) -> io::Result<Times> {
    let mut times = Times::none();
    for _ in 0..RUNS {
        let Some((mut owner, _warden)) = new_segment(alloc) else {
            return Err(AllocError.into());
        };
        owner.unlock(1);
        let start = Instant::now(clock)?;
        lock_and_unlock(&mut owner, TURNS);
        let ours = start.elapsed(clock)?;
        let word = AtomicU64::new(2);
        let start = Instant::now(clock)?;
        exchange_twice(&word, TURNS);
        times = times.with(TURNS, ours, start.elapsed(clock)?);
    }
    Ok(times)
}

#[inline(never)]
fn lock_and_unlock(owner: &mut OwnerSide, turns: u64)
    requires idle { owner.old.phase ≢ Held }
    requires moments { turns ≤ LAST_MOMENT }
{
    for now in 1..=turns {
        if owner.lock() == Lock::Held {
            owner.unlock(now);
        }
    }
}

#[inline(never)]
fn exchange_twice(word: &AtomicU64, turns: u64)
    requires { turns ≤ LAST_MOMENT }
{
    for now in 1..=turns {
        let _ = word.compare_exchange(2 * now, 1, SeqCst, SeqCst);
        let _ = word.compare_exchange(1, 2 * now + 2, SeqCst, SeqCst);
    }
}

/// Tries that lose beside an exchange that fails.
pub fn tries<C: Clock>(clock: &C, alloc: Global) -> io::Result<Times> {
    let mut times = Times::none();
    for _ in 0..RUNS {
        let Some((_owner, mut warden)) = new_segment(alloc) else {
            return Err(AllocError.into());
        };
        let start = Instant::now(clock)?;
        lose_tries(&mut warden, TURNS);
        let ours = start.elapsed(clock)?;
        let word = AtomicU64::new(1);
        let start = Instant::now(clock)?;
        fail_exchanges(&word, TURNS);
        times = times.with(TURNS, ours, start.elapsed(clock)?);
    }
    Ok(times)
}

#[inline(never)]
fn lose_tries(warden: &mut WardenSide, turns: u64)
    requires free { warden.old.taken ≡ false }
    requires moments { turns ≤ LAST_MOMENT }
{
    for now in 1..=turns {
        if let Purge::Taken(_) = warden.try_purge(now) {
            return;
        }
    }
}

#[inline(never)]
fn fail_exchanges(word: &AtomicU64, turns: u64)
    requires { turns ≤ LAST_MOMENT }
{
    for now in 1..=turns {
        let _ = word.compare_exchange(2 * now, 0, SeqCst, SeqCst);
    }
}

/// Looks beside a load.
pub fn looks<C: Clock>(clock: &C, alloc: Global) -> io::Result<Times> {
    let mut times = Times::none();
    for _ in 0..RUNS {
        let Some((mut owner, _warden)) = new_segment(alloc) else {
            return Err(AllocError.into());
        };
        owner.unlock(1);
        let start = Instant::now(clock)?;
        look_on(&mut owner, TURNS);
        let ours = start.elapsed(clock)?;
        let word = AtomicU64::new(2);
        let start = Instant::now(clock)?;
        load_on(&word, TURNS);
        times = times.with(TURNS, ours, start.elapsed(clock)?);
    }
    Ok(times)
}

/// Looks until the segment is gone. A look and a load are calls of their own, so that both loops
/// are alike: inlined, either is a few cycles, which the place of the loop in memory doubles.
#[inline(never)]
fn look_on(owner: &mut OwnerSide, turns: u64) {
    for _ in 0..turns {
        if !look(owner) {
            return;
        }
    }
}

#[inline(never)]
fn look(owner: &mut OwnerSide) -> bool {
    owner.resident()
}

/// Loads until the word is 0.
#[inline(never)]
fn load_on(word: &AtomicU64, turns: u64) {
    for _ in 0..turns {
        if !load(word) {
            return;
        }
    }
}

#[inline(never)]
fn load(word: &AtomicU64) -> bool {
    word.load(SeqCst) != 0
}
