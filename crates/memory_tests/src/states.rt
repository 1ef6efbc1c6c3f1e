ghost use Rattle.units.specs.Moment.{IsMoment};

use block_pool::Pool;
use lru_reduce::Reduced;
use manager_state::{Back, Level, State, Tried};
use segment::Lock;
use std::alloc::Global;
use std::test::Fail;
use units::{LAST_MOMENT, MOST_PAGES, is_moment};

fn crosses_threads<T: Send>(value: T) -> T {
    value
}

/// The answer of a reduction.
pub(crate) fn told(after: u128, least: Option<u64>, purges: u64) -> Reduced {
    Reduced {
        after,
        least,
        purges,
    }
}

/// A call on a state, and what it is to answer: of a reduction what is left, the least known use,
/// and how many were purged.
#[derive(Clone, Copy)]
enum Call {
    /// A grant to a client of so many pages, which then leaves them at this moment.
    Leave(u32, u32, u64),
    /// The same, which holds on to them.
    Hold(u32, u32),
    Try(u64, Tried),
    Back(u32, u64, Back),
    Reduce(u64, u128, Option<u64>, u64),
    Enforce(u128, Option<u64>, u64),
    Press(Level, u128, Option<u64>, u64),
    Limit(u64, u128, Option<u64>, u64),
    Remove(u32, u64),
    Granted(u128),
    Entries(usize),
    /// So many grants of one page, all of which stay.
    Fill(u32),
    /// So many grants of one page, each given back before the next.
    Turns(u32),
}

/// A call at a moment.
#[derive(Clone, Copy)]
struct At(u64, Call);

/// Whether a call at a moment answers what it is to answer.
fn answers(state: &mut State, alloc: Global, now: u64, call: Call) -> Result<bool, Fail>
    requires { IsMoment now }
{
    Ok(match call {
        Call::Leave(client, pages, stamp) => grants(state, alloc, client, pages, now, stamp)?,
        Call::Hold(client, pages) => grants(state, alloc, client, pages, now, 0)?,
        Call::Try(id, want) => state.try_one(id, now) == want,
        Call::Back(client, id, want) => state.back(client, id, None) == want,
        Call::Reduce(limit, after, least, purges) => {
            state.reduce_to(alloc, limit, now)? == told(after, least, purges)
        }
        Call::Enforce(after, least, purges) => {
            state.enforce(alloc, now)? == told(after, least, purges)
        }
        Call::Press(level, after, least, purges) => {
            state.pressure(alloc, level, now)? == told(after, least, purges)
        }
        Call::Limit(limit, after, least, purges) => {
            let right = state.set_limit(alloc, limit, now)? == told(after, least, purges);
            right && state.limit() == limit
        }
        Call::Remove(client, count) => state.remove_client(client) == count,
        Call::Granted(pages) => state.granted() == pages,
        Call::Entries(count) => state.book().entries().len() == count,
        Call::Fill(count) => fills(state, alloc, count, now)?,
        Call::Turns(count) => turns(state, alloc, count, now)?,
    })
}

/// Whether each of so many grants of one page has the next number.
fn fills(state: &mut State, alloc: Global, count: u32, now: u64) -> Result<bool, Fail>
    requires { IsMoment now }
{
    let mut right = true;
    for _ in 0..count {
        let id = state.grant(alloc, 1, 1, now)?.id();
        right &= id == state.book().grants();
    }
    Ok(right)
}

/// Whether each of so many grants of one page is counted off at its return.
fn turns(state: &mut State, alloc: Global, count: u32, now: u64) -> Result<bool, Fail>
    requires { IsMoment now }
{
    let mut right = true;
    for _ in 0..count {
        let id = state.grant(alloc, 1, 1, now)?.id();
        right &= state.back(1, id, None) == Back::Counted;
    }
    Ok(right)
}

/// Grants a segment, and leaves it where the stamp is a moment.
fn grants(
    state: &mut State,
    alloc: Global,
    client: u32,
    pages: u32,
    now: u64,
    stamp: u64,
) -> Result<bool, Fail>
    requires { IsMoment now }
{
    if client == 0 || pages == 0 || pages > MOST_PAGES {
        return Ok(false);
    }
    let mut owner = state.grant(alloc, client, pages, now)?;
    if is_moment(stamp) {
        owner.unlock(stamp);
    }
    Ok(true)
}

/// Whether calls on a new state answer what they are to answer.
fn runs(alloc: Global, limit: u64, calls: &[At]) -> Result<bool, Fail> {
    let mut state = State::new(alloc, limit, 0)?;
    for &At(now, call) in calls {
        if !is_moment(now) || !answers(&mut state, alloc, now, call)? {
            return Ok(false);
        }
    }
    Ok(true)
}

const REDUCES: [At; 4] = [
    At(1, Call::Leave(1, 1, 5)),
    At(1, Call::Leave(1, 1, 8)),
    At(8, Call::Reduce(0, 1, Some(8), 1)),
    At(9, Call::Reduce(0, 0, None, 1)),
];

const YIELDS_TO_PRESSURE: [At; 7] = [
    At(1, Call::Leave(1, 1, LAST_MOMENT)),
    At(1, Call::Leave(1, 1, 2)),
    At(1, Call::Leave(1, 1, 3)),
    At(1, Call::Leave(1, 1, 4)),
    At(9, Call::Press(Level::Moderate, 2, Some(4), 2)),
    At(9, Call::Press(Level::Critical, 1, Some(LAST_MOMENT), 1)),
    At(
        LAST_MOMENT,
        Call::Press(Level::Critical, 1, Some(LAST_MOMENT), 0),
    ),
];

/// A grant that is not below the limit has no room, and nothing is reduced where nothing was
/// granted.
const ENFORCES: [At; 4] = [
    At(1, Call::Leave(1, 2, 3)),
    At(1, Call::Entries(1)),
    At(4, Call::Enforce(0, None, 1)),
    At(4, Call::Granted(0)),
];

/// A purged segment is not counted off again, and one that was counted off is not known any more.
const GIVES_BACK: [At; 10] = [
    At(1, Call::Leave(1, 2, 3)),
    At(5, Call::Try(1, Tried::Used { known: 3 })),
    At(5, Call::Try(1, Tried::Taken)),
    At(5, Call::Granted(0)),
    At(5, Call::Back(1, 1, Back::Purged)),
    At(6, Call::Leave(1, 1, 6)),
    At(6, Call::Back(1, 2, Back::Counted)),
    At(6, Call::Back(1, 2, Back::Unknown)),
    At(6, Call::Back(1, 9, Back::Unknown)),
    At(6, Call::Granted(0)),
];

const REMOVES: [At; 7] = [
    At(1, Call::Hold(1, 2)),
    At(1, Call::Hold(2, 1)),
    At(1, Call::Remove(1, 1)),
    At(1, Call::Granted(1)),
    At(1, Call::Back(1, 1, Back::Unknown)),
    At(3, Call::Limit(0, 1, Some(3), 0)),
    At(3, Call::Granted(1)),
];

/// Each of two clients loses its own segments, which were granted in turn.
const REMOVES_EACH: [At; 10] = [
    At(1, Call::Leave(1, 1, 1)),
    At(1, Call::Leave(2, 1, 1)),
    At(1, Call::Leave(1, 1, 1)),
    At(1, Call::Leave(2, 1, 1)),
    At(1, Call::Remove(1, 2)),
    At(1, Call::Granted(2)),
    At(1, Call::Remove(1, 0)),
    At(1, Call::Granted(2)),
    At(1, Call::Remove(2, 2)),
    At(1, Call::Granted(0)),
];

/// The greatest client and the longest segment, 5,001 live segments, and a book of 70,000 entries.
const AT_SIZE: [At; 7] = [
    At(1, Call::Leave(u32::MAX, MOST_PAGES, 1)),
    At(1, Call::Granted(65_536)),
    At(2, Call::Remove(u32::MAX, 1)),
    At(3, Call::Fill(5_001)),
    At(3, Call::Granted(5_001)),
    At(4, Call::Turns(32_499)),
    At(4, Call::Entries(70_001)),
];

/// A pool of 300 blocks keeps them, and lets the next one go.
fn keeps_many(alloc: Global) -> Result<bool, Fail> {
    let mut pool = Pool::new(alloc, 300)?;
    let mut blocks = Vec::new(alloc);
    for _ in 0..301 {
        blocks.push(pool.take(alloc, 1)?)?;
    }
    for block in blocks {
        pool.put(block);
    }
    Ok(pool.kept() == 300 && pool.made() == 301 && pool.pages_put() == 301)
}

/// A grant makes room by the segment that was left, and stands above the limit where that is not
/// enough.
fn makes_room(alloc: Global) -> Result<bool, Fail> {
    let mut state = crosses_threads(State::new(alloc, 4, 0)?);
    let mut first = state.grant(alloc, 1, 4, 1)?;
    let held = answers(&mut state, alloc, 2, Call::Hold(1, 1))?;
    let before = state.granted();
    first.unlock(3);
    let third = state.grant(alloc, 2, 5, 4)?;
    let after = state.granted();
    Ok(held && before == 5 && after == 6 && third.id() == 3 && first.lock() == Lock::Gone)
}

/// A grant with a block that was brought makes room as any other, keeps the block's bytes, and leaves
/// the pool what it had.
fn grants_with(alloc: Global) -> Result<bool, Fail> {
    let mut state = State::new(alloc, 4, 1)?;
    let mut first = state.grant(alloc, 1, 4, 1)?;
    first.unlock(3);
    let mut block = Pool::new(alloc, 0)?.take(alloc, 2)?;
    block.bytes_mut().fill(7);
    let second = state.grant_with(alloc, 2, block, 4)?;
    let told = second.id() == 2 && second.bytes().iter().all(|byte| *byte == 7);
    let kept = state.keeps_block(4) && !state.keeps_block(2);
    Ok(told && kept && state.granted() == 2 && first.lock() == Lock::Gone)
}

#[test]
fn grants_within_a_limit(rt: HostRuntime) -> Result<(), Fail> {
    assert!(rt; makes_room(rt.alloc())? && runs(rt.alloc(), 1, &ENFORCES)?);
    assert!(rt; grants_with(rt.alloc())?);
    Ok(())
}

#[test]
fn reductions(rt: HostRuntime) -> Result<(), Fail> {
    assert!(rt; runs(rt.alloc(), 16384, &REDUCES)? && runs(rt.alloc(), 5, &YIELDS_TO_PRESSURE)?);
    Ok(())
}

#[test]
fn segments_come_back(rt: HostRuntime) -> Result<(), Fail> {
    assert!(rt; runs(rt.alloc(), 16384, &GIVES_BACK)? && runs(rt.alloc(), 16384, &REMOVES)?);
    assert!(rt; runs(rt.alloc(), 16384, &REMOVES_EACH)?);
    Ok(())
}

#[test]
fn ends_of_size(rt: HostRuntime) -> Result<(), Fail> {
    assert!(rt; runs(rt.alloc(), 1 << 20, &AT_SIZE)? && keeps_many(rt.alloc())?);
    Ok(())
}
