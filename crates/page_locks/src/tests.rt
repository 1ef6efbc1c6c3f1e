use crate::PageLocks;
use std::alloc::Global;
use std::test::Fail;

fn crosses_threads<T: Send + Sync>(value: T) -> T {
    value
}

/// Locks of 5 pages, of which pages 1 and 3 are free.
fn two_free(alloc: Global) -> Result<PageLocks, Fail> {
    let mut locks = PageLocks::all_locked(alloc, 5)?;
    if locks.is_locked(1, 3) {
        locks.unlock(1, 3);
    }
    if locks.is_free(2, 1) {
        locks.lock(2, 1);
    }
    Ok(locks)
}

fn is_as(locks: &PageLocks, first: u32, count: u32, locked: bool, free: bool) -> bool {
    locks.is_locked(first, count) == locked && locks.is_free(first, count) == free
}

#[test]
fn ranges_are_locked_and_free(rt: HostRuntime) -> Result<(), Fail> {
    let locks = crosses_threads(two_free(rt.alloc())?);
    assert!(rt; locks.count() == 3);
    assert!(rt; is_as(&locks, 0, 1, true, false) && is_as(&locks, 1, 1, false, true));
    assert!(rt; is_as(&locks, 1, 0, false, false) && is_as(&locks, 0, 2, false, false));
    assert!(rt; is_as(&locks, 4, 1, true, false) && is_as(&locks, 4, 2, false, false));
    Ok(())
}
