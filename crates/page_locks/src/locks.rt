ghost use Rattle.std.specs.Prelude.{◌≡◌, ◌↔◌, IfOk, IsTrue};
ghost use Rattle.page_locks.specs.Locks.{locked_count, IsAllLocked, AreFree, AreLocked, IsRange};
ghost use Rattle.page_locks.specs.Locks.{LocksRange, UnlocksRange};

use std::alloc::Global;
use std::marker::Model;
use units::NoMemory;
use units::pages::{all_are, set_all};

/// Which pages of a segment are locked. Pages are counted from 0.
#[derive(Drop)]
pub struct PageLocks {
    /// For each page, whether it is locked.
    locked: Vec<bool>,
    /// How many are, so that no call counts them.
    count: u32,
}

impl Model for PageLocks {
    ghost use Rattle.std.specs.Prelude.{◌≡◌, ◌<◌, ◌^◌, List, Bool, vec_len};
    ghost use Rattle.page_locks.specs.Locks.{locked_count};

    ghost Value = { List Bool };

    ghost view = { λ l. l.locked.items };

    ghost invariant = { λ l.
        (l.count ≡ locked_count l.locked.items) × (vec_len l.locked < 2 ^ 32) };
}

impl PageLocks {
    /// The locks of a segment of `pages` pages, each of which is locked.
    pub fn all_locked(alloc: Global, pages: u32) -> Result<PageLocks, NoMemory>
        ensures { IfOk result (λ locks. IsAllLocked locks pages) }
    {
        Ok(PageLocks {
            locked: vec![in alloc; true; pages as usize]?,
            count: pages,
        })
    }

    /// Locks a range of pages, each of which is free (`is_free`).
    pub fn lock(&mut self, first: u32, count: u32)
        requires { AreFree self.old first count }
        ensures { LocksRange self.old self.new first count }
    {
        set_all(&mut self.locked, first as usize, count as usize, true);
        self.count += count;
    }

    /// Unlocks a range of pages, each of which is locked (`is_locked`).
    pub fn unlock(&mut self, first: u32, count: u32)
        requires { AreLocked self.old first count }
        ensures { UnlocksRange self.old self.new first count }
    {
        set_all(&mut self.locked, first as usize, count as usize, false);
        self.count -= count;
    }

    /// Whether there is a page in the range, it lies in the segment, and each of its pages is free.
    pub fn is_free(&self, first: u32, count: u32) -> bool
        ensures { IsTrue result ↔ AreFree self.now first count }
    {
        self.is_range(first, count, false)
    }

    /// Whether there is a page in the range, it lies in the segment, and each of its pages is locked.
    pub fn is_locked(&self, first: u32, count: u32) -> bool
        ensures { IsTrue result ↔ AreLocked self.now first count }
    {
        self.is_range(first, count, true)
    }

    /// How many pages are locked.
    pub fn count(&self) -> u32
        ensures { result ≡ locked_count self.now }
    {
        self.count
    }

    /// Whether the range has a page, lies in the segment, and each of its pages is as `locked` says.
    fn is_range(&self, first: u32, count: u32, locked: bool) -> bool
        ensures { IsTrue result ↔ IsRange locked self.now first count }
    {
        let end = u64::from(first) + u64::from(count);
        if count == 0 || end > self.locked.len() as u64 {
            return false;
        }
        all_are(&self.locked, first as usize, end as usize, locked)
    }
}
