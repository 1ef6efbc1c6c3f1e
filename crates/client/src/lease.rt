//! A segment that a client has, with the locks of its pages.
ghost use Rattle.std.specs.Prelude.{◌≡◌, ◌↔◌, ◌+◌, ◌≤◌, true, false, IsTrue, take, drop, length};
ghost use Rattle.segment.specs.Owned.{HasPages};
ghost use Rattle.std.specs.Borrow.{sem};
ghost use Rattle.units.specs.Moment.{IsMoment};
ghost use Rattle.page_locks.specs.Locks.{AreFree, AreLocked, IsRange};
ghost use Rattle.client.specs.Lease.{Lease, IsLease, LocksPages, UnlocksPages, LooksAt, pages_at};

use crate::answers::Unlocked;
use page_locks::PageLocks;
use segment::{Lock, OwnerSide};
use std::marker::Model;
use units::PAGE;
use units::row_search::NumberedRow;

/// A segment that a client has. Its side makes a step only where its first page is locked or its
/// last one is unlocked.
#[derive(Drop)]
pub(crate) struct LeasedSegment {
    side: OwnerSide,
    locks: PageLocks,
}

impl Model for LeasedSegment {
    ghost use Rattle.client.specs.Lease.{Lease};

    ghost Value = { Lease };

    ghost view = { λ s. record { side = s.side; locks = s.locks } };
}

impl NumberedRow for LeasedSegment {
    ghost use Rattle.client.specs.Seen.{is_lease};

    ghost is_of = { is_lease };

    fn number(&self) -> u64 {
        self.id()
    }

    fn is_of(&self, number: u64) -> bool {
        self.id() == number
    }
}

impl LeasedSegment {
    ghost use Rattle.client.specs.Lending.{LendsPages};

    /// A segment with these locks of its pages.
    pub(crate) fn new(side: OwnerSide, locks: PageLocks) -> LeasedSegment
        ensures { result ≡ record { side = side; locks = locks } }
    {
        LeasedSegment { side, locks }
    }

    /// Its number.
    pub(crate) fn id(&self) -> u64
        ensures { result ≡ self.now.side.id }
    {
        self.side.id()
    }

    /// How many pages it has.
    pub(crate) fn pages(&self) -> u32
        ensures { result ≡ self.now.side.pages }
    {
        self.side.pages()
    }

    /// Whether each page of a range is locked, or each is free.
    pub(crate) fn is_range(&self, first: u32, count: u32, locked: bool) -> bool
        ensures { IsTrue result ↔ IsRange locked self.now.locks first count }
    {
        if locked {
            self.locks.is_locked(first, count)
        } else {
            self.locks.is_free(first, count)
        }
    }

    /// Locks a range of free pages. Where no page is locked yet, the side is locked first, and Gone is
    /// its answer.
    pub(crate) fn lock(&mut self, first: u32, count: u32) -> Lock
        requires lease { IsLease self.old }
        requires free { AreFree self.old.locks first count }
        ensures locks { LocksPages first count result self.old self.new }
        ensures lease { IsLease self.new }
    {
        if self.locks.count() == 0 && self.side.lock() == Lock::Gone {
            return Lock::Gone;
        }
        self.locks.lock(first, count);
        Lock::Held
    }

    /// Unlocks a range of locked pages. Where no page stays locked, the side is unlocked at the moment.
    pub(crate) fn unlock(&mut self, first: u32, count: u32, now: u64) -> Unlocked
        requires lease { IsLease self.old }
        requires locked { AreLocked self.old.locks first count }
        requires moment { IsMoment now }
        ensures unlocks { UnlocksPages first count now result self.old self.new }
        ensures lease { IsLease self.new }
    {
        self.locks.unlock(first, count);
        let pages = self.locks.count();
        if pages > 0 {
            return Unlocked::Held { pages };
        }
        self.side.unlock(now);
        Unlocked::Idle {
            at: self.side.last(),
        }
    }

    /// Whether the segment was not purged yet. Where no page is locked, its side looks.
    pub(crate) fn look(&mut self) -> bool
        requires lease { IsLease self.old }
        ensures looks { LooksAt result self.old self.new }
        ensures lease { IsLease self.new }
    {
        self.side.resident()
    }

    /// The bytes of a range of locked pages.
    pub(crate) fn bytes(&self, first: u32, count: u32) -> &[u8]
        requires lease { IsLease self.now }
        requires locked { AreLocked self.now.locks first count }
        ensures value { result.now ≡ pages_at first count self.now.side.bytes }
        ensures pages { HasPages self.now.side }
    {
        let bytes = self.side.bytes();
        let first = first as usize * PAGE as usize;
        let length = count as usize * PAGE as usize;
        &bytes[first..][..length]
    }

    /// The bytes of a range of locked pages, to be written.
    pub(crate) fn bytes_mut(&mut self, first: u32, count: u32) -> &mut [u8]
        requires lease { IsLease self.old }
        requires locked { AreLocked self.old.locks first count }
        ensures* writes_back { sem 𝓛 (LendsPages self.entry first result) }
        ensures value { result.now ≡ pages_at first count self.old.side.bytes }
        ensures pages { HasPages self.old.side }
    {
        // For the proof: calls up the clause `pages` of `OwnerSide::bytes`.
        let _ = self.side.bytes();
        let first = first as usize * PAGE as usize;
        let length = count as usize * PAGE as usize;
        self.side.part_mut(first, length)
    }

    /// Its side.
    pub(crate) fn into_side(self) -> OwnerSide
        ensures { result ≡ self.side }
    {
        let LeasedSegment { side, .. } = self;
        side
    }
}
