//! The steps of a client's calls, each on one segment.
ghost use Rattle.std.specs.Prelude.{◌≡◌, ◌↔◌, ◌+◌, ◌<◌, ◌≤◌, true, false, IsTrue, IfSome, IfNone, Some, length, vec_len, slice_get, Contains, option_map, OnOk, OnErr, IfOk};
ghost use Rattle.std.specs.List.{remove};
ghost use Rattle.units.specs.Moment.{IsMoment};
ghost use Rattle.segment.specs.declared.owner.Lock.TheVariants as lock;
ghost use Rattle.span_heap.specs.Changes.{Drops, found_span};
ghost use Rattle.span_heap.specs.Heap.{IsPartition};
ghost use Rattle.span_heap.specs.Pick.{pick};
ghost use Rattle.span_heap.specs.Runs.{front_of};
ghost use Rattle.client.specs.Seen.{Seen, IsUnknown};
ghost use Rattle.client.specs.Gone.{has_side};
ghost use Rattle.client.specs.Lease.{Lease};
ghost use Rattle.client.specs.Pieces.{AllStay, OthersStay, IsUsed, IsFresh, LocksSo, UnlocksSo, StayElsewhere};
ghost use Rattle.client.specs.Calls.{LocksRun, UnlocksRun, FreesRun, TakesOut, HasSegment, LooksInto};
ghost use Rattle.client.specs.Places.{IsThere, IsSideAt, IsFirstFree, NoneAllFree};
ghost use Rattle.client.specs.Finding.{CarvesPick};

use crate::answers::Unlocked;
use crate::client::Client;
use crate::lease::LeasedSegment;
use segment::{Lock, OwnerSide};
use span_heap::{Heap, Span};

/// Takes a segment out of a row and out of a heap, which has it.
pub(crate) fn leave(leases: &mut Vec<LeasedSegment>, heap: &mut Heap, place: usize) -> OwnerSide
    requires inside { place < vec_len leases.old }
    requires there { HasSegment place leases.old.items heap.old }
    ensures side { IsSideAt place leases.old.items result }
    ensures leases { leases.new.items ≡ remove leases.old.items place }
    ensures fewer { vec_len leases.new + 1 ≡ vec_len leases.old }
    ensures heap { Drops heap.old heap.new result.id }
    ensures partition { IsPartition heap.new }
{
    let lease = leases.remove(place);
    heap.drop_segment(lease.id());
    lease.into_side()
}

impl Client {
    /// Takes the first `pages` pages of the run that a search picks.
    pub(crate) fn carve(&mut self, pages: u32) -> Option<Span>
        requires { 1 ≤ pages }
        ensures carves { CarvesPick pages result self.old self.new }
        ensures fresh { IfSome result (λ run. IsFresh run self.old self.new) }
        ensures stay { AllStay self.old self.new }
    {
        let slack = self.standard.saturating_sub(pages);
        self.heap.search(pages, slack)
    }

    /// Locks the free pages of a used span, whose segment stands at a place. Where no page of the segment is
    /// locked yet, its side is locked first; where that finds it gone, the segment leaves.
    pub(crate) fn lock_at(&mut self, place: usize, span: &Span) -> Lock
        requires used { IsUsed self.old span.now false }
        requires there { IsThere place span.now.segment self.old.leases }
        ensures locks { LocksRun span.now result self.old self.new }
        ensures leaves { LocksSo result span.now self.old self.new }
    {
        let lease = &mut self.leases[place];
        match lease.lock(span.first(), span.pages()) {
            Lock::Held => Lock::Held,
            Lock::Gone => {
                let side = leave(&mut self.leases, &mut self.heap, place);
                self.pages -= side.pages();
                self.gone.push(side);
                Lock::Gone
            }
        }
    }

    /// Unlocks the locked pages of a used span, whose segment stands at a place, at a moment. Where no page of
    /// the segment stays locked, its side is unlocked.
    pub(crate) fn unlock_at(&mut self, place: usize, span: &Span, now: u64) -> Unlocked
        requires used { IsUsed self.old span.now true }
        requires there { IsThere place span.now.segment self.old.leases }
        requires moment { IsMoment now }
        ensures unlocks { UnlocksRun span.now now result self.old self.new }
        ensures leaves { UnlocksSo span.now self.old self.new }
    {
        let lease = &mut self.leases[place];
        lease.unlock(span.first(), span.pages(), now)
    }

    /// Frees a used span of free pages.
    pub(crate) fn free_span(&mut self, span: Span)
        requires { IsUsed self.old span false }
        ensures frees { FreesRun span self.old self.new }
        ensures stay { OthersStay span self.old self.new }
    {
        self.heap.free(span);
    }

    /// Looks at the segment at a place, where no page of it is locked. False where it is found gone, and then
    /// it leaves.
    pub(crate) fn look(&mut self, place: usize) -> bool
        requires { place < length self.old.leases }
        ensures looks { LooksInto place result self.old self.new }
        ensures stay { AllStay self.old self.new }
    {
        let lease = &mut self.leases[place];
        let there = lease.look();
        if !there {
            let side = leave(&mut self.leases, &mut self.heap, place);
            self.pages -= side.pages();
            self.gone.push(side);
        }
        there
    }

    /// The place of the oldest segment that is all free, if there is one.
    pub(crate) fn free_place(&self) -> Option<usize>
        ensures some { IfSome result (λ place. IsFirstFree place self.now) }
        ensures none { IfNone result (NoneAllFree self.now) }
    {
        for place in 0..self.leases.len() {
            if self.heap.all_free(self.leases[place].id()) {
                return Some(place);
            }
        }
        None
    }

    /// Takes the segment at a place out, with its side.
    pub(crate) fn take_out(&mut self, place: usize) -> OwnerSide
        requires { place < length self.old.leases }
        ensures out { TakesOut place result self.old self.new }
        ensures unknown { IsUnknown result.id self.new }
        ensures stay { StayElsewhere result.id self.old self.new }
    {
        let side = leave(&mut self.leases, &mut self.heap, place);
        self.pages -= side.pages();
        self.taken += 1;
        side
    }
}
