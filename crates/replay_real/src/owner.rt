ghost use Rattle.std.specs.Prelude.{◌≡◌, ◌≢◌, ℕ, ◌+◌, ◌*◌, ◌<◌, ◌≤◌, ◌^◌, true, ◌&&◌, ◌∷◌, length};
ghost use Rattle.std.specs.Prelude.{take, drop, is_some, IfOk, IfSome, IsSome, IsNone};
ghost use Rattle.units.specs.declared.TheConstants.{PAGE};
ghost use Rattle.units.specs.Moment.{IsMoment};
ghost use Rattle.machine.specs.declared.event.Event.TheVariants as event;
ghost use Rattle.machine.specs.declared.event.Answer.TheVariants as answer;
ghost use Rattle.machine.specs.History.{History, is_held, put};
ghost use Rattle.machine.specs.Answers.{answer_of, is_live, bytes_held};
ghost use Rattle.machine.specs.Segments.{Shows, IsUnknown};
ghost use Rattle.segment.specs.Owned.{new_owner, IsGranted};
ghost use Rattle.page_locks.specs.Locks.{locked_count, is_page_locked};
ghost use Rattle.replay_real.specs.Owner.{AfterHold};

use block_pool::Block;
use machine::Answer;
use page_locks::PageLocks;
use segment::{GiveUp, Lock, OwnerSide, Phase};
use std::alloc::Global;
use std::marker::Model;
use units::{NoMemory, PAGE};

/// The owner of a plain segment: its side, and the locks of its pages. The side holds exactly while
/// some page is locked.
#[derive(Drop)]
pub(crate) struct Owner {
    side: OwnerSide,
    locks: PageLocks,
}

impl Model for Owner {
    ghost use Rattle.machine.specs.KeptSegment.{KeptSegment};
    ghost use Rattle.replay_real.specs.Owner.{kept_by, IsOwner};

    ghost Value = { KeptSegment };

    ghost view = { λ o. kept_by o.side o.locks };

    ghost invariant = { λ o. IsOwner o.side o.locks };
}

impl Owner {
    /// The owner of a segment that was just granted: each of its pages is locked.
    pub(crate) fn new(alloc: Global, side: OwnerSide) -> Result<Owner, NoMemory>
        requires some { 1 ≤ side.pages }
        requires granted { IsGranted side.pages side }
        requires fresh { side ≡ new_owner side.table side.id side.bytes }
        ensures { IfOk result (λ owner. (h : History) (s client : ℕ) → IsUnknown h s
            → Shows ((event.Grant s client side.pages, answer.Granted s) ∷ h) s owner) }
    {
        let locks = PageLocks::all_locked(alloc, side.pages())?;
        Ok(Owner { side, locks })
    }

    /// Locks a range of pages. Where none was locked before, the side makes its step first, and
    /// may find the segment purged.
    pub(crate) fn lock(&mut self, first: u32, count: u32) -> Answer
        ensures answer { (h : History) (s : ℕ) → Shows h s self.old → result ≢ answer.Gone
            → result ≡ answer_of h (event.Lock s first count) }
        ensures after { (h : History) (s : ℕ) → Shows h s self.old → result ≢ answer.Gone
            → Shows ((event.Lock s first count, result) ∷ h) s self.new }
        ensures gone { result ≡ answer.Gone → self.new ≡ record self.old { gone = true } }
    {
        if !self.locks.is_free(first, count) {
            return Answer::Misuse;
        }
        match hold(&mut self.side) {
            Lock::Gone => Answer::Gone,
            Lock::Held => {
                self.locks.lock(first, count);
                Answer::Held
            }
        }
    }

    /// Unlocks a range of pages at a moment. Where no page stays locked, the side makes its step.
    pub(crate) fn unlock(&mut self, first: u32, count: u32, now: u64) -> Answer
        requires { IsMoment now }
        ensures answer { (h : History) (s : ℕ) → Shows h s self.old
            → result ≡ answer_of h (event.Unlock s first count now) }
        ensures after { (h : History) (s : ℕ) → Shows h s self.old
            → Shows ((event.Unlock s first count now, result) ∷ h) s self.new }
    {
        if !self.locks.is_locked(first, count) {
            return Answer::Misuse;
        }
        self.locks.unlock(first, count);
        let staying = self.locks.count();
        if staying > 0 {
            return Answer::StillHeld { pages: staying };
        }
        self.side.unlock(now);
        Answer::Idle {
            at: self.side.last(),
        }
    }

    /// Writes bytes at a place.
    pub(crate) fn write(&mut self, place: u64, bytes: &[u8]) -> Answer
        requires some { 0 < length bytes.now }
        requires near { place + length bytes.now ≤ 2 ^ 32 }
        ensures answer { (h : History) (s : ℕ) → Shows h s self.old
            → result ≡ answer_of h (event.Write s place bytes.now) }
        ensures after { (h : History) (s : ℕ) → Shows h s self.old
            → Shows ((event.Write s place bytes.now, result) ∷ h) s self.new }
    {
        if !holds(&self.locks, place, bytes.len() as u64) {
            return Answer::Misuse;
        }
        put(self.side.bytes_mut(), place as usize, bytes);
        Answer::Written
    }

    /// The bytes of a range where each lies in a locked page.
    pub(crate) fn read(&self, place: u64, count: u64) -> Option<&[u8]>
        requires some { 0 < count }
        requires near { place + count ≤ 2 ^ 32 }
        ensures told { (h : History) (s : ℕ) → Shows h s self.now
            → is_some result ≡ (is_live h s && bytes_held h s place count) }
        ensures bytes { IfSome result (λ bytes.
            bytes.now ≡ take count (drop place self.now.bytes)) }
        ensures few { IfSome result (λ bytes. length bytes.now ≤ count) }
    {
        if !holds(&self.locks, place, count) {
            return None;
        }
        let (start, count) = (place as usize, count as usize);
        Some(&self.side.bytes()[start..start + count])
    }

    /// Gives the segment up: its block comes back, or it was purged.
    pub(crate) fn give_up(self) -> Option<Block>
        ensures bytes { IfSome result (λ block. block ≡ self.bytes) }
        ensures held { 0 < locked_count self.held → IsSome result }
        ensures gone { self.gone ≡ true → IsNone result }
    {
        let Owner { side, .. } = self;
        match side.give_up() {
            GiveUp::Whole(block) => Some(block),
            GiveUp::Gone(_) => None,
        }
    }
}

/// Makes a side hold, by a step where it does not hold yet; or it is gone.
fn hold(side: &mut OwnerSide) -> Lock
    ensures { AfterHold result side.old side.new }
{
    match side.phase() {
        Phase::Held => Lock::Held,
        Phase::Idle | Phase::Gone => side.lock(),
    }
}

/// Whether each byte of a range lies in a locked page.
fn holds(locks: &PageLocks, place: u64, count: u64) -> bool
    requires some { 0 < count }
    requires near { place + count ≤ 2 ^ 32 }
    ensures told { (h : History) (s : ℕ)
        → ((page : ℕ) → is_page_locked locks.now page ≡ is_held h s page)
        → result ≡ bytes_held h s place count }
    ensures inside { result ≡ true → place + count ≤ PAGE * length locks.now }
    ensures locked { result ≡ true → 0 < locked_count locks.now }
{
    let first = (place / PAGE) as u32;
    let last = ((place + (count - 1)) / PAGE) as u32;
    locks.is_locked(first, last - first + 1)
}

/// Puts bytes at a place.
pub(crate) fn put(old: &mut [u8], place: usize, bytes: &[u8])
    requires { place + length bytes.now ≤ length old.old }
    ensures { old.new ≡ put place bytes.now old.old }
{
    old[place..place + bytes.len()].copy_from_slice(bytes);
}
