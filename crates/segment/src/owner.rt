ghost use Rattle.std.specs.Prelude.{◌≡◌, ◌≢◌, ◌≤◌, ◌+◌, Some, [], length, take, drop};
ghost use Rattle.std.specs.Borrow.{sem};
ghost use Rattle.units.specs.Moment.{IsMoment};
ghost use Rattle.units.specs.declared.TheConstants.{MOST_PAGES};
ghost use Rattle.segment.specs.Found.{LockFinds, LookFinds};
ghost use Rattle.segment.specs.Owned.{Owned, IsOwned, AfterLock, after_unlock, AfterLook, HasPages};
ghost use Rattle.segment.specs.declared.owner.Phase.TheVariants.{Held, Idle, Gone};

use block_pool::Block;
use segment_rule::OwnerSeat;
use std::marker::Model;

/// What the owner knows of its segment.
#[derive(Clone, Copy, Debug, PartialEq, Eq)]
pub enum Phase {
    /// Some page is held, so the segment cannot be purged.
    Held,
    /// No page is held: the segment may be purged at any time.
    Idle,
    /// The segment was purged: its bytes are gone for good.
    Gone,
}

/// What a lock answers.
#[derive(Clone, Copy, Debug, PartialEq, Eq)]
pub enum Lock {
    /// The segment is held, with the bytes left at the last unlock.
    Held,
    /// The segment was purged.
    Gone,
}

/// The owner's side of a segment.
///
/// A new side holds. `unlock` makes it idle, and from then on the warden may purge the segment.
/// `lock` makes it held again, or finds that it was purged: then it is gone, and stays so. Its block
/// is in its hand while it holds, at the segment's home while it is idle, and is never copied. No
/// call takes memory, and none waits.
#[derive(Drop)]
pub struct OwnerSide {
    seat: OwnerSeat,
    /// The block, while it holds.
    block: Option<Block>,
    id: u64,
    pages: u32,
    phase: Phase,
    last: u64,
}

impl Model for OwnerSide {
    ghost use Rattle.segment.specs.Owned.{Owned, bytes_of, IsOwned};

    ghost Value = { Owned };

    ghost view = { λ s. record {
      table = s.seat.table;
      id = s.id;
      pages = s.pages;
      phase = s.phase;
      last = s.last;
      left = s.seat.known.left;
      bytes = bytes_of s.block;
      steps = s.seat.known.steps;
    } };

    ghost invariant = { λ s. IsOwned s.seat.known s.block s.id s.pages s.phase s.last };
}

impl OwnerSide {
    ghost use Rattle.segment.specs.Lending.{LendsBytes, LendsPart};

    /// A side that holds this block.
    pub(crate) fn held(seat: OwnerSeat, block: Block, id: u64, pages: u32) -> OwnerSide
        requires { IsOwned seat.known (Some block) id pages Held 0 }
        ensures { result ≡ record {
          table = seat.table;
          id = id;
          pages = pages;
          phase = Held;
          last = 0;
          left = seat.known.left;
          bytes = block;
          steps = seat.known.steps;
        } }
    {
        OwnerSide {
            seat,
            block: Some(block),
            id,
            pages,
            phase: Phase::Held,
            last: 0,
        }
    }

    /// The segment's number.
    pub fn id(&self) -> u64
        ensures { result ≡ self.now.id }
    {
        self.id
    }

    /// How many pages the segment has, from 1 to 65,536.
    pub fn pages(&self) -> u32
        ensures value { result ≡ self.now.pages }
        ensures least { 1 ≤ self.now.pages }
        ensures most { self.now.pages ≤ MOST_PAGES }
    {
        self.pages
    }

    /// What the owner knows of the segment.
    pub fn phase(&self) -> Phase
        ensures { result ≡ self.now.phase }
    {
        self.phase
    }

    /// The stamp of the last unlock, or 0 before the first.
    pub fn last(&self) -> u64
        ensures { result ≡ self.now.last }
    {
        self.last
    }

    /// Locks a segment that is not held. From Idle it makes one step: the segment is held with the
    /// bytes left at the last unlock, or it is gone, exactly where that step found it purged. From
    /// Gone it makes none.
    pub fn lock(&mut self) -> Lock
        requires { self.old.phase ≢ Held }
        ensures after { AfterLock self.old.phase result self.old self.new }
        ensures found { LockFinds self.old.phase result self.old self.new }
    {
        if self.phase == Phase::Gone {
            return Lock::Gone;
        }
        if self.seat.lock(self.last, &mut self.block) {
            self.phase = Phase::Held;
            Lock::Held
        } else {
            self.phase = Phase::Gone;
            Lock::Gone
        }
    }

    /// Unlocks a segment that is held, by one step, and leaves its bytes. Its stamp is the greater of
    /// the moment and the last stamp.
    pub fn unlock(&mut self, now: u64)
        requires held { self.old.phase ≡ Held }
        requires moment { IsMoment now }
        ensures { self.new ≡ after_unlock now self.old }
    {
        let stamp = now.max(self.last);
        self.seat.unlock(stamp, &mut self.block);
        self.last = stamp;
        self.phase = Phase::Idle;
    }

    /// Whether the segment was not purged yet. From Idle it makes one step, and the segment is gone
    /// exactly where that step found it purged; from Held and Gone it makes none.
    pub fn resident(&mut self) -> bool
        ensures after { AfterLook self.old.phase result self.old self.new }
        ensures found { LookFinds self.old.phase result self.old self.new }
    {
        match self.phase {
            Phase::Held => true,
            Phase::Gone => false,
            Phase::Idle => {
                let there = self.seat.look();
                if !there {
                    self.phase = Phase::Gone;
                }
                there
            }
        }
    }

    /// The bytes of a segment that is held.
    pub fn bytes(&self) -> &[u8]
        requires { self.now.phase ≡ Held }
        ensures value { result.now ≡ self.now.bytes }
        ensures pages { HasPages self.now }
    {
        let Some(block) = &self.block else {
            unreachable!()
        };
        block.bytes()
    }

    /// The bytes of a segment that is held, to be written.
    pub fn bytes_mut(&mut self) -> &mut [u8]
        requires { self.old.phase ≡ Held }
        ensures* writes_back { sem 𝓛 (LendsBytes self.entry result) }
        ensures value { result.now ≡ self.old.bytes }
        ensures pages { HasPages self.old }
    {
        let Some(block) = &mut self.block else {
            unreachable!()
        };
        block.bytes_mut()
    }

    /// A part of the bytes of a segment that is held, `count` of them from a place on, to be written.
    pub fn part_mut(&mut self, place: usize, count: usize) -> &mut [u8]
        requires held { self.old.phase ≡ Held }
        requires inside { place + count ≤ length self.old.bytes }
        ensures* writes_back { sem 𝓛 (LendsPart self.entry place result) }
        ensures value { result.now ≡ take count (drop place self.old.bytes) }
        ensures pages { HasPages self.old }
    {
        let Some(block) = &mut self.block else {
            unreachable!()
        };
        block.part_mut(place, count)
    }

    /// The block of a segment that is held.
    pub(crate) fn into_block(self) -> Block
        requires { self.phase ≡ Held }
        ensures { result ≡ self.bytes }
    {
        let OwnerSide { block, .. } = self;
        let Some(block) = block else { unreachable!() };
        block
    }
}
