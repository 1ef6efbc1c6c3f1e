//! The live wardens by number.

ghost use Rattle.std.specs.Prelude.{ℕ, ◌≡◌, ◌+◌, ◌<◌, ◌≤◌, [], false, None, length, filter, vec_capacity, is_some, IfSome, IfNone, OnSome, OnOk, IfOk, IfErr};
ghost use Rattle.units.specs.Moment.{IsMoment};
ghost use Rattle.machine.specs.Reduction.{use_of};
ghost use Rattle.discard_book.specs.Live.{has_number};
ghost use Rattle.lru_reduce.specs.Wards.{candidate_of, segments_of, IsNew, AreLive};
ghost use Rattle.lru_reduce.specs.Calls.{placed, TakesNumber, IsKnownUse};
ghost use Rattle.lru_reduce.specs.Uses.{entry_for};
ghost use Rattle.lru_reduce.specs.Turns.{Wins, Loses};
ghost use Rattle.lru_reduce.specs.Slots.{sides_of, is_full, IsSlot, AreSlots, HasNoSlot, SlotWins, SlotLoses};

use crate::spot::{place_of, spot_of};
use block_pool::Block;
use segment::{Purge, WardenSide};
use std::alloc::{AllocError, Global};
use std::marker::Model;
use use_queue::{LiveUses, UseQueue};

/// A number, with its warden where that is live.
#[derive(Drop)]
pub(crate) struct Slot {
    pub(crate) id: u64,
    pub(crate) side: Option<WardenSide>,
}

/// The live wardens, each in the slot of its number. A number that is let go leaves an empty slot.
#[derive(Drop)]
pub(crate) struct Slots {
    /// By rising number.
    slots: Vec<Slot>,
    live: usize,
}

impl Model for Slots {
    ghost use Rattle.std.specs.Prelude.{◌≡◌, vec_capacity, length};
    ghost use Rattle.lru_reduce.specs.Wards.{Slotted};
    ghost use Rattle.lru_reduce.specs.Slots.{AreSlots, sides_of};

    ghost Value = { Slotted };

    ghost view = { λ t. record {
      sides = sides_of t.slots.items;
      room = vec_capacity t.slots;
    } };

    ghost invariant = { λ t. AreSlots t.slots.items × (t.live ≡ length (sides_of t.slots.items)) };
}

/// A segment that was purged, as it stood, with its block.
#[derive(Drop)]
pub(crate) struct Won {
    pub(crate) pages: u32,
    pub(crate) known: u64,
    pub(crate) block: Block,
}

/// The known use as a number: none counts as 0.
fn use_of(side: &WardenSide) -> u64
    ensures { result ≡ use_of (candidate_of side.now) }
{
    side.known().unwrap_or(0)
}

/// The entry of a warden.
fn entry_for(side: &WardenSide) -> (u64, u64)
    ensures { result ≡ entry_for side.now }
{
    (use_of(side), side.id())
}

/// The slots that have a warden.
fn drop_empty(slots: &mut Vec<Slot>)
    ensures items { slots.new.items ≡ filter is_full slots.old.items }
    ensures room { vec_capacity slots.new ≡ vec_capacity slots.old }
{
    slots.retain(|slot| slot.side.is_some());
}

/// Makes a place at the end: where there is none, the empty slots leave.
fn make_place(slots: &mut Vec<Slot>)
    requires are { AreSlots slots.old.items }
    requires room { length (sides_of slots.old.items) < vec_capacity slots.old }
    ensures are { AreSlots slots.new.items }
    ensures sides { sides_of slots.new.items ≡ sides_of slots.old.items }
    ensures none { (id : ℕ) → HasNoSlot id slots.old.items → HasNoSlot id slots.new.items }
    ensures place { length slots.new.items < vec_capacity slots.new }
    ensures room { vec_capacity slots.new ≡ vec_capacity slots.old }
{
    if slots.len() == slots.capacity() {
        drop_empty(slots);
    }
}

/// Takes a warden in, where no slot has its number.
fn enter(slots: &mut Vec<Slot>, side: WardenSide)
    requires are { AreSlots slots.old.items }
    requires room { length (sides_of slots.old.items) < vec_capacity slots.old }
    requires free { side.taken ≡ false }
    requires none { HasNoSlot side.id slots.old.items }
    ensures are { AreSlots slots.new.items }
    ensures sides { sides_of slots.new.items ≡ placed side (sides_of slots.old.items) }
    ensures room { vec_capacity slots.new ≡ vec_capacity slots.old }
{
    make_place(slots);
    let id = side.id();
    let place = spot_of(slots, id);
    let Ok(()) = slots.insert(
        place,
        Slot {
            id,
            side: Some(side),
        },
    ) else {
        unreachable!()
    };
}

/// Takes a warden in, into the slot of its number, or else into a new one.
fn put(slots: &mut Vec<Slot>, side: WardenSide)
    requires are { AreSlots slots.old.items }
    requires room { length (sides_of slots.old.items) < vec_capacity slots.old }
    requires free { side.taken ≡ false }
    requires new { IsNew side.id (sides_of slots.old.items) }
    ensures are { AreSlots slots.new.items }
    ensures sides { sides_of slots.new.items ≡ placed side (sides_of slots.old.items) }
    ensures room { vec_capacity slots.new ≡ vec_capacity slots.old }
{
    match place_of(slots, side.id()) {
        Some(place) => {
            slots[place].side = Some(side);
        }
        None => enter(slots, side),
    }
}

impl Slot {
    /// One purge try at a moment of its warden. None exactly where the slot is empty. Where it
    /// wins, the warden leaves; else it answers the known use.
    fn try_purge(&mut self, now: u64) -> Option<Result<Won, u64>>
        requires free { IsSlot self.old }
        requires moment { IsMoment now }
        ensures won { IfSome result (λ r. IfOk r (λ w.
            SlotWins w.pages w.known w.block self.old self.new)) }
        ensures lost { IfSome result
            (λ r. IfErr r (λ known. SlotLoses now known self.old self.new)) }
        ensures none { IfNone result ((self.old.side ≡ None) × (self.new ≡ self.old)) }
    {
        let Some(side) = &mut self.side else {
            return None;
        };
        let pages = side.pages();
        let known = use_of(side);
        match side.try_purge(now) {
            Purge::Taken(block) => {
                self.side = None;
                Some(Ok(Won {
                    pages,
                    known,
                    block,
                }))
            }
            Purge::Used { known } => Some(Err(known)),
        }
    }
}

impl Slots {
    /// No warden.
    pub(crate) fn new(alloc: Global) -> Slots
        ensures { result.sides ≡ [] }
    {
        Slots {
            slots: Vec::new(alloc),
            live: 0,
        }
    }

    /// Makes sure of room for so many.
    pub(crate) fn reserve(&mut self, places: usize) -> Result<(), AllocError>
        ensures ok { OnOk result (places ≤ self.new.room) }
        ensures same { self.new.sides ≡ self.old.sides }
        ensures room { self.old.room ≤ self.new.room }
    {
        self.slots.reserve(places.saturating_sub(self.slots.len()))
    }

    /// Drops the empty slots where there are more of them than wardens.
    pub(crate) fn tidy(&mut self)
        ensures same { self.new.sides ≡ self.old.sides }
        ensures room { self.old.room ≤ self.new.room }
    {
        if self.slots.len() - self.live > self.live {
            drop_empty(&mut self.slots);
        }
    }

    /// How many are live.
    pub(crate) fn len(&self) -> usize
        ensures { result ≡ length self.now.sides }
    {
        self.live
    }

    /// Takes a warden in, where there is room. It has not taken its block, and its number is new.
    pub(crate) fn add(&mut self, side: WardenSide)
        requires room { length self.old.sides < self.old.room }
        requires free { side.taken ≡ false }
        requires new { IsNew side.id self.old.sides }
        ensures sides { self.new.sides ≡ placed side self.old.sides }
        ensures room { self.old.room ≤ self.new.room }
        ensures are { AreLive self.new.sides }
    {
        put(&mut self.slots, side);
        self.live += 1;
    }

    /// Takes the warden of a number out. None exactly where the number is not live, and nothing
    /// changed.
    pub(crate) fn take(&mut self, id: u64) -> Option<WardenSide>
        ensures some { IfSome result (λ w. TakesNumber id w self.old.sides self.new.sides) }
        ensures live { is_some result ≡ has_number (segments_of self.old.sides) id }
        ensures none { IfNone result (self.new ≡ self.old) }
        ensures room { self.old.room ≤ self.new.room }
        ensures are { OnSome result (AreLive self.new.sides) }
    {
        let place = place_of(&self.slots, id)?;
        let side = self.slots[place].side.take()?;
        self.live -= 1;
        Some(side)
    }

    /// The known use of a number, where one that is none counts as 0. None exactly where the number
    /// is not live.
    pub(crate) fn known(&self, id: u64) -> Option<u64>
        ensures live { is_some result ≡ has_number (segments_of self.now.sides) id }
        ensures known { IfSome result (λ known. IsKnownUse id known self.now.sides) }
    {
        let place = place_of(&self.slots, id)?;
        match &self.slots[place].side {
            Some(side) => Some(use_of(side)),
            None => None,
        }
    }

    /// One purge try of a number at a moment. None exactly where the number is not live, and nothing
    /// changed. Where it wins, the warden leaves; else it answers the known use.
    pub(crate) fn try_purge(&mut self, id: u64, now: u64) -> Option<Result<Won, u64>>
        requires moment { IsMoment now }
        ensures won { IfSome result (λ r. IfOk r (λ w.
            Wins id now w.pages w.known w.block self.old.sides self.new.sides)) }
        ensures lost { IfSome result (λ r. IfErr r (λ known.
            Loses id now known self.old.sides self.new.sides)) }
        ensures live { is_some result ≡ has_number (segments_of self.old.sides) id }
        ensures none { IfNone result (self.new ≡ self.old) }
        ensures room { self.old.room ≤ self.new.room }
        ensures are { OnSome result (AreLive self.new.sides) }
    {
        let place = place_of(&self.slots, id)?;
        match self.slots[place].try_purge(now)? {
            Ok(won) => {
                self.live -= 1;
                Some(Ok(won))
            }
            Err(known) => Some(Err(known)),
        }
    }
}

impl LiveUses for Slots {
    ghost use Rattle.std.specs.Prelude.{length};
    ghost use Rattle.std.specs.List.{Contains};
    ghost use Rattle.lru_reduce.specs.Uses.{uses_of};

    ghost IsLive = { λ s. Contains (uses_of s.sides) };

    ghost most = { λ s. length s.sides };

    fn is_live(&self, known: u64, id: u64) -> bool {
        match self.known(id) {
            Some(used) => used == known,
            None => false,
        }
    }

    fn fill(&self, queue: &mut UseQueue) {
        for slot in self.slots.iter() {
            if let Some(side) = &slot.side {
                queue.push(entry_for(side));
            }
        }
    }
}
