ghost use Rattle.std.specs.Prelude.{◌≡◌, ◌+◌, ◌*◌, ◌≤◌, ◌<◌, true, false, [], Some, length, OnOk, OnErr, IsOk, IsOkAnd, IfOk, IfErr, option_map, is_some, IfSome, IfNone};
ghost use Rattle.units.specs.Moment.{IsMoment};
ghost use Rattle.discard_book.specs.Live.{has_number};
ghost use Rattle.machine.specs.Reduction.{least, use_of};
ghost use Rattle.lru_reduce.specs.Wards.{candidates_of, segments_of, IsNew};
ghost use Rattle.lru_reduce.specs.Calls.{told, AddsSide, TakesLeast, Forgets, IsKnownUse, TriesOne};
ghost use Rattle.lru_reduce.specs.Turns.{Wins, Loses};

use crate::slots::{Slots, Won};
use segment::{Purge, WardenSide};
use std::alloc::Global;
use std::marker::Model;
use units::NoMemory;
use use_queue::UseQueue;

/// The live wardens of a manager. Contracts see them by rising number, and its spare places: how
/// many more it can take in without memory. Their known uses stand in a queue whose entries die late:
/// the entry of a known use that is no more stays until it comes to the front.
#[derive(Drop)]
pub struct Order {
    // In each of the two there are two places for each warden and for each spare place. So what is
    // dead leaves once for as many changes as there are wardens, and takes no memory.
    slots: Slots,
    uses: UseQueue,
    spare: u64,
}

impl Model for Order {
    ghost use Rattle.std.specs.Prelude.{◌*◌, ◌+◌, ◌^◌, ◌<◌, ◌≤◌, length};
    ghost use Rattle.lru_reduce.specs.Wards.{Wards, AreLive};
    ghost use Rattle.lru_reduce.specs.Uses.{uses_of};
    ghost use Rattle.use_queue.specs.Entries.{IsSoundQueue};
    ghost use Rattle.std.specs.List.{Contains};

    ghost Value = { Wards };

    ghost view = { λ o. record {
      sides = o.slots.sides;
      spare = o.spare;
      entries = length o.uses.entries;
    } };

    ghost invariant = { λ o. AreLive o.slots.sides
        × IsSoundQueue (Contains (uses_of o.slots.sides)) o.uses.entries
        × (2 * (length o.slots.sides + o.spare) ≤ o.slots.room)
        × (2 * (length o.slots.sides + o.spare) ≤ o.uses.room)
        × (2 * (length o.slots.sides + o.spare) < 2 ^ 64) };
}

impl Order {
    /// An order of no wardens, without spare places. It takes no memory, so it is always made.
    pub fn new(alloc: Global) -> Result<Order, NoMemory>
        ensures { IsOkAnd result (λ order. (order.sides ≡ []) × (order.spare ≡ 0)) }
    {
        Ok(Order {
            slots: Slots::new(alloc),
            uses: UseQueue::new(alloc),
            spare: 0,
        })
    }

    /// The entries of the queue: one for each live warden, and those that are dead.
    pub fn entries(&self) -> u64
        ensures { result ≡ self.now.entries }
    {
        self.uses.len() as u64
    }

    /// Makes sure of at least `n` spare places, and never takes one away. Its wardens stay. After
    /// `NoMemory` they and the spare places are as before, which comes only where fewer than `n`
    /// places were spare. First it drops all dead entries where there are more dead ones than live
    /// ones, so after Ok there are at most twice as many entries as wardens.
    pub fn reserve(&mut self, _alloc: Global, n: u64) -> Result<(), NoMemory>
        ensures ok { OnOk result (n ≤ self.new.spare) }
        ensures kept { self.old.spare ≤ self.new.spare }
        ensures same { self.new.sides ≡ self.old.sides }
        ensures err { OnErr result (self.new.spare ≡ self.old.spare) }
        ensures ready { n ≤ self.old.spare → IsOk result }
        ensures entries { self.new.entries ≤ 2 * length self.new.sides }
    {
        self.tidy();
        if n <= self.spare {
            return Ok(());
        }
        let Some(places) = twice(self.slots.len(), n) else {
            return Err(NoMemory);
        };
        self.slots.reserve(places)?;
        self.uses.reserve(places)?;
        self.spare = n;
        Ok(())
    }

    /// Drops all dead entries where there are more dead ones than live ones.
    fn tidy(&mut self)
        ensures sides { self.new.sides ≡ self.old.sides }
        ensures spare { self.new.spare ≡ self.old.spare }
        ensures entries { self.new.entries ≤ 2 * length self.new.sides }
    {
        self.slots.tidy();
        let live = self.slots.len();
        let dead = self.uses.len().saturating_sub(live);
        if dead > live {
            self.uses.refill(&self.slots);
        }
    }

    /// How many wardens more it can take in without memory.
    pub fn spare(&self) -> u64
        ensures { result ≡ self.now.spare }
    {
        self.spare
    }

    /// Takes a warden in, at a spare place. It has not taken its block, and its number is new.
    pub fn add(&mut self, side: WardenSide)
        requires spare { 1 ≤ self.old.spare }
        requires free { side.taken ≡ false }
        requires new { IsNew side.id self.old.sides }
        ensures { AddsSide side self.old self.new }
    {
        let id = side.id();
        let known = side.known().unwrap_or(0);
        self.slots.add(side);
        self.spare -= 1;
        self.uses.renew(&self.slots, id, known);
    }

    /// The number and the known use of the least, by known use and then by number, where a known use
    /// that is none counts as 0. None exactly where nothing is live.
    pub fn least(&self) -> Option<(u64, u64)>
        ensures { result ≡ option_map told (least (candidates_of self.now.sides)) }
    {
        let (known, id) = self.uses.first()?;
        Some((id, known))
    }

    /// The known use of the least.
    pub(crate) fn least_use(&self) -> Option<u64>
        ensures { result ≡ option_map use_of (least (candidates_of self.now.sides)) }
    {
        let (known, _) = self.uses.first()?;
        Some(known)
    }

    /// Takes the least out, and its place is spare then. None exactly where nothing is live.
    pub fn take_least(&mut self) -> Option<WardenSide>
        ensures { TakesLeast result self.old self.new }
    {
        let (_, id) = self.uses.first()?;
        let side = self.slots.take(id)?;
        self.uses.drop_dead(&self.slots);
        self.spare += 1;
        Some(side)
    }

    /// Takes a warden in again that was taken out, as `add` does.
    pub fn put_back(&mut self, side: WardenSide)
        requires spare { 1 ≤ self.old.spare }
        requires free { side.taken ≡ false }
        requires new { IsNew side.id self.old.sides }
        ensures { AddsSide side self.old self.new }
    {
        self.add(side);
    }

    /// Lets a number go: it is live no more. True exactly where it was live.
    pub fn forget(&mut self, id: u64) -> bool
        ensures { Forgets id result self.old self.new }
    {
        let Some(_side) = self.slots.take(id) else {
            return false;
        };
        self.uses.drop_dead(&self.slots);
        true
    }

    /// The known use of a number, where one that is none counts as 0. None exactly where the number is
    /// not live.
    pub fn known(&self, id: u64) -> Option<u64>
        ensures live { is_some result ≡ has_number (segments_of self.now.sides) id }
        ensures known { IfSome result (λ known. IsKnownUse id known self.now.sides) }
    {
        self.slots.known(id)
    }

    /// One purge try of a number at a moment. None exactly where the number is not live. After Taken
    /// it is live no more.
    pub fn try_one(&mut self, id: u64, now: u64) -> Option<Purge>
        requires { IsMoment now }
        ensures { TriesOne id now result self.old self.new }
    {
        match self.try_purge(id, now)? {
            Ok(Won { block, .. }) => Some(Purge::Taken(block)),
            Err(known) => Some(Purge::Used { known }),
        }
    }

    /// How many are live.
    pub(crate) fn live(&self) -> usize
        ensures { result ≡ length self.now.sides }
    {
        self.slots.len()
    }

    /// One purge try of a number at a moment. None exactly where the number is not live, and nothing
    /// changed. Where it wins, the warden leaves; else it answers the known use.
    pub(crate) fn try_purge(&mut self, id: u64, now: u64) -> Option<Result<Won, u64>>
        requires moment { IsMoment now }
        ensures won { IfSome result (λ r. IfOk r (λ w.
            Wins id now w.pages w.known w.block self.old.sides self.new.sides)) }
        ensures lost { IfSome result (λ r. IfErr r (λ known.
            Loses id now known self.old.sides self.new.sides)) }
        ensures live { is_some result ≡ has_number (segments_of self.old.sides) id }
        ensures none { IfNone result (self.new ≡ self.old) }
        ensures spare { self.new.spare ≡ self.old.spare }
    {
        let tried = self.slots.try_purge(id, now)?;
        match tried {
            Ok(won) => {
                self.uses.drop_dead(&self.slots);
                Some(Ok(won))
            }
            Err(known) => {
                self.uses.renew(&self.slots, id, known);
                Some(Err(known))
            }
        }
    }

    /// One purge try of a live number at a moment. Where it wins, the warden leaves; else it answers
    /// the known use.
    pub(crate) fn try_live(&mut self, id: u64, now: u64) -> Result<Won, u64>
        requires live { has_number (segments_of self.old.sides) id ≡ true }
        requires moment { IsMoment now }
        ensures won { IfOk result (λ w.
            Wins id now w.pages w.known w.block self.old.sides self.new.sides) }
        ensures lost { IfErr result (λ known. Loses id now known self.old.sides self.new.sides) }
        ensures spare { self.new.spare ≡ self.old.spare }
    {
        match self.try_purge(id, now) {
            Some(tried) => tried,
            None => unreachable!(),
        }
    }
}

/// Twice the sum.
fn twice(live: usize, n: u64) -> Option<usize>
    ensures { IfSome result (λ places. places ≡ 2 * (live + n)) }
{
    live.checked_add(n as usize)?.checked_mul(2)
}
