//! What keeps a queue to its live entries.

ghost use Rattle.std.specs.Prelude.{◌≡◌, ◌≢◌, ◌≤◌, ◌<◌, ℕ, true, false, length};
ghost use Rattle.std.specs.List.{Contains};
ghost use Rattle.use_queue.specs.Entries.{IsFirst, HoldsEach, HoldsOthers, HasLiveFront, HasDeadFront, IsSoundQueue, IsOnlyUse};

use crate::live::LiveUses;
use crate::queue::UseQueue;

impl UseQueue {
    /// Drops the dead entries at the front.
    pub fn drop_dead<U: LiveUses>(&mut self, uses: &U)
        requires each { HoldsEach (U.IsLive uses.now) self.old.entries }
        ensures sound { IsSoundQueue (U.IsLive uses.now) self.new.entries }
        ensures room { self.new.room ≡ self.old.room }
        ensures few { length self.new.entries ≤ length self.old.entries }
    {
        while self.has_dead_front(uses) {
            self.drop_first();
        }
    }

    /// Drops all dead entries, where there is room for the live ones.
    pub fn refill<U: LiveUses>(&mut self, uses: &U)
        requires room { U.most uses.now ≤ self.old.room }
        ensures sound { IsSoundQueue (U.IsLive uses.now) self.new.entries }
        ensures room { self.old.room ≤ self.new.room }
        ensures few { length self.new.entries ≤ U.most uses.now }
    {
        self.clear();
        uses.fill(self);
        self.drop_dead(uses);
    }

    /// Adds the entry of a number, where each of the others has its own, and drops the dead ones at
    /// the front. An old entry of this number leaves where it stands at the front. It takes no memory:
    /// where there is no room for one entry more, all dead ones leave.
    pub fn renew<U: LiveUses>(&mut self, uses: &U, id: u64, known: u64)
        requires others { HoldsOthers id (U.IsLive uses.now) self.old.entries }
        requires known { IsOnlyUse id known (U.IsLive uses.now) }
        requires room { U.most uses.now ≤ self.old.room }
        ensures sound { IsSoundQueue (U.IsLive uses.now) self.new.entries }
        ensures room { self.old.room ≤ self.new.room }
    {
        self.drop_front_of(id);
        if self.len() < self.room() {
            self.push((known, id));
            self.drop_dead(uses);
        } else {
            self.refill(uses);
        }
    }

    /// Drops the front where it is an entry of this number.
    fn drop_front_of(&mut self, id: u64)
        ensures others { (k : ℕ × ℕ) → Contains self.old.entries k → k.1 ≢ id
            → Contains self.new.entries k }
        ensures room { self.new.room ≡ self.old.room }
    {
        if self.has_front_of(id) {
            self.drop_first();
        }
    }

    /// Whether an entry of this number stands at the front.
    fn has_front_of(&self, id: u64) -> bool
        ensures some { result ≡ true → 0 < length self.now.entries }
        ensures first { result ≡ true → (k : ℕ × ℕ) → IsFirst k self.now.entries → k.1 ≡ id }
    {
        match self.first() {
            Some((_, first)) => first == id,
            None => false,
        }
    }

    /// Whether a dead entry stands at the front.
    fn has_dead_front<U: LiveUses>(&self, uses: &U) -> bool
        ensures dead { result ≡ true → HasDeadFront (U.IsLive uses.now) self.now.entries }
        ensures live { result ≡ false → HasLiveFront (U.IsLive uses.now) self.now.entries }
    {
        match self.first() {
            Some((known, id)) => !uses.is_live(known, id),
            None => false,
        }
    }
}
