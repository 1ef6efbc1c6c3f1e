//! The steps on a segment's word: each is one exchange or load, and answers the word that it found.
ghost use Rattle.std.specs.Prelude.{◌≡◌, ◌*◌, ◌≤◌, ℕ, List, [], ◌∷◌, Some, length};
ghost use Rattle.units.specs.declared.TheConstants.{PAGE};
ghost use Rattle.units.specs.Moment.{IsMoment};
ghost use Rattle.segment_rule.specs.Views.{expected_word};
ghost use Rattle.segment_rule.specs.Kinds as kinds;
ghost use Rattle.segment_rule.specs.Seats.{owner_of, warden_of, Fits, IsOwnerAt, IsFreeWarden, OwnerMade, OwnerUnlocked, WardenMade};
ghost use Rattle.segment_rule.specs.declared.view.Stage.TheVariants.{Held, Idle};
ghost use Rattle.segment_rule.specs.declared.view.View.TheVariants.{Owner};

use crate::rule::{Locks, Looks, Moment, Place, Shelf, Tries, Unlocks};
use crate::words::{locked, purged, unlocked};

/// An idle owner locks.
pub fn lock(shelf: &Shelf, seat: &mut Place, last: u64) -> u64
    requires table { Fits seat.old.table_id shelf.now.table_id }
    requires owner { IsOwnerAt Idle seat.old.me }
    requires last { ((owner_of seat.old.me.0).last ≡ last) × IsMoment last }
    ensures table { seat.new.table_id ≡ seat.old.table_id }
    ensures made { OwnerMade kinds.Locks seat.old.me result seat.new.me }
{
    shelf.compare_exchange::<Locks>(seat, 0, unlocked(last), locked())
}

/// An owner that holds, with its block in its home, unlocks at a stamp.
pub fn unlock(shelf: &Shelf, seat: &mut Place, stamp: u64) -> u64
    requires table { Fits seat.old.table_id shelf.now.table_id }
    requires owner { (seat.old.me.0 ≡ Owner (owner_of seat.old.me.0))
        × ((owner_of seat.old.me.0).phase ≡ Held) }
    requires block { (b : List ℕ) × (seat.old.me.1 ≡ (0, Some b) ∷ [])
        × (length b ≡ PAGE * (owner_of seat.old.me.0).pages) }
    requires stamp { IsMoment stamp × ((owner_of seat.old.me.0).last ≤ stamp) }
    ensures table { seat.new.table_id ≡ seat.old.table_id }
    ensures made { OwnerUnlocked stamp seat.old.me result seat.new.me }
{
    shelf.compare_exchange::<Unlocks>(seat, 0, locked(), unlocked(stamp))
}

/// An idle owner looks.
pub fn look(shelf: &Shelf, seat: &mut Place) -> u64
    requires table { Fits seat.old.table_id shelf.now.table_id }
    requires owner { IsOwnerAt Idle seat.old.me }
    ensures table { seat.new.table_id ≡ seat.old.table_id }
    ensures made { OwnerMade kinds.Looks seat.old.me result seat.new.me }
{
    shelf.load::<Looks>(seat, 0)
}

/// A warden that has not taken the block tries to purge at a moment.
pub fn try_purge<M: Moment>(shelf: &Shelf, seat: &mut Place, expected: u64) -> u64
    requires table { Fits seat.old.table_id shelf.now.table_id }
    requires warden { IsFreeWarden seat.old.me }
    requires expected { expected ≡ expected_word (warden_of seat.old.me.0).tries }
    requires moment { IsMoment M.now }
    ensures table { seat.new.table_id ≡ seat.old.table_id }
    ensures made { WardenMade (kinds.Tries M.now) seat.old.me result seat.new.me }
{
    shelf.compare_exchange::<Tries<M>>(seat, 0, expected, purged())
}
