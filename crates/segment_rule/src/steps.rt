//! What a side does with its seat: at most one step on the word, and then the block moves by it.
ghost use Rattle.std.specs.Prelude.{◌≡◌, ◌≢◌, ◌*◌, ◌≤◌, ◌==◌, ℕ, List, true, false, [], ◌∷◌, Some, None, IfOk, IfSome, MatchBool, MatchOption, length};
ghost use Rattle.units.specs.declared.TheConstants.{PAGE};
ghost use Rattle.units.specs.Moment.{IsMoment};
ghost use Rattle.segment_rule.specs.Views.{fresh_owner, settled, parted, owner_holds, owner_loses, owner_rests, owner_stays, warden_tries, expected_word, IsTimely};
ghost use Rattle.segment_rule.specs.Kinds as kinds;
ghost use Rattle.segment_rule.specs.Seats.{owner_of, warden_of, warden_view, Fits, IsOwnerAt, IsFreeWarden, OwnerMakes, WardenMakes};
ghost use Rattle.segment_rule.specs.declared.view.Stage.TheVariants.{New, Held, Idle};
ghost use Rattle.segment_rule.specs.declared.view.View.TheVariants.{Owner, Warden};

use crate::rule::{Moment, Owned, Parts, Place, Settles, Shelf};
use crate::word_steps;
use crate::words::purged;
use block_pool::Block;
use std::alloc::{AllocError, Global};

/// A table of one word, that of a held segment, with nothing at home, and the owner's seat.
pub fn open(alloc: Global, id: u64, pages: u32) -> Result<(Owned, Place), AllocError>
    ensures { IfOk result (λ t. Fits t.1.table_id t.0.shared.table_id
        × (t.1.me ≡ (Owner (fresh_owner id pages), []))) }
{
    Owned::vacant(alloc, &[1], 1, &(id, pages))
}

/// The owner takes the empty home.
pub fn settle(shelf: &Shelf, seat: &mut Place)
    requires table { Fits seat.old.table_id shelf.now.table_id }
    requires owner { IsOwnerAt New seat.old.me }
    ensures table { seat.new.table_id ≡ seat.old.table_id }
    ensures held { seat.new.me ≡ (Owner (settled (owner_of seat.old.me.0)), (0, None) ∷ []) }
{
    shelf.load::<Settles>(seat, 0);
}

/// The warden gets a seat.
pub fn split(shelf: &Shelf, seat: &mut Place) -> Place
    requires table { Fits seat.old.table_id shelf.now.table_id }
    requires owner { (seat.old.me.0 ≡ Owner (owner_of seat.old.me.0))
        × ((owner_of seat.old.me.0).apart ≡ false) × ((owner_of seat.old.me.0).phase ≢ New) }
    ensures table { (seat.new.table_id ≡ seat.old.table_id)
        × (result.table_id ≡ seat.old.table_id) }
    ensures owner { seat.new.me ≡ (Owner (parted (owner_of seat.old.me.0)), seat.old.me.1) }
    ensures warden { result.me ≡ (warden_view seat.old.me.0, []) }
{
    shelf.split_seat::<Parts>(seat)
}

/// An idle owner locks. It answers true and has the block in its hand, or it found the purged word.
pub fn lock(shelf: &Shelf, seat: &mut Place, last: u64, hand: &mut Option<Block>) -> bool
    requires table { Fits seat.old.table_id shelf.now.table_id }
    requires owner { IsOwnerAt Idle seat.old.me }
    requires last { ((owner_of seat.old.me.0).last ≡ last) × IsMoment last }
    requires free { hand.old ≡ None }
    ensures table { seat.new.table_id ≡ seat.old.table_id }
    ensures made { OwnerMakes kinds.Locks (owner_of seat.old.me.0) (owner_of seat.new.me.0) }
    ensures told { MatchBool result
        ((hand.new ≡ Some (owner_of seat.old.me.0).left)
        × (seat.new.me ≡ (Owner (owner_holds (owner_of seat.old.me.0)), (0, None) ∷ [])))
        ((hand.new ≡ None) × (seat.new.me ≡ (Owner (owner_loses (owner_of seat.old.me.0)), []))) }
{
    if word_steps::lock(shelf, seat, last) == purged() {
        return false;
    }
    *hand = shelf.exchange(seat, 0, None);
    true
}

/// An owner that holds lays the block in its hand down at a stamp.
pub fn unlock(shelf: &Shelf, seat: &mut Place, stamp: u64, hand: &mut Option<Block>)
    requires table { Fits seat.old.table_id shelf.now.table_id }
    requires owner { IsOwnerAt Held seat.old.me }
    requires block { (b : List ℕ) × (hand.old ≡ Some b)
        × (length b ≡ PAGE * (owner_of seat.old.me.0).pages) }
    requires stamp { IsMoment stamp × ((owner_of seat.old.me.0).last ≤ stamp) }
    ensures table { seat.new.table_id ≡ seat.old.table_id }
    ensures made { IfSome hand.old (λ b.
        OwnerMakes (kinds.Unlocks stamp b) (owner_of seat.old.me.0) (owner_of seat.new.me.0)) }
    ensures idle { IfSome hand.old (λ b.
        seat.new.me ≡ (Owner (owner_rests stamp b (owner_of seat.old.me.0)), [])) }
    ensures empty { hand.new ≡ None }
{
    let None = shelf.exchange(seat, 0, hand.take()) else {
        unreachable!()
    };
    word_steps::unlock(shelf, seat, stamp);
}

/// An idle owner looks. It answers false where it found the purged word.
pub fn look(shelf: &Shelf, seat: &mut Place) -> bool
    requires table { Fits seat.old.table_id shelf.now.table_id }
    requires owner { IsOwnerAt Idle seat.old.me }
    ensures table { seat.new.table_id ≡ seat.old.table_id }
    ensures made { OwnerMakes kinds.Looks (owner_of seat.old.me.0) (owner_of seat.new.me.0) }
    ensures told { MatchBool result
        (seat.new.me ≡ (Owner (owner_stays (owner_of seat.old.me.0)), []))
        (seat.new.me ≡ (Owner (owner_loses (owner_of seat.old.me.0)), [])) }
{
    word_steps::look(shelf, seat) != purged()
}

/// A purge try, after which the warden has the block where it found the word that it expected.
pub fn try_purge<M: Moment>(
    shelf: &Shelf,
    seat: &mut Place,
    expected: u64,
    now: u64,
) -> (u64, Option<Block>)
    requires table { Fits seat.old.table_id shelf.now.table_id }
    requires warden { IsFreeWarden seat.old.me }
    requires expected { expected ≡ expected_word (warden_of seat.old.me.0).tries }
    requires moment { IsMoment now × (now ≡ M.now) }
    ensures table { seat.new.table_id ≡ seat.old.table_id }
    ensures made { WardenMakes (kinds.Tries now)
        (warden_of seat.old.me.0) (warden_of seat.new.me.0) }
    ensures timely { IsTimely result.0 (warden_of seat.old.me.0).tries }
    ensures told { MatchOption result.1
        ((result.0 ≢ expected)
        × (seat.new.me
        ≡ (Warden (warden_tries now result.0 false (warden_of seat.old.me.0)), [])))
        (λ b. (result.0 ≡ expected) × (length b ≡ PAGE * (warden_of seat.old.me.0).pages)
        × (seat.new.me
        ≡ (
          Warden (warden_tries now result.0 true (warden_of seat.old.me.0)),
          (0, None) ∷ [],
        ))) }
{
    let found = word_steps::try_purge::<M>(shelf, seat, expected);
    if found == expected {
        (found, shelf.exchange(seat, 0, None))
    } else {
        (found, None)
    }
}
