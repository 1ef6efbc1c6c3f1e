//! The two seats of a segment: each makes its own kinds of step, at most one in a call.
ghost use Rattle.std.specs.Prelude.{◌≡◌, ◌≢◌, ◌*◌, ◌≤◌, false, IfOk, IfSome, MatchBool, MatchOption, length, ℕ, List, Some, None};
ghost use Rattle.units.specs.declared.TheConstants.{PAGE};
ghost use Rattle.units.specs.Moment.{IsMoment};
ghost use Rattle.segment_rule.specs.declared.view.Stage.TheVariants.{Held, Idle};
ghost use Rattle.segment_rule.specs.Views.{owner_holds, owner_loses, owner_rests, owner_stays, fresh_warden, expected_word};
ghost use Rattle.segment_rule.specs.Kinds.{made};
ghost use Rattle.segment_rule.specs.Kinds as kinds;
ghost use Rattle.segment_rule.specs.Seats.{OwnerMakes, WardenMakes, AfterTry, knowing};

use crate::rule::{Owned, Place};
use crate::steps;
use crate::steps::{open, settle, split};
use block_pool::Block;
use std::alloc::Global;
use std::marker::{Brand, Model};
use std::sync::Arc;
use units::NoMemory;

/// The owner's seat at a segment. While it holds, the place at home is out with it, empty, and its
/// block is in the hand of whoever calls it.
#[derive(Drop)]
pub struct OwnerSeat {
    table: Arc<Owned, Global>,
    seat: Place,
}

impl Model for OwnerSeat {
    ghost use Rattle.std.specs.Arc.{arc_value};
    ghost use Rattle.segment_rule.specs.declared.view.OwnerView.{OwnerView};
    ghost use Rattle.segment_rule.specs.Seats.{owner_of, IsOwner, Seated};

    ghost Value = { Seated OwnerView };

    ghost view = { λ s. record { table = s.seat.table_id; known = owner_of s.seat.me.0 } };

    ghost invariant = { λ s.
        IsOwner (arc_value s.table).shared.table_id s.seat.table_id s.seat.me };
}

/// The warden's seat at a segment.
#[derive(Drop)]
pub struct WardenSeat {
    table: Arc<Owned, Global>,
    seat: Place,
}

impl Model for WardenSeat {
    ghost use Rattle.std.specs.Arc.{arc_value};
    ghost use Rattle.segment_rule.specs.declared.view.WardenView.{WardenView};
    ghost use Rattle.segment_rule.specs.Seats.{warden_of, IsWarden, Seated};

    ghost Value = { Seated WardenView };

    ghost view = { λ s. record { table = s.seat.table_id; known = warden_of s.seat.me.0 } };

    ghost invariant = { λ s.
        IsWarden (arc_value s.table).shared.table_id s.seat.table_id s.seat.me };
}

/// The two seats of a new segment with this number and so many pages: its owner holds it, and its
/// warden has tried nothing. Both sit at one table.
pub fn make(alloc: Global, id: u64, pages: u32) -> Result<(OwnerSeat, WardenSeat), NoMemory>
    ensures owner { IfOk result (λ seats. seats.0.known ≡ (made id pages).owner) }
    ensures warden { IfOk result (λ seats. seats.1.known ≡ (made id pages).warden) }
    ensures one { IfOk result (λ seats. seats.1.table ≡ seats.0.table) }
{
    let (table, mut seat) = open(alloc, id, pages)?;
    let mine = Arc::new(alloc, table)?;
    let theirs = Arc::try_clone(&mine)?;
    settle(&mine.shared, &mut seat);
    let other = split(&mine.shared, &mut seat);
    Ok((
        OwnerSeat { table: mine, seat },
        WardenSeat {
            table: theirs,
            seat: other,
        },
    ))
}

impl OwnerSeat {
    /// Locks an idle segment by one exchange. It answers true and lays the block with the bytes left
    /// into the hand, or answers false exactly where it found the purged word.
    pub fn lock(&mut self, last: u64, hand: &mut Option<Block>) -> bool
        requires idle { self.old.known.phase ≡ Idle }
        requires last { last ≡ self.old.known.last }
        requires free { hand.old ≡ None }
        ensures made { OwnerMakes kinds.Locks self.old.known self.new.known }
        ensures told { MatchBool result
            ((hand.new ≡ Some self.old.known.left)
            × (self.new ≡ knowing self.old (owner_holds self.old.known)))
            ((hand.new ≡ None) × (self.new ≡ knowing self.old (owner_loses self.old.known))) }
        ensures sized { length self.old.known.left ≡ PAGE * self.old.known.pages }
    {
        steps::lock(&self.table.shared, &mut self.seat, last, hand)
    }

    /// Unlocks a held segment by one exchange, and lays the block in the hand down.
    pub fn unlock(&mut self, stamp: u64, hand: &mut Option<Block>)
        requires held { self.old.known.phase ≡ Held }
        requires stamp { IsMoment stamp × (self.old.known.last ≤ stamp) }
        requires block { (b : List ℕ) × (hand.old ≡ Some b)
            × (length b ≡ PAGE * self.old.known.pages) }
        ensures made { IfSome hand.old
            (λ b. OwnerMakes (kinds.Unlocks stamp b) self.old.known self.new.known) }
        ensures told { IfSome hand.old
            (λ b. self.new ≡ knowing self.old (owner_rests stamp b self.old.known)) }
        ensures empty { hand.new ≡ None }
    {
        steps::unlock(&self.table.shared, &mut self.seat, stamp, hand);
    }

    /// Looks at the word of an idle segment by one load: false exactly where it found the purged
    /// word.
    pub fn look(&mut self) -> bool
        requires { self.old.known.phase ≡ Idle }
        ensures made { OwnerMakes kinds.Looks self.old.known self.new.known }
        ensures told { MatchBool result
            (self.new ≡ knowing self.old (owner_stays self.old.known))
            (self.new ≡ knowing self.old (owner_loses self.old.known)) }
    {
        steps::look(&self.table.shared, &mut self.seat)
    }
}

impl WardenSeat {
    /// Tries to purge at a moment by one exchange, where it has not taken the block. It answers the
    /// word that it found, and the block exactly where that is the word that it expected.
    pub fn try_purge(&mut self, expected: u64, now: u64) -> (u64, Option<Block>)
        requires free { self.old.known.taken ≡ false }
        requires expected { expected ≡ expected_word self.old.known.tries }
        requires moment { IsMoment now }
        ensures made { WardenMakes (kinds.Tries now) self.old.known self.new.known }
        ensures told { AfterTry now self.old.known result.0 result.1 self.new.known }
        ensures table { self.new.table ≡ self.old.table }
    {
        steps::try_purge::<Brand>(&self.table.shared, &mut self.seat, expected, now)
    }
}
