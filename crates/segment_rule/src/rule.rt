use crate::view::View;
use atomic_table::{Play, Seat, Shared, Split, Table, TableRule};
use block_pool::Block;
use std::alloc::Global;
use std::marker::{Brand, PhantomData};

/// The rule of a segment on its table of one word and one home.
pub struct Rule;

impl TableRule<Option<Block>, View, (u64, u32)> for Rule {
    ghost use Rattle.segment_rule.specs.Rule.{IsRuled};
    ghost use Rattle.segment_rule.specs.Views.{fresh_owner};
    ghost use Rattle.segment_rule.specs.declared.view.View.TheVariants.{Owner};

    ghost holds = { λ _ s. IsRuled s };

    ghost first = { λ key. Owner (fresh_owner key.0 key.1) };
}

/// The owner takes the empty home.
pub struct Settles;

impl Play<Option<Block>, View> for Settles {
    ghost use Rattle.segment_rule.specs.Kinds as kinds;
    ghost use Rattle.segment_rule.specs.Seats.{OwnerMade};

    ghost then = { λ _ old found new. OwnerMade kinds.Settles old found new };
}

/// The owner locks.
pub struct Locks;

impl Play<Option<Block>, View> for Locks {
    ghost use Rattle.segment_rule.specs.Kinds as kinds;
    ghost use Rattle.segment_rule.specs.Seats.{OwnerMade};

    ghost then = { λ _ old found new. OwnerMade kinds.Locks old found new };
}

/// The owner unlocks: its stamp is half of the word that it writes.
pub struct Unlocks;

impl Play<Option<Block>, View> for Unlocks {
    ghost use Rattle.std.specs.Prelude.{◌/◌};
    ghost use Rattle.segment_rule.specs.Seats.{OwnerUnlocked};

    ghost then = { λ step old found new. OwnerUnlocked (step.second / 2) old found new };
}

/// The owner looks.
pub struct Looks;

impl Play<Option<Block>, View> for Looks {
    ghost use Rattle.segment_rule.specs.Kinds as kinds;
    ghost use Rattle.segment_rule.specs.Seats.{OwnerMade};

    ghost then = { λ _ old found new. OwnerMade kinds.Looks old found new };
}

/// The moment of a purge try, which is no operand of the exchange.
pub trait Moment {
    ghost use Rattle.std.specs.Prelude.{ℕ};

    ghost now: { ℕ };
}

impl Moment for Brand {
    ghost now = { 0 };
}

/// The warden tries to purge.
pub struct Tries<M: Moment> {
    at: PhantomData<M>,
}

impl<M: Moment> Play<Option<Block>, View> for Tries<M> {
    ghost use Rattle.segment_rule.specs.Kinds as kinds;
    ghost use Rattle.segment_rule.specs.Seats.{WardenMade};

    ghost then = { λ _ old found new. WardenMade (kinds.Tries M.now) old found new };
}

/// The warden gets a seat of its own.
pub struct Parts;

impl Split<View> for Parts {
    ghost use Rattle.segment_rule.specs.Seats.{parted_view, warden_view};

    ghost left = { λ v. parted_view v };

    ghost right = { λ v. warden_view v };
}

/// The word and the home, as both sides reach them.
pub type Shelf = Shared<Option<Block>, View, (u64, u32), Rule>;

/// The word and the home, as they are owned.
pub type Owned = Table<Option<Block>, View, (u64, u32), Rule, Global>;

/// What a side steps with.
pub type Place = Seat<Option<Block>, View>;
