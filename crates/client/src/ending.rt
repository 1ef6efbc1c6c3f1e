ghost use Rattle.std.specs.Prelude.{◌≡◌, length, slice_get, option_map};
ghost use Rattle.std.specs.Option.{option_map as mapped};
ghost use Rattle.segment.specs.Owned.{Owned};
ghost use Rattle.client.specs.Gone.{AreGone};

use segment::OwnerSide;
use std::marker::Model;

/// The sides of a client that were found gone, each once.
#[derive(Drop)]
pub struct Sides {
    sides: Vec<OwnerSide>,
}

impl Model for Sides {
    ghost use Rattle.std.specs.Prelude.{List};
    ghost use Rattle.segment.specs.Owned.{Owned};
    ghost use Rattle.client.specs.Gone.{AreGone};

    ghost Value = { List Owned };

    ghost view = { λ s. s.sides.items };

    ghost invariant = { λ s. AreGone s.sides.items };
}

impl Sides {
    /// These sides, each of which is gone.
    pub(crate) fn of(sides: Vec<OwnerSide>) -> Sides
        requires { AreGone sides.items }
        ensures { result ≡ sides.items }
    {
        Sides { sides }
    }

    /// How many sides there are. Each is gone.
    pub fn len(&self) -> u64
        ensures count { result ≡ length self.now }
        ensures gone { AreGone self.now }
    {
        self.sides.len() as u64
    }

    /// The side at this place, counted from 0. `None` comes exactly at a place from `len` on.
    pub fn get(&self, place: u64) -> Option<&OwnerSide>
        ensures { option_map (λ side. side.now) result ≡ slice_get self.now place }
    {
        self.sides.get(place as usize)
    }
}

/// What is left of a client that was closed: the sides that were found gone, and how many segments it was
/// granted.
#[derive(Drop)]
pub struct ClientEnd {
    pub gone: Sides,
    pub grants: u64,
}
