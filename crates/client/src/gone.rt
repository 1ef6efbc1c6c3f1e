//! The sides of a client that were found gone.
ghost use Rattle.std.specs.Prelude.{◌≡◌, ◌+◌, ◌^◌, ◌<◌, ◌≤◌, max, ◌++◌, ◌∷◌, [], take, drop, length, OnOk, OnErr, option_map, slice_get, IsSome};
ghost use Rattle.segment.specs.declared.owner.Phase.TheVariants.{Gone};
ghost use Rattle.client.specs.Gone.{GoneOnes, next_of, after_next, kept_side, has_side, AreGone};

use segment::OwnerSide;
use std::alloc::Global;
use std::marker::Model;
use units::NoMemory;

/// Sides that are gone. Those that are told to the granter come first.
#[derive(Drop)]
pub(crate) struct GoneSides {
    sides: Vec<OwnerSide>,
    told: usize,
    room: usize,
}

impl Model for GoneSides {
    ghost use Rattle.std.specs.Prelude.{◌≡◌, ◌+◌, ◌≤◌, vec_len, vec_capacity};
    ghost use Rattle.client.specs.Gone.{GoneOnes, AreGone};

    ghost Value = { GoneOnes };

    ghost view = { λ g. record { sides = g.sides.items; told = g.told; room = g.room } };

    ghost invariant = { λ g. AreGone g.sides.items
        × (g.told ≤ vec_len g.sides) × (vec_len g.sides + g.room ≤ vec_capacity g.sides) };
}

impl GoneSides {
    /// No side.
    pub(crate) fn new(alloc: Global) -> GoneSides
        ensures { result ≡ record { sides = []; told = 0; room = 0 } }
    {
        GoneSides {
            sides: Vec::new(alloc),
            told: 0,
            room: 0,
        }
    }

    /// Makes room for `n` sides. `NoMemory` leaves all as before.
    pub(crate) fn reserve(&mut self, n: usize) -> Result<(), NoMemory>
        ensures ok { OnOk result (self.new.room ≡ max self.old.room n) }
        ensures most { self.new.room < 2 ^ 64 }
        ensures err { OnErr result (self.new.room ≡ self.old.room) }
        ensures more { self.old.room ≤ self.new.room }
        ensures same { (self.new.sides ≡ self.old.sides) × (self.new.told ≡ self.old.told) }
    {
        if n <= self.room {
            return Ok(());
        }
        self.sides.reserve(n)?;
        self.room = n;
        Ok(())
    }

    /// Takes in a side that was found gone.
    pub(crate) fn push(&mut self, side: OwnerSide)
        requires gone { side.phase ≡ Gone }
        requires room { 1 ≤ self.old.room }
        ensures sides { self.new.sides ≡ self.old.sides ++ side ∷ [] }
        ensures told { self.new.told ≡ self.old.told }
        ensures room { self.new.room + 1 ≡ self.old.room }
    {
        self.room -= 1;
        self.sides.push_reserved(side);
    }

    /// Takes in a side that is gone and told.
    pub(crate) fn keep(&mut self, side: OwnerSide)
        requires gone { side.phase ≡ Gone }
        requires room { 1 ≤ self.old.room }
        ensures sides { self.new.sides ≡ kept_side side self.old.told self.old.sides }
        ensures told { self.new.told ≡ self.old.told + 1 }
        ensures room { self.new.room + 1 ≡ self.old.room }
    {
        self.room -= 1;
        let Ok(()) = self.sides.insert(self.told, side) else {
            unreachable!()
        };
        self.told += 1;
    }

    /// The number of the next side that was not told, which is told now.
    pub(crate) fn next(&mut self) -> Option<u64>
        ensures number { result ≡ next_of self.old.sides self.old.told }
        ensures told { self.new.told ≡ after_next self.old.sides self.old.told }
        ensures sides { self.new.sides ≡ self.old.sides }
        ensures room { self.new.room ≡ self.old.room }
    {
        let side = self.sides.get(self.told)?;
        let id = side.id();
        self.told += 1;
        Some(id)
    }

    /// Whether one of the sides has this number.
    pub(crate) fn has(&self, id: u64) -> bool
        ensures { result ≡ has_side self.now.sides id }
    {
        self.sides.iter().any(|side| side.id() == id)
    }

    /// The sides.
    pub(crate) fn into_sides(self) -> Vec<OwnerSide>
        ensures sides { result.items ≡ self.sides }
        ensures gone { AreGone result.items }
    {
        let GoneSides { sides, .. } = self;
        sides
    }
}
