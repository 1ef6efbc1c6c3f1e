ghost use Rattle.std.specs.Prelude.{◌≡◌, ◌<◌, ◌≤◌, ℕ, List, Option, IfOk, OnOk, OnErr};
ghost use Rattle.units.specs.Count.{next_count};
ghost use Rattle.units.specs.declared.TheConstants.{MOST_PAGES};
ghost use Rattle.segment.specs.Owned.{Owned, IsGranted};
ghost use Rattle.units.specs.Moment.{IsMoment};

use crate::owner::OwnerSide;
use block_pool::Block;
use std::alloc::Global;
use std::sync::Wait;
use std::thread::Threads;
use units::NoMemory;

/// What grants segments and takes them back. Its calls may wait for another thread.
pub trait Granter {
    /// How many grants succeeded.
    ghost grants: { Self → ℕ };

    /// How many returns were made.
    ghost returns: { Self → ℕ };

    /// The greatest number that it granted, or 0.
    ghost greatest: { Self → ℕ };

    /// It granted this client, at this moment, this segment. Only `grant` tells so, whatever an
    /// implementation means by it.
    ghost granted_to: { ℕ → ℕ → Owned → Self → Self → Type 0 };

    /// It took this number back from this client, with the block where one came. Only `give_back`
    /// tells so.
    ghost took_back: { ℕ → ℕ → Option (List ℕ) → Self → Self → Type 0 };

    /// Plain data of the implementation's own choice, which no call changes.
    ghost Standing: { Type 0 };

    ghost standing: { Self → Standing };

    /// Grants a client a segment of `pages` pages, held and all zero, under a number that is greater
    /// than each one before.
    fn grant<H: Threads + Wait + Sync>(
        &mut self,
        rt: &H,
        alloc: Global,
        client: u32,
        pages: u32,
        now: u64,
    ) -> Result<OwnerSide, NoMemory>
        requires client { 1 ≤ client }
        requires pages { (1 ≤ pages) × (pages ≤ MOST_PAGES) }
        requires moment { IsMoment now }
        ensures side { IfOk result (λ side. IsGranted pages side) }
        ensures granted_to { IfOk result (λ side. granted_to client now side self.old self.new) }
        ensures rises { IfOk result (λ side. greatest self.old < side.id) }
        ensures greatest { IfOk result (λ side. greatest self.new ≡ side.id) }
        ensures counted { OnOk result (grants self.new ≡ next_count (grants self.old)) }
        ensures kept { OnErr result (grants self.new ≡ grants self.old) }
        ensures none_greater { OnErr result (greatest self.new ≡ greatest self.old) }
        ensures returns { returns self.new ≡ returns self.old }
        ensures standing { standing self.new ≡ standing self.old };

    /// Takes a client's segment back, with its block where it was not purged.
    fn give_back<H: Threads + Wait + Sync>(
        &mut self,
        rt: &H,
        client: u32,
        id: u64,
        block: Option<Block>,
    )
        ensures took_back { took_back client id block self.old self.new }
        ensures grants { grants self.new ≡ grants self.old }
        ensures greatest { greatest self.new ≡ greatest self.old }
        ensures counted { returns self.new ≡ next_count (returns self.old) }
        ensures standing { standing self.new ≡ standing self.old };
}
