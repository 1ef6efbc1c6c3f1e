ghost use Rattle.std.specs.Prelude.{◌≡◌, ◌↔◌, ◌^◌, ◌<◌, ◌≤◌, IsTrue, IfOk, if◌then◌else◌};
ghost use Rattle.units.specs.Count.{next_count};
ghost use Rattle.discard_io.specs.Memory.{Tally, no_calls, NextFails, one_more, one_more_failed};

use std::alloc::{AllocError, Global};
use std::marker::Model;

/// Counts the calls of an object, and knows which of them fail.
#[derive(Debug, Drop)]
pub struct Calls {
    failing: Vec<u64>,
    made: u64,
    faults: u64,
}

impl Model for Calls {
    ghost Value = { Tally };

    ghost view = { λ c. record { failing = c.failing.items; made = c.made; faults = c.faults } };

    ghost invariant = { λ c. c.faults < 2 ^ 64 };
}

impl Calls {
    /// No call yet. Those with these numbers will fail, counted from 1.
    pub(crate) fn new(alloc: Global, failing: &[u64]) -> Result<Calls, AllocError>
        ensures { IfOk result (λ calls. calls ≡ no_calls failing.now) }
    {
        Ok(Calls {
            failing: Vec::from_slice(alloc, failing)?,
            made: 0,
            faults: 0,
        })
    }

    /// Counts one more call, and answers whether it fails.
    pub(crate) fn next_fails(&mut self) -> bool
        ensures told { IsTrue result ↔ NextFails self.old }
        ensures counted { self.new
            ≡ (if result then one_more_failed self.old else one_more self.old) }
        ensures later { self.old.faults ≤ self.new.faults }
    {
        self.made = self.made.saturating_add(1);
        let fails = self.failing.contains(&self.made);
        if fails {
            self.count_fault();
        }
        fails
    }

    /// Counts one more fault, of the call that was counted last.
    pub(crate) fn count_fault(&mut self)
        ensures counted { self.new ≡ record self.old { faults = next_count self.old.faults } }
        ensures later { self.old.faults ≤ self.new.faults }
    {
        self.faults = self.faults.saturating_add(1);
    }
}
