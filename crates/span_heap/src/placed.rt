//! The free runs and used spans of a heap, each kept under a place.
ghost use Rattle.std.specs.Prelude.{◌≡◌, ℕ, ◌+◌, ◌-◌, ◌^◌, ◌<◌, ◌≤◌, ◌++◌, ◌∷◌, [], Contains, IfOk, OnOk, OnErr, length, set};
ghost use Rattle.free_lists.specs.Lists.{list_of, without};
ghost use Rattle.span_heap.specs.Placed.{AreWithin, IsDistinct, IsPickOf, free_of, latest_first, run_at};

use crate::by_class::pick_place;
use crate::run::Run;
use free_lists::Lists;
use std::alloc::Global;
use std::marker::Model;
use units::NoMemory;

/// The class of the order in which the free runs stand, by age.
const FREE: u32 = 1;

/// The class of the order in which the used spans stand.
const USED: u32 = 2;

/// Runs under places. A free run stands in the list of its length too.
#[derive(Drop)]
pub(crate) struct PlacedRuns {
    lists: Lists,
    /// How many places the lists have.
    listed: u32,
    order: Lists,
    /// How many places the order has.
    ordered: u32,
    /// The run under each place, where one stands there.
    runs: Vec<Run>,
}

impl Model for PlacedRuns {
    ghost use Rattle.free_lists.specs.Lists.{list_of};
    ghost use Rattle.span_heap.specs.Placed.{Placed, IsPlaced};

    ghost Value = { Placed };

    ghost view = { λ p.
        record { free = list_of p.order 1; used = list_of p.order 2; runs = p.runs.items } };

    ghost invariant = { λ p. IsPlaced p.lists p.order p.runs.items p.listed p.ordered };
}

impl PlacedRuns {
    /// No place and no run. The one error is being out of memory.
    pub(crate) fn new(alloc: Global) -> Result<PlacedRuns, NoMemory>
        ensures { IfOk result (λ placed. placed ≡ record { free = []; used = []; runs = [] }) }
    {
        Ok(PlacedRuns {
            lists: Lists::new(alloc)?,
            listed: 0,
            order: Lists::new(alloc)?,
            ordered: 0,
            runs: Vec::new(alloc),
        })
    }

    /// How many places there are.
    pub(crate) fn len(&self) -> usize
        ensures { result ≡ length self.now.runs }
    {
        self.runs.len()
    }

    /// Adds `more` places, under which no run stands. At `NoMemory` no place comes.
    pub(crate) fn extend(&mut self, alloc: Global, more: u32) -> Result<(), NoMemory>
        requires small { length self.old.runs + more < 2 ^ 32 }
        ensures runs { OnOk result (length self.new.runs ≡ length self.old.runs + more) }
        ensures same { OnErr result (length self.new.runs ≡ length self.old.runs) }
        ensures read { (place : ℕ) → run_at self.new.runs place ≡ run_at self.old.runs place }
        ensures free { self.new.free ≡ self.old.free }
        ensures used { self.new.used ≡ self.old.used }
    {
        let total = self.runs.len() as u32 + more;
        reach(&mut self.lists, &mut self.listed, alloc, total)?;
        reach(&mut self.order, &mut self.ordered, alloc, total)?;
        self.runs.resize(total as usize, Run::NONE)?;
        Ok(())
    }

    /// Keeps a free run under a place, as the latest.
    pub(crate) fn add_free(&mut self, place: u32, run: Run)
        requires place { place < length self.old.runs }
        requires not_free { Contains self.old.free place → ⊥ }
        requires not_used { Contains self.old.used place → ⊥ }
        requires sized { 1 ≤ run.pages }
        ensures free { self.new.free ≡ self.old.free ++ place ∷ [] }
        ensures used { self.new.used ≡ self.old.used }
        ensures runs { self.new.runs ≡ set self.old.runs place run }
    {
        self.lists.append(place, run.pages);
        self.order.append(place, FREE);
        self.runs[place as usize] = run;
    }

    /// Keeps a used span under a place.
    pub(crate) fn add_used(&mut self, place: u32, span: Run)
        requires place { place < length self.old.runs }
        requires not_free { Contains self.old.free place → ⊥ }
        requires not_used { Contains self.old.used place → ⊥ }
        ensures free { self.new.free ≡ self.old.free }
        ensures used { self.new.used ≡ self.old.used ++ place ∷ [] }
        ensures runs { self.new.runs ≡ set self.old.runs place span }
    {
        self.order.append(place, USED);
        self.runs[place as usize] = span;
    }

    /// Takes out the free run under a place.
    pub(crate) fn take_free(&mut self, place: u32)
        requires { Contains self.old.free place }
        ensures free { self.new.free ≡ without self.old.free place }
        ensures used { self.new.used ≡ self.old.used }
        ensures runs { self.new.runs ≡ self.old.runs }
    {
        self.lists.remove(place);
        self.order.remove(place);
    }

    /// Takes out the used span under a place.
    pub(crate) fn take_used(&mut self, place: u32)
        requires { Contains self.old.used place }
        ensures free { self.new.free ≡ self.old.free }
        ensures used { self.new.used ≡ without self.old.used place }
        ensures runs { self.new.runs ≡ self.old.runs }
    {
        self.order.remove(place);
    }

    /// The free run that a search for `pages` to `most` pages takes.
    pub(crate) fn pick(&self, pages: u32, most: u32) -> Option<Run>
        requires sized { 1 ≤ pages }
        requires order { pages ≤ most }
        ensures { IsPickOf self.now pages (most - pages) result }
    {
        let place = pick_place(&self.lists, self.runs.as_slice(), pages, most)?;
        Some(self.runs[place as usize])
    }

    /// The free runs, the oldest first.
    pub(crate) fn list(&self, alloc: Global) -> Result<Vec<Run>, NoMemory>
        ensures { IfOk result (λ runs. runs.items ≡ free_of self.now) }
    {
        let mut runs = latest_first(alloc, &self.order, self.runs.as_slice())?;
        runs.reverse();
        Ok(runs)
    }
}

/// The free runs, the latest first.
fn latest_first(alloc: Global, order: &Lists, runs: &[Run]) -> Result<Vec<Run>, NoMemory>
    requires within { AreWithin runs.now (list_of order.now 1) }
    requires distinct { IsDistinct (list_of order.now 1) }
    ensures { IfOk result (λ found. found.items ≡ latest_first runs.now (list_of order.now 1)) }
{
    let mut found = Vec::new(alloc);
    let mut at = order.tail(FREE);
    while let Some(place) = at {
        found.push(runs[place as usize])?;
        at = order.before(place);
    }
    Ok(found)
}

/// Adds the places that the lists miss of `total`.
fn reach(lists: &mut Lists, places: &mut u32, alloc: Global, total: u32) -> Result<(), NoMemory>
    requires counted { lists.old.places ≡ places.old }
    ensures counted { lists.new.places ≡ places.new }
    ensures least { places.old ≤ places.new }
    ensures reach { OnOk result (total ≤ places.new) }
    ensures list { (class : ℕ) → list_of lists.new class ≡ list_of lists.old class }
{
    if *places < total {
        lists.extend(alloc, total - *places)?;
        *places = total;
    }
    Ok(())
}
