//! What a run keeps of the granted segments: what a reduction has to know of each.
ghost use Rattle.std.specs.Prelude.{◌*◌, ◌^◌, ◌<◌, ◌≤◌, length};
ghost use Rattle.units.specs.declared.TheConstants.{MOST_PAGES};

use crate::rows::{Rows, renew};
use crate::segment::{KnownSegment, Least};
use std::alloc::Global;
use std::marker::Model;
use units::NoMemory;
use use_queue::UseQueue;

/// What is kept of all numbers that were drawn, and the pages of the live segments.
#[derive(Drop)]
pub(crate) struct KnownSegments {
    /// By number. The number 0 is never drawn, and its place says so.
    rows: Rows,
    /// The known use of each live segment. An entry of a known use that is no more, or of a segment
    /// that is not live, stays until it comes to the front or there is no room for another one.
    uses: UseQueue,
    pages: u128,
}

impl Model for KnownSegments {
    ghost use Rattle.std.specs.Prelude.{◌*◌, ◌^◌, ◌<◌, ◌≤◌, length};
    ghost use Rattle.units.specs.declared.TheConstants.{MOST_PAGES};
    ghost use Rattle.use_queue.specs.Entries.{IsSoundQueue};
    ghost use Rattle.replay_plain.specs.Rows.{KnownView, IsLiveUse};

    ghost Value = { KnownView };

    ghost view = { λ k. record { items = k.rows.items; pages = k.pages } };

    // The queue has two places for each number, so what is dead is dropped once for as many changes as
    // there are numbers.
    ghost invariant = { λ k. (1 ≤ length k.rows.items)
        × (k.pages ≤ MOST_PAGES * length k.rows.items)
        × (2 * length k.rows.items < 2 ^ 64)
        × IsSoundQueue (IsLiveUse k.rows.items) k.uses.entries
        × (2 * length k.rows.items ≤ k.uses.room) };
}

impl KnownSegments {
    ghost use Rattle.std.specs.Prelude.{◌≡◌, ◌+◌, ◌-◌, ◌<◌, ◌++◌, ◌∷◌, [], List, ℕ, ◌==◌, ◌&&◌, slice_get, slice_set, IfOk, OnOk, option_map};
    ghost use Rattle.machine.specs.declared.event.Event.{Event};
    ghost use Rattle.machine.specs.declared.event.Event.TheVariants as event;
    ghost use Rattle.machine.specs.declared.event.Answer.TheVariants as answers;
    ghost use Rattle.machine.specs.Reduction.{least};
    ghost use Rattle.machine.specs.History.{client_of};
    ghost use Rattle.machine.specs.Answers.{answer, answered, plain, live};
    ghost use Rattle.replay_plain.specs.State.{known_use};
    ghost use Rattle.replay_plain.specs.Reductions.{live_segments};
    ghost use Rattle.replay_plain.specs.Known.{TellsAll, least_told};

    /// No number was drawn.
    pub(crate) fn new(alloc: Global) -> Result<KnownSegments, NoMemory>
        ensures { IfOk result (λ known. TellsAll [] known) }
    {
        let mut rows = Rows::new(alloc);
        rows.push(KnownSegment {
            client: 0,
            pages: 0,
            known: 0,
            live: false,
            plain: false,
        })?;
        let mut uses = UseQueue::new(alloc);
        uses.reserve(2)?;
        Ok(KnownSegments {
            rows,
            uses,
            pages: 0,
        })
    }

    /// The number that the next grant draws.
    pub(crate) fn next(&self) -> u64
        ensures next { result ≡ length self.now.items }
        ensures some { 1 ≤ result }
        ensures few { 2 * result < 2 ^ 64 }
    {
        self.rows.len() as u64
    }

    /// The pages of the live segments.
    pub(crate) fn pages(&self) -> u128
        ensures { result ≡ self.now.pages }
    {
        self.pages
    }

    /// The next number was granted. It takes the room for its known uses.
    pub(crate) fn granted(&mut self, client: u32, pages: u32) -> Result<(), NoMemory>
        requires few { pages ≤ MOST_PAGES }
        ensures { OnOk result ((events : List Event) (id : ℕ) → TellsAll events self.old
            → answer events (event.Grant id client pages) ≡ answers.Granted id
            → id ≡ length self.old.items
            → TellsAll (events ++ event.Grant id client pages ∷ []) self.new) }
    {
        self.push(KnownSegment {
            client,
            pages,
            known: 0,
            live: true,
            plain: true,
        })?;
        Ok(())
    }

    /// A try found that the segment of this number is used.
    pub(crate) fn used(&mut self, id: u64, known: u64)
        ensures { (events : List Event) (now : ℕ) → TellsAll events self.old
            → answer events (event.Try id now) ≡ answers.Used known
            → TellsAll (events ++ event.Try id now ∷ []) self.new }
    {
        if let Some(mut segment) = self.get(id) {
            segment.known = known;
            self.set(id, segment);
        }
    }

    /// A try purged the segment of this number. It answers its known use.
    pub(crate) fn purged(&mut self, id: u64) -> u64
        ensures tells { (events : List Event) (now : ℕ) → TellsAll events self.old
            → answer events (event.Try id now) ≡ answers.Taken
            → TellsAll (events ++ event.Try id now ∷ []) self.new }
        ensures known { (events : List Event) (now : ℕ) → TellsAll events self.old
            → answer events (event.Try id now) ≡ answers.Taken
            → result ≡ known_use events id }
    {
        let Some(mut segment) = self.get(id) else {
            return 0;
        };
        segment.live = false;
        self.set(id, segment);
        self.lose(segment.pages);
        segment.known
    }

    /// The segment of this number, which was live, was given back.
    pub(crate) fn counted(&mut self, id: u64)
        ensures { (events : List Event) → TellsAll events self.old
            → answer events (event.Back id) ≡ answers.Counted
            → TellsAll (events ++ event.Back id ∷ []) self.new }
    {
        if let Some(mut segment) = self.get(id) {
            segment.live = false;
            segment.plain = false;
            self.set(id, segment);
            self.lose(segment.pages);
        }
    }

    /// The segment of this number, which was purged, was given back.
    pub(crate) fn returned(&mut self, id: u64)
        ensures { (events : List Event) → TellsAll events self.old
            → answer events (event.Back id) ≡ answers.Purged
            → TellsAll (events ++ event.Back id ∷ []) self.new }
    {
        if let Some(mut segment) = self.get(id) {
            segment.live = false;
            segment.plain = false;
            self.set(id, segment);
        }
    }

    /// Whether the number is that of a client's segment that was not given back.
    pub(crate) fn has(&self, client: u32, id: u64) -> bool
        ensures { (events : List Event) → TellsAll events self.now
            → id < length self.now.items
            → result ≡ (client_of (answered events) id == client && plain events id) }
    {
        match self.get(id) {
            Some(segment) => segment.client == client && segment.plain,
            None => false,
        }
    }

    /// Whether the number is that of a live segment.
    pub(crate) fn is_live(&self, id: u64) -> bool
        ensures { (events : List Event) → TellsAll events self.now → result ≡ live events id }
    {
        match self.get(id) {
            Some(segment) => segment.live,
            None => false,
        }
    }

    /// The live segment of the least known use, and among those of the same the one of the least
    /// number.
    pub(crate) fn least(&self) -> Option<Least>
        ensures { (events : List Event) → TellsAll events self.now
            → result ≡ option_map least_told (least (live_segments events)) }
    {
        match self.uses.first() {
            Some((known, id)) => Some(Least { id, known }),
            None => None,
        }
    }

    /// What is kept of a number.
    fn get(&self, id: u64) -> Option<KnownSegment>
        ensures { result ≡ slice_get self.now.items id }
    {
        self.rows.get(id)
    }

    /// Keeps this of the next number, and counts its pages. It takes the room for the number's known
    /// uses to come.
    fn push(&mut self, segment: KnownSegment) -> Result<(), NoMemory>
        requires few { segment.pages ≤ MOST_PAGES }
        ensures items { OnOk result (self.new.items ≡ self.old.items ++ segment ∷ []) }
        ensures pages { OnOk result (self.new.pages ≡ self.old.pages + segment.pages) }
    {
        let id = self.rows.len();
        let Some(places) = (2 * id).checked_add(2) else {
            return Err(NoMemory);
        };
        self.uses.reserve(places)?;
        self.rows.push(segment)?;
        self.pages += u128::from(segment.pages);
        renew(&self.rows, &mut self.uses, id as u64);
        Ok(())
    }

    /// Keeps this of a number from now on, and takes no memory.
    fn set(&mut self, id: u64, segment: KnownSegment)
        requires inside { id < length self.old.items }
        ensures items { self.new.items ≡ slice_set self.old.items id segment }
        ensures pages { self.new.pages ≡ self.old.pages }
    {
        self.rows.set(id, segment);
        renew(&self.rows, &mut self.uses, id);
    }

    /// So many pages are live no more.
    fn lose(&mut self, pages: u32)
        ensures items { self.new.items ≡ self.old.items }
        ensures pages { self.new.pages ≡ self.old.pages - pages }
    {
        self.pages = self.pages.saturating_sub(u128::from(pages));
    }
}
