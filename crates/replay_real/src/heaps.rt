//! What the clients of a script have of memory on real segments.
ghost use Rattle.std.specs.Prelude.{◌≤◌};
ghost use Rattle.units.specs.declared.TheConstants.{MOST_PAGES};

use crate::script_client::ScriptClient;
use line_text::MOST_SEGMENT_PAGES;
use machine::Answer;
use manager_state::State;
use script_heaps::PieceOwner;
use segment::OwnerSide;
use span_heap::{Heap, Run, Runs};
use std::alloc::Global;
use std::collections::BTreeMap;
use units::NoMemory;

/// The clients that pieces came to, the pieces by their numbers, and which segments ever came to a
/// client's heap.
#[derive(Drop)]
pub(crate) struct Heaps {
    /// The standard size of a segment in pages.
    standard: u32,
    clients: BTreeMap<u64, ScriptClient>,
    /// By the number of the piece, from 1 on.
    owners: Vec<PieceOwner>,
    /// By the number of the segment.
    owned: Vec<bool>,
    ghost sized: { (1 ≤ standard) × (standard ≤ MOST_PAGES) },
}

impl Heaps {
    ghost use Rattle.std.specs.Prelude.{◌≡◌, ◌+◌, ◌^◌, false, length, None, [], IfSome, IfOk, OnOk, option_map};
    ghost use Rattle.span_heap.specs.Runs.{front_of};
    ghost use Rattle.span_heap.specs.Changes.{whole_of};
    ghost use Rattle.units.specs.Moment.{IsMoment};
    ghost use Rattle.segment.specs.declared.owner.Phase.TheVariants as phase;
    ghost use Rattle.machine.specs.declared.event.Answer.TheVariants as answer;
    ghost use Rattle.script_text.specs.Ranges.{IsClient};
    ghost use Rattle.replay_real.specs.Emptiness.{AreEmpty, is_of_heap};
    ghost use Rattle.replay_real.specs.Standing.{Grows};
    ghost use Rattle.replay_real.specs.Returning.{TellsServed, ReleasesServed, EmptiesServed};
    ghost use Rattle.replay_real.specs.PieceCalls.{owner_at, OnPiece, OnClient, LocksSlot, UnlocksSlot, WritesSlot, FreesSlot, SweepsServed, piece_bytes, free_runs};

    /// No client has anything.
    pub(crate) fn new(alloc: Global, standard: u32) -> Heaps
        ensures { AreEmpty result }
    {
        Heaps {
            standard: standard.clamp(1, MOST_SEGMENT_PAGES as u32),
            clients: BTreeMap::new(alloc),
            owners: Vec::new(alloc),
            owned: Vec::new(alloc),
        }
    }

    /// The standard size of a segment in pages.
    pub(crate) fn standard(&self) -> u32
        ensures standard { result ≡ self.now.standard }
        ensures sized { (1 ≤ result) × (result ≤ MOST_PAGES) }
    {
        self.standard
    }

    /// Whether a segment came to a client's heap, also where it left.
    pub(crate) fn owns(&self, id: u64) -> bool
        ensures told { result ≡ is_of_heap self.now id }
        ensures empty { AreEmpty self.now → result ≡ false }
    {
        match self.owned.get(id as usize) {
            Some(owned) => *owned,
            None => false,
        }
    }

    /// The number of the piece that came last, or 0 where none came.
    pub(crate) fn last_piece(&self) -> u64
        ensures { result ≡ length self.now.owners.items }
    {
        self.owners.len() as u64
    }

    /// The owner of a piece, if it came.
    fn owner(&self, number: u64) -> Option<PieceOwner>
        ensures owner { result ≡ owner_at self.now number }
        ensures empty { AreEmpty self.now → result ≡ None }
    {
        let place = number.checked_sub(1)?;
        self.owners.get(place as usize).copied()
    }

    /// Looks for free pages of a client. Those that it finds are the next piece, locked.
    pub(crate) fn find(&mut self, client: u64, pages: u32) -> Result<Option<Run>, NoMemory>
        requires { (1 ≤ pages) × (pages ≤ MOST_PAGES) }
        ensures sized { IfOk result (λ found. IfSome found (λ run. run.pages ≡ pages)) }
        ensures standard { OnOk result (self.new.standard ≡ self.old.standard) }
    {
        let Some(held) = self.clients.get_mut(&client) else {
            return Ok(None);
        };
        let place = held.count();
        let Some(run) = held.find(pages)? else {
            return Ok(None);
        };
        self.owners.push(PieceOwner { client, place })?;
        Ok(Some(run))
    }

    /// A segment that is held comes to a client. Its first pages are the next piece, locked.
    pub(crate) fn adopt(
        &mut self,
        alloc: Global,
        client: u64,
        side: OwnerSide,
        pages: u32,
        now: u64,
    ) -> Result<Run, NoMemory>
        requires client { IsClient client }
        requires held { side.phase ≡ phase.Held }
        requires pages { (1 ≤ pages) × (pages ≤ side.pages) }
        requires moment { IsMoment now }
        ensures { IfOk result (λ run. run ≡ front_of (whole_of side.id side.pages) pages) }
    {
        self.mark(side.id())?;
        let (place, run) = self.adopt_first(alloc, client, side, pages, now)?;
        self.owners.push(PieceOwner { client, place })?;
        Ok(run)
    }

    /// The same but for the numbers: the place of the piece among the client's, and its pages.
    fn adopt_first(
        &mut self,
        alloc: Global,
        client: u64,
        side: OwnerSide,
        pages: u32,
        now: u64,
    ) -> Result<(u64, Run), NoMemory>
        requires client { IsClient client }
        requires held { side.phase ≡ phase.Held }
        requires pages { (1 ≤ pages) × (pages ≤ side.pages) }
        requires moment { IsMoment now }
        ensures { IfOk result (λ told. told.1 ≡ front_of (whole_of side.id side.pages) pages) }
    {
        match self.clients.get_mut(&client) {
            Some(held) => {
                let place = held.count();
                Ok((place, held.adopt(alloc, side, pages, now)?))
            }
            None => {
                let mut held = ScriptClient::new(alloc, client as u32, self.standard)?;
                let run = held.adopt(alloc, side, pages, now)?;
                self.clients.insert(client, held)?;
                Ok((0, run))
            }
        }
    }

    /// Notes that a segment came to a client's heap. `NoMemory` comes also for a number from 2^32 on,
    /// which no script draws.
    fn mark(&mut self, id: u64) -> Result<(), NoMemory> {
        if id >= u64::from(u32::MAX) {
            return Err(NoMemory);
        }
        let place = id as usize;
        if self.owned.len() <= place {
            self.owned.resize(place + 1, false)?;
        }
        self.owned[place] = true;
        Ok(())
    }

    /// Locks a piece: misuse where it is not there, or is locked.
    pub(crate) fn lock(&mut self, number: u64) -> Answer
        ensures locks { OnPiece number (LocksSlot result) (result ≡ answer.Misuse)
            self.old self.new }
    {
        let Some(owner) = self.owner(number) else {
            return Answer::Misuse;
        };
        match self.clients.get_mut(&owner.client) {
            Some(held) => held.lock(owner.place),
            None => Answer::Misuse,
        }
    }

    /// Unlocks a piece at a moment: misuse where it is not there, or is not locked.
    pub(crate) fn unlock(&mut self, number: u64, now: u64) -> Answer
        requires { IsMoment now }
        ensures unlocks { OnPiece number (UnlocksSlot now result) (result ≡ answer.Misuse)
            self.old self.new }
        ensures misuse { AreEmpty self.old → result ≡ answer.Misuse }
        ensures empty { AreEmpty self.old → AreEmpty self.new }
    {
        let Some(owner) = self.owner(number) else {
            return Answer::Misuse;
        };
        match self.clients.get_mut(&owner.client) {
            Some(held) => held.unlock(owner.place, now),
            None => Answer::Misuse,
        }
    }

    /// Writes bytes to a piece from the byte `at` on: misuse where it is not there or not locked, or
    /// where they pass its pages.
    pub(crate) fn write(&mut self, number: u64, at: u64, bytes: &[u8]) -> Answer
        requires { at + length bytes.now ≤ 2 ^ 32 }
        ensures writes { OnPiece number (WritesSlot at bytes.now result) (result ≡ answer.Misuse)
            self.old self.new }
        ensures misuse { AreEmpty self.old → result ≡ answer.Misuse }
        ensures empty { AreEmpty self.old → AreEmpty self.new }
    {
        let Some(owner) = self.owner(number) else {
            return Answer::Misuse;
        };
        match self.clients.get_mut(&owner.client) {
            Some(held) => held.write(owner.place, at, bytes),
            None => Answer::Misuse,
        }
    }

    /// The bytes of a piece, `count` of them from the byte `at` on. None where it is not there or not
    /// locked, or where they pass its pages.
    pub(crate) fn read(&self, number: u64, at: u64, count: u64) -> Option<&[u8]>
        requires { at + count ≤ 2 ^ 32 }
        ensures shown { option_map (λ bytes. bytes.now) result
            ≡ piece_bytes self.now number at count }
        ensures none { AreEmpty self.now → result ≡ None }
        ensures few { IfSome result (λ bytes. length bytes.now ≤ count) }
    {
        let owner = self.owner(number)?;
        match self.clients.get(&owner.client) {
            Some(held) => held.read(owner.place, at, count),
            None => None,
        }
    }

    /// Gives up a piece at a moment, and answers whether its segment was not known to be gone. None
    /// where it is not there.
    pub(crate) fn free(&mut self, number: u64, now: u64) -> Option<bool>
        requires { IsMoment now }
        ensures frees { OnPiece number (FreesSlot now result) (result ≡ None) self.old self.new }
        ensures none { AreEmpty self.old → result ≡ None }
        ensures empty { AreEmpty self.old → AreEmpty self.new }
    {
        let owner = self.owner(number)?;
        match self.clients.get_mut(&owner.client) {
            Some(held) => held.free(owner.place, now),
            None => None,
        }
    }

    /// Looks at each segment of a client with no locked page. Those that are gone leave, and it answers
    /// how many.
    pub(crate) fn sweep(&mut self, client: u64) -> u64
        ensures { OnClient client (SweepsServed result) (result ≡ 0) self.old self.new }
    {
        match self.clients.get_mut(&client) {
            Some(held) => held.sweep(),
            None => 0,
        }
    }

    /// Tells a manager of each segment of a client that left since it was found gone.
    pub(crate) fn tell(&mut self, client: u64, state: &mut State)
        ensures tells { OnClient client (TellsServed state.old state.new)
            (state.new ≡ state.old) self.old self.new }
        ensures book { Grows state.old.entries state.new.entries }
    {
        match self.clients.get_mut(&client) {
            Some(held) => held.tell(state),
            None => {}
        }
    }

    /// Gives each segment of a client that is all free back to a manager.
    pub(crate) fn release(&mut self, client: u64, state: &mut State)
        ensures releases { OnClient client (ReleasesServed state.old state.new)
            (state.new ≡ state.old) self.old self.new }
        ensures book { Grows state.old.entries state.new.entries }
    {
        match self.clients.get_mut(&client) {
            Some(held) => held.release(state),
            None => {}
        }
    }

    /// A client's pieces go, and all its segments are given up and handed to a manager.
    pub(crate) fn empty(&mut self, client: u64, state: &mut State)
        ensures empties { OnClient client (EmptiesServed state.old state.new)
            (state.new ≡ state.old) self.old self.new }
        ensures book { Grows state.old.entries state.new.entries }
    {
        match self.clients.get_mut(&client) {
            Some(held) => held.empty(state),
            None => {}
        }
    }

    /// The free runs of a client as they are now, the oldest first.
    pub(crate) fn runs(&self, alloc: Global, client: u64) -> Result<Runs, NoMemory>
        ensures runs { IfOk result (λ runs. runs ≡ free_runs self.now client) }
        ensures empty { IfOk result (λ runs. AreEmpty self.now → runs ≡ []) }
    {
        match self.clients.get(&client) {
            Some(held) => held.runs(alloc),
            None => Heap::new(alloc)?.runs(alloc),
        }
    }
}
