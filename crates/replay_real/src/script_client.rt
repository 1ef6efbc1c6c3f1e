//! A client of a script with the pieces that came to it.
ghost use Rattle.std.specs.Prelude.{◌≡◌, ◌<◌, ◌≤◌, ◌*◌, ◌+◌, ◌^◌, ℕ, false, length, Some, None, IfSome, IfNone, IfOk, OnOk, slice_index_or, option_map, []};
ghost use Rattle.units.specs.declared.TheConstants.{MOST_PAGES, PAGE};
ghost use Rattle.units.specs.Moment.{IsMoment};
ghost use Rattle.segment.specs.declared.owner.Phase.TheVariants as phase;
ghost use Rattle.span_heap.specs.Runs.{front_of};
ghost use Rattle.span_heap.specs.Changes.{whole_of};
ghost use Rattle.client.specs.Seen.{IsUnknown};
ghost use Rattle.client.specs.Pieces.{Owns, AllStay};
ghost use Rattle.replay_real.specs.Served.{OwnsSlot, KeepsSlot};
ghost use Rattle.replay_real.specs.PieceCalls.{CallsAt, LocksSlot, UnlocksSlot, WritesSlot, FreesSlot, SweepsServed, bytes_shown, slot_at, is_shown};
ghost use Rattle.replay_real.specs.Returning.{HandsBack, HandsInAll, ReleasesFree, TellsAll, KeepsParts};
ghost use Rattle.replay_real.specs.Standing.{Grows};

use crate::owner::put;
use client::{Client, Piece, Unlocked};
use machine::Answer;
use manager_state::{Back, State};
use segment::{GiveUp, Lock, OwnerSide};
use span_heap::{Run, Runs};
use std::alloc::Global;
use std::marker::Model;
use units::{NoMemory, PAGE};

/// A client of a script, and the pieces that came to it, by place: none where one was given up.
#[derive(Drop)]
pub(crate) struct ScriptClient {
    client: Client,
    pieces: Vec<Option<Piece>>,
    /// How many pieces came before these, all of which went when the client was removed.
    before: u64,
}

impl Model for ScriptClient {
    ghost use Rattle.replay_real.specs.Served.{ServedClient, IsServed};

    ghost Value = { ServedClient };

    ghost view = { λ s.
        record { client = s.client; parts = s.pieces.items; before = s.before } };

    ghost invariant = { λ s. IsServed s.client s.pieces.items };
}

impl ScriptClient {
    /// A client that has nothing.
    pub(crate) fn new(alloc: Global, number: u32, standard: u32) -> Result<ScriptClient, NoMemory>
        requires number { 1 ≤ number }
        requires standard { (1 ≤ standard) × (standard ≤ MOST_PAGES) }
    {
        Ok(ScriptClient {
            client: Client::new(alloc, number, standard)?,
            pieces: Vec::new(alloc),
            before: 0,
        })
    }

    /// How many pieces came to it: the place of the next one.
    pub(crate) fn count(&self) -> u64 {
        self.before.saturating_add(self.pieces.len() as u64)
    }

    /// Where the piece at a place stands among those that did not go with a removal.
    fn index(&self, place: u64) -> Option<usize>
        ensures some { IfSome result (λ index. (index < length self.now.parts)
            × (place ≡ self.now.before + index)) }
        ensures none { IfNone result (slot_at self.now place ≡ None) }
    {
        let index = place.checked_sub(self.before)?;
        if index < self.pieces.len() as u64 {
            Some(index as usize)
        } else {
            None
        }
    }

    /// Looks for free pages. Those that it finds are a piece, locked, which comes last.
    pub(crate) fn find(&mut self, pages: u32) -> Result<Option<Run>, NoMemory>
        requires { (1 ≤ pages) × (pages ≤ MOST_PAGES) }
        ensures { IfOk result (λ found. IfSome found (λ run. run.pages ≡ pages)) }
    {
        self.pieces.reserve(1)?;
        match self.client.find(pages) {
            Some(piece) => {
                let run = run_of(&piece);
                self.pieces.push_reserved(Some(piece));
                Ok(Some(run))
            }
            None => Ok(None),
        }
    }

    /// Takes in a segment that is held. Its first pages are a piece, locked, which comes last. `NoMemory`
    /// comes also where a segment of its number is known, or the client has too many pages; a script,
    /// which draws each number once and has 524,288 pages at most, does not come so far.
    pub(crate) fn adopt(
        &mut self,
        alloc: Global,
        side: OwnerSide,
        pages: u32,
        now: u64,
    ) -> Result<Run, NoMemory>
        requires held { side.phase ≡ phase.Held }
        requires pages { (1 ≤ pages) × (pages ≤ side.pages) }
        requires moment { IsMoment now }
        ensures { IfOk result (λ run. run ≡ front_of (whole_of side.id side.pages) pages) }
    {
        if self.client.knows(side.id()) {
            return Err(NoMemory);
        }
        let whole = self
            .client
            .heap_pages()
            .saturating_add(u64::from(side.pages()));
        if whole > u64::from(u32::MAX) {
            return Err(NoMemory);
        }
        self.pieces.reserve(1)?;
        let Ok(piece) = self.client.adopt(alloc, side, pages, now) else {
            return Err(NoMemory);
        };
        let run = run_of(&piece);
        self.pieces.push_reserved(Some(piece));
        Ok(run)
    }

    /// Locks the piece at a place: misuse where it is not there, or is locked.
    pub(crate) fn lock(&mut self, place: u64) -> Answer
        ensures locks { CallsAt place (LocksSlot result) self.old self.new }
    {
        let Some(index) = self.index(place) else {
            return Answer::Misuse;
        };
        lock_slot(&mut self.client, &mut self.pieces[index])
    }

    /// Unlocks the piece at a place at a moment: misuse where it is not there, or is not locked.
    pub(crate) fn unlock(&mut self, place: u64, now: u64) -> Answer
        requires { IsMoment now }
        ensures unlocks { CallsAt place (UnlocksSlot now result) self.old self.new }
    {
        let Some(index) = self.index(place) else {
            return Answer::Misuse;
        };
        unlock_slot(&mut self.client, &mut self.pieces[index], now)
    }

    /// Writes bytes to the piece at a place, from the byte `at` on: misuse where it is not there or not
    /// locked, or where they pass its pages.
    pub(crate) fn write(&mut self, place: u64, at: u64, bytes: &[u8]) -> Answer
        requires { at + length bytes.now ≤ 2 ^ 32 }
        ensures writes { CallsAt place (WritesSlot at bytes.now result) self.old self.new }
    {
        let Some(index) = self.index(place) else {
            return Answer::Misuse;
        };
        write_slot(&mut self.client, &self.pieces[index], at, bytes)
    }

    /// The bytes of the piece at a place, `count` of them from the byte `at` on. None where it is not
    /// there or not locked, or where they pass its pages.
    pub(crate) fn read(&self, place: u64, at: u64, count: u64) -> Option<&[u8]>
        requires { at + count ≤ 2 ^ 32 }
        ensures few { IfSome result (λ bytes. length bytes.now ≤ count) }
        ensures shown { option_map (λ bytes. bytes.now) result
            ≡ bytes_shown self.now.client (slot_at self.now place) at count }
    {
        let index = self.index(place)?;
        read_slot(&self.client, &self.pieces[index], at, count)
    }

    /// Gives up the piece at a place, at a moment, and answers whether its segment was not known to be
    /// gone. None where it is not there.
    pub(crate) fn free(&mut self, place: u64, now: u64) -> Option<bool>
        requires { IsMoment now }
        ensures frees { CallsAt place (FreesSlot now result) self.old self.new }
    {
        let index = self.index(place)?;
        free_slot(&mut self.client, &mut self.pieces[index], now)
    }

    /// Looks at each segment with no locked page. Those that are gone leave, and it answers how many.
    pub(crate) fn sweep(&mut self) -> u64
        ensures sweeps { SweepsServed result self.old self.new }
    {
        self.client.sweep()
    }

    /// Tells a manager of each segment that left since it was found gone.
    pub(crate) fn tell(&mut self, state: &mut State)
        ensures tells { TellsAll self.old.client state.old self.new.client state.new }
        ensures parts { KeepsParts self.old self.new }
        ensures book { Grows state.old.entries state.new.entries }
    {
        tell_all(&mut self.client, state);
    }

    /// Gives each segment that is all free back to a manager.
    pub(crate) fn release(&mut self, state: &mut State)
        ensures releases { ReleasesFree self.old.client state.old self.new.client state.new }
        ensures parts { KeepsParts self.old self.new }
        ensures book { Grows state.old.entries state.new.entries }
    {
        release_free(&mut self.client, state);
    }

    /// The free runs as they are now, the oldest first.
    pub(crate) fn runs(&self, alloc: Global) -> Result<Runs, NoMemory>
        ensures { IfOk result (λ runs. runs ≡ self.now.client.heap.free) }
    {
        self.client.runs(alloc)
    }

    /// Its pieces go, and all its segments are given up and handed to a manager.
    pub(crate) fn empty(&mut self, state: &mut State)
        ensures hands { HandsInAll self.old.client state.old self.new.client state.new }
        ensures parts { self.new.parts ≡ [] }
        ensures book { Grows state.old.entries state.new.entries }
    {
        self.before = self.count();
        self.pieces.clear();
        hand_in_all(&mut self.client, state);
    }
}

/// The pages of a piece.
fn run_of(piece: &Piece) -> Run
    ensures { result ≡ piece.now.run }
{
    Run {
        segment: piece.segment(),
        first: piece.first(),
        pages: piece.pages(),
    }
}

/// Locks a piece: misuse where it is not there, or is locked.
fn lock_slot(client: &mut Client, slot: &mut Option<Piece>) -> Answer
    requires { OwnsSlot client.old slot.old }
    ensures keeps { KeepsSlot client.old client.new slot.old slot.new }
    ensures locks { LocksSlot result slot.old slot.new client.old client.new }
{
    let Some(piece) = slot else {
        return Answer::Misuse;
    };
    if piece.locked() {
        return Answer::Misuse;
    }
    match client.lock(piece) {
        Lock::Held => Answer::Held,
        Lock::Gone => Answer::Gone,
    }
}

/// Unlocks a piece at a moment: misuse where it is not there, or is not locked.
fn unlock_slot(client: &mut Client, slot: &mut Option<Piece>, now: u64) -> Answer
    requires owned { OwnsSlot client.old slot.old }
    requires moment { IsMoment now }
    ensures keeps { KeepsSlot client.old client.new slot.old slot.new }
    ensures unlocks { UnlocksSlot now result slot.old slot.new client.old client.new }
{
    let Some(piece) = slot else {
        return Answer::Misuse;
    };
    if !piece.locked() {
        return Answer::Misuse;
    }
    match client.unlock(piece, now) {
        Unlocked::Idle { at } => Answer::Idle { at },
        Unlocked::Held { pages } => Answer::StillHeld { pages },
    }
}

/// Writes bytes to a piece from the byte `at` on: misuse where it is not there or not locked, or where
/// they pass its pages.
fn write_slot(client: &mut Client, slot: &Option<Piece>, at: u64, bytes: &[u8]) -> Answer
    requires owned { OwnsSlot client.old slot.now }
    requires near { at + length bytes.now ≤ 2 ^ 32 }
    ensures keeps { KeepsSlot client.old client.new slot.now slot.now }
    ensures writes { WritesSlot at bytes.now result slot.now slot.now client.old client.new }
{
    let Some(piece) = slot else {
        return Answer::Misuse;
    };
    if !is_shown(piece, at, bytes.len() as u64) {
        return Answer::Misuse;
    }
    put(client.bytes_mut(piece), at as usize, bytes);
    Answer::Written
}

/// The bytes of a piece, `count` of them from the byte `at` on. None where it is not there or not locked,
/// or where they pass its pages.
fn read_slot<'a>(client: &'a Client, slot: &Option<Piece>, at: u64, count: u64) -> Option<&'a [u8]>
    requires owned { OwnsSlot client.now slot.now }
    requires near { at + count ≤ 2 ^ 32 }
    ensures few { IfSome result (λ bytes. length bytes.now ≤ count) }
    ensures shown { option_map (λ bytes. bytes.now) result
        ≡ bytes_shown client.now slot.now at count }
{
    let Some(piece) = slot else {
        return None;
    };
    if !is_shown(piece, at, count) {
        return None;
    }
    let bytes = client.bytes(piece);
    let (start, count) = (at as usize, count as usize);
    Some(&bytes[start..start + count])
}

/// Whether so many bytes from the byte `at` on lie within a piece, and it is locked.
fn is_shown(piece: &Piece, at: u64, count: u64) -> bool
    requires { at + count ≤ 2 ^ 32 }
    ensures { result ≡ is_shown piece.now at count }
{
    piece.locked() && at + count <= PAGE * u64::from(piece.pages())
}

/// Gives a piece up at a moment, and answers whether its segment was not known to be gone. None where it
/// is not there.
fn free_slot(client: &mut Client, slot: &mut Option<Piece>, now: u64) -> Option<bool>
    requires owned { OwnsSlot client.old slot.old }
    requires moment { IsMoment now }
    ensures keeps { KeepsSlot client.old client.new slot.old slot.new }
    ensures frees { FreesSlot now result slot.old slot.new client.old client.new }
{
    match slot.take() {
        Some(piece) => Some(client.free(piece, now)),
        None => None,
    }
}

/// Tells a manager of each segment that left since it was found gone.
fn tell_all(client: &mut Client, state: &mut State)
    ensures tells { TellsAll client.old state.old client.new state.new }
    ensures stay { AllStay client.old client.new }
    ensures book { Grows state.old.entries state.new.entries }
{
    let number = client.number();
    while let Some(id) = client.untold() {
        state.back(number, id, None);
    }
}

/// Gives each segment that is all free back.
fn release_free(client: &mut Client, state: &mut State)
    ensures releases { ReleasesFree client.old state.old client.new state.new }
    ensures stay { AllStay client.old client.new }
    ensures book { Grows state.old.entries state.new.entries }
{
    while let Some(side) = client.take_free() {
        hand_back(client, state, side);
    }
}

/// Gives up all segments, and hands them in.
fn hand_in_all(client: &mut Client, state: &mut State)
    ensures hands { HandsInAll client.old state.old client.new state.new }
    ensures book { Grows state.old.entries state.new.entries }
{
    while let Some(side) = client.take_any() {
        hand_back(client, state, side);
    }
}

/// Gives up a side that was taken out, and hands it to a manager. It answers what the manager does. A side
/// that is gone is kept.
fn hand_back(client: &mut Client, state: &mut State, side: OwnerSide) -> Back
    requires taken { 1 ≤ client.old.taken }
    requires unknown { IsUnknown side.id client.old }
    ensures hands { HandsBack side result client.old client.new state.old state.new }
    ensures stay { AllStay client.old client.new }
    ensures leases { client.new.leases ≡ client.old.leases }
    ensures book { Grows state.old.entries state.new.entries }
{
    let (number, id) = (client.number(), side.id());
    match side.give_up() {
        GiveUp::Whole(block) => state.back(number, id, Some(block)),
        GiveUp::Gone(side) => {
            client.keep_gone(side);
            state.back(number, id, None)
        }
    }
}
