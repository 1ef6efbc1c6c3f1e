//! What is kept of each number that was drawn, and which of them are live.
ghost use Rattle.std.specs.Prelude.{◌≡◌, ◌<◌, ◌≤◌, length, [], ◌∷◌, ◌++◌, slice_get, slice_set, OnOk, OnErr};
ghost use Rattle.replay_plain.specs.Rows.{live_use, IsLiveUse};
ghost use Rattle.use_queue.specs.Entries.{HoldsOthers, IsSoundQueue};

use crate::segment::KnownSegment;
use std::alloc::Global;
use std::marker::Model;
use units::NoMemory;
use use_queue::{LiveUses, UseQueue};

/// What is kept of each number. Contracts see it as a list.
#[derive(Drop)]
pub(crate) struct Rows {
    segments: Vec<KnownSegment>,
}

impl Model for Rows {
    ghost use Rattle.replay_plain.specs.Rows.{KnownRows};

    ghost Value = { KnownRows };

    ghost view = { λ r. record { items = r.segments.items } };
}

impl Rows {
    /// Nothing is kept.
    pub(crate) fn new(alloc: Global) -> Rows
        ensures { result.items ≡ [] }
    {
        Rows {
            segments: Vec::new(alloc),
        }
    }

    /// How many numbers there are.
    pub(crate) fn len(&self) -> usize
        ensures { result ≡ length self.now.items }
    {
        self.segments.len()
    }

    /// What is kept of a number.
    pub(crate) fn get(&self, id: u64) -> Option<KnownSegment>
        ensures { result ≡ slice_get self.now.items id }
    {
        match self.segments.get(id as usize) {
            Some(segment) => Some(*segment),
            None => None,
        }
    }

    /// The known use of a number that is live.
    pub(crate) fn live_use(&self, id: u64) -> Option<u64>
        ensures { result ≡ live_use self.now.items id }
    {
        match self.get(id) {
            Some(segment) if segment.live => Some(segment.known),
            _ => None,
        }
    }

    /// Keeps this of the next number.
    pub(crate) fn push(&mut self, segment: KnownSegment) -> Result<(), NoMemory>
        ensures ok { OnOk result (self.new.items ≡ self.old.items ++ segment ∷ []) }
        ensures err { OnErr result (self.new.items ≡ self.old.items) }
    {
        self.segments.push(segment)?;
        Ok(())
    }

    /// Keeps this of a number from now on.
    pub(crate) fn set(&mut self, id: u64, segment: KnownSegment)
        requires inside { id < length self.old.items }
        ensures { self.new.items ≡ slice_set self.old.items id segment }
    {
        self.segments[id as usize] = segment;
    }
}

impl LiveUses for Rows {
    ghost use Rattle.std.specs.Prelude.{length};
    ghost use Rattle.replay_plain.specs.Rows.{IsLiveUse};

    ghost IsLive = { λ r. IsLiveUse r.items };

    ghost most = { λ r. length r.items };

    fn is_live(&self, known: u64, id: u64) -> bool {
        match self.live_use(id) {
            Some(used) => used == known,
            None => false,
        }
    }

    fn fill(&self, queue: &mut UseQueue) {
        for (number, segment) in self.segments.iter().enumerate() {
            if segment.live {
                queue.push((segment.known, number as u64));
            }
        }
    }
}

/// What is kept of a number changed, and each other live number has its entry: adds its own where it is
/// live, and drops the dead ones at the front.
pub(crate) fn renew(rows: &Rows, uses: &mut UseQueue, id: u64)
    requires others { HoldsOthers id (IsLiveUse rows.now.items) uses.old.entries }
    requires room { length rows.now.items ≤ uses.old.room }
    ensures sound { IsSoundQueue (IsLiveUse rows.now.items) uses.new.entries }
    ensures room { uses.old.room ≤ uses.new.room }
{
    match rows.live_use(id) {
        Some(known) => uses.renew(rows, id, known),
        None => uses.drop_dead(rows),
    }
}
