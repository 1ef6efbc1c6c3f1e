//! The cache of docs/GUIDE.md: tables that are built from a key, in soft memory.
ghost use Rattle.std.specs.Prelude.{◌≡◌, true, IfOk, IfSome};
ghost use Rattle.units.specs.Moment.{IsMoment};
ghost use Rattle.client.specs.Pieces.{Owns};

use client::{ClientEnd, ClientFault, Granted, Piece};
use segment::{Granter, Lock};
use std::alloc::Global;
use std::sync::Wait;
use std::thread::Threads;

/// How many bytes a table has.
const TABLE: u64 = 8192;

/// The tables take at most so many pages, and those of one grant.
const MOST: u64 = 65_536;

/// A table that was built. Its piece is unlocked between two uses.
#[derive(Drop)]
struct Entry {
    key: u8,
    piece: Piece,
}

/// Tables that are built from their keys, and built again where they were purged.
#[derive(Drop)]
pub(crate) struct Tables<G: Granter + Drop> {
    pub(crate) granted: Granted<G>,
    entries: Vec<Entry>,
}

impl<G: Granter + Drop> Tables<G> {
    /// No table.
    pub(crate) fn new(alloc: Global, granted: Granted<G>) -> Tables<G> {
        Tables {
            granted,
            entries: Vec::new(alloc),
        }
    }

    /// The byte at a place of a key's table, which is built where it is not there.
    pub(crate) fn look_up<H: Threads + Wait + Sync>(
        &mut self,
        rt: &H,
        alloc: Global,
        key: u8,
        place: usize,
        now: u64,
    ) -> Result<Option<u8>, ClientFault>
        requires { IsMoment now }
    {
        let mut piece = match self.lock(key, now) {
            Some(piece) => piece,
            None => self.build(rt, alloc, key, now)?,
        };
        let byte = self.granted.bytes(&piece).get(place).copied();
        self.granted.unlock(&mut piece, now);
        if self.entries.reserve(1).is_err() {
            self.granted.free(piece, now);
            return Err(ClientFault::NoMemory);
        }
        self.entries.push_reserved(Entry { key, piece });
        Ok(byte)
    }

    /// Takes a key's table out, locked. None where there is none, or it was purged.
    fn lock(&mut self, key: u8, now: u64) -> Option<Piece>
        requires { IsMoment now }
        ensures { IfSome result (λ piece.
            Owns self.new.granted.client piece × (piece.locked ≡ true)) }
    {
        let place = self.entries.iter().position(|entry| entry.key == key)?;
        let Entry { mut piece, .. } = self.entries.swap_remove(place);
        if piece.locked() || !self.granted.owns(&piece) {
            return None;
        }
        match self.granted.lock(&mut piece) {
            Lock::Held => Some(piece),
            Lock::Gone => {
                self.granted.free(piece, now);
                None
            }
        }
    }

    /// Builds a key's table in a new piece, which is locked.
    fn build<H: Threads + Wait + Sync>(
        &mut self,
        rt: &H,
        alloc: Global,
        key: u8,
        now: u64,
    ) -> Result<Piece, ClientFault>
        requires { IsMoment now }
        ensures { IfOk result (λ piece.
            Owns self.new.granted.client piece × (piece.locked ≡ true)) }
    {
        if self.granted.client().heap_pages() >= MOST {
            return Err(ClientFault::NoMemory);
        }
        let piece = self.granted.allocate(rt, alloc, TABLE, now)?;
        self.granted.bytes_mut(&piece).fill(key);
        Ok(piece)
    }

    /// Drops a key's table: its pages serve the next one.
    pub(crate) fn forget(&mut self, key: u8, now: u64)
        requires { IsMoment now }
    {
        if let Some(piece) = self.lock(key, now) {
            self.granted.free(piece, now);
        }
    }

    /// Gives back each segment that was purged, or that no table needs. The answer is how many.
    pub(crate) fn tidy<H: Threads + Wait + Sync>(&mut self, rt: &H) -> u64 {
        let purged = self.granted.release_purged(rt);
        purged.saturating_add(self.granted.release_free(rt))
    }

    /// Gives all back.
    pub(crate) fn close<H: Threads + Wait + Sync>(self, rt: &H) -> ClientEnd {
        let Tables { granted, .. } = self;
        granted.close(rt)
    }
}
