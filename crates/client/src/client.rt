ghost use Rattle.std.specs.Prelude.{◌≡◌, ◌↔◌, ◌+◌, ◌-◌, ◌*◌, ◌^◌, ◌<◌, ◌≤◌, ◌++◌, ◌∷◌, ◌⊎◌, [], ℕ, true, false, IsTrue, IfOk, IfErr, IfSome, IfNone, OnErr, List, length};
ghost use Rattle.std.specs.List.{find, list_any};
ghost use Rattle.std.specs.Borrow.{sem};
ghost use Rattle.units.specs.Moment.{IsMoment};
ghost use Rattle.units.specs.declared.TheConstants.{MOST_PAGES, PAGE};
ghost use Rattle.segment.specs.Owned.{Owned};
ghost use Rattle.segment.specs.declared.owner.Phase.TheVariants as phase;
ghost use Rattle.segment.specs.declared.owner.Lock.TheVariants as lock;
ghost use Rattle.span_heap.specs.Heap.{size_of};
ghost use Rattle.client.specs.Seen.{Seen, new_client, next_untold, IsUnknown, is_known};
ghost use Rattle.client.specs.Gone.{AreGone, AreOnce, kept_side, after_next};
ghost use Rattle.client.specs.Pieces.{Part, Owns, AllStay, OthersStay, IsNew, AreApart, bytes_of, IsLive, IsDead, LocksPiece, UnlocksPiece, IsUsed, StayElsewhere, part_after_lock, WritesOnly};
ghost use Rattle.client.specs.Calls.{LocksPart, Unlocks, UnlocksRun, AfterFree, TakesFirstFree, TakesLast};
ghost use Rattle.client.specs.Sound.{IsSoundSeen};
ghost use Rattle.client.specs.Places.{IsThere, IsFirstFree, NoneAllFree};
ghost use Rattle.client.specs.Finding.{Finds, Adopts, SweepsSome};

use crate::answers::{Unadopted, Unlocked};
use crate::coming::{front_locks, make_room};
use crate::gone::GoneSides;
use crate::lease::LeasedSegment;
use crate::piece::Piece;
use crate::table::{place_of, rise_to};
use segment::{Lock, OwnerSide};
use span_heap::{Heap, Runs};
use std::alloc::Global;
use std::marker::Model;
use units::NoMemory;

/// A client: its segments with their free runs, and the pieces that it gave out.
///
/// A piece of free pages comes by `find`, or with a new segment by `adopt`, and is locked. While any
/// page of a segment is locked the segment cannot be purged; when its last piece is unlocked it may
/// be, at any time. `lock`, `find` and `sweep` find out that a segment was purged: then the segment
/// and its runs leave at once, its side is kept among the gone ones until it is told (`untold`), and
/// its pieces stay owned and are dead. No two pieces share a page.
///
/// Only `new`, `adopt` and `runs` take memory. No call but `sweep`, `take_free` and `runs` goes along
/// all segments: one is found, or found missing as that of a dead piece is, at once where the numbers
/// rise by one and by halves where they rise, as those of one granter do; else by a walk.
#[derive(Drop)]
pub struct Client {
    pub(crate) number: u32,
    pub(crate) standard: u32,
    /// In the order in which they came.
    pub(crate) leases: Vec<LeasedSegment>,
    /// Whether the numbers of the segments rise, so that one that is not found by halves is not there.
    rising: bool,
    pub(crate) heap: Heap,
    /// How many pages the segments have.
    pub(crate) pages: u32,
    pub(crate) gone: GoneSides,
    /// How many sides were taken out, and neither kept again nor known to have given their blocks.
    pub(crate) taken: usize,
}

impl Model for Client {
    ghost use Rattle.client.specs.Seen.{Seen, seen_of};
    ghost use Rattle.client.specs.Sound.{IsSoundClient};

    ghost Value = { Seen };

    ghost view = { λ c. seen_of c.number c.standard c.leases.items c.heap c.gone c.taken };

    ghost invariant = { λ c.
        IsSoundClient (seen_of c.number c.standard c.leases.items c.heap c.gone c.taken)
        c.pages c.gone.room c.rising };
}

impl Client {
    ghost use Rattle.client.specs.Lending.{LendsPiece};

    /// A client with no segment. Its number is at least 1, and its standard size is the size in pages of
    /// the segments that it asks for, where not more are wanted: from 1 to 65,536.
    pub fn new(alloc: Global, number: u32, standard: u32) -> Result<Client, NoMemory>
        requires number { 1 ≤ number }
        requires standard { (1 ≤ standard) × (standard ≤ MOST_PAGES) }
        ensures { IfOk result (λ client. client ≡ new_client number standard) }
    {
        Ok(Client {
            number,
            standard,
            leases: Vec::new(alloc),
            rising: true,
            heap: Heap::new(alloc)?,
            pages: 0,
            gone: GoneSides::new(alloc),
            taken: 0,
        })
    }

    /// Its number, at least 1. No more sides are told than are gone.
    pub fn number(&self) -> u32
        ensures number { result ≡ self.now.number }
        ensures least { 1 ≤ result }
        ensures told { self.now.told ≤ length self.now.gone }
    {
        self.number
    }

    /// Its standard size, in pages.
    pub fn standard(&self) -> u32
        ensures standard { result ≡ self.now.standard }
        ensures sized { (1 ≤ result) × (result ≤ MOST_PAGES) }
    {
        self.standard
    }

    /// The pages of its segments.
    pub fn heap_pages(&self) -> u64
        ensures pages { result ≡ size_of self.now.heap.segments }
        ensures sound { IsSoundSeen self.now }
    {
        u64::from(self.pages)
    }

    /// The free runs as they are now, the oldest first. The one error is being out of memory.
    pub fn runs(&self, alloc: Global) -> Result<Runs, NoMemory>
        ensures { IfOk result (λ runs. runs ≡ self.now.heap.free) }
    {
        self.heap.runs(alloc)
    }

    /// Whether it owns a piece: the condition of each call on one. A piece whose segment is gone is
    /// still owned. Two pieces that it owns in one of its segments share a page only if they are one.
    pub fn owns(&self, piece: &Piece) -> bool
        ensures answer { IsTrue result ↔ Owns self.now piece.now }
        ensures apart { (one other : Part) → IsLive self.now one → IsLive self.now other
            → AreApart one.run other.run ⊎ (one.run ≡ other.run) }
    {
        // For the proof: calls up the invariant of `Client`.
        let _ = &self.heap;
        self.is_owner(piece)
    }

    /// Whether it owns a piece.
    fn is_owner(&self, piece: &Piece) -> bool
        ensures { IsTrue result ↔ Owns self.now piece.now }
    {
        if piece.client() != self.number {
            return false;
        }
        let Some(place) = place_of(self.leases.as_slice(), self.rising, piece.segment()) else {
            return self.is_dead(piece);
        };
        if !self.heap.has(piece.span()) {
            return false;
        }
        self.leases[place].is_range(piece.first(), piece.pages(), piece.locked())
    }

    /// Whether a piece is not locked, and its segment is known to be gone.
    fn is_dead(&self, piece: &Piece) -> bool
        ensures { IsTrue result ↔ IsDead self.now piece.now }
    {
        if piece.locked() {
            return false;
        }
        self.gone.has(piece.segment())
    }

    /// Whether a segment of this number is the client's, or is known to be gone: a condition of `adopt` is
    /// that none is.
    pub fn knows(&self, id: u64) -> bool
        ensures { result ≡ is_known self.now id }
    {
        match place_of(self.leases.as_slice(), self.rising, id) {
            Some(_) => true,
            None => self.gone.has(id),
        }
    }

    /// Looks for free pages, from 1 to 65,536 of them, and answers them as a locked piece. The run that
    /// serves is the latest of the least length from `pages` up to the standard size that some run has,
    /// where all lengths from 256 on count as one. A segment that the lock of its run finds gone leaves,
    /// and the search goes on. None exactly where no run that fits is left.
    pub fn find(&mut self, pages: u32) -> Option<Piece>
        requires { (1 ≤ pages) × (pages ≤ MOST_PAGES) }
        ensures finds { (lost : List ℕ) × Finds pages lost result self.old self.new }
        ensures piece { IfSome result (λ piece. IsNew pages self.old self.new piece) }
        ensures stay { AllStay self.old self.new }
    {
        while let Some(span) = self.carve(pages) {
            let Some(place) = place_of(self.leases.as_slice(), self.rising, span.segment()) else {
                unreachable!()
            };
            match self.lock_at(place, &span) {
                Lock::Held => return Some(Piece::locked_piece(self.number(), span)),
                Lock::Gone => {}
            }
        }
        None
    }

    /// Takes in a segment that is held. Its first `pages` pages are the piece that it answers, locked; the
    /// rest is unlocked and free. `Unadopted` is being out of memory: the client is as before.
    ///
    /// Conditions: the side is held, its number is unknown to the client, `pages` is from 1 to the side's
    /// pages, and all pages of the client's segments together stay below 2^32.
    pub fn adopt(
        &mut self,
        alloc: Global,
        side: OwnerSide,
        pages: u32,
        _now: u64,
    ) -> Result<Piece, Unadopted>
        requires held { side.phase ≡ phase.Held }
        requires unknown { IsUnknown side.id self.old }
        requires pages { (1 ≤ pages) × (pages ≤ side.pages) }
        requires small { size_of self.old.heap.segments + side.pages < 2 ^ 32 }
        requires moment { IsMoment _now }
        ensures adopts { IfOk result (λ piece. Adopts side pages piece self.old self.new) }
        ensures piece { IfOk result (λ piece. IsNew pages self.old self.new piece) }
        ensures stay { AllStay self.old self.new }
        ensures back { IfErr result (λ unadopted. unadopted.side ≡ side) }
        ensures same { OnErr result (self.new ≡ self.old) }
    {
        let whole = side.pages();
        let Ok(locks) = front_locks(alloc, whole, pages) else {
            return Err(Unadopted { side });
        };
        let rising = rise_to(self.leases.as_slice(), self.rising, &side);
        let Ok(()) = make_room(&mut self.leases, &mut self.gone, self.taken) else {
            return Err(Unadopted { side });
        };
        let Ok(span) = self.heap.grow_front(alloc, side.id(), whole, pages) else {
            return Err(Unadopted { side });
        };
        self.pages += whole;
        self.rising = rising;
        self.leases.push_reserved(LeasedSegment::new(side, locks));
        Ok(Piece::locked_piece(self.number, span))
    }

    /// Locks a piece that is not locked. Where its segment is known to be gone the answer is Gone. Where
    /// some page of the segment is locked, no step is made and the answer is Held. Else the segment's side
    /// is locked: Held, with the bytes left at its last unlock, or Gone, exactly where that step found it
    /// purged, and then the segment leaves.
    pub fn lock(&mut self, piece: &mut Piece) -> Lock
        requires owned { Owns self.old piece.old }
        requires free { piece.old.locked ≡ false }
        ensures locks { LocksPart piece.old result self.old self.new }
        ensures piece { piece.new ≡ part_after_lock result piece.old }
        ensures leaves { LocksPiece result piece.old self.old self.new }
    {
        let Some(place) = place_of(self.leases.as_slice(), self.rising, piece.segment()) else {
            return Lock::Gone;
        };
        match self.lock_at(place, piece.span()) {
            Lock::Held => {
                piece.note(true);
                Lock::Held
            }
            Lock::Gone => Lock::Gone,
        }
    }

    /// Unlocks a locked piece at a moment. Idle, with the new stamp of its segment, exactly where no page of
    /// the segment stays locked; else Held, with the number of those that do, and no step is made.
    pub fn unlock(&mut self, piece: &mut Piece, now: u64) -> Unlocked
        requires owned { Owns self.old piece.old }
        requires locked { piece.old.locked ≡ true }
        requires moment { IsMoment now }
        ensures unlocks { UnlocksRun piece.old.run now result self.old self.new }
        ensures piece { piece.new ≡ record piece.old { locked = false } }
        ensures leaves { UnlocksPiece piece.old self.old self.new }
    {
        let Some(place) = place_of(self.leases.as_slice(), self.rising, piece.segment()) else {
            unreachable!()
        };
        let told = self.unlock_at(place, piece.span(), now);
        piece.note(false);
        told
    }

    /// The bytes of a locked piece, 4,096 for each of its pages: that part of the segment's block itself.
    pub fn bytes(&self, piece: &Piece) -> &[u8]
        requires owned { Owns self.now piece.now }
        requires locked { piece.now.locked ≡ true }
        ensures value { result.now ≡ bytes_of self.now piece.now.run }
        ensures sized { length result.now ≡ PAGE * piece.now.run.pages }
    {
        let Some(place) = place_of(self.leases.as_slice(), self.rising, piece.segment()) else {
            unreachable!()
        };
        self.leases[place].bytes(piece.first(), piece.pages())
    }

    /// The bytes of a locked piece, to be written: that part of the segment's block itself. A write
    /// changes no byte of another piece, and nothing else of the client.
    pub fn bytes_mut(&mut self, piece: &Piece) -> &mut [u8]
        requires owned { Owns self.old piece.now }
        requires locked { piece.now.locked ≡ true }
        ensures* writes_back { sem 𝓛 (LendsPiece self.entry piece.now.run result) }
        ensures value { result.now ≡ bytes_of self.old piece.now.run }
        ensures sized { length result.now ≡ PAGE * piece.now.run.pages }
        ensures only { WritesOnly piece.now self.old }
    {
        let Some(place) = place_of(self.leases.as_slice(), self.rising, piece.segment()) else {
            unreachable!()
        };
        self.leases[place].bytes_mut(piece.first(), piece.pages())
    }

    /// Gives a piece up. A locked piece is unlocked at the moment first; then its pages are free, and join
    /// the free runs beside them. False exactly where its segment was already known to be gone, and then
    /// nothing changed.
    pub fn free(&mut self, piece: Piece, now: u64) -> bool
        requires owned { Owns self.old piece }
        requires moment { IsMoment now }
        ensures frees { AfterFree result piece now self.old self.new }
        ensures stay { OthersStay piece.run self.old self.new }
    {
        let Some(place) = place_of(self.leases.as_slice(), self.rising, piece.segment()) else {
            return false;
        };
        self.set_free(place, &piece, now);
        self.free_span(piece.into_span());
        true
    }

    /// Unlocks a live piece at a moment, where it is locked.
    fn set_free(&mut self, place: usize, piece: &Piece, now: u64)
        requires live { IsLive self.old piece.now }
        requires there { IsThere place piece.now.run.segment self.old.leases }
        requires moment { IsMoment now }
        ensures unlocks { Unlocks piece.now now self.old self.new }
        ensures free { IsUsed self.new piece.now.run false }
        ensures stay { OthersStay piece.now.run self.old self.new }
    {
        if piece.locked() {
            self.unlock_at(place, piece.span(), now);
        }
    }

    /// Looks at each segment that has no locked page, by one load. Those that it finds gone leave, and the
    /// answer is how many they were.
    pub fn sweep(&mut self) -> u64
        ensures sweeps { SweepsSome result self.old self.new }
        ensures stay { AllStay self.old self.new }
    {
        let all = self.leases.len();
        let mut place = 0;
        while place < self.leases.len() {
            if self.look(place) {
                place += 1;
            }
        }
        (all - self.leases.len()) as u64
    }

    /// The number of the next gone segment that was not told yet; it is told now. None exactly where there is
    /// none.
    pub fn untold(&mut self) -> Option<u64>
        ensures number { result ≡ next_untold self.old }
        ensures told { self.new ≡ record self.old {
          told = after_next self.old.gone self.old.told;
        } }
    {
        self.gone.next()
    }

    /// Takes out the oldest segment that is all free, with its side. None exactly where there is none. It goes
    /// along the segments up to that one.
    pub fn take_free(&mut self) -> Option<OwnerSide>
        ensures taken { IfSome result (λ side. TakesFirstFree side self.old self.new) }
        ensures none { IfNone result (NoneAllFree self.old × (self.new ≡ self.old)) }
        ensures unknown { IfSome result (λ side. IsUnknown side.id self.new) }
        ensures stay { AllStay self.old self.new }
    {
        // For the proof: calls up the invariant of `Client`.
        let _ = &self.heap;
        let place = self.free_place()?;
        Some(self.take_out(place))
    }

    /// Takes out the segment that came last, with its side. Its pieces are owned no more. None exactly
    /// where there is no segment.
    pub fn take_any(&mut self) -> Option<OwnerSide>
        ensures taken { IfSome result (λ side. TakesLast side self.old self.new) }
        ensures none { IfNone result ((self.old.leases ≡ []) × (self.new ≡ self.old)) }
        ensures unknown { IfSome result (λ side. IsUnknown side.id self.new) }
        ensures stay { IfSome result (λ side. StayElsewhere side.id self.old self.new) }
    {
        let count = self.leases.len();
        if count == 0 {
            return None;
        }
        Some(self.take_out(count - 1))
    }

    /// Keeps a side that came from this client and is gone. It counts as told. Its room was taken when its
    /// segment came.
    ///
    /// Conditions: the side is gone; some side was taken out and not kept again, whatever came since; and
    /// no other segment of its number is known.
    pub fn keep_gone(&mut self, side: OwnerSide)
        requires gone { side.phase ≡ phase.Gone }
        requires taken { 1 ≤ self.old.taken }
        requires unknown { IsUnknown side.id self.old }
        ensures kept { self.new ≡ record self.old {
          gone = kept_side side self.old.told self.old.gone;
          told = self.old.told + 1;
          taken = self.old.taken - 1;
        } }
        ensures stay { AllStay self.old self.new }
    {
        self.taken -= 1;
        self.gone.keep(side);
    }

    /// Notes that a side that was taken out gave its block, so that no room is kept for it any more.
    pub(crate) fn note_whole(&mut self)
        requires taken { 1 ≤ self.old.taken }
        ensures noted { self.new ≡ record self.old { taken = self.old.taken - 1 } }
        ensures stay { AllStay self.old self.new }
    {
        self.taken -= 1;
    }

    /// The sides that were found gone.
    pub(crate) fn into_gone(self) -> Vec<OwnerSide>
        ensures sides { result.items ≡ self.gone }
        ensures gone { AreGone result.items }
        ensures once { AreOnce result.items }
    {
        let Client { gone, .. } = self;
        gone.into_sides()
    }
}
