//! What one client has of memory.
ghost use Rattle.std.specs.Prelude.{◌≡◌, ℕ, ◌+◌, ◌^◌, ◌<◌, ◌≤◌, true, None, length, map, slice_index_or, slice_set, IfSome, IfOk, OnOk};
ghost use Rattle.units.specs.declared.TheConstants.{MOST_PAGES};
ghost use Rattle.span_heap.specs.declared.run.Run.{Run};
ghost use Rattle.span_heap.specs.Run.{pages_of};
ghost use Rattle.span_heap.specs.Runs.{front_of};
ghost use Rattle.span_heap.specs.Changes.{whole_of};
ghost use Rattle.script_heaps.specs.Holding.{Holding, nothing, has, numbers, without, without_all, lost, lost_all, told, taken, adopted, piece_at, with_piece, emptied, all_free};
ghost use Rattle.script_heaps.specs.Changes.{Searches, FreesPiece};

use span_heap::{Heap, Run, Runs, Span};
use std::alloc::Global;
use std::marker::Model;
use units::NoMemory;

/// How many segments a client has at most, so that their pages are fewer than 2^32. A script grants
/// at most 1,024.
const MOST_SEGMENTS: usize = 65_535;

/// What one client has: a heap of its segments, those segments that left since they were purged and
/// are not told yet, and its pieces.
#[derive(Drop)]
pub(crate) struct ClientHeap {
    heap: Heap,
    /// The numbers of its segments, in the order in which they came.
    segments: Vec<u64>,
    untold: Vec<u64>,
    /// Each piece that it ever had, in the order in which they came, or None where it is gone.
    pieces: Vec<Option<Span>>,
    /// The last number of a segment that came.
    last: u64,
}

impl Model for ClientHeap {
    ghost use Rattle.script_heaps.specs.Holding.{Holding};
    ghost use Rattle.script_heaps.specs.Sound.{seen_of, IsSoundClientHeap};

    ghost Value = { Holding };

    ghost view = { λ c. seen_of c.heap c.untold.items c.pieces.items };

    ghost invariant = { λ c. IsSoundClientHeap c.heap c.segments.items c.pieces.items c.last };
}

impl ClientHeap {
    /// A client that has nothing.
    pub(crate) fn new(alloc: Global) -> Result<ClientHeap, NoMemory>
        ensures { IfOk result (λ heap. heap ≡ nothing) }
    {
        Ok(ClientHeap {
            heap: Heap::new(alloc)?,
            segments: Vec::new(alloc),
            untold: Vec::new(alloc),
            pieces: Vec::new(alloc),
            last: 0,
        })
    }

    /// How many of its pages are free.
    pub(crate) fn free_pages(&self) -> u64
        ensures { result ≡ pages_of self.now.runs }
    {
        self.heap.free_pages()
    }

    /// Takes the first `pages` pages of a free run that has at most `slack` more, as a piece, which
    /// comes last. It answers the place of the piece and its pages.
    pub(crate) fn search(&mut self, pages: u32, slack: u32) -> Result<Option<(u64, Run)>, NoMemory>
        requires sized { 1 ≤ pages }
        requires small { pages + slack < 2 ^ 32 }
        ensures searched { IfOk result (Searches self.old self.new pages slack) }
        ensures there { IfOk result (λ found. IfSome found (λ piece.
            has self.old piece.1.segment ≡ true)) }
    {
        self.pieces.reserve(1)?;
        let Some(span) = self.heap.search(pages, slack) else {
            return Ok(None);
        };
        let run = run_of(&span);
        let place = self.pieces.len() as u64;
        self.pieces.push_reserved(Some(span));
        Ok(Some((place, run)))
    }

    /// The pages that a search found are lost, since their segment was purged: the last piece is gone,
    /// and its segment leaves.
    pub(crate) fn lose_last(&mut self) -> Result<(), NoMemory>
        ensures { OnOk result ((before : Holding) (run : Run) (n : ℕ)
            → self.old ≡ with_piece (taken before run n) (front_of run n)
            → has before run.segment ≡ true → self.new ≡ lost before run.segment) }
    {
        if let Some(Some(span)) = self.pieces.pop() {
            self.lose(span.segment())?;
        }
        Ok(())
    }

    /// A segment was purged: it leaves, if it had not left yet, and is to be told.
    pub(crate) fn lose(&mut self, id: u64) -> Result<(), NoMemory>
        ensures { OnOk result (self.new ≡ lost self.old id) }
    {
        if self.heap.has_segment(id) {
            self.untold.push(id)?;
            self.leave(id);
        }
        Ok(())
    }

    /// These segments were purged and leave, in this order.
    pub(crate) fn lose_all(&mut self, ids: &[u64]) -> Result<(), NoMemory>
        ensures { OnOk result (self.new ≡ lost_all self.old ids.now) }
    {
        for id in ids {
            self.lose(*id)?;
        }
        Ok(())
    }

    /// A segment leaves, if it is among the client's.
    fn leave(&mut self, id: u64)
        ensures { self.new ≡ without self.old id }
    {
        if self.heap.has_segment(id) {
            self.segments.retain(|other| *other != id);
            let _ = self.heap.drop_segment(id);
        }
    }

    /// These segments leave.
    pub(crate) fn leave_all(&mut self, ids: &[u64])
        ensures { self.new ≡ without_all self.old ids.now }
    {
        for id in ids {
            self.leave(*id);
        }
    }

    /// The numbers of its segments, in the order in which they came.
    pub(crate) fn segments(&self) -> &[u64]
        ensures { result.now ≡ numbers self.now }
    {
        &self.segments
    }

    /// The segments that are to be told, which then are.
    pub(crate) fn take_untold(&mut self, alloc: Global) -> Vec<u64>
        ensures ids { result.items ≡ self.old.untold }
        ensures told { self.new ≡ told self.old }
    {
        std::mem::replace(&mut self.untold, Vec::new(alloc))
    }

    /// A segment of `whole` pages comes. Its first `pages` pages are a piece, which comes last, and the
    /// rest is free. It answers the place of the piece.
    pub(crate) fn adopt(
        &mut self,
        alloc: Global,
        id: u64,
        whole: u32,
        pages: u32,
    ) -> Result<u64, NoMemory>
        requires sized { whole ≤ MOST_PAGES }
        requires front { (1 ≤ pages) × (pages ≤ whole) }
        ensures place { IfOk result (λ place. place ≡ length self.old.pieces) }
        ensures holding { OnOk result (self.new
            ≡ with_piece (adopted self.old id whole pages) (front_of (whole_of id whole) pages)) }
    {
        if id <= self.last || self.segments.len() >= MOST_SEGMENTS {
            return Err(NoMemory);
        }
        self.segments.reserve(1)?;
        self.pieces.reserve(1)?;
        let span = self.heap.grow_front(alloc, id, whole, pages)?;
        self.segments.push_reserved(id);
        let place = self.pieces.len() as u64;
        self.pieces.push_reserved(Some(span));
        self.last = id;
        Ok(place)
    }

    /// The pages of the piece at this place, if it is there.
    pub(crate) fn piece(&self, place: u64) -> Option<Run>
        ensures { result ≡ piece_at self.now place }
    {
        match self.pieces.get(place as usize) {
            Some(Some(span)) => Some(run_of(span)),
            _ => None,
        }
    }

    /// Frees the piece at this place, if it is there, and answers whether its segment is.
    pub(crate) fn free(&mut self, place: u64) -> Option<bool>
        ensures { FreesPiece self.old self.new place result }
    {
        let span = take_piece(&mut self.pieces, place as usize)?;
        let there = self.heap.has_segment(span.segment());
        if there {
            self.heap.free(span);
        }
        Some(there)
    }

    /// The numbers of those segments that are all free, in the order in which they came.
    pub(crate) fn all_free(&self, alloc: Global) -> Result<Vec<u64>, NoMemory>
        ensures { IfOk result (λ ids. ids.items ≡ all_free self.now) }
    {
        let mut free = Vec::new(alloc);
        for id in &self.segments {
            if self.heap.all_free(*id) {
                free.push(*id)?;
            }
        }
        Ok(free)
    }

    /// The free runs as they are now, the oldest first.
    pub(crate) fn runs(&self, alloc: Global) -> Result<Runs, NoMemory>
        ensures { IfOk result (λ runs. runs ≡ self.now.runs) }
    {
        self.heap.runs(alloc)
    }

    /// The client has nothing more, and its pieces are gone.
    pub(crate) fn empty(&mut self, alloc: Global) -> Result<(), NoMemory>
        ensures { OnOk result (self.new ≡ emptied self.old) }
    {
        self.heap = Heap::new(alloc)?;
        self.segments.clear();
        self.untold.clear();
        take_all(&mut self.pieces);
        Ok(())
    }
}

/// The pages of a span.
fn run_of(span: &Span) -> Run
    ensures { result ≡ span.now }
{
    Run {
        segment: span.segment(),
        first: span.first(),
        pages: span.pages(),
    }
}

/// Takes the piece at a place, if it is there.
fn take_piece(pieces: &mut Vec<Option<Span>>, place: usize) -> Option<Span>
    ensures taken { result ≡ slice_index_or pieces.old.items place None }
    ensures rest { pieces.new.items ≡ slice_set pieces.old.items place None }
{
    if place < pieces.len() {
        pieces[place].take()
    } else {
        None
    }
}

/// Takes all pieces away.
fn take_all(pieces: &mut Vec<Option<Span>>)
    ensures { pieces.new.items ≡ map (λ piece. None) pieces.old.items }
{
    for place in 0..pieces.len() {
        pieces[place] = None;
    }
}
