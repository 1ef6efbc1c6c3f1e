ghost use Rattle.std.specs.Prelude.{◌≡◌, ◌+◌, ◌^◌, ◌<◌, ◌≤◌, ◌↔◌, [], Contains, IsTrue, IsFalse, IfOk, IfSome, IfNone, IsNone, OnErr};
ghost use Rattle.units.specs.declared.TheConstants.{MOST_PAGES};
ghost use Rattle.span_heap.specs.Run.{pages_of};
ghost use Rattle.span_heap.specs.Runs.{front_of, back_of};
ghost use Rattle.span_heap.specs.Segment.{pages_in};
ghost use Rattle.span_heap.specs.Heap.{contents, IsPartition, has_segment, size_of};
ghost use Rattle.span_heap.specs.Changes.{Grows, GrowsFront, found_span, IsCarved, Uses, NoneFits, Splits, Frees, Drops, NoneIn};

use crate::run::{Run, Runs};
use crate::span::Span;
use crate::table::PageTable;
use std::alloc::Global;
use std::marker::Model;
use units::NoMemory;

/// Segments of pages, cut into used spans and free runs.
///
/// Each page of each segment lies in exactly one used span or free run, and no two free runs touch.
/// Only `new`, `grow` and `runs` take memory. No call but `runs` goes along all runs or spans: each
/// is found by the pages where it begins and ends, and each free run by its length. A `search` looks
/// at the latest run of each length below 256 and goes along the longer ones. `drop_segment` goes
/// along the pages of its segment and moves nothing of the others: its row stands on without a page,
/// and `grow` takes such rows out in one pass once they are more than half of all. A span tells where
/// the row of its segment stood, and the row is looked for from there on. A `search` guesses the row by
/// the first and the last number. From such a place it is found in steps that double and then by halves
/// where the numbers of the segments rise in the order in which they came, and else by a walk.
#[derive(Drop)]
pub struct Heap {
    table: PageTable,
    pages: u32,
    free_pages: u32,
}

impl Model for Heap {
    ghost use Rattle.span_heap.specs.Heap.{Contents, IsSoundHeap};

    ghost Value = { Contents };

    ghost view = { λ h. h.table };

    // Both counts of pages are those of the lists.
    ghost invariant = { λ h. IsSoundHeap h.table h.pages h.free_pages };
}

impl Heap {
    /// A heap with no segment. The one error is being out of memory.
    pub fn new(alloc: Global) -> Result<Heap, NoMemory>
        ensures { IfOk result (λ heap. heap ≡ contents [] [] []) }
    {
        Ok(Heap {
            table: PageTable::new(alloc)?,
            pages: 0,
            free_pages: 0,
        })
    }

    /// Adds a segment and answers it whole, as one used span. `NoMemory` leaves the heap as before.
    ///
    /// Conditions: no segment of the heap has this number, it has 1 to 65,536 pages, and all pages
    /// of the heap together stay below 2^32.
    pub fn grow(&mut self, alloc: Global, segment: u64, pages: u32) -> Result<Span, NoMemory>
        requires fresh { IsFalse (has_segment self.old.segments segment) }
        requires sized { (1 ≤ pages) × (pages ≤ MOST_PAGES) }
        requires small { size_of self.old.segments + pages < 2 ^ 32 }
        ensures grown { IfOk result (Grows self.old self.new segment pages) }
        ensures same { OnErr result (self.new ≡ self.old) }
        ensures partition { IsPartition self.new }
    {
        let run = Run {
            segment,
            first: 0,
            pages,
        };
        self.table.grow(alloc, segment, pages)?;
        let near = self.table.near(segment);
        self.table.add_used(run, near);
        self.pages += pages;
        Ok(Span { run, near })
    }

    /// Adds a segment with its first `pages` pages as a used span and the rest free, and answers the
    /// span. `NoMemory` leaves the heap as before.
    ///
    /// Conditions: no segment of the heap has this number, `pages` is from 1 to `whole`, `whole` is at
    /// most 65,536, and all pages of the heap together stay below 2^32.
    pub fn grow_front(
        &mut self,
        alloc: Global,
        segment: u64,
        whole: u32,
        pages: u32,
    ) -> Result<Span, NoMemory>
        requires fresh { IsFalse (has_segment self.old.segments segment) }
        requires sized { whole ≤ MOST_PAGES }
        requires front { (1 ≤ pages) × (pages ≤ whole) }
        requires small { size_of self.old.segments + whole < 2 ^ 32 }
        ensures grown { IfOk result (GrowsFront self.old self.new segment whole pages) }
        ensures same { OnErr result (self.new ≡ self.old) }
        ensures partition { IsPartition self.new }
    {
        let span = self.grow(alloc, segment, whole)?;
        if pages == whole {
            return Ok(span);
        }
        let (front, rest) = self.split(span, pages);
        self.free(rest);
        Ok(front)
    }

    /// Takes a free run of at least `pages` pages and at most `slack` more, uses its first `pages`
    /// pages, and appends what is left of it to the free runs. It is the latest run of the least
    /// length that fits, where all lengths from 256 on count as one. `None` comes exactly where no
    /// run fits, and then nothing changed.
    ///
    /// Conditions: `pages` is at least 1, and `pages + slack` fits u32.
    pub fn search(&mut self, pages: u32, slack: u32) -> Option<Span>
        requires sized { 1 ≤ pages }
        requires small { pages + slack < 2 ^ 32 }
        ensures span { result ≡ found_span self.old.free pages slack }
        ensures free { IsCarved self.old.free self.new.free pages slack }
        ensures used { IfSome result (Uses self.old self.new) }
        ensures same { IfNone result (self.new ≡ self.old) }
        ensures none_fits { IsNone result ↔ NoneFits self.old.free pages slack }
        ensures partition { IsPartition self.new }
    {
        let run = self.table.pick(pages, pages + slack)?;
        let near = self.table.near(run.segment);
        let front = run.front(pages);
        self.table.take_free(run, near);
        self.table.add_used(front, near);
        self.table.add_rest(run, pages, near);
        self.free_pages -= pages;
        Some(Span { run: front, near })
    }

    /// Cuts a used span in two, behind its first `front` pages.
    ///
    /// Conditions: the heap has the span, and `front` is from 1 to one below its pages.
    pub fn split(&mut self, span: Span, front: u32) -> (Span, Span)
        requires used { Contains self.old.used span }
        requires within { (1 ≤ front) × (front < span.pages) }
        ensures spans { result ≡ (front_of span front, back_of span front) }
        ensures split { Splits self.old self.new span result.0 result.1 }
        ensures partition { IsPartition self.new }
    {
        let (whole, near) = (span.run, span.near);
        self.table.take_used(whole, near);
        let (front, back) = (whole.front(front), whole.back(front));
        self.table.add_used(front, near);
        self.table.add_used(back, near);
        (Span { run: front, near }, Span { run: back, near })
    }

    /// Frees a used span. It is joined with the free runs directly before it and directly behind
    /// it, and the joined run is the latest.
    ///
    /// Condition: the heap has the span.
    pub fn free(&mut self, span: Span)
        requires { Contains self.old.used span }
        ensures freed { Frees self.old self.new span }
        ensures partition { IsPartition self.new }
    {
        let (run, near) = (span.run, span.near);
        let before = self.table.take_before(&run, near);
        let behind = self.table.take_behind(&run, near);
        self.table.take_used(run, near);
        self.table.add_free(
            Run {
                segment: run.segment,
                first: run.first - before,
                pages: before + run.pages + behind,
            },
            near,
        );
        self.free_pages += run.pages;
    }

    /// Drops a segment with its free runs and its used spans, and answers how many of its pages
    /// were used.
    ///
    /// Condition: a segment of the heap has this number.
    pub fn drop_segment(&mut self, segment: u64) -> u32
        requires { IsTrue (has_segment self.old.segments segment) }
        ensures answer { result ≡ pages_in segment self.old.used }
        ensures dropped { Drops self.old self.new segment }
        ensures partition { IsPartition self.new }
    {
        let near = self.table.near(segment);
        let used = self.table.used_pages(segment, near);
        let pages = self.table.width(segment, near);
        self.table.drop_row(segment, near);
        self.pages -= pages;
        self.free_pages -= pages - used;
        used
    }

    /// Whether this is one of the used spans. A span is known by its segment, its first page and
    /// its pages.
    pub fn has(&self, span: &Span) -> bool
        ensures answer { IsTrue result ↔ Contains self.now.used span.now }
        ensures partition { IsPartition self.now }
    {
        self.table.has(&span.run, span.near)
    }

    /// Whether one of the segments has this number.
    pub fn has_segment(&self, segment: u64) -> bool
        ensures { result ≡ has_segment self.now.segments segment }
    {
        self.table.has_segment(segment)
    }

    /// Whether no used span lies in this segment.
    ///
    /// Condition: a segment of the heap has this number.
    pub fn all_free(&self, segment: u64) -> bool
        requires { IsTrue (has_segment self.now.segments segment) }
        ensures { IsTrue result ↔ NoneIn segment self.now.used }
    {
        let near = self.table.near(segment);
        self.table.used_pages(segment, near) == 0
    }

    /// The pages of all free runs.
    pub fn free_pages(&self) -> u64
        ensures { result ≡ pages_of self.now.free }
    {
        u64::from(self.free_pages)
    }

    /// The free runs as they are now, the oldest first. The one error is being out of memory.
    pub fn runs(&self, alloc: Global) -> Result<Runs, NoMemory>
        ensures { IfOk result (λ runs. runs ≡ self.now.free) }
    {
        Ok(Runs {
            runs: self.table.list(alloc)?,
        })
    }
}
