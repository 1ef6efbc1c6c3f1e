//! The table of pages: which run begins or ends at each page of each segment.
ghost use Rattle.std.specs.Prelude.{◌≡◌, ◌+◌, ◌-◌, ◌^◌, ◌<◌, ◌≤◌, ◌↔◌, not, [], ◌∷◌, ◌++◌, Contains, IsFalse, IsTrue, IsPermutation, OnOk, OnErr, IfOk, filter};
ghost use Rattle.span_heap.specs.Run.{is_run, pages_of};
ghost use Rattle.span_heap.specs.Runs.{pages_before, pages_behind, back_of, rest_of, dropped};
ghost use Rattle.span_heap.specs.Pick.{pick};
ghost use Rattle.span_heap.specs.Segment.{pages_in};
ghost use Rattle.span_heap.specs.Heap.{contents, LiesWithin, has_id, has_segment, size_of};
ghost use Rattle.span_heap.specs.Changes.{NoneIn, segment_of};
ghost use Rattle.span_heap.specs.Table.{AreSized, BeginFrom, CanCome, IsEmptied, IsRunAt, Joins};
ghost use Rattle.span_heap.specs.Table.{NoneBegins, OneBefore, OneBehind, page_of, without_before, without_behind};

use crate::placed::PlacedRuns;
use crate::row::{PageRow, find_row, new_places, push_row, row_of, widen_all};
use crate::run::Run;
use std::alloc::Global;
use std::marker::Model;
use units::NoMemory;
use units::row_search::guess_place;

/// Segments with their used spans and free runs, each of which is found by its first or last page.
#[derive(Drop)]
pub(crate) struct PageTable {
    /// In the order in which they came. The row of a segment that was dropped stands on without a
    /// page, so that no other moves, until `grow` takes such rows out.
    rows: Vec<PageRow>,
    /// How many rows have no page.
    dropped: usize,
    runs: PlacedRuns,
    /// By place: how many pages the free run has that begins there.
    free_from: Vec<u32>,
    /// By place: how many pages the free run has that ends there.
    free_to: Vec<u32>,
    /// By place: how many pages the used span has that begins there.
    used_from: Vec<u32>,
    /// Places that no page has.
    spare: Vec<u32>,
}

impl Model for PageTable {
    ghost use Rattle.std.specs.Prelude.{◌≤◌, length, vec_capacity};
    ghost use Rattle.span_heap.specs.Placed.{free_of, used_of};
    ghost use Rattle.span_heap.specs.Table.{shown_rows, AreDropped, ArePlaces, CountsTell, HoldsRuns};
    ghost use Rattle.span_heap.specs.Heap.{Contents, contents};

    ghost Value = { Contents };

    ghost view = { λ t. contents (shown_rows t.rows.items) (used_of t.runs) (free_of t.runs) };

    ghost invariant = { λ t. ArePlaces t.rows.items t.spare.items (length t.runs.runs)
        × HoldsRuns t.rows.items t.runs t.free_from.items t.free_to.items t.used_from.items
        × CountsTell t.rows.items (used_of t.runs)
        × (length t.runs.runs ≤ vec_capacity t.spare)
        × AreDropped t.rows.items t.dropped };
}

impl PageTable {
    /// A table with no segment. The one error is being out of memory.
    pub(crate) fn new(alloc: Global) -> Result<PageTable, NoMemory>
        ensures { IfOk result (λ table. table ≡ contents [] [] []) }
    {
        Ok(PageTable {
            rows: Vec::new(alloc),
            dropped: 0,
            runs: PlacedRuns::new(alloc)?,
            free_from: Vec::new(alloc),
            free_to: Vec::new(alloc),
            used_from: Vec::new(alloc),
            spare: Vec::new(alloc),
        })
    }

    /// Adds a segment that has no run. `NoMemory` leaves the table as before.
    pub(crate) fn grow(&mut self, alloc: Global, id: u64, pages: u32) -> Result<(), NoMemory>
        requires fresh { IsFalse (has_segment self.old.segments id) }
        requires sized { 1 ≤ pages }
        requires small { size_of self.old.segments + pages < 2 ^ 32 }
        requires none_free { NoneIn id self.old.free }
        requires none_used { NoneIn id self.old.used }
        ensures grown { OnOk result (Joins self.old.segments self.new.segments id pages) }
        ensures same { OnErr result (self.new.segments ≡ self.old.segments) }
        ensures free { self.new.free ≡ self.old.free }
        ensures used { self.new.used ≡ self.old.used }
    {
        let size = self.runs.len() as u32;
        let keep = self.spare.len() - self.spare.len().min(pages as usize);
        let fresh = pages - (self.spare.len() - keep) as u32;
        let places = new_places(alloc, self.spare.as_slice(), keep, size, fresh)?;
        self.rows.reserve(1)?;
        self.spare
            .reserve((size + fresh) as usize - self.spare.len())?;
        widen_all(
            &mut self.free_from,
            &mut self.free_to,
            &mut self.used_from,
            (size + fresh) as usize,
        )?;
        self.runs.extend(alloc, fresh)?;
        self.spare.truncate(keep);
        push_row(&mut self.rows, &mut self.dropped, PageRow::new(id, places));
        Ok(())
    }

    /// Where the row of a segment stands. The calls below take such a place as `near` and look there
    /// first; whatever it is, they do the same.
    pub(crate) fn near(&self, id: u64) -> usize {
        let rows = self.rows.as_slice();
        match find_row(rows, id, guess_place(rows, id)) {
            Some(at) => at,
            None => 0,
        }
    }

    /// How many pages a segment has.
    pub(crate) fn width(&self, id: u64, near: usize) -> u32
        requires { IsTrue (has_segment self.now.segments id) }
        ensures { Contains self.now.segments (segment_of id result) }
    {
        let at = row_of(self.rows.as_slice(), id, near);
        self.rows[at].len() as u32
    }

    /// Drops a segment with its free runs and its used spans, page by page.
    pub(crate) fn drop_row(&mut self, id: u64, near: usize)
        requires { IsTrue (has_segment self.old.segments id) }
        ensures segments { self.new.segments ≡ filter (λ s. not (has_id id s)) self.old.segments }
        ensures free { self.new.free ≡ dropped self.old.free id }
        ensures used { self.new.used ≡ dropped self.old.used id }
    {
        for page in 0..self.width(id, near) {
            self.clear_free(id, page, near);
            self.clear_used(id, page, near);
        }
        self.remove_row(id, near);
    }

    /// Takes out the free run that begins at a page, where no run of the segment begins before it.
    fn clear_free(&mut self, id: u64, page: u32, near: usize)
        requires within { LiesWithin self.old.segments (page_of id page) }
        requires from { BeginFrom id page self.old.free }
        ensures from { BeginFrom id (page + 1) self.new.free }
        ensures others { dropped self.new.free id ≡ dropped self.old.free id }
        ensures used { self.new.used ≡ self.old.used }
        ensures segments { self.new.segments ≡ self.old.segments }
    {
        if let Some(run) = self.free_at(id, page, near) {
            self.take_free(run, near);
        }
    }

    /// Takes out the used span that begins at a page, where none of the segment begins before it.
    fn clear_used(&mut self, id: u64, page: u32, near: usize)
        requires within { LiesWithin self.old.segments (page_of id page) }
        requires from { BeginFrom id page self.old.used }
        ensures from { BeginFrom id (page + 1) self.new.used }
        ensures others { dropped self.new.used id ≡ dropped self.old.used id }
        ensures free { self.new.free ≡ self.old.free }
        ensures segments { self.new.segments ≡ self.old.segments }
    {
        if let Some(span) = self.used_at(id, page, near) {
            self.take_used(span, near);
        }
    }

    /// The free run that begins at a page of a segment, if there is one.
    fn free_at(&self, id: u64, page: u32, near: usize) -> Option<Run>
        requires { LiesWithin self.now.segments (page_of id page) }
        ensures { IsRunAt self.now.free id page result }
    {
        let at = row_of(self.rows.as_slice(), id, near);
        let place = self.rows[at].place(page);
        Run::marked(id, page, self.free_from[place as usize])
    }

    /// The used span that begins at a page of a segment, if there is one.
    fn used_at(&self, id: u64, page: u32, near: usize) -> Option<Run>
        requires { LiesWithin self.now.segments (page_of id page) }
        ensures { IsRunAt self.now.used id page result }
    {
        let at = row_of(self.rows.as_slice(), id, near);
        let place = self.rows[at].place(page);
        Run::marked(id, page, self.used_from[place as usize])
    }

    /// Removes a segment that has no run. Its places serve the next segments, and its row stands on
    /// without a page.
    fn remove_row(&mut self, id: u64, near: usize)
        requires { IsEmptied self.old id }
        ensures segments { self.new.segments ≡ filter (λ s. not (has_id id s)) self.old.segments }
        ensures free { self.new.free ≡ dropped self.old.free id }
        ensures used { self.new.used ≡ dropped self.old.used id }
    {
        let at = row_of(self.rows.as_slice(), id, near);
        self.rows[at].give_places(&mut self.spare);
        self.dropped += 1;
    }

    /// Takes out a free run.
    pub(crate) fn take_free(&mut self, run: Run, near: usize)
        requires { Contains self.old.free run }
        ensures free { self.new.free ≡ filter (λ other. not (is_run run other)) self.old.free }
        ensures used { self.new.used ≡ self.old.used }
        ensures segments { self.new.segments ≡ self.old.segments }
    {
        let at = row_of(self.rows.as_slice(), run.segment, near);
        let first = self.rows[at].place(run.first);
        let last = self.rows[at].place(run.first + (run.pages - 1));
        self.runs.take_free(first);
        self.free_from[first as usize] -= run.pages;
        self.free_to[last as usize] -= run.pages;
    }

    /// Adds a free run, as the latest.
    pub(crate) fn add_free(&mut self, run: Run, near: usize)
        requires lies { LiesWithin self.old.segments run }
        requires not_free { NoneBegins run.segment run.first self.old.free }
        requires not_used { NoneBegins run.segment run.first self.old.used }
        requires small { pages_of self.old.free + run.pages < 2 ^ 32 }
        ensures free { self.new.free ≡ self.old.free ++ run ∷ [] }
        ensures used { self.new.used ≡ self.old.used }
        ensures segments { self.new.segments ≡ self.old.segments }
    {
        let at = row_of(self.rows.as_slice(), run.segment, near);
        let first = self.rows[at].place(run.first);
        let last = self.rows[at].place(run.first + (run.pages - 1));
        self.runs.add_free(first, run);
        self.free_from[first as usize] += run.pages;
        self.free_to[last as usize] += run.pages;
    }

    /// Takes out a used span.
    pub(crate) fn take_used(&mut self, span: Run, near: usize)
        requires { Contains self.old.used span }
        ensures free { self.new.free ≡ self.old.free }
        ensures used { IsPermutation self.old.used (span ∷ self.new.used) }
        ensures others { self.new.used ≡ filter (λ other. not (is_run span other)) self.old.used }
        ensures segments { self.new.segments ≡ self.old.segments }
    {
        let at = row_of(self.rows.as_slice(), span.segment, near);
        let first = self.rows[at].place(span.first);
        self.runs.take_used(first);
        self.used_from[first as usize] -= span.pages;
        self.rows[at].less_used(span.pages);
    }

    /// Adds a used span.
    pub(crate) fn add_used(&mut self, span: Run, near: usize)
        requires lies { LiesWithin self.old.segments span }
        requires not_free { NoneBegins span.segment span.first self.old.free }
        requires not_used { NoneBegins span.segment span.first self.old.used }
        requires small { pages_of self.old.used + span.pages < 2 ^ 32 }
        ensures free { self.new.free ≡ self.old.free }
        ensures used { self.new.used ≡ self.old.used ++ span ∷ [] }
        ensures segments { self.new.segments ≡ self.old.segments }
    {
        let at = row_of(self.rows.as_slice(), span.segment, near);
        let first = self.rows[at].place(span.first);
        self.runs.add_used(first, span);
        self.used_from[first as usize] += span.pages;
        self.rows[at].more_used(span.pages);
    }

    /// Adds what a run has behind its first `pages` pages, if anything, as the latest free run.
    pub(crate) fn add_rest(&mut self, run: Run, pages: u32, near: usize)
        requires come { pages < run.pages → CanCome self.old (back_of run pages) }
        requires end { run.first + run.pages < 2 ^ 32 }
        ensures free { self.new.free ≡ self.old.free ++ rest_of run pages }
        ensures used { self.new.used ≡ self.old.used }
        ensures segments { self.new.segments ≡ self.old.segments }
    {
        if pages < run.pages {
            self.add_free(run.back(pages), near);
        }
    }

    /// Takes out the free run that ends where this span begins, and answers its pages, or 0.
    pub(crate) fn take_before(&mut self, span: &Run, near: usize) -> u32
        requires lies { LiesWithin self.old.segments span.now }
        requires one { OneBefore self.old.free span.now }
        requires sized { AreSized self.old.free }
        ensures pages { result ≡ pages_before self.old.free span.now }
        ensures free { self.new.free ≡ without_before self.old.free span.now }
        ensures used { self.new.used ≡ self.old.used }
        ensures segments { self.new.segments ≡ self.old.segments }
    {
        let pages = self.pages_before(span, near);
        if pages > 0 {
            self.take_free(
                Run {
                    segment: span.segment,
                    first: span.first - pages,
                    pages,
                },
                near,
            );
        }
        pages
    }

    /// Takes out the free run that begins where this span ends, and answers its pages, or 0.
    pub(crate) fn take_behind(&mut self, span: &Run, near: usize) -> u32
        requires lies { LiesWithin self.old.segments span.now }
        requires one { OneBehind self.old.free span.now }
        requires sized { AreSized self.old.free }
        requires end { span.now.first + span.now.pages < 2 ^ 32 }
        ensures pages { result ≡ pages_behind self.old.free span.now }
        ensures free { self.new.free ≡ without_behind self.old.free span.now }
        ensures used { self.new.used ≡ self.old.used }
        ensures segments { self.new.segments ≡ self.old.segments }
    {
        let pages = self.pages_behind(span, near);
        if pages > 0 {
            self.take_free(
                Run {
                    segment: span.segment,
                    first: span.first + span.pages,
                    pages,
                },
                near,
            );
        }
        pages
    }

    /// The free runs, the oldest first.
    pub(crate) fn list(&self, alloc: Global) -> Result<Vec<Run>, NoMemory>
        ensures { IfOk result (λ runs. runs.items ≡ self.now.free) }
    {
        self.runs.list(alloc)
    }

    /// How many pages the free run has that ends where this span begins, or 0 where there is none.
    pub(crate) fn pages_before(&self, span: &Run, near: usize) -> u32
        requires { LiesWithin self.now.segments span.now }
        ensures { result ≡ pages_before self.now.free span.now }
    {
        let at = row_of(self.rows.as_slice(), span.segment, near);
        if span.first == 0 {
            return 0;
        }
        let place = self.rows[at].place(span.first - 1);
        self.free_to[place as usize]
    }

    /// How many pages the free run has that begins where this span ends, or 0 where there is none.
    pub(crate) fn pages_behind(&self, span: &Run, near: usize) -> u32
        requires { LiesWithin self.now.segments span.now }
        ensures { result ≡ pages_behind self.now.free span.now }
    {
        let at = row_of(self.rows.as_slice(), span.segment, near);
        let end = u64::from(span.first) + u64::from(span.pages);
        if end >= self.rows[at].len() as u64 {
            return 0;
        }
        let place = self.rows[at].place(end as u32);
        self.free_from[place as usize]
    }

    /// The free run that a search for `pages` to `most` pages takes.
    pub(crate) fn pick(&self, pages: u32, most: u32) -> Option<Run>
        requires sized { 1 ≤ pages }
        requires order { pages ≤ most }
        ensures { result ≡ pick self.now.free pages (most - pages) }
    {
        self.runs.pick(pages, most)
    }

    /// Whether this is one of the used spans.
    pub(crate) fn has(&self, span: &Run, near: usize) -> bool
        ensures { IsTrue result ↔ Contains self.now.used span.now }
    {
        let Some(at) = find_row(self.rows.as_slice(), span.segment, near) else {
            return false;
        };
        if span.pages == 0 {
            return false;
        }
        if span.first as usize >= self.rows[at].len() {
            return false;
        }
        let place = self.rows[at].place(span.first);
        self.used_from[place as usize] == span.pages
    }

    /// Whether one of the segments has this number.
    pub(crate) fn has_segment(&self, id: u64) -> bool
        ensures { result ≡ has_segment self.now.segments id }
    {
        let rows = self.rows.as_slice();
        find_row(rows, id, guess_place(rows, id)).is_some()
    }

    /// How many pages of a segment are used.
    pub(crate) fn used_pages(&self, id: u64, near: usize) -> u32
        requires { IsTrue (has_segment self.now.segments id) }
        ensures pages { result ≡ pages_in id self.now.used }
        ensures none { (result ≡ 0) ↔ NoneIn id self.now.used }
    {
        let at = row_of(self.rows.as_slice(), id, near);
        self.rows[at].used()
    }
}
