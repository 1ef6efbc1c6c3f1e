//! A search for one page and its free, and the drop of a segment, in a heap of many segments beside the
//! same in one of few.
ghost use Rattle.std.specs.Prelude.{◌≡◌, ◌+◌, ◌*◌, ◌≤◌, IfSome};
ghost use Rattle.span_heap.specs.Heap.{size_of};

use crate::segment_steps::Times;
use span_heap::{Heap, Span};
use std::alloc::{AllocError, Global};
use std::io;
use std::time::{Clock, Instant};

/// How many turns are timed together.
const TURNS: u64 = 1_000_000;

/// How often they are timed: the least time counts.
const RUNS: u32 = 12;

/// How many pages a segment has.
const PAGES: u32 = 64;

/// How many segments the large heap has.
const MANY: u64 = 1_000;

/// How many segments the small heap has.
const FEW: u64 = 10;

/// How many segments are dropped together.
const DROPS: u64 = 5;

/// How the numbers of the segments rise.
#[derive(Clone, Copy)]
pub enum Numbers {
    ByOne,
    ByThree,
    Squares,
}

impl Numbers {
    /// The number of the segment at this place.
    fn at(self, place: u64) -> u64
        requires { place ≤ 1000 }
    {
        match self {
            Numbers::ByOne => place,
            Numbers::ByThree => 3 * place,
            Numbers::Squares => place * place,
        }
    }
}

/// Frees the first page of a span and answers the rest.
fn free_first(heap: &mut Heap, span: Span) -> Option<Span>
    ensures { heap.new.segments ≡ heap.old.segments }
{
    if !heap.has(&span) || span.pages() < 2 {
        return None;
    }
    let (front, rest) = heap.split(span, 1);
    heap.free(front);
    Some(rest)
}

/// Keeps the first page of a span and answers the rest.
fn keep_first(heap: &mut Heap, span: Span) -> Option<Span>
    ensures { heap.new.segments ≡ heap.old.segments }
{
    if !heap.has(&span) || span.pages() < 2 {
        return None;
    }
    let (_kept, rest) = heap.split(span, 1);
    Some(rest)
}

/// Frees every other page of a span, but for its last two pages, and answers these.
fn free_every_other(heap: &mut Heap, span: Span) -> Option<Span>
    ensures { heap.new.segments ≡ heap.old.segments }
{
    let mut rest = span;
    for _ in 1..PAGES / 2 {
        let behind = free_first(heap, rest)?;
        rest = keep_first(heap, behind)?;
    }
    Some(rest)
}

/// Adds a segment of which every other page is free, and answers its last two pages.
fn add_segment(heap: &mut Heap, alloc: Global, segment: u64) -> Option<Span>
    requires { size_of heap.old.segments ≤ 64 * 1000 }
    ensures { IfSome result (λ _. size_of heap.new.segments ≤ size_of heap.old.segments + 64) }
{
    if heap.has_segment(segment) {
        return None;
    }
    let span = heap.grow(alloc, segment, PAGES).ok()?;
    free_every_other(heap, span)
}

/// A heap of so many segments of 64 pages, with half of all pages in runs of one page. The latest run
/// lies in the middle segment.
fn scattered(alloc: Global, segments: u64, numbers: Numbers) -> Option<Heap>
    requires { segments ≤ 1000 }
{
    let mut heap = Heap::new(alloc).ok()?;
    let mut middle = None;
    for place in 0..segments {
        let rest = add_segment(&mut heap, alloc, numbers.at(place))?;
        if place == segments / 2 {
            middle = Some(rest);
        }
    }
    let _rest = free_first(&mut heap, middle?)?;
    Some(heap)
}

/// A heap of 1,000 segments, and one of 10.
fn two_heaps(alloc: Global, numbers: Numbers) -> io::Result<(Heap, Heap)> {
    let Some(many) = scattered(alloc, MANY, numbers) else {
        return Err(AllocError.into());
    };
    let Some(few) = scattered(alloc, FEW, numbers) else {
        return Err(AllocError.into());
    };
    Ok((many, few))
}

/// A search and a free in a heap of 1,000 segments beside the same in one of 10.
pub fn heaps<C: Clock>(clock: &C, alloc: Global, numbers: Numbers) -> io::Result<Times> {
    let (mut many, mut few) = two_heaps(alloc, numbers)?;
    let mut times = Times::none();
    for _ in 0..RUNS {
        let start = Instant::now(clock)?;
        search_and_free(&mut many, TURNS);
        let ours = start.elapsed(clock)?;
        let start = Instant::now(clock)?;
        search_and_free(&mut few, TURNS);
        times = times.with(TURNS, ours, start.elapsed(clock)?);
    }
    Ok(times)
}

#[inline(never)]
fn search_and_free(heap: &mut Heap, turns: u64) {
    for _ in 0..turns {
        if let Some(span) = heap.search(1, 0) {
            heap.free(span);
        }
    }
}

/// The drop of a segment in the middle of a heap of 1,000 beside the same in one of 10. A turn is a page.
/// Before each of the two, so many words of other memory are gone along: with none, the small heap lies
/// in the caches that are next to the processor, and most of the large one does not.
pub fn drops<C: Clock>(clock: &C, alloc: Global, words: usize) -> io::Result<Times> {
    let mut other = vec![in alloc; 0; words]?;
    let mut times = Times::none();
    for _ in 0..RUNS {
        let (mut many, mut few) = two_heaps(alloc, Numbers::ByThree)?;
        go_along(&mut other);
        let start = Instant::now(clock)?;
        drop_from(&mut many, MANY / 2);
        let ours = start.elapsed(clock)?;
        go_along(&mut other);
        let start = Instant::now(clock)?;
        drop_from(&mut few, FEW / 2);
        times = times.with(DROPS * u64::from(PAGES), ours, start.elapsed(clock)?);
    }
    Ok(times)
}

/// Changes each word.
#[inline(never)]
fn go_along(words: &mut [u64]) {
    for word in words.iter_mut() {
        *word = word.wrapping_add(1);
    }
}

/// Drops the segments from a place on.
#[inline(never)]
fn drop_from(heap: &mut Heap, first: u64)
    requires { first ≤ 500 }
{
    for place in first..first + DROPS {
        let segment = Numbers::ByThree.at(place);
        if heap.has_segment(segment) {
            heap.drop_segment(segment);
        }
    }
}
