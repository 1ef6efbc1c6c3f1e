ghost use Rattle.std.specs.Prelude.{◌≡◌, ◌+◌, ◌*◌, ◌^◌, ◌<◌, ◌≤◌, IfOk};
ghost use Rattle.span_heap.specs.Heap.{size_of};

use super::*;
use std::alloc::Global;
use std::test::Fail;

fn crosses_threads<T: Send + Sync>(value: T) -> T {
    value
}

/// Frees a span that the heap has.
fn give_back(heap: &mut Heap, span: Span) -> Result<(), Fail>
    ensures { heap.new.segments ≡ heap.old.segments }
{
    if !heap.has(&span) {
        return Err(Fail::new("the heap has no such span"));
    }
    heap.free(span);
    Ok(())
}

fn stands_at(runs: &Runs, place: u64, segment: u64, first: u32, pages: u32) -> bool {
    match runs.get(place) {
        Some(run) => run.segment == segment && run.first == first && run.pages == pages,
        None => false,
    }
}

/// Adds a segment and frees it whole.
fn add_free(heap: &mut Heap, alloc: Global, segment: u64, pages: u32) -> Result<(), Fail>
    requires sized { (1 ≤ pages) × (pages ≤ 300) }
    requires small { size_of heap.old.segments ≤ 300 * 300 }
    ensures { IfOk result (λ _. size_of heap.new.segments ≤ size_of heap.old.segments + 300) }
{
    if heap.has_segment(segment) {
        return Err(Fail::new("the heap has such a segment"));
    }
    let span = heap.grow(alloc, segment, pages)?;
    give_back(heap, span)
}

/// Segments 7, 8, 9 and 10 of 1, 3, 3 and 300 pages, freed whole in this order.
fn four_free_segments(alloc: Global) -> Result<Heap, Fail>
    ensures { IfOk result (λ heap. size_of heap.segments ≤ 4 * 300) }
{
    let mut heap = Heap::new(alloc)?;
    add_free(&mut heap, alloc, 7, 1)?;
    add_free(&mut heap, alloc, 8, 3)?;
    add_free(&mut heap, alloc, 9, 3)?;
    add_free(&mut heap, alloc, 10, 300)?;
    Ok(heap)
}

/// Whether a search of that heap takes the front of this segment and appends the rest.
fn takes(alloc: Global, pages: u32, slack: u32, segment: u64, rest: u32) -> Result<bool, Fail>
    requires sized { 1 ≤ pages }
    requires small { pages + slack < 2 ^ 32 }
{
    let mut heap = four_free_segments(alloc)?;
    let found = match heap.search(pages, slack) {
        Some(span) => { span.segment() == segment && span.first() == 0 && span.pages() == pages }
        None => false,
    };
    let runs = heap.runs(alloc)?;
    Ok(found && stands_at(&runs, 3, segment, pages, rest))
}

fn finds_none(alloc: Global, pages: u32, slack: u32) -> Result<bool, Fail>
    requires sized { 1 ≤ pages }
    requires small { pages + slack < 2 ^ 32 }
{
    let mut heap = four_free_segments(alloc)?;
    Ok(heap.search(pages, slack).is_none())
}

#[test]
fn a_search_takes_the_latest_of_the_least_length(rt: HostRuntime) -> Result<(), Fail> {
    let alloc = rt.alloc();
    assert!(rt; finds_none(alloc, 2, 0)?);
    assert!(rt; takes(alloc, 2, 1, 9, 1)?);
    assert!(rt; takes(alloc, 2, 298, 9, 1)?);
    assert!(rt; finds_none(alloc, 4, 295)?);
    assert!(rt; takes(alloc, 4, 296, 10, 296)?);
    Ok(())
}

/// A segment of 9 pages in three spans and one of 3 pages, freed so that the last span joins both
/// of its neighbours.
fn joined(alloc: Global) -> Result<Heap, Fail> {
    let mut heap = Heap::new(alloc)?;
    let whole = heap.grow(alloc, 1, 9)?;
    let (first, rest) = heap.split(whole, 3);
    let (second, third) = heap.split(rest, 3);
    let other = heap.grow(alloc, 2, 3)?;
    give_back(&mut heap, first)?;
    give_back(&mut heap, third)?;
    give_back(&mut heap, other)?;
    give_back(&mut heap, second)?;
    Ok(heap)
}

#[test]
fn a_freed_span_is_joined_and_comes_last(rt: HostRuntime) -> Result<(), Fail> {
    let heap = crosses_threads(joined(rt.alloc())?);
    let runs = heap.runs(rt.alloc())?;
    assert!(rt; runs.len() == 2 && heap.free_pages() == 12);
    assert!(rt; stands_at(&runs, 0, 2, 0, 3) && stands_at(&runs, 1, 1, 0, 9));
    Ok(())
}

/// Whether a search takes the front of this segment.
fn finds(heap: &mut Heap, pages: u32, slack: u32, segment: u64) -> bool
    requires sized { 1 ≤ pages }
    requires small { pages + slack < 2 ^ 32 }
{
    match heap.search(pages, slack) {
        Some(span) => { span.segment() == segment && span.first() == 0 && span.pages() == pages }
        None => false,
    }
}

/// Segments of 1 to 300 pages, each freed whole and numbered by its pages.
fn segment_of_each_length(alloc: Global) -> Result<Heap, Fail> {
    let mut heap = Heap::new(alloc)?;
    for pages in 1..301 {
        add_free(&mut heap, alloc, u64::from(pages), pages)?;
    }
    Ok(heap)
}

#[test]
fn each_length_is_found(rt: HostRuntime) -> Result<(), Fail> {
    let mut heap = segment_of_each_length(rt.alloc())?;
    for pages in 1..301 {
        assert!(rt; finds(&mut heap, pages, 0, u64::from(pages)));
    }
    assert!(rt; heap.free_pages() == 0);
    Ok(())
}

#[test]
fn lengths_from_256_on_are_one(rt: HostRuntime) -> Result<(), Fail> {
    let mut heap = segment_of_each_length(rt.alloc())?;
    assert!(rt; finds(&mut heap, 256, 1, 257));
    assert!(rt; finds(&mut heap, 255, 2, 255) && finds(&mut heap, 255, 1, 256));
    Ok(())
}

/// Whether the heap had this segment, which is dropped then.
fn drops(heap: &mut Heap, segment: u64) -> bool
    ensures { size_of heap.new.segments ≤ size_of heap.old.segments }
{
    if !heap.has_segment(segment) {
        return false;
    }
    heap.drop_segment(segment);
    true
}

#[test]
fn segments_stay_where_most_were_dropped(rt: HostRuntime) -> Result<(), Fail> {
    let mut heap = four_free_segments(rt.alloc())?;
    assert!(rt; drops(&mut heap, 7) && drops(&mut heap, 9) && drops(&mut heap, 8));
    assert!(rt; heap.free_pages() == 300 && !heap.has_segment(9));
    add_free(&mut heap, rt.alloc(), 8, 2)?;
    assert!(rt; heap.has_segment(8) && heap.has_segment(10) && !heap.has_segment(7));
    assert!(rt; finds(&mut heap, 2, 0, 8) && finds(&mut heap, 300, 0, 10));
    Ok(())
}
