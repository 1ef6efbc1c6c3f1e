use crate::ScriptHeaps;
use span_heap::Run;
use std::alloc::Global;
use std::test::Fail;

/// Whether this is the run of so many pages.
fn is_run(run: Option<Run>, segment: u64, first: u32, pages: u32) -> bool {
    match run {
        Some(run) => run.segment == segment && run.first == first && run.pages == pages,
        None => false,
    }
}

/// Whether a search finds a purged segment, which leaves, and then another one, and the dead piece of
/// the purged one joins no run.
fn search_goes_on(alloc: Global) -> Result<bool, Fail> {
    let mut heaps = ScriptHeaps::new(alloc)?;
    heaps.adopt(alloc, 1, 1, 4, 1)?;
    heaps.adopt(alloc, 1, 2, 4, 4)?;
    let freed = heaps.free(2) == Some(true) && heaps.runs(alloc, 1)?.len() == 2;
    let purged = is_run(heaps.search(1, 2, 2)?, 1, 1, 2);
    heaps.lose_last(1)?;
    let found = is_run(heaps.search(1, 2, 2)?, 2, 0, 2) && is_run(heaps.piece(3), 2, 0, 2);
    let rest = is_run(heaps.runs(alloc, 1)?.get(0), 2, 2, 2);
    heaps.lose(1, 1)?;
    let none = heaps.search(1, 4, 0)?.is_none();
    let untold = heaps.take_untold(alloc, 1);
    let told = untold.len() == 1 && untold[0] == 1;
    let dead = heaps.free(1) == Some(false) && heaps.runs(alloc, 1)?.len() == 1;
    Ok(freed && purged && found && rest && none && told && dead && heaps.last_piece() == 3)
}

/// Whether a freed piece joins the rest of its segment, which leaves as it is all free, and whether
/// nothing is left of a client.
fn segments_leave(alloc: Global) -> Result<bool, Fail> {
    let mut heaps = ScriptHeaps::new(alloc)?;
    heaps.adopt(alloc, 1, 1, 2, 1)?;
    let freed = heaps.free(1) == Some(true) && is_run(heaps.runs(alloc, 1)?.get(0), 1, 0, 2);
    let free = heaps.all_free(alloc, 1)?;
    heaps.leave_all(1, &free);
    heaps.adopt(alloc, 1, 2, 2, 1)?;
    let owned = heaps.segments(1).len() == 1 && heaps.owns(1) && heaps.free_pages(1) == 1;
    heaps.lose_all(1, &[2])?;
    let empty = heaps.runs(alloc, 1)?.len() == 0;
    heaps.empty(alloc, 1)?;
    Ok(freed && free.len() == 1 && owned && empty && heaps.piece(2).is_none())
}

#[test]
fn pieces_come_and_go(rt: HostRuntime) -> Result<(), Fail> {
    assert!(rt; search_goes_on(rt.alloc())?);
    assert!(rt; segments_leave(rt.alloc())?);
    Ok(())
}
