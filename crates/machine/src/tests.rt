use crate::{Answer, Bytes, Event, MOST_PAGES, PlainSegments};
use std::alloc::Global;
use std::test::Fail;

fn grant(id: u64, pages: u32) -> Event {
    Event::Grant {
        id,
        client: 1,
        pages,
    }
}

fn lock(first: u32, count: u32) -> Event {
    Event::Lock {
        id: 1,
        first,
        count,
    }
}

fn unlock(first: u32, count: u32, at: u64) -> Event {
    Event::Unlock {
        id: 1,
        first,
        count,
        at,
    }
}

fn write(alloc: Global, place: u64, bytes: &[u8]) -> Result<Event, Fail> {
    Ok(Event::Write {
        id: 1,
        place,
        bytes: Bytes::from_vec(bytes.to_vec(alloc)?),
    })
}

fn try_at(now: u64) -> Event {
    Event::Try { id: 1, now }
}

/// Whether each event is answered as its row says.
fn are_answered(
    alloc: Global,
    segments: &mut PlainSegments,
    rows: &[(Event, Answer)],
) -> Result<bool, Fail> {
    for (event, want) in rows {
        if segments.step(alloc, event)? != *want {
            return Ok(false);
        }
    }
    Ok(true)
}

#[test]
fn events_are_answered(rt: HostRuntime) -> Result<(), Fail> {
    let alloc = rt.alloc();
    let mut purged = PlainSegments::new(alloc)?;
    assert!(rt;
        are_answered(
            alloc,
            &mut purged,
            &[
                (grant(1, 1), Answer::Granted { id: 1 }),
                (unlock(0, 1, 5), Answer::Idle { at: 5 }),
                (try_at(9), Answer::Used { known: 5 }),
                (try_at(9), Answer::Taken),
                (lock(0, 1), Answer::Gone),
                (lock(0, 1), Answer::Gone),
                (unlock(0, 1, 9), Answer::Misuse),
                (write(alloc, 0, &[])?, Answer::Written),
                (write(alloc, 0, &[1])?, Answer::Misuse),
                (try_at(10), Answer::Misuse),
                (Event::Back { id: 1 }, Answer::Purged),
                (Event::Back { id: 1 }, Answer::Purged),
                (lock(0, 1), Answer::Misuse),
            ]
        )?
    );
    let mut guessed = PlainSegments::new(alloc)?;
    assert!(rt;
        are_answered(
            alloc,
            &mut guessed,
            &[
                (grant(1, 1), Answer::Granted { id: 1 }),
                (try_at(9), Answer::Used { known: 9 }),
                (unlock(0, 1, 7), Answer::Idle { at: 7 }),
                (try_at(10), Answer::Used { known: 7 }),
                (try_at(10), Answer::Taken),
            ]
        )?
    );
    Ok(())
}

#[test]
fn bytes_show_in_held_pages_alone(rt: HostRuntime) -> Result<(), Fail> {
    let alloc = rt.alloc();
    let mut segments = PlainSegments::new(alloc)?;
    assert!(rt;
        are_answered(
            alloc,
            &mut segments,
            &[
                (lock(0, 1), Answer::Misuse),
                (grant(1, 2), Answer::Granted { id: 1 }),
                (grant(1, 2), Answer::Misuse),
                (grant(2, MOST_PAGES + 1), Answer::Misuse),
                (unlock(0, 1, 2), Answer::StillHeld { pages: 1 }),
                (write(alloc, 4095, &[1, 2])?, Answer::Misuse),
                (write(alloc, 4096, &[1, 2])?, Answer::Written),
                (write(alloc, u64::MAX, &[])?, Answer::Written),
            ]
        )?
    );
    let mut out = [9; 3];
    assert!(rt; segments.read(1, 4096, 3, &mut out) && out == [1, 2, 0]);
    assert!(rt; !segments.read(1, 8190, 3, &mut out) && out == [1, 2, 0]);
    assert!(rt;
        are_answered(
            alloc,
            &mut segments,
            &[(Event::Back { id: 1 }, Answer::Counted)]
        )?
    );
    assert!(rt; !segments.read(1, 4096, 3, &mut out));
    Ok(())
}
