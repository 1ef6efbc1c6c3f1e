ghost use Rattle.std.specs.Prelude.{◌≡◌, ◌+◌, ◌≤◌, [], length};

use crate::{Frame, Joined, Layout, Place, Room};
use std::alloc::Global;
use std::marker::Brand;
use std::test::Fail;
use std::thread::{Threads, join};
use units::NoMemory;

/// A place with bytes at its front.
fn filled<L: Layout>(mut place: Place<L>, bytes: &[u8]) -> Place<L>
    requires { (place.bytes ≡ []) × (length bytes.now ≤ L.size) }
    ensures { result.number ≡ place.number }
{
    place.append(bytes);
    place
}

/// Three places, of which one thread fills the first and the third, and another writes all but the last
/// byte of the second.
fn joins<L: Layout + Send + Sync, H: Threads + Sync>(rt: &H, room: Room) -> Joined
    requires room { room ≡ record { base = L.base; size = L.size; count = L.count } }
    requires three { (L.size ≡ 3) × (L.count ≡ 3) }
{
    let mut frame = Frame::<L>::new(room);
    let first = frame.next_place();
    let second = frame.next_place();
    let third = frame.next_place();
    let ((first, third), second) = join(
        rt,
        move || -> (Place<L>, Place<L>)
            requires first { (first ≡ record { number = 0; bytes = [] }) × (3 ≤ L.size) }
            requires third { third ≡ record { number = 2; bytes = [] } }
            ensures { (result.0.number ≡ 0) × (result.1.number ≡ 2) }
        { (filled(first, b"abc"), filled(third, b"xyz")) },
        move || -> Place<L>
            requires { (second ≡ record { number = 1; bytes = [] }) × (3 ≤ L.size) }
            ensures { result.number ≡ 1 }
        { filled(second, b"de") },
    );
    frame
        .put_back(third)
        .put_back(second)
        .put_back(first)
        .close()
}

/// No place at all.
fn closes<L: Layout>(room: Room) -> Joined
    requires room { room ≡ record { base = L.base; size = L.size; count = L.count } }
    requires none { L.count ≡ 0 }
{
    Frame::<L>::new(room).close()
}

fn three_places<H: Threads + Sync>(rt: &H, alloc: Global) -> Result<Joined, NoMemory> {
    let room = Room::new(alloc, 3, 3)?;
    Ok(joins::<Brand, H>(rt, room))
}

fn no_place(alloc: Global) -> Result<Joined, NoMemory> {
    let room = Room::new(alloc, 0, 5)?;
    Ok(closes::<Brand>(room))
}

#[test]
fn places_are_filled_by_threads_and_joined(rt: HostRuntime) -> Result<(), Fail> {
    let joined = three_places(&rt, rt.alloc())?;
    assert!(rt; joined.as_slice() == b"abcde\0xyz".as_slice());
    assert!(rt; no_place(rt.alloc())?.as_slice().is_empty());
    assert!(rt; Joined::copy_of(rt.alloc(), b"once")?.as_slice() == b"once".as_slice());
    Ok(())
}
