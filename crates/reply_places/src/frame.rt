ghost use Rattle.std.specs.Prelude.{◌≡◌, ℕ, ◌+◌, ◌*◌, ◌^◌, ◌<◌, ◌≤◌, [], ◌++◌, length, vec_len, vec_capacity, IfOk};
ghost use denote.RawPtr.{Ptr, ◌+ₚ◌};
ghost use Rattle.reply_places.specs.Framed.{Framed, filled_up};

use crate::block::{Filled, Sole, Space, cut, detach, house_filled, join};
use crate::joined::Joined;
use crate::place::{Layout, Place};
use std::alloc::Global;
use std::marker::{Model, PhantomData};
use std_alloc::vec::Lodged;
use units::NoMemory;

/// Memory for places of one length that are not cut yet.
#[derive(Drop)]
pub struct Room {
    room: Vec<u8>,
    size: usize,
    count: usize,
}

impl Model for Room {
    ghost use Rattle.std.specs.Prelude.{◌≡◌, ◌*◌, ◌^◌, ◌<◌};
    ghost use Rattle.reply_places.specs.Framed.{Roomy};

    ghost Value = { Roomy };

    ghost view = { λ r. record { base = r.room.ptr; size = r.size; count = r.count } };

    ghost invariant = { λ r. (r.room.len ≡ 0) × (r.room.cap ≡ r.count * r.size)
        × (0 < r.size) × (r.count * r.size < 2 ^ 63) };
}

impl Room {
    /// Memory for `count` places of `size` bytes each; nothing is written to it. The one error is being
    /// out of memory.
    pub fn new(alloc: Global, count: usize, size: usize) -> Result<Room, NoMemory>
        requires some { 0 < size }
        requires fits { count * size < 2 ^ 63 }
        ensures { IfOk result (λ room. (room.size ≡ size) × (room.count ≡ count)) }
    {
        Ok(Room {
            room: Vec::with_capacity(alloc, count * size)?,
            size,
            count,
        })
    }
}

/// What places are cut from, in the order of their numbers, and what they are joined to again, in the
/// reverse order. At each moment each byte of the allocation has one owner: the bytes of a place that is
/// out belong to who holds the place, and all others to the frame.
///
/// Who drops a frame, or a place that is out, lets the allocation leak. So nothing may fail from the
/// first place that is cut to `close`. A frame itself cannot be dropped.
pub struct Frame<L: Layout> {
    base: *mut u8,
    size: usize,
    count: usize,
    given: usize,
    from: usize,
    /// What was not cut yet.
    space: Option<Space>,
    /// The places that were joined.
    filled: Option<Filled>,
    /// What the allocation is freed with.
    sole: Option<Sole<Global>>,
    of: PhantomData<L>,
}

impl<L: Layout> Model for Frame<L> {
    ghost use Rattle.std.specs.Prelude.{◌≡◌, ◌+◌, ◌*◌, ◌^◌, ◌<◌, ◌≤◌, length, MatchOption};
    ghost use denote.RawPtr.{◌+ₚ◌};
    ghost use Rattle.reply_places.specs.Framed.{Framed, bytes_of};
    ghost use Rattle.reply_places.specs.Ownership.{IsPlaced};

    ghost Value = { Framed };

    ghost view = { λ f. record { given = f.given; from = f.from; bytes = bytes_of f.filled } };

    // Without places there is no allocation.
    ghost invariant = { λ f. (f.base ≡ L.base) × (f.size ≡ L.size) × (f.count ≡ L.count)
        × (0 < f.size) × (f.count * f.size < 2 ^ 63) × (f.given ≤ f.count) × (f.from ≤ f.count)
        × MatchOption f.space (f.count ≡ 0) (λ s. IsPlaced f.base
        × (s.ptr ≡ f.base +ₚ f.given * f.size) × (s.len + f.given * f.size ≡ f.count * f.size))
        × MatchOption f.filled (f.from ≡ f.count) (λ r. (r.ptr ≡ f.base +ₚ f.from * f.size)
        × (length r.items + f.from * f.size ≡ f.count * f.size) × (f.from < f.count))
        × MatchOption f.sole (f.count ≡ 0) (λ s. (s.ptr ≡ f.base) × (0 < f.count)
        × (s.len ≡ f.count * f.size)) };
}

impl<L: Layout> Frame<L> {
    /// A frame over this memory, of which no place was cut.
    pub fn new(room: Room) -> Frame<L>
        requires { room ≡ record { base = L.base; size = L.size; count = L.count } }
        ensures { result ≡ record { given = 0; from = L.count; bytes = [] } }
    {
        let Room {
            mut room,
            size,
            count,
        } = room;
        let base = room.as_mut_ptr();
        let (space, sole) = if count != 0 {
            let (space, sole) = detach(room);
            (Some(space), Some(sole))
        } else {
            (None, None)
        };
        Frame {
            base,
            size,
            count,
            given: 0,
            from: count,
            space,
            filled: None,
            sole,
            of: PhantomData,
        }
    }

    /// Cuts the next place.
    pub fn next_place(&mut self) -> Place<L>
        requires { self.old.given < L.count }
        ensures place { result ≡ record { number = self.old.given; bytes = [] } }
        ensures frame { self.new ≡ record self.old { given = self.old.given + 1 } }
    {
        let space = self.space.take().unwrap();
        let number = self.given;
        // The place lies in the allocation, since `given` is below `count`.
        let at = unsafe { self.base.byte_add(number * self.size) };
        let (here, rest) = cut(space, self.size);
        self.space = Some(rest);
        self.given = number + 1;
        Place::new(number, at, self.size, here)
    }

    /// Joins a place to those behind it. Where it was not filled, it has zeros.
    pub fn put_back(self, place: Place<L>) -> Frame<L>
        requires { place.number + 1 ≡ self.from }
        ensures { result ≡ record self {
          from = place.number;
          bytes = filled_up L.size place.bytes ++ self.bytes;
        } }
    {
        let Frame {
            base,
            size,
            count,
            given,
            from: _,
            space,
            filled,
            sole,
            of,
        } = self;
        let (number, front) = place.into_filled(size);
        let joined = match filled {
            Some(behind) => join(front, behind),
            None => front,
        };
        Frame {
            base,
            size,
            count,
            given,
            from: number,
            space,
            filled: Some(joined),
            sole,
            of,
        }
    }

    /// All places, joined.
    pub fn close(self) -> Joined
        requires { self.from ≡ 0 }
        ensures { result ≡ self.bytes }
    {
        let Frame {
            base,
            size,
            count,
            given: _,
            from: _,
            space: _,
            filled,
            sole,
            of: _,
        } = self;
        match filled {
            Some(filled) => Joined::new(house_filled(base, count * size, filled), sole),
            None => Joined::new(Vec::new(Lodged), sole),
        }
    }
}
