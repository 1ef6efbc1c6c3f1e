ghost use Rattle.std.specs.Prelude.{◌≡◌, ℕ, ◌+◌, ◌*◌, ◌^◌, ◌<◌, ◌≤◌, [], ◌++◌, length, vec_len, vec_capacity};
ghost use denote.RawPtr.{Ptr, null_ptr, ◌+ₚ◌};
ghost use Rattle.reply_places.specs.Framed.{filled_up};

use crate::block::{Filled, Space, house, vacate};
use std::marker::{Brand, Model, PhantomData};
use std::mem;
use std_alloc::vec::Lodged;

/// Where the places of a frame lie, how long each is, and how many there are.
pub trait Layout {
    ghost base: { Ptr };

    ghost size: { ℕ };

    ghost count: { ℕ };
}

impl Layout for Brand {
    ghost base = { null_ptr };

    ghost size = { 0 };

    ghost count = { 0 };
}

/// A place of a frame. It is seen by contracts as its number, counted from 0, and the bytes that were
/// appended to it, which are at most as many as a place has.
#[derive(Drop)]
pub struct Place<L: Layout> {
    number: usize,
    buf: Vec<u8, Lodged>,
    of: PhantomData<L>,
}

impl<L: Layout> Model for Place<L> {
    ghost use Rattle.std.specs.Prelude.{◌≡◌, ◌*◌};
    ghost use denote.RawPtr.{◌+ₚ◌};
    ghost use Rattle.reply_places.specs.Framed.{Placed};

    ghost Value = { Placed };

    ghost view = { λ p. record { number = p.number; bytes = p.buf.items } };

    // It lies where its number says, and has room for the length of a place.
    ghost invariant = { λ p. (p.buf.ptr ≡ L.base +ₚ p.number * L.size) × (p.buf.cap ≡ L.size) };
}

impl<L: Layout> Place<L> {
    /// A place with no byte, over its part of the room.
    pub(crate) fn new(number: usize, at: *mut u8, size: usize, space: Space) -> Place<L>
        requires at { (space.ptr ≡ at) × (at ≡ L.base +ₚ number * L.size) }
        requires size { (space.len ≡ size) × (size ≡ L.size) × (0 < size) × (size < 2 ^ 63) }
        ensures { result ≡ record { number = number; bytes = [] } }
    {
        Place {
            number,
            buf: house(at, size, space),
            of: PhantomData,
        }
    }

    /// Its number, counted from 0.
    pub fn number(&self) -> usize
        ensures { result ≡ self.now.number }
    {
        self.number
    }

    /// Appends bytes, for which it has room.
    pub fn append(&mut self, bytes: &[u8])
        requires { length self.old.bytes + length bytes.now ≤ L.size }
        ensures { self.new ≡ record self.old { bytes = self.old.bytes ++ bytes.now } }
    {
        let room = mem::replace(&mut self.buf, Vec::new(Lodged));
        self.buf = appended(room, bytes);
    }

    /// The number and all bytes, with zeros behind them where they do not fill the place.
    pub(crate) fn into_filled(self, size: usize) -> (usize, Filled)
        requires { (size ≡ L.size) × (0 < size) }
        ensures number { result.0 ≡ self.number }
        ensures filled { (result.1.ptr ≡ L.base +ₚ self.number * L.size)
            × (result.1.items ≡ filled_up L.size self.bytes) }
        ensures long { length result.1.items ≡ L.size }
    {
        let Place { number, buf, .. } = self;
        (number, vacate(completed(buf, size)))
    }
}

/// Appends bytes. By value, so that the loop is a copy of a block.
fn appended(mut buf: Vec<u8, Lodged>, bytes: &[u8]) -> Vec<u8, Lodged>
    requires { vec_len buf + length bytes.now ≤ vec_capacity buf }
    ensures items { result.items ≡ buf.items ++ bytes.now }
    ensures in_place { (result.ptr ≡ buf.ptr) × (result.cap ≡ buf.cap) }
{
    for byte in bytes {
        buf.push_reserved(*byte);
    }
    buf
}

/// Appends zeros up to a length.
fn completed(mut buf: Vec<u8, Lodged>, size: usize) -> Vec<u8, Lodged>
    requires { vec_capacity buf ≡ size }
    ensures items { result.items ≡ filled_up size buf.items }
    ensures len { vec_len result ≡ size }
    ensures in_place { (result.ptr ≡ buf.ptr) × (result.cap ≡ buf.cap) }
{
    for _ in buf.len()..size {
        buf.push_reserved(0);
    }
    buf
}
