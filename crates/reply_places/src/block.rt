// A block of memory that is cut into parts with owners of their own. What takes no memory here is ghost state.
ghost use Rattle.std.specs.Prelude.{◌≡◌, ℕ, ◌+◌, ◌-◌, ◌^◌, ◌<◌, ◌≤◌, List, [], ◌++◌, length};
ghost use base.Fml.{ftrue, fex, fwand, fsep, feq};
ghost use denote.RawPtr.{Ptr, ◌+ₚ◌};
ghost use Rattle.reply_places.specs.Ownership.{Extent, extent_code, IsPlaced, filled_owns, space_owns};

use std::alloc::Allocator;
use std::marker::{Model, Move, Owns};
use std_alloc::vec::{Lodged, lodge};

// Room for `len` bytes at `ptr`, which nothing else can reach.
#[derive(Drop)]
pub(crate) struct Space {
    ghost ptr: { Ptr },
    ghost len: { ℕ },
}

impl Model for Space {
    ghost also_owns = { λ s. space_owns s.ptr s.len };
}

// The bytes at `ptr`, which nothing else can reach.
pub(crate) struct Filled {
    ghost ptr: { Ptr },
    ghost items: { List ℕ },
}

impl Model for Filled {
    ghost also_owns = { λ r. filled_owns r.ptr r.items };
}

// An empty `Vec` whose room is out as a `Space`.
pub(crate) struct Sole<A: Allocator> {
    vec: Vec<u8, A>,
}

impl<A: Allocator> Owns for Sole<A> {
    ghost Value = { Extent };

    ghost coded = { extent_code };

    ghost shr_at = { λ _ _ _. ftrue };
}

impl<A: Allocator> Move for Sole<A> {
    ghost own_val = { λ e vs. fex Inside (λ v. fsep (feq ℕ v.vec.len 0) (fwand (space_owns e.ptr e.len) (Fields.own_val v vs))) };
}

pub(crate) fn detach<A: Allocator>(vec: Vec<u8, A>) -> (Space, Sole<A>)
    requires { (vec.len ≡ 0) × (0 < vec.cap) }
    ensures { (result.0.ptr ≡ vec.ptr) × (result.0.len ≡ vec.cap) × (result.1.ptr ≡ vec.ptr)
        × (result.1.len ≡ vec.cap) × IsPlaced vec.ptr }
{
    (Space {}, Sole { vec })
}

pub(crate) fn attach<A: Allocator>(space: Space, sole: Sole<A>) -> Vec<u8, A>
    requires { (space.ptr ≡ sole.ptr) × (space.len ≡ sole.len) }
    ensures { result.len ≡ 0 }
{
    let Space {} = space;
    let Sole { vec } = sole;
    vec
}

// Two spaces side by side.
pub(crate) fn cut(space: Space, mid: usize) -> (Space, Space)
    requires { mid ≤ space.len }
    ensures { (result.0.ptr ≡ space.ptr) × (result.0.len ≡ mid)
        × (result.1.ptr ≡ space.ptr +ₚ mid) × (result.1.len ≡ space.len - mid) }
{
    let Space {} = space;
    (Space {}, Space {})
}

// An empty `Vec` over the space, which neither grows nor frees it.
pub(crate) fn house(ptr: *mut u8, cap: usize, space: Space) -> Vec<u8, Lodged>
    requires { (space.ptr ≡ ptr) × (space.len ≡ cap) × (0 < cap) × (cap < 2 ^ 63) }
    ensures { (result.items ≡ []) × (result.len ≡ 0) × (result.cap ≡ cap) × (result.ptr ≡ ptr) }
{
    let Space {} = space;
    unsafe { lodge(ptr, 0, cap) }
}

// The bytes of a `Vec` in another's block. Room that it did not fill is lost.
pub(crate) fn vacate(vec: Vec<u8, Lodged>) -> Filled
    requires { 0 < vec.len }
    ensures { (result.ptr ≡ vec.ptr) × (result.items ≡ vec.items) }
{
    let _len = vec.dislodge();
    Filled {}
}

// Filled parts that lie side by side are one.
pub(crate) fn join(front: Filled, back: Filled) -> Filled
    requires { back.ptr ≡ front.ptr +ₚ length front.items }
    ensures { (result.ptr ≡ front.ptr) × (result.items ≡ front.items ++ back.items) }
{
    let Filled {} = front;
    let Filled {} = back;
    Filled {}
}

// A `Vec` over the filled bytes, which neither grows nor frees it.
pub(crate) fn house_filled(ptr: *mut u8, len: usize, filled: Filled) -> Vec<u8, Lodged>
    requires { (filled.ptr ≡ ptr) × (length filled.items ≡ len) × (0 < len) × (len < 2 ^ 63) }
    ensures { (result.items ≡ filled.items) × (result.len ≡ len) × (result.cap ≡ len)
        × (result.ptr ≡ ptr) }
{
    let Filled {} = filled;
    unsafe { lodge(ptr, len, len) }
}

// The bytes are forgotten.
pub(crate) fn empty(filled: Filled) -> Space
    ensures { (result.ptr ≡ filled.ptr) × (result.len ≡ length filled.items) }
{
    let Filled {} = filled;
    Space {}
}
