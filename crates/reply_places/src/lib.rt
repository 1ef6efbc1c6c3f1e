#![tactic(auto)]
//! One allocation that is cut into places of one length. Each place has one holder, who may be in
//! another thread, and is filled from its front. Last the places are joined again.
//!
//! Promises: the bytes of all places, in the order of their numbers, in the one allocation that was
//! taken for them. Each byte is written once, by who holds its place, and none is set to zero first; a
//! place that was not filled has zeros.
//!
//! `Room` is memory. `Frame` cuts it into places, from the first to the last, and joins them, from the
//! last to the first. A `Place` is a vector that lies in the frame's allocation, and `Joined` shows the
//! bytes and frees them. At each moment each byte has one owner: who holds its place, or the frame. What
//! is owned is a ghost (`Space` for room, `Filled` for bytes), and each step between them is a function
//! of its own over raw memory (`block.rt`); these few are all of the repository's proofs about pointers.
//! A frame cannot be dropped, so no code can forget to join; a place that is dropped leaks.

mod block;
mod copies;
mod frame;
mod joined;
mod place;
#[cfg(test)]
mod tests;

pub use frame::{Frame, Room};
pub use joined::Joined;
pub use place::{Layout, Place};
