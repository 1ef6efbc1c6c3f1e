#![tactic(auto)]
//! A queue of known uses, the least first, whose entries die late: the entry of a known use that is
//! no more stays until it comes to the front.
//!
//! Promises: in a sound queue each live entry is held and the front is a live one, so the least is
//! looked at, and not sought. Only `reserve` takes memory.
//!
//! The queue is std's `BinaryHeap` of entries (known use, number). A change of a known use adds an
//! entry, and the old one is dead: it leaves when it comes to the front, or when the queue is filled
//! anew from the live ones, which happens where it has no room left. What is live its user tells by a
//! trait (`LiveUses`).

mod front;
mod live;
mod queue;

pub use live::LiveUses;
pub use queue::UseQueue;
