#![tactic(auto)]
//! The word of a segment, the rule that a segment keeps between any two steps of its owner and its
//! warden, and the two seats that make these steps.
//!
//! Promises: for every interleaving of the two sides' steps the rule holds, and each step is an event
//! of the machine (`laws`).
//!
//! The word and the home of the block stand in a table of `atomic_table`, which keeps one rule
//! (`IsRuled`) between any two steps. A kind of step is one relation over the segment before and after
//! (`specs/Kinds.antt`), which both the moves and the laws cite. `OwnerSeat` and `WardenSeat` are the
//! two places at the table; each call makes at most one exchange or load, takes no memory and waits
//! for nobody. Only `segment` uses this crate.
//!
//! Why one word is enough. The word alone tells whether the segment is held, and since when it is
//! idle. Only the owner leaves 1, so a purge, which changes no 1, cannot hit a held segment. Only the
//! warden writes 0, so an owner that expects its own last word and finds another knows that the segment
//! is gone. Each exchange compares and changes in one step, so no lock, no flag and no second word is
//! needed, and the block moves with the word: whoever changed it has the place at home.
//!
//! Views are ghosts: an owner's has its last stamp, the bytes left and the count of its steps; a
//! warden's has its tries. The count refuses a look that makes no load and a call of two steps. That
//! the block is in the owner's hand while it holds is the invariant of `segment`'s side.

pub mod laws;
mod rule;
mod seats;
mod steps;
mod view;
mod word_steps;
mod words;

pub use seats::{OwnerSeat, WardenSeat, make};
pub use words::{State, locked, purged, read_word, unlocked};
