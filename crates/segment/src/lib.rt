#![tactic(auto)]
//! A segment of soft memory and its two sides: its owner locks, unlocks and writes its block, and
//! its warden may purge it while it is idle. Each side may be in a thread of its own, and none
//! waits.
//!
//! Promises: what each call of a side answers, and which steps on the word it makes. A side is its
//! seat, plain copies of what it knows, and for an owner its block while it holds; the invariant ties
//! each field to the seat's view (`IsOwned`, `IsWarded`), so a field that changes without a step breaks
//! it, and a step that is left out breaks the clause. `bytes` is the block itself, and no call copies
//! one: it moves through a hand (`&mut Option<Block>`) between owner, home and warden. Beside its block
//! a segment takes the table's word and home (48 bytes) with their counts, and the two sides of at most
//! 80 and 56 bytes.

mod giving;
mod granter;
mod making;
mod owner;
#[cfg(test)]
mod tests;
mod warden;

pub use giving::GiveUp;
pub use granter::Granter;
pub use making::{Prepared, Unmade, make};
pub use owner::{Lock, OwnerSide, Phase};
pub use warden::{Purge, WardenSide};
