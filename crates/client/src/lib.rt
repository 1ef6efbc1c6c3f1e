#![tactic(auto)]
//! A client of soft memory: pieces of pages in the segments that it was granted. It looks for free
//! pages, locks and unlocks its pieces, and finds out which of its segments were purged. Over what
//! grants segments it asks for new ones and gives them back.
//!
//! Promises: pieces that never share a page, and whose loss is always found by a step of a segment's
//! own side. Their bytes are lent to be read and to be written. A `Client` has its segments in the
//! order in which they came, each an owner's side with its locked pages, a `Heap` of their spans, and
//! the sides that it found gone. A piece is a used span of one of its segments, locked or not, or
//! dead, its segment being known to be gone. Each call says what it does by one record of
//! `specs/Calls.antt` or `specs/Finding.antt`, and that all other pieces stay. The invariant
//! (`IsSoundClient`): the heap's segments are the client's, a side holds exactly while one of its
//! pages is locked, and the locked pages are whole used spans.
//!
//! `Granted` is a client with a granter: `allocate` looks among the free runs, then for purged
//! segments, and then asks for a new segment. It closes by giving back every segment, as many as were
//! granted; the granter that it hands back counts what it counted at the start and these grants.

mod answers;
mod client;
mod coming;
mod ending;
mod gone;
mod granted;
mod lease;
mod piece;
mod returning;
mod sizes;
mod steps;
mod table;

pub use answers::{Unadopted, Unlocked};
pub use client::Client;
pub use ending::{ClientEnd, Sides};
pub use granted::{ClientFault, Granted};
pub use piece::Piece;
pub use sizes::wanted;
