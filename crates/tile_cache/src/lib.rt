#![tactic(auto)]
//! A cache of tiles in soft memory. An entry is a tile and a piece of a client's pages; the entry used
//! last is the first, and the last one leaves where there is no room. A piece whose segment was purged
//! is found at the next get of its tile, which then makes the tile again.
//!
//! Promises: the bytes of the tile that is asked for, kept or made, and by which list of requests the
//! entries and counts stand. A `Cache` is an `LruCache` of `lru` from tiles to pieces, over a `Granted`,
//! with the set of tiles that it has shown. A kept tile costs one lock of the word and one look-up; a
//! made one is made into its piece. Its definitions speak of requests alone (`specs/Recent.antt`: what is
//! a hit, a first, an again); `StandsFor` ties a cache to the list of tiles that it was asked. The
//! maker's meaning is named by each call: the cache was used with no other (`IsUsedWith`), so each
//! entry's piece has the bytes of its tile unless its segment was purged.
//!
//! What was lost and what is kept is bounded by segments (`specs/Bound.antt`): pieces share no page, so
//! those that lay in a segment that is gone are at most as many as fit in its pages. The invariant
//! (`IsSoundCache`) keeps the list of the lost ones' pages; no field does.

mod cache;
mod counts;
mod ending;
mod keeping;

pub use cache::Cache;
pub use counts::{Counts, Shown};
pub use ending::{CacheEnd, Uncached};
