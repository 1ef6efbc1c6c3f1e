#![tactic(auto)]
//! Blocks of memory, and a pool that keeps them wiped for the next one who asks.
//!
//! Promises: each block is taken all zero, has one holder, and shows nothing of a former content.
//!
//! A block is seen as its bytes, and a pool as a record `Stock`: the pages of each kept block, the oldest first, the bound,
//! and the count of blocks made. A `Block` is a vector and the number of its pages, so that a search reads the lengths
//! alone and never the memory. A `Pool` is a `VecDeque` with room for the bound, so `put` cannot fail. The invariant: all
//! kept blocks are wiped, and they are no more than the bound. `take` goes through the lengths from the oldest on; where
//! all have one length, it takes the front and moves nothing. A block is wiped once, when it is put, and only where it is
//! kept.

mod block;
mod pool;
#[cfg(test)]
mod tests;

pub use block::Block;
pub use pool::Pool;
