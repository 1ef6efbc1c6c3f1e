#![tactic(auto)]
//! The locked pages of a segment. A range of pages is locked where all of it is free, and unlocked
//! where all of it is locked, so that the owner knows when the last lock is gone.
//!
//! Promises: a set of pages. It is seen through the words `is_page_locked`, `page_count` and
//! `locked_count`, so that a page can get a depth under the same contract. Here it is a vector of flags
//! and a count, whose invariant is that the count is the number of set flags. A range costs by its
//! length.

mod locks;
#[cfg(test)]
mod tests;

pub use locks::PageLocks;
