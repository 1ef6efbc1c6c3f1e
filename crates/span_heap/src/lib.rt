#![tactic(auto)]
//! Spans of pages in segments. A heap cuts the segments that it was given into used spans and free
//! runs, looks for a free run by its length, and joins what is freed with what lies beside it.
//!
//! Promises: each call is a step of three lists (segments, used spans, free runs with the oldest
//! first), which run a search picks, and the partition, which holds at every moment. What each call
//! does is one record of `specs/Changes.antt`, and no clause names a vector. Used spans are compared
//! as permutations; the free runs have an order, and each clause on them is an equation of lists.
//!
//! A `Heap` is a `PageTable` and two counts of pages; its invariant (`IsSoundHeap`) is the partition
//! and the counts, and speaks of no index. In the table each page has a place, and by place it keeps
//! the free run that begins or ends there and the used span that begins there. `PlacedRuns` has each
//! run under its place, the free ones in lists by length and by age. A segment's row has its places
//! and how many of its pages are used; it is found by `units::row_search`. The row of a dropped
//! segment stands on without a page, so that no other moves, until there are more such rows than
//! others.

mod by_class;
mod heap;
mod placed;
mod row;
mod run;
mod span;
mod table;

pub use heap::Heap;
pub use run::{Run, Runs};
pub use span::Span;

#[cfg(test)]
mod tests;
