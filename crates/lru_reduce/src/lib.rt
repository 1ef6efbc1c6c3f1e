#![tactic(auto)]
//! The live segments of a manager in the order of their known use, and their reduction to a limit of pages.
//!
//! Promises: a reduction is that of its definition, step by step on real wardens, with its purges in
//! the book and its blocks in the pool. After it the granted pages are within the limit, or each
//! segment that is left was found used at or after its moment.
//!
//! `Slots` has a slot for each number, by rising number; a number that is let go leaves its slot empty.
//! It is found at once where numbers rise by one, and else by halves. `Slots` and the queue of known
//! uses have two places for each live warden and each spare place, so that only `reserve` takes memory.

mod order;
mod reduction;
mod slots;
mod spot;

pub use order::Order;
pub use reduction::Reduced;
