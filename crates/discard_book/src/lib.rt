#![tactic(auto)]
//! The book of a manager of soft memory: what it granted, reduced, purged and got back, in order,
//! and never in an order that breaks its rules.
//!
//! Promises: it is legal, `granted` is the sum over its live segments, and `add` and `fits` cost the
//! same however long it is.
//!
//! It is seen as a `Log`: its entries, and its spare places. It keeps the entries in a vector, a table of
//! the live segments' pages by number (0 where not live), their sum, and the count of spare places. The
//! numbers of grants are 1, 2, 3, .., so the table is a vector. The invariant (`Keeps`): the entries are
//! legal, the table is what the entries say, it has as many numbers as there are grants, and both
//! vectors have room for the spare places, so that `add` takes no memory.

mod book;
mod entry;
mod segments;
#[cfg(test)]
mod tests;
mod text;

pub use book::Book;
pub use entry::Entry;
pub use text::book_text;
