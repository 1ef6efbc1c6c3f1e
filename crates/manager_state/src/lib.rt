#![tactic(auto)]
//! The state of a manager of soft memory: it grants segments within a limit of pages, purges those that
//! were least recently used, takes them back, and keeps a book of all of it.
//!
//! Promises: each call of a state adds exactly its entries to one legal book, and the live segments of
//! the book are those of the wardens. `back`, `try_one` and `remove_client` take no memory.
//!
//! `State` is the limit and a `Keeper`. The keeper has the book, the order of known uses, the pool, a
//! table by number of whose each segment is, and the numbers of live segments by client. Two facts tie
//! them (`specs/Keeping.antt`): the book's live segments are those of the order, the table tells whose
//! each is, and each has a spare place of the book for its Purge or Back, which its grant took
//! (`Agrees`); and its number stands with its client (`KeepsLive`). So `back` finds its client in the
//! table at once, and `remove_client` costs by the client's live segments. A grant is three steps: all
//! growths, then room, then the block, the segment and the entry.

mod answers;
mod keeper;
mod numbers;
mod state;

pub use answers::{Back, Level, Tried};
pub use state::State;
