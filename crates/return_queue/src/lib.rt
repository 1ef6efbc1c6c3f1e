#![tactic(auto)]
//! Queues of returned segments: many threads give notes, and one taker takes them in the order in
//! which they were given, each once.
//!
//! Promises: of all notes that passes give there is one order. The taker takes a beginning of it, each
//! note once, and each pass's own notes stand in it as it gave them. What a pass has seen given is
//! taken once the taker took the pass in and then met an empty queue, or took as many notes as the
//! queue holds.
//!
//! `Returns` is the trait. `PlainReturns` holds no note and hands each one back. `RuledReturns` stands
//! on the ruled array queue of `crossbeam_queue`, under the rule in `specs/Rule.antt`. A queue has a
//! name, so that what lies behind a manager's lock can say that its taker is of the manager's queue.

mod note;
mod plain;
mod returns;
mod rule;
mod ruled;
#[cfg(test)]
mod tests;

pub use note::Note;
pub use plain::{PlainPass, PlainReturns, PlainTaker};
pub use returns::Returns;
pub use rule::{Past, View};
pub use ruled::{ReturnPass, ReturnTaker, RuledReturns};
