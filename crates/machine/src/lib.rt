#![tactic(auto)]
//! What may happen to segments, what is answered, and segments that answer by it.
//!
//! Promises: the answer of each event after any list of events, the bytes of held pages, and laws of histories (`laws`).
//!
//! A history is the list of events with their answers, the latest first. Each concept (held, stamp, gone, left bytes,
//! known use, granted, ended) is one definition by cases on the latest entry (`specs/History.antt`), and the answer of the
//! next event is a definition over them (`specs/Answers.antt`). The words without a suffix (`held`, `stamp`, `answer`, ..)
//! are about a list of events, the oldest first.
//!
//! `PlainSegments` keeps a map from numbers to segments as they are now, and no event. It is seen as the list of numbers
//! with what is kept of each (`KeptSegment`); `StandsFor segments events` ties the two, and each step goes on by one
//! event, so callers keep the list in their own definitions. An event finds its segment in logarithmic time, and costs by
//! its range.
//!
//! The state of a segment as one word (`specs/Word.antt`) and the reduction of many segments to a limit
//! (`specs/Reduction.antt`) are definitions for the crates above; over histories a reduction lets owners lock, unlock and
//! write between its tries.

mod event;
mod laws;
mod plain;
mod segment;
#[cfg(test)]
mod tests;

pub use event::{Answer, Event};
pub use laws::{
    law_counted_once, law_gone_stays, law_left_stays, law_misuse_changes_nothing,
    law_reduction_ends, law_stamp_rises, law_taken_free, law_unknown_before_grant,
};
pub use plain::PlainSegments;
pub use units::{Bytes, LAST_MOMENT, MOST_PAGES, NoMemory, PAGE};
