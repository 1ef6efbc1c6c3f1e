#![tactic(auto)]
//! What a served run is made of beside its threads: its settings, the replies and the report.
//!
//! Promises: the texts of a served run. `ServeCfg` has the settings with their ranges
//! (`IsServeCfg`); `Replies` the bytes of all replies, which a run is to make as
//! `reply_to image side requests`; a `Tally` what one client asked and what came of it.
//! `report_bytes` makes the report from a book, tallies and the granted pages: the book's text, a
//! line for each client, and the line of the granted pages (`report`).

mod config;
mod limits;
mod replies;
mod report;
mod tally;

pub use config::ServeCfg;
pub use limits::{MOST_ENTRIES, MOST_KEPT, MOST_ROUNDS};
pub use replies::Replies;
pub use report::report_bytes;
pub use tally::Tally;

#[cfg(test)]
mod tests;
