#![tactic(auto)]
//! Request files: which clients ask for which tiles, one request a line.
//!
//! Promises: every text is either a list of requests or has its one refusal, and which it is by
//! definitions that callers cite (`requests_of`, `AreRequests`); the laws hold these to a plain
//! grammar.
//!
//! `read_requests` cuts the text into lines by `line_text`, takes each line that is not skipped as
//! four numbers, and stops at the first refused one, with the causes that `line_text` numbers. A
//! `Requests` is seen as the list of its requests, each a client and a tile.

mod fault;
mod laws;
mod limits;
mod reading;
mod request;

pub use fault::RequestFault;
pub use laws::{law_first_refusal, law_requests_are_spelled};
pub use limits::MOST_REQUESTS;
pub use reading::read_requests;
pub use request::{Request, Requests};

#[cfg(test)]
mod tests;
