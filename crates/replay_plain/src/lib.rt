#![tactic(auto)]
//! Runs the commands of a script on plain segments and the heaps of its clients: the reply to each, and
//! the book that they make.
//!
//! Promises: the replies and the book are what the script means. The state of a replay is one record
//! (`ReplayState`: the events so far, the limit, the entries of the book, each client's heap), with one
//! reply and one step for each command (`reply_of`, `state_after`).
//!
//! `PlainRun` keeps the plain segments, what is known of each number (`KnownSegments`, with a queue of
//! the known uses of the live ones), the limit and the entries, and stands for such a state.

mod config;
mod known;
mod laws;
mod pieces;
mod reducing;
mod reply;
mod rows;
mod run;
mod segment;
mod steps;

pub use config::ReplayCfg;
pub use laws::{law_reductions_end, law_searches_end};
pub use pieces::pages_for;
pub use reply::{
    push_answer, push_back_answer, push_freed, push_granted, push_hex, push_piece, push_reduced,
    push_released, push_removed, push_runs, push_swept,
};
pub use run::PlainRun;
