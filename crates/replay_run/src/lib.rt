#![tactic(auto)]
//! Replays a script twice, on plain segments and on real ones, and compares the records of each
//! command. The replies of the plain run are what is written.
//!
//! Promises: one fact over settings, answer and devices (`Ends`), which the top call cites. It tells the
//! replay text of the script that was read, how the run ended, and what the two runs came to.

mod both;
mod differ;
mod records;
mod replaying;

pub use differ::Differ;
pub use manager_state::State;
pub use replay_plain::ReplayCfg;
pub use replaying::{Replayed, replay};
