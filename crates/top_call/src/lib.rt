#![tactic(auto)]
//! The top call: a run of the program by its words, on the objects that it is handed.
//!
//! Promises: how a run ends is told by its status, by what it hands on, and by what the objects tell before it and after
//! it. Each fault has its cause in an object, and what is written on the output is what the words, the file and the input
//! ask for.
//!
//! How it ends is one record (`ProgramEnds`), which the inner functions cite too; what a run is handed is one struct
//! (`Devices`). The line of a status is made in an array of 64 bytes, so a run that is out of memory can be told.

mod devices;
mod image_file;
mod report;
mod served_run;
mod tile_run;
mod top;

pub use report::tell;
pub use top::{Ended, Run, discard};
