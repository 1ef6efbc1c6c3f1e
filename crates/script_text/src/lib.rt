#![tactic(auto)]
//! Scripts: lists of commands, one a line.
//!
//! Promises: every text is either a script or has its one refusal, and which it is by definitions
//! that callers cite (`script_of`, `IsScript`, `IsRefused`); the laws hold these to a plain grammar.
//!
//! `read_script` goes over the text once, line by line, keeps no list of lines or words, takes
//! memory for the vector of commands and the bytes of each `write` alone, and stops at the first
//! refused line. A `Script` is seen as the list of its commands, each with the number of its line; a
//! `Command` is plain data whose variants clauses match on. A new command is one variant, one row (a
//! function of the words after the name), one line where commands are told apart, and the same three
//! in `specs/Script.antt`.

mod command;
mod fault;
mod laws;
mod limits;
mod rows;
mod script;

pub use command::Command;
pub use fault::ScriptFault;
pub use laws::{law_first_refusal, law_in_range, law_lines_rise, law_scripts_are_spelled};
pub use limits::{MOST_COMMANDS, MOST_GRANTS};
pub use script::{Script, read_script};

#[cfg(test)]
mod tests;
