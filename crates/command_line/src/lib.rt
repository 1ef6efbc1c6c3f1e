#![tactic(auto)]
//! The words of the command line: what they ask for, where they are lawful.
//!
//! Promises: what the words of the command line ask for, exactly by the grammar (`order_of` in
//! `specs/Commands.antt`), with each number in its range.
//!
//! The first word chooses the command by a comparison; the words after it go to one simple command of
//! `clap`: one argument that takes all positional words, and the command's options. The table of
//! options is `specs/Settings.antt`, with the same table in `src/setting.rt`; each value is taken as
//! text and read by `line_text`. That `clap` reads every list of words as the grammar does is proved
//! once for any list of option names, by one induction over the words with two states: between words,
//! and waiting for a value.

mod clap_words;
mod order;
mod orders;
mod setting;

pub use order::Order;
pub use orders::order_of;

#[cfg(test)]
mod tests;
