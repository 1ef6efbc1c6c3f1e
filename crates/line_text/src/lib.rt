#![tactic(auto)]
//! Texts in lines: numbers, bytes in hexadecimal digits, and lines of words.
//!
//! Promises: each word is read as the number, or the bytes, that a definition says it is, and each
//! number has one spelling; each text is cut into the lines that are not skipped, in their order.
//! What scripts and request files share stands here: the causes of a refusal with their numbers, and
//! the bounds of what texts may ask for, each once and by name.
//!
//! `Cut` keeps the words of all lines in one vector, borrowed from the text, and a span of it for
//! each line; its invariant is that each span lies within the words. A reader that keeps no lines
//! goes over a text by `split_line`, `split_kept` and `split_word`.

mod cause;
mod hexadecimal;
mod laws;
mod limits;
mod line;
mod lines;
mod number;

pub use cause::Cause;
pub use hexadecimal::read_hex;
pub use laws::law_one_spelling;
pub use limits::{MOST_CLIENTS, MOST_LIMIT, MOST_MOVED_BYTES, MOST_SEGMENT_PAGES, MOST_TEXT_BYTES};
pub use line::{Cut, Line};
pub use lines::{cut, split_kept, split_line, split_word};
pub use number::read_number;

#[cfg(test)]
mod tests;
