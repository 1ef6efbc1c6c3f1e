//! The real outside: std's readers, writers, files and clock, of which no contract knows what they give.

pub(crate) mod clock;
pub(crate) mod files;
pub(crate) mod sink;
pub(crate) mod source;
