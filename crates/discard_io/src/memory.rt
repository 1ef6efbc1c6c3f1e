//! A source, a sink and files in memory, for tests, which fail at chosen calls.

pub(crate) mod calls;
pub(crate) mod files;
pub(crate) mod remaining;
pub(crate) mod sink;
pub(crate) mod source;
