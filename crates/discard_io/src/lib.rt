#![tactic(auto)]
//! The outside of a run: where bytes come from and go to, files by name, the clock, the gate between threads,
//! and the status that a run ends with.
//!
//! Promises: bytes where told, and faults only where a count rose.
//!
//! A run is written over the traits alone. It sees each object through ghost members: the bytes left, written or under a
//! name, and how many calls were made, each None where the object does not tell it; and a count of faults that never
//! falls. `Failed` comes only where that count rose, and code that is generic over the trait cannot raise it, so a run
//! that gives up by itself is refused by its own contract. A count that stands at the greatest u64 counts as risen.
//!
//! Objects in memory tell everything, each with its state as one record. The adapters over std tell nothing of bytes and
//! calls, and count their errors. `read_to_end` reads into one buffer of at most 64 KiB, copies each byte once, and never
//! asks for bytes after the first `most + 1`; what it took is told also where it fails (`ReadsToEnd`).

mod clock;
mod files;
mod gate;
mod memory;
mod never;
mod reading;
mod real;
mod sink;
mod source;
mod status;
#[cfg(test)]
mod tests;
mod writing;

pub use clock::{Clock, CountClock};
pub use files::{FileFault, Files};
pub use gate::{Gate, MeetGate, OpenGate};
pub use memory::files::MemFiles;
pub use memory::sink::MemSink;
pub use memory::source::MemSource;
pub use never::{NeverFiles, NeverSink, NeverSource};
pub use reading::{ReadEnd, read_to_end};
pub use real::clock::SystemClock;
pub use real::files::DirFiles;
pub use real::sink::StdSink;
pub use real::source::StdSource;
pub use sink::Sink;
pub use source::Source;
pub use status::{Failed, Status};
pub use writing::write_all;
