#![tactic(auto)]
//! The units of soft memory: pages, moments, bytes, counts, flags of pages, and the answer for being out of memory.
//!
//! Promises: one home for what every crate counts in. `PAGE`, `MOST_PAGES` and `LAST_MOMENT` stand here
//! once, and each crate cites them in code and in clauses, with the pages that some bytes take. Two
//! loops over flags of pages (`set_all`, `all_are`) serve `machine` and `page_locks`, and one search
//! for a row by its number (`row_search`) serves `span_heap` and `client`. The crate has no event and
//! no history.

ghost use Rattle.std.specs.Prelude.{◌≡◌};
ghost use Rattle.units.specs.Moment.{is_moment};
ghost use Rattle.units.specs.Sizes.{pages_for};

mod bytes;
mod memory;
pub mod pages;
pub mod row_search;

pub use bytes::Bytes;
pub use memory::NoMemory;

/// How many bytes a page has.
pub const PAGE: u64 = 4096;

/// How many pages a segment or a block has at most. They hold 256 MiB.
pub const MOST_PAGES: u32 = 65536;

/// The last moment. A moment is a number from 1 to this one; 0 stands for no moment.
///
/// Twice a moment fits a word of 64 bits.
pub const LAST_MOMENT: u64 = 1 << 62;

// A definition that cites a constant would follow a wrong one, so each is held to its number.
const _: () = prove!(PAGE == 4096);

const _: () = prove!(MOST_PAGES == 65_536);

const _: () = prove!(LAST_MOMENT == 4_611_686_018_427_387_904);

/// Whether a number is a moment.
pub fn is_moment(at: u64) -> bool
    ensures { result ≡ is_moment at }
{
    (1..=LAST_MOMENT).contains(&at)
}

/// How many pages so many bytes take, at least one.
pub fn pages_for(bytes: u64) -> u64
    ensures { result ≡ pages_for bytes }
{
    bytes.div_ceil(PAGE).max(1)
}
