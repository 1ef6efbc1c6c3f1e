ghost use Rattle.std.specs.Prelude.{◌≡◌, ◌≤◌, ◌+◌, IfOk, OnOk, OnErr, take, drop, length};
ghost use Rattle.std.specs.Borrow.{sem};
ghost use Rattle.block_pool.specs.Block.{page_count, IsBlock, IsZero};
ghost use Rattle.units.specs.Count.{next_count};
ghost use Rattle.units.specs.declared.TheConstants.{MOST_PAGES};

use std::alloc::Global;
use std::fmt;
use std::marker::Model;
use units::{NoMemory, PAGE};

/// Some pages of memory, 1 to 65,536 of them, seen by contracts as the list of their bytes. It
/// cannot be copied, and only a pool makes one, so whoever has it is its one holder.
#[derive(Drop)]
pub struct Block {
    bytes: Vec<u8>,
    pages: u32,
}

impl Model for Block {
    ghost use Rattle.std.specs.Prelude.{◌≡◌, ◌*◌, ◌≤◌, ℕ, List, vec_len};
    ghost use Rattle.units.specs.declared.TheConstants.{PAGE, MOST_PAGES};

    ghost Value = { List ℕ };

    ghost view = { λ b. b.bytes.items };

    ghost invariant = { λ b. (vec_len b.bytes ≡ PAGE * b.pages)
        × (1 ≤ b.pages) × (b.pages ≤ MOST_PAGES) };
}

/// Shows the pages, and not the bytes.
impl fmt::Debug for Block {
    fn fmt<W: fmt::Write>(&self, f: &mut fmt::Formatter<W>) -> fmt::Result {
        f.debug_struct("Block")
            .field("pages", &self.pages)
            .finish_non_exhaustive()
    }
}

impl Block {
    ghost use Rattle.block_pool.specs.Lending.{LendsBytes, LendsPart};

    /// How many pages it has.
    pub fn pages(&self) -> u32
        ensures value { result ≡ page_count self.now }
        ensures block { IsBlock self.now }
    {
        self.pages
    }

    /// Its bytes, 4,096 of them in each page.
    pub fn bytes(&self) -> &[u8]
        ensures value { result.now ≡ self.now }
        ensures block { IsBlock self.now }
    {
        self.bytes.as_slice()
    }

    /// Its bytes, to be written. It keeps its pages.
    pub fn bytes_mut(&mut self) -> &mut [u8]
        ensures* writes_back { sem 𝓛 (LendsBytes self.entry result) }
        ensures value { result.now ≡ self.old }
        ensures block { IsBlock self.old }
    {
        self.bytes.as_mut_slice()
    }

    /// A part of its bytes, `count` of them from a place on, to be written.
    pub fn part_mut(&mut self, place: usize, count: usize) -> &mut [u8]
        requires inside { place + count ≤ length self.old }
        ensures* writes_back { sem 𝓛 (LendsPart self.entry place result) }
        ensures value { result.now ≡ take count (drop place self.old) }
        ensures block { IsBlock self.old }
    {
        self.bytes.slice_mut(place..place + count)
    }

    /// Makes all its bytes zero.
    pub(crate) fn wipe(&mut self)
        ensures { IsZero (page_count self.old) self.new }
    {
        self.bytes.fill(0);
    }
}

/// Makes blocks and counts them. A pool has one for its life, and nothing else makes a block.
#[derive(Debug, Drop)]
pub(crate) struct Maker {
    made: u64,
}

impl Model for Maker {
    ghost use Rattle.std.specs.Prelude.{ℕ};

    ghost Value = { ℕ };

    ghost view = { λ m. m.made };
}

impl Maker {
    /// One that has made no block.
    pub(crate) fn new() -> Maker
        ensures { result ≡ 0 }
    {
        Maker { made: 0 }
    }

    /// How many blocks it made, or the last value of u64 once it made more.
    pub(crate) fn made(&self) -> u64
        ensures { result ≡ self.now }
    {
        self.made
    }

    /// A new block of `pages` pages, all bytes zero, counted.
    pub(crate) fn make(&mut self, alloc: Global, pages: u32) -> Result<Block, NoMemory>
        requires least { 1 ≤ pages }
        requires most { pages ≤ MOST_PAGES }
        ensures bytes { IfOk result (IsZero pages) }
        ensures counted { OnOk result (self.new ≡ next_count self.old) }
        ensures same { OnErr result (self.new ≡ self.old) }
    {
        let block = Block {
            bytes: vec![in alloc; 0; PAGE as usize * pages as usize]?,
            pages,
        };
        self.made = self.made.saturating_add(1);
        Ok(block)
    }
}
