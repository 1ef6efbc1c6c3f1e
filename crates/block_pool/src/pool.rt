ghost use Rattle.std.specs.Prelude.{◌≡◌, ◌≤◌, ◌==◌, false, [], length, position, is_some, IsOk, IfOk, IfSome, IfNone, OnOk, OnErr, OnSome};
ghost use Rattle.units.specs.declared.TheConstants.{MOST_PAGES};
ghost use Rattle.block_pool.specs.Block.{page_count, IsZero};
ghost use Rattle.block_pool.specs.Stock.{is_kept, no_blocks, without_block, after_take, after_put};

use crate::block::{Block, Maker};
use std::alloc::Global;
use std::collections::VecDeque;
use std::marker::Model;
use units::NoMemory;

/// Blocks that nobody else has, all of them wiped, for the next who asks. It keeps at most as many
/// as it was made for, and counts the blocks that it made and the pages that were put.
#[derive(Debug, Drop)]
pub struct Pool {
    /// The oldest first.
    kept: VecDeque<Block>,
    keep: u32,
    maker: Maker,
    pages_put: u64,
}

impl Model for Pool {
    ghost use Rattle.std.specs.Prelude.{◌<◌, ◌≤◌, ◌^◌, All, map};
    ghost use Rattle.std.specs.VecDeque.{deque_len, deque_capacity};
    ghost use Rattle.block_pool.specs.Block.{page_count, IsWiped};
    ghost use Rattle.block_pool.specs.Stock.{Stock};

    ghost Value = { Stock };

    ghost view = { λ p. record {
      kept = map page_count p.kept.items;
      keep = p.keep;
      made = p.maker;
      pages_put = p.pages_put;
    } };

    // Every kept block is wiped, and there is room for as many as may be kept.
    ghost invariant = { λ p. All IsWiped p.kept.items
        × (deque_len p.kept ≤ p.keep) × (p.keep ≤ deque_capacity p.kept) × (p.keep < 2 ^ 32) };
}

/// Where the oldest of these blocks with `pages` pages stands.
fn oldest(kept: &VecDeque<Block>, pages: u32) -> Option<usize>
    ensures { result ≡ position (λ bytes. page_count bytes == pages) kept.now.items }
{
    kept.iter().position(|block| block.pages() == pages)
}

impl Pool {
    /// An empty pool with room for `keep` blocks. One that keeps none takes no memory.
    pub fn new(alloc: Global, keep: u32) -> Result<Pool, NoMemory>
        ensures empty { IfOk result (λ pool. pool ≡ no_blocks keep) }
        ensures no_room { keep ≡ 0 → IsOk result }
    {
        Ok(Pool {
            kept: VecDeque::with_capacity(alloc, keep as usize)?,
            keep,
            maker: Maker::new(),
            pages_put: 0,
        })
    }

    /// How many blocks it keeps.
    pub fn kept(&self) -> u32
        ensures value { result ≡ length self.now.kept }
        ensures within { length self.now.kept ≤ self.now.keep }
    {
        self.kept.len() as u32
    }

    /// How many blocks it made, or the last value of u64 once it made more.
    pub fn made(&self) -> u64
        ensures { result ≡ self.now.made }
    {
        self.maker.made()
    }

    /// How many pages the blocks had that were put, kept or not, or the last value of u64 once they had
    /// more. A block that is let go in place of being put is missing here, whether the pool is full or not.
    pub fn pages_put(&self) -> u64
        ensures { result ≡ self.now.pages_put }
    {
        self.pages_put
    }

    /// Whether it keeps a block of `pages` pages, so that `take` would make none.
    pub fn keeps(&self, pages: u32) -> bool
        ensures { result ≡ is_kept pages self.now.kept }
    {
        oldest(&self.kept, pages).is_some()
    }

    /// A block of 1 to 65,536 pages, all bytes zero: the oldest kept one of that length, or a new
    /// one where none is kept. Only then may it be out of memory, and the pool stays as it was.
    pub fn take(&mut self, alloc: Global, pages: u32) -> Result<Block, NoMemory>
        requires least { 1 ≤ pages }
        requires most { pages ≤ MOST_PAGES }
        ensures bytes { IfOk result (IsZero pages) }
        ensures pages { IfOk result (λ block. page_count block ≡ pages) }
        ensures after { OnOk result (self.new ≡ after_take pages self.old) }
        ensures none_kept { OnErr result (is_kept pages self.old.kept ≡ false) }
        ensures same { OnErr result (self.new ≡ self.old) }
    {
        match self.take_oldest(pages) {
            Some(block) => Ok(block),
            None => self.maker.make(alloc, pages),
        }
    }

    /// The oldest kept block of `pages` pages, taken out of the pool.
    fn take_oldest(&mut self, pages: u32) -> Option<Block>
        ensures bytes { IfSome result (IsZero pages) }
        ensures found { is_some result ≡ is_kept pages self.old.kept }
        ensures after { OnSome result (self.new ≡ without_block pages self.old) }
        ensures same { IfNone result (self.new ≡ self.old) }
    {
        let place = oldest(&self.kept, pages)?;
        self.kept.remove(place)
    }

    /// Counts a block's pages, wipes it and keeps it last, where fewer than `keep` are kept. Else it drops
    /// the block.
    pub fn put(&mut self, mut block: Block)
        ensures { self.new ≡ after_put (page_count block) self.old }
    {
        self.pages_put = self.pages_put.saturating_add(u64::from(block.pages()));
        if self.kept.len() < self.keep as usize {
            block.wipe();
            self.kept.push_back_reserved(block);
        }
    }
}
