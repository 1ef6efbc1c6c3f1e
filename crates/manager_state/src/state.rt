ghost use Rattle.std.specs.Prelude.{◌≡◌, ◌≤◌, [], IfOk, OnErr};
ghost use Rattle.units.specs.Moment.{IsMoment};
ghost use Rattle.units.specs.declared.TheConstants.{MOST_PAGES};
ghost use Rattle.block_pool.specs.Stock.{no_blocks, is_kept};
ghost use Rattle.discard_book.specs.Live.{live, granted};
ghost use Rattle.discard_book.specs.Legal.{IsLegal};
ghost use Rattle.lru_reduce.specs.Wards.{segments_of};
ghost use Rattle.manager_state.specs.Calls.{Reduces, SetsLimit, limit_under, Grants, GrantsWith, RunsOut, RunsOutWith, GivesBack, TriesOne, Removes};

use crate::answers::{Back, Level, Tried};
use crate::keeper::Keeper;
use block_pool::Block;
use discard_book::Book;
use lru_reduce::Reduced;
use segment::OwnerSide;
use std::alloc::Global;
use std::marker::Model;
use units::NoMemory;

/// The state of a manager. Contracts see the entries of its book, its limit of pages, the wardens of its live
/// segments by rising number, and the stock of its pool.
///
/// Its live segments are those of its book at every moment, and its granted pages are theirs. Each grant takes the
/// memory for the entry that later ends its segment, so that no return, no purge try and no removal takes any.
#[derive(Drop)]
pub struct State {
    keeper: Keeper,
    limit: u64,
}

impl Model for State {
    ghost use Rattle.manager_state.specs.Managed.{Managed, managed};

    ghost Value = { Managed };

    ghost view = { λ s. managed s.limit s.keeper.book s.keeper.order s.keeper.pool };
}

impl State {
    /// A state with this limit of pages, where nothing was granted. Its pool keeps at most `keep` blocks.
    pub fn new(alloc: Global, limit: u64, keep: u32) -> Result<State, NoMemory>
        ensures entries { IfOk result (λ state. state.entries ≡ []) }
        ensures limit { IfOk result (λ state. state.limit ≡ limit) }
        ensures sides { IfOk result (λ state. state.sides ≡ []) }
        ensures stock { IfOk result (λ state. state.stock ≡ no_blocks keep) }
    {
        Ok(State {
            keeper: Keeper::new(alloc, keep)?,
            limit,
        })
    }

    /// Grants a client a segment of 1 to 65,536 pages, held and all zero. Where granted pages exceed the room that the
    /// limit leaves for it, they are reduced to that room first. It grants in any case, so granted pages may stand
    /// above the limit. `NoMemory` leaves all as before, or after the reduction where one was made.
    pub fn grant(
        &mut self,
        alloc: Global,
        client: u32,
        pages: u32,
        now: u64,
    ) -> Result<OwnerSide, NoMemory>
        requires client { 1 ≤ client }
        requires pages { (1 ≤ pages) × (pages ≤ MOST_PAGES) }
        requires moment { IsMoment now }
        ensures ok { IfOk result (λ side. Grants client pages now side self.old self.new) }
        ensures err { OnErr result (RunsOut pages now self.old self.new) }
    {
        self.keeper.grow(alloc, client)?;
        self.keeper.fit(self.limit, pages, now);
        self.keeper
            .enter_from_pool(alloc, client, pages, self.limit)
    }

    /// Whether its pool keeps a block of `pages` pages, so that a grant of them makes none.
    pub fn keeps_block(&self, pages: u32) -> bool
        ensures { result ≡ is_kept pages self.now.stock.kept }
    {
        self.keeper.pool.keeps(pages)
    }

    /// Grants a client a segment, held, with this block and its bytes. Room for its pages is made as in `grant`; the
    /// pool gives no block, so that nothing is made or wiped for it here. `NoMemory` leaves all as before, or after the
    /// reduction where one was made, and lets the block go.
    pub fn grant_with(
        &mut self,
        alloc: Global,
        client: u32,
        block: Block,
        now: u64,
    ) -> Result<OwnerSide, NoMemory>
        requires client { 1 ≤ client }
        requires moment { IsMoment now }
        ensures ok { IfOk result (λ side. GrantsWith client block now side self.old self.new) }
        ensures err { OnErr result (RunsOutWith block now self.old self.new) }
    {
        self.keeper.grow(alloc, client)?;
        self.keeper.fit(self.limit, block.pages(), now);
        let prepared = self.keeper.prepare(alloc, block.pages())?;
        Ok(self.keeper.enter(client, prepared, block, self.limit))
    }

    /// Takes the segment of a number back from a client, with its block where the client has it; the block goes to
    /// the pool in each case. Unknown where it was never granted to this client or was given back already, Purged
    /// where it was purged, and else Counted: it is counted off, with a Back entry.
    pub fn back(&mut self, client: u32, id: u64, block: Option<Block>) -> Back
        ensures { GivesBack client id block result self.old self.new }
    {
        self.keeper.back(client, id, block)
    }

    /// Makes one purge try on the segment of a number at a moment. NotLive exactly where it is not live. Taken adds a
    /// Purge entry and puts the block into the pool.
    pub fn try_one(&mut self, id: u64, now: u64) -> Tried
        requires { IsMoment now }
        ensures { TriesOne id now result self.old self.new }
    {
        self.keeper.try_purge(id, now)
    }

    /// Reduces granted pages to a limit at a moment. `NoMemory` leaves all as before.
    pub fn reduce_to(&mut self, alloc: Global, limit: u64, now: u64) -> Result<Reduced, NoMemory>
        requires { IsMoment now }
        ensures ok { IfOk result (λ reduced. Reduces limit now reduced self.old self.new) }
        ensures err { OnErr result (self.new ≡ self.old) }
    {
        self.keeper.reduce_to(alloc, limit, now)
    }

    /// Reduces granted pages to the state's limit at a moment. `NoMemory` leaves all as before.
    pub fn enforce(&mut self, alloc: Global, now: u64) -> Result<Reduced, NoMemory>
        requires { IsMoment now }
        ensures ok { IfOk result (λ reduced. Reduces self.old.limit now reduced self.old self.new) }
        ensures err { OnErr result (self.new ≡ self.old) }
    {
        self.keeper.reduce_to(alloc, self.limit, now)
    }

    /// Reduces granted pages at a moment: to half the limit, rounded down, under moderate pressure, and to 0 under
    /// critical pressure. `NoMemory` leaves all as before.
    pub fn pressure(&mut self, alloc: Global, level: Level, now: u64) -> Result<Reduced, NoMemory>
        requires { IsMoment now }
        ensures ok { IfOk result (λ reduced.
            Reduces (limit_under level self.old.limit) now reduced self.old self.new) }
        ensures err { OnErr result (self.new ≡ self.old) }
    {
        let limit = match level {
            Level::Moderate => self.limit / 2,
            Level::Critical => 0,
        };
        self.keeper.reduce_to(alloc, limit, now)
    }

    /// Sets the limit, and reduces granted pages to it at a moment. `NoMemory` leaves all as before, the limit too.
    pub fn set_limit(&mut self, alloc: Global, limit: u64, now: u64) -> Result<Reduced, NoMemory>
        requires { IsMoment now }
        ensures ok { IfOk result (λ reduced. SetsLimit limit now reduced self.old self.new) }
        ensures err { OnErr result (self.new ≡ self.old) }
    {
        let reduced = self.keeper.reduce_to(alloc, limit, now)?;
        self.limit = limit;
        Ok(reduced)
    }

    /// Counts off each live segment of a client, by rising number, with a Back entry each, and tells how many they
    /// were. Their blocks stay with their owner.
    pub fn remove_client(&mut self, client: u32) -> u64
        ensures { Removes client result self.old self.new }
    {
        self.keeper.remove(client)
    }

    /// The pages of all live segments.
    pub fn granted(&self) -> u128
        ensures { result ≡ granted self.now.entries }
    {
        self.keeper.book.granted()
    }

    /// Its limit of pages.
    pub fn limit(&self) -> u64
        ensures { result ≡ self.now.limit }
    {
        self.limit
    }

    /// Its book, which is legal. Its live segments are those of the state.
    pub fn book(&self) -> &Book
        ensures entries { result.now.entries ≡ self.now.entries }
        ensures legal { IsLegal self.now.entries }
        ensures live { live self.now.entries ≡ segments_of self.now.sides }
    {
        // For the proof: calls up the clause `legal` of `Book::entries`.
        let _entries = self.keeper.book.entries();
        &self.keeper.book
    }
}
