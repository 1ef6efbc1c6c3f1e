ghost use Rattle.std.specs.Prelude.{◌≡◌, ℕ, ◌+◌, ◌<◌, ◌≤◌, ◌++◌, [], ◌∷◌, true, length, vec_len, vec_capacity, IfOk, IfErr, OnOk, OnErr};
ghost use Rattle.units.specs.Moment.{IsMoment};
ghost use Rattle.units.specs.declared.TheConstants.{MOST_PAGES};
ghost use Rattle.block_pool.specs.Block.{page_count};
ghost use Rattle.block_pool.specs.Stock.{no_blocks};
ghost use Rattle.discard_book.specs.Live.{live, has_number, grants, AreDrawn};
ghost use Rattle.discard_book.specs.Legal.{room, has_room};
ghost use Rattle.discard_book.specs.declared.entry.Entry.TheVariants as entry;
ghost use Rattle.lru_reduce.specs.Wards.{IsNew, without_ward};
ghost use Rattle.manager_state.specs.Managed.{managed};
ghost use Rattle.manager_state.specs.Clients.{is_with};
ghost use Rattle.manager_state.specs.Calls.{Reduces, MakesRoom, Enters, EntersWith, GivesBack, TriesOne, Removes};
ghost use Rattle.manager_state.specs.Keeping.{client_at, Agrees, has_pair, KeepsLive, KeepsComing, LetsGo};

use crate::answers::{Back, Tried};
use crate::numbers::Numbers;
use block_pool::{Block, Pool};
use discard_book::{Book, Entry};
use lru_reduce::{Order, Reduced};
use segment::{OwnerSide, Prepared, Purge};
use std::alloc::Global;
use units::NoMemory;

/// What a manager keeps: its book, the live segments in the order of their known use, its pool, and whose each
/// segment is.
#[derive(Drop)]
pub(crate) struct Keeper {
    pub(crate) book: Book,
    pub(crate) order: Order,
    pub(crate) pool: Pool,
    /// For each number, from 1 on, the client that has it, or 0 once it was given back.
    pub(crate) clients: Vec<u32>,
    /// The numbers of live segments by client.
    pub(crate) numbers: Numbers,
    /// How many spare places of the book are promised to live segments, one each for its Purge or its Back.
    pub(crate) promised: u64,
    ghost agrees: { Agrees book order clients.items promised },
    ghost kept: { KeepsLive book.entries numbers },
}

impl Keeper {
    /// Nothing was granted yet.
    pub(crate) fn new(alloc: Global, keep: u32) -> Result<Keeper, NoMemory>
        ensures entries { IfOk result (λ keeper. keeper.book.entries ≡ []) }
        ensures sides { IfOk result (λ keeper. keeper.order.sides ≡ []) }
        ensures pool { IfOk result (λ keeper. keeper.pool ≡ no_blocks keep) }
    {
        Ok(Keeper {
            book: Book::new(alloc)?,
            order: Order::new(alloc)?,
            pool: Pool::new(alloc, keep)?,
            clients: Vec::new(alloc),
            numbers: Numbers::new(alloc),
            promised: 0,
        })
    }

    /// Takes all that the lists need for a grant: a place for its warden, its client, its number, the entry of a
    /// reduction, its own entry, and the later one that ends it.
    pub(crate) fn grow(&mut self, alloc: Global, client: u32) -> Result<(), NoMemory>
        ensures book { OnOk result (self.new.promised + 3 ≤ self.new.book.spare) }
        ensures order { OnOk result (1 ≤ self.new.order.spare) }
        ensures clients { OnOk result (vec_len self.new.clients < vec_capacity self.new.clients) }
        ensures number { OnOk result
            (has_pair self.new.numbers client (length self.new.clients.items + 1) ≡ true) }
        ensures same { (limit : ℕ) → managed limit self.new.book self.new.order self.new.pool
            ≡ managed limit self.old.book self.old.order self.old.pool }
    {
        self.clients.reserve(1)?;
        self.order.reserve(alloc, 1)?;
        self.book.reserve(alloc, self.promised + 3)?;
        let id = self.next_number();
        self.numbers.enter(client, id)
    }

    /// Reduces granted pages to a limit at a moment.
    pub(crate) fn reduce(&mut self, limit: u64, now: u64) -> Reduced
        requires moment { IsMoment now }
        requires spare { self.old.promised + 1 ≤ self.old.book.spare }
        ensures reduces { (kept : ℕ) → Reduces limit now result
            (managed kept self.old.book self.old.order self.old.pool)
            (managed kept self.new.book self.new.order self.new.pool) }
        ensures promised { self.new.promised + result.purges ≡ self.old.promised }
        ensures spent { self.new.book.spare + result.purges + 1 ≡ self.old.book.spare }
        ensures order { self.new.order.spare ≡ self.old.order.spare }
        ensures clients { self.new.clients ≡ self.old.clients }
        ensures coming { KeepsComing (length self.old.clients.items)
            self.old.numbers self.new.numbers }
    {
        let before = self.book.entries().len();
        let mut granted = self.book.granted();
        let reduced = self
            .order
            .reduce(&mut granted, limit, now, &mut self.book, &mut self.pool);
        self.promised -= reduced.purges;
        self.numbers
            .drop_purged(&self.book, self.clients.as_slice(), before);
        reduced
    }

    /// Takes the memory for the entry of a reduction, and reduces. After `NoMemory` all is as before.
    pub(crate) fn reduce_to(
        &mut self,
        alloc: Global,
        limit: u64,
        now: u64,
    ) -> Result<Reduced, NoMemory>
        requires { IsMoment now }
        ensures ok { IfOk result (λ reduced. (kept : ℕ) → Reduces limit now reduced
            (managed kept self.old.book self.old.order self.old.pool)
            (managed kept self.new.book self.new.order self.new.pool)) }
        ensures err { OnErr result ((kept : ℕ)
            → managed kept self.new.book self.new.order self.new.pool
            ≡ managed kept self.old.book self.old.order self.old.pool) }
    {
        self.book.reserve(alloc, self.promised + 1)?;
        Ok(self.reduce(limit, now))
    }

    /// Makes room for a grant: reduces to the room that the limit leaves for it, where granted pages exceed it.
    pub(crate) fn fit(&mut self, limit: u64, pages: u32, now: u64)
        requires moment { IsMoment now }
        requires spare { self.old.promised + 3 ≤ self.old.book.spare }
        ensures makes { MakesRoom pages now
            (managed limit self.old.book self.old.order self.old.pool)
            (managed limit self.new.book self.new.order self.new.pool) }
        ensures room { has_room self.new.book.entries (room limit pages) ≡ true }
        ensures spare { self.new.promised + 2 ≤ self.new.book.spare }
        ensures order { self.new.order.spare ≡ self.old.order.spare }
        ensures clients { self.new.clients ≡ self.old.clients }
        ensures coming { KeepsComing (length self.old.clients.items)
            self.old.numbers self.new.numbers }
    {
        let room = limit.saturating_sub(u64::from(pages));
        if self.book.granted() > u128::from(room) {
            self.reduce(room, now);
        }
    }

    /// The number of the next grant, which no live segment has.
    fn next_number(&self) -> u64
        ensures number { result ≡ grants self.now.book.entries + 1 }
        ensures drawn { AreDrawn (live self.now.book.entries) (grants self.now.book.entries) }
        ensures new { IsNew result self.now.order.sides }
    {
        // For the proof: calls up the clause `live` of `Book::entries`.
        let _entries = self.book.entries();
        self.book.grants() + 1
    }

    /// Takes the memory of the next segment, of so many pages.
    pub(crate) fn prepare(&self, alloc: Global, pages: u32) -> Result<Prepared, NoMemory>
        ensures next { IfOk result (λ prepared.
            prepared.id ≡ grants self.now.book.entries + 1) }
        ensures pages { IfOk result (λ prepared. prepared.pages ≡ pages) }
    {
        Prepared::new(alloc, self.book.grants() + 1, pages)
    }

    /// Gives a client the next segment, which was prepared, with this block, where there is room for it.
    pub(crate) fn enter(
        &mut self,
        client: u32,
        prepared: Prepared,
        block: Block,
        limit: u64,
    ) -> OwnerSide
        requires client { 1 ≤ client }
        requires next { prepared.id ≡ grants self.old.book.entries + 1 }
        requires pages { prepared.pages ≡ page_count block }
        requires room { has_room self.old.book.entries (room limit (page_count block)) ≡ true }
        requires book { self.old.promised + 2 ≤ self.old.book.spare }
        requires order { 1 ≤ self.old.order.spare }
        requires clients { vec_len self.old.clients < vec_capacity self.old.clients }
        requires number { has_pair self.old.numbers client (length self.old.clients.items + 1)
            ≡ true }
        ensures { EntersWith client block result
            (managed limit self.old.book self.old.order self.old.pool)
            (managed limit self.new.book self.new.order self.new.pool) }
    {
        let id = self.next_number();
        let pages = block.pages();
        let (owner, warden) = prepared.fill(block);
        self.book.add(Entry::Grant {
            id,
            client,
            pages,
            limit,
        });
        self.order.add(warden);
        self.clients.push_reserved(client);
        self.promised += 1;
        owner
    }

    /// The same with a block of the pool, which is taken once all other memory is there. After `NoMemory` all is as
    /// before.
    pub(crate) fn enter_from_pool(
        &mut self,
        alloc: Global,
        client: u32,
        pages: u32,
        limit: u64,
    ) -> Result<OwnerSide, NoMemory>
        requires client { 1 ≤ client }
        requires pages { (1 ≤ pages) × (pages ≤ MOST_PAGES) }
        requires room { has_room self.old.book.entries (room limit pages) ≡ true }
        requires book { self.old.promised + 2 ≤ self.old.book.spare }
        requires order { 1 ≤ self.old.order.spare }
        requires clients { vec_len self.old.clients < vec_capacity self.old.clients }
        requires number { has_pair self.old.numbers client (length self.old.clients.items + 1)
            ≡ true }
        ensures ok { IfOk result (λ side. Enters client pages side
            (managed limit self.old.book self.old.order self.old.pool)
            (managed limit self.new.book self.new.order self.new.pool)) }
        ensures err { OnErr result (managed limit self.new.book self.new.order self.new.pool
            ≡ managed limit self.old.book self.old.order self.old.pool) }
    {
        let prepared = self.prepare(alloc, pages)?;
        let block = self.pool.take(alloc, pages)?;
        Ok(self.enter(client, prepared, block, limit))
    }

    /// The client that has a number, or 0 where none has it.
    fn client_of(&self, id: u64) -> u32
        ensures { result ≡ client_at id self.now.clients.items }
    {
        if id >= 1 && id <= self.clients.len() as u64 {
            self.clients[id as usize - 1]
        } else {
            0
        }
    }

    /// Whether a number was granted to a client, and was not given back.
    fn is_with(&self, client: u32, id: u64) -> bool
        ensures { result ≡ is_with client id self.now.book.entries }
    {
        client > 0 && self.client_of(id) == client
    }

    /// Whether the segment of a number is live.
    fn is_live(&self, id: u64) -> bool
        ensures { result ≡ has_number (live self.now.book.entries) id }
    {
        self.book.fits(&Entry::Back { id })
    }

    /// Counts a live segment off.
    fn count_off(&mut self, id: u64)
        requires { has_number (live self.old.book.entries) id ≡ true }
        ensures entries { self.new.book.entries ≡ self.old.book.entries ++ entry.Back id ∷ [] }
        ensures sides { self.new.order.sides ≡ without_ward id self.old.order.sides }
        ensures pool { self.new.pool ≡ self.old.pool }
        ensures clients { vec_len self.new.clients ≡ vec_len self.old.clients }
    {
        // For the proof: calls up the clause `live` of `Book::entries`.
        let _entries = self.book.entries();
        self.order.forget(id);
        self.book.add(Entry::Back { id });
        self.numbers
            .drop_dead(&self.book, self.clients.as_slice(), id);
        self.clients[id as usize - 1] = 0;
        self.promised -= 1;
    }

    /// Takes a number back from a client. A block that is handed in goes to the pool.
    pub(crate) fn back(&mut self, client: u32, id: u64, block: Option<Block>) -> Back
        ensures { (limit : ℕ) → GivesBack client id block result
            (managed limit self.old.book self.old.order self.old.pool)
            (managed limit self.new.book self.new.order self.new.pool) }
    {
        if let Some(block) = block {
            self.pool.put(block);
        }
        if !self.is_with(client, id) {
            return Back::Unknown;
        }
        if !self.is_live(id) {
            return Back::Purged;
        }
        self.count_off(id);
        Back::Counted
    }

    /// Makes one purge try on a number at a moment. The block of a purged segment goes to the pool.
    pub(crate) fn try_purge(&mut self, id: u64, now: u64) -> Tried
        requires { IsMoment now }
        ensures { (limit : ℕ) → TriesOne id now result
            (managed limit self.old.book self.old.order self.old.pool)
            (managed limit self.new.book self.new.order self.new.pool) }
    {
        let Some(known) = self.order.known(id) else {
            return Tried::NotLive;
        };
        match self.order.try_one(id, now) {
            Some(Purge::Taken(block)) => {
                self.book.add(Entry::Purge { id, known });
                self.pool.put(block);
                self.promised -= 1;
                self.numbers
                    .drop_dead(&self.book, self.clients.as_slice(), id);
                Tried::Taken
            }
            Some(Purge::Used { known }) => Tried::Used { known },
            None => Tried::NotLive,
        }
    }

    /// Counts the segment of a number off where it is live and with a client, and tells whether it was.
    fn let_go(&mut self, client: u32, id: u64) -> bool
        ensures told { (limit : ℕ) → LetsGo client id result
            (managed limit self.old.book self.old.order self.old.pool)
            (managed limit self.new.book self.new.order self.new.pool) }
        ensures clients { vec_len self.new.clients ≡ vec_len self.old.clients }
    {
        let is_due = self.is_with(client, id) && self.is_live(id);
        if is_due {
            self.count_off(id);
        }
        is_due
    }

    /// Counts off each live segment of a client, by rising number, and tells how many they were.
    pub(crate) fn remove(&mut self, client: u32) -> u64
        ensures { (limit : ℕ) → Removes client result
            (managed limit self.old.book self.old.order self.old.pool)
            (managed limit self.new.book self.new.order self.new.pool) }
    {
        // For the proof: calls up the clause `live` of `Book::entries`.
        let _entries = self.book.entries();
        // For the proof: calls up the clause `few` of `Book::grants`.
        let _drawn = self.book.grants();
        let mut removed = 0;
        let mut last = 0;
        while let Some(id) = self.numbers.next(client, last) {
            removed += u64::from(self.let_go(client, id));
            last = id;
        }
        removed
    }
}
