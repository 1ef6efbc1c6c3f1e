ghost use Rattle.std.specs.Prelude.{◌≡◌, ℕ, ◌+◌, ◌-◌, ◌^◌, ◌<◌, ◌≤◌, Some, None, true, false, [], IfSome, IfNone, IfOk, OnOk, OnErr, option_map};
ghost use Rattle.units.specs.Moment.{IsMoment};
ghost use Rattle.units.specs.Count.{next_count};
ghost use Rattle.units.specs.declared.TheConstants.{MOST_PAGES};
ghost use Rattle.segment.specs.Owned.{IsGranted};
ghost use Rattle.manager_state.specs.Calls.{limit_under};
ghost use Rattle.manager.specs.Tokens.{with_round, standing_of};
ghost use Rattle.manager.specs.Standing.{Tracks, none_direct};
ghost use Rattle.manager.specs.Given.{note_of, GivesNote, GrantsSegment};
ghost use Rattle.manager.specs.Brought.{IsFresh, IsBrought};
ghost use Rattle.manager.specs.Ends.{HasEnded};

use crate::behind::DirectNotes;
use crate::fixed::Fixed;
use crate::manager::Manager;
use crate::shares::Shares;
use block_pool::{Block, Pool};
use lru_reduce::Reduced;
use manager_state::Level;
use return_queue::{Note, PlainReturns, Returns};
use segment::{Granter, OwnerSide};
use std::alloc::Global;
use std::marker::Model;
use std::sync::Wait;
use std::sync::ledger::Ledger;
use std::thread::Threads;
use units::NoMemory;

/// One thread's way to a manager: it grants segments and takes them back.
///
/// Its numbers rise. Before a grant it compares, under the lock, its greatest number with the
/// number of Grants in the book, and tries again where the book has fewer. Where the manager's pool
/// keeps no block for a grant, the handle lets the lock go, makes one, and comes again with it. What
/// comes back goes into the queue; only where this is full does the handle take the lock, and then counts first
/// what stood before it.
#[derive(Drop)]
pub struct Handle<'m, R: Returns, F: Fixed, G: Ledger, E: Ledger> {
    manager: &'m Manager<R, F, G, E>,
    pass: R::Pass,
    /// None where the manager has no ledgers.
    shares: Option<Shares<G, E>>,
    /// The grants that its shares counted when it was made.
    base: u64,
    grants: u64,
    returns: u64,
    greatest: u64,
    /// Its notes that were counted past the queue.
    direct: DirectNotes,
}

impl<'m, R: Returns, F: Fixed, G: Ledger, E: Ledger> Model for Handle<'m, R, F, G, E> {
    ghost use Rattle.std.specs.Prelude.{◌≡◌, ◌<◌, IfSome, is_some};
    ghost use Rattle.manager.specs.Standing.{Held, Tracks};

    ghost Value = { Held };

    ghost view = { λ h. record {
      shares = h.shares;
      base = h.base;
      grants = h.grants;
      returns = h.returns;
      greatest = h.greatest;
      queued = R.own h.pass;
      direct = h.direct;
    } };

    ghost invariant = { λ h. R.is_pass F.queue h.pass
        × (is_some h.shares ≡ F.counts)
        × IfSome h.shares (Tracks h.base h.grants) };
}

impl<F: Fixed, G: Ledger, E: Ledger> Manager<PlainReturns, F, G, E> {
    /// A handle of a manager that `new` made.
    pub fn handle(&self) -> Handle<'_, PlainReturns, F, G, E>
        requires { F.counts ≡ false }
        ensures { result ≡ record {
          shares = None;
          base = 0;
          grants = 0;
          returns = 0;
          greatest = 0;
          queued = [];
          direct = none_direct;
        } }
    {
        let (_returns, pass, _taker) = PlainReturns::new();
        Handle {
            manager: self,
            pass,
            shares: None,
            base: 0,
            grants: 0,
            returns: 0,
            greatest: 0,
            direct: DirectNotes::new(),
        }
    }
}

impl<R: Returns, F: Fixed, G: Ledger, E: Ledger> Manager<R, F, G, E> {
    /// A handle that gives through this pass and counts in these shares.
    pub fn handle_with(&self, pass: R::Pass, shares: Shares<G, E>) -> Handle<'_, R, F, G, E>
        requires counts { F.counts ≡ true }
        requires pass { R.is_pass F.queue pass }
        ensures { result ≡ record {
          shares = Some shares;
          base = shares.grants;
          grants = 0;
          returns = 0;
          greatest = 0;
          queued = R.own pass;
          direct = none_direct;
        } }
    {
        Handle {
            manager: self,
            pass,
            base: shares.grants(),
            shares: Some(shares),
            grants: 0,
            returns: 0,
            greatest: 0,
            direct: DirectNotes::new(),
        }
    }
}

/// A new block of 1 to 65,536 pages, all bytes zero. No lock is held while it is made.
fn new_block(alloc: Global, pages: u32) -> Result<Block, NoMemory>
    requires { (1 ≤ pages) × (pages ≤ MOST_PAGES) }
    ensures { IfOk result (IsFresh pages) }
{
    let mut pool = Pool::new(alloc, 0)?;
    pool.take(alloc, pages)
}

impl<'m, R: Returns, F: Fixed, G: Ledger, E: Ledger> Handle<'m, R, F, G, E> {
    /// One turn under the lock, with the block that was brought or one that the manager's pool keeps:
    /// None where there is neither, and where the book has fewer Grants than this handle's greatest
    /// number.
    fn turn<H: Wait>(
        &mut self,
        rt: &H,
        alloc: Global,
        client: u32,
        pages: u32,
        now: u64,
        block: Option<Block>,
    ) -> Result<Option<OwnerSide>, NoMemory>
        requires client { 1 ≤ client }
        requires pages { (1 ≤ pages) × (pages ≤ MOST_PAGES) }
        requires moment { IsMoment now }
        requires block { IsBrought pages block }
        ensures side { IfOk result (λ turn. IfSome turn (λ side. IsGranted pages side)) }
        ensures grants { IfOk result (λ turn. IfSome turn (λ side.
            GrantsSegment side self.old self.new)) }
        ensures none { IfOk result (λ turn. IfNone turn (self.new ≡ self.old)) }
        ensures err { OnErr result (self.new ≡ self.old) }
        ensures returns { self.new.returns ≡ self.old.returns }
        ensures standing { standing_of self.new.base self.new.shares
            ≡ standing_of self.old.base self.old.shares }
    {
        let turn = self.manager.grant(
            rt,
            alloc,
            client,
            pages,
            now,
            self.greatest,
            block,
            &mut self.shares,
        )?;
        match turn {
            Some(side) => {
                self.grants = self.grants.saturating_add(1);
                self.greatest = side.id();
                Ok(Some(side))
            }
            None => Ok(None),
        }
    }

    /// Counts what came back, and then reduces granted pages to the limit at a moment. It enters
    /// the ledger of enforcements.
    pub fn enforce<H: Wait>(&mut self, rt: &H, alloc: Global, now: u64) -> Result<Reduced, NoMemory>
        requires { IsMoment now }
        ensures ended { IfOk result (λ told. HasEnded F.limit now told) }
        ensures counted { OnOk result
            (self.new ≡ record self.old { shares = option_map with_round self.old.shares }) }
        ensures err { OnErr result (self.new ≡ self.old) }
    {
        self.manager
            .enforce_counted(rt, alloc, now, &mut self.shares)
    }

    /// Counts what came back, and then reduces granted pages at a moment: to half the limit, rounded
    /// down, under moderate pressure, and to 0 under critical pressure. It enters no ledger.
    pub fn pressure<H: Wait>(
        &mut self,
        rt: &H,
        alloc: Global,
        level: Level,
        now: u64,
    ) -> Result<Reduced, NoMemory>
        requires { IsMoment now }
        ensures ended { IfOk result (λ told. HasEnded (limit_under level F.limit) now told) }
        ensures same { self.new ≡ self.old }
    {
        self.manager.pressure_settled(rt, alloc, level, now)
    }

    /// The pass of a handle and its shares, where the manager has ledgers.
    pub fn into_parts(self) -> (R::Pass, Shares<G, E>)
        requires { F.counts ≡ true }
        ensures pass { R.is_pass F.queue result.0 }
        ensures shares { self.entry.shares ≡ Some result.1 }
        ensures counted { Tracks self.entry.base self.entry.grants result.1 }
    {
        let Handle { pass, shares, .. } = self;
        let Some(shares) = shares else { unreachable!() };
        (pass, shares)
    }
}

impl<'m, R: Returns, F: Fixed, G: Ledger, E: Ledger> Granter for Handle<'m, R, F, G, E> {
    ghost use Rattle.std.specs.Prelude.{Option};
    ghost use Rattle.manager.specs.Tokens.{Tokens, standing_of};

    ghost grants = { λ h. h.grants };

    ghost returns = { λ h. h.returns };

    ghost greatest = { λ h. h.greatest };

    // Which client it was, and when, stands in the book alone, which no handle sees.
    ghost granted_to = { λ _ _ side old new. GrantsSegment side old new };

    ghost took_back = { λ client id block old new. GivesNote (note_of client id block) old new };

    ghost Standing = { Option Tokens };

    ghost standing = { λ h. standing_of h.base h.shares };

    fn grant<H: Threads + Wait + Sync>(
        &mut self,
        rt: &H,
        alloc: Global,
        client: u32,
        pages: u32,
        now: u64,
    ) -> Result<OwnerSide, NoMemory> {
        let mut block = None;
        for _ in rt.forever() {
            if let Some(side) = self.turn(rt, alloc, client, pages, now, block)? {
                return Ok(side);
            }
            block = Some(new_block(alloc, pages)?);
        }
        unreachable!()
    }

    fn give_back<H: Threads + Wait + Sync>(
        &mut self,
        rt: &H,
        client: u32,
        id: u64,
        block: Option<Block>,
    ) {
        self.returns = self.returns.saturating_add(1);
        let note = Note { client, id, block };
        if let Err(note) = self.manager.returns().give(rt, &mut self.pass, note) {
            let seen = self.manager.returns().split(&mut self.pass);
            self.manager.settle_behind(rt, seen, note, &mut self.direct);
        }
    }
}
