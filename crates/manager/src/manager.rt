ghost use Rattle.std.specs.Prelude.{◌≡◌, ℕ, ◌+◌, ◌^◌, ◌<◌, ◌≤◌, Some, None, true, false, IfSome, IfNone, IfOk, OnOk, OnErr, is_some, option_map};
ghost use Rattle.units.specs.Moment.{IsMoment};
ghost use Rattle.units.specs.declared.TheConstants.{MOST_PAGES};
ghost use Rattle.segment.specs.Owned.{IsGranted};
ghost use Rattle.discard_book.specs.Legal.{IsLegal};
ghost use Rattle.manager_state.specs.Calls.{limit_under};
ghost use Rattle.return_queue.specs.Name.{no_queue};
ghost use Rattle.manager.specs.Tokens.{with_grant, with_round};
ghost use Rattle.manager.specs.Grows.{Grows};
ghost use Rattle.manager.specs.Brought.{IsBrought};
ghost use Rattle.manager.specs.Ends.{HasEnded};
ghost use Rattle.manager.specs.Given.{with_direct};
ghost use Rattle.manager.specs.declared.shares.TheConstants.{PARTS};

use crate::behind::{Behind, DirectNotes, Drains};
use crate::desk::Desk;
use crate::fixed::Fixed;
use crate::shares::{Shares, Totals};
use block_pool::Block;
use lru_reduce::Reduced;
use manager_state::{Back, Level, State};
use return_queue::{Note, PlainReturns, Returns};
use segment::OwnerSide;
use std::alloc::Global;
use std::marker::Model;
use std::sync::ledger::{Blank, Ledger};
use std::sync::{Mutex, Wait};
use units::NoMemory;

/// A state behind a lock, which many threads share. Each thread has a handle of its own.
///
/// `F` names what was fixed when the manager was made, `G` and `E` its two ledgers.
#[derive(Drop)]
pub struct Manager<R: Returns, F: Fixed, G: Ledger, E: Ledger> {
    returns: R,
    behind: Mutex<Behind<R, F, G, E>>,
}

impl<R: Returns, F: Fixed, G: Ledger, E: Ledger> Model for Manager<R, F, G, E> {
    ghost use Rattle.std.specs.Prelude.{◌≡◌};

    ghost Value = { R };

    ghost view = { λ m. m.returns };

    ghost invariant = { λ m. F.queue ≡ R.name m.returns };
}

impl<F: Fixed, G: Ledger, E: Ledger> Manager<PlainReturns, F, G, E> {
    /// A manager of this state, whose returns wait for the lock and whose grants enter no ledger.
    pub fn new(state: State) -> Manager<PlainReturns, F, G, E>
        requires limit { state.limit ≡ F.limit }
        requires entries { state.entries ≡ F.handed }
        requires queue { F.queue ≡ no_queue }
        requires counts { F.counts ≡ false }
    {
        let (returns, _pass, taker) = PlainReturns::new();
        let behind = Behind::new(Desk::new(state, taker), None);
        Manager {
            returns,
            behind: Mutex::new(behind),
        }
    }
}

impl<R: Returns, F: Fixed, G: Ledger, E: Ledger> Manager<R, F, G, E> {
    /// A manager of this state, to which returns come through a queue, and all shares of its two
    /// ledgers, which the blanks become.
    pub fn with_returns(
        state: State,
        returns: R,
        taker: R::Taker,
        grants: Blank,
        rounds: Blank,
    ) -> (Manager<R, F, G, E>, Shares<G, E>)
        requires limit { state.limit ≡ F.limit }
        requires entries { state.entries ≡ F.handed }
        requires queue { F.queue ≡ R.name returns }
        requires counts { F.counts ≡ true }
        requires taker { R.is_taker (R.name returns) taker }
        requires names { (grants.name ≡ G.name) × (rounds.name ≡ E.name) }
        requires parts { (grants.parts ≡ G.parts) × (rounds.parts ≡ E.parts) }
        requires all { (G.parts ≡ PARTS) × (E.parts ≡ PARTS) }
        ensures { result.1 ≡ record { parts = PARTS; grants = 0; rounds = 0 } }
    {
        let (totals, shares) = Totals::open(grants, rounds);
        let behind = Behind::new(Desk::new(state, taker), Some(totals));
        let manager = Manager {
            returns,
            behind: Mutex::new(behind),
        };
        (manager, shares)
    }

    /// Its queue of returns.
    pub fn returns(&self) -> &R
        ensures { F.queue ≡ R.name result.now }
    {
        &self.returns
    }

    /// One turn of a grant, with the block that was brought or one that the pool keeps: None where
    /// there is neither, and where the book has fewer Grants than `above`.
    pub(crate) fn grant<H: Wait>(
        &self,
        rt: &H,
        alloc: Global,
        client: u32,
        pages: u32,
        now: u64,
        above: u64,
        block: Option<Block>,
        shares: &mut Option<Shares<G, E>>,
    ) -> Result<Option<OwnerSide>, NoMemory>
        requires client { 1 ≤ client }
        requires pages { (1 ≤ pages) × (pages ≤ MOST_PAGES) }
        requires moment { IsMoment now }
        requires block { IsBrought pages block }
        requires shares { is_some shares.old ≡ F.counts }
        ensures side { IfOk result (λ turn. IfSome turn (λ side. IsGranted pages side)) }
        ensures number { IfOk result (λ turn. IfSome turn (λ side. above < side.id)) }
        ensures counted { IfOk result (λ turn. IfSome turn (λ _.
            shares.new ≡ option_map with_grant shares.old)) }
        ensures none { IfOk result (λ turn. IfNone turn (shares.new ≡ shares.old)) }
        ensures err { OnErr result (shares.new ≡ shares.old) }
    {
        let mut behind = self.behind.lock(rt);
        let settled = behind.settle(rt, &self.returns);
        behind.grant(settled, alloc, client, pages, now, above, block, shares)
    }

    /// Settles, reduces to the limit and counts it in shares.
    pub(crate) fn enforce_counted<H: Wait>(
        &self,
        rt: &H,
        alloc: Global,
        now: u64,
        shares: &mut Option<Shares<G, E>>,
    ) -> Result<Reduced, NoMemory>
        requires moment { IsMoment now }
        requires shares { is_some shares.old ≡ F.counts }
        ensures ended { IfOk result (λ told. HasEnded F.limit now told) }
        ensures counted { OnOk result (shares.new ≡ option_map with_round shares.old) }
        ensures err { OnErr result (shares.new ≡ shares.old) }
    {
        let mut behind = self.behind.lock(rt);
        let settled = behind.settle(rt, &self.returns);
        behind.enforce_counted(settled, alloc, now, shares)
    }

    /// Settles, and reduces as a level of pressure asks.
    pub(crate) fn pressure_settled<H: Wait>(
        &self,
        rt: &H,
        alloc: Global,
        level: Level,
        now: u64,
    ) -> Result<Reduced, NoMemory>
        requires { IsMoment now }
        ensures { IfOk result (λ told. HasEnded (limit_under level F.limit) now told) }
    {
        let mut behind = self.behind.lock(rt);
        let settled = behind.settle(rt, &self.returns);
        behind.pressure_settled(settled, alloc, level, now)
    }

    /// Counts what a pass had seen given, and then a note.
    pub(crate) fn settle_behind<H: Wait>(
        &self,
        rt: &H,
        pass: R::Pass,
        note: Note,
        direct: &mut DirectNotes,
    ) -> Back
        requires { R.is_pass F.queue pass }
        ensures { direct.new ≡ with_direct note direct.old }
    {
        self.behind
            .lock(rt)
            .settle_behind(rt, &self.returns, pass, note, direct)
    }

    /// Reduces granted pages to the limit at a moment. It enters no ledger, and takes no note.
    pub fn enforce<H: Wait>(&self, rt: &H, alloc: Global, now: u64) -> Result<Reduced, NoMemory>
        requires { IsMoment now }
        ensures { IfOk result (λ told. HasEnded F.limit now told) }
    {
        self.behind.lock(rt).enforce(alloc, now)
    }

    /// Reduces granted pages at a moment: to half the limit, rounded down, under moderate pressure,
    /// and to 0 under critical pressure. It takes no note.
    pub fn pressure<H: Wait>(
        &self,
        rt: &H,
        alloc: Global,
        level: Level,
        now: u64,
    ) -> Result<Reduced, NoMemory>
        requires { IsMoment now }
        ensures { IfOk result (λ told. HasEnded (limit_under level F.limit) now told) }
    {
        self.behind.lock(rt).pressure(alloc, level, now)
    }

    /// Takes a pass in, and counts all notes that stand in the queue. It answers how many they were,
    /// or the last value of u64 where they were more.
    pub fn drain<H: Wait>(&self, rt: &H, pass: R::Pass) -> u64
        requires { R.is_pass F.queue pass }
    {
        self.drain_counted(rt, pass, &mut Drains::new())
    }

    /// The same, and counts that a pass was drained.
    pub fn drain_counted<H: Wait>(&self, rt: &H, pass: R::Pass, drains: &mut Drains) -> u64
        requires pass { R.is_pass F.queue pass }
        requires few { drains.old + 1 < 2 ^ 64 }
        ensures { drains.new ≡ drains.old + 1 }
    {
        self.behind.lock(rt).drain(rt, &self.returns, pass, drains)
    }
}

impl<R: Returns + Drop, F: Fixed, G: Ledger, E: Ledger> Manager<R, F, G, E> {
    /// The state, once no handle is left. Its book is legal and begins with the entries handed in,
    /// and each Grant since carries the limit.
    pub fn finish(self) -> State
        ensures limit { result.limit ≡ F.limit }
        ensures grown { (granted : ℕ) × Grows F.limit granted 0 F.handed result.entries }
        ensures legal { IsLegal result.entries }
    {
        self.behind.into_inner().finish()
    }

    /// The state, once all shares are together. Its book is legal and begins with the entries handed
    /// in. Each Grant since carries the limit, there are as many Grants as the shares count, and at
    /// least as many Reduced entries with the limit as they count enforcements.
    pub fn finish_with(self, whole: Shares<G, E>) -> State
        requires counts { F.counts ≡ true }
        requires all { whole.parts ≡ PARTS }
        ensures limit { result.limit ≡ F.limit }
        ensures grown { Grows F.limit whole.grants whole.rounds F.handed result.entries }
        ensures legal { IsLegal result.entries }
    {
        self.behind.into_inner().finish_with(whole)
    }
}
