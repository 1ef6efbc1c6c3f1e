ghost use Rattle.std.specs.Prelude.{◌≡◌, ◌⊎◌, ℕ, ◌+◌, ◌-◌, ◌^◌, ◌<◌, ◌≤◌, Some, None, true, false, [], length, min, IfSome, IfNone, IfOk, OnOk, OnErr, is_some, option_map};
ghost use Rattle.units.specs.Moment.{IsMoment};
ghost use Rattle.units.specs.declared.TheConstants.{MOST_PAGES};
ghost use Rattle.segment.specs.Owned.{IsGranted};
ghost use Rattle.discard_book.specs.Legal.{IsLegal};
ghost use Rattle.discard_book.specs.Live.{grants};
ghost use Rattle.return_queue.specs.Order.{Starts, notes, InOrder, AllTaken};
ghost use Rattle.manager_state.specs.Calls.{limit_under, Reduces, RunsOut};
ghost use Rattle.manager.specs.Counted.{CountsNotes, CountsBehind};
ghost use Rattle.manager.specs.Turn.{GrantsBy, LacksBlock};
ghost use Rattle.manager.specs.Standing.{none_direct};
ghost use Rattle.manager.specs.Given.{with_direct};
ghost use Rattle.manager.specs.Tokens.{with_grant, with_round};
ghost use Rattle.manager.specs.Grows.{Grows, IsAccounted, GrantsNone, GrantsOne};
ghost use Rattle.manager.specs.Brought.{IsBrought};
ghost use Rattle.manager.specs.Ends.{HasEnded};
ghost use Rattle.manager.specs.declared.shares.TheConstants.{PARTS};

use crate::desk::Desk;
use crate::fixed::Fixed;
use crate::shares::{Shares, Totals, count_grant, count_round};
use block_pool::Block;
use lru_reduce::Reduced;
use manager_state::{Back, Level, State};
use return_queue::{Note, Returns};
use segment::OwnerSide;
use std::alloc::Global;
use std::marker::{Model, PhantomData};
use std::sync::Wait;
use std::sync::ledger::Ledger;
use units::NoMemory;

/// What lies behind a manager's lock: the desk, and the totals of the ledgers where the manager
/// has them. Contracts see the desk's state and its taker. The state has the limit that was fixed,
/// its book grew from the entries handed in and each Grant since carries the limit, the totals are
/// what the book gained, and the taker is of the manager's queue.
#[derive(Drop)]
pub(crate) struct Behind<R: Returns, F: Fixed, G: Ledger, E: Ledger> {
    desk: Desk<R>,
    totals: Option<Totals<G, E>>,
    fixed: PhantomData<F>,
}

impl<R: Returns, F: Fixed, G: Ledger, E: Ledger> Model for Behind<R, F, G, E> {
    ghost use Rattle.manager.specs.Grows.{IsSoundDesk};
    ghost use Rattle.manager.specs.Turn.{DeskView};

    ghost Value = { DeskView R.Taker };

    ghost view = { λ b. record { state = b.desk.state; taker = b.desk.taker } };

    ghost invariant = { λ b. IsSoundDesk F.limit F.handed F.counts b.totals b.desk.state
        × R.is_taker F.queue b.desk.taker };
}

/// Shows that the notes of the queue were counted. Only `Behind::settle` makes one, so that no call
/// of a handle can leave it out.
#[derive(Drop)]
pub(crate) struct Settled(());

/// How many notes were counted past the queue, and what the last one was. Only
/// `Behind::settle_behind` counts one, so that where this is told, no note can be lost or changed on
/// its way.
#[derive(Drop)]
pub(crate) struct DirectNotes {
    count: u64,
    /// Of the last one, as are the next two.
    client: u32,
    id: u64,
    /// Those of its block, 0 where it had none.
    pages: u32,
}

impl Model for DirectNotes {
    ghost use Rattle.manager.specs.Standing.{Direct};

    ghost Value = { Direct };

    ghost view = { λ d. record {
      count = d.count;
      client = d.client;
      id = d.id;
      pages = d.pages;
    } };
}

impl DirectNotes {
    /// No note was counted.
    pub(crate) fn new() -> DirectNotes
        ensures { result ≡ none_direct }
    {
        DirectNotes {
            count: 0,
            client: 0,
            id: 0,
            pages: 0,
        }
    }

    /// Counts one more.
    fn count(&mut self, note: &Note)
        ensures { self.new ≡ with_direct note.now self.old }
    {
        self.count = self.count.saturating_add(1);
        self.client = note.client;
        self.id = note.id;
        self.pages = match &note.block {
            Some(block) => block.pages(),
            None => 0,
        };
    }
}

/// How many passes were drained. Only `Behind::drain` counts one, so that where this count is told, no
/// pass can be left out.
#[derive(Drop)]
pub struct Drains {
    passes: u64,
}

impl Model for Drains {
    ghost use Rattle.std.specs.Prelude.{ℕ};

    ghost Value = { ℕ };

    ghost view = { λ d. d.passes };
}

impl Drains {
    /// No pass was drained.
    pub fn new() -> Drains
        ensures { result ≡ 0 }
    {
        Drains { passes: 0 }
    }

    /// How many passes were drained.
    pub fn passes(&self) -> u64
        ensures { result ≡ self.now }
    {
        self.passes
    }
}

/// How many entries a state's book has.
fn entry_count(state: &State) -> u64
    ensures count { result ≡ length state.now.entries }
    ensures few { result < 2 ^ 64 }
{
    state.book().entries().len() as u64
}

/// Grants a segment with the block that was brought, or with one that the pool keeps, so that no
/// block is made here. It answers None where there is neither.
fn grant_in_turn(
    state: &mut State,
    alloc: Global,
    client: u32,
    pages: u32,
    now: u64,
    block: Option<Block>,
) -> Result<Option<OwnerSide>, NoMemory>
    requires client { 1 ≤ client }
    requires pages { (1 ≤ pages) × (pages ≤ MOST_PAGES) }
    requires moment { IsMoment now }
    requires block { IsBrought pages block }
    ensures side { IfOk result (λ turn. IfSome turn (λ side. IsGranted pages side)) }
    ensures grants { IfOk result (λ turn. IfSome turn (λ side.
        GrantsOne side.id state.old state.new)) }
    ensures by { IfOk result (λ turn. IfSome turn (λ side.
        GrantsBy client pages now block side state.old state.new)) }
    ensures none { IfOk result (λ turn. IfNone turn (state.new ≡ state.old)) }
    ensures lacks { IfOk result (λ turn. IfNone turn (LacksBlock pages block state.old)) }
    ensures made { state.new.stock.made ≡ state.old.stock.made }
    ensures err { OnErr result (GrantsNone state.old state.new) }
    ensures out { OnErr result (RunsOut pages now state.old state.new) }
{
    if let Some(block) = block {
        return Ok(Some(state.grant_with(alloc, client, block, now)?));
    }
    if state.keeps_block(pages) {
        return Ok(Some(state.grant(alloc, client, pages, now)?));
    }
    Ok(None)
}

impl<R: Returns, F: Fixed, G: Ledger, E: Ledger> Behind<R, F, G, E> {
    /// A desk, with or without totals.
    pub(crate) fn new(desk: Desk<R>, totals: Option<Totals<G, E>>) -> Behind<R, F, G, E>
        requires limit { desk.state.limit ≡ F.limit }
        requires entries { desk.state.entries ≡ F.handed }
        requires taker { R.is_taker F.queue desk.taker }
        requires counts { is_some totals ≡ F.counts }
        requires fresh { IfSome totals (λ t. (t.grants ≡ 0) × (t.rounds ≡ 0)) }
        ensures { result ≡ record { state = desk.state; taker = desk.taker } }
    {
        Behind {
            desk,
            totals,
            fixed: PhantomData,
        }
    }

    /// Counts what stands in the queue, so that all is counted that the passes taken in had seen given.
    pub(crate) fn settle<H: Wait>(&mut self, rt: &H, returns: &R) -> Settled
        requires { F.queue ≡ R.name returns.now }
        ensures counted { CountsNotes self.old.state (R.taken self.old.taker)
            self.new.state (R.taken self.new.taker)
            (λ n. (n ≤ R.most returns.now) × (n < R.most returns.now
            → InOrder (R.taken self.new.taker) [] (R.knows self.new.taker))) }
        ensures all { (R.until self.old.taker ≤ length (R.taken self.old.taker)
            → AllTaken (R.taken self.old.taker) (R.knows self.old.taker))
            → R.until self.old.taker ≤ length (R.taken self.old.taker) + R.most returns.now
            → AllTaken (R.taken self.new.taker) (R.knows self.new.taker) }
    {
        self.desk.settle(rt, returns);
        Settled(())
    }

    /// Counts what a pass had seen given, and then a note.
    pub(crate) fn settle_behind<H: Wait>(
        &mut self,
        rt: &H,
        returns: &R,
        pass: R::Pass,
        note: Note,
        direct: &mut DirectNotes,
    ) -> Back
        requires queue { F.queue ≡ R.name returns.now }
        requires pass { R.is_pass F.queue pass }
        ensures counted { CountsBehind result note self.old.state (R.taken self.old.taker)
            self.new.state (R.taken self.new.taker)
            (λ n. (n ≤ R.most returns.now) × (n < R.most returns.now
            → InOrder (R.taken self.new.taker) [] (R.knows self.new.taker))) }
        ensures all { Starts (R.taken self.new.taker) (notes (R.seen pass)) }
        ensures direct { direct.new ≡ with_direct note direct.old }
    {
        direct.count(&note);
        self.desk.settle_behind(rt, returns, pass, note)
    }

    /// Counts all that a pass had seen given, and then all that stands in the queue.
    pub(crate) fn drain<H: Wait>(
        &mut self,
        rt: &H,
        returns: &R,
        pass: R::Pass,
        drains: &mut Drains,
    ) -> u64
        requires queue { F.queue ≡ R.name returns.now }
        requires pass { R.is_pass F.queue pass }
        requires few { drains.old + 1 < 2 ^ 64 }
        ensures notes { CountsNotes self.old.state (R.taken self.old.taker)
            self.new.state (R.taken self.new.taker) (λ n. result ≡ min n (2 ^ 64 - 1)) }
        ensures empty { InOrder (R.taken self.new.taker) [] (R.knows self.new.taker) }
        ensures all { Starts (R.taken self.new.taker) (notes (R.seen pass)) }
        ensures counted { drains.new ≡ drains.old + 1 }
    {
        drains.passes += 1;
        self.desk.drain(rt, returns, pass)
    }

    /// Grants a segment and counts it, with the block that was brought or one that the pool keeps.
    /// It answers None where there is neither, and where the book has fewer Grants than `above`.
    pub(crate) fn grant(
        &mut self,
        _settled: Settled,
        alloc: Global,
        client: u32,
        pages: u32,
        now: u64,
        above: u64,
        block: Option<Block>,
        shares: &mut Option<Shares<G, E>>,
    ) -> Result<Option<OwnerSide>, NoMemory>
        requires client { 1 ≤ client }
        requires pages { (1 ≤ pages) × (pages ≤ MOST_PAGES) }
        requires moment { IsMoment now }
        requires block { IsBrought pages block }
        requires shares { is_some shares.old ≡ F.counts }
        ensures side { IfOk result (λ turn. IfSome turn (λ side. IsGranted pages side)) }
        ensures number { IfOk result (λ turn. IfSome turn (λ side. above < side.id)) }
        ensures counted { IfOk result (λ turn. IfSome turn (λ _.
            shares.new ≡ option_map with_grant shares.old)) }
        ensures none { IfOk result (λ turn. IfNone turn (shares.new ≡ shares.old)) }
        ensures err { OnErr result (shares.new ≡ shares.old) }
        ensures by { IfOk result (λ turn. IfSome turn (λ side.
            GrantsBy client pages now block side self.old.state self.new.state)) }
        ensures same { IfOk result (λ turn. IfNone turn (self.new ≡ self.old)) }
        ensures why { IfOk result (λ turn. IfNone turn
            ((grants self.old.state.entries < above) ⊎ LacksBlock pages block self.old.state)) }
        ensures out { OnErr result (RunsOut pages now self.old.state self.new.state) }
        ensures taker { self.new.taker ≡ self.old.taker }
    {
        if self.desk.state.book().grants() < above {
            return Ok(None);
        }
        let state = &mut self.desk.state;
        let Some(side) = grant_in_turn(state, alloc, client, pages, now, block)? else {
            return Ok(None);
        };
        count_grant(&mut self.totals, shares);
        Ok(Some(side))
    }

    /// Reduces to the limit, and counts it.
    pub(crate) fn enforce_counted(
        &mut self,
        _settled: Settled,
        alloc: Global,
        now: u64,
        shares: &mut Option<Shares<G, E>>,
    ) -> Result<Reduced, NoMemory>
        requires moment { IsMoment now }
        requires shares { is_some shares.old ≡ F.counts }
        ensures ended { IfOk result (λ told. HasEnded F.limit now told) }
        ensures counted { OnOk result (shares.new ≡ option_map with_round shares.old) }
        ensures err { OnErr result (shares.new ≡ shares.old) }
        ensures reduces { IfOk result (λ told.
            Reduces F.limit now told self.old.state self.new.state) }
        ensures same { OnErr result (self.new ≡ self.old) }
        ensures taker { self.new.taker ≡ self.old.taker }
    {
        let told = self.desk.state.enforce(alloc, now)?;
        // For the proof: calls up the clause `few` of `entry_count`.
        entry_count(&self.desk.state);
        count_round(&mut self.totals, shares);
        Ok(told)
    }

    /// Reduces to the limit.
    pub(crate) fn enforce(&mut self, alloc: Global, now: u64) -> Result<Reduced, NoMemory>
        requires { IsMoment now }
        ensures ended { IfOk result (λ told. HasEnded F.limit now told) }
        ensures reduces { IfOk result (λ told.
            Reduces F.limit now told self.old.state self.new.state) }
        ensures same { OnErr result (self.new ≡ self.old) }
        ensures taker { self.new.taker ≡ self.old.taker }
    {
        self.desk.state.enforce(alloc, now)
    }

    /// Reduces as a level of pressure asks.
    pub(crate) fn pressure(
        &mut self,
        alloc: Global,
        level: Level,
        now: u64,
    ) -> Result<Reduced, NoMemory>
        requires { IsMoment now }
        ensures ended { IfOk result (λ told. HasEnded (limit_under level F.limit) now told) }
        ensures reduces { IfOk result (λ told.
            Reduces (limit_under level F.limit) now told self.old.state self.new.state) }
        ensures same { OnErr result (self.new ≡ self.old) }
        ensures taker { self.new.taker ≡ self.old.taker }
    {
        self.desk.state.pressure(alloc, level, now)
    }

    /// The same, where a handle asks.
    pub(crate) fn pressure_settled(
        &mut self,
        _settled: Settled,
        alloc: Global,
        level: Level,
        now: u64,
    ) -> Result<Reduced, NoMemory>
        requires { IsMoment now }
        ensures ended { IfOk result (λ told. HasEnded (limit_under level F.limit) now told) }
        ensures reduces { IfOk result (λ told.
            Reduces (limit_under level F.limit) now told self.old.state self.new.state) }
        ensures same { OnErr result (self.new ≡ self.old) }
        ensures taker { self.new.taker ≡ self.old.taker }
    {
        self.pressure(alloc, level, now)
    }

    /// The state.
    pub(crate) fn finish(self) -> State
        ensures same { result ≡ self.state }
        ensures limit { result.limit ≡ F.limit }
        ensures grown { (granted : ℕ) × Grows F.limit granted 0 F.handed result.entries }
        ensures legal { IsLegal result.entries }
    {
        let Behind { desk, .. } = self;
        let Desk { state, .. } = desk;
        // For the proof: calls up the clause `legal` of `State::book`.
        let _book = state.book();
        state
    }

    /// The state, where all shares are together.
    pub(crate) fn finish_with(self, mut whole: Shares<G, E>) -> State
        requires counts { F.counts ≡ true }
        requires all { whole.parts ≡ PARTS }
        ensures same { result ≡ self.state }
        ensures limit { result.limit ≡ F.limit }
        ensures grown { Grows F.limit whole.grants whole.rounds F.handed result.entries }
        ensures legal { IsLegal result.entries }
    {
        let Behind { desk, totals, .. } = self;
        let Some(mut totals) = totals else {
            unreachable!()
        };
        totals.audit(&mut whole);
        let Desk { state, .. } = desk;
        // For the proof: calls up the clause `legal` of `State::book`.
        let _book = state.book();
        state
    }
}
