ghost use Rattle.std.specs.Prelude.{◌≡◌, ◌↔◌, ◌+◌, ◌-◌, ◌*◌, ◌^◌, ◌<◌, ◌≤◌, ℕ, [], List, Some, true, false, IsTrue, IfOk, IfErr, OnOk, OnErr, filter, drop, reverse, length};
ghost use Rattle.units.specs.Moment.{IsMoment};
ghost use Rattle.units.specs.declared.TheConstants.{MOST_PAGES, PAGE};
ghost use Rattle.segment.specs.Owned.{Owned};
ghost use Rattle.span_heap.specs.Heap.{size_of};
ghost use Rattle.client.specs.Sizes.{wanted};
ghost use Rattle.client.specs.Pieces.{Owns, AllStay, OthersStay, IsNew, LocksPiece, UnlocksPiece, bytes_of, part_after_lock, WritesOnly};
ghost use Rattle.client.specs.Places.{NoneAllFree, LeavesUsed, is_all_free};
ghost use Rattle.client.specs.GivingUp.{FindsGone, KeepsUntold};
ghost use Rattle.client.specs.TakenBack.{Return, TookAll, AreReturned, gone_returns, untold_returns, CameFrom, CameToNothing, AskedFor};
ghost use Rattle.std.specs.Borrow.{sem};
ghost use Rattle.units.specs.Count.{next_count};
ghost use Rattle.client.specs.Calls.{LocksPart, UnlocksRun, AfterFree};
ghost use Rattle.client.specs.Gone.{AreGone, Includes};
ghost use Rattle.client.specs.declared.granted.ClientFault.TheVariants as fault;
ghost use Rattle.client.specs.Granting.{Allocates, granted_pages, GrowsBy, Releases, IsSettled, RoseBy, LAST_COUNT, IsTooLarge, CameWhole, IsBalanced, AllocatesCounted, IsOutOfMemory, GrantsNone, ReturnsOwed};

use crate::answers::{Unadopted, Unlocked};
use crate::client::Client;
use crate::ending::{ClientEnd, Sides};
use crate::piece::Piece;
use crate::returning::{give_back_all, give_back_free, give_back_held, tell_all};
use crate::sizes::wanted;
use segment::{Granter, Lock};
use std::alloc::Global;
use std::marker::Model;
use std::snapshot::Snapshot;
use std::sync::Wait;
use std::thread::Threads;
use units::{NoMemory, pages_for};

/// Why an allocation gave no piece.
#[derive(Clone, Copy, Debug, PartialEq, Eq)]
pub enum ClientFault {
    /// Out of memory.
    NoMemory,
    /// So many pages are wanted, more than the 65,536 of the longest segment.
    TooLarge { pages: u64 },
}

impl From<NoMemory> for ClientFault {
    ghost from_gives = { λ _ e. e ≡ fault.NoMemory };

    fn from(_error: NoMemory) -> ClientFault {
        ClientFault::NoMemory
    }
}

/// A client over what grants its segments.
///
/// `allocate` looks among the free pages of its segments, and asks for a new segment where they do not
/// serve. `release_purged` and `release_free` give back what is no more of use, and `close` gives back
/// all. Each segment that was granted is given back once: with its block, or with none where it was
/// purged. Its calls that take `rt` may wait for another thread.
#[derive(Drop)]
pub struct Granted<G: Granter + Drop> {
    client: Client,
    pub(crate) granter: G,
    /// The granter as it was when this was made.
    start: Snapshot<G>,
    grants: u64,
}

impl<G: Granter + Drop> Model for Granted<G> {
    ghost use Rattle.std.specs.Prelude.{◌≡◌};
    ghost use Rattle.client.specs.Granting.{Session, IsBalanced};

    ghost Value = { Session G };

    ghost view = { λ g.
        record {
          client = g.client;
          granter = g.granter;
          start = g.start.value;
          grants = g.grants;
        } };

    ghost invariant = { λ g.
        IsBalanced (G.grants g.start.value) (G.grants g.granter) (G.returns g.start.value)
        (G.returns g.granter) (G.greatest g.granter) g.grants g.client
        × (G.standing g.granter ≡ G.standing g.start.value) };
}

impl<G: Granter + Drop> Granted<G> {
    ghost use Rattle.client.specs.GrantedLending.{LendsOwnPiece};

    /// A client over a granter. The client has no segment, and none that is gone.
    pub fn new(client: Client, granter: G) -> Granted<G>
        requires leases { client.leases ≡ [] }
        requires gone { client.gone ≡ [] }
        ensures client { result.client ≡ client }
        ensures granter { result.granter ≡ granter }
        ensures start { result.start ≡ granter }
        ensures grants { result.grants ≡ 0 }
    {
        // For the proof: calls up the clause `told` of `Client::number`.
        let _number = client.number();
        Granted {
            client,
            start: Snapshot::of(&granter),
            granter,
            grants: 0,
        }
    }

    /// The client. As many segments were granted since `new` as it counts, and all but those that the
    /// client has or has not told were given back.
    pub fn client(&self) -> &Client
        ensures client { result.now ≡ self.now.client }
        ensures balanced { IsBalanced (G.grants self.now.start) (G.grants self.now.granter)
            (G.returns self.now.start) (G.returns self.now.granter) (G.greatest self.now.granter)
            self.now.grants self.now.client }
    {
        &self.client
    }

    /// Whether the client owns a piece.
    pub fn owns(&self, piece: &Piece) -> bool
        ensures { IsTrue result ↔ Owns self.now.client piece.now }
    {
        self.client.owns(piece)
    }

    /// Locks a piece that is not locked, as `Client::lock` does.
    pub fn lock(&mut self, piece: &mut Piece) -> Lock
        requires owned { Owns self.old.client piece.old }
        requires free { piece.old.locked ≡ false }
        ensures locks { LocksPart piece.old result self.old.client self.new.client }
        ensures piece { piece.new ≡ part_after_lock result piece.old }
        ensures leaves { LocksPiece result piece.old self.old.client self.new.client }
        ensures same { self.new ≡ record self.old { client = self.new.client } }
    {
        self.client.lock(piece)
    }

    /// Unlocks a locked piece at a moment, as `Client::unlock` does.
    pub fn unlock(&mut self, piece: &mut Piece, now: u64) -> Unlocked
        requires owned { Owns self.old.client piece.old }
        requires locked { piece.old.locked ≡ true }
        requires moment { IsMoment now }
        ensures unlocks { UnlocksRun piece.old.run now result self.old.client self.new.client }
        ensures piece { piece.new ≡ record piece.old { locked = false } }
        ensures leaves { UnlocksPiece piece.old self.old.client self.new.client }
        ensures same { self.new ≡ record self.old { client = self.new.client } }
    {
        self.client.unlock(piece, now)
    }

    /// The bytes of a locked piece.
    pub fn bytes(&self, piece: &Piece) -> &[u8]
        requires owned { Owns self.now.client piece.now }
        requires locked { piece.now.locked ≡ true }
        ensures value { result.now ≡ bytes_of self.now.client piece.now.run }
        ensures sized { length result.now ≡ PAGE * piece.now.run.pages }
    {
        self.client.bytes(piece)
    }

    /// The bytes of a locked piece, to be written, as `Client::bytes_mut` lends them.
    pub fn bytes_mut(&mut self, piece: &Piece) -> &mut [u8]
        requires owned { Owns self.old.client piece.now }
        requires locked { piece.now.locked ≡ true }
        ensures* writes_back { sem 𝓛
            (LendsOwnPiece G.row G.Granter self.entry piece.now.run result) }
        ensures value { result.now ≡ bytes_of self.old.client piece.now.run }
        ensures sized { length result.now ≡ PAGE * piece.now.run.pages }
        ensures only { WritesOnly piece.now self.old.client }
    {
        self.client.bytes_mut(piece)
    }

    /// Gives a piece up, as `Client::free` does.
    pub fn free(&mut self, piece: Piece, now: u64) -> bool
        requires owned { Owns self.old.client piece }
        requires moment { IsMoment now }
        ensures frees { AfterFree result piece now self.old.client self.new.client }
        ensures stay { OthersStay piece.run self.old.client self.new.client }
        ensures same { self.new ≡ record self.old { client = self.new.client } }
    {
        self.client.free(piece, now)
    }

    /// Allocates a locked piece of so many bytes, at least one page. It looks among the free pages; where it
    /// finds none it releases the purged segments and asks for a new one, of the standard size or of the
    /// pages that are wanted where these are more. TooLarge exactly where they are more than 65,536, and
    /// then nothing changed. After `NoMemory` all pieces stay and no segment came, segments found gone have
    /// left, and a segment that was granted in this call was given back.
    ///
    /// Condition: the client's `heap_pages` is below 2^32 - 65,536.
    pub fn allocate<H: Threads + Wait + Sync>(
        &mut self,
        rt: &H,
        alloc: Global,
        bytes: u64,
        now: u64,
    ) -> Result<Piece, ClientFault>
        requires small { size_of self.old.client.heap.segments + MOST_PAGES < 2 ^ 32 }
        requires moment { IsMoment now }
        ensures large { IsTooLarge bytes result self.old self.new }
        ensures ok { IfOk result (λ piece. (pages : ℕ) × (wanted bytes ≡ Some pages)
            × Allocates pages piece self.old.client self.new.client
            × IsNew pages self.old.client self.new.client piece) }
        ensures size { IfOk result (λ piece. (pages : ℕ) × (wanted bytes ≡ Some pages)
            × (size_of self.new.client.heap.segments
            ≤ size_of self.old.client.heap.segments + granted_pages self.old.client pages)) }
        ensures grants { IfOk result (λ piece. (pages : ℕ) × (wanted bytes ≡ Some pages)
            × AllocatesCounted pages piece self.old self.new) }
        ensures asked { IfOk result (λ piece. (pages : ℕ) × (wanted bytes ≡ Some pages)
            × AskedFor G.granted_to G.took_back now pages piece self.old self.new) }
        ensures out { IsOutOfMemory bytes result self.old self.new }
        ensures no_more { OnErr result (size_of self.new.client.heap.segments
            ≤ size_of self.old.client.heap.segments) }
        ensures gone { Includes self.old.client.gone self.new.client.gone }
        ensures stay { AllStay self.old.client self.new.client }
        ensures start { self.new.start ≡ self.old.start }
    {
        let Some(pages) = wanted(bytes) else {
            return Err(ClientFault::TooLarge {
                pages: pages_for(bytes),
            });
        };
        if let Some(piece) = self.client.find(pages) {
            return Ok(piece);
        }
        self.release_purged(rt);
        Ok(self.grow(rt, alloc, pages, now)?)
    }

    /// Asks for a new segment, and answers its first pages as a locked piece.
    fn grow<H: Threads + Wait + Sync>(
        &mut self,
        rt: &H,
        alloc: Global,
        pages: u32,
        now: u64,
    ) -> Result<Piece, NoMemory>
        requires pages { (1 ≤ pages) × (pages ≤ MOST_PAGES) }
        requires small { size_of self.old.client.heap.segments + MOST_PAGES < 2 ^ 32 }
        requires moment { IsMoment now }
        ensures ok { IfOk result (λ piece. GrowsBy pages piece self.old.client self.new.client) }
        ensures counted { OnOk result (self.new.grants ≡ next_count self.old.grants) }
        ensures granted { IfOk result (λ piece. CameFrom G.granted_to self.old.client.number now pages
            piece self.old.client self.new.client self.old.granter self.new.granter) }
        ensures nothing { OnErr result (CameToNothing G.granted_to G.took_back G.grants G.returns
            self.old.client.number now self.old.granter self.new.granter) }
        ensures piece { IfOk result (λ piece. IsNew pages self.old.client self.new.client piece) }
        ensures same { OnErr result (self.new.client ≡ self.old.client) }
        ensures stay { AllStay self.old.client self.new.client }
        ensures start { self.new.start ≡ self.old.start }
    {
        let size = pages.max(self.client.standard());
        let number = self.client.number();
        let side = self.granter.grant(rt, alloc, number, size, now)?;
        self.grants = self.grants.saturating_add(1);
        match self.client.adopt(alloc, side, pages, now) {
            Ok(piece) => Ok(piece),
            Err(unadopted) => {
                let Unadopted { side } = unadopted;
                give_back_held(&mut self.granter, rt, number, side);
                Err(NoMemory)
            }
        }
    }

    /// Looks at each segment that has no locked page, and tells the granter each that was found gone, now or
    /// before. It answers how many were found gone now.
    pub fn release_purged<H: Threads + Wait + Sync>(&mut self, rt: &H) -> u64
        ensures releases { (lost : List Owned) × (result ≡ length lost)
            × Releases lost self.old.client self.new.client }
        ensures took { TookAll G.took_back self.old.client.number
            (gone_returns (drop self.old.client.told self.new.client.gone))
            self.old.granter self.new.granter }
        ensures gone { Includes self.old.client.gone self.new.client.gone }
        ensures stay { AllStay self.old.client self.new.client }
        ensures start { self.new.start ≡ self.old.start }
        ensures grants { self.new.grants ≡ self.old.grants }
        ensures granted { GrantsNone (G.grants self.old.granter) (G.grants self.new.granter)
            (G.greatest self.old.granter) (G.greatest self.new.granter) }
        ensures standing { G.standing self.new.granter ≡ G.standing self.old.granter }
        ensures returned { ReturnsOwed (G.returns self.old.granter) (G.returns self.new.granter)
            self.old.client self.new.client }
    {
        let lost = self.client.sweep();
        tell_all(&mut self.client, &mut self.granter, rt);
        lost
    }

    /// Gives back each segment that is all free, and no other, and answers how many were whole: the
    /// others were purged, and their sides are kept among the gone ones. All else stays: the other
    /// segments, their used spans and their free runs in their order.
    pub fn release_free<H: Threads + Wait + Sync>(&mut self, rt: &H) -> u64
        ensures whole { CameWhole result self.old.client self.new.client }
        ensures took { (returns : List Return)
            × AreReturned self.new.client.gone
            (filter (is_all_free self.old.client.heap.used) self.old.client.leases) returns
            × TookAll G.took_back self.old.client.number returns
            self.old.granter self.new.granter }
        ensures left { LeavesUsed self.old.client self.new.client }
        ensures none { NoneAllFree self.new.client }
        ensures gone { Includes self.old.client.gone self.new.client.gone }
        ensures found { FindsGone
            (filter (is_all_free self.old.client.heap.used) self.old.client.leases)
            self.old.client self.new.client.gone }
        ensures told { KeepsUntold self.old.client self.new.client }
        ensures stay { AllStay self.old.client self.new.client }
        ensures start { self.new.start ≡ self.old.start }
        ensures grants { self.new.grants ≡ self.old.grants }
        ensures granted { GrantsNone (G.grants self.old.granter) (G.grants self.new.granter)
            (G.greatest self.old.granter) (G.greatest self.new.granter) }
        ensures standing { G.standing self.new.granter ≡ G.standing self.old.granter }
        ensures returned { ReturnsOwed (G.returns self.old.granter) (G.returns self.new.granter)
            self.old.client self.new.client }
    {
        give_back_free(&mut self.client, &mut self.granter, rt)
    }

    /// Ends the client: every segment is given back. The end tells how many were granted, and has each side
    /// that was found gone, before or now, each once, and no other.
    pub fn close<H: Threads + Wait + Sync>(self, rt: &H) -> ClientEnd
        ensures end { result.grants ≡ self.grants }
        ensures gone { AreGone result.gone }
        ensures found { FindsGone self.client.leases self.client result.gone }
        ensures kept { Includes self.client.gone result.gone }
    {
        let (end, _granter) = self.close_with(rt);
        end
    }

    /// Ends the client as `close` does, and hands the granter back. Since `new` as many grants were made as
    /// the end tells, and as many returns, where no count of the granter stands at its last value. Its
    /// count of grants is what it was and those that the end tells, or the last value where that is less.
    /// Its standing is the one that it had.
    pub fn close_with<H: Threads + Wait + Sync>(self, rt: &H) -> (ClientEnd, G)
        ensures end { result.0.grants ≡ self.grants }
        ensures took { (returns : List Return) × (between : G)
            × AreReturned result.0.gone (reverse self.client.leases) returns
            × TookAll G.took_back self.client.number returns self.granter between
            × TookAll G.took_back self.client.number (untold_returns self.client)
            between result.1 }
        ensures settled { IsSettled (G.grants self.start) (G.grants result.1) (G.returns self.start)
            (G.returns result.1) result.0.grants }
        ensures exact { RoseBy (G.grants self.start) (G.grants result.1) result.0.grants }
        ensures within { result.0.grants ≤ LAST_COUNT }
        ensures greatest { G.greatest result.1 ≡ G.greatest self.granter }
        ensures standing { G.standing result.1 ≡ G.standing self.start }
        ensures gone { AreGone result.0.gone }
        ensures found { FindsGone self.client.leases self.client result.0.gone }
        ensures kept { Includes self.client.gone result.0.gone }
    {
        let Granted {
            mut client,
            mut granter,
            grants,
            ..
        } = self;
        give_back_all(&mut client, &mut granter, rt);
        tell_all(&mut client, &mut granter, rt);
        let gone = Sides::of(client.into_gone());
        (ClientEnd { gone, grants }, granter)
    }
}
