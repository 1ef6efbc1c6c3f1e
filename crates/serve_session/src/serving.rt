ghost use Rattle.std.specs.Prelude.{◌≡◌, ◌+◌, ◌^◌, ◌<◌, ◌≤◌, ◌∷◌, ◌++◌, [], List, length, All, IfOk, OnOk};
ghost use Rattle.units.specs.Moment.{IsMoment};
ghost use Rattle.units.specs.declared.TheConstants.{MOST_PAGES};
ghost use Rattle.request_text.specs.declared.limits.TheConstants.{MOST_REQUESTS};
ghost use Rattle.request_text.specs.Requests.{AreRequests};
ghost use Rattle.serve_texts.specs.Config.{IsServeCfg};
ghost use Rattle.line_text.specs.declared.limits.TheConstants.{MOST_CLIENTS};
ghost use Rattle.serve_texts.specs.declared.limits.TheConstants.{MOST_ROUNDS};
ghost use Rattle.tile_source.specs.Tile.{IsTile};
ghost use Rattle.tile_cache.specs.Getting.{pages_of};
ghost use Rattle.serve_session.specs.Tiling.{reply_of, tile_at, HoldReplies, Makes};
ghost use Rattle.serve_session.specs.Places.{numbers_of, tiles_at, AreEmpty, AreOfClient, IsAnswered, AreAnswered};
ghost use Rattle.serve_session.specs.Served.{IsServed, counts_of};
ghost use Rattle.serve_session.specs.Running.{HasServed, ServesOne, IsUsed};

use crate::served::ServedClient;
use crate::tiling::Tiling;
use client::{Client, Granted};
use discard_io::{Clock, Gate};
use reply_places::{Layout, Place};
use request_text::Requests;
use segment::Granter;
use serve_texts::{ServeCfg, Tally};
use std::alloc::Global;
use std::marker::Model;
use std::sync::Wait;
use std::thread::Threads;
use tile_cache::{Cache, CacheEnd};
use tile_source::{Image, ImageMaker, Tile};
use units::NoMemory;

/// A run: its settings, what its replies are made of, its requests, and what its threads read the
/// time from and pass. It is shared by all threads of the run, and nothing of it changes.
#[derive(Drop)]
pub struct Serving<'a, C, T> {
    cfg: &'a ServeCfg,
    tiling: Tiling<'a>,
    requests: &'a Requests,
    clock: &'a C,
    gate: &'a T,
}

impl<'a, C, T> Model for Serving<'a, C, T> {
    ghost use Rattle.std.specs.Prelude.{◌≡◌};
    ghost use Rattle.request_text.specs.Requests.{AreRequests};
    ghost use Rattle.serve_texts.specs.Config.{IsServeCfg};
    ghost use Rattle.serve_session.specs.Running.{ServingValue};

    ghost Value = { ServingValue };

    ghost view = { λ r. record { cfg = r.cfg.now; tiling = r.tiling; requests = r.requests.now } };

    ghost invariant = { λ r. IsServeCfg r.cfg.now × (r.tiling.side ≡ r.cfg.now.side)
        × AreRequests r.cfg.now.clients r.requests.now };
}

impl<'a, C: Clock, T: Gate> Serving<'a, C, T> {
    /// A run of settings and requests that are in their ranges. The one error is being out of
    /// memory.
    pub fn new(
        alloc: Global,
        cfg: &'a ServeCfg,
        image: &'a Image,
        requests: &'a Requests,
        clock: &'a C,
        gate: &'a T,
    ) -> Result<Serving<'a, C, T>, NoMemory>
        requires lawful { IsServeCfg cfg.now }
        requires requests { AreRequests cfg.now.clients requests.now }
        ensures { IfOk result (λ run. run ≡ record {
          cfg = cfg.now;
          tiling = record { image = image.now; side = cfg.now.side };
          requests = requests.now;
        }) }
    {
        let tiling = Tiling::new(alloc, image, cfg.side)?;
        Ok(Serving {
            cfg,
            tiling,
            requests,
            clock,
            gate,
        })
    }

    /// How many clients there are, from 1 to 64.
    pub fn clients(&self) -> u32
        ensures value { result ≡ self.now.cfg.clients }
        ensures range { (1 ≤ result) × (result ≤ MOST_CLIENTS) }
    {
        self.cfg.clients
    }

    /// How many enforcements of the limit are made, from 0 to 1,000.
    pub fn rounds(&self) -> u32
        ensures value { result ≡ self.now.cfg.rounds }
        ensures range { result ≤ MOST_ROUNDS }
    {
        self.cfg.rounds
    }

    /// What its replies are made of.
    pub fn tiling(&self) -> &Tiling<'a>
        ensures value { result.now ≡ self.now.tiling }
        ensures side { result.now.side ≡ self.now.cfg.side }
    {
        &self.tiling
    }

    /// Its requests: at most 4,096, each of one of its clients and for a tile that may be asked
    /// for.
    pub fn requests(&self) -> &Requests
        ensures value { result.now ≡ self.now.requests }
        ensures lawful { AreRequests self.now.cfg.clients self.now.requests }
    {
        self.requests
    }

    /// Passes the gate at the place of an enforcement as worker 0, and reads the clock.
    pub fn begin_round<H: Threads + Wait + Sync>(&self, rt: &H, round: u32) -> u64
        ensures { IsMoment result }
    {
        self.gate.pass(rt, 0, u64::from(round));
        self.clock.now()
    }

    /// Serves a client's requests in their order, over what grants its segments, which has made no
    /// grant yet. Request `k` of the client, counted from 0, passes the gate at place `2 * k` under the
    /// client's number, reads the clock, gets its tile and copies it out, reads the clock again, rests,
    /// and passes the gate at place `2 * k + 1`. Then the cache is closed.
    ///
    /// The reply to each request is written to the place of its number among all requests. It answers
    /// what came of the client, and what granted its segments. The one error is being out of memory,
    /// which leaves some places without a reply.
    pub fn serve_client<G: Granter + Drop, L: Layout, H: Threads + Wait + Sync>(
        &self,
        rt: &H,
        alloc: Global,
        client: u32,
        granter: G,
        places: &mut [Place<L>],
    ) -> Result<(ServedClient, G), NoMemory>
        requires somebody { 1 ≤ client }
        requires fresh { G.grants granter ≡ 0 }
        requires sized { HoldReplies self.now.tiling L.size }
        requires places { AreOfClient self.now client (numbers_of places.old) }
        requires empty { AreEmpty places.old }
        ensures numbers { numbers_of places.new ≡ numbers_of places.old }
        ensures replies { OnOk result (AreAnswered self.now.tiling self.now.requests places.new) }
        ensures client { IfOk result (λ r. IsServed self.now.cfg client self.now.requests r.0) }
        ensures grants { IfOk result (λ r. G.grants r.1 ≡ r.0.tally.grants) }
        ensures few { IfOk result (λ r. r.0.tally.grants ≤ MOST_REQUESTS) }
        ensures standing { IfOk result (λ r. G.standing r.1 ≡ G.standing granter) }
    {
        let requests = places.len() as u64;
        let mut cache = self.cache(alloc, client, granter)?;
        self.serve_places(rt, alloc, client, &mut cache, places)?;
        let (end, granter) = cache.close_with(rt);
        let tally = tally_of(client, requests, &end);
        Ok((ServedClient { tally, end }, granter))
    }

    /// Serves a client the requests of these places, in turn, with a cache that is new.
    fn serve_places<G: Granter + Drop, L: Layout, H: Threads + Wait + Sync>(
        &self,
        rt: &H,
        alloc: Global,
        client: u32,
        cache: &mut Cache<G>,
        places: &mut [Place<L>],
    ) -> Result<(), NoMemory>
        requires sized { HoldReplies self.now.tiling L.size }
        requires few { length places.old ≤ MOST_REQUESTS }
        requires within { All (λ n. n < length self.now.requests) (numbers_of places.old) }
        requires empty { AreEmpty places.old }
        requires begun { (granter : G) × HasServed self.now [] granter cache.old }
        ensures numbers { numbers_of places.new ≡ numbers_of places.old }
        ensures replies { OnOk result (AreAnswered self.now.tiling self.now.requests places.new) }
        ensures served { OnOk result ((granter : G) → HasServed self.now [] granter cache.old
            → HasServed self.now
            (tiles_at self.now.requests (numbers_of places.old)) granter cache.new) }
    {
        let mut maker = self.tiling.maker();
        for count in 0..places.len() {
            self.serve_place(
                rt,
                alloc,
                client,
                count,
                cache,
                &mut maker,
                &mut places[count],
            )?;
        }
        Ok(())
    }

    /// Serves the request of a place, which is the client's request `count`, between its two places of
    /// the gate.
    fn serve_place<G: Granter + Drop, L: Layout, H: Threads + Wait + Sync>(
        &self,
        rt: &H,
        alloc: Global,
        client: u32,
        count: usize,
        cache: &mut Cache<G>,
        maker: &mut ImageMaker<'_>,
        place: &mut Place<L>,
    ) -> Result<(), NoMemory>
        requires few { count < MOST_REQUESTS }
        requires sized { HoldReplies self.now.tiling L.size }
        requires within { place.old.number < length self.now.requests }
        requires empty { place.old.bytes ≡ [] }
        requires maker { Makes self.now.tiling maker.old }
        requires used { IsUsed self.now.tiling cache.old }
        requires small { pages_of cache.old.session.client + MOST_PAGES < 2 ^ 32 }
        ensures number { place.new.number ≡ place.old.number }
        ensures maker { Makes self.now.tiling maker.new }
        ensures reply { OnOk result (IsAnswered self.now.tiling self.now.requests place.new) }
        ensures served { OnOk result
            (ServesOne self.now (tile_at self.now.requests place.old.number)
            cache.old cache.new) }
    {
        let tile = self.requests.as_slice()[place.number()].tile;
        let at = 2 * count as u64;
        self.gate.pass(rt, client, at);
        self.serve_tile(rt, alloc, tile, cache, maker, place)?;
        self.gate.pass(rt, client, at + 1);
        Ok(())
    }

    /// The cache of a client, over what grants its segments.
    fn cache<G: Granter + Drop>(
        &self,
        alloc: Global,
        client: u32,
        granter: G,
    ) -> Result<Cache<G>, NoMemory>
        requires somebody { 1 ≤ client }
        requires fresh { G.grants granter ≡ 0 }
        ensures { IfOk result (λ cache. HasServed self.now [] granter cache) }
    {
        let client = Client::new(alloc, client, self.cfg.standard)?;
        let granted = Granted::new(client, granter);
        match Cache::new(alloc, granted, self.cfg.entries) {
            Ok(cache) => Ok(cache),
            Err(_) => Err(NoMemory),
        }
    }

    /// Shows a tile, copies it to a place behind its head, and lets it go.
    fn serve_tile<G: Granter + Drop, L: Layout, H: Threads + Wait + Sync>(
        &self,
        rt: &H,
        alloc: Global,
        tile: Tile,
        cache: &mut Cache<G>,
        maker: &mut ImageMaker<'_>,
        place: &mut Place<L>,
    ) -> Result<(), NoMemory>
        requires tile { IsTile tile }
        requires sized { HoldReplies self.now.tiling L.size }
        requires empty { place.old.bytes ≡ [] }
        requires maker { Makes self.now.tiling maker.old }
        requires used { IsUsed self.now.tiling cache.old }
        requires small { pages_of cache.old.session.client + MOST_PAGES < 2 ^ 32 }
        ensures number { place.new.number ≡ place.old.number }
        ensures maker { Makes self.now.tiling maker.new }
        ensures reply { OnOk result (place.new.bytes ≡ reply_of self.now.tiling tile) }
        ensures served { OnOk result (ServesOne self.now tile cache.old cache.new) }
    {
        let (_, bytes) = cache.get(rt, alloc, maker, tile, self.clock.now())?;
        place.append(self.tiling.head());
        place.append(bytes);
        cache.rest(self.clock.now());
        Ok(())
    }
}

/// The tally of a client that asked for so many tiles.
fn tally_of(client: u32, requests: u64, end: &CacheEnd) -> Tally
    ensures client { result.client ≡ client }
    ensures requests { result.requests ≡ requests }
    ensures counts { counts_of result ≡ end.now.counts }
    ensures grants { result.grants ≡ end.now.client.grants }
{
    let counts = end.counts();
    Tally {
        client,
        requests,
        first: counts.first,
        kept: counts.kept,
        rebuilt: counts.rebuilt,
        again: counts.again,
        grants: end.client().grants,
    }
}
