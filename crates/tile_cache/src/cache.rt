ghost use Rattle.std.specs.Prelude.{◌≡◌, ◌≢◌, ◌⊎◌, ◌+◌, ◌*◌, ◌-◌, ◌^◌, ◌<◌, ◌≤◌, ◌∷◌, ℕ, [], List, true, false, not, drop, take, length, IfOk, IfErr, OnOk, OnErr, MatchResult, MatchOption, if◌then◌else◌, ⊤};
ghost use Rattle.std.specs.Borrow.{sem, follows_so};
ghost use mathlib.Core.Option.{none};
ghost use Rattle.std.specs.Map.{lookup};
ghost use Rattle.units.specs.Moment.{IsMoment};
ghost use Rattle.units.specs.declared.TheConstants.{MOST_PAGES, PAGE};
ghost use Rattle.span_heap.specs.Heap.{size_of};
ghost use Rattle.tile_source.specs.declared.tile.Tile.{Tile as Square};
ghost use Rattle.tile_source.specs.Tile.{IsTile};
ghost use Rattle.client.specs.Granting.{IsSettled, RoseBy, LAST_COUNT};
ghost use Rattle.tile_cache.specs.Recent.{has_tile, is_same};
ghost use Rattle.units.specs.Count.{next_count};
ghost use Rattle.tile_cache.specs.declared.counts.Shown.TheVariants as kind;
ghost use Rattle.tile_cache.specs.Shown.{no_counts, counted, made_after};
ghost use Rattle.tile_cache.specs.Cached.{IsUsedWith, AreFree, HaveTiles};
ghost use Rattle.tile_cache.specs.Asked.{StandsFor};
ghost use Rattle.tile_cache.specs.Getting.{Gets, Fails, Lent, Rests, LocksEntry, HasNone, MakesRoom, LooksUp, CanMake, Adds, AddsInSteps, AddsNone, KeepsBytes, IsFirst, Writes};
ghost use Rattle.tile_cache.specs.Ended.{Closes};
ghost use Rattle.tile_cache.specs.Bound.{EndsBounded};

use crate::counts::{Counts, Shown};
use crate::ending::{CacheEnd, Uncached};
use crate::keeping::{clear, come, make_front};
use client::{Granted, Piece};
use lru::LruCache;
use segment::{Granter, Lock};
use std::alloc::Global;
use std::collections::HashSet;
use std::marker::Model;
use std::num::NonZeroUsize;
use std::snapshot::Snapshot;
use std::sync::Wait;
use std::thread::Threads;
use tile_source::{Tile, TileMaker};
use units::NoMemory;

/// Tiles in soft memory, over a client and what grants its segments.
///
/// `get` shows a tile: from its entry, where the tile has one whose segment was not purged, and else it
/// makes the tile into a new piece. The piece that is shown stays locked until the next `get` or `rest`,
/// and all others may be purged at any time.
#[derive(Drop)]
pub struct Cache<G: Granter + Drop> {
    granted: Granted<G>,
    /// The client over its granter as it was when this was made.
    start: Snapshot<Granted<G>>,
    entries: LruCache<Tile, Piece>,
    most: u32,
    /// The tiles that were shown.
    shown: HashSet<Tile>,
    counts: Counts,
    /// How many bytes each tile has; 0 before the first get.
    tile_bytes: u64,
    /// Whether a get was out of memory.
    failed: bool,
}

impl<G: Granter + Drop> Model for Cache<G> {
    ghost use Rattle.std.specs.Prelude.{◌≡◌};
    ghost use Rattle.tile_cache.specs.Cached.{Cached};
    ghost use Rattle.tile_cache.specs.Sound.{IsSoundCache};

    ghost Value = { Cached G };

    ghost view = { λ c. record {
      session = c.granted;
      start = c.start.value;
      entries = c.entries.entries;
      most = c.most;
      shown = c.shown.keys;
      counts = c.counts;
      tile_bytes = c.tile_bytes;
      failed = c.failed;
    } };

    ghost invariant = { λ c. IsSoundCache (record {
      session = c.granted;
      start = c.start.value;
      entries = c.entries.entries;
      most = c.most;
      shown = c.shown.keys;
      counts = c.counts;
      tile_bytes = c.tile_bytes;
      failed = c.failed;
    }) c.entries.cap };
}

impl<G: Granter + Drop> Cache<G> {
    ghost use Rattle.tile_cache.specs.contracts.cache.Cache.{the_row};

    /// A cache of at most so many entries, from 1 to 4,096. `Uncached` is being out of memory.
    pub fn new(alloc: Global, granted: Granted<G>, entries: u32) -> Result<Cache<G>, Uncached<G>>
        requires entries { (1 ≤ entries) × (entries ≤ 4096) }
        ensures made { IfOk result (λ cache. cache ≡ record {
          session = granted;
          start = granted;
          entries = [];
          most = entries;
          shown = [];
          counts = no_counts;
          tile_bytes = 0;
          failed = false;
        }) }
        ensures asked { IfOk result (λ cache. StandsFor [] cache) }
        ensures used { IfOk result (λ cache. (tile_of : Square → List ℕ) (size : ℕ)
            → IsUsedWith tile_of size cache) }
        ensures back { IfErr result (λ uncached. uncached.granted ≡ granted) }
    {
        let Some(most) = NonZeroUsize::new(entries as usize) else {
            unreachable!()
        };
        match LruCache::new(alloc, most) {
            Ok(kept) => Ok(Cache {
                start: Snapshot::of(&granted),
                granted,
                entries: kept,
                most: entries,
                shown: HashSet::new(alloc),
                counts: Counts::none(),
                tile_bytes: 0,
                failed: false,
            }),
            Err(_) => Err(Uncached { granted }),
        }
    }

    /// The pages of its client's segments.
    pub fn heap_pages(&self) -> u64
        ensures { result ≡ size_of self.now.session.client.heap.segments }
    {
        self.granted.client().heap_pages()
    }

    /// Unlocks the piece that is shown, at a moment, if there is one.
    pub fn rest(&mut self, now: u64)
        requires moment { IsMoment now }
        ensures { Rests now self.old self.new }
    {
        let Some((tile, piece)) = self.entries.peek_mru() else {
            return;
        };
        if !piece.locked() {
            return;
        }
        let tile = *tile;
        let Some(piece) = self.entries.peek_mut(&tile) else {
            unreachable!()
        };
        self.granted.unlock(piece, now);
    }

    /// Shows a tile, whose bytes stay until the next `get` or `rest`. It works in this order: the piece
    /// shown before is unlocked at the moment; the tile is looked up, which brings its entry to the front;
    /// where it has one, the piece is locked. Where that finds the segment purged, the entry leaves. Where
    /// the tile now has none and there is no room, the last entry leaves and its piece is freed. Then the
    /// memory is taken, the entry is put in front, and the tile is made into its piece. After `NoMemory`
    /// the tile has no entry, and the others are as those steps left them.
    ///
    /// Conditions: the tile is valid; the maker's tiles have from 1 to 268,435,456 bytes; the cache was used
    /// with no maker of another meaning; `heap_pages` is below 2^32 - 65,536. To that a get adds at most the
    /// greater of the standard size and the tile's pages.
    pub fn get<M: TileMaker, H: Threads + Wait + Sync>(
        &mut self,
        rt: &H,
        alloc: Global,
        maker: &mut M,
        tile: Tile,
        now: u64,
    ) -> Result<(Shown, &[u8]), NoMemory>
        requires tile { IsTile tile }
        requires size { (1 ≤ M.tile_length maker.old)
            × (M.tile_length maker.old ≤ MOST_PAGES * PAGE) }
        requires used { IsUsedWith (M.tile_of maker.old) (M.tile_length maker.old) self.old }
        requires small { size_of self.old.session.client.heap.segments + MOST_PAGES < 2 ^ 32 }
        requires moment { IsMoment now }
        ensures* after { sem 𝓛 (follows_so
            (the_row G.row G.Granter) (the_row G.row G.Granter) self.entry.ghost_name none (λ _ _. ⊤)
            (λ new. MatchResult result
            (λ r. Gets now tile r.0 self.old new × Lent tile r.1.now new)
            (λ _. Fails now tile self.old new)
            × IsUsedWith (M.tile_of maker.old) (M.tile_length maker.old) new)) }
        ensures bytes { IfOk result (λ r. r.1.now ≡ M.tile_of maker.old tile) }
        ensures made { MatchResult result
            (λ r. M.made maker.new ≡ made_after r.0 (M.made maker.old))
            (λ _. M.made maker.new ≡ M.made maker.old) }
        ensures same_tiles { M.tile_of maker.new ≡ M.tile_of maker.old }
        ensures same_size { M.tile_length maker.new ≡ M.tile_length maker.old }
    {
        let shown = self.show(rt, alloc, maker, tile, now)?;
        Ok((shown, self.shown_bytes()))
    }

    /// Makes a tile the first entry, with its piece locked and its bytes in front.
    fn show<M: TileMaker, H: Threads + Wait + Sync>(
        &mut self,
        rt: &H,
        alloc: Global,
        maker: &mut M,
        tile: Tile,
        now: u64,
    ) -> Result<Shown, NoMemory>
        requires tile { IsTile tile }
        requires size { (1 ≤ M.tile_length maker.old)
            × (M.tile_length maker.old ≤ MOST_PAGES * PAGE) }
        requires used { IsUsedWith (M.tile_of maker.old) (M.tile_length maker.old) self.old }
        requires small { size_of self.old.session.client.heap.segments + MOST_PAGES < 2 ^ 32 }
        requires moment { IsMoment now }
        ensures gets { IfOk result (λ told. Gets now tile told self.old self.new) }
        ensures lent { OnOk result (Lent tile (M.tile_of maker.old tile) self.new) }
        ensures fails { OnErr result (Fails now tile self.old self.new) }
        ensures used { IsUsedWith (M.tile_of maker.old) (M.tile_length maker.old) self.new }
        ensures made { MatchResult result
            (λ told. M.made maker.new ≡ made_after told (M.made maker.old))
            (λ _. M.made maker.new ≡ M.made maker.old) }
        ensures same_tiles { M.tile_of maker.new ≡ M.tile_of maker.old }
        ensures same_size { M.tile_length maker.new ≡ M.tile_length maker.old }
    {
        let shown = self.look_up(tile, now);
        if let Shown::Kept = shown {
            self.count(shown);
            return Ok(shown);
        }
        self.add(rt, alloc, tile, shown, maker.length(), now)?;
        self.fill(maker, tile);
        Ok(shown)
    }

    /// Looks a tile up, after the piece that was shown was unlocked. Kept: the tile is the first entry, and
    /// its piece is locked. Rebuilt: it is the first entry, and its piece is gone. Else it has no entry, and
    /// there is room for one.
    fn look_up(&mut self, tile: Tile, now: u64) -> Shown
        requires moment { IsMoment now }
        ensures { LooksUp now result tile self.old self.new }
    {
        self.rest(now);
        match self.lock_entry(tile) {
            Some(Lock::Held) => Shown::Kept,
            Some(Lock::Gone) => Shown::Rebuilt,
            None => {
                self.make_room(now);
                self.kind_of(tile)
            }
        }
    }

    /// The bytes of the tile that is shown.
    fn shown_bytes(&self) -> &[u8]
        requires { (tile : Square) × IsFirst tile self.now }
        ensures { (tile : Square) (bytes : List ℕ) → Lent tile bytes self.now → result.now ≡ bytes }
    {
        let Some((_, piece)) = self.entries.peek_mru() else {
            unreachable!()
        };
        &self.granted.bytes(piece)[..self.tile_bytes as usize]
    }

    /// Brings a tile's entry to the front and locks its piece. None exactly where it has no entry.
    fn lock_entry(&mut self, tile: Tile) -> Option<Lock>
        requires free { AreFree self.old.entries }
        ensures { MatchOption result (HasNone tile self.old self.new)
            (λ told. LocksEntry tile told self.old self.new) }
    {
        if self.entries.len() == 0 {
            return None;
        }
        let piece = self.entries.get_mut(&tile)?;
        Some(self.granted.lock(piece))
    }

    /// Where there is no room for one more entry, the last one leaves, and its piece is freed.
    fn make_room(&mut self, now: u64)
        requires moment { IsMoment now }
        requires free { AreFree self.old.entries }
        ensures { MakesRoom now self.old self.new }
    {
        if self.entries.len() < self.most as usize {
            return;
        }
        if let Some((_, piece)) = self.entries.pop_lru() {
            self.granted.free(piece, now);
        }
    }

    /// Which answer a tile with no entry gets: whether it was shown before.
    fn kind_of(&self, tile: Tile) -> Shown
        ensures { result ≡ (if has_tile self.now.shown tile then kind.Again else kind.First) }
    {
        if self.shown.contains(&tile) {
            Shown::Again
        } else {
            Shown::First
        }
    }

    /// Counts a get that made no tile.
    fn count(&mut self, shown: Shown)
        requires { shown ≡ kind.Kept }
        ensures { self.new ≡ record self.old { counts = counted shown self.old.counts } }
    {
        self.counts.count(shown);
    }

    /// Puts an entry in front, for a tile of so many bytes, with a new locked piece, and counts the get of
    /// this answer. Where the tile is rebuilt its dead entry, the first, leaves before.
    fn add<H: Threads + Wait + Sync>(
        &mut self,
        rt: &H,
        alloc: Global,
        tile: Tile,
        shown: Shown,
        size: u64,
        now: u64,
    ) -> Result<(), NoMemory>
        requires made { shown ≢ kind.Kept }
        requires size { (1 ≤ size) × (size ≤ MOST_PAGES * PAGE) }
        requires sized { (self.old.tile_bytes ≡ 0) ⊎ (self.old.tile_bytes ≡ size) }
        requires small { size_of self.old.session.client.heap.segments + MOST_PAGES < 2 ^ 32 }
        requires moment { IsMoment now }
        requires can { CanMake shown tile self.old }
        ensures adds { OnOk result (Adds shown tile size self.old self.new) }
        ensures steps { OnOk result (AddsInSteps now shown tile size self.old self.new) }
        ensures none { OnErr result (AddsNone now shown size self.old self.new) }
        ensures bytes { OnOk result (KeepsBytes size self.old self.new) }
        ensures used { (tile_of : Square → List ℕ) → IsUsedWith tile_of size self.old
            → OnErr result (IsUsedWith tile_of size self.new) }
    {
        self.tile_bytes = size;
        clear(&mut self.granted, &mut self.entries, shown, now);
        let came = come(
            &mut self.granted,
            &mut self.entries,
            &mut self.shown,
            rt,
            alloc,
            tile,
            size,
            now,
        );
        match came {
            Ok(()) => {
                self.counts.count(shown);
                Ok(())
            }
            Err(NoMemory) => {
                self.failed = true;
                Err(NoMemory)
            }
        }
    }

    /// Makes a tile into the first piece.
    fn fill<M: TileMaker>(&mut self, maker: &mut M, tile: Tile)
        requires tile { IsTile tile }
        requires size { self.old.tile_bytes ≡ M.tile_length maker.old }
        requires first { IsFirst tile self.old }
        requires tiles { HaveTiles (M.tile_of maker.old) self.old.session.client
            self.old.tile_bytes (drop 1 self.old.entries) }
        ensures lent { Lent tile (M.tile_of maker.old tile) self.new }
        ensures used { IsUsedWith (M.tile_of maker.old) (M.tile_length maker.old) self.new }
        ensures writes { Writes self.old self.new }
        ensures made { M.made maker.new ≡ next_count (M.made maker.old) }
        ensures same_tiles { M.tile_of maker.new ≡ M.tile_of maker.old }
        ensures same_size { M.tile_length maker.new ≡ M.tile_length maker.old }
    {
        let Some((_, piece)) = self.entries.peek_mru() else {
            unreachable!()
        };
        let size = self.tile_bytes as usize;
        make_front(maker, tile, self.granted.bytes_mut(piece), size);
    }

    /// Ends the cache: every segment of its client is given back. The end has the tiles of the entries and
    /// the counts of the cache, and what its client left.
    ///
    /// Where the cache was made over a client that had been granted nothing, and no get was out of memory:
    /// each rebuilt tile had room of its own in a segment that was found gone, each tile of an entry has room
    /// of its own in a segment that was granted, and no more segments were granted than tiles were made.
    pub fn close<H: Threads + Wait + Sync>(self, rt: &H) -> CacheEnd
        ensures closes { Closes self result }
        ensures bounded { EndsBounded self result }
    {
        let (end, _granter) = self.close_with(rt);
        end
    }

    /// Ends the cache as `close` does, and hands the granter back. Since the client was made over it, it
    /// made as many grants as the end tells, and as many returns, where no count of it stands at its last
    /// value. Its count of grants is what it was and those that the end tells, or the last value where that
    /// is less. Its standing is the one that it had.
    pub fn close_with<H: Threads + Wait + Sync>(self, rt: &H) -> (CacheEnd, G)
        ensures closes { Closes self result.0 }
        ensures settled { IsSettled (G.grants self.start.start) (G.grants result.1)
            (G.returns self.start.start) (G.returns result.1) result.0.client.grants }
        ensures exact { RoseBy (G.grants self.start.start) (G.grants result.1)
            result.0.client.grants }
        ensures within { result.0.client.grants ≤ LAST_COUNT }
        ensures standing { G.standing result.1 ≡ G.standing self.start.start }
        ensures bounded { EndsBounded self result.0 }
    {
        let Cache {
            granted,
            entries,
            counts,
            ..
        } = self;
        // For the proof: calls up the clause `fits` of `LruCache::len`.
        let _tiles = entries.len();
        let (client, granter) = granted.close_with(rt);
        (CacheEnd::of(entries, counts, client), granter)
    }
}
