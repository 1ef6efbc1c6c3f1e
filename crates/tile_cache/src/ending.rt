ghost use Rattle.std.specs.Prelude.{◌≡◌};
ghost use Rattle.std.specs.Map.{keys_of};

use crate::counts::Counts;
use client::{ClientEnd, Granted, Piece};
use lru::LruCache;
use segment::Granter;
use std::marker::Model;
use tile_source::Tile;

/// A cache was not made, out of memory: its client comes back as it was.
#[derive(Drop)]
pub struct Uncached<G: Granter + Drop> {
    pub granted: Granted<G>,
}

/// What is left of a cache that was closed: the tiles of its entries, the most recent first, its counts,
/// and what its client left. Only closing a cache makes one, and it has no copy.
#[derive(Drop)]
pub struct CacheEnd {
    entries: LruCache<Tile, Piece>,
    counts: Counts,
    client: ClientEnd,
}

impl Model for CacheEnd {
    ghost use Rattle.std.specs.Map.{keys_of};
    ghost use Rattle.tile_cache.specs.Ended.{Ended};

    ghost Value = { Ended };

    ghost view = { λ e.
        record { tiles = keys_of e.entries.entries; counts = e.counts; client = e.client } };
}

impl CacheEnd {
    /// The end of a cache of these entries.
    pub(crate) fn of(entries: LruCache<Tile, Piece>, counts: Counts, client: ClientEnd) -> CacheEnd
        ensures { result
            ≡ record { tiles = keys_of entries.entries; counts = counts; client = client } }
    {
        CacheEnd {
            entries,
            counts,
            client,
        }
    }

    /// The counts of the cache.
    pub fn counts(&self) -> Counts
        ensures { result ≡ self.now.counts }
    {
        self.counts
    }

    /// What its client left.
    pub fn client(&self) -> &ClientEnd
        ensures { result.now ≡ self.now.client }
    {
        &self.client
    }
}
