//! Steps on the entries of a cache and its client.
ghost use Rattle.std.specs.Prelude.{◌≡◌, ◌+◌, ◌*◌, ◌^◌, ◌<◌, ◌≤◌, length, take, None, OnOk, OnErr};
ghost use Rattle.std.specs.Map.{lookup};
ghost use Rattle.units.specs.Count.{next_count};
ghost use Rattle.units.specs.Moment.{IsMoment};
ghost use Rattle.tile_source.specs.Tile.{IsTile};
ghost use Rattle.units.specs.declared.TheConstants.{MOST_PAGES, PAGE};
ghost use Rattle.span_heap.specs.Heap.{size_of};
ghost use Rattle.tile_cache.specs.Recent.{is_same};
ghost use Rattle.tile_cache.specs.Cached.{AreFree, OwnsEntries};
ghost use Rattle.tile_cache.specs.Coming.{Clears, Comes, ComesNone};

use crate::counts::Shown;
use client::{Granted, Piece};
use lru::LruCache;
use segment::Granter;
use std::alloc::Global;
use std::collections::HashSet;
use std::sync::Wait;
use std::thread::Threads;
use tile_source::{Tile, TileMaker};
use units::NoMemory;

/// Where a tile is rebuilt its entry, the first, leaves, and its piece is freed.
pub(crate) fn clear<G: Granter + Drop>(
    granted: &mut Granted<G>,
    entries: &mut LruCache<Tile, Piece>,
    shown: Shown,
    now: u64,
)
    requires moment { IsMoment now }
    requires owned { OwnsEntries granted.old.client entries.old.entries }
    requires free { AreFree entries.old.entries }
    ensures clears { Clears now shown granted.old granted.new entries.old.entries
        entries.new.entries }
    ensures cap { entries.new.cap ≡ entries.old.cap }
{
    let Shown::Rebuilt = shown else {
        return;
    };
    if let Some((_, piece)) = entries.pop_mru() {
        granted.free(piece, now);
    }
}

/// Takes the memory of one more entry, for a tile of so many bytes, and puts it in front with a new locked
/// piece; the tile counts as shown.
pub(crate) fn come<G: Granter + Drop, H: Threads + Wait + Sync>(
    granted: &mut Granted<G>,
    entries: &mut LruCache<Tile, Piece>,
    shown: &mut HashSet<Tile>,
    rt: &H,
    alloc: Global,
    tile: Tile,
    size: u64,
    now: u64,
) -> Result<(), NoMemory>
    requires size { (1 ≤ size) × (size ≤ MOST_PAGES * PAGE) }
    requires small { size_of granted.old.client.heap.segments + MOST_PAGES < 2 ^ 32 }
    requires moment { IsMoment now }
    requires owned { OwnsEntries granted.old.client entries.old.entries }
    requires free { AreFree entries.old.entries }
    requires absent { lookup (is_same tile) entries.old.entries ≡ None }
    requires room { length entries.old.entries < entries.old.cap }
    ensures comes { OnOk result (Comes tile size granted.old granted.new entries.old.entries
        entries.new.entries shown.old.keys shown.new.keys) }
    ensures none { OnErr result (ComesNone now size granted.old granted.new entries.old.entries
        entries.new.entries shown.old.keys shown.new.keys) }
    ensures cap { entries.new.cap ≡ entries.old.cap }
{
    shown.reserve(1)?;
    let Ok(piece) = granted.allocate(rt, alloc, size, now) else {
        return Err(NoMemory);
    };
    if let Err(failed) = entries.put(tile, piece) {
        let (_, piece) = failed.value;
        granted.free(piece, now);
        return Err(NoMemory);
    }
    let Ok(_) = shown.insert(tile) else {
        unreachable!()
    };
    Ok(())
}

/// Makes a tile into the first `size` bytes.
pub(crate) fn make_front<M: TileMaker>(maker: &mut M, tile: Tile, bytes: &mut [u8], size: usize)
    requires tile { IsTile tile }
    requires size { size ≡ M.tile_length maker.old }
    requires room { size ≤ length bytes.old }
    ensures front { take size bytes.new ≡ M.tile_of maker.old tile }
    ensures sized { length bytes.new ≡ length bytes.old }
    ensures made { M.made maker.new ≡ next_count (M.made maker.old) }
    ensures same_tiles { M.tile_of maker.new ≡ M.tile_of maker.old }
    ensures same_size { M.tile_length maker.new ≡ M.tile_length maker.old }
{
    maker.make(tile, &mut bytes[..size]);
}
