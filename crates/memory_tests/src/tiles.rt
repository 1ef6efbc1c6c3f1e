ghost use Rattle.std.specs.Prelude.{◌≡◌, ◌≤◌, ◌+◌, ◌*◌, ◌%◌, replicate};
ghost use Rattle.units.specs.Moment.{IsMoment};
ghost use Rattle.tile_source.specs.Tile.{IsTile};
ghost use Rattle.tile_source.specs.declared.tile.Tile.{Tile as Square};
ghost use Rattle.tile_cache.specs.Cached.{IsUsedWith};

use crate::granters::{CLIENT, Grants, Plan, Wardens};
use client::{Client, Granted};
use std::alloc::Global;
use std::sync::Wait;
use std::test::Fail;
use std::thread::Threads;
use tile_cache::{Cache, Counts, Shown};
use tile_source::{Tile, TileMaker};
use units::NoMemory;

/// Makes tiles of one byte value each, from their column and zoom.
#[derive(Drop)]
struct Marks {
    size: usize,
    made: u64,
}

/// The byte of a tile.
fn mark(tile: Tile) -> u8
    ensures { result ≡ (16 * tile.z + tile.x) % 256 }
{
    ((16 * u64::from(tile.z) + u64::from(tile.x)) % 256) as u8
}

impl TileMaker for Marks {
    ghost use Rattle.std.proofs.lemmas.List.{length-replicate};

    ghost tile_of = { λ m t. replicate m.size ((16 * t.z + t.x) % 256) };

    ghost tile_length = { λ m. m.size };

    ghost made = { λ m. m.made };

    ghost has_length = { λ m t. length-replicate m.size ((16 * t.z + t.x) % 256) };

    fn length(&self) -> u64 {
        self.size as u64
    }

    fn make(&mut self, tile: Tile, out: &mut [u8]) {
        out.fill(mark(tile));
        self.made = self.made.saturating_add(1);
    }
}

/// Gets a tile, and tells how, where its bytes are right.
fn ask<H: Threads + Wait + Sync>(
    cache: &mut Cache<Grants<'_>>,
    maker: &mut Marks,
    rt: &H,
    alloc: Global,
    tile: Tile,
    now: u64,
) -> Option<Shown>
    requires tile { IsTile tile }
    requires moment { IsMoment now }
    requires size { maker.old.size ≡ 4096 }
    requires used { IsUsedWith
        (λ (t : Square). replicate maker.old.size ((16 * t.z + t.x) % 256)) maker.old.size cache.old }
    ensures size { maker.new.size ≡ maker.old.size }
    ensures used { IsUsedWith
        (λ (t : Square). replicate maker.old.size ((16 * t.z + t.x) % 256)) maker.old.size cache.new }
{
    if cache.heap_pages() >= 1_000_000 {
        return None;
    }
    match cache.get(rt, alloc, maker, tile, now) {
        Ok((shown, bytes)) => {
            if is_marked(bytes, mark(tile)) {
                Some(shown)
            } else {
                None
            }
        }
        Err(NoMemory) => None,
    }
}

/// Whether these are 4,096 bytes of one value.
fn is_marked(bytes: &[u8], mark: u8) -> bool {
    bytes.len() == 4096 && bytes.iter().all(|byte| *byte == mark)
}

/// Whether the tiles a, b and a of one client are first, first and then this, made and granted so often,
/// with these counts. The segments of the client have one page.
fn answers<H: Threads + Wait + Sync>(
    rt: &H,
    alloc: Global,
    entries: u32,
    plan: Plan,
    third: Shown,
    made: u64,
    grants: u64,
    counts: Counts,
) -> Result<bool, NoMemory>
    requires { (1 ≤ entries) × (entries ≤ 4096) }
{
    let client = Client::new(alloc, CLIENT, 1)?;
    let wardens = Wardens::new(alloc);
    let granted = Granted::new(client, Grants::new(alloc, &wardens, plan)?);
    let Ok(mut cache) = Cache::new(alloc, granted, entries) else {
        return Err(NoMemory);
    };
    let mut maker = Marks {
        size: 4096,
        made: 0,
    };
    let a = Tile { z: 0, x: 1, y: 0 };
    let b = Tile { z: 1, x: 1, y: 0 };
    let first = ask(&mut cache, &mut maker, rt, alloc, a, 1);
    let second = ask(&mut cache, &mut maker, rt, alloc, b, 2);
    let last = ask(&mut cache, &mut maker, rt, alloc, a, 3);
    cache.rest(4);
    let (end, granter) = cache.close_with(rt);
    let shown = first == Some(Shown::First) && second == first && last == Some(third);
    let told = end.counts() == counts && end.client().grants == grants;
    Ok(shown && told && maker.made == made && granter.returns == grants)
}

/// One entry, then two, then two whose segments are purged at each grant.
fn rows<H: Threads + Wait + Sync>(rt: &H, alloc: Global) -> Result<bool, NoMemory> {
    let two = Counts {
        first: 2,
        kept: 0,
        rebuilt: 0,
        again: 0,
    };
    let again = Counts { again: 1, ..two };
    let kept = Counts { kept: 1, ..two };
    let rebuilt = Counts { rebuilt: 1, ..two };
    Ok(
        answers(rt, alloc, 1, Plan::Fails(0), Shown::Again, 3, 1, again)?
            && answers(rt, alloc, 2, Plan::Fails(0), Shown::Kept, 2, 2, kept)?
            && answers(rt, alloc, 2, Plan::Purges, Shown::Rebuilt, 3, 3, rebuilt)?,
    )
}

#[test]
fn tiles_are_kept_and_made_again(rt: HostRuntime) -> Result<(), Fail> {
    assert!(rt; rows(&rt, rt.alloc())?);
    Ok(())
}
