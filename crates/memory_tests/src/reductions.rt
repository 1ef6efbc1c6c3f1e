ghost use Rattle.std.specs.Prelude.{◌≡◌, IfOk, length};
ghost use Rattle.discard_book.specs.Live.{live};
ghost use Rattle.segment.specs.declared.owner.Phase.TheVariants.{Held};
ghost use Rattle.lru_reduce.specs.Wards.{segments_of, total_pages};

use block_pool::Pool;
use discard_book::{Book, Entry};
use lru_reduce::{Order, Reduced};
use segment::{OwnerSide, make};
use std::alloc::Global;
use std::test::Fail;
use units::is_moment;

fn crosses_threads<T: Send>(_value: &T) -> bool {
    true
}

/// An order with the book and the pool of its segments.
#[derive(Drop)]
struct Granted {
    order: Order,
    book: Book,
    pool: Pool,
    pages: u128,
    segments: u64,
    ghost live: { live book.entries ≡ segments_of order.sides },
    ghost total: { pages ≡ total_pages order.sides },
    ghost counted: { segments ≡ length order.sides },
}

impl Granted {
    fn new(alloc: Global) -> Result<Granted, Fail> {
        Ok(Granted {
            order: Order::new(alloc)?,
            book: Book::new(alloc)?,
            pool: Pool::new(alloc, 8)?,
            pages: 0,
            segments: 0,
        })
    }

    /// A new segment of one page.
    fn grant(&mut self, alloc: Global) -> Result<OwnerSide, Fail>
        ensures { IfOk result (λ side. side.phase ≡ Held) }
    {
        let id = self.book.grants() + 1;
        let entry = Entry::Grant {
            id,
            client: 1,
            pages: 1,
            limit: u64::MAX,
        };
        // For the proof: calls up the clause `live` of `entries`.
        let _drawn = self.book.entries();
        self.order.reserve(alloc, 1)?;
        self.book.reserve(alloc, 1)?;
        if !self.book.fits(&entry) {
            return Err("no grant".into());
        }
        let block = self.pool.take(alloc, 1)?;
        let Ok((owner, warden)) = make(alloc, id, block) else {
            return Err("no memory".into());
        };
        if self.pages >= 1_000_000 || self.segments >= 1_000_000 {
            return Err("too many".into());
        }
        self.order.add(warden);
        self.book.add(entry);
        self.pages += 1;
        self.segments += 1;
        Ok(owner)
    }

    /// A reduction at a moment.
    fn reduce(&mut self, alloc: Global, limit: u64, now: u64) -> Result<Reduced, Fail> {
        if self.segments >= 8 || !is_moment(now) {
            return Err("no reduction".into());
        }
        self.book.reserve(alloc, 9)?;
        let told = self.order.reduce(&mut self.pages, limit, now, &mut self.book, &mut self.pool);
        self.segments -= told.purges;
        Ok(told)
    }
}

/// Whether reductions answer as they should. Each segment has one page and was left at its stamp. A reduction has its
/// limit and its moment, and then its answer: the pages, the least known use and the purges. Last comes the least
/// segment, with its known use.
fn worked(
    alloc: Global,
    stamps: &[u64],
    reductions: &[(u64, u64, u128, Option<u64>, u64, Option<(u64, u64)>)],
) -> Result<bool, Fail> {
    let mut granted = Granted::new(alloc)?;
    for stamp in stamps {
        if !is_moment(*stamp) {
            return Err("no moment".into());
        }
        let mut owner = granted.grant(alloc)?;
        owner.unlock(*stamp);
    }
    for (limit, now, after, least, purges, first) in reductions {
        let told = granted.reduce(alloc, *limit, *now)?;
        let right = Reduced {
            after: *after,
            least: *least,
            purges: *purges,
        };
        if told != right || granted.order.least() != *first {
            return Ok(false);
        }
    }
    Ok(true)
}

#[test]
fn reductions_purge_the_least_used_first(rt: HostRuntime) -> Result<(), Fail> {
    let to_nothing = [
        (0, 8, 1, Some(8), 1, Some((2, 8))),
        (0, 9, 0, None, 1, None),
    ];
    assert!(rt; crosses_threads(&Order::new(rt.alloc())?));
    assert!(rt; worked(rt.alloc(), &[5, 8], &to_nothing)?);
    let one_by_one = [
        (2, 6, 2, Some(4), 1, Some((1, 4))),
        (1, 6, 1, Some(4), 1, Some((2, 4))),
        (0, 4, 1, Some(4), 0, Some((2, 4))),
    ];
    assert!(rt; worked(rt.alloc(), &[4, 4, 3], &one_by_one)?);
    Ok(())
}

/// An order of segments whose use is not known, with the numbers from 1.
fn unknown(alloc: Global, numbers: u64) -> Result<Order, Fail> {
    let mut granted = Granted::new(alloc)?;
    for _ in 0..numbers {
        let _owner = granted.grant(alloc)?;
    }
    Ok(granted.order)
}

/// Whether an order has so many entries and this least one.
fn has(order: &Order, entries: u64, least: Option<(u64, u64)>) -> bool {
    order.entries() == entries && order.least() == least
}

/// Whether dead entries leave at the front, and where there are more of them than live ones.
fn dies_late(alloc: Global) -> Result<bool, Fail> {
    let mut three = unknown(alloc, 3)?;
    let mut five = unknown(alloc, 5)?;
    Ok(
        three.forget(2)
            && has(&three, 3, Some((1, 0)))
            && three.forget(1)
            && has(&three, 1, Some((3, 0)))
            && five.forget(3)
            && five.forget(4)
            && five.forget(5)
            && has(&five, 5, Some((1, 0)))
            && five.reserve(alloc, 1).is_ok()
            && has(&five, 2, Some((1, 0)))
            && !five.forget(3),
    )
}

#[test]
fn dead_entries_leave_late(rt: HostRuntime) -> Result<(), Fail> {
    assert!(rt; dies_late(rt.alloc())?);
    Ok(())
}
