ghost use Rattle.std.specs.Prelude.{◌≡◌, ◌+◌, ◌≤◌, true, Some, length, map, IfSome, IfNone};
ghost use Rattle.units.specs.Moment.{IsMoment};
ghost use Rattle.machine.specs.Reduction.{has_ended};
ghost use Rattle.discard_book.specs.Live.{live};
ghost use Rattle.lru_reduce.specs.Wards.{candidates_of, segments_of, total_pages};
ghost use Rattle.lru_reduce.specs.Turns.{IsDueOn};
ghost use Rattle.lru_reduce.specs.Reducing.{ReducesTo, TellsEnd};

use crate::order::Order;
use crate::slots::Won;
use block_pool::Pool;
use discard_book::{Book, Entry};

/// What a reduction answers.
#[derive(Clone, Copy, Debug, PartialEq, Eq)]
pub struct Reduced {
    /// The pages that are granted after it.
    pub after: u128,
    /// The least known use of a live segment, 0 for a segment whose use is not known yet.
    /// None says that no segment is live.
    pub least: Option<u64>,
    /// How many segments it purged.
    pub purges: u64,
}

impl Order {
    /// The number of the least, where a reduction goes on.
    fn due(&self, granted: u128, limit: u64, now: u64) -> Option<u64>
        requires { granted ≡ total_pages self.now.sides }
        ensures some { IfSome result (λ id. IsDueOn limit now id self.now.sides) }
        ensures none { IfNone result (has_ended limit now (candidates_of self.now.sides) ≡ true) }
    {
        if granted <= u128::from(limit) {
            return None;
        }
        let (id, known) = self.least()?;
        if known < now { Some(id) } else { None }
    }

    /// Reduces granted pages to a limit at a moment. While they are above the limit, and the least known
    /// use is before the moment, it makes a purge try on the least segment: a purged one leaves, its block
    /// goes to the pool and its Purge to the book, and another is known by its newer use. At the end
    /// the book gets the Reduced entry.
    pub fn reduce(
        &mut self,
        granted: &mut u128,
        limit: u64,
        now: u64,
        book: &mut Book,
        pool: &mut Pool,
    ) -> Reduced
        requires moment { IsMoment now }
        requires live { live book.old.entries ≡ segments_of self.old.sides }
        requires granted { granted.old ≡ total_pages self.old.sides }
        requires spare { length self.old.sides + 1 ≤ book.old.spare }
        ensures reduces { ReducesTo limit now result.least result.purges
            self.old.sides self.new.sides book.old.entries book.new.entries pool.old pool.new }
        ensures told { TellsEnd limit now result.after result.least self.new.sides }
        ensures granted { granted.new ≡ total_pages self.new.sides }
        ensures live { live book.new.entries ≡ segments_of self.new.sides }
        ensures spare { self.new.spare ≡ self.old.spare }
        ensures fewer { length self.new.sides + result.purges ≡ length self.old.sides }
        ensures spent { book.new.spare + result.purges + 1 ≡ book.old.spare }
    {
        let before = self.live();
        while let Some(id) = self.due(*granted, limit, now) {
            if let Ok(
                Won {
                    pages,
                    known,
                    block,
                },
            ) = self.try_live(id, now)
            {
                *granted -= u128::from(pages);
                book.add(Entry::Purge { id, known });
                pool.put(block);
            }
        }
        let purges = (before - self.live()) as u64;
        let least = self.least_use();
        let after = *granted;
        book.add(Entry::Reduced {
            limit,
            now,
            after,
            least,
        });
        Reduced {
            after,
            least,
            purges,
        }
    }
}
