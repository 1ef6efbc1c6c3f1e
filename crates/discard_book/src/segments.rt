ghost use Rattle.std.specs.Prelude.{◌≡◌, ℕ, ◌+◌, ◌-◌, ◌*◌, ◌^◌, ◌<◌, ◌≤◌, [], ◌∷◌, ◌++◌, sum, slice_index, slice_set, vec_len, vec_capacity, OnOk, OnErr};
ghost use Rattle.units.specs.declared.TheConstants.{MOST_PAGES};
ghost use Rattle.discard_book.specs.Table.{numbered, table_after, CanFollow};
ghost use Rattle.discard_book.specs.Live.{has_number};

use crate::entry::Entry;
use std::alloc::Global;
use units::NoMemory;

/// The live segments. Numbers are drawn in order from 1, so a table by number finds each at once.
#[derive(Drop)]
pub(crate) struct Segments {
    /// For each number, from 1 on, the pages of its segment, or 0 where it is not live.
    pages: Vec<u32>,
    /// The pages of all live segments.
    total: u128,
    ghost totalled: { total ≡ sum pages.items },
    ghost bounded: { total ≤ MOST_PAGES * vec_len pages },
}

impl Segments {
    /// No number was drawn yet.
    pub(crate) fn new(alloc: Global) -> Segments
        ensures { result.pages.items ≡ [] }
    {
        Segments {
            pages: Vec::new(alloc),
            total: 0,
        }
    }

    /// How many numbers were drawn.
    pub(crate) fn drawn(&self) -> u64
        ensures drawn { result ≡ vec_len self.now.pages }
        ensures few { result < 2 ^ 63 }
    {
        self.pages.len() as u64
    }

    /// The pages of all live segments.
    pub(crate) fn total(&self) -> u128
        ensures { result ≡ sum self.now.pages.items }
    {
        self.total
    }

    /// Whether the segment of this number is live.
    pub(crate) fn is_live(&self, number: u64) -> bool
        ensures { result ≡ has_number (numbered 1 self.now.pages.items) number }
    {
        number >= 1 && number <= self.pages.len() as u64 && self.pages[number as usize - 1] > 0
    }

    /// For how many more numbers the table has room.
    pub(crate) fn room(&self) -> u64
        ensures { vec_len self.now.pages + result ≡ vec_capacity self.now.pages }
    {
        (self.pages.capacity() - self.pages.len()) as u64
    }

    /// Makes room for `more` numbers.
    pub(crate) fn reserve(&mut self, more: usize) -> Result<(), NoMemory>
        ensures ok { OnOk result (vec_len self.new.pages + more ≤ vec_capacity self.new.pages) }
        ensures same { self.new.pages.items ≡ self.old.pages.items }
        ensures capacity { vec_capacity self.old.pages ≤ vec_capacity self.new.pages }
    {
        self.pages.reserve(more)?;
        Ok(())
    }

    /// Follows an entry: a Grant draws the next number, and a Purge and a Back take a segment out.
    pub(crate) fn follow(&mut self, entry: &Entry)
        requires room { vec_len self.old.pages < vec_capacity self.old.pages }
        requires can { CanFollow self.old.pages.items entry.now }
        ensures pages { self.new.pages.items ≡ table_after self.old.pages.items entry.now }
        ensures len { vec_len self.new.pages ≤ vec_len self.old.pages + 1 }
        ensures capacity { vec_capacity self.old.pages ≤ vec_capacity self.new.pages }
    {
        match *entry {
            Entry::Grant { pages, .. } => self.grant(pages),
            Entry::Purge { id, .. } | Entry::Back { id } => self.take_out(id),
            Entry::Reduced { .. } => {}
        }
    }

    /// Draws the next number, for a segment of `pages` pages.
    fn grant(&mut self, pages: u32)
        requires room { vec_len self.old.pages < vec_capacity self.old.pages }
        requires few { pages ≤ MOST_PAGES }
        ensures pages { self.new.pages.items ≡ self.old.pages.items ++ pages ∷ [] }
        ensures len { vec_len self.new.pages ≡ vec_len self.old.pages + 1 }
        ensures capacity { vec_capacity self.old.pages ≤ vec_capacity self.new.pages }
    {
        self.pages.push_reserved(pages);
        self.total += u128::from(pages);
    }

    /// Takes a segment out of those that are live.
    fn take_out(&mut self, number: u64)
        requires drawn { (1 ≤ number) × (number ≤ vec_len self.old.pages) }
        ensures pages { self.new.pages.items ≡ slice_set self.old.pages.items (number - 1) 0 }
        ensures len { vec_len self.new.pages ≡ vec_len self.old.pages }
        ensures capacity { vec_capacity self.new.pages ≡ vec_capacity self.old.pages }
    {
        let place = number as usize - 1;
        self.total -= u128::from(self.pages[place]);
        self.pages[place] = 0;
    }
}
