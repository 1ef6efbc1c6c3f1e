ghost use Rattle.std.specs.Prelude.{◌≡◌, ◌^◌, ◌<◌, ◌≤◌, true, [], IfOk, OnOk, OnErr, IsOk, IsOkAnd};
ghost use Rattle.discard_book.specs.Live.{live, has_number, granted, grants, AreDrawn};
ghost use Rattle.discard_book.specs.Legal.{fits_after, has_room, is_reduced_to, last, is_empty, may_stop, IsLegal};
ghost use Rattle.discard_book.specs.Log.{AddsEntry};
ghost use Rattle.discard_book.specs.Text.{text_of};

use crate::entry::Entry;
use crate::segments::Segments;
use crate::text::book_text;
use std::alloc::Global;
use std::marker::Model;
use units::{MOST_PAGES, NoMemory, is_moment};

/// A manager's book, which is legal at every moment. Contracts see its entries, the oldest first,
/// and its spare places: how many entries more it can take without memory.
#[derive(Drop)]
pub struct Book {
    entries: Vec<Entry>,
    segments: Segments,
    spare: u64,
}

impl Model for Book {
    ghost use Rattle.std.specs.Prelude.{◌+◌, ◌≤◌, vec_len, vec_capacity};
    ghost use Rattle.discard_book.specs.Log.{Log};
    ghost use Rattle.discard_book.specs.Table.{Keeps};

    ghost Value = { Log };

    ghost view = { λ b. record { entries = b.entries.items; spare = b.spare } };

    ghost invariant = { λ b. Keeps b.entries.items b.segments.pages.items
        × (vec_len b.entries + b.spare ≤ vec_capacity b.entries)
        × (vec_len b.segments.pages + b.spare ≤ vec_capacity b.segments.pages) };
}

impl Book {
    /// A book without entries, and without spare places. It takes no memory, so it is always made.
    pub fn new(alloc: Global) -> Result<Book, NoMemory>
        ensures { IsOkAnd result (λ book. (book.entries ≡ []) × (book.spare ≡ 0)) }
    {
        Ok(Book {
            entries: Vec::new(alloc),
            segments: Segments::new(alloc),
            spare: 0,
        })
    }

    /// Makes sure of at least `n` spare places, and never takes one away. Its entries stay. After
    /// `NoMemory` the book is as before, which comes only where fewer than `n` places were spare.
    pub fn reserve(&mut self, _alloc: Global, n: u64) -> Result<(), NoMemory>
        ensures ok { OnOk result (n ≤ self.new.spare) }
        ensures kept { self.old.spare ≤ self.new.spare }
        ensures same { self.new.entries ≡ self.old.entries }
        ensures err { OnErr result (self.new ≡ self.old) }
        ensures ready { n ≤ self.old.spare → IsOk result }
    {
        if n <= self.spare {
            return Ok(());
        }
        self.entries.reserve(n as usize)?;
        self.segments.reserve(n as usize)?;
        let room = (self.entries.capacity() - self.entries.len()) as u64;
        self.spare = room.min(self.segments.room());
        Ok(())
    }

    /// How many entries more it can take without memory.
    pub fn spare(&self) -> u64
        ensures { result ≡ self.now.spare }
    {
        self.spare
    }

    /// Whether the book with this entry is a prefix of a legal book.
    pub fn fits(&self, entry: &Entry) -> bool
        ensures { result ≡ fits_after self.now.entries entry.now }
    {
        match *entry {
            Entry::Grant {
                id,
                client,
                pages,
                limit,
            } => {
                id == self.grants() + 1
                    && client >= 1
                    && pages >= 1
                    && pages <= MOST_PAGES
                    && self.has_room(limit.saturating_sub(u64::from(pages)))
            }
            Entry::Reduced {
                limit,
                now,
                after,
                least,
            } => { after == self.granted() && self.may_stop(limit, now, least) }
            Entry::Purge { id, known } => self.is_live(id) && is_moment(known),
            Entry::Back { id } => self.is_live(id),
        }
    }

    /// Whether the segment of this number is live.
    fn is_live(&self, id: u64) -> bool
        ensures { result ≡ has_number (live self.now.entries) id }
    {
        self.segments.is_live(id)
    }

    /// Whether no segment is live. Each live one has pages, so this is where none are granted.
    fn nothing_is_live(&self) -> bool
        ensures { result ≡ is_empty (live self.now.entries) }
    {
        self.segments.total() == 0
    }

    /// Whether granted pages are within this room, or a reduction to it was made directly before.
    fn has_room(&self, room: u64) -> bool
        ensures { result ≡ has_room self.now.entries room }
    {
        self.granted() <= u128::from(room) || self.was_reduced_to(room)
    }

    /// Whether a reduction to this limit may stop now, and tell this least known use.
    fn may_stop(&self, limit: u64, now: u64, least: Option<u64>) -> bool
        ensures { result ≡ may_stop self.now.entries limit now least }
    {
        match least {
            Some(least) => {
                !self.nothing_is_live() && (self.granted() <= u128::from(limit) || now <= least)
            }
            None => self.nothing_is_live(),
        }
    }

    /// Whether the last entry is a Reduced with this limit.
    fn was_reduced_to(&self, limit: u64) -> bool
        ensures { result ≡ is_reduced_to limit (last self.now.entries) }
    {
        match self.entries.last() {
            Some(Entry::Reduced { limit: to, .. }) => *to == limit,
            _ => false,
        }
    }

    /// Adds an entry, which takes one spare place and no memory. `spare` and `fits` tell whether it
    /// can. A Grant adds its pages to the granted ones, and a Purge and a Back take off those of
    /// their segment.
    pub fn add(&mut self, entry: Entry)
        requires spare { 1 ≤ self.old.spare }
        requires fits { fits_after self.old.entries entry ≡ true }
        ensures { AddsEntry self.old self.new entry }
    {
        self.segments.follow(&entry);
        self.entries.push_reserved(entry);
        self.spare -= 1;
    }

    /// The pages of all live segments: those that were granted, and neither purged nor given back.
    pub fn granted(&self) -> u128
        ensures granted { result ≡ granted self.now.entries }
        ensures legal { IsLegal self.now.entries }
    {
        self.segments.total()
    }

    /// How many Grants it has. The next Grant's number is one more.
    pub fn grants(&self) -> u64
        ensures grants { result ≡ grants self.now.entries }
        ensures few { result < 2 ^ 63 }
    {
        self.segments.drawn()
    }

    /// All entries, the oldest first. They are legal, and the numbers of the live segments rise,
    /// from 1 to at most the number of Grants.
    pub fn entries(&self) -> &[Entry]
        ensures entries { result.now ≡ self.now.entries }
        ensures legal { IsLegal self.now.entries }
        ensures live { AreDrawn (live self.now.entries) (grants self.now.entries) }
    {
        self.entries.as_slice()
    }

    /// The book's text: a line for each entry, ended by LF.
    pub fn text(&self, alloc: Global) -> Result<Vec<u8>, NoMemory>
        ensures { IfOk result (λ text. text.items ≡ text_of self.now.entries) }
    {
        book_text(alloc, self.entries.as_slice())
    }
}
