//! The queue as a heap of std.

ghost use Rattle.std.specs.Prelude.{◌≡◌, ◌<◌, ◌≤◌, [], ◌∷◌, length, IfSome, IfNone, OnOk};
ghost use Rattle.std.specs.List.Sorted.{IsPermutation};
ghost use Rattle.use_queue.specs.Entries.{IsFirst, DropsFirst};

use std::alloc::{AllocError, Global};
use std::cmp::Reverse;
use std::collections::BinaryHeap;
use std::marker::Model;

/// Entries, each a known use and a number. The least comes first.
#[derive(Drop)]
pub struct UseQueue {
    heap: BinaryHeap<Reverse<(u64, u64)>>,
}

impl Model for UseQueue {
    ghost use Rattle.std.specs.BinaryHeap.{IsHeap, heap_items, heap_capacity};
    ghost use Rattle.use_queue.specs.Entries.{Queued, cmp_entries, pairs};

    ghost Value = { Queued };

    ghost view = { λ q. record {
      entries = pairs (heap_items q.heap);
      room = heap_capacity q.heap;
    } };

    ghost invariant = { λ q. IsHeap cmp_entries (heap_items q.heap) };
}

impl UseQueue {
    /// No entry.
    pub fn new(alloc: Global) -> UseQueue
        ensures { result.entries ≡ [] }
    {
        UseQueue {
            heap: BinaryHeap::new(alloc),
        }
    }

    /// Makes sure of room for so many.
    pub fn reserve(&mut self, places: usize) -> Result<(), AllocError>
        ensures ok { OnOk result (places ≤ self.new.room) }
        ensures same { self.new.entries ≡ self.old.entries }
        ensures room { self.old.room ≤ self.new.room }
    {
        self.heap.reserve(places.saturating_sub(self.heap.len()))
    }

    /// How many entries there are, live and dead.
    pub fn len(&self) -> usize
        ensures { result ≡ length self.now.entries }
    {
        self.heap.len()
    }

    /// The first entry.
    pub fn first(&self) -> Option<(u64, u64)>
        ensures some { IfSome result (λ k. IsFirst k self.now.entries) }
        ensures none { IfNone result (self.now.entries ≡ []) }
    {
        let Reverse(entry) = self.heap.peek()?;
        Some(*entry)
    }

    /// One more entry, where there is room.
    pub fn push(&mut self, entry: (u64, u64))
        requires room { length self.old.entries < self.old.room }
        ensures entries { IsPermutation (entry ∷ self.old.entries) self.new.entries }
        ensures room { self.old.room ≤ self.new.room }
    {
        let Ok(()) = self.heap.push(Reverse(entry)) else {
            unreachable!()
        };
    }

    /// The first entry goes.
    pub(crate) fn drop_first(&mut self)
        requires some { 0 < length self.old.entries }
        ensures entries { DropsFirst self.old.entries self.new.entries }
        ensures room { self.new.room ≡ self.old.room }
    {
        let Some(Reverse(_first)) = self.heap.pop() else {
            unreachable!()
        };
    }

    /// All entries go.
    pub(crate) fn clear(&mut self)
        ensures entries { self.new.entries ≡ [] }
        ensures room { self.new.room ≡ self.old.room }
    {
        self.heap.clear();
    }

    /// How many entries it has room for.
    pub(crate) fn room(&self) -> usize
        ensures { result ≡ self.now.room }
    {
        self.heap.capacity()
    }
}
