ghost use Rattle.std.specs.Prelude.{◌≡◌, ℕ, ◌+◌, ◌-◌, ◌^◌, ◌<◌, ◌≤◌, List, length, slice_get};
ghost use Rattle.span_heap.specs.Pick.{fits};
ghost use Rattle.span_heap.specs.Runs.{front_of, back_of, IsMarkedRun};

use std::marker::Model;

/// Neighbouring pages of one segment.
#[derive(Clone, Copy, Debug, PartialEq, Eq)]
pub struct Run {
    /// The number of the segment.
    pub segment: u64,
    /// The first page, counted from 0 in the segment.
    pub first: u32,
    /// How many pages there are.
    pub pages: u32,
}

impl Run {
    /// No page at all.
    pub(crate) const NONE: Run = Run {
        segment: 0,
        first: 0,
        pages: 0,
    };

    /// The run of so many pages from a page on, where there are any.
    pub(crate) fn marked(segment: u64, first: u32, pages: u32) -> Option<Run>
        ensures { IsMarkedRun segment first pages result }
    {
        if pages == 0 {
            return None;
        }
        Some(Run {
            segment,
            first,
            pages,
        })
    }

    /// Its first `pages` pages.
    pub(crate) fn front(self, pages: u32) -> Run
        ensures { result ≡ front_of self pages }
    {
        Run { pages, ..self }
    }

    /// Its pages behind the first `pages`.
    pub(crate) fn back(self, pages: u32) -> Run
        requires within { pages ≤ self.pages }
        requires end { self.first + pages < 2 ^ 32 }
        ensures { result ≡ back_of self pages }
    {
        Run {
            segment: self.segment,
            first: self.first + pages,
            pages: self.pages - pages,
        }
    }

    /// Whether this run has at least `pages` pages and at most `most`.
    pub(crate) fn fits(&self, pages: u32, most: u32) -> bool
        requires { pages ≤ most }
        ensures { result ≡ fits pages (most - pages) self.now }
    {
        pages <= self.pages && self.pages <= most
    }
}

/// The free runs of a heap as they were at one moment, the oldest first.
#[derive(Drop)]
pub struct Runs {
    pub(crate) runs: Vec<Run>,
}

impl Model for Runs {
    ghost use Rattle.std.specs.Prelude.{List};
    ghost use Rattle.span_heap.specs.declared.run.Run.{Run};

    ghost Value = { List Run };

    ghost view = { λ r. r.runs.items };
}

impl Runs {
    /// How many runs there are.
    pub fn len(&self) -> u64
        ensures { result ≡ length self.now }
    {
        self.runs.len() as u64
    }

    /// The run at this place, counted from 0. `None` comes exactly at a place from `len` on.
    pub fn get(&self, place: u64) -> Option<Run>
        ensures { result ≡ slice_get self.now place }
    {
        self.runs.get(place as usize).copied()
    }
}
