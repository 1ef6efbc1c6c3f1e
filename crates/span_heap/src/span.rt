ghost use Rattle.std.specs.Prelude.{◌≡◌};

use crate::run::Run;
use std::marker::Model;

/// Neighbouring pages of one segment that are in use. Only a heap makes one, and it has no copy.
#[must_use = "a span that is let go stays used"]
#[derive(Drop)]
pub struct Span {
    pub(crate) run: Run,
    /// Where the row of its segment stood in the table. Rows move up when those of dropped segments
    /// are taken out, so this is a guess.
    pub(crate) near: usize,
}

impl Model for Span {
    ghost use Rattle.span_heap.specs.declared.run.Run.{Run};

    ghost Value = { Run };

    ghost view = { λ s. s.run };
}

impl Span {
    /// The number of its segment.
    pub fn segment(&self) -> u64
        ensures { result ≡ self.now.segment }
    {
        self.run.segment
    }

    /// Its first page, counted from 0 in the segment.
    pub fn first(&self) -> u32
        ensures { result ≡ self.now.first }
    {
        self.run.first
    }

    /// How many pages it has.
    pub fn pages(&self) -> u32
        ensures { result ≡ self.now.pages }
    {
        self.run.pages
    }
}
