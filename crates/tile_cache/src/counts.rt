ghost use Rattle.std.specs.Prelude.{◌≡◌};
ghost use Rattle.tile_cache.specs.Shown.{no_counts, counted};

/// How a get came by the tile that it shows.
#[derive(Clone, Copy, Debug, PartialEq, Eq)]
pub enum Shown {
    /// It had an entry, and its piece was there.
    Kept,
    /// It was never shown before, and was made.
    First,
    /// It had an entry, its segment was purged, and it was made again.
    Rebuilt,
    /// It was shown before, had no entry any more, and was made again.
    Again,
}

/// How many gets of a cache gave each answer. A count stands still at the last value of u64.
#[derive(Clone, Copy, Debug, PartialEq, Eq)]
pub struct Counts {
    pub first: u64,
    pub kept: u64,
    pub rebuilt: u64,
    pub again: u64,
}

impl Counts {
    /// All are 0.
    pub(crate) fn none() -> Counts
        ensures { result ≡ no_counts }
    {
        Counts {
            first: 0,
            kept: 0,
            rebuilt: 0,
            again: 0,
        }
    }

    /// Counts one answer.
    pub(crate) fn count(&mut self, shown: Shown)
        ensures { self.new ≡ counted shown self.old }
    {
        match shown {
            Shown::Kept => self.kept = self.kept.saturating_add(1),
            Shown::First => self.first = self.first.saturating_add(1),
            Shown::Rebuilt => self.rebuilt = self.rebuilt.saturating_add(1),
            Shown::Again => self.again = self.again.saturating_add(1),
        }
    }
}
