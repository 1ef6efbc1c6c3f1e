use segment::OwnerSide;

/// What an unlock of a piece answers.
#[derive(Clone, Copy, Debug, PartialEq, Eq)]
pub enum Unlocked {
    /// No page of the segment stays locked, so it may be purged from now on. Its last stamp.
    Idle { at: u64 },
    /// So many pages of the segment stay locked.
    Held { pages: u32 },
}

/// A segment was not adopted, out of memory: its side comes back.
#[derive(Drop)]
pub struct Unadopted {
    pub side: OwnerSide,
}
