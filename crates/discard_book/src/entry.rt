/// What a manager does, as one entry of its book. A number names a segment.
#[derive(Clone, Copy, Debug, PartialEq, Eq)]
pub enum Entry {
    /// A client was granted a segment of some pages, under a limit of pages.
    Grant {
        id: u64,
        client: u32,
        pages: u32,
        limit: u64,
    },
    /// A reduction to a limit of pages ended. The entries of its purges stand directly before.
    Reduced {
        limit: u64,
        /// The moment of the reduction.
        now: u64,
        /// The pages that are granted after it.
        after: u128,
        /// The least known use of a live segment, 0 for a segment whose use is not known yet.
        /// None says that no segment is live.
        least: Option<u64>,
    },
    /// A segment was purged, which was last used at a known moment.
    Purge {
        id: u64,
        known: u64,
    },
    /// A segment was given back.
    Back {
        id: u64,
    },
}
