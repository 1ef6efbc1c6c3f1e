//! What is kept of one segment, and what is told of the least.

/// What is kept of one number.
#[derive(Clone, Copy)]
pub(crate) struct KnownSegment {
    /// The client that it was granted to.
    pub(crate) client: u32,
    pub(crate) pages: u32,
    /// The known use, a moment, or 0 where none is known.
    pub(crate) known: u64,
    /// Granted, and neither purged nor given back.
    pub(crate) live: bool,
    /// Granted, and not given back.
    pub(crate) plain: bool,
}

/// The live segment that a reduction tries next.
#[derive(Clone, Copy)]
pub(crate) struct Least {
    pub(crate) id: u64,
    /// Its known use, a moment, or 0 where none is known.
    pub(crate) known: u64,
}
