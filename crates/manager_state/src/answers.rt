/// What a return answers.
#[derive(Clone, Copy, PartialEq)]
pub enum Back {
    /// The segment was live, and is counted off.
    Counted,
    /// The segment was purged before, so that its pages are counted off already.
    Purged,
    /// The segment was never granted to this client, or was given back already.
    Unknown,
}

/// What a purge try on one segment answers.
#[derive(Clone, Copy, PartialEq)]
pub enum Tried {
    /// The segment is purged.
    Taken,
    /// The segment is in use, or was used since; this is its known use now.
    Used { known: u64 },
    /// The segment is not live.
    NotLive,
}

/// How scarce memory is.
#[derive(Clone, Copy)]
pub enum Level {
    /// Half the limit is to be left.
    Moderate,
    /// Nothing is to be left.
    Critical,
}
