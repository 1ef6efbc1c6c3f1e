/// What a client of a served run has asked, and what came of it.
#[derive(Clone, Copy, PartialEq, Eq)]
pub struct Tally {
    /// The client.
    pub client: u32,
    /// How many tiles it asked for.
    pub requests: u64,
    /// How many of them were made because it had not asked for them before.
    pub first: u64,
    /// How many of them it still had.
    pub kept: u64,
    /// How many of them were made again because their memory was purged.
    pub rebuilt: u64,
    /// How many of them were made again because they had left its cache.
    pub again: u64,
    /// How many segments it was granted.
    pub grants: u64,
}
