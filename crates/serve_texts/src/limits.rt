//! The greatest settings of a served run. The greatest number of clients, of pages of a standard
//! segment and of pages of the limit stand in `line_text`.

/// How many tiles a client's cache has at most.
pub const MOST_ENTRIES: u32 = 4096;

/// How many enforcements of the limit are made at most.
pub const MOST_ROUNDS: u32 = 1000;

/// How many blocks the pool keeps at most.
pub const MOST_KEPT: u32 = 256;

// A definition that cites a constant would follow a wrong one, so each is held to its number.
const _: () = prove!(MOST_ENTRIES == 4096);

const _: () = prove!(MOST_ROUNDS == 1000);

const _: () = prove!(MOST_KEPT == 256);
