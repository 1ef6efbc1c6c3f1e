//! How much a request file has at most. How many bytes it has at most stands in `line_text`.

/// How many requests a request file has at most.
pub const MOST_REQUESTS: u64 = 4096;

// A definition that cites a constant would follow a wrong one, so each is held to its number.
const _: () = prove!(MOST_REQUESTS == 4096);
