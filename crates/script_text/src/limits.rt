//! How much a script has at most. What its words ask for at most stands in `line_text`.

/// How many commands a script has at most.
pub const MOST_COMMANDS: u64 = 4096;

/// How many commands of a script may be granted a segment at most.
pub const MOST_GRANTS: u64 = 1024;

// A definition that cites a constant would follow a wrong one, so each is held to its number.
const _: () = prove!(MOST_COMMANDS == 4096);

const _: () = prove!(MOST_GRANTS == 1024);
