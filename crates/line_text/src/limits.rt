//! How long a text that is read is at most, and how much it asks for at most.

use units::PAGE;

/// How many bytes a script or a request file has at most: 1 MiB.
pub const MOST_TEXT_BYTES: u64 = 1_048_576;

/// How many clients there are at most. They are numbered from 1, so it is the last client too.
pub const MOST_CLIENTS: u64 = 64;

/// How many pages a segment of a script, or a standard segment, has at most: 2 MiB.
pub const MOST_SEGMENT_PAGES: u64 = 512;

/// How many pages a manager's limit has at most: 4 GiB.
pub const MOST_LIMIT: u64 = 1_048_576;

/// How many bytes a word of hexadecimal digits stands for at most: those of a page.
pub const MOST_MOVED_BYTES: u64 = PAGE;

// A definition that cites a constant would follow a wrong one, so each is held to its number.
const _: () = prove!(MOST_TEXT_BYTES == 1_048_576);

const _: () = prove!(MOST_CLIENTS == 64);

const _: () = prove!(MOST_SEGMENT_PAGES == 512);

const _: () = prove!(MOST_LIMIT == 1_048_576);

const _: () = prove!(MOST_MOVED_BYTES == 4096);
