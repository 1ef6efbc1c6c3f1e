ghost use Rattle.std.specs.Prelude.{◌≡◌};
ghost use Rattle.script_text.specs.Script.{is_grant};

use units::Bytes;

/// A command of a script. Segments are told by their numbers, from the oldest grant on, and pieces
/// by theirs, from the first that was allocated on, which is 1; pages and bytes are counted from the
/// first of the segment, or of the piece, which is 0.
#[derive(Drop)]
pub enum Command {
    /// A segment of 1 to 512 pages for a client from 1 to 64, at a moment.
    Grant {
        client: u64,
        pages: u64,
        at: u64,
    },
    /// Locks `count` pages from the page `first` on.
    Lock {
        id: u64,
        first: u64,
        count: u64,
    },
    /// Unlocks `count` pages from the page `first` on, at a moment.
    Unlock {
        id: u64,
        first: u64,
        count: u64,
        at: u64,
    },
    /// Writes 1 to 4096 bytes from the byte `place` on.
    Write {
        id: u64,
        place: u64,
        bytes: Bytes,
    },
    /// Reads `count` bytes, 1 to 4096, from the byte `place` on.
    Read {
        id: u64,
        place: u64,
        count: u64,
    },
    /// Tries to purge a segment, at a moment.
    Try {
        id: u64,
        at: u64,
    },
    /// Gives a segment back, and the manager counts it off.
    Back {
        id: u64,
    },
    /// Reduces granted pages to a limit, from 0 to 1,048,576 pages, at a moment.
    Reduce {
        limit: u64,
        at: u64,
    },
    /// Reduces granted pages to the manager's limit, at a moment.
    Enforce {
        at: u64,
    },
    /// Reduces granted pages at a moment: to 0 under critical pressure, and to half the manager's
    /// limit under moderate pressure.
    Pressure {
        critical: bool,
        at: u64,
    },
    /// Sets the manager's limit, from 0 to 1,048,576 pages, and reduces granted pages to it, at a
    /// moment.
    Limit {
        limit: u64,
        at: u64,
    },
    /// Counts off each segment of a client from 1 to 64.
    Remove {
        client: u64,
    },
    /// Allocates a piece of 0 to 2,097,152 bytes for a client from 1 to 64, at a moment.
    Alloc {
        client: u64,
        size: u64,
        at: u64,
    },
    /// Locks a piece.
    PieceLock {
        piece: u64,
    },
    /// Unlocks a piece, at a moment.
    PieceUnlock {
        piece: u64,
        at: u64,
    },
    /// Writes 1 to 4096 bytes from the byte `place` of a piece on.
    PieceWrite {
        piece: u64,
        place: u64,
        bytes: Bytes,
    },
    /// Reads `count` bytes, 1 to 4096, from the byte `place` of a piece on.
    PieceRead {
        piece: u64,
        place: u64,
        count: u64,
    },
    /// Gives a piece up, at a moment.
    PieceFree {
        piece: u64,
        at: u64,
    },
    /// Looks at the segments of a client from 1 to 64 that have no locked page.
    Sweep {
        client: u64,
    },
    /// Gives back each segment of a client from 1 to 64 that is all free.
    Release {
        client: u64,
    },
    /// Asks for the free runs of a client from 1 to 64.
    Runs {
        client: u64,
    },
    /// Asks how many pages are granted.
    Granted,
}

impl Command {
    /// Whether it may be granted a segment. A script has at most 1,024 such commands.
    pub(crate) fn is_grant(&self) -> bool
        ensures { result ≡ is_grant self.now }
    {
        matches!(self, Command::Grant { .. } | Command::Alloc { .. })
    }
}
