ghost use Rattle.std.specs.Prelude.{◌≡◌};
ghost use Rattle.machine.specs.History.{number_of};

use units::Bytes;

/// What may happen to segments. A number names a segment; pages and bytes are counted from 0 in it.
#[derive(Debug, Drop)]
pub enum Event {
    /// A client is granted a segment of `pages` pages under this number.
    Grant {
        id: u64,
        client: u32,
        pages: u32,
    },
    /// The owner locks a range of pages.
    Lock {
        id: u64,
        first: u32,
        count: u32,
    },
    /// The owner unlocks a range of pages at a moment.
    Unlock {
        id: u64,
        first: u32,
        count: u32,
        at: u64,
    },
    /// The owner writes bytes at a place.
    Write {
        id: u64,
        place: u64,
        bytes: Bytes,
    },
    /// The manager tries to purge a segment, at a moment.
    Try {
        id: u64,
        now: u64,
    },
    /// The owner gives the segment back.
    Back {
        id: u64,
    },
}

/// What the machine answers to an event.
#[derive(Clone, Copy, Debug, PartialEq, Eq)]
pub enum Answer {
    /// The segment of this number was granted.
    Granted { id: u64 },
    /// The pages are held, and show the bytes left in them.
    Held,
    /// The segment was purged: its bytes are gone.
    Gone,
    /// No page stays held; this is the segment's stamp now, a moment.
    Idle { at: u64 },
    /// `pages` pages stay held.
    StillHeld { pages: u32 },
    /// The bytes are written.
    Written,
    /// The segment is purged now.
    Taken,
    /// The segment is held, or was used since; this is its known use now, a moment.
    Used { known: u64 },
    /// The segment is counted off.
    Counted,
    /// The segment was purged, so there is nothing to count off.
    Purged,
    /// The event cannot happen here. It changes nothing.
    Misuse,
}

impl Event {
    /// The number of the segment that it is about.
    pub fn id(&self) -> u64
        ensures { result ≡ number_of self.now }
    {
        match self {
            Event::Grant { id, .. }
            | Event::Lock { id, .. }
            | Event::Unlock { id, .. }
            | Event::Write { id, .. }
            | Event::Try { id, .. }
            | Event::Back { id } => *id,
        }
    }
}
