ghost use Rattle.std.specs.Prelude.{◌≡◌, Some, ℕ, ◌≤◌, List, Option, IfOk, IsErrOf, vec_len};
ghost use Rattle.units.specs.Count.{HasRisen};
ghost use Rattle.discard_io.specs.Streams.{IsAllOf, Exceeds};
ghost use Rattle.discard_io.specs.declared.files.FileFault.TheVariants as faults;

use crate::status::Failed;
use std::alloc::{AllocError, Global};
use std::error::Error;
use std::fmt;
use units::NoMemory;

/// Why a file was not read.
#[derive(Clone, Copy, Debug, PartialEq, Eq)]
pub enum FileFault {
    /// The files had a fault.
    Failed,
    /// There are more bytes than the caller wants.
    TooLong,
    /// Out of memory.
    NoMemory,
}

impl fmt::Display for FileFault {
    ghost use Rattle.discard_io.specs.Texts.{fault_text};

    ghost output = { λ fault. Some (fault_text fault) };

    fn fmt<W: fmt::Write>(&self, f: &mut fmt::Formatter<W>) -> fmt::Result {
        match self {
            FileFault::Failed => Failed.fmt(f),
            FileFault::TooLong => f.write_str("too long"),
            FileFault::NoMemory => NoMemory.fmt(f),
        }
    }
}

impl Error for FileFault {}

impl From<AllocError> for FileFault {
    ghost from_gives = { λ _ fault. fault ≡ faults.NoMemory };

    fn from(_error: AllocError) -> FileFault {
        FileFault::NoMemory
    }
}

/// Files by name.
pub trait Files {
    // the bytes under a name, where the files tell them
    ghost bytes: { Self → List ℕ → Option (List ℕ) };

    // how often they have failed
    ghost faults: { Self → ℕ };

    /// All bytes under a name, where they are at most `most`. What stands under each name stays.
    ///
    /// `TooLong` comes only where more than `most` stand there, if the files tell them, and `Failed` only where the
    /// count of faults rose in this call.
    fn read_all(&mut self, alloc: Global, name: &str, most: u64) -> Result<Vec<u8>, FileFault>
        ensures same { (any : List ℕ) → bytes self.new any ≡ bytes self.old any }
        ensures whole { IfOk result (λ found. IsAllOf (bytes self.old name.now) found.items) }
        ensures within { IfOk result (λ found. vec_len found ≤ most) }
        ensures too_long { IsErrOf result FileFault.TooLong
            → Exceeds (bytes self.old name.now) most }
        ensures failed { IsErrOf result FileFault.Failed
            → HasRisen (faults self.old) (faults self.new) }
        ensures later { faults self.old ≤ faults self.new };
}
