ghost use Rattle.std.specs.Prelude.{◌≡◌, Some};
ghost use Rattle.discard_io.specs.Status.{code_of};

use std::error::Error;
use std::fmt;

/// One call of a source or a sink failed.
#[derive(Clone, Copy, Debug, PartialEq, Eq)]
pub struct Failed;

impl fmt::Display for Failed {
    ghost use Rattle.discard_io.specs.Texts.{failed_text};

    ghost output = { λ _. Some failed_text };

    fn fmt<W: fmt::Write>(&self, f: &mut fmt::Formatter<W>) -> fmt::Result {
        f.write_str("failed")
    }
}

impl Error for Failed {}

/// How a run ended.
#[derive(Clone, Copy, Debug, PartialEq, Eq)]
pub enum Status {
    /// Everything was written.
    Done,
    /// Out of memory.
    NoMemory,
    /// The words of the command line are not in the grammar.
    Usage,
    /// What was read is refused, first at this place and for this cause.
    BadInput { place: u64, cause: u32 },
    /// The source had a fault.
    ReadFault,
    /// The sink had a fault.
    WriteFault,
    /// A file had a fault.
    FileFault,
}

impl Status {
    /// The status of the process: 0 to 6, in the order of the variants.
    pub fn code(&self) -> u8
        ensures { result ≡ code_of self.now }
    {
        match self {
            Status::Done => 0,
            Status::NoMemory => 1,
            Status::Usage => 2,
            Status::BadInput { .. } => 3,
            Status::ReadFault => 4,
            Status::WriteFault => 5,
            Status::FileFault => 6,
        }
    }
}
