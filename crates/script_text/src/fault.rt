ghost use Rattle.std.specs.Prelude.{◌≡◌};
ghost use Rattle.script_text.specs.declared.fault.LineFault.TheVariants.{Refused, Memory};
ghost use Rattle.script_text.specs.declared.fault.ScriptFault.TheVariants as ScriptFault;
ghost use Rattle.script_text.specs.Script.{fault_at};

use line_text::Cause;
use std::alloc::{AllocError, AllocFailed};
use units::NoMemory;

/// Why a script was not read.
#[derive(Clone, Copy, Debug)]
pub enum ScriptFault {
    /// The text is no script. The place is the number of the first line that is refused, or 1048576
    /// where the text is longer than that; the cause is a number as `Cause::number` gives it.
    Bad { place: u64, cause: u32 },
    /// It was out of memory.
    NoMemory,
}

impl From<AllocError> for ScriptFault {
    ghost from_gives = { λ _ e. e ≡ ScriptFault.NoMemory };

    fn from(_error: AllocError) -> ScriptFault {
        ScriptFault::NoMemory
    }
}

impl<T: Drop> From<AllocFailed<T>> for ScriptFault {
    ghost from_gives = { λ _ e. e ≡ ScriptFault.NoMemory };

    fn from(_error: AllocFailed<T>) -> ScriptFault {
        ScriptFault::NoMemory
    }
}

/// Why a line was not read.
#[derive(Clone, Copy)]
pub(crate) enum LineFault {
    Refused(Cause),
    Memory,
}

impl From<Cause> for LineFault {
    ghost from_gives = { λ why e. e ≡ Refused why };

    fn from(why: Cause) -> LineFault {
        LineFault::Refused(why)
    }
}

impl From<NoMemory> for LineFault {
    ghost from_gives = { λ _ e. e ≡ Memory };

    fn from(_error: NoMemory) -> LineFault {
        LineFault::Memory
    }
}

impl LineFault {
    /// What it is of a script in which the line has this number.
    pub(crate) fn at(self, number: u64) -> ScriptFault
        ensures { result ≡ fault_at number self }
    {
        match self {
            LineFault::Refused(why) => ScriptFault::Bad {
                place: number,
                cause: why.number(),
            },
            LineFault::Memory => ScriptFault::NoMemory,
        }
    }
}
