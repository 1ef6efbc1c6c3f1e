ghost use Rattle.std.specs.Prelude.{◌≡◌};
ghost use Rattle.line_text.specs.Refusals.{refusal};
ghost use Rattle.request_text.specs.Requests.{fault_of};
ghost use Rattle.request_text.specs.declared.fault.RequestFault.TheVariants as fault;

use line_text::Cause;
use std::alloc::{AllocError, AllocFailed};
use units::NoMemory;

/// Why a request file was not read.
#[derive(Clone, Copy, Debug, PartialEq, Eq)]
pub enum RequestFault {
    /// The text is no request file. The place is the number of the first line that is refused, or
    /// 1048576 where the text is longer than that; the cause is a number as `Cause::number` of
    /// `line_text` gives it: 2 (Count), 3 (Number), 5 (Many) or 6 (Long).
    Bad { place: u64, cause: u32 },
    /// It was out of memory.
    NoMemory,
}

impl From<NoMemory> for RequestFault {
    ghost from_gives = { λ _ e. e ≡ fault.NoMemory };

    fn from(_error: NoMemory) -> RequestFault {
        RequestFault::NoMemory
    }
}

impl From<AllocError> for RequestFault {
    ghost from_gives = { λ _ e. e ≡ fault.NoMemory };

    fn from(_error: AllocError) -> RequestFault {
        RequestFault::NoMemory
    }
}

impl<T: Drop> From<AllocFailed<T>> for RequestFault {
    ghost from_gives = { λ _ e. e ≡ fault.NoMemory };

    fn from(_error: AllocFailed<T>) -> RequestFault {
        RequestFault::NoMemory
    }
}

/// A refusal at a place for a cause.
pub(crate) fn refused(place: u64, why: Cause) -> RequestFault
    ensures { result ≡ fault_of (refusal place why) }
{
    RequestFault::Bad {
        place,
        cause: why.number(),
    }
}
