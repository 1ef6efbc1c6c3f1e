ghost use Rattle.std.specs.Prelude.{◌≡◌, ◌<◌, IfSome};

use crate::block::{Sole, attach, empty, vacate};
use std::alloc::Global;
use std::fmt;
use std::marker::Model;
use std_alloc::vec::Lodged;

/// The bytes of all places of a frame, in the order of their numbers. They lie in the one allocation
/// that the places were cut from. It is seen by contracts as the list of the bytes.
pub struct Joined {
    bytes: Vec<u8, Lodged>,
    /// What the allocation is freed with. `None` where there was nothing to allocate.
    sole: Option<Sole<Global>>,
}

impl Model for Joined {
    ghost use Rattle.std.specs.Prelude.{◌≡◌, ◌<◌, ℕ, List, IfSome};

    ghost Value = { List ℕ };

    ghost view = { λ j. j.bytes.items };

    // The bytes are all of the allocation.
    ghost invariant = { λ j. IfSome j.sole (λ sole. (0 < j.bytes.len) × (j.bytes.ptr ≡ sole.ptr)
        × (j.bytes.len ≡ sole.len)) };
}

impl Joined {
    /// The bytes of an allocation, joined.
    pub(crate) fn new(bytes: Vec<u8, Lodged>, sole: Option<Sole<Global>>) -> Joined
        requires { IfSome sole (λ sole. (0 < bytes.len) × (bytes.ptr ≡ sole.ptr)
            × (bytes.len ≡ sole.len)) }
        ensures { result ≡ bytes.items }
    {
        Joined { bytes, sole }
    }

    /// All bytes.
    pub fn as_slice(&self) -> &[u8]
        ensures { result.now ≡ self.now }
    {
        self.bytes.as_slice()
    }
}

impl Drop for Joined {
    fn drop(self) {
        let Joined { bytes, sole } = self;
        if let Some(sole) = sole {
            drop(attach(empty(vacate(bytes)), sole));
        }
    }
}

/// Shows how many bytes there are, and not the bytes.
impl fmt::Debug for Joined {
    fn fmt<W: fmt::Write>(&self, f: &mut fmt::Formatter<W>) -> fmt::Result {
        f.debug_struct("Joined")
            .field("len", &self.bytes.len())
            .finish_non_exhaustive()
    }
}
