ghost use Rattle.std.specs.Prelude.{◌≡◌, ◌≤◌, ℕ, List, length, take, drop, min, ◌++◌, IfOk};

use std::alloc::{AllocError, Global};
use std::cmp;
use std::marker::Model;

/// The bytes that are left to be read.
#[derive(Debug, Drop)]
pub struct Remaining {
    bytes: Vec<u8>,
    at: usize,
}

impl Model for Remaining {
    ghost Value = { List ℕ };

    ghost view = { λ r. drop r.at r.bytes.items };

    ghost invariant = { λ r. r.at ≤ length r.bytes.items };
}

impl Remaining {
    /// All of these bytes.
    pub(crate) fn new(alloc: Global, bytes: &[u8]) -> Result<Remaining, AllocError>
        ensures { IfOk result (λ left. left ≡ bytes.now) }
    {
        Ok(Remaining {
            bytes: Vec::from_slice(alloc, bytes)?,
            at: 0,
        })
    }

    /// Moves the next bytes into the front of `buf`, as many as there are and fit, and answers how many.
    pub(crate) fn read(&mut self, buf: &mut [u8]) -> usize
        ensures count { result ≡ min (length buf.old) (length self.old) }
        ensures moved { buf.new ≡ take result self.old ++ drop result buf.old }
        ensures left { self.new ≡ drop result self.old }
    {
        let count = cmp::min(buf.len(), self.bytes.len() - self.at);
        buf[..count].copy_from_slice(&self.bytes[self.at..self.at + count]);
        self.at += count;
        count
    }
}
