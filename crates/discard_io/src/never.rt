//! A source, a sink and files that never fail.
ghost use Rattle.std.specs.Prelude.{◌≡◌, ◌≤◌, ◌<◌, ◌↔◌, ℕ, List, Some, None, Ok, length, take, drop, min, ◌++◌, IsOk, IfOk, IsErrOf, vec_len};
ghost use Rattle.units.specs.Count.{next_count};
ghost use Rattle.discard_io.specs.Memory.{Supply};

use crate::files::{FileFault, Files};
use crate::memory::remaining::Remaining;
use crate::sink::Sink;
use crate::source::Source;
use crate::status::Failed;
use std::alloc::Global;
use std::marker::Model;
use units::NoMemory;

/// A source in memory that never fails.
#[derive(Debug, Drop)]
pub struct NeverSource {
    left: Remaining,
    reads: u64,
}

impl Model for NeverSource {
    ghost Value = { Supply };

    ghost view = { λ s. record { left = s.left; reads = s.reads } };
}

impl NeverSource {
    /// A source of these bytes.
    pub fn new(alloc: Global, bytes: &[u8]) -> Result<NeverSource, NoMemory>
        ensures { IfOk result (λ source. source ≡ record { left = bytes.now; reads = 0 }) }
    {
        Ok(NeverSource {
            left: Remaining::new(alloc, bytes)?,
            reads: 0,
        })
    }
}

impl Source for NeverSource {
    ghost left = { λ s. Some s.left };

    ghost reads = { λ s. Some s.reads };

    ghost faults = { λ _. 0 };

    fn read(&mut self, buf: &mut [u8]) -> Result<usize, Failed>
        ensures count { result ≡ Ok (min (length buf.old) (length self.old.left)) }
        ensures moved { IfOk result (λ n. buf.new ≡ take n self.old.left ++ drop n buf.old) }
        ensures left { IfOk result (λ n.
            self.new ≡ record { left = drop n self.old.left; reads = next_count self.old.reads }) }
    {
        self.reads = self.reads.saturating_add(1);
        Ok(self.left.read(buf))
    }
}

/// A sink that takes every piece whole and keeps nothing. It never fails.
#[derive(Clone, Copy, Debug)]
pub struct NeverSink;

impl NeverSink {
    /// Such a sink.
    pub fn new() -> NeverSink {
        NeverSink
    }
}

impl Sink for NeverSink {
    ghost written = { λ _. None };

    ghost writes = { λ _. None };

    ghost faults = { λ _. 0 };

    fn write(&mut self, piece: &[u8]) -> Result<usize, Failed>
        ensures { result ≡ Ok (length piece.now) }
    {
        Ok(piece.len())
    }
}

/// Files that have the same bytes under every name. They never fail.
#[derive(Debug, Drop)]
pub struct NeverFiles {
    bytes: Vec<u8>,
}

impl Model for NeverFiles {
    ghost Value = { List ℕ };

    ghost view = { λ f. f.bytes.items };
}

impl NeverFiles {
    /// Files with these bytes.
    pub fn new(alloc: Global, bytes: &[u8]) -> Result<NeverFiles, NoMemory>
        ensures { IfOk result (λ files. files ≡ bytes.now) }
    {
        Ok(NeverFiles {
            bytes: Vec::from_slice(alloc, bytes)?,
        })
    }
}

impl Files for NeverFiles {
    ghost bytes = { λ bytes _. Some bytes };

    ghost faults = { λ _. 0 };

    fn read_all(&mut self, alloc: Global, _name: &str, most: u64) -> Result<Vec<u8>, FileFault>
        ensures same { self.new ≡ self.old }
        ensures whole { IfOk result (λ found. found.items ≡ self.old) }
        ensures within { IfOk result (λ found. vec_len found ≤ most) }
        ensures too_long { IsErrOf result FileFault.TooLong ↔ (most < length self.old) }
        ensures never { IsErrOf result FileFault.Failed → ⊥ }
    {
        if self.bytes.len() as u64 > most {
            return Err(FileFault::TooLong);
        }
        Ok(Vec::from_slice(alloc, &self.bytes)?)
    }
}
