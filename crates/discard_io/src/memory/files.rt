ghost use Rattle.std.specs.Prelude.{◌≡◌, ◌↔◌, ◌⊎◌, ◌≤◌, ◌<◌, ℕ, List, Some, None, length, bytes_eq, if◌then◌else◌, IfOk, IfSome, OnOk, OnErr, IsErrOf, vec_len};

use super::calls::Calls;
use crate::files::{FileFault, Files};
use std::alloc::Global;
use std::collections::BTreeMap;
use units::NoMemory;

/// Files in memory, which fail at chosen reads, and at each read of a name that is not there.
#[derive(Debug, Drop)]
pub struct MemFiles {
    files: BTreeMap<String, Vec<u8>>,
    calls: Calls,
}

impl MemFiles {
    ghost use Rattle.discard_io.specs.Memory.{no_calls};
    ghost use Rattle.discard_io.specs.MemoryFiles.{bytes_under, reads_of};

    /// No file. The reads whose numbers stand in `fails`, counted from 1, fail.
    pub fn new(alloc: Global, fails: &[u64]) -> Result<MemFiles, NoMemory>
        ensures none { IfOk result (λ files. (name : List ℕ) → bytes_under files name ≡ None) }
        ensures reads { IfOk result (λ files. reads_of files ≡ no_calls fails.now) }
    {
        Ok(MemFiles {
            files: BTreeMap::new(alloc),
            calls: Calls::new(alloc, fails)?,
        })
    }

    /// Puts these bytes under a name, in place of those that stood there. Where memory runs out, nothing changes.
    pub fn add(&mut self, alloc: Global, name: &str, bytes: &[u8]) -> Result<(), NoMemory>
        ensures added { OnOk result ((other : List ℕ) → bytes_under self.new other
            ≡ (if bytes_eq other name.now then Some bytes.now else bytes_under self.old other)) }
        ensures same { OnErr result ((other : List ℕ) →
            bytes_under self.new other ≡ bytes_under self.old other) }
        ensures reads { reads_of self.new ≡ reads_of self.old }
    {
        let name = String::from_str(alloc, name)?;
        let bytes = Vec::from_slice(alloc, bytes)?;
        self.files.insert(name, bytes)?;
        Ok(())
    }
}

impl Files for MemFiles {
    ghost use Rattle.discard_io.specs.Memory.{NextFails};
    ghost use Rattle.discard_io.specs.MemoryFiles.{bytes_under, reads_of, reads_after};

    ghost bytes = { λ files name. bytes_under files name };

    ghost faults = { λ files. (reads_of files).faults };

    fn read_all(&mut self, alloc: Global, name: &str, most: u64) -> Result<Vec<u8>, FileFault>
        ensures same { (other : List ℕ) → bytes_under self.new other ≡ bytes_under self.old other }
        ensures whole { IfOk result (λ found. bytes_under self.old name.now ≡ Some found.items) }
        ensures within { IfOk result (λ found. vec_len found ≤ most) }
        ensures too_long { IsErrOf result FileFault.TooLong
            → IfSome (bytes_under self.old name.now) (λ standing. most < length standing) }
        ensures fails { IsErrOf result FileFault.Failed
            ↔ (NextFails (reads_of self.old) ⊎ (bytes_under self.old name.now ≡ None)) }
        ensures reads { reads_of self.new ≡ reads_after result (reads_of self.old) }
        ensures later { (reads_of self.old).faults ≤ (reads_of self.new).faults }
    {
        if self.calls.next_fails() {
            return Err(FileFault::Failed);
        }
        let Some(bytes) = self.files.get(name) else {
            self.calls.count_fault();
            return Err(FileFault::Failed);
        };
        if bytes.len() as u64 > most {
            return Err(FileFault::TooLong);
        }
        Ok(Vec::from_slice(alloc, bytes)?)
    }
}
