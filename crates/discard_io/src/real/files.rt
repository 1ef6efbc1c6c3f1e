ghost use Rattle.std.specs.Prelude.{◌≡◌, ◌≤◌, ◌<◌, ◌^◌, ℕ, None, length, IfOk, IfSome, IsErrOf, MatchOption, vec_len};
ghost use Rattle.units.specs.Count.{HasRisen};
ghost use Rattle.discard_io.specs.Faults.{faults_after};
ghost use Rattle.discard_io.specs.Streams.{IsAllOf};

use crate::files::{FileFault, Files};
use std::alloc::Global;
use std::fs::OpenFile;
use std::io::{ErrorKind, Read};
use std::marker::Model;
use std::{fs, io, rt};

/// The files of the system, by their paths. Each error but being out of memory counts as a fault. They tell nothing of
/// what stands in them.
#[derive(Drop)]
pub struct DirFiles<'a, R> {
    system: &'a R,
    faults: u64,
}

impl<'a, R> Model for DirFiles<'a, R> {
    ghost Value = { ℕ };

    ghost view = { λ f. f.faults };

    ghost invariant = { λ f. f.faults < 2 ^ 64 };
}

impl<'a, R: rt::Files> DirFiles<'a, R> {
    /// The files of this system.
    pub fn new(system: &'a R) -> DirFiles<'a, R>
        ensures { result ≡ 0 }
    {
        DirFiles { system, faults: 0 }
    }
}

impl<'a, R: rt::Files> Files for DirFiles<'a, R> {
    ghost bytes = { λ _ _. None };

    ghost faults = { λ faults. faults };

    fn read_all(&mut self, alloc: Global, name: &str, most: u64) -> Result<Vec<u8>, FileFault>
        ensures whole { IfOk result (λ found. IsAllOf None found.items) }
        ensures within { IfOk result (λ found. vec_len found ≤ most) }
        ensures failed { IsErrOf result FileFault.Failed → HasRisen self.old self.new }
        ensures counted { self.new ≡ faults_after result self.old }
        ensures later { self.old ≤ self.new }
    {
        match read_file(self.system, alloc, name, most) {
            Ok(Some(bytes)) => Ok(bytes),
            Ok(None) => Err(FileFault::TooLong),
            Err(error) if error.kind() == ErrorKind::OutOfMemory => Err(FileFault::NoMemory),
            Err(_) => {
                self.faults = self.faults.saturating_add(1);
                Err(FileFault::Failed)
            }
        }
    }
}

// All bytes of a file, or `None` where there are more than `most`.
fn read_file<R: rt::Files>(
    system: &R,
    alloc: Global,
    name: &str,
    most: u64,
) -> io::Result<Option<Vec<u8>>>
    ensures { IfOk result (λ found. IfSome found (λ bytes. vec_len bytes ≤ most)) }
{
    let file = fs::open(system, name)?;
    let len = file.metadata()?.len();
    read_within(alloc, file, len, most)
}

// All bytes that a reader has left, or `None` where there are more than `most`. Room is taken once, for the number of
// bytes that is expected and one more, in which the last read finds the end.
fn read_within<F: Read + Drop>(
    alloc: Global,
    file: F,
    expected: u64,
    most: u64,
) -> io::Result<Option<Vec<u8>>>
    ensures whole { IfOk result (λ found. IfSome (F.remaining file) (λ all.
        MatchOption found (most < length all) (λ bytes. bytes.items ≡ all))) }
    ensures within { IfOk result (λ found. IfSome found (λ bytes. vec_len bytes ≤ most)) }
{
    let limit = most.saturating_add(1);
    let room = expected.min(limit) as usize;
    let mut bytes = Vec::with_capacity(alloc, room.saturating_add(1))?;
    file.take(limit).read_to_end(&mut bytes)?;
    if bytes.len() as u64 > most {
        return Ok(None);
    }
    Ok(Some(bytes))
}
