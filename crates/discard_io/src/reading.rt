ghost use Rattle.std.specs.Prelude.{◌≡◌, Some, ℕ, ◌+◌, ◌-◌, ◌^◌, ◌<◌, ◌≤◌, ◌++◌, List, length, IfOk, OnErr, IsErrOf, vec_len};
ghost use Rattle.units.specs.Count.{HasRisen};
ghost use Rattle.discard_io.specs.Counts.{CalledAtMost, one_call_more};
ghost use Rattle.discard_io.specs.ReadToEnd.{ReadsToEnd};
ghost use Rattle.discard_io.specs.Streams.{Took, TookAtMost, IsAtEnd};
ghost use Rattle.discard_io.specs.declared.reading.ReadEnd.TheVariants as ends;

use crate::source::Source;
use crate::status::Failed;
use std::alloc::{AllocError, Global};
use std::error::Error;
use std::{cmp, fmt};
use units::NoMemory;

// The most bytes that one read asks for.
const LARGEST_READ: u64 = 1 << 16;

/// Why a source was not read to its end.
#[derive(Clone, Copy, Debug, PartialEq, Eq)]
pub enum ReadEnd {
    /// The source had a fault.
    Failed,
    /// There are more bytes than the caller wants.
    TooLong,
    /// Out of memory.
    NoMemory,
}

impl fmt::Display for ReadEnd {
    ghost use Rattle.discard_io.specs.Texts.{end_text};

    ghost output = { λ end. Some (end_text end) };

    fn fmt<W: fmt::Write>(&self, f: &mut fmt::Formatter<W>) -> fmt::Result {
        match self {
            ReadEnd::Failed => Failed.fmt(f),
            ReadEnd::TooLong => f.write_str("too long"),
            ReadEnd::NoMemory => NoMemory.fmt(f),
        }
    }
}

impl Error for ReadEnd {}

impl From<Failed> for ReadEnd {
    ghost from_gives = { λ _ end. end ≡ ends.Failed };

    fn from(_error: Failed) -> ReadEnd {
        ReadEnd::Failed
    }
}

impl From<AllocError> for ReadEnd {
    ghost from_gives = { λ _ end. end ≡ ends.NoMemory };

    fn from(_error: AllocError) -> ReadEnd {
        ReadEnd::NoMemory
    }
}

/// All bytes that a source has left, where they are at most `most`, by at most `most + 1` reads.
///
/// At each other answer the bytes that were taken are lost. `TooLong` comes only where exactly `most + 1` bytes were
/// taken. `Failed` comes only where the source's count of faults rose in this call, and then at most `most` bytes
/// were taken. At `NoMemory` at most `most + 1` bytes were taken.
pub fn read_to_end<S: Source>(alloc: Global, source: &mut S, most: u64) -> Result<Vec<u8>, ReadEnd>
    requires { most < u64.MAX }
    ensures within { IfOk result (λ bytes. vec_len bytes ≤ most) }
    ensures took { ReadsToEnd result most (S.left source.old) (S.left source.new) }
    ensures reads { CalledAtMost (S.reads source.old) (most + 1) (S.reads source.new) }
    ensures failed { IsErrOf result ReadEnd.Failed
        → HasRisen (S.faults source.old) (S.faults source.new) }
    ensures later { S.faults source.old ≤ S.faults source.new }
{
    let mut buffer = buffer_of(alloc, cmp::min(most + 1, LARGEST_READ) as usize)?;
    let mut bytes = Vec::new(alloc);
    // Each turn but the last takes at least one byte, which bounds the reads.
    while bytes.len() as u64 <= most {
        let room = most + 1 - bytes.len() as u64;
        if read_more(source, &mut buffer, room, &mut bytes)? == 0 {
            return Ok(bytes);
        }
    }
    Err(ReadEnd::TooLong)
}

// Moves at most `room` bytes of the source to the end of `bytes`, in one read, and answers how many. At 0 the source
// is at its end.
fn read_more<S: Source>(
    source: &mut S,
    buffer: &mut [u8],
    room: u64,
    bytes: &mut Vec<u8>,
) -> Result<usize, ReadEnd>
    requires buffer { 0 < length buffer.old }
    requires room { 0 < room }
    ensures took { IfOk result (λ n. (part : List ℕ) × (length part ≡ n)
        × (bytes.new.items ≡ bytes.old.items ++ part)
        × Took (S.left source.old) part (S.left source.new)) }
    ensures within { IfOk result (λ n. n ≤ room) }
    ensures end { IfOk result (λ n. n ≡ 0 → IsAtEnd (S.left source.new)) }
    ensures same { IsErrOf result ReadEnd.Failed → S.left source.new ≡ S.left source.old }
    ensures lost { IsErrOf result ReadEnd.NoMemory
        → TookAtMost (S.left source.old) room (S.left source.new) }
    ensures short { IsErrOf result ReadEnd.TooLong → ⊥ }
    ensures counted { S.reads source.new ≡ one_call_more (S.reads source.old) }
    ensures failed { IsErrOf result ReadEnd.Failed
        → HasRisen (S.faults source.old) (S.faults source.new) }
    ensures later { S.faults source.old ≤ S.faults source.new }
{
    let most = cmp::min(room, buffer.len() as u64) as usize;
    let piece = &mut buffer[..most];
    let count = source.read(piece)?;
    bytes.extend_from_slice(&piece[..count])?;
    Ok(count)
}

// A buffer of this many bytes.
fn buffer_of(alloc: Global, len: usize) -> Result<Vec<u8>, AllocError>
    ensures { IfOk result (λ buffer. vec_len buffer ≡ len) }
{
    Vec::from_elem(alloc, 0, len)
}
