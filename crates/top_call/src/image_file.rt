//! The image in a file.

ghost use Rattle.std.specs.Prelude.{◌≡◌, ◌≤◌, ℕ, List, vec_len};
ghost use Rattle.tile_source.specs.declared.limits.TheConstants.{MOST_FILE_BYTES};
ghost use Rattle.top_call.specs.ImageFile.{ReadsFile, Reads, StatusFor};

use discard_io::{FileFault, Files, Status};
use std::alloc::Global;
use tile_source::{Image, MOST_FILE_BYTES, PgmFault, causes, read_pgm_in_place};

/// The image in a file, or the status of a run that ends here: BadInput where the bytes of the file are
/// refused, FileFault where the files failed, or NoMemory.
pub(crate) fn read_image<F: Files>(
    alloc: Global,
    file: &str,
    files: &mut F,
) -> Result<Image, Status>
    ensures reads { ReadsFile result (F.bytes files.old file.now)
        (F.faults files.old) (F.faults files.new) }
    ensures files { (name : List ℕ) → F.bytes files.new name ≡ F.bytes files.old name }
    ensures later { F.faults files.old ≤ F.faults files.new }
{
    match files.read_all(alloc, file, MOST_FILE_BYTES) {
        Ok(bytes) => image_of(bytes),
        Err(FileFault::Failed) => Err(Status::FileFault),
        Err(FileFault::TooLong) => Err(Status::BadInput {
            place: MOST_FILE_BYTES,
            cause: causes::FILE_TOO_LONG,
        }),
        Err(FileFault::NoMemory) => Err(Status::NoMemory),
    }
}

/// The image in the bytes of a file, whose samples stay where they stand, or the status of a run that
/// ends here.
fn image_of(bytes: Vec<u8>) -> Result<Image, Status>
    requires { vec_len bytes ≤ MOST_FILE_BYTES }
    ensures { Reads result bytes.items }
{
    let len = bytes.len() as u64;
    match read_pgm_in_place(bytes) {
        Ok(image) => Ok(image),
        Err(fault) => Err(status_of(len, fault)),
    }
}

/// The status for a fault of a file that has `len` bytes.
fn status_of(len: u64, fault: PgmFault) -> Status
    ensures { StatusFor len fault result }
{
    let (place, cause) = match fault {
        PgmFault::BadMagic => (0, causes::BAD_MAGIC),
        PgmFault::BadNumber { at } => (at, causes::BAD_NUMBER),
        PgmFault::TooLarge { at } => (at, causes::TOO_LARGE),
        PgmFault::Short { .. } => (len, causes::SHORT),
        PgmFault::WideSamples { at } => (at, causes::WIDE_SAMPLES),
        PgmFault::NoMemory => return Status::NoMemory,
    };
    Status::BadInput { place, cause }
}
