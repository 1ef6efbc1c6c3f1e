ghost use Rattle.std.specs.Prelude.{◌≡◌, IfOk};
ghost use Rattle.line_text.specs.Hex.{hex_of};

use crate::limits::MOST_MOVED_BYTES;
use hex::FromHexError;
use std::alloc::Global;
use units::{Bytes, NoMemory};

/// The most digits that a word of bytes has.
const MOST_DIGITS: u64 = 2 * MOST_MOVED_BYTES;

/// The bytes that a word of hexadecimal digits stands for, in either case. None comes exactly where
/// the word is not an even number of such digits, from 2 to 8192.
pub fn read_hex(alloc: Global, word: &[u8]) -> Result<Option<Bytes>, NoMemory>
    ensures { IfOk result (λ bytes. bytes ≡ hex_of word.now) }
{
    if word.len() < 2 || word.len() as u64 > MOST_DIGITS {
        return Ok(None);
    }
    match hex::decode(alloc, word) {
        Ok(bytes) => Ok(Some(Bytes::from_vec(bytes))),
        Err(error) => match error {
            FromHexError::OutOfMemory => Err(NoMemory),
            _ => Ok(None),
        },
    }
}
