ghost use Rattle.std.specs.Prelude.{◌≡◌, ◌≤◌, None, length, IfOk};
ghost use Rattle.std.specs.Io.KnownBytes.{ReadConsumes};
ghost use Rattle.discard_io.specs.Faults.{call_faults};

use crate::source::Source;
use crate::status::Failed;
use std::io::Read;

/// A source over one of std's readers, such as the standard input. Each error counts as a fault. It tells neither what
/// is left nor how many reads were made.
#[derive(Debug, Drop)]
pub struct StdSource<R> {
    reader: R,
    faults: u64,
}

impl<R: Read> StdSource<R> {
    ghost use Rattle.discard_io.specs.Adapters.{reader_of, source_faults};

    /// A source over this reader.
    pub fn new(reader: R) -> StdSource<R>
        ensures reader { reader_of result ≡ reader }
        ensures faults { source_faults result ≡ 0 }
    {
        StdSource { reader, faults: 0 }
    }
}

impl<R: Read> Source for StdSource<R> {
    ghost use Rattle.discard_io.specs.Adapters.{reader_of, source_faults};

    ghost left = { λ _. None };

    ghost reads = { λ _. None };

    ghost faults = { λ source. source_faults source };

    fn read(&mut self, buf: &mut [u8]) -> Result<usize, Failed>
        ensures within { IfOk result (λ n. n ≤ length buf.old) }
        // Where the reader tells its bytes, these are the next ones.
        ensures bytes { ReadConsumes
            (R.remaining (reader_of self.old)) (R.remaining (reader_of self.new)) result buf.new }
        ensures counted { source_faults self.new ≡ call_faults result (source_faults self.old) }
        ensures later { source_faults self.old ≤ source_faults self.new }
    {
        match self.reader.read(buf) {
            Ok(count) => Ok(count),
            Err(_) => {
                self.faults = self.faults.saturating_add(1);
                Err(Failed)
            }
        }
    }
}
