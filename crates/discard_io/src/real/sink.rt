ghost use Rattle.std.specs.Prelude.{◌≡◌, ◌≤◌, ◌<◌, None, length, take, IfOk};
ghost use Rattle.std.specs.Io.KnownBytes.{Appends};
ghost use Rattle.discard_io.specs.Faults.{call_faults};

use crate::sink::Sink;
use crate::status::Failed;
use std::io;
use std::io::Write;

/// A sink over one of std's writers, such as the standard output, which it flushes after each write. Each error counts
/// as a fault, also of the flush, and so does a write that takes nothing of a piece that is not empty. It tells neither
/// what was written nor how many writes were made.
#[derive(Debug, Drop)]
pub struct StdSink<W> {
    writer: W,
    faults: u64,
}

impl<W: Write> StdSink<W> {
    ghost use Rattle.discard_io.specs.Adapters.{writer_of, sink_faults};

    /// A sink over this writer.
    pub fn new(writer: W) -> StdSink<W>
        ensures writer { writer_of result ≡ writer }
        ensures faults { sink_faults result ≡ 0 }
    {
        StdSink { writer, faults: 0 }
    }
}

impl<W: Write> Sink for StdSink<W> {
    ghost use Rattle.discard_io.specs.Adapters.{writer_of, sink_faults};

    ghost written = { λ _. None };

    ghost writes = { λ _. None };

    ghost faults = { λ sink. sink_faults sink };

    fn write(&mut self, piece: &[u8]) -> Result<usize, Failed>
        ensures within { IfOk result (λ n. n ≤ length piece.now) }
        ensures some { IfOk result (λ n. 0 < length piece.now → 0 < n) }
        // Where the writer tells its bytes, these were appended.
        ensures bytes { IfOk result (λ n.
            Appends (W.contents (writer_of self.old)) (W.contents (writer_of self.new))
            (take n piece.now)) }
        ensures counted { sink_faults self.new ≡ call_faults result (sink_faults self.old) }
        ensures later { sink_faults self.old ≤ sink_faults self.new }
    {
        match write_and_flush(&mut self.writer, piece) {
            Ok(count) if count > 0 || piece.is_empty() => Ok(count),
            _ => {
                self.faults = self.faults.saturating_add(1);
                Err(Failed)
            }
        }
    }
}

// Writes once, and then flushes.
fn write_and_flush<W: Write>(writer: &mut W, piece: &[u8]) -> io::Result<usize>
    ensures within { IfOk result (λ n. n ≤ length piece.now) }
    ensures bytes { IfOk result (λ n.
        Appends (W.contents writer.old) (W.contents writer.new) (take n piece.now)) }
{
    let count = writer.write(piece)?;
    writer.flush()?;
    Ok(count)
}
