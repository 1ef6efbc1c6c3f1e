ghost use Rattle.std.specs.Prelude.{◌≡◌, ℕ, ◌≤◌, [], length, OnOk, OnErr};
ghost use Rattle.units.specs.Count.{HasRisen};
ghost use Rattle.discard_io.specs.Counts.{CalledAtMost};
ghost use Rattle.discard_io.specs.Streams.{appended, WroteFront};
ghost use Rattle.discard_io.specs.WriteAll.{WritesNothing};

use crate::sink::Sink;
use crate::status::Failed;

/// Writes all of `bytes`, with at most one write a byte. Where `bytes` is empty it makes no write and answers Ok.
///
/// `Failed` comes only where the sink's count of faults rose in this call, and then a front of `bytes` was written.
pub fn write_all<O: Sink>(sink: &mut O, bytes: &[u8]) -> Result<(), Failed>
    ensures all { OnOk result (O.written sink.new ≡ appended (O.written sink.old) bytes.now) }
    ensures front { OnErr result (WroteFront (O.written sink.old) bytes.now (O.written sink.new)) }
    ensures writes { CalledAtMost (O.writes sink.old) (length bytes.now) (O.writes sink.new) }
    ensures nothing { bytes.now ≡ [] → WritesNothing result sink.old sink.new }
    ensures failed { OnErr result (HasRisen (O.faults sink.old) (O.faults sink.new)) }
    ensures later { O.faults sink.old ≤ O.faults sink.new }
{
    let mut at = 0;
    while at < bytes.len() {
        at += sink.write(&bytes[at..])?;
    }
    Ok(())
}
