ghost use Rattle.std.specs.Prelude.{◌≡◌, ℕ, ◌<◌, ◌≤◌, List, length, take, Option, IfOk, OnErr};
ghost use Rattle.units.specs.Count.{HasRisen};
ghost use Rattle.discard_io.specs.Counts.{one_call_more};
ghost use Rattle.discard_io.specs.Streams.{appended};

use crate::status::Failed;

/// Where bytes go.
pub trait Sink {
    // the bytes written so far, where the sink tells them
    ghost written: { Self → Option (List ℕ) };

    // how many calls of `write` were made, where the sink tells it
    ghost writes: { Self → Option ℕ };

    // how often it has failed
    ghost faults: { Self → ℕ };

    /// Appends the first bytes of `piece`, and answers how many: at least one of a piece that is not empty.
    ///
    /// `Failed` comes only where the count of faults rose in this call, and leaves the bytes that the sink tells.
    fn write(&mut self, piece: &[u8]) -> Result<usize, Failed>
        ensures within { IfOk result (λ n. n ≤ length piece.now) }
        ensures some { IfOk result (λ n. 0 < length piece.now → 0 < n) }
        ensures appended { IfOk result (λ n.
            written self.new ≡ appended (written self.old) (take n piece.now)) }
        ensures same { OnErr result (written self.new ≡ written self.old) }
        ensures counted { writes self.new ≡ one_call_more (writes self.old) }
        ensures failed { OnErr result (HasRisen (faults self.old) (faults self.new)) }
        ensures later { faults self.old ≤ faults self.new };
}
