ghost use Rattle.std.specs.Prelude.{◌≡◌, ℕ, ◌<◌, ◌≤◌, List, length, take, Option, IfOk, OnErr};
ghost use Rattle.units.specs.Count.{HasRisen};
ghost use Rattle.discard_io.specs.Counts.{one_call_more};
ghost use Rattle.discard_io.specs.Streams.{Took, IsAtEnd};

use crate::status::Failed;

/// Where bytes come from.
pub trait Source {
    // the bytes that are left, where the source tells them
    ghost left: { Self → Option (List ℕ) };

    // how many calls of `read` were made, where the source tells it
    ghost reads: { Self → Option ℕ };

    // how often it has failed
    ghost faults: { Self → ℕ };

    /// Moves the next bytes into the front of `buf`, and answers how many. 0 for a buffer that is not empty means
    /// the end.
    ///
    /// `Failed` comes only where the count of faults rose in this call, and leaves the bytes that the source tells.
    fn read(&mut self, buf: &mut [u8]) -> Result<usize, Failed>
        ensures within { IfOk result (λ n. n ≤ length buf.old) }
        ensures took { IfOk result (λ n. Took (left self.old) (take n buf.new) (left self.new)) }
        ensures end { IfOk result (λ n. n ≡ 0 → 0 < length buf.old → IsAtEnd (left self.old)) }
        ensures same { OnErr result (left self.new ≡ left self.old) }
        ensures counted { reads self.new ≡ one_call_more (reads self.old) }
        ensures failed { OnErr result (HasRisen (faults self.old) (faults self.new)) }
        ensures later { faults self.old ≤ faults self.new };
}
