ghost use Rattle.std.specs.Prelude.{◌≡◌, ◌↔◌, ◌<◌, ◌≤◌, [], ℕ, Some, length, take, drop, min, ◌++◌, IfOk, IsErr, OnErr};
ghost use Rattle.discard_io.specs.Memory.{Reading, no_calls, NextFails, one_more, one_more_failed};

use super::calls::Calls;
use super::remaining::Remaining;
use crate::source::Source;
use crate::status::Failed;
use std::alloc::Global;
use std::cmp;
use std::marker::Model;
use units::NoMemory;

/// A source in memory, with a limit on the bytes that one call moves. It fails at chosen calls.
#[derive(Debug, Drop)]
pub struct MemSource {
    left: Remaining,
    most: u32,
    calls: Calls,
}

impl Model for MemSource {
    ghost Value = { Reading };

    ghost view = { λ s. record { left = s.left; most = s.most; calls = s.calls } };

    ghost invariant = { λ s. 1 ≤ s.most };
}

impl MemSource {
    /// A source of these bytes, of which a call moves at most `most`. The calls whose numbers stand in `fails`,
    /// counted from 1, fail.
    pub fn new(alloc: Global, bytes: &[u8], most: u32, fails: &[u64]) -> Result<MemSource, NoMemory>
        requires { 1 ≤ most }
        ensures { IfOk result (λ source.
            source ≡ record { left = bytes.now; most = most; calls = no_calls fails.now }) }
    {
        Ok(MemSource {
            left: Remaining::new(alloc, bytes)?,
            most,
            calls: Calls::new(alloc, fails)?,
        })
    }
}

impl Source for MemSource {
    ghost left = { λ s. Some s.left };

    ghost reads = { λ s. Some s.calls.made };

    ghost faults = { λ s. s.calls.faults };

    fn read(&mut self, buf: &mut [u8]) -> Result<usize, Failed>
        ensures fails { IsErr result ↔ NextFails self.old.calls }
        ensures count { IfOk result (λ n.
            n ≡ min (min (length buf.old) self.old.most) (length self.old.left)) }
        ensures moved { IfOk result (λ n. buf.new ≡ take n self.old.left ++ drop n buf.old) }
        ensures left { IfOk result (λ n. self.new ≡ record self.old {
          left = drop n self.old.left;
          calls = one_more self.old.calls;
        }) }
        ensures fault { OnErr result (
            self.new ≡ record self.old { calls = one_more_failed self.old.calls }) }
        ensures kept { OnErr result (buf.new ≡ buf.old) }
        ensures end { IfOk result (λ n. n ≡ 0 → 0 < length buf.old → self.old.left ≡ []) }
        ensures later { self.old.calls.faults ≤ self.new.calls.faults }
    {
        if self.calls.next_fails() {
            return Err(Failed);
        }
        let most = cmp::min(buf.len(), self.most as usize);
        Ok(self.left.read(&mut buf[..most]))
    }
}
