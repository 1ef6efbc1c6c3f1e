ghost use Rattle.std.specs.Prelude.{◌≡◌, ◌↔◌, ◌⊎◌, ◌≤◌, ◌<◌, ◌-◌, [], ◌++◌, ℕ, Some, length, take, min, vec_len, vec_capacity, IfOk, IsErr, OnErr};
ghost use Rattle.discard_io.specs.Memory.{Writing, no_calls, NextFails, one_more, one_more_failed};

use super::calls::Calls;
use crate::sink::Sink;
use crate::status::Failed;
use std::alloc::Global;
use std::marker::Model;
use units::NoMemory;

/// A sink in memory, with a limit on all bytes and on the bytes that one call moves. It fails at chosen calls.
#[derive(Debug, Drop)]
pub struct MemSink {
    bytes: Vec<u8>,
    room: u32,
    most: u32,
    calls: Calls,
}

impl Model for MemSink {
    ghost Value = { Writing };

    ghost view = { λ s. record {
      written = s.bytes.items;
      room = s.room;
      most = s.most;
      calls = s.calls;
    } };

    ghost invariant = { λ s.
        (1 ≤ s.most) × (vec_len s.bytes ≤ s.room) × (s.room ≤ vec_capacity s.bytes) };
}

impl MemSink {
    /// An empty sink that takes at most `room` bytes, and at most `most` a call. The calls whose numbers stand in
    /// `fails`, counted from 1, fail, and so does one with a piece that is not empty where no room is left.
    pub fn new(alloc: Global, room: u32, most: u32, fails: &[u64]) -> Result<MemSink, NoMemory>
        requires { 1 ≤ most }
        ensures { IfOk result (λ sink.
            sink ≡ record { written = []; room = room; most = most; calls = no_calls fails.now }) }
    {
        Ok(MemSink {
            bytes: Vec::with_capacity(alloc, room as usize)?,
            room,
            most,
            calls: Calls::new(alloc, fails)?,
        })
    }

    /// The bytes that it got, in order.
    pub fn written(&self) -> &[u8]
        ensures { result.now ≡ self.now.written }
    {
        self.bytes.as_slice()
    }
}

impl Sink for MemSink {
    ghost written = { λ s. Some s.written };

    ghost writes = { λ s. Some s.calls.made };

    ghost faults = { λ s. s.calls.faults };

    fn write(&mut self, piece: &[u8]) -> Result<usize, Failed>
        ensures fails { IsErr result ↔ (NextFails self.old.calls
            ⊎ ((0 < length piece.now) × (length self.old.written ≡ self.old.room))) }
        ensures count { IfOk result (λ n.
            let room = self.old.room - length self.old.written in
            n ≡ min (min (length piece.now) self.old.most) room) }
        ensures appended { IfOk result (λ n. self.new ≡ record self.old {
          written = self.old.written ++ take n piece.now;
          calls = one_more self.old.calls;
        }) }
        ensures fault { OnErr result (
            self.new ≡ record self.old { calls = one_more_failed self.old.calls }) }
        ensures some { IfOk result (λ n. 0 < length piece.now → 0 < n) }
        ensures later { self.old.calls.faults ≤ self.new.calls.faults }
    {
        if self.calls.next_fails() {
            return Err(Failed);
        }
        let room = self.room as usize - self.bytes.len();
        if room == 0 && !piece.is_empty() {
            self.calls.count_fault();
            return Err(Failed);
        }
        let count = piece.len().min(self.most as usize).min(room);
        // The memory for the whole room was taken when the sink was made.
        self.bytes.extend_from_slice(&piece[..count]).unwrap();
        Ok(count)
    }
}
