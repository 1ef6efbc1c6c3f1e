use std::sync::Wait;
use std::sync::atomic::{AtomicBool, AtomicU64, Ordering};
use std::thread;
use std::thread::Threads;

/// Where threads may be held, so that a test can bring them into one order.
pub trait Gate {
    /// Thread `who` passes `place`. It may wait for another thread.
    fn pass<H: Threads + Wait + Sync>(&self, rt: &H, who: u32, place: u64);
}

/// A gate that never waits.
#[derive(Clone, Copy, Debug)]
pub struct OpenGate;

impl OpenGate {
    /// Such a gate.
    pub fn new() -> OpenGate {
        OpenGate
    }
}

impl Gate for OpenGate {
    fn pass<H: Threads + Wait + Sync>(&self, _rt: &H, _who: u32, _place: u64) {}
}

/// How many turns a thread is held at most.
const MOST_TURNS: u32 = 10_000_000;

/// A gate for tests, at which clients 1 and 2 show that they run at once: each is held at place 1
/// until the other has passed place 0. Nobody else is held.
#[derive(Debug, Drop)]
pub struct MeetGate {
    first_passed: AtomicBool,
    second_passed: AtomicBool,
    stuck: AtomicBool,
    passes: AtomicU64,
}

impl MeetGate {
    /// Such a gate, which nobody has passed yet.
    pub fn new() -> MeetGate {
        MeetGate {
            first_passed: AtomicBool::new(false),
            second_passed: AtomicBool::new(false),
            stuck: AtomicBool::new(false),
            passes: AtomicU64::new(0),
        }
    }

    /// Whether somebody was let go who had waited for 10,000,000 turns.
    pub fn stuck(&self) -> bool {
        self.stuck.load(Ordering::SeqCst)
    }

    /// How many calls of `pass` there were.
    pub fn passes(&self) -> u64 {
        self.passes.load(Ordering::SeqCst)
    }

    /// Waits until the other one has passed, or for the greatest number of turns.
    fn wait_for(&self, passed: &AtomicBool) {
        for _ in 0..MOST_TURNS {
            if passed.load(Ordering::SeqCst) {
                return;
            }
            thread::yield_now();
        }
        self.stuck.store(true, Ordering::SeqCst);
    }
}

impl Gate for MeetGate {
    fn pass<H: Threads + Wait + Sync>(&self, _rt: &H, who: u32, place: u64) {
        self.passes.fetch_add(1, Ordering::SeqCst);
        match (who, place) {
            (1, 0) => self.first_passed.store(true, Ordering::SeqCst),
            (2, 0) => self.second_passed.store(true, Ordering::SeqCst),
            (1, 1) => self.wait_for(&self.second_passed),
            (2, 1) => self.wait_for(&self.first_passed),
            _ => {}
        }
    }
}
