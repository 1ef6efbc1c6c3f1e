//! Workers at once. A closure with a contract is proved three times, each time for all type parameters
//! of the function around it; so that of the workers stands here, where these are three.
ghost use Rattle.std.specs.Prelude.{◌≡◌, ℕ, ◌<◌, length, get_or};

use std::thread;
use std::thread::Threads;

/// What each of some workers does, by its place.
pub(crate) trait Task<W> {
    /// The worker at a place can begin.
    ghost can_begin: { Self → ℕ → W → Type 0 };

    /// The worker at a place has become another by its work.
    ghost has_worked: { Self → ℕ → W → W → Type 0 };

    fn work(&self, at: usize, worker: &mut W)
        requires { can_begin self.now at worker.old }
        ensures { has_worked self.now at worker.old worker.new };
}

/// Lets all workers do their work at once, in so many threads.
pub(crate) fn work_all<H: Threads + Sync, W: Send, K: Task<W> + Sync>(
    rt: &H,
    threads: usize,
    task: &K,
    workers: &mut [W],
)
    requires some { 0 < threads }
    requires ready { (at : ℕ) (d : _) → at < length workers.old
        → K.can_begin task.now at (get_or workers.old at d) }
    ensures len { length workers.new ≡ length workers.old }
    ensures worked { (at : ℕ) (d : _) → at < length workers.old
        → K.has_worked task.now at (get_or workers.old at d) (get_or workers.new at d) }
{
    thread::for_each_mut(
        rt,
        workers,
        threads,
        &|at: usize, worker: &mut W|
            requires { K.can_begin task.now at worker.now }
            ensures { K.has_worked task.entry.now at worker.entry.now worker.exit.now }
        { task.work(at, worker) },
    );
}
