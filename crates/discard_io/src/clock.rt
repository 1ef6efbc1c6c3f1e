ghost use Rattle.std.specs.Prelude.{◌≡◌, ◌≤◌};
ghost use Rattle.units.specs.Moment.{IsMoment};

use std::marker::Model;
use std::sync::atomic::{AtomicU64, Ordering};
use units::LAST_MOMENT;

/// Where moments come from.
pub trait Clock {
    /// A moment. It need not be later than an earlier answer.
    fn now(&self) -> u64
        ensures { IsMoment result };
}

/// A clock that counts its calls, seen as its first moment, which no answer is before.
///
/// In one thread it answers that moment, then one more at each call, and stays at the last moment: a test shows it,
/// since no clause can say what a counter holds that threads share.
#[derive(Debug, Drop)]
pub struct CountClock {
    first: u64,
    calls: AtomicU64,
}

impl Model for CountClock {
    ghost use Rattle.std.specs.Prelude.{ℕ};
    ghost use Rattle.units.specs.Moment.{IsMoment};

    ghost Value = { ℕ };

    ghost view = { λ c. c.first };

    ghost invariant = { λ c. IsMoment c.first };
}

impl CountClock {
    /// A clock that starts at this moment.
    pub fn new(first: u64) -> CountClock
        requires { IsMoment first }
        ensures { result ≡ first }
    {
        CountClock {
            first,
            calls: AtomicU64::new(0),
        }
    }
}

impl Clock for CountClock {
    fn now(&self) -> u64
        ensures moment { IsMoment result }
        ensures since_first { self.now ≤ result }
    {
        let calls = self.calls.fetch_add(1, Ordering::SeqCst);
        let moment = self.first.saturating_add(calls);
        if moment >= LAST_MOMENT {
            // The count stands still, so that it never begins again.
            self.calls.store(LAST_MOMENT, Ordering::SeqCst);
        }
        moment.min(LAST_MOMENT)
    }
}
