ghost use Rattle.std.specs.Prelude.{◌≡◌};
ghost use Rattle.units.specs.Moment.{IsMoment};

use crate::clock::Clock;
use std::rt;
use units::LAST_MOMENT;

/// The clock of the system: the microseconds since 1970, brought into the range of moments. It
/// answers 1 where the clock cannot be read. It may go back.
#[derive(Drop)]
pub struct SystemClock<'a, R> {
    system: &'a R,
}

impl<'a, R: rt::Clock> SystemClock<'a, R> {
    /// The clock of this system.
    pub fn new(system: &'a R) -> SystemClock<'a, R> {
        SystemClock { system }
    }
}

impl<'a, R: rt::Clock> Clock for SystemClock<'a, R> {
    fn now(&self) -> u64 {
        match self.system.since_1970() {
            Ok(since) => since.as_micros().clamp(1, u128::from(LAST_MOMENT)) as u64,
            Err(_) => 1,
        }
    }
}
