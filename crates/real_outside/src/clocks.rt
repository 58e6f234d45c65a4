//! The system's clock.
ghost use Rattle.std.specs.Prelude.{None};

use base_types::Moment;
use outside::Clock;
use std::time;
use std::time::{SystemTime, UNIX_EPOCH};

/// The system's clock. Where it cannot be read the last reading is given again, and 0 before any.
#[derive(Drop)]
pub struct SystemClock<R> {
    rt: R,
    last: Moment,
}

impl<R: time::Clock> SystemClock<R> {
    /// The clock of this system.
    pub fn new(rt: R) -> Self {
        SystemClock {
            rt,
            last: Moment(0),
        }
    }
}

impl<R: time::Clock> Clock for SystemClock<R> {
    ghost readings = { λ _. None };

    fn now(&mut self) -> Moment {
        if let Ok(time) = SystemTime::now(&self.rt)
            && let Ok(since) = time.duration_since(UNIX_EPOCH)
        {
            self.last = Moment(since.as_secs());
        }
        self.last
    }
}
