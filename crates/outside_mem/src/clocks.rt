// A clock in memory.
ghost use Rattle.std.specs.Prelude.{◌≡◌, Some, [], get_or};
ghost use Rattle.outside.specs.Calls.{AddsOrEnds};
ghost use Rattle.outside.specs.Causes.{one_more};
ghost use Rattle.outside_mem.specs.Clocks.{reading_at, told};

use base_types::{Items, Moment};
use outside::Clock;
use std::marker::Model;

/// A clock that gives these readings in turn, the last of them again where none is left, and 0 where there is none.
#[derive(Drop)]
pub struct MemClock {
    readings: Items<Moment>,
    made: u64,
}

impl Model for MemClock {
    ghost use Rattle.outside_mem.specs.Clocks.{ClockState};

    ghost Value = { ClockState };

    ghost view = { λ c. record { listed = c.readings; made = c.made } };
}

impl MemClock {
    /// A clock of these readings. It takes no memory.
    pub fn new(readings: Items<Moment>) -> Self
        ensures value { result ≡ record { listed = readings; made = 0 } }
        ensures told { ⟦<MemClock as Clock>⟧.readings result ≡ Some [] }
    {
        MemClock { readings, made: 0 }
    }
}

/// The reading with this number, counted from 0, or 0.
fn reading_of(readings: &[Moment], i: usize) -> Moment
    ensures { result ≡ get_or readings.now i 0 }
{
    match readings.get(i) {
        Some(reading) => *reading,
        None => Moment(0),
    }
}

impl Clock for MemClock {
    ghost readings = { told };

    fn now(&mut self) -> Moment
        ensures readings { AddsOrEnds result (told self.old) (told self.new) }

        // Past the trait's clause: which reading it is.
        ensures reading { result ≡ reading_at self.old.listed self.old.made }
        ensures after { self.new ≡ record { listed = self.old.listed; made = one_more self.old.made } }
    {
        let last = self.readings.len().saturating_sub(1) as u64;
        let reading = reading_of(self.readings.as_slice(), self.made.min(last) as usize);
        self.made = self.made.saturating_add(1);
        reading
    }
}
