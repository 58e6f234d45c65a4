// The clock.
ghost use Rattle.std.specs.Prelude.{List, ℕ};
ghost use Rattle.std.specs.declared.option.Option.{Option};
ghost use Rattle.outside.specs.Calls.{AddsOrEnds};

use base_types::Moment;

/// A clock, whose readings may go back. It tells them as long as it can count them.
pub trait Clock {
    /// The readings that it gave, where it tells them.
    ghost readings: { Self → Option (List ℕ) };

    /// The seconds since 1970, UTC.
    fn now(&mut self) -> Moment
        ensures { AddsOrEnds result (readings self.old) (readings self.new) };
}
