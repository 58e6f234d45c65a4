//! Which days are free.
ghost use Rattle.std.specs.Prelude.{◌≡◌, ◌<◌};
ghost use Rattle.calendars.specs.Free as spec;
ghost use Rattle.calendars.specs.Dates as dates;

use crate::DaySet;

/// The free days of a stream: the dates of its calendar, and Saturdays and Sundays where these are free.
#[derive(Drop)]
pub struct FreeDays {
    /// The dates of the calendar of free days.
    pub dates: DaySet,
    /// Whether each Saturday is free.
    pub sa: bool,
    /// Whether each Sunday is free.
    pub su: bool,
}

/// Whether the day is free.
pub fn is_free(free: &FreeDays, day: u32) -> bool
    ensures { result ≡ spec.is_free free.now day }
{
    let weekday = weekday_of(day);
    (free.sa && weekday == 5) || (free.su && weekday == 6) || free.dates.has(day)
}

/// Whether the day is a workday, which is one that is not free.
pub fn is_workday(free: &FreeDays, day: u32) -> bool
    ensures { result ≡ spec.is_workday free.now day }
{
    !is_free(free, day)
}

/// The day of the week, 0 for Monday to 6 for Sunday.
pub(crate) fn weekday_of(day: u32) -> u32
    ensures { result ≡ dates.weekday day }
{
    ((u64::from(day) + 3) % 7) as u32
}
