//! The moment of a time in the plan of a day.
ghost use Rattle.std.specs.Prelude.{◌≡◌, ◌↔◌, pos, IsOk, IfOk};
ghost use Rattle.calendars.specs.Dates.{IsDay};
ghost use Rattle.plan_times.specs.Moments.{date_of, seconds_of, IsInRange};

use base_types::Moment;
use calendars::LAST_DAY;

/// Why a time has no moment.
#[derive(Clone, Copy, Debug)]
pub enum TimeFault {
    /// Its date is after 12/31/9999, or the moment is before 1970.
    OutOfRange,
}

/// The moment of a minute of the day, counted from 0000, in the plan of a day. A minute below the start of day is on
/// the next date, and `plus` adds dates. `east` is the offset from UTC in minutes, above 0 east of Greenwich. Times of
/// day have fewer than 1440 minutes and offsets fewer than a day; the call asks for neither.
pub fn moment(day: u32, minute: u16, plus: u16, start: u16, east: i16) -> Result<Moment, TimeFault>
    requires { IsDay day }
    ensures found { IsOk result ↔ IsInRange (date_of day minute plus start) minute east }
    ensures value { IfOk result (λ m. pos m ≡ seconds_of (date_of day minute plus start) minute east) }
{
    let date = day + u32::from(plus) + u32::from(minute < start);
    if date > LAST_DAY {
        return Err(TimeFault::OutOfRange);
    }
    let seconds = seconds(date, minute, east);
    if seconds < 0 {
        return Err(TimeFault::OutOfRange);
    }
    Ok(Moment(seconds as u64))
}

/// Seconds since 1970 of a minute of a date, read so many minutes east of UTC.
fn seconds(date: u32, minute: u16, east: i16) -> i64
    requires { IsDay date }
    ensures { result ≡ seconds_of date minute east }
{
    let local = u64::from(date) * 86_400 + u64::from(minute) * 60;
    local as i64 - i64::from(east) * 60
}
