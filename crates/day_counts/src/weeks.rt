//! Saturdays, Sundays and weekdays before a day.
ghost use Rattle.std.specs.Prelude.{◌≡◌, ◌<◌, ◌==◌};
ghost use Rattle.std.specs.List.{list_any};
ghost use Rattle.calendars.specs.Dates.{weekday};
ghost use Rattle.day_counts.specs.Runs.{days_between};
ghost use Rattle.day_counts.specs.Weeks as spec;

/// How many Saturdays stand before a day: 01/03/1970 was the first.
pub(crate) fn saturdays_before(day: u32) -> usize
    ensures { result ≡ spec.saturdays_before day }
{
    (day as usize + 4) / 7
}

/// How many Sundays stand before a day: 01/04/1970 was the first.
pub(crate) fn sundays_before(day: u32) -> usize
    ensures { result ≡ spec.sundays_before day }
{
    (day as usize + 3) / 7
}

/// Whether such a day of the week, 0 for Monday to 6 for Sunday, stands from a day on and before another.
pub fn has_weekday(number: u8, from: u32, end: u32) -> bool
    ensures { result ≡ list_any (λ day. weekday day == number) (days_between from end) }
{
    number < 7 && weeks_before(number, from) < weeks_before(number, end)
}

/// A number that rises by one behind each such day of the week.
fn weeks_before(number: u8, day: u32) -> usize
    requires { number < 7 }
    ensures { result ≡ spec.weeks_before number day }
{
    (day as usize + 9 - usize::from(number)) / 7
}
