//! Dates, and the days that they are.
ghost use Rattle.std.specs.Prelude.{◌≡◌, ◌≤◌, true, IfSome, IsTrue, pos, ◌≤ℤ◌};
ghost use Rattle.jiff.specs.Words.{epoch_day};
ghost use Rattle.calendars.specs.Dates as spec;
ghost use Rattle.calendars.specs.Dates.{IsDay};

use jiff::civil::Date;

/// 12/31/9999, the last day that there is.
pub const LAST_DAY: u32 = 2_932_896;

/// The day of a date, counted from 01/01/1970 as 0. None where there is no such date from 1970 to 9999.
pub fn day_of(year: u16, month: u8, day: u8) -> Option<u32>
    ensures value { result ≡ spec.day_of year month day }
    ensures small { IfSome result IsDay }
{
    if !is_near(year, month, day) {
        return None;
    }
    match Date::new(year as i16, month as i8, day as i8) {
        Ok(date) => Some(number_of(date)),
        Err(_) => None,
    }
}

/// Whether the parts are none that no date from 1970 to 9999 has.
fn is_near(year: u16, month: u8, day: u8) -> bool
    ensures near { IsTrue result → (1970 ≤ year) × (year ≤ 9999) × (month ≤ 12) × (day ≤ 31) }
    ensures far { spec.is_date year month day ≡ true → IsTrue result }
{
    year >= 1970 && year <= 9999 && month <= 12 && day <= 31
}

/// The day of a date from 1970 on.
fn number_of(date: Date) -> u32
    requires { pos 0 ≤ℤ epoch_day date }
    ensures value { pos result ≡ epoch_day date }
    ensures small { IsDay result }
{
    date.to_plain().to_unix_epoch_day() as u32
}
