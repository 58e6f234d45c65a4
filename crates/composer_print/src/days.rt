//! Days and times as they are written.
ghost use Rattle.std.specs.Prelude.{◌≡◌, ◌++◌, ◌≤◌, ◌<◌, ◌≤ℤ◌, OnOk, IfSome, Some, pos};
ghost use Rattle.jiff_core.specs.Date.{epoch_day};
ghost use Rattle.calendars.specs.Dates.{last_day};
ghost use Rattle.composer_print.specs.Days as spec;

use calendars::LAST_DAY;
use jiff_core::civil::Date;
use std::io::{self, Write};

/// Writes MM/DD/YYYY of a day, counted from 01/01/1970 as 0. A number above 2932896 is no day and has no text.
#[tactic(auto, unfolding(crate::specs::Days::date_text))]
pub(crate) fn write_date(out: &mut Vec<u8>, day: u32) -> io::Result<()>
    ensures { OnOk result (out.new.items ≡ out.old.items ++ spec.date_text day) }
{
    match date_of_day(day) {
        None => Ok(()),
        Some(date) => write_parts(out, date),
    }
}

fn write_parts(out: &mut Vec<u8>, date: (u16, u8, u8)) -> io::Result<()>
    requires { date.0 < 10000 }
    ensures { OnOk result (out.new.items ≡ out.old.items ++ spec.written_date (Some date)) }
{
    write_two(out, date.1)?;
    write!(out, "/")?;
    write_two(out, date.2)?;
    write!(out, "/")?;
    write_two(out, (date.0 / 100) as u8)?;
    write_two(out, (date.0 % 100) as u8)
}

/// Year, month and day of a day.
#[tactic(auto, unfolding(crate::specs::Days::date_of_day))]
fn date_of_day(day: u32) -> Option<(u16, u8, u8)>
    ensures value { result ≡ spec.date_of_day day }
    ensures small { IfSome result (λ d. d.0 < 10000) }
{
    if day > LAST_DAY {
        return None;
    }
    match Date::from_unix_epoch_day(i64::from(day)) {
        Ok(date) => Some(parts_of(date, day)),
        Err(_) => None,
    }
}

/// Year, month and day of a date from 1970 on.
fn parts_of(date: Date, day: u32) -> (u16, u8, u8)
    requires number { epoch_day date ≡ pos day }
    requires late { day ≤ last_day }
    ensures value { result ≡ spec.date_after day }
    ensures small { result.0 < 10000 }
{
    let year = from_zero(date.year);
    (year, date.month, date.day)
}

fn from_zero(year: i16) -> u16
    requires { pos 0 ≤ℤ year }
    ensures { pos result ≡ year }
{
    year as u16
}

/// Writes HHMM of minutes after 0000. A number above 1439 is no time and has no text.
#[tactic(auto, unfolding(crate::specs::Days::time_text))]
pub(crate) fn write_time(out: &mut Vec<u8>, minutes: u16) -> io::Result<()>
    ensures { OnOk result (out.new.items ≡ out.old.items ++ spec.time_text minutes) }
{
    if minutes >= 1440 {
        return Ok(());
    }
    write_two(out, (minutes / 60) as u8)?;
    write_two(out, (minutes % 60) as u8)
}

/// Writes a number below 100 in two digits.
fn write_two(out: &mut Vec<u8>, n: u8) -> io::Result<()>
    ensures { OnOk result (out.new.items ≡ out.old.items ++ spec.two_digits n) }
{
    out.extend_from_slice(&[b'0' + n / 10, b'0' + n % 10])?;
    Ok(())
}
