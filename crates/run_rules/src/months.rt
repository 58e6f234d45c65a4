//! The month of a day, and days counted from its beginning or its end.
ghost use Rattle.std.specs.Prelude.{◌≡◌, ◌<◌, ◌↔◌, ℕ, IfSome, IsNone, pos, ◌≤ℤ◌};
ghost use Rattle.calendars.specs.Dates.{last_day};
ghost use Rattle.jiff_core.specs.Date.{epoch_day};
ghost use Rattle.run_rules.specs.Months as spec;
ghost use Rattle.run_rules.specs.Months.{IsPlaceOf};

use jiff_core::civil::{Date, days_in_month};

/// Where a day stands in its month.
#[derive(Clone, Copy)]
pub struct MonthPlace {
    /// The month, counted from 01/1970 as 0.
    pub month: u32,
    /// The day of the month, from 1.
    pub day: u32,
    /// How many days the month has.
    pub length: u32,
}

/// Where a day stands in its month. None for a day after 12/31/9999.
pub(crate) fn place_of(day: u32) -> Option<MonthPlace>
    ensures place { IfSome result (λ place. IsPlaceOf place day) }
    ensures none { IsNone result ↔ (last_day < day) }
{
    match Date::from_unix_epoch_day(i64::from(day)) {
        Ok(date) => Some(place_in_month(date)),
        Err(_) => None,
    }
}

/// Where a date from 1970 on stands in its month.
fn place_in_month(date: Date) -> MonthPlace
    requires { pos 1970 ≤ℤ date.year }
    ensures { (day : ℕ) → epoch_day date ≡ pos day → IsPlaceOf result day }
{
    MonthPlace {
        month: (date.year as u32 - 1970) * 12 + (u32::from(date.month) - 1),
        day: u32::from(date.day),
        length: u32::from(days_in_month(date.year, date.month)),
    }
}

/// Whether a day with this place is the kth of its month, or the kth from its end for a k below 0.
pub(crate) fn is_kth(place: &MonthPlace, k: i32) -> bool
    ensures { result ≡ spec.is_kth place.now k }
{
    if k > 0 {
        return place.day == k as u32;
    }
    k < 0 && u64::from(place.day) + u64::from(k.unsigned_abs()) == u64::from(place.length) + 1
}
