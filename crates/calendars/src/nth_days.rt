//! The nth day of a kind.
ghost use Rattle.std.specs.Prelude.{◌≡◌, ◌+◌, ◌≤◌, slice_get, filter};
ghost use Rattle.calendars.specs.Nth as spec;
ghost use Rattle.calendars.specs.Nth.{days_after, days_before};

use crate::dates::LAST_DAY;
use crate::free_days::{FreeDays, is_workday, weekday_of};

/// Which days are counted.
#[derive(Clone, Copy)]
pub enum DayKind {
    /// Each day.
    Days,
    /// Monday to Friday, whether free or not.
    Weekdays,
    /// Each day that is not free.
    Workdays,
}

/// The nth day of the kind after a day, or before it for a negative n; the 0th is the day itself. None where the days
/// from 01/01/1970 to 12/31/9999 end first.
pub fn nth_day(free: &FreeDays, day: u32, n: i32, kind: DayKind) -> Option<u32>
    ensures { result ≡ spec.nth_day free.now day n kind }
{
    if n == 0 {
        return Some(day);
    }
    let passed = n.unsigned_abs() as usize - 1;
    if n > 0 {
        nth_after(free, day, passed, kind)
    } else {
        nth_before(free, day, passed, kind)
    }
}

/// The day of the kind after so many others of it that follow the day.
fn nth_after(free: &FreeDays, day: u32, passed: usize, kind: DayKind) -> Option<u32>
    ensures { result ≡ slice_get (filter (spec.is_of_kind free.now kind) (days_after day)) passed }
{
    let mut left = passed;
    for other in day.min(LAST_DAY) + 1..LAST_DAY + 1 {
        if is_of_kind(free, kind, other) {
            if left == 0 {
                return Some(other);
            }
            left -= 1;
        }
    }
    None
}

/// The day of the kind before so many others of it that stand before the day.
fn nth_before(free: &FreeDays, day: u32, passed: usize, kind: DayKind) -> Option<u32>
    ensures { result ≡ slice_get (filter (spec.is_of_kind free.now kind) (days_before day)) passed }
{
    let mut left = passed;
    for other in (0..day.min(LAST_DAY + 1)).rev() {
        if is_of_kind(free, kind, other) {
            if left == 0 {
                return Some(other);
            }
            left -= 1;
        }
    }
    None
}

fn is_of_kind(free: &FreeDays, kind: DayKind, day: u32) -> bool
    ensures { result ≡ spec.is_of_kind free.now kind day }
{
    match kind {
        DayKind::Days => true,
        DayKind::Weekdays => weekday_of(day) < 5,
        DayKind::Workdays => is_workday(free, day),
    }
}
