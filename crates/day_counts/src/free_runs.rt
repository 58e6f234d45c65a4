//! Free days directly beside a day, and kinds of days in ranges.
use crate::counted_days::CountedDays;
use calendars::{DayKind, LAST_DAY};

impl CountedDays {
    ghost use Rattle.std.specs.Prelude.{◌≡◌, ◌≤◌, ◌<◌, ◌+◌, ◌-◌};
    ghost use Rattle.std.specs.List.{list_any};
    ghost use Rattle.calendars.specs.Dates.{last_day, IsDay};
    ghost use Rattle.calendars.specs.Free.{is_free as is_free_day};
    ghost use Rattle.calendars.specs.Nth.{is_of_kind};
    ghost use Rattle.calendars.specs.declared.DayKind.TheVariants.{Workdays};
    ghost use Rattle.day_counts.specs.Counts.{count_before as count_of};
    ghost use Rattle.day_counts.specs.Runs.{IsRunBefore, IsRunBehind, days_between};

    /// Whether a day of a kind stands from one on and before another.
    pub fn has_kind(&self, kind: DayKind, from: u32, end: u32) -> bool
        requires from { from ≤ last_day + 1 }
        requires end { end ≤ last_day + 1 }
        ensures { result ≡ list_any (is_of_kind self.now kind) (days_between from end) }
    {
        self.count_before(kind, from) < self.count_before(kind, end)
    }

    /// Whether a free day stands from one on and before another.
    pub fn has_free(&self, from: u32, end: u32) -> bool
        requires from { from ≤ last_day + 1 }
        requires end { end ≤ last_day + 1 }
        ensures { result ≡ list_any (is_free_day self.now) (days_between from end) }
    {
        self.free_before(from) < self.free_before(end)
    }

    /// The first of the free days directly before a day, and the day itself where there are none.
    pub fn run_before(&self, day: u32) -> u32
        requires { IsDay day }
        ensures { IsRunBefore self.now day result }
    {
        self.first_with(0, day, self.count_before(DayKind::Workdays, day))
    }

    /// The day behind the last of the free days directly behind a day: where there are none, the next day.
    pub fn run_behind(&self, day: u32) -> u32
        requires { IsDay day }
        ensures { IsRunBehind self.now day result }
    {
        let workdays = self.count_before(DayKind::Workdays, day + 1);
        if self.count_before(DayKind::Workdays, LAST_DAY + 1) <= workdays {
            return LAST_DAY + 1;
        }
        self.first_with(day + 1, LAST_DAY + 1, workdays + 1) - 1
    }

    /// The first day from one up to another before which so many workdays stand.
    fn first_with(&self, low: u32, high: u32, workdays: usize) -> u32
        requires ordered { low ≤ high }
        requires within { high ≤ last_day + 1 }
        requires enough { workdays ≤ count_of self.now Workdays high }
        ensures low { low ≤ result }
        ensures high { result ≤ high }
        ensures enough { workdays ≤ count_of self.now Workdays result }
        ensures first { low < result → count_of self.now Workdays (result - 1) < workdays }
    {
        let mut from = low;
        let mut to = high;
        while from < to {
            let middle = from + (to - from) / 2;
            if self.count_before(DayKind::Workdays, middle) < workdays {
                from = middle + 1;
            } else {
                to = middle;
            }
        }
        to
    }
}
