//! Free days with their counts.
ghost use Rattle.std.specs.Prelude.{◌≡◌, ◌≤◌, ◌+◌, ℕ, not, IfOk, filter, if◌then◌else◌};
ghost use Rattle.std.specs.List.Sorted.{IsStrictlyIncreasing};
ghost use Rattle.calendars.specs.Sets.{has};
ghost use Rattle.day_counts.specs.Weeks.{is_weekly};

use crate::sorted_days::SortedDays;
use crate::weeks::{saturdays_before, sundays_before};
use base_types::NoMemory;
use calendars::{DayKind, DaySet, FreeDays, LAST_DAY};
use std::alloc::Global;
use std::marker::Model;

/// The nth day of a kind after a date, or before it.
#[derive(Clone, Copy)]
pub struct Step {
    /// Whether it is after the date.
    pub plus: bool,
    /// Which day of the kind: 0 is the date itself.
    pub n: u32,
    /// Which days are counted.
    pub kind: DayKind,
}

/// Free days, and which of their dates are no free Saturdays and Sundays. They are seen as the free days.
#[derive(Drop)]
pub struct CountedDays {
    free: FreeDays,
    extra: SortedDays,
}

impl Model for CountedDays {
    ghost use Rattle.calendars.specs.declared.FreeDays.{FreeDays as Free};
    ghost use Rattle.day_counts.specs.Counts.{IsExtra};

    ghost Value = { Free };

    ghost view = { λ counted. counted.free };

    ghost invariant = { λ counted. IsExtra counted.free counted.extra };
}

/// Those of the days that are no free Saturdays and Sundays.
fn extra_of(alloc: Global, days: &[u32], sa: bool, su: bool) -> Result<Vec<u32>, NoMemory>
    ensures { IfOk result (λ extra. extra.items ≡ filter (λ day. not (is_weekly sa su day)) days.now) }
{
    let mut extra = Vec::new(alloc);
    for day in days {
        if !is_weekly_free(*day, sa, su) {
            extra.push(*day)?;
        }
    }
    Ok(extra)
}

/// Whether the day is a Saturday or a Sunday, where these are free.
fn is_weekly_free(day: u32, sa: bool, su: bool) -> bool
    ensures { result ≡ is_weekly sa su day }
{
    let weekday = (u64::from(day) + 3) % 7;
    (sa && weekday == 5) || (su && weekday == 6)
}

/// So many days where they are free, and none where they are not.
fn where_free(free: bool, count: usize) -> usize
    ensures { result ≡ (if free then count else 0) }
{
    if free { count } else { 0 }
}

impl CountedDays {
    ghost use Rattle.std.specs.Prelude.{◌≡◌, ◌≤◌, ◌<◌, ◌+◌, ℕ, IfOk, length, filter, slice_index_or};
    ghost use Rattle.std.specs.List.Sorted.{IsStrictlyIncreasing};
    ghost use Rattle.calendars.specs.Dates.{last_day};
    ghost use Rattle.calendars.specs.Free.{is_free as is_free_day};
    ghost use Rattle.calendars.specs.Nth.{below};
    ghost use Rattle.calendars.specs.Sets.{has};
    ghost use Rattle.day_counts.specs.Counts as spec;

    /// Free days with these dates, and with each Saturday and each Sunday where it is said so.
    pub fn of(alloc: Global, days: &[u32], sa: bool, su: bool) -> Result<CountedDays, NoMemory>
        ensures dates { IfOk result (λ free. (day : ℕ) → has free.dates day ≡ has days.now day) }
        ensures ascending { IfOk result (λ free. IsStrictlyIncreasing free.dates) }
        ensures saturdays { IfOk result (λ free. free.sa ≡ sa) }
        ensures sundays { IfOk result (λ free. free.su ≡ su) }
    {
        let others = extra_of(alloc, days, sa, su)?;
        let extra = SortedDays::of(alloc, others.as_slice())?;
        let dates = DaySet::of(alloc, days)?;
        let free = FreeDays { dates, sa, su };
        Ok(CountedDays { free, extra })
    }

    /// The free days.
    pub fn free(&self) -> &FreeDays
        ensures { result.now ≡ self.now }
    {
        &self.free
    }

    /// Whether from one of the dates a step leads to a day from one on and before another. It takes a time that grows
    /// with the logarithm of the dates and of the free days.
    pub fn moves_within(&self, step: &Step, from: u32, end: u32, dates: &SortedDays) -> bool
        requires from { from ≤ last_day + 1 }
        requires end { end ≤ last_day + 1 }
        ensures { result ≡ spec.moves_within self.now step.now from end dates.now }
    {
        self.moves_among(step, from, end, dates.as_slice())
    }

    /// The same of ascending dates.
    fn moves_among(&self, step: &Step, from: u32, end: u32, dates: &[u32]) -> bool
        requires from { from ≤ last_day + 1 }
        requires end { end ≤ last_day + 1 }
        requires ascending { IsStrictlyIncreasing dates.now }
        ensures { result ≡ spec.moves_within self.now step.now from end dates.now }
    {
        let first = self.first_from(step, self.bound_of(step, from), dates);
        match dates.get(first) {
            Some(date) => self.place_of(step, *date) < self.bound_of(step, end),
            None => false,
        }
    }

    /// How many of ascending dates have a place below a number. These are the first of them.
    fn first_from(&self, step: &Step, low: usize, dates: &[u32]) -> usize
        requires { IsStrictlyIncreasing dates.now }
        ensures bound { result ≤ length dates.now }
        ensures below { (k d : ℕ) → k < result → spec.place_of self.now step.now (slice_index_or dates.now k d) < low }
        ensures from { (k d : ℕ) → result ≤ k → k < length dates.now → low ≤ spec.place_of self.now step.now (slice_index_or dates.now k d) }
    {
        dates.partition_point(|date| self.place_of(step, *date) < low)
    }

    /// The number that a date has by a step.
    fn place_of(&self, step: &Step, date: u32) -> usize
        ensures { result ≡ spec.place_of self.now step.now date }
    {
        if step.n == 0 {
            return date as usize;
        }
        if step.plus {
            self.count_before(step.kind, date.min(LAST_DAY) + 1) + step.n as usize
        } else {
            self.count_before(step.kind, date.min(LAST_DAY + 1))
        }
    }

    /// The number that a date has from which a step leads to a day.
    fn bound_of(&self, step: &Step, day: u32) -> usize
        requires { day ≤ last_day + 1 }
        ensures { result ≡ spec.bound_of self.now step.now day }
    {
        if step.n == 0 {
            return day as usize;
        }
        if step.plus {
            self.count_before(step.kind, day) + 1
        } else {
            self.count_before(step.kind, day) + step.n as usize
        }
    }

    /// How many days of a kind stand before a day.
    pub(crate) fn count_before(&self, kind: DayKind, day: u32) -> usize
        requires { day ≤ last_day + 1 }
        ensures count { result ≡ spec.count_before self.now kind day }
        ensures few { result ≤ day }
    {
        match kind {
            DayKind::Days => day as usize,
            DayKind::Weekdays => day as usize - saturdays_before(day) - sundays_before(day),
            DayKind::Workdays => day as usize - self.free_before(day),
        }
    }

    /// How many free days stand before a day.
    pub(crate) fn free_before(&self, day: u32) -> usize
        requires { day ≤ last_day + 1 }
        ensures count { result ≡ length (filter (is_free_day self.now) (below day)) }
        ensures few { result ≤ day }
    {
        let saturdays = where_free(self.free.sa, saturdays_before(day));
        let sundays = where_free(self.free.su, sundays_before(day));
        saturdays + sundays + self.extra.count_before(day)
    }
}
