//! Statements with their shifts.
ghost use Rattle.std.specs.Prelude.{◌≡◌, ◌&&◌, ◌||◌};
ghost use Rattle.std.specs.List.{list_any};
ghost use Rattle.calendars.specs.Dates.{IsDay};
ghost use Rattle.calendars.specs.Free.{is_workday as is_work_day};
ghost use Rattle.calendars.specs.Nth.{below, days_after};
ghost use Rattle.run_cycles.specs.Items.{is_dated as is_dated_of};
ghost use Rattle.run_cycles.specs.Shifts as spec;

use crate::items::{is_dated, is_dated_within};
use calendars::is_workday;
use composer_parser::{OnDef, Shift};
use day_counts::CountedDays;
use workload_defs::Workload;

/// Whether a statement gives a day: one of its dates is, or becomes, that day.
#[tactic(auto, using(crate::proofs::Shifted::by_none, crate::proofs::Shifted::by_ignore, crate::proofs::Shifted::by_next, crate::proofs::Shifted::by_prev))]
pub(crate) fn gives(w: &Workload, free: &CountedDays, on: &OnDef, day: u32) -> bool
    requires { IsDay day }
    ensures { result ≡ spec.gives w.now free.now day on.now }
{
    match on.shift {
        None => is_dated(w, free, on, day),
        Some(Shift::Ignore) => gives_workday(w, free, on, day),
        Some(Shift::Next) => gives_next(w, free, on, day),
        Some(Shift::Prev) => gives_prev(w, free, on, day),
    }
}

/// Whether a day is a workday, and a date of the statement.
fn gives_workday(w: &Workload, free: &CountedDays, on: &OnDef, day: u32) -> bool
    requires { IsDay day }
    ensures { result ≡ (is_work_day free.now day && is_dated_of w.now free.now on.now day) }
{
    is_workday(free.free(), day) && is_dated(w, free, on, day)
}

/// Whether a day is a workday, and it or one of the free days directly before it is a date of the statement.
fn gives_next(w: &Workload, free: &CountedDays, on: &OnDef, day: u32) -> bool
    requires { IsDay day }
    ensures { result ≡ (is_work_day free.now day && (is_dated_of w.now free.now on.now day
        || list_any (is_dated_of w.now free.now on.now) (spec.free_run free.now (below day)))) }
{
    is_workday(free.free(), day) && is_dated_within(w, free, on, free.run_before(day), day + 1)
}

/// Whether a day is a workday, and it or one of the free days directly behind it is a date of the statement.
fn gives_prev(w: &Workload, free: &CountedDays, on: &OnDef, day: u32) -> bool
    requires { IsDay day }
    ensures { result ≡ (is_work_day free.now day && (is_dated_of w.now free.now on.now day
        || list_any (is_dated_of w.now free.now on.now) (spec.free_run free.now (days_after day)))) }
{
    is_workday(free.free(), day) && is_dated_within(w, free, on, day, free.run_behind(day))
}
