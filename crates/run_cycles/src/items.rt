//! The days that an item of ON and EXCEPT gives, before they are shifted.
ghost use Rattle.std.specs.Prelude.{◌≡◌, ◌≤◌, ◌+◌, ◌&&◌, nat_le, nat_lt};
ghost use Rattle.std.specs.List.{list_any};
ghost use Rattle.std.specs.Option.{option_copied};
ghost use Rattle.calendars.specs.Dates.{IsDay, last_day};
ghost use Rattle.day_counts.specs.Runs.{days_between};
ghost use Rattle.run_rules.specs.Days.{rule_has};
ghost use Rattle.workload_defs.specs.Days.{days_in};
ghost use Rattle.run_cycles.specs.Clips as clips;
ghost use Rattle.run_cycles.specs.Items as spec;
ghost use Rattle.run_cycles.specs.Steps as offsets;

use calendars::{DayKind, LAST_DAY};
use composer_parser::{CycleDef, Offset, OffsetUnit, OnDef, OnItem};
use day_counts::{CountedDays, SortedDays, Step, has_weekday};
use workload_defs::Workload;

/// Whether a statement gives a day before its shift.
pub(crate) fn is_dated(w: &Workload, free: &CountedDays, on: &OnDef, day: u32) -> bool
    requires { IsDay day }
    ensures { result ≡ spec.is_dated w.now free.now on.now day }
{
    is_dated_within(w, free, on, day, day + 1)
}

/// Whether a statement gives, before its shift, a day from one on and before another.
pub(crate) fn is_dated_within(
    w: &Workload,
    free: &CountedDays,
    on: &OnDef,
    from: u32,
    end: u32,
) -> bool
    requires from { from ≤ last_day + 1 }
    requires end { end ≤ last_day + 1 }
    ensures { result ≡ list_any (spec.is_dated w.now free.now on.now) (days_between from end) }
{
    let first = first_of(&on.cycle);
    let low = later_of(first, from);
    let high = earlier_of(last_of(&on.cycle), end);
    gives_any(w, free, first, on.items.as_slice(), low, high)
}

/// The first day within the bounds of a run cycle.
fn first_of(cycle: &Option<CycleDef>) -> Option<u32>
    ensures { result ≡ spec.first_of cycle.now }
{
    match cycle {
        Some(cycle) => cycle.first,
        None => None,
    }
}

/// The last day within the bounds of a run cycle.
fn last_of(cycle: &Option<CycleDef>) -> Option<u32>
    ensures { result ≡ clips.last_of cycle.now }
{
    match cycle {
        Some(cycle) => cycle.last,
        None => None,
    }
}

/// The first day from which on a range and the bounds of a run cycle go.
fn later_of(first: Option<u32>, from: u32) -> u32
    requires { from ≤ last_day + 1 }
    ensures value { result ≡ clips.later_of first from }
    ensures within { result ≤ last_day + 1 }
{
    match first {
        Some(first) => from.max(first.min(LAST_DAY + 1)),
        None => from,
    }
}

/// The day before which a range and the bounds of a run cycle end.
fn earlier_of(last: Option<u32>, end: u32) -> u32
    requires { end ≤ last_day + 1 }
    ensures value { result ≡ clips.earlier_of last end }
    ensures within { result ≤ last_day + 1 }
{
    match last {
        Some(last) => end.min(last.min(LAST_DAY) + 1),
        None => end,
    }
}

/// Whether one of the items gives a day from one on and before another, where rules count from this first day on.
fn gives_any(
    w: &Workload,
    free: &CountedDays,
    first: Option<u32>,
    items: &[OnItem],
    from: u32,
    end: u32,
) -> bool
    requires from { from ≤ last_day + 1 }
    requires end { end ≤ last_day + 1 }
    ensures { result ≡ list_any (clips.gives_within w.now free.now first from end) items.now }
{
    for item in items {
        if gives(w, free, first, item, from, end) {
            return true;
        }
    }
    false
}

/// Whether an item gives a day from one on and before another, where rules count from this first day on.
fn gives(
    w: &Workload,
    free: &CountedDays,
    first: Option<u32>,
    item: &OnItem,
    from: u32,
    end: u32,
) -> bool
    requires from { from ≤ last_day + 1 }
    requires end { end ≤ last_day + 1 }
    ensures { result ≡ clips.gives_within w.now free.now first from end item.now }
{
    match item {
        OnItem::Weekday(number) => has_weekday(*number, from, end),
        OnItem::EveryDay => from < end,
        OnItem::Weekdays => free.has_kind(DayKind::Weekdays, from, end),
        OnItem::Workdays => free.has_kind(DayKind::Workdays, from, end),
        OnItem::FreeDays => free.has_free(from, end),
        OnItem::Request => false,
        OnItem::Date(date) => is_between(*date, from, end),
        OnItem::Rule(rule) => rule_gives(rule.as_str(), first, from, end),
        OnItem::Calendar(name, offset) => {
            gives_calendar(w.sorted_days(name), free, offset, from, end)
        }
    }
}

/// Whether a day stands from one on and before another.
fn is_between(day: u32, from: u32, end: u32) -> bool
    ensures { result ≡ (nat_le from day && nat_lt day end) }
{
    from <= day && day < end
}

/// Whether a rule has a day from one on and before another.
fn rule_gives(rule: &str, first: Option<u32>, from: u32, end: u32) -> bool
    ensures { result ≡ list_any (rule_has rule.now first) (days_between from end) }
{
    for day in from..end {
        if run_rules::rule_has(rule, first, day) {
            return true;
        }
    }
    false
}

/// Whether one of these dates, or the day so many days after or before one of them, stands from a day on and before
/// another.
#[tactic(auto, using(crate::proofs::Moves::by_step, crate::proofs::Moves::no_dates))]
fn gives_calendar(
    dates: Option<&SortedDays>,
    free: &CountedDays,
    offset: &Option<Offset>,
    from: u32,
    end: u32,
) -> bool
    requires from { from ≤ last_day + 1 }
    requires end { end ≤ last_day + 1 }
    ensures { result ≡ clips.calendar_gives free.now offset.now from end (days_in (option_copied dates.entry)) }
{
    match dates {
        Some(dates) => free.moves_within(&step_of(offset), from, end, dates),
        None => false,
    }
}

/// The step from a date to the day that it gives. Without an offset that is the date itself.
fn step_of(offset: &Option<Offset>) -> Step
    ensures { result ≡ offsets.step_of offset.now }
{
    match offset {
        None => Step {
            plus: true,
            n: 0,
            kind: DayKind::Days,
        },
        Some(offset) => Step {
            plus: offset.plus,
            n: offset.n,
            kind: kind_of(offset.unit),
        },
    }
}

fn kind_of(unit: OffsetUnit) -> DayKind
    ensures { result ≡ spec.kind_of unit }
{
    match unit {
        OffsetUnit::Days => DayKind::Days,
        OffsetUnit::Weekdays => DayKind::Weekdays,
        OffsetUnit::Workdays => DayKind::Workdays,
    }
}
