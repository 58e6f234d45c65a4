//! The moments of the times of a day's plan.
ghost use Rattle.std.specs.Prelude.{◌≡◌};
ghost use Rattle.plan_builder.specs.Times as spec;

use base_types::Moment;
use calendars::LAST_DAY;
use composer_parser::{Clause, Defs};
use plan_times::{east_of, moment};

/// The start of day where the definitions have none, 0600.
const DEFAULT_START: u16 = 360;

/// The day of a plan, and how its times are read.
#[derive(Clone, Copy)]
pub struct PlanDay {
    /// The day, counted from 01/01/1970 as 0.
    pub day: u32,
    /// The start of day, in minutes after 0000.
    pub start: u16,
    /// The offset from UTC in minutes, above 0 east of Greenwich.
    pub east: i16,
}

/// How the times of a day are read by these definitions.
pub(crate) fn plan_day(defs: &Defs, day: u32) -> PlanDay
    ensures { result ≡ spec.plan_day defs.now day }
{
    PlanDay {
        day,
        start: start_of(defs),
        east: zone_of(defs),
    }
}

fn start_of(defs: &Defs) -> u16
    ensures { result ≡ spec.start_of defs.now }
{
    match &defs.start {
        Some(start) => start.item,
        None => DEFAULT_START,
    }
}

fn zone_of(defs: &Defs) -> i16
    ensures { result ≡ spec.zone_of defs.now }
{
    match &defs.zone {
        Some(zone) => match east_of(zone.item.as_str()) {
            Some(east) => east,
            None => 0,
        },
        None => 0,
    }
}

/// The moment of a minute of the plan's day, so many days later where days are given. None where its date is after
/// 12/31/9999, or the moment is before 1970.
pub(crate) fn moment_of(plan: &PlanDay, minute: u16, days: Option<u32>) -> Option<Moment>
    ensures { result ≡ spec.moment_of plan.now minute days }
{
    let date = plan.day.checked_add(days.unwrap_or(0))?;
    if date > LAST_DAY {
        return None;
    }
    match moment(date, minute, 0, plan.start, plan.east) {
        Ok(found) => Some(found),
        Err(_) => None,
    }
}

/// The same, and the beginning of 1970 where there is no moment.
pub(crate) fn moment_or_first(plan: &PlanDay, minute: u16, days: Option<u32>) -> Moment
    ensures { result ≡ spec.moment_or_first plan.now minute days }
{
    match moment_of(plan, minute, days) {
        Some(found) => found,
        None => Moment(0),
    }
}

/// Whether a clause has a time without a moment.
pub(crate) fn is_timeless(plan: &PlanDay, clause: &Clause) -> bool
    ensures { result ≡ spec.is_timeless plan.now clause.now }
{
    match clause {
        Clause::At(minute, days) => moment_of(plan, *minute, *days).is_none(),
        Clause::Until(minute, days, _) => moment_of(plan, *minute, *days).is_none(),
        Clause::Deadline(minute, days) => moment_of(plan, *minute, *days).is_none(),
        _ => false,
    }
}
