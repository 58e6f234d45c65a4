//! The days of a stream.
ghost use Rattle.std.specs.Prelude.{◌≡◌, ◌-◌, ◌&&◌, ℕ, true, false, not, nat_le, IfOk, filter};
ghost use Rattle.std.specs.List.{range_with_len};
ghost use Rattle.calendars.specs.Dates.{IsDay};
ghost use Rattle.calendars.specs.Sets.{has};
ghost use Rattle.run_cycles.specs.Runs as spec;
ghost use Rattle.run_cycles.specs.Shifts.{gives as gives_day};

use crate::shifts::gives;
use base_types::NoMemory;
use calendars::{DaySet, LAST_DAY};
use composer_parser::{Lined, OnDef};
use day_counts::CountedDays;
use std::alloc::Global;
use workload_defs::Workload;

/// Whether a stream runs on a day: one of its ONs gives the day, and none of its EXCEPTs. Streams are told by their places
/// among the streams of the definitions, counted from 0; behind the last there are none that run. On days after 12/31/9999
/// none runs.
#[tactic(auto, using(crate::proofs::RunDates::runs_late, crate::proofs::RunDates::runs_none))]
pub fn runs_on(w: &Workload, stream: u32, day: u32) -> bool
    ensures { result ≡ spec.runs w.now stream day }
{
    if day > LAST_DAY {
        return false;
    }
    match w.defs().schedules.get(stream as usize) {
        None => false,
        Some(schedule) => runs_by(w, w.counted_days(stream), schedule.item.ons.as_slice(), day),
    }
}

/// Whether one of the ONs gives a day, and none of the EXCEPTs.
fn runs_by(w: &Workload, free: &CountedDays, ons: &[Lined<OnDef>], day: u32) -> bool
    requires { IsDay day }
    ensures { result ≡ (spec.any_gives w.now free.now ons.now false day
        && not (spec.any_gives w.now free.now ons.now true day)) }
{
    any_gives(w, free, ons, false, day) && !any_gives(w, free, ons, true, day)
}

/// Whether one of the ONs, or of the EXCEPTs, gives a day.
fn any_gives(w: &Workload, free: &CountedDays, ons: &[Lined<OnDef>], except: bool, day: u32) -> bool
    requires { IsDay day }
    ensures { result ≡ spec.any_gives w.now free.now ons.now except day }
{
    for on in ons {
        if statement_gives(w, free, &on.item, except, day) {
            return true;
        }
    }
    false
}

/// Whether a statement is an ON, or an EXCEPT, and gives a day.
fn statement_gives(w: &Workload, free: &CountedDays, on: &OnDef, except: bool, day: u32) -> bool
    requires { IsDay day }
    ensures { result ≡ (spec.is_of except on.now && gives_day w.now free.now day on.now) }
{
    is_of(on, except) && gives(w, free, on, day)
}

/// Whether a statement is an EXCEPT, or else an ON.
fn is_of(on: &OnDef, except: bool) -> bool
    ensures { result ≡ spec.is_of except on.now }
{
    if except { on.except } else { !on.except }
}

/// The days from one to another, both included, on which a stream runs.
pub fn dates(
    alloc: Global,
    w: &Workload,
    stream: u32,
    from: u32,
    to: u32,
) -> Result<DaySet, NoMemory>
    ensures { IfOk result (λ set. (day : ℕ) → has set day ≡ (nat_le from day && (nat_le day to && spec.runs w.now stream day))) }
{
    let end = to.min(LAST_DAY) + 1;
    let days = days_before(alloc, w, stream, from, end)?;
    DaySet::of(alloc, days.as_slice())
}

/// The days from one on and before another on which a stream runs.
fn days_before(
    alloc: Global,
    w: &Workload,
    stream: u32,
    from: u32,
    end: u32,
) -> Result<Vec<u32>, NoMemory>
    ensures { IfOk result (λ v. v.items ≡ filter (spec.runs w.now stream) (range_with_len from (end - from))) }
{
    let mut days = Vec::new(alloc);
    for day in from..end {
        if runs_on(w, stream, day) {
            days.push(day)?;
        }
    }
    Ok(days)
}
