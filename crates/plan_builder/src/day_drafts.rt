//! The drafts of a day.
ghost use Rattle.std.specs.Prelude.{◌≡◌, ◌≢◌, ◌⊎◌, ◌<◌, All, Some, None, Err, IfOk, IsOk, length};
ghost use Rattle.calendars.specs.Dates.{IsDay};
ghost use Rattle.plan_builder.specs.declared.faults.PlanFault.{PlanFault as Refusal};
ghost use Rattle.plan_builder.specs.declared.faults.PlanFault.TheVariants.{NoMemory as NoRoom};
ghost use Rattle.plan_builder.specs.Limits as limits;
ghost use Rattle.plan_builder.specs.Drafts.{AreDrafts, AreDraftsOf};
ghost use Rattle.plan_builder.specs.Times as times;

use crate::drafts::stream_draft;
use crate::faults::PlanFault;
use crate::limits::{first_timeless, has_too_many_jobs, running};
use crate::times::{PlanDay, plan_day};
use base_types::{Items, MOST_JOBS, MOST_STREAMS, NoMemory, StreamDrafts};
use definition_names::Names;
use std::alloc::Global;
use workload_defs::Workload;

/// The drafts of the streams that run on a day, counted from 01/01/1970 as 0, in order of definition. They are refused
/// where more than 4,096 streams run, else where these have more than 16,384 jobs, else where one of their times has no
/// moment, and for no other cause.
#[tactic(auto, using(crate::proofs::Lists::running_low))]
pub fn day_docs(alloc: Global, w: &Workload, day: u32) -> Result<StreamDrafts, PlanFault>
    requires { IsDay day }
    ensures drafts { IfOk result (AreDrafts w.now day) }
    ensures accepted { limits.plan_fault w.now day ≡ None → IsOk result ⊎ (result ≡ Err NoRoom) }
    ensures refused { (f : Refusal) → limits.plan_fault w.now day ≡ Some f
        → (result ≡ Err f) ⊎ (result ≡ Err NoRoom) }
    ensures causes { (f : Refusal) → result ≡ Err f → f ≢ NoRoom → limits.plan_fault w.now day ≡ Some f }
{
    let defs = w.defs();
    let streams = running(alloc, w, day)?;
    if streams.len() > MOST_STREAMS as usize {
        return Err(PlanFault::Limit(MOST_STREAMS));
    }
    if has_too_many_jobs(defs, streams.as_slice()) {
        return Err(PlanFault::Limit(MOST_JOBS));
    }
    let plan = plan_day(defs, day);
    if let Some(line) = first_timeless(defs, &plan, streams.as_slice()) {
        return Err(PlanFault::OutOfRange(line));
    }
    Ok(drafts_of(alloc, w, &plan, streams.as_slice())?)
}

/// The drafts of these streams.
fn drafts_of(
    alloc: Global,
    w: &Workload,
    plan: &PlanDay,
    streams: &[u32],
) -> Result<StreamDrafts, NoMemory>
    requires { All (λ n. n < length w.now.schedules) streams.now }
    ensures { IfOk result (AreDraftsOf w.now plan.now streams.now) }
{
    let names = Names::of(alloc, w.defs())?;
    drafts_by(alloc, w, &names, plan, streams)
}

/// The same by the names of the definitions. Who owns these has few ways out, since each lets go of all of them.
fn drafts_by(
    alloc: Global,
    w: &Workload,
    names: &Names<'_>,
    plan: &PlanDay,
    streams: &[u32],
) -> Result<StreamDrafts, NoMemory>
    requires same { names.now ≡ w.now }
    requires low { All (λ n. n < length w.now.schedules) streams.now }
    ensures { IfOk result (AreDraftsOf w.now plan.now streams.now) }
{
    let mut drafts = Items::new(alloc);
    let schedules = names.defs().schedules.as_slice();
    for n in streams {
        let place = *n as usize;
        let schedule = &schedules[place];
        drafts.push(stream_draft(alloc, w, names, plan, place, &schedule.item)?)?;
    }
    Ok(drafts)
}
