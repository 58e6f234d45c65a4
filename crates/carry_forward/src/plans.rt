//! The plan of a new day, and the document of a submitted stream.
ghost use Rattle.std.specs.Prelude.{◌≡◌, ◌≢◌, IfOk, IsOk, None, Some, Err, length, ◌+◌, ◌<◌, ◌^◌};
ghost use Rattle.model.specs.History.{view_of};
ghost use Rattle.model.specs.NewPlan as spec;
ghost use Rattle.model.specs.NewPlan.{plan_of, jobs_in_drafts};
ghost use Rattle.carry_forward.specs.Faults.{plan_fault, submit_fault, room_fault};

use crate::carried_streams::carried_streams;
use crate::documents::{document, documents};
use crate::faults::CarryFault;
use crate::names::Names;
use crate::numbers::{Fresh, are_spent, fresh_streams, last_job, last_stream};
use crate::rooms::{are_jobs_too_many, are_streams_too_many};
use base_types::{
    Body, MOST_JOBS, MOST_STREAMS, NoMemory, SharedDocs, StreamDoc, StreamDocs, StreamDraft,
    StreamDrafts, StreamNo,
};
use decision_rules::cut;
use network_tree::Network;
use owner_fold::Owners;
use std::alloc::Global;
use std::slice::from_ref;

/// Why these streams and the drafts are no plan, if they are none: too many streams, or else too many jobs.
fn room_fault(
    alloc: Global,
    o: &Owners,
    earlier: &[StreamNo],
    drafts: &[StreamDraft],
) -> Result<Option<CarryFault>, NoMemory>
    ensures { IfOk result (λ fault. fault ≡ room_fault (view_of o.now) earlier.now drafts.now) }
{
    if are_streams_too_many(earlier, drafts) {
        return Ok(Some(CarryFault::PlanFull(MOST_STREAMS)));
    }
    if are_jobs_too_many(alloc, o, earlier, drafts)? {
        return Ok(Some(CarryFault::PlanFull(MOST_JOBS)));
    }
    Ok(None)
}

/// The documents of drafts with numbers after these, over these earlier streams.
fn fresh_documents(
    alloc: Global,
    o: &Owners,
    earlier: &[StreamNo],
    drafts: &[StreamDraft],
) -> Result<StreamDocs, NoMemory>
    requires streams { spec.last_stream (view_of o.now) + length drafts.now < 2 ^ 32 }
    requires jobs { spec.last_job (view_of o.now) + jobs_in_drafts drafts.now < 2 ^ 32 }
    ensures { IfOk result (λ docs. docs ≡ spec.documents (view_of o.now) earlier.now drafts.now) }
{
    let fresh = fresh_streams(alloc, last_stream(o), last_job(o), drafts)?;
    let names = Names::of(alloc, fresh.as_slice(), o, earlier)?;
    documents(alloc, &names, fresh.as_slice())
}

/// The plan of a new day: its run, the counts of events at which it cuts, the unfinished streams that the network's
/// option takes, and the drafts as documents. The faults are tested in the order of `CarryFault`. Want of memory may come
/// in place of any answer.
#[tactic(auto, using(crate::proofs::Causes::runs_first))]
pub fn next_plan(
    alloc: Global,
    net: &Network,
    o: &Owners,
    drafts: &StreamDrafts,
) -> Result<Body, CarryFault>
    ensures value { IfOk result (λ body. body ≡ plan_of net.now (view_of o.now) drafts.now) }
    ensures accepted { IsOk result → plan_fault net.now (view_of o.now) drafts.now ≡ None }
    ensures causes { (f : CarryFault) → result ≡ Err f → f ≢ CarryFault.NoMemory →
        plan_fault net.now (view_of o.now) drafts.now ≡ Some f }
{
    let run = o.run();
    if run == u32::MAX {
        return Err(CarryFault::RunsSpent);
    }
    if are_spent(last_stream(o), last_job(o), drafts.as_slice()) {
        return Err(CarryFault::NumbersSpent);
    }
    let carried = carried_streams(net.net(), o)?;
    let full = room_fault(alloc, o, carried.as_slice(), drafts.as_slice())?;
    match full {
        Some(fault) => return Err(fault),
        None => {}
    }
    let docs = fresh_documents(alloc, o, carried.as_slice(), drafts.as_slice())?;
    let cut = cut(alloc, net, o)?;
    let shared = SharedDocs::of(alloc, docs)?;
    Ok(Body::NewPlan(1 + run, cut, carried, shared))
}

/// The document of a submitted stream: the only fresh one, over the members of the plan. `RunsSpent` does not come.
/// Want of memory may come in place of any answer.
pub fn numbered(alloc: Global, o: &Owners, draft: &StreamDraft) -> Result<StreamDoc, CarryFault>
    ensures value { IfOk result (λ doc. doc ≡ spec.numbered (view_of o.now) draft.now) }
    ensures accepted { IsOk result → submit_fault (view_of o.now) draft.now ≡ None }
    ensures causes { (f : CarryFault) → result ≡ Err f → f ≢ CarryFault.NoMemory →
        submit_fault (view_of o.now) draft.now ≡ Some f }
{
    let drafts = from_ref(draft);
    let last_stream = last_stream(o);
    let last_job = last_job(o);
    if are_spent(last_stream, last_job, drafts) {
        return Err(CarryFault::NumbersSpent);
    }
    let members = o.members().as_slice();
    let full = room_fault(alloc, o, members, drafts)?;
    match full {
        Some(fault) => return Err(fault),
        None => {}
    }
    let fresh = Fresh {
        number: 1 + last_stream,
        first_job: 1 + u64::from(last_job),
        draft,
    };
    let names = Names::of(alloc, from_ref(&fresh), o, members)?;
    let doc = document(alloc, &names, &fresh)?;
    Ok(doc)
}
