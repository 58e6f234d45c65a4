//! What a job lacks to be ready.
ghost use Rattle.std.specs.Prelude.{[], ◌≡◌, ◌∷◌, ◌++◌, ◌==◌, IfOk, OnOk, Some};
ghost use Rattle.model.specs.Types.{Job};
ghost use Rattle.model.specs.History.{view_of};
ghost use Rattle.model.specs.Catalogue.{owner};
ghost use Rattle.waiting.specs.Lacks as spec;
ghost use Rattle.waiting.specs.Rows.{all_noted, failing};
ghost use Rattle.waiting.specs.declared.lacks.Lack.TheVariants.{Elsewhere};
ghost use Rattle.dependencies.specs.Planned.{IsPlannedJob};
ghost use Rattle.owner_fold.specs.DocPlaces.{stream_job};

use crate::lacks::Lack;
use crate::needs::note_deps;
use crate::notes::note;
use base_types::{Items, JobDoc, JobNo, NoMemory, Obj, StreamDoc, Ws};
use decision_rules::passes_fence;
use dependencies::{
    is_open, is_within_limit, is_within_workstation_limit, job_priority, stream_limit,
};
use network_tree::Network;
use owner_fold::Owners;
use std::alloc::Global;

/// Notes that w does not decide the job, and what its stream lacks.
fn note_stream(
    list: &mut Items<Lack>,
    o: &Owners,
    w: Ws,
    parent: &StreamDoc,
    doc: &JobDoc,
) -> Result<(), NoMemory>
    requires { IsPlannedJob (view_of o.now) (stream_job parent.now doc.now) }
    ensures { OnOk result (list.new
        ≡ all_noted list.old ((doc.now.ws == w, Elsewhere doc.now.ws)
        ∷ spec.stream_rows (view_of o.now) (stream_job parent.now doc.now))) }
{
    note(list, doc.ws == w, Lack::Elsewhere(doc.ws))?;
    note(list, o.is_member(parent.no), Lack::NotPlanned(parent.no))?;
    note(list, o.is_released(parent.no), Lack::NotReleased(parent.no))?;
    note(
        list,
        !o.is_cancelled(Obj::Stream(parent.no)),
        Lack::StreamCancelled(parent.no),
    )
}

/// Notes what of itself and its workstation it lacks.
fn note_own(list: &mut Items<Lack>, o: &Owners, w: Ws, doc: &JobDoc) -> Result<(), NoMemory>
    requires { owner (view_of o.now) (Job doc.now.no) ≡ Some w }
    ensures { OnOk result (list.new ≡ all_noted list.old (spec.own_rows (view_of o.now) w doc.now.no)) }
{
    note(list, !o.is_cancelled(Obj::Job(doc.no)), Lack::Cancelled)?;
    note(list, !o.is_stopped(w), Lack::Stopped)?;
    note(list, o.is_due(doc.no), Lack::Launched(o.launches(doc.no)))?;
    note(
        list,
        !is_open(o, w, doc.no),
        Lack::Open(o.open_launch(doc.no).unwrap_or(0)),
    )
}

/// Notes which fence and limits hold it back.
#[tactic(auto, unfolding(model::specs::Readiness::job_priority))]
fn note_limits(
    list: &mut Items<Lack>,
    o: &Owners,
    w: Ws,
    parent: &StreamDoc,
    doc: &JobDoc,
) -> Result<(), NoMemory>
    requires planned { IsPlannedJob (view_of o.now) (stream_job parent.now doc.now) }
    requires owned { doc.now.ws ≡ w }
    ensures { OnOk result (list.new
        ≡ all_noted list.old (spec.last_rows (view_of o.now) w (stream_job parent.now doc.now))) }
{
    let priority = job_priority(o, parent, doc);
    note(
        list,
        passes_fence(o, w, priority),
        Lack::Fenced(o.fence(w), priority),
    )?;
    note(
        list,
        is_within_workstation_limit(o, w, priority),
        Lack::Limited(o.limit(w)),
    )?;
    note(
        list,
        is_within_limit(o, w, parent),
        Lack::StreamLimited(stream_limit(o, parent).unwrap_or(0)),
    )
}

/// Notes all that a job lacks at w.
fn note_all(
    list: &mut Items<Lack>,
    net: &Network,
    o: &Owners,
    w: Ws,
    parent: &StreamDoc,
    doc: &JobDoc,
) -> Result<(), NoMemory>
    requires { IsPlannedJob (view_of o.now) (stream_job parent.now doc.now) }
    ensures { OnOk result (list.new
        ≡ list.old ++ failing (spec.job_rows net.now (view_of o.now) w (stream_job parent.now doc.now))) }
{
    note_stream(list, o, w, parent, doc)?;
    note_own(list, o, doc.ws, doc)?;
    note_deps(list, net, o, doc.ws, &Obj::Job(doc.no))?;
    note_limits(list, o, doc.ws, parent, doc)?;
    Ok(())
}

/// All that job j lacks to be ready at w, in the order of the conditions. It is empty exactly where the job is ready.
#[tactic(auto, unfolding(crate::specs::Lacks::job_lacks))]
pub fn job_lacks(
    alloc: Global,
    net: &Network,
    o: &Owners,
    w: Ws,
    j: JobNo,
) -> Result<Items<Lack>, NoMemory>
    ensures { IfOk result (λ list. list ≡ spec.job_lacks net.now (view_of o.now) w j) }
{
    let mut list = Items::new(alloc);
    match o.planned_job(j) {
        None => list.push(Lack::Unknown)?,
        Some((parent, doc)) => note_all(&mut list, net, o, w, parent, doc)?,
    }
    Ok(list)
}
