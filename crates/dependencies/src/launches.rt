//! When a job is ready to be launched.
ghost use Rattle.std.specs.Prelude.{[], ◌≡◌, ◌∷◌, ◌||◌, nat_le, nat_lt, not, Some};
ghost use Rattle.model.specs.Types.{Events, Job, Stream};
ghost use Rattle.model.specs.Words.{all_of};
ghost use Rattle.model.specs.History.{view_of};
ghost use Rattle.model.specs.Catalogue as catalogue;
ghost use Rattle.model.specs.Facts as facts;
ghost use Rattle.model.specs.Readiness as spec;
ghost use Rattle.dependencies.specs.Planned.{IsPlannedJob, IsPlannedStream};
ghost use Rattle.owner_fold.specs.DocPlaces.{stream_job};

use crate::limits::{is_open, is_within_limit, is_within_workstation_limit};
use crate::priorities::job_priority;
use crate::waits::all_satisfied;
use base_types::{JobDoc, JobNo, Obj, StreamDoc, Ws};
use decision_rules::passes_fence;
use network_tree::Network;
use owner_fold::Owners;

/// Whether job j is ready at w: it is w's, its stream is a released member, neither is cancelled, w is not stopped,
/// the job is due and has no open launch, its dependencies are satisfied, its priority is above the fence, and no
/// limit holds it back. A job outside the catalogue is not ready.
#[tactic(auto, unfolding(model::specs::Readiness::is_ready))]
pub fn ready(net: &Network, o: &Owners, w: Ws, j: JobNo) -> bool
    ensures { result ≡ spec.is_ready net.now (view_of o.now) w j }
{
    match o.planned_job(j) {
        None => false,
        Some((parent, doc)) => is_ready_in(net, o, w, parent, doc),
    }
}

/// Whether a job of the catalogue is ready at w.
pub(crate) fn is_ready_in(
    net: &Network,
    o: &Owners,
    w: Ws,
    parent: &StreamDoc,
    doc: &JobDoc,
) -> bool
    requires { IsPlannedJob (view_of o.now) (stream_job parent.now doc.now) }
    ensures { result ≡ spec.is_ready_in net.now (view_of o.now) w (stream_job parent.now doc.now) }
{
    doc.ws == w
        && is_under_way(o, parent)
        && awaits_launch(o, w, doc.no)
        && all_satisfied(net, o, w, &Obj::Job(doc.no))
        && is_let_through(o, w, parent, doc)
}

/// Whether a stream is a member, released and not cancelled.
fn is_under_way(o: &Owners, doc: &StreamDoc) -> bool
    requires { IsPlannedStream (view_of o.now) doc.now }
    ensures { let V = view_of o.now in let d = doc.now in let told = V (Events d.ws) in
        result ≡ all_of (catalogue.is_member V d.no
        ∷ facts.is_released d.no told
        ∷ not (facts.is_cancelled (Stream d.no) told)
        ∷ []) }
{
    o.is_member(doc.no) && o.is_released(doc.no) && !o.is_cancelled(Obj::Stream(doc.no))
}

/// Whether a job of w is not cancelled, is due and has no open launch, and w is not stopped.
fn awaits_launch(o: &Owners, w: Ws, j: JobNo) -> bool
    requires { catalogue.owner (view_of o.now) (Job j) ≡ Some w }
    ensures { let told = view_of o.now (Events w) in
        result ≡ all_of (not (facts.is_cancelled (Job j) told)
        ∷ not (facts.is_stopped told)
        ∷ facts.is_due j told
        ∷ not (facts.is_open j told)
        ∷ []) }
{
    !o.is_cancelled(Obj::Job(j)) && !o.is_stopped(w) && o.is_due(j) && !is_open(o, w, j)
}

/// Whether the fence of w lets a job of it through, and neither the limit of w nor that of the stream holds it back.
#[tactic(auto, unfolding(model::specs::Readiness::job_priority))]
fn is_let_through(o: &Owners, w: Ws, parent: &StreamDoc, doc: &JobDoc) -> bool
    requires planned { IsPlannedJob (view_of o.now) (stream_job parent.now doc.now) }
    requires owned { doc.now.ws ≡ w }
    ensures { let V = view_of o.now in let own = V (Events w) in
        let rank = facts.priority (Job doc.now.no) doc.now.priority own in
        result ≡ all_of (nat_lt (facts.fence own) rank
        ∷ (nat_le 100 rank || nat_lt (spec.open_launch_count V w (catalogue.jobs_of V w)) (facts.limit own))
        ∷ spec.is_within_limit V w parent.now
        ∷ []) }
{
    let priority = job_priority(o, parent, doc);
    passes_fence(o, w, priority)
        && is_within_workstation_limit(o, w, priority)
        && is_within_limit(o, w, parent)
}
