//! When a job is ready to be launched.
ghost use Rattle.std.specs.Prelude.{[], ◌≡◌, ◌∷◌, ◌||◌, Some, nat_le, nat_lt, not};
ghost use Rattle.model.specs.Types.{Events, Job, Stream};
ghost use Rattle.model.specs.Words.{all_of};
ghost use Rattle.model.specs.Catalogue as catalogue;
ghost use Rattle.model.specs.Facts as facts;
ghost use Rattle.model.specs.Readiness as spec;
ghost use Rattle.dependencies.specs.Planned.{IsPlannedJob};
ghost use Rattle.owner_fold.specs.DocPlaces.{stream_job};
ghost use Rattle.counted_decisions.specs.Sights.{CountsAllOf, IsSight, seen_in};

use crate::limits::{is_within_limit, is_within_workstation_limit};
use crate::own::{
    fence, is_cancelled as is_told_cancelled, is_due, is_open, is_stopped, priority_set,
};
use crate::sights::{Sight, is_cancelled, is_member, is_released, planned_job};
use crate::waits::all_satisfied;
use base_types::{JobDoc, JobNo, Obj, StreamDoc, Ws};
use network_tree::Network;

/// Whether job j is ready at w by what is counted. A job outside the catalogue is not ready.
#[tactic(auto, unfolding(model::specs::Readiness::is_ready))]
pub fn is_ready(net: &Network, sight: &Sight<'_>, w: Ws, j: JobNo) -> bool
    requires sight { IsSight sight.now }
    requires own { CountsAllOf w sight.now }
    ensures { result ≡ spec.is_ready net.now (seen_in sight.now) w j }
{
    match planned_job(sight, j) {
        None => false,
        Some((parent, doc)) => is_ready_in(net, sight, w, parent, doc),
    }
}

/// Whether a job of the catalogue is ready at w.
fn is_ready_in(net: &Network, sight: &Sight<'_>, w: Ws, parent: &StreamDoc, doc: &JobDoc) -> bool
    requires sight { IsSight sight.now }
    requires own { CountsAllOf w sight.now }
    requires planned { IsPlannedJob (seen_in sight.now) (stream_job parent.now doc.now) }
    ensures { result ≡ spec.is_ready_in net.now (seen_in sight.now) w (stream_job parent.now doc.now) }
{
    doc.ws == w
        && is_under_way(sight, parent)
        && awaits_launch(sight, w, doc.no)
        && all_satisfied(net, sight, w, &Obj::Job(doc.no))
        && is_let_through(sight, w, parent, doc)
}

/// Whether a stream is a member, released and not cancelled.
fn is_under_way(sight: &Sight<'_>, doc: &StreamDoc) -> bool
    requires { IsSight sight.now }
    ensures { let V = seen_in sight.now in let d = doc.now in let told = V (Events d.ws) in
        result ≡ all_of (catalogue.is_member V d.no
        ∷ facts.is_released d.no told
        ∷ not (facts.is_cancelled (Stream d.no) told)
        ∷ []) }
{
    is_member(sight, doc.no)
        && is_released(sight, doc.ws, doc.no)
        && !is_cancelled(sight, doc.ws, doc.no)
}

/// Whether a job of w is not cancelled, is due and has no open launch, and w is not stopped.
fn awaits_launch(sight: &Sight<'_>, w: Ws, j: JobNo) -> bool
    requires { CountsAllOf w sight.now }
    ensures { let told = seen_in sight.now (Events w) in
        result ≡ all_of (not (facts.is_cancelled (Job j) told)
        ∷ not (facts.is_stopped told)
        ∷ facts.is_due j told
        ∷ not (facts.is_open j told)
        ∷ []) }
{
    !is_told_cancelled(sight, w, &Obj::Job(j))
        && !is_stopped(sight, w)
        && is_due(sight, w, j)
        && !is_open(sight, w, j)
}

/// Whether the fence of w lets a job of it through, and neither the limit of w nor that of the stream holds it back.
fn is_let_through(sight: &Sight<'_>, w: Ws, parent: &StreamDoc, doc: &JobDoc) -> bool
    requires sight { IsSight sight.now }
    requires own { CountsAllOf w sight.now }
    requires planned { IsPlannedJob (seen_in sight.now) (stream_job parent.now doc.now) }
    ensures { let V = seen_in sight.now in let told = V (Events w) in
        let rank = facts.priority (Job doc.now.no) doc.now.priority told in
        result ≡ all_of (nat_lt (facts.fence told) rank
        ∷ (nat_le 100 rank || nat_lt (spec.open_launch_count V w (catalogue.jobs_of V w)) (facts.limit told))
        ∷ spec.is_within_limit V w parent.now
        ∷ []) }
{
    let priority = priority_set(sight, w, doc.no).unwrap_or(doc.priority);
    priority > fence(sight, w)
        && is_within_workstation_limit(sight, w, priority)
        && is_within_limit(sight, w, parent)
}
