//! Priorities, which an operator's command changes.
ghost use Rattle.std.specs.Prelude.{◌≡◌};
ghost use Rattle.model.specs.History.{view_of};
ghost use Rattle.model.specs.Readiness as spec;
ghost use Rattle.dependencies.specs.Planned.{IsPlannedJob, IsPlannedStream};
ghost use Rattle.owner_fold.specs.DocPlaces.{stream_job};

use base_types::{JobDoc, Obj, StreamDoc};
use owner_fold::Owners;

/// The priority of a stream of the catalogue, from 0 to 255: as written unless it was set.
#[tactic(auto, unfolding(model::specs::Readiness::stream_priority))]
pub fn stream_priority(o: &Owners, doc: &StreamDoc) -> u8
    requires { IsPlannedStream (view_of o.now) doc.now }
    ensures { result ≡ spec.stream_priority (view_of o.now) doc.now }
{
    o.priority_set(Obj::Stream(doc.no)).unwrap_or(doc.priority)
}

/// The priority of a job of the catalogue, from 0 to 255: as written unless it was set.
#[tactic(auto, unfolding(model::specs::Readiness::job_priority))]
pub fn job_priority(o: &Owners, parent: &StreamDoc, doc: &JobDoc) -> u8
    requires { IsPlannedJob (view_of o.now) (stream_job parent.now doc.now) }
    ensures { result ≡ spec.job_priority (view_of o.now) (stream_job parent.now doc.now) }
{
    o.priority_set(Obj::Job(doc.no)).unwrap_or(doc.priority)
}
