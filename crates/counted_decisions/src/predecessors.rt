//! What others wait for: a job or a stream that lets its followers go.
ghost use Rattle.std.specs.Prelude.{◌≡◌};
ghost use Rattle.model.specs.Dependencies as spec;
ghost use Rattle.model.specs.OwnMembers as own;
ghost use Rattle.counted_decisions.specs.Sights.{IsSight, seen_in};
ghost use Rattle.owner_fold.specs.DocPlaces.{stream_job};

use crate::sights::{Sight, is_cancelled, is_done, is_ended, planned_job, stream};
use base_types::{JobDoc, JobNo, StreamDoc, StreamNo};

/// Whether a job is good or cancelled, or its stream is cancelled. One outside the catalogue is none of these.
#[tactic(auto, unfolding(model::specs::Dependencies::job_lets_followers_go))]
pub(crate) fn job_lets_followers_go(sight: &Sight<'_>, j: JobNo) -> bool
    requires { IsSight sight.now }
    ensures { result ≡ spec.job_lets_followers_go (seen_in sight.now) j }
{
    match planned_job(sight, j) {
        None => false,
        Some((parent, doc)) => {
            is_done(sight, doc.ws, j) || is_cancelled(sight, parent.ws, parent.no)
        }
    }
}

/// Whether a job is good or cancelled.
#[tactic(auto, unfolding(model::specs::OwnMembers::lets_stream_end))]
pub(crate) fn lets_stream_end(sight: &Sight<'_>, parent: &StreamDoc, doc: &JobDoc) -> bool
    requires { IsSight sight.now }
    ensures { result ≡ own.lets_stream_end (seen_in sight.now) (stream_job parent.now doc.now) }
{
    // Its stream tells nothing of it.
    let _parent = parent;
    is_done(sight, doc.ws, doc.no)
}

/// Whether a stream is ended or cancelled. One outside the catalogue is neither.
#[tactic(auto, unfolding(model::specs::Dependencies::stream_lets_followers_go))]
pub(crate) fn stream_lets_followers_go(sight: &Sight<'_>, s: StreamNo) -> bool
    requires { IsSight sight.now }
    ensures { result ≡ spec.stream_lets_followers_go (seen_in sight.now) s }
{
    match stream(sight, s) {
        None => false,
        Some(doc) => is_ended(sight, doc.ws, s) || is_cancelled(sight, doc.ws, s),
    }
}
