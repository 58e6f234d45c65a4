//! The open launches that have no live process.
ghost use Rattle.std.specs.Prelude.{◌≡◌, ◌==◌, ◌&&◌, IfSome, Some, false, not};
ghost use Rattle.std.specs.Option.{option_map_or};
ghost use Rattle.model.specs.Types.{Events, Job};
ghost use Rattle.model.specs.Words.{least, lesser};
ghost use Rattle.model.specs.History.{view_of};
ghost use Rattle.model.specs.Catalogue.{owner};
ghost use Rattle.model.specs.Facts.{open_launch};
ghost use Rattle.model.specs.Turn as spec;
ghost use Rattle.owner_fold.specs.DocPlaces.{stream_job};
ghost use Rattle.dependencies.specs.Planned.{IsPlannedJob};

use base_types::{JobDoc, JobNo, Live, StreamDoc, Ws};
use owner_fold::Owners;

/// The lowest job of `me` with an open launch that has no live process.
pub(crate) fn lowest_lost(o: &Owners, me: Ws, live: &Live) -> Option<JobNo>
    ensures { result ≡ least (spec.lost_jobs (view_of o.now) me live.now) }
{
    let mut lowest = None;
    for (parent, doc) in o.open_launches(me) {
        if is_lost(o, me, live, parent, doc) {
            lowest = Some(lower(lowest, doc.no.0));
        }
    }
    match lowest {
        None => None,
        Some(number) => Some(JobNo(number)),
    }
}

/// Whether the job is one of `me` with an open launch that has no live process.
fn is_lost(o: &Owners, me: Ws, live: &Live, parent: &StreamDoc, doc: &JobDoc) -> bool
    requires { IsPlannedJob (view_of o.now) (stream_job parent.now doc.now) }
    ensures { let d = doc.now in
        result ≡ ((d.ws == me) && option_map_or (λ n. not (spec.is_alive live.now d.no n))
        (open_launch d.no (view_of o.now (Events me))) false) }
{
    doc.ws == me && has_lost_launch(o, me, live, doc.no)
}

/// Whether a job of w has an open launch without a live process.
fn has_lost_launch(o: &Owners, w: Ws, live: &Live, j: JobNo) -> bool
    requires { owner (view_of o.now) (Job j) ≡ Some w }
    ensures { result ≡ option_map_or (λ n. not (spec.is_alive live.now j n))
        (open_launch j (view_of o.now (Events w))) false }
{
    match o.open_launch(j) {
        None => false,
        Some(number) => !is_alive(live, j, number),
    }
}

/// Whether this launch has a live process.
fn is_alive(live: &Live, j: JobNo, number: u32) -> bool
    ensures { result ≡ spec.is_alive live.now j number }
{
    for launch in live.as_slice() {
        if launch.job.0 == j.0 && launch.number == number {
            return true;
        }
    }
    false
}

/// The lower of a number and one that may be there.
fn lower(lowest: Option<u32>, number: u32) -> u32
    ensures { result ≡ lesser number lowest }
{
    match lowest {
        None => number,
        Some(before) => before.min(number),
    }
}
