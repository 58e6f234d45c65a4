//! Which jobs are in play, which streams wait, and what one of them waits for.
ghost use Rattle.std.specs.Prelude.{◌≡◌, slice_get, Some};
ghost use Rattle.model.specs.History.{view_of};
ghost use Rattle.model.specs.Catalogue.{owner};
ghost use Rattle.dependencies.specs.Planned.{IsPlannedJob, IsPlannedStream};
ghost use Rattle.owner_fold.specs.DocPlaces.{stream_job};
ghost use Rattle.ready_index.specs.Awaited as spec;
ghost use Rattle.ready_index.specs.Releases as releases;

use crate::targets::{Target, followed};
use base_types::{JobDoc, Obj, StreamDoc, StreamNo, Ws};
use dependencies::{sat, unwaived_deps};
use network_tree::Network;
use owner_fold::Owners;

/// Whether a job of w is due, its stream is a member, and neither of them is cancelled.
#[tactic(auto, unfolding(crate::specs::Awaited::is_in_play))]
pub(crate) fn is_in_play(o: &Owners, w: Ws, parent: &StreamDoc, doc: &JobDoc) -> bool
    requires planned { IsPlannedJob (view_of o.now) (stream_job parent.now doc.now) }
    requires owned { doc.now.ws ≡ w }
    ensures { result ≡ spec.is_in_play (view_of o.now) w (stream_job parent.now doc.now) }
{
    o.is_due(doc.no)
        && o.is_member(parent.no)
        && !o.is_cancelled(Obj::Stream(parent.no))
        && !o.is_cancelled(Obj::Job(doc.no))
}

/// The first thing that a job of w waits for and can watch: the release of its stream, or else the first job or stream
/// that it follows by a dependency that is neither waived nor satisfied.
#[tactic(auto, unfolding(crate::specs::Awaited::first_awaited))]
pub(crate) fn first_awaited(
    net: &Network,
    o: &Owners,
    w: Ws,
    parent: &StreamDoc,
    doc: &JobDoc,
) -> Option<Target>
    requires planned { IsPlannedJob (view_of o.now) (stream_job parent.now doc.now) }
    requires owned { doc.now.ws ≡ w }
    ensures { result ≡ spec.first_awaited (view_of o.now) (stream_job parent.now doc.now) }
{
    if !o.is_released(parent.no) {
        return Some(Target::ReleaseOf(parent.no.0));
    }
    first_held_back(net, o, w, &Obj::Job(doc.no))
}

/// The first job or stream that an object of w follows by a dependency that is neither waived nor satisfied.
#[tactic(auto, unfolding(crate::specs::Awaited::held_back_by))]
pub(crate) fn first_held_back(net: &Network, o: &Owners, w: Ws, obj: &Obj) -> Option<Target>
    requires { owner (view_of o.now) obj.now ≡ Some w }
    ensures { result ≡ slice_get (spec.held_back_by (view_of o.now) obj.now) 0 }
{
    for (number, dep) in unwaived_deps(o, obj) {
        if let Some(target) = followed(dep) {
            if !sat(net, o, *obj, number) {
                return Some(target);
            }
        }
    }
    None
}

/// Whether a stream of the catalogue waits at w for its release: it is w's and a member, neither released nor cancelled.
pub(crate) fn waits_in(o: &Owners, w: Ws, doc: &StreamDoc) -> bool
    requires { IsPlannedStream (view_of o.now) doc.now }
    ensures { result ≡ releases.waits_in (view_of o.now) w doc.now }
{
    doc.ws == w
        && o.is_member(doc.no)
        && !o.is_released(doc.no)
        && !o.is_cancelled(Obj::Stream(doc.no))
}

/// Whether the stream of this number waits at w for its release.
#[tactic(auto, unfolding(crate::specs::Releases::waits_here))]
pub(crate) fn waits_here(o: &Owners, w: Ws, s: StreamNo) -> bool
    ensures { result ≡ releases.waits_here (view_of o.now) w s }
{
    match o.stream(s) {
        None => false,
        Some(doc) => waits_in(o, w, doc),
    }
}
