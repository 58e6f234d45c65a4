//! When a stream may be released, and when it may end.
ghost use Rattle.std.specs.Prelude.{◌≡◌};
ghost use Rattle.std.specs.List.{list_all};
ghost use Rattle.model.specs.History.{view_of};
ghost use Rattle.model.specs.Catalogue.{jobs_of_stream};
ghost use Rattle.model.specs.OwnMembers as spec;
ghost use Rattle.dependencies.specs.Planned.{IsPlannedStream};

use crate::predecessors::lets_stream_end;
use crate::waits::all_satisfied;
use base_types::{Obj, StreamDoc, StreamNo, Ws};
use network_tree::Network;
use owner_fold::Owners;

/// Whether stream s may be released at w: it is w's and a member, neither released nor cancelled, and its
/// dependencies are satisfied.
#[tactic(auto, unfolding(model::specs::OwnMembers::may_release))]
pub fn may_release(net: &Network, o: &Owners, w: Ws, s: StreamNo) -> bool
    ensures { result ≡ spec.may_release net.now (view_of o.now) w s }
{
    match o.stream(s) {
        None => false,
        Some(doc) => may_release_in(net, o, w, doc),
    }
}

/// Whether a stream of the catalogue may be released at w.
pub fn may_release_in(net: &Network, o: &Owners, w: Ws, doc: &StreamDoc) -> bool
    requires { IsPlannedStream (view_of o.now) doc.now }
    ensures { result ≡ spec.may_release_in net.now (view_of o.now) w doc.now }
{
    doc.ws == w
        && o.is_member(doc.no)
        && !o.is_released(doc.no)
        && !o.is_cancelled(Obj::Stream(doc.no))
        && all_satisfied(net, o, w, &Obj::Stream(doc.no))
}

/// Whether stream s may end at w: it is w's and a member, released, neither ended nor cancelled, and each of its jobs
/// is good or cancelled. The network decides nothing here.
#[tactic(auto, unfolding(model::specs::OwnMembers::may_end))]
pub fn may_end(_net: &Network, o: &Owners, w: Ws, s: StreamNo) -> bool
    ensures { result ≡ spec.may_end (view_of o.now) w s }
{
    match o.stream(s) {
        None => false,
        Some(doc) => may_end_in(o, w, doc),
    }
}

/// Whether a stream of the catalogue may end at w.
pub fn may_end_in(o: &Owners, w: Ws, doc: &StreamDoc) -> bool
    requires { IsPlannedStream (view_of o.now) doc.now }
    ensures { result ≡ spec.may_end_in (view_of o.now) w doc.now }
{
    doc.ws == w
        && o.is_member(doc.no)
        && o.is_released(doc.no)
        && !o.is_ended(doc.no)
        && !o.is_cancelled(Obj::Stream(doc.no))
        && jobs_let_end(o, doc.no)
}

/// Whether each job of a stream is good or cancelled.
#[tactic(auto, using(crate::proofs::Found::stream_jobs_left_planned))]
fn jobs_let_end(o: &Owners, s: StreamNo) -> bool
    ensures { let V = view_of o.now in result ≡ list_all (spec.lets_stream_end V) (jobs_of_stream V s) }
{
    for (parent, doc) in o.jobs_of_stream(s) {
        if !lets_stream_end(o, parent, doc) {
            return false;
        }
    }
    true
}
