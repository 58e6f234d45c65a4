//! When a stream may be released, and when it may end.
ghost use Rattle.std.specs.Prelude.{◌≡◌, Some, true};
ghost use Rattle.std.specs.List.{list_all, list_any};
ghost use Rattle.model.specs.Types.{Events};
ghost use Rattle.model.specs.Catalogue.{jobs_of_stream};
ghost use Rattle.model.specs.OwnMembers as spec;
ghost use Rattle.dependencies.specs.Planned.{IsPlannedStream};
ghost use Rattle.counted_facts.specs.Subjects.{brings};
ghost use Rattle.counted_decisions.specs.Sights.{CountsAllOf, IsSight, seen_in};

use crate::predecessors::lets_stream_end;
use crate::sights::{Sight, is_cancelled, is_ended, is_member, is_released, stream};
use crate::waits::all_satisfied;
use base_types::{Obj, StreamDoc, StreamNo, Ws};
use network_tree::Network;

/// Whether stream s may be released at w by what is counted.
#[tactic(auto, unfolding(model::specs::OwnMembers::may_release))]
pub fn may_release(net: &Network, sight: &Sight<'_>, w: Ws, s: StreamNo) -> bool
    requires sight { IsSight sight.now }
    requires own { CountsAllOf w sight.now }
    ensures { result ≡ spec.may_release net.now (seen_in sight.now) w s }
{
    match stream(sight, s) {
        None => false,
        Some(doc) => may_release_in(net, sight, w, doc),
    }
}

/// Whether a stream of the catalogue may be released at w.
fn may_release_in(net: &Network, sight: &Sight<'_>, w: Ws, doc: &StreamDoc) -> bool
    requires sight { IsSight sight.now }
    requires own { CountsAllOf w sight.now }
    requires planned { IsPlannedStream (seen_in sight.now) doc.now }
    ensures { result ≡ spec.may_release_in net.now (seen_in sight.now) w doc.now }
{
    doc.ws == w
        && is_member(sight, doc.no)
        && !is_released(sight, w, doc.no)
        && !is_cancelled(sight, w, doc.no)
        && all_satisfied(net, sight, w, &Obj::Stream(doc.no))
}

/// Whether stream s may end at w by what is counted.
#[tactic(auto, unfolding(model::specs::OwnMembers::may_end))]
pub fn may_end(sight: &Sight<'_>, w: Ws, s: StreamNo) -> bool
    requires { IsSight sight.now }
    ensures { result ≡ spec.may_end (seen_in sight.now) w s }
{
    match stream(sight, s) {
        None => false,
        Some(doc) => may_end_in(sight, w, doc),
    }
}

/// Whether a stream of the catalogue may end at w.
fn may_end_in(sight: &Sight<'_>, w: Ws, doc: &StreamDoc) -> bool
    requires sight { IsSight sight.now }
    requires planned { IsPlannedStream (seen_in sight.now) doc.now }
    ensures { result ≡ spec.may_end_in (seen_in sight.now) w doc.now }
{
    doc.ws == w
        && is_member(sight, doc.no)
        && is_released(sight, w, doc.no)
        && !is_ended(sight, w, doc.no)
        && !is_cancelled(sight, w, doc.no)
        && jobs_let_end(sight, doc.no)
}

/// Whether each job of a stream that is brought is good or cancelled.
fn jobs_let_end(sight: &Sight<'_>, s: StreamNo) -> bool
    requires sight { IsSight sight.now }
    requires brought { list_any (brings s) (seen_in sight.now (Events 0)) ≡ true }
    ensures { let V = seen_in sight.now in result ≡ list_all (spec.lets_stream_end V) (jobs_of_stream V s) }
{
    for (parent, doc) in sight.owners.jobs_of_stream(s) {
        if !lets_stream_end(sight, parent, doc) {
            return false;
        }
    }
    true
}
