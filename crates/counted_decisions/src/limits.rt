//! Open launches, and the limits on them.
ghost use Rattle.std.specs.Prelude.{◌≡◌, ◌==◌, ◌||◌, Some, filter, nat_le, nat_lt, true};
ghost use Rattle.std.specs.List.{list_any};
ghost use Rattle.model.specs.Types.{Events};
ghost use Rattle.model.specs.Catalogue.{StreamJob, jobs_of, stream};
ghost use Rattle.model.specs.Facts as facts;
ghost use Rattle.model.specs.Readiness as spec;
ghost use Rattle.counted_facts.specs.Subjects.{brings};
ghost use Rattle.counted_decisions.specs.Sights.{CountsAllOf, IsSight, seen_in};

use crate::own::limit;
use crate::sights::{Sight, is_brought, stream_limit_set};
use base_types::{StreamDoc, StreamNo, Ws};

/// Whether fewer jobs of w than the limit have an open launch.
fn has_room(sight: &Sight<'_>, w: Ws, limit: u16) -> bool
    requires sight { IsSight sight.now }
    requires own { CountsAllOf w sight.now }
    ensures { let V = seen_in sight.now in result ≡ nat_lt (spec.open_launch_count V w (jobs_of V w)) limit }
{
    let mut room = limit;
    for (parent, _) in sight.owners.open_launches(w) {
        if is_brought(sight, parent.no) {
            if room == 0 {
                return false;
            }
            room -= 1;
        }
    }
    room > 0
}

/// Whether fewer jobs of a stream that is brought than the limit have an open launch at w.
fn stream_has_room(sight: &Sight<'_>, w: Ws, s: StreamNo, limit: u16) -> bool
    requires sight { IsSight sight.now }
    requires own { CountsAllOf w sight.now }
    requires brought { list_any (brings s) (seen_in sight.now (Events 0)) ≡ true }
    ensures { let V = seen_in sight.now in
        let of_stream = filter (λ (p : StreamJob). p.parent.no == s) (jobs_of V w) in
        result ≡ nat_lt (spec.open_launch_count V w of_stream) limit }
{
    let mut room = limit;
    for (parent, _) in sight.owners.open_launches(w) {
        if parent.no == s {
            if room == 0 {
                return false;
            }
            room -= 1;
        }
    }
    room > 0
}

/// The limit of a stream, as written unless it was set.
fn stream_limit(sight: &Sight<'_>, doc: &StreamDoc) -> Option<u16>
    requires { IsSight sight.now }
    ensures { result ≡ facts.stream_limit doc.now.no doc.now.limit (seen_in sight.now (Events doc.now.ws)) }
{
    stream_limit_set(sight, doc.ws, doc.no).or(doc.limit)
}

/// Whether a stream of the catalogue has no limit, or fewer open launches at w than it.
#[tactic(auto, unfolding(model::specs::Readiness::is_within_limit))]
pub(crate) fn is_within_limit(sight: &Sight<'_>, w: Ws, doc: &StreamDoc) -> bool
    requires sight { IsSight sight.now }
    requires own { CountsAllOf w sight.now }
    requires found { stream (seen_in sight.now) doc.now.no ≡ Some doc.now }
    ensures { result ≡ spec.is_within_limit (seen_in sight.now) w doc.now }
{
    match stream_limit(sight, doc) {
        None => true,
        Some(most) => stream_has_room(sight, w, doc.no, most),
    }
}

/// Whether a job of this priority may be launched beside the open launches of w: from 100 on always, and below it
/// where they are fewer than the limit of w.
pub(crate) fn is_within_workstation_limit(sight: &Sight<'_>, w: Ws, priority: u8) -> bool
    requires sight { IsSight sight.now }
    requires own { CountsAllOf w sight.now }
    ensures { let V = seen_in sight.now in
        result ≡ (nat_le 100 priority
        || nat_lt (spec.open_launch_count V w (jobs_of V w)) (facts.limit (V (Events w)))) }
{
    priority >= 100 || has_room(sight, w, limit(sight, w))
}
