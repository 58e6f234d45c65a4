//! What a turn does about one order and about one open launch.
ghost use Rattle.std.specs.Prelude.{◌≡◌, ◌+◌, IfSome, Some, option_map};
ghost use Rattle.model.specs.Types as types;
ghost use Rattle.model.specs.Types.{Events, Job};
ghost use Rattle.model.specs.History.{view_of};
ghost use Rattle.model.specs.Catalogue.{owner};
ghost use Rattle.model.specs.Facts.{answered, open_launch};
ghost use Rattle.model.specs.Turn as spec;

use base_types::{Body, Cmd, Feed, JobNo, Ws};
use owner_fold::Owners;

/// The first order of an issuer to `me` that is not answered, with its place.
#[tactic(auto, unfolding(model::specs::Turn::next_order))]
pub fn next_order(o: &Owners, me: Ws, a: Ws) -> Option<(u32, &Cmd)>
    ensures order { option_map (λ p. p.1.now) result ≡ spec.next_order (view_of o.now) me a }
    ensures place { IfSome result (λ p. p.0 ≡ 1 + answered a (view_of o.now (Events me))) }
{
    let answered = o.answered(me, a);
    if answered >= o.count(Feed::Orders(a, me)) {
        return None;
    }
    let place = answered + 1;
    match o.order(a, me, place) {
        None => None,
        Some(cmd) => Some((place, cmd)),
    }
}

/// The loss of the open launch of a job of w. None where no launch is open.
pub fn lost(o: &Owners, w: Ws, j: JobNo) -> Option<Body>
    requires { owner (view_of o.now) (Job j) ≡ Some w }
    ensures { result ≡ option_map (types.Lost j) (open_launch j (view_of o.now (Events w))) }
{
    match o.open_launch(j) {
        None => None,
        Some(number) => Some(Body::Lost(j, number)),
    }
}
