//! Which rule applies first.
ghost use Rattle.std.specs.Prelude.{◌≡◌, ◌<◌};
ghost use Rattle.model.specs.Network.{node_count};
ghost use Rattle.model.specs.History.{view_of};
ghost use Rattle.model.specs.Turn as spec;
ghost use Rattle.batchman_core.specs.Told.{IsDueLaunch, IsOwn, choice_of};

use crate::clocks::is_clock_due;
use crate::issuers::next_issuer;
use crate::losses::lowest_lost;
use base_types::{JobNo, Live, Moment, Obj, StreamNo, Ws};
use dependencies::{Readiness, late_due, until_due};
use network_tree::Network;
use owner_fold::Owners;

/// A rule of a turn, and what it applies to.
#[derive(Clone, Copy, Debug)]
pub enum Choice {
    /// The time of an own member's AT, UNTIL or DEADLINE has come by the reading, and the clock is kept.
    Clock,
    /// An open launch of this job has no live process.
    Lost(JobNo),
    /// This issuer has an order that is not answered.
    Answer(Ws),
    /// The UNTIL of this number is due at the object.
    Until(Obj, u16),
    /// The object is late by its DEADLINE of this number.
    Late(Obj, u16),
    /// The stream may be released.
    Release(StreamNo),
    /// The stream may end.
    End(StreamNo),
    /// The job is the best of those that are ready.
    Launch(JobNo),
    /// No rule applies.
    Nothing,
}

/// The first rule that applies at `me` in a turn with the reading `t`, in seconds since 1970, with its lowest object.
/// `live` has the launches with a live process. It takes no memory.
#[tactic(auto, unfolding(model::specs::Turn::turn_choice))]
pub fn turn_choice<R: Readiness>(
    net: &Network,
    o: &Owners,
    r: &R,
    me: Ws,
    live: &Live,
    t: Moment,
) -> Choice
    requires inside { me < node_count net.now }
    requires stands { R.stands_for r.now o.now me net.now.resources net.now.prompts }
    ensures choice { choice_of result ≡ spec.turn_choice net.now (view_of o.now) me live.now t }
    ensures owned { IsOwn (view_of o.now) me result }
    ensures due { IsDueLaunch (view_of o.now) me result }
{
    if is_clock_due(o, me, t) {
        return Choice::Clock;
    }
    if let Some(j) = lowest_lost(o, me, live) {
        return Choice::Lost(j);
    }
    if let Some(a) = next_issuer(net, o, me) {
        return Choice::Answer(a);
    }
    if let Some((obj, i)) = until_due(net, o, me) {
        return Choice::Until(obj, i);
    }
    if let Some((obj, i)) = late_due(net, o, me) {
        return Choice::Late(obj, i);
    }
    if let Some(s) = r.lowest_to_release(net, o, me) {
        return Choice::Release(s);
    }
    if let Some(s) = r.lowest_to_end(net, o, me) {
        return Choice::End(s);
    }
    match r.best(net, o, me) {
        None => Choice::Nothing,
        Some(j) => Choice::Launch(j),
    }
}
