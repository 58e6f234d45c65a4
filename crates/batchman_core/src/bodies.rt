//! What a turn keeps.
ghost use Rattle.std.specs.Prelude.{◌≡◌, ◌+◌, ◌<◌, IfOk, Some, option_and_then, option_map, true};
ghost use Rattle.model.specs.Types as types;
ghost use Rattle.model.specs.Types.{Events, Job, Stream};
ghost use Rattle.model.specs.Network.{node_count};
ghost use Rattle.model.specs.History.{view_of};
ghost use Rattle.model.specs.Catalogue.{owner};
ghost use Rattle.model.specs.Facts.{is_due, launches};
ghost use Rattle.model.specs.Dependencies.{dep};
ghost use Rattle.model.specs.OwnMembers.{UntilTime, until_in};
ghost use Rattle.model.specs.Turn as spec;
ghost use Rattle.batchman_core.specs.Told.{IsDueLaunch, IsOwn, choice_of};

use crate::answers::answer;
use crate::choices::{Choice, turn_choice};
use crate::faults::TurnFault;
use crate::witnesses::{seen_by_end, seen_by_object};
use base_types::{Body, Dep, Feed, JobNo, Live, Moment, NoMemory, Obj, StreamNo, Ws};
use decision_rules::lost;
use dependencies::Readiness;
use network_tree::Network;
use owner_fold::Owners;
use std::alloc::Global;

/// What `me` keeps in a turn with the reading `t`, in seconds since 1970: the body of the first rule that applies.
/// None where no rule does. `live` has the launches with a live process. An error leaves nothing behind.
#[tactic(auto, unfolding(model::specs::Turn::turn_body))]
pub fn turn_body<R: Readiness>(
    alloc: Global,
    net: &Network,
    o: &Owners,
    r: &R,
    me: Ws,
    live: &Live,
    t: Moment,
) -> Result<Option<Body>, TurnFault>
    requires inside { me < node_count net.now }
    requires stands { R.stands_for r.now o.now me net.now.resources net.now.prompts }
    ensures { IfOk result (λ b. b ≡ spec.turn_body net.now (view_of o.now) me live.now t) }
{
    let choice = turn_choice(net, o, r, me, live, t);
    match body_of(alloc, net, o, me, t, &choice) {
        Ok(body) => Ok(body),
        Err(_) => Err(TurnFault::NoMemory),
    }
}

/// The body that a choice keeps.
#[tactic(auto, unfolding(model::specs::Turn::body_of))]
fn body_of(
    alloc: Global,
    net: &Network,
    o: &Owners,
    me: Ws,
    t: Moment,
    choice: &Choice,
) -> Result<Option<Body>, NoMemory>
    requires owned { IsOwn (view_of o.now) me choice.now }
    requires due { IsDueLaunch (view_of o.now) me choice.now }
    ensures { IfOk result (λ b. b ≡ spec.body_of net.now (view_of o.now) me t (choice_of choice.now)) }
{
    match choice {
        Choice::Clock => Ok(Some(Body::Clock(t))),
        Choice::Lost(j) => Ok(lost(o, me, *j)),
        Choice::Answer(a) => answer(alloc, net, o, me, *a),
        Choice::Until(obj, i) => Ok(until_passed(o, obj, *i)),
        Choice::Late(obj, i) => Ok(Some(Body::Late(*obj, *i))),
        Choice::Release(s) => kept(released(alloc, o, me, *s)),
        Choice::End(s) => kept(ended(alloc, o, me, *s)),
        Choice::Launch(j) => kept(launched(alloc, o, me, *j)),
        Choice::Nothing => Ok(None),
    }
}

/// The body that is kept, where there was memory for it.
pub(crate) fn kept(body: Result<Body, NoMemory>) -> Result<Option<Body>, NoMemory>
    ensures { (due : types.Body) → IfOk body (λ b. b ≡ due) → IfOk result (λ b. b ≡ Some due) }
{
    match body {
        Ok(body) => Ok(Some(body)),
        Err(error) => Err(error),
    }
}

/// The passing of the UNTIL of this number. None where the dependency is none.
fn until_passed(o: &Owners, obj: &Obj, i: u16) -> Option<Body>
    ensures { result ≡ option_map (λ (u : UntilTime). types.UntilPassed obj.now i u.mark)
        (option_and_then until_in (dep (view_of o.now) obj.now i)) }
{
    match o.dep(*obj, i) {
        Some(Dep::Until(_, mark)) => Some(Body::UntilPassed(*obj, i, *mark)),
        _ => None,
    }
}

/// The release of a stream at w.
fn released(alloc: Global, o: &Owners, w: Ws, s: StreamNo) -> Result<Body, NoMemory>
    ensures { let V = view_of o.now in
        IfOk result (λ b. b ≡ types.Released s (spec.seen_for V (spec.witnesses V w (Stream s)))) }
{
    let seen = seen_by_object(alloc, o, w, &Obj::Stream(s))?;
    Ok(Body::Released(s, seen))
}

/// The end of a stream at w.
fn ended(alloc: Global, o: &Owners, w: Ws, s: StreamNo) -> Result<Body, NoMemory>
    ensures { let V = view_of o.now in
        IfOk result (λ b. b ≡ types.StreamEnded s (spec.seen_for V (spec.end_witnesses V w s))) }
{
    let seen = seen_by_end(alloc, o, w, s)?;
    Ok(Body::StreamEnded(s, seen))
}

/// The number of the next launch of a job of w that is due. Such a job was rerun as often as it was launched, and both
/// are events of w, which 32 bits can count. So there is one.
#[tactic(auto, using(crate::proofs::Reruns::next_has_number))]
fn next_number(o: &Owners, w: Ws, j: JobNo) -> u32
    requires owned { owner (view_of o.now) (Job j) ≡ Some w }
    requires due { is_due j (view_of o.now (Events w)) ≡ true }
    ensures { result ≡ 1 + launches j (view_of o.now (Events w)) }
{
    let _events = o.count(Feed::Events(w));
    1 + o.launches(j)
}

/// The next launch of a job of w that is due.
fn launched(alloc: Global, o: &Owners, w: Ws, j: JobNo) -> Result<Body, NoMemory>
    requires owned { owner (view_of o.now) (Job j) ≡ Some w }
    requires due { is_due j (view_of o.now (Events w)) ≡ true }
    ensures { let V = view_of o.now in
        IfOk result (λ b. b
        ≡ types.Launched j (1 + launches j (V (Events w))) (spec.seen_for V (spec.witnesses V w (Job j)))) }
{
    let number = next_number(o, w, j);
    let seen = seen_by_object(alloc, o, w, &Obj::Job(j))?;
    Ok(Body::Launched(j, number, seen))
}
