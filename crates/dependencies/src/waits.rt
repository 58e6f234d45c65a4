//! What an object waits for, and whether it is there.
ghost use Rattle.std.specs.Prelude.{◌≡◌, Some};
ghost use Rattle.model.specs.Types.{Events};
ghost use Rattle.model.specs.History.{view_of};
ghost use Rattle.model.specs.Catalogue.{owner};
ghost use Rattle.model.specs.Facts as facts;
ghost use Rattle.model.specs.Dependencies as spec;

use crate::predecessors::{job_lets_followers_go, stream_lets_followers_go};
use crate::supplies::{has_units, own_prompt_is_answered, prompt_is_answered};
use crate::walks::unwaived_deps;
use base_types::{Dep, Moment, Obj, OnUntil, PromptRef, Ws};
use network_tree::Network;
use owner_fold::Owners;

/// Whether the object has told that the file of its dependency i is there.
fn file_is_there(o: &Owners, w: Ws, obj: &Obj, i: u16) -> bool
    requires { owner (view_of o.now) obj.now ≡ Some w }
    ensures { result ≡ facts.is_fulfilled obj.now i (view_of o.now (Events w)) }
{
    o.is_fulfilled(*obj, i)
}

/// Whether dependency i of an object of w is met, be it waived or not.
#[tactic(auto, unfolding(model::specs::Dependencies::is_met))]
pub fn is_met(net: &Network, o: &Owners, w: Ws, obj: &Obj, i: u16, dep: &Dep) -> bool
    requires { owner (view_of o.now) obj.now ≡ Some w }
    ensures { result ≡ spec.is_met net.now (view_of o.now) w obj.now i dep.now }
{
    match dep {
        Dep::FollowsJob(j) => job_lets_followers_go(o, *j),
        Dep::FollowsStream(s) => stream_lets_followers_go(o, *s),
        Dep::Needs(r, n) => has_units(net, o, w, *r, *n),
        Dep::Prompt(PromptRef::Global(p)) => prompt_is_answered(net, o, *p),
        Dep::Prompt(PromptRef::Own(text)) => own_prompt_is_answered(o, w, obj, i, text),
        Dep::At(t) => t.0 <= o.now(w).0,
        Dep::Until(_, OnUntil::Cont) => true,
        Dep::Until(t, OnUntil::Suppr) => o.now(w).0 < t.0,
        Dep::Until(t, OnUntil::Canc) => o.now(w).0 < t.0,
        Dep::Outside(_) => file_is_there(o, w, obj, i),
        // It only makes late.
        Dep::Deadline(_) => true,
    }
}

/// Whether each dependency of an object of w is waived or met.
#[tactic(auto, unfolding(model::specs::Dependencies::all_satisfied))]
pub fn all_satisfied(net: &Network, o: &Owners, w: Ws, obj: &Obj) -> bool
    requires { owner (view_of o.now) obj.now ≡ Some w }
    ensures { result ≡ spec.all_satisfied net.now (view_of o.now) w obj.now }
{
    for (number, dep) in unwaived_deps(o, obj) {
        if !is_met(net, o, w, obj, number, dep) {
            return false;
        }
    }
    true
}

/// Whether dependency i of the object, counted from 1, is waived or met. One that is not there is not satisfied, and
/// none of an object outside the catalogue is.
pub fn sat(net: &Network, o: &Owners, obj: Obj, i: u16) -> bool
    ensures { result ≡ spec.is_satisfied net.now (view_of o.now) obj i }
{
    is_satisfied(net, o, &obj, i)
}

#[tactic(auto, unfolding(model::specs::Dependencies::is_satisfied))]
fn is_satisfied(net: &Network, o: &Owners, obj: &Obj, i: u16) -> bool
    ensures { result ≡ spec.is_satisfied net.now (view_of o.now) obj.now i }
{
    match o.owner(*obj) {
        None => false,
        Some(w) => match o.dep(*obj, i) {
            None => false,
            Some(dep) => o.is_waived(*obj, i) || is_met(net, o, w, obj, i, dep),
        },
    }
}
