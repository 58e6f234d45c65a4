//! What an object waits for, and whether it is there.
ghost use Rattle.std.specs.Prelude.{◌≡◌, Some};
ghost use Rattle.model.specs.Catalogue.{owner};
ghost use Rattle.model.specs.Dependencies as spec;
ghost use Rattle.counted_decisions.specs.Sights.{CountsAllOf, IsSight, seen_in};

use crate::own::{is_fulfilled, now};
use crate::predecessors::{job_lets_followers_go, stream_lets_followers_go};
use crate::sights::Sight;
use crate::supplies::{has_units, own_prompt_is_answered, prompt_is_answered};
use base_types::{Dep, Obj, OnUntil, PromptRef, Ws};
use dependencies::unwaived_deps;
use network_tree::Network;

/// Whether dependency i of an object of w is met, be it waived or not.
#[tactic(auto, unfolding(model::specs::Dependencies::is_met))]
fn is_met(net: &Network, sight: &Sight<'_>, w: Ws, o: &Obj, i: u16, dep: &Dep) -> bool
    requires sight { IsSight sight.now }
    requires own { CountsAllOf w sight.now }
    ensures { result ≡ spec.is_met net.now (seen_in sight.now) w o.now i dep.now }
{
    match dep {
        Dep::FollowsJob(j) => job_lets_followers_go(sight, *j),
        Dep::FollowsStream(s) => stream_lets_followers_go(sight, *s),
        Dep::Needs(r, n) => has_units(net, sight, w, *r, *n),
        Dep::Prompt(PromptRef::Global(p)) => prompt_is_answered(net, sight, *p),
        Dep::Prompt(PromptRef::Own(text)) => own_prompt_is_answered(sight, w, o, i, text),
        Dep::At(t) => t.0 <= now(sight, w).0,
        Dep::Until(_, OnUntil::Cont) => true,
        Dep::Until(t, OnUntil::Suppr) => now(sight, w).0 < t.0,
        Dep::Until(t, OnUntil::Canc) => now(sight, w).0 < t.0,
        Dep::Outside(_) => is_fulfilled(sight, w, o, i),
        // It only makes late.
        Dep::Deadline(_) => true,
    }
}

/// Whether each dependency of an object of w is waived or met.
#[tactic(auto, unfolding(model::specs::Dependencies::all_satisfied))]
pub(crate) fn all_satisfied(net: &Network, sight: &Sight<'_>, w: Ws, o: &Obj) -> bool
    requires sight { IsSight sight.now }
    requires own { CountsAllOf w sight.now }
    requires owned { owner (seen_in sight.now) o.now ≡ Some w }
    ensures { result ≡ spec.all_satisfied net.now (seen_in sight.now) w o.now }
{
    for (number, dep) in unwaived_deps(sight.owners, o) {
        if !is_met(net, sight, w, o, number, dep) {
            return false;
        }
    }
    true
}
