//! Units of a resource, and replies to prompts.
ghost use Rattle.std.specs.Prelude.{◌≡◌, ◌||◌, ◌+◌, nat_le, Some};
ghost use Rattle.model.specs.Types.{Events};
ghost use Rattle.model.specs.Words.{is_yes, nth};
ghost use Rattle.model.specs.History.{view_of};
ghost use Rattle.model.specs.Catalogue.{owner};
ghost use Rattle.model.specs.Facts as facts;
ghost use Rattle.model.specs.Dependencies as spec;

use base_types::{Obj, Resource, Text, Ws};
use network_tree::{Network, is_only_shown};
use owner_fold::Owners;

/// Whether n more units of a resource of w are within its total.
fn has_units_of(o: &Owners, w: Ws, r: u16, n: u16, resource: &Resource) -> bool
    ensures { let V = view_of o.now in
        result ≡ nat_le (spec.used V w r + n) (facts.total r resource.now.total (V (Events w))) }
{
    let total = o.total_set(w, r).unwrap_or(resource.total);
    match u64::from(total).checked_sub(o.used(w, r)) {
        None => false,
        Some(free) => u64::from(n) <= free,
    }
}

/// Whether r is a resource of w, and n more units of it are within its total.
#[tactic(auto, unfolding(model::specs::Dependencies::has_units))]
pub(crate) fn has_units(net: &Network, o: &Owners, w: Ws, r: u16, n: u16) -> bool
    ensures { result ≡ spec.has_units net.now (view_of o.now) w r n }
{
    if r == 0 {
        return false;
    }
    match net.net().resources.get(usize::from(r - 1)) {
        None => false,
        Some(resource) => resource.ws == w && has_units_of(o, w, r, n, resource),
    }
}

/// Whether a prompt of the network asks for no reply, or the last reply since the last plan is yes.
#[tactic(auto, unfolding(model::specs::Dependencies::prompt_is_answered))]
pub(crate) fn prompt_is_answered(net: &Network, o: &Owners, p: u16) -> bool
    ensures { result ≡ spec.prompt_is_answered net.now (view_of o.now) p }
{
    if p == 0 {
        return false;
    }
    match net.net().prompts.get(usize::from(p - 1)) {
        None => false,
        Some(prompt) => is_only_shown(&prompt.text) || o.global_reply(p) == Some(true),
    }
}

/// Whether an object's own prompt asks for no reply, or the last reply is yes.
pub(crate) fn own_prompt_is_answered(o: &Owners, w: Ws, obj: &Obj, i: u16, text: &Text) -> bool
    requires { owner (view_of o.now) obj.now ≡ Some w }
    ensures { let own = view_of o.now (Events w) in
        result ≡ (spec.is_only_shown text.now || is_yes (facts.own_reply obj.now i own)) }
{
    is_only_shown(text) || o.own_reply(*obj, i) == Some(true)
}
