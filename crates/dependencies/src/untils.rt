//! The UNTIL that is due first.
ghost use Rattle.std.specs.Prelude.{◌≡◌, ◌||◌, Some};
ghost use Rattle.model.specs.Types.{Events};
ghost use Rattle.model.specs.History.{view_of};
ghost use Rattle.model.specs.Catalogue.{owner};
ghost use Rattle.model.specs.Facts.{is_cancelled};
ghost use Rattle.model.specs.OwnMembers as spec;
ghost use Rattle.dependencies.specs.Left.{numbered};

use crate::dues::{Due, first_due};
use crate::limits::is_open;
use crate::walks::unwaived_deps;
use base_types::{Dep, Obj, Ws};
use network_tree::Network;
use owner_fold::Owners;

/// The UNTIL that is due at w, by its object and number: that of a stream before that of a job, then that of the
/// lowest number, then the lowest one. It is an own member's, its time has come, it is neither waived nor recorded,
/// and its object is neither cancelled nor begun. None where no UNTIL is due. The network decides nothing here.
#[tactic(auto, unfolding(model::specs::OwnMembers::until_due, model::specs::OwnMembers::until_among))]
pub fn until_due(_net: &Network, o: &Owners, w: Ws) -> Option<(Obj, u16)>
    ensures { result ≡ spec.until_due (view_of o.now) w }
{
    first_due(o, w, Due::Until)
}

/// The lowest UNTIL of an object of w that is due, with its object.
#[tactic(auto, unfolding(model::specs::OwnMembers::until_at, model::specs::OwnMembers::due_untils))]
pub(crate) fn until_at(o: &Owners, w: Ws, obj: &Obj) -> Option<(Obj, u16)>
    requires { owner (view_of o.now) obj.now ≡ Some w }
    ensures { result ≡ spec.until_at (view_of o.now) w obj.now }
{
    if is_out_of_play(o, w, obj) {
        return None;
    }
    for (number, dep) in unwaived_deps(o, obj) {
        if is_until_due(o, w, obj, number, dep) {
            return Some((*obj, number));
        }
    }
    None
}

/// Whether an object of w is cancelled or has begun.
fn is_out_of_play(o: &Owners, w: Ws, obj: &Obj) -> bool
    requires { owner (view_of o.now) obj.now ≡ Some w }
    ensures { let told = view_of o.now (Events w) in
        result ≡ (is_cancelled obj.now told || spec.has_begun told obj.now) }
{
    o.is_cancelled(*obj) || has_begun(o, w, obj)
}

/// Whether an object of w has begun: a job unless it is due and not open, a stream where it is released.
#[tactic(auto, unfolding(model::specs::OwnMembers::has_begun))]
fn has_begun(o: &Owners, w: Ws, obj: &Obj) -> bool
    requires { owner (view_of o.now) obj.now ≡ Some w }
    ensures { result ≡ spec.has_begun (view_of o.now (Events w)) obj.now }
{
    match obj {
        Obj::Job(j) => !o.is_due(*j) || is_open(o, w, *j),
        Obj::Stream(s) => o.is_released(*s),
    }
}

/// Whether a dependency of an object of w is an UNTIL whose time has come and that is not recorded.
fn is_until_due(o: &Owners, w: Ws, obj: &Obj, number: u16, dep: &Dep) -> bool
    requires { owner (view_of o.now) obj.now ≡ Some w }
    ensures { result ≡ spec.is_until_due (view_of o.now (Events w)) obj.now (numbered number dep.now) }
{
    match dep {
        Dep::Until(t, _) => t.0 <= o.now(w).0 && !o.is_until_recorded(*obj, number),
        _ => false,
    }
}
