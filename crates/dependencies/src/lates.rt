//! The DEADLINE by which an object is late first.
ghost use Rattle.std.specs.Prelude.{◌≡◌, ◌||◌, Some};
ghost use Rattle.model.specs.Types.{Events};
ghost use Rattle.model.specs.History.{view_of};
ghost use Rattle.model.specs.Catalogue.{owner};
ghost use Rattle.model.specs.Facts.{is_cancelled, is_complete};
ghost use Rattle.model.specs.Lateness as spec;
ghost use Rattle.dependencies.specs.Left.{numbered};

use crate::dues::{Due, first_due};
use crate::walks::unwaived_deps;
use base_types::{Dep, Obj, Ws};
use network_tree::Network;
use owner_fold::Owners;

/// The DEADLINE by which an object is late at w, by its object and number: of a stream before a job, then of the
/// lowest number, then the lowest one. It is an own member's, its time has come, it is neither waived nor recorded,
/// and its object is neither cancelled nor complete: a job is complete once it is good, a stream once it is ended. None
/// where nothing is late that is not recorded. The network decides nothing here.
#[tactic(auto, unfolding(model::specs::Lateness::late_due, model::specs::Lateness::late_among))]
pub fn late_due(_net: &Network, o: &Owners, w: Ws) -> Option<(Obj, u16)>
    ensures { result ≡ spec.late_due (view_of o.now) w }
{
    first_due(o, w, Due::Late)
}

/// The lowest DEADLINE by which an object of w is late, with its object.
#[tactic(auto, unfolding(model::specs::Lateness::late_at, model::specs::Lateness::due_lates))]
pub(crate) fn late_at(o: &Owners, w: Ws, obj: &Obj) -> Option<(Obj, u16)>
    requires { owner (view_of o.now) obj.now ≡ Some w }
    ensures { result ≡ spec.late_at (view_of o.now) w obj.now }
{
    if is_over(o, w, obj) {
        return None;
    }
    for (number, dep) in unwaived_deps(o, obj) {
        if is_late_due(o, w, obj, number, dep) {
            return Some((*obj, number));
        }
    }
    None
}

/// Whether an object of w is cancelled or complete.
fn is_over(o: &Owners, w: Ws, obj: &Obj) -> bool
    requires { owner (view_of o.now) obj.now ≡ Some w }
    ensures { let told = view_of o.now (Events w) in
        result ≡ (is_cancelled obj.now told || is_complete told obj.now) }
{
    o.is_cancelled(*obj) || is_complete(o, w, obj)
}

/// Whether an object of w is complete: a job where it is good, a stream where it is ended.
fn is_complete(o: &Owners, w: Ws, obj: &Obj) -> bool
    requires { owner (view_of o.now) obj.now ≡ Some w }
    ensures { result ≡ is_complete (view_of o.now (Events w)) obj.now }
{
    match obj {
        Obj::Job(j) => o.is_good(*j),
        Obj::Stream(s) => o.is_ended(*s),
    }
}

/// Whether a dependency of an object of w is a DEADLINE whose time has come and that is not recorded.
fn is_late_due(o: &Owners, w: Ws, obj: &Obj, number: u16, dep: &Dep) -> bool
    requires { owner (view_of o.now) obj.now ≡ Some w }
    ensures { result ≡ spec.is_late_due (view_of o.now (Events w)) obj.now (numbered number dep.now) }
{
    match dep {
        Dep::Deadline(t) => t.0 <= o.now(w).0 && !o.is_late(*obj, number),
        _ => false,
    }
}
