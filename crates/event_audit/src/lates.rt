//! Whether an object that is recorded as late is so.
ghost use Rattle.std.specs.Prelude.{◌≡◌};
ghost use Rattle.std.specs.Bool.{Decides};
ghost use Rattle.model.specs.Types.{Events, Late};
ghost use Rattle.model.specs.Facts as facts;
ghost use Rattle.model.specs.History.{list_of};
ghost use Rattle.model.specs.Sound.{IsInTime};
ghost use Rattle.event_audit.specs.Times.{HasPassed, is_over};

use base_types::{Dep, Moment, Obj, Ws};
use owner_fold::Owners;

/// Whether the DEADLINE by which w records an object as late next is there and its time has come, and whether by w's
/// list it is not recorded yet, nor is its object cancelled or complete.
pub(crate) fn is_right_late(owners: &Owners, w: Ws, o: &Obj, i: u16) -> bool
    ensures { Decides result (IsInTime owners.now w (Late o.now i)) }
{
    if owners.kept().is_late_at(w, o, i) || is_over(owners, w, o) {
        return false;
    }
    match owners.dep(*o, i) {
        None => false,
        Some(dep) => has_passed(dep, owners.now(w)),
    }
}

/// Whether w's list tells the object as cancelled or complete.
fn is_over(owners: &Owners, w: Ws, o: &Obj) -> bool
    ensures { result ≡ is_over (list_of owners.now (Events w)) o.now }
{
    owners.kept().is_cancelled_at(w, o) || is_complete(owners, w, o)
}

/// Whether w's list tells the object as complete: a job as good, a stream as ended.
fn is_complete(owners: &Owners, w: Ws, o: &Obj) -> bool
    ensures { result ≡ facts.is_complete (list_of owners.now (Events w)) o.now }
{
    match o {
        Obj::Job(j) => owners.kept().is_good_at(w, *j),
        Obj::Stream(s) => owners.kept().is_ended_at(w, *s),
    }
}

/// Whether a dependency is a DEADLINE whose time has come.
fn has_passed(dep: &Dep, now: Moment) -> bool
    ensures { Decides result (HasPassed now dep.now) }
{
    match dep {
        Dep::Deadline(t) => t.0 <= now.0,
        _ => false,
    }
}
