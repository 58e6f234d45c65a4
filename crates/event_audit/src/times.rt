//! Whether the clock goes on, and an UNTIL that is recorded is one whose time has come, once.
ghost use Rattle.std.specs.Prelude.{◌≡◌};
ghost use Rattle.std.specs.Bool.{Decides};
ghost use Rattle.std.specs.List.{list_any};
ghost use Rattle.model.specs.Types.{Clock, Events, UntilPassed};
ghost use Rattle.model.specs.History.{list_of};
ghost use Rattle.model.specs.Sound.{IsInTime};
ghost use Rattle.event_audit.specs.Times.{IsPast, is_reading};

use base_types::{Body, Dep, Feed, Moment, Obj, OnUntil, Ws};
use owner_fold::Owners;
use value_equality::is_same_mark;

/// Whether every reading of w's clock so far is less than this one. The greatest of them tells it, but that is 0 without
/// a reading too: so one of 0 asks whether there is any.
pub(crate) fn is_later(owners: &Owners, w: Ws, t: Moment) -> bool
    ensures { Decides result (IsInTime owners.now w (Clock t)) }
{
    let now = owners.now(w);
    if now.0 < t.0 {
        return true;
    }
    if t.0 > 0 {
        return false;
    }
    !has_reading(owners, w)
}

/// Whether w's list has a reading of its clock.
fn has_reading(owners: &Owners, w: Ws) -> bool
    ensures { result ≡ list_any is_reading (list_of owners.now (Events w)) }
{
    for passed in 0..owners.count(Feed::Events(w)) {
        match owners.entry(Feed::Events(w), passed + 1) {
            None => continue,
            Some(body) => {
                if is_reading(body) {
                    return true;
                }
            }
        }
    }
    false
}

/// Whether a body is a reading of a clock.
fn is_reading(body: &Body) -> bool
    ensures { result ≡ is_reading body.now }
{
    match body {
        Body::Clock(_) => true,
        _ => false,
    }
}

/// Whether the UNTIL that w records next is there with this mark, its time has come, and w has not recorded it.
pub(crate) fn is_right_until(owners: &Owners, w: Ws, o: &Obj, i: u16, mark: &OnUntil) -> bool
    ensures { Decides result (IsInTime owners.now w (UntilPassed o.now i mark.now)) }
{
    if owners.kept().is_until_recorded_at(w, o, i) {
        return false;
    }
    match owners.dep(*o, i) {
        None => false,
        Some(dep) => is_past(dep, mark, owners.now(w)),
    }
}

/// Whether a dependency is an UNTIL with this mark whose time has come.
fn is_past(dep: &Dep, mark: &OnUntil, now: Moment) -> bool
    ensures { Decides result (IsPast mark.now now dep.now) }
{
    match dep {
        Dep::Until(t, then) => is_same_mark(then, mark) && t.0 <= now.0,
        _ => false,
    }
}
