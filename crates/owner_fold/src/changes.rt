//! What an entry may change in the sets.
ghost use Rattle.std.specs.Prelude.{◌≡◌};
ghost use Rattle.owner_fold.specs.Sets as spec;

use crate::given::{has_time, is_outside};
use base_types::{Body, Cmd, Dep, Entry, Feed, Obj, OnUntil};

/// Of whom an entry tells what may change the sets: the workstation that tells it, the number, and whether it is the
/// release of the stream or a launch of the job. Or who is given a dependency with a time, or one on a file.
#[derive(Clone, Copy)]
pub(crate) enum Change {
    StreamChange(u16, u32, bool),
    JobChange(u16, u32, bool),
    TimeGiven(u16, Obj),
    FileGiven(u16, Obj),
    NoChange,
}

/// A stream that is cancelled.
fn change_of_object(w: u16, o: &Obj) -> Change
    ensures { result ≡ spec.change_of_object w o.now }
{
    match o {
        Obj::Stream(s) => Change::StreamChange(w, s.0, false),
        Obj::Job(_) => Change::NoChange,
    }
}

/// An object that is given a dependency.
fn change_of_dep(w: u16, o: &Obj, dep: &Dep) -> Change
    ensures { result ≡ spec.change_of_dep w o.now dep.now }
{
    if has_time(dep) {
        Change::TimeGiven(w, *o)
    } else if is_outside(dep) {
        Change::FileGiven(w, *o)
    } else {
        Change::NoChange
    }
}

/// What an entry in the events of w may change.
fn change_by(w: u16, body: &Body) -> Change
    ensures { result ≡ spec.change_by w body.now }
{
    match body {
        Body::Released(s, _) => Change::StreamChange(w, s.0, true),
        Body::StreamEnded(s, _) => Change::StreamChange(w, s.0, false),
        Body::UntilPassed(o, _, OnUntil::Canc) => change_of_object(w, o),
        Body::Obeyed(_, _, Cmd::Cancel(o)) => change_of_object(w, o),
        Body::Obeyed(_, _, Cmd::AddDep(o, dep)) => change_of_dep(w, o, dep),
        Body::Launched(j, _, _) => Change::JobChange(w, j.0, true),
        Body::Failed(j, _) => Change::JobChange(w, j.0, false),
        Body::Ended(j, _, _, _) => Change::JobChange(w, j.0, false),
        Body::Lost(j, _) => Change::JobChange(w, j.0, false),
        _ => Change::NoChange,
    }
}

/// What an entry may change.
pub(crate) fn change_of(e: &Entry) -> Change
    ensures { result ≡ spec.change_in e.now.body e.now.feed }
{
    match &e.feed {
        Feed::Orders(_, _) => Change::NoChange,
        Feed::Events(w) => change_by(w.0, &e.body),
    }
}
