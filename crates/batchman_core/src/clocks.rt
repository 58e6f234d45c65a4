//! Whether a time is reached for which the clock is kept.
ghost use Rattle.std.specs.Prelude.{◌≡◌, ◌==◌, ◌&&◌, false, filter, map};
ghost use Rattle.std.specs.Option.{option_map_or};
ghost use Rattle.model.specs.Types.{Job, JobDoc as JobOf, Stream, StreamDoc as StreamOf};
ghost use Rattle.model.specs.History.{view_of};
ghost use Rattle.model.specs.Catalogue.{StreamJob, is_member};
ghost use Rattle.model.specs.Dependencies.{unwaived_deps};
ghost use Rattle.model.specs.OwnMembers.{own_jobs, own_streams};
ghost use Rattle.model.specs.Turn as spec;
ghost use Rattle.batchman_core.specs.Reached.{is_any_reached, is_any_reached_of, is_reached};

use base_types::{Dep, JobDoc, Moment, Obj, StreamDoc, Ws};
use dependencies::unwaived_deps;
use owner_fold::Owners;

/// Whether the time of an AT, UNTIL or DEADLINE of an own member's object, which is not waived, lies above the clock of
/// `me` and at most at t, both in seconds since 1970. It takes no memory.
#[tactic(auto, unfolding(model::specs::Turn::is_clock_due, model::specs::Turn::own_times, model::specs::OwnMembers::own_objects))]
pub fn is_clock_due(o: &Owners, me: Ws, t: Moment) -> bool
    ensures { result ≡ spec.is_clock_due (view_of o.now) me t }
{
    let now = o.now(me);
    is_time_of_streams_reached(o, me, now, t) || is_time_of_jobs_reached(o, me, now, t)
}

/// Whether such a time of an own member is reached.
fn is_time_of_streams_reached(o: &Owners, w: Ws, now: Moment, t: Moment) -> bool
    ensures { let V = view_of o.now in
        result ≡ is_any_reached_of V now t (map (λ (d : StreamOf). Stream d.no) (own_streams V w)) }
{
    for doc in o.timed_streams(w) {
        if is_time_of_stream_reached(o, w, doc, now, t) {
            return true;
        }
    }
    false
}

/// Whether such a time of an own member's job is reached.
fn is_time_of_jobs_reached(o: &Owners, w: Ws, now: Moment, t: Moment) -> bool
    ensures { let V = view_of o.now in
        result ≡ is_any_reached_of V now t (map (λ (p : StreamJob). Job p.doc.no) (own_jobs V w)) }
{
    for (parent, doc) in o.timed_jobs(w) {
        if is_time_of_job_reached(o, w, parent, doc, now, t) {
            return true;
        }
    }
    false
}

/// Whether the stream is an own member of w of which such a time is reached.
fn is_time_of_stream_reached(o: &Owners, w: Ws, doc: &StreamDoc, now: Moment, t: Moment) -> bool
    ensures { let V = view_of o.now in let d = doc.now in
        result ≡ ((d.ws == w) && (is_member V d.no && is_any_reached now t (unwaived_deps V (Stream d.no)))) }
{
    doc.ws == w && o.is_member(doc.no) && is_time_of_object_reached(o, &Obj::Stream(doc.no), now, t)
}

/// Whether the job is an own member's of w of which such a time is reached.
fn is_time_of_job_reached(
    o: &Owners,
    w: Ws,
    parent: &StreamDoc,
    doc: &JobDoc,
    now: Moment,
    t: Moment,
) -> bool
    ensures { let V = view_of o.now in let d = doc.now in
        result ≡ ((d.ws == w) && (is_member V parent.now.no && is_any_reached now t (unwaived_deps V (Job d.no)))) }
{
    doc.ws == w && o.is_member(parent.no) && is_time_of_object_reached(o, &Obj::Job(doc.no), now, t)
}

/// Whether the time of a dependency of the object that is not waived is reached.
fn is_time_of_object_reached(o: &Owners, obj: &Obj, now: Moment, t: Moment) -> bool
    ensures { result ≡ is_any_reached now t (unwaived_deps (view_of o.now) obj.now) }
{
    for (_number, dep) in unwaived_deps(o, obj) {
        if is_time_of_dependency_reached(dep, now, t) {
            return true;
        }
    }
    false
}

/// Whether the time of the dependency, if it has one, lies above `now` and at most at t.
fn is_time_of_dependency_reached(dep: &Dep, now: Moment, t: Moment) -> bool
    ensures { result ≡ option_map_or (is_reached now t) (spec.dep_time dep.now) false }
{
    match dep {
        Dep::At(u) => now.0 < u.0 && u.0 <= t.0,
        Dep::Until(u, _) => now.0 < u.0 && u.0 <= t.0,
        Dep::Deadline(u) => now.0 < u.0 && u.0 <= t.0,
        Dep::FollowsJob(_) | Dep::FollowsStream(_) => false,
        Dep::Needs(_, _) | Dep::Prompt(_) | Dep::Outside(_) => false,
    }
}
