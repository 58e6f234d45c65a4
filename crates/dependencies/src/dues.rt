//! What is due first at a workstation, by the times of its own members' objects.
ghost use Rattle.std.specs.Prelude.{◌≡◌, ◌==◌, ◌&&◌, Some, IfSome, filter, is_some};
ghost use Rattle.model.specs.Types.{Job, Stream};
ghost use Rattle.model.specs.Words.{least, lesser};
ghost use Rattle.model.specs.History.{view_of};
ghost use Rattle.model.specs.Catalogue.{is_member, owner};
ghost use Rattle.model.specs.OwnMembers.{own_job_numbers, own_numbers};
ghost use Rattle.dependencies.specs.Dues as spec;
ghost use Rattle.dependencies.specs.Dues.{due_among};
ghost use Rattle.dependencies.specs.Planned.{IsPlannedJob, IsPlannedStream};
ghost use Rattle.owner_fold.specs.DocPlaces.{stream_job};

use crate::lates::late_at;
use crate::untils::until_at;
use base_types::{JobDoc, JobNo, Obj, StreamDoc, StreamNo, Ws};
use owner_fold::Owners;

/// What a time brings about.
#[derive(Clone, Copy)]
pub(crate) enum Due {
    /// An UNTIL is to be recorded.
    Until,
    /// An object is late by a DEADLINE.
    Late,
}

/// What is due first at w, by its object and number: of a stream before a job, then of the lowest number, then the
/// lowest dependency.
pub(crate) fn first_due(o: &Owners, w: Ws, due: Due) -> Option<(Obj, u16)>
    ensures { result ≡ spec.first_due due (view_of o.now) w }
{
    match due_of_streams(o, w, due) {
        None => due_of_jobs(o, w, due),
        Some(first) => Some(first),
    }
}

/// What is due of the lowest own member that has something due.
fn due_of_streams(o: &Owners, w: Ws, due: Due) -> Option<(Obj, u16)>
    ensures { let V = view_of o.now in result ≡ due_among due V w Stream (own_numbers V w) }
{
    match lowest_stream(o, w, due) {
        None => None,
        Some(s) => due_at(o, w, due, &Obj::Stream(s)),
    }
}

/// What is due of the lowest own member's job that has something due.
fn due_of_jobs(o: &Owners, w: Ws, due: Due) -> Option<(Obj, u16)>
    ensures { let V = view_of o.now in result ≡ due_among due V w Job (own_job_numbers V w) }
{
    match lowest_job(o, w, due) {
        None => None,
        Some(j) => due_at(o, w, due, &Obj::Job(j)),
    }
}

/// The lowest own member with something due.
fn lowest_stream(o: &Owners, w: Ws, due: Due) -> Option<StreamNo>
    ensures lowest { let V = view_of o.now in
        result ≡ least (filter (λ n. is_some (spec.due_at due V w (Stream n))) (own_numbers V w)) }
    ensures owned { IfSome result (λ s. owner (view_of o.now) (Stream s) ≡ Some w) }
{
    let mut lowest = None;
    for doc in o.timed_streams(w) {
        if stream_has_due(o, w, due, doc) {
            lowest = Some(lower(lowest, doc.no.0));
        }
    }
    match lowest {
        None => None,
        Some(number) => Some(StreamNo(number)),
    }
}

/// The lowest own member's job with something due.
fn lowest_job(o: &Owners, w: Ws, due: Due) -> Option<JobNo>
    ensures lowest { let V = view_of o.now in
        result ≡ least (filter (λ n. is_some (spec.due_at due V w (Job n))) (own_job_numbers V w)) }
    ensures owned { IfSome result (λ j. owner (view_of o.now) (Job j) ≡ Some w) }
{
    let mut lowest = None;
    for (parent, doc) in o.timed_jobs(w) {
        if job_has_due(o, w, due, parent, doc) {
            lowest = Some(lower(lowest, doc.no.0));
        }
    }
    match lowest {
        None => None,
        Some(number) => Some(JobNo(number)),
    }
}

/// Whether a stream is an own member of w with something due.
fn stream_has_due(o: &Owners, w: Ws, due: Due, doc: &StreamDoc) -> bool
    requires { IsPlannedStream (view_of o.now) doc.now }
    ensures { let V = view_of o.now in let d = doc.now in
        result ≡ ((d.ws == w) && (is_member V d.no && is_some (spec.due_at due V w (Stream d.no)))) }
{
    doc.ws == w && o.is_member(doc.no) && has_due(o, w, due, &Obj::Stream(doc.no))
}

/// Whether a job is an own member's of w with something due.
fn job_has_due(o: &Owners, w: Ws, due: Due, parent: &StreamDoc, doc: &JobDoc) -> bool
    requires { IsPlannedJob (view_of o.now) (stream_job parent.now doc.now) }
    ensures { let V = view_of o.now in let d = doc.now in
        result ≡ ((d.ws == w) && (is_member V parent.now.no && is_some (spec.due_at due V w (Job d.no)))) }
{
    doc.ws == w && o.is_member(parent.no) && has_due(o, w, due, &Obj::Job(doc.no))
}

/// The lower of a number and one that may be there.
pub(crate) fn lower(lowest: Option<u32>, number: u32) -> u32
    ensures { result ≡ lesser number lowest }
{
    match lowest {
        None => number,
        Some(before) => before.min(number),
    }
}

/// Whether an object of w has something due.
fn has_due(o: &Owners, w: Ws, due: Due, obj: &Obj) -> bool
    requires { owner (view_of o.now) obj.now ≡ Some w }
    ensures { result ≡ is_some (spec.due_at due (view_of o.now) w obj.now) }
{
    due_at(o, w, due, obj).is_some()
}

/// The lowest dependency of an object of w that is due, with its object.
fn due_at(o: &Owners, w: Ws, due: Due, obj: &Obj) -> Option<(Obj, u16)>
    requires { owner (view_of o.now) obj.now ≡ Some w }
    ensures { result ≡ spec.due_at due (view_of o.now) w obj.now }
{
    match due {
        Due::Until => until_at(o, w, obj),
        Due::Late => late_at(o, w, obj),
    }
}
