//! Of which job or stream an entry tells something that others wait for.
ghost use Rattle.std.specs.Prelude.{◌≡◌};
ghost use Rattle.model.specs.Catalogue.{docs_in};
ghost use Rattle.owner_rows.specs.Subjects.{is_plan, key_in};
ghost use Rattle.counted_facts.specs.Subjects as spec;

use base_types::{Body, Cmd, Entry, Feed, Obj, StreamDoc, StreamNo};
use std::slice::from_ref;

/// The number of a job.
fn job_of_object(o: &Obj) -> Option<u32>
    ensures { result ≡ spec.job_of_object o.now }
{
    match o {
        Obj::Job(j) => Some(j.0),
        Obj::Stream(_) => None,
    }
}

/// The number of a stream.
fn stream_of_object(o: &Obj) -> Option<u32>
    ensures { result ≡ spec.stream_of_object o.now }
{
    match o {
        Obj::Job(_) => None,
        Obj::Stream(s) => Some(s.0),
    }
}

/// The job of which a body tells a launch or its end, a rerun, that it is confirmed or cancelled.
fn job_told_in(body: &Body) -> Option<u32>
    ensures { result ≡ spec.job_told_in body.now }
{
    match body {
        Body::Launched(j, _, _) => Some(j.0),
        Body::Started(j, _) => Some(j.0),
        Body::Failed(j, _) => Some(j.0),
        Body::Ended(j, _, _, _) => Some(j.0),
        Body::Lost(j, _) => Some(j.0),
        Body::UntilPassed(o, _, _) => job_of_object(o),
        Body::Obeyed(_, _, Cmd::Cancel(o)) => job_of_object(o),
        Body::Obeyed(_, _, Cmd::Rerun(j)) => Some(j.0),
        Body::Obeyed(_, _, Cmd::Confirm(j)) => Some(j.0),
        _ => None,
    }
}

/// The stream that a body releases, ends or cancels, or whose limit it sets.
fn stream_told_in(body: &Body) -> Option<u32>
    ensures { result ≡ spec.stream_told_in body.now }
{
    match body {
        Body::Released(s, _) => Some(s.0),
        Body::StreamEnded(s, _) => Some(s.0),
        Body::UntilPassed(o, _, _) => stream_of_object(o),
        Body::Obeyed(_, _, Cmd::Cancel(o)) => stream_of_object(o),
        Body::Obeyed(_, _, Cmd::StreamLimit(s, _)) => Some(s.0),
        _ => None,
    }
}

/// The documents that a body brings.
pub(crate) fn docs_in(body: &Body) -> &[StreamDoc]
    ensures { result.now ≡ docs_in body.now }
{
    match body {
        Body::NewPlan(_, _, _, docs) => docs.as_slice(),
        Body::Added(_, _, doc) => from_ref(doc),
        _ => &[],
    }
}

/// The streams that a plan carries.
pub(crate) fn carried_in(body: &Body) -> &[StreamNo]
    ensures { result.now ≡ spec.carried_in body.now }
{
    match body {
        Body::NewPlan(_, _, carried, _) => carried.as_slice(),
        _ => &[],
    }
}

/// Whether a body is a plan.
pub(crate) fn is_plan(body: &Body) -> bool
    ensures { result ≡ is_plan body.now }
{
    match body {
        Body::NewPlan(_, _, _, _) => true,
        _ => false,
    }
}

/// The prompt of the network to which a body has the reply.
fn reply_in(body: &Body) -> Option<(u16, bool)>
    ensures { result ≡ spec.reply_in body.now }
{
    match body {
        Body::Obeyed(_, _, Cmd::ReplyGlobal(p, yes)) => Some((*p, *yes)),
        _ => None,
    }
}

/// The workstation, the prompt and the reply.
pub(crate) fn reply_key(e: &Entry) -> Option<(u16, (u16, bool))>
    ensures { result ≡ key_in spec.reply_in e.now }
{
    match &e.feed {
        Feed::Orders(_, _) => None,
        Feed::Events(w) => match reply_in(&e.body) {
            None => None,
            Some(reply) => Some((w.0, reply)),
        },
    }
}

/// The workstation and the job.
pub(crate) fn job_key(e: &Entry) -> Option<(u16, u32)>
    ensures { result ≡ key_in spec.job_told_in e.now }
{
    match &e.feed {
        Feed::Orders(_, _) => None,
        Feed::Events(w) => match job_told_in(&e.body) {
            None => None,
            Some(j) => Some((w.0, j)),
        },
    }
}

/// The workstation and the stream.
pub(crate) fn stream_key(e: &Entry) -> Option<(u16, u32)>
    ensures { result ≡ key_in spec.stream_told_in e.now }
{
    match &e.feed {
        Feed::Orders(_, _) => None,
        Feed::Events(w) => match stream_told_in(&e.body) {
            None => None,
            Some(s) => Some((w.0, s)),
        },
    }
}
