//! What a single body tells of a job, a stream or an issuer, and whether two objects are the same.
ghost use Rattle.std.specs.Prelude.{◌≡◌};
ghost use Rattle.model.specs.Equalities.{obj_eq};
ghost use Rattle.model.specs.Facts.{answers_to, is_end_of, is_launch_of, is_release_of, is_start_of};
ghost use Rattle.owner_rows.specs.Streams.{limit_said};
ghost use Rattle.owner_rows.specs.Jobs.{is_rerun_in, is_confirm_in};

use base_types::{Body, Cmd, Obj};

/// The two objects are the same.
pub(crate) fn same_object(a: &Obj, b: &Obj) -> bool
    ensures { result ≡ obj_eq a.now b.now }
{
    match a {
        Obj::Job(j) => match b {
            Obj::Job(k) => j.0 == k.0,
            Obj::Stream(_) => false,
        },
        Obj::Stream(s) => match b {
            Obj::Job(_) => false,
            Obj::Stream(t) => s.0 == t.0,
        },
    }
}

/// The body launches the job.
pub(crate) fn is_launch(job: u64, body: &Body) -> bool
    ensures { result ≡ is_launch_of job body.now }
{
    match body {
        Body::Launched(other, _, _) => job == u64::from(other.0),
        _ => false,
    }
}

/// The body has a command that reruns the job.
pub(crate) fn is_rerun(job: u64, body: &Body) -> bool
    ensures { result ≡ is_rerun_in job body.now }
{
    match body {
        Body::Obeyed(_, _, Cmd::Rerun(other)) => job == u64::from(other.0),
        _ => false,
    }
}

/// The body has a command that confirms the job.
pub(crate) fn is_confirm(job: u64, body: &Body) -> bool
    ensures { result ≡ is_confirm_in job body.now }
{
    match body {
        Body::Obeyed(_, _, Cmd::Confirm(other)) => job == u64::from(other.0),
        _ => false,
    }
}

/// The body tells the start of this launch.
pub(crate) fn is_start(job: u64, number: u32, body: &Body) -> bool
    ensures { result ≡ is_start_of job number body.now }
{
    match body {
        Body::Started(k, n) => job == u64::from(k.0) && number == *n,
        _ => false,
    }
}

/// The body answers an order of the issuer.
pub(crate) fn is_answer(a: u64, body: &Body) -> bool
    ensures { result ≡ answers_to a body.now }
{
    match body {
        Body::Obeyed(b, _, _) => a == u64::from(b.0),
        Body::Added(b, _, _) => a == u64::from(b.0),
        Body::Declined(b, _, _) => a == u64::from(b.0),
        _ => false,
    }
}

/// The body releases the stream.
pub(crate) fn is_release(s: u64, body: &Body) -> bool
    ensures { result ≡ is_release_of s body.now }
{
    match body {
        Body::Released(other, _) => s == u64::from(other.0),
        _ => false,
    }
}

/// The body ends the stream.
pub(crate) fn is_end(s: u64, body: &Body) -> bool
    ensures { result ≡ is_end_of s body.now }
{
    match body {
        Body::StreamEnded(other, _) => s == u64::from(other.0),
        _ => false,
    }
}

/// The limit that the body sets for the stream.
pub(crate) fn stream_limit_of(s: u64, body: &Body) -> Option<u16>
    ensures { result ≡ limit_said s body.now }
{
    match body {
        Body::Obeyed(_, _, Cmd::StreamLimit(other, limit)) => {
            if s == u64::from(other.0) {
                Some(*limit)
            } else {
                None
            }
        }
        _ => None,
    }
}
