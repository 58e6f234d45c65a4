//! Whom an entry speaks of.
ghost use Rattle.std.specs.Prelude.{◌≡◌, option_map};
ghost use Rattle.std.specs.Option.{option_copied};
ghost use Rattle.owner_rows.specs.Subjects as spec;
ghost use Rattle.owner_rows.specs.Subjects.{dep_in, dep_number_in, is_of_station, is_plan, issuer_in, job_in, key_in};
ghost use Rattle.owner_rows.specs.Subjects.{object_in, object_number_in, plan_in, prompt_in, resource_in, start_in, station_in, stream_in};

use base_types::{Body, Cmd, Entry, Feed, Obj};

/// The job whose launches, reruns or confirms the body changes.
pub(crate) fn job_in(body: &Body) -> Option<u64>
    ensures { result ≡ job_in body.now }
{
    match body {
        Body::Launched(j, _, _) => Some(u64::from(j.0)),
        Body::Started(j, _) => Some(u64::from(j.0)),
        Body::Failed(j, _) => Some(u64::from(j.0)),
        Body::Ended(j, _, _, _) => Some(u64::from(j.0)),
        Body::Lost(j, _) => Some(u64::from(j.0)),
        Body::Obeyed(_, _, Cmd::Rerun(j)) => Some(u64::from(j.0)),
        Body::Obeyed(_, _, Cmd::Confirm(j)) => Some(u64::from(j.0)),
        _ => None,
    }
}

/// The workstation and the job.
pub(crate) fn job_key(e: &Entry) -> Option<(u16, u64)>
    ensures { result ≡ key_in job_in e.now }
{
    match &e.feed {
        Feed::Orders(_, _) => None,
        Feed::Events(w) => match job_in(&e.body) {
            None => None,
            Some(j) => Some((w.0, j)),
        },
    }
}

/// The body or its command changes what is told of the workstation itself.
fn is_of_station(body: &Body) -> bool
    ensures { result ≡ is_of_station body.now }
{
    match body {
        Body::Clock(_) => true,
        Body::Obeyed(_, _, Cmd::Fence(_)) => true,
        Body::Obeyed(_, _, Cmd::Limit(_)) => true,
        Body::Obeyed(_, _, Cmd::Start) => true,
        Body::Obeyed(_, _, Cmd::Stop) => true,
        Body::NewPlan(_, _, _, _) => true,
        _ => false,
    }
}

/// The workstation, where the entry changes what is told of itself.
pub(crate) fn station_key(e: &Entry) -> Option<(u16, u64)>
    ensures { result ≡ key_in station_in e.now }
{
    match &e.feed {
        Feed::Orders(_, _) => None,
        Feed::Events(w) => {
            if is_of_station(&e.body) {
                Some((w.0, 0))
            } else {
                None
            }
        }
    }
}

/// The issuer whose order the body answers.
fn issuer_in(body: &Body) -> Option<u16>
    ensures { result ≡ issuer_in body.now }
{
    match body {
        Body::Obeyed(a, _, _) => Some(a.0),
        Body::Added(a, _, _) => Some(a.0),
        Body::Declined(a, _, _) => Some(a.0),
        _ => None,
    }
}

/// The workstation that answers an order, and the issuer.
pub(crate) fn issuer_key(e: &Entry) -> Option<(u16, u64)>
    ensures { result ≡ key_in issuer_in e.now }
{
    match &e.feed {
        Feed::Orders(_, _) => None,
        Feed::Events(w) => match issuer_in(&e.body) {
            None => None,
            Some(a) => Some((w.0, u64::from(a))),
        },
    }
}

/// The stream that the body releases or ends, or whose limit it sets.
fn stream_in(body: &Body) -> Option<u64>
    ensures { result ≡ stream_in body.now }
{
    match body {
        Body::Released(s, _) => Some(u64::from(s.0)),
        Body::StreamEnded(s, _) => Some(u64::from(s.0)),
        Body::Obeyed(_, _, Cmd::StreamLimit(s, _)) => Some(u64::from(s.0)),
        _ => None,
    }
}

/// The workstation and the stream.
pub(crate) fn stream_key(e: &Entry) -> Option<(u16, u64)>
    ensures { result ≡ key_in stream_in e.now }
{
    match &e.feed {
        Feed::Orders(_, _) => None,
        Feed::Events(w) => match stream_in(&e.body) {
            None => None,
            Some(s) => Some((w.0, s)),
        },
    }
}

/// The object that the body cancels, tells to be late or releases from its dependencies, or whose priority or
/// dependencies it changes.
pub(crate) fn object_in(body: &Body) -> Option<&Obj>
    ensures { option_copied result ≡ object_in body.now }
{
    match body {
        Body::UntilPassed(o, _, _) => Some(o),
        Body::Late(o, _) => Some(o),
        Body::Obeyed(_, _, Cmd::Cancel(o)) => Some(o),
        Body::Obeyed(_, _, Cmd::Release(o)) => Some(o),
        Body::Obeyed(_, _, Cmd::AltPri(o, _)) => Some(o),
        Body::Obeyed(_, _, Cmd::AddDep(o, _)) => Some(o),
        _ => None,
    }
}

/// The number of an object in the tables: jobs and streams have numbers of their own.
pub(crate) fn object_number(o: &Obj) -> u64
    ensures { result ≡ spec.object_number o.now }
{
    match o {
        Obj::Job(j) => u64::from(j.0) * 2,
        Obj::Stream(s) => u64::from(s.0) * 2 + 1,
    }
}

/// The workstation and the object.
pub(crate) fn object_key(e: &Entry) -> Option<(u16, u64)>
    ensures { result ≡ key_in object_number_in e.now }
{
    match &e.feed {
        Feed::Orders(_, _) => None,
        Feed::Events(w) => match object_in(&e.body) {
            None => None,
            Some(o) => Some((w.0, object_number(o))),
        },
    }
}

/// The dependency that the body deletes, or of which it tells a reply, a file or a time.
pub(crate) fn dep_in(body: &Body) -> Option<(&Obj, u16)>
    ensures { option_map (λ p. (p.0.now, p.1)) result ≡ dep_in body.now }
{
    match body {
        Body::UntilPassed(o, i, _) => Some((o, *i)),
        Body::Late(o, i) => Some((o, *i)),
        Body::Fulfilled(o, i) => Some((o, *i)),
        Body::Obeyed(_, _, Cmd::ReplyOwn(o, i, _)) => Some((o, *i)),
        Body::Obeyed(_, _, Cmd::DelDep(o, i)) => Some((o, *i)),
        _ => None,
    }
}

/// The workstation and the dependency.
pub(crate) fn dep_key(e: &Entry) -> Option<(u16, (u64, u32))>
    ensures { result ≡ key_in dep_number_in e.now }
{
    match &e.feed {
        Feed::Orders(_, _) => None,
        Feed::Events(w) => match dep_in(&e.body) {
            None => None,
            Some((o, i)) => Some((w.0, (object_number(o), u32::from(i)))),
        },
    }
}

/// The launch of which the body tells the start.
fn start_in(body: &Body) -> Option<(u64, u32)>
    ensures { result ≡ start_in body.now }
{
    match body {
        Body::Started(j, n) => Some((u64::from(j.0), *n)),
        _ => None,
    }
}

/// The workstation and the launch of which the entry tells the start.
pub(crate) fn start_key(e: &Entry) -> Option<(u16, (u64, u32))>
    ensures { result ≡ key_in start_in e.now }
{
    match &e.feed {
        Feed::Orders(_, _) => None,
        Feed::Events(w) => match start_in(&e.body) {
            None => None,
            Some(launch) => Some((w.0, launch)),
        },
    }
}

/// The resource whose total the body sets.
fn resource_in(body: &Body) -> Option<u16>
    ensures { result ≡ resource_in body.now }
{
    match body {
        Body::Obeyed(_, _, Cmd::Total(r, _)) => Some(*r),
        _ => None,
    }
}

/// The workstation and the resource.
pub(crate) fn resource_key(e: &Entry) -> Option<(u16, u64)>
    ensures { result ≡ key_in resource_in e.now }
{
    match &e.feed {
        Feed::Orders(_, _) => None,
        Feed::Events(w) => match resource_in(&e.body) {
            None => None,
            Some(r) => Some((w.0, u64::from(r))),
        },
    }
}

/// The body is a plan.
fn is_plan(body: &Body) -> bool
    ensures { result ≡ is_plan body.now }
{
    match body {
        Body::NewPlan(_, _, _, _) => true,
        _ => false,
    }
}

/// The workstation whose plans are one more by the entry.
pub(crate) fn plan_key(e: &Entry) -> Option<(u16, u64)>
    ensures { result ≡ key_in plan_in e.now }
{
    match &e.feed {
        Feed::Orders(_, _) => None,
        Feed::Events(w) => {
            if is_plan(&e.body) {
                Some((w.0, 0))
            } else {
                None
            }
        }
    }
}

/// The prompt of the network to which the body has the reply.
fn prompt_in(body: &Body) -> Option<u16>
    ensures { result ≡ prompt_in body.now }
{
    match body {
        Body::Obeyed(_, _, Cmd::ReplyGlobal(p, _)) => Some(*p),
        _ => None,
    }
}

/// The workstation and the prompt.
pub(crate) fn prompt_key(e: &Entry) -> Option<(u16, u64)>
    ensures { result ≡ key_in prompt_in e.now }
{
    match &e.feed {
        Feed::Orders(_, _) => None,
        Feed::Events(w) => match prompt_in(&e.body) {
            None => None,
            Some(p) => Some((w.0, u64::from(p))),
        },
    }
}
