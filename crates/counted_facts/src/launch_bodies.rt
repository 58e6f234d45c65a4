//! Of which launch an entry speaks.
ghost use Rattle.std.specs.Prelude.{◌≡◌, ℕ};
ghost use Rattle.counted_facts.specs.Keys as spec;
ghost use Rattle.counted_facts.specs.Keys.{key_at};

use base_types::{Body, Entry, Feed};

/// The job that a body launches.
pub(crate) fn job_in(body: &Body) -> Option<u32>
    ensures { result ≡ spec.job_in body.now }
{
    match body {
        Body::Launched(j, _, _) => Some(j.0),
        _ => None,
    }
}

/// The launch that a body tells.
fn launch_in(body: &Body) -> Option<(u32, u32)>
    ensures { result ≡ spec.launch_in body.now }
{
    match body {
        Body::Launched(j, n, _) => Some((j.0, *n)),
        _ => None,
    }
}

/// The launch of which a body tells an end.
fn end_in(body: &Body) -> Option<(u32, u32)>
    ensures { result ≡ spec.end_in body.now }
{
    match body {
        Body::Failed(j, n) => Some((j.0, *n)),
        Body::Ended(j, n, _, _) => Some((j.0, *n)),
        Body::Lost(j, n) => Some((j.0, *n)),
        _ => None,
    }
}

/// A launch in the list of a feed's workstation. None in a feed of orders.
fn key_at(feed: &Feed, launch: Option<(u32, u32)>) -> Option<(u16, (u32, u32))>
    ensures { result ≡ key_at feed.now launch }
{
    match feed {
        Feed::Events(w) => match launch {
            None => None,
            Some(q) => Some((w.0, q)),
        },
        Feed::Orders(_, _) => None,
    }
}

/// The launch that an entry of events tells.
pub(crate) fn launch_key(e: &Entry) -> Option<(u16, (u32, u32))>
    ensures { result ≡ key_at e.now.feed (spec.launch_in e.now.body) }
{
    key_at(&e.feed, launch_in(&e.body))
}

/// The launch of which an entry of events tells an end.
pub(crate) fn end_key(e: &Entry) -> Option<(u16, (u32, u32))>
    ensures { result ≡ key_at e.now.feed (spec.end_in e.now.body) }
{
    key_at(&e.feed, end_in(&e.body))
}
