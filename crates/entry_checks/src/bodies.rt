//! Entries, their feeds and their bodies.
ghost use Rattle.std.specs.Prelude.{◌≡◌, ◌++◌, ◌∷◌, flat_map, map};
ghost use Rattle.model.specs.Types.{JobDoc as Doc};
ghost use Rattle.model.specs.Workstations as spec;
ghost use Rattle.entry_checks.specs.Inside.{are_inside};

use crate::drafts::is_cmd_inside;
use base_types::{Body, Entry, Feed, Jobs, Seen, SharedDocs, StreamDoc, Ws};

fn is_feed_inside(count: u16, feed: &Feed) -> bool
    ensures { result ≡ are_inside count (spec.ws_in_feed feed.now) }
{
    match feed {
        Feed::Events(w) => w.0 < count,
        Feed::Orders(a, w) => a.0 < count && w.0 < count,
    }
}

fn are_counts_inside(count: u16, seen: &Seen) -> bool
    ensures { result ≡ are_inside count (spec.ws_in_seen seen.now) }
{
    for item in seen.as_slice() {
        if item.0.0 >= count {
            return false;
        }
    }
    true
}

fn are_jobs_inside(count: u16, jobs: &Jobs) -> bool
    ensures { result ≡ are_inside count (map (λ (j : Doc). j.ws) jobs.now) }
{
    for item in jobs.as_slice() {
        if item.ws.0 >= count {
            return false;
        }
    }
    true
}

fn is_doc_inside(count: u16, doc: &StreamDoc) -> bool
    ensures { result ≡ are_inside count (spec.ws_in_doc doc.now) }
{
    doc.ws.0 < count && are_jobs_inside(count, &doc.jobs)
}

fn are_docs_inside(count: u16, docs: &SharedDocs) -> bool
    ensures { result ≡ are_inside count (flat_map spec.ws_in_doc docs.now) }
{
    for item in docs.as_slice() {
        if !is_doc_inside(count, item) {
            return false;
        }
    }
    true
}

fn is_plan_inside(count: u16, cut: &Seen, docs: &SharedDocs) -> bool
    ensures { result ≡ are_inside count (spec.ws_in_seen cut.now ++ flat_map spec.ws_in_doc docs.now) }
{
    are_counts_inside(count, cut) && are_docs_inside(count, docs)
}

fn is_addition_inside(count: u16, a: &Ws, doc: &StreamDoc) -> bool
    ensures { result ≡ are_inside count (a.now ∷ spec.ws_in_doc doc.now) }
{
    a.0 < count && is_doc_inside(count, doc)
}

fn is_body_inside(count: u16, body: &Body) -> bool
    ensures { result ≡ are_inside count (spec.ws_in_body body.now) }
{
    match body {
        Body::NewPlan(_, cut, _, docs) => is_plan_inside(count, cut, docs),
        Body::Added(a, _, doc) => is_addition_inside(count, a, doc),
        Body::Released(_, seen) => are_counts_inside(count, seen),
        Body::StreamEnded(_, seen) => are_counts_inside(count, seen),
        Body::Launched(_, _, seen) => are_counts_inside(count, seen),
        Body::Obeyed(a, _, command) => a.0 < count && is_cmd_inside(count, command),
        Body::Declined(a, _, _) => a.0 < count,
        Body::Order(command) => is_cmd_inside(count, command),
        Body::Clock(_) | Body::UntilPassed(_, _, _) | Body::Late(_, _) => true,
        Body::Started(_, _) | Body::Failed(_, _) | Body::Ended(_, _, _, _) => true,
        Body::Lost(_, _) | Body::Fulfilled(_, _) => true,
    }
}

/// Whether an entry names workstations of a network of so many alone, by its feed and in its body.
pub fn is_entry_inside(count: u16, e: &Entry) -> bool
    ensures { result ≡ are_inside count (spec.ws_in_feed e.now.feed ++ spec.ws_in_body e.now.body) }
{
    is_feed_inside(count, &e.feed) && is_body_inside(count, &e.body)
}
