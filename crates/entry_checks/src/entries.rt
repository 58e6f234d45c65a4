//! Commands, bodies and entries.
ghost use Rattle.std.specs.Prelude.{◌≡◌, ◌<◌, ◌+◌, ◌↔◌, IsNone};
ghost use Rattle.std.specs.Option.{IfSome};
ghost use Rattle.model.specs.Sizes as spec;
ghost use Rattle.entry_checks.specs.Left.{Takes};

use crate::documents::{stream_doc, stream_docs, stream_draft};
use crate::parts::{bytes, dep, feed, numbers, seen};
use base_types::{Body, Cmd, Entry, LONGEST_ENTRY, Seen, SharedDocs, StreamNos};

fn cmd(left: u32, c: &Cmd) -> Option<u32>
    ensures { Takes left (spec.cmd_size c.now) result }
{
    match c {
        Cmd::AddDep(_, d) => dep(bytes(left, 6)?, d),
        Cmd::DelDep(_, _) => bytes(left, 8),
        Cmd::Release(_) => bytes(left, 6),
        Cmd::AltPri(_, _) => bytes(left, 7),
        Cmd::Cancel(_) => bytes(left, 6),
        Cmd::Confirm(_) => bytes(left, 5),
        Cmd::Kill(_) => bytes(left, 5),
        Cmd::Rerun(_) => bytes(left, 5),
        Cmd::Fence(_) => bytes(left, 2),
        Cmd::Limit(_) => bytes(left, 3),
        Cmd::StreamLimit(_, _) => bytes(left, 7),
        Cmd::Total(_, _) => bytes(left, 5),
        Cmd::ReplyGlobal(_, _) => bytes(left, 4),
        Cmd::ReplyOwn(_, _, _) => bytes(left, 9),
        Cmd::Start => bytes(left, 1),
        Cmd::Stop => bytes(left, 1),
        Cmd::Submit(draft) => stream_draft(bytes(left, 1)?, draft),
        Cmd::SwitchMgr(_) => bytes(left, 3),
    }
}

/// Counts behind so many bytes.
fn seen_behind(left: u32, count: usize, counts: &Seen) -> Option<u32>
    ensures { Takes left (count + spec.seen_size counts.now) result }
{
    let rest = bytes(left, count)?;
    seen(rest, counts)
}

/// What stands before the documents of a plan.
fn plan_head(left: u32, cut: &Seen, carried: &StreamNos) -> Option<u32>
    ensures { Takes left (4 + spec.seen_size cut.now + spec.list_size (λ s. 4) carried.now) result }
{
    let rest = seen_behind(left, 4, cut)?;
    numbers(rest, carried)
}

/// A plan behind its run.
fn plan(left: u32, cut: &Seen, carried: &StreamNos, docs: &SharedDocs) -> Option<u32>
    ensures { Takes left (4 + spec.seen_size cut.now + spec.list_size (λ s. 4) carried.now
        + spec.list_size spec.stream_doc_size docs.now) result }
{
    let rest = plan_head(left, cut, carried)?;
    stream_docs(rest, docs.docs())
}

fn body(left: u32, b: &Body) -> Option<u32>
    ensures { Takes left (spec.body_size b.now) result }
{
    match b {
        Body::NewPlan(_, cut, carried, docs) => plan(left, cut, carried, docs),
        Body::Added(_, _, doc) => stream_doc(bytes(left, 6)?, doc),
        Body::Clock(_) => bytes(left, 8),
        Body::Released(_, counts) => seen_behind(left, 4, counts),
        Body::StreamEnded(_, counts) => seen_behind(left, 4, counts),
        Body::UntilPassed(_, _, _) => bytes(left, 8),
        Body::Launched(_, _, counts) => seen_behind(left, 8, counts),
        Body::Started(_, _) => bytes(left, 8),
        Body::Failed(_, _) => bytes(left, 8),
        Body::Ended(_, _, _, _) => bytes(left, 13),
        Body::Lost(_, _) => bytes(left, 8),
        Body::Fulfilled(_, _) => bytes(left, 7),
        Body::Obeyed(_, _, c) => cmd(bytes(left, 6)?, c),
        Body::Declined(_, _, _) => bytes(left, 7),
        Body::Order(c) => cmd(left, c),
        Body::Late(_, _) => bytes(left, 7),
    }
}

/// What is left of the most bytes.
#[tactic(auto, unfolding(model::specs::Sizes::entry_size))]
fn rest_of(e: &Entry) -> Option<u32>
    ensures { Takes 4194304 (spec.entry_size e.now) result }
{
    let rest = feed(bytes(LONGEST_ENTRY, 1)?, &e.feed)?;
    let rest = bytes(rest, 4)?;
    body(bytes(rest, 1)?, &e.body)
}

/// How many bytes an entry has when it is written. None exactly where these are more than 4,194,304. It takes no
/// memory.
pub fn entry_size(e: &Entry) -> Option<u32>
    ensures value { IfSome result (λ size. size ≡ spec.entry_size e.now) }
    ensures none { IsNone result ↔ (4194304 < spec.entry_size e.now) }
{
    match rest_of(e) {
        None => None,
        Some(rest) => Some(LONGEST_ENTRY - rest),
    }
}
