//! Whether an entry is right after those before it.
ghost use Rattle.std.specs.Prelude.{◌≡◌, IfOk};
ghost use Rattle.std.specs.Bool.{Decides};
ghost use Rattle.model.specs.Sound.{HasItsPlace};
ghost use Rattle.counted_facts.specs.Told.{AreCountedFacts};
ghost use Rattle.counted_facts.specs.Launches.{AreTold};
ghost use Rattle.event_audit.specs.Items.{IsRightEntry, MeetsItsFeed, MeetsItsKind, is_new_plan};

use crate::additions::is_right_addition;
use crate::answers::{is_next_answer, repeats_its_order};
use crate::decisions::{is_right_end, is_right_launch, is_right_release};
use crate::lates::is_right_late;
use crate::launches::{is_open_launch, is_right_ending, is_right_started};
use crate::plans::is_right_plan;
use crate::times::{is_later, is_right_until};
use base_types::{Body, Entry, Feed, NoMemory, Ws};
use counted_facts::{CountedFacts, ToldLaunches};
use network_tree::Network;
use owner_fold::Owners;
use std::alloc::Global;

/// Whether an entry is right after those that were taken.
pub(crate) fn is_right_entry(
    alloc: Global,
    net: &Network,
    owners: &Owners,
    facts: &CountedFacts,
    launches: &ToldLaunches,
    entry: &Entry,
) -> Result<bool, NoMemory>
    requires counted { AreCountedFacts owners.now facts.now }
    requires told { AreTold owners.now launches.now }
    ensures { IfOk result (λ right. Decides right (IsRightEntry net.now owners.now entry.now)) }
{
    if !has_its_place(owners, entry) {
        return Ok(false);
    }
    meets_its_feed(alloc, net, owners, facts, launches, entry)
}

/// Whether an entry has the next place of its feed.
fn has_its_place(owners: &Owners, entry: &Entry) -> bool
    ensures { Decides result (HasItsPlace owners.now entry.now) }
{
    entry.place > 0 && owners.count(entry.feed) == entry.place - 1
}

/// Whether an entry is right but for its place. In a feed of orders all but a plan are.
fn meets_its_feed(
    alloc: Global,
    net: &Network,
    owners: &Owners,
    facts: &CountedFacts,
    launches: &ToldLaunches,
    entry: &Entry,
) -> Result<bool, NoMemory>
    requires counted { AreCountedFacts owners.now facts.now }
    requires told { AreTold owners.now launches.now }
    ensures { IfOk result (λ right. Decides right (MeetsItsFeed net.now owners.now entry.now.feed entry.now.body)) }
{
    match entry.feed {
        Feed::Events(w) => meets_its_kind(alloc, net, owners, facts, launches, w, &entry.body),
        Feed::Orders(_, _) => Ok(!is_plan(&entry.body)),
    }
}

/// Whether a body is a plan.
fn is_plan(body: &Body) -> bool
    ensures { result ≡ is_new_plan body.now }
{
    match body {
        Body::NewPlan(_, _, _, _) => true,
        _ => false,
    }
}

/// Whether a body is right in w's list, by its kind.
fn meets_its_kind(
    alloc: Global,
    net: &Network,
    owners: &Owners,
    facts: &CountedFacts,
    launches: &ToldLaunches,
    w: Ws,
    body: &Body,
) -> Result<bool, NoMemory>
    requires counted { AreCountedFacts owners.now facts.now }
    requires told { AreTold owners.now launches.now }
    ensures { IfOk result (λ right. Decides right (MeetsItsKind net.now owners.now w body.now)) }
{
    match body {
        Body::NewPlan(run, cut, carried, docs) => {
            Ok(is_right_plan(net, owners, facts, w, *run, cut, carried, docs))
        }
        Body::Added(a, k, doc) => Ok(is_right_addition(owners, w, *a, *k, doc)),
        Body::Clock(t) => Ok(is_later(owners, w, *t)),
        Body::Released(s, seen) => is_right_release(alloc, net, owners, facts, w, *s, seen),
        Body::StreamEnded(s, seen) => is_right_end(alloc, owners, facts, w, *s, seen),
        Body::UntilPassed(o, i, mark) => Ok(is_right_until(owners, w, o, *i, mark)),
        Body::Launched(j, n, seen) => is_right_launch(
            alloc, net, owners, facts, launches, w, *j, *n, seen,
        ),
        Body::Started(j, n) => Ok(is_right_started(owners, launches, w, *j, *n)),
        Body::Failed(j, n) => Ok(is_open_launch(launches, w, *j, *n)),
        Body::Ended(j, n, rc, good) => Ok(is_right_ending(owners, launches, w, *j, *n, rc, *good)),
        Body::Lost(j, n) => Ok(is_open_launch(launches, w, *j, *n)),
        Body::Fulfilled(_, _) => Ok(true),
        Body::Obeyed(a, k, command) => Ok(repeats_its_order(owners, w, *a, *k, command)),
        Body::Declined(a, k, _) => Ok(is_next_answer(owners, w, *a, *k)),
        Body::Order(_) => Ok(true),
        Body::Late(o, i) => Ok(is_right_late(owners, w, o, *i)),
    }
}
