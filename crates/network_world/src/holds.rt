//! How many entries of each feed a node holds.
ghost use Rattle.std.specs.Prelude.{◌≡◌, ◌++◌, ◌∷◌, [], IfOk, OnOk, flat_map, length, map, true};
ghost use Rattle.model.specs.Types.{Events, Orders};
ghost use Rattle.model.specs.Words.{below};
ghost use Rattle.model.specs.Network.{node_count};
ghost use Rattle.model.specs.History.{list_of};
ghost use Rattle.model.specs.Forwarding.{feeds};
ghost use Rattle.network_world.specs.Parts.{held_by};

use agent_core::Agent;
use base_types::{Feed, FeedCount, FeedCounts, Items, NoMemory, Ws};
use std::alloc::Global;

/// How many events of a workstation a node holds.
fn events_of(node: &Agent, w: Ws) -> u32
    ensures { result ≡ length (list_of node.now.kept (Events w)) }
{
    let feed = Feed::Events(w);
    node.holds(feed)
}

/// Whether two nodes hold as many events of a workstation.
pub(crate) fn hold_equally(one: &Agent, other: &Agent, w: Ws) -> bool
    ensures { result ≡ true
        → length (list_of one.now.kept (Events w)) ≡ length (list_of other.now.kept (Events w)) }
{
    let first = events_of(one, w);
    let second = events_of(other, w);
    first == second
}

/// Adds how many entries of a feed a node holds, where there are any.
fn add_feed(counts: &mut FeedCounts, node: &Agent, feed: &Feed) -> Result<(), NoMemory>
    ensures { OnOk result (counts.new ≡ counts.old ++ held_by node.now (feed.now ∷ [])) }
{
    let count = node.holds(*feed);
    if count == 0 {
        return Ok(());
    }
    counts.push(FeedCount { feed: *feed, count })
}

/// Adds those of the events of each workstation.
fn add_events(counts: &mut FeedCounts, node: &Agent) -> Result<(), NoMemory>
    ensures { OnOk result (counts.new
        ≡ counts.old ++ held_by node.now (map Events (below (node_count node.now.net)))) }
{
    for w in 0..node.defined().count() {
        let feed = Feed::Events(Ws(w));
        add_feed(counts, node, &feed)?;
    }
    Ok(())
}

/// Adds those of the orders that were typed at a, for each workstation.
fn add_orders_at(counts: &mut FeedCounts, node: &Agent, a: Ws) -> Result<(), NoMemory>
    ensures { OnOk result (counts.new
        ≡ counts.old ++ held_by node.now (map (Orders a) (below (node_count node.now.net)))) }
{
    if !node.owners().has_issued(a) {
        return Ok(());
    }
    for w in 0..node.defined().count() {
        let feed = Feed::Orders(a, Ws(w));
        add_feed(counts, node, &feed)?;
    }
    Ok(())
}

/// Adds those of the orders that were typed at each workstation, for each.
fn add_orders(counts: &mut FeedCounts, node: &Agent) -> Result<(), NoMemory>
    ensures { OnOk result (counts.new ≡ counts.old ++ held_by node.now
        (flat_map (λ a. map (Orders a) (below (node_count node.now.net))) (below (node_count node.now.net)))) }
{
    for a in 0..node.defined().count() {
        add_orders_at(counts, node, Ws(a))?;
    }
    Ok(())
}

/// How many entries of each feed a node holds, where there are any: events before orders, in ascending order.
#[tactic(auto, unfolding(model::specs::Forwarding::feeds))]
pub(crate) fn held(alloc: Global, node: &Agent) -> Result<FeedCounts, NoMemory>
    ensures { IfOk result (λ counts. counts ≡ held_by node.now (feeds node.now.net)) }
{
    let mut counts = Items::new(alloc);
    add_events(&mut counts, node)?;
    add_orders(&mut counts, node)?;
    Ok(counts)
}
