//! Workstations among whose feeds of events are all that go to a neighbour, found once.
ghost use Rattle.std.specs.Prelude.{◌≡◌, ◌<◌, ◌++◌, ◌∷◌, [], ℕ, IfOk, IfSome, List, false, true};
ghost use Rattle.model.specs.Types.{Entry as Taken, Net};
ghost use Rattle.model.specs.Network.{node_count};
ghost use Rattle.model.specs.History.{view_of};
ghost use Rattle.mailman_core.specs.Listed.{AreListed, IsListed};

use base_types::{Entry, Items, NoMemory, Ws};
use mailman_routes::{are_plainly_unwanted, keeps_ways};
use network_tree::Network;
use owner_fold::Owners;
use std::alloc::Global;

/// By the number of a neighbour, the workstations among whose feeds of events are all that go to it. None for one that
/// is no neighbour.
pub type ListedFeeds = Items<Option<Items<Ws>>>;

/// The workstations, ascending, but for those of which a few look-ups tell that their events do not go to `to`.
fn listed_for(
    alloc: Global,
    net: &Network,
    o: &Owners,
    me: Ws,
    to: Ws,
) -> Result<Items<Ws>, NoMemory>
    requires from { me < node_count net.now }
    requires to { to < node_count net.now }
    ensures { IfOk result (IsListed net.now (view_of o.now) me to) }
{
    let mut listed = Items::new(alloc);
    for w in 0..net.count() {
        if are_plainly_unwanted(net, o, me, to, Ws(w)) {
            continue;
        }
        listed.push(Ws(w))?;
    }
    Ok(listed)
}

/// The row of a workstation.
fn row_for(
    alloc: Global,
    net: &Network,
    o: &Owners,
    me: Ws,
    to: Ws,
) -> Result<Option<Items<Ws>>, NoMemory>
    requires from { me < node_count net.now }
    requires to { to < node_count net.now }
    ensures { IfOk result (λ row. IfSome row (IsListed net.now (view_of o.now) me to)) }
{
    if !net.neighbours(me, to) {
        return Ok(None);
    }
    let listed = listed_for(alloc, net, o, me, to)?;
    Ok(Some(listed))
}

/// The rows of all neighbours. `NoMemory` where memory runs out.
pub fn listed_feeds(
    alloc: Global,
    net: &Network,
    o: &Owners,
    me: Ws,
) -> Result<ListedFeeds, NoMemory>
    requires { me < node_count net.now }
    ensures { IfOk result (AreListed net.now (view_of o.now) me) }
{
    let mut rows = Items::new(alloc);
    for to in 0..net.count() {
        let row = row_for(alloc, net, o, me, Ws(to))?;
        rows.push(row)?;
    }
    Ok(rows)
}

/// Forgets the feeds that were listed, where the network is another one, or an entry that was taken may change whom feeds
/// go to.
pub fn forget_feeds(listed: &mut ListedFeeds, switched: bool, e: &Entry)
    ensures stay { switched ≡ false → (net : Net) (kept : List Taken) (me : ℕ)
        → AreListed net (view_of kept) me listed.old → AreListed net (view_of (kept ++ e.now ∷ [])) me listed.new }
    ensures gone { switched ≡ true → listed.new ≡ [] }
{
    if switched {
        *listed = listed.empty();
        return;
    }
    if keeps_ways(e) {
        return;
    }
    *listed = listed.empty();
}
