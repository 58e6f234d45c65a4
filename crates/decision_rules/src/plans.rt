//! What a new plan takes over: whether it carries a stream, and the counts of events at which it cuts.
ghost use Rattle.std.specs.Prelude.{◌≡◌, IfOk};
ghost use Rattle.model.specs.Words.{below};
ghost use Rattle.model.specs.Network.{node_count};
ghost use Rattle.model.specs.History.{view_of};
ghost use Rattle.model.specs.NewPlan as spec;
ghost use Rattle.model.specs.NewPlan.{seen_of};

use base_types::{Carry, Feed, Net, NoMemory, Obj, Seen, StreamDoc, StreamNo, Ws};
use network_tree::Network;
use owner_fold::Owners;
use std::alloc::Global;

/// Whether the option takes an unfinished stream: a marked one, none, or any.
fn takes(option: Carry, doc: &StreamDoc) -> bool
    ensures { result ≡ spec.takes option doc.now }
{
    match option {
        Carry::Yes => doc.carry,
        Carry::No => false,
        Carry::All => true,
    }
}

/// Whether the network's option takes a stream that is neither cancelled nor ended. False outside the catalogue.
#[tactic(auto, unfolding(model::specs::NewPlan::is_carried, model::specs::Catalogue::owner))]
pub fn is_carried(net: &Net, o: &Owners, s: StreamNo) -> bool
    ensures { result ≡ spec.is_carried net.now (view_of o.now) s }
{
    match o.stream(s) {
        None => false,
        Some(doc) => {
            if !takes(net.carry, doc) {
                return false;
            }
            if o.is_cancelled(Obj::Stream(s)) {
                return false;
            }
            !o.is_ended(s)
        }
    }
}

/// How many events of each workstation were taken, those without events left out.
#[tactic(auto, using(crate::proofs::Cuts::seen_more), unfolding(model::specs::NewPlan::seen_of))]
pub fn cut(alloc: Global, net: &Network, o: &Owners) -> Result<Seen, NoMemory>
    ensures { IfOk result (λ seen. seen ≡ seen_of (view_of o.now) (below (node_count net.now))) }
{
    let mut seen = Seen::new(alloc);
    for w in 0..net.count() {
        let count = o.count(Feed::Events(Ws(w)));
        if count > 0 {
            seen.push((Ws(w), count))?;
        }
    }
    Ok(seen)
}
