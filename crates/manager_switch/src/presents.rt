//! The network as it stands for a node.
ghost use Rattle.std.specs.Option.{option_to_list};
ghost use Rattle.std.specs.Prelude.{◌≡◌, ◌∷◌, [], IfOk, None, Some, fold, unwrap_or};
ghost use Rattle.model.specs.Types.{Events, Net as Defined};
ghost use Rattle.model.specs.History.{View, list_of, view_of, view_with};
ghost use Rattle.model.specs.PresentNet as spec;
ghost use Rattle.manager_switch.specs.Switches.{switches_in};

use crate::switches::{SwitchFault, switched};
use base_types::{Body, Cmd, Copied, Entry, Feed, NoMemory, Ws};
use network_tree::Network;
use std::alloc::Global;

/// The network after a switch, where that makes another one. None where it is refused and all stays.
#[tactic(auto, unfolding(model::specs::PresentNet::switched, model::specs::PresentNet::taken_over))]
fn after_switch(alloc: Global, net: &Network, w: Ws) -> Result<Option<Network>, NoMemory>
    ensures { IfOk result (λ after. unwrap_or after net.now ≡ spec.switched net.now w) }
{
    match switched(alloc, net, w) {
        Ok(after) => Ok(Some(after)),
        Err(SwitchFault::NoMemory) => Err(NoMemory),
        Err(SwitchFault::IsManager) => Ok(None),
        Err(SwitchFault::MasterDomain) => Ok(None),
    }
}

/// The workstation that takes over by an entry: an event of the master that obeyed a switch.
#[tactic(auto, unfolding(model::specs::Facts::commands, model::specs::History::list_of))]
fn switch_in(e: &Entry) -> Option<Ws>
    ensures { option_to_list result ≡ switches_in (list_of (e.now ∷ []) (Events 0)) }
{
    match &e.feed {
        Feed::Orders(_, _) => None,
        Feed::Events(w) => {
            if w.0 != 0 {
                return None;
            }
            match &e.body {
                Body::Obeyed(_, _, Cmd::SwitchMgr(to)) => Some(*to),
                _ => None,
            }
        }
    }
}

/// The network after the switch that an entry obeys, where that makes another one. None where there is none, or where
/// it is refused, and all stays.
fn after_entry(alloc: Global, net: &Network, e: &Entry) -> Result<Option<Network>, NoMemory>
    ensures after { IfOk result (λ after. unwrap_or after net.now
        ≡ fold spec.switched net.now (switches_in (list_of (e.now ∷ []) (Events 0)))) }
    ensures none { IfOk result (λ after. switches_in (list_of (e.now ∷ []) (Events 0)) ≡ [] → after ≡ None) }
{
    match switch_in(e) {
        None => Ok(None),
        Some(w) => after_switch(alloc, net, w),
    }
}

/// The network after an entry, whether it switches or not.
fn next_network(alloc: Global, net: Network, e: &Entry) -> Result<Network, NoMemory>
    ensures { IfOk result (λ after. after ≡ fold spec.switched net (switches_in (list_of (e.now ∷ []) (Events 0)))) }
{
    match after_entry(alloc, &net, e)? {
        None => Ok(net),
        Some(after) => Ok(after),
    }
}

/// The network that was defined, as the holder of these entries sees it: after the switches that the events of the
/// master obeyed, in order. One that `switched` refuses in the network that was reached, or whose workstation is
/// outside it, changes nothing. An order that no event obeyed yet changes nothing either.
#[tactic(auto, unfolding(model::specs::PresentNet::net_by))]
pub fn present_net(alloc: Global, net: &Network, kept: &[Entry]) -> Result<Network, NoMemory>
    ensures { IfOk result (λ present. present ≡ spec.present_net net.now (view_of kept.now)) }
{
    let mut present = net.copy()?;
    for entry in kept {
        present = next_network(alloc, present, entry)?;
    }
    Ok(present)
}

/// The present network after one entry more, from the one that is present before it. None where the entry obeys no
/// switch, or one that is refused, and so all stays. A node that keeps its present network can have the next one before
/// it keeps the entry.
pub fn present_after(
    alloc: Global,
    present: &Network,
    e: &Entry,
) -> Result<Option<Network>, NoMemory>
    ensures after { IfOk result (λ after. (net : Defined) (V : View) → present.now ≡ spec.present_net net V
        → unwrap_or after present.now ≡ spec.present_net net (view_with V (Some e.now))) }
    ensures none { IfOk result (λ after. switches_in (list_of (e.now ∷ []) (Events 0)) ≡ [] → after ≡ None) }
{
    after_entry(alloc, present, e)
}
