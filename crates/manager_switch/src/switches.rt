//! One switch of managers.
ghost use Rattle.std.specs.Prelude.{◌≡◌, ◌↔◌, ◌⊎◌, Err, IfOk, IsTrue, None, Ok, Some, false, map};
ghost use Rattle.std.specs.List.{enumerate_from};
ghost use Rattle.model.specs.Network as network;
ghost use Rattle.model.specs.Network.{is_manager};
ghost use Rattle.model.specs.PresentNet as spec;
ghost use Rattle.network_tree.specs.Faults.{net_fault};
ghost use Rattle.manager_switch.specs.declared.switches.SwitchFault.TheVariants.{NoMemory as NoRoom};

use base_types::{Copied, Net, NoMemory, Node, Nodes, Ws};
use network_tree::{NetFault, Network};
use std::alloc::Global;

/// Why a workstation does not take over from its manager.
#[derive(Clone, Copy, Debug)]
pub enum SwitchFault {
    /// It manages a domain already.
    IsManager,
    /// It is no manager, and its hop is the master.
    MasterDomain,
    /// Memory ran out.
    NoMemory,
}

impl From<NoMemory> for SwitchFault {
    ghost from_gives = { λ _ fault. fault ≡ NoRoom };

    fn from(_error: NoMemory) -> SwitchFault {
        SwitchFault::NoMemory
    }
}

/// Who takes over from whom, and the hop of the one that goes.
#[derive(Drop)]
struct Switch {
    to: Ws,
    from: Ws,
    up: Option<Ws>,
}

/// The hop of a workstation, none of the master or outside the net.
fn hop(net: &Net, w: Ws) -> Option<Ws>
    ensures { result ≡ network.hop net.now w }
{
    net.nodes.get(usize::from(w.0))?.hop
}

/// The workstation at a place once the switch has taken place: the new manager gets the hop of the former one and
/// manages, and the former one and all that hung on it hang on the new one.
fn node_after(node: &Node, place: usize, switch: &Switch) -> Result<Node, NoMemory>
    ensures { IfOk result (λ after.
        after ≡ spec.node_after switch.now.to switch.now.from switch.now.up place node.now) }
{
    let mut after = node.copy()?;
    if place == usize::from(switch.to.0) {
        after.hop = switch.up;
        after.manager = true;
    } else if place == usize::from(switch.from.0) {
        after.hop = Some(switch.to);
        after.manager = false;
    } else if node.hop == Some(switch.from) {
        after.hop = Some(switch.to);
    }
    Ok(after)
}

/// All workstations once the switch has taken place.
fn nodes_after(nodes: &Nodes, switch: &Switch) -> Result<Nodes, NoMemory>
    ensures { IfOk result (λ after. after
        ≡ map (λ p. spec.node_after switch.now.to switch.now.from switch.now.up p.0 p.1)
        (enumerate_from 0 nodes.now)) }
{
    let mut after = nodes.empty();
    for node in nodes.as_slice() {
        let place = after.len();
        after.push(node_after(node, place, switch)?)?;
    }
    Ok(after)
}

/// The net once w has taken over from a manager.
fn net_after(net: &Net, w: Ws, from: Ws) -> Result<Net, NoMemory>
    ensures { IfOk result (λ after. after ≡ spec.net_after net.now w from) }
{
    let switch = Switch {
        to: w,
        from,
        up: hop(net, from),
    };
    let nodes = nodes_after(&net.nodes, &switch)?;
    let resources = net.resources.copy()?;
    let prompts = net.prompts.copy()?;
    Ok(Net {
        nodes,
        resources,
        prompts,
        carry: net.carry,
    })
}

/// A net that a switch made, with its table of ways. It is refused for want of memory alone.
fn tested(alloc: Global, net: Net) -> Result<Network, NoMemory>
    requires { net_fault net ≡ None }
    ensures { IfOk result (λ network. network ≡ net) }
{
    match Network::new(alloc, net) {
        Ok(network) => Ok(network),
        Err(NetFault::NoMemory) => Err(NoMemory),
        Err(_) => unreachable!(),
    }
}

/// The network once w has taken over from its hop: w gets the hop of that one and manages its domain, and that one and
/// every other workstation that hung on it hang on w. All else stays. Of a workstation outside the network, a copy.
///
/// `IsManager` exactly where w manages a domain, else `MasterDomain` exactly where its hop is the master; both are told
/// without memory. `NoMemory` comes in place of a network alone. The network that was handed in stays as it was.
#[tactic(auto, unfolding(model::specs::PresentNet::switched, model::specs::PresentNet::taken_over), using(crate::proofs::Accepted::after_is_accepted))]
pub fn switched(alloc: Global, net: &Network, w: Ws) -> Result<Network, SwitchFault>
    ensures value { IfOk result (λ after. after ≡ spec.switched net.now w) }
    ensures manager { (result ≡ Err SwitchFault.IsManager) ↔ IsTrue (is_manager net.now w) }
    ensures domain { (result ≡ Err SwitchFault.MasterDomain)
        ↔ ((is_manager net.now w ≡ false) × (network.hop net.now w ≡ Some 0)) }
{
    let defined = net.net();
    let Some(node) = defined.nodes.get(usize::from(w.0)) else {
        return Ok(net.copy()?);
    };
    if node.manager {
        return Err(SwitchFault::IsManager);
    }
    let Some(from) = node.hop else {
        return Ok(net.copy()?);
    };
    if from.0 == 0 {
        return Err(SwitchFault::MasterDomain);
    }
    let after = net_after(defined, w, from)?;
    Ok(tested(alloc, after)?)
}
