//! Why a net is refused.
ghost use Rattle.std.specs.Prelude.{◌≡◌, ◌≢◌, ◌<◌, ◌^◌, ◌⊎◌, length, IfErr, OnOk, Some, None};
ghost use Rattle.std.specs.List.{list_any};
ghost use Rattle.std.specs.Str.{bytes_eq};
ghost use Rattle.network_tree.specs.declared.faults.NetFault.TheVariants.{NoMemory as NoRoom};
ghost use Rattle.network_tree.specs.Faults as spec;
ghost use Rattle.network_tree.specs.Faults.{first_ws, misses_the_master, net_fault, repeats_a_name};

use crate::hops::{ends_at_master, hop, is_manager};
use crate::ranges::is_out_of_range;
use base_types::{Net, NoMemory, Node, Text, Ws};
use std::alloc::Global;

/// Why a net is refused, in the order in which the causes are tested.
#[derive(Clone, Copy, Debug)]
pub enum NetFault {
    /// There is no workstation.
    Empty,
    /// There are more than 256 workstations.
    TooMany,
    /// The first workstation whose name stands before.
    Duplicate(Ws),
    /// The first workstation other than the master that has no hop, or a hop that is no manager or is outside the net;
    /// or the master, where it has a hop or is no manager.
    BadHop(Ws),
    /// The first workstation whose chain of hops does not end at the master.
    Tree(Ws),
    /// There are more than 65,535 resources or prompts, a resource is of a workstation outside the net or has a total
    /// above 1,024, or a resource of one workstation or a prompt is named twice.
    OutOfRange,
    /// Memory ran out.
    NoMemory,
}

impl From<NoMemory> for NetFault {
    ghost from_gives = { λ _ fault. fault ≡ NoRoom };

    fn from(_error: NoMemory) -> NetFault {
        NetFault::NoMemory
    }
}

/// Whether one of the nodes has a name.
fn is_taken(name: &Text, nodes: &[Node]) -> bool
    ensures { result ≡ list_any (λ n. bytes_eq name.now n.name) nodes.now }
{
    nodes.iter().any(|node| *name == node.name)
}

/// Whether a workstation has the name of one before it.
fn repeats_name(net: &Net, w: Ws) -> bool
    ensures { result ≡ repeats_a_name net.now w }
{
    let place = usize::from(w.0);
    match net.nodes.get(place) {
        Some(node) => is_taken(&node.name, &net.nodes.as_slice()[..place]),
        None => false,
    }
}

/// Whether the hop of a workstation is not what the tree asks for.
fn has_bad_hop(net: &Net, w: Ws) -> bool
    ensures { result ≡ spec.has_bad_hop net.now w }
{
    if w.0 == 0 {
        return hop(net, w).is_some() || !is_manager(net, w);
    }
    match hop(net, w) {
        Some(next) => !is_manager(net, next),
        None => true,
    }
}

/// The first workstation whose name stands before.
fn first_repeated_name(net: &Net) -> Option<Ws>
    requires { length net.now.nodes < 2 ^ 16 }
    ensures { result ≡ first_ws net.now (repeats_a_name net.now) }
{
    for w in 0..net.nodes.len() as u16 {
        if repeats_name(net, Ws(w)) {
            return Some(Ws(w));
        }
    }
    None
}

/// The first workstation whose hop is not what the tree asks for.
fn first_bad_hop(net: &Net) -> Option<Ws>
    requires { length net.now.nodes < 2 ^ 16 }
    ensures { result ≡ first_ws net.now (spec.has_bad_hop net.now) }
{
    for w in 0..net.nodes.len() as u16 {
        if has_bad_hop(net, Ws(w)) {
            return Some(Ws(w));
        }
    }
    None
}

/// The first workstation whose chain of hops does not end at the master.
fn first_that_misses_master(net: &Net) -> Option<Ws>
    requires { length net.now.nodes < 2 ^ 16 }
    ensures { result ≡ first_ws net.now (misses_the_master net.now) }
{
    for w in 0..net.nodes.len() as u16 {
        if !ends_at_master(net, Ws(w)) {
            return Some(Ws(w));
        }
    }
    None
}

/// Tests a net. Want of memory comes in place of `OutOfRange` alone, or of the answer that there is no fault.
#[tactic(auto, unfolding(crate::specs::Faults::net_fault))]
pub fn check(alloc: Global, net: &Net) -> Result<(), NetFault>
    ensures faultless { OnOk result (net_fault net.now ≡ None) }
    ensures first { IfErr result (λ f. f ≢ NetFault.NoMemory → net_fault net.now ≡ Some f) }
    ensures late { result ≡ Err NetFault.NoMemory
        → (net_fault net.now ≡ None) ⊎ (net_fault net.now ≡ Some NetFault.OutOfRange) }
{
    let count = net.nodes.len();
    if count == 0 {
        return Err(NetFault::Empty);
    }
    if count > 256 {
        return Err(NetFault::TooMany);
    }
    if let Some(w) = first_repeated_name(net) {
        return Err(NetFault::Duplicate(w));
    }
    if let Some(w) = first_bad_hop(net) {
        return Err(NetFault::BadHop(w));
    }
    if let Some(w) = first_that_misses_master(net) {
        return Err(NetFault::Tree(w));
    }
    if is_out_of_range(alloc, net)? {
        return Err(NetFault::OutOfRange);
    }
    Ok(())
}
