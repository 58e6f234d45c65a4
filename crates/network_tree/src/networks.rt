//! A net that was tested, with its table of ways.
ghost use Rattle.std.specs.Prelude.{◌≡◌, ◌≢◌, ◌<◌, ◌≤◌, ◌↔◌, ◌⊎◌, Ok, Err, None, Some, IfOk};
ghost use Rattle.std.specs.Prelude.{IsNone, IsTrue, slice_get};
ghost use Rattle.std.specs.Option.{IfSome, option_and_then};
ghost use Rattle.model.specs.Network as spec;
ghost use Rattle.model.specs.Network.{IsTree, are_neighbours, is_behind, is_manager, node_count};
ghost use Rattle.network_tree.specs.Faults.{net_fault};
ghost use Rattle.network_tree.specs.Ways.{table};

use crate::faults::{NetFault, check};
use crate::{hops, rows};
use base_types::{Copied, Items, Net, NoMemory, Ws};
use std::alloc::Global;
use std::marker::Model;
use std::rc::Rc;

/// A net without faults. Its workstations are a tree, with the master at the root.
pub struct Network {
    net: Rc<Net>,
    /// By the number of a workstation, the ways to it.
    ways: Rc<Items<Items<Ws>>>,
}

/// Written out, so that dropping one is a call for whoever owns it.
impl Drop for Network {
    fn drop(self) {
        let Network {
            net: _net,
            ways: _ways,
        } = self;
    }
}

impl Model for Network {
    ghost use Rattle.std.specs.Prelude.{◌≡◌, None};
    ghost use Rattle.model.specs.Types.{Net as Seen};
    ghost use Rattle.network_tree.specs.Faults.{net_fault};
    ghost use Rattle.network_tree.specs.Ways.{table};

    ghost Value = { Seen };

    ghost view = { λ n. n.net.value };

    ghost invariant = { λ n. (net_fault n.net.value ≡ None) × (n.ways.value ≡ table n.net.value) };
}

impl Network {
    /// Tests a net and takes it. Where it has faults, the first is answered and the net is dropped. Want of memory may
    /// come in place of `OutOfRange` and of the network, and of no other answer.
    pub fn new(alloc: Global, net: Net) -> Result<Network, NetFault>
        ensures value { IfOk result (λ network. network ≡ net) }
        ensures accepted { net_fault net ≡ None → (result ≡ Ok net) ⊎ (result ≡ Err NetFault.NoMemory) }
        ensures refused { (f : NetFault) → net_fault net ≡ Some f
            → (result ≡ Err f) ⊎ (result ≡ Err NetFault.NoMemory) }
        ensures at_once { (f : NetFault) → net_fault net ≡ Some f → f ≢ NetFault.OutOfRange → result ≡ Err f }
        ensures causes { (f : NetFault) → result ≡ Err f → f ≢ NetFault.NoMemory → net_fault net ≡ Some f }
    {
        check(alloc, &net)?;
        let ways = rows::table(alloc, &net)?;
        let net = match Rc::new(alloc, net) {
            Ok(net) => net,
            Err(_) => return Err(NetFault::NoMemory),
        };
        let ways = match Rc::new(alloc, ways) {
            Ok(ways) => ways,
            Err(_) => return Err(NetFault::NoMemory),
        };
        Ok(Network { net, ways })
    }

    /// The net that was tested.
    pub fn net(&self) -> &Net
        ensures value { result.now ≡ self.now }
        ensures faultless { net_fault self.now ≡ None }
        ensures tree { IsTree self.now }
    {
        self.net.as_ref()
    }

    /// How many workstations there are, from 1 to 256.
    pub fn count(&self) -> u16
        ensures value { result ≡ node_count self.now }
        ensures some { 0 < result }
        ensures few { result ≤ 256 }
    {
        self.net().nodes.len() as u16
    }

    /// The hop of a workstation. The master alone has none.
    pub fn hop(&self, w: Ws) -> Option<Ws>
        requires { w < node_count self.now }
        ensures value { result ≡ spec.hop self.now w }
        ensures none { IsNone result ↔ (w ≡ 0) }
        ensures inside { IfSome result (λ h. h < node_count self.now) }
        ensures manager { IfSome result (λ h. IsTrue (is_manager self.now h)) }
    {
        hops::hop(self.net(), w)
    }

    /// The neighbour of `a` on the way to `b`. None exactly where they are one.
    pub fn towards(&self, a: Ws, b: Ws) -> Option<Ws>
        requires from { a < node_count self.now }
        requires to { b < node_count self.now }
        ensures value { result ≡ spec.towards self.now a b }
        ensures none { IsNone result ↔ (a ≡ b) }
        ensures inside { IfSome result (λ x. x < node_count self.now) }
        ensures neighbour { IfSome result (λ x. IsTrue (are_neighbours self.now a x)) }
    {
        if a == b { None } else { self.way(a, b) }
    }

    /// What the table has from `a` to `b`.
    fn way(&self, a: Ws, b: Ws) -> Option<Ws>
        ensures value { result ≡ option_and_then (λ row. slice_get row a) (slice_get (table self.now) b) }
        ensures faultless { net_fault self.now ≡ None }
    {
        self.ways
            .as_ref()
            .get(usize::from(b.0))?
            .get(usize::from(a.0))
            .copied()
    }

    /// Whether `m` is in the chain of hops of `n`, `n` itself left out.
    pub fn behind(&self, n: Ws, m: Ws) -> bool
        requires lower { n < node_count self.now }
        requires upper { m < node_count self.now }
        ensures { result ≡ is_behind self.now n m }
    {
        let net = self.net();
        n != m && self.towards(m, n) != hops::hop(net, m)
    }

    /// Whether one of two workstations is the hop of the other.
    pub fn neighbours(&self, a: Ws, b: Ws) -> bool
        requires one { a < node_count self.now }
        requires other { b < node_count self.now }
        ensures { result ≡ are_neighbours self.now a b }
    {
        self.hop(a) == Some(b) || self.hop(b) == Some(a)
    }
}

impl Copied for Network {
    fn copy(&self) -> Result<Network, NoMemory> {
        Ok(Network {
            net: self.net.clone()?,
            ways: self.ways.clone()?,
        })
    }
}
