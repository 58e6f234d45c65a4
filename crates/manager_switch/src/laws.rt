//! What holds of every switch.
ghost use Rattle.std.specs.Prelude.{◌≡◌, ℕ, None};
ghost use Rattle.model.specs.Types.{Net};
ghost use Rattle.model.specs.History.{View};
ghost use Rattle.model.specs.PresentNet.{present_net, switched};
ghost use Rattle.network_tree.specs.Faults.{net_fault};

/// Every network that a node sees is accepted by `Network::new`, where the one that was defined is: no switch makes a
/// fault. So each chain of hops ends at the master, and only want of memory withholds a network.
pub fn present_networks_are_accepted()
    ensures switch { (net : Net) (w : ℕ) → net_fault net ≡ None → net_fault (switched net w) ≡ None }
    ensures present { (net : Net) (V : View) → net_fault net ≡ None → net_fault (present_net net V) ≡ None }
{}
