//! Hops of a net that may still have faults.
ghost use Rattle.std.specs.Prelude.{◌≡◌, ◌==◌};
ghost use Rattle.model.specs.Network as spec;
ghost use Rattle.model.specs.Network.{chain};
ghost use Rattle.model.specs.Words.{last_or};

use base_types::{Net, Ws};

/// The hop of a workstation, none of the master or outside the net.
pub fn hop(net: &Net, w: Ws) -> Option<Ws>
    ensures { result ≡ spec.hop net.now w }
{
    net.nodes.get(usize::from(w.0))?.hop
}

/// Whether a workstation manages a domain. One outside the net does not.
pub fn is_manager(net: &Net, w: Ws) -> bool
    ensures { result ≡ spec.is_manager net.now w }
{
    match net.nodes.get(usize::from(w.0)) {
        Some(node) => node.manager,
        None => false,
    }
}

/// Whether the chain of hops of a workstation ends at the master.
pub fn ends_at_master(net: &Net, w: Ws) -> bool
    ensures { result ≡ (last_or w (chain net.now w) == 0) }
{
    let mut last = w;
    for _step in 1..net.nodes.len() {
        match hop(net, last) {
            Some(next) => last = next,
            None => break,
        }
    }
    last.0 == 0
}
