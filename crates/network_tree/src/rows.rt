//! The table of ways, row by row.
ghost use Rattle.std.specs.Prelude.{◌≡◌, ◌<◌, None, IfOk, map, unwrap_or};
ghost use Rattle.model.specs.Network as spec;
ghost use Rattle.model.specs.Network.{node_count};
ghost use Rattle.model.specs.Words.{below};
ghost use Rattle.network_tree.specs.Faults.{net_fault};
ghost use Rattle.network_tree.specs.Ways as ways;

use crate::hops::hop;
use base_types::{Items, Net, NoMemory, Ws};
use std::alloc::Global;

/// The hop of each workstation, and the master itself at its own place.
fn own_hops(alloc: Global, net: &Net) -> Result<Items<Ws>, NoMemory>
    requires { net_fault net.now ≡ None }
    ensures { IfOk result (λ row. row ≡ map (λ w. unwrap_or (spec.hop net.now w) w) (below (node_count net.now))) }
{
    let mut row = Items::new(alloc);
    for w in 0..net.nodes.len() as u16 {
        let hop = hop(net, Ws(w)).unwrap_or(Ws(w));
        row.push(hop)?;
    }
    Ok(row)
}

/// The ways to `b`: from each workstation above it down its chain of hops, and from every other one to its own hop.
fn row(alloc: Global, net: &Net, b: Ws) -> Result<Items<Ws>, NoMemory>
    requires faultless { net_fault net.now ≡ None }
    requires inside { b < node_count net.now }
    ensures { IfOk result (λ row. row ≡ ways.row net.now b) }
{
    let mut row = own_hops(alloc, net)?;
    let mut last = b;
    for _step in 1..net.nodes.len() {
        let Some(next) = hop(net, last) else {
            break;
        };
        row.set(usize::from(next.0), last);
        last = next;
    }
    row.set(usize::from(b.0), b);
    Ok(row)
}

/// The ways to each workstation.
pub fn table(alloc: Global, net: &Net) -> Result<Items<Items<Ws>>, NoMemory>
    requires { net_fault net.now ≡ None }
    ensures { IfOk result (λ rows. rows ≡ ways.table net.now) }
{
    let mut rows = Items::new(alloc);
    for b in 0..net.nodes.len() as u16 {
        rows.push(row(alloc, net, Ws(b))?)?;
    }
    Ok(rows)
}
