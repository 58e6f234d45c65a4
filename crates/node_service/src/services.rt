//! From the disk that is handed in to the one that is handed back.
ghost use Rattle.std.specs.Prelude.{◌<◌, ◌≡◌, ◌≤◌, Bool, IfOk};
ghost use Rattle.model.specs.Network.{node_count};
ghost use Rattle.network_tree.specs.Faults.{net_fault};
ghost use Rattle.outside.specs.Calls.{Begins};
ghost use Rattle.workload_defs.specs.Nets.{net_of};
ghost use Rattle.node_inputs.specs.Tellings.{told_by};
ghost use Rattle.node_lines.specs.Lines.{HasFitPlans};
ghost use Rattle.node_service.specs.Serving.{IsUncalled, Serves, begin_of};

use agent_core::Agent;
use base_types::{Copied, NoMemory, Ws};
use file_watch::Prober;
use network_tree::{NetFault, Network};
use node_inputs::NodeEnd;
use node_loop::run_node;
use node_restart::{RestartFault, Restarted, restart_node};
use outside::{Clock, Disk, Link, Spawner};
use run_laws::ends_have_their_refusals;
use std::alloc::Global;
use workload_defs::Workload;

/// How a service ended.
#[derive(Clone, Copy)]
pub enum ServiceEnd {
    /// No node was made of the disk.
    Unmade(RestartFault),
    /// The node ran, and its run ended.
    Ran(NodeEnd),
}

/// How a service ended, and the disk that it was handed.
#[derive(Drop)]
pub struct Served<D> {
    pub end: ServiceEnd,
    pub disk: D,
}

/// Serves a workstation of the network for so many turns at most.
///
/// The node is made anew of what the disk's file keeps. Then its links begin, once, with the own number, the hop in the
/// network as the node knows it, and the addresses of all workstations; a node whose links could not begin goes on without
/// them. Then it runs. The disk comes back in each case.
pub fn serve_node<D: Disk, L: Link, J: Spawner, C: Clock, F: Prober>(
    alloc: Global,
    disk: D,
    workload: &Workload,
    me: Ws,
    turns: u32,
    link: &mut L,
    jobs: &mut J,
    clock: &mut C,
    files: &mut F,
) -> Served<D>
    requires inside { me < node_count (net_of workload.now) }
    requires plans { HasFitPlans workload.now }
    ensures serves { Serves D.seen D.faults D.moment D.may_leave D.left_since workload.now me turns result.end disk result.disk
        (told_by (L.calls link.old) (J.calls jobs.old) (C.readings clock.old) (F.asked files.old))
        (told_by (L.calls link.new) (J.calls jobs.new) (C.readings clock.new) (F.asked files.new)) }
    ensures uncalled { IsUncalled result.end
        ((link.new ≡ link.old) × (jobs.new ≡ jobs.old) × (clock.new ≡ clock.old) × (files.new ≡ files.old)) }
{
    ends_have_their_refusals();
    let network = match network_of(alloc, workload) {
        Ok(network) => network,
        Err(NoMemory) => {
            return Served {
                end: ServiceEnd::Unmade(RestartFault::NoMemory),
                disk,
            };
        }
    };
    match restart_node(alloc, disk, network, me) {
        Ok(restarted) => {
            let Restarted {
                mut agent,
                mut file,
            } = restarted;
            begin_links(&agent, workload, link);
            let end = run_node(
                alloc, &mut agent, workload, &mut file, link, jobs, clock, turns, files,
            );
            Served {
                end: ServiceEnd::Ran(end),
                disk: file.detach(),
            }
        }
        Err(refused) => Served {
            end: ServiceEnd::Unmade(refused.fault),
            disk: refused.disk,
        },
    }
}

/// The network of the definitions.
fn network_of(alloc: Global, workload: &Workload) -> Result<Network, NoMemory>
    ensures value { IfOk result (λ network. network ≡ net_of workload.now) }
    ensures few { IfOk result (λ network. node_count network ≤ 256) }
{
    let net = workload.net().copy()?;
    match Network::new(alloc, net) {
        Ok(network) => {
            // for the prover: a network has at most 256 workstations
            let _count = network.count();
            Ok(network)
        }
        Err(NetFault::NoMemory) => Err(NoMemory),
        Err(_) => unreachable!(),
    }
}

/// Begins the links of a node. That they could not begin changes nothing.
fn begin_links<L: Link>(agent: &Agent, workload: &Workload, link: &mut L)
    ensures { (ok : Bool) × Begins (begin_of workload.now agent.now ok) (L.calls link.old) (L.calls link.new) }
{
    let me = agent.me();
    let hop = agent.net().hop(me);
    let _begun = link.begin(Some(me), hop, workload.peers());
}
