//! The network of definitions, and the addresses of its workstations.
ghost use Rattle.std.specs.Prelude.{◌≡◌, ◌≤◌, List, All, IfOk, length, map};
ghost use Rattle.composer_parser.specs.declared.Lined.{Lined as LinedOf};
ghost use Rattle.composer_parser.specs.declared.CpuDef.{CpuDef as Cpu};
ghost use Rattle.composer_parser.specs.declared.ResourceDef.{ResourceDef as Res};
ghost use Rattle.std.specs.Option.{option_copied};
ghost use Rattle.definition_faults.specs.Faults.{IsFaultless};
ghost use Rattle.workload_defs.specs.Nets as spec;
ghost use Rattle.workload_defs.specs.Stations as stations_spec;
ghost use Rattle.workload_defs.specs.Stations.{stations as stations_of};
ghost use Rattle.workload_defs.specs.Tables.{cpus_seen, IsStationTable};

use crate::stations::StationTable;
use base_types::{
    Carry, Copied, Items, Net, NoMemory, Node, Nodes, Peer, Peers, PromptDef, PromptDefs, Resource,
    Resources, Text, Ws,
};
use composer_parser::{CpuDef, Defs, Lined, ResourceDef};
use definition_names::Names;
use std::alloc::Global;

/// The port of a workstation that has no TCPADDR.
const DEFAULT_PORT: u16 = 31_111;

/// The network of definitions without a fault, whose workstations are these.
#[tactic(auto, unfolding(crate::specs::Nets::net_of))]
pub(crate) fn net_of<'a>(
    alloc: Global,
    names: &Names<'a>,
    stations: &[&'a CpuDef],
    table: &StationTable,
) -> Result<Net, NoMemory>
    requires faultless { IsFaultless names.now }
    requires stations { cpus_seen stations.now ≡ stations_of names.now }
    requires table { IsStationTable table.now.entries (stations_of names.now) }
    ensures { IfOk result (λ net. net ≡ spec.net_of names.now) }
{
    let defs = names.defs();
    Ok(Net {
        nodes: nodes(alloc, names, stations, table)?,
        resources: resources(alloc, defs.resources.as_slice(), table)?,
        prompts: prompts(alloc, defs.prompts.as_slice())?,
        carry: carry_of(defs),
    })
}

fn carry_of(defs: &Defs) -> Carry
    ensures { result ≡ spec.carry_of defs.now }
{
    match &defs.carry {
        Some(carry) => carry.item,
        None => Carry::Yes,
    }
}

fn nodes<'a>(
    alloc: Global,
    names: &Names<'a>,
    stations: &[&'a CpuDef],
    table: &StationTable,
) -> Result<Nodes, NoMemory>
    requires { IsStationTable table.now.entries (stations_of names.now) }
    ensures { IfOk result (λ nodes. nodes ≡ map (spec.node_of names.now) (cpus_seen stations.now)) }
{
    let mut nodes = Items::new(alloc);
    for cpu in stations {
        nodes.push(node_of(names, *cpu, table)?)?;
    }
    Ok(nodes)
}

fn node_of<'a>(names: &Names<'a>, cpu: &'a CpuDef, table: &StationTable) -> Result<Node, NoMemory>
    requires { IsStationTable table.now.entries (stations_of names.now) }
    ensures { IfOk result (λ node. node ≡ spec.node_of names.now cpu.now) }
{
    Ok(Node {
        name: cpu.name.copy()?,
        hop: hop_of(names, cpu, table),
        manager: manages(names, cpu),
        full: is_full(cpu),
    })
}

fn is_full(cpu: &CpuDef) -> bool
    ensures { result ≡ spec.is_full cpu.now }
{
    match cpu.full {
        Some(full) => full,
        None => false,
    }
}

/// Whether the workstation is the manager of a domain.
fn manages<'a>(names: &Names<'a>, cpu: &'a CpuDef) -> bool
    ensures { result ≡ spec.manages names.now cpu.now }
{
    let domains = names.defs().domains.as_slice();
    for domain in domains {
        if domain.item.manager == cpu.name {
            return true;
        }
    }
    false
}

/// The neighbour on the way to the master: of a manager the manager of the parent domain, and of another workstation that
/// of its own domain.
fn hop_of<'a>(names: &Names<'a>, cpu: &'a CpuDef, table: &StationTable) -> Option<Ws>
    requires { IsStationTable table.now.entries (stations_of names.now) }
    ensures { result ≡ spec.hop_of names.now cpu.now }
{
    match hop_name(names, cpu) {
        Some(name) => number_of(name, table),
        None => None,
    }
}

fn hop_name<'a>(names: &Names<'a>, cpu: &'a CpuDef) -> Option<&'a Text>
    ensures { option_copied result ≡ spec.hop_name names.now cpu.now }
{
    if manages(names, cpu) {
        match parent_of(names, &cpu.domain) {
            Some(parent) => manager_of(names, parent),
            None => None,
        }
    } else {
        manager_of(names, &cpu.domain)
    }
}

fn parent_of<'a>(names: &Names<'a>, domain: &'a Text) -> Option<&'a Text>
    ensures { option_copied result ≡ spec.parent_of names.now domain.now }
{
    let found = names.defs().domains.get(names.domain(domain)?)?;
    match &found.item.parent {
        Some(parent) => Some(parent),
        None => None,
    }
}

fn manager_of<'a>(names: &Names<'a>, domain: &'a Text) -> Option<&'a Text>
    ensures { option_copied result ≡ spec.manager_of names.now domain.now }
{
    let found = names.defs().domains.get(names.domain(domain)?)?;
    Some(&found.item.manager)
}

/// The number of a workstation.
pub(crate) fn number_of(name: &Text, table: &StationTable) -> Option<Ws>
    ensures { (cpus : List Cpu) → IsStationTable table.now.entries cpus → result ≡ stations_spec.number_among cpus name.now }
{
    match table.get(name) {
        Some(number) => Some(Ws(*number)),
        None => None,
    }
}

fn resources(
    alloc: Global,
    resources: &[Lined<ResourceDef>],
    table: &StationTable,
) -> Result<Resources, NoMemory>
    ensures { (cpus : List Cpu) → IsStationTable table.now.entries cpus → All (λ (r : LinedOf Res). r.item.total ≤ 1024) resources.now
        → IfOk result (λ list. list ≡ map (spec.resource_among cpus) resources.now) }
{
    let mut list = Items::new(alloc);
    for resource in resources {
        list.push(resource_of(&resource.item, table)?)?;
    }
    Ok(list)
}

fn resource_of(resource: &ResourceDef, table: &StationTable) -> Result<Resource, NoMemory>
    ensures { (cpus : List Cpu) → IsStationTable table.now.entries cpus → resource.now.total ≤ 1024
        → IfOk result (λ r. r ≡ spec.resource_in cpus resource.now) }
{
    let ws = match number_of(&resource.ws, table) {
        Some(number) => number,
        None => Ws(0),
    };
    Ok(Resource {
        ws,
        name: resource.name.copy()?,
        total: resource.total.min(1024) as u16,
    })
}

fn prompts(alloc: Global, prompts: &[Lined<PromptDef>]) -> Result<PromptDefs, NoMemory>
    ensures { IfOk result (λ list. list ≡ map (λ p. p.item) prompts.now) }
{
    let mut list = Items::new(alloc);
    for prompt in prompts {
        list.push(prompt.item.copy()?)?;
    }
    Ok(list)
}

/// The addresses of these workstations.
pub(crate) fn peers_of(alloc: Global, stations: &[&CpuDef]) -> Result<Peers, NoMemory>
    requires { length stations.now ≤ 256 }
    ensures { All (λ (c : Cpu). spec.HasPort c) (cpus_seen stations.now)
        → IfOk result (λ peers. peers ≡ spec.peers_among (cpus_seen stations.now)) }
{
    let mut peers = Items::new(alloc);
    for (i, cpu) in stations.iter().enumerate() {
        peers.push(Peer {
            ws: Ws(i as u16),
            host: cpu.host.copy()?,
            port: port_of(cpu),
        })?;
    }
    Ok(peers)
}

fn port_of(cpu: &CpuDef) -> u16
    ensures { spec.HasPort cpu.now → result ≡ spec.port_of cpu.now }
{
    match cpu.port {
        Some(port) => port.min(65_535) as u16,
        None => DEFAULT_PORT,
    }
}
