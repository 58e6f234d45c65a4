//! The network, with the addresses and the numbers of its workstations.
ghost use Rattle.std.specs.Prelude.{◌≡◌, IfOk};
ghost use Rattle.definition_faults.specs.Faults.{IsFaultless};
ghost use Rattle.workload_defs.specs.Stations.{stations as stations_of};
ghost use Rattle.workload_defs.specs.Tables.{AreHosts, cpus_seen};

use crate::nets::{net_of, peers_of};
use crate::stations::{StationTable, station_table, stations};
use base_types::{Net, NoMemory, Peers};
use composer_parser::CpuDef;
use definition_names::Names;
use std::alloc::Global;

/// The network, the addresses of its workstations, and their numbers by their names.
pub(crate) struct Hosts {
    pub(crate) net: Net,
    pub(crate) peers: Peers,
    pub(crate) numbers: StationTable,
}

/// Written out, so that dropping one is a call for whoever owns it.
impl Drop for Hosts {
    fn drop(self) {
        let Hosts {
            net: _net,
            peers: _peers,
            numbers: _numbers,
        } = self;
    }
}

/// Those of definitions without a fault.
pub(crate) fn hosts_of<'a>(alloc: Global, names: &Names<'a>) -> Result<Hosts, NoMemory>
    requires { IsFaultless names.now }
    ensures { IfOk result (λ hosts. AreHosts names.now hosts) }
{
    let list = stations(alloc, names)?;
    hosts_among(alloc, names, list.as_slice())
}

/// The same, where these are the workstations in the order of their numbers.
fn hosts_among<'a>(alloc: Global, names: &Names<'a>, list: &[&'a CpuDef]) -> Result<Hosts, NoMemory>
    requires faultless { IsFaultless names.now }
    requires stations { cpus_seen list.now ≡ stations_of names.now }
    ensures { IfOk result (λ hosts. AreHosts names.now hosts) }
{
    let peers = peers_of(alloc, list)?;
    let numbers = station_table(alloc, list)?;
    let net = net_of(alloc, names, list, &numbers)?;
    Ok(Hosts {
        net,
        peers,
        numbers,
    })
}
