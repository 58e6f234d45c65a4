//! The workstations in the order of their numbers.
ghost use Rattle.std.specs.Prelude.{◌≡◌, ◌++◌, ◌≤◌, ℕ, List, IfOk, OnOk, Some, if◌then◌else◌, length};
ghost use Rattle.std.specs.Str.{bytes_eq};
ghost use Rattle.workload_defs.specs.Stations as spec;
ghost use Rattle.workload_defs.specs.Tables.{cpus_seen, number_in, IsStationTable};

use base_types::{Copied, NoMemory, Text};
use composer_parser::{CpuDef, Lined};
use definition_names::Names;
use indexmap::IndexMap;
use std::alloc::Global;

/// The numbers of workstations by their names.
pub(crate) type StationTable = IndexMap<Text, u16>;

/// The workstations: the master, and the others in the order in which they are defined.
#[tactic(auto, unfolding(crate::specs::Stations::stations))]
pub(crate) fn stations<'a>(alloc: Global, names: &Names<'a>) -> Result<Vec<&'a CpuDef>, NoMemory>
    ensures { IfOk result (λ v. cpus_seen v.items ≡ spec.stations names.now) }
{
    let cpus = names.defs().cpus.as_slice();
    let mut stations = Vec::new(alloc);
    put_those(&mut stations, names, cpus, true)?;
    put_those(&mut stations, names, cpus, false)?;
    Ok(stations)
}

/// Puts those of the workstations behind the others that are the master, or those that are not.
fn put_those<'a>(
    stations: &mut Vec<&'a CpuDef>,
    names: &Names<'a>,
    cpus: &'a [Lined<CpuDef>],
    masters: bool,
) -> Result<(), NoMemory>
    ensures { OnOk result (cpus_seen stations.new.items
        ≡ cpus_seen stations.old.items ++ spec.those names.now masters cpus.now) }
{
    for cpu in cpus {
        put_one(stations, names, &cpu.item, masters)?;
    }
    Ok(())
}

/// Puts a workstation behind the others where it is one of those.
fn put_one<'a>(
    stations: &mut Vec<&'a CpuDef>,
    names: &Names<'a>,
    cpu: &'a CpuDef,
    masters: bool,
) -> Result<(), NoMemory>
    ensures { OnOk result (cpus_seen stations.new.items
        ≡ cpus_seen stations.old.items ++ spec.one_of names.now masters cpu.now) }
{
    if is_that(names, cpu, masters) {
        stations.push(cpu)?;
        Ok(())
    } else {
        Ok(())
    }
}

/// Whether the workstation is the master, or whether it is not.
fn is_that<'a>(names: &Names<'a>, cpu: &CpuDef, masters: bool) -> bool
    ensures { result ≡ spec.is_that names.now masters cpu.now }
{
    if masters {
        is_master(names, cpu)
    } else {
        !is_master(names, cpu)
    }
}

fn is_master<'a>(names: &Names<'a>, cpu: &CpuDef) -> bool
    ensures { result ≡ spec.is_master names.now cpu.now }
{
    match names.master() {
        Some(master) => *master == cpu.name,
        None => false,
    }
}

/// The numbers of these workstations by their names.
pub(crate) fn station_table(alloc: Global, stations: &[&CpuDef]) -> Result<StationTable, NoMemory>
    requires { length stations.now ≤ 256 }
    ensures { IfOk result (λ table. IsStationTable table.entries (cpus_seen stations.now)) }
{
    let mut table = IndexMap::new(alloc);
    // From the last on, so that the first of a name stays.
    for i in (0..stations.len()).rev() {
        put_number(&mut table, stations[i].name.copy()?, i as u16)?;
    }
    Ok(table)
}

/// Puts a name before the others: it takes the place of the same name.
fn put_number(table: &mut StationTable, name: Text, number: u16) -> Result<(), NoMemory>
    ensures { OnOk result ((other : List ℕ) → number_in table.new.entries other
        ≡ (if bytes_eq other name then Some number else number_in table.old.entries other)) }
{
    match table.insert(name, number) {
        Ok(_) => Ok(()),
        Err(_) => Err(NoMemory),
    }
}
