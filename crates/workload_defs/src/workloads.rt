//! Checked definitions.
ghost use Rattle.std.specs.Prelude.{◌≡◌, ◌⊎◌, ◌<◌, ◌^◌, Err, IfOk, IsOk, length, None, Some};
ghost use Rattle.definition_faults.specs.declared.Fault.{Fault};
ghost use Rattle.definition_faults.specs.declared.DefFault.TheVariants.{NoMemory as NoRoom};
ghost use Rattle.definition_faults.specs.Orders.{told};
ghost use Rattle.definition_faults.specs.Faults.{IsFaultless, IsFirstFault};
ghost use Rattle.network_tree.specs.Faults.{net_fault};
ghost use Rattle.workload_defs.specs.Answers.{IsAnswer, IsGiven};
ghost use Rattle.workload_defs.specs.Nets as spec;
ghost use Rattle.workload_defs.specs.Tables.{IsWorkload};
ghost use Rattle.std.specs.Option.{option_copied};
ghost use Rattle.model.specs.Words.{ascending};
ghost use Rattle.workload_defs.specs.Days.{free_of, days_in, days_of as days_of_calendar};
ghost use Rattle.workload_defs.specs.Stations.{number_of as number_of_station};

use crate::days::{DayTables, day_tables, days_of, sorted_days_of};
use crate::hosts::{Hosts, hosts_of};
use crate::nets::number_of;
use base_types::{Copied, Net, NoMemory, Peers, Text, Ws};
use calendars::FreeDays;
use composer_parser::Defs;
use day_counts::{CountedDays, SortedDays};
use definition_faults::{DefFault, first_fault};
use definition_names::Names;
use std::alloc::Global;
use std::marker::Model;

/// Definitions without a fault, with what they give.
pub struct Workload {
    defs: Defs,
    hosts: Hosts,
    days: DayTables,
}

/// Written out, so that dropping one is a call for whoever owns it.
impl Drop for Workload {
    fn drop(self) {
        let Workload {
            defs: _defs,
            hosts: _hosts,
            days: _days,
        } = self;
    }
}

impl Model for Workload {
    ghost use Rattle.composer_parser.specs.declared.Defs.{Defs as Definitions};
    ghost use Rattle.workload_defs.specs.Tables.{IsWorkload};

    ghost Value = { Definitions };

    ghost view = { λ w. w.defs };

    ghost invariant = { λ w. IsWorkload w.defs w.hosts w.days };
}

/// What definitions without a fault give, beside themselves.
#[derive(Drop)]
struct Given {
    hosts: Hosts,
    days: DayTables,
}

/// Definitions that were handed over. Dropping them is a call for whoever owns them.
struct Owned {
    defs: Defs,
}

impl Drop for Owned {
    fn drop(self) {
        let Owned { defs: _defs } = self;
    }
}

impl Owned {
    /// The definitions with what they give.
    fn with(self, given: Given) -> Workload
        requires { IsWorkload self.defs given.hosts given.days }
        ensures { result ≡ self.defs }
    {
        let Owned { defs } = self;
        let Given { hosts, days } = given;
        Workload { defs, hosts, days }
    }
}

/// Checks definitions. They are accepted exactly where they have no fault. Else the fault at the lowest line is answered,
/// and of several there the first in the order of `DefFault`. Of more than 4,294,967,295 streams it is answered that there
/// is no memory. What is accepted holds a copy of the definitions.
pub fn check(alloc: Global, defs: &Defs) -> Result<Workload, DefFault>
    ensures checked { IfOk result (λ w. w ≡ defs.now) }
    ensures sound { IsOk result → IsFaultless defs.now }
    ensures accepted { IsFaultless defs.now → IsOk result ⊎ (result ≡ Err NoRoom) }
    ensures refused { (f : Fault) → IsFirstFault defs.now f → (result ≡ Err (told f)) ⊎ (result ≡ Err NoRoom) }
    ensures causes { (f : Fault) → result ≡ Err (told f) → IsFirstFault defs.now f }
{
    answered(alloc, defs)
}

/// The same of definitions that are handed over: what is accepted holds them, and no copy is made.
pub fn check_whole(alloc: Global, defs: Defs) -> Result<Workload, DefFault>
    ensures checked { IfOk result (λ w. w ≡ defs) }
    ensures sound { IsOk result → IsFaultless defs }
    ensures accepted { IsFaultless defs → IsOk result ⊎ (result ≡ Err NoRoom) }
    ensures refused { (f : Fault) → IsFirstFault defs f → (result ≡ Err (told f)) ⊎ (result ≡ Err NoRoom) }
    ensures causes { (f : Fault) → result ≡ Err (told f) → IsFirstFault defs f }
{
    kept(alloc, Owned { defs })
}

fn answered(alloc: Global, defs: &Defs) -> Result<Workload, DefFault>
    ensures { IsAnswer defs.now result }
{
    let given = given_of(alloc, defs)?;
    Ok(copied(defs, given)?)
}

/// A copy of definitions, with what they give.
fn copied(defs: &Defs, given: Given) -> Result<Workload, NoMemory>
    requires { IsWorkload defs.now given.hosts given.days }
    ensures { IfOk result (λ w. w ≡ defs.now) }
{
    let owned = Owned { defs: defs.copy()? };
    Ok(owned.with(given))
}

fn kept(alloc: Global, owned: Owned) -> Result<Workload, DefFault>
    ensures { IsAnswer owned.defs result }
{
    match given_of(alloc, &owned.defs) {
        Ok(given) => Ok(owned.with(given)),
        Err(fault) => Err(fault),
    }
}

/// What definitions give, or their fault.
fn given_of(alloc: Global, defs: &Defs) -> Result<Given, DefFault>
    ensures { IsGiven defs.now result }
{
    if defs.schedules.len() > u32::MAX as usize {
        return Err(DefFault::NoMemory);
    }
    let names = Names::of(alloc, defs)?;
    given_by(alloc, &names)
}

fn given_by<'a>(alloc: Global, names: &Names<'a>) -> Result<Given, DefFault>
    requires { length names.now.schedules < 2 ^ 32 }
    ensures { IsGiven names.now result }
{
    match first_fault(alloc, names)? {
        Some(fault) => Err(DefFault::from(fault)),
        None => Ok(tables_of(alloc, names)?),
    }
}

/// What definitions without a fault give.
fn tables_of<'a>(alloc: Global, names: &Names<'a>) -> Result<Given, NoMemory>
    requires faultless { IsFaultless names.now }
    requires few { length names.now.schedules < 2 ^ 32 }
    ensures { IfOk result (λ given. IsWorkload names.now given.hosts given.days) }
{
    let hosts = hosts_of(alloc, names)?;
    let days = day_tables(alloc, names)?;
    Ok(Given { hosts, days })
}

impl Workload {
    /// The network, which `Network::new` accepts. The master is workstation 0, and the others follow in the order in which
    /// they are defined.
    pub fn net(&self) -> &Net
        ensures value { result.now ≡ spec.net_of self.now }
        ensures accepted { net_fault result.now ≡ None }
    {
        &self.hosts.net
    }

    /// Where the workstations are reached, in the order of their numbers.
    pub fn peers(&self) -> &Peers
        ensures { result.now ≡ spec.peers_of self.now }
    {
        &self.hosts.peers
    }

    /// How many streams are defined.
    pub fn streams(&self) -> u32
        ensures { result ≡ length self.now.schedules }
    {
        self.defs.schedules.len() as u32
    }

    /// The definitions that were checked.
    pub fn defs(&self) -> &Defs
        ensures value { result.now ≡ self.now }
        ensures faultless { IsFaultless self.now }
    {
        &self.defs
    }

    /// The number of the workstation of this name. None where it is not defined.
    pub fn station(&self, name: &Text) -> Option<Ws>
        ensures { result ≡ number_of_station self.now name.now }
    {
        number_of(name, &self.hosts.numbers)
    }

    /// The free days of a stream, by its place among the streams, counted from 0.
    pub fn free_days(&self, stream: u32) -> &FreeDays
        requires { stream < length self.now.schedules }
        ensures { Some result.now ≡ free_of self.now stream }
    {
        self.days.free.at(stream as usize).free()
    }

    /// The same with their counts.
    pub fn counted_days(&self, stream: u32) -> &CountedDays
        requires { stream < length self.now.schedules }
        ensures { Some result.now ≡ free_of self.now stream }
    {
        self.days.free.at(stream as usize)
    }

    /// The days of the calendar of this name, as they are defined. There are none where it is not defined, which
    /// `HOLIDAYS` need not be.
    pub fn calendar_days(&self, name: &Text) -> &[u32]
        ensures { result.now ≡ days_of_calendar self.now name.now }
    {
        days_of(&self.defs, &self.days.calendars, name)
    }

    /// The same in ascending order, each day once. None where the calendar is not defined.
    pub fn sorted_days(&self, name: &Text) -> Option<&SortedDays>
        ensures { days_in (option_copied result) ≡ ascending (days_of_calendar self.now name.now) }
    {
        sorted_days_of(&self.days, name)
    }
}
