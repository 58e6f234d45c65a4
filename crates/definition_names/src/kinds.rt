//! The tables of the names of each kind.
ghost use Rattle.std.specs.Prelude.{IfOk};
ghost use Rattle.definition_names.specs.Names as spec;
ghost use Rattle.definition_names.specs.Indexes.{AreNameTables, ArePairTables, IsIndex, IsPairIndex};

use crate::firsts::{NameIndex, PairIndex, index, pair_index};
use crate::keys::{
    calendar_names, cpu_names, domain_names, job_names, prompt_names, resource_names,
};
use base_types::NoMemory;
use composer_parser::Defs;
use std::alloc::Global;

/// The tables of names that stand alone.
pub(crate) struct NameTables<'a> {
    pub(crate) cpus: NameIndex<'a>,
    pub(crate) domains: NameIndex<'a>,
    pub(crate) calendars: NameIndex<'a>,
    pub(crate) prompts: NameIndex<'a>,
}

/// Written out, so that dropping one is a call for whoever owns it.
impl<'a> Drop for NameTables<'a> {
    fn drop(self) {
        let NameTables {
            cpus: _cpus,
            domains: _domains,
            calendars: _calendars,
            prompts: _prompts,
        } = self;
    }
}

/// The tables of names on workstations.
pub(crate) struct PairTables<'a> {
    pub(crate) resources: PairIndex<'a>,
    pub(crate) jobs: PairIndex<'a>,
}

/// Written out, so that dropping one is a call for whoever owns it.
impl<'a> Drop for PairTables<'a> {
    fn drop(self) {
        let PairTables {
            resources: _resources,
            jobs: _jobs,
        } = self;
    }
}

/// The tables of the names of workstations, domains, calendars and prompts.
pub(crate) fn name_tables<'a>(alloc: Global, defs: &'a Defs) -> Result<NameTables<'a>, NoMemory>
    ensures { IfOk result (λ tables. AreNameTables defs.now tables) }
{
    let cpus = cpu_index(alloc, defs)?;
    let domains = domain_index(alloc, defs)?;
    let calendars = calendar_index(alloc, defs)?;
    let prompts = prompt_index(alloc, defs)?;
    Ok(NameTables {
        cpus,
        domains,
        calendars,
        prompts,
    })
}

/// The tables of the names of resources and jobs.
pub(crate) fn pair_tables<'a>(alloc: Global, defs: &'a Defs) -> Result<PairTables<'a>, NoMemory>
    ensures { IfOk result (λ tables. ArePairTables defs.now tables) }
{
    let resources = resource_index(alloc, defs)?;
    let jobs = job_index(alloc, defs)?;
    Ok(PairTables { resources, jobs })
}

fn cpu_index<'a>(alloc: Global, defs: &'a Defs) -> Result<NameIndex<'a>, NoMemory>
    ensures { IfOk result (λ table. IsIndex table.entries (spec.cpu_names defs.now)) }
{
    let names = cpu_names(alloc, defs.cpus.as_slice())?;
    index(alloc, names.as_slice())
}

fn domain_index<'a>(alloc: Global, defs: &'a Defs) -> Result<NameIndex<'a>, NoMemory>
    ensures { IfOk result (λ table. IsIndex table.entries (spec.domain_names defs.now)) }
{
    let names = domain_names(alloc, defs.domains.as_slice())?;
    index(alloc, names.as_slice())
}

fn calendar_index<'a>(alloc: Global, defs: &'a Defs) -> Result<NameIndex<'a>, NoMemory>
    ensures { IfOk result (λ table. IsIndex table.entries (spec.calendar_names defs.now)) }
{
    let names = calendar_names(alloc, defs.calendars.as_slice())?;
    index(alloc, names.as_slice())
}

fn prompt_index<'a>(alloc: Global, defs: &'a Defs) -> Result<NameIndex<'a>, NoMemory>
    ensures { IfOk result (λ table. IsIndex table.entries (spec.prompt_names defs.now)) }
{
    let names = prompt_names(alloc, defs.prompts.as_slice())?;
    index(alloc, names.as_slice())
}

fn resource_index<'a>(alloc: Global, defs: &'a Defs) -> Result<PairIndex<'a>, NoMemory>
    ensures { IfOk result (λ table. IsPairIndex table.entries (spec.resource_names defs.now)) }
{
    let names = resource_names(alloc, defs.resources.as_slice())?;
    pair_index(alloc, names.as_slice())
}

fn job_index<'a>(alloc: Global, defs: &'a Defs) -> Result<PairIndex<'a>, NoMemory>
    ensures { IfOk result (λ table. IsPairIndex table.entries (spec.job_names defs.now)) }
{
    let names = job_names(alloc, defs.jobs.as_slice())?;
    pair_index(alloc, names.as_slice())
}
