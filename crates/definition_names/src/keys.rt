//! The names of definitions, each kind in the order of the text.
ghost use Rattle.std.specs.Prelude.{◌≡◌, IfOk, map};
ghost use Rattle.definition_names.specs.Keys.{seen, seen_pair};

use base_types::{NoMemory, PromptDef, Text};
use composer_parser::{CalendarDef, CpuDef, DomainDef, JobDef, Lined, ResourceDef};
use std::alloc::Global;

/// A workstation and a name on it.
pub(crate) type Pair<'a> = (&'a Text, &'a Text);

pub(crate) fn cpu_names<'a>(
    alloc: Global,
    cpus: &'a [Lined<CpuDef>],
) -> Result<Vec<&'a Text>, NoMemory>
    ensures { IfOk result (λ v. map seen v.items ≡ map (λ c. c.item.name) cpus.now) }
{
    let mut names = Vec::new(alloc);
    for cpu in cpus {
        names.push(&cpu.item.name)?;
    }
    Ok(names)
}

pub(crate) fn domain_names<'a>(
    alloc: Global,
    domains: &'a [Lined<DomainDef>],
) -> Result<Vec<&'a Text>, NoMemory>
    ensures { IfOk result (λ v. map seen v.items ≡ map (λ d. d.item.name) domains.now) }
{
    let mut names = Vec::new(alloc);
    for domain in domains {
        names.push(&domain.item.name)?;
    }
    Ok(names)
}

pub(crate) fn calendar_names<'a>(
    alloc: Global,
    calendars: &'a [Lined<CalendarDef>],
) -> Result<Vec<&'a Text>, NoMemory>
    ensures { IfOk result (λ v. map seen v.items ≡ map (λ c. c.item.name) calendars.now) }
{
    let mut names = Vec::new(alloc);
    for calendar in calendars {
        names.push(&calendar.item.name)?;
    }
    Ok(names)
}

pub(crate) fn prompt_names<'a>(
    alloc: Global,
    prompts: &'a [Lined<PromptDef>],
) -> Result<Vec<&'a Text>, NoMemory>
    ensures { IfOk result (λ v. map seen v.items ≡ map (λ p. p.item.name) prompts.now) }
{
    let mut names = Vec::new(alloc);
    for prompt in prompts {
        names.push(&prompt.item.name)?;
    }
    Ok(names)
}

pub(crate) fn resource_names<'a>(
    alloc: Global,
    resources: &'a [Lined<ResourceDef>],
) -> Result<Vec<Pair<'a>>, NoMemory>
    ensures { IfOk result (λ v. map seen_pair v.items ≡ map (λ r. (r.item.ws, r.item.name)) resources.now) }
{
    let mut names = Vec::new(alloc);
    for resource in resources {
        names.push((&resource.item.ws, &resource.item.name))?;
    }
    Ok(names)
}

pub(crate) fn job_names<'a>(
    alloc: Global,
    jobs: &'a [Lined<JobDef>],
) -> Result<Vec<Pair<'a>>, NoMemory>
    ensures { IfOk result (λ v. map seen_pair v.items ≡ map (λ j. (j.item.ws, j.item.name)) jobs.now) }
{
    let mut names = Vec::new(alloc);
    for job in jobs {
        names.push((&job.item.ws, &job.item.name))?;
    }
    Ok(names)
}
