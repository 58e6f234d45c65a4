//! Workstations, domains, calendars, prompts, resources and jobs.
ghost use Rattle.std.specs.Prelude.{◌≡◌, ◌&&◌, not, slice_index_or, false};
ghost use Rattle.model.specs.Words.{first_of_these};
ghost use Rattle.definition_faults.specs.Orders.{earliest};
ghost use Rattle.definition_faults.specs.Chains.{all_ends};
ghost use Rattle.definition_faults.specs.Items as spec;

use crate::kinds::{Fault, Kind, noted, stands_at};
use base_types::{GREATEST_LIMIT, MOST_NUMBERED, MOST_WORKSTATIONS, PromptDef};
use composer_parser::{CalendarDef, CpuDef, DomainDef, JobDef, ResourceDef};
use definition_names::Names;

/// The first fault of the workstations.
#[tactic(auto, unfolding(crate::specs::Items::cpu_faults))]
pub(crate) fn in_cpus<'a>(names: &Names<'a>) -> Option<Fault>
    ensures { result ≡ earliest (spec.cpu_faults names.now) }
{
    let cpus = names.defs().cpus.as_slice();
    let mut first = None;
    for (i, cpu) in cpus.iter().enumerate() {
        first = noted(first, cpu.line, of_cpu(names, i, &cpu.item));
    }
    first
}

fn of_cpu<'a>(names: &Names<'a>, i: usize, cpu: &'a CpuDef) -> Option<Kind>
    ensures { result ≡ first_of_these (spec.cpu_rows names.now i cpu.now) }
{
    if !stands_at(names.cpu(&cpu.name), i) {
        return Some(Kind::Duplicate);
    }
    if names.domain(&cpu.domain).is_none() {
        return Some(Kind::UnknownName);
    }
    if i == MOST_WORKSTATIONS || is_bad_port(cpu.port) {
        return Some(Kind::OutOfRange);
    }
    None
}

fn is_bad_port(port: Option<u32>) -> bool
    ensures { result ≡ spec.is_bad_port port }
{
    match port {
        Some(number) => number < 1 || 65_535 < number,
        None => false,
    }
}

/// The first fault of the domains, where `ends` says whether the chain of each one ends at a domain without a parent.
#[tactic(auto, unfolding(crate::specs::Items::domain_faults))]
pub(crate) fn in_domains<'a>(names: &Names<'a>, ends: &[bool]) -> Option<Fault>
    requires { ends.now ≡ all_ends names.now }
    ensures { result ≡ earliest (spec.domain_faults names.now) }
{
    let has_top = has_top(names);
    let domains = names.defs().domains.as_slice();
    let mut first = None;
    for (i, domain) in domains.iter().enumerate() {
        let strays = is_stray(has_top, ends, i);
        first = noted(
            first,
            domain.line,
            of_domain(names, i, strays, &domain.item),
        );
    }
    first
}

/// Whether the chain at a place does not end, where some domain has no parent.
fn is_stray(has_top: bool, ends: &[bool], i: usize) -> bool
    ensures { result ≡ (has_top && not (slice_index_or ends.now i false)) }
{
    has_top && !ends_at(ends, i)
}

fn ends_at(ends: &[bool], i: usize) -> bool
    ensures { result ≡ slice_index_or ends.now i false }
{
    match ends.get(i) {
        Some(end) => *end,
        None => false,
    }
}

/// Whether some domain has no parent.
fn has_top<'a>(names: &Names<'a>) -> bool
    ensures { result ≡ spec.has_top names.now }
{
    let domains = names.defs().domains.as_slice();
    for domain in domains {
        if domain.item.parent.is_none() {
            return true;
        }
    }
    false
}

fn of_domain<'a>(names: &Names<'a>, i: usize, strays: bool, domain: &'a DomainDef) -> Option<Kind>
    ensures { result ≡ first_of_these (spec.domain_rows names.now i strays domain.now) }
{
    if !stands_at(names.domain(&domain.name), i) {
        return Some(Kind::Duplicate);
    }
    if names.cpu(&domain.manager).is_none() || lacks_parent(names, domain) {
        return Some(Kind::UnknownName);
    }
    if strays {
        return Some(Kind::Tree);
    }
    None
}

/// Whether the domain has a parent that is not defined.
fn lacks_parent<'a>(names: &Names<'a>, domain: &'a DomainDef) -> bool
    ensures { result ≡ spec.lacks_parent names.now domain.now }
{
    match &domain.parent {
        Some(parent) => names.domain(parent).is_none(),
        None => false,
    }
}

/// The first fault of the calendars.
#[tactic(auto, unfolding(crate::specs::Items::calendar_faults))]
pub(crate) fn in_calendars<'a>(names: &Names<'a>) -> Option<Fault>
    ensures { result ≡ earliest (spec.calendar_faults names.now) }
{
    let calendars = names.defs().calendars.as_slice();
    let mut first = None;
    for (i, calendar) in calendars.iter().enumerate() {
        first = noted(first, calendar.line, of_calendar(names, i, &calendar.item));
    }
    first
}

fn of_calendar<'a>(names: &Names<'a>, i: usize, calendar: &'a CalendarDef) -> Option<Kind>
    ensures { result ≡ first_of_these (spec.calendar_rows names.now i calendar.now) }
{
    if !stands_at(names.calendar(&calendar.name), i) {
        return Some(Kind::Duplicate);
    }
    None
}

/// The first fault of the prompts.
#[tactic(auto, unfolding(crate::specs::Items::prompt_faults))]
pub(crate) fn in_prompts<'a>(names: &Names<'a>) -> Option<Fault>
    ensures { result ≡ earliest (spec.prompt_faults names.now) }
{
    let prompts = names.defs().prompts.as_slice();
    let mut first = None;
    for (i, prompt) in prompts.iter().enumerate() {
        first = noted(first, prompt.line, of_prompt(names, i, &prompt.item));
    }
    first
}

fn of_prompt<'a>(names: &Names<'a>, i: usize, prompt: &'a PromptDef) -> Option<Kind>
    ensures { result ≡ first_of_these (spec.prompt_rows names.now i prompt.now) }
{
    if !stands_at(names.prompt(&prompt.name), i) {
        return Some(Kind::Duplicate);
    }
    if i == MOST_NUMBERED {
        return Some(Kind::OutOfRange);
    }
    None
}

/// The first fault of the resources.
#[tactic(auto, unfolding(crate::specs::Items::resource_faults))]
pub(crate) fn in_resources<'a>(names: &Names<'a>) -> Option<Fault>
    ensures { result ≡ earliest (spec.resource_faults names.now) }
{
    let resources = names.defs().resources.as_slice();
    let mut first = None;
    for (i, resource) in resources.iter().enumerate() {
        first = noted(first, resource.line, of_resource(names, i, &resource.item));
    }
    first
}

fn of_resource<'a>(names: &Names<'a>, i: usize, resource: &'a ResourceDef) -> Option<Kind>
    ensures { result ≡ first_of_these (spec.resource_rows names.now i resource.now) }
{
    if !stands_at(names.resource(&resource.ws, &resource.name), i) {
        return Some(Kind::Duplicate);
    }
    if names.cpu(&resource.ws).is_none() {
        return Some(Kind::UnknownName);
    }
    if i == MOST_NUMBERED || resource.total > GREATEST_LIMIT as u32 {
        return Some(Kind::OutOfRange);
    }
    None
}

/// The first fault of the jobs of `$JOBS`, their conditions left out.
#[tactic(auto, unfolding(crate::specs::Items::job_faults))]
pub(crate) fn in_jobs<'a>(names: &Names<'a>) -> Option<Fault>
    ensures { result ≡ earliest (spec.job_faults names.now) }
{
    let jobs = names.defs().jobs.as_slice();
    let mut first = None;
    for (i, job) in jobs.iter().enumerate() {
        first = noted(first, job.line, of_job(names, i, &job.item));
    }
    first
}

fn of_job<'a>(names: &Names<'a>, i: usize, job: &'a JobDef) -> Option<Kind>
    ensures { result ≡ first_of_these (spec.job_rows names.now i job.now) }
{
    if !stands_at(names.job(&job.ws, &job.name), i) {
        return Some(Kind::Duplicate);
    }
    if names.cpu(&job.ws).is_none() {
        return Some(Kind::UnknownName);
    }
    None
}
