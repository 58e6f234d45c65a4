//! Calendars, prompts, resources and jobs.
ghost use Rattle.std.specs.Prelude.{◌≡◌, ◌++◌, OnOk, map, flat_map};
ghost use Rattle.composer_print.specs.Normal.{bare};
ghost use Rattle.composer_print.specs.Groups as spec;

use crate::days::write_date;
use crate::works::write_work;
use base_types::{PromptDef, Text};
use composer_parser::{CalendarDef, JobDef, Lined, ResourceDef};
use std::io::{self, Write};
use syntax::write_quoted;

#[tactic(auto, unfolding(crate::specs::Groups::note_text))]
fn write_note(out: &mut Vec<u8>, note: &Option<Text>) -> io::Result<()>
    ensures { OnOk result (out.new.items ≡ out.old.items ++ spec.note_text note.now) }
{
    match note {
        None => Ok(()),
        Some(text) => {
            write!(out, " ")?;
            write_quoted(out, text)
        }
    }
}

fn write_days(out: &mut Vec<u8>, days: &[u32]) -> io::Result<()>
    ensures { OnOk result (out.new.items ≡ out.old.items ++ flat_map spec.day_text days.now) }
{
    for day in days {
        write!(out, " ")?;
        write_date(out, *day)?;
    }
    Ok(())
}

#[tactic(auto, unfolding(crate::specs::Groups::calendar_line))]
fn write_calendar(out: &mut Vec<u8>, calendar: &CalendarDef) -> io::Result<()>
    ensures { OnOk result (out.new.items ≡ out.old.items ++ spec.calendar_line calendar.now) }
{
    write!(out, "{}", calendar.name.as_str())?;
    write_note(out, &calendar.text)?;
    write_days(out, calendar.days.as_slice())?;
    write!(out, "\n")
}

/// Writes the calendars, with their header where there is one.
pub(crate) fn write_calendars(out: &mut Vec<u8>, calendars: &[Lined<CalendarDef>]) -> io::Result<()>
    ensures { OnOk result (out.new.items ≡ out.old.items ++ spec.calendars_text (map bare calendars.now)) }
{
    if calendars.is_empty() {
        return Ok(());
    }
    write!(out, "$CALENDAR\n")?;
    for calendar in calendars {
        write_calendar(out, &calendar.item)?;
    }
    Ok(())
}

#[tactic(auto, unfolding(crate::specs::Groups::prompt_line))]
fn write_prompt(out: &mut Vec<u8>, prompt: &PromptDef) -> io::Result<()>
    ensures { OnOk result (out.new.items ≡ out.old.items ++ spec.prompt_line prompt.now) }
{
    write!(out, "{} ", prompt.name.as_str())?;
    write_quoted(out, &prompt.text)?;
    write!(out, "\n")
}

/// Writes the prompts, with their header where there is one.
pub(crate) fn write_prompts(out: &mut Vec<u8>, prompts: &[Lined<PromptDef>]) -> io::Result<()>
    ensures { OnOk result (out.new.items ≡ out.old.items ++ spec.prompts_text (map bare prompts.now)) }
{
    if prompts.is_empty() {
        return Ok(());
    }
    write!(out, "$PROMPT\n")?;
    for prompt in prompts {
        write_prompt(out, &prompt.item)?;
    }
    Ok(())
}

#[tactic(auto, unfolding(crate::specs::Groups::resource_line))]
fn write_resource(out: &mut Vec<u8>, resource: &ResourceDef) -> io::Result<()>
    ensures { OnOk result (out.new.items ≡ out.old.items ++ spec.resource_line resource.now) }
{
    let total = resource.total;
    write!(
        out,
        "{}#{} {total}",
        resource.ws.as_str(),
        resource.name.as_str()
    )?;
    write_note(out, &resource.text)?;
    write!(out, "\n")
}

/// Writes the resources, with their header where there is one.
pub(crate) fn write_resources(out: &mut Vec<u8>, resources: &[Lined<ResourceDef>]) -> io::Result<()>
    ensures { OnOk result (out.new.items ≡ out.old.items ++ spec.resources_text (map bare resources.now)) }
{
    if resources.is_empty() {
        return Ok(());
    }
    write!(out, "$RESOURCE\n")?;
    for resource in resources {
        write_resource(out, &resource.item)?;
    }
    Ok(())
}

#[tactic(auto, unfolding(crate::specs::Groups::job_line))]
fn write_job(out: &mut Vec<u8>, job: &JobDef) -> io::Result<()>
    ensures { OnOk result (out.new.items ≡ out.old.items ++ spec.job_line job.now) }
{
    write!(out, "{}#{}", job.ws.as_str(), job.name.as_str())?;
    write_work(out, &job.work)?;
    write!(out, "\n")
}

/// Writes the jobs, with their header where there is one.
pub(crate) fn write_jobs(out: &mut Vec<u8>, jobs: &[Lined<JobDef>]) -> io::Result<()>
    ensures { OnOk result (out.new.items ≡ out.old.items ++ spec.jobs_text (map bare jobs.now)) }
{
    if jobs.is_empty() {
        return Ok(());
    }
    write!(out, "$JOBS\n")?;
    for job in jobs {
        write_job(out, &job.item)?;
    }
    Ok(())
}
