//! The lines of a job.
ghost use Rattle.std.specs.Prelude.{◌≡◌, ◌++◌, OnOk};
ghost use Rattle.plan_listing.specs.Streams as spec;

use crate::conditions::cond_text;
use crate::dependencies::write_dependencies;
use base_types::{DEFAULT_PRIORITY, JobDraft, Net, NoMemory, Recovery, Text, Work};
use report_text::name;
use std::alloc::Global;
use std::io::{self, Write};
use syntax::write_quoted;

/// Writes the lines of a job.
pub(crate) fn put_job(
    alloc: Global,
    out: &mut Vec<u8>,
    net: &Net,
    job: &JobDraft,
) -> Result<(), NoMemory>
    ensures { OnOk result (out.new.items ≡ out.old.items ++ spec.job_text net.now job.now) }
{
    let cond = cond_text(alloc, &job.cond)?;
    match write_job(out, net, job, &cond) {
        Ok(()) => Ok(()),
        Err(_) => Err(NoMemory),
    }
}

/// Writes the lines of a job whose condition has this text.
#[tactic(auto, unfolding(crate::specs::Streams::job_lines))]
fn write_job(out: &mut Vec<u8>, net: &Net, job: &JobDraft, cond: &Text) -> io::Result<()>
    ensures { OnOk result (out.new.items ≡ out.old.items ++ spec.job_lines net.now job.now cond.now) }
{
    write_job_head(out, net, job)?;
    write_job_body(out, job, cond)?;
    write_dependencies(out, net, job.deps.as_slice())
}

/// Writes the first line of a job.
#[tactic(auto, unfolding(crate::specs::Streams::job_head))]
fn write_job_head(out: &mut Vec<u8>, net: &Net, job: &JobDraft) -> io::Result<()>
    ensures { OnOk result (out.new.items ≡ out.old.items ++ spec.job_head net.now job.now) }
{
    let ws = name(net, &job.ws);
    write!(out, "job {ws} {}", job.name)?;
    write_priority(out, job.priority)?;
    write!(out, "\n")
}

/// Writes what a job runs, where its condition has this text.
#[tactic(auto, unfolding(crate::specs::Streams::job_body))]
fn write_job_body(out: &mut Vec<u8>, job: &JobDraft, cond: &Text) -> io::Result<()>
    ensures { OnOk result (out.new.items ≡ out.old.items ++ spec.job_body job.now cond.now) }
{
    write_work(out, &job.work)?;
    write_logon(out, &job.logon)?;
    write_cond(out, job.cond.is_empty(), cond)?;
    write_recovery(out, job.recovery)
}

/// Writes a priority that is not 10.
pub(crate) fn write_priority(out: &mut Vec<u8>, priority: u8) -> io::Result<()>
    ensures { OnOk result (out.new.items ≡ out.old.items ++ spec.priority_part priority) }
{
    if priority == DEFAULT_PRIORITY {
        return Ok(());
    }
    write!(out, " prio {priority}")
}

/// Writes what a job runs. The empty command has no line.
fn write_work(out: &mut Vec<u8>, work: &Work) -> io::Result<()>
    ensures { OnOk result (out.new.items ≡ out.old.items ++ spec.work_line work.now) }
{
    match work {
        Work::Command(text) => write_command(out, text),
        Work::Script(path) => {
            write!(out, "script ")?;
            write_quoted(out, path)?;
            write!(out, "\n")
        }
    }
}

fn write_command(out: &mut Vec<u8>, text: &Text) -> io::Result<()>
    ensures { OnOk result (out.new.items ≡ out.old.items ++ spec.command_line text.now) }
{
    if text.len() == 0 {
        return Ok(());
    }
    write!(out, "do ")?;
    write_quoted(out, text)?;
    write!(out, "\n")
}

fn write_logon(out: &mut Vec<u8>, logon: &Text) -> io::Result<()>
    ensures { OnOk result (out.new.items ≡ out.old.items ++ spec.logon_line logon.now) }
{
    if logon.len() == 0 {
        return Ok(());
    }
    write!(out, "logon ")?;
    write_quoted(out, logon)?;
    write!(out, "\n")
}

/// Writes the text of a condition, unless it is the default one.
fn write_cond(out: &mut Vec<u8>, is_default: bool, text: &Text) -> io::Result<()>
    ensures { OnOk result (out.new.items ≡ out.old.items ++ spec.cond_line is_default text.now) }
{
    if is_default {
        return Ok(());
    }
    write!(out, "succ ")?;
    write_quoted(out, text)?;
    write!(out, "\n")
}

fn write_recovery(out: &mut Vec<u8>, recovery: Recovery) -> io::Result<()>
    ensures { OnOk result (out.new.items ≡ out.old.items ++ spec.recovery_line recovery) }
{
    match recovery {
        Recovery::Stop => Ok(()),
        Recovery::Continue => write!(out, "recovery continue\n"),
        Recovery::Rerun => write!(out, "recovery rerun\n"),
    }
}
