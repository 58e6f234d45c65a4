//! Jobs before they are planned.
ghost use Rattle.std.specs.Prelude.{◌≡◌, ◌≢◌, ◌≤◌, [], Err, IfOk, length};
ghost use Rattle.model.specs.Types as types;
ghost use Rattle.model.specs.Types.{Command};
ghost use Rattle.rc_conditions.specs.Machine.{read_of};
ghost use Rattle.rc_conditions.specs.declared.CondFault.TheVariants as refusal;
ghost use Rattle.record_script.specs.Networks.{first_or};
ghost use Rattle.record_script.specs.Plans as spec;

use crate::deps::draft_deps;
use crate::numbers::Numbers;
use crate::spans::until_object;
use crate::values::{text_within, within};
use base_types::{
    Cond, Copied, Items, JobDraft, JobDrafts, LONGEST_TEXT, NoMemory, Recovery, Text, Work,
};
use rc_conditions::{CondFault, read_cond};
use record_rows::{JobRow, PartRow, Row, StreamRow};
use std::alloc::Global;

/// What a job with these parts runs.
fn work(alloc: Global, rows: &[Row]) -> Result<Work, NoMemory>
    ensures { IfOk result (λ w. w ≡ first_or (Command []) spec.work_in rows.now) }
{
    for row in rows {
        match row {
            Row::Part(PartRow::Command(text)) => {
                return Ok(Work::Command(text_within(alloc, text)?));
            }
            Row::Part(PartRow::Script(text)) => {
                return Ok(Work::Script(text_within(alloc, text)?));
            }
            _ => {}
        }
    }
    Ok(Work::Command(Text::new(alloc)))
}

/// The user of a job with these parts.
fn logon(alloc: Global, rows: &[Row]) -> Result<Text, NoMemory>
    ensures { IfOk result (λ t. t ≡ first_or [] spec.logon_in rows.now) }
{
    for row in rows {
        if let Row::Part(PartRow::Logon(text)) = row {
            return text_within(alloc, text);
        }
    }
    Ok(Text::new(alloc))
}

/// The condition that was read, and the empty one of a text that is none. The only error is that memory ran out.
fn operations(alloc: Global, read: Result<Cond, CondFault>) -> Result<Cond, NoMemory>
    ensures same { IfOk result (λ c. c ≡ spec.operations read) }
    ensures told { IfOk result (λ c. read ≢ Err refusal.NoMemory) }
{
    match read {
        Ok(cond) => Ok(cond),
        Err(CondFault::NoMemory) => Err(NoMemory),
        Err(_) => Ok(Items::new(alloc)),
    }
}

/// The condition that a text is, and the empty one of a text that is none.
fn read(alloc: Global, text: &str) -> Result<Cond, NoMemory>
    requires { length text.now ≤ 4096 }
    ensures { IfOk result (λ c. c ≡ spec.operations (read_of text.now)) }
{
    let cond = operations(alloc, read_cond(alloc, text))?;
    Ok(cond)
}

/// The condition that a text of at most 4,096 bytes is, and the empty one of another text.
fn condition(alloc: Global, text: &Text) -> Result<Cond, NoMemory>
    ensures { IfOk result (λ c. c ≡ spec.condition text.now) }
{
    if text.len() > LONGEST_TEXT {
        return Ok(Items::new(alloc));
    }
    read(alloc, text.as_str())
}

/// When an end of a job with these parts is a good one.
fn cond(alloc: Global, rows: &[Row]) -> Result<Cond, NoMemory>
    ensures { IfOk result (λ c. c ≡ first_or [] spec.cond_in rows.now) }
{
    for row in rows {
        if let Row::Part(PartRow::Cond(text)) = row {
            let text = text_within(alloc, text)?;
            return condition(alloc, &text);
        }
    }
    Ok(Items::new(alloc))
}

/// What comes after a bad end of a job with these parts.
fn recovery(rows: &[Row]) -> Recovery
    ensures { result ≡ first_or types.Recovery.Stop spec.recovery_in rows.now }
{
    for row in rows {
        if let Row::Part(PartRow::Recovery(recovery)) = row {
            return *recovery;
        }
    }
    Recovery::Stop
}

/// What a job with these parts runs, and for whom.
fn work_and_logon(alloc: Global, rows: &[Row]) -> Result<(Work, Text), NoMemory>
    ensures work { IfOk result (λ p. p.0 ≡ first_or (Command []) spec.work_in rows.now) }
    ensures logon { IfOk result (λ p. p.1 ≡ first_or [] spec.logon_in rows.now) }
{
    Ok((work(alloc, rows)?, logon(alloc, rows)?))
}

/// A copy of a job's name, and when an end of the job with these parts is a good one.
fn name_and_cond(alloc: Global, name: &Text, rows: &[Row]) -> Result<(Text, Cond), NoMemory>
    ensures name { IfOk result (λ p. p.0 ≡ name.now) }
    ensures cond { IfOk result (λ p. p.1 ≡ first_or [] spec.cond_in rows.now) }
{
    Ok((name.copy()?, cond(alloc, rows)?))
}

/// A job of a stream, with the rows behind it.
#[tactic(auto, unfolding(crate::specs::Plans::job_draft))]
fn job_draft<'a>(
    alloc: Global,
    numbers: &Numbers<'a>,
    stream: &'a StreamRow,
    job: &'a JobRow,
    behind: &'a [Row],
) -> Result<JobDraft, NoMemory>
    ensures { IfOk result (λ d. d ≡ spec.job_draft numbers.now stream.now job.now behind.now) }
{
    let own = until_object(behind);
    let (work, logon) = work_and_logon(alloc, own)?;
    let (name, cond) = name_and_cond(alloc, &job.name, own)?;
    let deps = draft_deps(alloc, numbers, stream, &job.ws, own)?;
    Ok(JobDraft {
        ws: numbers.ws(&job.ws),
        name,
        priority: within(0, &job.priority),
        work,
        logon,
        cond,
        recovery: recovery(own),
        deps,
    })
}

/// The jobs among rows of a stream.
pub(crate) fn job_drafts<'a>(
    alloc: Global,
    numbers: &Numbers<'a>,
    stream: &'a StreamRow,
    rows: &'a [Row],
) -> Result<JobDrafts, NoMemory>
    ensures { IfOk result (λ l. l ≡ spec.jobs_in numbers.now stream.now rows.now) }
{
    let mut jobs = Items::new(alloc);
    for (i, row) in rows.iter().enumerate() {
        if let Row::Job(job) = row {
            jobs.push(job_draft(alloc, numbers, stream, job, &rows[i + 1..])?)?;
        }
    }
    Ok(jobs)
}
