//! Streams and jobs before they are planned.
use crate::dependencies::{Waits, dep};
use base_types::{
    DraftDep, DraftDeps, Items, JobDraft, JobDrafts, NoMemory, Recovery, StreamDraft, StreamDrafts,
    Text, Work, Ws,
};
use std::alloc::Global;

/// A dependency of a draft.
#[derive(Clone, Copy)]
pub enum DraftWaits<'a> {
    /// A stream by its workstation and name.
    Stream(u16, &'a str),
    /// A job by its stream's workstation and name, and its own name.
    Job(u16, &'a str, &'a str),
    /// A dependency that names no stream and no job.
    Plain(Waits<'a>),
}

/// A job of a draft: its workstation, its name and its dependencies.
pub type JobDraftRow<'a> = (u16, &'a str, &'a [DraftWaits<'a>]);

/// A drafted stream: its workstation, its name, whether it is marked to be carried, its dependencies and its jobs.
pub type StreamDraftRow<'a> = (
    u16,
    &'a str,
    bool,
    &'a [DraftWaits<'a>],
    &'a [JobDraftRow<'a>],
);

fn on_job(alloc: Global, ws: u16, stream: &str, job: &str) -> Result<DraftDep, NoMemory> {
    let stream = Text::of(alloc, stream)?;
    let job = Text::of(alloc, job)?;
    Ok(DraftDep::Follows(Ws(ws), stream, Some(job)))
}

fn follow(alloc: Global, row: &DraftWaits) -> Result<DraftDep, NoMemory> {
    match row {
        DraftWaits::Stream(ws, name) => {
            Ok(DraftDep::Follows(Ws(*ws), Text::of(alloc, *name)?, None))
        }
        DraftWaits::Job(ws, stream, job) => on_job(alloc, *ws, *stream, *job),
        DraftWaits::Plain(waits) => Ok(DraftDep::Plain(dep(alloc, waits)?)),
    }
}

/// The dependencies of a draft, in the order of their numbers.
pub fn draft_deps(alloc: Global, rows: &[DraftWaits]) -> Result<DraftDeps, NoMemory> {
    let mut list = Items::new(alloc);
    for row in rows {
        list.push(follow(alloc, row)?)?;
    }
    Ok(list)
}

/// A drafted job of priority 10 that depends on nothing and runs `echo a`. A return code 0 is its good end, and a bad
/// end stops.
pub fn job_draft(alloc: Global, ws: u16, name: &str) -> Result<JobDraft, NoMemory> {
    let name = Text::of(alloc, name)?;
    let work = Work::Command(Text::of(alloc, "echo a")?);
    Ok(JobDraft {
        ws: Ws(ws),
        name,
        priority: 10,
        work,
        logon: Text::new(alloc),
        cond: Items::new(alloc),
        recovery: Recovery::Stop,
        deps: Items::new(alloc),
    })
}

/// A drafted stream of priority 10, marked to be carried, without a limit, dependencies and jobs.
pub fn stream_draft(alloc: Global, ws: u16, name: &str) -> Result<StreamDraft, NoMemory> {
    let name = Text::of(alloc, name)?;
    Ok(StreamDraft {
        ws: Ws(ws),
        name,
        priority: 10,
        limit: None,
        carry: true,
        deps: Items::new(alloc),
        jobs: Items::new(alloc),
    })
}

fn job_of_row(alloc: Global, row: &JobDraftRow) -> Result<JobDraft, NoMemory> {
    let deps = draft_deps(alloc, row.2)?;
    let mut draft = job_draft(alloc, row.0, row.1)?;
    draft.deps = deps;
    Ok(draft)
}

fn jobs_of_rows(alloc: Global, rows: &[JobDraftRow]) -> Result<JobDrafts, NoMemory> {
    let mut list = Items::new(alloc);
    for row in rows {
        list.push(job_of_row(alloc, row)?)?;
    }
    Ok(list)
}

fn without_jobs(alloc: Global, row: &StreamDraftRow) -> Result<StreamDraft, NoMemory> {
    let deps = draft_deps(alloc, row.3)?;
    let mut draft = stream_draft(alloc, row.0, row.1)?;
    draft.carry = row.2;
    draft.deps = deps;
    Ok(draft)
}

/// The stream of a row, of priority 10 and without a limit.
pub fn draft(alloc: Global, row: &StreamDraftRow) -> Result<StreamDraft, NoMemory> {
    let jobs = jobs_of_rows(alloc, row.4)?;
    let mut draft = without_jobs(alloc, row)?;
    draft.jobs = jobs;
    Ok(draft)
}

/// The streams of these rows.
pub fn drafts(alloc: Global, rows: &[StreamDraftRow]) -> Result<StreamDrafts, NoMemory> {
    let mut list = Items::new(alloc);
    for row in rows {
        list.push(draft(alloc, row)?)?;
    }
    Ok(list)
}
