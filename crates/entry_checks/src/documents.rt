//! Documents and drafts.
ghost use Rattle.std.specs.Prelude.{◌+◌};
ghost use Rattle.model.specs.Sizes as spec;
ghost use Rattle.entry_checks.specs.Left.{Takes};

use crate::parts::{bytes, cond, deps, draft_deps, text, work};
use base_types::{JobDoc, JobDraft, JobDrafts, Jobs, StreamDoc, StreamDocs, StreamDraft};

fn job_doc(left: u32, d: &JobDoc) -> Option<u32>
    ensures { Takes left (spec.job_doc_size d.now) result }
{
    let rest = text(bytes(left, 6)?, &d.name)?;
    let rest = work(bytes(rest, 1)?, &d.work)?;
    let rest = cond(text(rest, &d.logon)?, &d.cond)?;
    deps(bytes(rest, 1)?, &d.deps)
}

fn jobs(left: u32, jobs: &Jobs) -> Option<u32>
    ensures { Takes left (spec.list_size spec.job_doc_size jobs.now) result }
{
    let mut rest = bytes(left, 4)?;
    for item in jobs.as_slice() {
        rest = job_doc(rest, item)?;
    }
    Some(rest)
}

fn limit(left: u32, limit: Option<u16>) -> Option<u32>
    ensures { Takes left (spec.option_size (λ n. 2) limit) result }
{
    match limit {
        None => bytes(left, 1),
        Some(_) => bytes(left, 3),
    }
}

pub(crate) fn stream_doc(left: u32, d: &StreamDoc) -> Option<u32>
    ensures { Takes left (spec.stream_doc_size d.now) result }
{
    let rest = text(bytes(left, 6)?, &d.name)?;
    let rest = limit(bytes(rest, 1)?, d.limit)?;
    let rest = deps(bytes(rest, 1)?, &d.deps)?;
    jobs(rest, &d.jobs)
}

pub(crate) fn stream_docs(left: u32, docs: &StreamDocs) -> Option<u32>
    ensures { Takes left (spec.list_size spec.stream_doc_size docs.now) result }
{
    let mut rest = bytes(left, 4)?;
    for item in docs.as_slice() {
        rest = stream_doc(rest, item)?;
    }
    Some(rest)
}

fn job_draft(left: u32, d: &JobDraft) -> Option<u32>
    ensures { Takes left (spec.job_draft_size d.now) result }
{
    let rest = text(bytes(left, 2)?, &d.name)?;
    let rest = work(bytes(rest, 1)?, &d.work)?;
    let rest = cond(text(rest, &d.logon)?, &d.cond)?;
    draft_deps(bytes(rest, 1)?, &d.deps)
}

fn job_drafts(left: u32, jobs: &JobDrafts) -> Option<u32>
    ensures { Takes left (spec.list_size spec.job_draft_size jobs.now) result }
{
    let mut rest = bytes(left, 4)?;
    for item in jobs.as_slice() {
        rest = job_draft(rest, item)?;
    }
    Some(rest)
}

pub(crate) fn stream_draft(left: u32, d: &StreamDraft) -> Option<u32>
    ensures { Takes left (spec.stream_draft_size d.now) result }
{
    let rest = text(bytes(left, 2)?, &d.name)?;
    let rest = limit(bytes(rest, 1)?, d.limit)?;
    let rest = draft_deps(bytes(rest, 1)?, &d.deps)?;
    job_drafts(rest, &d.jobs)
}
