//! Whether a document is that of a submitted draft: numbered, with its names resolved, and all else as drafted.
ghost use Rattle.std.specs.Prelude.{◌≡◌, ◌+◌, map};
ghost use Rattle.std.specs.Bool.{Decides};
ghost use Rattle.std.specs.List.{enumerate_from};
ghost use Rattle.model.specs.History.{view_of};
ghost use Rattle.model.specs.NewPlan.{last_job, numbered};
ghost use Rattle.event_audit.specs.Drafts.{HasHead, HasWork, job_given};

use crate::draft_deps::are_resolved_as;
use base_types::{JobDoc, JobDraft, Jobs, StreamDoc, StreamDraft};
use owner_fold::Owners;
use value_equality::{is_same_cond, is_same_recovery, is_same_text, is_same_work};

/// Whether a document is that of a submitted draft: the only fresh stream, over the members of the plan. No limit of a
/// plan counts here.
pub(crate) fn is_document_of(owners: &Owners, draft: &StreamDraft, doc: &StreamDoc) -> bool
    ensures { Decides result (numbered (view_of owners.now) draft.now ≡ doc.now) }
{
    if !has_head(owners, draft, doc) {
        return false;
    }
    if !are_resolved_as(owners, draft, &draft.deps, &doc.deps) {
        return false;
    }
    has_jobs(owners, draft, &doc.jobs)
}

/// Whether a document has the next number, and all that its draft has but for dependencies and jobs.
fn has_head(owners: &Owners, draft: &StreamDraft, doc: &StreamDoc) -> bool
    ensures { Decides result (HasHead (view_of owners.now) draft.now doc.now) }
{
    u64::from(doc.no.0) == 1 + u64::from(owners.last_stream().0)
        && draft.ws.0 == doc.ws.0
        && is_same_text(&draft.name, &doc.name)
        && draft.priority == doc.priority
        && draft.limit == doc.limit
        && draft.carry == doc.carry
}

/// Whether jobs are those of a draft, numbered after the catalogue's.
fn has_jobs(owners: &Owners, draft: &StreamDraft, docs: &Jobs) -> bool
    ensures { let V = view_of owners.now in Decides result
        (map (job_given V draft.now) (enumerate_from (1 + last_job V) draft.now.jobs) ≡ docs.now) }
{
    let first = 1 + u64::from(owners.last_job().0);
    are_jobs_of(owners, draft, first, draft.jobs.as_slice(), docs.as_slice())
}

/// Whether jobs are those of these drafts, numbered from this one on.
fn are_jobs_of(
    owners: &Owners,
    draft: &StreamDraft,
    first: u64,
    drafts: &[JobDraft],
    docs: &[JobDoc],
) -> bool
    ensures { let V = view_of owners.now in Decides result
        (map (job_given V draft.now) (enumerate_from first drafts.now) ≡ docs.now) }
{
    if drafts.len() != docs.len() {
        return false;
    }
    for (i, job) in drafts.iter().enumerate() {
        let number = u128::from(first) + i as u128;
        if !is_job_of(owners, draft, number, job, &docs[i]) {
            return false;
        }
    }
    true
}

/// Whether a job is that of a job's draft with this number.
fn is_job_of(
    owners: &Owners,
    draft: &StreamDraft,
    number: u128,
    job: &JobDraft,
    doc: &JobDoc,
) -> bool
    ensures { Decides result (job_given (view_of owners.now) draft.now (number, job.now) ≡ doc.now) }
{
    if !has_number(doc, number) {
        return false;
    }
    if !has_work(job, doc) {
        return false;
    }
    are_resolved_as(owners, draft, &job.deps, &doc.deps)
}

/// Whether a job has this number, which may be past the greatest that a field holds.
fn has_number(doc: &JobDoc, number: u128) -> bool
    ensures { Decides result (number ≡ doc.now.no) }
{
    u128::from(doc.no.0) == number
}

/// Whether a job has all that its draft has but for dependencies.
fn has_work(job: &JobDraft, doc: &JobDoc) -> bool
    ensures { Decides result (HasWork job.now doc.now) }
{
    job.ws.0 == doc.ws.0
        && is_same_text(&job.name, &doc.name)
        && job.priority == doc.priority
        && is_same_work(&job.work, &doc.work)
        && is_same_text(&job.logon, &doc.logon)
        && is_same_cond(&job.cond, &doc.cond)
        && is_same_recovery(&job.recovery, &doc.recovery)
}
