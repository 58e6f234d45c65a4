//! The streams and jobs that the names in a submitted draft stand for: itself, or else the last of the members.
ghost use Rattle.std.specs.Prelude.{ℕ, ◌≡◌, ◌&&◌, ◌==◌, find, option_and_then, option_map};
ghost use Rattle.std.specs.List.{enumerate_from};
ghost use Rattle.model.specs.Types.{JobDoc as Doc, JobDraft as Draft};
ghost use Rattle.model.specs.Equalities.{text_eq};
ghost use Rattle.model.specs.History.{view_of};
ghost use Rattle.model.specs.NewPlan.{Named, resolve_job, resolve_stream};
ghost use Rattle.event_audit.specs.Drafts.{own_named, members_named};

use crate::names::{is_text, last_member};
use base_types::{JobDoc, JobDraft, StreamDoc, StreamDraft, Text, Ws};
use owner_fold::Owners;

/// Whether a draft has this workstation and name.
fn is_itself(draft: &StreamDraft, ws: Ws, name: &Text) -> bool
    ensures { result ≡ ((draft.now.ws == ws) && text_eq draft.now.name name.now) }
{
    draft.ws.0 == ws.0 && is_text(&draft.name, name)
}

/// The number of the stream that a workstation and name stand for. It may be one past the greatest that a field holds.
pub(crate) fn followed_stream(
    owners: &Owners,
    draft: &StreamDraft,
    ws: Ws,
    name: &Text,
) -> Option<u64>
    ensures { let V = view_of owners.now in
        result ≡ option_map (λ (s : Named). s.number)
        (resolve_stream (own_named V draft.now) (members_named V) ws name.now) }
{
    if is_itself(draft, ws, name) {
        return Some(1 + u64::from(owners.last_stream().0));
    }
    match last_member(owners, ws, name) {
        None => None,
        Some(doc) => Some(stream_number(doc)),
    }
}

/// The number of a stream.
fn stream_number(doc: &StreamDoc) -> u64
    ensures { result ≡ doc.now.no }
{
    u64::from(doc.no.0)
}

/// The number of the first job of this name in the stream that a workstation and name stand for. It may be past the
/// greatest that a field holds.
pub(crate) fn followed_job(
    owners: &Owners,
    draft: &StreamDraft,
    ws: Ws,
    name: &Text,
    job: &Text,
) -> Option<u128>
    ensures { let V = view_of owners.now in
        result ≡ option_and_then (resolve_job job.now)
        (resolve_stream (own_named V draft.now) (members_named V) ws name.now) }
{
    if is_itself(draft, ws, name) {
        return drafted_job(
            1 + u64::from(owners.last_job().0),
            draft.jobs.as_slice(),
            job,
        );
    }
    match last_member(owners, ws, name) {
        None => None,
        Some(doc) => planned_job(doc.jobs.as_slice(), job),
    }
}

/// The number of the first of these drafts with this name, where they are numbered from this one on.
fn drafted_job(first: u64, jobs: &[JobDraft], name: &Text) -> Option<u128>
    ensures { result ≡ option_map (λ (p : ℕ × Draft). p.0)
        (find (λ (p : ℕ × Draft). text_eq p.1.name name.now) (enumerate_from first jobs.now)) }
{
    for (i, job) in jobs.iter().enumerate() {
        if is_text(&job.name, name) {
            return Some(u128::from(first) + i as u128);
        }
    }
    None
}

/// The number of the first of these jobs with this name.
fn planned_job(jobs: &[JobDoc], name: &Text) -> Option<u128>
    ensures { result ≡ option_map (λ (j : Doc). j.no) (find (λ (j : Doc). text_eq j.name name.now) jobs.now) }
{
    for job in jobs {
        if is_text(&job.name, name) {
            return Some(u128::from(job.no.0));
        }
    }
    None
}
