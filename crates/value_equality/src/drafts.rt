//! Whether two drafts are one.
ghost use Rattle.std.specs.Prelude.{◌≡◌};
ghost use Rattle.std.specs.Bool.{Decides};

use crate::conditions::{is_same_cond, is_same_recovery, is_same_work};
use crate::draft_deps::are_same_draft_deps;
use crate::texts::is_same_text;
use base_types::{JobDraft, StreamDraft};

/// Whether the two drafts of jobs are one.
fn is_same_job_draft(a: &JobDraft, b: &JobDraft) -> bool
    ensures { Decides result (a.now ≡ b.now) }
{
    a.ws.0 == b.ws.0
        && is_same_text(&a.name, &b.name)
        && a.priority == b.priority
        && is_same_work(&a.work, &b.work)
        && is_same_text(&a.logon, &b.logon)
        && is_same_cond(&a.cond, &b.cond)
        && is_same_recovery(&a.recovery, &b.recovery)
        && are_same_draft_deps(a.deps.as_slice(), b.deps.as_slice())
}

/// Whether the two lists of drafts are one.
fn are_same_job_drafts(a: &[JobDraft], b: &[JobDraft]) -> bool
    ensures { Decides result (a.now ≡ b.now) }
{
    if a.len() != b.len() {
        return false;
    }
    for (i, draft) in a.iter().enumerate() {
        if !is_same_job_draft(draft, &b[i]) {
            return false;
        }
    }
    true
}

/// Whether the two drafts of streams are one.
pub fn is_same_draft(a: &StreamDraft, b: &StreamDraft) -> bool
    ensures { Decides result (a.now ≡ b.now) }
{
    a.ws.0 == b.ws.0
        && is_same_text(&a.name, &b.name)
        && a.priority == b.priority
        && a.limit == b.limit
        && a.carry == b.carry
        && are_same_draft_deps(a.deps.as_slice(), b.deps.as_slice())
        && are_same_job_drafts(a.jobs.as_slice(), b.jobs.as_slice())
}
