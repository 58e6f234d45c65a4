//! Drafts, and the commands that submit them.
ghost use Rattle.std.specs.Prelude.{◌≡◌, flat_map};
ghost use Rattle.model.specs.Workstations as spec;
ghost use Rattle.entry_checks.specs.Inside.{are_inside};

use base_types::{Cmd, DraftDep, DraftDeps, JobDraft, JobDrafts, StreamDraft, StreamDrafts};

fn is_dep_inside(count: u16, dep: &DraftDep) -> bool
    ensures { result ≡ are_inside count (spec.ws_in_draft_dep dep.now) }
{
    match dep {
        DraftDep::Follows(w, _, _) => w.0 < count,
        DraftDep::Plain(_) => true,
    }
}

fn are_deps_inside(count: u16, deps: &DraftDeps) -> bool
    ensures { result ≡ are_inside count (flat_map spec.ws_in_draft_dep deps.now) }
{
    for item in deps.as_slice() {
        if !is_dep_inside(count, item) {
            return false;
        }
    }
    true
}

fn is_job_inside(count: u16, job: &JobDraft) -> bool
    ensures { result ≡ are_inside count (spec.ws_in_job_draft job.now) }
{
    job.ws.0 < count && are_deps_inside(count, &job.deps)
}

fn are_jobs_inside(count: u16, jobs: &JobDrafts) -> bool
    ensures { result ≡ are_inside count (flat_map spec.ws_in_job_draft jobs.now) }
{
    for item in jobs.as_slice() {
        if !is_job_inside(count, item) {
            return false;
        }
    }
    true
}

fn is_draft_inside(count: u16, draft: &StreamDraft) -> bool
    ensures { result ≡ are_inside count (spec.ws_in_draft draft.now) }
{
    draft.ws.0 < count && are_deps_inside(count, &draft.deps) && are_jobs_inside(count, &draft.jobs)
}

/// Whether the drafts of a plan name workstations of a network of so many alone.
pub fn are_drafts_inside(count: u16, drafts: &StreamDrafts) -> bool
    ensures { result ≡ are_inside count (flat_map spec.ws_in_draft drafts.now) }
{
    for item in drafts.as_slice() {
        if !is_draft_inside(count, item) {
            return false;
        }
    }
    true
}

/// Whether a command names workstations of a network of so many alone.
pub fn is_cmd_inside(count: u16, command: &Cmd) -> bool
    ensures { result ≡ are_inside count (spec.ws_in_cmd command.now) }
{
    match command {
        Cmd::Submit(draft) => is_draft_inside(count, draft),
        Cmd::SwitchMgr(w) => w.0 < count,
        Cmd::AddDep(_, _) | Cmd::DelDep(_, _) | Cmd::Release(_) | Cmd::AltPri(_, _) => true,
        Cmd::Cancel(_) | Cmd::Confirm(_) | Cmd::Kill(_) | Cmd::Rerun(_) => true,
        Cmd::Fence(_) | Cmd::Limit(_) | Cmd::StreamLimit(_, _) | Cmd::Total(_, _) => true,
        Cmd::ReplyGlobal(_, _) | Cmd::ReplyOwn(_, _, _) | Cmd::Start | Cmd::Stop => true,
    }
}
