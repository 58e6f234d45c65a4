//! Which version an entry needs: 2 where its body is a lateness or has a DEADLINE, and else 1.
ghost use Rattle.std.specs.Prelude.{◌≡◌};
ghost use Rattle.std.specs.List.{list_any};
ghost use Rattle.model.specs.Versions as needed;

use base_types::{Body, Cmd, Dep, DraftDep, JobDoc, JobDraft, StreamDoc, StreamDraft};

/// The version of an entry with this body.
#[tactic(auto, unfolding(model::specs::Versions::version))]
pub(crate) fn version(body: &Body) -> u8
    ensures { result ≡ needed.version body.now }
{
    if is_second(body) { 2 } else { 1 }
}

fn is_second(body: &Body) -> bool
    ensures { result ≡ needed.is_second body.now }
{
    match body {
        Body::NewPlan(_, _, _, docs) => any_has_deadline(docs.as_slice()),
        Body::Added(_, _, doc) => has_deadline(doc),
        Body::Obeyed(_, _, cmd) | Body::Order(cmd) => cmd_has_deadline(cmd),
        Body::Late(..) => true,
        _ => false,
    }
}

fn any_has_deadline(docs: &[StreamDoc]) -> bool
    ensures { result ≡ list_any needed.doc_has_deadline docs.now }
{
    for doc in docs {
        if has_deadline(doc) {
            return true;
        }
    }
    false
}

fn cmd_has_deadline(cmd: &Cmd) -> bool
    ensures { result ≡ needed.cmd_has_deadline cmd.now }
{
    match cmd {
        Cmd::AddDep(_, dep) => is_deadline(dep),
        Cmd::Submit(draft) => draft_has_deadline(draft),
        _ => false,
    }
}

/// Whether a stream or one of its jobs has a DEADLINE.
pub fn has_deadline(doc: &StreamDoc) -> bool
    ensures { result ≡ needed.doc_has_deadline doc.now }
{
    any_deadline(doc.deps.as_slice()) || any_job_has_one(doc.jobs.as_slice())
}

fn any_job_has_one(jobs: &[JobDoc]) -> bool
    ensures { result ≡ list_any (λ (j : JobDoc). list_any needed.is_deadline j.deps) jobs.now }
{
    for job in jobs {
        if any_deadline(job.deps.as_slice()) {
            return true;
        }
    }
    false
}

fn any_deadline(deps: &[Dep]) -> bool
    ensures { result ≡ list_any needed.is_deadline deps.now }
{
    for dep in deps {
        if is_deadline(dep) {
            return true;
        }
    }
    false
}

fn is_deadline(dep: &Dep) -> bool
    ensures { result ≡ needed.is_deadline dep.now }
{
    match dep {
        Dep::Deadline(_) => true,
        _ => false,
    }
}

fn draft_has_deadline(draft: &StreamDraft) -> bool
    ensures { result ≡ needed.draft_has_deadline draft.now }
{
    any_draft_deadline(draft.deps.as_slice()) || any_job_draft_has_one(draft.jobs.as_slice())
}

fn any_job_draft_has_one(jobs: &[JobDraft]) -> bool
    ensures { result ≡ list_any (λ (j : JobDraft). list_any needed.is_draft_deadline j.deps) jobs.now }
{
    for job in jobs {
        if any_draft_deadline(job.deps.as_slice()) {
            return true;
        }
    }
    false
}

fn any_draft_deadline(deps: &[DraftDep]) -> bool
    ensures { result ≡ list_any needed.is_draft_deadline deps.now }
{
    for dep in deps {
        if is_draft_deadline(dep) {
            return true;
        }
    }
    false
}

fn is_draft_deadline(dep: &DraftDep) -> bool
    ensures { result ≡ needed.is_draft_deadline dep.now }
{
    match dep {
        DraftDep::Plain(dep) => is_deadline(dep),
        DraftDep::Follows(..) => false,
    }
}
