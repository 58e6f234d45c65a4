//! Documents of drafts: numbered, with their dependencies resolved, and all else as it is drafted.
ghost use Rattle.std.specs.Prelude.{◌≡◌, ◌+◌, ◌<◌, ◌≤◌, ◌^◌, [], IfOk, filter_map, length, map};
ghost use Rattle.std.specs.List.{enumerate_from};
ghost use Rattle.model.specs.Types.{Plain};
ghost use Rattle.model.specs.NewPlan.{doc_of, doc_of_job, resolve_dep};

use crate::names::Names;
use crate::numbers::Fresh;
use base_types::{
    Copied, Dep, Deps, DraftDep, Items, JobDoc, JobDraft, JobNo, Jobs, NoMemory, StreamDoc,
    StreamDocs, StreamNo,
};
use std::alloc::Global;

/// A dependency that names nothing stays. One on a job or a stream by its number goes.
fn plain(dep: &Dep) -> Result<Option<Dep>, NoMemory>
    ensures { IfOk result (λ d. d ≡ resolve_dep [] [] (Plain dep.now)) }
{
    match dep {
        Dep::FollowsJob(_) => Ok(None),
        Dep::FollowsStream(_) => Ok(None),
        _ => Ok(Some(dep.copy()?)),
    }
}

/// A dependency of a draft, where it resolves.
fn resolved<'a>(names: &Names<'a>, dep: &'a DraftDep) -> Result<Option<Dep>, NoMemory>
    ensures { IfOk result (λ d. d ≡ resolve_dep names.now.fresh names.now.earlier dep.now) }
{
    match dep {
        DraftDep::Follows(ws, name, None) => match names.stream(*ws, name) {
            None => Ok(None),
            Some(number) => Ok(Some(Dep::FollowsStream(number))),
        },
        DraftDep::Follows(ws, name, Some(job)) => match names.job(*ws, name, job) {
            None => Ok(None),
            Some(number) => Ok(Some(Dep::FollowsJob(number))),
        },
        DraftDep::Plain(dep) => plain(dep),
    }
}

/// The dependencies of a draft, without those that do not resolve.
fn dependencies<'a>(
    alloc: Global,
    names: &Names<'a>,
    drafts: &'a [DraftDep],
) -> Result<Deps, NoMemory>
    ensures { IfOk result (λ deps. deps
        ≡ filter_map (resolve_dep names.now.fresh names.now.earlier) drafts.now) }
{
    let mut deps = Items::new(alloc);
    for draft in drafts {
        if let Some(dep) = resolved(names, draft)? {
            deps.push(dep)?;
        }
    }
    Ok(deps)
}

/// The document of a job's draft.
fn job_document<'a>(
    alloc: Global,
    names: &Names<'a>,
    number: u32,
    draft: &'a JobDraft,
) -> Result<JobDoc, NoMemory>
    ensures { IfOk result (λ doc. doc ≡ doc_of_job names.now.fresh names.now.earlier (number, draft.now)) }
{
    Ok(JobDoc {
        no: JobNo(number),
        ws: draft.ws,
        name: draft.name.copy()?,
        priority: draft.priority,
        work: draft.work.copy()?,
        logon: draft.logon.copy()?,
        cond: draft.cond.copy()?,
        recovery: draft.recovery,
        deps: dependencies(alloc, names, draft.deps.as_slice())?,
    })
}

/// The documents of the jobs of a draft, numbered from this one on.
fn job_documents<'a>(
    alloc: Global,
    names: &Names<'a>,
    first: u64,
    drafts: &'a [JobDraft],
) -> Result<Jobs, NoMemory>
    requires { first + length drafts.now ≤ 2 ^ 32 }
    ensures { IfOk result (λ docs. docs
        ≡ map (doc_of_job names.now.fresh names.now.earlier) (enumerate_from first drafts.now)) }
{
    let mut docs = Items::new(alloc);
    let mut number = first;
    for draft in drafts {
        docs.push(job_document(alloc, names, number as u32, draft)?)?;
        number += 1;
    }
    Ok(docs)
}

/// The document of a fresh stream.
pub(crate) fn document<'a>(
    alloc: Global,
    names: &Names<'a>,
    fresh: &Fresh<'a>,
) -> Result<StreamDoc, NoMemory>
    ensures { IfOk result (λ doc. doc ≡ doc_of names.now.fresh names.now.earlier fresh.now) }
{
    let draft = fresh.draft;
    Ok(StreamDoc {
        no: StreamNo(fresh.number),
        ws: draft.ws,
        name: draft.name.copy()?,
        priority: draft.priority,
        limit: draft.limit,
        carry: draft.carry,
        deps: dependencies(alloc, names, draft.deps.as_slice())?,
        jobs: job_documents(alloc, names, fresh.first_job, draft.jobs.as_slice())?,
    })
}

/// The documents of fresh streams.
pub(crate) fn documents<'a>(
    alloc: Global,
    names: &Names<'a>,
    fresh: &[Fresh<'a>],
) -> Result<StreamDocs, NoMemory>
    ensures { IfOk result (λ docs. docs ≡ map (doc_of names.now.fresh names.now.earlier) fresh.now) }
{
    let mut docs = Items::new(alloc);
    for stream in fresh {
        docs.push(document(alloc, names, stream)?)?;
    }
    Ok(docs)
}
