//! Whether each FOLLOWS of a new plan names a stream that is meant by its name, or a job of one.
ghost use Rattle.std.specs.Prelude.{◌≡◌, filter_map, flat_map};
ghost use Rattle.std.specs.List.{list_all};
ghost use Rattle.model.specs.Types.{JobDoc as Job, StreamDoc as Stream};
ghost use Rattle.model.specs.History.{view_of};
ghost use Rattle.model.specs.Catalogue.{stream};
ghost use Rattle.model.specs.Sound.{deps_in_docs, follows_what_is_meant, jobs_in_docs};

use crate::meanings::is_followed_as_meant;
use base_types::{Dep, JobDoc, Obj, StreamDoc, StreamNo};
use owner_fold::Owners;

/// Whether each FOLLOWS of these documents and their jobs names a stream that is meant, or a job of one.
pub(crate) fn follow_what_is_meant(
    owners: &Owners,
    docs: &[StreamDoc],
    carried: &[StreamNo],
) -> bool
    ensures { let known = filter_map (stream (view_of owners.now)) carried.now in
        result ≡ list_all (follows_what_is_meant docs.now known) (deps_in_docs docs.now) }
{
    streams_follow_so(owners, docs, carried) && jobs_follow_so(owners, docs, carried)
}

/// Whether each FOLLOWS of these documents does.
fn streams_follow_so(owners: &Owners, docs: &[StreamDoc], carried: &[StreamNo]) -> bool
    ensures { let known = filter_map (stream (view_of owners.now)) carried.now in
        result ≡ list_all (follows_what_is_meant docs.now known) (flat_map (λ (d : Stream). d.deps) docs.now) }
{
    for doc in docs {
        if !follow_so(owners, docs, carried, doc.deps.as_slice()) {
            return false;
        }
    }
    true
}

/// Whether each FOLLOWS of their jobs does.
fn jobs_follow_so(owners: &Owners, docs: &[StreamDoc], carried: &[StreamNo]) -> bool
    ensures { let known = filter_map (stream (view_of owners.now)) carried.now in
        result ≡ list_all (follows_what_is_meant docs.now known)
        (flat_map (λ (j : Job). j.deps) (jobs_in_docs docs.now)) }
{
    for doc in docs {
        if !jobs_of_one_follow_so(owners, docs, carried, doc.jobs.as_slice()) {
            return false;
        }
    }
    true
}

/// Whether each FOLLOWS of these jobs does.
fn jobs_of_one_follow_so(
    owners: &Owners,
    docs: &[StreamDoc],
    carried: &[StreamNo],
    jobs: &[JobDoc],
) -> bool
    ensures { let known = filter_map (stream (view_of owners.now)) carried.now in
        result ≡ list_all (follows_what_is_meant docs.now known) (flat_map (λ (j : Job). j.deps) jobs.now) }
{
    for job in jobs {
        if !follow_so(owners, docs, carried, job.deps.as_slice()) {
            return false;
        }
    }
    true
}

/// Whether each FOLLOWS among these dependencies does.
fn follow_so(owners: &Owners, docs: &[StreamDoc], carried: &[StreamNo], deps: &[Dep]) -> bool
    ensures { let known = filter_map (stream (view_of owners.now)) carried.now in
        result ≡ list_all (follows_what_is_meant docs.now known) deps.now }
{
    for dep in deps {
        if !follows_so(owners, docs, carried, dep) {
            return false;
        }
    }
    true
}

/// Whether a dependency is no FOLLOWS, or names a stream that is meant, or a job of one.
fn follows_so(owners: &Owners, docs: &[StreamDoc], carried: &[StreamNo], dep: &Dep) -> bool
    ensures { result ≡
        follows_what_is_meant docs.now (filter_map (stream (view_of owners.now)) carried.now) dep.now }
{
    match dep {
        Dep::FollowsJob(j) => is_followed_as_meant(owners, docs, carried, &Obj::Job(*j)),
        Dep::FollowsStream(s) => is_followed_as_meant(owners, docs, carried, &Obj::Stream(*s)),
        Dep::Needs(_, _)
        | Dep::Prompt(_)
        | Dep::At(_)
        | Dep::Until(_, _)
        | Dep::Outside(_)
        | Dep::Deadline(_) => true,
    }
}
