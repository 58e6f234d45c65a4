//! Pairs of workstations: who has work on whom, and who cites whom.
ghost use Rattle.std.specs.Prelude.{◌≡◌, ◌==◌, ◌<◌, ◌^◌, ◌++◌, ◌&&◌, ◌||◌, [], ◌∷◌, ℕ, List, Some, false, flat_map, option_and_then, option_map, slice_get, true};
ghost use Rattle.std.specs.Prelude.{IfOk, OnOk};
ghost use Rattle.std.specs.Option.{option_copied, option_map_or};
ghost use Rattle.grouped_places.specs.Codes.{code};
ghost use Rattle.model.specs.Types.{Dep as Given, Entry as Taken, Events, FollowsJob, FollowsStream, StreamDoc as Doc};
ghost use Rattle.model.specs.Words.{has};
ghost use Rattle.model.specs.History.{list_of, view_of};
ghost use Rattle.model.specs.Catalogue.{StreamJob, catalogue, job, jobs, stream};
ghost use Rattle.model.specs.Dependencies.{dep_cites, deps_added_by};
ghost use Rattle.model.specs.Facts.{commands};
ghost use Rattle.owner_fold.specs.Pairs.{ArePairsAmong, AreWorksOf, Grows, HasAll, dep_pairs, is_work, job_pairs, object_pairs};
ghost use Rattle.owner_fold.specs.Pairs.{pairs_in, stream_pairs};
ghost use Rattle.owner_fold.specs.Plans.{IsPlanOf};
ghost use Rattle.owner_fold.specs.DocPlaces.{doc_at, job_at, stream_job};

use crate::doc_places::{JobPlace, StreamPlace, job_place_at, stream_place_at};
use crate::fills::{job_with, stream_with};
use crate::plans::Plan;
use base_types::{
    Body, Cmd, Dep, Entry, Feed, JobDoc, JobNo, NoMemory, Obj, PromptRef, StreamDoc, StreamNo, Ws,
};
use grouped_places::Groups;
use owner_rows::Kept;

/// Where the stream of this number stands.
fn stream_place<'a>(plan: &'a Plan, s: StreamNo) -> Option<&'a StreamPlace>
    ensures { (now : List Taken) → IsPlanOf now plan.now
        → option_and_then (doc_at now) (option_copied result) ≡ stream (view_of now) s }
{
    match plan.index.streams.place(s.0) {
        None => None,
        Some(place) => stream_place_at(plan.doc_places.streams.as_slice(), place),
    }
}

/// Where the job of this number stands.
fn job_place<'a>(plan: &'a Plan, j: JobNo) -> Option<&'a JobPlace>
    ensures { (now : List Taken) → IsPlanOf now plan.now
        → option_and_then (job_at now) (option_copied result) ≡ job (view_of now) j }
{
    match plan.index.jobs.place(j.0) {
        None => None,
        Some(place) => job_place_at(plan.doc_places.jobs.as_slice(), place),
    }
}

/// The document that stands there, where `e` comes after the others.
fn stream_there<'a>(kept: &'a Kept, e: &'a Entry, doc_place: &StreamPlace) -> Option<&'a StreamDoc>
    ensures { option_copied result ≡ doc_at (kept.now ++ e.now ∷ []) doc_place.now }
{
    stream_with(kept.entries(), e, doc_place)
}

/// The job that stands there then, with its stream.
fn job_there<'a>(
    kept: &'a Kept,
    e: &'a Entry,
    doc_place: &JobPlace,
) -> Option<(&'a StreamDoc, &'a JobDoc)>
    ensures { option_map (λ p. stream_job p.0.now p.1.now) result ≡ job_at (kept.now ++ e.now ∷ []) doc_place.now }
{
    job_with(kept.entries(), e, doc_place)
}

/// The stream of this number then.
fn stream_then<'a>(kept: &'a Kept, e: &'a Entry, plan: &Plan, s: StreamNo) -> Option<&'a StreamDoc>
    requires { IsPlanOf (kept.now ++ e.now ∷ []) plan.now }
    ensures { option_copied result ≡ stream (view_of (kept.now ++ e.now ∷ [])) s }
{
    match stream_place(plan, s) {
        None => None,
        Some(doc_place) => stream_there(kept, e, doc_place),
    }
}

/// The job of this number then, with its stream.
fn job_then<'a>(
    kept: &'a Kept,
    e: &'a Entry,
    plan: &Plan,
    j: JobNo,
) -> Option<(&'a StreamDoc, &'a JobDoc)>
    requires { IsPlanOf (kept.now ++ e.now ∷ []) plan.now }
    ensures { option_map (λ p. stream_job p.0.now p.1.now) result ≡ job (view_of (kept.now ++ e.now ∷ [])) j }
{
    match job_place(plan, j) {
        None => None,
        Some(doc_place) => job_there(kept, e, doc_place),
    }
}

/// Puts in w with x.
fn put_pair(pairs: &mut Groups, w: Ws, x: Ws) -> Result<(), NoMemory>
    ensures keeps { HasAll pairs.new pairs.old }
    ensures there { OnOk result (has pairs.new (code w x) ≡ true) }
    ensures exact { OnOk result ((v y : ℕ) → y < 2 ^ 32
        → has pairs.new (code v y) ≡ (has pairs.old (code v y) || ((w == v) && (x == y)))) }
{
    pairs.add(u32::from(w.0), usize::from(x.0))?;
    Ok(())
}

/// Puts in w with those whom the dependency on this job cites.
#[tactic(auto, unfolding(model::specs::Dependencies::dep_cites))]
fn put_job_cited(
    pairs: &mut Groups,
    kept: &Kept,
    e: &Entry,
    plan: &Plan,
    w: Ws,
    j: JobNo,
) -> Result<(), NoMemory>
    requires { IsPlanOf (kept.now ++ e.now ∷ []) plan.now }
    ensures keeps { HasAll pairs.new pairs.old }
    ensures there { OnOk result
        (HasAll pairs.new (dep_pairs (dep_cites (view_of (kept.now ++ e.now ∷ []))) w (FollowsJob j))) }
{
    match job_then(kept, e, plan, j) {
        None => Ok(()),
        Some((parent, doc)) => {
            put_pair(pairs, w, doc.ws)?;
            put_pair(pairs, w, parent.ws)
        }
    }
}

/// Puts in w with the one whom the dependency on this stream cites.
#[tactic(auto, unfolding(model::specs::Dependencies::dep_cites))]
fn put_stream_cited(
    pairs: &mut Groups,
    kept: &Kept,
    e: &Entry,
    plan: &Plan,
    w: Ws,
    s: StreamNo,
) -> Result<(), NoMemory>
    requires { IsPlanOf (kept.now ++ e.now ∷ []) plan.now }
    ensures keeps { HasAll pairs.new pairs.old }
    ensures there { OnOk result
        (HasAll pairs.new (dep_pairs (dep_cites (view_of (kept.now ++ e.now ∷ []))) w (FollowsStream s))) }
{
    match stream_then(kept, e, plan, s) {
        None => Ok(()),
        Some(doc) => put_pair(pairs, w, doc.ws),
    }
}

/// Puts in w with those whom a dependency cites, where `e` comes after the others.
#[tactic(auto, unfolding(model::specs::Dependencies::dep_cites))]
fn put_cited(
    pairs: &mut Groups,
    kept: &Kept,
    e: &Entry,
    plan: &Plan,
    w: Ws,
    dep: &Dep,
) -> Result<(), NoMemory>
    requires { IsPlanOf (kept.now ++ e.now ∷ []) plan.now }
    ensures keeps { HasAll pairs.new pairs.old }
    ensures there { OnOk result
        (HasAll pairs.new (dep_pairs (dep_cites (view_of (kept.now ++ e.now ∷ []))) w dep.now)) }
{
    match dep {
        Dep::FollowsJob(j) => put_job_cited(pairs, kept, e, plan, w, *j),
        Dep::FollowsStream(s) => put_stream_cited(pairs, kept, e, plan, w, *s),
        Dep::Prompt(PromptRef::Global(_)) => put_pair(pairs, w, Ws(0)),
        Dep::Prompt(PromptRef::Own(_)) => Ok(()),
        Dep::Needs(_, _) | Dep::At(_) | Dep::Until(_, _) => Ok(()),
        Dep::Outside(_) | Dep::Deadline(_) => Ok(()),
    }
}

/// Puts in what these dependencies cite.
fn put_written(
    pairs: &mut Groups,
    kept: &Kept,
    e: &Entry,
    plan: &Plan,
    w: Ws,
    written: &[Dep],
) -> Result<(), NoMemory>
    requires { IsPlanOf (kept.now ++ e.now ∷ []) plan.now }
    ensures { OnOk result
        (Grows (flat_map (dep_pairs (dep_cites (view_of (kept.now ++ e.now ∷ []))) w) written.now) pairs.old pairs.new) }
{
    for dep in written {
        put_cited(pairs, kept, e, plan, w, dep)?;
    }
    Ok(())
}

/// Puts in what dependency i, from 0, cites of those that commands of w added to the object.
fn put_added_dep(
    pairs: &mut Groups,
    kept: &Kept,
    e: &Entry,
    plan: &Plan,
    w: Ws,
    o: &Obj,
    i: u32,
) -> Result<(), NoMemory>
    requires { IsPlanOf (kept.now ++ e.now ∷ []) plan.now }
    ensures keeps { HasAll pairs.new pairs.old }
    ensures there { OnOk result ((d : Given)
        → slice_get (flat_map (deps_added_by o.now) (commands (list_of kept.now (Events w)))) i ≡ Some d
        → HasAll pairs.new (dep_pairs (dep_cites (view_of (kept.now ++ e.now ∷ []))) w d)) }
{
    match kept.added_dep_at(w, o, i as usize) {
        None => Ok(()),
        Some(dep) => put_cited(pairs, kept, e, plan, w, dep),
    }
}

/// Puts in what the dependencies cite that commands of w added to the object.
fn put_added(
    pairs: &mut Groups,
    kept: &Kept,
    e: &Entry,
    plan: &Plan,
    w: Ws,
    o: &Obj,
) -> Result<(), NoMemory>
    requires { IsPlanOf (kept.now ++ e.now ∷ []) plan.now }
    ensures { OnOk result (Grows (flat_map (dep_pairs (dep_cites (view_of (kept.now ++ e.now ∷ []))) w)
        (flat_map (deps_added_by o.now) (commands (list_of kept.now (Events w))))) pairs.old pairs.new) }
{
    for i in 0..kept.added_at(w, o) {
        put_added_dep(pairs, kept, e, plan, w, o, i)?;
    }
    Ok(())
}

/// Puts in what the dependencies of an object of w cite.
fn put_object(
    pairs: &mut Groups,
    kept: &Kept,
    e: &Entry,
    plan: &Plan,
    w: Ws,
    o: &Obj,
    written: &[Dep],
) -> Result<(), NoMemory>
    requires { IsPlanOf (kept.now ++ e.now ∷ []) plan.now }
    ensures { OnOk result (Grows (object_pairs (dep_cites (view_of (kept.now ++ e.now ∷ []))) w o.now written.now
        (list_of kept.now (Events w))) pairs.old pairs.new) }
{
    put_written(pairs, kept, e, plan, w, written)?;
    put_added(pairs, kept, e, plan, w, o)?;
    Ok(())
}

/// Puts in what the dependencies of the stream at this place cite.
fn put_stream(
    pairs: &mut Groups,
    kept: &Kept,
    e: &Entry,
    plan: &Plan,
    doc_place: &StreamPlace,
) -> Result<(), NoMemory>
    requires { IsPlanOf (kept.now ++ e.now ∷ []) plan.now }
    ensures { OnOk result ((HasAll pairs.new pairs.old) × ((d : Doc) → doc_at (kept.now ++ e.now ∷ []) doc_place.now ≡ Some d
        → HasAll pairs.new (stream_pairs (dep_cites (view_of (kept.now ++ e.now ∷ []))) kept.now d))) }
{
    match stream_there(kept, e, doc_place) {
        None => Ok(()),
        Some(doc) => {
            let o = Obj::Stream(doc.no);
            put_object(pairs, kept, e, plan, doc.ws, &o, doc.deps.as_slice())
        }
    }
}

/// Puts in the workstation of the stream with that of the job, and what the dependencies of the job cite.
fn put_job(
    pairs: &mut Groups,
    kept: &Kept,
    e: &Entry,
    plan: &Plan,
    doc_place: &JobPlace,
) -> Result<(), NoMemory>
    requires { IsPlanOf (kept.now ++ e.now ∷ []) plan.now }
    ensures { OnOk result ((HasAll pairs.new pairs.old) × ((p : StreamJob) → job_at (kept.now ++ e.now ∷ []) doc_place.now ≡ Some p
        → HasAll pairs.new (job_pairs (dep_cites (view_of (kept.now ++ e.now ∷ []))) kept.now p))) }
{
    match job_there(kept, e, doc_place) {
        None => Ok(()),
        Some((parent, doc)) => {
            put_pair(pairs, parent.ws, doc.ws)?;
            let o = Obj::Job(doc.no);
            put_object(pairs, kept, e, plan, doc.ws, &o, doc.deps.as_slice())
        }
    }
}

/// Puts in the pairs of all streams.
fn put_streams(pairs: &mut Groups, kept: &Kept, e: &Entry, plan: &Plan) -> Result<(), NoMemory>
    requires { IsPlanOf (kept.now ++ e.now ∷ []) plan.now }
    ensures { let V = view_of (kept.now ++ e.now ∷ []) in
        OnOk result (Grows (flat_map (stream_pairs (dep_cites V) kept.now) (catalogue V)) pairs.old pairs.new) }
{
    for doc_place in plan.doc_places.streams.as_slice() {
        put_stream(pairs, kept, e, plan, doc_place)?;
    }
    Ok(())
}

/// Puts in the pairs of all jobs.
fn put_jobs(pairs: &mut Groups, kept: &Kept, e: &Entry, plan: &Plan) -> Result<(), NoMemory>
    requires { IsPlanOf (kept.now ++ e.now ∷ []) plan.now }
    ensures { let V = view_of (kept.now ++ e.now ∷ []) in
        OnOk result (Grows (flat_map (job_pairs (dep_cites V) kept.now) (jobs V)) pairs.old pairs.new) }
{
    for doc_place in plan.doc_places.jobs.as_slice() {
        put_job(pairs, kept, e, plan, doc_place)?;
    }
    Ok(())
}

/// The pairs of a plan, by what was told before `e`, which comes after the others.
pub(crate) fn pairs_of(
    mut pairs: Groups,
    kept: &Kept,
    e: &Entry,
    plan: &Plan,
) -> Result<Groups, NoMemory>
    requires { IsPlanOf (kept.now ++ e.now ∷ []) plan.now }
    ensures { let V = view_of (kept.now ++ e.now ∷ []) in
        IfOk result (λ codes. ArePairsAmong (dep_cites V) kept.now (catalogue V) (jobs V) codes) }
{
    put_streams(&mut pairs, kept, e, plan)?;
    put_jobs(&mut pairs, kept, e, plan)?;
    Ok(pairs)
}

/// Puts in the workstation of the stream with that of the job at this place.
fn put_work(
    works: &mut Groups,
    kept: &Kept,
    e: &Entry,
    doc_place: &JobPlace,
) -> Result<(), NoMemory>
    ensures { OnOk result ((v x : ℕ) → x < 2 ^ 32 → has works.new (code v x)
        ≡ (has works.old (code v x)
        || option_map_or (is_work v x) (job_at (kept.now ++ e.now ∷ []) doc_place.now) false)) }
{
    match job_there(kept, e, doc_place) {
        None => Ok(()),
        Some((parent, doc)) => put_pair(works, parent.ws, doc.ws),
    }
}

/// Whose streams have a job on whom in a plan, where `e` comes after the others. On the allocator of the older ones.
pub(crate) fn works_of(
    older: &Groups,
    kept: &Kept,
    e: &Entry,
    plan: &Plan,
) -> Result<Groups, NoMemory>
    requires { IsPlanOf (kept.now ++ e.now ∷ []) plan.now }
    ensures { IfOk result (AreWorksOf (kept.now ++ e.now ∷ [])) }
{
    let mut works = older.empty();
    for doc_place in plan.doc_places.jobs.as_slice() {
        put_work(&mut works, kept, e, doc_place)?;
    }
    Ok(works)
}

/// Puts in the pairs that an entry brings which is no plan. Where memory runs out none that was there is lost.
pub(crate) fn put_brought(
    pairs: &mut Groups,
    kept: &Kept,
    e: &Entry,
    plan: &Plan,
) -> Result<(), NoMemory>
    requires { IsPlanOf (kept.now ++ e.now ∷ []) plan.now }
    ensures keeps { HasAll pairs.new pairs.old }
    ensures there { OnOk result
        (HasAll pairs.new (pairs_in (dep_cites (view_of (kept.now ++ e.now ∷ []))) e.now.body e.now.feed)) }
{
    match &e.feed {
        Feed::Orders(_, _) => Ok(()),
        Feed::Events(w) => match &e.body {
            Body::Obeyed(_, _, Cmd::AddDep(_, dep)) => put_cited(pairs, kept, e, plan, *w, dep),
            _ => Ok(()),
        },
    }
}
