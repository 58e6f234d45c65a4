//! Whom the dependencies of a workstation's objects cite.
ghost use Rattle.std.specs.Prelude.{◌≡◌};
ghost use Rattle.std.specs.List.{list_any};
ghost use Rattle.model.specs.Types as types;
ghost use Rattle.model.specs.Types.{StreamDoc as Doc};
ghost use Rattle.model.specs.Words.{has};
ghost use Rattle.model.specs.History.{view_of};
ghost use Rattle.model.specs.Catalogue.{StreamJob, jobs_of, streams_of};
ghost use Rattle.model.specs.Dependencies as spec;
ghost use Rattle.model.specs.Forwarding.{objects_of};

use base_types::{Dep, Obj, PromptRef, Ws};
use owner_fold::Owners;

/// Whether a dependency cites x.
#[tactic(auto, unfolding(model::specs::Dependencies::dep_cites))]
fn dep_cites(o: &Owners, dep: &Dep, x: Ws) -> bool
    ensures { result ≡ has (spec.dep_cites (view_of o.now) dep.now) x }
{
    match dep {
        Dep::FollowsJob(j) => match o.planned_job(*j) {
            None => false,
            Some((parent, doc)) => doc.ws.0 == x.0 || parent.ws.0 == x.0,
        },
        Dep::FollowsStream(s) => match o.stream(*s) {
            None => false,
            Some(doc) => doc.ws.0 == x.0,
        },
        Dep::Prompt(PromptRef::Global(_)) => x.0 == 0,
        Dep::Prompt(PromptRef::Own(_)) => false,
        Dep::Needs(_, _) | Dep::At(_) | Dep::Until(_, _) => false,
        Dep::Outside(_) | Dep::Deadline(_) => false,
    }
}

/// Whether a dependency of the object cites x, a waived one too.
#[tactic(auto, unfolding(model::specs::Dependencies::cites))]
fn cites(o: &Owners, obj: &Obj, x: Ws) -> bool
    ensures { result ≡ has (spec.cites (view_of o.now) obj.now) x }
{
    for passed in 0..o.dep_count(*obj) {
        match o.dep(*obj, passed + 1) {
            None => continue,
            Some(dep) => {
                if dep_cites(o, dep, x) {
                    return true;
                }
            }
        }
    }
    false
}

/// Whether a stream of v has a dependency that cites x.
#[tactic(auto, unfolding(model::specs::Catalogue::streams_of))]
fn has_citing_stream(o: &Owners, v: Ws, x: Ws) -> bool
    ensures { let V = view_of o.now in
        result ≡ list_any (λ (d : Doc). has (spec.cites V (types.Stream d.no)) x) (streams_of V v) }
{
    for doc in o.streams() {
        if doc.ws.0 == v.0 {
            let obj = Obj::Stream(doc.no);
            if cites(o, &obj, x) {
                return true;
            }
        }
    }
    false
}

/// Whether a job of v has a dependency that cites x.
#[tactic(auto, unfolding(model::specs::Catalogue::jobs_of))]
fn has_citing_job(o: &Owners, v: Ws, x: Ws) -> bool
    ensures { let V = view_of o.now in
        result ≡ list_any (λ (p : StreamJob). has (spec.cites V (types.Job p.doc.no)) x) (jobs_of V v) }
{
    for (_parent, doc) in o.jobs() {
        if doc.ws.0 == v.0 {
            let obj = Obj::Job(doc.no);
            if cites(o, &obj, x) {
                return true;
            }
        }
    }
    false
}

/// Whether an object of v has a dependency that cites x.
#[tactic(auto, using(crate::proofs::Cited::of_objects))]
pub(crate) fn has_citing_object(o: &Owners, v: Ws, x: Ws) -> bool
    ensures { let V = view_of o.now in result ≡ list_any (λ p. has (spec.cites V p) x) (objects_of V v) }
{
    if !o.may_involve(v, x) {
        return false;
    }
    has_citing_stream(o, v, x) || has_citing_job(o, v, x)
}
