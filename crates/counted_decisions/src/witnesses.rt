//! Whom the counts of a decision may name.
ghost use Rattle.std.specs.Prelude.{◌≡◌, [], ◌∷◌, ℕ, IfOk, OnOk, Some, map, option_map, true};
ghost use Rattle.std.specs.List.{list_all, list_any};
ghost use Rattle.std.specs.Option.{option_map_or};
ghost use Rattle.model.specs.Types.{Events, StreamDoc as Doc};
ghost use Rattle.model.specs.Catalogue as catalogue;
ghost use Rattle.model.specs.Catalogue.{StreamJob};
ghost use Rattle.model.specs.Dependencies.{cites, dep_cites};
ghost use Rattle.model.specs.Turn.{end_witnesses, witnesses};
ghost use Rattle.counted_facts.specs.Subjects.{brings};
ghost use Rattle.counted_decisions.specs.Sights.{CountsAllOf, IsSight, counts_only, seen_in};
ghost use Rattle.counted_decisions.specs.Named as spec;
ghost use Rattle.counted_decisions.specs.Named.{AddsAll};

use crate::sights::{Sight, planned_job, stream};
use base_types::{Dep, NoMemory, Obj, PromptRef, Seen, StreamNo, Ws};
use indexmap::IndexSet;
use std::alloc::Global;

/// Adds a workstation to others.
fn add(named: &mut IndexSet<u16>, v: Ws) -> Result<(), NoMemory>
    ensures { OnOk result (AddsAll (v ∷ []) named.old named.new) }
{
    match named.insert(v.0) {
        Ok(_) => Ok(()),
        Err(_) => Err(NoMemory),
    }
}

/// Adds the workstations that a dependency cites.
#[tactic(auto, unfolding(model::specs::Dependencies::dep_cites))]
fn add_cited(named: &mut IndexSet<u16>, sight: &Sight<'_>, dep: &Dep) -> Result<(), NoMemory>
    requires { IsSight sight.now }
    ensures { OnOk result (AddsAll (dep_cites (seen_in sight.now) dep.now) named.old named.new) }
{
    match dep {
        Dep::FollowsJob(j) => match planned_job(sight, *j) {
            None => Ok(()),
            Some((parent, doc)) => {
                add(named, doc.ws)?;
                add(named, parent.ws)
            }
        },
        Dep::FollowsStream(s) => match stream(sight, *s) {
            None => Ok(()),
            Some(doc) => add(named, doc.ws),
        },
        Dep::Prompt(PromptRef::Global(_)) => add(named, Ws(0)),
        Dep::Prompt(PromptRef::Own(_)) => Ok(()),
        Dep::Needs(_, _) | Dep::At(_) | Dep::Until(_, _) | Dep::Outside(_) | Dep::Deadline(_) => Ok(
            (),
        ),
    }
}

/// Adds the workstations that the dependencies of an object of w cite.
#[tactic(auto, unfolding(model::specs::Dependencies::cites))]
fn add_all_cited(
    named: &mut IndexSet<u16>,
    sight: &Sight<'_>,
    w: Ws,
    o: &Obj,
) -> Result<(), NoMemory>
    requires sight { IsSight sight.now }
    requires own { CountsAllOf w sight.now }
    requires owned { catalogue.owner (seen_in sight.now) o.now ≡ Some w }
    ensures { OnOk result (AddsAll (cites (seen_in sight.now) o.now) named.old named.new) }
{
    for passed in 0..sight.owners.dep_count(*o) {
        match sight.owners.dep(*o, passed + 1) {
            None => continue,
            Some(dep) => add_cited(named, sight, dep)?,
        }
    }
    Ok(())
}

/// The owner of the stream that an object is or belongs to.
#[tactic(auto, unfolding(model::specs::Catalogue::stream_of))]
fn stream_owner(sight: &Sight<'_>, o: &Obj) -> Option<Ws>
    requires { IsSight sight.now }
    ensures { result ≡ option_map (λ (d : Doc). d.ws) (catalogue.stream_of (seen_in sight.now) o.now) }
{
    match o {
        Obj::Job(j) => match planned_job(sight, *j) {
            None => None,
            Some((parent, _)) => Some(parent.ws),
        },
        Obj::Stream(s) => match stream(sight, *s) {
            None => None,
            Some(doc) => Some(doc.ws),
        },
    }
}

/// Adds the owner of the stream that an object of w is or belongs to, and those whom its dependencies cite.
fn add_owner_and_cited(
    named: &mut IndexSet<u16>,
    sight: &Sight<'_>,
    w: Ws,
    o: &Obj,
) -> Result<(), NoMemory>
    requires sight { IsSight sight.now }
    requires own { CountsAllOf w sight.now }
    requires owned { catalogue.owner (seen_in sight.now) o.now ≡ Some w }
    ensures { let V = seen_in sight.now in OnOk result (AddsAll
        (option_map_or (λ (d : Doc). d.ws ∷ cites V o.now) (catalogue.stream_of V o.now) []) named.old named.new) }
{
    match stream_owner(sight, o) {
        None => Ok(()),
        Some(owner) => {
            add(named, owner)?;
            add_all_cited(named, sight, w, o)
        }
    }
}

/// Adds the owners of the jobs of a stream that is brought.
fn add_job_owners(named: &mut IndexSet<u16>, sight: &Sight<'_>, s: StreamNo) -> Result<(), NoMemory>
    requires sight { IsSight sight.now }
    requires brought { list_any (brings s) (seen_in sight.now (Events 0)) ≡ true }
    ensures { OnOk result (AddsAll (map (λ (p : StreamJob). p.doc.ws)
        (catalogue.jobs_of_stream (seen_in sight.now) s)) named.old named.new) }
{
    for (_parent, doc) in sight.owners.jobs_of_stream(s) {
        add(named, doc.ws)?;
    }
    Ok(())
}

/// Whether a workstation is w, the master or one of these.
fn may_name(named: &IndexSet<u16>, w: Ws, v: Ws) -> bool
    ensures { result ≡ spec.may_name named.now w v }
{
    w.0 == v.0 || 0 == v.0 || named.contains(&v.0)
}

/// Whether each workstation that is counted is w, the master or one of these.
fn all_may_be_named(named: &IndexSet<u16>, w: Ws, seen: &Seen) -> bool
    ensures { result ≡ list_all (λ (p : ℕ × ℕ). spec.may_name named.now w p.0) seen.now }
{
    for (v, _) in seen.as_slice() {
        if !may_name(named, w, *v) {
            return false;
        }
    }
    true
}

/// Whether the counts name only whom a launch or a release of an object of w may name: w, the master, the stream's
/// owner, and those whom the object's dependencies cite.
pub fn names_witnesses(alloc: Global, sight: &Sight<'_>, w: Ws, o: &Obj) -> Result<bool, NoMemory>
    requires sight { IsSight sight.now }
    requires own { CountsAllOf w sight.now }
    requires owned { catalogue.owner (seen_in sight.now) o.now ≡ Some w }
    ensures { IfOk result (λ only. only ≡ counts_only (witnesses (seen_in sight.now) w o.now) sight.now.seen.now) }
{
    let mut named = IndexSet::new(alloc);
    add_owner_and_cited(&mut named, sight, w, o)?;
    Ok(all_may_be_named(&named, w, sight.seen))
}

/// Whether the counts name only whom an end of a stream at w may name: w, the master, and the owners of its jobs.
pub fn names_end_witnesses(
    alloc: Global,
    sight: &Sight<'_>,
    w: Ws,
    s: StreamNo,
) -> Result<bool, NoMemory>
    requires sight { IsSight sight.now }
    requires brought { list_any (brings s) (seen_in sight.now (Events 0)) ≡ true }
    ensures { IfOk result (λ only. only ≡ counts_only (end_witnesses (seen_in sight.now) w s) sight.now.seen.now) }
{
    let mut named = IndexSet::new(alloc);
    add_job_owners(&mut named, sight, s)?;
    Ok(all_may_be_named(&named, w, sight.seen))
}
