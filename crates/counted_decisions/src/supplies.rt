//! Units of a resource, and replies to prompts.
ghost use Rattle.std.specs.Prelude.{◌≡◌, ◌||◌, ◌+◌, cond, nat_le, sum_by};
ghost use Rattle.model.specs.Types.{Events, Job, Stream, StreamDoc as Doc};
ghost use Rattle.model.specs.Words.{is_yes};
ghost use Rattle.model.specs.History.{view_of};
ghost use Rattle.model.specs.Catalogue.{StreamJob};
ghost use Rattle.model.specs.Facts as facts;
ghost use Rattle.model.specs.Dependencies as spec;
ghost use Rattle.counted_facts.specs.Subjects.{brings};
ghost use Rattle.counted_decisions.specs.Sights.{CountsAllOf, IsSight, seen_in};
ghost use Rattle.counted_decisions.specs.Units.{holding_jobs, holding_streams, left_of};
ghost use Rattle.std.specs.List.{list_any};

use crate::own::{own_reply, total_set};
use crate::sights::{Sight, is_answered, is_brought};
use base_types::{Dep, JobDoc, Obj, Resource, StreamDoc, Text, Ws};
use dependencies::unwaived_deps;
use network_tree::{Network, is_only_shown};
use owner_fold::Owners;

/// The units of a resource that a dependency asks for.
fn units_in_dep(r: u16, dep: &Dep) -> u64
    ensures { result ≡ spec.units_in r dep.now }
{
    match dep {
        Dep::Needs(other, units) => { if r == *other { u64::from(*units) } else { 0 } }
        _ => 0,
    }
}

/// What is left of so many units when these are taken, where there are enough.
fn left_of(free: u64, units: u64) -> Option<u64>
    ensures { result ≡ left_of free units }
{
    if units <= free {
        Some(free - units)
    } else {
        None
    }
}

/// What is left of so many units when an object takes those that it asks for.
#[tactic(auto, unfolding(model::specs::Dependencies::units))]
fn left_by_object(owners: &Owners, o: &Obj, r: u16, free: u64) -> Option<u64>
    ensures { result ≡ left_of free (spec.units (view_of owners.now) r o.now) }
{
    let mut left = free;
    for (_number, dep) in unwaived_deps(owners, o) {
        match left_of(left, units_in_dep(r, dep)) {
            None => return None,
            Some(next) => left = next,
        }
    }
    Some(left)
}

/// The same of a job, where it is brought.
fn left_by_job(
    sight: &Sight<'_>,
    parent: &StreamDoc,
    doc: &JobDoc,
    r: u16,
    free: u64,
) -> Option<u64>
    requires { IsSight sight.now }
    ensures { result ≡ left_of free (cond (list_any (brings parent.now.no) (seen_in sight.now (Events 0)))
        (spec.units (view_of sight.now.owners.now) r (Job doc.now.no)) 0) }
{
    if is_brought(sight, parent.no) {
        let o = Obj::Job(doc.no);
        left_by_object(sight.owners, &o, r, free)
    } else {
        Some(free)
    }
}

/// The same of a stream, where it is brought.
fn left_by_stream(sight: &Sight<'_>, doc: &StreamDoc, r: u16, free: u64) -> Option<u64>
    requires { IsSight sight.now }
    ensures { result ≡ left_of free (cond (list_any (brings doc.now.no) (seen_in sight.now (Events 0)))
        (spec.units (view_of sight.now.owners.now) r (Stream doc.now.no)) 0) }
{
    if is_brought(sight, doc.no) {
        let o = Obj::Stream(doc.no);
        left_by_object(sight.owners, &o, r, free)
    } else {
        Some(free)
    }
}

/// What is left of so many units when the jobs of w with an open launch take theirs.
fn left_by_jobs(sight: &Sight<'_>, w: Ws, r: u16, free: u64) -> Option<u64>
    requires sight { IsSight sight.now }
    requires own { CountsAllOf w sight.now }
    ensures { let V = seen_in sight.now in
        result ≡ left_of free (sum_by (λ (p : StreamJob). spec.units V r (Job p.doc.no)) (holding_jobs V w)) }
{
    let mut left = free;
    for (parent, doc) in sight.owners.open_launches(w) {
        match left_by_job(sight, parent, doc, r, left) {
            None => return None,
            Some(next) => left = next,
        }
    }
    Some(left)
}

/// What is left of so many units when the streams of w under way take theirs.
fn left_by_streams(sight: &Sight<'_>, w: Ws, r: u16, free: u64) -> Option<u64>
    requires sight { IsSight sight.now }
    requires own { CountsAllOf w sight.now }
    ensures { let V = seen_in sight.now in
        result ≡ left_of free (sum_by (λ (d : Doc). spec.units V r (Stream d.no)) (holding_streams V w)) }
{
    let mut left = free;
    for doc in sight.owners.streams_under_way(w) {
        match left_by_stream(sight, doc, r, left) {
            None => return None,
            Some(next) => left = next,
        }
    }
    Some(left)
}

/// Whether the units of a resource that are in use at w are at most so many.
fn are_in_use_at_most(sight: &Sight<'_>, w: Ws, r: u16, most: u64) -> bool
    requires sight { IsSight sight.now }
    requires own { CountsAllOf w sight.now }
    ensures { result ≡ nat_le (spec.used (seen_in sight.now) w r) most }
{
    match left_by_jobs(sight, w, r, most) {
        None => false,
        Some(left) => left_by_streams(sight, w, r, left).is_some(),
    }
}

/// Whether n more units of a resource of w are within its total.
fn has_units_of(sight: &Sight<'_>, w: Ws, r: u16, n: u16, resource: &Resource) -> bool
    requires sight { IsSight sight.now }
    requires own { CountsAllOf w sight.now }
    ensures { let V = seen_in sight.now in
        result ≡ nat_le (spec.used V w r + n) (facts.total r resource.now.total (V (Events w))) }
{
    let total = total_set(sight, w, r).unwrap_or(resource.total);
    match left_of(u64::from(total), u64::from(n)) {
        None => false,
        Some(free) => are_in_use_at_most(sight, w, r, free),
    }
}

/// Whether r is a resource of w, and n more units of it are within its total.
#[tactic(auto, unfolding(model::specs::Dependencies::has_units))]
pub(crate) fn has_units(net: &Network, sight: &Sight<'_>, w: Ws, r: u16, n: u16) -> bool
    requires sight { IsSight sight.now }
    requires own { CountsAllOf w sight.now }
    ensures { result ≡ spec.has_units net.now (seen_in sight.now) w r n }
{
    if r == 0 {
        return false;
    }
    match net.net().resources.get(usize::from(r - 1)) {
        None => false,
        Some(resource) => resource.ws == w && has_units_of(sight, w, r, n, resource),
    }
}

/// Whether a prompt of the network asks for no reply, or the last reply since the last plan is yes.
#[tactic(auto, unfolding(model::specs::Dependencies::prompt_is_answered))]
pub(crate) fn prompt_is_answered(net: &Network, sight: &Sight<'_>, p: u16) -> bool
    requires { IsSight sight.now }
    ensures { result ≡ spec.prompt_is_answered net.now (seen_in sight.now) p }
{
    if p == 0 {
        return false;
    }
    match net.net().prompts.get(usize::from(p - 1)) {
        None => false,
        Some(prompt) => is_only_shown(&prompt.text) || is_answered(sight, p),
    }
}

/// Whether an object's own prompt asks for no reply, or the last reply is yes.
pub(crate) fn own_prompt_is_answered(sight: &Sight<'_>, w: Ws, o: &Obj, i: u16, text: &Text) -> bool
    requires { CountsAllOf w sight.now }
    ensures { let told = seen_in sight.now (Events w) in
        result ≡ (spec.is_only_shown text.now || is_yes (facts.own_reply o.now i told)) }
{
    is_only_shown(text) || own_reply(sight, w, o, i) == Some(true)
}
