//! The file that is looked for next.
ghost use Rattle.std.specs.Prelude.{◌≡◌, ◌||◌, Some, flat_map, map};
ghost use Rattle.std.specs.Option.{option_copied};
ghost use Rattle.model.specs.Types.{Events, Job, Stream, StreamDoc as Doc};
ghost use Rattle.model.specs.History.{view_of};
ghost use Rattle.model.specs.Catalogue.{StreamJob};
ghost use Rattle.model.specs.Facts.{is_cancelled};
ghost use Rattle.model.specs.OwnMembers.{has_begun, own_jobs, own_streams};
ghost use Rattle.model.specs.StepFaults.{is_outside};
ghost use Rattle.dependencies.specs.Left.{numbered};
ghost use Rattle.file_watch.specs.Circle.{soonest};
ghost use Rattle.file_watch.specs.Probes as spec;

use crate::circle::sooner_of;
use base_types::{Dep, Obj, Text, Ws};
use dependencies::unwaived_deps;
use network_tree::Network;
use owner_fold::Owners;

/// The dependency on a file for which a workstation looks next, by its object and its number, from the one for which it
/// looked last: the next due one behind that in the circle of streams before jobs, then of numbers, then of
/// dependencies. Due is one of an own member's object that is neither cancelled nor begun; it is not waived, and its
/// file was not told. None exactly where none is due. It takes no memory, and the network decides nothing here.
#[tactic(auto, unfolding(crate::specs::Probes::next_probe), using(crate::proofs::Soonest::streams_and_jobs))]
pub fn next_probe(
    _net: &Network,
    o: &Owners,
    me: Ws,
    last: Option<(Obj, u16)>,
) -> Option<(Obj, u16)>
    ensures { result ≡ spec.next_probe (view_of o.now) me last }
{
    let streams = soonest_of_streams(o, me, &last);
    let jobs = soonest_of_jobs(o, me, &last);
    sooner_of(&last, &streams, &jobs)
}

/// The path of the dependency of this number, from 1, of an object. None where there is no such dependency, and for one
/// that waits for no file.
pub fn path_at<'a>(o: &'a Owners, object: &Obj, i: u16) -> Option<&'a Text>
    ensures { option_copied result ≡ spec.path_at (view_of o.now) object.now i }
{
    match o.dep(*object, i) {
        Some(Dep::Outside(path)) => Some(path),
        _ => None,
    }
}

/// The soonest due dependency of the own members of w.
fn soonest_of_streams(o: &Owners, w: Ws, last: &Option<(Obj, u16)>) -> Option<(Obj, u16)>
    ensures { let V = view_of o.now in
        result ≡ soonest last.now (flat_map (spec.due_at V w) (map (λ (d : Doc). Stream d.no) (own_streams V w))) }
{
    let mut so_far = None;
    for doc in o.filed_streams(w) {
        let found = soonest_at(o, w, last, &Obj::Stream(doc.no));
        so_far = sooner_of(last, &so_far, &found);
    }
    so_far
}

/// The soonest due dependency of the own members' jobs of w.
fn soonest_of_jobs(o: &Owners, w: Ws, last: &Option<(Obj, u16)>) -> Option<(Obj, u16)>
    ensures { let V = view_of o.now in
        result ≡ soonest last.now (flat_map (spec.due_at V w) (map (λ (p : StreamJob). Job p.doc.no) (own_jobs V w))) }
{
    let mut so_far = None;
    for (_parent, doc) in o.filed_jobs(w) {
        let found = soonest_at(o, w, last, &Obj::Job(doc.no));
        so_far = sooner_of(last, &so_far, &found);
    }
    so_far
}

/// Whether a dependency waits for a file.
fn waits_for_file(dep: &Dep) -> bool
    ensures { result ≡ is_outside dep.now }
{
    matches!(dep, Dep::Outside(_))
}

/// The soonest due dependency of an object of w.
#[tactic(auto, unfolding(crate::specs::Probes::due_at, crate::specs::Probes::due_files))]
fn soonest_at(o: &Owners, w: Ws, last: &Option<(Obj, u16)>, object: &Obj) -> Option<(Obj, u16)>
    ensures { result ≡ soonest last.now (spec.due_at (view_of o.now) w object.now) }
{
    if is_out_of_play(o, w, object) {
        return None;
    }
    let mut so_far = None;
    for (number, dep) in unwaived_deps(o, object) {
        if is_file_due(o, w, object, number, dep) {
            let found = Some((*object, number));
            so_far = sooner_of(last, &so_far, &found);
        }
    }
    so_far
}

/// Whether an object of w is cancelled or has begun.
fn is_out_of_play(o: &Owners, w: Ws, object: &Obj) -> bool
    ensures { let told = view_of o.now (Events w) in
        result ≡ (is_cancelled object.now told || has_begun told object.now) }
{
    o.kept().is_cancelled_at(w, object) || has_begun(o, w, object)
}

/// Whether an object of w has begun: a job unless it is due and not open, a stream where it is released.
#[tactic(auto, unfolding(model::specs::OwnMembers::has_begun))]
fn has_begun(o: &Owners, w: Ws, object: &Obj) -> bool
    ensures { result ≡ has_begun (view_of o.now (Events w)) object.now }
{
    match object {
        Obj::Job(j) => !o.kept().is_due_at(w, *j) || o.kept().is_open_at(w, *j),
        Obj::Stream(s) => o.kept().is_released_at(w, *s),
    }
}

/// Whether a dependency of an object of w waits for a file that was not told.
fn is_file_due(o: &Owners, w: Ws, object: &Obj, number: u16, dep: &Dep) -> bool
    ensures { result ≡ spec.is_file_due (view_of o.now (Events w)) object.now (numbered number dep.now) }
{
    waits_for_file(dep) && !o.kept().is_fulfilled_at(w, object, number)
}
