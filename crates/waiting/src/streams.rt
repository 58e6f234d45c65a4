//! What a stream lacks to be released, and to be ended.
ghost use Rattle.std.specs.Prelude.{[], ◌≡◌, ◌∷◌, ◌++◌, IfOk, OnOk, map};
ghost use Rattle.model.specs.History.{view_of};
ghost use Rattle.model.specs.Catalogue.{jobs_of_stream};
ghost use Rattle.waiting.specs.Lacks as spec;
ghost use Rattle.waiting.specs.Rows.{all_noted, failing};
ghost use Rattle.dependencies.specs.Planned.{IsPlannedStream};

use crate::lacks::Lack;
use crate::needs::note_deps;
use crate::notes::note;
use base_types::{Items, NoMemory, Obj, StreamDoc, StreamNo, Ws};
use dependencies::lets_stream_end;
use network_tree::Network;
use owner_fold::Owners;
use std::alloc::Global;

/// Notes what a stream lacks to be released at w but its dependencies.
fn note_release(list: &mut Items<Lack>, o: &Owners, w: Ws, doc: &StreamDoc) -> Result<(), NoMemory>
    requires { IsPlannedStream (view_of o.now) doc.now }
    ensures { OnOk result (list.new ≡ all_noted list.old (spec.release_first_rows (view_of o.now) w doc.now)) }
{
    note(list, doc.ws == w, Lack::Elsewhere(doc.ws))?;
    note(list, o.is_member(doc.no), Lack::NotPlanned(doc.no))?;
    note(list, !o.is_released(doc.no), Lack::Released)?;
    note(list, !o.is_cancelled(Obj::Stream(doc.no)), Lack::Cancelled)
}

/// All that stream s lacks to be released at w. It is empty exactly where the stream may be released.
#[tactic(auto, unfolding(crate::specs::Lacks::release_lacks))]
pub fn release_lacks(
    alloc: Global,
    net: &Network,
    o: &Owners,
    w: Ws,
    s: StreamNo,
) -> Result<Items<Lack>, NoMemory>
    ensures { IfOk result (λ list. list ≡ spec.release_lacks net.now (view_of o.now) w s) }
{
    let mut list = Items::new(alloc);
    match o.stream(s) {
        None => list.push(Lack::Unknown)?,
        Some(doc) => note_all_of_release(&mut list, net, o, w, doc)?,
    }
    Ok(list)
}

/// Notes all that a stream lacks to be released at w.
fn note_all_of_release(
    list: &mut Items<Lack>,
    net: &Network,
    o: &Owners,
    w: Ws,
    doc: &StreamDoc,
) -> Result<(), NoMemory>
    requires { IsPlannedStream (view_of o.now) doc.now }
    ensures { OnOk result (list.new
        ≡ list.old ++ failing (spec.release_rows net.now (view_of o.now) w doc.now)) }
{
    note_release(list, o, w, doc)?;
    note_deps(list, net, o, doc.ws, &Obj::Stream(doc.no))
}

/// Notes what a stream lacks to be ended at w but its jobs.
fn note_end(list: &mut Items<Lack>, o: &Owners, w: Ws, doc: &StreamDoc) -> Result<(), NoMemory>
    requires { IsPlannedStream (view_of o.now) doc.now }
    ensures { OnOk result (list.new ≡ all_noted list.old (spec.end_first_rows (view_of o.now) w doc.now)) }
{
    note(list, doc.ws == w, Lack::Elsewhere(doc.ws))?;
    note(list, o.is_member(doc.no), Lack::NotPlanned(doc.no))?;
    note(list, o.is_released(doc.no), Lack::NotReleased(doc.no))?;
    note(list, !o.is_ended(doc.no), Lack::Ended)?;
    note(list, !o.is_cancelled(Obj::Stream(doc.no)), Lack::Cancelled)
}

/// Notes which jobs of a stream are neither good nor cancelled.
#[tactic(auto, using(dependencies::proofs::Found::stream_jobs_left_planned))]
fn note_jobs(list: &mut Items<Lack>, o: &Owners, s: StreamNo) -> Result<(), NoMemory>
    ensures { let V = view_of o.now in
        OnOk result (list.new ≡ list.old ++ failing (map (spec.end_row V) (jobs_of_stream V s))) }
{
    for (parent, doc) in o.jobs_of_stream(s) {
        note(
            list,
            lets_stream_end(o, parent, doc),
            Lack::Unfinished(doc.no),
        )?;
    }
    Ok(())
}

/// All that stream s lacks to be ended at w. It is empty exactly where the stream may be ended.
#[tactic(auto, unfolding(crate::specs::Lacks::end_lacks))]
pub fn end_lacks(alloc: Global, o: &Owners, w: Ws, s: StreamNo) -> Result<Items<Lack>, NoMemory>
    ensures { IfOk result (λ list. list ≡ spec.end_lacks (view_of o.now) w s) }
{
    let mut list = Items::new(alloc);
    match o.stream(s) {
        None => list.push(Lack::Unknown)?,
        Some(doc) => note_all_of_end(&mut list, o, w, doc)?,
    }
    Ok(list)
}

/// Notes all that a stream lacks to be ended at w.
fn note_all_of_end(
    list: &mut Items<Lack>,
    o: &Owners,
    w: Ws,
    doc: &StreamDoc,
) -> Result<(), NoMemory>
    requires { IsPlannedStream (view_of o.now) doc.now }
    ensures { OnOk result (list.new ≡ list.old ++ failing (spec.end_rows (view_of o.now) w doc.now)) }
{
    note_end(list, o, w, doc)?;
    note_jobs(list, o, doc.no)
}
